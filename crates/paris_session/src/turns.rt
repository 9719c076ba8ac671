//! Orders that a session runs itself, with no line that says so, and what is asked of its unsettled rows.

ghost use Rattle.std.specs.Prelude.{◌≡◌, ◌+◌, ◌<◌, ◌≤◌, length, take, Err, None, true, IsSome, IfOk, IfErr, OnOk, OnErr};
ghost use Rattle.paris_names.specs.declared.limits.TheConstants.{MAX_PROCESSORS, MAX_WIDTH};
ghost use Rattle.paris_events.specs.Events.{has_value};
ghost use Rattle.paris_events.specs.Orders.{take_reply};
ghost use Rattle.paris_events.specs.Settling.{all_settled, due, unsettled_rows};
ghost use Rattle.paris_events.specs.Show.{show_reply};
ghost use Rattle.paris_book.specs.InputWidths.{input_width};
ghost use Rattle.paris_book.specs.Origins.{origin_reply};
ghost use Rattle.paris_book.specs.RanIds.{ran_ids, ran_ids_for};
ghost use Rattle.paris_book.specs.Rounds.{StaySettled, ran_of};
ghost use Rattle.paris_book.specs.Stopped.{IsStoppedFor, StayUnsettled};
ghost use Rattle.paris_book.specs.TouchedIds.{touched_ids};
ghost use Rattle.paris_book.specs.Unsettled.{filled, unsettled_ids};
ghost use Rattle.paris_book.specs.Wanted.{settled_for};
ghost use Rattle.paris_session.specs.Transcript.{with_book};
ghost use Rattle.paris_session.specs.Turns.{after_runs};

use crate::answers::Session;
use paris_book::SettleFault;
use paris_names::{Fault, KeyName, RowId, Spot};

/// How many orders were run, at an error too.
fn count_of(ran: &Result<u64, SettleFault>) -> u64
    ensures { result ≡ ran_of ran.now }
{
    match ran {
        Ok(ran) => *ran,
        Err(fault) => fault.ran,
    }
}

impl Session {
    /// Runs at most so many orders, one after another, as a take, an execution and a bring each; fewer where no row is ready any
    /// more. Orders that are out stay so. The answer is how many were run. The error says that memory was refused: as many orders
    /// were run as it says, and nothing else has changed.
    pub fn run(&mut self, most: u64) -> Result<u64, SettleFault>
        ensures state { self.new ≡ after_runs (ran_of result) self.old }
        ensures most { ran_of result ≤ most }
        ensures all { IfOk result (λ ran. ran < most → take_reply self.new.state ≡ None) }
        ensures fewer { OnErr result (ran_of result < most) }
        ensures ready { OnErr result (IsSome (take_reply self.new.state)) }
    {
        self.run_ids(most, &mut [])
    }

    /// Runs orders as `run` does, and puts the ids of their rows into a room, one after another, as many as it has places for.
    pub fn run_ids(&mut self, most: u64, room: &mut [u64]) -> Result<u64, SettleFault>
        ensures state { self.new ≡ after_runs (ran_of result) self.old }
        ensures ids { room.new ≡ filled room.old (ran_ids (ran_of result) self.old.state) }
        ensures most { ran_of result ≤ most }
        ensures all { IfOk result (λ ran. ran < most → take_reply self.new.state ≡ None) }
        ensures fewer { OnErr result (ran_of result < most) }
        ensures ready { OnErr result (IsSome (take_reply self.new.state)) }
    {
        let ran = self.book.run_ids(most, room);
        if count_of(&ran) > 0 {
            self.hand.begin();
        }
        ran
    }

    /// Settles the value of a key at a place of the program: runs the unsettled rows that it stands on, in program order, and no
    /// other. The answer is how many orders were run.
    ///
    /// The outer error is that of a look, and nothing has changed. The inner one says that memory was refused, and comes only where the
    /// value isn't shown yet: the rows of the orders that were run are settled, those that were settled stay so, and those that are
    /// still unsettled wait or are out as they were.
    pub fn settle_for(
        &mut self,
        name: KeyName,
        spot: Spot,
    ) -> Result<Result<u64, SettleFault>, Fault>
        ensures state { IfOk result (λ ran. OnOk ran (self.new ≡ with_book self.old (settled_for self.old.state name spot) self.old.hand.tray)) }
        ensures shown { IfOk result (λ ran. OnOk ran (has_value (show_reply self.new.state name spot) ≡ true)) }
        ensures count { IfOk result (λ ran. due self.new.state + ran_of ran ≡ due self.old.state) }
        ensures same { OnOk result (all_settled self.new.state ≡ all_settled self.old.state) }
        ensures stay { OnOk result (StaySettled self.old.state.rows self.new.state.rows) }
        ensures unsettled { OnOk result (StayUnsettled self.old.state.rows self.new.state.rows) }
        ensures stopped { IfOk result (λ ran. IfErr ran (λ fault. IsStoppedFor name spot fault.ran self.old.state self.new.state)) }
        ensures left { OnOk result (self.new ≡ with_book self.old self.new.state self.old.hand.tray) }
        ensures refused { IfErr result (λ fault. Err fault ≡ show_reply self.old.state name spot) }
        ensures err { OnErr result (self.new ≡ self.old) }
    {
        self.settle_for_ids(name, spot, &mut [])
    }

    /// Settles a value as `settle_for` does, and puts the ids of the rows that are run into a room, in program order, as many as it has
    /// places for.
    pub fn settle_for_ids(
        &mut self,
        name: KeyName,
        spot: Spot,
        room: &mut [u64],
    ) -> Result<Result<u64, SettleFault>, Fault>
        ensures ids { IfOk result (λ ran. room.new ≡ filled room.old (take (ran_of ran) (ran_ids_for self.old.state name spot))) }
        ensures state { IfOk result (λ ran. OnOk ran (self.new ≡ with_book self.old (settled_for self.old.state name spot) self.old.hand.tray)) }
        ensures shown { IfOk result (λ ran. OnOk ran (has_value (show_reply self.new.state name spot) ≡ true)) }
        ensures count { IfOk result (λ ran. due self.new.state + ran_of ran ≡ due self.old.state) }
        ensures same { OnOk result (all_settled self.new.state ≡ all_settled self.old.state) }
        ensures stay { OnOk result (StaySettled self.old.state.rows self.new.state.rows) }
        ensures unsettled { OnOk result (StayUnsettled self.old.state.rows self.new.state.rows) }
        ensures stopped { IfOk result (λ ran. IfErr ran (λ fault. IsStoppedFor name spot fault.ran self.old.state self.new.state)) }
        ensures left { OnOk result (self.new ≡ with_book self.old self.new.state self.old.hand.tray) }
        ensures refused { IfErr result (λ fault. Err fault ≡ show_reply self.old.state name spot) }
        ensures err { OnErr result (self.new ≡ self.old) }
        ensures room { OnErr result (room.new ≡ room.old) }
    {
        let ran = self.book.settle_for_ids(name, spot, room)?;
        self.hand.begin();
        Ok(ran)
    }

    /// Puts the ids of the unsettled rows into a room, in program order, as many as it has places for, and says how many rows are
    /// unsettled. It takes no memory.
    pub fn unsettled_ids(&self, room: &mut [u64]) -> usize
        ensures ids { room.new ≡ filled room.old (unsettled_ids self.now.state.rows) }
        ensures count { result ≡ unsettled_rows self.now.state.rows }
    {
        self.book.unsettled_ids(room)
    }

    /// Puts the ids of the rows that an edit behind the first so many touched into a room, in program order, as many as it has places
    /// for, and says how many rows these are. It takes no memory.
    pub fn touched_ids(&self, since: u64, room: &mut [u64]) -> usize
        ensures ids { room.new ≡ filled room.old (touched_ids since self.now.state.rows) }
        ensures count { result ≡ length (touched_ids since self.now.state.rows) }
    {
        self.book.touched_ids(since, room)
    }

    /// How many edits were accepted.
    pub fn edits(&self) -> u64
        ensures { result ≡ self.now.state.edits }
    {
        self.book.edits()
    }

    /// The width that so many numbers have to fit which are given to a key from a processor on. The error is why they are refused,
    /// whatever they are. It takes no memory.
    pub fn input_width(&self, key: KeyName, from: u64, count: usize) -> Result<u64, Fault>
        ensures width { result ≡ input_width self.now.state key from count }
        ensures narrow { IfOk result (λ width. width ≤ MAX_WIDTH) }
        ensures within { OnOk result (from + count ≤ MAX_PROCESSORS) }
    {
        self.book.input_width(key, from, count)
    }

    /// The row whose value a look shows, or the row that it says is pending. `None` is the start. The errors are those of a look. It
    /// takes no memory.
    pub fn origin(&self, name: KeyName, spot: Spot) -> Result<Option<RowId>, Fault>
        ensures { result ≡ origin_reply self.now.state name spot }
    {
        self.book.origin(name, spot)
    }
}
