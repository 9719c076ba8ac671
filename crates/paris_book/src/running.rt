//! Orders that a book runs by itself, while others may be out.

ghost use Rattle.std.specs.Prelude.{◌≡◌, ◌<◌, ◌≤◌, None, is_some, IsSome, IfOk, OnOk, OnErr};
ghost use Rattle.std.specs.Option.{option_map};
ghost use Rattle.paris_exec.specs.Tasks.{Task};
ghost use Rattle.paris_events.specs.CutOff.{IsAtRest};
ghost use Rattle.paris_events.specs.Orders.{take_reply};
ghost use Rattle.paris_events.specs.Settling.{after_run, ran_orders};
ghost use Rattle.paris_book.specs.RanIds.{ran_ids};
ghost use Rattle.paris_book.specs.Rounds.{ran_of};
ghost use Rattle.paris_book.specs.Unsettled.{filled};

use crate::book::Book;
use crate::listing::put_id;
use crate::looks::first_ready;
use crate::loose::Loose;
use crate::settlement::SettleFault;
use paris_exec::OpenGate;
use paris_names::RowId;
use std::alloc::AllocError;

impl Loose {
    /// The row of the order that a take would give. `None` where there is none.
    fn ready_row(&self) -> Option<RowId>
        ensures { result ≡ option_map (λ (t : Task). t.id) (take_reply self.now) }
    {
        let Some(place) = first_ready(&self.rows) else {
            return None;
        };
        let (id, _) = self.rows.at(place);
        Some(id)
    }

    /// Runs the order that a take would give, and keeps the result, with the rows that are cut off then. The answer is whether there
    /// was one. The error says that memory was refused, and nothing has changed. No row could be cut off before.
    fn run_next(&mut self) -> Result<bool, AllocError>
        requires { IsAtRest self.old }
        ensures ran { IfOk result (λ ran. ran ≡ is_some (take_reply self.old)) }
        ensures state { OnOk result (self.new ≡ after_run self.old) }
        ensures err { OnErr result (self.new ≡ self.old) }
        ensures ready { OnErr result (IsSome (take_reply self.old)) }
    {
        let Some(place) = first_ready(&self.rows) else {
            return Ok(false);
        };
        self.ids_are_apart();
        if !self.run_own(&OpenGate, place)? {
            unreachable!();
        }
        self.cut_behind(place);
        Ok(true)
    }
}

impl Book {
    /// The same.
    fn run_one(&mut self) -> Result<bool, AllocError>
        ensures ran { IfOk result (λ ran. ran ≡ is_some (take_reply self.old)) }
        ensures state { OnOk result (self.new ≡ after_run self.old) }
        ensures err { OnErr result (self.new ≡ self.old) }
        ensures ready { OnErr result (IsSome (take_reply self.old)) }
    {
        self.loose.run_next()
    }

    /// Whether a row is ready, so that a take would give an order. It takes no memory.
    pub fn has_ready(&self) -> bool
        ensures { result ≡ is_some (take_reply self.now) }
    {
        self.loose.ready_row().is_some()
    }

    /// Takes orders, executes them and brings their results, one after another: at most so many, and fewer where no row is ready any
    /// more. Orders that are out stay so, and what they bring is judged as ever. The answer is how many were run. The error says that
    /// memory was refused, and holds how many were run all the same; nothing else has changed.
    pub fn run(&mut self, most: u64) -> Result<u64, SettleFault>
        ensures state { self.new ≡ ran_orders (ran_of result) self.old }
        ensures most { ran_of result ≤ most }
        ensures all { IfOk result (λ ran. ran < most → take_reply self.new ≡ None) }
        ensures fewer { OnErr result (ran_of result < most) }
        ensures ready { OnErr result (IsSome (take_reply self.new)) }
    {
        self.run_ids(most, &mut [])
    }

    /// Runs orders as `run` does, and puts the ids of their rows into a room, one after another, as many as it has places for.
    pub fn run_ids(&mut self, most: u64, room: &mut [u64]) -> Result<u64, SettleFault>
        ensures state { self.new ≡ ran_orders (ran_of result) self.old }
        ensures ids { room.new ≡ filled room.old (ran_ids (ran_of result) self.old) }
        ensures most { ran_of result ≤ most }
        ensures all { IfOk result (λ ran. ran < most → take_reply self.new ≡ None) }
        ensures fewer { OnErr result (ran_of result < most) }
        ensures ready { OnErr result (IsSome (take_reply self.new)) }
    {
        for ran in 0..most {
            let Some(id) = self.loose.ready_row() else {
                return Ok(ran);
            };
            let Ok(_) = self.run_one() else {
                return Err(SettleFault { ran });
            };
            put_id(room, ran as usize, id.0);
        }
        Ok(most)
    }
}
