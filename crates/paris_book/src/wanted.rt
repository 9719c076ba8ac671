//! Settling what one value stands on, and no more.

ghost use Rattle.std.specs.Prelude.{◌≡◌, ◌∷◌, [], ◌+◌, ◌<◌, ◌≤◌, Err, Some, length, map, slice_get, slice_set, take, true, IfOk, IfErr, OnOk, OnErr};
ghost use Rattle.std.specs.Option.{option_map};
ghost use Rattle.paris_names.specs.declared.keys.Key.{Key as AnyKey};
ghost use Rattle.paris_names.specs.Keys.{has_key};
ghost use Rattle.paris_board.specs.Board.{key_named};
ghost use Rattle.paris_depends.specs.Sweeps.{marked};
ghost use Rattle.paris_events.specs.Settling.{all_settled, due};
ghost use Rattle.paris_events.specs.State.{Row, place_of_spot};
ghost use Rattle.paris_events.specs.Events.{has_value};
ghost use Rattle.paris_events.specs.Show.{show_reply};
ghost use Rattle.paris_book.specs.Entries.{machine_row};
ghost use Rattle.paris_book.specs.RanIds.{ran_ids_for, turned_ids};
ghost use Rattle.paris_book.specs.Rounds.{Advances, StaySettled, ran_of};
ghost use Rattle.paris_book.specs.Stopped.{IsStoppedFor, StayUnsettled, StopsAmong, StopsAt};
ghost use Rattle.paris_book.specs.Unsettled.{filled};
ghost use Rattle.paris_book.specs.Wanted.{SettledAreFirm, has_turn, stands_on, settled_for, turned_all, wanted_from, wants};

use crate::book::Book;
use crate::listing::put_id;
use crate::loose::Loose;
use crate::program_rows::Rows;
use crate::rows::RowData;
use crate::settlement::SettleFault;
use paris_depends::{is_any_marked, mark};
use paris_exec::OpenGate;
use paris_names::{Fault, Key, KeyName, RowId, Spot};
use std::alloc::{AllocError, Global};

/// Carries the marks of the keys that are wanted back past a row, and answers whether the row is wanted and unsettled.
pub(crate) fn carry_back(wanted: &mut [bool; 128], id: RowId, row: &RowData) -> bool
    ensures turn { result ≡ has_turn (marked wanted.old) (machine_row (id.0, row.now)) }
    ensures marks { (k : AnyKey) → marked wanted.new k ≡ wants (marked wanted.old) (machine_row (id.0, row.now)) k }
{
    let plan = row.plan();
    if !is_any_marked(wanted, plan.writes()) {
        return false;
    }
    mark(wanted, plan.writes(), false);
    if row.status().is_settled() {
        return false;
    }
    mark(wanted, plan.reads(), true);
    true
}

/// The places of the unsettled rows that the value of a key at a place stands on, from the last row to the first. Rows before the
/// first unsettled one aren't looked at. The error says that memory for such a place was refused.
fn places_for(alloc: Global, rows: &Rows, place: usize, key: Key) -> Result<Vec<usize>, AllocError>
    requires { place ≤ length rows.now.rows }
    ensures places { IfOk result (λ places. places.items ≡ wanted_from (has_key (key ∷ [])) 0 (take place (map machine_row rows.now.rows))) }
    ensures some { OnErr result (0 < length (wanted_from (has_key (key ∷ [])) 0 (take place (map machine_row rows.now.rows)))) }
{
    let mut places = Vec::new(alloc);
    let mut wanted = [false; 128];
    mark(&mut wanted, &[key], true);
    let start = rows.next_unsettled(0).unwrap_or(place);
    let mut at = place;
    while at > start {
        at -= 1;
        let (id, row) = rows.at(at);
        if carry_back(&mut wanted, id, row) {
            places.push(at)?;
        }
    }
    Ok(places)
}

/// Puts the id of a row that had its turn into a room, where it was run and the room has that place.
fn put_ran(room: &mut [u64], at: u64, more: u64, id: Option<RowId>)
    ensures none { more ≡ 0 → room.new ≡ room.old }
    ensures put { (i : RowId) → 0 < more → id ≡ Some i → room.new ≡ slice_set room.old at i.0 }
{
    if let (1.., Some(id)) = (more, id) {
        put_id(room, at as usize, id.0);
    }
}

impl Loose {
    /// What a settled row reads is settled, or the start. It changes nothing: what it ensures is the law.
    fn settled_are_firm(&self)
        ensures { SettledAreFirm self.now }
    {
        // Whoever touches a part knows the invariant.
        let _rows = &self.rows;
    }

    /// The id of the row at a place. `None` where there is no row.
    fn id_at(&self, place: usize) -> Option<RowId>
        ensures { result ≡ option_map (λ (r : Row). r.id) (slice_get self.now.rows place) }
    {
        if place >= self.rows.len() {
            return None;
        }
        let (id, _) = self.rows.at(place);
        Some(id)
    }

    /// The key and the place that a look is at. The error is the look's.
    pub(crate) fn found(&self, name: KeyName, spot: Spot) -> Result<(Key, usize), Fault>
        ensures key { IfOk result (λ found. key_named self.now.board name ≡ Some found.0) }
        ensures place { IfOk result (λ found. place_of_spot self.now spot ≡ Some found.1) }
        ensures within { IfOk result (λ found. found.1 ≤ length self.now.rows) }
        ensures refused { IfErr result (λ fault. Err fault ≡ show_reply self.now name spot) }
    {
        let key = self.board.key_of(name)?;
        let place = self.place_of_spot(spot)?;
        Ok((key, place))
    }

    /// Gives the rows at these places their turn, the last of them first, and puts the ids of those that are run into a room. The answer
    /// is how many were run, at an error too, which says that memory was refused for the next one.
    #[tactic(auto, using(crate::proofs::Stopping::none_turned))]
    fn turn_all(&mut self, places: Vec<usize>, room: &mut [u64]) -> Result<u64, SettleFault>
        ensures ids { room.new ≡ filled room.old (take (ran_of result) (turned_ids places.items self.old)) }
        ensures state { OnOk result (self.new ≡ turned_all places.items self.old) }
        ensures advances { Advances (ran_of result) self.old self.new }
        ensures stopped { OnErr result (StopsAt places.items self.old self.new) }
    {
        // How many rows are unsettled bounds how many are run.
        let _unsettled = self.unsettled_count();
        let mut left = places;
        let mut ran = 0;
        while let Some(place) = left.pop() {
            let id = self.id_at(place);
            let Ok(more) = self.turn_at(&OpenGate, place) else {
                return Err(SettleFault { ran });
            };
            put_ran(room, ran, more, id);
            ran += more;
        }
        Ok(ran)
    }

    /// Gives the rows that the value of a key at a place stands on their turn, in program order, and puts the ids of those that are run
    /// into a room. The answer is how many were run, at an error too, which says that memory was refused.
    fn turn_for(&mut self, place: usize, key: Key, room: &mut [u64]) -> Result<u64, SettleFault>
        requires { place ≤ length self.old.rows }
        ensures ids { room.new ≡ filled room.old (take (ran_of result) (turned_ids (stands_on self.old place key) self.old)) }
        ensures state { OnOk result (self.new ≡ turned_all (stands_on self.old place key) self.old) }
        ensures advances { Advances (ran_of result) self.old self.new }
        ensures stopped { OnErr result (StopsAmong (stands_on self.old place key) self.old self.new) }
    {
        let Ok(places) = places_for(self.alloc, &self.rows, place, key) else {
            return Err(SettleFault { ran: 0 });
        };
        self.turn_all(places, room)
    }
}

impl Book {
    /// Settles the value of a key at a place of the program: runs the unsettled rows that it stands on, in program order, and no
    /// other. Rows that would compute again what they computed last aren't run, and one of which an order is out is run here too. The
    /// answer is how many orders were run.
    ///
    /// The outer error is that of a look, and nothing has changed. The inner one says that memory was refused, and comes only where the
    /// value isn't shown yet: the rows of the orders that were run are settled, those that were settled stay so, and those that are
    /// still unsettled wait or are out as they were.
    pub fn settle_for(
        &mut self,
        name: KeyName,
        spot: Spot,
    ) -> Result<Result<u64, SettleFault>, Fault>
        ensures state { IfOk result (λ ran. OnOk ran (self.new ≡ settled_for self.old name spot)) }
        ensures shown { IfOk result (λ ran. OnOk ran (has_value (show_reply self.new name spot) ≡ true)) }
        ensures count { IfOk result (λ ran. due self.new + ran_of ran ≡ due self.old) }
        ensures same { OnOk result (all_settled self.new ≡ all_settled self.old) }
        ensures stay { OnOk result (StaySettled self.old.rows self.new.rows) }
        ensures unsettled { OnOk result (StayUnsettled self.old.rows self.new.rows) }
        ensures stopped { IfOk result (λ ran. IfErr ran (λ fault. IsStoppedFor name spot fault.ran self.old self.new)) }
        ensures refused { IfErr result (λ fault. Err fault ≡ show_reply self.old name spot) }
        ensures err { OnErr result (self.new ≡ self.old) }
    {
        self.settle_for_ids(name, spot, &mut [])
    }

    /// Settles a value as `settle_for` does, and puts the ids of the rows that are run into a room, in program order, as many as it has
    /// places for.
    pub fn settle_for_ids(
        &mut self,
        name: KeyName,
        spot: Spot,
        room: &mut [u64],
    ) -> Result<Result<u64, SettleFault>, Fault>
        ensures ids { IfOk result (λ ran. room.new ≡ filled room.old (take (ran_of ran) (ran_ids_for self.old name spot))) }
        ensures state { IfOk result (λ ran. OnOk ran (self.new ≡ settled_for self.old name spot)) }
        ensures shown { IfOk result (λ ran. OnOk ran (has_value (show_reply self.new name spot) ≡ true)) }
        ensures count { IfOk result (λ ran. due self.new + ran_of ran ≡ due self.old) }
        ensures same { OnOk result (all_settled self.new ≡ all_settled self.old) }
        ensures stay { OnOk result (StaySettled self.old.rows self.new.rows) }
        ensures unsettled { OnOk result (StayUnsettled self.old.rows self.new.rows) }
        ensures stopped { IfOk result (λ ran. IfErr ran (λ fault. IsStoppedFor name spot fault.ran self.old self.new)) }
        ensures refused { IfErr result (λ fault. Err fault ≡ show_reply self.old name spot) }
        ensures err { OnErr result (self.new ≡ self.old) }
        ensures room { OnErr result (room.new ≡ room.old) }
    {
        let (key, place) = self.loose.found(name, spot)?;
        let ran = self.loose.turn_for(place, key, room);
        self.loose.cut_off();
        self.loose.settled_are_firm();
        Ok(ran)
    }
}
