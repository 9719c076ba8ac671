//! What a session runs itself, and what it tells of unsettled rows, as C calls it.

ghost use Rattle.std.specs.Prelude.{◌≡◌, ◌≢◌, ◌⊎◌, ◌<◌, ◌≤◌, Some, None};
ghost use Rattle.paris_text.specs.Words.{key_word};
ghost use Rattle.paris_c.specs.Calls.{looked, ShowsFault};
ghost use Rattle.paris_c.specs.TurnCalls.{origin_looked, HasRanFor, HasRanIds, HasRunOrders, HasRunAll, HasReady, HasUnsettled, CountsUnsettled, HasTouched, CountsTouched, HasEdits, HasOrigin, HasOriginFault, IsSettledFor, IsPartlySettledFor};
ghost use Rattle.paris_c.specs.declared.statuses.TheConstants.{OK, NO_KEY, PARTLY};

use crate::contents::Contents;
use crate::looks::spot_at;
use crate::statuses::{self, NO_KEY, OK, PARTLY};
use paris_text::key_of_word;

impl Contents {
    /// Runs at most so many orders, puts the ids of their rows into a room, as many as there is room for, and says how many were run. Where
    /// memory is refused, it says this too.
    pub(crate) fn run(&mut self, most: u64, room: &mut [u64], ran: &mut u64) -> u32
        ensures ids { HasRanIds (Some self.old) ran.new room.old room.new }
        ensures ran { HasRunOrders (Some self.old) (Some self.new) ran.new }
        ensures most { ran.new ≤ most }
        ensures all { result ≡ OK → HasRunAll (Some self.new) most ran.new }
        ensures fewer { result ≡ PARTLY → ran.new < most }
        ensures ready { result ≡ PARTLY → HasReady (Some self.new) }
        ensures status { (result ≡ OK) ⊎ (result ≡ PARTLY) }
    {
        match self.session.run_ids(most, room) {
            Ok(count) => {
                *ran = count;
                OK
            }
            Err(fault) => {
                *ran = fault.ran;
                PARTLY
            }
        }
    }

    /// Puts the ids of the unsettled rows into a room, as many as there is room for, and says how many rows are unsettled.
    pub(crate) fn unsettled(&self, room: &mut [u64], count: &mut usize)
        ensures ids { HasUnsettled (Some self.now) room.old room.new }
        ensures count { CountsUnsettled (Some self.now) count.new }
    {
        *count = self.session.unsettled_ids(room);
    }

    /// Puts the ids of the rows that an edit behind the first so many touched into a room, as many as there is room for, and says how
    /// many rows these are, and how many edits were accepted.
    pub(crate) fn touched(&self, since: u64, room: &mut [u64], count: &mut usize, edits: &mut u64)
        ensures ids { HasTouched (Some self.now) since room.old room.new }
        ensures count { CountsTouched (Some self.now) since count.new }
        ensures edits { HasEdits (Some self.now) edits.new }
    {
        *count = self.session.touched_ids(since, room);
        *edits = self.session.edits();
    }

    /// Says the row that gives the key of a word its value at a place, and 0 for the start.
    pub(crate) fn origin(&self, key: &[u8], place: u64, row: &mut u64) -> u32
        ensures origin { result ≡ OK → HasOrigin (origin_looked (Some self.now) (key_word key.now) place) row.new }
        ensures fault { 1 ≤ result → result ≤ 23 → HasOriginFault (origin_looked (Some self.now) (key_word key.now) place) result }
        ensures key { result ≡ NO_KEY → key_word key.now ≡ None }
        ensures status { (result ≤ 23) ⊎ (result ≡ NO_KEY) }
    {
        let Some(key) = key_of_word(key) else {
            return NO_KEY;
        };
        match self.session.origin(key, spot_at(place)) {
            Ok(None) => {
                *row = 0;
                OK
            }
            Ok(Some(id)) => {
                *row = id.0;
                OK
            }
            Err(fault) => statuses::of_fault(fault),
        }
    }

    /// Settles what the key of a word stands on at a place, puts the ids of the rows that are run into a room, as many as there is room
    /// for, and says how many orders were run. Where memory is refused, it says this too.
    pub(crate) fn settle_for(
        &mut self,
        key: &[u8],
        place: u64,
        room: &mut [u64],
        ran: &mut u64,
    ) -> u32
        ensures ids { (result ≡ OK) ⊎ (result ≡ PARTLY) → HasRanFor (Some self.old) (key_word key.now) place ran.new room.old room.new }
        ensures room { result ≢ OK → result ≢ PARTLY → room.new ≡ room.old }
        ensures settled { result ≡ OK → IsSettledFor (Some self.old) (Some self.new) (key_word key.now) place ran.new }
        ensures partly { result ≡ PARTLY → IsPartlySettledFor (Some self.old) (Some self.new) (key_word key.now) place ran.new }
        ensures fault { 1 ≤ result → result ≤ 23 → ShowsFault (looked (Some self.old) (key_word key.now) place) result }
        ensures key { result ≡ NO_KEY → key_word key.now ≡ None }
        ensures kept { result ≢ OK → result ≢ PARTLY → self.new ≡ self.old }
        ensures status { (result ≤ 23) ⊎ ((result ≡ NO_KEY) ⊎ (result ≡ PARTLY)) }
    {
        let Some(key) = key_of_word(key) else {
            return NO_KEY;
        };
        match self.session.settle_for_ids(key, spot_at(place), room) {
            Ok(Ok(count)) => {
                *ran = count;
                OK
            }
            Ok(Err(fault)) => {
                *ran = fault.ran;
                PARTLY
            }
            Err(fault) => statuses::of_fault(fault),
        }
    }
}
