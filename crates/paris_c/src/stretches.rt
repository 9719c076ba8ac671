//! What the numbers of a value come to, and where two values differ, in stretches of their processors.

ghost use Rattle.std.specs.Prelude.{◌≡◌, ◌≢◌, ◌⊎◌, ◌≤◌, Some, None, Ok, length, map};
ghost use Rattle.paris_events.specs.declared.events.Shown.TheVariants.{Settled};
ghost use Rattle.paris_text.specs.Words.{key_word};
ghost use Rattle.paris_stretches.specs.Stretches.{differences};
ghost use Rattle.paris_c.specs.Calls.{looked, wide_of, ShowsCount, ShowsPending, ShowsFault};
ghost use Rattle.paris_c.specs.StretchCalls.{summaries, summary_number, AreUnlike, IsNoCut, OfTwo, ShowsDifferences, ShowsOthers, ShowsSummaries};
ghost use Rattle.paris_c.specs.declared.statuses.TheConstants.{OK, CLOSED, NO_KEY, PENDING, WRONG_ROOM, UNLIKE};

use crate::contents::Contents;
use crate::looks::spot_at;
use crate::statuses::{self, NO_KEY, OK, PENDING, UNLIKE, WRONG_ROOM};
use crate::wide::Wide;
use paris_book::Look;
use paris_field::FieldValue;
use paris_stretches::{Sum, count_of, put_differences, summary_of};
use paris_text::key_of_word;

/// What the numbers of a stretch come to: the least, the greatest, their sum, and how many are other than 0.
#[repr(C)]
#[derive(Clone, Copy)]
pub struct Summary {
    pub least: Wide,
    pub greatest: Wide,
    pub sum: Sum,
    pub others: u64,
}

impl Summary {
    /// A summary in words.
    fn of(summary: paris_stretches::Summary) -> Summary
        ensures least { result.least ≡ wide_of summary.least }
        ensures greatest { result.greatest ≡ wide_of summary.greatest }
        ensures sum { result.sum ≡ summary.sum }
        ensures others { result.others ≡ summary.others }
    {
        Summary {
            least: Wide::of(summary.least),
            greatest: Wide::of(summary.greatest),
            sum: summary.sum,
            others: summary.others,
        }
    }
}

/// Puts what the numbers of a value come to into a room, in as many stretches as the room has places, and says how many processors there
/// are. It takes no memory.
fn put_summaries(value: &FieldValue, room: &mut [Summary], told: &mut u64) -> u32
    ensures summaries { result ≡ OK → map summary_number room.new ≡ summaries (length room.old) value.now.numbers }
    ensures told { told.new ≡ length value.now.numbers }
    ensures kept { result ≢ OK → room.new ≡ room.old }
    ensures cut { result ≡ WRONG_ROOM → IsNoCut (length room.old) (length value.now.numbers) }
    ensures status { (result ≡ OK) ⊎ (result ≡ WRONG_ROOM) }
{
    let parts = room.len();
    *told = value.len() as u64;
    if parts == 0 || parts > value.len() {
        return WRONG_ROOM;
    }
    for i in 0..parts {
        room[i] = Summary::of(summary_of(value, parts, i));
    }
    OK
}

/// Puts a 1 for each stretch in which two values differ into a room, and a 0 for each other one, in as many stretches as the room has
/// bytes, and says how many processors the first has. It takes no memory.
fn compare(x: &FieldValue, y: &FieldValue, room: &mut [u8], told: &mut u64) -> u32
    ensures differences { result ≡ OK → room.new ≡ differences (length room.old) x.now.numbers y.now.numbers }
    ensures told { told.new ≡ length x.now.numbers }
    ensures kept { result ≢ OK → room.new ≡ room.old }
    ensures cut { result ≡ WRONG_ROOM → IsNoCut (length room.old) (length x.now.numbers) }
    ensures unlike { result ≡ UNLIKE → (x.now.width ≡ y.now.width) × (length x.now.numbers ≡ length y.now.numbers) → ⊥ }
    ensures status { (result ≡ OK) ⊎ ((result ≡ WRONG_ROOM) ⊎ (result ≡ UNLIKE)) }
{
    let parts = room.len();
    *told = x.len() as u64;
    if x.width() != y.width() || x.len() != y.len() {
        return UNLIKE;
    }
    if parts == 0 || parts > x.len() {
        return WRONG_ROOM;
    }
    put_differences(x, y, room);
    OK
}

impl Contents {
    /// Says of how many processors the number that the key of a word holds at a place is other than 0. Where a row is pending, it says its
    /// id. It takes no memory.
    pub(crate) fn count(&self, key: &[u8], place: u64, count: &mut u64) -> u32
        ensures count { result ≡ OK → ShowsOthers (looked (Some self.now) (key_word key.now) place) count.new }
        ensures pending { result ≡ PENDING → ShowsPending (looked (Some self.now) (key_word key.now) place) count.new }
        ensures fault { 1 ≤ result → result ≤ 23 → ShowsFault (looked (Some self.now) (key_word key.now) place) result }
        ensures key { result ≡ NO_KEY → key_word key.now ≡ None }
        ensures status { (result ≤ 23) ⊎ ((result ≡ NO_KEY) ⊎ (result ≡ PENDING)) }
        ensures open { result ≢ CLOSED }
    {
        let Some(key) = key_of_word(key) else {
            return NO_KEY;
        };
        match self.session.look(key, spot_at(place)) {
            Ok(Look::Settled(value)) => {
                *count = count_of(value);
                OK
            }
            Ok(Look::Pending(id)) => {
                *count = id.0;
                PENDING
            }
            Err(fault) => statuses::of_fault(fault),
        }
    }

    /// Puts what the numbers that the key of a word holds at a place come to into a room, in as many stretches as the room has places, and
    /// says how many numbers there are. Where a row is pending, it says its id. It takes no memory.
    pub(crate) fn summary(
        &self,
        key: &[u8],
        place: u64,
        room: &mut [Summary],
        told: &mut u64,
    ) -> u32
        ensures summaries { result ≡ OK → ShowsSummaries (looked (Some self.now) (key_word key.now) place) (length room.old) room.new }
        ensures count { (result ≡ OK) ⊎ (result ≡ WRONG_ROOM) → ShowsCount (looked (Some self.now) (key_word key.now) place) told.new }
        ensures pending { result ≡ PENDING → ShowsPending (looked (Some self.now) (key_word key.now) place) told.new }
        ensures fault { 1 ≤ result → result ≤ 23 → ShowsFault (looked (Some self.now) (key_word key.now) place) result }
        ensures key { result ≡ NO_KEY → key_word key.now ≡ None }
        ensures cut { result ≡ WRONG_ROOM → IsNoCut (length room.old) told.new }
        ensures kept { result ≢ OK → room.new ≡ room.old }
        ensures status { (result ≤ 23) ⊎ ((result ≡ NO_KEY) ⊎ ((result ≡ PENDING) ⊎ (result ≡ WRONG_ROOM))) }
        ensures open { result ≢ CLOSED }
    {
        let Some(key) = key_of_word(key) else {
            return NO_KEY;
        };
        match self.session.look(key, spot_at(place)) {
            Ok(Look::Settled(value)) => put_summaries(value, room, told),
            Ok(Look::Pending(id)) => {
                *told = id.0;
                PENDING
            }
            Err(fault) => statuses::of_fault(fault),
        }
    }

    /// Puts a 1 for each stretch in which a value differs from what the key of a word holds at a place here into a room, and a 0 for each other one.
    fn differs_from(
        &self,
        value: &FieldValue,
        key: &[u8],
        place: u64,
        room: &mut [u8],
        told: &mut u64,
    ) -> u32
        ensures differences { result ≡ OK → ShowsDifferences (Some (Ok (Settled value.now))) (looked (Some self.now) (key_word key.now) place) (length room.old) room.new }
        ensures count { (result ≡ OK) ⊎ (result ≡ WRONG_ROOM) → told.new ≡ length value.now.numbers }
        ensures pending { result ≡ PENDING → ShowsPending (looked (Some self.now) (key_word key.now) place) told.new }
        ensures fault { 1 ≤ result → result ≤ 23 → ShowsFault (looked (Some self.now) (key_word key.now) place) result }
        ensures cut { result ≡ WRONG_ROOM → IsNoCut (length room.old) told.new }
        ensures unlike { result ≡ UNLIKE → AreUnlike (Some (Ok (Settled value.now))) (looked (Some self.now) (key_word key.now) place) }
        ensures kept { result ≢ OK → room.new ≡ room.old }
        ensures status { (result ≤ 23) ⊎ ((result ≡ NO_KEY) ⊎ ((result ≡ PENDING) ⊎ ((result ≡ WRONG_ROOM) ⊎ (result ≡ UNLIKE)))) }
        ensures key { result ≡ NO_KEY → key_word key.now ≡ None }
        ensures open { result ≢ CLOSED }
    {
        let Some(key) = key_of_word(key) else {
            return NO_KEY;
        };
        match self.session.look(key, spot_at(place)) {
            Ok(Look::Settled(other)) => compare(value, other, room, told),
            Ok(Look::Pending(id)) => {
                *told = id.0;
                PENDING
            }
            Err(fault) => statuses::of_fault(fault),
        }
    }

    /// Puts a 1 for each stretch in which what the key of a word holds at a place differs from what it holds there in another session into a
    /// room, and a 0 for each other one, in as many stretches as the room has bytes, and says how many processors there are. Where a row is
    /// pending here, it says its id, and else where one is pending there. It takes no memory.
    pub(crate) fn differs(
        &self,
        other: &Contents,
        key: &[u8],
        place: u64,
        room: &mut [u8],
        told: &mut u64,
    ) -> u32
        ensures differences { result ≡ OK → ShowsDifferences (looked (Some self.now) (key_word key.now) place) (looked (Some other.now) (key_word key.now) place) (length room.old) room.new }
        ensures count { (result ≡ OK) ⊎ (result ≡ WRONG_ROOM) → ShowsCount (looked (Some self.now) (key_word key.now) place) told.new }
        ensures pending { result ≡ PENDING → OfTwo ShowsPending (looked (Some self.now) (key_word key.now) place) (looked (Some other.now) (key_word key.now) place) told.new }
        ensures fault { 1 ≤ result → result ≤ 23 → OfTwo ShowsFault (looked (Some self.now) (key_word key.now) place) (looked (Some other.now) (key_word key.now) place) result }
        ensures key { result ≡ NO_KEY → key_word key.now ≡ None }
        ensures cut { result ≡ WRONG_ROOM → IsNoCut (length room.old) told.new }
        ensures unlike { result ≡ UNLIKE → AreUnlike (looked (Some self.now) (key_word key.now) place) (looked (Some other.now) (key_word key.now) place) }
        ensures kept { result ≢ OK → room.new ≡ room.old }
        ensures status { (result ≤ 23) ⊎ ((result ≡ NO_KEY) ⊎ ((result ≡ PENDING) ⊎ ((result ≡ WRONG_ROOM) ⊎ (result ≡ UNLIKE)))) }
        ensures open { result ≢ CLOSED }
    {
        let Some(name) = key_of_word(key) else {
            return NO_KEY;
        };
        match self.session.look(name, spot_at(place)) {
            Ok(Look::Settled(value)) => other.differs_from(value, key, place, room, told),
            Ok(Look::Pending(id)) => {
                *told = id.0;
                PENDING
            }
            Err(fault) => statuses::of_fault(fault),
        }
    }
}
