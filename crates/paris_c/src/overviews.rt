//! The calls from C for what a value comes to, and for where two sessions differ.

ghost use Rattle.std.specs.Prelude.{◌≡◌, ◌≢◌, ◌⊎◌, ◌≤◌, None, length};
ghost use Rattle.paris_text.specs.Words.{key_word};
ghost use Rattle.paris_c.specs.Calls.{looked, ShowsCount, ShowsPending, ShowsFault};
ghost use Rattle.paris_c.specs.StretchCalls.{AreUnlike, IsNoCut, OfTwo, ShowsDifferences, ShowsOthers, ShowsSummaries};
ghost use Rattle.paris_c.specs.declared.statuses.TheConstants.{OK, CLOSED, NO_KEY, PENDING, WRONG_ROOM, UNLIKE};

use crate::handle::Handle;
use crate::statuses::CLOSED;
use crate::stretches::Summary;
use std::alloc::Global;

/// Says of how many processors the number that the key of a word holds at a place of the program is other than 0. Where a row is pending,
/// it says its id.
#[unsafe(no_mangle)]
pub extern "C" fn paris_count(
    alloc: Global,
    handle: &mut Handle,
    key: &[u8],
    place: u64,
    count: &mut u64,
) -> u32
    ensures count { result ≡ OK → ShowsOthers (looked handle.old.kept.value (key_word key.now) place) count.new }
    ensures pending { result ≡ PENDING → ShowsPending (looked handle.old.kept.value (key_word key.now) place) count.new }
    ensures fault { 1 ≤ result → result ≤ 23 → ShowsFault (looked handle.old.kept.value (key_word key.now) place) result }
    ensures closed { handle.old.kept.value ≡ None → result ≡ CLOSED }
    ensures was_closed { result ≡ CLOSED → handle.old.kept.value ≡ None }
    ensures key { result ≡ NO_KEY → key_word key.now ≡ None }
    ensures status { (result ≤ 23) ⊎ ((result ≡ CLOSED) ⊎ ((result ≡ NO_KEY) ⊎ (result ≡ PENDING))) }
    ensures kept { handle.new.kept.value ≡ handle.old.kept.value }
{
    let Some(contents) = handle.take(alloc) else {
        return CLOSED;
    };
    let status = contents.count(key, place, count);
    handle.put(contents);
    status
}

/// Puts what the numbers that the key of a word holds at a place of the program come to into a room, in as many stretches of the
/// processors as the room has places, and says how many numbers there are. Where a row is pending, it says its id.
#[unsafe(no_mangle)]
pub extern "C" fn paris_summary(
    alloc: Global,
    handle: &mut Handle,
    key: &[u8],
    place: u64,
    room: &mut [Summary],
    told: &mut u64,
) -> u32
    ensures summaries { result ≡ OK → ShowsSummaries (looked handle.old.kept.value (key_word key.now) place) (length room.old) room.new }
    ensures count { (result ≡ OK) ⊎ (result ≡ WRONG_ROOM) → ShowsCount (looked handle.old.kept.value (key_word key.now) place) told.new }
    ensures pending { result ≡ PENDING → ShowsPending (looked handle.old.kept.value (key_word key.now) place) told.new }
    ensures fault { 1 ≤ result → result ≤ 23 → ShowsFault (looked handle.old.kept.value (key_word key.now) place) result }
    ensures closed { handle.old.kept.value ≡ None → result ≡ CLOSED }
    ensures was_closed { result ≡ CLOSED → handle.old.kept.value ≡ None }
    ensures key { result ≡ NO_KEY → key_word key.now ≡ None }
    ensures cut { result ≡ WRONG_ROOM → IsNoCut (length room.old) told.new }
    ensures status { (result ≤ 23) ⊎ ((result ≡ CLOSED) ⊎ ((result ≡ NO_KEY) ⊎ ((result ≡ PENDING) ⊎ (result ≡ WRONG_ROOM)))) }
    ensures room { result ≢ OK → room.new ≡ room.old }
    ensures kept { handle.new.kept.value ≡ handle.old.kept.value }
{
    let Some(contents) = handle.take(alloc) else {
        return CLOSED;
    };
    let status = contents.summary(key, place, room, told);
    handle.put(contents);
    status
}

/// Puts a 1 for each stretch of the processors in which what the key of a word holds at a place of the program differs from what it holds
/// there in another session into a room, and a 0 for each other one, in as many stretches as the room has bytes, and says how many
/// processors there are. Where a row is pending, it says its id.
#[unsafe(no_mangle)]
pub extern "C" fn paris_differs(
    alloc: Global,
    handle: &mut Handle,
    other: &mut Handle,
    key: &[u8],
    place: u64,
    room: &mut [u8],
    told: &mut u64,
) -> u32
    ensures differences { result ≡ OK → ShowsDifferences (looked handle.old.kept.value (key_word key.now) place) (looked other.old.kept.value (key_word key.now) place) (length room.old) room.new }
    ensures count { (result ≡ OK) ⊎ (result ≡ WRONG_ROOM) → ShowsCount (looked handle.old.kept.value (key_word key.now) place) told.new }
    ensures pending { result ≡ PENDING → OfTwo ShowsPending (looked handle.old.kept.value (key_word key.now) place) (looked other.old.kept.value (key_word key.now) place) told.new }
    ensures fault { 1 ≤ result → result ≤ 23 → OfTwo ShowsFault (looked handle.old.kept.value (key_word key.now) place) (looked other.old.kept.value (key_word key.now) place) result }
    ensures closed { handle.old.kept.value ≡ None → result ≡ CLOSED }
    ensures other_closed { other.old.kept.value ≡ None → result ≡ CLOSED }
    ensures was_closed { result ≡ CLOSED → (handle.old.kept.value ≡ None) ⊎ (other.old.kept.value ≡ None) }
    ensures key { result ≡ NO_KEY → key_word key.now ≡ None }
    ensures cut { result ≡ WRONG_ROOM → IsNoCut (length room.old) told.new }
    ensures unlike { result ≡ UNLIKE → AreUnlike (looked handle.old.kept.value (key_word key.now) place) (looked other.old.kept.value (key_word key.now) place) }
    ensures status { (result ≤ 23) ⊎ ((result ≡ CLOSED) ⊎ ((result ≡ NO_KEY) ⊎ ((result ≡ PENDING) ⊎ ((result ≡ WRONG_ROOM) ⊎ (result ≡ UNLIKE))))) }
    ensures room { result ≢ OK → room.new ≡ room.old }
    ensures kept { handle.new.kept.value ≡ handle.old.kept.value }
    ensures other_kept { other.new.kept.value ≡ other.old.kept.value }
{
    let Some(contents) = handle.take(alloc) else {
        return CLOSED;
    };
    let Some(others) = other.take(alloc) else {
        handle.put(contents);
        return CLOSED;
    };
    let status = contents.differs(&others, key, place, room, told);
    other.put(others);
    handle.put(contents);
    status
}
