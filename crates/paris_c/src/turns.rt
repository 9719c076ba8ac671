//! The calls from C that run what is unsettled, or tell of it.

ghost use Rattle.std.specs.Prelude.{◌≡◌, ◌≢◌, ◌⊎◌, ◌<◌, ◌≤◌, None};
ghost use Rattle.paris_text.specs.Words.{key_word};
ghost use Rattle.paris_c.specs.Calls.{looked, ShowsFault};
ghost use Rattle.paris_c.specs.TurnCalls.{origin_looked, HasRanFor, HasRanIds, HasRunOrders, HasRunAll, HasReady, HasUnsettled, CountsUnsettled, HasTouched, CountsTouched, HasEdits, HasOrigin, HasOriginFault, IsSettledFor, IsPartlySettledFor};
ghost use Rattle.paris_c.specs.declared.statuses.TheConstants.{OK, CLOSED, NO_KEY, PARTLY};

use crate::handle::Handle;
use crate::statuses::{CLOSED, OK};
use std::alloc::Global;

/// Runs at most so many orders, one after another, and says how many.
#[unsafe(no_mangle)]
pub extern "C" fn paris_run(alloc: Global, handle: &mut Handle, most: u64, ran: &mut u64) -> u32
    ensures ran { (result ≡ OK) ⊎ (result ≡ PARTLY) → HasRunOrders handle.old.kept.value handle.new.kept.value ran.new }
    ensures most { (result ≡ OK) ⊎ (result ≡ PARTLY) → ran.new ≤ most }
    ensures all { result ≡ OK → HasRunAll handle.new.kept.value most ran.new }
    ensures fewer { result ≡ PARTLY → ran.new < most }
    ensures ready { result ≡ PARTLY → HasReady handle.new.kept.value }
    ensures closed { result ≡ CLOSED → (handle.old.kept.value ≡ None) × (handle.new.kept.value ≡ None) }
    ensures status { (result ≡ OK) ⊎ ((result ≡ CLOSED) ⊎ (result ≡ PARTLY)) }
{
    let Some(mut contents) = handle.take(alloc) else {
        return CLOSED;
    };
    let status = contents.run(most, &mut [], ran);
    handle.put(contents);
    status
}

/// Runs orders as `paris_run` does, and puts the ids of their rows into a room, one after another, as many as there is room for.
#[unsafe(no_mangle)]
pub extern "C" fn paris_run_ids(
    alloc: Global,
    handle: &mut Handle,
    most: u64,
    room: &mut [u64],
    ran: &mut u64,
) -> u32
    ensures ids { (result ≡ OK) ⊎ (result ≡ PARTLY) → HasRanIds handle.old.kept.value ran.new room.old room.new }
    ensures ran { (result ≡ OK) ⊎ (result ≡ PARTLY) → HasRunOrders handle.old.kept.value handle.new.kept.value ran.new }
    ensures most { (result ≡ OK) ⊎ (result ≡ PARTLY) → ran.new ≤ most }
    ensures all { result ≡ OK → HasRunAll handle.new.kept.value most ran.new }
    ensures fewer { result ≡ PARTLY → ran.new < most }
    ensures ready { result ≡ PARTLY → HasReady handle.new.kept.value }
    ensures room { result ≡ CLOSED → room.new ≡ room.old }
    ensures closed { result ≡ CLOSED → (handle.old.kept.value ≡ None) × (handle.new.kept.value ≡ None) }
    ensures status { (result ≡ OK) ⊎ ((result ≡ CLOSED) ⊎ (result ≡ PARTLY)) }
{
    let Some(mut contents) = handle.take(alloc) else {
        return CLOSED;
    };
    let status = contents.run(most, room, ran);
    handle.put(contents);
    status
}

/// Settles the value of a key at a place, and says how many orders were run.
#[unsafe(no_mangle)]
pub extern "C" fn paris_settle_for(
    alloc: Global,
    handle: &mut Handle,
    key: &[u8],
    place: u64,
    ran: &mut u64,
) -> u32
    ensures settled { result ≡ OK → IsSettledFor handle.old.kept.value handle.new.kept.value (key_word key.now) place ran.new }
    ensures partly { result ≡ PARTLY → IsPartlySettledFor handle.old.kept.value handle.new.kept.value (key_word key.now) place ran.new }
    ensures fault { 1 ≤ result → result ≤ 23 → ShowsFault (looked handle.old.kept.value (key_word key.now) place) result }
    ensures key { result ≡ NO_KEY → key_word key.now ≡ None }
    ensures kept { result ≢ OK → result ≢ PARTLY → handle.new.kept.value ≡ handle.old.kept.value }
    ensures closed { handle.old.kept.value ≡ None → result ≡ CLOSED }
    ensures was_closed { result ≡ CLOSED → handle.old.kept.value ≡ None }
    ensures status { (result ≤ 23) ⊎ ((result ≡ CLOSED) ⊎ ((result ≡ NO_KEY) ⊎ (result ≡ PARTLY))) }
{
    let Some(mut contents) = handle.take(alloc) else {
        return CLOSED;
    };
    let status = contents.settle_for(key, place, &mut [], ran);
    handle.put(contents);
    status
}

/// Settles a value as `paris_settle_for` does, and puts the ids of the rows that are run into a room, in program order, as many as there
/// is room for.
#[unsafe(no_mangle)]
pub extern "C" fn paris_settle_for_ids(
    alloc: Global,
    handle: &mut Handle,
    key: &[u8],
    place: u64,
    room: &mut [u64],
    ran: &mut u64,
) -> u32
    ensures ids { (result ≡ OK) ⊎ (result ≡ PARTLY) → HasRanFor handle.old.kept.value (key_word key.now) place ran.new room.old room.new }
    ensures room { result ≢ OK → result ≢ PARTLY → room.new ≡ room.old }
    ensures settled { result ≡ OK → IsSettledFor handle.old.kept.value handle.new.kept.value (key_word key.now) place ran.new }
    ensures partly { result ≡ PARTLY → IsPartlySettledFor handle.old.kept.value handle.new.kept.value (key_word key.now) place ran.new }
    ensures fault { 1 ≤ result → result ≤ 23 → ShowsFault (looked handle.old.kept.value (key_word key.now) place) result }
    ensures key { result ≡ NO_KEY → key_word key.now ≡ None }
    ensures kept { result ≢ OK → result ≢ PARTLY → handle.new.kept.value ≡ handle.old.kept.value }
    ensures closed { handle.old.kept.value ≡ None → result ≡ CLOSED }
    ensures was_closed { result ≡ CLOSED → handle.old.kept.value ≡ None }
    ensures status { (result ≤ 23) ⊎ ((result ≡ CLOSED) ⊎ ((result ≡ NO_KEY) ⊎ (result ≡ PARTLY))) }
{
    let Some(mut contents) = handle.take(alloc) else {
        return CLOSED;
    };
    let status = contents.settle_for(key, place, room, ran);
    handle.put(contents);
    status
}

/// Puts the ids of the unsettled rows, in program order, into a room, as many as there is room for, and says how many rows are
/// unsettled.
#[unsafe(no_mangle)]
pub extern "C" fn paris_unsettled(
    alloc: Global,
    handle: &mut Handle,
    room: &mut [u64],
    count: &mut usize,
) -> u32
    ensures ids { result ≡ OK → HasUnsettled handle.old.kept.value room.old room.new }
    ensures count { result ≡ OK → CountsUnsettled handle.old.kept.value count.new }
    ensures room { result ≢ OK → room.new ≡ room.old }
    ensures kept { handle.new.kept.value ≡ handle.old.kept.value }
    ensures closed { handle.old.kept.value ≡ None → result ≡ CLOSED }
    ensures was_closed { result ≡ CLOSED → handle.old.kept.value ≡ None }
    ensures status { (result ≡ OK) ⊎ (result ≡ CLOSED) }
{
    let Some(contents) = handle.take(alloc) else {
        return CLOSED;
    };
    contents.unsettled(room, count);
    handle.put(contents);
    OK
}

/// Puts the ids of the rows that an edit behind the first so many touched, in program order, into a room, as many as there is room
/// for, and says how many rows these are, and how many edits were accepted.
#[unsafe(no_mangle)]
pub extern "C" fn paris_touched(
    alloc: Global,
    handle: &mut Handle,
    since: u64,
    room: &mut [u64],
    count: &mut usize,
    edits: &mut u64,
) -> u32
    ensures ids { result ≡ OK → HasTouched handle.old.kept.value since room.old room.new }
    ensures count { result ≡ OK → CountsTouched handle.old.kept.value since count.new }
    ensures edits { result ≡ OK → HasEdits handle.old.kept.value edits.new }
    ensures room { result ≢ OK → room.new ≡ room.old }
    ensures kept { handle.new.kept.value ≡ handle.old.kept.value }
    ensures closed { handle.old.kept.value ≡ None → result ≡ CLOSED }
    ensures was_closed { result ≡ CLOSED → handle.old.kept.value ≡ None }
    ensures status { (result ≡ OK) ⊎ (result ≡ CLOSED) }
{
    let Some(contents) = handle.take(alloc) else {
        return CLOSED;
    };
    contents.touched(since, room, count, edits);
    handle.put(contents);
    OK
}

/// Says the row that gives the key of a word its value at a place, and 0 for the start.
#[unsafe(no_mangle)]
pub extern "C" fn paris_origin(
    alloc: Global,
    handle: &mut Handle,
    key: &[u8],
    place: u64,
    row: &mut u64,
) -> u32
    ensures origin { result ≡ OK → HasOrigin (origin_looked handle.old.kept.value (key_word key.now) place) row.new }
    ensures fault { 1 ≤ result → result ≤ 23 → HasOriginFault (origin_looked handle.old.kept.value (key_word key.now) place) result }
    ensures key { result ≡ NO_KEY → key_word key.now ≡ None }
    ensures kept { handle.new.kept.value ≡ handle.old.kept.value }
    ensures closed { handle.old.kept.value ≡ None → result ≡ CLOSED }
    ensures was_closed { result ≡ CLOSED → handle.old.kept.value ≡ None }
    ensures status { (result ≤ 23) ⊎ ((result ≡ CLOSED) ⊎ (result ≡ NO_KEY)) }
{
    let Some(contents) = handle.take(alloc) else {
        return CLOSED;
    };
    let status = contents.origin(key, place, row);
    handle.put(contents);
    status
}
