//! The calls from C.

ghost use Rattle.std.specs.Prelude.{◌≡◌, ◌≢◌, ◌⊎◌, ◌<◌, ◌≤◌, ◌+◌, ◌^◌, false, None, length};
ghost use Rattle.paris_book.specs.Unsettled.{filled};
ghost use Rattle.paris_text.specs.Words.{key_word};
ghost use Rattle.paris_session.specs.Hands.{is_skipped};
ghost use Rattle.paris_session.specs.Transcript.{transcript};
ghost use Rattle.paris_c.specs.Calls.{looked, profile_of, wide_numbers, CanBeSet, CountsReply, IsFresh, IsFreshOf, IsAnswered, IsFull, IsPartlyAnswered, IsReply, IsSet, IsSetFault, IsShown, ShowsNumbers, ShowsPart, ShowsCount, ShowsPending, ShowsFault, ShowsWide, HasRows, CountsRows, HasFaults, CountsFaults, IsSettled, IsPartlySettled};
ghost use Rattle.paris_c.specs.Texts.{cause_text, status_text};
ghost use Rattle.paris_c.specs.declared.statuses.TheConstants.{OK, NO_MEMORY, CLOSED, NO_KEY, PENDING, WRONG_ROOM, TOO_MANY, TOO_WIDE, PARTLY, NO_PROFILE};

use crate::contents::Contents;
use crate::handle::Handle;
use crate::rooms::fill;
use crate::statuses::{CLOSED, NO_MEMORY, NO_PROFILE, OK, TOO_MANY};
use crate::texts::{cause_text, status_text};
use crate::wide::Wide;
use paris_names::Profile;
use std::alloc::Global;

/// Opens a session in a handle, and drops what it held.
#[unsafe(no_mangle)]
pub extern "C" fn paris_open(alloc: Global, handle: &mut Handle) -> u32
    ensures fresh { result ≡ OK → IsFresh handle.new.kept.value }
    ensures closed { result ≢ OK → (result ≡ NO_MEMORY) × (handle.new.kept.value ≡ None) }
{
    drop(handle.take(alloc));
    match Box::new(alloc, Contents::new(alloc)) {
        Ok(contents) => {
            handle.put(contents);
            OK
        }
        Err(_) => NO_MEMORY,
    }
}

/// The profile that a number names.
fn profile_of(number: u32) -> Option<Profile>
    ensures { result ≡ profile_of number }
{
    match number {
        1 => Some(Profile::One),
        2 => Some(Profile::Two),
        _ => None,
    }
}

/// Opens a session of a profile in a handle, and drops what it held. A number that names no profile leaves the handle as it was.
#[unsafe(no_mangle)]
pub extern "C" fn paris_open_profile(alloc: Global, handle: &mut Handle, profile: u32) -> u32
    ensures fresh { result ≡ OK → IsFreshOf (profile_of profile) handle.new.kept.value }
    ensures closed { result ≡ NO_MEMORY → handle.new.kept.value ≡ None }
    ensures none { result ≡ NO_PROFILE → (profile_of profile ≡ None) × (handle.new.kept.value ≡ handle.old.kept.value) }
    ensures some { result ≢ NO_PROFILE → profile_of profile ≢ None }
    ensures status { (result ≡ OK) ⊎ ((result ≡ NO_MEMORY) ⊎ (result ≡ NO_PROFILE)) }
{
    let Some(profile) = profile_of(profile) else {
        return NO_PROFILE;
    };
    drop(handle.take(alloc));
    match Box::new(alloc, Contents::with_profile(alloc, profile)) {
        Ok(contents) => {
            handle.put(contents);
            OK
        }
        Err(_) => NO_MEMORY,
    }
}

/// Drops what a handle holds, and leaves it closed.
#[unsafe(no_mangle)]
pub extern "C" fn paris_close(alloc: Global, handle: &mut Handle) -> u32
    ensures closed { handle.new.kept.value ≡ None }
    ensures status { (result ≡ OK) ⊎ (result ≡ CLOSED) }
    ensures was_closed { result ≡ CLOSED → handle.old.kept.value ≡ None }
    ensures was_open { result ≡ OK → handle.old.kept.value ≢ None }
{
    match handle.take(alloc) {
        Some(contents) => {
            drop(contents);
            OK
        }
        None => CLOSED,
    }
}

/// Answers a line, keeps the reply, and says the length of the reply that is kept. An empty line and a comment need no memory.
#[unsafe(no_mangle)]
pub extern "C" fn paris_answer(
    alloc: Global,
    handle: &mut Handle,
    line: &[u8],
    reply: &mut usize,
) -> u32
    ensures answered { result ≡ OK → IsAnswered handle.old.kept.value handle.new.kept.value line.now reply.new }
    ensures closed { handle.old.kept.value ≡ None → (result ≡ CLOSED) × (handle.new.kept.value ≡ None) }
    ensures was_closed { result ≡ CLOSED → handle.old.kept.value ≡ None }
    ensures kept { (result ≡ NO_MEMORY) ⊎ (result ≡ TOO_MANY) → handle.new.kept.value ≡ handle.old.kept.value }
    ensures memory { result ≡ NO_MEMORY → is_skipped line.now ≡ false }
    ensures full { result ≡ TOO_MANY → IsFull handle.old.kept.value }
    ensures partly { result ≡ PARTLY → IsPartlyAnswered handle.old.kept.value handle.new.kept.value line.now }
    ensures open { result ≢ CLOSED → handle.new.kept.value ≢ None }
    ensures len { result ≢ CLOSED → CountsReply handle.new.kept.value reply.new }
    ensures status { (result ≡ OK) ⊎ ((result ≡ CLOSED) ⊎ ((result ≡ NO_MEMORY) ⊎ ((result ≡ TOO_MANY) ⊎ (result ≡ PARTLY)))) }
{
    let Some(mut contents) = handle.take(alloc) else {
        return CLOSED;
    };
    let status = contents.answer(line);
    *reply = contents.reply.len();
    handle.put(contents);
    status
}

/// Copies the reply that is kept to a room, as much of it as there is room for.
#[unsafe(no_mangle)]
pub extern "C" fn paris_reply(alloc: Global, handle: &mut Handle, room: &mut [u8]) -> u32
    ensures reply { result ≡ OK → IsReply handle.old.kept.value room.old room.new }
    ensures closed { result ≢ OK → (result ≡ CLOSED) × (handle.old.kept.value ≡ None) }
    ensures kept { handle.new.kept.value ≡ handle.old.kept.value }
{
    let Some(contents) = handle.take(alloc) else {
        return CLOSED;
    };
    fill(room, contents.reply.as_slice());
    handle.put(contents);
    OK
}

/// Writes the transcript of a script to a room, as much of it as there is room for, and says its length.
#[unsafe(no_mangle)]
pub extern "C" fn paris_script(
    alloc: Global,
    script: &[u8],
    room: &mut [u8],
    len: &mut usize,
) -> u32
    ensures written { result ≡ OK → room.new ≡ filled room.old (transcript script.now) }
    ensures len { result ≡ OK → len.new ≡ length (transcript script.now) }
    ensures kept { result ≢ OK → room.new ≡ room.old }
    ensures long { result ≡ TOO_MANY → 2 ^ 62 ≤ length script.now }
    ensures status { (result ≡ OK) ⊎ ((result ≡ NO_MEMORY) ⊎ (result ≡ TOO_MANY)) }
{
    if script.len() >= 1 << 62 {
        return TOO_MANY;
    }
    match paris_session::transcript(alloc, script) {
        Ok(text) => {
            *len = text.len();
            fill(room, text.as_slice());
            OK
        }
        Err(_) => NO_MEMORY,
    }
}

/// Gives the key that a word names numbers from a processor on, a word a number.
#[unsafe(no_mangle)]
pub extern "C" fn paris_set(
    alloc: Global,
    handle: &mut Handle,
    key: &[u8],
    from: u64,
    words: &[u64],
) -> u32
    ensures set { result ≡ OK → IsSet handle.old.kept.value handle.new.kept.value (key_word key.now) from words.now }
    ensures kept { result ≢ OK → handle.new.kept.value ≡ handle.old.kept.value }
    ensures closed { handle.old.kept.value ≡ None → result ≡ CLOSED }
    ensures was_closed { result ≡ CLOSED → handle.old.kept.value ≡ None }
    ensures key { result ≡ NO_KEY → key_word key.now ≡ None }
    ensures fault { 1 ≤ result → result ≤ 23 → result ≢ NO_MEMORY →
        IsSetFault handle.old.kept.value (key_word key.now) from words.now result }
    ensures memory { result ≡ NO_MEMORY → CanBeSet handle.old.kept.value (key_word key.now) from words.now }
    ensures status { (result ≤ 23) ⊎ ((result ≡ CLOSED) ⊎ (result ≡ NO_KEY)) }
{
    let Some(mut contents) = handle.take(alloc) else {
        return CLOSED;
    };
    let status = contents.set(key, from, words);
    handle.put(contents);
    status
}

/// Puts the numbers that the key of a word holds at a place of the program into a room of as many words, and says how many they
/// are. Where a row is pending, it says its id.
#[unsafe(no_mangle)]
pub extern "C" fn paris_get(
    alloc: Global,
    handle: &mut Handle,
    key: &[u8],
    place: u64,
    room: &mut [u64],
    told: &mut u64,
) -> u32
    ensures numbers { result ≡ OK → ShowsNumbers (looked handle.old.kept.value (key_word key.now) place) room.new }
    ensures count { (result ≡ OK) ⊎ (result ≡ WRONG_ROOM) → ShowsCount (looked handle.old.kept.value (key_word key.now) place) told.new }
    ensures pending { result ≡ PENDING → ShowsPending (looked handle.old.kept.value (key_word key.now) place) told.new }
    ensures fault { 1 ≤ result → result ≤ 23 → result ≢ NO_MEMORY →
        ShowsFault (looked handle.old.kept.value (key_word key.now) place) result }
    ensures memory { result ≡ NO_MEMORY → IsShown (looked handle.old.kept.value (key_word key.now) place) }
    ensures closed { handle.old.kept.value ≡ None → result ≡ CLOSED }
    ensures was_closed { result ≡ CLOSED → handle.old.kept.value ≡ None }
    ensures key { result ≡ NO_KEY → key_word key.now ≡ None }
    ensures few { result ≡ WRONG_ROOM → length room.old ≢ told.new }
    ensures wide { result ≡ TOO_WIDE → ShowsWide (looked handle.old.kept.value (key_word key.now) place) }
    ensures status { (result ≤ 23) ⊎ ((result ≡ CLOSED) ⊎ ((result ≡ NO_KEY) ⊎ ((result ≡ PENDING) ⊎ ((result ≡ WRONG_ROOM) ⊎ (result ≡ TOO_WIDE))))) }
    ensures room { result ≢ OK → room.new ≡ room.old }
    ensures kept { handle.new.kept.value ≡ handle.old.kept.value }
{
    let Some(contents) = handle.take(alloc) else {
        return CLOSED;
    };
    let status = contents.get(key, place, room, told);
    handle.put(contents);
    status
}

/// Puts the numbers that the key of a word holds at a place of the program, from a processor on, into a room of words, and says how many
/// the key has. Where a row is pending, it says its id.
#[unsafe(no_mangle)]
pub extern "C" fn paris_part(
    alloc: Global,
    handle: &mut Handle,
    key: &[u8],
    place: u64,
    from: u64,
    room: &mut [u64],
    told: &mut u64,
) -> u32
    ensures part { result ≡ OK → ShowsPart (looked handle.old.kept.value (key_word key.now) place) from (length room.old) room.new }
    ensures count { (result ≡ OK) ⊎ (result ≡ WRONG_ROOM) → ShowsCount (looked handle.old.kept.value (key_word key.now) place) told.new }
    ensures pending { result ≡ PENDING → ShowsPending (looked handle.old.kept.value (key_word key.now) place) told.new }
    ensures fault { 1 ≤ result → result ≤ 23 → ShowsFault (looked handle.old.kept.value (key_word key.now) place) result }
    ensures memory { result ≢ NO_MEMORY }
    ensures closed { handle.old.kept.value ≡ None → result ≡ CLOSED }
    ensures was_closed { result ≡ CLOSED → handle.old.kept.value ≡ None }
    ensures key { result ≡ NO_KEY → key_word key.now ≡ None }
    ensures past { result ≡ WRONG_ROOM → told.new < from + length room.old }
    ensures wide { result ≡ TOO_WIDE → ShowsWide (looked handle.old.kept.value (key_word key.now) place) }
    ensures status { (result ≤ 23) ⊎ ((result ≡ CLOSED) ⊎ ((result ≡ NO_KEY) ⊎ ((result ≡ PENDING) ⊎ ((result ≡ WRONG_ROOM) ⊎ (result ≡ TOO_WIDE))))) }
    ensures room { result ≢ OK → room.new ≡ room.old }
    ensures kept { handle.new.kept.value ≡ handle.old.kept.value }
{
    let Some(contents) = handle.take(alloc) else {
        return CLOSED;
    };
    let status = contents.part(key, place, from, room, told);
    handle.put(contents);
    status
}

/// Gives the key that a word names numbers from a processor on, two words a number.
#[unsafe(no_mangle)]
pub extern "C" fn paris_set_wide(
    alloc: Global,
    handle: &mut Handle,
    key: &[u8],
    from: u64,
    given: &[Wide],
) -> u32
    ensures set { result ≡ OK → IsSet handle.old.kept.value handle.new.kept.value (key_word key.now) from (wide_numbers given.now) }
    ensures kept { result ≢ OK → handle.new.kept.value ≡ handle.old.kept.value }
    ensures closed { handle.old.kept.value ≡ None → result ≡ CLOSED }
    ensures was_closed { result ≡ CLOSED → handle.old.kept.value ≡ None }
    ensures key { result ≡ NO_KEY → key_word key.now ≡ None }
    ensures fault { 1 ≤ result → result ≤ 23 → result ≢ NO_MEMORY →
        IsSetFault handle.old.kept.value (key_word key.now) from (wide_numbers given.now) result }
    ensures memory { result ≡ NO_MEMORY → CanBeSet handle.old.kept.value (key_word key.now) from (wide_numbers given.now) }
    ensures status { (result ≤ 23) ⊎ ((result ≡ CLOSED) ⊎ (result ≡ NO_KEY)) }
{
    let Some(mut contents) = handle.take(alloc) else {
        return CLOSED;
    };
    let status = contents.set_wide(alloc, key, from, given);
    handle.put(contents);
    status
}

/// Puts the numbers that the key of a word holds at a place of the program into a room of as many, two words a number, and says how
/// many they are. Where a row is pending, it says its id.
#[unsafe(no_mangle)]
pub extern "C" fn paris_get_wide(
    alloc: Global,
    handle: &mut Handle,
    key: &[u8],
    place: u64,
    room: &mut [Wide],
    told: &mut u64,
) -> u32
    ensures numbers { result ≡ OK → ShowsNumbers (looked handle.old.kept.value (key_word key.now) place) (wide_numbers room.new) }
    ensures count { (result ≡ OK) ⊎ (result ≡ WRONG_ROOM) → ShowsCount (looked handle.old.kept.value (key_word key.now) place) told.new }
    ensures pending { result ≡ PENDING → ShowsPending (looked handle.old.kept.value (key_word key.now) place) told.new }
    ensures fault { 1 ≤ result → result ≤ 23 → result ≢ NO_MEMORY →
        ShowsFault (looked handle.old.kept.value (key_word key.now) place) result }
    ensures memory { result ≡ NO_MEMORY → IsShown (looked handle.old.kept.value (key_word key.now) place) }
    ensures closed { handle.old.kept.value ≡ None → result ≡ CLOSED }
    ensures was_closed { result ≡ CLOSED → handle.old.kept.value ≡ None }
    ensures key { result ≡ NO_KEY → key_word key.now ≡ None }
    ensures few { result ≡ WRONG_ROOM → length room.old ≢ told.new }
    ensures status { (result ≤ 23) ⊎ ((result ≡ CLOSED) ⊎ ((result ≡ NO_KEY) ⊎ ((result ≡ PENDING) ⊎ (result ≡ WRONG_ROOM)))) }
    ensures room { result ≢ OK → room.new ≡ room.old }
    ensures kept { handle.new.kept.value ≡ handle.old.kept.value }
{
    let Some(contents) = handle.take(alloc) else {
        return CLOSED;
    };
    let status = contents.get_wide(key, place, room, told);
    handle.put(contents);
    status
}

/// Puts the ids of the rows in program order into a room of as many words, and says how many they are.
#[unsafe(no_mangle)]
pub extern "C" fn paris_rows(
    alloc: Global,
    handle: &mut Handle,
    room: &mut [u64],
    count: &mut usize,
) -> u32
    ensures ids { result ≡ OK → HasRows handle.old.kept.value room.new }
    ensures count { (result ≡ OK) ⊎ (result ≡ WRONG_ROOM) → CountsRows handle.old.kept.value count.new }
    ensures closed { handle.old.kept.value ≡ None → result ≡ CLOSED }
    ensures was_closed { result ≡ CLOSED → handle.old.kept.value ≡ None }
    ensures few { result ≡ WRONG_ROOM → length room.old ≢ count.new }
    ensures status { (result ≡ OK) ⊎ ((result ≡ CLOSED) ⊎ ((result ≡ NO_MEMORY) ⊎ (result ≡ WRONG_ROOM))) }
    ensures room { result ≢ OK → room.new ≡ room.old }
    ensures kept { handle.new.kept.value ≡ handle.old.kept.value }
{
    let Some(contents) = handle.take(alloc) else {
        return CLOSED;
    };
    let status = contents.rows(room, count);
    handle.put(contents);
    status
}

/// Settles every row, and says how many orders were run.
#[unsafe(no_mangle)]
pub extern "C" fn paris_settle(alloc: Global, handle: &mut Handle, ran: &mut u64) -> u32
    ensures settled { result ≡ OK → IsSettled handle.old.kept.value handle.new.kept.value ran.new }
    ensures partly { result ≡ PARTLY → IsPartlySettled handle.old.kept.value handle.new.kept.value ran.new }
    ensures closed { result ≡ CLOSED → (handle.old.kept.value ≡ None) × (handle.new.kept.value ≡ None) }
    ensures status { (result ≡ OK) ⊎ ((result ≡ CLOSED) ⊎ (result ≡ PARTLY)) }
{
    let Some(mut contents) = handle.take(alloc) else {
        return CLOSED;
    };
    let status = contents.settle(ran);
    handle.put(contents);
    status
}

/// Puts the settled rows that are refused for their data, in program order, into a room, as many words of them as there is room for,
/// and says how many these rows are. Each is three words: its id, its cause and the processor.
#[unsafe(no_mangle)]
pub extern "C" fn paris_faults(
    alloc: Global,
    handle: &mut Handle,
    room: &mut [u64],
    count: &mut usize,
) -> u32
    ensures faults { result ≡ OK → HasFaults handle.old.kept.value room.old room.new }
    ensures count { result ≡ OK → CountsFaults handle.old.kept.value count.new }
    ensures closed { handle.old.kept.value ≡ None → result ≡ CLOSED }
    ensures was_closed { result ≡ CLOSED → handle.old.kept.value ≡ None }
    ensures status { (result ≡ OK) ⊎ ((result ≡ CLOSED) ⊎ (result ≡ NO_MEMORY)) }
    ensures room { result ≢ OK → room.new ≡ room.old }
    ensures kept { handle.new.kept.value ≡ handle.old.kept.value }
{
    let Some(contents) = handle.take(alloc) else {
        return CLOSED;
    };
    let status = contents.faults(alloc, room, count);
    handle.put(contents);
    status
}

/// Puts the text of a status into a room, as much of it as there is room for, and says its length.
#[unsafe(no_mangle)]
pub extern "C" fn paris_fault_text(status: u32, room: &mut [u8]) -> usize
    ensures text { room.new ≡ filled room.old (status_text status) }
    ensures len { result ≡ length (status_text status) }
{
    let text = status_text(status);
    fill(room, text);
    text.len()
}

/// Puts the text of a cause into a room, as much of it as there is room for, and says its length.
#[unsafe(no_mangle)]
pub extern "C" fn paris_cause_text(cause: u32, room: &mut [u8]) -> usize
    ensures text { room.new ≡ filled room.old (cause_text cause) }
    ensures len { result ≡ length (cause_text cause) }
{
    let text = cause_text(cause);
    fill(room, text);
    text.len()
}
