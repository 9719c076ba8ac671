//! The calls from C of a desk: a session's book with the history of its seats. The caller orders the calls of a desk, as by a mutex.

ghost use Rattle.std.specs.Prelude.{◌≡◌, ◌≢◌, ◌⊎◌, None, false, true};
ghost use Rattle.paris_session.specs.Hands.{is_skipped};
ghost use Rattle.paris_text.specs.Words.{key_word};
ghost use Rattle.paris_c.specs.Calls.{wide_numbers};
ghost use Rattle.paris_c.specs.DeskCalls.{CountsSeatReply, HasEditionAt, HasEntry, HasNoEntry, HasNoneReadyAt, HasReadyAt, HasVerdictAt, IsBroughtAt, IsCut, IsDeskAnswered, IsDeskSet, IsDeskSnapshot, IsHistoryFull, IsLooked, IsOpened, IsSeated, IsSpent, IsStrange, IsTakenAt};
ghost use Rattle.paris_c.specs.DeskLines.{line_asks};
ghost use Rattle.paris_c.specs.OrderCalls.{result_in};
ghost use Rattle.paris_c.specs.declared.desk_lines.LineAsks.TheVariants as LineCase;
ghost use Rattle.paris_c.specs.declared.statuses.TheConstants.{OK, NO_MEMORY, CLOSED, FULL, NO_ENTRY, TOO_MANY, NOTHING, NOT_RUN, NO_EVENT, NO_KEY, STRANGE};

use crate::desk_handle::DeskHandle;
use crate::handle::Handle;
use crate::order_handle::OrderHandle;
use crate::order_state::OrderState;
use crate::seat_handle::SeatHandle;
use crate::seating::DeskContents;
use crate::statuses::{CLOSED, NO_MEMORY, OK};
use crate::wide::Wide;
use std::alloc::Global;

/// Drops what a desk's handle holds, and opens a desk in it whose history begins, empty, at the state of a session.
#[unsafe(no_mangle)]
pub extern "C" fn paris_desk_open(
    alloc: Global,
    desk: &mut DeskHandle,
    from: &mut Handle,
    name: u64,
    limit: u64,
) -> u32
    ensures opened { result ≡ OK → IsOpened from.old.kept.value desk.new.kept.value name limit }
    ensures dropped { result ≢ OK → desk.new.kept.value ≡ None }
    ensures kept { from.new.kept.value ≡ from.old.kept.value }
    ensures closed { from.old.kept.value ≡ None → result ≡ CLOSED }
    ensures was_closed { result ≡ CLOSED → from.old.kept.value ≡ None }
    ensures status { (result ≡ OK) ⊎ ((result ≡ CLOSED) ⊎ (result ≡ NO_MEMORY)) }
{
    drop(desk.take(alloc));
    let Some(contents) = from.take(alloc) else {
        return CLOSED;
    };
    let opened = DeskContents::new(alloc, &contents, name, limit);
    from.put(contents);
    match opened {
        Ok(opened) => {
            desk.put(opened);
            OK
        }
        Err(_) => NO_MEMORY,
    }
}

/// Drops what a seat's handle holds, and seats it at a desk.
#[unsafe(no_mangle)]
pub extern "C" fn paris_desk_sit(
    alloc: Global,
    desk: &mut DeskHandle,
    seat: &mut SeatHandle,
    number: &mut u64,
) -> u32
    ensures seated { result ≡ OK → IsSeated desk.old.kept.value desk.new.kept.value seat.new.kept.value number.new }
    ensures dropped { result ≢ OK → seat.new.kept.value ≡ None }
    ensures kept { result ≢ OK → desk.new.kept.value ≡ desk.old.kept.value }
    ensures spent { result ≡ TOO_MANY → IsSpent desk.old.kept.value }
    ensures closed { desk.old.kept.value ≡ None → result ≡ CLOSED }
    ensures was_closed { result ≡ CLOSED → desk.old.kept.value ≡ None }
    ensures status { (result ≡ OK) ⊎ ((result ≡ CLOSED) ⊎ ((result ≡ NO_MEMORY) ⊎ (result ≡ TOO_MANY))) }
{
    drop(seat.take(alloc));
    let Some(mut at) = desk.take(alloc) else {
        return CLOSED;
    };
    let sitting = at.sit(alloc);
    desk.put(at);
    match sitting {
        Ok(sitting) => {
            *number = sitting.number;
            seat.put(sitting);
            OK
        }
        Err(status) => status,
    }
}

/// Answers a line of a seat that is an event, keeps the reply in the seat, and says the reply's length and the entry's number.
#[unsafe(no_mangle)]
pub extern "C" fn paris_desk_answer(
    alloc: Global,
    desk: &mut DeskHandle,
    seat: &mut SeatHandle,
    line: &[u8],
    reply: &mut usize,
    entry: &mut u64,
) -> u32
    ensures answered { result ≡ OK → IsDeskAnswered desk.old.kept.value desk.new.kept.value seat.old.kept.value seat.new.kept.value line.now entry.new }
    ensures len { result ≡ OK → CountsSeatReply seat.new.kept.value reply.new }
    ensures kept { result ≢ OK → (desk.new.kept.value ≡ desk.old.kept.value) × (seat.new.kept.value ≡ seat.old.kept.value) }
    ensures strange { result ≡ STRANGE → IsStrange desk.old.kept.value seat.old.kept.value }
    ensures no_event { result ≡ NO_EVENT → line_asks line.now ≡ LineCase.NoEvent }
    ensures full { result ≡ FULL → IsHistoryFull desk.old.kept.value }
    ensures memory { result ≡ NO_MEMORY → is_skipped line.now ≡ false }
    ensures closed { (desk.old.kept.value ≡ None) ⊎ (seat.old.kept.value ≡ None) → result ≡ CLOSED }
    ensures was_closed { result ≡ CLOSED → (desk.old.kept.value ≡ None) ⊎ (seat.old.kept.value ≡ None) }
    ensures status { (result ≡ OK) ⊎ ((result ≡ CLOSED) ⊎ ((result ≡ NO_MEMORY) ⊎ ((result ≡ FULL) ⊎ ((result ≡ NO_EVENT) ⊎ (result ≡ STRANGE))))) }
{
    let Some(mut sitting) = seat.take(alloc) else {
        return CLOSED;
    };
    let Some(mut at) = desk.take(alloc) else {
        seat.put(sitting);
        return CLOSED;
    };
    let status = at.answer(alloc, &mut sitting, line, entry);
    *reply = sitting.reply.len();
    desk.put(at);
    seat.put(sitting);
    status
}

/// Gives the key that a word names numbers from a processor on, a word a number, which a seat does. It answers the line that gives them.
#[unsafe(no_mangle)]
pub extern "C" fn paris_desk_set(
    alloc: Global,
    desk: &mut DeskHandle,
    seat: &mut SeatHandle,
    key: &[u8],
    from: u64,
    words: &[u64],
    reply: &mut usize,
    entry: &mut u64,
) -> u32
    ensures set { result ≡ OK → IsDeskSet desk.old.kept.value desk.new.kept.value seat.old.kept.value seat.new.kept.value (key_word key.now) from words.now entry.new }
    ensures len { result ≡ OK → CountsSeatReply seat.new.kept.value reply.new }
    ensures kept { result ≢ OK → (desk.new.kept.value ≡ desk.old.kept.value) × (seat.new.kept.value ≡ seat.old.kept.value) }
    ensures strange { result ≡ STRANGE → IsStrange desk.old.kept.value seat.old.kept.value }
    ensures key { result ≡ NO_KEY → key_word key.now ≡ None }
    ensures full { result ≡ FULL → IsHistoryFull desk.old.kept.value }
    ensures memory { result ≡ NO_MEMORY → key_word key.now ≢ None }
    ensures closed { (desk.old.kept.value ≡ None) ⊎ (seat.old.kept.value ≡ None) → result ≡ CLOSED }
    ensures was_closed { result ≡ CLOSED → (desk.old.kept.value ≡ None) ⊎ (seat.old.kept.value ≡ None) }
    ensures status { (result ≡ OK) ⊎ ((result ≡ CLOSED) ⊎ ((result ≡ NO_MEMORY) ⊎ ((result ≡ FULL) ⊎ ((result ≡ NO_KEY) ⊎ (result ≡ STRANGE))))) }
{
    let Some(mut sitting) = seat.take(alloc) else {
        return CLOSED;
    };
    let Some(mut at) = desk.take(alloc) else {
        seat.put(sitting);
        return CLOSED;
    };
    let status = at.set(alloc, &mut sitting, key, from, words, entry);
    *reply = sitting.reply.len();
    desk.put(at);
    seat.put(sitting);
    status
}

/// Gives the key that a word names numbers from a processor on, two words a number, which a seat does. It answers the line that gives them.
#[unsafe(no_mangle)]
pub extern "C" fn paris_desk_set_wide(
    alloc: Global,
    desk: &mut DeskHandle,
    seat: &mut SeatHandle,
    key: &[u8],
    from: u64,
    given: &[Wide],
    reply: &mut usize,
    entry: &mut u64,
) -> u32
    ensures set { result ≡ OK → IsDeskSet desk.old.kept.value desk.new.kept.value seat.old.kept.value seat.new.kept.value (key_word key.now) from (wide_numbers given.now) entry.new }
    ensures len { result ≡ OK → CountsSeatReply seat.new.kept.value reply.new }
    ensures kept { result ≢ OK → (desk.new.kept.value ≡ desk.old.kept.value) × (seat.new.kept.value ≡ seat.old.kept.value) }
    ensures strange { result ≡ STRANGE → IsStrange desk.old.kept.value seat.old.kept.value }
    ensures key { result ≡ NO_KEY → key_word key.now ≡ None }
    ensures full { result ≡ FULL → IsHistoryFull desk.old.kept.value }
    ensures memory { result ≡ NO_MEMORY → key_word key.now ≢ None }
    ensures closed { (desk.old.kept.value ≡ None) ⊎ (seat.old.kept.value ≡ None) → result ≡ CLOSED }
    ensures was_closed { result ≡ CLOSED → (desk.old.kept.value ≡ None) ⊎ (seat.old.kept.value ≡ None) }
    ensures status { (result ≡ OK) ⊎ ((result ≡ CLOSED) ⊎ ((result ≡ NO_MEMORY) ⊎ ((result ≡ FULL) ⊎ ((result ≡ NO_KEY) ⊎ (result ≡ STRANGE))))) }
{
    let Some(mut sitting) = seat.take(alloc) else {
        return CLOSED;
    };
    let Some(mut at) = desk.take(alloc) else {
        seat.put(sitting);
        return CLOSED;
    };
    let status = at.set_wide(alloc, &mut sitting, key, from, given, entry);
    *reply = sitting.reply.len();
    desk.put(at);
    seat.put(sitting);
    status
}

/// Drops what an order's handle holds, and puts an order for the first ready row into it, which a seat takes.
#[unsafe(no_mangle)]
pub extern "C" fn paris_desk_take(
    alloc: Global,
    desk: &mut DeskHandle,
    seat: &mut SeatHandle,
    order: &mut OrderHandle,
    entry: &mut u64,
) -> u32
    ensures taken { result ≡ OK → IsTakenAt desk.old.kept.value desk.new.kept.value seat.old.kept.value seat.new.kept.value order.new.kept.value entry.new }
    ensures nothing { result ≡ NOTHING → HasNoneReadyAt desk.old.kept.value }
    ensures memory { result ≡ NO_MEMORY → HasReadyAt desk.old.kept.value }
    ensures kept { result ≢ OK → (desk.new.kept.value ≡ desk.old.kept.value) × (seat.new.kept.value ≡ seat.old.kept.value) }
    ensures dropped { result ≢ OK → order.new.kept.value ≡ None }
    ensures strange { result ≡ STRANGE → IsStrange desk.old.kept.value seat.old.kept.value }
    ensures full { result ≡ FULL → IsHistoryFull desk.old.kept.value }
    ensures closed { (desk.old.kept.value ≡ None) ⊎ (seat.old.kept.value ≡ None) → result ≡ CLOSED }
    ensures was_closed { result ≡ CLOSED → (desk.old.kept.value ≡ None) ⊎ (seat.old.kept.value ≡ None) }
    ensures status { (result ≡ OK) ⊎ ((result ≡ CLOSED) ⊎ ((result ≡ NO_MEMORY) ⊎ ((result ≡ FULL) ⊎ ((result ≡ NOTHING) ⊎ (result ≡ STRANGE))))) }
{
    drop(order.take(alloc));
    let Some(mut sitting) = seat.take(alloc) else {
        return CLOSED;
    };
    let Some(mut at) = desk.take(alloc) else {
        seat.put(sitting);
        return CLOSED;
    };
    // The box comes first, so that no order is lost for want of one.
    let Ok(mut state) = Box::new(alloc, OrderState::Nothing) else {
        let status = at.without_box(&sitting);
        desk.put(at);
        seat.put(sitting);
        return status;
    };
    let status = at.take(&mut sitting, &mut state, entry);
    desk.put(at);
    seat.put(sitting);
    if status == OK {
        order.put(state);
    }
    status
}

/// Brings the result of an order, which a seat does, and says what became of it. The order keeps it.
#[unsafe(no_mangle)]
pub extern "C" fn paris_desk_bring(
    alloc: Global,
    desk: &mut DeskHandle,
    seat: &mut SeatHandle,
    order: &mut OrderHandle,
    verdict: &mut u32,
    edition: &mut u64,
    entry: &mut u64,
) -> u32
    ensures brought { result ≡ OK → IsBroughtAt desk.old.kept.value desk.new.kept.value seat.old.kept.value seat.new.kept.value (result_in order.old.kept.value) entry.new }
    ensures verdict { result ≡ OK → HasVerdictAt desk.old.kept.value (result_in order.old.kept.value) verdict.new }
    ensures edition { result ≡ OK → HasEditionAt desk.old.kept.value (result_in order.old.kept.value) edition.new }
    ensures order { order.new.kept.value ≡ order.old.kept.value }
    ensures kept { result ≢ OK → (desk.new.kept.value ≡ desk.old.kept.value) × (seat.new.kept.value ≡ seat.old.kept.value) }
    ensures not_run { result ≡ NOT_RUN → result_in order.old.kept.value ≡ None }
    ensures memory { result ≡ NO_MEMORY → result_in order.old.kept.value ≢ None }
    ensures strange { result ≡ STRANGE → IsStrange desk.old.kept.value seat.old.kept.value }
    ensures full { result ≡ FULL → IsHistoryFull desk.old.kept.value }
    ensures closed { (order.old.kept.value ≡ None) ⊎ ((desk.old.kept.value ≡ None) ⊎ (seat.old.kept.value ≡ None)) → result ≡ CLOSED }
    ensures was_closed { result ≡ CLOSED → (order.old.kept.value ≡ None) ⊎ ((desk.old.kept.value ≡ None) ⊎ (seat.old.kept.value ≡ None)) }
    ensures status { (result ≡ OK) ⊎ ((result ≡ CLOSED) ⊎ ((result ≡ NO_MEMORY) ⊎ ((result ≡ FULL) ⊎ ((result ≡ NOT_RUN) ⊎ (result ≡ STRANGE))))) }
{
    let Some(state) = order.take(alloc) else {
        return CLOSED;
    };
    let Some(mut sitting) = seat.take(alloc) else {
        order.put(state);
        return CLOSED;
    };
    let Some(mut at) = desk.take(alloc) else {
        seat.put(sitting);
        order.put(state);
        return CLOSED;
    };
    let status = at.bring(&mut sitting, &state, verdict, edition, entry);
    desk.put(at);
    seat.put(sitting);
    order.put(state);
    status
}

/// Has a seat look at the book as it is. The calls of a seat alone show that from then on.
#[unsafe(no_mangle)]
pub extern "C" fn paris_desk_look(
    alloc: Global,
    desk: &mut DeskHandle,
    seat: &mut SeatHandle,
) -> u32
    ensures looked { result ≡ OK → IsLooked desk.old.kept.value seat.old.kept.value seat.new.kept.value }
    ensures desk { desk.new.kept.value ≡ desk.old.kept.value }
    ensures kept { result ≢ OK → seat.new.kept.value ≡ seat.old.kept.value }
    ensures strange { result ≡ STRANGE → IsStrange desk.old.kept.value seat.old.kept.value }
    ensures closed { (desk.old.kept.value ≡ None) ⊎ (seat.old.kept.value ≡ None) → result ≡ CLOSED }
    ensures was_closed { result ≡ CLOSED → (desk.old.kept.value ≡ None) ⊎ (seat.old.kept.value ≡ None) }
    ensures status { (result ≡ OK) ⊎ ((result ≡ CLOSED) ⊎ ((result ≡ NO_MEMORY) ⊎ (result ≡ STRANGE))) }
{
    let Some(mut sitting) = seat.take(alloc) else {
        return CLOSED;
    };
    let Some(at) = desk.take(alloc) else {
        seat.put(sitting);
        return CLOSED;
    };
    let status = at.look(&mut sitting);
    desk.put(at);
    seat.put(sitting);
    status
}

/// Says the seat and the kind of the entry of a number, which counts from 1, and puts the text of its reply into a room, as much of it as there
/// is room for.
#[unsafe(no_mangle)]
pub extern "C" fn paris_desk_entry(
    alloc: Global,
    desk: &mut DeskHandle,
    entry: u64,
    seat: &mut u64,
    kind: &mut u32,
    room: &mut [u8],
    reply: &mut usize,
) -> u32
    ensures told { result ≡ OK → HasEntry desk.old.kept.value entry seat.new kind.new room.old room.new reply.new }
    ensures no_entry { result ≡ NO_ENTRY → HasNoEntry desk.old.kept.value entry }
    ensures memory { result ≡ NO_MEMORY → HasNoEntry desk.old.kept.value entry → ⊥ }
    ensures room { result ≢ OK → room.new ≡ room.old }
    ensures kept { desk.new.kept.value ≡ desk.old.kept.value }
    ensures closed { desk.old.kept.value ≡ None → result ≡ CLOSED }
    ensures was_closed { result ≡ CLOSED → desk.old.kept.value ≡ None }
    ensures status { (result ≡ OK) ⊎ ((result ≡ CLOSED) ⊎ ((result ≡ NO_MEMORY) ⊎ (result ≡ NO_ENTRY))) }
{
    let Some(at) = desk.take(alloc) else {
        return CLOSED;
    };
    let status = at.entry(alloc, entry, seat, kind, room, reply);
    desk.put(at);
    status
}

/// Makes all events of the history again, from where it begins, and says whether the replies are the same. They are.
#[unsafe(no_mangle)]
pub extern "C" fn paris_desk_audit(alloc: Global, desk: &mut DeskHandle, agrees: &mut bool) -> u32
    ensures agrees { result ≡ OK → agrees.new ≡ true }
    ensures kept { desk.new.kept.value ≡ desk.old.kept.value }
    ensures closed { desk.old.kept.value ≡ None → result ≡ CLOSED }
    ensures was_closed { result ≡ CLOSED → desk.old.kept.value ≡ None }
    ensures status { (result ≡ OK) ⊎ ((result ≡ CLOSED) ⊎ (result ≡ NO_MEMORY)) }
{
    let Some(at) = desk.take(alloc) else {
        return CLOSED;
    };
    let said = at.ledger.audit();
    desk.put(at);
    match said {
        Ok(said) => {
            *agrees = said;
            OK
        }
        Err(_) => NO_MEMORY,
    }
}

/// Begins a new chapter: the history is empty, and begins at the present state. It says how many entries the last one had.
#[unsafe(no_mangle)]
pub extern "C" fn paris_desk_cut(alloc: Global, desk: &mut DeskHandle, entries: &mut u64) -> u32
    ensures cut { result ≡ OK → IsCut desk.old.kept.value desk.new.kept.value entries.new }
    ensures kept { result ≢ OK → desk.new.kept.value ≡ desk.old.kept.value }
    ensures closed { desk.old.kept.value ≡ None → result ≡ CLOSED }
    ensures was_closed { result ≡ CLOSED → desk.old.kept.value ≡ None }
    ensures status { (result ≡ OK) ⊎ ((result ≡ CLOSED) ⊎ (result ≡ NO_MEMORY)) }
{
    let Some(mut at) = desk.take(alloc) else {
        return CLOSED;
    };
    let status = at.cut(entries);
    desk.put(at);
    status
}

/// Drops what a session's handle holds, and opens a session in it with the desk's book.
#[unsafe(no_mangle)]
pub extern "C" fn paris_desk_snapshot(
    alloc: Global,
    desk: &mut DeskHandle,
    into: &mut Handle,
) -> u32
    ensures opened { result ≡ OK → IsDeskSnapshot desk.old.kept.value into.new.kept.value }
    ensures dropped { result ≢ OK → into.new.kept.value ≡ None }
    ensures kept { desk.new.kept.value ≡ desk.old.kept.value }
    ensures closed { desk.old.kept.value ≡ None → result ≡ CLOSED }
    ensures was_closed { result ≡ CLOSED → desk.old.kept.value ≡ None }
    ensures status { (result ≡ OK) ⊎ ((result ≡ CLOSED) ⊎ (result ≡ NO_MEMORY)) }
{
    drop(into.take(alloc));
    let Some(at) = desk.take(alloc) else {
        return CLOSED;
    };
    let copy = at.snapshot(alloc);
    desk.put(at);
    match copy {
        Ok(copy) => {
            into.put(copy);
            OK
        }
        Err(_) => NO_MEMORY,
    }
}

/// Drops what a desk's handle holds, and leaves it closed.
#[unsafe(no_mangle)]
pub extern "C" fn paris_desk_close(alloc: Global, desk: &mut DeskHandle) -> u32
    ensures closed { desk.new.kept.value ≡ None }
    ensures was_closed { result ≡ CLOSED → desk.old.kept.value ≡ None }
    ensures was_open { result ≡ OK → desk.old.kept.value ≢ None }
    ensures status { (result ≡ OK) ⊎ (result ≡ CLOSED) }
{
    match desk.take(alloc) {
        Some(at) => {
            drop(at);
            OK
        }
        None => CLOSED,
    }
}
