//! Tables of steps: what a seat does at a ledger, and what must come of it.

use paris_book::{Book, Look};
use paris_events::{Event, Reply};
use paris_exec::{Done, Order, execute};
use paris_ledger::Ledger;
use paris_names::{Fault, Spot};
use paris_records::{copy_of_event, is_same_event, is_same_reply};
use paris_text::{Command, key_of_word, read_command};
use std::alloc::{AllocError, Global};
use std::process::Abort;

/// A text, as a table has it.
pub(crate) type Text = &'static [u8];

/// What a seat does at a ledger.
#[derive(Clone, Copy)]
pub(crate) enum Step {
    /// The event of a line is recorded.
    Says(Text),
    /// An order is taken and executed. Its result is in hand.
    Takes,
    /// The result in hand is brought.
    Brings,
}

/// The event of a line.
fn event_of(rt: &impl Abort, alloc: Global, line: &[u8]) -> Event {
    match read_command(alloc, line, false) {
        Ok(Command::Edit(edit)) => Event::Edit(edit),
        Ok(Command::Show { key, spot }) => Event::Show(key, spot),
        Ok(Command::Release) => Event::Release,
        Ok(Command::List) => Event::List,
        _ => None.expect(rt, "it is an event"),
    }
}

/// The result of the order that a reply holds, if it holds one.
fn result_of(alloc: Global, reply: Reply) -> Option<Done> {
    let Reply::Take(Some(order)) = reply else {
        return None;
    };
    execute(alloc, order).ok()
}

/// Whether the entry of a number is this one.
fn has_entry(ledger: &Ledger, number: u64, seat: u64, event: &Event, reply: &Reply) -> bool {
    match ledger.entry(number) {
        Some(entry) => {
            entry.seat == seat
                && is_same_event(&entry.event, event)
                && is_same_reply(&entry.reply, reply)
        }
        None => false,
    }
}

/// A call is recorded as the next entry, and answered as a book beside the ledger answers it. The reply comes back, where it is so.
fn recorded(
    ledger: &mut Ledger,
    beside: &mut Book,
    seat: u64,
    event: Event,
) -> Result<Option<Reply>, AllocError> {
    let asked = copy_of_event(&event)?;
    let told = copy_of_event(&event)?;
    let Ok(reply) = ledger.call(seat, event) else {
        return Ok(None);
    };
    let Ok(answer) = beside.step(told) else {
        return Ok(None);
    };
    let is_so = has_entry(ledger, ledger.len() as u64, seat, &asked, &answer);
    Ok(if is_so && is_same_reply(&reply, &answer) {
        Some(reply)
    } else {
        None
    })
}

/// The event of a step, which may use the result in hand.
fn event_in(rt: &impl Abort, alloc: Global, step: Step, hand: Option<Done>) -> Event {
    match step {
        Step::Says(line) => event_of(rt, alloc, line),
        Step::Takes => Event::Take,
        Step::Brings => Event::Bring(hand.expect(rt, "a result is in hand")),
    }
}

/// Plays the steps of seats at a ledger, and at a book beside it.
pub(crate) fn play(
    rt: &impl Abort,
    alloc: Global,
    ledger: &mut Ledger,
    beside: &mut Book,
    steps: &[(u64, Step)],
) -> Result<(), AllocError> {
    let mut hand = None;
    for (seat, step) in steps {
        let event = event_in(rt, alloc, *step, hand.take());
        let reply = recorded(ledger, beside, *seat, event)?;
        hand = result_of(alloc, reply.expect(rt, "the call is recorded"));
    }
    Ok(())
}

/// Whether a key is settled at the end of a book's program, and holds these numbers.
pub(crate) fn shows(book: &Book, word: Text, wanted: &[u128]) -> Result<bool, AllocError> {
    let Some(key) = key_of_word(word) else {
        return Ok(false);
    };
    match book.show(key, Spot::End) {
        Ok(Look::Settled(value)) => {
            let numbers = value.numbers()?;
            Ok(numbers.as_slice() == wanted)
        }
        _ => Ok(false),
    }
}

/// Whether a key is pending at the end of a book's program.
pub(crate) fn waits(book: &Book, word: Text) -> bool {
    let Some(key) = key_of_word(word) else {
        return false;
    };
    matches!(book.show(key, Spot::End), Ok(Look::Pending(_)))
}

/// Whether a look at the rows is refused, since there are as many entries as this limit.
pub(crate) fn is_full(ledger: &mut Ledger, limit: u64) -> bool {
    match ledger.call(0, Event::List) {
        Err((Event::List, fault)) => fault == Fault::HistoryFull(limit),
        _ => false,
    }
}
