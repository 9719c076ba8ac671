//! What a line is at a desk, and the texts of replies there.

ghost use Rattle.std.specs.Prelude.{◌≡◌, false, true, IfOk, OnErr};
ghost use Rattle.paris_events.specs.Events.{reply_to};
ghost use Rattle.paris_events.specs.declared.events.Event.TheVariants as EventCase;
ghost use Rattle.paris_session.specs.Hands.{empty_hand, is_look, is_skipped, HasPlace};
ghost use Rattle.paris_c.specs.DeskLines.{asks_of, event_asks, fault_asks, line_asks, reply_text};

use paris_book::Book;
use paris_events::{Event, Reply};
use paris_names::{Fault, KeyName, Spot};
use paris_records::copy_of_reply;
use paris_session::{Asked, Hand, Room, list_text};
use std::alloc::{AllocError, Global};

/// What a line is at a desk.
#[derive(Drop)]
pub enum LineAsks {
    /// An event.
    Call(Event),
    /// Nothing: it isn't in the grammar.
    Refused(Fault),
    /// No event of a desk.
    NoEvent,
}

fn event_asks(event: Event) -> LineAsks
    ensures { result ≡ event_asks event }
{
    match event {
        Event::Take | Event::Bring(_) => LineAsks::NoEvent,
        Event::Edit(edit) => LineAsks::Call(Event::Edit(edit)),
        Event::Release => LineAsks::Call(Event::Release),
        Event::Show(key, spot) => LineAsks::Call(Event::Show(key, spot)),
        Event::List => LineAsks::Call(Event::List),
    }
}

fn fault_asks(fault: Fault) -> LineAsks
    ensures { result ≡ fault_asks fault }
{
    match fault {
        Fault::Syntax(column) => LineAsks::Refused(Fault::Syntax(column)),
        _ => LineAsks::NoEvent,
    }
}

fn asks_of(asked: Asked) -> LineAsks
    ensures { result ≡ asks_of asked }
{
    match asked {
        Asked::Call(event) => event_asks(event),
        Asked::Look(key, spot) => LineAsks::Call(Event::Show(key, spot)),
        Asked::Faults | Asked::Settle | Asked::Chosen(_) => LineAsks::NoEvent,
        Asked::Refused(fault) => fault_asks(fault),
    }
}

/// What a line is at a desk. The error says that memory was refused, which an empty line and a comment don't need.
pub(crate) fn line_asks(alloc: Global, line: &[u8]) -> Result<LineAsks, AllocError>
    ensures ok { IfOk result (λ asks. asks ≡ line_asks line.now) }
    ensures needed { OnErr result (is_skipped line.now ≡ false) }
{
    let hand = Hand::new(alloc, false);
    match hand.asked(false, line)? {
        Some(asked) => Ok(asks_of(asked)),
        None => Ok(LineAsks::NoEvent),
    }
}

/// The text of the reply to a look at a key.
fn show_text(alloc: Global, book: &Book, key: KeyName, spot: Spot) -> Result<Vec<u8>, AllocError>
    ensures { IfOk result (λ text. text.items ≡ reply_text (reply_to book.now (EventCase.Show key spot))) }
{
    let mut hand = Hand::new(alloc, false);
    match book.show(key, spot) {
        Ok(look) => hand.tell_look(&look),
        Err(fault) => hand.refuse(fault),
    }
}

/// The text of the reply to a look at the rows.
fn rows_text(alloc: Global, book: &Book) -> Result<Vec<u8>, AllocError>
    ensures { IfOk result (λ text. text.items ≡ reply_text (reply_to book.now EventCase.List)) }
{
    let rows = book.list()?;
    list_text(alloc, rows.as_slice())
}

/// The text of the reply to an event that is a look, before it is made. Of another event it is no text that is used.
pub(crate) fn look_text(alloc: Global, book: &Book, event: &Event) -> Result<Vec<u8>, AllocError>
    ensures { IfOk result (λ text. is_look (reply_to book.now event.now) ≡ true → text.items ≡ reply_text (reply_to book.now event.now)) }
{
    match event {
        Event::Show(key, spot) => show_text(alloc, book, *key, *spot),
        Event::List => rows_text(alloc, book),
        _ => Ok(Vec::new(alloc)),
    }
}

/// The text of a reply in the room that is there for it, where that of a look is there already. It takes no memory.
pub(crate) fn told_text(hand: Hand, room: Room, reply: Reply, look: Vec<u8>) -> Vec<u8>
    requires fresh { hand.hand ≡ empty_hand false }
    requires place { HasPlace hand reply }
    requires look { is_look reply ≡ true → look.items ≡ reply_text reply }
    ensures { result.items ≡ reply_text reply }
{
    let mut hand = hand;
    if matches!(&reply, Reply::Show(_) | Reply::List(_)) {
        return look;
    }
    match hand.tell(room, reply) {
        Ok(text) => text,
        Err(_) => look,
    }
}

/// The text of a reply. The error says that memory was refused.
pub(crate) fn text_of(alloc: Global, reply: &Reply) -> Result<Vec<u8>, AllocError>
    ensures { IfOk result (λ text. text.items ≡ reply_text reply.now) }
{
    let mut hand = Hand::new(alloc, false);
    let room = hand.ready(&Event::Take)?;
    let copy = copy_of_reply(reply)?;
    hand.tell(room, copy)
}
