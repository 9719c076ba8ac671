//! What a hold makes ready before anything is changed.

ghost use Rattle.std.specs.Prelude.{◌≡◌, IfOk, IfErr};
ghost use Rattle.std.specs.Arc.{arc_value};
ghost use Rattle.paris_events.specs.Events.{reply_to, after};
ghost use Rattle.paris_records.specs.History.{entry, receipt};

use crate::making::make;
use paris_book::Book;
use paris_events::{Event, Reply};
use paris_records::{Entry, Receipt, copy_of_event};
use std::alloc::{AllocError, Global};
use std::sync::Arc;

/// A call that is made on a copy of the book: the book after it, once for the lock and once to be published, the reply for the
/// caller, the entry and the receipt.
#[derive(Drop)]
pub(crate) struct Prepared {
    pub(crate) kept: Arc<Book, Global>,
    pub(crate) shown: Arc<Book, Global>,
    pub(crate) given: Reply,
    pub(crate) entry: Entry,
    pub(crate) receipt: Receipt,
}

impl Prepared {
    /// The event, where nothing comes of the call.
    pub(crate) fn given_up(self) -> Event
        ensures { result ≡ self.entry.event }
    {
        let Prepared {
            kept: _kept,
            shown: _shown,
            given: _given,
            entry,
            receipt: _receipt,
        } = self;
        let Entry {
            seat: _,
            event,
            reply: _reply,
        } = entry;
        event
    }
}

/// Two copies of an event.
fn two_copies(event: &Event) -> Result<(Event, Event), AllocError>
    ensures { IfOk result (λ copies. (copies.0 ≡ event.now) × (copies.1 ≡ event.now)) }
{
    let first = copy_of_event(event)?;
    let second = copy_of_event(event)?;
    Ok((first, second))
}

/// Two owners of one block with a book.
fn shared(alloc: Global, book: Book) -> Result<(Arc<Book, Global>, Arc<Book, Global>), AllocError>
    ensures { IfOk result (λ owners. (arc_value owners.0 ≡ book) × (arc_value owners.1 ≡ book)) }
{
    let kept = Arc::new(alloc, book)?;
    let shown = Arc::try_clone(&kept)?;
    Ok((kept, shown))
}

fn entry_of(seat: u64, event: Event, reply: Reply) -> Entry
    ensures { result ≡ entry seat event reply }
{
    Entry { seat, event, reply }
}

fn receipt_of(seat: u64, number: u64, event: Event, reply: Reply) -> Receipt
    ensures { result ≡ receipt seat number event reply }
{
    Receipt {
        seat,
        number,
        event,
        reply,
    }
}

/// Makes an event on a copy of a book, for the seat and the entry of these numbers. Where memory is refused the event comes back.
pub(crate) fn prepare(
    alloc: Global,
    book: &Book,
    seat: u64,
    number: u64,
    event: Event,
) -> Result<Prepared, Event>
    ensures state { IfOk result (λ made. (arc_value made.kept ≡ after book.now event) × (arc_value made.shown ≡ after book.now event)) }
    ensures given { IfOk result (λ made. made.given ≡ reply_to book.now event) }
    ensures entry { IfOk result (λ made. made.entry ≡ entry seat event (reply_to book.now event)) }
    ensures receipt { IfOk result (λ made. made.receipt ≡ receipt seat number event (reply_to book.now event)) }
    ensures back { IfErr result (λ back. back ≡ event) }
{
    let Ok((first, second)) = two_copies(&event) else {
        return Err(event);
    };
    let Ok(mut next) = book.snapshot() else {
        return Err(event);
    };
    let replies = match make(&mut next, event) {
        Ok(replies) => replies,
        Err((event, _)) => return Err(event),
    };
    let Ok((kept, shown)) = shared(alloc, next) else {
        return Err(first);
    };
    Ok(Prepared {
        kept,
        shown,
        given: replies.given,
        entry: entry_of(seat, first, replies.entry),
        receipt: receipt_of(seat, number, second, replies.receipt),
    })
}
