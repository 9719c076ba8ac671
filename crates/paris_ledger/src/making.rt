//! What a call makes ready before anything is changed.

ghost use Rattle.std.specs.Prelude.{◌≡◌, IfOk};
ghost use Rattle.std.specs.Arc.{arc_value};
ghost use Rattle.paris_events.specs.Events.{reply_to, after};
ghost use Rattle.paris_records.specs.History.{entry};

use paris_book::Book;
use paris_events::{Event, Reply};
use paris_records::{Entry, copy_of_event, copy_of_reply};
use std::alloc::{AllocError, Global};
use std::sync::Arc;

/// A call that is made on a copy of the book: the book after it, the reply for the caller, and the entry.
#[derive(Drop)]
pub(crate) struct Made {
    pub(crate) book: Arc<Book, Global>,
    pub(crate) given: Reply,
    pub(crate) entry: Entry,
}

/// Makes an event of a seat on a copy of a book.
pub(crate) fn make(alloc: Global, book: &Book, seat: u64, event: &Event) -> Result<Made, AllocError>
    ensures state { IfOk result (λ made. arc_value made.book ≡ after book.now event.now) }
    ensures given { IfOk result (λ made. made.given ≡ reply_to book.now event.now) }
    ensures entry { IfOk result (λ made. made.entry ≡ entry seat event.now made.given) }
{
    let kept = copy_of_event(event)?;
    let asked = copy_of_event(event)?;
    let mut next = book.snapshot()?;
    let Ok(given) = next.step(asked) else {
        return Err(AllocError);
    };
    let reply = copy_of_reply(&given)?;
    let entry = Entry {
        seat,
        event: kept,
        reply,
    };
    Ok(Made {
        book: Arc::new(alloc, next)?,
        given,
        entry,
    })
}
