//! What a hold does to the book: an event is made, and its reply is there three times.

ghost use Rattle.std.specs.Prelude.{◌≡◌, IfOk, IfErr, OnOk, OnErr};
ghost use Rattle.paris_events.specs.Events.{reply_to, after};
ghost use Rattle.paris_events.specs.declared.events.Event.TheVariants as EventCase;

use paris_book::Book;
use paris_edits::Edit;
use paris_events::{Event, Reply};
use paris_names::{KeyName, Spot};
use paris_records::copy_of_reply;
use std::alloc::AllocError;

/// A reply for the caller, for the entry and for the receipt.
#[derive(Drop)]
pub(crate) struct Replies {
    pub(crate) given: Reply,
    pub(crate) entry: Reply,
    pub(crate) receipt: Reply,
}

/// A reply three times.
fn thrice(reply: Reply) -> Result<Replies, AllocError>
    ensures given { IfOk result (λ replies. replies.given ≡ reply) }
    ensures kept { IfOk result (λ replies. (replies.entry ≡ reply) × (replies.receipt ≡ reply)) }
{
    let entry = copy_of_reply(&reply)?;
    let receipt = copy_of_reply(&reply)?;
    Ok(Replies {
        given: reply,
        entry,
        receipt,
    })
}

/// Makes an edit.
fn make_edit(book: &mut Book, edit: Edit) -> Result<Replies, (Event, AllocError)>
    ensures given { IfOk result (λ replies. replies.given ≡ reply_to book.old (EventCase.Edit edit)) }
    ensures kept { IfOk result (λ replies. (replies.entry ≡ replies.given) × (replies.receipt ≡ replies.given)) }
    ensures state { OnOk result (book.new ≡ after book.old (EventCase.Edit edit)) }
    ensures err { IfErr result (λ e. (e.0 ≡ EventCase.Edit edit) × (book.new ≡ book.old)) }
{
    match book.step(Event::Edit(edit)) {
        Ok(Reply::Edit(answer)) => {
            Ok(Replies {
                given: Reply::Edit(answer),
                entry: Reply::Edit(answer),
                receipt: Reply::Edit(answer),
            })
        }
        Ok(_) => unreachable!(),
        Err(refused) => Err(refused),
    }
}

/// Takes an order. It is copied first, and the book is changed where there is memory for all.
fn make_take(book: &mut Book) -> Result<Replies, AllocError>
    ensures given { IfOk result (λ replies. replies.given ≡ reply_to book.old EventCase.Take) }
    ensures kept { IfOk result (λ replies. (replies.entry ≡ replies.given) × (replies.receipt ≡ replies.given)) }
    ensures state { OnOk result (book.new ≡ after book.old EventCase.Take) }
    ensures err { OnErr result (book.new ≡ book.old) }
{
    let entry = Reply::Take(book.peek()?);
    let receipt = copy_of_reply(&entry)?;
    let given = Reply::Take(book.take()?);
    Ok(Replies {
        given,
        entry,
        receipt,
    })
}

/// Looks at a key.
fn make_show(book: &mut Book, name: &KeyName, spot: &Spot) -> Result<Replies, AllocError>
    ensures given { IfOk result (λ replies. replies.given ≡ reply_to book.old (EventCase.Show name.now spot.now)) }
    ensures kept { IfOk result (λ replies. (replies.entry ≡ replies.given) × (replies.receipt ≡ replies.given)) }
    ensures state { book.new ≡ book.old }
{
    match book.step(Event::Show(*name, *spot)) {
        Ok(reply) => thrice(reply),
        Err((_, refused)) => Err(refused),
    }
}

/// Looks at the rows.
fn make_list(book: &Book) -> Result<Replies, AllocError>
    ensures given { IfOk result (λ replies. replies.given ≡ reply_to book.now EventCase.List) }
    ensures kept { IfOk result (λ replies. (replies.entry ≡ replies.given) × (replies.receipt ≡ replies.given)) }
{
    let looks = book.list()?;
    thrice(Reply::List(looks))
}

/// Makes an event. At an error the event comes back, and the book is as it was.
pub(crate) fn make(book: &mut Book, event: Event) -> Result<Replies, (Event, AllocError)>
    ensures given { IfOk result (λ replies. replies.given ≡ reply_to book.old event) }
    ensures kept { IfOk result (λ replies. (replies.entry ≡ replies.given) × (replies.receipt ≡ replies.given)) }
    ensures state { OnOk result (book.new ≡ after book.old event) }
    ensures err { IfErr result (λ e. (e.0 ≡ event) × (book.new ≡ book.old)) }
{
    match event {
        Event::Edit(edit) => make_edit(book, edit),
        Event::Take => match make_take(book) {
            Ok(replies) => Ok(replies),
            Err(refused) => Err((Event::Take, refused)),
        },
        Event::Bring(done) => {
            let verdict = book.bring(done);
            Ok(Replies {
                given: Reply::Bring(verdict),
                entry: Reply::Bring(verdict),
                receipt: Reply::Bring(verdict),
            })
        }
        Event::Release => {
            book.release();
            Ok(Replies {
                given: Reply::Release,
                entry: Reply::Release,
                receipt: Reply::Release,
            })
        }
        Event::Show(name, spot) => match make_show(book, &name, &spot) {
            Ok(replies) => Ok(replies),
            Err(refused) => Err((Event::Show(name, spot), refused)),
        },
        Event::List => match make_list(book) {
            Ok(replies) => Ok(replies),
            Err(refused) => Err((Event::List, refused)),
        },
    }
}
