//! Tests of edits, orders, results and looks by events.

use crate::edits::{BOOK_OF_SUM, SUM};
use crate::programs::has_numbers;
use crate::spellings::{Text, key};
use crate::steps::Change::{Delete, Field, Input, Insert, Replace, Set};
use crate::steps::{Change, Row, answer, edit_of, looks_of, plays_in, run};
use paris_book::Book;
use paris_edits::Status::Waiting;
use paris_edits::{EditReply, RowLook, Verdict};
use paris_events::{Event, Reply, Shown};
use paris_exec::{Done, Order};
use paris_names::Spot::{End, Start};
use paris_names::{Fault, RowId};
use std::alloc::{AllocError, Global};
use std::process::Abort;

/// The edits of a first script: declarations, input data and a sum.
const FIRST_EDITS: &[Change] = &[
    Set(b"s", &[4]),
    Field(b"a", b"s", 8),
    Field(b"b", b"s", 8),
    Field(b"c", b"s", 8),
    Input(b"a", 0, &[1, 2, 3, 4]),
    Input(b"b", 0, &[10, 20, 30, 0]),
    Insert(End, SUM),
];

/// The events of a first script: its edits, an order, and a look.
fn first_events(rt: &impl Abort, alloc: Global) -> Result<Vec<Event>, AllocError> {
    let mut events = Vec::new(alloc);
    for change in FIRST_EDITS {
        events.push(Event::Edit(edit_of(rt, alloc, change)?))?;
    }
    events.push(Event::Take)?;
    events.push(Event::Show(key(rt, b"c"), End))?;
    Ok(events)
}

/// The replies to events that are answered one by one.
fn answers(
    rt: &impl Abort,
    alloc: Global,
    book: &mut Book,
    events: Vec<Event>,
) -> Result<Vec<Reply>, AllocError> {
    let mut replies = Vec::new(alloc);
    for event in events {
        replies.push(answer(rt, book, event))?;
    }
    Ok(replies)
}

/// Whether a reply is one to the first events before a result is brought: an order, a look at what is pending, or an edit that is
/// accepted.
fn is_first(reply: &Reply) -> bool {
    match reply {
        Reply::Take(_) => true,
        Reply::Show(Ok(Shown::Pending(id))) => *id == RowId(1),
        Reply::Edit(answer) => answer.is_ok(),
        _ => false,
    }
}

/// Whether all replies are such ones, and as many as the first events are.
fn are_first(replies: &[Reply]) -> bool {
    replies.len() == 9 && replies.iter().all(|reply| is_first(reply))
}

/// The order that a reply holds.
fn order_of(reply: Reply) -> Option<Order> {
    match reply {
        Reply::Take(taken) => taken,
        _ => None,
    }
}

/// The order that the replies to the first events hold.
fn order_among(replies: Vec<Reply>) -> Option<Order> {
    let mut order = None;
    for reply in replies {
        if let Some(taken) = order_of(reply) {
            order = Some(taken);
        }
    }
    order
}

/// Whether a reply is that a result is kept.
fn is_kept(reply: &Reply) -> bool {
    matches!(reply, Reply::Bring(Verdict::Kept))
}

/// Brings the result of an order as an event.
fn bring_as_event(rt: &impl Abort, book: &mut Book, done: Done) {
    let reply = answer(rt, book, Event::Bring(done));
    assert!(rt; is_kept(&reply));
}

/// Whether a reply shows the sum as settled.
fn is_sum(reply: &Reply) -> Result<bool, AllocError> {
    match reply {
        Reply::Show(Ok(Shown::Settled(value))) => has_numbers(value.get(), &[11, 22, 33, 4]),
        _ => Ok(false),
    }
}

/// Looks at the sum as an event.
fn look_as_event(rt: &impl Abort, book: &mut Book) -> Result<(), AllocError> {
    let reply = answer(rt, book, Event::Show(key(rt, b"c"), End));
    let settled = is_sum(&reply)?;
    assert!(rt; settled);
    Ok(())
}

/// The order that the replies to the first events hold, which are right.
fn order_in(rt: &impl Abort, replies: Vec<Reply>) -> Order {
    assert!(rt; are_first(replies.as_slice()));
    order_among(replies).expect(rt, "an order was taken")
}

/// The replies to the first events hold an order, whose result is brought as an event and settles the sum.
fn ends(
    rt: &impl Abort,
    alloc: Global,
    book: &mut Book,
    replies: Vec<Reply>,
) -> Result<(), AllocError> {
    assert!(rt; book.edits() == 7);
    let order = order_in(rt, replies);
    bring_as_event(rt, book, run(rt, alloc, order));
    look_as_event(rt, book)
}

fn answers_together(rt: &impl Abort, alloc: Global, book: &mut Book) -> Result<(), AllocError> {
    let events = first_events(rt, alloc)?;
    let replies = book.run_events(events).ok().expect(rt, "there is memory");
    ends(rt, alloc, book, replies.into_vec())
}

#[test]
fn events_are_answered_together(rt: HostRuntime) -> Result<(), AllocError> {
    let mut book = Book::new(rt.alloc());
    answers_together(&rt, rt.alloc(), &mut book)
}

fn answers_one_by_one(rt: &impl Abort, alloc: Global, book: &mut Book) -> Result<(), AllocError> {
    let events = first_events(rt, alloc)?;
    let replies = answers(rt, alloc, book, events)?;
    ends(rt, alloc, book, replies)
}

#[test]
fn events_are_answered_one_by_one(rt: HostRuntime) -> Result<(), AllocError> {
    let mut book = Book::new(rt.alloc());
    answers_one_by_one(&rt, rt.alloc(), &mut book)
}

/// Whether a reply to an edit is this one.
fn is_answer(reply: &Reply, wanted: &Result<EditReply, Fault>) -> bool {
    match reply {
        Reply::Edit(answer) => answer == wanted,
        _ => false,
    }
}

/// A change as an event, which is answered so.
fn changes_by_event(
    rt: &impl Abort,
    alloc: Global,
    book: &mut Book,
    change: &Change,
    wanted: &Result<EditReply, Fault>,
) -> Result<(), AllocError> {
    let reply = answer(rt, book, Event::Edit(edit_of(rt, alloc, change)?));
    assert!(rt; is_answer(&reply, wanted));
    Ok(())
}

/// Whether a reply lists just these rows.
fn is_list(reply: &Reply, looks: &[RowLook]) -> bool {
    match reply {
        Reply::List(rows) => rows.as_slice() == looks,
        _ => false,
    }
}

/// The list as an event has just these rows.
fn lists_by_event(
    rt: &impl Abort,
    alloc: Global,
    book: &mut Book,
    rows: &[Row],
) -> Result<(), AllocError> {
    let looks = looks_of(rt, alloc, rows)?;
    let reply = answer(rt, book, Event::List);
    assert!(rt; is_list(&reply, looks.as_slice()));
    Ok(())
}

/// A change as an event, its answer, and the rows that are listed after it.
type Answered = (Change, Result<EditReply, Fault>, &'static [Row]);

/// Plays the beginning with a sum in a book, and then events.
fn plays_events(
    rt: &impl Abort,
    alloc: Global,
    book: &mut Book,
    events: &[Answered],
) -> Result<(), AllocError> {
    plays_in(rt, alloc, book, BOOK_OF_SUM)?;
    for (change, wanted, rows) in events {
        changes_by_event(rt, alloc, book, change, wanted)?;
        lists_by_event(rt, alloc, book, *rows)?;
    }
    Ok(())
}

#[test]
fn rows_are_changed_and_listed_by_events(rt: HostRuntime) -> Result<(), AllocError> {
    const NINE: Text = b"u-move-constant-1L c 9 8";
    const EVENTS: &[Answered] = &[
        (
            Replace(1, NINE),
            Ok(EditReply::Accepted),
            &[(1, 8, Waiting, NINE, None)],
        ),
        (Delete(1), Ok(EditReply::Accepted), &[]),
        (Delete(1), Err(Fault::NoRow), &[]),
        (
            Insert(Start, NINE),
            Ok(EditReply::Row(RowId(2))),
            &[(2, 10, Waiting, NINE, None)],
        ),
    ];
    let mut book = Book::new(rt.alloc());
    plays_events(&rt, rt.alloc(), &mut book, EVENTS)
}
