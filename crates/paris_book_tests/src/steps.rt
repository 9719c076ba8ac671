//! Tables of steps: what a user or a worker does with a book, and what must come of it.

use crate::programs;
use crate::programs::{becomes_row, is_settled_by, shows_at};
use crate::spellings::*;
use paris_book::{Book, Look};
use paris_edits::{Edit, RowLook, Status, Verdict};
use paris_events::{Event, Reply};
use paris_exec::{Done, Order, execute};
use paris_model::Refusal;
use paris_names::{Edition, Fault, Items, KeyName, RowId, Spot};
use std::alloc::{AllocError, Global};
use std::process::Abort;

/// An edit, as a table has it.
pub(crate) enum Change {
    /// A set of this name is declared, with axes of these lengths.
    Set(Text, &'static [u64]),
    /// A field is declared: its name, its set, and its width.
    Field(Text, Text, u64),
    /// A key is given these numbers, from a processor on.
    Input(Text, u64, &'static [u128]),
    /// An instruction is put in at a spot.
    Insert(Spot, Text),
    /// The row of this id is taken out.
    Delete(u64),
    /// The row of this id is given another instruction.
    Replace(u64, Text),
}

/// A row, as a table has it: its id, its edition, its status, its instruction, and why it is refused, if it is.
pub(crate) type Row = (u64, u64, Status, Text, Option<Refusal>);

/// What a user or a worker does with a book, and what must come of it.
pub(crate) enum Step {
    /// An edit is accepted, which puts in no row.
    Accepts(Change),
    /// Fields of the set `s` are declared, of width 8.
    DeclaresFields(&'static [Text]),
    /// An instruction is put in at a spot, and becomes the row of this id.
    Inserts(Spot, Text, u64),
    /// An edit is refused with this fault, and leaves the count of edits and the list of rows as they were.
    Refuses(Change, Fault),
    /// An order is taken, which is for the row of this id with this edition. Its result is kept in hand.
    Takes(u64, u64),
    /// An order is taken, which is for the row of this id with this edition, and is lost.
    Loses(u64, u64),
    /// No order is ready.
    TakesNothing,
    /// The next take would give an order for the row of this id with this edition. The list of rows stays as it was.
    Peeks(u64, u64),
    /// The next take would give no order. The list of rows stays as it was.
    PeeksAtNothing,
    /// An order for what a key holds at a spot is for the row of this id with this edition. Its result is kept in hand, and the list of
    /// rows stays as it was.
    OrdersFor(Text, Spot, u64, u64),
    /// There is no order for what a key holds at a spot. The list of rows stays as it was.
    OrdersNothingFor(Text, Spot),
    /// A copy of the result in hand that was taken after that many others is brought, and is judged so.
    Brings(usize, Verdict),
    /// The orders that are out are given up.
    Releases,
    /// The orders that are out are given up by an event.
    ReleasesByEvent,
    /// The book is settled by so many orders.
    Settles(u64),
    /// At most so many orders are run, and so many are.
    Runs(u64, u64),
    /// What a key holds at a spot is settled by so many orders.
    SettlesFor(Text, Spot, u64),
    /// To settle what a key holds at a spot is refused with this fault. The list of rows stays as it was.
    RefusesToSettle(Text, Spot, Fault),
    /// What a key holds at a spot is from the row of this id, or from the start.
    StemsFrom(Text, Spot, Option<u64>),
    /// A look for the origin of a key at a spot is refused with this fault.
    RefusesOrigin(Text, Spot, Fault),
    /// A room of as many places gets these ids of unsettled rows, and so many rows aren't settled.
    PutsUnsettled(&'static [u64], usize),
    /// Just these rows are listed.
    Lists(&'static [Row]),
    /// What is shown of a key at a spot is settled, and these numbers.
    Shows(Text, Spot, &'static [u128]),
    /// A key is pending at a spot, for the row of this id.
    Waits(Text, Spot, u64),
    /// A look at a key at a spot is refused with this fault.
    RefusesLook(Text, Spot, Fault),
    /// Just so many edits were accepted.
    HasEdits(u64),
    /// Just so many rows aren't settled.
    HasUnsettled(usize),
    /// No settled row is refused.
    HasNoFaults,
    /// A fault has this number.
    HasNumber(Fault, u64),
}

pub(crate) fn edit_of(rt: &impl Abort, alloc: Global, change: &Change) -> Result<Edit, AllocError> {
    match change {
        Change::Set(text, axes) => {
            let axes = Items::new(Vec::from_slice(alloc, *axes)?);
            Ok(Edit::AddSet {
                name: name(rt, *text),
                axes,
            })
        }
        Change::Field(text, set, width) => {
            Ok(Edit::AddField {
                name: name(rt, *text),
                set: name(rt, *set),
                width: *width,
            })
        }
        Change::Input(text, from, numbers) => {
            let values = Items::new(Vec::from_slice(alloc, *numbers)?);
            Ok(Edit::Input {
                key: key(rt, *text),
                from: *from,
                values,
            })
        }
        Change::Insert(spot, text) => Ok(Edit::Insert {
            spot: *spot,
            instr: instr_of(rt, *text),
        }),
        Change::Delete(id) => Ok(Edit::Delete(RowId(*id))),
        Change::Replace(id, text) => Ok(Edit::Replace {
            row: RowId(*id),
            instr: instr_of(rt, *text),
        }),
    }
}

fn look_of(rt: &impl Abort, row: &Row) -> RowLook {
    let (id, edition, status, text, cause) = row;
    RowLook {
        id: RowId(*id),
        edition: Edition(*edition),
        status: *status,
        instr: instr_of(rt, *text),
        cause: *cause,
    }
}

/// Rows as they are listed.
pub(crate) fn looks_of(
    rt: &impl Abort,
    alloc: Global,
    rows: &[Row],
) -> Result<Vec<RowLook>, AllocError> {
    let mut looks = Vec::new(alloc);
    for row in rows {
        looks.push(look_of(rt, row))?;
    }
    Ok(looks)
}

/// The reply to an event.
pub(crate) fn answer(rt: &impl Abort, book: &mut Book, event: Event) -> Reply {
    book.step(event).ok().expect(rt, "there is memory")
}

fn accepts(
    rt: &impl Abort,
    alloc: Global,
    book: &mut Book,
    change: &Change,
) -> Result<(), AllocError> {
    programs::accept(rt, book, edit_of(rt, alloc, change)?);
    Ok(())
}

fn declares_fields(rt: &impl Abort, book: &mut Book, fields: &[Text]) -> Result<(), AllocError> {
    for field in fields {
        let edit = Edit::AddField {
            name: name(rt, *field),
            set: name(rt, b"s"),
            width: 8,
        };
        programs::accept(rt, book, edit);
    }
    Ok(())
}

pub(crate) fn inserts(
    rt: &impl Abort,
    book: &mut Book,
    spot: Spot,
    text: &[u8],
    id: u64,
) -> Result<(), AllocError> {
    let instr = instr_of(rt, text);
    assert!(rt; becomes_row(book, spot, instr, id));
    Ok(())
}

/// Whether a book lists just these rows.
pub(crate) fn is_listed(book: &Book, looks: &[RowLook]) -> Result<bool, AllocError> {
    Ok(book.list()?.as_slice() == looks)
}

/// Whether an edit is refused with this fault, and leaves the count of edits as it was.
fn is_refused(book: &mut Book, edit: Edit, fault: Fault) -> bool {
    let count = book.edits();
    book.edit(edit) == Err(fault) && book.edits() == count
}

/// Whether an edit is refused with this fault, and leaves the count of edits and these rows as they were.
fn is_refused_with(
    book: &mut Book,
    edit: Edit,
    fault: Fault,
    looks: &[RowLook],
) -> Result<bool, AllocError> {
    Ok(is_refused(book, edit, fault) && is_listed(book, looks)?)
}

fn refuses(
    rt: &impl Abort,
    alloc: Global,
    book: &mut Book,
    change: &Change,
    fault: Fault,
) -> Result<(), AllocError> {
    let edit = edit_of(rt, alloc, change)?;
    let rows = book.list()?;
    let refused = is_refused_with(book, edit, fault, rows.as_slice())?;
    assert!(rt; refused);
    Ok(())
}

/// Whether an order is for the row of this id with this edition.
fn is_for(order: &Order, id: u64, edition: u64) -> bool {
    order.id() == RowId(id) && order.edition() == Edition(edition)
}

/// The result of an order.
pub(crate) fn run(rt: &impl Abort, alloc: Global, order: Order) -> Done {
    execute(alloc, order).ok().expect(rt, "there is memory")
}

/// The book's next order, which is for the row of this id with this edition.
fn take(rt: &impl Abort, book: &mut Book, id: u64, edition: u64) -> Result<Order, AllocError> {
    let order = book.take()?.expect(rt, "a row is ready");
    assert!(rt; is_for(&order, id, edition));
    Ok(order)
}

fn takes(
    rt: &impl Abort,
    alloc: Global,
    book: &mut Book,
    hand: &mut Vec<Done>,
    id: u64,
    edition: u64,
) -> Result<(), AllocError> {
    let order = take(rt, book, id, edition)?;
    hand.push(run(rt, alloc, order))?;
    Ok(())
}

fn loses(rt: &impl Abort, book: &mut Book, id: u64, edition: u64) -> Result<(), AllocError> {
    let _lost = take(rt, book, id, edition)?;
    Ok(())
}

fn is_out_of_orders(book: &mut Book) -> Result<bool, AllocError> {
    Ok(book.take()?.is_none())
}

fn takes_nothing(rt: &impl Abort, book: &mut Book) -> Result<(), AllocError> {
    let nothing = is_out_of_orders(book)?;
    assert!(rt; nothing);
    Ok(())
}

/// Whether the next take would give an order for the row of this id with this edition.
fn is_next(book: &Book, id: u64, edition: u64) -> Result<bool, AllocError> {
    match book.peek()? {
        Some(order) => Ok(is_for(&order, id, edition)),
        None => Ok(false),
    }
}

fn is_next_none(book: &Book) -> Result<bool, AllocError> {
    Ok(book.peek()?.is_none())
}

fn peeks(rt: &impl Abort, book: &Book, id: u64, edition: u64) -> Result<(), AllocError> {
    let rows = book.list()?;
    let next = is_next(book, id, edition)? && is_listed(book, rows.as_slice())?;
    assert!(rt; next);
    Ok(())
}

fn peeks_at_nothing(rt: &impl Abort, book: &Book) -> Result<(), AllocError> {
    let rows = book.list()?;
    let nothing = is_next_none(book)? && is_listed(book, rows.as_slice())?;
    assert!(rt; nothing);
    Ok(())
}

/// The order for what a key holds at a spot, which is for the row of this id with this edition.
fn order_for(
    rt: &impl Abort,
    book: &Book,
    text: &[u8],
    spot: Spot,
    id: u64,
    edition: u64,
) -> Result<Order, AllocError> {
    let order = book.order_for(key(rt, text), spot)?;
    let order = order.expect(rt, "a row is ready");
    assert!(rt; is_for(&order, id, edition));
    Ok(order)
}

/// Runs an order, and keeps its result in hand. The rows of the book are still these.
fn holds(
    rt: &impl Abort,
    alloc: Global,
    book: &Book,
    hand: &mut Vec<Done>,
    order: Order,
    rows: &[RowLook],
) -> Result<(), AllocError> {
    hand.push(run(rt, alloc, order))?;
    let same = is_listed(book, rows)?;
    assert!(rt; same);
    Ok(())
}

fn has_no_order_for(book: &Book, key: KeyName, spot: Spot) -> Result<bool, AllocError> {
    Ok(book.order_for(key, spot)?.is_none())
}

fn orders_nothing_for(
    rt: &impl Abort,
    book: &Book,
    text: &[u8],
    spot: Spot,
) -> Result<(), AllocError> {
    let rows = book.list()?;
    let nothing = has_no_order_for(book, key(rt, text), spot)? && is_listed(book, rows.as_slice())?;
    assert!(rt; nothing);
    Ok(())
}

/// Whether a copy of a result is judged so.
fn is_judged(book: &mut Book, done: &Done, verdict: Verdict) -> Result<bool, AllocError> {
    Ok(book.bring(done.copy()?) == verdict)
}

fn brings(
    rt: &impl Abort,
    book: &mut Book,
    hand: &[Done],
    number: usize,
    verdict: Verdict,
) -> Result<(), AllocError> {
    let done = hand.get(number).expect(rt, "it is in hand");
    let judged = is_judged(book, done, verdict)?;
    assert!(rt; judged);
    Ok(())
}

fn is_release(reply: &Reply) -> bool {
    matches!(reply, Reply::Release)
}

fn releases_by_event(rt: &impl Abort, book: &mut Book) -> Result<(), AllocError> {
    let reply = answer(rt, book, Event::Release);
    assert!(rt; is_release(&reply));
    Ok(())
}

fn releases(book: &mut Book) -> Result<(), AllocError> {
    book.release();
    Ok(())
}

fn settles(rt: &impl Abort, book: &mut Book, count: u64) -> Result<(), AllocError> {
    assert!(rt; is_settled_by(book, count));
    Ok(())
}

fn is_run_by(book: &mut Book, most: u64, count: u64) -> bool {
    book.run(most) == Ok(count)
}

fn runs(rt: &impl Abort, book: &mut Book, most: u64, count: u64) -> Result<(), AllocError> {
    assert!(rt; is_run_by(book, most, count));
    Ok(())
}

fn is_settled_for(book: &mut Book, key: KeyName, spot: Spot, count: u64) -> bool {
    book.settle_for(key, spot) == Ok(Ok(count))
}

fn settles_for(
    rt: &impl Abort,
    book: &mut Book,
    text: &[u8],
    spot: Spot,
    count: u64,
) -> Result<(), AllocError> {
    assert!(rt; is_settled_for(book, key(rt, text), spot, count));
    Ok(())
}

/// Whether to settle what a key holds at a spot is refused with this fault, and leaves these rows as they were.
fn is_settling_refused(
    book: &mut Book,
    key: KeyName,
    spot: Spot,
    fault: Fault,
    looks: &[RowLook],
) -> Result<bool, AllocError> {
    Ok(book.settle_for(key, spot) == Err(fault) && is_listed(book, looks)?)
}

fn refuses_to_settle(
    rt: &impl Abort,
    book: &mut Book,
    text: &[u8],
    spot: Spot,
    fault: Fault,
) -> Result<(), AllocError> {
    let rows = book.list()?;
    let refused = is_settling_refused(book, key(rt, text), spot, fault, rows.as_slice())?;
    assert!(rt; refused);
    Ok(())
}

fn is_origin(book: &Book, key: KeyName, spot: Spot, origin: Result<Option<RowId>, Fault>) -> bool {
    book.origin(key, spot) == origin
}

fn stems_from(
    rt: &impl Abort,
    book: &Book,
    text: &[u8],
    spot: Spot,
    id: Option<u64>,
) -> Result<(), AllocError> {
    assert!(rt; is_origin(book, key(rt, text), spot, Ok(id.map(RowId))));
    Ok(())
}

fn refuses_origin(
    rt: &impl Abort,
    book: &Book,
    text: &[u8],
    spot: Spot,
    fault: Fault,
) -> Result<(), AllocError> {
    assert!(rt; is_origin(book, key(rt, text), spot, Err(fault)));
    Ok(())
}

/// A room of so many places, each of which has a number that is no row's id.
fn empty_room(alloc: Global, len: usize) -> Result<Vec<u64>, AllocError> {
    let mut room = Vec::new(alloc);
    for _place in 0..len {
        room.push(0)?;
    }
    Ok(room)
}

fn is_put(book: &Book, room: &mut [u64], ids: &[u64], count: usize) -> bool {
    book.unsettled_ids(room) == count && *room == *ids
}

fn puts_unsettled(
    rt: &impl Abort,
    alloc: Global,
    book: &Book,
    ids: &[u64],
    count: usize,
) -> Result<(), AllocError> {
    let mut room = empty_room(alloc, ids.len())?;
    assert!(rt; is_put(book, room.as_mut_slice(), ids, count));
    Ok(())
}

fn lists(rt: &impl Abort, alloc: Global, book: &Book, rows: &[Row]) -> Result<(), AllocError> {
    let looks = looks_of(rt, alloc, rows)?;
    let listed = is_listed(book, looks.as_slice())?;
    assert!(rt; listed);
    Ok(())
}

/// Whether a key is pending at a spot, for this row.
fn is_pending(book: &Book, key: KeyName, spot: Spot, id: RowId) -> bool {
    match book.show(key, spot) {
        Ok(Look::Pending(row)) => row == id,
        _ => false,
    }
}

fn waits(rt: &impl Abort, book: &Book, text: &[u8], spot: Spot, id: u64) -> Result<(), AllocError> {
    assert!(rt; is_pending(book, key(rt, text), spot, RowId(id)));
    Ok(())
}

fn is_look_refused(book: &Book, key: KeyName, spot: Spot, fault: Fault) -> bool {
    book.show(key, spot).err() == Some(fault)
}

fn refuses_look(
    rt: &impl Abort,
    book: &Book,
    text: &[u8],
    spot: Spot,
    fault: Fault,
) -> Result<(), AllocError> {
    assert!(rt; is_look_refused(book, key(rt, text), spot, fault));
    Ok(())
}

fn has_edits(rt: &impl Abort, book: &Book, count: u64) -> Result<(), AllocError> {
    assert!(rt; book.edits() == count);
    Ok(())
}

fn has_unsettled(rt: &impl Abort, book: &Book, count: usize) -> Result<(), AllocError> {
    assert!(rt; book.unsettled_count() == count);
    Ok(())
}

fn has_number(rt: &impl Abort, fault: Fault, number: u64) -> Result<(), AllocError> {
    assert!(rt; fault.number() == number);
    Ok(())
}

fn plays_step(
    rt: &impl Abort,
    alloc: Global,
    book: &mut Book,
    hand: &mut Vec<Done>,
    step: &Step,
) -> Result<(), AllocError> {
    match step {
        Step::Accepts(change) => accepts(rt, alloc, book, change),
        Step::DeclaresFields(fields) => declares_fields(rt, book, *fields),
        Step::Inserts(spot, text, id) => inserts(rt, book, *spot, *text, *id),
        Step::Refuses(change, fault) => refuses(rt, alloc, book, change, *fault),
        Step::Takes(id, edition) => takes(rt, alloc, book, hand, *id, *edition),
        Step::Loses(id, edition) => loses(rt, book, *id, *edition),
        Step::TakesNothing => takes_nothing(rt, book),
        Step::Peeks(id, edition) => peeks(rt, book, *id, *edition),
        Step::PeeksAtNothing => peeks_at_nothing(rt, book),
        Step::OrdersFor(text, spot, id, edition) => {
            let rows = book.list()?;
            let order = order_for(rt, book, *text, *spot, *id, *edition)?;
            holds(rt, alloc, book, hand, order, rows.as_slice())
        }
        Step::OrdersNothingFor(text, spot) => orders_nothing_for(rt, book, *text, *spot),
        Step::Brings(number, verdict) => brings(rt, book, hand.as_slice(), *number, *verdict),
        Step::Releases => releases(book),
        Step::ReleasesByEvent => releases_by_event(rt, book),
        Step::Settles(count) => settles(rt, book, *count),
        Step::Runs(most, count) => runs(rt, book, *most, *count),
        Step::SettlesFor(text, spot, count) => settles_for(rt, book, *text, *spot, *count),
        Step::RefusesToSettle(text, spot, fault) => {
            refuses_to_settle(rt, book, *text, *spot, *fault)
        }
        Step::StemsFrom(text, spot, id) => stems_from(rt, book, *text, *spot, *id),
        Step::RefusesOrigin(text, spot, fault) => refuses_origin(rt, book, *text, *spot, *fault),
        Step::PutsUnsettled(ids, count) => puts_unsettled(rt, alloc, book, *ids, *count),
        Step::Lists(rows) => lists(rt, alloc, book, *rows),
        Step::Shows(text, spot, numbers) => shows_at(rt, book, *text, *spot, *numbers),
        Step::Waits(text, spot, id) => waits(rt, book, *text, *spot, *id),
        Step::RefusesLook(text, spot, fault) => refuses_look(rt, book, *text, *spot, *fault),
        Step::HasEdits(count) => has_edits(rt, book, *count),
        Step::HasUnsettled(count) => has_unsettled(rt, book, *count),
        Step::HasNoFaults => programs::refuses(rt, book, &[]),
        Step::HasNumber(fault, number) => has_number(rt, *fault, *number),
    }
}

/// Plays steps in a book, with these results in hand. There are some steps.
fn plays_all(
    rt: &impl Abort,
    alloc: Global,
    book: &mut Book,
    hand: &mut Vec<Done>,
    steps: &[Step],
) -> Result<(), AllocError> {
    assert!(rt; !steps.is_empty());
    for step in steps {
        plays_step(rt, alloc, book, hand, step)?;
    }
    Ok(())
}

/// Plays steps in a book, with nothing in hand.
pub(crate) fn plays_in(
    rt: &impl Abort,
    alloc: Global,
    book: &mut Book,
    steps: &[Step],
) -> Result<(), AllocError> {
    let mut hand = Vec::new(alloc);
    plays_all(rt, alloc, book, &mut hand, steps)
}

/// Plays steps in a new book, with these results in hand.
fn plays_in_new(
    rt: &impl Abort,
    alloc: Global,
    hand: &mut Vec<Done>,
    steps: &[Step],
) -> Result<(), AllocError> {
    let mut book = Book::new(alloc);
    plays_all(rt, alloc, &mut book, hand, steps)
}

/// Plays steps in a new book.
pub(crate) fn plays(rt: &impl Abort, alloc: Global, steps: &[Step]) -> Result<(), AllocError> {
    let mut hand = Vec::new(alloc);
    plays_in_new(rt, alloc, &mut hand, steps)
}

/// Plays the steps of a beginning in a book, and then further steps.
fn plays_both(
    rt: &impl Abort,
    alloc: Global,
    book: &mut Book,
    hand: &mut Vec<Done>,
    beginning: &[Step],
    steps: &[Step],
) -> Result<(), AllocError> {
    plays_all(rt, alloc, book, hand, beginning)?;
    plays_all(rt, alloc, book, hand, steps)
}

/// Plays steps in a book, and others in another book.
fn plays_in_both(
    rt: &impl Abort,
    alloc: Global,
    book: &mut Book,
    other: &mut Book,
    hand: &mut Vec<Done>,
    steps: &[Step],
    others: &[Step],
) -> Result<(), AllocError> {
    plays_all(rt, alloc, book, hand, steps)?;
    plays_all(rt, alloc, other, hand, others)
}

/// Plays steps in a book, and others in a snapshot of what it is before them, with the same results in hand.
fn plays_beside(
    rt: &impl Abort,
    alloc: Global,
    book: &mut Book,
    hand: &mut Vec<Done>,
    steps: &[Step],
    others: &[Step],
) -> Result<(), AllocError> {
    let mut snapshot = book.snapshot()?;
    plays_in_both(rt, alloc, book, &mut snapshot, hand, steps, others)
}

fn plays_then_beside(
    rt: &impl Abort,
    alloc: Global,
    book: &mut Book,
    hand: &mut Vec<Done>,
    beginning: &[Step],
    steps: &[Step],
    others: &[Step],
) -> Result<(), AllocError> {
    plays_all(rt, alloc, book, hand, beginning)?;
    plays_beside(rt, alloc, book, hand, steps, others)
}

/// Plays the steps of a beginning in a new book, and then further steps in it, and others in a snapshot of what it is between.
pub(crate) fn plays_beside_a_snapshot(
    rt: &impl Abort,
    alloc: Global,
    beginning: &[Step],
    steps: &[Step],
    others: &[Step],
) -> Result<(), AllocError> {
    let mut hand = Vec::new(alloc);
    let mut book = Book::new(alloc);
    plays_then_beside(rt, alloc, &mut book, &mut hand, beginning, steps, others)
}

fn plays_both_in_new(
    rt: &impl Abort,
    alloc: Global,
    hand: &mut Vec<Done>,
    beginning: &[Step],
    steps: &[Step],
) -> Result<(), AllocError> {
    let mut book = Book::new(alloc);
    plays_both(rt, alloc, &mut book, hand, beginning, steps)
}

/// Plays the steps of a beginning in a new book, and then further steps.
pub(crate) fn plays_after(
    rt: &impl Abort,
    alloc: Global,
    beginning: &[Step],
    steps: &[Step],
) -> Result<(), AllocError> {
    let mut hand = Vec::new(alloc);
    plays_both_in_new(rt, alloc, &mut hand, beginning, steps)
}

fn plays_behind(
    rt: &impl Abort,
    alloc: Global,
    hand: &mut Vec<Done>,
    others: &[Step],
    beginning: &[Step],
    steps: &[Step],
) -> Result<(), AllocError> {
    plays_in_new(rt, alloc, hand, others)?;
    plays_both_in_new(rt, alloc, hand, beginning, steps)
}

/// Plays steps in another book, whose results are then in hand, and after it those of a beginning and further ones in a new book.
pub(crate) fn plays_after_another(
    rt: &impl Abort,
    alloc: Global,
    others: &[Step],
    beginning: &[Step],
    steps: &[Step],
) -> Result<(), AllocError> {
    let mut hand = Vec::new(alloc);
    plays_behind(rt, alloc, &mut hand, others, beginning, steps)
}
