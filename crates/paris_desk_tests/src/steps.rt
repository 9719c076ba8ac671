//! Tables of steps: what a seat does at a desk, and what must come of it.

use crate::spellings::{Text, instr_of, key, name};
use paris_desk::{Desk, Front, Office, Seat};
use paris_edits::{Edit, EditReply, RowLook, Verdict};
use paris_events::Shown;
use paris_exec::{Done, Order, execute};
use paris_names::{Edition, Fault, Items, RowId, Spot};
use std::alloc::{AllocError, Global};
use std::process::Abort;
use std::sync::Wait;

/// An edit, as a table has it. Its set is `S`, and where it has no width its fields have width 8.
#[derive(Clone, Copy)]
pub(crate) enum Change {
    /// The set is declared, with axes of these lengths.
    Set(&'static [u64]),
    /// A field of this name is declared.
    Field(Text),
    /// A field of this name is declared that has this width.
    FieldOf(Text, u64),
    /// A field is given these numbers, from the first processor on.
    Input(Text, &'static [u128]),
    /// An instruction is put in at the end.
    Insert(Text),
    /// The row of this id is taken out.
    Delete(u64),
}

/// What a seat does at a desk, and what must come of it.
#[derive(Clone, Copy)]
pub(crate) enum Step {
    /// An edit is accepted, which puts in no row.
    Accepts(Change),
    /// An instruction is put in at the end, and becomes the row of this id.
    Inserts(Text, u64),
    /// An edit is refused with this fault.
    Refuses(Change, Fault),
    /// An order is taken, which is for the row of this id with this edition. Its result is kept in hand.
    Takes(u64, u64),
    /// The result in hand that was taken after that many others is brought, and is judged so.
    Brings(usize, Verdict),
    /// The orders that are out are given up.
    Releases,
    /// Just the rows of these ids are listed.
    Lists(&'static [u64]),
    /// A look at the rows is not recorded, by this fault.
    MayNotList(Fault),
    /// What is shown of a key at a spot is settled, and these numbers.
    Shows(Text, Spot, &'static [u128]),
    /// A key is pending at a spot, for the row of this id.
    Waits(Text, Spot, u64),
    /// The seat is told of so many entries.
    Learns(u64),
    /// It has so many receipts, and was told of so many entries.
    Has(usize, u64),
}

fn field_of(rt: &impl Abort, field: Text, width: u64) -> Edit {
    Edit::AddField {
        name: name(rt, field),
        set: name(rt, b"S"),
        width,
    }
}

fn edit_of(rt: &impl Abort, alloc: Global, change: Change) -> Result<Edit, AllocError> {
    match change {
        Change::Set(axes) => {
            Ok(Edit::AddSet {
                name: name(rt, b"S"),
                axes: Items::new(Vec::from_slice(alloc, axes)?),
            })
        }
        Change::Field(field) => Ok(field_of(rt, field, 8)),
        Change::FieldOf(field, width) => Ok(field_of(rt, field, width)),
        Change::Input(field, numbers) => {
            Ok(Edit::Input {
                key: key(rt, field),
                from: 0,
                values: Items::new(Vec::from_slice(alloc, numbers)?),
            })
        }
        Change::Insert(text) => {
            Ok(Edit::Insert {
                spot: Spot::End,
                instr: instr_of(rt, text),
            })
        }
        Change::Delete(id) => Ok(Edit::Delete(RowId(id))),
    }
}

/// Whether an edit is answered so.
fn edits<L: Office>(
    rt: &(impl Abort + Wait),
    alloc: Global,
    desk: &Desk<L>,
    seat: &mut Seat<L>,
    change: Change,
    answer: Result<EditReply, Fault>,
) -> Result<bool, Fault> {
    let edit = edit_of(rt, alloc, change)?;
    Ok(desk.edit(rt, seat, edit) == answer)
}

/// Whether an order is for the row of this id, with this edition.
fn is_order_for(order: &Order, row: (u64, u64)) -> bool {
    order.id() == RowId(row.0) && order.edition() == Edition(row.1)
}

/// Executes an order, and keeps its result in hand.
fn executes(
    rt: &impl Abort,
    alloc: Global,
    hand: &mut Vec<Done>,
    order: Order,
) -> Result<(), AllocError> {
    let done = execute(alloc, order).ok().expect(rt, "there is memory");
    hand.push(done)?;
    Ok(())
}

/// Whether an order is taken that is for this row.
fn takes<L: Office>(
    rt: &(impl Abort + Wait),
    alloc: Global,
    desk: &Desk<L>,
    seat: &mut Seat<L>,
    hand: &mut Vec<Done>,
    row: (u64, u64),
) -> Result<bool, Fault> {
    let order = desk.take(rt, seat)?.expect(rt, "a row is ready");
    let is_wanted = is_order_for(&order, row);
    executes(rt, alloc, hand, order)?;
    Ok(is_wanted)
}

/// Whether a result in hand is judged so.
fn brings<L: Office>(
    rt: &(impl Abort + Wait),
    desk: &Desk<L>,
    seat: &mut Seat<L>,
    hand: &[Done],
    place: usize,
    verdict: Verdict,
) -> Result<bool, Fault> {
    let done = hand.get(place).expect(rt, "it is in hand").copy()?;
    Ok(desk.bring(rt, seat, done).ok() == Some(verdict))
}

/// The orders that are out are given up.
fn releases<L: Office>(
    rt: &(impl Abort + Wait),
    desk: &Desk<L>,
    seat: &mut Seat<L>,
) -> Result<bool, Fault> {
    desk.release(rt, seat)?;
    Ok(true)
}

/// Whether these are the rows of these ids.
fn are_rows(looks: &[RowLook], ids: &[u64]) -> bool {
    if looks.len() != ids.len() {
        return false;
    }
    for (look, id) in looks.iter().zip(ids.iter()) {
        if look.id != RowId(*id) {
            return false;
        }
    }
    true
}

/// Whether just the rows of these ids are listed.
fn lists<L: Office>(
    rt: &(impl Abort + Wait),
    desk: &Desk<L>,
    seat: &mut Seat<L>,
    ids: &[u64],
) -> Result<bool, Fault> {
    let looks = desk.list(rt, seat)?;
    Ok(are_rows(looks.as_slice(), ids))
}

/// Whether what is shown is settled, and these numbers.
fn is_settled(shown: &Shown, numbers: &[u128]) -> Result<bool, Fault> {
    match shown {
        Shown::Settled(value) => Ok(value.get().numbers()?.as_slice() == numbers),
        Shown::Pending(_) => Ok(false),
    }
}

/// Whether what is shown is pending, for the row of this id.
fn is_pending(shown: &Shown, id: u64) -> bool {
    match shown {
        Shown::Settled(_) => false,
        Shown::Pending(row) => *row == RowId(id),
    }
}

/// Whether a key is settled at a spot, and these numbers.
fn shows<L: Office>(
    rt: &(impl Abort + Wait),
    desk: &Desk<L>,
    seat: &mut Seat<L>,
    field: Text,
    spot: Spot,
    numbers: &[u128],
) -> Result<bool, Fault> {
    let shown = desk.show(rt, seat, key(rt, field), spot)?;
    is_settled(&shown, numbers)
}

/// Whether a key is pending at a spot, for the row of this id.
fn waits<L: Office>(
    rt: &(impl Abort + Wait),
    desk: &Desk<L>,
    seat: &mut Seat<L>,
    field: Text,
    spot: Spot,
    id: u64,
) -> Result<bool, Fault> {
    let shown = desk.show(rt, seat, key(rt, field), spot)?;
    Ok(is_pending(&shown, id))
}

/// A seat is told of so many entries.
fn learns<L: Office>(seat: &mut Seat<L>, count: u64) -> bool {
    seat.learn(Front(count));
    true
}

/// Whether a seat has so many receipts, and was told of so many entries.
fn has<L: Office>(seat: &Seat<L>, receipts: usize, front: u64) -> bool {
    seat.receipts().len() == receipts && seat.front() == Front(front)
}

/// Whether a step gives what must come of it.
fn makes<L: Office>(
    rt: &(impl Abort + Wait),
    alloc: Global,
    desk: &Desk<L>,
    seat: &mut Seat<L>,
    hand: &mut Vec<Done>,
    step: Step,
) -> Result<bool, Fault> {
    match step {
        Step::Accepts(change) => edits(rt, alloc, desk, seat, change, Ok(EditReply::Accepted)),
        Step::Inserts(text, id) => {
            let answer = Ok(EditReply::Row(RowId(id)));
            edits(rt, alloc, desk, seat, Change::Insert(text), answer)
        }
        Step::Refuses(change, fault) => edits(rt, alloc, desk, seat, change, Err(fault)),
        Step::Takes(id, edition) => takes(rt, alloc, desk, seat, hand, (id, edition)),
        Step::Brings(place, verdict) => brings(rt, desk, seat, hand.as_slice(), place, verdict),
        Step::Releases => releases(rt, desk, seat),
        Step::Lists(ids) => lists(rt, desk, seat, ids),
        Step::MayNotList(fault) => Ok(desk.list(rt, seat).err() == Some(fault)),
        Step::Shows(field, spot, numbers) => shows(rt, desk, seat, field, spot, numbers),
        Step::Waits(field, spot, id) => waits(rt, desk, seat, field, spot, id),
        Step::Learns(count) => Ok(learns(seat, count)),
        Step::Has(receipts, front) => Ok(has(seat, receipts, front)),
    }
}

/// The steps of a table, each of the seat at its place, with results in hand.
fn plays_with<L: Office>(
    rt: &(impl Abort + Wait),
    alloc: Global,
    desk: &Desk<L>,
    seats: &mut [Seat<L>],
    hand: &mut Vec<Done>,
    steps: &[(usize, Step)],
) -> Result<(), Fault> {
    for (number, (place, step)) in steps.iter().enumerate() {
        let seat = seats.get_mut(*place).expect(rt, "there is such a seat");
        let is_made = makes(rt, alloc, desk, seat, hand, *step)?;
        assert!(rt; is_made, "step {number}");
    }
    Ok(())
}

/// The steps of a table, each of the seat at its place.
pub(crate) fn plays<L: Office>(
    rt: &(impl Abort + Wait),
    alloc: Global,
    desk: &Desk<L>,
    seats: &mut [Seat<L>],
    steps: &[(usize, Step)],
) -> Result<(), Fault> {
    let mut hand = Vec::new(alloc);
    plays_with(rt, alloc, desk, seats, &mut hand, steps)
}

/// The steps of a table, all of one seat, with results in hand.
fn plays_alone_with<L: Office>(
    rt: &(impl Abort + Wait),
    alloc: Global,
    desk: &Desk<L>,
    seat: &mut Seat<L>,
    hand: &mut Vec<Done>,
    steps: &[Step],
) -> Result<(), Fault> {
    for (number, step) in steps.iter().enumerate() {
        let is_made = makes(rt, alloc, desk, seat, hand, *step)?;
        assert!(rt; is_made, "step {number}");
    }
    Ok(())
}

/// The steps of a table, all of one seat.
pub(crate) fn plays_alone<L: Office>(
    rt: &(impl Abort + Wait),
    alloc: Global,
    desk: &Desk<L>,
    seat: &mut Seat<L>,
    steps: &[Step],
) -> Result<(), Fault> {
    let mut hand = Vec::new(alloc);
    plays_alone_with(rt, alloc, desk, seat, &mut hand, steps)
}
