//! Edits of a book that are accepted or refused, and results of its orders.

use crate::spellings::*;
use paris_book::Book;
use paris_edits::{Edit, EditReply};
use paris_exec::{Done, Order, execute};
use paris_model::Instr;
use paris_names::{Fault, Items, RowId, Spot};
use std::alloc::{AllocError, Global};
use std::process::Abort;

/// Declares a set with axes of these lengths.
pub(crate) fn set(
    rt: &impl Abort,
    alloc: Global,
    text: &[u8],
    axes: &[u64],
) -> Result<Edit, AllocError> {
    Ok(Edit::AddSet {
        name: name(rt, text),
        axes: Items::new(Vec::from_slice(alloc, axes)?),
    })
}

/// Declares a field of the set `s`, of width 8.
pub(crate) fn declare(rt: &impl Abort, text: &[u8]) -> Edit {
    Edit::AddField {
        name: name(rt, text),
        set: name(rt, b"s"),
        width: 8,
    }
}

/// Whether an edit is accepted, which puts in no row.
fn is_accepted(book: &mut Book, edit: Edit) -> bool {
    book.edit(edit) == Ok(EditReply::Accepted)
}

/// Makes an edit that is accepted.
pub(crate) fn accept(rt: &impl Abort, book: &mut Book, edit: Edit) {
    assert!(rt; is_accepted(book, edit));
}

/// Whether an edit is refused with this fault, and leaves the count of edits as it was.
fn is_refused(book: &mut Book, edit: Edit, fault: Fault) -> bool {
    let count = book.edits();
    book.edit(edit) == Err(fault) && book.edits() == count
}

/// Makes an edit that is refused.
pub(crate) fn refuse(rt: &impl Abort, book: &mut Book, edit: Edit, fault: Fault) {
    assert!(rt; is_refused(book, edit, fault));
}

/// Whether an instruction that is put in at a spot becomes the row of this id.
fn becomes_row(book: &mut Book, spot: Spot, instr: Instr, id: u64) -> bool {
    book.edit(Edit::Insert { spot, instr }) == Ok(EditReply::Row(RowId(id)))
}

/// Puts an instruction into the program, which becomes the row of this id.
pub(crate) fn insert(rt: &impl Abort, book: &mut Book, spot: Spot, instr: Instr, id: u64) {
    assert!(rt; becomes_row(book, spot, instr, id));
}

/// Declares a set of four processors and the fields `a`, `b` and `c`.
pub(crate) fn declare_all(
    rt: &impl Abort,
    alloc: Global,
    book: &mut Book,
) -> Result<(), AllocError> {
    accept(rt, book, set(rt, alloc, b"s", &[4])?);
    accept(rt, book, declare(rt, b"a"));
    accept(rt, book, declare(rt, b"b"));
    accept(rt, book, declare(rt, b"c"));
    Ok(())
}

/// The result of an order.
pub(crate) fn run(rt: &impl Abort, alloc: Global, order: Order) -> Done {
    execute(alloc, order).ok().expect(rt, "there is memory")
}
