//! Programs of a few instructions in a book of the set `s`, run to their end.

use crate::spellings::*;
use paris_book::{Book, Look};
use paris_edits::{Edit, EditReply, RowFault};
use paris_field::FieldValue;
use paris_model::Instr;
use paris_names::{Items, KeyName, RowId, Spot};
use std::alloc::{AllocError, Global};
use std::process::Abort;

/// A field of `s`: its name, its width, and its numbers at the start.
pub(crate) type Given<'a> = (&'a [u8], u64, &'a [u128]);

/// A key and its numbers.
pub(crate) type Numbers<'a> = (&'a [u8], &'a [u128]);

/// A worked row, as a table has it.
pub(crate) struct Row {
    /// The lengths of the axes of `s`.
    pub(crate) axes: &'static [u64],
    pub(crate) fields: &'static [Given<'static>],
    /// Flags of `s` with their numbers at the start.
    pub(crate) flags: &'static [Numbers<'static>],
    pub(crate) program: &'static [Text],
    /// What keys hold at the end of the program.
    pub(crate) wanted: &'static [Numbers<'static>],
    /// The instructions that are refused when they run.
    pub(crate) refused: &'static [RowFault],
}

/// Whether an edit is accepted, which puts in no row.
fn is_accepted(book: &mut Book, edit: Edit) -> bool {
    book.edit(edit) == Ok(EditReply::Accepted)
}

/// Makes an edit that is accepted.
pub(crate) fn accept(rt: &impl Abort, book: &mut Book, edit: Edit) {
    assert!(rt; is_accepted(book, edit));
}

/// Declares the set `s` with these axes.
pub(crate) fn add_set(
    rt: &impl Abort,
    alloc: Global,
    book: &mut Book,
    axes: &[u64],
) -> Result<(), AllocError> {
    let axes = Items::new(Vec::from_slice(alloc, axes)?);
    accept(
        rt,
        book,
        Edit::AddSet {
            name: name(rt, b"s"),
            axes,
        },
    );
    Ok(())
}

fn give(
    rt: &impl Abort,
    alloc: Global,
    book: &mut Book,
    text: &[u8],
    numbers: &[u128],
) -> Result<(), AllocError> {
    let values = Items::new(Vec::from_slice(alloc, numbers)?);
    accept(
        rt,
        book,
        Edit::Input {
            key: key(rt, text),
            from: 0,
            values,
        },
    );
    Ok(())
}

/// Declares a field of `s` with these numbers.
pub(crate) fn add_field(
    rt: &impl Abort,
    alloc: Global,
    book: &mut Book,
    field: &Given<'_>,
) -> Result<(), AllocError> {
    let (text, width, numbers) = field;
    let set = name(rt, b"s");
    accept(
        rt,
        book,
        Edit::AddField {
            name: name(rt, *text),
            set,
            width: *width,
        },
    );
    give(rt, alloc, book, *text, *numbers)
}

fn add_fields(
    rt: &impl Abort,
    alloc: Global,
    book: &mut Book,
    fields: &[Given<'_>],
) -> Result<(), AllocError> {
    for field in fields {
        add_field(rt, alloc, book, field)?;
    }
    Ok(())
}

fn give_flags(
    rt: &impl Abort,
    alloc: Global,
    book: &mut Book,
    flags: &[Numbers<'_>],
) -> Result<(), AllocError> {
    for (flag, numbers) in flags {
        give(rt, alloc, book, *flag, *numbers)?;
    }
    Ok(())
}

/// Declares the set `s` with these axes and fields.
pub(crate) fn prepare(
    rt: &impl Abort,
    alloc: Global,
    book: &mut Book,
    axes: &[u64],
    fields: &[Given<'_>],
) -> Result<(), AllocError> {
    add_set(rt, alloc, book, axes)?;
    add_fields(rt, alloc, book, fields)
}

/// Whether an instruction that is put in at a spot becomes the row of this id.
pub(crate) fn becomes_row(book: &mut Book, spot: Spot, instr: Instr, id: u64) -> bool {
    book.edit(Edit::Insert { spot, instr }) == Ok(EditReply::Row(RowId(id)))
}

/// Puts instructions into a program of no rows, and answers how many they are.
pub(crate) fn append(rt: &impl Abort, book: &mut Book, program: &[&[u8]]) -> u64 {
    let mut count: u64 = 0;
    for text in program {
        count = count.wrapping_add(1);
        assert!(rt; becomes_row(book, Spot::End, instr_of(rt, *text), count));
    }
    count
}

/// Whether a book is settled by so many orders.
pub(crate) fn is_settled_by(book: &mut Book, count: u64) -> bool {
    book.settle() == Ok(count) && book.unsettled_count() == 0
}

/// Puts instructions into a program of no rows, and settles it.
pub(crate) fn run(rt: &impl Abort, book: &mut Book, program: &[&[u8]]) {
    let count = append(rt, book, program);
    assert!(rt; is_settled_by(book, count));
}

/// Whether a value has just these numbers.
pub(crate) fn has_numbers(value: &FieldValue, wanted: &[u128]) -> Result<bool, AllocError> {
    Ok(value.numbers()?.as_slice() == wanted)
}

/// Whether a key is settled at a spot, and has just these numbers.
fn is_shown(book: &Book, key: KeyName, spot: Spot, wanted: &[u128]) -> Result<bool, AllocError> {
    match book.show(key, spot) {
        Ok(Look::Settled(value)) => has_numbers(value, wanted),
        _ => Ok(false),
    }
}

/// A key is settled at a spot, and has these numbers.
pub(crate) fn shows_at(
    rt: &impl Abort,
    book: &Book,
    text: &[u8],
    spot: Spot,
    wanted: &[u128],
) -> Result<(), AllocError> {
    let shown = is_shown(book, key(rt, text), spot, wanted)?;
    assert!(rt; shown);
    Ok(())
}

/// A key has these numbers at the end of the program.
pub(crate) fn shows(
    rt: &impl Abort,
    book: &Book,
    text: &[u8],
    wanted: &[u128],
) -> Result<(), AllocError> {
    shows_at(rt, book, text, Spot::End, wanted)
}

fn shows_all(rt: &impl Abort, book: &Book, wanted: &[Numbers<'_>]) -> Result<(), AllocError> {
    assert!(rt; !wanted.is_empty());
    for (text, numbers) in wanted {
        shows(rt, book, *text, *numbers)?;
    }
    Ok(())
}

fn has_faults(book: &Book, wanted: &[RowFault]) -> Result<bool, AllocError> {
    Ok(book.faults()?.as_slice() == wanted)
}

/// Just these settled rows are refused.
pub(crate) fn refuses(rt: &impl Abort, book: &Book, wanted: &[RowFault]) -> Result<(), AllocError> {
    let refused = has_faults(book, wanted)?;
    assert!(rt; refused);
    Ok(())
}

/// Settles the program of a worked row in a book, and looks at its keys.
fn holds_in(rt: &impl Abort, alloc: Global, book: &mut Book, row: &Row) -> Result<(), AllocError> {
    prepare(rt, alloc, book, row.axes, row.fields)?;
    give_flags(rt, alloc, book, row.flags)?;
    run(rt, book, row.program);
    refuses(rt, book, row.refused)?;
    shows_all(rt, book, row.wanted)
}

fn holds(rt: &impl Abort, alloc: Global, row: &Row) -> Result<(), AllocError> {
    let mut book = Book::new(alloc);
    holds_in(rt, alloc, &mut book, row)
}

/// Each of some worked rows holds in a book of its own, and there are some.
pub(crate) fn hold(rt: &impl Abort, alloc: Global, rows: &[Row]) -> Result<(), AllocError> {
    assert!(rt; !rows.is_empty());
    for row in rows {
        holds(rt, alloc, row)?;
    }
    Ok(())
}
