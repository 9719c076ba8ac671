//! Tests of edits and looks that are refused.

use crate::edits::{BOOK_OF_SUM, BOOK_OF_THREE, SET_TEST, SUM};
use crate::steps::Change::{Delete, Field, Insert, Replace, Set};
use crate::steps::Step::*;
use crate::steps::{Step, inserts, plays_after, plays_in};
use paris_book::Book;
use paris_edits::Status::Settled;
use paris_names::Spot::{After, End, Start};
use paris_names::{Fault, RowId};
use std::alloc::{AllocError, Global};
use std::process::Abort;

#[test]
fn a_row_that_is_not_there_is_refused(rt: HostRuntime) -> Result<(), AllocError> {
    const STEPS: &[Step] = &[
        Accepts(Delete(2)),
        Refuses(Delete(0), Fault::NoRow),
        Refuses(Replace(0, SUM), Fault::NoRow),
        Refuses(Insert(After(RowId(0)), SUM), Fault::NoRow),
        Refuses(Delete(2), Fault::NoRow),
        Refuses(Replace(2, SUM), Fault::NoRow),
        Refuses(Insert(After(RowId(2)), SUM), Fault::NoRow),
        Refuses(Delete(4), Fault::NoRow),
        Refuses(Replace(4, SUM), Fault::NoRow),
        Refuses(Insert(After(RowId(4)), SUM), Fault::NoRow),
        Refuses(Delete(u64::MAX), Fault::NoRow),
        Refuses(Replace(u64::MAX, SUM), Fault::NoRow),
        Refuses(Insert(After(RowId(u64::MAX)), SUM), Fault::NoRow),
        RefusesLook(b"c", After(RowId(0)), Fault::NoRow),
        RefusesLook(b"c", After(RowId(2)), Fault::NoRow),
        RefusesLook(b"c", After(RowId(4)), Fault::NoRow),
        RefusesLook(b"c", After(RowId(u64::MAX)), Fault::NoRow),
        HasEdits(10),
    ];
    plays_after(&rt, rt.alloc(), BOOK_OF_THREE, STEPS)
}

/// A book with the field `a` of the set `s`, the field `t` of the set `u`, and a settled row.
const BOOK_OF_TWO_SETS: &[Step] = &[
    Accepts(Set(b"s", &[4])),
    DeclaresFields(&[b"a"]),
    Accepts(Set(b"u", &[2])),
    Accepts(Field(b"t", b"u", 8)),
    Inserts(End, b"u-move-constant-1L a 1 8", 1),
    Settles(1),
];

#[test]
fn a_row_is_looked_for_before_the_faults_of_an_instruction(
    rt: HostRuntime,
) -> Result<(), AllocError> {
    const STEPS: &[Step] = &[
        Refuses(Insert(Start, b"u-move-1L a zz 8"), Fault::NoField),
        Refuses(Insert(After(RowId(1)), b"u-move-1L a zz 8"), Fault::NoField),
        Refuses(Insert(End, b"u-move-1L a zz 8"), Fault::NoField),
        Refuses(Replace(1, b"u-move-1L a zz 8"), Fault::NoField),
        Refuses(Insert(After(RowId(2)), b"u-move-1L a zz 8"), Fault::NoRow),
        Refuses(Replace(2, b"u-move-1L a zz 8"), Fault::NoRow),
        Refuses(Insert(Start, b"u-move-1L a t 8"), Fault::WrongSet),
        Refuses(Insert(After(RowId(1)), b"u-move-1L a t 8"), Fault::WrongSet),
        Refuses(Insert(End, b"u-move-1L a t 8"), Fault::WrongSet),
        Refuses(Replace(1, b"u-move-1L a t 8"), Fault::WrongSet),
        Refuses(Insert(After(RowId(2)), b"u-move-1L a t 8"), Fault::NoRow),
        Refuses(Replace(2, b"u-move-1L a t 8"), Fault::NoRow),
        Refuses(Insert(Start, b"u-move-1L a a 9"), Fault::BadLength),
        Refuses(
            Insert(After(RowId(1)), b"u-move-1L a a 9"),
            Fault::BadLength,
        ),
        Refuses(Insert(End, b"u-move-1L a a 9"), Fault::BadLength),
        Refuses(Replace(1, b"u-move-1L a a 9"), Fault::BadLength),
        Refuses(Insert(After(RowId(2)), b"u-move-1L a a 9"), Fault::NoRow),
        Refuses(Replace(2, b"u-move-1L a a 9"), Fault::NoRow),
        Refuses(
            Insert(Start, b"u-move-constant-1L a 256 8"),
            Fault::BadOperand,
        ),
        Refuses(
            Insert(After(RowId(1)), b"u-move-constant-1L a 256 8"),
            Fault::BadOperand,
        ),
        Refuses(
            Insert(End, b"u-move-constant-1L a 256 8"),
            Fault::BadOperand,
        ),
        Refuses(Replace(1, b"u-move-constant-1L a 256 8"), Fault::BadOperand),
        Refuses(
            Insert(After(RowId(2)), b"u-move-constant-1L a 256 8"),
            Fault::NoRow,
        ),
        Refuses(Replace(2, b"u-move-constant-1L a 256 8"), Fault::NoRow),
        Shows(b"a", End, &[1, 1, 1, 1]),
    ];
    plays_after(&rt, rt.alloc(), BOOK_OF_TWO_SETS, STEPS)
}

#[test]
fn a_look_is_refused_by_its_key_before_its_row(rt: HostRuntime) -> Result<(), AllocError> {
    const STEPS: &[Step] = &[
        RefusesLook(b"zz", After(RowId(9)), Fault::NoField),
        RefusesLook(b"zz", After(RowId(1)), Fault::NoField),
        RefusesLook(b"c", After(RowId(9)), Fault::NoRow),
        Waits(b"c", After(RowId(1)), 1),
    ];
    plays_after(&rt, rt.alloc(), BOOK_OF_SUM, STEPS)
}

#[test]
fn spent_edits_are_refused_before_a_row_is_looked_for(rt: HostRuntime) -> Result<(), AllocError> {
    const STEPS: &[Step] = &[
        Accepts(Set(b"s", &[4])),
        Inserts(End, SET_TEST, 1),
        HasEdits(9_223_372_036_854_775_807),
        Refuses(Delete(1), Fault::EditionsSpent),
        Refuses(Replace(1, SET_TEST), Fault::EditionsSpent),
        Refuses(Insert(After(RowId(1)), SET_TEST), Fault::EditionsSpent),
        Refuses(Delete(9), Fault::EditionsSpent),
        Refuses(Replace(9, SET_TEST), Fault::EditionsSpent),
        Refuses(Insert(After(RowId(9)), SET_TEST), Fault::EditionsSpent),
        Settles(1),
        Lists(&[(1, 9_223_372_036_854_775_807, Settled, SET_TEST, None)]),
    ];
    let mut book = Book::starting_at(rt.alloc(), 9_223_372_036_854_775_805);
    plays_in(&rt, rt.alloc(), &mut book, STEPS)
}

/// Plays steps in a book that has as many rows as it may have.
fn plays_in_full(
    rt: &impl Abort,
    alloc: Global,
    book: &mut Book,
    steps: &[Step],
) -> Result<(), AllocError> {
    const BEGINNING: &[Step] = &[Accepts(Set(b"s", &[4]))];
    plays_in(rt, alloc, book, BEGINNING)?;
    for id in 1..4097 {
        inserts(rt, book, End, SET_TEST, id)?;
    }
    plays_in(rt, alloc, book, steps)
}

#[test]
fn a_full_program_has_room_at_no_spot_until_a_row_is_deleted(
    rt: HostRuntime,
) -> Result<(), AllocError> {
    const STEPS: &[Step] = &[
        Refuses(Insert(Start, SET_TEST), Fault::RowsFull),
        Refuses(Insert(After(RowId(1)), SET_TEST), Fault::RowsFull),
        Refuses(Insert(End, SET_TEST), Fault::RowsFull),
        Refuses(Insert(After(RowId(0)), SET_TEST), Fault::NoRow),
        Refuses(Insert(Start, b"u-move-1L zz zz 8"), Fault::RowsFull),
        Refuses(
            Insert(After(RowId(1)), b"u-move-1L zz zz 8"),
            Fault::RowsFull,
        ),
        Refuses(Insert(End, b"u-move-1L zz zz 8"), Fault::RowsFull),
        Refuses(Insert(After(RowId(0)), b"u-move-1L zz zz 8"), Fault::NoRow),
        HasEdits(4097),
        Accepts(Replace(4096, SET_TEST)),
        Accepts(Delete(4096)),
        Inserts(Start, SET_TEST, 4097),
        Refuses(Insert(Start, SET_TEST), Fault::RowsFull),
        Refuses(Insert(After(RowId(1)), SET_TEST), Fault::RowsFull),
        Refuses(Insert(End, SET_TEST), Fault::RowsFull),
        Refuses(Insert(After(RowId(0)), SET_TEST), Fault::NoRow),
        HasUnsettled(4096),
    ];
    let mut book = Book::new(rt.alloc());
    plays_in_full(&rt, rt.alloc(), &mut book, STEPS)
}
