//! Tests of rows that would compute again what they computed last: they are settled with that, and nothing is executed.

ghost use Rattle.std.specs.Prelude.{◌≤◌};
ghost use Rattle.paris_names.specs.declared.limits.TheConstants.{MAX_WORKERS};

use crate::edits::{BOOK_OF_SUM, SUM};
use crate::programs::{Given, Numbers, accept, append, prepare, shows};
use crate::spellings::*;
use crate::steps::Change::{Delete, Field, Input, Replace, Set};
use crate::steps::Step::*;
use crate::steps::{Change, Step, edit_of, plays_after};
use paris_book::Book;
use paris_edits::Status::{Out, Settled, Waiting};
use paris_edits::Verdict::{Kept, Stale};
use paris_exec::OpenGate;
use paris_model::Refusal::Collision;
use paris_names::Edition;
use paris_names::Spot::{End, Start};
use std::alloc::{AllocError, Global};
use std::process::Abort;
use std::thread::Threads;

#[test]
fn an_input_that_is_turned_back_settles_a_row_that_is_out(
    rt: HostRuntime,
) -> Result<(), AllocError> {
    const STEPS: &[Step] = &[
        Settles(1),
        Accepts(Input(b"a", 0, &[11])),
        Takes(1, 8),
        Lists(&[(1, 8, Out, SUM, None)]),
        Accepts(Input(b"a", 0, &[1])),
        Lists(&[(1, 9, Settled, SUM, None)]),
        Brings(0, Stale(Edition(9))),
        TakesNothing,
        Shows(b"c", End, &[11, 22, 33, 4]),
    ];
    plays_after(&rt, rt.alloc(), BOOK_OF_SUM, STEPS)
}

#[test]
fn a_plan_that_is_turned_back_settles_its_row(rt: HostRuntime) -> Result<(), AllocError> {
    const OTHER: Text = b"u-subtract-3-1L c b a 8";
    const STEPS: &[Step] = &[
        Settles(1),
        Accepts(Replace(1, OTHER)),
        Lists(&[(1, 8, Waiting, OTHER, None)]),
        Accepts(Replace(1, SUM)),
        Lists(&[(1, 9, Settled, SUM, None)]),
        Shows(b"c", End, &[11, 22, 33, 4]),
        Accepts(Replace(1, OTHER)),
        Settles(1),
        Shows(b"c", End, &[9, 18, 27, 252]),
        // The result that was last kept is that of the other plan.
        Accepts(Replace(1, SUM)),
        Lists(&[(1, 11, Waiting, SUM, None)]),
        Settles(1),
        Shows(b"c", End, &[11, 22, 33, 4]),
    ];
    plays_after(&rt, rt.alloc(), BOOK_OF_SUM, STEPS)
}

#[test]
fn a_row_that_was_cut_off_is_cut_off_by_its_new_sources(rt: HostRuntime) -> Result<(), AllocError> {
    const OTHER: Text = b"u-subtract-3-1L c b a 8";
    const STEPS: &[Step] = &[
        Settles(1),
        Accepts(Input(b"a", 0, &[11])),
        Accepts(Input(b"a", 0, &[1])),
        Lists(&[(1, 9, Settled, SUM, None)]),
        Accepts(Replace(1, OTHER)),
        Accepts(Replace(1, SUM)),
        Lists(&[(1, 11, Settled, SUM, None)]),
        Shows(b"c", End, &[11, 22, 33, 4]),
        // Other input data has another source, and other numbers.
        Accepts(Input(b"a", 0, &[11])),
        Lists(&[(1, 12, Waiting, SUM, None)]),
        Settles(1),
        Shows(b"c", End, &[21, 22, 33, 4]),
    ];
    plays_after(&rt, rt.alloc(), BOOK_OF_SUM, STEPS)
}

#[test]
fn a_deleted_row_leaves_no_result_to_its_successor(rt: HostRuntime) -> Result<(), AllocError> {
    const STEPS: &[Step] = &[
        Settles(1),
        Accepts(Delete(1)),
        Inserts(Start, SUM, 2),
        Lists(&[(2, 9, Waiting, SUM, None)]),
        Settles(1),
    ];
    plays_after(&rt, rt.alloc(), BOOK_OF_SUM, STEPS)
}

/// The sum of `b` and `b` in `d`, whose flags stand where those of another sum did.
const SECOND: Text = b"u-add-3-1L d b b 8";

/// A book of two settled sums, of which the first alone reads `a`.
const TWO_SUMS: &[Step] = &[
    Accepts(Set(b"s", &[4])),
    DeclaresFields(&[b"a", b"b", b"c", b"d"]),
    Accepts(Input(b"a", 0, &[1, 2, 3, 4])),
    Accepts(Input(b"b", 0, &[1])),
    Inserts(End, SUM, 1),
    Inserts(End, SECOND, 2),
    Settles(2),
    Accepts(Input(b"a", 0, &[5])),
];

#[test]
fn a_result_settles_the_rows_below_it_that_compute_the_same_again(
    rt: HostRuntime,
) -> Result<(), AllocError> {
    const STEPS: &[Step] = &[
        Lists(&[(1, 10, Waiting, SUM, None), (2, 10, Waiting, SECOND, None)]),
        Waits(b"d", End, 2),
        Takes(1, 10),
        TakesNothing,
        Brings(0, Kept),
        Lists(&[(1, 10, Settled, SUM, None), (2, 10, Settled, SECOND, None)]),
        Shows(b"c", End, &[6, 2, 3, 4]),
        Shows(b"d", End, &[2, 0, 0, 0]),
        Settles(0),
    ];
    plays_after(&rt, rt.alloc(), TWO_SUMS, STEPS)
}

#[test]
fn a_settle_counts_the_orders_that_were_run(rt: HostRuntime) -> Result<(), AllocError> {
    const STEPS: &[Step] = &[
        HasUnsettled(2),
        Settles(1),
        Lists(&[(1, 10, Settled, SUM, None), (2, 10, Settled, SECOND, None)]),
        // The first sum carries now, and by that the second one has another input.
        Accepts(Input(b"a", 0, &[255])),
        Settles(2),
        Shows(b"c", End, &[0, 2, 3, 4]),
        Shows(b"d", End, &[2, 0, 0, 0]),
    ];
    plays_after(&rt, rt.alloc(), TWO_SUMS, STEPS)
}

#[test]
fn a_row_waits_while_what_it_reads_is_unsettled(rt: HostRuntime) -> Result<(), AllocError> {
    const STEPS: &[Step] = &[
        Accepts(Replace(2, SECOND)),
        Lists(&[(1, 10, Waiting, SUM, None), (2, 11, Waiting, SECOND, None)]),
        Accepts(Input(b"a", 0, &[1])),
        Lists(&[(1, 12, Settled, SUM, None), (2, 12, Settled, SECOND, None)]),
        Settles(0),
    ];
    plays_after(&rt, rt.alloc(), TWO_SUMS, STEPS)
}

#[test]
fn a_refused_row_is_settled_again_with_its_cause(rt: HostRuntime) -> Result<(), AllocError> {
    const SEND: Text = b"send-1L d ad v 8 none";
    const BEGINNING: &[Step] = &[
        Accepts(Set(b"s", &[4])),
        Accepts(Field(b"ad", b"s", 2)),
        Accepts(Field(b"v", b"s", 8)),
        Accepts(Field(b"d", b"s", 8)),
        Accepts(Input(b"ad", 0, &[0, 0, 1, 2])),
        Inserts(End, SEND, 1),
        Settles(1),
    ];
    const STEPS: &[Step] = &[
        Accepts(Input(b"ad", 1, &[3])),
        Lists(&[(1, 7, Waiting, SEND, None)]),
        Accepts(Input(b"ad", 1, &[0])),
        Lists(&[(1, 8, Settled, SEND, Some(Collision(0)))]),
        Settles(0),
    ];
    plays_after(&rt, rt.alloc(), BEGINNING, STEPS)
}

const FIELDS: &[Given<'static>] = &[
    (b"a", 8, &[1, 2, 3, 4]),
    (b"b", 8, &[10, 20, 30, 40]),
    (b"c", 8, &[0, 0, 0, 0]),
    (b"d", 8, &[0, 0, 0, 0]),
    (b"e", 8, &[0, 0, 0, 0]),
];

/// Other numbers of `a`.
const OTHERS: Change = Input(b"a", 0, &[5, 6, 7, 8]);

/// A program, how many of its rows are run again for other numbers of `a`, and what keys hold then.
type Sheet = (&'static [Text], u64, &'static [Numbers<'static>]);

const SHEETS: &[Sheet] = &[
    // Each sum's flags come from the one above it. Two sums read `a`, and none carries.
    (
        &[SECOND, SECOND, SUM, SECOND, SECOND, SUM, SECOND, SECOND],
        2,
        &[(b"c", &[15, 26, 37, 48]), (b"d", &[20, 40, 60, 80])],
    ),
    // The maximum is that of `b`. Of the rows that read it, the last one alone reads `a` too.
    (
        &[
            b"u-max-3-1L c a b 8",
            b"u-move-1L d c 8",
            b"logior-3-1L e c b 8",
            b"logior-3-1L a a c 8",
        ],
        2,
        &[
            (b"c", &[10, 20, 30, 40]),
            (b"d", &[10, 20, 30, 40]),
            (b"e", &[10, 20, 30, 40]),
            (b"a", &[15, 22, 31, 40]),
        ],
    ),
];

fn shows_all(rt: &impl Abort, book: &Book, wanted: &[Numbers<'_>]) -> Result<(), AllocError> {
    for (text, numbers) in wanted {
        shows(rt, book, *text, *numbers)?;
    }
    Ok(())
}

/// Settles a program by so many workers, and once more with other numbers of `a`.
fn settles_twice<R: Threads + Abort + Sync>(
    rt: &R,
    alloc: Global,
    book: &mut Book,
    workers: usize,
    sheet: &Sheet,
) -> Result<(), AllocError>
    requires { (1 ≤ workers) × (workers ≤ MAX_WORKERS) }
{
    let (program, again, wanted) = sheet;
    prepare(rt, alloc, book, &[4], FIELDS)?;
    let count = append(rt, book, *program);
    assert!(rt; book.settle_par(rt, workers, &OpenGate) == Ok(count));
    accept(rt, book, edit_of(rt, alloc, &OTHERS)?);
    assert!(rt; book.settle_par(rt, workers, &OpenGate) == Ok(*again));
    shows_all(rt, book, *wanted)
}

/// Each program is settled twice in a book of its own.
fn workers_settle_twice<R: Threads + Abort + Sync>(
    rt: &R,
    alloc: Global,
    workers: usize,
) -> Result<(), AllocError>
    requires { (1 ≤ workers) × (workers ≤ MAX_WORKERS) }
{
    for sheet in SHEETS {
        let mut book = Book::new(alloc);
        settles_twice(rt, alloc, &mut book, workers, sheet)?;
    }
    Ok(())
}

#[test]
fn any_number_of_workers_runs_the_same_rows_again(rt: HostRuntime) -> Result<(), AllocError> {
    workers_settle_twice(&rt, rt.alloc(), 1)?;
    workers_settle_twice(&rt, rt.alloc(), 2)?;
    workers_settle_twice(&rt, rt.alloc(), 16)
}
