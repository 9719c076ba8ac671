//! Tests of orders that a book runs itself, of values that are settled one by one, and of what is asked of unsettled rows.

use crate::spellings::Text;
use crate::steps::Change::{Delete, Input, Replace, Set};
use crate::steps::Step::*;
use crate::steps::{Step, plays, plays_after};
use paris_edits::Verdict::{Kept, Repeated};
use paris_names::Fault::{NoField, NoRow};
use paris_names::RowId;
use paris_names::Spot::{After, End, Start};
use std::alloc::AllocError;

const COPY: Text = b"u-move-1L c a 8";

const GREATER: Text = b"u-max-3-1L c c b 8";

const OTHER: Text = b"u-max-3-1L d a b 8";

/// Three rows on four processors. The second reads what the first writes, and the third reads neither's.
const THREE_ROWS: &[Step] = &[
    Accepts(Set(b"s", &[4])),
    DeclaresFields(&[b"a", b"b", b"c", b"d"]),
    Accepts(Input(b"a", 0, &[10, 20, 30, 40])),
    Accepts(Input(b"b", 0, &[40, 30, 20, 10])),
    Inserts(End, COPY, 1),
    Inserts(End, GREATER, 2),
    Inserts(End, OTHER, 3),
];

#[test]
fn an_empty_book_runs_nothing(rt: HostRuntime) -> Result<(), AllocError> {
    const STEPS: &[Step] = &[
        Runs(0, 0),
        Runs(u64::MAX, 0),
        PutsUnsettled(&[], 0),
        PutsUnsettled(&[0, 0], 0),
        RefusesToSettle(b"a", End, NoField),
        RefusesOrigin(b"a", End, NoField),
    ];
    plays(&rt, rt.alloc(), STEPS)
}

#[test]
fn rows_are_run_as_many_as_are_asked_for(rt: HostRuntime) -> Result<(), AllocError> {
    const STEPS: &[Step] = &[
        PutsUnsettled(&[1, 2], 3),
        PutsUnsettled(&[1, 2, 3, 0], 3),
        Runs(0, 0),
        Runs(2, 2),
        Shows(b"c", End, &[40, 30, 30, 40]),
        PutsUnsettled(&[3, 0], 1),
        Runs(9, 1),
        Runs(9, 0),
        Shows(b"d", End, &[40, 30, 30, 40]),
        PutsUnsettled(&[0], 0),
    ];
    plays_after(&rt, rt.alloc(), THREE_ROWS, STEPS)
}

#[test]
fn a_run_gives_up_no_order(rt: HostRuntime) -> Result<(), AllocError> {
    const STEPS: &[Step] = &[
        Takes(1, 8),
        Runs(9, 1),
        PutsUnsettled(&[1, 2], 2),
        Brings(0, Kept),
        Runs(9, 1),
        Shows(b"c", End, &[40, 30, 30, 40]),
    ];
    plays_after(&rt, rt.alloc(), THREE_ROWS, STEPS)
}

#[test]
fn rows_that_would_compute_the_same_are_not_run(rt: HostRuntime) -> Result<(), AllocError> {
    const STEPS: &[Step] = &[
        Runs(9, 3),
        // The greater number of each is the same, so the second row has the inputs that it had.
        Accepts(Replace(1, b"u-max-3-1L c a a 8")),
        PutsUnsettled(&[1, 2], 2),
        Runs(9, 1),
        HasUnsettled(0),
        Accepts(Replace(1, COPY)),
        SettlesFor(b"c", End, 1),
        HasUnsettled(0),
    ];
    plays_after(&rt, rt.alloc(), THREE_ROWS, STEPS)
}

#[test]
fn a_value_is_settled_by_the_rows_that_it_stands_on(rt: HostRuntime) -> Result<(), AllocError> {
    const STEPS: &[Step] = &[
        SettlesFor(b"a", End, 0),
        SettlesFor(b"c", Start, 0),
        SettlesFor(b"d", End, 1),
        Shows(b"d", End, &[40, 30, 30, 40]),
        PutsUnsettled(&[1, 2], 2),
        SettlesFor(b"c", After(RowId(1)), 1),
        Shows(b"c", After(RowId(1)), &[10, 20, 30, 40]),
        Waits(b"c", End, 2),
        SettlesFor(b"c", End, 1),
        SettlesFor(b"c", End, 0),
        HasUnsettled(0),
        Accepts(Input(b"b", 0, &[50])),
        PutsUnsettled(&[2, 3], 2),
        SettlesFor(b"c", End, 1),
        Shows(b"c", End, &[50, 30, 30, 40]),
        PutsUnsettled(&[3, 0], 1),
    ];
    plays_after(&rt, rt.alloc(), THREE_ROWS, STEPS)
}

#[test]
fn a_row_that_is_out_is_run_for_a_value(rt: HostRuntime) -> Result<(), AllocError> {
    const STEPS: &[Step] = &[
        Takes(1, 8),
        SettlesFor(b"c", End, 2),
        Shows(b"c", End, &[40, 30, 30, 40]),
        Brings(0, Repeated),
        PutsUnsettled(&[3], 1),
    ];
    plays_after(&rt, rt.alloc(), THREE_ROWS, STEPS)
}

#[test]
fn an_order_for_a_value_is_of_the_first_ready_row_that_it_stands_on(
    rt: HostRuntime,
) -> Result<(), AllocError> {
    const STEPS: &[Step] = &[
        OrdersNothingFor(b"a", End),
        OrdersNothingFor(b"c", Start),
        OrdersFor(b"d", End, 3, 10),
        OrdersFor(b"c", End, 1, 8),
        Takes(1, 8),
        // The first row is out, and the second waits for it.
        OrdersNothingFor(b"c", End),
        Brings(0, Kept),
        Shows(b"d", End, &[40, 30, 30, 40]),
        Brings(1, Kept),
        OrdersNothingFor(b"c", After(RowId(1))),
        OrdersFor(b"c", End, 2, 9),
        Brings(2, Repeated),
        Brings(3, Kept),
        Shows(b"c", End, &[40, 30, 30, 40]),
        OrdersNothingFor(b"c", End),
    ];
    plays_after(&rt, rt.alloc(), THREE_ROWS, STEPS)
}

#[test]
fn looks_are_refused_as_they_are_shown(rt: HostRuntime) -> Result<(), AllocError> {
    const STEPS: &[Step] = &[
        RefusesLook(b"e", End, NoField),
        RefusesToSettle(b"e", End, NoField),
        OrdersNothingFor(b"e", End),
        RefusesOrigin(b"e", End, NoField),
        RefusesLook(b"c", After(RowId(9)), NoRow),
        RefusesToSettle(b"c", After(RowId(9)), NoRow),
        OrdersNothingFor(b"c", After(RowId(9))),
        RefusesOrigin(b"c", After(RowId(9)), NoRow),
        RefusesToSettle(b"e", After(RowId(9)), NoField),
    ];
    plays_after(&rt, rt.alloc(), THREE_ROWS, STEPS)
}

#[test]
fn origins_are_the_last_writers(rt: HostRuntime) -> Result<(), AllocError> {
    const STEPS: &[Step] = &[
        StemsFrom(b"c", End, Some(2)),
        StemsFrom(b"c", After(RowId(1)), Some(1)),
        StemsFrom(b"c", Start, None),
        StemsFrom(b"a", End, None),
        StemsFrom(b"s.context", End, None),
        Runs(9, 3),
        StemsFrom(b"c", End, Some(2)),
        Accepts(Delete(2)),
        StemsFrom(b"c", End, Some(1)),
    ];
    plays_after(&rt, rt.alloc(), THREE_ROWS, STEPS)
}
