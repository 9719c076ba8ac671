//! Tests of declarations, input data, orders and results.

use crate::spellings::Text;
use crate::steps::Change::{Delete, Field, Input, Insert, Set};
use crate::steps::Step::*;
use crate::steps::{Step, plays_after, plays_after_another, plays_beside_a_snapshot, plays_in};
use paris_book::Book;
use paris_edits::Verdict::{Foreign, Gone, Kept, Repeated, Stale};
use paris_names::Spot::{End, Start};
use paris_names::{Edition, Fault};
use std::alloc::AllocError;

const SUM: Text = b"u-add-3-1L c a b 8";

/// A book with a set of four processors and the fields `a`, `b` and `c`.
const DECLARED_BOOK: &[Step] = &[
    Accepts(Set(b"s", &[4])),
    Accepts(Field(b"a", b"s", 8)),
    Accepts(Field(b"b", b"s", 8)),
    Accepts(Field(b"c", b"s", 8)),
];

/// A book with input data of `a` and `b`, and the sum of both as its one row.
const BOOK_OF_SUM: &[Step] = &[
    Accepts(Set(b"s", &[4])),
    Accepts(Field(b"a", b"s", 8)),
    Accepts(Field(b"b", b"s", 8)),
    Accepts(Field(b"c", b"s", 8)),
    Accepts(Input(b"a", 0, &[1, 2, 3, 4])),
    Accepts(Input(b"b", 0, &[10, 20, 30, 0])),
    Inserts(End, SUM, 1),
];

/// The same book, whose row is out. Its result is in hand.
const SUM_OUT: &[Step] = &[
    Accepts(Set(b"s", &[4])),
    Accepts(Field(b"a", b"s", 8)),
    Accepts(Field(b"b", b"s", 8)),
    Accepts(Field(b"c", b"s", 8)),
    Accepts(Input(b"a", 0, &[1, 2, 3, 4])),
    Accepts(Input(b"b", 0, &[10, 20, 30, 0])),
    Inserts(End, SUM, 1),
    Takes(1, 7),
];

/// The same book, whose row is settled.
const SETTLED_SUM: &[Step] = &[
    Accepts(Set(b"s", &[4])),
    Accepts(Field(b"a", b"s", 8)),
    Accepts(Field(b"b", b"s", 8)),
    Accepts(Field(b"c", b"s", 8)),
    Accepts(Input(b"a", 0, &[1, 2, 3, 4])),
    Accepts(Input(b"b", 0, &[10, 20, 30, 0])),
    Inserts(End, SUM, 1),
    Settles(1),
];

#[test]
fn a_sum_is_pending_until_its_result_is_brought(rt: HostRuntime) -> Result<(), AllocError> {
    const STEPS: &[Step] = &[
        HasEdits(7),
        HasUnsettled(1),
        Waits(b"c", End, 1),
        Takes(1, 7),
        TakesNothing,
        Waits(b"c", End, 1),
        Brings(0, Kept),
        Shows(b"c", End, &[11, 22, 33, 4]),
        HasUnsettled(0),
    ];
    plays_after(&rt, rt.alloc(), BOOK_OF_SUM, STEPS)
}

#[test]
fn a_copy_of_a_kept_result_is_repeated(rt: HostRuntime) -> Result<(), AllocError> {
    const STEPS: &[Step] = &[
        Brings(0, Kept),
        Brings(0, Repeated),
        Shows(b"c", End, &[11, 22, 33, 4]),
    ];
    plays_after(&rt, rt.alloc(), SUM_OUT, STEPS)
}

#[test]
fn a_snapshot_takes_the_result_of_an_order_that_was_out(rt: HostRuntime) -> Result<(), AllocError> {
    const STEPS: &[Step] = &[
        Accepts(Input(b"a", 0, &[9])),
        Brings(0, Stale(Edition(8))),
        HasEdits(8),
    ];
    const IN_THE_SNAPSHOT: &[Step] = &[
        TakesNothing,
        Waits(b"c", End, 1),
        Brings(0, Kept),
        Shows(b"c", End, &[11, 22, 33, 4]),
        HasEdits(7),
    ];
    plays_beside_a_snapshot(&rt, rt.alloc(), SUM_OUT, STEPS, IN_THE_SNAPSHOT)
}

#[test]
fn a_snapshot_and_its_book_go_on_apart(rt: HostRuntime) -> Result<(), AllocError> {
    const STEPS: &[Step] = &[
        Accepts(Delete(1)),
        Inserts(End, b"u-move-constant-1L c 7 8", 2),
        Settles(1),
        Shows(b"c", End, &[7, 7, 7, 7]),
        Shows(b"a", End, &[1, 2, 3, 4]),
    ];
    const IN_THE_SNAPSHOT: &[Step] = &[
        Shows(b"c", End, &[11, 22, 33, 4]),
        Inserts(End, b"u-add-3-1L a c c 8", 2),
        Settles(1),
        Shows(b"c", End, &[11, 22, 33, 4]),
        Shows(b"a", End, &[22, 44, 66, 8]),
        Accepts(Input(b"b", 0, &[1])),
        HasUnsettled(2),
    ];
    plays_beside_a_snapshot(&rt, rt.alloc(), SETTLED_SUM, STEPS, IN_THE_SNAPSHOT)
}

/// A book with other input data, with the same row of the same edition. Its result is in hand.
const OTHER_SUM_OUT: &[Step] = &[
    Accepts(Set(b"s", &[4])),
    Accepts(Field(b"a", b"s", 8)),
    Accepts(Field(b"b", b"s", 8)),
    Accepts(Field(b"c", b"s", 8)),
    Accepts(Input(b"a", 0, &[1, 2, 3, 5])),
    Accepts(Input(b"b", 0, &[10, 20, 30, 0])),
    Inserts(End, SUM, 1),
    Takes(1, 7),
];

#[test]
fn a_result_of_another_book_is_foreign(rt: HostRuntime) -> Result<(), AllocError> {
    const STEPS: &[Step] = &[
        Brings(0, Foreign),
        HasUnsettled(1),
        Waits(b"c", End, 1),
        Brings(1, Kept),
        Shows(b"c", End, &[11, 22, 33, 4]),
    ];
    plays_after_another(&rt, rt.alloc(), OTHER_SUM_OUT, SUM_OUT, STEPS)
}

#[test]
fn a_result_of_no_row_is_gone(rt: HostRuntime) -> Result<(), AllocError> {
    const STEPS: &[Step] = &[Brings(0, Gone)];
    plays_after_another(&rt, rt.alloc(), SUM_OUT, DECLARED_BOOK, STEPS)
}

#[test]
fn the_same_input_again_makes_a_result_stale(rt: HostRuntime) -> Result<(), AllocError> {
    const STEPS: &[Step] = &[
        Accepts(Input(b"a", 0, &[1, 2, 3, 4])),
        Brings(0, Stale(Edition(8))),
        HasUnsettled(1),
        Takes(1, 8),
        Brings(1, Kept),
        Shows(b"c", End, &[11, 22, 33, 4]),
    ];
    plays_after(&rt, rt.alloc(), SUM_OUT, STEPS)
}

#[test]
fn a_peek_before_each_take_answers_the_same(rt: HostRuntime) -> Result<(), AllocError> {
    const STEPS: &[Step] = &[
        Peeks(1, 7),
        Takes(1, 7),
        PeeksAtNothing,
        Accepts(Input(b"a", 0, &[1, 2, 3, 4])),
        Brings(0, Stale(Edition(8))),
        Peeks(1, 8),
        Takes(1, 8),
        Brings(1, Kept),
        Brings(1, Repeated),
        PeeksAtNothing,
        TakesNothing,
        Shows(b"c", End, &[11, 22, 33, 4]),
    ];
    plays_after(&rt, rt.alloc(), BOOK_OF_SUM, STEPS)
}

#[test]
fn an_input_touches_only_the_rows_that_read_it(rt: HostRuntime) -> Result<(), AllocError> {
    const STEPS: &[Step] = &[
        Inserts(Start, b"u-move-constant-1L a 7 8", 2),
        Takes(2, 8),
        Brings(0, Kept),
        Takes(1, 8),
        Brings(1, Kept),
        Shows(b"c", End, &[17, 27, 37, 7]),
        Accepts(Input(b"b", 0, &[1])),
        HasUnsettled(1),
        Takes(1, 9),
        Brings(2, Kept),
        Shows(b"c", End, &[8, 27, 37, 7]),
    ];
    plays_after(&rt, rt.alloc(), BOOK_OF_SUM, STEPS)
}

#[test]
fn the_last_edit_is_followed_by_refusals(rt: HostRuntime) -> Result<(), AllocError> {
    const STEPS: &[Step] = &[
        Accepts(Set(b"s", &[4])),
        HasEdits(9_223_372_036_854_775_807),
        Refuses(Field(b"a", b"s", 8), Fault::EditionsSpent),
        HasNumber(Fault::EditionsSpent, 17),
    ];
    let mut book = Book::starting_at(rt.alloc(), 9_223_372_036_854_775_806);
    plays_in(&rt, rt.alloc(), &mut book, STEPS)
}

#[test]
fn an_input_is_refused_by_its_first_fault(rt: HostRuntime) -> Result<(), AllocError> {
    const STEPS: &[Step] = &[
        Refuses(Input(b"d", 0, &[1]), Fault::NoField),
        Refuses(Input(b"a", 0, &[]), Fault::WrongCount),
        Refuses(Input(b"a", 3, &[1, 256]), Fault::WrongCount),
        Refuses(Input(b"a", 2, &[1, 256]), Fault::TooWide(3)),
        Refuses(Input(b"a", u64::MAX, &[1]), Fault::WrongCount),
    ];
    plays_after(&rt, rt.alloc(), DECLARED_BOOK, STEPS)
}

/// A book of three rows, none of them settled: the sum of `a` and `b` in `c`, the sum of `c` and `c` in `a`, and a constant in `b`.
const BOOK_OF_THREE: &[Step] = &[
    Accepts(Set(b"s", &[4])),
    Accepts(Field(b"a", b"s", 8)),
    Accepts(Field(b"b", b"s", 8)),
    Accepts(Field(b"c", b"s", 8)),
    Accepts(Input(b"a", 0, &[1, 2, 3, 4])),
    Accepts(Input(b"b", 0, &[10, 20, 30, 0])),
    Inserts(End, SUM, 1),
    Inserts(End, b"u-add-3-1L a c c 8", 2),
    Inserts(End, b"u-move-constant-1L b 5 8", 3),
];

#[test]
fn a_book_is_settled_although_orders_are_lost(rt: HostRuntime) -> Result<(), AllocError> {
    const STEPS: &[Step] = &[
        Loses(1, 7),
        Loses(3, 9),
        Settles(3),
        Settles(0),
        HasNoFaults,
        Shows(b"c", End, &[11, 22, 33, 4]),
        Shows(b"a", End, &[22, 44, 66, 8]),
        Shows(b"b", End, &[5, 5, 5, 5]),
    ];
    plays_after(&rt, rt.alloc(), BOOK_OF_THREE, STEPS)
}

#[test]
fn a_result_is_kept_after_a_release(rt: HostRuntime) -> Result<(), AllocError> {
    const STEPS: &[Step] = &[
        Takes(1, 7),
        Releases,
        Brings(0, Kept),
        HasUnsettled(2),
        Settles(2),
        Shows(b"c", End, &[11, 22, 33, 4]),
        Shows(b"a", End, &[22, 44, 66, 8]),
        Shows(b"b", End, &[5, 5, 5, 5]),
    ];
    plays_after(&rt, rt.alloc(), BOOK_OF_THREE, STEPS)
}

#[test]
fn a_release_is_an_event(rt: HostRuntime) -> Result<(), AllocError> {
    const STEPS: &[Step] = &[Loses(1, 7), TakesNothing, ReleasesByEvent, Loses(1, 7)];
    plays_after(&rt, rt.alloc(), BOOK_OF_SUM, STEPS)
}

/// A book with the sets `s` of four processors and `u` of two, the fields `a` and `n` of `s`, and `t` of `u`.
const BOOK_OF_TWO_SETS: &[Step] = &[
    Accepts(Set(b"s", &[4])),
    Accepts(Set(b"u", &[2])),
    Accepts(Field(b"a", b"s", 8)),
    Accepts(Field(b"t", b"u", 8)),
    Accepts(Field(b"n", b"s", 1)),
];

#[test]
fn inserts_are_refused_by_their_faults(rt: HostRuntime) -> Result<(), AllocError> {
    const STEPS: &[Step] = &[
        Refuses(Insert(End, b"u-move-1L a zz 8"), Fault::NoField),
        Refuses(Insert(End, b"u-move-1L a t 8"), Fault::WrongSet),
        Refuses(Insert(End, b"my-news-coordinate-1L a 1 8"), Fault::BadAxis),
        Refuses(Insert(End, b"u-move-1L a a 9"), Fault::BadLength),
        Refuses(
            Insert(End, b"u-move-constant-1L a 256 8"),
            Fault::BadOperand,
        ),
        Refuses(Insert(End, b"send-1L n a a 1 n"), Fault::Overlap),
        Refuses(Insert(End, b"set-test w"), Fault::NoSet),
    ];
    plays_after(&rt, rt.alloc(), BOOK_OF_TWO_SETS, STEPS)
}
