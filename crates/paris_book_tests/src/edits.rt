//! Tests of rows that are put in, taken out and replaced, of what becomes unsettled by it, and of the list of rows.

use crate::spellings::Text;
use crate::steps::Change::{Delete, Field, Input, Replace, Set};
use crate::steps::Step::*;
use crate::steps::{Row, Step, plays, plays_after};
use paris_edits::Status::{Out, Settled, Waiting};
use paris_edits::Verdict::{Gone, Kept, Stale};
use paris_model::Refusal::{BadAddress, Collision};
use paris_names::Spot::{After, End, Start};
use paris_names::{Edition, RowId};
use std::alloc::AllocError;

/// A send of `v` to `d` by the addresses `ad`, which is noted in `n`.
const SEND: Text = b"send-1L d ad v 8 n";

pub(crate) const SET_TEST: Text = b"set-test s";

pub(crate) const SUM: Text = b"u-add-3-1L c a b 8";

/// A book with the set `s` of four processors, the fields `a`, `b` and `c`, and input data of `a` and `b`, whose one row is the sum
/// of both.
pub(crate) const BOOK_OF_SUM: &[Step] = &[
    Accepts(Set(b"s", &[4])),
    DeclaresFields(&[b"a", b"b", b"c"]),
    Accepts(Input(b"a", 0, &[1, 2, 3, 4])),
    Accepts(Input(b"b", 0, &[10, 20, 30, 0])),
    Inserts(End, SUM, 1),
];

#[test]
fn the_result_of_a_deleted_row_is_gone(rt: HostRuntime) -> Result<(), AllocError> {
    const STEPS: &[Step] = &[
        Takes(1, 7),
        Accepts(Delete(1)),
        Brings(0, Gone),
        Shows(b"c", End, &[0, 0, 0, 0]),
        Lists(&[]),
        HasUnsettled(0),
        HasEdits(8),
    ];
    plays_after(&rt, rt.alloc(), BOOK_OF_SUM, STEPS)
}

#[test]
fn a_row_put_in_for_a_deleted_one_has_an_id_of_its_own(rt: HostRuntime) -> Result<(), AllocError> {
    const STEPS: &[Step] = &[
        Takes(1, 7),
        Accepts(Delete(1)),
        Inserts(Start, SUM, 2),
        Brings(0, Gone),
        Waits(b"c", End, 2),
        Lists(&[(2, 9, Waiting, SUM, None)]),
    ];
    plays_after(&rt, rt.alloc(), BOOK_OF_SUM, STEPS)
}

#[test]
fn only_the_readers_of_an_input_become_unsettled(rt: HostRuntime) -> Result<(), AllocError> {
    const STEPS: &[Step] = &[
        Accepts(Set(b"s", &[4])),
        DeclaresFields(&[b"a", b"b", b"d", b"e", b"f"]),
        Inserts(End, b"logand-3-1L d a b 8", 1),
        Inserts(End, b"logior-3-1L e d a 8", 2),
        Inserts(End, b"logxor-3-1L f b b 8", 3),
        Settles(3),
        Accepts(Input(b"a", 0, &[1])),
        Lists(&[
            (1, 10, Waiting, b"logand-3-1L d a b 8", None),
            (2, 10, Waiting, b"logior-3-1L e d a 8", None),
            (3, 9, Settled, b"logxor-3-1L f b b 8", None),
        ]),
        HasUnsettled(2),
    ];
    plays(&rt, rt.alloc(), STEPS)
}

/// A book with the fields `a`, `c`, `d` and `e`, and input data of `a`.
const BOOK_OF_FOUR_FIELDS: &[Step] = &[
    Accepts(Set(b"s", &[4])),
    DeclaresFields(&[b"a", b"c", b"d", b"e"]),
    Accepts(Input(b"a", 0, &[1, 2, 3, 4])),
];

#[test]
fn a_replace_looks_at_the_old_writes_too(rt: HostRuntime) -> Result<(), AllocError> {
    const STEPS: &[Step] = &[
        Inserts(End, b"u-move-1L c a 8", 1),
        Inserts(End, b"u-move-1L d c 8", 2),
        Settles(2),
        Accepts(Replace(1, b"u-move-1L e a 8")),
        Lists(&[
            (1, 9, Waiting, b"u-move-1L e a 8", None),
            (2, 9, Waiting, b"u-move-1L d c 8", None),
        ]),
        Settles(2),
        Shows(b"c", End, &[0, 0, 0, 0]),
        Shows(b"d", End, &[0, 0, 0, 0]),
        Shows(b"e", End, &[1, 2, 3, 4]),
    ];
    plays_after(&rt, rt.alloc(), BOOK_OF_FOUR_FIELDS, STEPS)
}

#[test]
fn a_replace_looks_at_the_new_writes_too(rt: HostRuntime) -> Result<(), AllocError> {
    const STEPS: &[Step] = &[
        Inserts(End, b"u-move-1L e a 8", 1),
        Inserts(End, b"u-move-1L d c 8", 2),
        Settles(2),
        Accepts(Replace(1, b"u-move-1L c a 8")),
        Lists(&[
            (1, 9, Waiting, b"u-move-1L c a 8", None),
            (2, 9, Waiting, b"u-move-1L d c 8", None),
        ]),
        Settles(2),
        Shows(b"d", End, &[1, 2, 3, 4]),
        Shows(b"e", End, &[0, 0, 0, 0]),
    ];
    plays_after(&rt, rt.alloc(), BOOK_OF_FOUR_FIELDS, STEPS)
}

#[test]
fn rows_stand_where_they_are_put(rt: HostRuntime) -> Result<(), AllocError> {
    const STEPS: &[Step] = &[
        Accepts(Set(b"s", &[4])),
        Inserts(End, SET_TEST, 1),
        Inserts(End, SET_TEST, 2),
        Inserts(Start, SET_TEST, 3),
        Inserts(After(RowId(1)), SET_TEST, 4),
        Lists(&[
            (3, 4, Waiting, SET_TEST, None),
            (1, 4, Waiting, SET_TEST, None),
            (4, 5, Waiting, SET_TEST, None),
            (2, 5, Waiting, SET_TEST, None),
        ]),
    ];
    plays(&rt, rt.alloc(), STEPS)
}

#[test]
fn a_row_after_the_last_one_is_at_the_end(rt: HostRuntime) -> Result<(), AllocError> {
    const STEPS: &[Step] = &[
        Settles(1),
        Inserts(After(RowId(1)), b"u-move-constant-1L c 9 8", 2),
        Lists(&[
            (1, 7, Settled, SUM, None),
            (2, 8, Waiting, b"u-move-constant-1L c 9 8", None),
        ]),
        Settles(1),
        Shows(b"c", End, &[9, 9, 9, 9]),
    ];
    plays_after(&rt, rt.alloc(), BOOK_OF_SUM, STEPS)
}

/// A book with the fields `a`, `c` and `d`, whose rows move `a` to `c` and `c` to `d`.
const BOOK_OF_TWO_MOVES: &[Step] = &[
    Accepts(Set(b"s", &[4])),
    DeclaresFields(&[b"a", b"c", b"d"]),
    Inserts(End, b"u-move-1L c a 8", 1),
    Inserts(End, b"u-move-1L d c 8", 2),
];

#[test]
fn rows_that_are_out_get_new_editions(rt: HostRuntime) -> Result<(), AllocError> {
    const STEPS: &[Step] = &[
        Takes(1, 5),
        Brings(0, Kept),
        Takes(2, 6),
        Accepts(Input(b"a", 0, &[9])),
        Brings(1, Stale(Edition(7))),
        Takes(1, 7),
        TakesNothing,
        Releases,
        Takes(1, 7),
        Brings(3, Kept),
        Takes(2, 7),
        Brings(4, Kept),
        Shows(b"d", End, &[9, 0, 0, 0]),
    ];
    plays_after(&rt, rt.alloc(), BOOK_OF_TWO_MOVES, STEPS)
}

/// A book of two moves whose first row is settled and whose second is out. The second one's result is in hand after the first
/// one's.
const SECOND_MOVE_OUT: &[Step] = &[
    Accepts(Set(b"s", &[4])),
    DeclaresFields(&[b"a", b"c", b"d"]),
    Inserts(End, b"u-move-1L c a 8", 1),
    Inserts(End, b"u-move-1L d c 8", 2),
    Takes(1, 5),
    Brings(0, Kept),
    Takes(2, 6),
];

#[test]
fn a_row_that_is_out_waits_after_an_insert_above(rt: HostRuntime) -> Result<(), AllocError> {
    const ROWS: &[Row] = &[
        (1, 5, Settled, b"u-move-1L c a 8", None),
        (3, 7, Waiting, b"u-move-constant-1L c 5 8", None),
        (2, 7, Waiting, b"u-move-1L d c 8", None),
    ];
    const STEPS: &[Step] = &[
        Inserts(After(RowId(1)), b"u-move-constant-1L c 5 8", 3),
        Lists(ROWS),
        Brings(1, Stale(Edition(7))),
        Lists(ROWS),
        Settles(2),
        Shows(b"d", End, &[5, 5, 5, 5]),
    ];
    plays_after(&rt, rt.alloc(), SECOND_MOVE_OUT, STEPS)
}

#[test]
fn a_row_that_is_out_waits_after_a_delete_above(rt: HostRuntime) -> Result<(), AllocError> {
    const ROWS: &[Row] = &[(2, 7, Waiting, b"u-move-1L d c 8", None)];
    const STEPS: &[Step] = &[
        Accepts(Delete(1)),
        Lists(ROWS),
        Brings(1, Stale(Edition(7))),
        Lists(ROWS),
        Settles(1),
        Shows(b"d", End, &[0, 0, 0, 0]),
    ];
    plays_after(&rt, rt.alloc(), SECOND_MOVE_OUT, STEPS)
}

#[test]
fn a_row_that_is_out_waits_after_a_replace_above(rt: HostRuntime) -> Result<(), AllocError> {
    const ROWS: &[Row] = &[
        (1, 7, Waiting, b"u-move-constant-1L c 6 8", None),
        (2, 7, Waiting, b"u-move-1L d c 8", None),
    ];
    const STEPS: &[Step] = &[
        Accepts(Replace(1, b"u-move-constant-1L c 6 8")),
        Lists(ROWS),
        Brings(1, Stale(Edition(7))),
        Lists(ROWS),
        Settles(2),
        Shows(b"d", End, &[6, 6, 6, 6]),
    ];
    plays_after(&rt, rt.alloc(), SECOND_MOVE_OUT, STEPS)
}

#[test]
fn a_row_that_is_out_stays_out_where_nothing_that_it_reads_changes(
    rt: HostRuntime,
) -> Result<(), AllocError> {
    const STEPS: &[Step] = &[
        Inserts(Start, SET_TEST, 3),
        Inserts(End, b"u-move-constant-1L d 4 8", 4),
        Lists(&[
            (3, 7, Waiting, SET_TEST, None),
            (1, 5, Settled, b"u-move-1L c a 8", None),
            (2, 6, Out, b"u-move-1L d c 8", None),
            (4, 8, Waiting, b"u-move-constant-1L d 4 8", None),
        ]),
        Brings(1, Kept),
        HasUnsettled(2),
    ];
    plays_after(&rt, rt.alloc(), SECOND_MOVE_OUT, STEPS)
}

#[test]
fn a_row_in_the_middle_hides_the_source_of_the_rows_below(
    rt: HostRuntime,
) -> Result<(), AllocError> {
    const STEPS: &[Step] = &[
        Accepts(Set(b"s", &[4])),
        DeclaresFields(&[b"a", b"b", b"c", b"d"]),
        Inserts(End, b"u-move-1L c a 8", 1),
        Inserts(End, b"u-move-1L d c 8", 2),
        Inserts(After(RowId(1)), b"u-move-1L c b 8", 3),
        Settles(3),
        Accepts(Input(b"b", 0, &[1])),
        Lists(&[
            (1, 6, Settled, b"u-move-1L c a 8", None),
            (3, 9, Waiting, b"u-move-1L c b 8", None),
            (2, 9, Waiting, b"u-move-1L d c 8", None),
        ]),
    ];
    plays(&rt, rt.alloc(), STEPS)
}

#[test]
fn what_is_wholly_overwritten_unsettles_no_row_below(rt: HostRuntime) -> Result<(), AllocError> {
    const STEPS: &[Step] = &[
        Inserts(End, b"u-move-always-1L c b 8", 2),
        Inserts(End, b"u-move-1L a c 8", 3),
        Settles(3),
        Accepts(Delete(1)),
        Inserts(Start, b"u-move-constant-1L c 3 8", 4),
        Lists(&[
            (4, 11, Waiting, b"u-move-constant-1L c 3 8", None),
            (2, 8, Settled, b"u-move-always-1L c b 8", None),
            (3, 9, Settled, b"u-move-1L a c 8", None),
        ]),
        Shows(b"a", End, &[10, 20, 30, 0]),
        Shows(b"c", End, &[10, 20, 30, 0]),
        Waits(b"c", After(RowId(4)), 4),
    ];
    plays_after(&rt, rt.alloc(), BOOK_OF_SUM, STEPS)
}

#[test]
fn a_deleted_row_gives_way_to_the_one_above_it(rt: HostRuntime) -> Result<(), AllocError> {
    const STEPS: &[Step] = &[
        Accepts(Input(b"a", 0, &[1, 2, 3, 4])),
        Inserts(After(RowId(1)), b"u-move-constant-1L c 8 8", 3),
        Settles(3),
        Shows(b"d", End, &[8, 8, 8, 8]),
        Accepts(Delete(3)),
        Lists(&[
            (1, 7, Settled, b"u-move-1L c a 8", None),
            (2, 9, Waiting, b"u-move-1L d c 8", None),
        ]),
        Shows(b"c", End, &[1, 2, 3, 4]),
        Settles(1),
        Shows(b"d", End, &[1, 2, 3, 4]),
    ];
    plays_after(&rt, rt.alloc(), BOOK_OF_TWO_MOVES, STEPS)
}

/// Twice that sum, in `a`.
const SECOND_SUM: Text = b"u-add-3-1L a c c 8";

/// A book of three settled rows: the sum of `a` and `b` in `c`, twice that in `a`, and a constant in `b`.
pub(crate) const BOOK_OF_THREE: &[Step] = &[
    Accepts(Set(b"s", &[4])),
    DeclaresFields(&[b"a", b"b", b"c"]),
    Accepts(Input(b"a", 0, &[1, 2, 3, 4])),
    Accepts(Input(b"b", 0, &[10, 20, 30, 0])),
    Inserts(End, SUM, 1),
    Inserts(End, SECOND_SUM, 2),
    Inserts(End, b"u-move-constant-1L b 5 8", 3),
    Settles(3),
];

#[test]
fn a_replace_by_the_same_instruction_gives_editions_and_leaves_all_settled(
    rt: HostRuntime,
) -> Result<(), AllocError> {
    const STEPS: &[Step] = &[
        Accepts(Replace(1, SUM)),
        Lists(&[
            (1, 10, Settled, SUM, None),
            (2, 10, Settled, SECOND_SUM, None),
            (3, 9, Settled, b"u-move-constant-1L b 5 8", None),
        ]),
        TakesNothing,
        Settles(0),
        Shows(b"a", End, &[22, 44, 66, 8]),
    ];
    plays_after(&rt, rt.alloc(), BOOK_OF_THREE, STEPS)
}

#[test]
fn an_input_of_the_same_numbers_gives_editions_and_leaves_all_settled(
    rt: HostRuntime,
) -> Result<(), AllocError> {
    const STEPS: &[Step] = &[
        Accepts(Input(b"a", 0, &[1, 2, 3, 4])),
        Lists(&[
            (1, 10, Settled, SUM, None),
            (2, 10, Settled, SECOND_SUM, None),
            (3, 9, Settled, b"u-move-constant-1L b 5 8", None),
        ]),
        TakesNothing,
        Settles(0),
        Shows(b"a", End, &[22, 44, 66, 8]),
    ];
    plays_after(&rt, rt.alloc(), BOOK_OF_THREE, STEPS)
}

#[test]
fn a_replace_by_another_instruction_unsettles_the_row_and_its_readers(
    rt: HostRuntime,
) -> Result<(), AllocError> {
    const STEPS: &[Step] = &[
        Accepts(Replace(1, b"u-subtract-3-1L c b a 8")),
        Lists(&[
            (1, 10, Waiting, b"u-subtract-3-1L c b a 8", None),
            (2, 10, Waiting, SECOND_SUM, None),
            (3, 9, Settled, b"u-move-constant-1L b 5 8", None),
        ]),
        HasUnsettled(2),
    ];
    plays_after(&rt, rt.alloc(), BOOK_OF_THREE, STEPS)
}

#[test]
fn an_input_of_other_numbers_unsettles_the_readers(rt: HostRuntime) -> Result<(), AllocError> {
    const STEPS: &[Step] = &[
        Accepts(Input(b"a", 0, &[1, 2, 3, 5])),
        Lists(&[
            (1, 10, Waiting, SUM, None),
            (2, 10, Waiting, SECOND_SUM, None),
            (3, 9, Settled, b"u-move-constant-1L b 5 8", None),
        ]),
        HasUnsettled(2),
    ];
    plays_after(&rt, rt.alloc(), BOOK_OF_THREE, STEPS)
}

#[test]
fn rows_above_a_replaced_one_stay_settled(rt: HostRuntime) -> Result<(), AllocError> {
    const STEPS: &[Step] = &[
        Accepts(Replace(3, b"u-move-constant-1L b 6 8")),
        Lists(&[
            (1, 7, Settled, SUM, None),
            (2, 8, Settled, SECOND_SUM, None),
            (3, 10, Waiting, b"u-move-constant-1L b 6 8", None),
        ]),
    ];
    plays_after(&rt, rt.alloc(), BOOK_OF_THREE, STEPS)
}

#[test]
fn a_settled_program_is_shown_after_each_row(rt: HostRuntime) -> Result<(), AllocError> {
    const STEPS: &[Step] = &[
        Shows(b"a", Start, &[1, 2, 3, 4]),
        Shows(b"b", Start, &[10, 20, 30, 0]),
        Shows(b"c", Start, &[0, 0, 0, 0]),
        Shows(b"a", After(RowId(1)), &[1, 2, 3, 4]),
        Shows(b"b", After(RowId(1)), &[10, 20, 30, 0]),
        Shows(b"c", After(RowId(1)), &[11, 22, 33, 4]),
        Shows(b"a", After(RowId(2)), &[22, 44, 66, 8]),
        Shows(b"b", After(RowId(2)), &[10, 20, 30, 0]),
        Shows(b"c", After(RowId(2)), &[11, 22, 33, 4]),
        Shows(b"a", After(RowId(3)), &[22, 44, 66, 8]),
        Shows(b"b", After(RowId(3)), &[5, 5, 5, 5]),
        Shows(b"c", After(RowId(3)), &[11, 22, 33, 4]),
        Shows(b"a", End, &[22, 44, 66, 8]),
        Shows(b"b", End, &[5, 5, 5, 5]),
        Shows(b"c", End, &[11, 22, 33, 4]),
    ];
    plays_after(&rt, rt.alloc(), BOOK_OF_THREE, STEPS)
}

#[test]
fn a_key_is_pending_only_below_the_row_that_waits(rt: HostRuntime) -> Result<(), AllocError> {
    const STEPS: &[Step] = &[
        Accepts(Replace(2, b"u-add-3-1L a c b 8")),
        Shows(b"a", After(RowId(1)), &[1, 2, 3, 4]),
        Shows(b"s.carry", After(RowId(1)), &[0, 0, 0, 0]),
        Waits(b"a", After(RowId(2)), 2),
        Waits(b"s.carry", After(RowId(2)), 2),
        Waits(b"a", After(RowId(3)), 2),
        Waits(b"s.carry", End, 2),
        Shows(b"b", End, &[5, 5, 5, 5]),
        Shows(b"c", End, &[11, 22, 33, 4]),
    ];
    plays_after(&rt, rt.alloc(), BOOK_OF_THREE, STEPS)
}

/// A book with fields for a send of `v` to `d`, whose addresses aren't given.
const BOOK_OF_SEND: &[Step] = &[
    Accepts(Set(b"s", &[4])),
    Accepts(Field(b"ad", b"s", 3)),
    Accepts(Field(b"v", b"s", 8)),
    Accepts(Input(b"v", 0, &[1, 2, 3, 4])),
    Accepts(Field(b"d", b"s", 8)),
    Accepts(Input(b"d", 0, &[10, 0, 0, 0])),
    Accepts(Field(b"n", b"s", 1)),
    Accepts(Input(b"n", 0, &[1, 1, 1, 1])),
];

/// A move of what was sent, to where it was sent from.
const BACK: Text = b"u-move-1L v d 8";

#[test]
fn the_cause_of_a_refused_row_is_listed_while_it_is_settled(
    rt: HostRuntime,
) -> Result<(), AllocError> {
    const STEPS: &[Step] = &[
        Accepts(Input(b"ad", 0, &[0, 0, 1, 2])),
        Inserts(End, SEND, 1),
        Inserts(End, BACK, 2),
        Lists(&[(1, 10, Waiting, SEND, None), (2, 11, Waiting, BACK, None)]),
        Settles(2),
        Lists(&[
            (1, 10, Settled, SEND, Some(Collision(0))),
            (2, 11, Settled, BACK, None),
        ]),
        Accepts(Input(b"ad", 1, &[3])),
        Lists(&[(1, 12, Waiting, SEND, None), (2, 12, Waiting, BACK, None)]),
        Settles(2),
        Lists(&[(1, 12, Settled, SEND, None), (2, 12, Settled, BACK, None)]),
        Shows(b"v", End, &[1, 3, 4, 2]),
    ];
    plays_after(&rt, rt.alloc(), BOOK_OF_SEND, STEPS)
}

#[test]
fn a_bad_address_is_listed_as_the_cause(rt: HostRuntime) -> Result<(), AllocError> {
    const STEPS: &[Step] = &[
        Accepts(Input(b"ad", 0, &[0, 0, 4, 1])),
        Inserts(End, SEND, 1),
        Inserts(End, BACK, 2),
        Settles(2),
        Lists(&[
            (1, 10, Settled, SEND, Some(BadAddress(2))),
            (2, 11, Settled, BACK, None),
        ]),
        Shows(b"v", End, &[10, 0, 0, 0]),
    ];
    plays_after(&rt, rt.alloc(), BOOK_OF_SEND, STEPS)
}
