//! Instructions of each family on a set of four processors.

ghost use Rattle.std.specs.Prelude.{◌≡◌};

use crate::common::Place::{Field, Flag};
use crate::common::*;
use crate::families::Wanted::{Leaves, Refuses};
use paris_board::Board;
use paris_instr::Plan;
use paris_model::Refusal;
use paris_model::Refusal::{BadAddress, Collision};
use paris_names::FlagName::{Carry, Context, Overflow, Test};
use paris_names::limits::MAX_WIDTH_OF_ONE;
use paris_names::{Items, SetNo};
use paris_plain::*;
use std::alloc::{AllocError, Global};
use std::process::Abort;

/// Lists of four numbers, as a table has them.
type Rows = &'static [[u128; 4]];

/// What an instruction gives, as a table has it.
enum Wanted {
    /// These numbers, at each of the keys that it writes.
    Leaves(Rows),
    /// It is refused.
    Refuses(Refusal),
}

/// An instruction, as a table has it: some keys with the numbers at each of them, keys that it writes, and what it gives.
struct Case {
    instr: Text,
    keys: &'static [Place],
    rows: Rows,
    writes: &'static [Place],
    wanted: Wanted,
}

/// A set of four processors in a line, with the fields `a`, `b`, `c` and `n`, which have the numbers 0 to 3. The field `b` has
/// this width, `a` and `c` have 8 bits, and `n` has one.
fn board(rt: &impl Abort, alloc: Global, width: u64) -> Board {
    let sets: [SetGiven<'_>; 1] = [(b"s", &[4])];
    let fields: [FieldGiven<'_>; 4] = [
        (b"a", b"s", 8),
        (b"b", b"s", width),
        (b"c", b"s", 8),
        (b"n", b"s", 1),
    ];
    board_of(rt, alloc, &sets, &fields)
}

/// Lists of four numbers.
fn lists(alloc: Global, rows: &[[u128; 4]]) -> Result<Vec<Items<u128>>, AllocError> {
    let mut lists = Vec::new(alloc);
    for row in rows {
        lists.push(Items::new(Vec::from_slice(alloc, row.as_slice())?))?;
    }
    Ok(lists)
}

/// Whether these are the numbers, list by list.
fn are_numbers(values: &Items<Items<u128>>, rows: &[[u128; 4]]) -> bool {
    values.len() == rows.len()
        && values
            .as_slice()
            .iter()
            .zip(rows)
            .all(|(value, row)| value.as_slice() == row.as_slice())
}

/// Whether an instruction gives what is wanted.
fn is_wanted(given: &Result<Items<Items<u128>>, Refusal>, wanted: &Wanted) -> bool {
    match (given, wanted) {
        (Ok(values), Wanted::Leaves(rows)) => are_numbers(values, *rows),
        (Err(cause), Wanted::Refuses(refusal)) => *cause == *refusal,
        _ => false,
    }
}

/// What the plan of an instruction sees.
fn seen(rt: &impl Abort, alloc: Global, plan: &Plan, case: &Case) -> Inputs
    ensures { result.axes ≡ plan.now.axes }
{
    let keys = keys(rt, alloc, case.keys);
    let values = lists(alloc, case.rows).ok().expect(rt, "there is memory");
    assert!(rt; keys.len() == values.len());
    assert!(rt; flags_are_bits(keys.as_slice(), values.as_slice()));
    Inputs::new(SetNo::new(0), plan.geometry(), keys, values)
}

/// An instruction gives what is wanted, where the field `b` has this width.
fn gives_where(rt: &impl Abort, alloc: Global, width: u64, case: &Case) {
    let plan = plan_on(rt, alloc, &board(rt, alloc, width), case.instr);
    let inputs = seen(rt, alloc, &plan, case);
    let action = plan.action();
    assert!(rt; plan.is_within(MAX_WIDTH_OF_ONE));
    let writes = keys(rt, alloc, case.writes);
    let given = outcome(alloc, &inputs, &action, writes.as_slice())
        .ok()
        .expect(rt, "there is memory");
    assert!(rt; is_wanted(&given, &case.wanted));
}

/// An instruction gives what is wanted, where the field `b` has 8 bits.
fn gives(rt: &impl Abort, alloc: Global, case: &Case) {
    gives_where(rt, alloc, 8, case);
}

#[test]
fn a_difference_borrows(rt: HostRuntime) {
    const CASE: Case = Case {
        instr: b"u-subtract-3-1L c a b 8",
        keys: &[Field(0), Field(1), Flag(0, Context)],
        rows: &[[5, 0, 255, 128], [6, 0, 1, 128], [1, 1, 1, 1]],
        writes: &[Field(2), Flag(0, Carry), Flag(0, Overflow)],
        wanted: Leaves(&[[255, 0, 254, 0], [1, 0, 0, 0], [1, 0, 0, 0]]),
    };
    gives(&rt, rt.alloc(), &CASE);
}

#[test]
fn the_least_number_has_no_opposite(rt: HostRuntime) {
    const CASE: Case = Case {
        instr: b"s-negate-2-1L c a 8",
        keys: &[Field(0), Flag(0, Context)],
        rows: &[[128, 1, 0, 255], [1, 1, 1, 1]],
        writes: &[Field(2), Flag(0, Overflow)],
        wanted: Leaves(&[[128, 255, 0, 1], [1, 0, 0, 0]]),
    };
    gives(&rt, rt.alloc(), &CASE);
}

#[test]
fn an_unsigned_product_overflows(rt: HostRuntime) {
    const CASE: Case = Case {
        instr: b"u-multiply-3-1L c a b 8",
        keys: &[Field(0), Field(1), Flag(0, Context)],
        rows: &[[16, 255, 2, 0], [16, 255, 100, 9], [1, 1, 1, 1]],
        writes: &[Field(2), Flag(0, Overflow)],
        wanted: Leaves(&[[0, 1, 200, 0], [1, 1, 0, 0]]),
    };
    gives(&rt, rt.alloc(), &CASE);
}

#[test]
fn a_signed_product_overflows(rt: HostRuntime) {
    const CASE: Case = Case {
        instr: b"s-multiply-3-1L c a b 8",
        keys: &[Field(0), Field(1), Flag(0, Context)],
        rows: &[[16, 255, 2, 0], [16, 255, 100, 9], [1, 1, 1, 1]],
        writes: &[Field(2), Flag(0, Overflow)],
        wanted: Leaves(&[[0, 1, 200, 0], [1, 0, 1, 0]]),
    };
    gives(&rt, rt.alloc(), &CASE);
}

#[test]
fn a_signed_move_widens(rt: HostRuntime) {
    const CASE: Case = Case {
        instr: b"s-move-2L c a 8 4",
        keys: &[Field(0), Flag(0, Context)],
        rows: &[[7, 8, 15, 16], [1, 1, 1, 1]],
        writes: &[Field(2), Flag(0, Overflow)],
        wanted: Leaves(&[[7, 248, 255, 0], [0, 0, 0, 0]]),
    };
    gives(&rt, rt.alloc(), &CASE);
}

#[test]
fn an_unsigned_move_narrows(rt: HostRuntime) {
    const CASE: Case = Case {
        instr: b"u-move-2L c a 3 8",
        keys: &[Field(0), Field(2), Flag(0, Context)],
        rows: &[[7, 8, 15, 16], [0, 0, 0, 0], [1, 1, 1, 1]],
        writes: &[Field(2), Flag(0, Overflow)],
        wanted: Leaves(&[[7, 0, 7, 0], [0, 1, 1, 1]]),
    };
    gives(&rt, rt.alloc(), &CASE);
}

#[test]
fn unsigned_numbers_compare(rt: HostRuntime) {
    const CASE: Case = Case {
        instr: b"u-lt-1L a b 8",
        keys: &[Field(0), Field(1), Flag(0, Context)],
        rows: &[[1, 200, 3, 4], [2, 100, 3, 0], [1, 1, 1, 1]],
        writes: &[Flag(0, Test)],
        wanted: Leaves(&[[1, 0, 0, 0]]),
    };
    gives(&rt, rt.alloc(), &CASE);
}

#[test]
fn signed_numbers_compare(rt: HostRuntime) {
    const CASE: Case = Case {
        instr: b"s-lt-1L a b 8",
        keys: &[Field(0), Field(1), Flag(0, Context)],
        rows: &[[1, 200, 3, 4], [2, 100, 3, 0], [1, 1, 1, 1]],
        writes: &[Flag(0, Test)],
        wanted: Leaves(&[[1, 1, 0, 0]]),
    };
    gives(&rt, rt.alloc(), &CASE);
}

#[test]
fn a_sum_takes_the_old_carry(rt: HostRuntime) {
    const CASE: Case = Case {
        instr: b"u-add-carry-3-1L c a b 8",
        keys: &[Field(0), Field(1), Flag(0, Context), Flag(0, Carry)],
        rows: &[[255, 255, 1, 1], [0, 0, 0, 0], [1, 1, 1, 1], [1, 0, 1, 0]],
        writes: &[Field(2), Flag(0, Carry)],
        wanted: Leaves(&[[0, 255, 2, 1], [1, 0, 0, 0]]),
    };
    gives(&rt, rt.alloc(), &CASE);
}

#[test]
fn a_short_move_keeps_the_upper_bits(rt: HostRuntime) {
    const CASE: Case = Case {
        instr: b"u-move-1L c a 4",
        keys: &[Field(0), Field(2), Flag(0, Context)],
        rows: &[[3, 15, 16, 255], [240, 240, 240, 240], [1, 1, 1, 1]],
        writes: &[Field(2)],
        wanted: Leaves(&[[243, 255, 240, 255]]),
    };
    gives(&rt, rt.alloc(), &CASE);
}

#[test]
fn a_spread_adds_the_selected(rt: HostRuntime) {
    const CASE: Case = Case {
        instr: b"spread-with-u-add-1L c a 0 8",
        keys: &[Field(0), Flag(0, Context)],
        rows: &[[1, 2, 3, 4], [0, 1, 1, 0]],
        writes: &[Field(2)],
        wanted: Leaves(&[[0, 5, 5, 0]]),
    };
    gives(&rt, rt.alloc(), &CASE);
}

#[test]
fn a_spread_copies_from_an_unselected_processor(rt: HostRuntime) {
    const CASE: Case = Case {
        instr: b"spread-with-copy-1L c a 0 8 3",
        keys: &[Field(0), Flag(0, Context)],
        rows: &[[1, 2, 3, 4], [0, 1, 1, 0]],
        writes: &[Field(2)],
        wanted: Leaves(&[[0, 4, 4, 0]]),
    };
    gives(&rt, rt.alloc(), &CASE);
}

#[test]
fn a_reduce_stores_at_a_selected_processor(rt: HostRuntime) {
    const CASE: Case = Case {
        instr: b"reduce-with-u-max-1L c a 0 8 1",
        keys: &[Field(0), Flag(0, Context)],
        rows: &[[1, 2, 3, 4], [0, 1, 1, 0]],
        writes: &[Field(2)],
        wanted: Leaves(&[[0, 3, 0, 0]]),
    };
    gives(&rt, rt.alloc(), &CASE);
}

#[test]
fn a_reduce_to_an_unselected_processor_stores_nothing(rt: HostRuntime) {
    const CASE: Case = Case {
        instr: b"reduce-with-u-max-1L c a 0 8 0",
        keys: &[Field(0), Flag(0, Context)],
        rows: &[[1, 2, 3, 4], [0, 1, 1, 0]],
        writes: &[Field(2)],
        wanted: Leaves(&[[0, 0, 0, 0]]),
    };
    gives(&rt, rt.alloc(), &CASE);
}

#[test]
fn a_get_reads_at_the_address(rt: HostRuntime) {
    const CASE: Case = Case {
        instr: b"get-1L c b a 8",
        keys: &[Field(0), Field(1), Flag(0, Context)],
        rows: &[[1, 2, 3, 4], [3, 3, 0, 1], [1, 1, 0, 1]],
        writes: &[Field(2)],
        wanted: Leaves(&[[4, 4, 0, 2]]),
    };
    gives(&rt, rt.alloc(), &CASE);
}

#[test]
fn a_segment_begins_at_an_unselected_processor(rt: HostRuntime) {
    const CASE: Case = Case {
        instr: b"scan-with-copy-1L c a 0 8 upward b",
        keys: &[Field(0), Field(1), Flag(0, Context)],
        rows: &[[9, 2, 3, 4], [0, 1, 0, 0], [1, 0, 1, 1]],
        writes: &[Field(2)],
        wanted: Leaves(&[[9, 0, 3, 3]]),
    };
    gives_where(&rt, rt.alloc(), 1, &CASE);
}

#[test]
fn a_scan_overflows_by_the_exact_sum(rt: HostRuntime) {
    const CASE: Case = Case {
        instr: b"scan-with-u-add-1L c a 0 8 upward inclusive none",
        keys: &[Field(0), Flag(0, Context)],
        rows: &[[200, 100, 1, 2], [1, 1, 1, 1]],
        writes: &[Field(2), Flag(0, Overflow)],
        wanted: Leaves(&[[200, 44, 45, 47], [0, 1, 1, 1]]),
    };
    gives(&rt, rt.alloc(), &CASE);
}

#[test]
fn the_context_is_inverted_in_every_processor(rt: HostRuntime) {
    const CASE: Case = Case {
        instr: b"invert-context s",
        keys: &[Flag(0, Context)],
        rows: &[[1, 0, 1, 0]],
        writes: &[Flag(0, Context)],
        wanted: Leaves(&[[0, 1, 0, 1]]),
    };
    gives(&rt, rt.alloc(), &CASE);
}

#[test]
fn a_send_to_the_neighbour_goes_by_the_senders_context(rt: HostRuntime) {
    const CASE: Case = Case {
        instr: b"send-to-news-1L c a 0 upward 8",
        keys: &[Field(0), Flag(0, Context)],
        rows: &[[1, 2, 3, 4], [1, 0, 1, 1]],
        writes: &[Field(2)],
        wanted: Leaves(&[[4, 1, 0, 3]]),
    };
    gives(&rt, rt.alloc(), &CASE);
}

#[test]
fn a_combining_send_adds_to_the_old_value(rt: HostRuntime) {
    const CASE: Case = Case {
        instr: b"send-with-u-add-1L c b a 8 n",
        keys: &[Field(0), Field(1), Field(2), Flag(0, Context)],
        rows: &[[1, 2, 3, 4], [0, 0, 1, 2], [10, 0, 0, 0], [1, 1, 1, 1]],
        writes: &[Field(2), Field(3)],
        wanted: Leaves(&[[13, 3, 4, 0], [1, 1, 1, 0]]),
    };
    gives(&rt, rt.alloc(), &CASE);
}

#[test]
fn two_messages_collide(rt: HostRuntime) {
    const CASE: Case = Case {
        instr: b"send-1L c b a 8 n",
        keys: &[Field(0), Field(1), Flag(0, Context)],
        rows: &[[1, 2, 3, 4], [0, 0, 1, 2], [1, 1, 1, 1]],
        writes: &[Field(2), Field(3)],
        wanted: Refuses(Collision(0)),
    };
    gives(&rt, rt.alloc(), &CASE);
}

#[test]
fn a_bad_address_comes_before_a_collision(rt: HostRuntime) {
    const CASE: Case = Case {
        instr: b"send-1L c b a 8 n",
        keys: &[Field(0), Field(1), Flag(0, Context)],
        rows: &[[1, 2, 3, 4], [0, 0, 4, 1], [1, 1, 1, 1]],
        writes: &[Field(2), Field(3)],
        wanted: Refuses(BadAddress(2)),
    };
    gives(&rt, rt.alloc(), &CASE);
}

#[test]
fn a_send_notifies_the_receivers(rt: HostRuntime) {
    const CASE: Case = Case {
        instr: b"send-1L c b a 8 n",
        keys: &[Field(0), Field(1), Field(2), Flag(0, Context)],
        rows: &[[1, 2, 3, 4], [3, 2, 1, 3], [10, 0, 0, 0], [1, 1, 1, 0]],
        writes: &[Field(2), Field(3)],
        wanted: Leaves(&[[10, 3, 2, 1], [0, 1, 1, 1]]),
    };
    gives(&rt, rt.alloc(), &CASE);
}
