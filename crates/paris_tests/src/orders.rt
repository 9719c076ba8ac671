use crate::common::Place::{Field, Flag};
use crate::common::*;
use paris_exec::{Done, Order, Outcome, execute};
use paris_field::{FieldValue, SharedValue};
use paris_instr::{Plan, SharedPlan};
use paris_names::FlagName::{Carry, Overflow};
use paris_names::{Edition, Key, RowId, has_key};
use std::alloc::Global;
use std::process::Abort;

/// The numbers of an input, as a table has them, behind their width.
type Part = (u64, &'static [u128]);

/// The plan of an instruction where the fields `a`, `b` and `c` have this width, in a set of this many processors.
fn plan_of(rt: &impl Abort, alloc: Global, text: &[u8], width: u64, count: u64) -> Plan {
    let axes = [count];
    let sets: [SetGiven<'_>; 1] = [(b"s", &axes)];
    let fields: [FieldGiven<'_>; 3] = [
        (b"a", b"s", width),
        (b"b", b"s", width),
        (b"c", b"s", width),
    ];
    plan_on(rt, alloc, &board_of(rt, alloc, &sets, &fields), text)
}

fn value(rt: &impl Abort, alloc: Global, part: Part) -> FieldValue {
    let (width, numbers) = part;
    assert!(rt; width <= 64);
    let limit = 1u128 << width;
    assert!(rt; numbers.iter().all(|n| *n < limit));
    FieldValue::from_numbers(alloc, width, numbers)
        .ok()
        .expect(rt, "there is memory")
}

fn shared(rt: &impl Abort, alloc: Global, part: Part) -> SharedValue {
    SharedValue::new(alloc, value(rt, alloc, part))
        .ok()
        .expect(rt, "there is memory")
}

fn values(rt: &impl Abort, alloc: Global, parts: &[Part]) -> Vec<SharedValue> {
    let mut values = Vec::new(alloc);
    for part in parts {
        values
            .push(shared(rt, alloc, *part))
            .ok()
            .expect(rt, "there is memory");
    }
    values
}

/// A plan with one owner.
fn shared_plan(rt: &impl Abort, alloc: Global, plan: Plan) -> SharedPlan {
    SharedPlan::new(alloc, plan)
        .ok()
        .expect(rt, "there is memory")
}

/// The result of the order of a plan with these inputs.
fn executed(rt: &impl Abort, alloc: Global, plan: Plan, parts: &[Part]) -> Done {
    let inputs = values(rt, alloc, parts);
    let plan = shared_plan(rt, alloc, plan);
    let order = Order::new(RowId(7), Edition(9), plan, inputs).expect(rt, "the inputs fit");
    execute(alloc, order).ok().expect(rt, "there is memory")
}

/// Whether a result is of the row 7 with the edition 9.
fn is_of_row(order: &Order) -> bool {
    order.id() == RowId(7) && order.edition() == Edition(9)
}

/// Whether a value has just these numbers.
fn holds(value: &FieldValue, numbers: &[u128]) -> bool {
    match value.numbers() {
        Ok(found) => found.as_slice() == numbers,
        Err(_) => false,
    }
}

/// Whether a result has these numbers at a key, which its plan writes.
fn is_left(done: &Done, key: Key, numbers: &[u128]) -> bool {
    has_key(done.order().plan().writes(), key) && holds(done.value(&key), numbers)
}

fn same_values(values: &[SharedValue], others: &[SharedValue]) -> bool {
    values.len() == others.len()
        && values
            .iter()
            .zip(others)
            .all(|(x, y)| x.get().equals(y.get()))
}

fn same_outcomes(outcome: &Outcome, other: &Outcome) -> bool {
    match (outcome, other) {
        (Outcome::Values(values), Outcome::Values(others)) => {
            same_values(values.as_slice(), others.as_slice())
        }
        _ => false,
    }
}

/// An order, as a table has it: its instruction, the width of the fields, how many processors there are, its inputs, and what it
/// leaves at some keys.
struct Case {
    instr: Text,
    width: u64,
    count: u64,
    inputs: &'static [Part],
    left: &'static [(Place, &'static [u128])],
}

/// An order leaves what is wanted, and its result is of its row.
fn leaves(rt: &impl Abort, alloc: Global, case: &Case) {
    let plan = plan_of(rt, alloc, case.instr, case.width, case.count);
    let done = executed(rt, alloc, plan, case.inputs);
    assert!(rt; is_of_row(done.order()));
    for (place, numbers) in case.left {
        assert!(rt; is_left(&done, key(rt, *place), *numbers));
    }
}

#[test]
fn a_sum_sets_its_flags(rt: HostRuntime) {
    const CASE: Case = Case {
        instr: b"u-add-3-1L c a b 8",
        width: 8,
        count: 4,
        inputs: &[
            (8, &[10, 20, 30, 250]),
            (8, &[1, 2, 3, 10]),
            (8, &[0, 0, 0, 0]),
            (1, &[1, 1, 1, 1]),
            (1, &[0, 0, 0, 0]),
            (1, &[0, 0, 0, 0]),
        ],
        left: &[
            (Field(2), &[11, 22, 33, 4]),
            (Flag(0, Carry), &[0, 0, 0, 1]),
            (Flag(0, Overflow), &[0, 0, 0, 1]),
        ],
    };
    leaves(&rt, rt.alloc(), &CASE);
}

#[test]
fn unselected_processors_keep_what_they_have(rt: HostRuntime) {
    const CASE: Case = Case {
        instr: b"u-add-3-1L c a b 8",
        width: 8,
        count: 4,
        inputs: &[
            (8, &[255, 255, 1, 1]),
            (8, &[1, 1, 1, 1]),
            (8, &[9, 9, 9, 9]),
            (1, &[1, 0, 1, 1]),
            (1, &[0, 1, 0, 1]),
            (1, &[0, 1, 0, 1]),
        ],
        left: &[
            (Field(2), &[0, 9, 2, 2]),
            (Flag(0, Carry), &[1, 1, 0, 0]),
            (Flag(0, Overflow), &[1, 1, 0, 0]),
        ],
    };
    leaves(&rt, rt.alloc(), &CASE);
}

#[test]
fn a_sum_of_64_bits_wraps(rt: HostRuntime) {
    const CASE: Case = Case {
        instr: b"u-add-3-1L c a b 64",
        width: 64,
        count: 1,
        inputs: &[
            (64, &[18_446_744_073_709_551_615]),
            (64, &[1]),
            (64, &[5]),
            (1, &[1]),
            (1, &[0]),
            (1, &[0]),
        ],
        left: &[
            (Field(2), &[0]),
            (Flag(0, Carry), &[1]),
            (Flag(0, Overflow), &[1]),
        ],
    };
    leaves(&rt, rt.alloc(), &CASE);
}

#[test]
fn a_store_keeps_the_bits_above_its_length(rt: HostRuntime) {
    const SUM: Case = Case {
        instr: b"u-add-3-1L c a b 4",
        width: 8,
        count: 1,
        inputs: &[
            (8, &[0xf9]),
            (8, &[0x38]),
            (8, &[0xab]),
            (1, &[1]),
            (1, &[0]),
            (1, &[0]),
        ],
        left: &[(Field(2), &[0xa1]), (Flag(0, Carry), &[1])],
    };
    const CONSTANT: Case = Case {
        instr: b"u-move-constant-1L c 5 4",
        width: 8,
        count: 2,
        inputs: &[(8, &[0xab, 0xab]), (1, &[0, 1])],
        left: &[(Field(2), &[0xab, 0xa5])],
    };
    leaves(&rt, rt.alloc(), &SUM);
    leaves(&rt, rt.alloc(), &CONSTANT);
}

/// Whether these are the inputs of an order of `u-move-constant-1L c 5 4`, of 8 bits and 2 processors.
fn is_order(rt: &impl Abort, alloc: Global, parts: &[Part]) -> bool {
    let plan = plan_of(rt, alloc, b"u-move-constant-1L c 5 4", 8, 2);
    let plan = shared_plan(rt, alloc, plan);
    Order::new(RowId(1), Edition(1), plan, values(rt, alloc, parts)).is_some()
}

#[test]
fn an_order_has_an_input_for_each_key(rt: HostRuntime) {
    const CASES: &[(&'static [Part], bool)] = &[
        (&[(8, &[1, 2]), (1, &[0, 1])], true),
        (&[(8, &[1, 2])], false),
        (&[], false),
        (&[(8, &[1, 2]), (1, &[0, 1]), (1, &[0, 1])], false),
        (&[(1, &[0, 1]), (8, &[1, 2])], false),
        (&[(7, &[1, 2]), (1, &[0, 1])], false),
        (&[(8, &[1, 2]), (2, &[0, 1])], false),
        (&[(8, &[1]), (1, &[0, 1])], false),
        (&[(8, &[1, 2]), (1, &[0, 1, 1])], false),
    ];
    for (parts, wanted) in CASES {
        assert!(rt; is_order(&rt, rt.alloc(), *parts) == *wanted);
    }
}

/// Whether an order is that of row 7 with the edition 9, and has the plan and the inputs of another.
fn is_copy(copy: &Order, order: &Order) -> bool {
    is_of_row(copy)
        && copy.plan().equals(order.plan())
        && same_values(copy.inputs(), order.inputs())
}

/// Whether a copy of an order is made.
fn is_copied(order: &Order) -> bool {
    match order.copy() {
        Ok(copy) => is_copy(&copy, order),
        Err(_) => false,
    }
}

/// Whether a copy of a result is made, which has the same outcome.
fn has_copy(done: &Done) -> bool {
    match done.copy() {
        Ok(copy) => same_outcomes(copy.outcome(), done.outcome()),
        Err(_) => false,
    }
}

#[test]
fn copies_are_equal(rt: HostRuntime) {
    const INPUTS: &[Part] = &[(8, &[0xab, 0xab]), (1, &[0, 1])];
    let plan = plan_of(&rt, rt.alloc(), b"u-move-constant-1L c 5 4", 8, 2);
    let done = executed(&rt, rt.alloc(), plan, INPUTS);
    assert!(rt; has_copy(&done));
    assert!(rt; is_copied(done.order()));
}

/// Whether a value has 3 bits, and the numbers 7 and 0.
fn is_three(value: &FieldValue) -> bool {
    value.width() == 3 && value.len() == 2 && value.get(0) == 7 && holds(value, &[7, 0])
}

/// Whether a value equals another.
fn is_same(rt: &impl Abort, alloc: Global, three: &FieldValue, other: Part) -> bool {
    three.equals(&value(rt, alloc, other))
}

#[test]
fn a_value_holds_its_numbers(rt: HostRuntime) {
    const OTHERS: &[Part] = &[(4, &[7, 0]), (3, &[7, 1]), (3, &[7])];
    let three = value(&rt, rt.alloc(), (3, &[7, 0]));
    assert!(rt; is_three(&three));
    let copy = three.copy().ok().expect(&rt, "there is memory");
    assert!(rt; three.equals(&copy));
    for other in OTHERS {
        assert!(rt; !is_same(&rt, rt.alloc(), &three, *other));
    }
}

#[test]
fn a_shared_value_outlives_its_other_owners(rt: HostRuntime) {
    let owner = shared(&rt, rt.alloc(), (3, &[7, 0]));
    let other = owner.copy().ok().expect(&rt, "no memory is taken");
    drop(owner);
    assert!(rt; is_three(other.get()));
}
