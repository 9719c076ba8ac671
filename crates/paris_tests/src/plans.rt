use crate::common::Place::{Field, Flag};
use crate::common::*;
use paris_board::Board;
use paris_instr::{Plan, resolve};
use paris_model::{Action, Conditional, Operand};
use paris_names::FlagName::{Carry, Context, Overflow};
use paris_names::{Fault, FieldNo, SetNo};
use std::alloc::Global;
use std::process::Abort;

/// The sets `t` of 2 processors with the field `d`, and `s` of 4 with the fields `a`, `b` and `c`. The fields have this width.
fn board(rt: &impl Abort, alloc: Global, width: u64) -> Board {
    let sets: [SetGiven<'_>; 2] = [(b"t", &[2]), (b"s", &[4])];
    let fields: [FieldGiven<'_>; 4] = [
        (b"a", b"s", width),
        (b"b", b"s", width),
        (b"c", b"s", width),
        (b"d", b"t", width),
    ];
    board_of(rt, alloc, &sets, &fields)
}

/// The plan of an instruction where the fields have this width.
fn plan_of(rt: &impl Abort, alloc: Global, width: u64, text: &[u8]) -> Plan {
    plan_on(rt, alloc, &board(rt, alloc, width), text)
}

/// Instructions are refused with these faults where the fields have this width.
fn refuses(rt: &impl Abort, alloc: Global, width: u64, refused: &[(Text, Fault)]) {
    are_refused(rt, alloc, &board(rt, alloc, width), refused);
}

/// The plan of an instruction, as a table has it: its text, the width of the fields, the set's number and the lengths of its
/// axes, the keys that the plan reads and writes, and the widths of some keys.
struct Case {
    instr: Text,
    width: u64,
    set: u64,
    lengths: &'static [u64],
    reads: &'static [Place],
    writes: &'static [Place],
    widths: &'static [(Place, u64)],
}

/// Keys of a plan have these widths.
fn has_widths(rt: &impl Abort, plan: &Plan, widths: &[(Place, u64)]) {
    for (place, width) in widths {
        assert!(rt; plan.width(key(rt, *place)) == *width);
    }
}

/// An instruction has this plan.
fn is_planned(rt: &impl Abort, alloc: Global, case: &Case) {
    let plan = plan_of(rt, alloc, case.width, case.instr);
    assert!(rt; plan.instr() == instr(rt, case.instr));
    assert!(rt; plan.set().number() == case.set);
    assert!(rt; plan.geometry().lengths() == case.lengths);
    has_keys(rt, alloc, &plan, case.reads, case.writes);
    has_widths(rt, &plan, case.widths);
}

#[test]
fn a_sum_reads_and_writes_its_keys(rt: HostRuntime) {
    const CASE: Case = Case {
        instr: b"u-add-3-1L c a b 8",
        width: 16,
        set: 1,
        lengths: &[4],
        reads: &[
            Field(0),
            Field(1),
            Field(2),
            Flag(1, Context),
            Flag(1, Carry),
            Flag(1, Overflow),
        ],
        writes: &[Field(2), Flag(1, Carry), Flag(1, Overflow)],
        widths: &[(Field(1), 16), (Flag(1, Carry), 1)],
    };
    is_planned(&rt, rt.alloc(), &CASE);
}

#[test]
fn a_constant_reads_and_writes_its_keys(rt: HostRuntime) {
    const CASE: Case = Case {
        instr: b"u-move-constant-1L d 255 8",
        width: 8,
        set: 0,
        lengths: &[2],
        reads: &[Field(3), Flag(0, Context)],
        writes: &[Field(3)],
        widths: &[],
    };
    is_planned(&rt, rt.alloc(), &CASE);
}

/// Whether an action puts a constant into the low bits of a field.
fn is_constant(action: Action<Operand, SetNo>, field: FieldNo, number: u128, bits: u64) -> bool {
    match action {
        Action::OnSelected(Conditional::MoveConstant { to, value, length }) => {
            to.field == field && value == number && length == bits
        }
        _ => false,
    }
}

#[test]
fn a_name_becomes_its_field(rt: HostRuntime) {
    let plan = plan_of(&rt, rt.alloc(), 8, b"u-move-constant-1L d 255 8");
    assert!(rt; is_constant(plan.action(), FieldNo::new(3), 255, 8));
}

#[test]
fn a_key_is_read_once(rt: HostRuntime) {
    let plan = plan_of(&rt, rt.alloc(), 8, b"u-add-3-1L a a a 1");
    assert!(rt; plan.reads().len() == 4);
    assert!(rt; plan.writes().len() == 3);
}

#[test]
fn the_first_fault_of_a_sum_is_answered(rt: HostRuntime) {
    const REFUSED: &[(Text, Fault)] = &[
        (b"u-add-3-1L d a x 0", Fault::NoField),
        (b"u-add-3-1L s a b 8", Fault::NoField),
        (b"u-add-3-1L d a b 0", Fault::WrongSet),
        (b"u-add-3-1L a b d 9", Fault::WrongSet),
        (b"u-add-3-1L c a b 0", Fault::BadLength),
        (b"u-add-3-1L c a b 9", Fault::BadLength),
    ];
    refuses(&rt, rt.alloc(), 8, REFUSED);
}

#[test]
fn the_first_fault_of_a_constant_is_answered(rt: HostRuntime) {
    const REFUSED: &[(Text, Fault)] = &[
        (b"u-move-constant-1L x 256 9", Fault::NoField),
        (b"u-move-constant-1L c 256 0", Fault::BadLength),
        (b"u-move-constant-1L c 512 9", Fault::BadLength),
        (b"u-move-constant-1L c 256 8", Fault::BadOperand),
        (b"u-move-constant-1L c 2 1", Fault::BadOperand),
        (
            b"u-move-constant-1L c 18446744073709551616 8",
            Fault::BadOperand,
        ),
    ];
    refuses(&rt, rt.alloc(), 8, REFUSED);
}

/// Instructions have plans where the fields have this width.
fn are_planned(rt: &impl Abort, alloc: Global, width: u64, texts: &[Text]) {
    let board = board(rt, alloc, width);
    for text in texts {
        assert!(rt; resolve(alloc, &board, instr(rt, *text)).is_ok());
    }
}

#[test]
fn the_limits_are_met(rt: HostRuntime) {
    const PLANNED: &[Text] = &[
        b"u-add-3-1L c a b 64",
        b"u-move-constant-1L c 0 1",
        b"u-move-constant-1L c 1 1",
        b"u-move-constant-1L c 255 8",
        b"u-move-constant-1L c 18446744073709551615 64",
    ];
    const REFUSED: &[(Text, Fault)] = &[(
        b"u-move-constant-1L c 18446744073709551616 64",
        Fault::BadOperand,
    )];
    are_planned(&rt, rt.alloc(), 64, PLANNED);
    refuses(&rt, rt.alloc(), 64, REFUSED);
}

/// Whether the plans of `u-add-3-1L c a b 8` in fields of 8 bits and of an instruction in fields of a width are equal.
fn is_same_plan(rt: &impl Abort, alloc: Global, text: &[u8], width: u64) -> bool {
    let plan = plan_of(rt, alloc, 8, b"u-add-3-1L c a b 8");
    plan.equals(&plan_of(rt, alloc, width, text))
}

#[test]
fn plans_are_equal_where_all_parts_are(rt: HostRuntime) {
    const CASES: &[(Text, u64, bool)] = &[
        (b"u-add-3-1L c a b 8", 8, true),
        (b"u-add-3-1L c a b 7", 8, false),
        (b"u-add-3-1L c b a 8", 8, false),
        (b"u-add-3-1L c a b 8", 9, false),
    ];
    for (text, width, wanted) in CASES {
        assert!(rt; is_same_plan(&rt, rt.alloc(), *text, *width) == *wanted);
    }
}

/// Whether a plan equals another, and has the same keys.
fn is_copy(plan: &Plan, copy: &Plan) -> bool {
    plan.equals(copy) && copy.reads() == plan.reads() && copy.writes() == plan.writes()
}

#[test]
fn a_copy_is_equal(rt: HostRuntime) {
    let plan = plan_of(&rt, rt.alloc(), 8, b"u-add-3-1L c a b 8");
    let copy = plan.copy().ok().expect(&rt, "there is memory");
    assert!(rt; is_copy(&plan, &copy));
}
