//! Tests of instructions that are resolved against a board.

use crate::common::Place::{Field, Flag};
use crate::common::*;
use paris_board::Board;
use paris_names::Fault;
use paris_names::FlagName::{Carry, Context, Overflow, Test};
use std::alloc::Global;
use std::process::Abort;

/// The set `t` of 2 processors, and the set `s` of 4 by 2. In `s` the fields `a`, `b` and `c` of 16 bits and `f` of one bit,
/// with the numbers 0 to 3, and in `t` the field `d` of 16 bits.
fn board(rt: &impl Abort, alloc: Global) -> Board {
    let sets: [SetGiven<'_>; 2] = [(b"t", &[2]), (b"s", &[4, 2])];
    let fields: [FieldGiven<'_>; 5] = [
        (b"a", b"s", 16),
        (b"b", b"s", 16),
        (b"c", b"s", 16),
        (b"f", b"s", 1),
        (b"d", b"t", 16),
    ];
    board_of(rt, alloc, &sets, &fields)
}

/// An instruction has a plan that reads and writes just these keys.
fn resolves(rt: &impl Abort, alloc: Global, text: &[u8], reads: &[Place], writes: &[Place]) {
    let plan = plan_on(rt, alloc, &board(rt, alloc), text);
    has_keys(rt, alloc, &plan, reads, writes);
}

/// Instructions are refused with these faults.
fn refuses(rt: &impl Abort, alloc: Global, refused: &[(Text, Fault)]) {
    are_refused(rt, alloc, &board(rt, alloc), refused);
}

#[test]
fn a_sum_with_carry_reads_carry(rt: HostRuntime) {
    const READS: &[Place] = &[
        Field(0),
        Field(1),
        Field(2),
        Flag(1, Context),
        Flag(1, Carry),
        Flag(1, Overflow),
    ];
    const WRITES: &[Place] = &[Field(2), Flag(1, Carry), Flag(1, Overflow)];
    resolves(&rt, rt.alloc(), b"u-add-carry-3-1L c b a 8", READS, WRITES);
}

#[test]
fn a_loaded_test_flag_is_of_the_fields_set(rt: HostRuntime) {
    const READS: &[Place] = &[Field(3), Flag(1, Context), Flag(1, Test)];
    resolves(&rt, rt.alloc(), b"load-test f", READS, &[Flag(1, Test)]);
}

#[test]
fn a_set_test_flag_is_of_the_named_set(rt: HostRuntime) {
    const READS: &[Place] = &[Flag(1, Context), Flag(1, Test)];
    resolves(&rt, rt.alloc(), b"set-test s", READS, &[Flag(1, Test)]);
}

#[test]
fn a_whole_move_does_not_read_its_destination(rt: HostRuntime) {
    let text = b"u-move-always-1L c a 16";
    resolves(&rt, rt.alloc(), text, &[Field(0)], &[Field(2)]);
}

#[test]
fn a_move_of_some_bits_reads_its_destination(rt: HostRuntime) {
    let text = b"u-move-always-1L a c 15";
    resolves(&rt, rt.alloc(), text, &[Field(0), Field(2)], &[Field(0)]);
}

#[test]
fn context_is_read_where_it_is_kept(rt: HostRuntime) {
    const READS: &[Place] = &[Field(3), Flag(1, Context)];
    const WRITES: &[Place] = &[Flag(1, Context)];
    resolves(&rt, rt.alloc(), b"logand-context f", READS, WRITES);
}

#[test]
fn a_get_from_news_reads_context(rt: HostRuntime) {
    const READS: &[Place] = &[Field(0), Field(2), Flag(1, Context)];
    let text = b"get-from-news-1L c a 1 upward 16";
    resolves(&rt, rt.alloc(), text, READS, &[Field(2)]);
}

#[test]
fn a_scan_reads_its_segments(rt: HostRuntime) {
    const READS: &[Place] = &[
        Field(0),
        Field(2),
        Field(3),
        Flag(1, Context),
        Flag(1, Overflow),
    ];
    const WRITES: &[Place] = &[Field(2), Flag(1, Overflow)];
    let text = b"scan-with-u-add-1L c a 0 16 upward inclusive f";
    resolves(&rt, rt.alloc(), text, READS, WRITES);
}

#[test]
fn a_send_writes_its_notify_field(rt: HostRuntime) {
    const READS: &[Place] = &[Field(0), Field(1), Field(2), Field(3), Flag(1, Context)];
    const WRITES: &[Place] = &[Field(2), Field(3)];
    resolves(&rt, rt.alloc(), b"send-1L c b a 16 f", READS, WRITES);
}

#[test]
fn each_fault_is_answered(rt: HostRuntime) {
    const REFUSED: &[(Text, Fault)] = &[
        (b"set-test a", Fault::NoSet),
        (b"u-add-carry-3-1L x a b 8", Fault::NoField),
        (b"u-add-carry-3-1L a b d 8", Fault::WrongSet),
        (b"get-from-news-1L a b 2 upward 8", Fault::BadAxis),
        (b"u-add-carry-3-1L a b c 17", Fault::BadLength),
        (b"load-test a", Fault::BadOperand),
        (b"send-1L f b a 1 f", Fault::Overlap),
    ];
    refuses(&rt, rt.alloc(), REFUSED);
}

#[test]
fn the_first_of_two_faults_is_answered(rt: HostRuntime) {
    const REFUSED: &[(Text, Fault)] = &[
        (b"u-add-carry-3-1L d a x 8", Fault::NoField),
        (b"get-from-news-1L d a 2 upward 8", Fault::WrongSet),
        (b"get-from-news-1L a b 2 upward 0", Fault::BadAxis),
        (
            b"scan-with-u-add-1L a b 0 0 upward inclusive c",
            Fault::BadLength,
        ),
        (b"send-1L a b c 8 a", Fault::BadOperand),
    ];
    refuses(&rt, rt.alloc(), REFUSED);
}
