//! The tests, each over all sizes.

ghost use Rattle.std.specs.Prelude.{◌<◌, ◌≤◌};

use crate::cases::{SIZES, rounds, sample_of, square};
use crate::{arithmetic, fields, planes, steps};
use std::alloc::Global;
use std::process::Abort;
use std::test::Fail;

/// Which calls are run.
#[derive(Clone, Copy)]
enum Calls {
    Arithmetic,
    Fields,
    Planes,
    Steps,
}

/// Runs the calls on each sample of a size.
fn run_at(
    rt: &impl Abort,
    alloc: Global,
    calls: Calls,
    count: usize,
    width: u64,
) -> Result<(), Fail>
    requires positive { 0 < width }
    requires narrow { width ≤ 64 }
{
    for round in 0..rounds(count) {
        let sample = sample_of(alloc, count, width, round)?;
        match calls {
            Calls::Arithmetic => arithmetic::run(rt, alloc, &sample)?,
            Calls::Fields => fields::run(rt, alloc, &sample)?,
            Calls::Planes => planes::run(rt, alloc, &sample)?,
            Calls::Steps => steps::run(rt, alloc, &sample)?,
        }
    }
    Ok(())
}

fn run(rt: &impl Abort, alloc: Global, calls: Calls) -> Result<(), Fail> {
    for (count, width) in SIZES {
        assert!(rt; 0 < *width && *width <= 64);
        run_at(rt, alloc, calls, *count, *width)?;
    }
    Ok(())
}

#[test]
fn arithmetic_leaves_what_the_plain_program_leaves(rt: HostRuntime) -> Result<(), Fail> {
    run(&rt, rt.alloc(), Calls::Arithmetic)
}

#[test]
fn fields_hold_what_the_plain_program_leaves(rt: HostRuntime) -> Result<(), Fail> {
    run(&rt, rt.alloc(), Calls::Fields)
}

#[test]
fn planes_hold_what_the_plain_program_leaves(rt: HostRuntime) -> Result<(), Fail> {
    run(&rt, rt.alloc(), Calls::Planes)
}

#[test]
fn steps_leave_the_flags_of_the_plain_program(rt: HostRuntime) -> Result<(), Fail> {
    run(&rt, rt.alloc(), Calls::Steps)
}

#[test]
fn squares_are_turned(rt: HostRuntime) {
    for round in 0..64 {
        fields::turns(&rt, &square(round));
    }
}
