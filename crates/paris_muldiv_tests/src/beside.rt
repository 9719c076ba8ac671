//! Each operation on fields beside the same on the numbers of each processor.

ghost use Rattle.std.specs.Prelude.{◌≡◌, ◌<◌, ◌≤◌, length};

use crate::cases::{SIZES, numbers, rounds, word};
use crate::operations::{Operation, Outcome, half, outcome_of};
use paris_alu::{BitOperator, Extremum};
use paris_model::{Comparison, Sign};
use std::alloc::Global;
use std::process::Abort;
use std::test::Fail;

const OPERATIONS: &[Operation] = &[
    Operation::Multiply(Sign::Unsigned),
    Operation::Multiply(Sign::Signed),
    Operation::Truncate,
    Operation::Remainder,
    Operation::Add(Sign::Unsigned),
    Operation::Add(Sign::Signed),
    Operation::Subtract(Sign::Unsigned),
    Operation::Subtract(Sign::Signed),
    Operation::Carry,
    Operation::Borrow,
    Operation::Logic(BitOperator::And),
    Operation::Logic(BitOperator::Or),
    Operation::Logic(BitOperator::Xor),
    Operation::Extreme(Extremum::Maximum, Sign::Unsigned),
    Operation::Extreme(Extremum::Maximum, Sign::Signed),
    Operation::Extreme(Extremum::Minimum, Sign::Unsigned),
    Operation::Extreme(Extremum::Minimum, Sign::Signed),
    Operation::Compare(Comparison::Equal),
    Operation::Compare(Comparison::NotEqual),
    Operation::Compare(Comparison::Less(Sign::Unsigned)),
    Operation::Compare(Comparison::Less(Sign::Signed)),
    Operation::Compare(Comparison::LessOrEqual(Sign::Unsigned)),
    Operation::Compare(Comparison::LessOrEqual(Sign::Signed)),
    Operation::Compare(Comparison::Greater(Sign::Unsigned)),
    Operation::Compare(Comparison::Greater(Sign::Signed)),
    Operation::Compare(Comparison::GreaterOrEqual(Sign::Unsigned)),
    Operation::Compare(Comparison::GreaterOrEqual(Sign::Signed)),
    Operation::Negate,
    Operation::Invert,
    Operation::Extend(Sign::Unsigned),
    Operation::Extend(Sign::Signed),
    Operation::Shorten(Sign::Unsigned),
    Operation::Shorten(Sign::Signed),
];

/// What is named where a call fails.
#[derive(Clone, Copy, Debug)]
struct Case {
    operation: Operation,
    count: usize,
    width: u64,
    bits: u64,
}

/// Whether each processor has what comes of its numbers.
fn agrees(rt: &impl Abort, case: &Case, x: &[u128], y: &[u128], made: &Outcome)
    requires positive { 0 < case.now.bits }
    requires narrow { case.now.bits ≤ 128 }
{
    let pairs = x.iter().zip(y.iter());
    let results = made.values.iter().zip(made.overflow.iter());
    for ((x, y), (value, overflow)) in pairs.zip(results) {
        let (expected, overflows) = case.operation.expected(case.bits, *x, *y);
        assert_eq!(rt; *value, expected, "value of {x} and {y} in {case:?}");
        assert_eq!(rt; *overflow, overflows, "overflow of {x} and {y} in {case:?}");
    }
}

/// Whether it is an operation's turn on a set of this many processors: always, but on a small set, of which numbers are made often, in
/// one turn of four, and on a large one in one of eight.
fn is_run(number: usize, count: usize, turn: usize) -> bool {
    if count < 32 {
        number % 4 == turn % 4
    } else if count < 1024 {
        true
    } else {
        number % 8 == turn % 8
    }
}

/// Runs the operations whose turn it is on the low `bits` bits of the numbers.
fn run_short(
    rt: &impl Abort,
    alloc: Global,
    turn: usize,
    width: u64,
    bits: u64,
    x: &[u128],
    y: &[u128],
) -> Result<(), Fail>
    requires positive { 0 < bits }
    requires within { bits ≤ width }
    requires narrow { width ≤ 128 }
    requires same { length x.now ≡ length y.now }
{
    for (number, operation) in OPERATIONS.iter().enumerate() {
        if !is_run(number, x.len(), turn) {
            continue;
        }
        let made = outcome_of(rt, alloc, *operation, width, bits, x, y)?;
        assert_eq!(rt; made.values.len(), x.len());
        assert_eq!(rt; made.overflow.len(), x.len());
        let case = Case {
            operation: *operation,
            count: x.len(),
            width,
            bits,
        };
        agrees(rt, &case, x, y, &made);
    }
    Ok(())
}

/// Runs the operations on whole numbers, and on the low half of their bits.
fn run(rt: &impl Abort, alloc: Global, turn: usize, count: usize, width: u64) -> Result<(), Fail>
    requires positive { 0 < width }
    requires narrow { width ≤ 128 }
{
    for round in 0..rounds(count) {
        let seed = word(count as u64, round.wrapping_mul(1000).wrapping_add(width));
        let x = numbers(alloc, width, word(seed, 1), count)?;
        let y = numbers(alloc, width, word(seed, 2), count)?;
        let turn = turn.wrapping_add(round as usize);
        run_short(rt, alloc, turn, width, width, &x, &y)?;
        run_short(rt, alloc, turn, width, half(width), &x, &y)?;
    }
    Ok(())
}

#[test]
fn fields_hold_what_comes_of_each_pair_of_numbers(rt: HostRuntime) -> Result<(), Fail> {
    for (turn, (count, width)) in SIZES.iter().enumerate() {
        assert!(rt; 0 < *width && *width <= 128);
        run(&rt, rt.alloc(), turn, *count, *width)?;
    }
    Ok(())
}
