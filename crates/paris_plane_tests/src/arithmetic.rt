//! Arithmetic on planes beside the instructions of the same operators.

ghost use Rattle.std.specs.Prelude.{◌≡◌, ◌<◌, ◌≤◌, ℕ, List, length};
ghost use Rattle.paris_plain.specs.Narrow.{IsNarrow};

use crate::beside::{self, Made, agrees, alone, destination, flag, seen_by_all, with, with_carry};
use crate::cases::{Sample, layer};
use paris_alu::{
    BitOperator, Extremum, Overflowing, Sum, add, add_carry, compare, copy_low, extend, extreme,
    invert, logic, negate, subtract,
};
use paris_field::FieldValue;
use paris_layer::Layer;
use paris_model::{Action, BinaryOperator, Comparison, Operand, Sign, UnaryOperator};
use paris_names::{FlagName, SetNo};
use paris_plain::Inputs;
use std::alloc::{AllocError, Global};
use std::process::Abort;
use std::test::Fail;

/// A call of arithmetic.
#[derive(Clone, Copy, Debug)]
enum Operation {
    Add(Sign),
    AddCarry,
    Subtract(Sign),
    Logic(BitOperator),
    Extreme(Extremum, Sign),
    Compare(Comparison),
    Negate,
    Invert,
    CopyLow,
    /// To a number of this many bits.
    Extend(Sign, Extent),
}

/// How many bits a number is extended to.
#[derive(Clone, Copy, Debug)]
enum Extent {
    One,
    Seven,
    Eight,
    Word,
}

impl Extent {
    fn length(self) -> u64
        ensures positive { 0 < result }
        ensures narrow { result ≤ 64 }
    {
        match self {
            Extent::One => 1,
            Extent::Seven => 7,
            Extent::Eight => 8,
            Extent::Word => 64,
        }
    }
}

const OPERATIONS: &[Operation] = &[
    Operation::Add(Sign::Unsigned),
    Operation::Add(Sign::Signed),
    Operation::AddCarry,
    Operation::Subtract(Sign::Unsigned),
    Operation::Subtract(Sign::Signed),
    Operation::Logic(BitOperator::And),
    Operation::Logic(BitOperator::Or),
    Operation::Logic(BitOperator::Xor),
    Operation::Extreme(Extremum::Maximum, Sign::Unsigned),
    Operation::Extreme(Extremum::Maximum, Sign::Signed),
    Operation::Extreme(Extremum::Minimum, Sign::Unsigned),
    Operation::Extreme(Extremum::Minimum, Sign::Signed),
    Operation::Compare(Comparison::Equal),
    Operation::Compare(Comparison::NotEqual),
    Operation::Compare(Comparison::Less(Sign::Unsigned)),
    Operation::Compare(Comparison::Less(Sign::Signed)),
    Operation::Compare(Comparison::LessOrEqual(Sign::Unsigned)),
    Operation::Compare(Comparison::LessOrEqual(Sign::Signed)),
    Operation::Compare(Comparison::Greater(Sign::Unsigned)),
    Operation::Compare(Comparison::Greater(Sign::Signed)),
    Operation::Compare(Comparison::GreaterOrEqual(Sign::Unsigned)),
    Operation::Compare(Comparison::GreaterOrEqual(Sign::Signed)),
    Operation::Negate,
    Operation::Invert,
    Operation::CopyLow,
    Operation::Extend(Sign::Unsigned, Extent::One),
    Operation::Extend(Sign::Signed, Extent::One),
    Operation::Extend(Sign::Unsigned, Extent::Seven),
    Operation::Extend(Sign::Signed, Extent::Seven),
    Operation::Extend(Sign::Unsigned, Extent::Eight),
    Operation::Extend(Sign::Signed, Extent::Eight),
    Operation::Extend(Sign::Unsigned, Extent::Word),
    Operation::Extend(Sign::Signed, Extent::Word),
];

/// The operands of a sample as layers.
#[derive(Drop)]
struct Operands {
    width: u64,
    left: FieldValue,
    right: FieldValue,
    carry: Layer,
    ghost some: { 0 < width },
    ghost short: { width ≤ 64 },
    ghost left_width: { left.width ≡ width },
    ghost right_width: { right.width ≡ width },
    ghost same: { length left.numbers ≡ length right.numbers },
    ghost carries: { length carry ≡ length left.numbers },
}

fn operands_of(alloc: Global, sample: &Sample) -> Result<Operands, AllocError> {
    Ok(Operands {
        width: sample.width,
        left: FieldValue::from_numbers(alloc, sample.width, sample.left.as_slice())?,
        right: FieldValue::from_numbers(alloc, sample.width, sample.right.as_slice())?,
        carry: layer(alloc, sample.carry.as_slice())?,
    })
}

/// A value for the destination.
fn stored(alloc: Global, value: Result<FieldValue, AllocError>) -> Result<Made, AllocError> {
    alone(alloc, destination(), value?)
}

fn sum_made(alloc: Global, sum: Result<Sum, AllocError>) -> Result<Made, AllocError> {
    let sum = sum?;
    let overflow = FieldValue::from_layer(alloc, sum.overflow)?;
    let made = with_carry(alloc, sum.value, sum.carry)?;
    with(made, flag(FlagName::Overflow), overflow)
}

fn overflowing_made(
    alloc: Global,
    checked: Result<Overflowing, AllocError>,
) -> Result<Made, AllocError> {
    let checked = checked?;
    let overflow = FieldValue::from_layer(alloc, checked.overflow)?;
    let made = alone(alloc, destination(), checked.value)?;
    with(made, flag(FlagName::Overflow), overflow)
}

fn test_made(alloc: Global, test: Result<Layer, AllocError>) -> Result<Made, AllocError> {
    let value = FieldValue::from_layer(alloc, test?)?;
    alone(alloc, flag(FlagName::Test), value)
}

impl Operation {
    /// What the call makes of the low `length` bits.
    fn made(self, alloc: Global, operands: &Operands, length: u64) -> Result<Made, AllocError>
        requires positive { 0 < length }
        requires within { length ≤ operands.now.width }
    {
        let x = &operands.left;
        let y = &operands.right;
        match self {
            Operation::Add(sign) => sum_made(alloc, add(alloc, sign, x, y, length)),
            Operation::AddCarry => sum_made(alloc, add_carry(alloc, x, y, &operands.carry, length)),
            Operation::Subtract(sign) => sum_made(alloc, subtract(alloc, sign, x, y, length)),
            Operation::Logic(operator) => stored(alloc, logic(alloc, operator, x, y, length)),
            Operation::Extreme(which, sign) => {
                stored(alloc, extreme(alloc, which, sign, x, y, length))
            }
            Operation::Compare(comparison) => {
                test_made(alloc, compare(alloc, comparison, x, y, length))
            }
            Operation::Negate => overflowing_made(alloc, negate(alloc, x, length)),
            Operation::Invert => stored(alloc, invert(alloc, x, length)),
            Operation::CopyLow => stored(alloc, copy_low(alloc, x, length)),
            Operation::Extend(sign, extent) => {
                overflowing_made(alloc, extend(alloc, sign, x, length, extent.length()))
            }
        }
    }

    /// The instruction that leaves the same.
    fn action(self, length: u64) -> Action<Operand, SetNo>
        requires positive { 0 < length }
        requires narrow { length ≤ 64 }
        ensures { (axes : List ℕ) → IsNarrow axes result }
    {
        match self {
            Operation::Add(sign) => beside::binary(sum_operator(sign), length),
            Operation::AddCarry => beside::binary(BinaryOperator::UnsignedAddCarry, length),
            Operation::Subtract(sign) => beside::binary(difference_operator(sign), length),
            Operation::Logic(operator) => beside::binary(bit_operator(operator), length),
            Operation::Extreme(which, sign) => {
                beside::binary(extreme_operator(which, sign), length)
            }
            Operation::Compare(comparison) => beside::compare(comparison, length),
            Operation::Negate => beside::unary(UnaryOperator::Negate, length),
            Operation::Invert => beside::unary(UnaryOperator::BitNot, length),
            Operation::CopyLow => beside::unary(UnaryOperator::Move, length),
            Operation::Extend(sign, extent) => beside::resize(sign, extent.length(), length),
        }
    }
}

fn sum_operator(sign: Sign) -> BinaryOperator {
    match sign {
        Sign::Unsigned => BinaryOperator::UnsignedAdd,
        Sign::Signed => BinaryOperator::SignedAdd,
    }
}

fn difference_operator(sign: Sign) -> BinaryOperator {
    match sign {
        Sign::Unsigned => BinaryOperator::UnsignedSubtract,
        Sign::Signed => BinaryOperator::SignedSubtract,
    }
}

fn bit_operator(operator: BitOperator) -> BinaryOperator {
    match operator {
        BitOperator::And => BinaryOperator::BitAnd,
        BitOperator::Or => BinaryOperator::BitOr,
        BitOperator::Xor => BinaryOperator::BitXor,
    }
}

fn extreme_operator(which: Extremum, sign: Sign) -> BinaryOperator {
    match which {
        Extremum::Maximum => BinaryOperator::Maximum(sign),
        Extremum::Minimum => BinaryOperator::Minimum(sign),
    }
}

/// What is named where a call fails.
#[derive(Clone, Copy, Debug)]
struct Case {
    operation: Operation,
    count: usize,
    width: u64,
    length: u64,
}

/// Runs each operation on the low `length` bits.
fn run_short(
    rt: &impl Abort,
    alloc: Global,
    operands: &Operands,
    seen: &Inputs,
    length: u64,
) -> Result<(), Fail>
    requires positive { 0 < length }
    requires within { length ≤ operands.now.width }
{
    for operation in OPERATIONS {
        let case = Case {
            operation: *operation,
            count: operands.left.len(),
            width: operands.width,
            length,
        };
        let made = operation.made(alloc, operands, length)?;
        let action = operation.action(length);
        agrees(rt, alloc, &case, seen, &action, made.as_slice())?;
    }
    Ok(())
}

/// Runs each operation on whole numbers, and on the low half of their bits.
fn run_lengths(
    rt: &impl Abort,
    alloc: Global,
    operands: &Operands,
    seen: &Inputs,
) -> Result<(), Fail> {
    let width = operands.width;
    run_short(rt, alloc, operands, seen, width)?;
    run_short(rt, alloc, operands, seen, width - width / 2)
}

/// Runs each operation on the operands of a sample.
fn run_operands(
    rt: &impl Abort,
    alloc: Global,
    sample: &Sample,
    operands: &Operands,
) -> Result<(), Fail> {
    let seen = seen_by_all(rt, alloc, sample)?;
    run_lengths(rt, alloc, operands, &seen)
}

/// Runs each operation on a sample.
pub(crate) fn run(rt: &impl Abort, alloc: Global, sample: &Sample) -> Result<(), Fail> {
    let operands = operands_of(alloc, sample)?;
    run_operands(rt, alloc, sample, &operands)
}
