//! The operations on fields, and a run of one.

ghost use Rattle.std.specs.Prelude.{◌≡◌, ◌<◌, ◌≤◌, IfOk, length};

use paris_alu::{
    BitOperator, Extremum, Overflowing, Sum, add, compare, extend, extreme, invert, logic, negate,
    subtract,
};
use paris_field::FieldValue;
use paris_layer::Layer;
use paris_model::{Comparison, Sign};
use paris_muldiv::{multiply, remainder, truncate};
use std::alloc::{AllocError, Global};
use std::process::Abort;
use std::test::Fail;

/// What is done to two fields.
#[derive(Clone, Copy, Debug)]
pub(crate) enum Operation {
    Multiply(Sign),
    Truncate,
    Remainder,
    Add(Sign),
    Subtract(Sign),
    /// The carry of an unsigned sum.
    Carry,
    /// The borrow of an unsigned difference.
    Borrow,
    Logic(BitOperator),
    Extreme(Extremum, Sign),
    Compare(Comparison),
    Negate,
    Invert,
    /// The first field as numbers of 128 bits.
    Extend(Sign),
    /// The first field as numbers of half as many bits.
    Shorten(Sign),
}

/// Half as many bits, and one more where they are odd.
pub(crate) fn half(bits: u64) -> u64
    requires { 0 < bits }
    ensures some { 0 < result }
    ensures within { result ≤ bits }
{
    bits - bits / 2
}

/// A value that never overflows.
fn sound(value: FieldValue) -> Overflowing {
    let overflow = Layer::filled(false, value.len());
    Overflowing { value, overflow }
}

fn of_layer(alloc: Global, layer: Layer) -> Result<Overflowing, AllocError> {
    Ok(sound(FieldValue::from_layer(alloc, layer)?))
}

fn overflowing(sum: Sum) -> Overflowing {
    Overflowing {
        value: sum.value,
        overflow: sum.overflow,
    }
}

impl Operation {
    /// What the call makes of the low `bits` bits.
    fn run(
        self,
        alloc: Global,
        x: &FieldValue,
        y: &FieldValue,
        bits: u64,
    ) -> Result<Overflowing, AllocError>
        requires positive { 0 < bits }
        requires narrow { bits ≤ 128 }
        requires x_width { bits ≤ x.now.width }
        requires y_width { bits ≤ y.now.width }
        requires same { length x.now.numbers ≡ length y.now.numbers }
    {
        match self {
            Operation::Multiply(sign) => multiply(alloc, sign, x, y, bits),
            Operation::Truncate => truncate(alloc, x, y, bits),
            Operation::Remainder => remainder(alloc, x, y, bits),
            Operation::Add(sign) => Ok(overflowing(add(alloc, sign, x, y, bits)?)),
            Operation::Subtract(sign) => Ok(overflowing(subtract(alloc, sign, x, y, bits)?)),
            Operation::Carry => of_layer(alloc, add(alloc, Sign::Unsigned, x, y, bits)?.carry),
            Operation::Borrow => {
                of_layer(alloc, subtract(alloc, Sign::Unsigned, x, y, bits)?.carry)
            }
            Operation::Logic(operator) => Ok(sound(logic(alloc, operator, x, y, bits)?)),
            Operation::Extreme(which, sign) => {
                Ok(sound(extreme(alloc, which, sign, x, y, bits)?))
            }
            Operation::Compare(comparison) => {
                of_layer(alloc, compare(alloc, comparison, x, y, bits)?)
            }
            Operation::Negate => negate(alloc, x, bits),
            Operation::Invert => Ok(sound(invert(alloc, x, bits)?)),
            Operation::Extend(sign) => extend(alloc, sign, x, bits, 128),
            Operation::Shorten(sign) => extend(alloc, sign, x, bits, half(bits)),
        }
    }
}

/// The results and where they overflow, one number each for every processor.
#[derive(Drop)]
pub(crate) struct Outcome {
    pub(crate) values: Vec<u128>,
    pub(crate) overflow: Vec<u128>,
}

/// The field of these numbers.
fn field_of(
    rt: &impl Abort,
    alloc: Global,
    width: u64,
    numbers: &[u128],
) -> Result<FieldValue, Fail>
    requires { width ≤ 128 }
    ensures width { IfOk result (λ value. value.width ≡ width) }
    ensures count { IfOk result (λ value. length value.numbers ≡ length numbers.now) }
{
    assert!(rt; FieldValue::first_too_wide(width, numbers).is_none());
    let value = FieldValue::from_numbers(alloc, width, numbers)?;
    Ok(value)
}

/// Runs an operation on the low `bits` bits of numbers of `width` bits.
pub(crate) fn outcome_of(
    rt: &impl Abort,
    alloc: Global,
    operation: Operation,
    width: u64,
    bits: u64,
    x: &[u128],
    y: &[u128],
) -> Result<Outcome, Fail>
    requires positive { 0 < bits }
    requires within { bits ≤ width }
    requires narrow { width ≤ 128 }
    requires same { length x.now ≡ length y.now }
{
    let x = field_of(rt, alloc, width, x)?;
    let y = field_of(rt, alloc, width, y)?;
    let made = operation.run(alloc, &x, &y, bits)?;
    let overflow = FieldValue::from_layer(alloc, made.overflow)?;
    Ok(Outcome {
        values: made.value.numbers()?,
        overflow: overflow.numbers()?,
    })
}
