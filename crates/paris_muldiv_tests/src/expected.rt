//! The operations on two numbers, by the machine's own arithmetic.

ghost use Rattle.std.specs.Prelude.{◌<◌, ◌≤◌};

use crate::operations::{Operation, half};
use paris_alu::{BitOperator, Extremum};
use paris_model::{Comparison, Sign};

/// The numbers of this many bits have these bits.
pub(crate) fn mask(bits: u64) -> u128
    requires positive { 0 < bits }
    requires narrow { bits ≤ 128 }
{
    u128::MAX >> (128 - bits)
}

fn unsigned_product(bits: u64, x: u128, y: u128) -> (u128, u128)
    requires positive { 0 < bits }
    requires narrow { bits ≤ 128 }
{
    match x.checked_mul(y) {
        Some(product) => (product & mask(bits), u128::from(product > mask(bits))),
        None => (x.wrapping_mul(y) & mask(bits), 1),
    }
}

/// A number of this many bits, with its top bit in all bits above.
fn extended(bits: u64, x: u128) -> i128
    requires positive { 0 < bits }
    requires narrow { bits ≤ 128 }
{
    (x << (128 - bits)).cast_signed() >> (128 - bits)
}

fn signed_product(bits: u64, x: u128, y: u128) -> (u128, u128)
    requires positive { 0 < bits }
    requires narrow { bits ≤ 128 }
{
    let x = extended(bits, x);
    let y = extended(bits, y);
    let low = x.wrapping_mul(y).cast_unsigned() & mask(bits);
    match x.checked_mul(y) {
        Some(product) => (low, u128::from(product != extended(bits, low))),
        None => (low, 1),
    }
}

fn unsigned_sum(bits: u64, x: u128, y: u128) -> (u128, u128)
    requires positive { 0 < bits }
    requires narrow { bits ≤ 128 }
{
    match x.checked_add(y) {
        Some(sum) => (sum & mask(bits), u128::from(sum > mask(bits))),
        None => (x.wrapping_add(y) & mask(bits), 1),
    }
}

/// The low bits of a signed result, and whether it is another number than they are. `None` is a result of more than 128 bits.
fn signed_result(bits: u64, low: i128, exact: Option<i128>) -> (u128, u128)
    requires positive { 0 < bits }
    requires narrow { bits ≤ 128 }
{
    let low = low.cast_unsigned() & mask(bits);
    match exact {
        Some(exact) => (low, u128::from(exact != extended(bits, low))),
        None => (low, 1),
    }
}

fn signed_sum(bits: u64, x: u128, y: u128) -> (u128, u128)
    requires positive { 0 < bits }
    requires narrow { bits ≤ 128 }
{
    let x = extended(bits, x);
    let y = extended(bits, y);
    signed_result(bits, x.wrapping_add(y), x.checked_add(y))
}

fn signed_difference(bits: u64, x: u128, y: u128) -> (u128, u128)
    requires positive { 0 < bits }
    requires narrow { bits ≤ 128 }
{
    let x = extended(bits, x);
    let y = extended(bits, y);
    signed_result(bits, x.wrapping_sub(y), x.checked_sub(y))
}

/// Whether the first number is less.
fn is_less(bits: u64, sign: Sign, x: u128, y: u128) -> bool
    requires positive { 0 < bits }
    requires narrow { bits ≤ 128 }
{
    match sign {
        Sign::Unsigned => x < y,
        Sign::Signed => extended(bits, x) < extended(bits, y),
    }
}

fn extreme_of(bits: u64, which: Extremum, sign: Sign, x: u128, y: u128) -> u128
    requires positive { 0 < bits }
    requires narrow { bits ≤ 128 }
{
    let less = is_less(bits, sign, x, y);
    match (which, less) {
        (Extremum::Maximum, true) | (Extremum::Minimum, false) => y,
        (Extremum::Maximum, false) | (Extremum::Minimum, true) => x,
    }
}

fn compares(bits: u64, comparison: Comparison, x: u128, y: u128) -> bool
    requires positive { 0 < bits }
    requires narrow { bits ≤ 128 }
{
    match comparison {
        Comparison::Equal => x == y,
        Comparison::NotEqual => x != y,
        Comparison::Less(sign) => is_less(bits, sign, x, y),
        Comparison::LessOrEqual(sign) => !is_less(bits, sign, y, x),
        Comparison::Greater(sign) => is_less(bits, sign, y, x),
        Comparison::GreaterOrEqual(sign) => !is_less(bits, sign, x, y),
    }
}

fn logic_of(operator: BitOperator, x: u128, y: u128) -> u128 {
    match operator {
        BitOperator::And => x & y,
        BitOperator::Or => x | y,
        BitOperator::Xor => x ^ y,
    }
}

fn extended_to(bits: u64, sign: Sign, x: u128) -> u128
    requires positive { 0 < bits }
    requires narrow { bits ≤ 128 }
{
    match sign {
        Sign::Unsigned => x,
        Sign::Signed => extended(bits, x).cast_unsigned(),
    }
}

/// A number of `bits` bits as one of half as many, and whether it is another number then.
fn shortened(bits: u64, sign: Sign, x: u128) -> (u128, u128)
    requires positive { 0 < bits }
    requires narrow { bits ≤ 128 }
{
    let to = half(bits);
    let low = x & mask(to);
    let same = extended_to(to, sign, low) == extended_to(bits, sign, x);
    (low, u128::from(!same))
}

impl Operation {
    /// What comes of the low `bits` bits of two numbers, and whether it overflows.
    pub(crate) fn expected(self, bits: u64, x: u128, y: u128) -> (u128, u128)
        requires positive { 0 < bits }
        requires narrow { bits ≤ 128 }
    {
        let x = x & mask(bits);
        let y = y & mask(bits);
        match self {
            Operation::Multiply(Sign::Unsigned) => unsigned_product(bits, x, y),
            Operation::Multiply(Sign::Signed) => signed_product(bits, x, y),
            Operation::Truncate => x.checked_div(y).map_or((0, 1), |quotient| (quotient, 0)),
            Operation::Remainder => x.checked_rem(y).map_or((0, 1), |rest| (rest, 0)),
            Operation::Add(Sign::Unsigned) => unsigned_sum(bits, x, y),
            Operation::Add(Sign::Signed) => signed_sum(bits, x, y),
            Operation::Subtract(Sign::Unsigned) => {
                (x.wrapping_sub(y) & mask(bits), u128::from(x < y))
            }
            Operation::Subtract(Sign::Signed) => signed_difference(bits, x, y),
            Operation::Carry => (unsigned_sum(bits, x, y).1, 0),
            Operation::Borrow => (u128::from(x < y), 0),
            Operation::Logic(operator) => (logic_of(operator, x, y), 0),
            Operation::Extreme(which, sign) => (extreme_of(bits, which, sign, x, y), 0),
            Operation::Compare(comparison) => { (u128::from(compares(bits, comparison, x, y)), 0) }
            Operation::Negate => signed_difference(bits, 0, x),
            Operation::Invert => (!x & mask(bits), 0),
            Operation::Extend(sign) => (extended_to(bits, sign, x), 0),
            Operation::Shorten(sign) => shortened(bits, sign, x),
        }
    }
}
