//! Operators on operands of a length in bits, in one processor.

ghost use Rattle.std.specs.Prelude.{◌≡◌, ◌<◌, ◌≤◌, ◌==◌, ◌^◌, ◌*ℤ◌, if◌then◌else◌};
ghost use Rattle.paris_model.specs.Store.{signed};
ghost use Rattle.paris_model.specs.Elementwise.{is_less, greater, lesser, binary_result, binary_carry, binary_overflow, unary_result, unary_overflow, resize_result, resize_overflow, compares};
ghost use Rattle.paris_names.specs.declared.limits.TheConstants.{MAX_WIDTH_OF_ONE};

use crate::bits::{is_outside, low_bits, low_signed_bits, power, signed_value};
use paris_model::{BinaryOperator, Comparison, Sign, UnaryOperator};

/// Whether a number is less than another.
fn is_less(sign: Sign, length: u64, x: u128, y: u128) -> bool
    requires positive { 0 < length }
    requires narrow { length ≤ MAX_WIDTH_OF_ONE }
    requires x_fits { x < 2 ^ length }
    requires y_fits { y < 2 ^ length }
    ensures { result ≡ is_less sign length x y }
{
    match sign {
        Sign::Unsigned => x < y,
        Sign::Signed => signed_value(length, x) < signed_value(length, y),
    }
}

/// The product of two numbers, read as two's complement.
fn signed_product(length: u64, x: u128, y: u128) -> i128
    requires positive { 0 < length }
    requires narrow { length ≤ MAX_WIDTH_OF_ONE }
    requires x_fits { x < 2 ^ length }
    requires y_fits { y < 2 ^ length }
    ensures { result ≡ signed length x *ℤ signed length y }
{
    signed_value(length, x) * signed_value(length, y)
}

/// The result of an operator, where the carry flag and the destination were `carry` and `old`.
pub(crate) fn binary_value(
    operator: BinaryOperator,
    length: u64,
    x: u128,
    y: u128,
    carry: u128,
    old: u128,
) -> u128
    requires positive { 0 < length }
    requires narrow { length ≤ MAX_WIDTH_OF_ONE }
    requires x_fits { x < 2 ^ length }
    requires y_fits { y < 2 ^ length }
    requires carry_fits { carry < 2 }
    ensures { result ≡ binary_result operator length x y carry old }
{
    match operator {
        BinaryOperator::UnsignedAdd | BinaryOperator::SignedAdd => x + y,
        BinaryOperator::UnsignedAddCarry => x + y + carry,
        BinaryOperator::UnsignedSubtract | BinaryOperator::SignedSubtract => {
            x + (power(length) - y)
        }
        BinaryOperator::UnsignedMultiply => x * y,
        BinaryOperator::SignedMultiply => low_signed_bits(length, signed_product(length, x, y)),
        BinaryOperator::Truncate => { if y == 0 { old } else { x / y } }
        BinaryOperator::Remainder => { if y == 0 { old } else { x % y } }
        BinaryOperator::Maximum(sign) => { if is_less(sign, length, x, y) { y } else { x } }
        BinaryOperator::Minimum(sign) => { if is_less(sign, length, y, x) { y } else { x } }
        BinaryOperator::BitAnd => x & y,
        BinaryOperator::BitOr => x | y,
        BinaryOperator::BitXor => x ^ y,
    }
}

/// Whether an operator carries, or borrows.
pub(crate) fn binary_carries(
    operator: BinaryOperator,
    length: u64,
    x: u128,
    y: u128,
    carry: u128,
) -> bool
    requires narrow { length ≤ MAX_WIDTH_OF_ONE }
    requires x_fits { x < 2 ^ length }
    requires y_fits { y < 2 ^ length }
    requires carry_fits { carry < 2 }
    ensures { result ≡ binary_carry operator length x y carry }
{
    match operator {
        BinaryOperator::UnsignedAdd | BinaryOperator::SignedAdd => x + y >= power(length),
        BinaryOperator::UnsignedAddCarry => x + y + carry >= power(length),
        BinaryOperator::UnsignedSubtract | BinaryOperator::SignedSubtract => x < y,
        BinaryOperator::UnsignedMultiply
        | BinaryOperator::SignedMultiply
        | BinaryOperator::Truncate
        | BinaryOperator::Remainder
        | BinaryOperator::Maximum(_)
        | BinaryOperator::Minimum(_)
        | BinaryOperator::BitAnd
        | BinaryOperator::BitOr
        | BinaryOperator::BitXor => false,
    }
}

/// Whether the exact result of an operator needs more bits, or there is none.
pub(crate) fn binary_overflows(
    operator: BinaryOperator,
    length: u64,
    x: u128,
    y: u128,
    carry: u128,
) -> bool
    requires positive { 0 < length }
    requires narrow { length ≤ MAX_WIDTH_OF_ONE }
    requires x_fits { x < 2 ^ length }
    requires y_fits { y < 2 ^ length }
    requires carry_fits { carry < 2 }
    ensures { result ≡ binary_overflow operator length x y carry }
{
    match operator {
        BinaryOperator::UnsignedAdd => x + y >= power(length),
        BinaryOperator::UnsignedAddCarry => x + y + carry >= power(length),
        BinaryOperator::UnsignedSubtract => x < y,
        BinaryOperator::SignedAdd => {
            is_outside(length, signed_value(length, x) + signed_value(length, y))
        }
        BinaryOperator::SignedSubtract => {
            is_outside(length, signed_value(length, x) - signed_value(length, y))
        }
        BinaryOperator::UnsignedMultiply => x * y >= power(length),
        BinaryOperator::SignedMultiply => is_outside(length, signed_product(length, x, y)),
        BinaryOperator::Truncate | BinaryOperator::Remainder => y == 0,
        BinaryOperator::Maximum(_)
        | BinaryOperator::Minimum(_)
        | BinaryOperator::BitAnd
        | BinaryOperator::BitOr
        | BinaryOperator::BitXor => false,
    }
}

/// The result of an operator on one operand.
pub(crate) fn unary_value(operator: UnaryOperator, length: u64, x: u128) -> u128
    requires narrow { length ≤ MAX_WIDTH_OF_ONE }
    requires x_fits { x < 2 ^ length }
    ensures { result ≡ unary_result operator length x }
{
    match operator {
        UnaryOperator::Negate => power(length) - x,
        UnaryOperator::BitNot => power(length) - 1 - x,
        UnaryOperator::Move => x,
    }
}

/// Whether the exact result of an operator on one operand needs more bits.
pub(crate) fn unary_overflows(operator: UnaryOperator, length: u64, x: u128) -> bool
    requires positive { 0 < length }
    requires narrow { length ≤ MAX_WIDTH_OF_ONE }
    ensures { result ≡ unary_overflow operator length x }
{
    match operator {
        UnaryOperator::Negate => x == power(length - 1),
        UnaryOperator::BitNot | UnaryOperator::Move => false,
    }
}

/// A number of `from_length` bits as one of `length` bits.
pub(crate) fn resized(sign: Sign, length: u64, from_length: u64, x: u128) -> u128
    requires narrow { length ≤ MAX_WIDTH_OF_ONE }
    requires from_some { 0 < from_length }
    requires from_short { from_length ≤ MAX_WIDTH_OF_ONE }
    requires x_fits { x < 2 ^ from_length }
    ensures { result ≡ resize_result sign length from_length x }
{
    match sign {
        Sign::Unsigned => low_bits(length, x),
        Sign::Signed => low_signed_bits(length, signed_value(from_length, x)),
    }
}

/// Whether a number of `from_length` bits needs more than `length` bits.
pub(crate) fn resize_overflows(sign: Sign, length: u64, from_length: u64, x: u128) -> bool
    requires positive { 0 < length }
    requires narrow { length ≤ MAX_WIDTH_OF_ONE }
    requires from_some { 0 < from_length }
    requires from_short { from_length ≤ MAX_WIDTH_OF_ONE }
    requires x_fits { x < 2 ^ from_length }
    ensures { result ≡ resize_overflow sign length from_length x }
{
    match sign {
        Sign::Unsigned => x >= power(length),
        Sign::Signed => is_outside(length, signed_value(from_length, x)),
    }
}

/// Whether two numbers compare so.
pub(crate) fn compare(comparison: Comparison, length: u64, x: u128, y: u128) -> bool
    requires positive { 0 < length }
    requires narrow { length ≤ MAX_WIDTH_OF_ONE }
    requires x_fits { x < 2 ^ length }
    requires y_fits { y < 2 ^ length }
    ensures { result ≡ compares comparison length x y }
{
    match comparison {
        Comparison::Equal => x == y,
        Comparison::NotEqual => x != y,
        Comparison::Less(sign) => is_less(sign, length, x, y),
        Comparison::LessOrEqual(sign) => !is_less(sign, length, y, x),
        Comparison::Greater(sign) => is_less(sign, length, y, x),
        Comparison::GreaterOrEqual(sign) => !is_less(sign, length, x, y),
    }
}
