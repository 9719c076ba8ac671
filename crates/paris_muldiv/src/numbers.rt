//! Products, quotients and remainders of the numbers of one processor.

ghost use Rattle.std.specs.Prelude.{◌≡◌, ◌+◌, ◌-◌, ◌*◌, ◌/◌, ◌%◌, ◌<◌, ◌≤◌, ◌^◌, nat_le, unsigned_abs};
ghost use Rattle.paris_model.specs.declared.operators.BinaryOperator.{BinaryOperator};
ghost use Rattle.paris_model.specs.declared.operators.BinaryOperator.TheVariants.{Remainder, SignedMultiply, Truncate, UnsignedMultiply};
ghost use Rattle.paris_model.specs.Elementwise.{binary_overflow, binary_result};
ghost use Rattle.paris_model.specs.Store.{low, signed};

use crate::words::{
    absolute_word, have_unlike_signs, is_word_wide, least_outside, signed_word, word_product,
    word_reaches,
};

/// One more than the greatest word.
const WORD: u128 = 1 << 64;

/// What an operator makes of two numbers of `bits` bits: the result, of which the low `bits` bits count, and whether it overflows.
pub(crate) trait NumberOp {
    ghost operator: { BinaryOperator };

    fn apply(bits: u64, x: u128, y: u128) -> (u128, bool)
        requires positive { 0 < bits }
        requires narrow { bits ≤ 128 }
        requires x_fits { x < 2 ^ bits }
        requires y_fits { y < 2 ^ bits }
        ensures value { low bits result.0 ≡ low bits (binary_result operator bits x y 0 0) }
        ensures overflow { result.1 ≡ binary_overflow operator bits x y 0 };

    /// The same, where each number fits a word.
    fn apply_words(bits: u64, x: u64, y: u64) -> (u64, bool)
        requires positive { 0 < bits }
        requires narrow { bits ≤ 64 }
        requires x_fits { x < 2 ^ bits }
        requires y_fits { y < 2 ^ bits }
        ensures value { low bits result.0 ≡ low bits (binary_result operator bits x y 0 0) }
        ensures overflow { result.1 ≡ binary_overflow operator bits x y 0 };
}

/// The low word of a number and the high one.
fn words(x: u128) -> (u64, u64)
    ensures { result.0 + 2 ^ 64 * result.1 ≡ x }
{
    ((x % WORD) as u64, (x >> 64) as u64)
}

/// The number of a low word and a high one.
fn joined(low: u64, high: u64) -> u128
    ensures { result ≡ low + 2 ^ 64 * high }
{
    high as u128 * WORD + low as u128
}

/// The whole product of two numbers, up to 256 bits: the low 128 bits, and those above.
fn whole_product(x: u128, y: u128) -> (u128, u128)
    ensures { result.0 + 2 ^ 128 * result.1 ≡ x * y }
{
    let (x_low, x_high) = words(x);
    let (y_low, y_high) = words(y);
    let (first, low_carry) = x_low.carrying_mul_add(y_low, 0, 0);
    let (middle, high_carry) = x_high.carrying_mul_add(y_low, low_carry, 0);
    let (second, carry) = x_low.carrying_mul_add(y_high, middle, 0);
    let (third, fourth) = x_high.carrying_mul_add(y_high, high_carry, carry);
    (joined(first, second), joined(third, fourth))
}

/// Whether a whole product, given by its low 128 bits and those above, is at least a limit.
fn reaches(low: u128, high: u128, limit: u128) -> bool
    ensures { result ≡ nat_le limit (low + 2 ^ 128 * high) }
{
    high > 0 || low >= limit
}

/// Whether a whole product needs more than `bits` bits.
fn is_wide(low: u128, high: u128, bits: u64) -> bool
    requires { bits ≤ 128 }
    ensures { result ≡ nat_le (2 ^ bits) (low + 2 ^ 128 * high) }
{
    if bits < 128 {
        reaches(low, high, 1u128 << bits)
    } else {
        high > 0
    }
}

/// Half of the numbers of `bits` bits: the least absolute value that isn't a positive number's in two's complement.
fn half(bits: u64) -> u128
    requires positive { 0 < bits }
    requires narrow { bits ≤ 128 }
    ensures value { result ≡ 2 ^ (bits - 1) }
    ensures small { result ≤ 2 ^ 127 }
{
    1u128 << (bits - 1)
}

/// Whether a number of `bits` bits, read as two's complement, is negative.
fn is_negative(bits: u64, x: u128) -> bool
    requires positive { 0 < bits }
    requires narrow { bits ≤ 128 }
    ensures { result ≡ nat_le (2 ^ (bits - 1)) x }
{
    x >= half(bits)
}

/// The absolute value of a number of `bits` bits, read as two's complement.
fn absolute(bits: u64, x: u128) -> u128
    requires positive { 0 < bits }
    requires narrow { bits ≤ 128 }
    requires fits { x < 2 ^ bits }
    ensures { result ≡ unsigned_abs (signed bits x) }
{
    let half = half(bits);
    if x < half { x } else { half - (x - half) }
}

/// Products of unsigned numbers.
pub(crate) struct UnsignedProduct;

impl NumberOp for UnsignedProduct {
    ghost operator = { UnsignedMultiply };

    fn apply(bits: u64, x: u128, y: u128) -> (u128, bool) {
        let (low, high) = whole_product(x, y);
        (low, is_wide(low, high, bits))
    }

    fn apply_words(bits: u64, x: u64, y: u64) -> (u64, bool) {
        let (low, high) = word_product(x, y);
        (low, is_word_wide(low, high, bits))
    }
}

/// Products of numbers in two's complement.
pub(crate) struct SignedProduct;

impl NumberOp for SignedProduct {
    ghost operator = { SignedMultiply };

    fn apply(bits: u64, x: u128, y: u128) -> (u128, bool) {
        let (low, high) = whole_product(absolute(bits, x), absolute(bits, y));
        let half = half(bits);
        if is_negative(bits, x) == is_negative(bits, y) {
            (low, reaches(low, high, half))
        } else {
            (low.wrapping_neg(), reaches(low, high, half + 1))
        }
    }

    fn apply_words(bits: u64, x: u64, y: u64) -> (u64, bool) {
        let unlike = have_unlike_signs(bits, x, y);
        let (low, high) = word_product(absolute_word(bits, x), absolute_word(bits, y));
        let overflows = word_reaches(low, high, least_outside(bits, unlike));
        (signed_word(low, unlike), overflows)
    }
}

/// The quotient of two numbers, where the divisor isn't 0.
fn quotient(x: u128, y: u128) -> u128
    requires { 0 < y }
    ensures { result ≡ x / y }
{
    if x < WORD && y < WORD {
        (x as u64 / y as u64) as u128
    } else {
        x / y
    }
}

/// The remainder of two numbers, where the divisor isn't 0.
fn rest(x: u128, y: u128) -> u128
    requires { 0 < y }
    ensures { result ≡ x % y }
{
    if x < WORD && y < WORD {
        (x as u64 % y as u64) as u128
    } else {
        x % y
    }
}

/// Quotients of unsigned numbers, cut to whole numbers.
pub(crate) struct UnsignedQuotient;

impl NumberOp for UnsignedQuotient {
    ghost operator = { Truncate };

    fn apply(bits: u64, x: u128, y: u128) -> (u128, bool) {
        if y == 0 {
            (0, true)
        } else {
            (quotient(x, y), false)
        }
    }

    fn apply_words(bits: u64, x: u64, y: u64) -> (u64, bool) {
        if y == 0 { (0, true) } else { (x / y, false) }
    }
}

/// Remainders of unsigned numbers.
pub(crate) struct UnsignedRest;

impl NumberOp for UnsignedRest {
    ghost operator = { Remainder };

    fn apply(bits: u64, x: u128, y: u128) -> (u128, bool) {
        if y == 0 {
            (0, true)
        } else {
            (rest(x, y), false)
        }
    }

    fn apply_words(bits: u64, x: u64, y: u64) -> (u64, bool) {
        if y == 0 { (0, true) } else { (x % y, false) }
    }
}
