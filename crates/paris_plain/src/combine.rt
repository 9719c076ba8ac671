//! The operators of scans, spreads, reduces and combining sends, on numbers of a length in bits.

ghost use Rattle.std.specs.Prelude.{◌≡◌, ◌<◌, ◌≤◌, ◌^◌, All, nat_le, sum};
ghost use Rattle.paris_model.specs.Combine.{combine, combined, unit};
ghost use Rattle.paris_names.specs.declared.limits.TheConstants.{MAX_WIDTH_OF_ONE};

use crate::bits::{low_bits, power};
use paris_model::Combiner;

/// Two numbers, combined.
pub(crate) fn combine(combiner: Combiner, length: u64, x: u128, y: u128) -> u128
    requires narrow { length ≤ MAX_WIDTH_OF_ONE }
    requires x_fits { x < 2 ^ length }
    requires y_fits { y < 2 ^ length }
    ensures value { result ≡ combine combiner length x y }
    ensures small { result < 2 ^ length }
{
    match combiner {
        Combiner::Sum => low_bits(length, x + y),
        Combiner::BitOr => x | y,
        Combiner::BitAnd => x & y,
        Combiner::BitXor => x ^ y,
        Combiner::Maximum => x.max(y),
        Combiner::Minimum => x.min(y),
    }
}

/// The number that changes nothing.
pub(crate) fn unit(combiner: Combiner, length: u64) -> u128
    requires { length ≤ MAX_WIDTH_OF_ONE }
    ensures value { result ≡ unit combiner length }
    ensures small { result < 2 ^ length }
{
    match combiner {
        Combiner::BitAnd | Combiner::Minimum => power(length) - 1,
        Combiner::Sum | Combiner::BitOr | Combiner::BitXor | Combiner::Maximum => 0,
    }
}

/// Numbers, combined with a first one.
pub(crate) fn combined(combiner: Combiner, length: u64, start: u128, values: &[u128]) -> u128
    requires narrow { length ≤ MAX_WIDTH_OF_ONE }
    requires start_fits { start < 2 ^ length }
    requires fit { All (λ x. x < 2 ^ length) values.now }
    ensures { result ≡ combined combiner length start values.now }
{
    let mut total = start;
    for value in values {
        total = combine(combiner, length, total, *value);
    }
    total
}

/// Whether the exact sum of numbers needs more bits.
pub(crate) fn sum_overflows(length: u64, values: &[u128]) -> bool
    requires { length ≤ MAX_WIDTH_OF_ONE }
    ensures { result ≡ nat_le (2 ^ length) (sum values.now) }
{
    let mut total: u128 = 0;
    for value in values {
        total = total.saturating_add(*value);
    }
    total >= power(length)
}
