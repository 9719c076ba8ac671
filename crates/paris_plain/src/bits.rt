//! Numbers of a length in bits: the low bits, a store into them, and two's complement.

ghost use Rattle.std.specs.Prelude.{◌≡◌, ◌<◌, ◌≤◌, ◌==◌, ◌^◌, if◌then◌else◌, unsigned_abs};
ghost use Rattle.paris_model.specs.Store.{low, put, bit, signed, low_signed, is_outside_signed};
ghost use Rattle.paris_names.specs.declared.limits.TheConstants.{MAX_WIDTH_OF_ONE};

/// Two to the power of a length in bits.
pub(crate) fn power(length: u64) -> u128
    requires { length ≤ MAX_WIDTH_OF_ONE }
    ensures { result ≡ 2 ^ length }
{
    1u128 << length
}

/// The low bits of a number.
pub(crate) fn low_bits(length: u64, x: u128) -> u128
    requires { length ≤ MAX_WIDTH_OF_ONE }
    ensures value { result ≡ low length x }
    ensures small { result < 2 ^ length }
{
    x % power(length)
}

/// A number with its low bits replaced by those of another.
pub(crate) fn put_bits(old: u128, x: u128, length: u64) -> u128
    requires { length ≤ MAX_WIDTH_OF_ONE }
    ensures { result ≡ put old x length }
{
    old - low_bits(length, old) + low_bits(length, x)
}

/// 1 for true and 0 for false.
pub(crate) fn bit(is_set: bool) -> u128
    ensures { result ≡ bit is_set }
{
    if is_set { 1 } else { 0 }
}

/// A number of the length, read as two's complement.
pub(crate) fn signed_value(length: u64, x: u128) -> i128
    requires positive { 0 < length }
    requires narrow { length ≤ MAX_WIDTH_OF_ONE }
    requires x_fits { x < 2 ^ length }
    ensures value { result ≡ signed length x }
    ensures small { unsigned_abs result ≤ 2 ^ 63 }
{
    if x < power(length - 1) {
        x as i128
    } else {
        x as i128 - power(length) as i128
    }
}

/// The low bits of a signed number, in two's complement.
pub(crate) fn low_signed_bits(length: u64, z: i128) -> u128
    requires { length ≤ MAX_WIDTH_OF_ONE }
    ensures { result ≡ low_signed length z }
{
    if z >= 0 {
        low_bits(length, z as u128)
    } else {
        power(length) - 1 - low_bits(length, -(z + 1) as u128)
    }
}

/// Whether a signed number needs more bits than the length.
pub(crate) fn is_outside(length: u64, z: i128) -> bool
    requires positive { 0 < length }
    requires narrow { length ≤ MAX_WIDTH_OF_ONE }
    ensures { result ≡ is_outside_signed length z }
{
    if z >= 0 {
        z as u128 >= power(length - 1)
    } else {
        -(z + 1) as u128 >= power(length - 1)
    }
}
