//! Products of the numbers of one processor, where each fits a word.

ghost use Rattle.std.specs.Prelude.{◌≡◌, ◌+◌, ◌-◌, ◌*◌, ◌%◌, ◌<◌, ◌≤◌, ◌^◌, cond, false, nat_le, true, unsigned_abs};
ghost use Rattle.paris_model.specs.Store.{signed};
ghost use Rattle.paris_plane.specs.Bits.{differ};

/// The whole product of two words: the low word, and the one above.
pub(crate) fn word_product(x: u64, y: u64) -> (u64, u64)
    ensures { result.0 + 2 ^ 64 * result.1 ≡ x * y }
{
    x.carrying_mul_add(y, 0, 0)
}

/// Whether a whole product, given by its low word and the one above, is at least a limit.
pub(crate) fn word_reaches(low: u64, high: u64, limit: u64) -> bool
    ensures { result ≡ nat_le limit (low + 2 ^ 64 * high) }
{
    (high > 0) | (low >= limit)
}

/// Whether a whole product, given by its low word and the one above, needs more than `bits` bits.
pub(crate) fn is_word_wide(low: u64, high: u64, bits: u64) -> bool
    requires { bits ≤ 64 }
    ensures { result ≡ nat_le (2 ^ bits) (low + 2 ^ 64 * high) }
{
    if bits < 64 {
        word_reaches(low, high, 1u64 << bits)
    } else {
        high > 0
    }
}

/// Half of the numbers of `bits` bits: the least absolute value that isn't a positive number's in two's complement.
fn half_word(bits: u64) -> u64
    requires positive { 0 < bits }
    requires narrow { bits ≤ 64 }
    ensures value { result ≡ 2 ^ (bits - 1) }
    ensures small { result ≤ 2 ^ 63 }
{
    1u64 << (bits - 1)
}

/// Whether a number of `bits` bits, read as two's complement, is negative.
fn is_negative_word(bits: u64, x: u64) -> bool
    requires positive { 0 < bits }
    requires narrow { bits ≤ 64 }
    ensures { result ≡ nat_le (2 ^ (bits - 1)) x }
{
    x >= half_word(bits)
}

/// Whether one of two numbers of `bits` bits, read as two's complement, is negative, and not both.
pub(crate) fn have_unlike_signs(bits: u64, x: u64, y: u64) -> bool
    requires positive { 0 < bits }
    requires narrow { bits ≤ 64 }
    ensures { result ≡ differ (nat_le (2 ^ (bits - 1)) x) (nat_le (2 ^ (bits - 1)) y) }
{
    is_negative_word(bits, x) != is_negative_word(bits, y)
}

/// The absolute value of a number of `bits` bits, read as two's complement.
pub(crate) fn absolute_word(bits: u64, x: u64) -> u64
    requires positive { 0 < bits }
    requires narrow { bits ≤ 64 }
    requires fits { x < 2 ^ bits }
    ensures { result ≡ unsigned_abs (signed bits x) }
{
    let half = half_word(bits);
    if x < half { x } else { half - (x - half) }
}

/// The least absolute value of a product that overflows, whose factors have unlike signs or don't.
pub(crate) fn least_outside(bits: u64, unlike: bool) -> u64
    requires positive { 0 < bits }
    requires narrow { bits ≤ 64 }
    ensures { result ≡ cond unlike (2 ^ (bits - 1) + 1) (2 ^ (bits - 1)) }
{
    let half = half_word(bits);
    if unlike { half + 1 } else { half }
}

/// A word, with the other sign where the signs are unlike.
pub(crate) fn signed_word(word: u64, unlike: bool) -> u64
    ensures same { unlike ≡ false → result ≡ word }
    ensures opposite { unlike ≡ true → (result + word) % 2 ^ 64 ≡ 0 }
{
    if unlike { word.wrapping_neg() } else { word }
}
