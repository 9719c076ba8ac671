//! Where stretches begin and end, and which processors of a block they have.

ghost use Rattle.std.specs.Prelude.{◌≡◌, ◌<◌, ◌≤◌, ◌%◌, ◌^◌};
ghost use Rattle.paris_stretches.specs.Stretches.{bound};

/// Where stretch `i` of so many parts begins, and the one before it ends.
pub(crate) fn bound(count: usize, parts: usize, i: usize) -> usize
    requires some { 0 < parts }
    requires within { i ≤ parts }
    ensures place { result ≡ bound count parts i }
    ensures within { result ≤ count }
{
    (i as u128 * count as u128 / parts as u128) as usize
}

/// The lowest bits of a word.
pub(crate) fn low_bits(word: u64, count: usize) -> u64
    requires { count ≤ 64 }
    ensures { result ≡ word % 2 ^ count }
{
    if count < 64 {
        word % (1 << count)
    } else {
        word
    }
}
