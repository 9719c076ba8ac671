//! In how many processors of a span the bits of two planes are 1.

ghost use Rattle.std.specs.Prelude.{◌≡◌, ◌≤◌, ◌+◌, ◌%◌, ℕ, ◌<◌, ◌&&◌, ◌||◌, not, nat_lt, false, length, slice_index_or};
ghost use Rattle.paris_field.specs.Numbers.{bit_in, has};
ghost use Rattle.paris_counts.specs.Masked.{masked_sum};

use paris_layer::Layer;
use paris_plane::Plane;

/// In how many of the `count` processors from `start` on both bits are 1.
pub(crate) fn count_with(x: &Layer, mask: &Plane, start: usize, count: usize) -> u64
    requires same { length x.now ≡ length mask.now }
    requires start { start % 64 ≡ 0 }
    requires whole { count % 64 ≡ 0 }
    requires within { start + count ≤ length mask.now }
    ensures value { result ≡ masked_sum (has mask.now) (bit_in x.now) start count }
    ensures small { result ≤ count }
{
    let first = start / 64;
    let mut ones = 0u64;
    for i in 0..count / 64 {
        ones += u64::from((x.word(first + i) & mask.word(first + i)).count_ones());
    }
    ones
}

/// Of the candidates among the `count` processors from `start` on, those stay that have a 1 in `x`.
fn keep_with(candidates: &mut Plane, x: &Layer, start: usize, count: usize)
    requires same { length x.now ≡ length candidates.old }
    requires start { start % 64 ≡ 0 }
    requires whole { count % 64 ≡ 0 }
    requires within { start + count ≤ length candidates.old }
    ensures long { length candidates.new ≡ length candidates.old }
    ensures kept { (v : ℕ) → start ≤ v → v < start + count → has candidates.new v ≡ (has candidates.old v && has x.now v) }
    ensures behind { (v : ℕ) → start + count ≤ v → v < length candidates.old → has candidates.new v ≡ has candidates.old v }
{
    let first = start / 64;
    for i in 0..count / 64 {
        let word = candidates.word(first + i) & x.word(first + i);
        candidates.set_word(first + i, word);
    }
}

/// Whether a bit of `x` is 1 in one of the candidates among the `count` processors from `start` on. Where it is, those of them with
/// a 0 fall out.
pub(crate) fn narrowed(candidates: &mut Plane, x: &Layer, start: usize, count: usize) -> bool
    requires same { length x.now ≡ length candidates.old }
    requires start { start % 64 ≡ 0 }
    requires whole { count % 64 ≡ 0 }
    requires within { start + count ≤ length candidates.old }
    ensures found { result ≡ nat_lt 0 (masked_sum (has candidates.old) (bit_in x.now) start count) }
    ensures long { length candidates.new ≡ length candidates.old }
    ensures kept { (v : ℕ) → start ≤ v → v < start + count → has candidates.new v ≡ (has candidates.old v && (not result || has x.now v)) }
    ensures behind { (v : ℕ) → start + count ≤ v → v < length candidates.old → has candidates.new v ≡ has candidates.old v }
{
    if count_with(x, candidates, start, count) == 0 {
        return false;
    }
    keep_with(candidates, x, start, count);
    true
}
