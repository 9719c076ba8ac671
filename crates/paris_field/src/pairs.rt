//! Numbers of two lists of up to 32 planes in blocks of 64 processors: both lie in one square of bits, or in four small ones where each list
//! has up to 8 planes.

ghost use Rattle.std.specs.Prelude.{◌≡◌, ℕ, ◌+◌, ◌*◌, ◌/◌, ◌%◌, ◌^◌, ◌<◌, ◌≤◌, false, length, max, slice_index, slice_index_or};
ghost use Rattle.paris_plane.specs.Bits.{word_bit};
ghost use Rattle.paris_field.specs.Numbers.{AllOf, number_at, plane_at};

use crate::blocks::{HALF, quarters, word_of, words_fit};
use crate::transpose::{transpose16, transpose64};
use paris_layer::Layer;

/// The words of a block of each of the first planes, and from row `HIGH` on those of the others, with zeros past the last planes.
#[inline(always)]
fn paired_rows<const HIGH: usize>(xs: &[Layer], ys: &[Layer], block: usize, vps: usize) -> [u64; 64]
    requires room { HIGH ≤ 32 }
    requires x_narrow { length xs.now ≤ HIGH }
    requires y_narrow { length ys.now ≤ HIGH }
    requires within { 64 * block < vps }
    requires xs { AllOf vps xs.now }
    requires ys { AllOf vps ys.now }
    ensures low { (k i : ℕ) → k < HIGH → i < 64 → 64 * block + i < vps → word_bit (slice_index result k) i ≡ slice_index_or (plane_at xs.now k) (64 * block + i) false }
    ensures high { (k i : ℕ) → k < HIGH → i < 64 → 64 * block + i < vps → word_bit (slice_index result (HIGH + k)) i ≡ slice_index_or (plane_at ys.now k) (64 * block + i) false }
{
    let mut rows = [0u64; 64];
    for k in 0..xs.len().max(ys.len()) {
        rows[k] = word_of(xs, k, block, vps);
        rows[HIGH + k] = word_of(ys, k, block, vps);
    }
    rows
}

/// A word of each processor of a block, whose low half has the bits of the first planes, and whose high half those of the others.
fn paired_words(xs: &[Layer], ys: &[Layer], block: usize, vps: usize) -> [u64; 64]
    requires x_narrow { length xs.now ≤ 32 }
    requires y_narrow { length ys.now ≤ 32 }
    requires within { 64 * block < vps }
    requires xs { AllOf vps xs.now }
    requires ys { AllOf vps ys.now }
    ensures low { (i k : ℕ) → i < 64 → k < 32 → 64 * block + i < vps → word_bit (slice_index result i) k ≡ slice_index_or (plane_at xs.now k) (64 * block + i) false }
    ensures high { (i k : ℕ) → i < 64 → k < 32 → 64 * block + i < vps → word_bit (slice_index result i) (32 + k) ≡ slice_index_or (plane_at ys.now k) (64 * block + i) false }
{
    let mut rows = paired_rows::<32>(xs, ys, block, vps);
    transpose64(&mut rows);
    rows
}

/// Numbers of 16 bits, whose high bytes go to the high halves of the words.
fn spread(numbers: &[u64; 64]) -> [u64; 64]
    ensures { (i : ℕ) → i < 64 → slice_index result i ≡ slice_index numbers.now i / 2 ^ 8 % 2 ^ 32 * 2 ^ 32 + slice_index numbers.now i % 2 ^ 8 }
{
    let mut words = [0u64; 64];
    for i in 0..64usize {
        words[i] = (numbers[i] >> 8) % HALF * HALF + numbers[i] % 256;
    }
    words
}

/// The same words as those of two lists of up to 32 planes, where each has up to 8: four small squares hold their bits.
fn paired_bytes(xs: &[Layer], ys: &[Layer], block: usize, vps: usize) -> [u64; 64]
    requires x_narrow { length xs.now ≤ 8 }
    requires y_narrow { length ys.now ≤ 8 }
    requires within { 64 * block < vps }
    requires xs { AllOf vps xs.now }
    requires ys { AllOf vps ys.now }
    ensures low { (i : ℕ) → i < 64 → 64 * block + i < vps → slice_index result i % 2 ^ 32 ≡ number_at xs.now (64 * block + i) }
    ensures high { (i : ℕ) → i < 64 → 64 * block + i < vps → slice_index result i / 2 ^ 32 ≡ number_at ys.now (64 * block + i) }
{
    let mut rows = paired_rows::<8>(xs, ys, block, vps);
    transpose16(&mut rows);
    let numbers = quarters(&rows);
    spread(&numbers)
}

/// A word of each processor of a block, the first processor's first, with its numbers in two lists of planes: the first list's in the low
/// half of the word, and the other's in the high half. Words past the last processor mean nothing.
#[inline(always)]
pub fn block_pairs(xs: &[Layer], ys: &[Layer], block: usize, vps: usize) -> [u64; 64]
    requires x_narrow { length xs.now ≤ 32 }
    requires y_narrow { length ys.now ≤ 32 }
    requires within { 64 * block < vps }
    requires xs { AllOf vps xs.now }
    requires ys { AllOf vps ys.now }
    ensures low { (i : ℕ) → i < 64 → 64 * block + i < vps → slice_index result i % 2 ^ 32 ≡ number_at xs.now (64 * block + i) }
    ensures high { (i : ℕ) → i < 64 → 64 * block + i < vps → slice_index result i / 2 ^ 32 ≡ number_at ys.now (64 * block + i) }
{
    if xs.len() <= 8 && ys.len() <= 8 {
        return paired_bytes(xs, ys, block, vps);
    }
    let words = paired_words(xs, ys, block, vps);
    words_fit(&words);
    words
}
