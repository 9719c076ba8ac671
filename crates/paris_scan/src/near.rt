//! Sums along lines whose neighbours are neighbours in memory: a block of 64 processors at a time, from one block on to the next.

ghost use Rattle.std.specs.Prelude.{◌≡◌, ◌≢◌, ℕ, ◌+◌, ◌*◌, ◌/◌, ◌^◌, ◌<◌, ◌≤◌, ◌&&◌, ◌||◌, cond, false, length, nat_le, slice_index};
ghost use Rattle.paris_model.specs.Store.{low};
ghost use Rattle.paris_plane.specs.Bits.{word_bit};
ghost use Rattle.paris_field.specs.Numbers.{has};
ghost use Rattle.paris_scan.specs.Running.{AreRunning, GoOn, HeldBefore, IsKept, added, first_place, low_sums, over_sums, own_word, processors_of};

use crate::adjacent::power;
use crate::running::{Steps, walked};
use paris_plane::Plane;

/// A sum as a word keeps it: its low bits, and whether it needs more.
#[derive(Clone, Copy)]
struct Sum {
    low: u64,
    over: bool,
}

/// Whether bit `i` of a word is 1.
pub(crate) fn has_bit(word: u64, i: usize) -> bool
    requires { i < 64 }
    ensures { result ≡ word_bit word i }
{
    (word >> i) & 1 == 1
}

/// A word whose bit `i`, which was 0, is this one.
fn with_bit(word: u64, i: usize, bit: bool) -> u64
    requires within { i < 64 }
    requires clear { word_bit word i ≡ false }
    ensures here { word_bit result i ≡ bit }
    ensures others { (j : ℕ) → j ≢ i → word_bit result j ≡ word_bit word j }
{
    if bit { word | 1u64 << i } else { word }
}

/// What a sum goes on from: that of the one before, or nothing where a run begins.
fn going_on(begins: bool, before: Sum) -> Sum
    ensures { (bits x : ℕ) → (begins ≡ false → IsKept bits before.low before.over x) → IsKept bits result.low result.over (cond begins 0 x) }
{
    Sum {
        low: if begins { 0 } else { before.low },
        over: !begins && before.over,
    }
}

/// One of two words.
pub(crate) fn word_where(selected: bool, word: u64, other: u64) -> u64
    ensures { result ≡ cond selected word other }
{
    if selected { word } else { other }
}

/// Whether a sum needs more bits: the one before it did, or its low bits and a number that is selected reach the bound.
fn needs_more(before: bool, selected: bool, sum: u128, bound: u128) -> bool
    ensures { result ≡ (before || selected && nat_le bound sum) }
{
    before || selected && sum >= bound
}

/// A sum with a processor's word, where it is selected.
fn with_word(bits: u64, before: Sum, selected: bool, word: u64) -> Sum
    requires narrow { bits ≤ 64 }
    ensures { (x : ℕ) → IsKept bits before.low before.over x → IsKept bits result.low result.over (x + cond selected word 0) }
{
    let bound = power(bits);
    let sum = before.low as u128 + word as u128;
    let low = word_where(selected, (sum & (bound - 1)) as u64, before.low);
    let over = needs_more(before.over, selected, sum, bound);
    Sum { low, over }
}

/// Writes over the words of a block the low `bits` bits of their sums, of which the first goes on from that of the one before. Gives the last
/// sum, and a word of where they need more bits.
fn block_sums(
    steps: &Steps,
    selected: &Plane,
    bits: u64,
    block: usize,
    before: Sum,
    words: &mut [u64],
) -> (Sum, u64)
    requires narrow { bits ≤ 64 }
    requires near { steps.now.by ≡ 1 }
    requires within { 64 * block < length words.old }
    requires count { length steps.now.begins ≡ length words.old }
    requires selected { length selected.now ≡ length words.old }
    ensures long { length words.new ≡ length words.old }
    ensures others { (v : ℕ) → v / 64 ≢ block → slice_index words.new v ≡ slice_index words.old v }
    ensures words { (sums : ℕ → ℕ) → GoOn (IsKept bits before.low before.over) (added (own_word (has selected.now) words.old)) 0 block steps.now.direction (length words.old) (has steps.now.begins) sums
        → (i : ℕ) → i < processors_of (length words.old) block → slice_index words.new (64 * block + i) ≡ low bits (sums (64 * block + i)) }
    ensures over { (sums : ℕ → ℕ) → GoOn (IsKept bits before.low before.over) (added (own_word (has selected.now) words.old)) 0 block steps.now.direction (length words.old) (has steps.now.begins) sums
        → (i : ℕ) → i < processors_of (length words.old) block → word_bit result.1 i ≡ nat_le (2 ^ bits) (sums (64 * block + i)) }
    ensures last { (sums : ℕ → ℕ) → GoOn (IsKept bits before.low before.over) (added (own_word (has selected.now) words.old)) 0 block steps.now.direction (length words.old) (has steps.now.begins) sums
        → HeldBefore (IsKept bits result.0.low result.0.over) steps.now.direction (length words.old) sums (first_place steps.now.direction (length words.old) block + processors_of (length words.old) block) }
{
    let first = 64 * block;
    let count = (words.len() - first).min(64);
    let starts = steps.begins.word(block);
    let chosen = selected.word(block);
    let mut sum = before;
    let mut over = 0u64;
    for place in 0..count {
        let i = walked(steps.direction, count, place);
        let begins = has_bit(starts, i);
        let is_selected = has_bit(chosen, i);
        let from = going_on(begins, sum);
        sum = with_word(bits, from, is_selected, words[first + i]);
        words[first + i] = sum.low;
        over = with_bit(over, i, sum.over);
    }
    (sum, over)
}

/// Writes over each word the low `bits` bits of the sum of the one before it and its own, and puts a 1 where the sum needs more.
pub(crate) fn near_sums(
    steps: &Steps,
    selected: &Plane,
    bits: u64,
    words: &mut [u64],
    overflow: &mut Plane,
)
    requires narrow { bits ≤ 64 }
    requires near { steps.now.by ≡ 1 }
    requires count { length steps.now.begins ≡ length words.old }
    requires selected { length selected.now ≡ length words.old }
    requires overflow { length overflow.old ≡ length words.old }
    ensures long { length words.new ≡ length words.old }
    ensures words { (sums : ℕ → ℕ) → AreRunning (added (own_word (has selected.now) words.old)) 0 steps.now.direction steps.now.by (length words.old) (has steps.now.begins) sums → words.new ≡ low_sums bits (length words.old) sums }
    ensures overflow { (sums : ℕ → ℕ) → AreRunning (added (own_word (has selected.now) words.old)) 0 steps.now.direction steps.now.by (length words.old) (has steps.now.begins) sums → overflow.new ≡ over_sums bits (length words.old) sums }
{
    let blocks = words.len().div_ceil(64);
    let mut sum = Sum {
        low: 0,
        over: false,
    };
    for place in 0..blocks {
        let block = walked(steps.direction, blocks, place);
        let (last, over) = block_sums(steps, selected, bits, block, sum, words);
        overflow.set_word(block, over);
        sum = last;
    }
}
