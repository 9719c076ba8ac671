//! The words of the processors before each one along lines, which an exclusive scan shows. Where neighbours are neighbours in memory they are
//! written a block of 64 processors at a time.

ghost use Rattle.std.specs.Prelude.{◌≡◌, ◌≢◌, ℕ, ◌+◌, ◌*◌, ◌/◌, ◌<◌, length, slice_index};
ghost use Rattle.paris_field.specs.Numbers.{has};
ghost use Rattle.paris_scan.specs.Running.{GoOn, HeldBefore, first_place, processors_of, value_before};

use crate::near::{has_bit, word_where};
use crate::running::{Steps, walked, word_before};

/// Does `step_back` a processor at a time, however far apart neighbours are.
fn far_back(steps: &Steps, words: &mut [u64], none: u64)
    requires count { length steps.now.begins ≡ length words.old }
    ensures long { length words.new ≡ length words.old }
    ensures words { (v : ℕ) → v < length words.old → slice_index words.new v ≡ value_before none steps.now.direction steps.now.by (has steps.now.begins) (slice_index words.old) v }
{
    let count = words.len();
    for place in 0..count {
        let v = walked(steps.direction, count, count - 1 - place);
        words[v] = word_before(steps, words, none, v);
    }
}

/// Writes over the words of a block those of the ones before them, of which the first is `before`. Gives the last word that stood there.
fn block_back(steps: &Steps, none: u64, block: usize, before: u64, words: &mut [u64]) -> u64
    requires near { steps.now.by ≡ 1 }
    requires within { 64 * block < length words.old }
    requires count { length steps.now.begins ≡ length words.old }
    ensures long { length words.new ≡ length words.old }
    ensures others { (v : ℕ) → v / 64 ≢ block → slice_index words.new v ≡ slice_index words.old v }
    ensures words { (values : ℕ → ℕ) → GoOn (λ x. before ≡ x) (λ v _. slice_index words.old v) none block steps.now.direction (length words.old) (has steps.now.begins) values
        → (i : ℕ) → i < processors_of (length words.old) block → slice_index words.new (64 * block + i) ≡ value_before none steps.now.direction 1 (has steps.now.begins) values (64 * block + i) }
    ensures last { (values : ℕ → ℕ) → GoOn (λ x. before ≡ x) (λ v _. slice_index words.old v) none block steps.now.direction (length words.old) (has steps.now.begins) values
        → HeldBefore (λ x. result ≡ x) steps.now.direction (length words.old) values (first_place steps.now.direction (length words.old) block + processors_of (length words.old) block) }
{
    let first = 64 * block;
    let count = (words.len() - first).min(64);
    let starts = steps.begins.word(block);
    let mut last = before;
    for place in 0..count {
        let i = walked(steps.direction, count, place);
        let begins = has_bit(starts, i);
        let shown = word_where(begins, none, last);
        last = words[first + i];
        words[first + i] = shown;
    }
    last
}

/// Does `step_back` a block at a time, where neighbours are neighbours in memory.
fn near_back(steps: &Steps, words: &mut [u64], none: u64)
    requires near { steps.now.by ≡ 1 }
    requires count { length steps.now.begins ≡ length words.old }
    ensures long { length words.new ≡ length words.old }
    ensures words { (v : ℕ) → v < length words.old → slice_index words.new v ≡ value_before none steps.now.direction steps.now.by (has steps.now.begins) (slice_index words.old) v }
{
    let blocks = words.len().div_ceil(64);
    let mut last = none;
    for place in 0..blocks {
        let block = walked(steps.direction, blocks, place);
        last = block_back(steps, none, block, last, words);
    }
}

/// Writes over each word that of the one before it, or `none` where there is none.
pub(crate) fn step_back(steps: &Steps, words: &mut [u64], none: u64)
    requires count { length steps.now.begins ≡ length words.old }
    ensures long { length words.new ≡ length words.old }
    ensures words { (v : ℕ) → v < length words.old → slice_index words.new v ≡ value_before none steps.now.direction steps.now.by (has steps.now.begins) (slice_index words.old) v }
{
    if steps.by == 1 {
        near_back(steps, words, none);
    } else {
        far_back(steps, words, none);
    }
}
