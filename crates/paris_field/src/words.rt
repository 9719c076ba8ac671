//! Numbers of one word each, put into the planes of some processors.

ghost use Rattle.std.specs.Prelude.{◌≡◌, ◌≢◌, ℕ, ◌+◌, ◌*◌, ◌/◌, ◌%◌, ◌^◌, ◌<◌, ◌≤◌, IfOk, false, length, min, slice_index, slice_index_or};
ghost use Rattle.paris_model.specs.Store.{low};
ghost use Rattle.paris_plane.specs.Bits.{word_bit};
ghost use Rattle.paris_field.specs.Fields.{AllFit};
ghost use Rattle.paris_field.specs.Numbers.{AllOf, number_at, plane_at};

use crate::blocks::{put_rows, whole_quads};
use crate::planes::put_number;
use crate::quads::put_whole_quad;
use paris_plane::Plane;
use std::alloc::{AllocError, Global};

/// The first 64 words, with zeros past the last.
fn first_words(words: &[u64]) -> [u64; 64]
    ensures same { (i : ℕ) → i < 64 → i < length words.now → slice_index result i ≡ slice_index words.now i }
    ensures fit { (i : ℕ) → i < length words.now → slice_index words.now i < 2 ^ 64 }
{
    let mut rows = [0u64; 64];
    for i in 0..words.len().min(64) {
        rows[i] = words[i];
    }
    rows
}

/// Puts words into the processors of a block, as far as their bits have planes.
fn put_word_bits(planes: &mut [Plane], words: &[u64], block: usize, vps: usize)
    requires narrow { length planes.old ≤ 128 }
    requires within { 64 * block < vps }
    requires whole { min (64 * block + 64) vps ≤ 64 * block + length words.now }
    requires long { AllOf vps planes.old }
    ensures long { AllOf vps planes.new }
    ensures bits { (k : ℕ) → k < length planes.old → (i : ℕ) → i < 64 → 64 * block + i < vps → slice_index_or (plane_at planes.new k) (64 * block + i) false ≡ word_bit (slice_index words.now i) k }
    ensures others { (k : ℕ) → k < length planes.old → (v : ℕ) → v < vps → v / 64 ≢ block → slice_index_or (plane_at planes.new k) v false ≡ slice_index_or (plane_at planes.old k) v false }
{
    put_rows(planes, first_words(words), block, 0, vps);
    if planes.len() <= 64 {
        return;
    }
    put_rows(planes, [0; 64], block, 64, vps);
}

/// Puts words, the first processor's first, into the processors of a block, as far as their bits have planes.
pub(crate) fn put_word_block(planes: &mut [Plane], words: &[u64], block: usize, vps: usize)
    requires narrow { length planes.old ≤ 128 }
    requires within { 64 * block < vps }
    requires whole { min (64 * block + 64) vps ≤ 64 * block + length words.now }
    requires long { AllOf vps planes.old }
    ensures long { AllOf vps planes.new }
    ensures numbers { (i : ℕ) → i < 64 → 64 * block + i < vps → number_at planes.new (64 * block + i) ≡ low (length planes.old) (slice_index words.now i) }
    ensures others { (v : ℕ) → v < vps → v / 64 ≢ block → number_at planes.new v ≡ number_at planes.old v }
{
    put_word_bits(planes, words, block, vps);
}

/// Puts words into as many of `vps` processors from one on, one by one.
fn put_few_words(planes: &mut [Plane], from: usize, words: &[u64], vps: usize)
    requires within { from + length words.now ≤ vps }
    requires long { AllOf vps planes.old }
    ensures long { AllOf vps planes.new }
    ensures put { (i : ℕ) → i < length words.now → number_at planes.new (from + i) ≡ low (length planes.old) (slice_index words.now i) }
    ensures before { (u : ℕ) → u < from → number_at planes.new u ≡ number_at planes.old u }
    ensures after { (u : ℕ) → from + length words.now ≤ u → number_at planes.new u ≡ number_at planes.old u }
{
    for i in 0..words.len() {
        put_number(planes, from + i, words[i] as u128, vps);
    }
}

/// Puts those of the words from a processor on that belong into a block. The other processors keep their numbers.
fn put_in_block(planes: &mut [Plane], from: usize, words: &[u64], block: usize, vps: usize)
    requires narrow { length planes.old ≤ 128 }
    requires within { from + length words.now ≤ vps }
    requires begun { 64 * block < from + length words.now }
    requires reached { from < 64 * block + 64 }
    requires long { AllOf vps planes.old }
    ensures long { AllOf vps planes.new }
    ensures put { (i : ℕ) → i < length words.now → (from + i) / 64 ≡ block → number_at planes.new (from + i) ≡ low (length planes.old) (slice_index words.now i) }
    ensures others { (v : ℕ) → v < vps → (v / 64 ≡ block → from ≤ v → from + length words.now ≤ v) → number_at planes.new v ≡ number_at planes.old v }
{
    let first = from.max(64 * block);
    let at = first - from;
    let count = (words.len() - at).min(64 - first % 64);
    if first % 64 == 0 && (count == 64 || first + count == vps) {
        put_word_block(planes, &words[at..], block, vps);
    } else {
        put_few_words(planes, first, &words[at..at + count], vps);
    }
}

/// Puts words into as many of `vps` processors from one on, block by block, as far as their bits have planes.
pub(crate) fn put_words_from(planes: &mut [Plane], from: usize, words: &[u64], vps: usize)
    requires narrow { length planes.old ≤ 128 }
    requires within { from + length words.now ≤ vps }
    requires long { AllOf vps planes.old }
    ensures long { AllOf vps planes.new }
    ensures put { (i : ℕ) → i < length words.now → number_at planes.new (from + i) ≡ low (length planes.old) (slice_index words.now i) }
    ensures others { (v : ℕ) → v < vps → (from ≤ v → from + length words.now ≤ v) → number_at planes.new v ≡ number_at planes.old v }
{
    for block in from / 64..(from + words.len()).div_ceil(64) {
        put_in_block(planes, from, words, block, vps);
    }
}

/// Puts words into the processors of the first quads, as far as their bits have planes.
fn put_quads(planes: &mut [Plane], words: &[u64], quads: usize)
    requires narrow { length planes.old ≤ 64 }
    requires within { 256 * quads ≤ length words.now }
    requires long { AllOf (length words.now) planes.old }
    ensures long { AllOf (length words.now) planes.new }
    ensures put { (v : ℕ) → v < 256 * quads → number_at planes.new v ≡ low (length planes.old) (slice_index words.now v) }
{
    for quad in 0..quads {
        put_whole_quad(planes, &words[256 * quad..], quad, words.len());
    }
}

/// Puts a word into each processor: quad by quad, and then block by block, as far as its bits have planes.
pub(crate) fn put_all_words(planes: &mut [Plane], words: &[u64])
    requires narrow { length planes.old ≤ 128 }
    requires long { AllOf (length words.now) planes.old }
    ensures long { AllOf (length words.now) planes.new }
    ensures put { (v : ℕ) → v < length words.now → number_at planes.new v ≡ low (length planes.old) (slice_index words.now v) }
{
    if planes.len() > 64 {
        put_words_from(planes, 0, words, words.len());
        return;
    }
    let quads = whole_quads(planes.len(), words.len());
    put_quads(planes, words, quads);
    put_words_from(planes, 256 * quads, &words[256 * quads..], words.len());
}

/// Numbers below `2 ^ 64` as words.
pub(crate) fn words_of(alloc: Global, numbers: &[u128]) -> Result<Vec<u64>, AllocError>
    requires { AllFit 64 numbers.now }
    ensures { IfOk result (λ words. words.items ≡ numbers.now) }
{
    let mut words = Vec::with_capacity(alloc, numbers.len())?;
    for number in numbers {
        words.push(*number as u64)?;
    }
    Ok(words)
}
