//! Loops that make one or two words, in an array: too few for a vector of four.

ghost use Rattle.std.specs.Prelude.{◌≡◌, ℕ, ◌<◌, ◌≤◌, ◌^◌, ◌-◌, length, slice_index};
ghost use Rattle.std.specs.Int.Bits.{bit_xor};
ghost use Rattle.paris_plane.specs.Bits.{borrow_word, carry_word, sum_word};

use crate::kernel::{TripleOp, WordOp};

/// What the operation makes of each two words.
pub(crate) fn few_words<O: WordOp>(xs: &[u64], ys: &[u64]) -> [u64; 2]
    requires few { length xs.now ≤ 2 }
    requires xy { length xs.now ≡ length ys.now }
    ensures { (i : ℕ) → i < length xs.now → slice_index result i ≡ O.op (slice_index xs.now i) (slice_index ys.now i) }
{
    let mut made = [0u64; 2];
    for i in 0..xs.len() {
        made[i] = O::word(xs[i], ys[i]);
    }
    made
}

/// What the operation makes of each three words.
pub(crate) fn few_triples<O: TripleOp>(xs: &[u64], ys: &[u64], zs: &[u64]) -> [u64; 2]
    requires few { length xs.now ≤ 2 }
    requires xy { length xs.now ≡ length ys.now }
    requires xz { length xs.now ≡ length zs.now }
    ensures { (i : ℕ) → i < length xs.now → slice_index result i ≡ O.op (slice_index xs.now i) (slice_index ys.now i) (slice_index zs.now i) }
{
    let mut made = [0u64; 2];
    for i in 0..xs.len() {
        made[i] = O::word(xs[i], ys[i], zs[i]);
    }
    made
}

/// Each word with every bit turned.
pub(crate) fn few_inverted(xs: &[u64]) -> [u64; 2]
    requires { length xs.now ≤ 2 }
    ensures { (i : ℕ) → i < length xs.now → slice_index result i ≡ bit_xor (slice_index xs.now i) (2 ^ 64 - 1) }
{
    let mut made = [0u64; 2];
    for i in 0..xs.len() {
        made[i] = xs[i] ^ u64::MAX;
    }
    made
}

/// One step of an addition of numbers whose bits lie in planes: the sums of `xs`, `ys` and `carry`, and what they carry in
/// `carry`.
pub(crate) fn few_sums(xs: &[u64], ys: &[u64], carry: &mut [u64]) -> [u64; 2]
    requires few { length xs.now ≤ 2 }
    requires xy { length xs.now ≡ length ys.now }
    requires xc { length xs.now ≡ length carry.old }
    ensures sums { (i : ℕ) → i < length xs.now → slice_index result i ≡ sum_word (slice_index xs.now i) (slice_index ys.now i) (slice_index carry.old i) }
    ensures carries { (i : ℕ) → i < length xs.now → slice_index carry.new i ≡ carry_word (slice_index xs.now i) (slice_index ys.now i) (slice_index carry.old i) }
{
    let mut sum = [0u64; 2];
    for i in 0..xs.len() {
        let x = xs[i];
        let y = ys[i];
        let c = carry[i];
        let t = x ^ y;
        sum[i] = t ^ c;
        carry[i] = (x & y) | (t & c);
    }
    sum
}

/// One step of a subtraction of numbers whose bits lie in planes: what is left of `xs` without `ys` and `borrow`, and what they
/// borrow in `borrow`.
pub(crate) fn few_differences(xs: &[u64], ys: &[u64], borrow: &mut [u64]) -> [u64; 2]
    requires few { length xs.now ≤ 2 }
    requires xy { length xs.now ≡ length ys.now }
    requires xc { length xs.now ≡ length borrow.old }
    ensures differences { (i : ℕ) → i < length xs.now → slice_index result i ≡ sum_word (slice_index xs.now i) (slice_index ys.now i) (slice_index borrow.old i) }
    ensures borrows { (i : ℕ) → i < length xs.now → slice_index borrow.new i ≡ borrow_word (slice_index borrow.old i) (slice_index xs.now i) (slice_index ys.now i) }
{
    let mut difference = [0u64; 2];
    for i in 0..xs.len() {
        let x = xs[i];
        let y = ys[i];
        let b = borrow[i];
        let t = x ^ y;
        difference[i] = t ^ b;
        borrow[i] = b ^ ((b ^ y) & t);
    }
    difference
}

/// The same words.
pub(crate) fn few_copied(xs: &[u64]) -> [u64; 2]
    requires { length xs.now ≤ 2 }
    ensures { (i : ℕ) → i < length xs.now → slice_index result i ≡ slice_index xs.now i }
{
    let mut made = [0u64; 2];
    for i in 0..xs.len() {
        made[i] = xs[i];
    }
    made
}
