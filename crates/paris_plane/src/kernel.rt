//! Loops over words: four at a time by lanes, and the words that are left one by one.

ghost use Rattle.std.specs.Prelude.{◌≡◌, ◌↔◌, ◌≤◌, IfOk, IsTrue, ℕ, ◌<◌, ◌^◌, ◌-◌, ◌+◌, ◌*◌, Bool, cond, false, ◌&&◌, ◌||◌, length, slice_index, bit_and, ◌++◌};
ghost use Rattle.std.specs.Int.Bits.{bit_or, bit_xor};
ghost use Rattle.std.specs.Simd.Lanes.{put_chunk, zip2};
ghost use Rattle.std.specs.Vec.{vec_len, vec_capacity};
ghost use Rattle.paris_plane.specs.Bits.{word_bit, ByBit, ByBit3, borrow_bit, borrow_word, carry_word, differ, sum_word};
ghost use Rattle.paris_plane.specs.Laws.{and_by_bit, borrow_by_bit, or_by_bit, select_by_bit, without_by_bit, xor_by_bit};

use std::alloc::{AllocError, Global};
use std::simd::prelude::*;

/// An operation on two words that does the same to each two bits. `Plane::put` runs it over planes.
///
/// An implementation gives the operation on words, `op`, the one on bits, `bit`, and the law that ties them, `by_bit`.
pub trait WordOp {
    ghost op: { ℕ → ℕ → ℕ };

    ghost bit: { Bool → Bool → Bool };

    /// The operation in each of four lanes.
    fn lanes(x: u64x4, y: u64x4) -> u64x4
        ensures { result ≡ zip2 op x y };

    /// The operation on one word of each.
    fn word(x: u64, y: u64) -> u64
        ensures { result ≡ op x y };

    ghost by_bit: { ByBit op bit };
}

/// 1 where both are.
pub struct And;

impl WordOp for And {
    ghost op = { bit_and };

    ghost bit = { λ a b. a && b };

    ghost by_bit = { and_by_bit };

    fn lanes(x: u64x4, y: u64x4) -> u64x4 {
        x & y
    }

    fn word(x: u64, y: u64) -> u64 {
        x & y
    }
}

/// 1 where one of the two is, or both.
pub struct Or;

impl WordOp for Or {
    ghost op = { bit_or };

    ghost bit = { λ a b. a || b };

    ghost by_bit = { or_by_bit };

    fn lanes(x: u64x4, y: u64x4) -> u64x4 {
        x | y
    }

    fn word(x: u64, y: u64) -> u64 {
        x | y
    }
}

/// 1 where the two differ.
pub struct Xor;

impl WordOp for Xor {
    ghost op = { bit_xor };

    ghost bit = { differ };

    ghost by_bit = { xor_by_bit };

    fn lanes(x: u64x4, y: u64x4) -> u64x4 {
        x ^ y
    }

    fn word(x: u64, y: u64) -> u64 {
        x ^ y
    }
}

/// 1 where the first is and the second isn't.
pub struct Without;

impl WordOp for Without {
    ghost op = { λ x y. bit_xor x (bit_and x y) };

    ghost bit = { λ a b. cond b false a };

    ghost by_bit = { without_by_bit };

    #[tactic(auto, using(crate::proofs::Rules::lanes))]
    fn lanes(x: u64x4, y: u64x4) -> u64x4 {
        x ^ (x & y)
    }

    fn word(x: u64, y: u64) -> u64 {
        x ^ (x & y)
    }
}

/// A word of which each bit is this one.
#[inline(always)]
pub fn word_of(bit: bool) -> u64
    ensures { (i : ℕ) → i < 64 → word_bit result i ≡ bit }
{
    if bit { u64::MAX } else { 0 }
}

/// What an operation makes of two bits.
#[inline(always)]
pub fn bit_of_two<O: WordOp>(a: bool, b: bool) -> bool
    ensures { result ≡ O.bit a b }
{
    O::word(word_of(a), word_of(b)) & 1 == 1
}

/// Puts what the operation makes of each two words into `xs`.
pub fn put_words<O: WordOp>(xs: &mut [u64], ys: &[u64])
    requires { length xs.old ≡ length ys.now }
    ensures { (i : ℕ) → i < length xs.old → slice_index xs.new i ≡ O.op (slice_index xs.old i) (slice_index ys.now i) }
{
    let whole = xs.len() / 4;
    for k in 0..whole {
        let at = 4 * k;
        let x = u64x4::from_slice(&xs[at..]);
        let y = u64x4::from_slice(&ys[at..]);
        O::lanes(x, y).copy_to_slice(&mut xs[at..]);
    }
    for i in 4 * whole..xs.len() {
        xs[i] = O::word(xs[i], ys[i]);
    }
}

/// An operation on three words that does the same to each three bits. `Plane::put_triple` runs it over planes.
///
/// An implementation gives the operation on words, `op`, the one on bits, `bit`, and the law that ties them, `by_bit`.
pub trait TripleOp {
    ghost op: { ℕ → ℕ → ℕ → ℕ };

    ghost bit: { Bool → Bool → Bool → Bool };

    /// The operation in each of four lanes.
    fn lanes(x: u64x4, y: u64x4, z: u64x4) -> u64x4
        requires { (length x ≡ 4) × (length y ≡ 4) × (length z ≡ 4) }
        ensures { (length result ≡ 4) × ((j : ℕ) → j < 4 → slice_index result j ≡ op (slice_index x j) (slice_index y j) (slice_index z j)) };

    /// The operation on one word of each.
    fn word(x: u64, y: u64, z: u64) -> u64
        ensures { result ≡ op x y z };

    ghost by_bit: { ByBit3 op bit };
}

/// The second where the third, the mask, is 1, and else the first.
pub struct Select;

impl TripleOp for Select {
    ghost op = { λ x y m. bit_xor x (bit_and (bit_xor x y) m) };

    ghost bit = { λ x y m. cond m y x };

    ghost by_bit = { select_by_bit };

    #[tactic(auto, using(crate::proofs::Rules::lanes))]
    fn lanes(x: u64x4, y: u64x4, z: u64x4) -> u64x4 {
        x ^ ((x ^ y) & z)
    }

    fn word(x: u64, y: u64, z: u64) -> u64 {
        x ^ ((x ^ y) & z)
    }
}

/// Whether x is below y, from the bits of both and whether the bits below them were so, which comes first.
pub struct Borrow;

impl TripleOp for Borrow {
    ghost op = { borrow_word };

    ghost bit = { borrow_bit };

    ghost by_bit = { borrow_by_bit };

    fn lanes(x: u64x4, y: u64x4, z: u64x4) -> u64x4 {
        x ^ ((x ^ z) & (y ^ z))
    }

    fn word(x: u64, y: u64, z: u64) -> u64 {
        x ^ ((x ^ z) & (y ^ z))
    }
}

/// What an operation makes of three bits.
#[inline(always)]
pub fn bit_of_three<O: TripleOp>(a: bool, b: bool, c: bool) -> bool
    ensures { result ≡ O.bit a b c }
{
    O::word(word_of(a), word_of(b), word_of(c)) & 1 == 1
}

/// Puts what the operation makes of each three words into `xs`.
pub fn put_triples<O: TripleOp>(xs: &mut [u64], ys: &[u64], zs: &[u64])
    requires xy { length xs.old ≡ length ys.now }
    requires xz { length xs.old ≡ length zs.now }
    ensures { (i : ℕ) → i < length xs.old → slice_index xs.new i ≡ O.op (slice_index xs.old i) (slice_index ys.now i) (slice_index zs.now i) }
{
    let whole = xs.len() / 4;
    for k in 0..whole {
        let at = 4 * k;
        let x = u64x4::from_slice(&xs[at..]);
        let y = u64x4::from_slice(&ys[at..]);
        let z = u64x4::from_slice(&zs[at..]);
        O::lanes(x, y, z).copy_to_slice(&mut xs[at..]);
    }
    for i in 4 * whole..xs.len() {
        xs[i] = O::word(xs[i], ys[i], zs[i]);
    }
}

/// One step of an addition in place: the sums of `xs`, `sum` and `carry` into `sum`, and what they carry into `carry`.
pub(crate) fn accumulate_words(xs: &[u64], sum: &mut [u64], carry: &mut [u64])
    requires xs { length xs.now ≡ length sum.old }
    requires xc { length xs.now ≡ length carry.old }
    ensures sums { (i : ℕ) → i < length xs.now → slice_index sum.new i ≡ sum_word (slice_index xs.now i) (slice_index sum.old i) (slice_index carry.old i) }
    ensures carries { (i : ℕ) → i < length xs.now → slice_index carry.new i ≡ carry_word (slice_index xs.now i) (slice_index sum.old i) (slice_index carry.old i) }
{
    let whole = xs.len() / 4;
    for k in 0..whole {
        let at = 4 * k;
        let x = u64x4::from_slice(&xs[at..]);
        let s = u64x4::from_slice(&sum[at..]);
        let c = u64x4::from_slice(&carry[at..]);
        let t = x ^ s;
        (t ^ c).copy_to_slice(&mut sum[at..]);
        ((x & s) | (t & c)).copy_to_slice(&mut carry[at..]);
    }
    for i in 4 * whole..xs.len() {
        let x = xs[i];
        let s = sum[i];
        let c = carry[i];
        let t = x ^ s;
        sum[i] = t ^ c;
        carry[i] = (x & s) | (t & c);
    }
}

/// Turns every bit.
pub(crate) fn invert_words(xs: &mut [u64])
    ensures { (i : ℕ) → i < length xs.old → slice_index xs.new i ≡ bit_xor (slice_index xs.old i) (2 ^ 64 - 1) }
{
    let whole = xs.len() / 4;
    for k in 0..whole {
        let at = 4 * k;
        let x = u64x4::from_slice(&xs[at..]);
        (x ^ u64x4::splat(u64::MAX)).copy_to_slice(&mut xs[at..]);
    }
    for i in 4 * whole..xs.len() {
        xs[i] ^= u64::MAX;
    }
}

/// Whether the first `count` words are the same.
pub(crate) fn same_words(xs: &[u64], ys: &[u64], count: usize) -> bool
    requires { (count ≤ length xs.now) × (count ≤ length ys.now) }
    ensures { IsTrue result ↔ ((i j : ℕ) → i < count → j < 64 → word_bit (slice_index xs.now i) j ≡ word_bit (slice_index ys.now i) j) }
{
    let whole = count / 4;
    for k in 0..whole {
        let at = 4 * k;
        let x = u64x4::from_slice(&xs[at..]);
        let y = u64x4::from_slice(&ys[at..]);
        if (x ^ y).reduce_or() != 0 {
            return false;
        }
    }
    for i in 4 * whole..count {
        if xs[i] != ys[i] {
            return false;
        }
    }
    true
}

/// Bit `k` of each of the 64 numbers from `64 * block` on, where it is the block's and so the same in all of them.
#[inline(always)]
fn far_stripe_word(k: u32, block: usize) -> u64
    requires far { 6 ≤ k }
    requires small { k < 64 }
    ensures { (i : ℕ) → i < 64 → word_bit result i ≡ word_bit (64 * block + i) k }
{
    if (block >> (k - 6)) & 1 == 1 {
        u64::MAX
    } else {
        0
    }
}

/// Bit `k` of each of the 64 numbers from `64 * block` on, the first of them lowest.
pub(crate) fn stripe_word(k: u32, block: usize) -> u64
    requires { k < 64 }
    ensures { (i : ℕ) → i < 64 → word_bit result i ≡ word_bit (64 * block + i) k }
{
    match k {
        0 => 0xAAAA_AAAA_AAAA_AAAA,
        1 => 0xCCCC_CCCC_CCCC_CCCC,
        2 => 0xF0F0_F0F0_F0F0_F0F0,
        3 => 0xFF00_FF00_FF00_FF00,
        4 => 0xFFFF_0000_FFFF_0000,
        5 => 0xFFFF_FFFF_0000_0000,
        _ => far_stripe_word(k, block),
    }
}

/// Puts the four words of a vector behind the words that are there. There is room for them.
#[inline(always)]
fn push_lanes(made: &mut Vec<u64>, lanes: u64x4)
    requires four { length lanes ≡ 4 }
    requires room { vec_len made.old + 4 ≤ vec_capacity made.old }
    ensures items { made.new.items ≡ made.old.items ++ lanes }
    ensures len { vec_len made.new ≡ vec_len made.old + 4 }
    ensures capacity { vec_capacity made.new ≡ vec_capacity made.old }
{
    let [first, second, third, fourth] = lanes.to_array();
    made.push_reserved(first);
    made.push_reserved(second);
    made.push_reserved(third);
    made.push_reserved(fourth);
}

/// Puts the four words of a vector into `out` from `at` on, the first of them first. By `copy_to_slice` the second half is
/// stored before the first, which costs up to a third more where a store goes over the end of a cache line.
#[inline(always)]
pub(crate) fn put_lanes(lanes: u64x4, out: &mut [u64], at: usize)
    requires four { length lanes ≡ 4 }
    requires room { at + 4 ≤ length out.old }
    ensures { out.new ≡ put_chunk at out.old lanes }
{
    let [first, second, third, fourth] = lanes.to_array();
    out[at] = first;
    out[at + 1] = second;
    out[at + 2] = third;
    out[at + 3] = fourth;
}

/// The same of the four blocks from `4 * quad` on, one in each lane.
#[inline(always)]
fn stripe_lanes(k: u32, quad: usize) -> u64x4
    requires far { 6 ≤ k }
    requires small { k < 64 }
    requires room { 4 * quad < 2 ^ 64 }
    ensures four { length result ≡ 4 }
    ensures words { (i j : ℕ) → i < 4 → j < 64 → word_bit (slice_index result i) j ≡ word_bit (64 * (4 * quad + i) + j) k }
{
    match k {
        6 => u64x4::from_array([0, u64::MAX, 0, u64::MAX]),
        7 => u64x4::from_array([0, 0, u64::MAX, u64::MAX]),
        _ => u64x4::splat(far_stripe_word(k, 4 * quad)),
    }
}

/// So many new words, in which each place has bit `k` of its number, where that is the same throughout each word.
pub(crate) fn many_stripes(alloc: Global, k: u32, count: usize) -> Result<Vec<u64>, AllocError>
    requires far { 6 ≤ k }
    requires small { k < 64 }
    ensures count { IfOk result (λ made. length made.items ≡ count) }
    ensures words { IfOk result (λ made. (i j : ℕ) → i < count → j < 64 → word_bit (slice_index made.items i) j ≡ word_bit (64 * i + j) k) }
{
    let mut made = Vec::with_capacity(alloc, count)?;
    let whole = count / 4;
    for n in 0..whole {
        push_lanes(&mut made, stripe_lanes(k, n));
    }
    for i in 4 * whole..count {
        made.push_reserved(stripe_word(k, i));
    }
    Ok(made)
}

/// What the operation makes of each two words, in new words.
pub(crate) fn many_words<O: WordOp>(
    alloc: Global,
    xs: &[u64],
    ys: &[u64],
) -> Result<Vec<u64>, AllocError>
    requires { length xs.now ≡ length ys.now }
    ensures count { IfOk result (λ made. length made.items ≡ length xs.now) }
    ensures words { IfOk result (λ made. (i : ℕ) → i < length xs.now → slice_index made.items i ≡ O.op (slice_index xs.now i) (slice_index ys.now i)) }
{
    let count = xs.len();
    let mut made = Vec::with_capacity(alloc, count)?;
    let whole = count / 4;
    for k in 0..whole {
        let at = 4 * k;
        let x = u64x4::from_slice(&xs[at..]);
        let y = u64x4::from_slice(&ys[at..]);
        push_lanes(&mut made, O::lanes(x, y));
    }
    for i in 4 * whole..count {
        made.push_reserved(O::word(xs[i], ys[i]));
    }
    Ok(made)
}

/// What the operation makes of each three words, in new words.
pub(crate) fn many_triples<O: TripleOp>(
    alloc: Global,
    xs: &[u64],
    ys: &[u64],
    zs: &[u64],
) -> Result<Vec<u64>, AllocError>
    requires xy { length xs.now ≡ length ys.now }
    requires xz { length xs.now ≡ length zs.now }
    ensures count { IfOk result (λ made. length made.items ≡ length xs.now) }
    ensures words { IfOk result (λ made. (i : ℕ) → i < length xs.now → slice_index made.items i ≡ O.op (slice_index xs.now i) (slice_index ys.now i) (slice_index zs.now i)) }
{
    let count = xs.len();
    let mut made = Vec::with_capacity(alloc, count)?;
    let whole = count / 4;
    for k in 0..whole {
        let at = 4 * k;
        let x = u64x4::from_slice(&xs[at..]);
        let y = u64x4::from_slice(&ys[at..]);
        let z = u64x4::from_slice(&zs[at..]);
        push_lanes(&mut made, O::lanes(x, y, z));
    }
    for i in 4 * whole..count {
        made.push_reserved(O::word(xs[i], ys[i], zs[i]));
    }
    Ok(made)
}

/// Each word with every bit turned, in new words.
pub(crate) fn many_inverted(alloc: Global, xs: &[u64]) -> Result<Vec<u64>, AllocError>
    ensures count { IfOk result (λ made. length made.items ≡ length xs.now) }
    ensures words { IfOk result (λ made. (i : ℕ) → i < length xs.now → slice_index made.items i ≡ bit_xor (slice_index xs.now i) (2 ^ 64 - 1)) }
{
    let count = xs.len();
    let mut made = Vec::with_capacity(alloc, count)?;
    let whole = count / 4;
    for k in 0..whole {
        let at = 4 * k;
        let x = u64x4::from_slice(&xs[at..]);
        push_lanes(&mut made, x ^ u64x4::splat(u64::MAX));
    }
    for i in 4 * whole..count {
        made.push_reserved(xs[i] ^ u64::MAX);
    }
    Ok(made)
}

/// One step of an addition of numbers whose bits lie in planes: the sums of `xs`, `ys` and `carry` in new words, and what they
/// carry in `carry`.
pub(crate) fn many_sums(
    alloc: Global,
    xs: &[u64],
    ys: &[u64],
    carry: &mut [u64],
) -> Result<Vec<u64>, AllocError>
    requires xy { length xs.now ≡ length ys.now }
    requires xc { length xs.now ≡ length carry.old }
    ensures count { IfOk result (λ sum. length sum.items ≡ length xs.now) }
    ensures sums { IfOk result (λ sum. (i : ℕ) → i < length xs.now → slice_index sum.items i ≡ sum_word (slice_index xs.now i) (slice_index ys.now i) (slice_index carry.old i)) }
    ensures carries { IfOk result (λ _. (i : ℕ) → i < length xs.now → slice_index carry.new i ≡ carry_word (slice_index xs.now i) (slice_index ys.now i) (slice_index carry.old i)) }
{
    let count = xs.len();
    let mut sum = Vec::with_capacity(alloc, count)?;
    let whole = count / 4;
    for k in 0..whole {
        let at = 4 * k;
        let x = u64x4::from_slice(&xs[at..]);
        let y = u64x4::from_slice(&ys[at..]);
        let c = u64x4::from_slice(&carry[at..]);
        let t = x ^ y;
        push_lanes(&mut sum, t ^ c);
        ((x & y) | (t & c)).copy_to_slice(&mut carry[at..]);
    }
    for i in 4 * whole..count {
        let x = xs[i];
        let y = ys[i];
        let c = carry[i];
        let t = x ^ y;
        sum.push_reserved(t ^ c);
        carry[i] = (x & y) | (t & c);
    }
    Ok(sum)
}

/// One step of a subtraction of numbers whose bits lie in planes: what is left of `xs` without `ys` and `borrow` in new words, and
/// what they borrow in `borrow`.
pub(crate) fn many_differences(
    alloc: Global,
    xs: &[u64],
    ys: &[u64],
    borrow: &mut [u64],
) -> Result<Vec<u64>, AllocError>
    requires xy { length xs.now ≡ length ys.now }
    requires xc { length xs.now ≡ length borrow.old }
    ensures count { IfOk result (λ difference. length difference.items ≡ length xs.now) }
    ensures differences { IfOk result (λ difference. (i : ℕ) → i < length xs.now → slice_index difference.items i ≡ sum_word (slice_index xs.now i) (slice_index ys.now i) (slice_index borrow.old i)) }
    ensures borrows { IfOk result (λ _. (i : ℕ) → i < length xs.now → slice_index borrow.new i ≡ borrow_word (slice_index borrow.old i) (slice_index xs.now i) (slice_index ys.now i)) }
{
    let count = xs.len();
    let mut difference = Vec::with_capacity(alloc, count)?;
    let whole = count / 4;
    for k in 0..whole {
        let at = 4 * k;
        let x = u64x4::from_slice(&xs[at..]);
        let y = u64x4::from_slice(&ys[at..]);
        let b = u64x4::from_slice(&borrow[at..]);
        let t = x ^ y;
        push_lanes(&mut difference, t ^ b);
        (b ^ ((b ^ y) & t)).copy_to_slice(&mut borrow[at..]);
    }
    for i in 4 * whole..count {
        let x = xs[i];
        let y = ys[i];
        let b = borrow[i];
        let t = x ^ y;
        difference.push_reserved(t ^ b);
        borrow[i] = b ^ ((b ^ y) & t);
    }
    Ok(difference)
}

/// Whether each of the first `count` words is this one.
pub(crate) fn are_all(xs: &[u64], word: u64, count: usize) -> bool
    requires { count ≤ length xs.now }
    ensures { IsTrue result ↔ ((i j : ℕ) → i < count → j < 64 → word_bit (slice_index xs.now i) j ≡ word_bit word j) }
{
    let whole = count / 4;
    for k in 0..whole {
        let at = 4 * k;
        let x = u64x4::from_slice(&xs[at..]);
        if (x ^ u64x4::splat(word)).reduce_or() != 0 {
            return false;
        }
    }
    for i in 4 * whole..count {
        if xs[i] != word {
            return false;
        }
    }
    true
}
