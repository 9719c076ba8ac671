//! A plane of bits, one for each virtual processor.

ghost use Rattle.std.specs.Prelude.{◌≡◌, ◌≢◌, ◌↔◌, ℕ, ◌+◌, ◌-◌, ◌*◌, ◌/◌, ◌%◌, ◌^◌, IfOk, IsTrue, cond, length, map, not, ◌<◌, ◌≤◌, replicate, slice_index, slice_index_or, slice_set, true, false, ◌&&◌, ◌||◌};
ghost use Rattle.std.specs.Simd.Lanes.{zip2};
ghost use Rattle.std.specs.Int.{IsPowerOfTwo};
ghost use Rattle.paris_plane.specs.Bits.{borrow_bit, carry_bit, differ, stripes, sum_bit, word_bit, words_for, zip3};
ghost use Rattle.paris_plane.specs.Digits.{digit};

use crate::exchange::exchange_words;
use crate::kernel::{
    And, Or, Select, TripleOp, WordOp, Xor, accumulate_words, are_all, invert_words, put_triples,
    put_words, same_words, word_of,
};
use crate::moves::{lower_words, raise_words};
use crate::runs::{alternate_words, repeated_words};
use crate::turns::{turn_down_words, turn_up_words};
use crate::words::{
    Words, copied_words, difference_words, filled_words, new_inverted, new_triples, new_words,
    stripe_words, sum_words,
};
use std::alloc::{AllocError, Global};
use std::marker::Model;

/// Bits, one for each virtual processor, that of processor 0 first. A clause sees the list of the bits.
///
/// Bit `v` is bit `v % 64` of word `v / 64`. The bits of the last word past the end mean nothing: no operation keeps them
/// at any value, and no contract speaks of them.
#[derive(Debug, Drop)]
pub struct Plane {
    words: Words,
    len: usize,
}

impl Model for Plane {
    ghost use Rattle.std.specs.Prelude.{List, Bool, ◌≡◌};
    ghost use Rattle.smallvec.specs.SmallVec.{small_vec_len};
    ghost use Rattle.paris_plane.specs.Bits.{bits, words_for};

    ghost Value = { List Bool };

    ghost view = { λ p. bits p.len p.words.items };

    ghost invariant = { λ p. small_vec_len p.words ≡ words_for p.len };
}

/// The words that hold `len` bits.
fn words_needed(len: usize) -> usize
    ensures { result ≡ words_for len }
{
    len.div_ceil(64)
}

impl Plane {
    /// A plane of `len` zeros. Fails only for want of memory.
    pub fn zeros(alloc: Global, len: usize) -> Result<Plane, AllocError>
        ensures { IfOk result (λ p. p ≡ replicate len false) }
    {
        let words = filled_words(alloc, 0, words_needed(len))?;
        Ok(Plane { words, len })
    }

    /// A plane of `len` ones. Fails only for want of memory.
    pub fn ones(alloc: Global, len: usize) -> Result<Plane, AllocError>
        ensures { IfOk result (λ p. p ≡ replicate len true) }
    {
        let words = filled_words(alloc, u64::MAX, words_needed(len))?;
        Ok(Plane { words, len })
    }

    /// A plane of `len` bits that are all the same. Fails only for want of memory.
    pub fn filled(alloc: Global, bit: bool, len: usize) -> Result<Plane, AllocError>
        ensures { IfOk result (λ p. p ≡ replicate len bit) }
    {
        if bit {
            Plane::ones(alloc, len)
        } else {
            Plane::zeros(alloc, len)
        }
    }

    /// A plane of `len` bits, of which that of each processor is bit `k` of its own number. Fails only for want of memory.
    pub fn stripes(alloc: Global, k: u32, len: usize) -> Result<Plane, AllocError>
        requires { k < 64 }
        ensures { IfOk result (λ p. p ≡ stripes k len) }
    {
        let words = stripe_words(alloc, k, words_needed(len))?;
        Ok(Plane { words, len })
    }

    /// Another plane with the same bits. Fails only for want of memory.
    pub fn copy(&self) -> Result<Plane, AllocError>
        ensures { IfOk result (λ p. p ≡ self.now) }
    {
        let words = copied_words(*self.words.allocator(), &self.words)?;
        Ok(Plane {
            words,
            len: self.len,
        })
    }

    /// What the operation makes of each two bits. Fails only for want of memory.
    #[tactic(auto, using(crate::proofs::Rules::plane))]
    #[inline(always)]
    pub fn combined<O: WordOp>(alloc: Global, x: &Plane, y: &Plane) -> Result<Plane, AllocError>
        requires { length x.now ≡ length y.now }
        ensures { IfOk result (λ p. p ≡ zip2 O.bit x.now y.now) }
    {
        let words = new_words::<O>(alloc, &x.words, &y.words)?;
        Ok(Plane { words, len: x.len })
    }

    /// What the operation makes of each three bits. Fails only for want of memory.
    #[tactic(auto, using(crate::proofs::Rules::plane))]
    pub fn combined_triple<O: TripleOp>(
        alloc: Global,
        x: &Plane,
        y: &Plane,
        z: &Plane,
    ) -> Result<Plane, AllocError>
        requires second { length x.now ≡ length y.now }
        requires third { length x.now ≡ length z.now }
        ensures { IfOk result (λ p. p ≡ zip3 O.bit x.now y.now z.now) }
    {
        let words = new_triples::<O>(alloc, &x.words, &y.words, &z.words)?;
        Ok(Plane { words, len: x.len })
    }

    /// The bits of `chosen` where `mask` is 1, and those of `others` elsewhere. Fails only for want of memory.
    pub fn selected(
        alloc: Global,
        mask: &Plane,
        chosen: &Plane,
        others: &Plane,
    ) -> Result<Plane, AllocError>
        requires chosen { length others.now ≡ length chosen.now }
        requires mask { length others.now ≡ length mask.now }
        ensures { IfOk result (λ p. p ≡ zip3 (λ x y m. cond m y x) others.now chosen.now mask.now) }
    {
        Plane::combined_triple::<Select>(alloc, others, chosen, mask)
    }

    /// Another plane with every bit turned. Fails only for want of memory.
    pub fn inverted(alloc: Global, x: &Plane) -> Result<Plane, AllocError>
        ensures { IfOk result (λ p. p ≡ map not x.now) }
    {
        let words = new_inverted(alloc, &x.words)?;
        Ok(Plane { words, len: x.len })
    }

    /// Adds three bits in each place, as one step of an addition of numbers whose bits lie in planes: their sums, and in `carry`
    /// what they carry. Fails only for want of memory; the carries then mean nothing.
    #[inline(always)]
    pub fn summed(
        alloc: Global,
        x: &Plane,
        y: &Plane,
        carry: &mut Plane,
    ) -> Result<Plane, AllocError>
        requires second { length x.now ≡ length y.now }
        requires carries { length x.now ≡ length carry.old }
        ensures long { length carry.new ≡ length carry.old }
        ensures sums { IfOk result (λ p. p ≡ zip3 sum_bit x.now y.now carry.old) }
        ensures carries { IfOk result (λ _. carry.new ≡ zip3 carry_bit x.now y.now carry.old) }
    {
        let words = sum_words(alloc, &x.words, &y.words, &mut carry.words)?;
        Ok(Plane { words, len: x.len })
    }

    /// Takes two bits from a third in each place, as one step of a subtraction of numbers whose bits lie in planes: what is left of
    /// `x` without `y` and `borrow`, and in `borrow` what they borrow. Fails only for want of memory; the borrows then mean nothing.
    pub fn difference(
        alloc: Global,
        x: &Plane,
        y: &Plane,
        borrow: &mut Plane,
    ) -> Result<Plane, AllocError>
        requires second { length x.now ≡ length y.now }
        requires borrows { length x.now ≡ length borrow.old }
        ensures long { length borrow.new ≡ length borrow.old }
        ensures differences { IfOk result (λ p. p ≡ zip3 sum_bit x.now y.now borrow.old) }
        ensures borrows { IfOk result (λ _. borrow.new ≡ zip3 borrow_bit borrow.old x.now y.now) }
    {
        let words = difference_words(alloc, &x.words, &y.words, &mut borrow.words)?;
        Ok(Plane { words, len: x.len })
    }

    /// Whether every bit is this one. It ends at the first words that tell.
    pub fn is_all(&self, bit: bool) -> bool
        ensures { IsTrue result ↔ self.now ≡ replicate (length self.now) bit }
    {
        let word = word_of(bit);
        let whole = self.len / 64;
        if !are_all(&self.words, word, whole) {
            return false;
        }
        let rest = self.len % 64;
        if rest == 0 {
            return true;
        }
        (self.words[whole] ^ word) % (1u64 << rest) == 0
    }

    /// Every second one of its runs of `words` words, of which the first begins at word `from`: `count` of them. Fails only for want of
    /// memory.
    pub fn alternate(&self, from: usize, words: usize, count: usize) -> Result<Plane, AllocError>
        requires from { from ≤ words }
        requires whole { length self.now ≡ 2 * (count * (64 * words)) }
        ensures long { IfOk result (λ p. length p ≡ count * (64 * words)) }
        ensures bits { IfOk result (λ p. (i j : ℕ) → i < count → j < 64 * words → slice_index_or p (i * (64 * words) + j) false ≡ slice_index_or self.now (i * (128 * words) + (64 * from + j)) false) }
    {
        let made = alternate_words(*self.words.allocator(), &self.words, from, words, count)?;
        Ok(Plane {
            words: made,
            len: self.len / 2,
        })
    }

    /// Each of its `runs` runs of `words` words, `count` times over. Fails only for want of memory.
    pub fn repeated(&self, words: usize, runs: usize, count: usize) -> Result<Plane, AllocError>
        requires some { 0 < count }
        requires whole { length self.now ≡ runs * (64 * words) }
        requires small { length self.now * count < 2 ^ 63 }
        ensures long { IfOk result (λ p. length p ≡ runs * (count * (64 * words))) }
        ensures bits { IfOk result (λ p. (i c j : ℕ) → i < runs → c < count → j < 64 * words → slice_index_or p (i * (count * (64 * words)) + (c * (64 * words) + j)) false ≡ slice_index_or self.now (i * (64 * words) + j) false) }
    {
        let made = repeated_words(*self.words.allocator(), &self.words, words, runs, count)?;
        Ok(Plane {
            words: made,
            len: self.len * count,
        })
    }

    /// The number of bits.
    #[tactic(auto, using(crate::proofs::Rules::plane))]
    pub fn len(&self) -> usize
        ensures { result ≡ length self.now }
    {
        self.len
    }

    /// The bit of processor `v`.
    pub fn get(&self, v: usize) -> bool
        requires { v < length self.now }
        ensures { result ≡ slice_index_or self.now v false }
    {
        (self.words[v / 64] >> (v % 64)) & 1 == 1
    }

    /// Writes the bit of processor `v`.
    pub fn set(&mut self, v: usize, bit: bool)
        requires { v < length self.old }
        ensures { self.new ≡ slice_set self.old v bit }
    {
        let word = self.words[v / 64];
        let one = 1u64 << (v % 64);
        if bit {
            self.words[v / 64] = word | one;
        } else {
            self.words[v / 64] = word & !one;
        }
    }

    /// Writes one bit everywhere.
    pub fn fill(&mut self, bit: bool)
        ensures { self.new ≡ replicate (length self.old) bit }
    {
        let word = if bit { u64::MAX } else { 0 };
        self.words.fill(word);
    }

    /// The 64 bits from `64 * block` on, the first of them lowest. Those past the end mean nothing.
    pub fn word(&self, block: usize) -> u64
        requires { 64 * block < length self.now }
        ensures { (i : ℕ) → i < 64 → 64 * block + i < length self.now → word_bit result i ≡ slice_index_or self.now (64 * block + i) false }
    {
        self.words[block]
    }

    /// Puts 64 bits from `64 * block` on, the lowest of them first. Those past the end are left out.
    pub fn set_word(&mut self, block: usize, word: u64)
        requires { 64 * block < length self.old }
        ensures long { length self.new ≡ length self.old }
        ensures bits { (i : ℕ) → i < 64 → 64 * block + i < length self.old → slice_index_or self.new (64 * block + i) false ≡ word_bit word i }
        ensures others { (v : ℕ) → v < length self.old → v / 64 ≢ block → slice_index_or self.new v false ≡ slice_index_or self.old v false }
    {
        self.words[block] = word;
    }

    /// Whether both have the same length and the same bits.
    pub fn equals(&self, other: &Plane) -> bool
        ensures { IsTrue result ↔ self.now ≡ other.now }
    {
        if self.len != other.len {
            return false;
        }
        self.agrees(other)
    }

    /// Whether two planes of one length have the same bits. Of the last word it compares those below the end alone.
    fn agrees(&self, other: &Plane) -> bool
        requires { length self.now ≡ length other.now }
        ensures { IsTrue result ↔ self.now ≡ other.now }
    {
        let whole = self.len / 64;
        if !same_words(&self.words, &other.words, whole) {
            return false;
        }
        let rest = self.len % 64;
        if rest == 0 {
            return true;
        }
        (self.words[whole] ^ other.words[whole]) % (1u64 << rest) == 0
    }

    /// Puts what the operation makes of each bit and that of `other` in its place.
    #[tactic(auto, using(crate::proofs::Rules::plane))]
    pub fn put<O: WordOp>(&mut self, other: &Plane)
        requires { length self.old ≡ length other.now }
        ensures { self.new ≡ zip2 O.bit self.old other.now }
    {
        put_words::<O>(&mut self.words, &other.words);
    }

    /// Keeps a 1 where `other` has one too.
    pub fn and_in(&mut self, other: &Plane)
        requires { length self.old ≡ length other.now }
        ensures { self.new ≡ zip2 (λ a b. a && b) self.old other.now }
    {
        self.put::<And>(other);
    }

    /// Puts a 1 also where `other` has one.
    pub fn or_in(&mut self, other: &Plane)
        requires { length self.old ≡ length other.now }
        ensures { self.new ≡ zip2 (λ a b. a || b) self.old other.now }
    {
        self.put::<Or>(other);
    }

    /// Turns the bits where `other` has a 1.
    pub fn xor_in(&mut self, other: &Plane)
        requires { length self.old ≡ length other.now }
        ensures { self.new ≡ zip2 differ self.old other.now }
    {
        self.put::<Xor>(other);
    }

    /// Turns every bit.
    pub fn not_in(&mut self)
        ensures { self.new ≡ map not self.old }
    {
        invert_words(&mut self.words);
    }

    /// Puts the bits of `other`, each `by` places up, and zeros below them.
    pub fn raise_from(&mut self, other: &Plane, by: usize)
        requires { length self.old ≡ length other.now }
        ensures long { length self.new ≡ length self.old }
        ensures low { (v : ℕ) → v < by → v < length self.old → slice_index_or self.new v false ≡ false }
        ensures raised { (v : ℕ) → v + by < length self.old → slice_index_or self.new (v + by) false ≡ slice_index_or other.now v false }
    {
        raise_words(by, &other.words, &mut self.words);
    }

    /// Puts the bits of `other`, each `by` places down. The bits above the last that comes down mean nothing.
    pub fn lower_from(&mut self, other: &Plane, by: usize)
        requires { length self.old ≡ length other.now }
        ensures long { length self.new ≡ length self.old }
        ensures lowered { (v : ℕ) → v + by < length self.old → slice_index_or self.new v false ≡ slice_index_or other.now (v + by) false }
    {
        lower_words(by, &other.words, &mut self.words);
    }

    /// Puts the bits of `other`, each two of which are exchanged whose places differ in the binary digit of weight `distance`. A
    /// bit whose other place is past the end means nothing.
    pub fn exchange_from(&mut self, other: &Plane, distance: usize)
        requires same { length self.old ≡ length other.now }
        requires power { IsPowerOfTwo distance }
        ensures long { length self.new ≡ length self.old }
        ensures low { (v : ℕ) → digit distance v ≡ 0 → v + distance < length self.old → slice_index_or self.new v false ≡ slice_index_or other.now (v + distance) false }
        ensures high { (v : ℕ) → digit distance v ≡ 0 → v + distance < length self.old → slice_index_or self.new (v + distance) false ≡ slice_index_or other.now v false }
    {
        exchange_words(distance, &other.words, &mut self.words);
    }

    /// Puts the bits of `other`, turned down by `by` places within each period of places: those that leave their period come in at
    /// its upper end.
    pub fn turn_down_from(&mut self, other: &Plane, by: usize, period: usize)
        requires same { length self.old ≡ length other.now }
        requires by { IsPowerOfTwo by }
        requires period { IsPowerOfTwo period }
        requires within { by ≤ period }
        requires whole { length self.old % period ≡ 0 }
        ensures long { length self.new ≡ length self.old }
        ensures inside { (v : ℕ) → v < length self.old → v % period + by < period → slice_index_or self.new v false ≡ slice_index_or other.now (v + by) false }
        ensures round { (v : ℕ) → v < length self.old → period ≤ v % period + by → slice_index_or self.new v false ≡ slice_index_or other.now (v + by - period) false }
    {
        turn_down_words(by, period, &other.words, &mut self.words);
    }

    /// Puts the bits of `other`, turned up by `by` places within each period of places: those that leave their period come in at its
    /// lower end.
    pub fn turn_up_from(&mut self, other: &Plane, by: usize, period: usize)
        requires same { length self.old ≡ length other.now }
        requires by { IsPowerOfTwo by }
        requires period { IsPowerOfTwo period }
        requires within { by ≤ period }
        requires whole { length self.old % period ≡ 0 }
        ensures long { length self.new ≡ length self.old }
        ensures inside { (v : ℕ) → v < length self.old → by ≤ v % period → slice_index_or self.new v false ≡ slice_index_or other.now (v - by) false }
        ensures round { (v : ℕ) → v < length self.old → v % period < by → slice_index_or self.new v false ≡ slice_index_or other.now (v + (period - by)) false }
    {
        turn_up_words(by, period, &other.words, &mut self.words);
    }

    /// Puts what the operation makes of each bit, that of `second` and that of `third` in its place.
    #[tactic(auto, using(crate::proofs::Rules::plane))]
    pub fn put_triple<O: TripleOp>(&mut self, second: &Plane, third: &Plane)
        requires second { length self.old ≡ length second.now }
        requires third { length self.old ≡ length third.now }
        ensures { self.new ≡ zip3 O.bit self.old second.now third.now }
    {
        put_triples::<O>(&mut self.words, &second.words, &third.words);
    }

    /// Takes the bits of `other` where `mask` is 1, and keeps its own elsewhere.
    pub fn select_in(&mut self, mask: &Plane, other: &Plane)
        requires mask { length self.old ≡ length mask.now }
        requires other { length self.old ≡ length other.now }
        ensures { self.new ≡ zip3 (λ x y m. cond m y x) self.old other.now mask.now }
    {
        self.put_triple::<Select>(other, mask);
    }
}

/// Adds three bits in each place, as one step of an addition in place: their sum goes into `sum`, which is one of the
/// three, and what they carry into `carry`.
pub fn accumulate_step(x: &Plane, sum: &mut Plane, carry: &mut Plane)
    requires sums { length x.now ≡ length sum.old }
    requires carries { length x.now ≡ length carry.old }
    ensures sums { sum.new ≡ zip3 sum_bit x.now sum.old carry.old }
    ensures carries { carry.new ≡ zip3 carry_bit x.now sum.old carry.old }
{
    accumulate_words(&x.words, &mut sum.words, &mut carry.words);
}
