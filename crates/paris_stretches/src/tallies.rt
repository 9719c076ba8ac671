//! What numbers come to, one after another.

ghost use Rattle.std.specs.Prelude.{◌≡◌, ℕ, ◌+◌, ◌*◌, ◌^◌, ◌<◌, ◌≤◌, List, [], ◌∷◌, ◌++◌, length, map, slice_index};
ghost use Rattle.std.specs.List.{range_with_len, slice_range};
ghost use Rattle.paris_stretches.specs.Tallies.{IsTally};

use paris_field::{FieldValue, block_numbers, block_words};

/// What some numbers come to. Their sum is that of their low words, and that of their high words.
#[derive(Clone, Copy)]
pub(crate) struct Tally {
    pub(crate) least: u128,
    pub(crate) greatest: u128,
    pub(crate) low: u128,
    pub(crate) high: u128,
    pub(crate) others: u64,
}

impl Tally {
    /// The tally of no numbers.
    fn new() -> Tally
        ensures { IsTally [] result }
    {
        Tally {
            least: u128::MAX,
            greatest: 0,
            low: 0,
            high: 0,
            others: 0,
        }
    }

    /// Adds a number.
    #[inline(always)]
    fn add(&mut self, number: u128)
        requires { (xs : List ℕ) × IsTally xs self.old × (length xs + 1 < 2 ^ 64) }
        ensures { (xs : List ℕ) → IsTally xs self.old → IsTally (xs ++ number ∷ []) self.new }
    {
        self.least = self.least.min(number);
        self.greatest = self.greatest.max(number);
        self.low += number % (1 << 64);
        self.high += number >> 64;
        self.others += u64::from(number != 0);
    }

    /// Adds numbers of one word each.
    fn add_words(&mut self, words: &[u64])
        requires { (xs : List ℕ) × IsTally xs self.old × (length xs + length words.now < 2 ^ 64) }
        ensures { (xs : List ℕ) → IsTally xs self.old → IsTally (xs ++ words.now) self.new }
    {
        for i in 0..words.len() {
            self.add(u128::from(words[i]));
        }
    }

    /// Adds numbers.
    fn add_numbers(&mut self, numbers: &[u128])
        requires { (xs : List ℕ) × IsTally xs self.old × (length xs + length numbers.now < 2 ^ 64) }
        ensures { (xs : List ℕ) → IsTally xs self.old → IsTally (xs ++ numbers.now) self.new }
    {
        for i in 0..numbers.len() {
            self.add(numbers[i]);
        }
    }

    /// Adds the numbers of a value in the processors of a block from place `from` in it on, so many of them.
    fn add_block(&mut self, value: &FieldValue, block: usize, from: usize, count: usize)
        requires within { 64 * block < length value.now.numbers }
        requires block { from + count ≤ 64 }
        requires processors { 64 * block + (from + count) ≤ length value.now.numbers }
        requires room { (xs : List ℕ) × IsTally xs self.old × (length xs + count < 2 ^ 64) }
        ensures { (xs : List ℕ) → IsTally xs self.old → IsTally (xs ++ map (slice_index value.now.numbers) (range_with_len (64 * block + from) count)) self.new }
    {
        if value.width() <= 64 {
            let words = block_words(value.planes(), block, value.len());
            self.add_words(&words[from..from + count]);
        } else {
            let numbers = block_numbers(value.planes(), block, value.len());
            self.add_numbers(&numbers[from..from + count]);
        }
    }
}

/// The tally of the numbers of a value in the processors from one to before another, block by block. It takes no memory.
pub(crate) fn tally_of(value: &FieldValue, start: usize, stop: usize) -> Tally
    requires order { start ≤ stop }
    requires within { stop ≤ length value.now.numbers }
    ensures { IsTally (slice_range value.now.numbers start stop) result }
{
    let mut tally = Tally::new();
    for block in start / 64..stop.div_ceil(64) {
        let from = start.max(64 * block);
        let place = from - 64 * block;
        let count = (stop - from).min(64 - place);
        tally.add_block(value, block, place, count);
    }
    tally
}
