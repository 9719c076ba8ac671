//! What the numbers of a stretch come to.

ghost use Rattle.std.specs.Prelude.{◌≡◌, ℕ, ◌+◌, ◌*◌, ◌/◌, ◌^◌, ◌<◌, ◌≤◌, List, length, sum};
ghost use Rattle.std.specs.List.{slice_range};
ghost use Rattle.paris_field.specs.Fields.{AllFit};
ghost use Rattle.paris_stretches.specs.Stretches.{count_others, greatest, least, stretch, sum_number};

use crate::bounds::bound;
use crate::counts::count_between;
use crate::tallies::tally_of;
use paris_field::FieldValue;

/// A sum in three words.
#[repr(C)]
#[derive(Clone, Copy, Debug)]
pub struct Sum {
    pub low: u64,
    pub middle: u64,
    pub high: u64,
}

/// What some numbers come to: the least, the greatest, their sum, and how many are other than 0.
#[derive(Clone, Copy, Debug)]
pub struct Summary {
    pub least: u128,
    pub greatest: u128,
    pub sum: Sum,
    pub others: u64,
}

impl Sum {
    /// The sum of so many low words, and of as many high ones.
    fn of(low: u128, high: u128) -> Sum
        requires { high + low / 2 ^ 64 < 2 ^ 128 }
        ensures { sum_number result ≡ high * 2 ^ 64 + low }
    {
        let upper = high + (low >> 64);
        Sum {
            low: (low % (1 << 64)) as u64,
            middle: (upper % (1 << 64)) as u64,
            high: (upper >> 64) as u64,
        }
    }
}

/// What some numbers of one bit come to, by how many of them are 1.
fn summary_of_bits(ones: u64, count: u64) -> Summary
    ensures least { (xs : List ℕ) → AllFit 1 xs → 0 < length xs → length xs ≡ count → count_others xs ≡ ones → result.least ≡ least xs }
    ensures greatest { (xs : List ℕ) → AllFit 1 xs → count_others xs ≡ ones → result.greatest ≡ greatest xs }
    ensures sum { (xs : List ℕ) → AllFit 1 xs → count_others xs ≡ ones → sum_number result.sum ≡ sum xs }
    ensures others { result.others ≡ ones }
{
    Summary {
        least: u128::from(ones == count),
        greatest: u128::from(ones != 0),
        sum: Sum {
            low: ones,
            middle: 0,
            high: 0,
        },
        others: ones,
    }
}

/// What the numbers of a value of one bit come to in the processors from one to before another, by counts.
fn bits_between(value: &FieldValue, start: usize, stop: usize) -> Summary
    requires width { value.now.width ≡ 1 }
    requires some { start < stop }
    requires within { stop ≤ length value.now.numbers }
    ensures least { result.least ≡ least (slice_range value.now.numbers start stop) }
    ensures greatest { result.greatest ≡ greatest (slice_range value.now.numbers start stop) }
    ensures sum { sum_number result.sum ≡ sum (slice_range value.now.numbers start stop) }
    ensures others { result.others ≡ count_others (slice_range value.now.numbers start stop) }
{
    let ones = count_between(value.planes(), start, stop, value.len());
    summary_of_bits(ones, (stop - start) as u64)
}

/// What the numbers of a value come to in the processors from one to before another.
fn numbers_between(value: &FieldValue, start: usize, stop: usize) -> Summary
    requires some { start < stop }
    requires within { stop ≤ length value.now.numbers }
    ensures least { result.least ≡ least (slice_range value.now.numbers start stop) }
    ensures greatest { result.greatest ≡ greatest (slice_range value.now.numbers start stop) }
    ensures sum { sum_number result.sum ≡ sum (slice_range value.now.numbers start stop) }
    ensures others { result.others ≡ count_others (slice_range value.now.numbers start stop) }
{
    let tally = tally_of(value, start, stop);
    Summary {
        least: tally.least,
        greatest: tally.greatest,
        sum: Sum::of(tally.low, tally.high),
        others: tally.others,
    }
}

/// What the numbers of stretch `i` of a value come to, where its processors are cut into so many parts. It takes no memory.
pub fn summary_of(value: &FieldValue, parts: usize, i: usize) -> Summary
    requires few { parts ≤ length value.now.numbers }
    requires within { i < parts }
    ensures least { result.least ≡ least (stretch parts value.now.numbers i) }
    ensures greatest { result.greatest ≡ greatest (stretch parts value.now.numbers i) }
    ensures sum { sum_number result.sum ≡ sum (stretch parts value.now.numbers i) }
    ensures others { result.others ≡ count_others (stretch parts value.now.numbers i) }
{
    let start = bound(value.len(), parts, i);
    let stop = bound(value.len(), parts, i + 1);
    if value.width() == 1 {
        bits_between(value, start, stop)
    } else {
        numbers_between(value, start, stop)
    }
}
