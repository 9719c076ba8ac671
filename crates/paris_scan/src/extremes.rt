//! Maxima and minima that are made one after another, as numbers, along lines.

ghost use Rattle.std.specs.Prelude.{◌≡◌, ◌≢◌, ℕ, ◌+◌, ◌*◌, ◌/◌, ◌<◌, ◌≤◌, IfOk, length, slice_index};
ghost use Rattle.paris_geometry.specs.Geometry.{processor_count};
ghost use Rattle.paris_model.specs.Combine.{combine, unit};
ghost use Rattle.paris_model.specs.declared.operators.Combiner.{Combiner};
ghost use Rattle.paris_model.specs.declared.operators.Combiner.TheVariants.{Maximum, Minimum};
ghost use Rattle.paris_field.specs.Numbers.{has};
ghost use Rattle.paris_scan.specs.Lines.{combined_field, scanned};
ghost use Rattle.paris_scan.specs.Running.{AreRunning, GoOn, HeldBefore, first_place, processors_of, shown_value, taken};

use crate::adjacent::power;
use crate::back::step_back;
use crate::lines::Along;
use crate::near::{has_bit, word_where};
use crate::running::{Steps, line_steps, walked, word_before};
use paris_field::FieldValue;
use paris_layer::Layer;
use paris_model::Inclusion;
use paris_plane::Plane;
use std::alloc::{AllocError, Global};

/// An operator that makes one of two words, and what no words come to.
pub(crate) trait Extreme {
    ghost operator: { Combiner };

    /// The value of no words, of so many bits.
    fn none(bits: u64) -> u64
        requires { bits ≤ 64 }
        ensures { result ≡ unit operator bits };

    /// The one of two words.
    fn one_of(x: u64, y: u64) -> u64
        ensures { (L : ℕ) → result ≡ combine operator L x y };
}

/// The greatest word.
pub(crate) struct Greatest;

impl Extreme for Greatest {
    ghost operator = { Maximum };

    fn none(_bits: u64) -> u64 {
        0
    }

    fn one_of(x: u64, y: u64) -> u64 {
        x.max(y)
    }
}

/// The least word.
pub(crate) struct Least;

impl Extreme for Least {
    ghost operator = { Minimum };

    fn none(bits: u64) -> u64 {
        (power(bits) - 1) as u64
    }

    fn one_of(x: u64, y: u64) -> u64 {
        x.min(y)
    }
}

/// The word of the processor before another one, with its own where it is selected.
fn next_word<E: Extreme>(selected: &Plane, words: &[u64], before: u64, v: usize) -> u64
    requires within { v < length words.now }
    requires count { length selected.now ≡ length words.now }
    ensures { (L : ℕ) → result ≡ taken E.operator L (has selected.now) words.now v before }
{
    let word = E::one_of(before, words[v]);
    if selected.get(v) { word } else { before }
}

/// Does `make_words` a processor at a time, however far apart neighbours are.
fn far_words<E: Extreme>(steps: &Steps, selected: &Plane, none: u64, words: &mut [u64])
    requires count { length steps.now.begins ≡ length words.old }
    requires selected { length selected.now ≡ length words.old }
    ensures long { length words.new ≡ length words.old }
    ensures words { (L : ℕ) (values : ℕ → ℕ) → AreRunning (taken E.operator L (has selected.now) words.old) none steps.now.direction steps.now.by (length words.old) (has steps.now.begins) values
        → (v : ℕ) → v < length words.old → slice_index words.new v ≡ values v }
{
    let count = words.len();
    for place in 0..count {
        let v = walked(steps.direction, count, place);
        let before = word_before(steps, words, none, v);
        words[v] = next_word::<E>(selected, words, before, v);
    }
}

/// Writes over the words of a block what the one before and their own come to, of which the first goes on from `before`. Gives the last.
fn block_words<E: Extreme>(
    steps: &Steps,
    selected: &Plane,
    none: u64,
    block: usize,
    before: u64,
    words: &mut [u64],
) -> u64
    requires near { steps.now.by ≡ 1 }
    requires within { 64 * block < length words.old }
    requires count { length steps.now.begins ≡ length words.old }
    requires selected { length selected.now ≡ length words.old }
    ensures long { length words.new ≡ length words.old }
    ensures others { (v : ℕ) → v / 64 ≢ block → slice_index words.new v ≡ slice_index words.old v }
    ensures words { (L : ℕ) (values : ℕ → ℕ) → GoOn (λ x. before ≡ x) (taken E.operator L (has selected.now) words.old) none block steps.now.direction (length words.old) (has steps.now.begins) values
        → (i : ℕ) → i < processors_of (length words.old) block → slice_index words.new (64 * block + i) ≡ values (64 * block + i) }
    ensures last { (L : ℕ) (values : ℕ → ℕ) → GoOn (λ x. before ≡ x) (taken E.operator L (has selected.now) words.old) none block steps.now.direction (length words.old) (has steps.now.begins) values
        → HeldBefore (λ x. result ≡ x) steps.now.direction (length words.old) values (first_place steps.now.direction (length words.old) block + processors_of (length words.old) block) }
{
    let first = 64 * block;
    let count = (words.len() - first).min(64);
    let starts = steps.begins.word(block);
    let chosen = selected.word(block);
    let mut last = before;
    for place in 0..count {
        let i = walked(steps.direction, count, place);
        let begins = has_bit(starts, i);
        let is_selected = has_bit(chosen, i);
        let from = word_where(begins, none, last);
        let word = E::one_of(from, words[first + i]);
        last = word_where(is_selected, word, from);
        words[first + i] = last;
    }
    last
}

/// Does `make_words` a block at a time, where neighbours are neighbours in memory.
fn near_words<E: Extreme>(steps: &Steps, selected: &Plane, none: u64, words: &mut [u64])
    requires near { steps.now.by ≡ 1 }
    requires count { length steps.now.begins ≡ length words.old }
    requires selected { length selected.now ≡ length words.old }
    ensures long { length words.new ≡ length words.old }
    ensures words { (L : ℕ) (values : ℕ → ℕ) → AreRunning (taken E.operator L (has selected.now) words.old) none steps.now.direction steps.now.by (length words.old) (has steps.now.begins) values
        → (v : ℕ) → v < length words.old → slice_index words.new v ≡ values v }
{
    let blocks = words.len().div_ceil(64);
    let mut last = none;
    for place in 0..blocks {
        let block = walked(steps.direction, blocks, place);
        last = block_words::<E>(steps, selected, none, block, last, words);
    }
}

/// Writes over each word what the one before it and its own come to, where there may be none before it.
fn make_words<E: Extreme>(steps: &Steps, selected: &Plane, none: u64, words: &mut [u64])
    requires count { length steps.now.begins ≡ length words.old }
    requires selected { length selected.now ≡ length words.old }
    ensures long { length words.new ≡ length words.old }
    ensures words { (L : ℕ) (values : ℕ → ℕ) → AreRunning (taken E.operator L (has selected.now) words.old) none steps.now.direction steps.now.by (length words.old) (has steps.now.begins) values
        → (v : ℕ) → v < length words.old → slice_index words.new v ≡ values v }
{
    if steps.by == 1 {
        near_words::<E>(steps, selected, none, words);
    } else {
        far_words::<E>(steps, selected, none, words);
    }
}

/// Leaves of each word what a scan shows.
fn show_words(steps: &Steps, inclusion: Inclusion, none: u64, words: &mut [u64])
    requires count { length steps.now.begins ≡ length words.old }
    ensures long { length words.new ≡ length words.old }
    ensures words { (v : ℕ) → v < length words.old → slice_index words.new v ≡ shown_value none inclusion steps.now.direction steps.now.by (has steps.now.begins) (slice_index words.old) v }
{
    match inclusion {
        Inclusion::Inclusive => {}
        Inclusion::Exclusive => step_back(steps, words, none),
    }
}

/// Writes over each word what a scan shows of words of so many bits.
fn run_words<E: Extreme>(
    steps: &Steps,
    selected: &Plane,
    inclusion: Inclusion,
    bits: u64,
    words: &mut [u64],
)
    requires narrow { bits ≤ 64 }
    requires count { length steps.now.begins ≡ length words.old }
    requires selected { length selected.now ≡ length words.old }
    ensures long { length words.new ≡ length words.old }
    ensures words { (values : ℕ → ℕ) → AreRunning (taken E.operator bits (has selected.now) words.old) (unit E.operator bits) steps.now.direction steps.now.by (length words.old) (has steps.now.begins) values
        → (v : ℕ) → v < length words.old → slice_index words.new v ≡ shown_value (unit E.operator bits) inclusion steps.now.direction steps.now.by (has steps.now.begins) values v }
{
    let none = E::none(bits);
    make_words::<E>(steps, selected, none, words);
    show_words(steps, inclusion, none, words);
}

/// What the low bits of the values that a scan combines come to, up to 64.
pub(crate) fn scan_words<E: Extreme>(
    alloc: Global,
    along: &Along,
    x: &FieldValue,
    selected: &Layer,
    segments: &Layer,
    bits: u64,
) -> Result<FieldValue, AllocError>
    requires axis { along.now.axis < length along.now.geometry }
    requires narrow { bits ≤ 64 }
    requires x_width { bits ≤ x.now.width }
    requires count { length x.now.numbers ≡ processor_count along.now.geometry }
    requires selected { length selected.now ≡ processor_count along.now.geometry }
    requires segments { length segments.now ≡ processor_count along.now.geometry }
    ensures { IfOk result (λ value. value ≡ combined_field E.operator bits (processor_count along.now.geometry) (scanned along.now.geometry along.now.axis along.now.direction along.now.inclusion segments.now selected.now bits x.now)) }
{
    let mut words = x.low_words(bits)?;
    let steps = line_steps(alloc, along, segments)?;
    let mask = selected.lent(alloc)?;
    run_words::<E>(&steps, mask.plane(), along.inclusion, bits, &mut words);
    let value = FieldValue::from_words(alloc, bits, &words)?;
    Ok(value)
}
