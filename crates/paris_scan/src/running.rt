//! Values that are made one after another, as numbers: each processor's of that of the one before it on its line. Here are sums.

ghost use Rattle.std.specs.Prelude.{◌≡◌, ℕ, ◌^◌, ◌<◌, ◌≤◌, ◌||◌, Some, IfOk, cond, false, length, nat_le, replicate, slice_index, true};
ghost use Rattle.paris_geometry.specs.Geometry.{is_geometry, processor_count, stride};
ghost use Rattle.paris_model.specs.declared.operators.Combiner.TheVariants.{Sum};
ghost use Rattle.paris_field.specs.Fields.{AllFit};
ghost use Rattle.paris_field.specs.Numbers.{bits_everywhere, has};
ghost use Rattle.paris_scan.specs.Lines.{combined_field, scanned, sums_overflow};
ghost use Rattle.paris_scan.specs.Running.{AreRunning, HasBefore, added, low_sums, over_sums, own_word, shown_value, value_before, walked};
ghost use Rattle.paris_scan.specs.Runs.{before, begins_run};

use crate::adjacent::power;
use crate::back::step_back;
use crate::lines::{Along, begin_plane};
use crate::moves::move_cut;
use crate::near::near_sums;
use crate::results::Combined;
use paris_field::FieldValue;
use paris_geometry::Direction;
use paris_layer::Layer;
use paris_model::Inclusion;
use paris_plane::Plane;
use std::alloc::{AllocError, Global};

/// How lines are walked: the one before a processor lies `by` from it, and none does where `begins` has a 1.
#[derive(Drop)]
pub(crate) struct Steps {
    pub(crate) direction: Direction,
    pub(crate) by: usize,
    pub(crate) begins: Plane,
    ghost some: { 0 < by },
    ghost reach: { (v : ℕ) → v < length begins → has begins v ≡ false → HasBefore direction by (length begins) v },
}

/// How the lines of a scan are walked.
pub(crate) fn line_steps(
    alloc: Global,
    along: &Along,
    segments: &Layer,
) -> Result<Steps, AllocError>
    requires axis { along.now.axis < length along.now.geometry }
    requires segments { length segments.now ≡ processor_count along.now.geometry }
    ensures sound { IfOk result (λ _. is_geometry along.now.geometry ≡ true) }
    ensures direction { IfOk result (λ steps. steps.direction ≡ along.now.direction) }
    ensures by { IfOk result (λ steps. steps.by ≡ stride along.now.geometry along.now.axis) }
    ensures begins { IfOk result (λ steps. steps.begins ≡ bits_everywhere (processor_count along.now.geometry) (begins_run along.now.geometry along.now.axis along.now.direction (has segments.now))) }
{
    let begins = begin_plane(alloc, along, segments)?;
    Ok(Steps {
        direction: along.direction,
        by: along.geometry.stride(along.axis),
        begins,
    })
}

/// The processor at a place of `count` that are walked in the direction.
pub(crate) fn walked(direction: Direction, count: usize, place: usize) -> usize
    requires { place < count }
    ensures value { result ≡ walked direction count place }
    ensures within { result < count }
{
    match direction {
        Direction::Upward => place,
        Direction::Downward => count - 1 - place,
    }
}

/// The word of a selected processor, and 0 elsewhere.
fn own_word(selected: &Plane, words: &[u64], v: usize) -> u64
    requires within { v < length words.now }
    requires count { length selected.now ≡ length words.now }
    ensures { result ≡ own_word (has selected.now) words.now v }
{
    let word = words[v];
    if selected.get(v) { word } else { 0 }
}

/// The word of the processor before another one, or `none` where there is none.
pub(crate) fn word_before(steps: &Steps, words: &[u64], none: u64, v: usize) -> u64
    requires within { v < length words.now }
    requires count { length steps.now.begins ≡ length words.now }
    ensures { result ≡ value_before none steps.now.direction steps.now.by (has steps.now.begins) (slice_index words.now) v }
{
    if steps.begins.get(v) {
        return none;
    }
    match steps.direction {
        Direction::Upward => words[v - steps.by],
        Direction::Downward => words[v + steps.by],
    }
}

/// The bit of the processor before another one, or 0 where there is none.
fn bit_before(steps: &Steps, plane: &Plane, v: usize) -> bool
    requires within { v < length plane.now }
    requires small { length plane.now < 2 ^ 64 }
    requires count { length steps.now.begins ≡ length plane.now }
    ensures { result ≡ cond (has steps.now.begins v) false (has plane.now (before steps.now.direction steps.now.by v)) }
{
    if steps.begins.get(v) {
        return false;
    }
    match steps.direction {
        Direction::Upward => plane.get(v - steps.by),
        Direction::Downward => plane.get(v + steps.by),
    }
}

/// Whether a sum needs more bits: one before it did, or its low bits and a number reach the bound.
fn is_over(before: bool, sum: u128, bound: u128) -> bool
    ensures { result ≡ (before || nat_le bound sum) }
{
    before || sum >= bound
}

/// Does `make_sums` a processor at a time, however far apart neighbours are.
fn far_sums(steps: &Steps, selected: &Plane, bits: u64, words: &mut [u64], overflow: &mut Plane)
    requires narrow { bits ≤ 64 }
    requires count { length steps.now.begins ≡ length words.old }
    requires selected { length selected.now ≡ length words.old }
    requires zeros { overflow.old ≡ replicate (length words.old) false }
    ensures long { length words.new ≡ length words.old }
    ensures words { (sums : ℕ → ℕ) → AreRunning (added (own_word (has selected.now) words.old)) 0 steps.now.direction steps.now.by (length words.old) (has steps.now.begins) sums → words.new ≡ low_sums bits (length words.old) sums }
    ensures overflow { (sums : ℕ → ℕ) → AreRunning (added (own_word (has selected.now) words.old)) 0 steps.now.direction steps.now.by (length words.old) (has steps.now.begins) sums → overflow.new ≡ over_sums bits (length words.old) sums }
{
    let bound = power(bits);
    let count = words.len();
    for place in 0..count {
        let v = walked(steps.direction, count, place);
        let before = word_before(steps, words, 0, v);
        let sum = before as u128 + own_word(selected, words, v) as u128;
        words[v] = (sum & (bound - 1)) as u64;
        if is_over(bit_before(steps, overflow, v), sum, bound) {
            overflow.set(v, true);
        }
    }
}

/// Writes over each word the low `bits` bits of the sum of the one before it and its own, and puts a 1 where the sum needs more.
fn make_sums(steps: &Steps, selected: &Plane, bits: u64, words: &mut [u64], overflow: &mut Plane)
    requires narrow { bits ≤ 64 }
    requires count { length steps.now.begins ≡ length words.old }
    requires selected { length selected.now ≡ length words.old }
    requires zeros { overflow.old ≡ replicate (length words.old) false }
    ensures long { length words.new ≡ length words.old }
    ensures words { (sums : ℕ → ℕ) → AreRunning (added (own_word (has selected.now) words.old)) 0 steps.now.direction steps.now.by (length words.old) (has steps.now.begins) sums → words.new ≡ low_sums bits (length words.old) sums }
    ensures overflow { (sums : ℕ → ℕ) → AreRunning (added (own_word (has selected.now) words.old)) 0 steps.now.direction steps.now.by (length words.old) (has steps.now.begins) sums → overflow.new ≡ over_sums bits (length words.old) sums }
{
    if steps.by == 1 {
        near_sums(steps, selected, bits, words, overflow);
    } else {
        far_sums(steps, selected, bits, words, overflow);
    }
}

/// The bit of the one before each processor, or 0 where there is none.
fn bits_before(alloc: Global, steps: &Steps, plane: &Plane) -> Result<Plane, AllocError>
    requires { length plane.now ≡ length steps.now.begins }
    ensures long { IfOk result (λ bits. length bits ≡ length plane.now) }
    ensures bits { IfOk result (λ bits. (v : ℕ) → v < length plane.now → has bits v ≡ cond (has steps.now.begins v) false (has plane.now (before steps.now.direction steps.now.by v))) }
{
    let mut bits = Plane::zeros(alloc, plane.len())?;
    move_cut(steps.direction, steps.by, plane, &steps.begins, &mut bits);
    Ok(bits)
}

/// What a scan shows of sums, of which the words have the low `bits` bits, and the plane says where they need more.
fn shown_sums(
    alloc: Global,
    steps: &Steps,
    inclusion: Inclusion,
    bits: u64,
    mut words: Vec<u64>,
    overflow: Plane,
) -> Result<Combined, AllocError>
    requires narrow { bits ≤ 64 }
    requires count { length steps.now.begins ≡ length words.items }
    requires long { length overflow ≡ length words.items }
    requires fit { AllFit bits words.items }
    ensures value { IfOk result (λ combined. (sums : ℕ → ℕ) → words.items ≡ low_sums bits (length words.items) sums → combined.value ≡ record {
      width = bits;
      numbers = low_sums bits (length words.items) (shown_value 0 inclusion steps.now.direction steps.now.by (has steps.now.begins) sums);
    }) }
    ensures overflow { IfOk result (λ combined. (sums : ℕ → ℕ) → overflow ≡ over_sums bits (length words.items) sums → combined.overflow ≡ Some (over_sums bits (length words.items) (shown_value 0 inclusion steps.now.direction steps.now.by (has steps.now.begins) sums))) }
{
    match inclusion {
        Inclusion::Inclusive => Ok(Combined {
            value: FieldValue::from_words(alloc, bits, &words)?,
            overflow: Some(Layer::from_plane(overflow)),
        }),
        Inclusion::Exclusive => {
            step_back(steps, &mut words, 0);
            let before = bits_before(alloc, steps, &overflow)?;
            Ok(Combined {
                value: FieldValue::from_words(alloc, bits, &words)?,
                overflow: Some(Layer::from_plane(before)),
            })
        }
    }
}

/// The low bits of the sums that a scan makes, up to 64, and where the exact sum needs more.
pub(crate) fn scan_running(
    alloc: Global,
    along: &Along,
    x: &FieldValue,
    selected: &Layer,
    segments: &Layer,
    bits: u64,
) -> Result<Combined, AllocError>
    requires axis { along.now.axis < length along.now.geometry }
    requires narrow { bits ≤ 64 }
    requires x_width { bits ≤ x.now.width }
    requires count { length x.now.numbers ≡ processor_count along.now.geometry }
    requires selected { length selected.now ≡ processor_count along.now.geometry }
    requires segments { length segments.now ≡ processor_count along.now.geometry }
    ensures { IfOk result (λ combined. combined ≡ record {
      value = combined_field Sum bits (processor_count along.now.geometry) (scanned along.now.geometry along.now.axis along.now.direction along.now.inclusion segments.now selected.now bits x.now);
      overflow = Some (sums_overflow bits (processor_count along.now.geometry) (scanned along.now.geometry along.now.axis along.now.direction along.now.inclusion segments.now selected.now bits x.now));
    }) }
{
    let mut words = x.low_words(bits)?;
    let mut overflow = Plane::zeros(alloc, words.len())?;
    let steps = line_steps(alloc, along, segments)?;
    let mask = selected.lent(alloc)?;
    make_sums(&steps, mask.plane(), bits, &mut words, &mut overflow);
    let combined = shown_sums(alloc, &steps, along.inclusion, bits, words, overflow)?;
    Ok(combined)
}
