//! Lines whose processors follow one another, in whole words: the values of each come to one number, by counts of bits.

ghost use Rattle.std.specs.Prelude.{◌≡◌, ◌<◌, ◌≤◌, ◌+◌, ◌*◌, ◌/◌, ◌%◌, ◌^◌, ℕ, IfOk, IsTrue, length, nat_le, slice_index, sum};
ghost use Rattle.std.specs.List.{range_with_len};
ghost use Rattle.paris_geometry.specs.Geometry.{axis_length, processor_count};
ghost use Rattle.paris_model.specs.declared.operators.Combiner.TheVariants.{Sum};
ghost use Rattle.paris_model.specs.Lines.{values_where};
ghost use Rattle.paris_field.specs.Fields.{operand};
ghost use Rattle.paris_field.specs.Numbers.{AllOf, has, number_at};
ghost use Rattle.paris_scan.specs.Adjacent.{IsAdjacent, values_of_line};
ghost use Rattle.paris_scan.specs.Lines.{combined_field, of_lines, placed_field, sums_overflow};
ghost use Rattle.paris_scan.specs.Shown.{complement, complement_shown, shown_field};

use crate::bitwise::{Ors, Xors};
use crate::halves::JoinHalves;
use crate::maxima::Maxima;
use crate::repeated::{line_plane, line_value};
use crate::results::Combined;
use crate::sources::complement_planes;
use paris_counts::{maximum_of, or_of, sum_of, xor_of};
use paris_field::{FieldValue, layers_of};
use paris_geometry::Geometry;
use paris_layer::Layer;
use paris_plane::Plane;
use std::alloc::{AllocError, Global};

/// Whether the processors of each line along an axis follow one another, and fill whole words.
pub(crate) fn is_adjacent(geometry: Geometry, axis: usize) -> bool
    requires { axis < length geometry }
    ensures { IsTrue result → IsAdjacent geometry axis }
{
    let count = geometry.len(axis) as usize;
    0 < count && count % 64 == 0 && geometry.stride(axis) == 1 && geometry.vps() % count == 0
}

/// What the values of the selected processors of a span come to, as one number.
pub trait Total: JoinHalves {
    /// The span has `count` processors from `start` on. In `selected`, processors of the span may be left out.
    fn total(planes: &[Layer], selected: &mut Plane, start: usize, count: usize) -> u128
        requires narrow { length planes.now ≤ 128 }
        requires long { AllOf (length selected.old) planes.now }
        requires start { start % 64 ≡ 0 }
        requires whole { count % 64 ≡ 0 }
        requires within { start + count ≤ length selected.old }
        ensures value { result ≡ Self.shows (length planes.now) (values_where (has selected.old) (number_at planes.now) (range_with_len start count)) }
        ensures fits { result < 2 ^ length planes.now }
        ensures long { length selected.new ≡ length selected.old }
        ensures behind { (v : ℕ) → start + count ≤ v → v < length selected.old → has selected.new v ≡ has selected.old v };
}

impl Total for Ors {
    fn total(planes: &[Layer], selected: &mut Plane, start: usize, count: usize) -> u128 {
        or_of(planes, selected, start, count)
    }
}

impl Total for Xors {
    fn total(planes: &[Layer], selected: &mut Plane, start: usize, count: usize) -> u128 {
        xor_of(planes, selected, start, count)
    }
}

impl Total for Maxima {
    fn total(planes: &[Layer], selected: &mut Plane, start: usize, count: usize) -> u128 {
        maximum_of(planes, selected, start, count)
    }
}

/// What the selected values of each line of `count` processors come to.
fn line_totals<T: Total>(
    alloc: Global,
    planes: &[Layer],
    selected: &Layer,
    count: usize,
) -> Result<Vec<u128>, AllocError>
    requires narrow { length planes.now ≤ 128 }
    requires long { AllOf (length selected.now) planes.now }
    requires some { 0 < count }
    requires whole { count % 64 ≡ 0 }
    ensures lines { IfOk result (λ totals. length totals.items ≡ length selected.now / count) }
    ensures values { IfOk result (λ totals. (i : ℕ) → i < length totals.items → slice_index totals.items i ≡ T.shows (length planes.now) (values_of_line count selected.now (number_at planes.now) i)) }
    ensures fit { IfOk result (λ totals. (i : ℕ) → i < length totals.items → slice_index totals.items i < 2 ^ length planes.now) }
{
    let lines = selected.len() / count;
    let mut left = selected.to_plane(alloc)?;
    let mut totals = Vec::with_capacity(alloc, lines)?;
    for line in 0..lines {
        totals.push(T::total(planes, &mut left, line * count, count))?;
    }
    Ok(totals)
}

/// The sum of the selected values of each line of `count` processors.
fn line_sums(
    alloc: Global,
    planes: &[Layer],
    selected: &Layer,
    count: usize,
) -> Result<Vec<u128>, AllocError>
    requires narrow { length planes.now ≤ 96 }
    requires long { AllOf (length selected.now) planes.now }
    requires some { 0 < count }
    requires whole { count % 64 ≡ 0 }
    requires few { count ≤ 2 ^ 16 }
    ensures lines { IfOk result (λ sums. length sums.items ≡ length selected.now / count) }
    ensures values { IfOk result (λ sums. (i : ℕ) → i < length sums.items → slice_index sums.items i ≡ sum (values_of_line count selected.now (number_at planes.now) i)) }
{
    let lines = selected.len() / count;
    let mask = selected.lent(alloc)?;
    let mut sums = Vec::with_capacity(alloc, lines)?;
    for line in 0..lines {
        sums.push(sum_of(planes, mask.plane(), line * count, count))?;
    }
    Ok(sums)
}

/// Does what `spread_shown` of `spreads` does.
pub(crate) fn adjacent_shown<T: Total>(
    alloc: Global,
    geometry: Geometry,
    axis: usize,
    x: &FieldValue,
    selected: &Layer,
    bits: u64,
) -> Result<FieldValue, AllocError>
    requires axis { axis < length geometry }
    requires adjacent { IsAdjacent geometry axis }
    requires narrow { bits ≤ 128 }
    requires x_width { bits ≤ x.now.width }
    requires count { length x.now.numbers ≡ processor_count geometry }
    requires selected { length selected.now ≡ processor_count geometry }
    ensures { IfOk result (λ value. value ≡ shown_field T.shows bits (processor_count geometry) (of_lines geometry axis selected.now bits x.now)) }
{
    let count = geometry.len(axis) as usize;
    let totals = line_totals::<T>(alloc, x.low(bits), selected, count)?;
    line_value(alloc, bits, &totals, count, x.len())
}

/// A number of `bits` bits with every bit turned.
fn turned(bits: u64, number: u128) -> u128
    requires narrow { bits ≤ 128 }
    requires fits { number < 2 ^ bits }
    ensures value { result ≡ complement bits number }
    ensures fits { result < 2 ^ bits }
{
    if bits < 128 {
        (1u128 << bits) - 1 - number
    } else {
        u128::MAX - number
    }
}

/// Each number with every bit turned.
fn all_turned(alloc: Global, bits: u64, numbers: &[u128]) -> Result<Vec<u128>, AllocError>
    requires narrow { bits ≤ 128 }
    requires fit { (i : ℕ) → i < length numbers.now → slice_index numbers.now i < 2 ^ bits }
    ensures count { IfOk result (λ turned. length turned.items ≡ length numbers.now) }
    ensures values { IfOk result (λ turned. (i : ℕ) → i < length numbers.now → slice_index turned.items i ≡ complement bits (slice_index numbers.now i)) }
    ensures fit { IfOk result (λ turned. (i : ℕ) → i < length numbers.now → slice_index turned.items i < 2 ^ bits) }
{
    let mut all = Vec::with_capacity(alloc, numbers.len())?;
    for i in 0..numbers.len() {
        all.push(turned(bits, numbers[i]))?;
    }
    Ok(all)
}

/// Does what `spread_complements` of `spreads` does.
pub(crate) fn adjacent_complements<T: Total>(
    alloc: Global,
    geometry: Geometry,
    axis: usize,
    x: &FieldValue,
    selected: &Layer,
    bits: u64,
) -> Result<FieldValue, AllocError>
    requires axis { axis < length geometry }
    requires adjacent { IsAdjacent geometry axis }
    requires narrow { bits ≤ 128 }
    requires x_width { bits ≤ x.now.width }
    requires count { length x.now.numbers ≡ processor_count geometry }
    requires selected { length selected.now ≡ processor_count geometry }
    ensures { IfOk result (λ value. value ≡ shown_field (complement_shown T.shows) bits (processor_count geometry) (of_lines geometry axis selected.now bits x.now)) }
{
    let count = geometry.len(axis) as usize;
    let planes = complement_planes(alloc, selected, x.low(bits))?;
    let state = layers_of(alloc, planes)?;
    let totals = line_totals::<T>(alloc, &state, selected, count)?;
    let turned = all_turned(alloc, bits, &totals)?;
    line_value(alloc, bits, &turned, count, x.len())
}

/// The low bits of a number.
fn low_bits(bits: u64, number: u128) -> u128
    requires { bits ≤ 128 }
    ensures value { result ≡ number % 2 ^ bits }
    ensures fits { result < 2 ^ bits }
{
    if bits < 128 {
        number % (1u128 << bits)
    } else {
        number
    }
}

/// The low bits of the number at a place of each line of `count` processors.
fn numbers_at(
    alloc: Global,
    x: &FieldValue,
    bits: u64,
    place: usize,
    count: usize,
) -> Result<Vec<u128>, AllocError>
    requires narrow { bits ≤ 128 }
    requires place { place < count }
    ensures lines { IfOk result (λ numbers. length numbers.items ≡ length x.now.numbers / count) }
    ensures values { IfOk result (λ numbers. (i : ℕ) → i < length numbers.items → slice_index numbers.items i ≡ operand bits x.now (i * count + place)) }
    ensures fit { IfOk result (λ numbers. (i : ℕ) → i < length numbers.items → slice_index numbers.items i < 2 ^ bits) }
{
    let lines = x.len() / count;
    let mut numbers = Vec::with_capacity(alloc, lines)?;
    for line in 0..lines {
        numbers.push(low_bits(bits, x.get(line * count + place)))?;
    }
    Ok(numbers)
}

/// Does what `copy_spread` of `spreads` does.
pub(crate) fn adjacent_place(
    alloc: Global,
    geometry: Geometry,
    axis: usize,
    place: u64,
    x: &FieldValue,
    bits: u64,
) -> Result<FieldValue, AllocError>
    requires axis { axis < length geometry }
    requires adjacent { IsAdjacent geometry axis }
    requires place { place < axis_length geometry axis }
    requires narrow { bits ≤ 128 }
    requires count { length x.now.numbers ≡ processor_count geometry }
    ensures { IfOk result (λ value. value ≡ placed_field geometry axis place bits x.now) }
{
    let count = geometry.len(axis) as usize;
    let numbers = numbers_at(alloc, x, bits, place as usize, count)?;
    line_value(alloc, bits, &numbers, count, x.len())
}

/// Two to the power of a width in bits.
pub(crate) fn power(bits: u64) -> u128
    requires { bits ≤ 96 }
    ensures { result ≡ 2 ^ bits }
{
    1u128 << bits
}

/// Which numbers are a limit or more.
fn which_reach(alloc: Global, limit: u128, numbers: &[u128]) -> Result<Vec<bool>, AllocError>
    ensures count { IfOk result (λ lines. length lines.items ≡ length numbers.now) }
    ensures values { IfOk result (λ lines. (i : ℕ) → i < length numbers.now → has lines.items i ≡ nat_le limit (slice_index numbers.now i)) }
{
    let mut lines = Vec::with_capacity(alloc, numbers.len())?;
    for number in numbers {
        lines.push(*number >= limit)?;
    }
    Ok(lines)
}

/// What a division by the limit leaves of each number.
fn remainders(alloc: Global, limit: u128, numbers: &[u128]) -> Result<Vec<u128>, AllocError>
    requires some { 0 < limit }
    ensures count { IfOk result (λ rests. length rests.items ≡ length numbers.now) }
    ensures values { IfOk result (λ rests. (i : ℕ) → i < length numbers.now → slice_index rests.items i ≡ slice_index numbers.now i % limit) }
    ensures fit { IfOk result (λ rests. (i : ℕ) → i < length numbers.now → slice_index rests.items i < limit) }
{
    let mut rests = Vec::with_capacity(alloc, numbers.len())?;
    for i in 0..numbers.len() {
        rests.push(numbers[i] % limit)?;
    }
    Ok(rests)
}

/// Does what `spread_sums` of `spreads` does, for up to 96 bits: then no sum of all numbers needs more than 128.
pub(crate) fn adjacent_sums(
    alloc: Global,
    geometry: Geometry,
    axis: usize,
    x: &FieldValue,
    selected: &Layer,
    bits: u64,
) -> Result<Combined, AllocError>
    requires axis { axis < length geometry }
    requires adjacent { IsAdjacent geometry axis }
    requires narrow { bits ≤ 96 }
    requires x_width { bits ≤ x.now.width }
    requires count { length x.now.numbers ≡ processor_count geometry }
    requires selected { length selected.now ≡ processor_count geometry }
    ensures { IfOk result (λ combined. combined ≡ record {
      value = combined_field Sum bits (processor_count geometry) (of_lines geometry axis selected.now bits x.now);
      overflow = Some (sums_overflow bits (processor_count geometry) (of_lines geometry axis selected.now bits x.now));
    }) }
{
    let count = geometry.len(axis) as usize;
    let limit = power(bits);
    let sums = line_sums(alloc, x.low(bits), selected, count)?;
    let reach = which_reach(alloc, limit, &sums)?;
    let overflow = line_plane(alloc, &reach, count, x.len())?;
    let rests = remainders(alloc, limit, &sums)?;
    let value = line_value(alloc, bits, &rests, count, x.len())?;
    Ok(Combined {
        value,
        overflow: Some(Layer::from_plane(overflow)),
    })
}
