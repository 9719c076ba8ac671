//! Spreads and reduces.

ghost use Rattle.std.specs.Prelude.{◌≡◌, ◌<◌, ◌≤◌, IfOk, IfSome, Some, is_some, length};
ghost use Rattle.paris_geometry.specs.Geometry.{axis_length, processor_count};
ghost use Rattle.paris_model.specs.declared.operators.Combiner.TheVariants.{Sum};
ghost use Rattle.paris_scan.specs.Lines.{combined_field, is_sum, of_lines, placed_field, stores_at, sums_overflow};
ghost use Rattle.paris_scan.specs.Shown.{complement_shown, shown_field};

use crate::adjacent::{
    Total, adjacent_complements, adjacent_place, adjacent_shown, adjacent_sums, is_adjacent,
};
use crate::bitwise::{Ors, Xors};
use crate::butterfly::spread_planes;
use crate::maxima::Maxima;
use crate::results::{Combined, complement_value, sum_value, without_overflow};
use crate::sources::{complement_planes, selected_planes, summed_planes};
use crate::sums::Sums;
use paris_field::FieldValue;
use paris_geometry::Geometry;
use paris_layer::Layer;
use paris_model::Combiner;
use paris_news::coordinate_plane;
use paris_plane::And;
use std::alloc::{AllocError, Global};

/// What the values of each line come to, where the operator's unit is 0.
fn spread_shown<C: Total>(
    alloc: Global,
    geometry: Geometry,
    axis: usize,
    x: &FieldValue,
    selected: &Layer,
    bits: u64,
) -> Result<FieldValue, AllocError>
    requires axis { axis < length geometry }
    requires narrow { bits ≤ 128 }
    requires x_width { bits ≤ x.now.width }
    requires count { length x.now.numbers ≡ processor_count geometry }
    requires selected { length selected.now ≡ processor_count geometry }
    requires plain { C.extra ≡ 0 }
    ensures { IfOk result (λ value. value ≡ shown_field C.shows bits (processor_count geometry) (of_lines geometry axis selected.now bits x.now)) }
{
    if is_adjacent(geometry, axis) {
        return adjacent_shown::<C>(alloc, geometry, axis, x, selected, bits);
    }
    let state = selected_planes(alloc, selected, x.low(bits))?;
    let planes = spread_planes::<C>(alloc, geometry, axis, state)?;
    let value = FieldValue::from_planes(planes, x.len())?;
    Ok(value)
}

/// The complement of what the complements of the values of each line come to.
fn spread_complements<C: Total>(
    alloc: Global,
    geometry: Geometry,
    axis: usize,
    x: &FieldValue,
    selected: &Layer,
    bits: u64,
) -> Result<FieldValue, AllocError>
    requires axis { axis < length geometry }
    requires narrow { bits ≤ 128 }
    requires x_width { bits ≤ x.now.width }
    requires count { length x.now.numbers ≡ processor_count geometry }
    requires selected { length selected.now ≡ processor_count geometry }
    requires plain { C.extra ≡ 0 }
    ensures { IfOk result (λ value. value ≡ shown_field (complement_shown C.shows) bits (processor_count geometry) (of_lines geometry axis selected.now bits x.now)) }
{
    if is_adjacent(geometry, axis) {
        return adjacent_complements::<C>(alloc, geometry, axis, x, selected, bits);
    }
    let state = complement_planes(alloc, selected, x.low(bits))?;
    let planes = spread_planes::<C>(alloc, geometry, axis, state)?;
    let value = complement_value(planes, x.len())?;
    Ok(value)
}

/// The sums of the values of each line, and where they need more bits.
fn spread_sums(
    alloc: Global,
    geometry: Geometry,
    axis: usize,
    x: &FieldValue,
    selected: &Layer,
    bits: u64,
) -> Result<Combined, AllocError>
    requires axis { axis < length geometry }
    requires narrow { bits ≤ 128 }
    requires x_width { bits ≤ x.now.width }
    requires count { length x.now.numbers ≡ processor_count geometry }
    requires selected { length selected.now ≡ processor_count geometry }
    ensures { IfOk result (λ combined. combined ≡ record {
      value = combined_field Sum bits (processor_count geometry) (of_lines geometry axis selected.now bits x.now);
      overflow = Some (sums_overflow bits (processor_count geometry) (of_lines geometry axis selected.now bits x.now));
    }) }
{
    if bits <= 96 && is_adjacent(geometry, axis) {
        return adjacent_sums(alloc, geometry, axis, x, selected, bits);
    }
    let state = summed_planes(alloc, selected, x.low(bits))?;
    let planes = spread_planes::<Sums>(alloc, geometry, axis, state)?;
    let combined = sum_value(planes, x.len())?;
    Ok(combined)
}

/// In each processor what the low `bits` bits of the selected processors of its line combine to.
pub fn spread(
    alloc: Global,
    operator: Combiner,
    geometry: Geometry,
    axis: usize,
    x: &FieldValue,
    selected: &Layer,
    bits: u64,
) -> Result<Combined, AllocError>
    requires axis { axis < length geometry }
    requires positive { 0 < bits }
    requires narrow { bits ≤ 128 }
    requires x_width { bits ≤ x.now.width }
    requires count { length x.now.numbers ≡ processor_count geometry }
    requires selected { length selected.now ≡ processor_count geometry }
    ensures value { IfOk result (λ combined. combined.value ≡ combined_field operator bits (processor_count geometry) (of_lines geometry axis selected.now bits x.now)) }
    ensures overflow { IfOk result (λ combined. IfSome combined.overflow (λ overflow. overflow ≡ sums_overflow bits (processor_count geometry) (of_lines geometry axis selected.now bits x.now))) }
    ensures sums { IfOk result (λ combined. is_some combined.overflow ≡ is_sum operator) }
{
    match operator {
        Combiner::Sum => spread_sums(alloc, geometry, axis, x, selected, bits),
        Combiner::BitOr => {
            let value = spread_shown::<Ors>(alloc, geometry, axis, x, selected, bits)?;
            Ok(without_overflow(value))
        }
        Combiner::BitXor => {
            let value = spread_shown::<Xors>(alloc, geometry, axis, x, selected, bits)?;
            Ok(without_overflow(value))
        }
        Combiner::Maximum => {
            let value = spread_shown::<Maxima>(alloc, geometry, axis, x, selected, bits)?;
            Ok(without_overflow(value))
        }
        Combiner::BitAnd => {
            let value = spread_complements::<Ors>(alloc, geometry, axis, x, selected, bits)?;
            Ok(without_overflow(value))
        }
        Combiner::Minimum => {
            let value = spread_complements::<Maxima>(alloc, geometry, axis, x, selected, bits)?;
            Ok(without_overflow(value))
        }
    }
}

/// What the values of lines combine to, and which processors store it.
#[derive(Debug, Drop)]
pub struct Reduced {
    pub combined: Combined,
    pub stores: Layer,
}

/// The selected processors with the coordinate `place`.
fn store_plane(
    alloc: Global,
    geometry: Geometry,
    axis: usize,
    place: u64,
    selected: &Layer,
) -> Result<Layer, AllocError>
    requires axis { axis < length geometry }
    requires place { place < axis_length geometry axis }
    requires selected { length selected.now ≡ processor_count geometry }
    ensures { IfOk result (λ plane. plane ≡ stores_at geometry axis place selected.now) }
{
    let at = coordinate_plane(alloc, geometry, axis, place)?;
    let stores = Layer::combined::<And>(alloc, selected, &at)?;
    Ok(stores)
}

/// What the low `bits` bits of the selected processors of each line combine to; the selected processors with the coordinate `place` store
/// it.
pub fn reduce(
    alloc: Global,
    operator: Combiner,
    geometry: Geometry,
    axis: usize,
    place: u64,
    x: &FieldValue,
    selected: &Layer,
    bits: u64,
) -> Result<Reduced, AllocError>
    requires axis { axis < length geometry }
    requires place { place < axis_length geometry axis }
    requires positive { 0 < bits }
    requires narrow { bits ≤ 128 }
    requires x_width { bits ≤ x.now.width }
    requires count { length x.now.numbers ≡ processor_count geometry }
    requires selected { length selected.now ≡ processor_count geometry }
    ensures value { IfOk result (λ reduced. reduced.combined.value ≡ combined_field operator bits (processor_count geometry) (of_lines geometry axis selected.now bits x.now)) }
    ensures overflow { IfOk result (λ reduced. IfSome reduced.combined.overflow (λ overflow. overflow ≡ sums_overflow bits (processor_count geometry) (of_lines geometry axis selected.now bits x.now))) }
    ensures sums { IfOk result (λ reduced. is_some reduced.combined.overflow ≡ is_sum operator) }
    ensures stores { IfOk result (λ reduced. reduced.stores ≡ stores_at geometry axis place selected.now) }
{
    let stores = store_plane(alloc, geometry, axis, place, selected)?;
    let combined = spread(alloc, operator, geometry, axis, x, selected, bits)?;
    Ok(Reduced { combined, stores })
}

/// In each processor the low `bits` bits of the processor of its line with the coordinate `place`.
pub fn copy_spread(
    alloc: Global,
    geometry: Geometry,
    axis: usize,
    place: u64,
    x: &FieldValue,
    bits: u64,
) -> Result<FieldValue, AllocError>
    requires axis { axis < length geometry }
    requires place { place < axis_length geometry axis }
    requires positive { 0 < bits }
    requires narrow { bits ≤ 128 }
    requires x_width { bits ≤ x.now.width }
    requires count { length x.now.numbers ≡ processor_count geometry }
    ensures { IfOk result (λ value. value ≡ placed_field geometry axis place bits x.now) }
{
    if is_adjacent(geometry, axis) {
        return adjacent_place(alloc, geometry, axis, place, x, bits);
    }
    let vps = geometry.vps();
    let at = coordinate_plane(alloc, geometry, axis, place)?;
    let state = selected_planes(alloc, &at, x.low(bits))?;
    let planes = spread_planes::<Ors>(alloc, geometry, axis, state)?;
    let value = FieldValue::from_planes(planes, vps)?;
    Ok(value)
}
