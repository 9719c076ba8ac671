//! Scans.

ghost use Rattle.std.specs.Prelude.{◌≡◌, ◌<◌, ◌≤◌, Some, IfOk, IfSome, is_some, length};
ghost use Rattle.paris_geometry.specs.Geometry.{processor_count};
ghost use Rattle.paris_model.specs.declared.operators.Combiner.TheVariants.{Maximum, Minimum, Sum};
ghost use Rattle.paris_model.specs.declared.operators.Inclusion.TheVariants.{Inclusive};
ghost use Rattle.paris_scan.specs.Lines.{combined_field, first_field, is_sum, scanned, sums_overflow};
ghost use Rattle.paris_scan.specs.Shown.{complement_shown, shown_field};

use crate::bitwise::{Ors, Xors};
use crate::combine::Commute;
use crate::extremes::{Greatest, Least, scan_words};
use crate::firsts::Firsts;
use crate::lines::{Along, scan_planes};
use crate::maxima::Maxima;
use crate::results::{Combined, complement_value, sum_value, without_overflow};
use crate::running::scan_running;
use crate::sources::{complement_planes, selected_planes, summed_planes};
use crate::sums::Sums;
use paris_field::FieldValue;
use paris_geometry::{Direction, Geometry};
use paris_layer::Layer;
use paris_model::{Combiner, Inclusion};
use std::alloc::{AllocError, Global};

/// Up to how many turns of a plane take less time than values that are made one after another.
#[derive(Clone, Copy)]
struct FewTurns {
    /// where neighbours are neighbours in memory
    near: u64,
    /// elsewhere
    far: u64,
}

const FEW_TURNS: FewTurns = FewTurns {
    near: 256,
    far: 760,
};

const FEW_TURNS_OF_MAXIMA: FewTurns = FewTurns {
    near: 140,
    far: 200,
};

/// What the values that a scan combines come to, by an operator that has no plane of its own.
fn scan_field<C: Commute>(
    alloc: Global,
    along: &Along,
    x: &FieldValue,
    selected: &Layer,
    segments: &Layer,
    bits: u64,
) -> Result<FieldValue, AllocError>
    requires plain { C.extra ≡ 0 }
    requires axis { along.now.axis < length along.now.geometry }
    requires narrow { bits ≤ 128 }
    requires x_width { bits ≤ x.now.width }
    requires count { length x.now.numbers ≡ processor_count along.now.geometry }
    requires selected { length selected.now ≡ processor_count along.now.geometry }
    requires segments { length segments.now ≡ processor_count along.now.geometry }
    ensures { IfOk result (λ value. value ≡ shown_field C.shows bits (processor_count along.now.geometry) (scanned along.now.geometry along.now.axis along.now.direction along.now.inclusion segments.now selected.now bits x.now)) }
{
    let state = selected_planes(alloc, selected, x.low(bits))?;
    let planes = scan_planes::<C>(alloc, along, state, segments)?;
    let value = FieldValue::from_planes(planes, x.len())?;
    Ok(value)
}

/// What the values that a scan combines come to, by an operator that combines their complements to that of the result.
fn scan_complements<C: Commute>(
    alloc: Global,
    along: &Along,
    x: &FieldValue,
    selected: &Layer,
    segments: &Layer,
    bits: u64,
) -> Result<FieldValue, AllocError>
    requires plain { C.extra ≡ 0 }
    requires axis { along.now.axis < length along.now.geometry }
    requires narrow { bits ≤ 128 }
    requires x_width { bits ≤ x.now.width }
    requires count { length x.now.numbers ≡ processor_count along.now.geometry }
    requires selected { length selected.now ≡ processor_count along.now.geometry }
    requires segments { length segments.now ≡ processor_count along.now.geometry }
    ensures { IfOk result (λ value. value ≡ shown_field (complement_shown C.shows) bits (processor_count along.now.geometry) (scanned along.now.geometry along.now.axis along.now.direction along.now.inclusion segments.now selected.now bits x.now)) }
{
    let state = complement_planes(alloc, selected, x.low(bits))?;
    let planes = scan_planes::<C>(alloc, along, state, segments)?;
    let value = complement_value(planes, x.len())?;
    Ok(value)
}

/// Whether a turn of each plane for each digit of a coordinate makes more turns than few.
fn has_many_turns(along: &Along, bits: u64, few: FewTurns) -> bool
    requires axis { along.now.axis < length along.now.geometry }
    requires narrow { bits ≤ 64 }
{
    let digits = u64::from(along.geometry.len(along.axis).trailing_zeros());
    let is_near = along.geometry.stride(along.axis) == 1;
    digits * bits > if is_near { few.near } else { few.far }
}

/// The low bits of the sums that a scan makes, and where the exact sum needs more.
fn scan_sums(
    alloc: Global,
    along: &Along,
    x: &FieldValue,
    selected: &Layer,
    segments: &Layer,
    bits: u64,
) -> Result<Combined, AllocError>
    requires axis { along.now.axis < length along.now.geometry }
    requires narrow { bits ≤ 128 }
    requires x_width { bits ≤ x.now.width }
    requires count { length x.now.numbers ≡ processor_count along.now.geometry }
    requires selected { length selected.now ≡ processor_count along.now.geometry }
    requires segments { length segments.now ≡ processor_count along.now.geometry }
    ensures { IfOk result (λ combined. combined ≡ record {
      value = combined_field Sum bits (processor_count along.now.geometry) (scanned along.now.geometry along.now.axis along.now.direction along.now.inclusion segments.now selected.now bits x.now);
      overflow = Some (sums_overflow bits (processor_count along.now.geometry) (scanned along.now.geometry along.now.axis along.now.direction along.now.inclusion segments.now selected.now bits x.now));
    }) }
{
    if bits <= 64 && has_many_turns(along, bits, FEW_TURNS) {
        return scan_running(alloc, along, x, selected, segments, bits);
    }
    let state = summed_planes(alloc, selected, x.low(bits))?;
    let planes = scan_planes::<Sums>(alloc, along, state, segments)?;
    let combined = sum_value(planes, x.len())?;
    Ok(combined)
}

/// The greatest of the values that a scan combines.
fn scan_maxima(
    alloc: Global,
    along: &Along,
    x: &FieldValue,
    selected: &Layer,
    segments: &Layer,
    bits: u64,
) -> Result<FieldValue, AllocError>
    requires axis { along.now.axis < length along.now.geometry }
    requires narrow { bits ≤ 128 }
    requires x_width { bits ≤ x.now.width }
    requires count { length x.now.numbers ≡ processor_count along.now.geometry }
    requires selected { length selected.now ≡ processor_count along.now.geometry }
    requires segments { length segments.now ≡ processor_count along.now.geometry }
    ensures { IfOk result (λ value. value ≡ combined_field Maximum bits (processor_count along.now.geometry) (scanned along.now.geometry along.now.axis along.now.direction along.now.inclusion segments.now selected.now bits x.now)) }
{
    if bits <= 64 && has_many_turns(along, bits, FEW_TURNS_OF_MAXIMA) {
        return scan_words::<Greatest>(alloc, along, x, selected, segments, bits);
    }
    scan_field::<Maxima>(alloc, along, x, selected, segments, bits)
}

/// The least of the values that a scan combines.
fn scan_minima(
    alloc: Global,
    along: &Along,
    x: &FieldValue,
    selected: &Layer,
    segments: &Layer,
    bits: u64,
) -> Result<FieldValue, AllocError>
    requires axis { along.now.axis < length along.now.geometry }
    requires narrow { bits ≤ 128 }
    requires x_width { bits ≤ x.now.width }
    requires count { length x.now.numbers ≡ processor_count along.now.geometry }
    requires selected { length selected.now ≡ processor_count along.now.geometry }
    requires segments { length segments.now ≡ processor_count along.now.geometry }
    ensures { IfOk result (λ value. value ≡ combined_field Minimum bits (processor_count along.now.geometry) (scanned along.now.geometry along.now.axis along.now.direction along.now.inclusion segments.now selected.now bits x.now)) }
{
    if bits <= 64 && has_many_turns(along, bits, FEW_TURNS_OF_MAXIMA) {
        return scan_words::<Least>(alloc, along, x, selected, segments, bits);
    }
    let value = scan_complements::<Maxima>(alloc, along, x, selected, segments, bits)?;
    Ok(value)
}

/// In each processor what the low `bits` bits of the selected processors combine to, from the start of its segment on. Where a bit of
/// `segments` is 1 a segment begins.
pub fn scan(
    alloc: Global,
    operator: Combiner,
    geometry: Geometry,
    axis: usize,
    direction: Direction,
    inclusion: Inclusion,
    x: &FieldValue,
    selected: &Layer,
    segments: &Layer,
    bits: u64,
) -> Result<Combined, AllocError>
    requires axis { axis < length geometry }
    requires positive { 0 < bits }
    requires narrow { bits ≤ 128 }
    requires x_width { bits ≤ x.now.width }
    requires count { length x.now.numbers ≡ processor_count geometry }
    requires selected { length selected.now ≡ processor_count geometry }
    requires segments { length segments.now ≡ processor_count geometry }
    ensures value { IfOk result (λ combined. combined.value ≡ combined_field operator bits (processor_count geometry) (scanned geometry axis direction inclusion segments.now selected.now bits x.now)) }
    ensures overflow { IfOk result (λ combined. IfSome combined.overflow (λ overflow. overflow ≡ sums_overflow bits (processor_count geometry) (scanned geometry axis direction inclusion segments.now selected.now bits x.now))) }
    ensures sums { IfOk result (λ combined. is_some combined.overflow ≡ is_sum operator) }
{
    let along = Along {
        geometry,
        axis,
        direction,
        inclusion,
    };
    match operator {
        Combiner::Sum => {
            let sums = scan_sums(alloc, &along, x, selected, segments, bits)?;
            Ok(sums)
        }
        Combiner::BitOr => {
            let value = scan_field::<Ors>(alloc, &along, x, selected, segments, bits)?;
            Ok(without_overflow(value))
        }
        Combiner::BitXor => {
            let value = scan_field::<Xors>(alloc, &along, x, selected, segments, bits)?;
            Ok(without_overflow(value))
        }
        Combiner::BitAnd => {
            let value = scan_complements::<Ors>(alloc, &along, x, selected, segments, bits)?;
            Ok(without_overflow(value))
        }
        Combiner::Maximum => {
            let value = scan_maxima(alloc, &along, x, selected, segments, bits)?;
            Ok(without_overflow(value))
        }
        Combiner::Minimum => {
            let value = scan_minima(alloc, &along, x, selected, segments, bits)?;
            Ok(without_overflow(value))
        }
    }
}

/// In each processor the low `bits` bits of the first selected processor from the start of its segment to itself, and 0 where there is
/// none.
pub fn copy_scan(
    alloc: Global,
    geometry: Geometry,
    axis: usize,
    direction: Direction,
    x: &FieldValue,
    selected: &Layer,
    segments: &Layer,
    bits: u64,
) -> Result<FieldValue, AllocError>
    requires axis { axis < length geometry }
    requires positive { 0 < bits }
    requires narrow { bits ≤ 128 }
    requires x_width { bits ≤ x.now.width }
    requires count { length x.now.numbers ≡ processor_count geometry }
    requires selected { length selected.now ≡ processor_count geometry }
    requires segments { length segments.now ≡ processor_count geometry }
    ensures { IfOk result (λ value. value ≡ first_field bits (processor_count geometry) (scanned geometry axis direction Inclusive segments.now selected.now bits x.now)) }
{
    let along = Along {
        geometry,
        axis,
        direction,
        inclusion: Inclusion::Inclusive,
    };
    let mut state = selected_planes(alloc, selected, x.low(bits))?;
    state.push(selected.to_plane(alloc)?)?;
    let mut planes = scan_planes::<Firsts>(alloc, &along, state, segments)?;
    planes.truncate(bits as usize);
    let value = FieldValue::from_planes(planes, x.len())?;
    Ok(value)
}
