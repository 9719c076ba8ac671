//! Scans, spreads and reduces along an axis.

ghost use Rattle.std.specs.Prelude.{◌≡◌, ◌<◌, ◌≤◌, ◌==◌, ◌&&◌, ◌||◌, ◌^◌, not, false, true, All, IfOk, nat_le, [], ◌∷◌};
ghost use Rattle.paris_geometry.specs.Geometry.{at_coordinate, axis_length, processor_count};
ghost use Rattle.paris_model.specs.Fits.{is_bad_axis};
ghost use Rattle.paris_plain.specs.Narrow.{IsNarrow};
ghost use Rattle.paris_model.specs.Frame.{is_selected, low_at, put_where};
ghost use Rattle.paris_model.specs.Store.{bit};
ghost use Rattle.paris_model.specs.Lines.{begins_segment, combined_values, from_last, is_inclusive, line_after, line_length, line_result, line_values, result_of, scan_values, stores_on_line, sum_overflows, values_where};
ghost use Rattle.paris_plain.specs.Plain.{frame_of_seen};
ghost use Rattle.paris_names.specs.declared.limits.TheConstants.{MAX_WIDTH_OF_ONE};

use crate::bits::bit;
use crate::combine::{combined, sum_overflows, unit};
use crate::coordinates::{line, line_until};
use crate::inputs::Inputs;
use paris_geometry::Direction;
use paris_model::{Action, Combiner, Inclusion, Line, Operand};
use paris_names::Key;
use std::alloc::{AllocError, Global};

/// Whether a segment begins at a processor.
fn begins_segment(inputs: &Inputs, segments: &Option<Operand>, u: usize) -> bool
    ensures { result ≡ begins_segment (frame_of_seen inputs.now) segments.now u }
{
    match segments {
        None => false,
        Some(field) => inputs.field_at(*field, u) == 1,
    }
}

/// Whether a scan counts the processor's own value.
fn is_inclusive(inclusion: Inclusion) -> bool
    ensures { result ≡ is_inclusive inclusion }
{
    match inclusion {
        Inclusion::Inclusive => true,
        Inclusion::Exclusive => false,
    }
}

/// The part of a path from the last processor on at which a segment begins, or the whole path.
fn last_segment<'a>(inputs: &Inputs, segments: &Option<Operand>, path: &'a [u32]) -> &'a [u32]
    ensures { result.now ≡ from_last (begins_segment (frame_of_seen inputs.now) segments.now) path.now }
{
    for k in (0..path.len()).rev() {
        if begins_segment(inputs, segments, path[k] as usize) {
            return &path[k..];
        }
    }
    path
}

/// The values of the selected processors of a path, with the last one's own or without it.
fn path_values(
    alloc: Global,
    inputs: &Inputs,
    inclusion: Inclusion,
    path: &[u32],
    from: Operand,
    length: u64,
    v: u32,
) -> Result<Vec<u128>, AllocError>
    requires { length ≤ MAX_WIDTH_OF_ONE }
    ensures { IfOk result (λ values. values.items ≡ values_where (λ u. is_selected (frame_of_seen inputs.now) u && (is_inclusive inclusion || not (u == v))) (low_at (frame_of_seen inputs.now) from length) path.now) }
{
    path.iter()
        .filter(|u| inputs.is_selected(**u as usize) && (is_inclusive(inclusion) || **u != v))
        .map(|u| inputs.low_at(from, length, *u as usize))
        .collect(alloc)
}

/// The values that a scan combines at a processor.
fn scan_values(
    alloc: Global,
    inputs: &Inputs,
    axis: u64,
    direction: Direction,
    inclusion: Inclusion,
    segments: &Option<Operand>,
    from: Operand,
    length: u64,
    v: u32,
) -> Result<Vec<u128>, AllocError>
    requires there { is_bad_axis inputs.now.axes axis ≡ false }
    requires narrow { length ≤ MAX_WIDTH_OF_ONE }
    requires processor { v < processor_count inputs.now.axes }
    ensures { IfOk result (λ values. values.items ≡ scan_values inputs.now.axes axis direction inclusion (begins_segment (frame_of_seen inputs.now) segments.now) (is_selected (frame_of_seen inputs.now)) (low_at (frame_of_seen inputs.now) from length) v) }
{
    let path = line_until(alloc, inputs.geometry(), axis as usize, direction, v)?;
    let segment = last_segment(inputs, segments, path.as_slice());
    path_values(alloc, inputs, inclusion, segment, from, length, v)
}

/// The values of the selected processors of a processor's line.
fn line_values(
    alloc: Global,
    inputs: &Inputs,
    axis: u64,
    from: Operand,
    length: u64,
    v: u32,
) -> Result<Vec<u128>, AllocError>
    requires there { is_bad_axis inputs.now.axes axis ≡ false }
    requires narrow { length ≤ MAX_WIDTH_OF_ONE }
    requires processor { v < processor_count inputs.now.axes }
    ensures { IfOk result (λ values. values.items ≡ line_values inputs.now.axes axis (is_selected (frame_of_seen inputs.now)) (low_at (frame_of_seen inputs.now) from length) v) }
{
    let path = line(alloc, inputs.geometry(), axis as usize, v)?;
    path.iter()
        .filter(|u| inputs.is_selected(**u as usize))
        .map(|u| inputs.low_at(from, length, *u as usize))
        .collect(alloc)
}

/// The value at a coordinate of a processor's line.
fn one_value(
    alloc: Global,
    inputs: &Inputs,
    axis: u64,
    coordinate: u64,
    from: Operand,
    length: u64,
    v: u32,
) -> Result<Vec<u128>, AllocError>
    requires there { is_bad_axis inputs.now.axes axis ≡ false }
    requires within { nat_le (axis_length inputs.now.axes axis) coordinate ≡ false }
    requires narrow { length ≤ MAX_WIDTH_OF_ONE }
    requires processor { v < processor_count inputs.now.axes }
    ensures { IfOk result (λ values. values.items ≡ low_at (frame_of_seen inputs.now) from length (at_coordinate inputs.now.axes axis v coordinate) ∷ []) }
{
    let geometry = inputs.geometry();
    let u = geometry.at_coordinate(v, axis as usize, coordinate);
    let mut values = Vec::new(alloc);
    values.push(inputs.low_at(from, length, u as usize))?;
    Ok(values)
}

/// The length of an instruction, in bits.
fn line_length(i: &Line<Operand>) -> u64
    ensures { result ≡ line_length i.now }
{
    match *i {
        Line::Scan { length, .. }
        | Line::CopyScan { length, .. }
        | Line::Spread { length, .. }
        | Line::CopySpread { length, .. }
        | Line::Reduce { length, .. } => length,
    }
}

/// The values that an instruction combines at a processor.
#[tactic(auto, using(crate::proofs::Lengths::line_short))]
fn combined_values(
    alloc: Global,
    inputs: &Inputs,
    i: &Line<Operand>,
    v: u32,
) -> Result<Vec<u128>, AllocError>
    requires fit { IsNarrow inputs.now.axes (Action.AlongLine i.now) }
    requires processor { v < processor_count inputs.now.axes }
    ensures { IfOk result (λ values. values.items ≡ combined_values (frame_of_seen inputs.now) i.now v) }
{
    let length = line_length(i);
    match *i {
        Line::Scan {
            from,
            axis,
            direction,
            inclusion,
            segments,
            ..
        } => scan_values(
            alloc, inputs, axis, direction, inclusion, &segments, from, length, v,
        ),
        Line::CopyScan {
            from,
            axis,
            direction,
            segments,
            ..
        } => {
            let inclusion = Inclusion::Inclusive;
            scan_values(
                alloc, inputs, axis, direction, inclusion, &segments, from, length, v,
            )
        }
        Line::Spread { from, axis, .. } => line_values(alloc, inputs, axis, from, length, v),
        Line::CopySpread {
            from,
            axis,
            coordinate,
            ..
        } => one_value(alloc, inputs, axis, coordinate, from, length, v),
        Line::Reduce { from, axis, .. } => line_values(alloc, inputs, axis, from, length, v),
    }
}

/// What values combine to; a copy is the first of them.
fn result_of(i: &Line<Operand>, values: &[u128]) -> u128
    requires narrow { line_length i.now ≤ MAX_WIDTH_OF_ONE }
    requires fit { All (λ x. x < 2 ^ line_length i.now) values.now }
    ensures { result ≡ result_of i.now values.now }
{
    let length = line_length(i);
    match *i {
        Line::Scan { combiner, .. }
        | Line::Spread { combiner, .. }
        | Line::Reduce { combiner, .. } => {
            combined(combiner, length, unit(combiner, length), values)
        }
        Line::CopyScan { .. } | Line::CopySpread { .. } => match values.first() {
            Some(value) => *value,
            None => 0,
        },
    }
}

/// The result of an instruction at a processor.
#[tactic(auto, using(crate::proofs::Values::values_fit, crate::proofs::Lengths::line_short))]
fn line_result(
    alloc: Global,
    inputs: &Inputs,
    i: &Line<Operand>,
    v: u32,
) -> Result<u128, AllocError>
    requires fit { IsNarrow inputs.now.axes (Action.AlongLine i.now) }
    requires processor { v < processor_count inputs.now.axes }
    ensures { IfOk result (λ x. x ≡ line_result (frame_of_seen inputs.now) i.now v) }
{
    let values = combined_values(alloc, inputs, i, v)?;
    Ok(result_of(i, values.as_slice()))
}

/// Whether the exact sum at a processor needs more bits than the instruction's length, as 1 or 0.
#[tactic(auto, using(crate::proofs::Lengths::line_short))]
fn line_overflow(
    alloc: Global,
    inputs: &Inputs,
    i: &Line<Operand>,
    v: u32,
) -> Result<u128, AllocError>
    requires fit { IsNarrow inputs.now.axes (Action.AlongLine i.now) }
    requires processor { v < processor_count inputs.now.axes }
    ensures { IfOk result (λ x. x ≡ bit (sum_overflows (frame_of_seen inputs.now) i.now v)) }
{
    let values = combined_values(alloc, inputs, i, v)?;
    Ok(bit(sum_overflows(line_length(i), values.as_slice())))
}

/// Whether a processor stores.
fn stores(inputs: &Inputs, i: &Line<Operand>, v: u32) -> bool
    requires { IsNarrow inputs.now.axes (Action.AlongLine i.now) }
    ensures { result ≡ stores_on_line (frame_of_seen inputs.now) i.now v }
{
    let is_selected = inputs.is_selected(v as usize);
    match *i {
        Line::Reduce {
            axis,
            coordinate,
            ..
        } => {
            let own = inputs.geometry().coordinate(v, axis as usize);
            is_selected && u64::from(own) == coordinate
        }
        Line::Scan { .. } | Line::CopyScan { .. } | Line::Spread { .. } | Line::CopySpread { .. } =>
            is_selected,
    }
}

/// The numbers at a field after an instruction along lines.
#[tactic(auto, using(crate::proofs::Lengths::line_short))]
fn field_after(
    alloc: Global,
    inputs: &Inputs,
    i: &Line<Operand>,
    key: &Key,
) -> Result<Vec<u128>, AllocError>
    requires { IsNarrow inputs.now.axes (Action.AlongLine i.now) }
    ensures { IfOk result (λ numbers. numbers.items ≡ put_where (frame_of_seen inputs.now) (stores_on_line (frame_of_seen inputs.now) i.now) key.now (line_length i.now) (line_result (frame_of_seen inputs.now) i.now)) }
{
    let mut numbers = Vec::new(alloc);
    for v in 0..inputs.vps() {
        let new = line_result(alloc, inputs, i, v as u32)?;
        let stores = stores(inputs, i, v as u32);
        numbers.push(inputs.stored_at(key, stores, line_length(i), new, v))?;
    }
    Ok(numbers)
}

/// The numbers at a flag after an instruction along lines.
fn flag_after(
    alloc: Global,
    inputs: &Inputs,
    i: &Line<Operand>,
    key: &Key,
) -> Result<Vec<u128>, AllocError>
    requires { IsNarrow inputs.now.axes (Action.AlongLine i.now) }
    ensures { IfOk result (λ numbers. numbers.items ≡ put_where (frame_of_seen inputs.now) (stores_on_line (frame_of_seen inputs.now) i.now) key.now 1 (λ v. bit (sum_overflows (frame_of_seen inputs.now) i.now v))) }
{
    let mut numbers = Vec::new(alloc);
    for v in 0..inputs.vps() {
        let new = line_overflow(alloc, inputs, i, v as u32)?;
        let stores = stores(inputs, i, v as u32);
        numbers.push(inputs.stored_at(key, stores, 1, new, v))?;
    }
    Ok(numbers)
}

/// The numbers, by processor, that an instruction along lines leaves at a key. Its only error is want of memory.
pub fn line_after(
    alloc: Global,
    inputs: &Inputs,
    i: &Line<Operand>,
    key: &Key,
) -> Result<Vec<u128>, AllocError>
    requires { IsNarrow inputs.now.axes (Action.AlongLine i.now) }
    ensures { IfOk result (λ numbers. numbers.items ≡ line_after (frame_of_seen inputs.now) i.now key.now) }
{
    match key {
        Key::Field(_) => field_after(alloc, inputs, i, key),
        Key::Flag(_, _) => flag_after(alloc, inputs, i, key),
    }
}
