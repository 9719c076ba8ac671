//! Scans, spreads and reduces along the lines of an axis, on planes.

ghost use Rattle.std.specs.Prelude.{◌≡◌, ◌<◌, ◌≤◌, ◌==◌, ℕ, true, length, slice_index, is_some, IfOk, IfSome, List, ◌∷◌, ◌++◌, []};
ghost use Rattle.paris_names.specs.Keys.{has_key};
ghost use Rattle.paris_names.specs.declared.keys.FlagName.TheVariants.{Overflow};
ghost use Rattle.paris_names.specs.declared.keys.Key.TheVariants.{Field, Flag};
ghost use Rattle.paris_geometry.specs.Geometry.{processor_count};
ghost use Rattle.paris_model.specs.Fits.{IsFit};
ghost use Rattle.paris_model.specs.Instructions.{reads, key_width};
ghost use Rattle.paris_model.specs.Lines.{begins_segment};
ghost use Rattle.paris_field.specs.Numbers.{bits_everywhere, has};
ghost use Rattle.paris_exec.specs.Combined.{overflow_values};
ghost use Rattle.paris_exec.specs.Tasks.{frame_at, left_values, put_value_where};

use crate::orders::Order;
use crate::planes::{flag_plane, put_where};
use paris_alu::compare;
use paris_field::FieldValue;
use paris_geometry::Direction;
use paris_layer::Layer;
use paris_model::{Action, Combiner, Comparison, Inclusion, Line, Operand};
use paris_names::{FlagName, Key};
use paris_scan::{Combined, Reduced, copy_scan, copy_spread, reduce, scan, spread};
use std::alloc::{AllocError, Global};

/// Where a value is 1.
fn where_one(alloc: Global, x: &FieldValue) -> Result<Layer, AllocError>
    requires { 0 < x.now.width }
    ensures { IfOk result (λ plane. plane ≡ bits_everywhere (length x.now.numbers) (λ v. slice_index x.now.numbers v == 1)) }
{
    let one = FieldValue::constant(alloc, x.width(), 1, x.len())?;
    let bits = x.planes().len() as u64;
    compare(alloc, Comparison::Equal, x, &one, bits)
}

/// Where segments begin: where the segment field is 1, and nowhere without one.
fn segments_plane(
    alloc: Global,
    order: &Order,
    segments: &Option<Operand>,
) -> Result<Layer, AllocError>
    requires { IfSome segments.now (λ field. (has_key (reads order.now.plan) (Field field.field) ≡ true) × (0 < key_width order.now.plan (Field field.field))) }
    ensures begins { IfOk result (λ plane. (v : ℕ) → has plane v ≡ begins_segment (frame_at order.now) segments.now v) }
    ensures count { IfOk result (λ plane. length plane ≡ processor_count order.now.plan.axes) }
{
    match segments {
        None => Ok(Layer::filled(false, order.plan().geometry().vps())),
        Some(field) => where_one(alloc, order.input(&Key::Field(field.field))),
    }
}

/// The values of an instruction whose result the processors of a mask store, with the overflow flags that it sets.
fn put_combined(
    alloc: Global,
    order: &Order,
    to: &Operand,
    mask: &Layer,
    new: Combined,
) -> Result<Vec<FieldValue>, AllocError>
    requires mask { length mask.now ≡ processor_count order.now.plan.axes }
    requires read { has_key (reads order.now.plan) (Field to.now.field) ≡ true }
    requires fits_key { new.value.width ≤ key_width order.now.plan (Field to.now.field) }
    requires count { length new.value.numbers ≡ processor_count order.now.plan.axes }
    requires flags { IfSome new.overflow (λ bits. (has_key (reads order.now.plan) (Flag order.now.plan.set_no Overflow) ≡ true) × (length bits ≡ processor_count order.now.plan.axes)) }
    ensures { IfOk result (λ values. values.items ≡ put_value_where order.now (has mask.now) (Field to.now.field) new.value ∷ overflow_values order.now (has mask.now) new.overflow) }
{
    let Combined { value, overflow } = new;
    let mut values = Vec::with_capacity(alloc, 2)?;
    values.push(put_where(order, mask, &Key::Field(to.field), value)?)?;
    match overflow {
        None => Ok(values),
        Some(bits) => {
            let flag = Key::Flag(order.plan().set(), FlagName::Overflow);
            let bits = FieldValue::from_layer(alloc, bits)?;
            values.push(put_where(order, mask, &flag, bits)?)?;
            Ok(values)
        }
    }
}

/// The values that a scan leaves.
fn scan_values(
    alloc: Global,
    order: &Order,
    combiner: Combiner,
    to: &Operand,
    from: &Operand,
    axis: u64,
    bits: u64,
    direction: Direction,
    inclusion: Inclusion,
    segments: &Option<Operand>,
) -> Result<Vec<FieldValue>, AllocError>
    requires acts { order.now.plan.action ≡ Action.AlongLine (Line.Scan combiner to.now from.now axis bits direction inclusion segments.now) }
    requires fit { IsFit order.now.plan.axes order.now.plan.action }
    ensures { IfOk result (λ values. values.items ≡ left_values order.now) }
{
    let geometry = order.plan().geometry();
    let x = order.input(&Key::Field(from.field));
    let selected = flag_plane(order, &FlagName::Context);
    let begins = segments_plane(alloc, order, segments)?;
    let new = scan(
        alloc,
        combiner,
        geometry,
        axis as usize,
        direction,
        inclusion,
        x,
        selected,
        &begins,
        bits,
    )?;
    put_combined(alloc, order, to, selected, new)
}

/// The values that a copy from the first selected processor of each segment leaves.
fn copy_scan_values(
    alloc: Global,
    order: &Order,
    to: &Operand,
    from: &Operand,
    axis: u64,
    bits: u64,
    direction: Direction,
    segments: &Option<Operand>,
) -> Result<Vec<FieldValue>, AllocError>
    requires acts { order.now.plan.action ≡ Action.AlongLine (Line.CopyScan to.now from.now axis bits direction segments.now) }
    requires fit { IsFit order.now.plan.axes order.now.plan.action }
    ensures { IfOk result (λ values. values.items ≡ left_values order.now) }
{
    let geometry = order.plan().geometry();
    let x = order.input(&Key::Field(from.field));
    let selected = flag_plane(order, &FlagName::Context);
    let begins = segments_plane(alloc, order, segments)?;
    let axis = axis as usize;
    let value = copy_scan(alloc, geometry, axis, direction, x, selected, &begins, bits)?;
    let overflow = None;
    put_combined(alloc, order, to, selected, Combined { value, overflow })
}

/// The values that a spread leaves.
fn spread_values(
    alloc: Global,
    order: &Order,
    combiner: Combiner,
    to: &Operand,
    from: &Operand,
    axis: u64,
    bits: u64,
) -> Result<Vec<FieldValue>, AllocError>
    requires acts { order.now.plan.action ≡ Action.AlongLine (Line.Spread combiner to.now from.now axis bits) }
    requires fit { IsFit order.now.plan.axes order.now.plan.action }
    ensures { IfOk result (λ values. values.items ≡ left_values order.now) }
{
    let geometry = order.plan().geometry();
    let x = order.input(&Key::Field(from.field));
    let selected = flag_plane(order, &FlagName::Context);
    let new = spread(alloc, combiner, geometry, axis as usize, x, selected, bits)?;
    put_combined(alloc, order, to, selected, new)
}

/// The values that a copy from a coordinate of each line leaves.
fn copy_spread_values(
    alloc: Global,
    order: &Order,
    to: &Operand,
    from: &Operand,
    axis: u64,
    bits: u64,
    place: u64,
) -> Result<Vec<FieldValue>, AllocError>
    requires acts { order.now.plan.action ≡ Action.AlongLine (Line.CopySpread to.now from.now axis bits place) }
    requires fit { IsFit order.now.plan.axes order.now.plan.action }
    ensures { IfOk result (λ values. values.items ≡ left_values order.now) }
{
    let geometry = order.plan().geometry();
    let x = order.input(&Key::Field(from.field));
    let selected = flag_plane(order, &FlagName::Context);
    let value = copy_spread(alloc, geometry, axis as usize, place, x, bits)?;
    let overflow = None;
    put_combined(alloc, order, to, selected, Combined { value, overflow })
}

/// The values that a reduce leaves: the selected processors at a coordinate store what their lines combine to.
fn reduce_values(
    alloc: Global,
    order: &Order,
    combiner: Combiner,
    to: &Operand,
    from: &Operand,
    axis: u64,
    bits: u64,
    place: u64,
) -> Result<Vec<FieldValue>, AllocError>
    requires acts { order.now.plan.action ≡ Action.AlongLine (Line.Reduce combiner to.now from.now axis bits place) }
    requires fit { IsFit order.now.plan.axes order.now.plan.action }
    ensures { IfOk result (λ values. values.items ≡ left_values order.now) }
{
    let geometry = order.plan().geometry();
    let x = order.input(&Key::Field(from.field));
    let selected = flag_plane(order, &FlagName::Context);
    let axis = axis as usize;
    let reduced = reduce(alloc, combiner, geometry, axis, place, x, selected, bits)?;
    let Reduced { combined, stores } = reduced;
    put_combined(alloc, order, to, &stores, combined)
}

/// The values that an instruction of this family leaves at the keys that its plan writes, in their order.
pub(crate) fn line_values(
    alloc: Global,
    order: &Order,
    i: &Line<Operand>,
) -> Result<Vec<FieldValue>, AllocError>
    requires acts { order.now.plan.action ≡ Action.AlongLine i.now }
    requires fit { IsFit order.now.plan.axes order.now.plan.action }
    ensures { IfOk result (λ values. values.items ≡ left_values order.now) }
{
    match i {
        Line::Scan {
            combiner,
            to,
            from,
            axis,
            length,
            direction,
            inclusion,
            segments,
        } => scan_values(
            alloc, order, *combiner, to, from, *axis, *length, *direction, *inclusion, segments,
        ),
        Line::CopyScan {
            to,
            from,
            axis,
            length,
            direction,
            segments,
        } => copy_scan_values(alloc, order, to, from, *axis, *length, *direction, segments),
        Line::Spread {
            combiner,
            to,
            from,
            axis,
            length,
        } => spread_values(alloc, order, *combiner, to, from, *axis, *length),
        Line::CopySpread {
            to,
            from,
            axis,
            length,
            coordinate,
        } => copy_spread_values(alloc, order, to, from, *axis, *length, *coordinate),
        Line::Reduce {
            combiner,
            to,
            from,
            axis,
            length,
            coordinate,
        } => reduce_values(
            alloc,
            order,
            *combiner,
            to,
            from,
            *axis,
            *length,
            *coordinate,
        ),
    }
}
