//! Values on planes: the selected processors put new numbers into the low bits of a key that the plan reads.

ghost use Rattle.std.specs.Prelude.{◌≡◌, ◌≤◌, ◌<◌, ◌==◌, ℕ, true, false, length, map, slice_index, slice_index_or, List, [], ◌∷◌, IfOk};
ghost use Rattle.paris_names.specs.Keys.{has_key};
ghost use Rattle.paris_names.specs.declared.keys.FlagName.TheVariants.{Context, Carry, Overflow};
ghost use Rattle.paris_names.specs.declared.keys.Key.TheVariants.{Field, Flag};
ghost use Rattle.paris_geometry.specs.Geometry.{processor_count};
ghost use Rattle.paris_model.specs.Store.{bit, stored};
ghost use Rattle.paris_model.specs.Instructions.{reads, key_width};
ghost use Rattle.paris_exec.specs.Tasks.{put_value, put_value_where, seen_at};
ghost use Rattle.paris_exec.specs.Planes.{flag_value, is_selected_without, AreRead};

use crate::orders::Order;
use paris_alu::{Overflowing, Sum};
use paris_field::FieldValue;
use paris_layer::Layer;
use paris_model::Operand;
use paris_names::{FlagName, Key};
use paris_plane::Without;
use std::alloc::{AllocError, Global};

/// The bits of a flag that the plan reads.
pub(crate) fn flag_plane<'a>(order: &'a Order, flag: &FlagName) -> &'a Layer
    requires { has_key (reads order.now.plan) (Flag order.now.plan.set_no flag.now) ≡ true }
    ensures bits { map bit result.now ≡ seen_at order.now (Flag order.now.plan.set_no flag.now) }
    ensures count { length result.now ≡ processor_count order.now.plan.axes }
{
    order.input(&Key::Flag(order.plan().set(), *flag)).mask()
}

/// The same numbers at a width that isn't less.
pub(crate) fn widened(alloc: Global, x: &FieldValue, width: u64) -> Result<FieldValue, AllocError>
    requires wide { x.now.width ≤ width }
    requires narrow { width ≤ 128 }
    ensures { IfOk result (λ value. value ≡ record { width = width; numbers = x.now.numbers }) }
{
    let vps = x.len();
    let all = Layer::filled(true, vps);
    let mut value = FieldValue::zeros(alloc, width, vps)?;
    value.merge_in(&all, x.planes(), x.width())?;
    Ok(value)
}

/// New numbers in the selected processors, and the old ones in the others.
fn keep_others(
    selected: &Layer,
    old: &FieldValue,
    new: FieldValue,
) -> Result<FieldValue, AllocError>
    requires mask { length selected.now ≡ length old.now.numbers }
    requires width { new.width ≡ old.now.width }
    requires count { length new.numbers ≡ length old.now.numbers }
    ensures { IfOk result (λ value. value ≡ record { width = old.now.width; numbers = stored (length old.now.numbers) (λ v. slice_index_or selected.now v false) (slice_index old.now.numbers) old.now.width (slice_index new.numbers) }) }
{
    let width = new.planes().len() as u64;
    let kept = old.low(width);
    if selected.is_all(true) {
        return Ok(new);
    }
    let mut others = selected.copy()?;
    others.not_in();
    let mut value = new;
    value.merge_in(&others, kept, width)?;
    Ok(value)
}

/// The value at a key after the processors of a mask have put new numbers into its low bits, as many as the new value is wide. Where that
/// is all of them, no copy is made: the new value takes the others' old numbers.
pub(crate) fn put_where(
    order: &Order,
    mask: &Layer,
    key: &Key,
    new: FieldValue,
) -> Result<FieldValue, AllocError>
    requires mask { length mask.now ≡ processor_count order.now.plan.axes }
    requires read { has_key (reads order.now.plan) key.now ≡ true }
    requires fits_key { new.width ≤ key_width order.now.plan key.now }
    requires count { length new.numbers ≡ processor_count order.now.plan.axes }
    ensures { IfOk result (λ value. value ≡ put_value_where order.now (λ v. slice_index_or mask.now v false) key.now new) }
{
    let old = order.input(key);
    if new.width() == old.width() {
        return keep_others(mask, old, new);
    }
    let value = old.merged(mask, new.planes(), new.width())?;
    Ok(value)
}

/// The same, where the selected processors have.
fn put(order: &Order, key: &Key, new: FieldValue) -> Result<FieldValue, AllocError>
    requires context { has_key (reads order.now.plan) (Flag order.now.plan.set_no Context) ≡ true }
    requires read { has_key (reads order.now.plan) key.now ≡ true }
    requires fits_key { new.width ≤ key_width order.now.plan key.now }
    requires count { length new.numbers ≡ processor_count order.now.plan.axes }
    ensures { IfOk result (λ value. value ≡ put_value order.now key.now new) }
{
    put_where(order, flag_plane(order, &FlagName::Context), key, new)
}

/// The same for a flag of the set. Where all processors are selected, no copy is made.
fn put_flag(
    alloc: Global,
    order: &Order,
    flag: &FlagName,
    new: Layer,
) -> Result<FieldValue, AllocError>
    requires context { has_key (reads order.now.plan) (Flag order.now.plan.set_no Context) ≡ true }
    requires read { has_key (reads order.now.plan) (Flag order.now.plan.set_no flag.now) ≡ true }
    requires count { length new ≡ processor_count order.now.plan.axes }
    ensures { IfOk result (λ value. value ≡ put_value order.now (Flag order.now.plan.set_no flag.now) (flag_value new)) }
{
    let selected = flag_plane(order, &FlagName::Context);
    let old = flag_plane(order, flag);
    if selected.is_all(true) {
        return FieldValue::from_layer(alloc, new);
    }
    let bits = Layer::selected(alloc, selected, &new, old)?;
    FieldValue::from_layer(alloc, bits)
}

/// The values of an instruction that stores to a field alone.
pub(crate) fn put_field(
    alloc: Global,
    order: &Order,
    to: &Operand,
    new: FieldValue,
) -> Result<Vec<FieldValue>, AllocError>
    requires read { AreRead order.now (Field to.now.field ∷ Flag order.now.plan.set_no Context ∷ []) }
    requires fits_key { new.width ≤ key_width order.now.plan (Field to.now.field) }
    requires count { length new.numbers ≡ processor_count order.now.plan.axes }
    ensures { IfOk result (λ values. values.items ≡ put_value order.now (Field to.now.field) new ∷ []) }
{
    let mut values = Vec::with_capacity(alloc, 1)?;
    values.push(put(order, &Key::Field(to.field), new)?)?;
    Ok(values)
}

/// The values of an instruction that stores to a flag alone.
pub(crate) fn put_flag_alone(
    alloc: Global,
    order: &Order,
    flag: &FlagName,
    new: Layer,
) -> Result<Vec<FieldValue>, AllocError>
    requires read { AreRead order.now (Flag order.now.plan.set_no flag.now ∷ Flag order.now.plan.set_no Context ∷ []) }
    requires count { length new ≡ processor_count order.now.plan.axes }
    ensures { IfOk result (λ values. values.items ≡ put_value order.now (Flag order.now.plan.set_no flag.now) (flag_value new) ∷ []) }
{
    let mut values = Vec::with_capacity(alloc, 1)?;
    values.push(put_flag(alloc, order, flag, new)?)?;
    Ok(values)
}

/// The values of an instruction that stores to a field and to the overflow flag.
pub(crate) fn put_overflowing(
    alloc: Global,
    order: &Order,
    to: &Operand,
    new: Overflowing,
) -> Result<Vec<FieldValue>, AllocError>
    requires read { AreRead order.now (Field to.now.field ∷ Flag order.now.plan.set_no Overflow ∷ Flag order.now.plan.set_no Context ∷ []) }
    requires fits_key { new.value.width ≤ key_width order.now.plan (Field to.now.field) }
    requires count { length new.value.numbers ≡ processor_count order.now.plan.axes }
    requires flags { length new.overflow ≡ processor_count order.now.plan.axes }
    ensures { IfOk result (λ values. values.items ≡ put_value order.now (Field to.now.field) new.value ∷ put_value order.now (Flag order.now.plan.set_no Overflow) (flag_value new.overflow) ∷ []) }
{
    let Overflowing { value, overflow } = new;
    let mut values = Vec::with_capacity(alloc, 2)?;
    values.push(put(order, &Key::Field(to.field), value)?)?;
    values.push(put_flag(alloc, order, &FlagName::Overflow, overflow)?)?;
    Ok(values)
}

/// The values of a quotient or a remainder: where the divisor is 0, which the overflow flag tells, a selected processor keeps the
/// destination.
pub(crate) fn put_quotient(
    alloc: Global,
    order: &Order,
    to: &Operand,
    new: Overflowing,
) -> Result<Vec<FieldValue>, AllocError>
    requires read { AreRead order.now (Field to.now.field ∷ Flag order.now.plan.set_no Overflow ∷ Flag order.now.plan.set_no Context ∷ []) }
    requires fits_key { new.value.width ≤ key_width order.now.plan (Field to.now.field) }
    requires count { length new.value.numbers ≡ processor_count order.now.plan.axes }
    requires flags { length new.overflow ≡ processor_count order.now.plan.axes }
    ensures { IfOk result (λ values. values.items ≡ put_value_where order.now (is_selected_without order.now new.overflow) (Field to.now.field) new.value ∷ put_value order.now (Flag order.now.plan.set_no Overflow) (flag_value new.overflow) ∷ []) }
{
    let Overflowing { value, overflow } = new;
    let selected = flag_plane(order, &FlagName::Context);
    let divided = Layer::combined::<Without>(alloc, selected, &overflow)?;
    let mut values = Vec::with_capacity(alloc, 2)?;
    values.push(put_where(order, &divided, &Key::Field(to.field), value)?)?;
    values.push(put_flag(alloc, order, &FlagName::Overflow, overflow)?)?;
    Ok(values)
}

/// The values of an instruction that stores to a field and to the flags carry and overflow.
pub(crate) fn put_sum(
    alloc: Global,
    order: &Order,
    to: &Operand,
    new: Sum,
) -> Result<Vec<FieldValue>, AllocError>
    requires read { AreRead order.now (Field to.now.field ∷ Flag order.now.plan.set_no Carry ∷ Flag order.now.plan.set_no Overflow ∷ Flag order.now.plan.set_no Context ∷ []) }
    requires fits_key { new.value.width ≤ key_width order.now.plan (Field to.now.field) }
    requires count { length new.value.numbers ≡ processor_count order.now.plan.axes }
    requires carries { length new.carry ≡ processor_count order.now.plan.axes }
    requires overflows { length new.overflow ≡ processor_count order.now.plan.axes }
    ensures { IfOk result (λ values. values.items ≡ put_value order.now (Field to.now.field) new.value ∷ put_value order.now (Flag order.now.plan.set_no Carry) (flag_value new.carry) ∷ put_value order.now (Flag order.now.plan.set_no Overflow) (flag_value new.overflow) ∷ []) }
{
    let Sum {
        value,
        carry,
        overflow,
    } = new;
    let mut values = Vec::with_capacity(alloc, 3)?;
    values.push(put(order, &Key::Field(to.field), value)?)?;
    values.push(put_flag(alloc, order, &FlagName::Carry, carry)?)?;
    values.push(put_flag(alloc, order, &FlagName::Overflow, overflow)?)?;
    Ok(values)
}
