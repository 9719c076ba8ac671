//! Instructions that store in selected processors, each by itself, on planes.

ghost use Rattle.std.specs.Prelude.{◌≡◌, ◌≤◌, ◌<◌, ◌*◌, ◌^◌, true, length, IfOk};
ghost use Rattle.paris_geometry.specs.Geometry.{coordinate, is_geometry, is_power_of_two, processor_count, stride};
ghost use Rattle.paris_model.specs.Store.{low, everywhere};
ghost use Rattle.paris_model.specs.Fits.{IsFit};
ghost use Rattle.paris_alu.specs.Alu.{resize_overflow_plane, resized_field};
ghost use Rattle.paris_exec.specs.Tasks.{left_values};
ghost use Rattle.paris_names.specs.declared.limits.TheConstants.{MAX_WIDTH};

use crate::binary::binary_values;
use crate::orders::Order;
use crate::planes::{put_field, put_flag_alone, put_overflowing, widened};
use paris_alu::{Overflowing, compare, copy_low, extend, invert, negate};
use paris_field::FieldValue;
use paris_geometry::Geometry;
use paris_layer::Layer;
use paris_model::{Action, Comparison, Conditional, Operand, Sign, UnaryOperator};
use paris_names::{FlagName, Key, SetNo};
use std::alloc::{AllocError, Global};

/// The values that an operator of one source leaves.
fn unary_values(
    alloc: Global,
    order: &Order,
    operator: UnaryOperator,
    to: &Operand,
    from: &Operand,
    bits: u64,
) -> Result<Vec<FieldValue>, AllocError>
    requires acts { order.now.plan.action ≡ Action.OnSelected (Conditional.Unary operator to.now from.now bits) }
    requires fit { IsFit order.now.plan.axes order.now.plan.action }
    ensures { IfOk result (λ values. values.items ≡ left_values order.now) }
{
    let x = order.input(&Key::Field(from.field));
    match operator {
        UnaryOperator::Negate => put_overflowing(alloc, order, to, negate(alloc, x, bits)?),
        UnaryOperator::BitNot => put_field(alloc, order, to, invert(alloc, x, bits)?),
        UnaryOperator::Move => put_field(alloc, order, to, copy_low(alloc, x, bits)?),
    }
}

/// The low `from_bits` bits of a field as numbers of `bits` bits. A field of fewer bits has zeros above them.
fn resized(
    alloc: Global,
    sign: Sign,
    x: &FieldValue,
    from_bits: u64,
    bits: u64,
) -> Result<Overflowing, AllocError>
    requires positive { 0 < bits }
    requires narrow { bits ≤ 128 }
    requires from_some { 0 < from_bits }
    requires from_narrow { from_bits ≤ 128 }
    ensures value { IfOk result (λ resized. resized.value ≡ resized_field sign bits from_bits x.now) }
    ensures overflow { IfOk result (λ resized. resized.overflow ≡ resize_overflow_plane sign bits from_bits x.now) }
{
    if from_bits <= x.width() {
        return extend(alloc, sign, x, from_bits, bits);
    }
    let wide = widened(alloc, x, from_bits)?;
    extend(alloc, sign, &wide, from_bits, bits)
}

/// The values that a move to another length leaves.
fn resized_values(
    alloc: Global,
    order: &Order,
    sign: Sign,
    to: &Operand,
    from: &Operand,
    bits: u64,
    from_bits: u64,
) -> Result<Vec<FieldValue>, AllocError>
    requires acts { order.now.plan.action ≡ Action.OnSelected (Conditional.Resize sign to.now from.now bits from_bits) }
    requires fit { IsFit order.now.plan.axes order.now.plan.action }
    ensures { IfOk result (λ values. values.items ≡ left_values order.now) }
{
    let x = order.input(&Key::Field(from.field));
    let new = resized(alloc, sign, x, from_bits, bits)?;
    put_overflowing(alloc, order, to, new)
}

/// The exponent of a power of two.
fn exponent(power: u64) -> u64
    requires { is_power_of_two power ≡ true }
    ensures value { power ≡ 2 ^ result }
    ensures small { result ≤ 16 }
{
    u64::from(power.trailing_zeros())
}

/// The bit of an address from which on it holds the coordinate on an axis.
fn first_bit(geometry: Geometry, axis: u64) -> u64
    requires sound { is_geometry geometry ≡ true }
    requires axis { axis < length geometry }
    ensures value { stride geometry axis ≡ 2 ^ result }
    ensures small { result ≤ 16 * axis }
{
    let mut from = 0;
    for lower in 0..axis as usize {
        from += exponent(geometry.len(lower));
    }
    from
}

/// How many bits the greatest address has.
const ADDRESS_BITS: u64 = 16;

/// The low bits of the coordinates of all processors on an axis: of their addresses' bits those that hold the coordinate.
fn coordinates(
    alloc: Global,
    geometry: Geometry,
    axis: u64,
    bits: u64,
) -> Result<FieldValue, AllocError>
    requires axis { axis < length geometry }
    requires narrow { bits ≤ MAX_WIDTH }
    ensures { IfOk result (λ value. value ≡ record { width = bits; numbers = everywhere (processor_count geometry) (λ v. low bits (coordinate geometry axis v)) }) }
{
    let vps = geometry.vps();
    let count = exponent(geometry.len(axis as usize)).min(bits);
    FieldValue::address_bits(alloc, bits, first_bit(geometry, axis), count, vps)
}

/// The values that a comparison leaves.
fn compare_values(
    alloc: Global,
    order: &Order,
    comparison: Comparison,
    left: &Operand,
    right: &Operand,
    bits: u64,
) -> Result<Vec<FieldValue>, AllocError>
    requires acts { order.now.plan.action ≡ Action.OnSelected (Conditional.Compare comparison left.now right.now bits) }
    requires fit { IsFit order.now.plan.axes order.now.plan.action }
    ensures { IfOk result (λ values. values.items ≡ left_values order.now) }
{
    let x = order.input(&Key::Field(left.field));
    let y = order.input(&Key::Field(right.field));
    put_flag_alone(
        alloc,
        order,
        &FlagName::Test,
        compare(alloc, comparison, x, y, bits)?,
    )
}

/// The values that a move of a constant leaves.
fn constant_values(
    alloc: Global,
    order: &Order,
    to: &Operand,
    value: u128,
    bits: u64,
) -> Result<Vec<FieldValue>, AllocError>
    requires acts { order.now.plan.action ≡ Action.OnSelected (Conditional.MoveConstant to.now value bits) }
    requires fit { IsFit order.now.plan.axes order.now.plan.action }
    ensures { IfOk result (λ values. values.items ≡ left_values order.now) }
{
    let vps = order.plan().geometry().vps();
    let new = FieldValue::constant(alloc, bits, value, vps)?;
    put_field(alloc, order, to, new)
}

/// The values that a store of the processors' coordinates on an axis leaves.
fn coordinate_values(
    alloc: Global,
    order: &Order,
    to: &Operand,
    axis: u64,
    bits: u64,
) -> Result<Vec<FieldValue>, AllocError>
    requires acts { order.now.plan.action ≡ Action.OnSelected (Conditional.MyCoordinate to.now axis bits) }
    requires fit { IsFit order.now.plan.axes order.now.plan.action }
    ensures { IfOk result (λ values. values.items ≡ left_values order.now) }
{
    let new = coordinates(alloc, order.plan().geometry(), axis, bits)?;
    put_field(alloc, order, to, new)
}

/// The values that a store of the processors' addresses leaves.
fn address_values(
    alloc: Global,
    order: &Order,
    to: &Operand,
    bits: u64,
) -> Result<Vec<FieldValue>, AllocError>
    requires acts { order.now.plan.action ≡ Action.OnSelected (Conditional.MyAddress to.now bits) }
    requires fit { IsFit order.now.plan.axes order.now.plan.action }
    ensures { IfOk result (λ values. values.items ≡ left_values order.now) }
{
    let vps = order.plan().geometry().vps();
    let count = ADDRESS_BITS.min(bits);
    let new = FieldValue::address_bits(alloc, bits, 0, count, vps)?;
    put_field(alloc, order, to, new)
}

/// The values that a move of a field of one bit to the test flag leaves.
fn load_test_values(
    alloc: Global,
    order: &Order,
    from: &Operand,
) -> Result<Vec<FieldValue>, AllocError>
    requires acts { order.now.plan.action ≡ Action.OnSelected (Conditional.LoadTest from.now) }
    requires fit { IsFit order.now.plan.axes order.now.plan.action }
    ensures { IfOk result (λ values. values.items ≡ left_values order.now) }
{
    let new = order.input(&Key::Field(from.field)).mask().copy()?;
    put_flag_alone(alloc, order, &FlagName::Test, new)
}

/// The values that a move of the test flag to a field of one bit leaves.
fn store_test_values(
    alloc: Global,
    order: &Order,
    to: &Operand,
) -> Result<Vec<FieldValue>, AllocError>
    requires acts { order.now.plan.action ≡ Action.OnSelected (Conditional.StoreTest to.now) }
    requires fit { IsFit order.now.plan.axes order.now.plan.action }
    ensures { IfOk result (λ values. values.items ≡ left_values order.now) }
{
    let new = order
        .input(&Key::Flag(order.plan().set(), FlagName::Test))
        .copy()?;
    put_field(alloc, order, to, new)
}

/// The values that an instruction of this family leaves at the keys that its plan writes, in their order.
pub(crate) fn conditional_values(
    alloc: Global,
    order: &Order,
    i: &Conditional<Operand, SetNo>,
) -> Result<Vec<FieldValue>, AllocError>
    requires acts { order.now.plan.action ≡ Action.OnSelected i.now }
    requires fit { IsFit order.now.plan.axes order.now.plan.action }
    ensures { IfOk result (λ values. values.items ≡ left_values order.now) }
{
    let vps = order.plan().geometry().vps();
    let test = FlagName::Test;
    match i {
        Conditional::Binary {
            operator,
            to,
            left,
            right,
            length,
        } => binary_values(alloc, order, *operator, to, left, right, *length),
        Conditional::Unary {
            operator,
            to,
            from,
            length,
        } => unary_values(alloc, order, *operator, to, from, *length),
        Conditional::Resize {
            sign,
            to,
            from,
            length,
            from_length,
        } => resized_values(alloc, order, *sign, to, from, *length, *from_length),
        Conditional::Compare {
            comparison,
            left,
            right,
            length,
        } => compare_values(alloc, order, *comparison, left, right, *length),
        Conditional::MoveConstant { to, value, length } => {
            constant_values(alloc, order, to, *value, *length)
        }
        Conditional::MyCoordinate { to, axis, length } => {
            coordinate_values(alloc, order, to, *axis, *length)
        }
        Conditional::MyAddress { to, length } => address_values(alloc, order, to, *length),
        Conditional::SetTest(_) => put_flag_alone(alloc, order, &test, Layer::filled(true, vps)),
        Conditional::ClearTest(_) => put_flag_alone(alloc, order, &test, Layer::filled(false, vps)),
        Conditional::LoadTest(from) => load_test_values(alloc, order, from),
        Conditional::StoreTest(to) => store_test_values(alloc, order, to),
    }
}
