//! Signed products on planes: unsigned ones of the absolute values, with the other sign where the signs are unlike.

ghost use Rattle.std.specs.Prelude.{◌≡◌, ◌<◌, ◌≤◌, ◌&&◌, ◌||◌, IfOk, OnOk, length, not};
ghost use Rattle.paris_model.specs.declared.operators.BinaryOperator.TheVariants.{SignedMultiply};
ghost use Rattle.paris_field.specs.Numbers.{bits_everywhere, has};
ghost use Rattle.paris_alu.specs.Alu.{binary_field, overflow_plane};
ghost use Rattle.paris_muldiv.specs.Products.{absolute_field, least_plane, opposite_field, unlike_plane};

use crate::planes::product_on_planes;
use paris_alu::{Overflowing, negate};
use paris_field::FieldValue;
use paris_layer::Layer;
use paris_plane::{And, Or, Xor};
use std::alloc::{AllocError, Global};

/// The low `bits` bits of a field, read as two's complement, with the other sign where the mask is 1, and where that overflows: at the
/// least number.
fn opposite_where(
    alloc: Global,
    x: &FieldValue,
    mask: &Layer,
    bits: u64,
) -> Result<Overflowing, AllocError>
    requires positive { 0 < bits }
    requires narrow { bits ≤ 128 }
    requires x_width { bits ≤ x.now.width }
    requires mask { length mask.now ≡ length x.now.numbers }
    ensures value { IfOk result (λ turned. turned.value ≡ opposite_field bits mask.now x.now) }
    ensures overflow { IfOk result (λ turned. turned.overflow ≡ least_plane bits mask.now x.now) }
{
    let opposite = negate(alloc, x, bits)?;
    let mut kept = mask.copy()?;
    kept.not_in();
    let mut value = opposite.value;
    value.merge_in(&kept, x.low(bits), bits)?;
    let mut overflow = opposite.overflow;
    overflow.put::<And>(alloc, mask)?;
    Ok(Overflowing { value, overflow })
}

/// The absolute values of the low `bits` bits, read as two's complement: unsigned numbers of as many bits.
fn absolute_values(alloc: Global, x: &FieldValue, bits: u64) -> Result<FieldValue, AllocError>
    requires positive { 0 < bits }
    requires narrow { bits ≤ 128 }
    requires x_width { bits ≤ x.now.width }
    ensures { IfOk result (λ values. values ≡ absolute_field bits x.now) }
{
    let turned = opposite_where(alloc, x, x.plane(bits - 1), bits)?;
    Ok(turned.value)
}

/// Where the low `bits` bits of two fields, read as two's complement, have unlike signs.
fn unlike_signs(
    alloc: Global,
    x: &FieldValue,
    y: &FieldValue,
    bits: u64,
) -> Result<Layer, AllocError>
    requires positive { 0 < bits }
    requires x_width { bits ≤ x.now.width }
    requires y_width { bits ≤ y.now.width }
    requires same { length x.now.numbers ≡ length y.now.numbers }
    ensures { IfOk result (λ unlike. unlike ≡ unlike_plane bits x.now y.now) }
{
    let unlike = Layer::combined::<Xor>(alloc, x.plane(bits - 1), y.plane(bits - 1))?;
    Ok(unlike)
}

/// Puts where a signed product overflows: where its absolute value has bits above the top one, as `wide` says, or has the top bit and
/// the product isn't the least number, as `overflow` said. Fails only for want of memory; the overflow then means nothing.
fn put_overflow(
    alloc: Global,
    wide: &Layer,
    top: &Layer,
    overflow: &mut Layer,
) -> Result<(), AllocError>
    requires wide { length wide.now ≡ length overflow.old }
    requires top { length top.now ≡ length overflow.old }
    ensures { OnOk result (overflow.new ≡ bits_everywhere (length overflow.old) (λ v. has wide.now v || has top.now v && not (has overflow.old v))) }
{
    overflow.not_in();
    overflow.put::<And>(alloc, top)?;
    overflow.put::<Or>(alloc, wide)?;
    Ok(())
}

/// The low `bits` bits of the products of the low `bits` bits of two signed fields, and where they can't hold the whole product.
pub(crate) fn signed_product_on_planes(
    alloc: Global,
    x: &FieldValue,
    y: &FieldValue,
    bits: u64,
) -> Result<Overflowing, AllocError>
    requires positive { 0 < bits }
    requires narrow { bits ≤ 128 }
    requires x_width { bits ≤ x.now.width }
    requires y_width { bits ≤ y.now.width }
    requires same { length x.now.numbers ≡ length y.now.numbers }
    ensures value { IfOk result (λ product. product.value ≡ binary_field SignedMultiply bits x.now y.now (λ _. 0)) }
    ensures overflow { IfOk result (λ product. product.overflow ≡ overflow_plane SignedMultiply bits x.now y.now (λ _. 0)) }
{
    let unlike = unlike_signs(alloc, x, y, bits)?;
    let x_values = absolute_values(alloc, x, bits)?;
    let y_values = absolute_values(alloc, y, bits)?;
    let product = product_on_planes(alloc, &x_values, &y_values, bits)?;
    let mut signed = opposite_where(alloc, &product.value, &unlike, bits)?;
    let top = product.value.plane(bits - 1);
    put_overflow(alloc, &product.overflow, top, &mut signed.overflow)?;
    Ok(signed)
}
