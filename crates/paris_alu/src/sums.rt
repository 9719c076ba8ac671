//! Sums and differences, and where they carry, borrow and overflow.

ghost use Rattle.std.specs.Prelude.{◌≡◌, ◌≤◌, ◌<◌, IfOk, length};
ghost use Rattle.paris_model.specs.declared.operators.BinaryOperator.TheVariants.{UnsignedAddCarry};
ghost use Rattle.paris_model.specs.declared.operators.UnaryOperator.TheVariants.{Negate};
ghost use Rattle.paris_plane.specs.Bits.{zip3};
ghost use Rattle.paris_field.specs.Numbers.{bit_in};
ghost use Rattle.paris_alu.specs.Bits.{by_sign};
ghost use Rattle.paris_alu.specs.Alu.{binary_field, carry_plane, difference_operator, overflow_plane, sum_operator, unary_field, unary_overflow_plane};

use crate::kernel::{DifferenceOverflow, SumOverflow};
use crate::planes::{difference_planes, opposite_planes, sum_planes};
use paris_field::FieldValue;
use paris_layer::Layer;
use paris_model::Sign;
use paris_plane::{And, TripleOp};
use std::alloc::{AllocError, Global};

/// A sum or a difference, with a bit for each processor where it carries or borrows, and where it overflows.
#[derive(Debug, Drop)]
pub struct Sum {
    pub value: FieldValue,
    pub carry: Layer,
    pub overflow: Layer,
}

/// A result, with a bit for each processor where it overflows.
#[derive(Debug, Drop)]
pub struct Overflowing {
    pub value: FieldValue,
    pub overflow: Layer,
}

/// Where a sum or a difference overflows: of unsigned numbers where it carries or borrows, and of signed ones by the top
/// bits of the result and the operands.
fn overflow<O: TripleOp>(
    alloc: Global,
    sign: Sign,
    carry: &Layer,
    top: &Layer,
    x_top: &Layer,
    y_top: &Layer,
) -> Result<Layer, AllocError>
    requires x { length top.now ≡ length x_top.now }
    requires y { length top.now ≡ length y_top.now }
    ensures { IfOk result (λ plane. plane ≡ by_sign sign carry.now (zip3 O.bit top.now x_top.now y_top.now)) }
{
    match sign {
        Sign::Unsigned => carry.copy(),
        Sign::Signed => Layer::combined_triple::<O>(alloc, top, x_top, y_top),
    }
}

/// The sums of the low `bits` bits of two fields.
pub fn add(
    alloc: Global,
    sign: Sign,
    x: &FieldValue,
    y: &FieldValue,
    bits: u64,
) -> Result<Sum, AllocError>
    requires positive { 0 < bits }
    requires narrow { bits ≤ 128 }
    requires x_width { bits ≤ x.now.width }
    requires y_width { bits ≤ y.now.width }
    requires same { length x.now.numbers ≡ length y.now.numbers }
    ensures value { IfOk result (λ sum. sum.value ≡ binary_field (sum_operator sign) bits x.now y.now (λ _. 0)) }
    ensures carry { IfOk result (λ sum. sum.carry ≡ carry_plane (sum_operator sign) bits x.now y.now (λ _. 0)) }
    ensures overflow { IfOk result (λ sum. sum.overflow ≡ overflow_plane (sum_operator sign) bits x.now y.now (λ _. 0)) }
{
    let vps = x.len();
    let top = bits as usize - 1;
    let xs = x.low(bits);
    let ys = y.low(bits);
    let mut carry = Layer::filled(false, vps);
    let planes = sum_planes(alloc, xs, ys, &mut carry)?;
    let overflow = overflow::<SumOverflow>(alloc, sign, &carry, &planes[top], &xs[top], &ys[top])?;
    Ok(Sum {
        value: FieldValue::from_layers(planes, vps),
        carry,
        overflow,
    })
}

/// The sums of the low `bits` bits of two unsigned fields and a carried bit.
pub fn add_carry(
    alloc: Global,
    x: &FieldValue,
    y: &FieldValue,
    carry: &Layer,
    bits: u64,
) -> Result<Sum, AllocError>
    requires positive { 0 < bits }
    requires narrow { bits ≤ 128 }
    requires x_width { bits ≤ x.now.width }
    requires y_width { bits ≤ y.now.width }
    requires same { length x.now.numbers ≡ length y.now.numbers }
    requires carries { length carry.now ≡ length x.now.numbers }
    ensures value { IfOk result (λ sum. sum.value ≡ binary_field UnsignedAddCarry bits x.now y.now (bit_in carry.now)) }
    ensures carry { IfOk result (λ sum. sum.carry ≡ carry_plane UnsignedAddCarry bits x.now y.now (bit_in carry.now)) }
    ensures overflow { IfOk result (λ sum. sum.overflow ≡ overflow_plane UnsignedAddCarry bits x.now y.now (bit_in carry.now)) }
{
    let vps = x.len();
    let xs = x.low(bits);
    let ys = y.low(bits);
    let mut carry = carry.copy()?;
    let planes = sum_planes(alloc, xs, ys, &mut carry)?;
    let overflow = carry.copy()?;
    Ok(Sum {
        value: FieldValue::from_layers(planes, vps),
        carry,
        overflow,
    })
}

/// The differences of the low `bits` bits of two fields. Its carry is the borrow.
pub fn subtract(
    alloc: Global,
    sign: Sign,
    x: &FieldValue,
    y: &FieldValue,
    bits: u64,
) -> Result<Sum, AllocError>
    requires positive { 0 < bits }
    requires narrow { bits ≤ 128 }
    requires x_width { bits ≤ x.now.width }
    requires y_width { bits ≤ y.now.width }
    requires same { length x.now.numbers ≡ length y.now.numbers }
    ensures value { IfOk result (λ sum. sum.value ≡ binary_field (difference_operator sign) bits x.now y.now (λ _. 0)) }
    ensures carry { IfOk result (λ sum. sum.carry ≡ carry_plane (difference_operator sign) bits x.now y.now (λ _. 0)) }
    ensures overflow { IfOk result (λ sum. sum.overflow ≡ overflow_plane (difference_operator sign) bits x.now y.now (λ _. 0)) }
{
    let vps = x.len();
    let top = bits as usize - 1;
    let xs = x.low(bits);
    let ys = y.low(bits);
    let mut borrow = Layer::filled(false, vps);
    let planes = difference_planes(alloc, xs, ys, &mut borrow)?;
    let overflow = overflow::<DifferenceOverflow>(
        alloc,
        sign,
        &borrow,
        &planes[top],
        &xs[top],
        &ys[top],
    )?;
    Ok(Sum {
        value: FieldValue::from_layers(planes, vps),
        carry: borrow,
        overflow,
    })
}

/// The low `bits` bits of a signed field with the other sign.
pub fn negate(alloc: Global, x: &FieldValue, bits: u64) -> Result<Overflowing, AllocError>
    requires positive { 0 < bits }
    requires narrow { bits ≤ 128 }
    requires x_width { bits ≤ x.now.width }
    ensures value { IfOk result (λ negated. negated.value ≡ unary_field Negate bits x.now) }
    ensures overflow { IfOk result (λ negated. negated.overflow ≡ unary_overflow_plane Negate bits x.now) }
{
    let vps = x.len();
    let top = bits as usize - 1;
    let xs = x.low(bits);
    let mut borrow = Layer::filled(false, vps);
    let planes = opposite_planes(alloc, xs, &mut borrow)?;
    let overflow = Layer::combined::<And>(alloc, &planes[top], &xs[top])?;
    Ok(Overflowing {
        value: FieldValue::from_layers(planes, vps),
        overflow,
    })
}
