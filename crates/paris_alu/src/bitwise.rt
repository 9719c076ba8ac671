//! Operations on each bit by itself.

ghost use Rattle.std.specs.Prelude.{◌≡◌, ◌≤◌, IfOk, length, ℕ};
ghost use Rattle.std.specs.Simd.Lanes.{zip2};
ghost use Rattle.paris_model.specs.declared.operators.UnaryOperator.TheVariants.{BitNot, Move};
ghost use Rattle.paris_field.specs.Numbers.{AllOf, value_of_planes};
ghost use Rattle.paris_alu.specs.Alu.{binary_field, bitwise_operator, unary_field};

use crate::planes::{combined_planes, inverted_planes};
use paris_field::{FieldValue, copy_layers};
use paris_layer::Layer;
use paris_plane::{And, Or, WordOp, Xor};
use std::alloc::{AllocError, Global};

/// An operation on two bits.
#[derive(Clone, Copy, PartialEq, Eq, Debug)]
pub enum BitOperator {
    And,
    Or,
    Xor,
}

/// What an operation makes of each two bits of planes, for `vps` processors.
fn combined<O: WordOp>(
    alloc: Global,
    x: &[Layer],
    y: &[Layer],
    vps: usize,
) -> Result<FieldValue, AllocError>
    requires narrow { length x.now ≤ 128 }
    requires same { length x.now ≡ length y.now }
    requires x_planes { AllOf vps x.now }
    requires y_planes { AllOf vps y.now }
    ensures { IfOk result (λ value. value ≡ value_of_planes vps (zip2 (zip2 O.bit) x.now y.now)) }
{
    let planes = combined_planes::<O>(alloc, x, y)?;
    Ok(FieldValue::from_layers(planes, vps))
}

/// What an operation makes of each two of the low `bits` bits of two fields.
pub fn logic(
    alloc: Global,
    operator: BitOperator,
    x: &FieldValue,
    y: &FieldValue,
    bits: u64,
) -> Result<FieldValue, AllocError>
    requires narrow { bits ≤ 128 }
    requires x_width { bits ≤ x.now.width }
    requires y_width { bits ≤ y.now.width }
    requires same { length x.now.numbers ≡ length y.now.numbers }
    ensures { IfOk result (λ value. value ≡ binary_field (bitwise_operator operator) bits x.now y.now (λ _. 0)) }
{
    let vps = x.len();
    let xs = x.low(bits);
    let ys = y.low(bits);
    match operator {
        BitOperator::And => combined::<And>(alloc, xs, ys, vps),
        BitOperator::Or => combined::<Or>(alloc, xs, ys, vps),
        BitOperator::Xor => combined::<Xor>(alloc, xs, ys, vps),
    }
}

/// The low `bits` bits of a field, each turned.
pub fn invert(alloc: Global, x: &FieldValue, bits: u64) -> Result<FieldValue, AllocError>
    requires narrow { bits ≤ 128 }
    requires x_width { bits ≤ x.now.width }
    ensures { IfOk result (λ value. value ≡ unary_field BitNot bits x.now) }
{
    let planes = inverted_planes(alloc, x.low(bits))?;
    Ok(FieldValue::from_layers(planes, x.len()))
}

/// The low `bits` bits of a field.
pub fn copy_low(alloc: Global, x: &FieldValue, bits: u64) -> Result<FieldValue, AllocError>
    requires narrow { bits ≤ 128 }
    requires x_width { bits ≤ x.now.width }
    ensures { IfOk result (λ value. value ≡ unary_field Move bits x.now) }
{
    let planes = copy_layers(alloc, x.low(bits))?;
    Ok(FieldValue::from_layers(planes, x.len()))
}
