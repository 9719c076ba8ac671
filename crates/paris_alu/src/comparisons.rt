//! Comparisons, and the greater and the lesser of two numbers.

ghost use Rattle.std.specs.Prelude.{◌≡◌, ◌≤◌, ◌<◌, IfOk, false, length, map, not, slice_index_or, if◌then◌else◌};
ghost use Rattle.paris_model.specs.declared.operators.BinaryOperator.TheVariants.{Maximum, Minimum};
ghost use Rattle.paris_model.specs.Elementwise.{is_less};
ghost use Rattle.paris_model.specs.Store.{everywhere};
ghost use Rattle.paris_field.specs.Numbers.{AllOf, number_at, bits_everywhere};
ghost use Rattle.paris_alu.specs.Alu.{binary_field, comparison_plane, extreme_operator};

use crate::planes::{below, unlike};
use paris_field::{FieldValue, chosen_layers};
use paris_layer::Layer;
use paris_model::{Comparison, Sign};
use paris_plane::Borrow;
use std::alloc::{AllocError, Global};

/// Which of two numbers is taken.
#[derive(Clone, Copy, PartialEq, Eq, Debug)]
pub enum Extremum {
    Maximum,
    Minimum,
}

/// Where the numbers of `x` are less than those of `y`, for `vps` processors.
///
/// Of signed numbers the top bits count the other way: the one that has it is the lesser.
fn less(
    alloc: Global,
    sign: Sign,
    x: &[Layer],
    y: &[Layer],
    vps: usize,
) -> Result<Layer, AllocError>
    requires positive { 0 < length x.now }
    requires same { length x.now ≡ length y.now }
    requires x_planes { AllOf vps x.now }
    requires y_planes { AllOf vps y.now }
    ensures { IfOk result (λ plane. plane ≡ bits_everywhere vps (λ v. is_less sign (length x.now) (number_at x.now v) (number_at y.now v))) }
{
    let top = x.len() - 1;
    let mut less = below(alloc, &x[..top], &y[..top], vps)?;
    match sign {
        Sign::Unsigned => less.put_triple::<Borrow>(alloc, &x[top], &y[top])?,
        Sign::Signed => less.put_triple::<Borrow>(alloc, &y[top], &x[top])?,
    }
    Ok(less)
}

/// The plane with every bit turned.
fn inverted(plane: Layer) -> Layer
    ensures { result ≡ map not plane }
{
    let mut inverted = plane;
    inverted.not_in();
    inverted
}

/// Where the low `bits` bits of two fields compare so.
pub fn compare(
    alloc: Global,
    comparison: Comparison,
    x: &FieldValue,
    y: &FieldValue,
    bits: u64,
) -> Result<Layer, AllocError>
    requires positive { 0 < bits }
    requires x_width { bits ≤ x.now.width }
    requires y_width { bits ≤ y.now.width }
    requires same { length x.now.numbers ≡ length y.now.numbers }
    ensures { IfOk result (λ plane. plane ≡ comparison_plane comparison bits x.now y.now) }
{
    let vps = x.len();
    let xs = x.low(bits);
    let ys = y.low(bits);
    match comparison {
        Comparison::Equal => Ok(inverted(unlike(alloc, xs, ys, vps)?)),
        Comparison::NotEqual => unlike(alloc, xs, ys, vps),
        Comparison::Less(sign) => less(alloc, sign, xs, ys, vps),
        Comparison::LessOrEqual(sign) => Ok(inverted(less(alloc, sign, ys, xs, vps)?)),
        Comparison::Greater(sign) => less(alloc, sign, ys, xs, vps),
        Comparison::GreaterOrEqual(sign) => Ok(inverted(less(alloc, sign, xs, ys, vps)?)),
    }
}

/// The numbers of `y` where the mask is 1, and those of `x` elsewhere.
fn selected(alloc: Global, mask: &Layer, x: &[Layer], y: &[Layer]) -> Result<FieldValue, AllocError>
    requires narrow { length x.now ≤ 128 }
    requires same { length x.now ≡ length y.now }
    requires x_planes { AllOf (length mask.now) x.now }
    requires y_planes { AllOf (length mask.now) y.now }
    ensures { IfOk result (λ value. value ≡ record { width = length x.now; numbers = everywhere (length mask.now) (λ v. if slice_index_or mask.now v false then number_at y.now v else number_at x.now v) }) }
{
    let planes = chosen_layers(alloc, mask, y, x)?;
    Ok(FieldValue::from_layers(planes, mask.len()))
}

/// The greater of the low `bits` bits of two fields.
fn maximum(
    alloc: Global,
    sign: Sign,
    x: &FieldValue,
    y: &FieldValue,
    bits: u64,
) -> Result<FieldValue, AllocError>
    requires positive { 0 < bits }
    requires narrow { bits ≤ 128 }
    requires x_width { bits ≤ x.now.width }
    requires y_width { bits ≤ y.now.width }
    requires same { length x.now.numbers ≡ length y.now.numbers }
    ensures { IfOk result (λ value. value ≡ binary_field (Maximum sign) bits x.now y.now (λ _. 0)) }
{
    let xs = x.low(bits);
    let ys = y.low(bits);
    let mask = less(alloc, sign, xs, ys, x.len())?;
    selected(alloc, &mask, xs, ys)
}

/// The lesser of the low `bits` bits of two fields.
fn minimum(
    alloc: Global,
    sign: Sign,
    x: &FieldValue,
    y: &FieldValue,
    bits: u64,
) -> Result<FieldValue, AllocError>
    requires positive { 0 < bits }
    requires narrow { bits ≤ 128 }
    requires x_width { bits ≤ x.now.width }
    requires y_width { bits ≤ y.now.width }
    requires same { length x.now.numbers ≡ length y.now.numbers }
    ensures { IfOk result (λ value. value ≡ binary_field (Minimum sign) bits x.now y.now (λ _. 0)) }
{
    let xs = x.low(bits);
    let ys = y.low(bits);
    let mask = less(alloc, sign, ys, xs, x.len())?;
    selected(alloc, &mask, xs, ys)
}

/// The greater or the lesser of the low `bits` bits of two fields.
pub fn extreme(
    alloc: Global,
    which: Extremum,
    sign: Sign,
    x: &FieldValue,
    y: &FieldValue,
    bits: u64,
) -> Result<FieldValue, AllocError>
    requires positive { 0 < bits }
    requires narrow { bits ≤ 128 }
    requires x_width { bits ≤ x.now.width }
    requires y_width { bits ≤ y.now.width }
    requires same { length x.now.numbers ≡ length y.now.numbers }
    ensures { IfOk result (λ value. value ≡ binary_field (extreme_operator which sign) bits x.now y.now (λ _. 0)) }
{
    match which {
        Extremum::Maximum => maximum(alloc, sign, x, y, bits),
        Extremum::Minimum => minimum(alloc, sign, x, y, bits),
    }
}
