//! Products on planes: plane k holds bit k of each processor's number.

ghost use Rattle.std.specs.Prelude.{◌≡◌, ℕ, ◌+◌, ◌*◌, ◌^◌, ◌<◌, ◌≤◌, IfOk, false, length, nat_lt, slice_index_or, take};
ghost use Rattle.paris_model.specs.declared.operators.BinaryOperator.TheVariants.{UnsignedMultiply};
ghost use Rattle.paris_field.specs.Numbers.{AllOf, bit_in, number_at};
ghost use Rattle.paris_alu.specs.Alu.{binary_field, overflow_plane};

use paris_alu::Overflowing;
use paris_field::{FieldValue, zero_planes};
use paris_layer::{Layer, Lent};
use paris_plane::{Plane, accumulate_step};
use std::alloc::{AllocError, Global};

/// Puts into `masked` the bits of a plane where the mask is 1, and zeros elsewhere.
fn put_masked(plane: &Plane, mask: &Plane, masked: &mut Plane)
    requires plane { length plane.now ≡ length mask.now }
    requires masked { length masked.old ≡ length mask.now }
    ensures long { length masked.new ≡ length mask.now }
    ensures bits { (v : ℕ) → v < length mask.now → bit_in masked.new v ≡ bit_in mask.now v * bit_in plane.now v }
{
    masked.raise_from(plane, 0);
    masked.and_in(mask);
}

/// Adds the numbers of `y` to those of `sum` where the mask is 1, and the carried bits. Leaves in `carry` what they carry.
fn add_where(y: &[Lent<'_>], mask: &Plane, sum: &mut [Plane], carry: &mut Plane, masked: &mut Plane)
    requires same { length sum.old ≡ length y.now }
    requires y { AllOf (length mask.now) y.now }
    requires sum { AllOf (length mask.now) sum.old }
    requires carry { length carry.old ≡ length mask.now }
    requires masked { length masked.old ≡ length mask.now }
    ensures sum { AllOf (length mask.now) sum.new }
    ensures carry { length carry.new ≡ length mask.now }
    ensures masked { length masked.new ≡ length mask.now }
    ensures exact { (v : ℕ) → v < length mask.now → number_at sum.new v + 2 ^ length y.now * bit_in carry.new v ≡ number_at sum.old v + bit_in mask.now v * number_at y.now v + bit_in carry.old v }
{
    for j in 0..y.len() {
        put_masked(y[j].plane(), mask, masked);
        accumulate_step(masked, &mut sum[j], carry);
    }
}

/// Adds the numbers of `y`, `k` bits higher, to the planes of a product that are made so far, where bit `k` of the other factor
/// is 1. One more plane is made then.
fn add_mixed_row(
    y: &[Lent<'_>],
    bit: &Plane,
    k: usize,
    product: &mut [Plane],
    carry: &mut Plane,
    masked: &mut Plane,
)
    requires room { k + length y.now < length product.old }
    requires y { AllOf (length bit.now) y.now }
    requires product { AllOf (length bit.now) product.old }
    requires carry { length carry.old ≡ length bit.now }
    requires masked { length masked.old ≡ length bit.now }
    ensures product { AllOf (length bit.now) product.new }
    ensures carry { length carry.new ≡ length bit.now }
    ensures masked { length masked.new ≡ length bit.now }
    ensures row { (v : ℕ) → v < length bit.now → number_at (take (k + length y.now + 1) product.new) v ≡ number_at (take (k + length y.now) product.old) v + 2 ^ k * (bit_in bit.now v * number_at y.now v) }
{
    carry.fill(false);
    add_where(y, bit, &mut product[k..k + y.len()], carry, masked);
    product[k + y.len()].raise_from(carry, 0);
}

/// The same. Where that bit is 0 throughout, nothing is added.
fn add_row(
    y: &[Lent<'_>],
    bit: &Plane,
    k: usize,
    product: &mut [Plane],
    carry: &mut Plane,
    masked: &mut Plane,
)
    requires room { k + length y.now < length product.old }
    requires y { AllOf (length bit.now) y.now }
    requires product { AllOf (length bit.now) product.old }
    requires carry { length carry.old ≡ length bit.now }
    requires masked { length masked.old ≡ length bit.now }
    ensures product { AllOf (length bit.now) product.new }
    ensures carry { length carry.new ≡ length bit.now }
    ensures masked { length masked.new ≡ length bit.now }
    ensures row { (v : ℕ) → v < length bit.now → number_at (take (k + length y.now + 1) product.new) v ≡ number_at (take (k + length y.now) product.old) v + 2 ^ k * (bit_in bit.now v * number_at y.now v) }
{
    if bit.is_all(false) {
        product[k + y.len()].fill(false);
        return;
    }
    add_mixed_row(y, bit, k, product, carry, masked);
}

/// Puts the products of the numbers of `x` and `y` into planes of zeros, as many as both have.
fn put_products(
    x: &[Lent<'_>],
    y: &[Lent<'_>],
    product: &mut [Plane],
    carry: &mut Plane,
    masked: &mut Plane,
)
    requires room { length x.now + length y.now ≡ length product.old }
    requires x { AllOf (length carry.old) x.now }
    requires y { AllOf (length carry.old) y.now }
    requires product { AllOf (length carry.old) product.old }
    requires zeros { (v : ℕ) → number_at product.old v ≡ 0 }
    requires masked { length masked.old ≡ length carry.old }
    ensures product { AllOf (length carry.old) product.new }
    ensures carry { length carry.new ≡ length carry.old }
    ensures exact { (v : ℕ) → v < length carry.old → number_at product.new v ≡ number_at x.now v * number_at y.now v }
{
    for k in 0..x.len() {
        add_row(y, x[k].plane(), k, product, carry, masked);
    }
}

/// Puts a 1 where any of the planes has one, and zeros elsewhere.
fn put_any(planes: &[Plane], any: &mut Plane)
    requires { AllOf (length any.old) planes.now }
    ensures long { length any.new ≡ length any.old }
    ensures bits { (v : ℕ) → v < length any.old → slice_index_or any.new v false ≡ nat_lt 0 (number_at planes.now v) }
{
    any.fill(false);
    for k in 0..planes.len() {
        any.or_in(&planes[k]);
    }
}

/// The words of each layer, for one use. Fails only for want of memory.
fn lent_layers(alloc: Global, layers: &[Layer]) -> Result<Vec<Lent<'_>>, AllocError>
    ensures { IfOk result (λ lent. lent.items ≡ layers.now) }
{
    let mut lent = Vec::with_capacity(alloc, layers.len())?;
    for layer in layers {
        lent.push(layer.lent(alloc)?)?;
    }
    Ok(lent)
}

/// The products of the numbers of `x` and `y` of `vps` processors, in as many planes as both have.
fn product_planes(
    alloc: Global,
    x: &[Layer],
    y: &[Layer],
    vps: usize,
) -> Result<Vec<Plane>, AllocError>
    requires narrow { length x.now + length y.now ≤ 256 }
    requires x { AllOf vps x.now }
    requires y { AllOf vps y.now }
    ensures count { IfOk result (λ planes. length planes.items ≡ length x.now + length y.now) }
    ensures long { IfOk result (λ planes. AllOf vps planes.items) }
    ensures exact { IfOk result (λ planes. (v : ℕ) → v < vps → number_at planes.items v ≡ number_at x.now v * number_at y.now v) }
{
    let mut planes = zero_planes(alloc, x.len() + y.len(), vps)?;
    let mut carry = Plane::zeros(alloc, vps)?;
    let mut masked = Plane::zeros(alloc, vps)?;
    let x_words = lent_layers(alloc, x)?;
    let y_words = lent_layers(alloc, y)?;
    put_products(&x_words, &y_words, &mut planes, &mut carry, &mut masked);
    Ok(planes)
}

/// The low `bits` bits of the products of the low `bits` bits of two unsigned fields, and where the whole product needs more.
pub(crate) fn product_on_planes(
    alloc: Global,
    x: &FieldValue,
    y: &FieldValue,
    bits: u64,
) -> Result<Overflowing, AllocError>
    requires positive { 0 < bits }
    requires narrow { bits ≤ 128 }
    requires x_width { bits ≤ x.now.width }
    requires y_width { bits ≤ y.now.width }
    requires same { length x.now.numbers ≡ length y.now.numbers }
    ensures value { IfOk result (λ product. product.value ≡ binary_field UnsignedMultiply bits x.now y.now (λ _. 0)) }
    ensures overflow { IfOk result (λ product. product.overflow ≡ overflow_plane UnsignedMultiply bits x.now y.now (λ _. 0)) }
{
    let vps = x.len();
    let mut planes = product_planes(alloc, x.low(bits), y.low(bits), vps)?;
    let mut overflow = Plane::zeros(alloc, vps)?;
    put_any(&planes[bits as usize..], &mut overflow);
    planes.truncate(bits as usize);
    let value = FieldValue::from_planes(planes, vps)?;
    Ok(Overflowing {
        value,
        overflow: Layer::from_plane(overflow),
    })
}
