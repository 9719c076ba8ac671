//! Products.

ghost use Rattle.std.specs.Prelude.{◌≡◌, ◌<◌, ◌≤◌, IfOk, length};
ghost use Rattle.paris_model.specs.declared.operators.BinaryOperator.TheVariants.{SignedMultiply, UnsignedMultiply};
ghost use Rattle.paris_alu.specs.Alu.{binary_field, overflow_plane};
ghost use Rattle.paris_muldiv.specs.Products.{product_operator};

use crate::blocks::computed;
use crate::numbers::{SignedProduct, UnsignedProduct};
use crate::planes::product_on_planes;
use crate::signed_planes::signed_product_on_planes;
use paris_alu::Overflowing;
use paris_field::FieldValue;
use paris_model::Sign;
use std::alloc::{AllocError, Global};

/// The most bits at which products are made plane by plane. With more of them a turn to numbers is faster.
///
/// For 65,536 processors, on planes and by numbers, unsigned ones took 0.27 and 0.39 ms at 16 bits, 0.41 and 0.42 ms at 20, and 0.59
/// and 0.44 ms at 24; signed ones 0.36 and 0.58 ms at 16 bits, 0.56 and 0.60 ms at 20, and 0.74 and 0.63 ms at 24.
const PLANE_BITS: u64 = 20;

/// The low `bits` bits of the products of unsigned numbers, and where the whole product needs more.
fn unsigned_products(
    alloc: Global,
    x: &FieldValue,
    y: &FieldValue,
    bits: u64,
) -> Result<Overflowing, AllocError>
    requires positive { 0 < bits }
    requires narrow { bits ≤ 128 }
    requires x_width { bits ≤ x.now.width }
    requires y_width { bits ≤ y.now.width }
    requires same { length x.now.numbers ≡ length y.now.numbers }
    ensures value { IfOk result (λ product. product.value ≡ binary_field UnsignedMultiply bits x.now y.now (λ _. 0)) }
    ensures overflow { IfOk result (λ product. product.overflow ≡ overflow_plane UnsignedMultiply bits x.now y.now (λ _. 0)) }
{
    if bits <= PLANE_BITS {
        product_on_planes(alloc, x, y, bits)
    } else {
        computed::<UnsignedProduct>(alloc, x, y, bits)
    }
}

/// The low `bits` bits of the products of numbers in two's complement, and where they can't hold the whole product.
fn signed_products(
    alloc: Global,
    x: &FieldValue,
    y: &FieldValue,
    bits: u64,
) -> Result<Overflowing, AllocError>
    requires positive { 0 < bits }
    requires narrow { bits ≤ 128 }
    requires x_width { bits ≤ x.now.width }
    requires y_width { bits ≤ y.now.width }
    requires same { length x.now.numbers ≡ length y.now.numbers }
    ensures value { IfOk result (λ product. product.value ≡ binary_field SignedMultiply bits x.now y.now (λ _. 0)) }
    ensures overflow { IfOk result (λ product. product.overflow ≡ overflow_plane SignedMultiply bits x.now y.now (λ _. 0)) }
{
    if bits <= PLANE_BITS {
        signed_product_on_planes(alloc, x, y, bits)
    } else {
        computed::<SignedProduct>(alloc, x, y, bits)
    }
}

/// The low bits of the products of the low `bits` bits, and where the whole product needs more.
pub fn multiply(
    alloc: Global,
    sign: Sign,
    x: &FieldValue,
    y: &FieldValue,
    bits: u64,
) -> Result<Overflowing, AllocError>
    requires positive { 0 < bits }
    requires narrow { bits ≤ 128 }
    requires x_width { bits ≤ x.now.width }
    requires y_width { bits ≤ y.now.width }
    requires same { length x.now.numbers ≡ length y.now.numbers }
    ensures value { IfOk result (λ product. product.value ≡ binary_field (product_operator sign) bits x.now y.now (λ _. 0)) }
    ensures overflow { IfOk result (λ product. product.overflow ≡ overflow_plane (product_operator sign) bits x.now y.now (λ _. 0)) }
{
    match sign {
        Sign::Unsigned => unsigned_products(alloc, x, y, bits),
        Sign::Signed => signed_products(alloc, x, y, bits),
    }
}
