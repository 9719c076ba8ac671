//! Loops over the planes of numbers, the lowest first: plane k holds bit k of each processor's number.

ghost use Rattle.std.specs.Prelude.{◌≡◌, ◌==◌, ℕ, ◌+◌, ◌*◌, ◌^◌, ◌<◌, ◌≤◌, ◌-◌, IfOk, false, length, map, not, nat_lt, replicate, slice_index_or, ◌++◌};
ghost use Rattle.std.specs.Simd.Lanes.{zip2};
ghost use Rattle.paris_field.specs.Numbers.{AllOf, bit_in, number_at, plane_at, bits_everywhere};

use crate::kernel::Unlike;
use paris_field::copy_layers;
use paris_layer::Layer;
use paris_plane::{Borrow, Or, WordOp, Xor};
use std::alloc::{AllocError, Global};

/// The sums of the numbers of `x`, those of `y` and the carried bits. Leaves in `carry` what they carry.
pub(crate) fn sum_planes(
    alloc: Global,
    x: &[Layer],
    y: &[Layer],
    carry: &mut Layer,
) -> Result<Vec<Layer>, AllocError>
    requires same { length x.now ≡ length y.now }
    requires x_planes { AllOf (length carry.old) x.now }
    requires y_planes { AllOf (length carry.old) y.now }
    ensures long { length carry.new ≡ length carry.old }
    ensures count { IfOk result (λ planes. length planes.items ≡ length x.now) }
    ensures planes { IfOk result (λ planes. AllOf (length carry.old) planes.items) }
    ensures exact { IfOk result (λ planes. (v : ℕ) → v < length carry.old → number_at planes.items v + 2 ^ length x.now * bit_in carry.new v ≡ number_at x.now v + number_at y.now v + bit_in carry.old v) }
{
    let mut planes = Vec::with_capacity(alloc, x.len())?;
    for k in 0..x.len() {
        let plane = Layer::summed(alloc, &x[k], &y[k], carry)?;
        planes.push(plane)?;
    }
    Ok(planes)
}

/// The differences of the numbers of `x` and those of `y` with the borrowed bits. Leaves in `borrow` what they borrow.
pub(crate) fn difference_planes(
    alloc: Global,
    x: &[Layer],
    y: &[Layer],
    borrow: &mut Layer,
) -> Result<Vec<Layer>, AllocError>
    requires same { length x.now ≡ length y.now }
    requires x_planes { AllOf (length borrow.old) x.now }
    requires y_planes { AllOf (length borrow.old) y.now }
    ensures long { length borrow.new ≡ length borrow.old }
    ensures count { IfOk result (λ planes. length planes.items ≡ length x.now) }
    ensures planes { IfOk result (λ planes. AllOf (length borrow.old) planes.items) }
    ensures exact { IfOk result (λ planes. (v : ℕ) → v < length borrow.old → number_at x.now v + 2 ^ length x.now * bit_in borrow.new v ≡ number_at planes.items v + number_at y.now v + bit_in borrow.old v) }
{
    let mut planes = Vec::with_capacity(alloc, x.len())?;
    for k in 0..x.len() {
        let plane = Layer::difference(alloc, &x[k], &y[k], borrow)?;
        planes.push(plane)?;
    }
    Ok(planes)
}

/// What is to be added to the numbers of `x` and the borrowed bits for a power of two, or for 0. Leaves in `borrow` where
/// it is not 0.
pub(crate) fn opposite_planes(
    alloc: Global,
    x: &[Layer],
    borrow: &mut Layer,
) -> Result<Vec<Layer>, AllocError>
    requires { AllOf (length borrow.old) x.now }
    ensures long { length borrow.new ≡ length borrow.old }
    ensures count { IfOk result (λ planes. length planes.items ≡ length x.now) }
    ensures planes { IfOk result (λ planes. AllOf (length borrow.old) planes.items) }
    ensures exact { IfOk result (λ planes. (v : ℕ) → v < length borrow.old → 2 ^ length x.now * bit_in borrow.new v ≡ number_at planes.items v + number_at x.now v + bit_in borrow.old v) }
{
    let mut planes = Vec::with_capacity(alloc, x.len())?;
    for k in 0..x.len() {
        let plane = Layer::combined::<Xor>(alloc, &x[k], borrow)?;
        borrow.put::<Or>(alloc, &x[k])?;
        planes.push(plane)?;
    }
    Ok(planes)
}

/// What the operation makes of each two planes.
pub(crate) fn combined_planes<O: WordOp>(
    alloc: Global,
    x: &[Layer],
    y: &[Layer],
) -> Result<Vec<Layer>, AllocError>
    requires same { length x.now ≡ length y.now }
    requires long { (k : ℕ) → k < length x.now → length (plane_at x.now k) ≡ length (plane_at y.now k) }
    ensures { IfOk result (λ planes. planes.items ≡ zip2 (zip2 O.bit) x.now y.now) }
{
    let mut planes = Vec::with_capacity(alloc, x.len())?;
    for k in 0..x.len() {
        let plane = Layer::combined::<O>(alloc, &x[k], &y[k])?;
        planes.push(plane)?;
    }
    Ok(planes)
}

/// Each plane with every bit turned.
pub(crate) fn inverted_planes(alloc: Global, x: &[Layer]) -> Result<Vec<Layer>, AllocError>
    ensures { IfOk result (λ planes. planes.items ≡ map (map not) x.now) }
{
    let mut planes = Vec::with_capacity(alloc, x.len())?;
    for plane in x {
        let inverted = Layer::inverted(alloc, plane)?;
        planes.push(inverted)?;
    }
    Ok(planes)
}

/// Where the numbers of `x` are below those of `y`, for `vps` processors.
pub(crate) fn below(
    alloc: Global,
    x: &[Layer],
    y: &[Layer],
    vps: usize,
) -> Result<Layer, AllocError>
    requires same { length x.now ≡ length y.now }
    requires x_planes { AllOf vps x.now }
    requires y_planes { AllOf vps y.now }
    ensures { IfOk result (λ plane. plane ≡ bits_everywhere vps (λ v. nat_lt (number_at x.now v) (number_at y.now v))) }
{
    let mut below = Layer::filled(false, vps);
    for k in 0..x.len() {
        below.put_triple::<Borrow>(alloc, &x[k], &y[k])?;
    }
    Ok(below)
}

/// Where the numbers of `x` and `y` differ, for `vps` processors.
pub(crate) fn unlike(
    alloc: Global,
    x: &[Layer],
    y: &[Layer],
    vps: usize,
) -> Result<Layer, AllocError>
    requires same { length x.now ≡ length y.now }
    requires x_planes { AllOf vps x.now }
    requires y_planes { AllOf vps y.now }
    ensures { IfOk result (λ plane. plane ≡ bits_everywhere vps (λ v. not (number_at x.now v == number_at y.now v))) }
{
    let mut unlike = Layer::filled(false, vps);
    for k in 0..x.len() {
        unlike.put_triple::<Unlike>(alloc, &x[k], &y[k])?;
    }
    Ok(unlike)
}

/// Where the planes of `x` are not all `rest`.
pub(crate) fn unlike_rest(alloc: Global, x: &[Layer], rest: &Layer) -> Result<Layer, AllocError>
    requires { AllOf (length rest.now) x.now }
    ensures { IfOk result (λ plane. plane ≡ bits_everywhere (length rest.now) (λ v. not (number_at x.now v == number_at (replicate (length x.now) rest.now) v))) }
{
    let mut unlike = Layer::filled(false, rest.len());
    for plane in x {
        unlike.put_triple::<Unlike>(alloc, plane, rest)?;
    }
    Ok(unlike)
}

/// The planes of `x`, and `rest` above them up to `bits` planes in all.
pub(crate) fn extended_planes(
    alloc: Global,
    x: &[Layer],
    rest: &Layer,
    bits: usize,
) -> Result<Vec<Layer>, AllocError>
    requires { length x.now ≤ bits }
    ensures { IfOk result (λ planes. planes.items ≡ x.now ++ replicate (bits - length x.now) rest.now) }
{
    let mut planes = copy_layers(alloc, x)?;
    for _ in x.len()..bits {
        planes.push(rest.copy()?)?;
    }
    Ok(planes)
}
