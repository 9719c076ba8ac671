//! What processors bring to a line: their numbers where they are selected, and 0 elsewhere.

ghost use Rattle.std.specs.Prelude.{◌≡◌, ℕ, ◌+◌, ◌<◌, IfOk, cond, false, length, map, not, slice_index_or};
ghost use Rattle.std.specs.Simd.Lanes.{zip2};
ghost use Rattle.paris_field.specs.Numbers.{AllOf, number_at, plane_at};
ghost use Rattle.paris_scan.specs.Shown.{complement};

use paris_layer::Layer;
use paris_plane::{And, Plane, Without, WordOp};
use std::alloc::{AllocError, Global};

/// What the operation makes of each bit of the mask and that of a plane, with room for one plane more.
fn masked_planes<O: WordOp>(
    alloc: Global,
    mask: &Layer,
    x: &[Layer],
) -> Result<Vec<Plane>, AllocError>
    requires { AllOf (length mask.now) x.now }
    ensures count { IfOk result (λ planes. length planes.items ≡ length x.now) }
    ensures at { IfOk result (λ planes. (k : ℕ) → k < length x.now → plane_at planes.items k ≡ zip2 O.bit mask.now (plane_at x.now k)) }
{
    let mut planes = Vec::with_capacity(alloc, x.len() + 1)?;
    for k in 0..x.len() {
        let layer = Layer::combined::<O>(alloc, mask, &x[k])?;
        planes.push(layer.into_plane(alloc)?)?;
    }
    Ok(planes)
}

/// The numbers of the selected processors, and 0 in the others, with room for one plane more.
pub fn selected_planes(
    alloc: Global,
    selected: &Layer,
    x: &[Layer],
) -> Result<Vec<Plane>, AllocError>
    requires { AllOf (length selected.now) x.now }
    ensures count { IfOk result (λ planes. length planes.items ≡ length x.now) }
    ensures long { IfOk result (λ planes. AllOf (length selected.now) planes.items) }
    ensures at { IfOk result (λ planes. (v : ℕ) → v < length selected.now → number_at planes.items v ≡ cond (slice_index_or selected.now v false) (number_at x.now v) 0) }
{
    let planes = masked_planes::<And>(alloc, selected, x)?;
    Ok(planes)
}

/// The numbers of the selected processors, and 0 in the others, with a plane of zeros on top.
pub(crate) fn summed_planes(
    alloc: Global,
    selected: &Layer,
    x: &[Layer],
) -> Result<Vec<Plane>, AllocError>
    requires { AllOf (length selected.now) x.now }
    ensures count { IfOk result (λ planes. length planes.items ≡ length x.now + 1) }
    ensures long { IfOk result (λ planes. AllOf (length selected.now) planes.items) }
    ensures at { IfOk result (λ planes. (v : ℕ) → v < length selected.now → number_at planes.items v ≡ cond (slice_index_or selected.now v false) (number_at x.now v) 0) }
{
    let mut planes = selected_planes(alloc, selected, x)?;
    planes.push(Plane::zeros(alloc, selected.len())?)?;
    Ok(planes)
}

/// The numbers of the selected processors with every bit turned, and 0 in the others.
pub fn complement_planes(
    alloc: Global,
    selected: &Layer,
    x: &[Layer],
) -> Result<Vec<Plane>, AllocError>
    requires { AllOf (length selected.now) x.now }
    ensures count { IfOk result (λ planes. length planes.items ≡ length x.now) }
    ensures long { IfOk result (λ planes. AllOf (length selected.now) planes.items) }
    ensures at { IfOk result (λ planes. (v : ℕ) → v < length selected.now → number_at planes.items v ≡ cond (slice_index_or selected.now v false) (complement (length x.now) (number_at x.now v)) 0) }
{
    let planes = masked_planes::<Without>(alloc, selected, x)?;
    Ok(planes)
}

/// Turns every bit.
pub fn invert_planes(planes: &mut [Plane])
    ensures at { (k : ℕ) → k < length planes.old → plane_at planes.new k ≡ map not (plane_at planes.old k) }
{
    for k in 0..planes.len() {
        planes[k].not_in();
    }
}
