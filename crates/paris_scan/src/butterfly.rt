//! Values gathered over whole lines: after each turn a processor holds what twice as many neighbours of its line show. Lines that lie
//! whole words apart are gathered half by half.

ghost use Rattle.std.specs.Prelude.{◌≡◌, ℕ, ◌+◌, ◌^◌, ◌<◌, ◌≤◌, ◌∷◌, All, Bool, IfOk, List, [], length};
ghost use Rattle.paris_geometry.specs.Geometry.{axis_length, processor_count, stride};
ghost use Rattle.paris_model.specs.Lines.{line_values, values_where};
ghost use Rattle.paris_field.specs.Numbers.{AllOf, number_at};
ghost use Rattle.paris_scan.specs.Blocks.{block};

use crate::columns::{column_planes, is_column};
use crate::combine::Commute;
use crate::halves::JoinHalves;
use crate::partner::Partner;
use paris_field::zero_planes;
use paris_geometry::Geometry;
use paris_plane::Plane;
use std::alloc::{AllocError, Global};

/// Puts into each processor what the lists of all processors of its line come to, by rising coordinate. `brought` and `spare` are
/// written over.
fn gather<C: Commute>(
    geometry: Geometry,
    axis: usize,
    state: &mut [Plane],
    brought: &mut [Plane],
    spare: &mut Plane,
)
    requires axis { axis < length geometry }
    requires some { C.extra ≤ length state.old }
    requires same { length brought.old ≡ length state.old }
    requires state { AllOf (processor_count geometry) state.old }
    requires brought { AllOf (processor_count geometry) brought.old }
    requires spare { length spare.old ≡ processor_count geometry }
    ensures long { AllOf (processor_count geometry) state.new }
    ensures lines { (L : ℕ) (own : ℕ → List ℕ) → length state.old ≡ L + C.extra → ((u : ℕ) → All (λ x. x < 2 ^ L) (own u))
        → ((v : ℕ) → v < processor_count geometry → number_at state.old v ≡ C.shows L (own v))
        → (v : ℕ) → v < processor_count geometry → number_at state.new v ≡ C.shows L (block own (stride geometry axis) (axis_length geometry axis) v) }
{
    let length = geometry.len(axis) as usize;
    let stride = geometry.stride(axis);
    let mut places: usize = 1;
    while places < length {
        let partner = Partner::Across {
            distance: places * stride,
        };
        C::join(&partner, state, brought, spare);
        places *= 2;
    }
}

/// Does what `spread_planes` does, by turns over all processors.
fn turned_planes<C: Commute>(
    alloc: Global,
    geometry: Geometry,
    axis: usize,
    mut state: Vec<Plane>,
) -> Result<Vec<Plane>, AllocError>
    requires axis { axis < length geometry }
    requires some { C.extra ≤ length state.items }
    requires state { AllOf (processor_count geometry) state.items }
    ensures count { IfOk result (λ planes. length planes.items ≡ length state.items) }
    ensures long { IfOk result (λ planes. AllOf (processor_count geometry) planes.items) }
    ensures shows { IfOk result (λ planes. (L : ℕ) (selected : ℕ → Bool) (value : ℕ → ℕ) → length state.items ≡ L + C.extra → ((u : ℕ) → value u < 2 ^ L)
        → ((v : ℕ) → v < processor_count geometry → number_at state.items v ≡ C.shows L (values_where selected value (v ∷ [])))
        → (v : ℕ) → v < processor_count geometry → number_at planes.items v ≡ C.shows L (line_values geometry axis selected value v)) }
{
    let vps = geometry.vps();
    let mut brought = zero_planes(alloc, state.len(), vps)?;
    let mut spare = Plane::zeros(alloc, vps)?;
    gather::<C>(geometry, axis, &mut state, &mut brought, &mut spare);
    Ok(state)
}

/// What the values of each line come to, in each of its processors. In `state` each selected processor has its own value, and the
/// others have 0.
pub fn spread_planes<C: JoinHalves>(
    alloc: Global,
    geometry: Geometry,
    axis: usize,
    state: Vec<Plane>,
) -> Result<Vec<Plane>, AllocError>
    requires axis { axis < length geometry }
    requires some { C.extra ≤ length state.items }
    requires state { AllOf (processor_count geometry) state.items }
    ensures count { IfOk result (λ planes. length planes.items ≡ length state.items) }
    ensures long { IfOk result (λ planes. AllOf (processor_count geometry) planes.items) }
    ensures shows { IfOk result (λ planes. (L : ℕ) (selected : ℕ → Bool) (value : ℕ → ℕ) → length state.items ≡ L + C.extra → ((u : ℕ) → value u < 2 ^ L)
        → ((v : ℕ) → v < processor_count geometry → number_at state.items v ≡ C.shows L (values_where selected value (v ∷ [])))
        → (v : ℕ) → v < processor_count geometry → number_at planes.items v ≡ C.shows L (line_values geometry axis selected value v)) }
{
    if is_column(geometry, axis) {
        return column_planes::<C>(alloc, geometry, axis, state);
    }
    turned_planes::<C>(alloc, geometry, axis, state)
}
