//! Scans by doubling: after each step a processor holds what twice as many of the last places of its line show.

ghost use Rattle.std.specs.Prelude.{◌≡◌, ℕ, ◌+◌, ◌^◌, ◌<◌, ◌≤◌, All, List, false, length, slice_index_or};
ghost use Rattle.paris_geometry.specs.Geometry.{axis_length, processor_count, stride};
ghost use Rattle.paris_field.specs.Numbers.{AllOf, number_at};
ghost use Rattle.paris_scan.specs.Runs.{StartsLines, segment_run};

use crate::combine::Combine;
use crate::moves::move_plane;
use crate::partner::Partner;
use paris_geometry::{Direction, Geometry};
use paris_plane::Plane;

/// Puts into each processor what the list of its line up to it comes to, from where its segment begins. `begun` has a 1
/// where a segment or a line begins, and is written over, as `brought` and `spare` are.
pub(crate) fn double<C: Combine>(
    geometry: Geometry,
    axis: usize,
    direction: Direction,
    begun: &mut Plane,
    state: &mut [Plane],
    brought: &mut [Plane],
    spare: &mut Plane,
)
    requires axis { axis < length geometry }
    requires begun { length begun.old ≡ processor_count geometry }
    requires starts { StartsLines geometry axis direction (λ v. slice_index_or begun.old v false) }
    requires some { C.extra ≤ length state.old }
    requires same { length brought.old ≡ length state.old }
    requires state { AllOf (processor_count geometry) state.old }
    requires brought { AllOf (processor_count geometry) brought.old }
    requires spare { length spare.old ≡ processor_count geometry }
    ensures long { AllOf (processor_count geometry) state.new }
    ensures brought { AllOf (processor_count geometry) brought.new }
    ensures runs { (L : ℕ) (own : ℕ → List ℕ) → length state.old ≡ L + C.extra → ((u : ℕ) → All (λ x. x < 2 ^ L) (own u))
        → ((v : ℕ) → v < processor_count geometry → number_at state.old v ≡ C.shows L (own v))
        → (v : ℕ) → v < processor_count geometry → number_at state.new v ≡ C.shows L (segment_run (λ u. slice_index_or begun.old u false) own direction (stride geometry axis) (axis_length geometry axis) v) }
{
    let length = geometry.len(axis) as usize;
    let stride = geometry.stride(axis);
    let mut places: usize = 1;
    while places < length {
        let by = places * stride;
        let partner = Partner::Before {
            direction,
            by,
            begun,
        };
        C::join(&partner, state, brought, spare);
        move_plane(direction, by, begun, spare);
        begun.or_in(spare);
        places *= 2;
    }
}
