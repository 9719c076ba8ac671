//! Scans of planes along the lines of an axis.

ghost use Rattle.std.specs.Prelude.{◌≡◌, ℕ, ◌+◌, ◌^◌, ◌<◌, ◌≤◌, ◌∷◌, Bool, [], IfOk, length};
ghost use Rattle.paris_geometry.specs.Geometry.{axis_length, processor_count};
ghost use Rattle.paris_model.specs.Lines.{scan_values, values_where};
ghost use Rattle.paris_field.specs.Numbers.{AllOf, bits_everywhere, has, number_at};
ghost use Rattle.paris_scan.specs.Runs.{begins_run, first_coordinate};

use crate::combine::Combine;
use crate::doubling::double;
use crate::partner::{Partner, bring_planes};
use paris_field::zero_planes;
use paris_geometry::{Direction, Geometry};
use paris_layer::Layer;
use paris_model::Inclusion;
use paris_news::coordinate_plane;
use paris_plane::{Or, Plane};
use std::alloc::{AllocError, Global};

/// Which lines a scan goes along, and how.
#[derive(Drop)]
pub struct Along {
    pub geometry: Geometry,
    pub axis: usize,
    pub direction: Direction,
    pub inclusion: Inclusion,
}

/// The coordinate at which lines begin that are walked in the direction.
fn first_coordinate(geometry: Geometry, axis: usize, direction: Direction) -> u64
    requires { axis < length geometry }
    ensures value { result ≡ first_coordinate direction (axis_length geometry axis) }
    ensures small { result < axis_length geometry axis }
{
    match direction {
        Direction::Upward => 0,
        Direction::Downward => geometry.len(axis) - 1,
    }
}

/// Where a line begins, or a segment.
pub(crate) fn begin_plane(
    alloc: Global,
    along: &Along,
    segments: &Layer,
) -> Result<Plane, AllocError>
    requires axis { along.now.axis < length along.now.geometry }
    requires segments { length segments.now ≡ processor_count along.now.geometry }
    ensures { IfOk result (λ plane. plane ≡ bits_everywhere (processor_count along.now.geometry) (begins_run along.now.geometry along.now.axis along.now.direction (has segments.now))) }
{
    let place = first_coordinate(along.geometry, along.axis, along.direction);
    let mut begins = coordinate_plane(alloc, along.geometry, along.axis, place)?;
    begins.put::<Or>(alloc, segments)?;
    let plane = begins.into_plane(alloc)?;
    Ok(plane)
}

/// What the values that a scan combines come to in each processor. In `state` each selected processor has its own value, and the others
/// have 0.
pub fn scan_planes<C: Combine>(
    alloc: Global,
    along: &Along,
    mut state: Vec<Plane>,
    segments: &Layer,
) -> Result<Vec<Plane>, AllocError>
    requires axis { along.now.axis < length along.now.geometry }
    requires some { C.extra ≤ length state.items }
    requires state { AllOf (processor_count along.now.geometry) state.items }
    requires segments { length segments.now ≡ processor_count along.now.geometry }
    ensures count { IfOk result (λ planes. length planes.items ≡ length state.items) }
    ensures long { IfOk result (λ planes. AllOf (processor_count along.now.geometry) planes.items) }
    ensures shows { IfOk result (λ planes. (L : ℕ) (selected : ℕ → Bool) (value : ℕ → ℕ) → length state.items ≡ L + C.extra → ((u : ℕ) → value u < 2 ^ L)
        → ((v : ℕ) → v < processor_count along.now.geometry → number_at state.items v ≡ C.shows L (values_where selected value (v ∷ [])))
        → (v : ℕ) → v < processor_count along.now.geometry → number_at planes.items v ≡ C.shows L (scan_values along.now.geometry along.now.axis along.now.direction along.now.inclusion (has segments.now) selected value v)) }
{
    let vps = along.geometry.vps();
    let begins = begin_plane(alloc, along, segments)?;
    let mut begun = begins.copy()?;
    let mut brought = zero_planes(alloc, state.len(), vps)?;
    let mut spare = Plane::zeros(alloc, vps)?;
    double::<C>(
        along.geometry,
        along.axis,
        along.direction,
        &mut begun,
        &mut state,
        &mut brought,
        &mut spare,
    );
    match along.inclusion {
        Inclusion::Inclusive => Ok(state),
        Inclusion::Exclusive => {
            let partner = Partner::Before {
                direction: along.direction,
                by: along.geometry.stride(along.axis),
                begun: &begins,
            };
            bring_planes(&partner, &state, &mut brought);
            Ok(brought)
        }
    }
}
