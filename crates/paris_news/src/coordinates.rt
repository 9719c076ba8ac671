//! The processors of one coordinate.

ghost use Rattle.std.specs.Prelude.{◌≡◌, ◌==◌, ℕ, ◌%◌, ◌<◌, ◌≤◌, ◌&&◌, IfOk, nat_le, nat_lt, length};
ghost use Rattle.paris_geometry.specs.Geometry.{axis_length, coordinate, processor_count};
ghost use Rattle.paris_field.specs.Numbers.{bits_everywhere};
ghost use Rattle.paris_names.specs.declared.limits.TheConstants.{MAX_PROCESSORS};

use paris_geometry::Geometry;
use paris_layer::Layer;
use paris_plane::Plane;
use std::alloc::{AllocError, Global};

/// The bits whose place, counted from the last multiple of `period`, is at least `from` and below `until`.
fn periodic_plane(
    alloc: Global,
    len: usize,
    from: usize,
    until: usize,
    period: usize,
) -> Result<Plane, AllocError>
    requires few { len ≤ MAX_PROCESSORS }
    requires order { from ≤ until }
    requires within { until ≤ period }
    requires some { 0 < period }
    ensures { IfOk result (λ plane. plane ≡ bits_everywhere len (λ v. nat_le from (v % period) && nat_lt (v % period) until)) }
{
    let ones = Plane::ones(alloc, len)?;
    let mut plane = Plane::zeros(alloc, len)?;
    let mut moved = Plane::zeros(alloc, len)?;
    plane.raise_from(&ones, from);
    moved.raise_from(&ones, until);
    plane.xor_in(&moved);
    let mut step = period;
    while step < len {
        moved.raise_from(&plane, step);
        plane.or_in(&moved);
        step *= 2;
    }
    Ok(plane)
}

/// Where the coordinate on an axis is `place`.
pub fn coordinate_plane(
    alloc: Global,
    geometry: Geometry,
    axis: usize,
    place: u64,
) -> Result<Layer, AllocError>
    requires axis { axis < length geometry }
    requires place { place < axis_length geometry axis }
    ensures { IfOk result (λ plane. plane ≡ bits_everywhere (processor_count geometry) (λ v. coordinate geometry axis v == place)) }
{
    let vps = geometry.vps();
    let stride = geometry.stride(axis);
    let period = geometry.len(axis) as usize * stride;
    let from = place as usize * stride;
    let plane = periodic_plane(alloc, vps, from, from + stride, period)?;
    Ok(Layer::from_plane(plane))
}
