//! Lines of processors along an axis.

ghost use Rattle.std.specs.Prelude.{◌≡◌, ◌<◌, ◌≤◌, length, IfOk};
ghost use Rattle.paris_geometry.specs.Geometry.{line, line_until, opposite, processor_count};

use paris_geometry::{Direction, Geometry};
use std::alloc::{AllocError, Global};

/// The other direction.
pub(crate) fn opposite(direction: Direction) -> Direction
    ensures { result ≡ opposite direction }
{
    match direction {
        Direction::Upward => Direction::Downward,
        Direction::Downward => Direction::Upward,
    }
}

/// The line of a processor along an axis, by rising coordinate.
pub(crate) fn line(
    alloc: Global,
    geometry: Geometry,
    axis: usize,
    v: u32,
) -> Result<Vec<u32>, AllocError>
    requires axis { axis < length geometry }
    requires processor { v < processor_count geometry }
    ensures { IfOk result (λ path. path.items ≡ line geometry axis v) }
{
    (0..geometry.len(axis))
        .map(|at| geometry.at_coordinate(v, axis, at))
        .collect(alloc)
}

/// The line of a processor in a direction, from its first processor to this one.
pub(crate) fn line_until(
    alloc: Global,
    geometry: Geometry,
    axis: usize,
    direction: Direction,
    v: u32,
) -> Result<Vec<u32>, AllocError>
    requires axis { axis < length geometry }
    requires processor { v < processor_count geometry }
    ensures { IfOk result (λ path. path.items ≡ line_until geometry axis direction v) }
{
    let mut path = line(alloc, geometry, axis, v)?;
    let own = geometry.coordinate(v, axis) as usize;
    match direction {
        Direction::Upward => path.truncate(own + 1),
        Direction::Downward => {
            path.reverse();
            path.truncate(geometry.len(axis) as usize - own);
        }
    }
    Ok(path)
}
