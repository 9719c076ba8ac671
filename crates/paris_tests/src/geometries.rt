//! Tests of geometries: coordinates, neighbours and addresses.

use crate::common::geometry;
use paris_geometry::{Direction, Geometry};
use paris_names::Fault;
use std::process::Abort;

/// The lengths of some axes, as a table has them, how many axes there are, and how many processors.
type Shape = (&'static [u64], usize, usize);

/// Whether a geometry has axes of just these lengths.
fn has_lengths(geometry: Geometry, lengths: &[u64]) -> bool {
    for (axis, length) in lengths.iter().enumerate() {
        if axis >= geometry.axes() || geometry.len(axis) != *length {
            return false;
        }
    }
    geometry.lengths() == lengths
}

/// Whether lengths make a geometry, which gives them back.
fn is_shape(shape: &Shape) -> bool {
    let (lengths, axes, vps) = *shape;
    match Geometry::new(lengths) {
        Ok(geometry) => {
            geometry.axes() == axes && geometry.vps() == vps && has_lengths(geometry, lengths)
        }
        Err(_) => false,
    }
}

#[test]
fn a_geometry_gives_its_lengths_back(rt: HostRuntime) {
    const SHAPES: &[Shape] = &[(&[4], 1, 4), (&[2, 2], 2, 4), (&[8, 4, 2], 3, 64)];
    for shape in SHAPES {
        assert!(rt; is_shape(shape));
    }
    assert!(rt; geometry(&rt, &[2, 2]) != geometry(&rt, &[4]));
}

/// The coordinates of a processor of a set of 2 by 2.
fn coordinates(rt: &impl Abort, processor: u32) -> (u32, u32) {
    let square = geometry(rt, &[2, 2]);
    assert!(rt; square.axes() == 2);
    (
        square.coordinate(processor, 0),
        square.coordinate(processor, 1),
    )
}

#[test]
fn coordinates_count_along_axis_0_fastest(rt: HostRuntime) {
    const CASES: &[(u32, u32, u32)] = &[(0, 0, 0), (1, 1, 0), (2, 0, 1), (3, 1, 1)];
    for (processor, first, second) in CASES {
        assert!(rt;
            coordinates(&rt, *processor) == (*first, *second),
            "of {processor}"
        );
    }
}

/// The neighbours of a processor of a line of 4, upward and downward.
fn neighbours(rt: &impl Abort, processor: u32) -> (u32, u32) {
    let line = geometry(rt, &[4]);
    assert!(rt; line.axes() == 1 && line.vps() == 4);
    assert!(rt; processor < 4);
    (
        line.neighbour(processor, 0, Direction::Upward),
        line.neighbour(processor, 0, Direction::Downward),
    )
}

#[test]
fn axes_wrap_round(rt: HostRuntime) {
    const CASES: &[(u32, u32, u32)] = &[(0, 1, 3), (1, 2, 0), (2, 3, 1), (3, 0, 2)];
    for (processor, up, down) in CASES {
        assert!(rt;
            neighbours(&rt, *processor) == (*up, *down),
            "of {processor}"
        );
    }
}

#[test]
fn the_directions_differ(rt: HostRuntime) {
    assert!(rt; Direction::Upward != Direction::Downward);
    assert!(rt; Direction::Upward == Direction::Upward);
}

#[test]
fn the_limits_are_met(rt: HostRuntime) {
    const SHAPES: &[Shape] = &[
        (&[65_536], 1, 65_536),
        (&[1], 1, 1),
        (&[1, 1, 1, 1], 4, 1),
        (&[16, 16, 16, 16], 4, 65_536),
    ];
    for shape in SHAPES {
        assert!(rt; is_shape(shape));
    }
}

#[test]
fn other_lengths_are_refused(rt: HostRuntime) {
    let refused: [&[u64]; 9] = [
        &[],
        &[1, 1, 1, 1, 1],
        &[3],
        &[0],
        &[4, 0],
        &[65_536, 2],
        &[65_536, 65_536, 65_536, 65_536],
        &[131_072],
        &[9_223_372_036_854_775_808, 2],
    ];
    for lengths in refused {
        assert!(rt;
            Geometry::new(lengths) == Err(Fault::BadAxes),
            "{lengths:?}"
        );
    }
}
