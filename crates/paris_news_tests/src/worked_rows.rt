//! Worked rows of numbers, for sets of one and of four processors.

use crate::cases::sample_with;
use crate::moves::{Move, Step, run_step};
use paris_geometry::Direction;
use std::test::Fail;

/// The lengths of axes, a move of fields of 8 bits along an axis, which processors are selected, their numbers, and what is to stand at
/// the destination where zeros stood.
type Row = (
    &'static [u64],
    Move,
    usize,
    &'static [bool],
    &'static [u128],
    &'static [u128],
);

const ALL: &[bool] = &[true, true, true, true];

const SOME: &[bool] = &[true, false, true, true];

const ROWS: &[Row] = &[
    (&[4], Move::Get, 0, ALL, &[1, 2, 3, 4], &[2, 3, 4, 1]),
    (&[1], Move::Get, 0, &[true], &[7], &[7]),
    (&[2, 2], Move::Get, 1, ALL, &[1, 2, 3, 4], &[3, 4, 1, 2]),
    (&[4], Move::Send, 0, SOME, &[1, 2, 3, 4], &[4, 1, 0, 3]),
    (&[4], Move::Get, 0, SOME, &[9, 9, 9, 9], &[9, 0, 9, 9]),
    (&[4], Move::Send, 0, SOME, &[9, 9, 9, 9], &[9, 9, 0, 9]),
];

#[test]
fn rows_leave_these_numbers(rt: HostRuntime) -> Result<(), Fail> {
    let alloc = rt.alloc();
    for (lengths, kind, axis, selected, numbers, left) in ROWS {
        let x = Vec::from_slice(alloc, *numbers)?;
        let y = Vec::from_elem(alloc, 0u128, x.len())?;
        let sample = sample_with(&rt, alloc, *lengths, 8, x, y, *selected)?;
        assert!(rt; *axis < sample.geometry.axes() && sample.width == 8);
        let step = Step {
            kind: *kind,
            axis: *axis,
            direction: Direction::Upward,
            bits: 8,
        };
        let moved = run_step(&rt, alloc, &sample, &step)?;
        let numbers = moved.value.numbers()?;
        assert_eq!(rt; numbers.as_slice(), *left, "{step:?}");
    }
    Ok(())
}
