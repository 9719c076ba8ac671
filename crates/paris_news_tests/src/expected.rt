//! Moves by a loop over the numbers of the processors.

ghost use Rattle.std.specs.Prelude.{◌<◌, ◌≤◌, length};

use crate::cases::Sample;
use crate::moves::{Move, Moved, Step};
use paris_geometry::Direction;
use std::alloc::AllocError;
use std::process::Abort;

/// The direction in which a processor finds the one whose number comes to it.
fn towards_sender(step: &Step) -> Direction {
    match (step.kind, step.direction) {
        (Move::Get, direction) => direction,
        (Move::Send, Direction::Upward) => Direction::Downward,
        (Move::Send, Direction::Downward) => Direction::Upward,
    }
}

/// Stops where what a move left isn't what its numbers say.
pub(crate) fn agrees(
    rt: &impl Abort,
    sample: &Sample,
    step: &Step,
    moved: &Moved,
) -> Result<(), AllocError>
    requires axis { step.now.axis < length sample.now.geometry }
    requires positive { 0 < step.now.bits }
    requires narrow { step.now.bits ≤ 128 }
{
    let towards = towards_sender(step);
    let low = u128::MAX >> (128 - step.bits);
    let left = moved.value.numbers()?;
    let count = sample.geometry.vps();
    assert!(rt;
        left.len() == count && moved.stores.len() == count,
        "{step:?}"
    );
    for v in 0..count {
        let sender = sample.geometry.neighbour(v as u32, step.axis, towards) as usize;
        let stores = match step.kind {
            Move::Get => sample.selected.get(v),
            Move::Send => sample.selected.get(sender),
        };
        let wanted = if stores {
            (sample.y[v] & !low) | (sample.x[sender] & low)
        } else {
            sample.y[v]
        };
        assert_eq!(rt; left[v], wanted, "{step:?} to {v} of {count}");
        assert_eq!(rt; moved.stores.get(v), stores, "{step:?} to {v} of {count}");
    }
    Ok(())
}
