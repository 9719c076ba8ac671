//! Moves of fields to and from neighbours.

ghost use Rattle.std.specs.Prelude.{◌<◌, ◌≤◌, length};

use crate::cases::Sample;
use paris_field::FieldValue;
use paris_geometry::Direction;
use paris_layer::Layer;
use paris_news::{send, shift};
use std::alloc::{AllocError, Global};
use std::process::Abort;

/// Whether processors get from their neighbours or send to them.
#[derive(Clone, Copy, Debug)]
pub(crate) enum Move {
    Get,
    Send,
}

/// A move of the low `bits` bits along an axis.
#[derive(Clone, Copy, Debug)]
pub(crate) struct Step {
    pub(crate) kind: Move,
    pub(crate) axis: usize,
    pub(crate) direction: Direction,
    pub(crate) bits: u64,
}

/// What stands at the destination after a move, and which processors have stored there.
#[derive(Drop)]
pub(crate) struct Moved {
    pub(crate) value: FieldValue,
    pub(crate) stores: Layer,
}

/// What a move leaves of a sample.
pub(crate) fn run_step(
    rt: &impl Abort,
    alloc: Global,
    sample: &Sample,
    step: &Step,
) -> Result<Moved, AllocError>
    requires axis { step.now.axis < length sample.now.geometry }
    requires bits { step.now.bits ≤ sample.now.width }
{
    let Step {
        kind,
        axis,
        direction,
        bits,
    } = *step;
    let geometry = sample.geometry;
    let source = &sample.source;
    let mut value = sample.old.copy()?;
    match kind {
        Move::Get => {
            let came = shift(alloc, geometry, axis, direction, source, bits)?;
            let stores = sample.selected.copy()?;
            assert_eq!(rt; came.len(), sample.x.len(), "{step:?}");
            value.merge_in(&stores, came.planes(), bits)?;
            Ok(Moved { value, stores })
        }
        Move::Send => {
            let selected = &sample.selected;
            let sent = send(alloc, geometry, axis, direction, source, selected, bits)?;
            assert_eq!(rt; sent.value.len(), sample.x.len(), "{step:?}");
            assert_eq!(rt; sent.receivers.len(), sample.x.len(), "{step:?}");
            value.merge_in(&sent.receivers, sent.value.planes(), bits)?;
            Ok(Moved {
                value,
                stores: sent.receivers,
            })
        }
    }
}
