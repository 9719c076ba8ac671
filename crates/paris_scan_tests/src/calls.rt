//! Scans, spreads and reduces of fields.

ghost use Rattle.std.specs.Prelude.{◌<◌, ◌≤◌, length};
ghost use Rattle.paris_geometry.specs.Geometry.{axis_length};

use crate::cases::Sample;
use paris_field::FieldValue;
use paris_geometry::Direction;
use paris_model::{Combiner, Inclusion};
use paris_scan::{Combined, Reduced, copy_scan, copy_spread, reduce, scan, spread};
use std::alloc::{AllocError, Global};

/// What is done along the lines of an axis.
#[derive(Clone, Copy, Debug)]
pub(crate) enum Call {
    Scan(Direction, Inclusion),
    CopyScan(Direction),
    Spread,
    CopySpread,
    Reduce,
}

/// A call on the low `bits` bits along an axis. A copying spread takes from the coordinate `place`, and a reduce stores there.
#[derive(Clone, Copy, Debug)]
pub(crate) struct Case {
    pub(crate) call: Call,
    pub(crate) operator: Combiner,
    pub(crate) axis: usize,
    pub(crate) place: u64,
    pub(crate) bits: u64,
    ghost some: { 0 < bits },
    ghost narrow: { bits ≤ 128 },
}

/// A value that is copied.
fn copied(value: FieldValue) -> Combined {
    Combined {
        value,
        overflow: None,
    }
}

/// What a call makes of a sample, and which processors store it.
pub(crate) fn run_case(alloc: Global, sample: &Sample, case: &Case) -> Result<Reduced, AllocError>
    requires axis { case.now.axis < length sample.now.geometry }
    requires place { case.now.place < axis_length sample.now.geometry case.now.axis }
    requires within { case.now.bits ≤ sample.now.field.width }
{
    let Sample {
        geometry,
        field: x,
        selected,
        segments,
        ..
    } = sample;
    let Case {
        operator,
        axis,
        place,
        bits,
        ..
    } = *case;
    let combined = match case.call {
        Call::Scan(direction, inclusion) => scan(
            alloc, operator, *geometry, axis, direction, inclusion, x, selected, segments, bits,
        )?,
        Call::CopyScan(direction) => copied(copy_scan(
            alloc, *geometry, axis, direction, x, selected, segments, bits,
        )?),
        Call::Spread => spread(alloc, operator, *geometry, axis, x, selected, bits)?,
        Call::CopySpread => copied(copy_spread(alloc, *geometry, axis, place, x, bits)?),
        Call::Reduce => return reduce(alloc, operator, *geometry, axis, place, x, selected, bits),
    };
    let stores = selected.copy()?;
    Ok(Reduced { combined, stores })
}
