//! Scans, spreads and reduces by a loop over the numbers of the processors.

ghost use Rattle.std.specs.Prelude.{◌≡◌, ◌<◌, IfOk, length};
ghost use Rattle.paris_geometry.specs.Geometry.{processor_count};

use crate::calls::{Call, Case};
use crate::cases::Sample;
use paris_geometry::Direction;
use paris_model::{Combiner, Inclusion};
use std::alloc::{AllocError, Global};

/// What some numbers come to, if there are any, and whether it is a sum that needs more bits.
#[derive(Clone, Copy)]
struct Total {
    value: Option<u128>,
    is_over: bool,
}

/// What numbers come to with one more of the bits of `low`.
fn combine(case: &Case, low: u128, total: Total, x: u128) -> Total {
    let Some(y) = total.value else {
        return Total {
            value: Some(x),
            is_over: false,
        };
    };
    let value = match case.operator {
        _ if matches!(case.call, Call::CopyScan(_)) => y,
        Combiner::Sum => y.wrapping_add(x) & low,
        Combiner::BitOr => y | x,
        Combiner::BitAnd => y & x,
        Combiner::BitXor => y ^ x,
        Combiner::Maximum => y.max(x),
        Combiner::Minimum => y.min(x),
    };
    let is_sum = matches!(case.operator, Combiner::Sum);
    let is_over = total.is_over || (is_sum && y > low - x.min(low));
    Total {
        value: Some(value),
        is_over,
    }
}

/// What the low bits of the numbers up to each processor come to, in its segment: without and with its own.
fn running(
    alloc: Global,
    sample: &Sample,
    case: &Case,
    direction: Direction,
) -> Result<Vec<(Total, Total)>, AllocError>
    requires axis { case.now.axis < length sample.now.geometry }
    ensures { IfOk result (λ list. length list.items ≡ processor_count sample.now.geometry) }
{
    let geometry = sample.geometry;
    let low = u128::MAX >> (128 - case.bits);
    let none = Total {
        value: None,
        is_over: false,
    };
    let count = geometry.vps();
    let mut list = Vec::from_elem(alloc, (none, none), count)?;
    for k in 0..count {
        let (v, back, end) = match direction {
            Direction::Upward => (k, Direction::Downward, 1),
            Direction::Downward => (count - 1 - k, Direction::Upward, geometry.len(case.axis)),
        };
        let coordinate = u64::from(geometry.coordinate(v as u32, case.axis));
        let (cuts, counts) = match case.call {
            Call::Scan(_, _) | Call::CopyScan(_) => (
                sample.segments.get(v),
                sample.selected.get(v),
            ),
            Call::Spread | Call::Reduce => (false, sample.selected.get(v)),
            Call::CopySpread => (false, coordinate == case.place),
        };
        let before = if cuts || coordinate + 1 == end {
            none
        } else {
            list[geometry.neighbour(v as u32, case.axis, back) as usize].1
        };
        let after = if counts {
            combine(case, low, before, sample.numbers[v] & low)
        } else {
            before
        };
        list[v] = (before, after);
    }
    Ok(list)
}

/// What a call is to leave at its destination and at the overflow flag, where zeros stood.
pub(crate) fn expected(
    alloc: Global,
    sample: &Sample,
    case: &Case,
) -> Result<(Vec<u128>, Vec<u128>), AllocError>
    requires axis { case.now.axis < length sample.now.geometry }
{
    let geometry = sample.geometry;
    let direction = match case.call {
        Call::Scan(direction, _) | Call::CopyScan(direction) => direction,
        Call::Spread | Call::CopySpread | Call::Reduce => Direction::Downward,
    };
    let none = match case.operator {
        Combiner::BitAnd | Combiner::Minimum if !matches!(case.call, Call::CopyScan(_)) => u128::MAX
            >> (128 - case.bits),
        _ => 0,
    };
    let list = running(alloc, sample, case, direction)?;
    let mut values = Vec::new(alloc);
    let mut overflow = Vec::new(alloc);
    for v in 0..geometry.vps() {
        let coordinate = u64::from(geometry.coordinate(v as u32, case.axis));
        let first = geometry.at_coordinate(v as u32, case.axis, 0) as usize;
        let (total, may_store) = match case.call {
            Call::Scan(_, Inclusion::Exclusive) => (list[v].0, true),
            Call::Scan(_, Inclusion::Inclusive) | Call::CopyScan(_) => (list[v].1, true),
            Call::Spread | Call::CopySpread => (list[first].1, true),
            Call::Reduce => (list[first].1, coordinate == case.place),
        };
        let stores = may_store && sample.selected.get(v);
        let value = total.value.unwrap_or(none);
        values.push(if stores { value } else { 0 })?;
        overflow.push(u128::from(stores && total.is_over))?;
    }
    Ok((values, overflow))
}
