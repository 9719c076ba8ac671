//! Values moved by one place along an axis, which wraps round.

ghost use Rattle.std.specs.Prelude.{◌≡◌, ℕ, ◌<◌, ◌≤◌, IfOk, IfSome, length, replicate};
ghost use Rattle.paris_geometry.specs.Geometry.{neighbour, opposite, processor_count};
ghost use Rattle.paris_field.specs.Numbers.{AllOf, number_at};
ghost use Rattle.paris_news.specs.News.{moved_field, moved_plane, sent_field, sent_plane};

use paris_field::FieldValue;
use paris_geometry::{Direction, Geometry};
use paris_layer::Layer;
use paris_plane::Plane;
use std::alloc::{AllocError, Global};

/// The direction in which a step takes another back.
fn opposite(direction: Direction) -> Direction
    ensures { result ≡ opposite direction }
{
    match direction {
        Direction::Upward => Direction::Downward,
        Direction::Downward => Direction::Upward,
    }
}

/// Puts the bit of its neighbour in the direction into each processor of `out`. A line along the axis is a period of the plane, which
/// is turned by the stride.
fn shift_into(
    geometry: Geometry,
    axis: usize,
    direction: Direction,
    source: &Plane,
    out: &mut Plane,
)
    requires axis { axis < length geometry }
    requires source { length source.now ≡ processor_count geometry }
    requires out { length out.old ≡ processor_count geometry }
    ensures { out.new ≡ moved_plane geometry axis direction source.now }
{
    let stride = geometry.stride(axis);
    let period = geometry.len(axis) as usize * stride;
    match direction {
        Direction::Upward => out.turn_down_from(source, stride, period),
        Direction::Downward => out.turn_up_from(source, stride, period),
    }
}

/// The bit of all processors, where they have the same.
fn shared_bit(x: &Layer) -> Option<bool>
    ensures { IfSome result (λ bit. x.now ≡ replicate (length x.now) bit) }
{
    if x.is_all(false) {
        return Some(false);
    }
    if x.is_all(true) {
        return Some(true);
    }
    None
}

/// The planes in which each processor has the number of its neighbour in the direction.
fn shift_planes(
    alloc: Global,
    geometry: Geometry,
    axis: usize,
    direction: Direction,
    source: &[Layer],
) -> Result<Vec<Layer>, AllocError>
    requires axis { axis < length geometry }
    requires source { AllOf (processor_count geometry) source.now }
    ensures count { IfOk result (λ planes. length planes.items ≡ length source.now) }
    ensures long { IfOk result (λ planes. AllOf (processor_count geometry) planes.items) }
    ensures at { IfOk result (λ planes. (v : ℕ) → v < processor_count geometry → number_at planes.items v ≡ number_at source.now (neighbour geometry axis direction v)) }
{
    let mut planes = Vec::with_capacity(alloc, source.len())?;
    for k in 0..source.len() {
        let plane = shift_plane(alloc, geometry, axis, direction, &source[k])?;
        planes.push(plane)?;
    }
    Ok(planes)
}

/// In each processor the low `bits` bits that its neighbour in the direction holds.
pub fn shift(
    alloc: Global,
    geometry: Geometry,
    axis: usize,
    direction: Direction,
    x: &FieldValue,
    bits: u64,
) -> Result<FieldValue, AllocError>
    requires axis { axis < length geometry }
    requires narrow { bits ≤ 128 }
    requires x_width { bits ≤ x.now.width }
    requires count { length x.now.numbers ≡ processor_count geometry }
    ensures { IfOk result (λ value. value ≡ moved_field geometry axis direction bits x.now) }
{
    let planes = shift_planes(alloc, geometry, axis, direction, x.low(bits))?;
    Ok(FieldValue::from_layers(planes, geometry.vps()))
}

/// In each processor the bit that its neighbour in the direction holds. Where all have the same bit it takes no words.
pub fn shift_plane(
    alloc: Global,
    geometry: Geometry,
    axis: usize,
    direction: Direction,
    x: &Layer,
) -> Result<Layer, AllocError>
    requires axis { axis < length geometry }
    requires count { length x.now ≡ processor_count geometry }
    ensures { IfOk result (λ plane. plane ≡ moved_plane geometry axis direction x.now) }
{
    if let Some(bit) = shared_bit(x) {
        return Ok(Layer::filled(bit, geometry.vps()));
    }
    let source = x.lent(alloc)?;
    let mut out = Plane::zeros(alloc, geometry.vps())?;
    shift_into(geometry, axis, direction, source.plane(), &mut out);
    Ok(Layer::from_plane(out))
}

/// What selected processors send to their neighbours, and which processors get something.
#[derive(Debug, Drop)]
pub struct Sent {
    pub value: FieldValue,
    pub receivers: Layer,
}

/// The low `bits` bits that come to each processor where the selected processors send them in the direction. In a processor
/// that gets nothing the value is that of the sender that isn't selected.
pub fn send(
    alloc: Global,
    geometry: Geometry,
    axis: usize,
    direction: Direction,
    x: &FieldValue,
    selected: &Layer,
    bits: u64,
) -> Result<Sent, AllocError>
    requires axis { axis < length geometry }
    requires narrow { bits ≤ 128 }
    requires x_width { bits ≤ x.now.width }
    requires count { length x.now.numbers ≡ processor_count geometry }
    requires selected { length selected.now ≡ processor_count geometry }
    ensures value { IfOk result (λ sent. sent.value ≡ sent_field geometry axis direction bits x.now) }
    ensures receivers { IfOk result (λ sent. sent.receivers ≡ sent_plane geometry axis direction selected.now) }
{
    let back = opposite(direction);
    let value = shift(alloc, geometry, axis, back, x, bits)?;
    let receivers = shift_plane(alloc, geometry, axis, back, selected)?;
    Ok(Sent { value, receivers })
}
