//! Moves to and from the neighbour along an axis, on planes.

ghost use Rattle.std.specs.Prelude.{◌≡◌, IfOk};
ghost use Rattle.paris_model.specs.Fits.{IsFit};
ghost use Rattle.paris_exec.specs.Tasks.{left_values};

use crate::orders::Order;
use crate::planes::{flag_plane, put_field, put_where};
use paris_field::FieldValue;
use paris_geometry::Direction;
use paris_model::{Action, News, Operand};
use paris_names::{FlagName, Key};
use paris_news::{Sent, send, shift};
use std::alloc::{AllocError, Global};

/// The values that a get from the neighbour leaves: a selected processor stores what its neighbour holds.
fn get_values(
    alloc: Global,
    order: &Order,
    to: &Operand,
    from: &Operand,
    axis: u64,
    direction: Direction,
    bits: u64,
) -> Result<Vec<FieldValue>, AllocError>
    requires acts { order.now.plan.action ≡ Action.ByNews (News.Get to.now from.now axis direction bits) }
    requires fit { IsFit order.now.plan.axes order.now.plan.action }
    ensures { IfOk result (λ values. values.items ≡ left_values order.now) }
{
    let x = order.input(&Key::Field(from.field));
    let geometry = order.plan().geometry();
    let new = shift(alloc, geometry, axis as usize, direction, x, bits)?;
    put_field(alloc, order, to, new)
}

/// The values that a send to the neighbour leaves: a processor stores what a selected one sends it.
fn send_values(
    alloc: Global,
    order: &Order,
    to: &Operand,
    from: &Operand,
    axis: u64,
    direction: Direction,
    bits: u64,
) -> Result<Vec<FieldValue>, AllocError>
    requires acts { order.now.plan.action ≡ Action.ByNews (News.Send to.now from.now axis direction bits) }
    requires fit { IsFit order.now.plan.axes order.now.plan.action }
    ensures { IfOk result (λ values. values.items ≡ left_values order.now) }
{
    let x = order.input(&Key::Field(from.field));
    let selected = flag_plane(order, &FlagName::Context);
    let geometry = order.plan().geometry();
    let sent = send(alloc, geometry, axis as usize, direction, x, selected, bits)?;
    let Sent { value, receivers } = sent;
    let mut values = Vec::with_capacity(alloc, 1)?;
    values.push(put_where(order, &receivers, &Key::Field(to.field), value)?)?;
    Ok(values)
}

/// The values that an instruction of this family leaves at the keys that its plan writes, in their order.
pub(crate) fn news_values(
    alloc: Global,
    order: &Order,
    i: &News<Operand>,
) -> Result<Vec<FieldValue>, AllocError>
    requires acts { order.now.plan.action ≡ Action.ByNews i.now }
    requires fit { IsFit order.now.plan.axes order.now.plan.action }
    ensures { IfOk result (λ values. values.items ≡ left_values order.now) }
{
    match i {
        News::Get {
            to,
            from,
            axis,
            direction,
            length,
        } => get_values(alloc, order, to, from, *axis, *direction, *length),
        News::Send {
            to,
            from,
            axis,
            direction,
            length,
        } => send_values(alloc, order, to, from, *axis, *direction, *length),
    }
}
