//! Moves to and from the neighbour along an axis.

ghost use Rattle.std.specs.Prelude.{◌≡◌, ◌≤◌, false, IfOk};
ghost use Rattle.paris_geometry.specs.Geometry.{neighbour};
ghost use Rattle.paris_model.specs.Fits.{is_bad_axis};
ghost use Rattle.paris_plain.specs.Narrow.{IsNarrow};
ghost use Rattle.paris_model.specs.Frame.{is_selected, low_at, put_selected, put_where};
ghost use Rattle.paris_model.specs.News.{news_after, news_sender};
ghost use Rattle.paris_plain.specs.Plain.{frame_of_seen};
ghost use Rattle.paris_names.specs.declared.limits.TheConstants.{MAX_WIDTH_OF_ONE};

use crate::coordinates::opposite;
use crate::inputs::Inputs;
use paris_geometry::Direction;
use paris_model::{Action, News, Operand};
use paris_names::Key;
use std::alloc::{AllocError, Global};

/// The numbers at a key after the selected processors have stored those of their neighbours.
fn got(
    alloc: Global,
    inputs: &Inputs,
    key: &Key,
    from: Operand,
    axis: usize,
    direction: Direction,
    length: u64,
) -> Result<Vec<u128>, AllocError>
    requires there { is_bad_axis inputs.now.axes axis ≡ false }
    requires narrow { length ≤ MAX_WIDTH_OF_ONE }
    ensures { IfOk result (λ numbers. numbers.items ≡ put_selected (frame_of_seen inputs.now) key.now length (λ v. low_at (frame_of_seen inputs.now) from length (neighbour inputs.now.axes axis direction v))) }
{
    let geometry = inputs.geometry();
    (0..inputs.vps())
        .map(|v| {
            let beside = geometry.neighbour(v as u32, axis, direction) as usize;
            inputs.selected_at(key, length, inputs.low_at(from, length, beside), v)
        })
        .collect(alloc)
}

/// The numbers at a key after the neighbours of the selected processors have stored theirs.
fn sent(
    alloc: Global,
    inputs: &Inputs,
    key: &Key,
    from: Operand,
    axis: usize,
    direction: Direction,
    length: u64,
) -> Result<Vec<u128>, AllocError>
    requires there { is_bad_axis inputs.now.axes axis ≡ false }
    requires narrow { length ≤ MAX_WIDTH_OF_ONE }
    ensures { IfOk result (λ numbers. numbers.items ≡ put_where (frame_of_seen inputs.now) (λ r. is_selected (frame_of_seen inputs.now) (news_sender inputs.now.axes axis direction r)) key.now length
        (λ r. low_at (frame_of_seen inputs.now) from length (news_sender inputs.now.axes axis direction r))) }
{
    let geometry = inputs.geometry();
    (0..inputs.vps())
        .map(|v| {
            let sender = geometry.neighbour(v as u32, axis, opposite(direction)) as usize;
            let new = inputs.low_at(from, length, sender);
            inputs.stored_at(key, inputs.is_selected(sender), length, new, v)
        })
        .collect(alloc)
}

/// The numbers, by processor, that a move to or from the neighbour leaves at a key. Its only error is want of memory.
pub fn news_after(
    alloc: Global,
    inputs: &Inputs,
    i: &News<Operand>,
    key: &Key,
) -> Result<Vec<u128>, AllocError>
    requires { IsNarrow inputs.now.axes (Action.ByNews i.now) }
    ensures { IfOk result (λ numbers. numbers.items ≡ news_after (frame_of_seen inputs.now) i.now key.now) }
{
    match *i {
        News::Get {
            to: _,
            from,
            axis,
            direction,
            length,
        } => got(alloc, inputs, key, from, axis as usize, direction, length),
        News::Send {
            to: _,
            from,
            axis,
            direction,
            length,
        } => sent(alloc, inputs, key, from, axis as usize, direction, length),
    }
}
