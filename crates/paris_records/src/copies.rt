//! Copies of events and replies. Values in them are shared, so no plane is copied.

ghost use Rattle.std.specs.Prelude.{◌≡◌, IfOk};

use paris_edits::Edit;
use paris_events::{Event, Reply, Shown};
use std::alloc::AllocError;

/// A copy of an edit.
fn copy_of_edit(edit: &Edit) -> Result<Edit, AllocError>
    ensures { IfOk result (λ copy. copy ≡ edit.now) }
{
    match edit {
        Edit::AddSet { name, axes } => {
            Ok(Edit::AddSet {
                name: *name,
                axes: axes.clone()?,
            })
        }
        Edit::AddField { name, set, width } => {
            Ok(Edit::AddField {
                name: *name,
                set: *set,
                width: *width,
            })
        }
        Edit::Input { key, from, values } => {
            Ok(Edit::Input {
                key: *key,
                from: *from,
                values: values.clone()?,
            })
        }
        Edit::Insert { spot, instr } => {
            Ok(Edit::Insert {
                spot: *spot,
                instr: *instr,
            })
        }
        Edit::Delete(id) => Ok(Edit::Delete(*id)),
        Edit::Replace { row, instr } => {
            Ok(Edit::Replace {
                row: *row,
                instr: *instr,
            })
        }
    }
}

/// A copy of an event.
pub fn copy_of_event(event: &Event) -> Result<Event, AllocError>
    ensures { IfOk result (λ copy. copy ≡ event.now) }
{
    match event {
        Event::Edit(edit) => Ok(Event::Edit(copy_of_edit(edit)?)),
        Event::Take => Ok(Event::Take),
        Event::Bring(done) => Ok(Event::Bring(done.copy()?)),
        Event::Release => Ok(Event::Release),
        Event::Show(name, spot) => Ok(Event::Show(*name, *spot)),
        Event::List => Ok(Event::List),
    }
}

/// A copy of what is shown.
fn copy_of_shown(shown: &Shown) -> Result<Shown, AllocError>
    ensures { IfOk result (λ copy. copy ≡ shown.now) }
{
    match shown {
        Shown::Settled(value) => Ok(Shown::Settled(value.copy()?)),
        Shown::Pending(id) => Ok(Shown::Pending(*id)),
    }
}

/// A copy of a reply.
pub fn copy_of_reply(reply: &Reply) -> Result<Reply, AllocError>
    ensures { IfOk result (λ copy. copy ≡ reply.now) }
{
    match reply {
        Reply::Edit(answer) => Ok(Reply::Edit(*answer)),
        Reply::Take(None) => Ok(Reply::Take(None)),
        Reply::Take(Some(order)) => Ok(Reply::Take(Some(order.copy()?))),
        Reply::Bring(verdict) => Ok(Reply::Bring(*verdict)),
        Reply::Release => Ok(Reply::Release),
        Reply::Show(Ok(shown)) => Ok(Reply::Show(Ok(copy_of_shown(shown)?))),
        Reply::Show(Err(fault)) => Ok(Reply::Show(Err(*fault))),
        Reply::List(looks) => Ok(Reply::List(looks.clone()?)),
    }
}
