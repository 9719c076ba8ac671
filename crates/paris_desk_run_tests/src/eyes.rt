//! Looks with no lock, by a second seat of a player.

use paris_book::Look;
use paris_desk::{Desk, Entry, Office, Seat};
use paris_events::{Event, Reply, Shown};
use paris_field::SharedValue;
use paris_names::{KeyName, Spot};
use paris_view::View;
use std::alloc::{AllocError, Global};
use std::process::Abort;

/// A seat that only looks, and what it saw: each look as an entry, with the length of the history that was met in place of a seat.
#[derive(Drop)]
pub(crate) struct Eyes<L: Office> {
    pub(crate) seat: Option<Seat<L>>,
    pub(crate) seen: Vec<Entry>,
}

impl<L: Office> Eyes<L> {
    /// Eyes with no seat, that saw nothing.
    pub(crate) fn new(alloc: Global) -> Eyes<L> {
        Eyes {
            seat: None,
            seen: Vec::new(alloc),
        }
    }
}

/// What a look shows, as a value of its own.
fn shown_of(alloc: Global, look: &Look<'_>) -> Result<Shown, AllocError> {
    match look {
        Look::Settled(value) => match SharedValue::new(alloc, value.copy()?) {
            Ok(shared) => Ok(Shown::Settled(shared)),
            Err((_value, refused)) => Err(refused),
        },
        Look::Pending(id) => Ok(Shown::Pending(*id)),
    }
}

/// A seat looks at a key.
fn look_of<L: Office>(
    alloc: Global,
    desk: &Desk<L>,
    seat: Seat<L>,
    name: &KeyName,
    spot: Spot,
) -> (Seat<L>, Result<Reply, AllocError>) {
    match View::new(desk).look(seat, *name, spot) {
        Ok(held) => {
            let shown = shown_of(alloc, &held.look());
            let reply = match shown {
                Ok(shown) => Ok(Reply::Show(Ok(shown))),
                Err(refused) => Err(refused),
            };
            (held.end(), reply)
        }
        Err((seat, fault)) => (seat, Ok(Reply::Show(Err(fault)))),
    }
}

/// The number of the last entry that a seat made.
fn last_of<L: Office>(seat: &Seat<L>) -> u64 {
    match seat.receipts().last() {
        Some(receipt) => receipt.number,
        None => 0,
    }
}

/// Keeps what a look showed.
fn keeps(
    seen: &mut Vec<Entry>,
    front: u64,
    name: &KeyName,
    spot: Spot,
    reply: Result<Reply, AllocError>,
) -> Result<(), AllocError> {
    let reply = reply?;
    seen.push(Entry {
        seat: front,
        event: Event::Show(*name, spot),
        reply,
    })?;
    Ok(())
}

/// The second seat learns what the first one knows, and looks at a key. It meets no less than it was told.
pub(crate) fn looks<L: Office>(
    rt: &impl Abort,
    alloc: Global,
    desk: &Desk<L>,
    eyes: &mut Eyes<L>,
    own: &Seat<L>,
    name: &KeyName,
    spot: Spot,
) -> Result<(), AllocError> {
    let Some(mut seat) = eyes.seat.take() else {
        return Ok(());
    };
    seat.learn_from(own);
    let (seat, reply) = look_of(alloc, desk, seat, name, spot);
    let front = seat.front().0;
    assert!(rt; front >= last_of(own));
    eyes.seat = Some(seat);
    keeps(&mut eyes.seen, front, name, spot, reply)
}
