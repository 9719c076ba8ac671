//! Whether events are the same, and whether replies are. Values in them are compared number by number.

ghost use Rattle.std.specs.Prelude.{◌≡◌, ◌↔◌, IsTrue};

use paris_edits::{Edit, RowLook};
use paris_events::{Event, Reply, Shown};
use paris_exec::{Done, Order};
use paris_names::{Fault, Items, KeyName, Spot};

fn is_same_key(key: KeyName, other: KeyName) -> bool
    ensures { IsTrue result ↔ (key ≡ other) }
{
    key == other
}

fn is_same_spot(spot: Spot, other: Spot) -> bool
    ensures { IsTrue result ↔ (spot ≡ other) }
{
    spot == other
}

fn is_same_fault(fault: Fault, other: Fault) -> bool
    ensures { IsTrue result ↔ (fault ≡ other) }
{
    fault == other
}

fn is_same_order(order: &Order, other: &Order) -> bool
    ensures { IsTrue result ↔ (order.now ≡ other.now) }
{
    order.id() == other.id() && order.edition() == other.edition() && order.same_work(other)
}

fn is_same_done(done: &Done, other: &Done) -> bool
    ensures { IsTrue result ↔ (done.now ≡ other.now) }
{
    is_same_order(done.order(), other.order())
}

fn are_same_looks(looks: &Items<RowLook>, others: &Items<RowLook>) -> bool
    ensures { IsTrue result ↔ (looks.now ≡ others.now) }
{
    looks == others
}

fn is_same_edit(edit: &Edit, other: &Edit) -> bool
    ensures { IsTrue result ↔ (edit.now ≡ other.now) }
{
    edit == other
}

/// Whether both events are the same.
pub fn is_same_event(event: &Event, other: &Event) -> bool
    ensures { IsTrue result ↔ (event.now ≡ other.now) }
{
    match (event, other) {
        (Event::Edit(edit), Event::Edit(other)) => is_same_edit(edit, other),
        (Event::Take, Event::Take) => true,
        (Event::Bring(done), Event::Bring(other)) => is_same_done(done, other),
        (Event::Release, Event::Release) => true,
        (Event::Show(key, spot), Event::Show(other, other_spot)) => {
            is_same_key(*key, *other) && is_same_spot(*spot, *other_spot)
        }
        (Event::List, Event::List) => true,
        _ => false,
    }
}

fn is_same_shown(shown: &Shown, other: &Shown) -> bool
    ensures { IsTrue result ↔ (shown.now ≡ other.now) }
{
    match (shown, other) {
        (Shown::Settled(value), Shown::Settled(other)) => value.get().equals(other.get()),
        (Shown::Pending(row), Shown::Pending(other)) => row == other,
        _ => false,
    }
}

/// Whether both replies are the same.
pub fn is_same_reply(reply: &Reply, other: &Reply) -> bool
    ensures { IsTrue result ↔ (reply.now ≡ other.now) }
{
    match (reply, other) {
        (Reply::Edit(Ok(answer)), Reply::Edit(Ok(other))) => answer == other,
        (Reply::Edit(Err(fault)), Reply::Edit(Err(other))) => is_same_fault(*fault, *other),
        (Reply::Take(None), Reply::Take(None)) => true,
        (Reply::Take(Some(order)), Reply::Take(Some(other))) => is_same_order(order, other),
        (Reply::Bring(verdict), Reply::Bring(other)) => verdict == other,
        (Reply::Release, Reply::Release) => true,
        (Reply::Show(Ok(shown)), Reply::Show(Ok(other))) => is_same_shown(shown, other),
        (Reply::Show(Err(fault)), Reply::Show(Err(other))) => is_same_fault(*fault, *other),
        (Reply::List(looks), Reply::List(others)) => are_same_looks(looks, others),
        _ => false,
    }
}
