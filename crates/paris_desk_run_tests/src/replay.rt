//! A history, entry by entry, beside plain lists: each reply has to be what the definitions give.

use crate::plain::Plain;
use paris_desk::Entry;
use paris_edits::{EditReply, RowLook, Verdict};
use paris_events::{Event, Reply, Shown};
use paris_exec::{Done, Order, Outcome};
use paris_field::SharedValue;
use paris_names::{Fault, Key, KeyName, Spot};
use std::alloc::{AllocError, Global};
use std::process::Abort;

/// How often the replies of each kind were met.
#[derive(Clone, Copy)]
pub(crate) struct Met {
    pub(crate) accepted: u64,
    pub(crate) refused: u64,
    pub(crate) orders: u64,
    pub(crate) kept: u64,
    pub(crate) late: u64,
    pub(crate) settled: u64,
    pub(crate) pending: u64,
    pub(crate) causes: u64,
    pub(crate) seen: u64,
}

/// Whether none of these is zero.
fn are_met(counts: &[u64]) -> bool {
    for count in counts {
        if *count == 0 {
            return false;
        }
    }
    true
}

impl Met {
    /// Whether replies of each kind were met.
    pub(crate) fn has_all(self) -> bool {
        let calls = [self.accepted, self.refused, self.orders, self.kept];
        let looks = [
            self.late,
            self.settled,
            self.pending,
            self.causes,
            self.seen,
        ];
        are_met(&calls) && are_met(&looks)
    }
}

pub(crate) const NOTHING_MET: Met = Met {
    accepted: 0,
    refused: 0,
    orders: 0,
    kept: 0,
    late: 0,
    settled: 0,
    pending: 0,
    causes: 0,
    seen: 0,
};

/// One more.
fn count(number: &mut u64) {
    *number = number.saturating_add(1);
}

/// An edit is answered as the lists tell.
fn is_edited(
    rt: &impl Abort,
    met: &mut Met,
    wanted: Result<EditReply, Fault>,
    answer: &Result<EditReply, Fault>,
) {
    assert!(rt; *answer == wanted);
    match answer {
        Ok(_) => count(&mut met.accepted),
        Err(_) => count(&mut met.refused),
    }
}

/// Whether a value has the numbers that a key has behind so many rows.
fn is_right(
    plain: &Plain,
    place: usize,
    key: Key,
    value: &SharedValue,
) -> Result<bool, AllocError> {
    let numbers = value.get().numbers()?;
    match plain.numbers(place, key) {
        Some(wanted) => Ok(numbers.as_slice() == wanted),
        None => Ok(false),
    }
}

/// Whether values have the numbers that keys have behind so many rows.
fn are_right(
    plain: &Plain,
    place: usize,
    keys: &[Key],
    values: &[SharedValue],
) -> Result<bool, AllocError> {
    let mut right = keys.len() == values.len();
    for (key, value) in keys.iter().zip(values.iter()) {
        right = is_right(plain, place, *key, value)? && right;
    }
    Ok(right)
}

/// An order is for the row at a place, with the present plan and inputs.
fn is_order_of(
    rt: &impl Abort,
    plain: &Plain,
    place: usize,
    order: &Order,
) -> Result<(), AllocError> {
    let row = plain.rows.get(place).expect(rt, "there is such a row");
    assert!(rt; row.id == order.id() && row.plan.equals(order.plan()));
    assert!(rt; are_right(plain, place, order.plan().reads(), order.inputs())?);
    Ok(())
}

fn is_taken(
    rt: &impl Abort,
    met: &mut Met,
    plain: &mut Plain,
    order: &Option<Order>,
) -> Result<(), AllocError> {
    let Some(order) = order else {
        return Ok(());
    };
    plain.run(rt)?;
    count(&mut met.orders);
    let place = plain.place_of(order.id()).expect(rt, "the row is there");
    is_order_of(rt, plain, place, order)
}

/// What an order gave is what the row at a place gives.
fn is_outcome_of(
    rt: &impl Abort,
    plain: &Plain,
    place: usize,
    done: &Done,
) -> Result<(), AllocError> {
    match done.outcome() {
        Outcome::Values(values) => {
            assert!(rt; plain.cause(place).is_none());
            let behind = place.saturating_add(1);
            let writes = done.order().plan().writes();
            assert!(rt; are_right(plain, behind, writes, values.as_slice())?);
        }
        Outcome::Refused(cause) => assert!(rt; plain.cause(place) == Some(*cause)),
    }
    Ok(())
}

/// A result is gone where no row has its id. It is kept only where it is that of the present row.
fn is_brought(
    rt: &impl Abort,
    met: &mut Met,
    plain: &mut Plain,
    done: &Done,
    verdict: Verdict,
) -> Result<(), AllocError> {
    let place = plain.place_of(done.order().id());
    assert!(rt; (verdict == Verdict::Gone) == place.is_none());
    if verdict != Verdict::Kept {
        count(&mut met.late);
        return Ok(());
    }
    plain.run(rt)?;
    count(&mut met.kept);
    let place = place.expect(rt, "the row is there");
    is_order_of(rt, plain, place, done.order())?;
    is_outcome_of(rt, plain, place, done)
}

/// The key and the place of a look, or why there is nothing to look at.
fn looked_at(plain: &Plain, name: KeyName, spot: Spot) -> Result<(Key, usize), Fault> {
    let key = plain.board.key_of(name)?;
    let place = plain.place_at(spot).ok_or(Fault::NoRow)?;
    Ok((key, place))
}

/// A key is shown as pending for its last writer, or with the plain program's numbers.
fn is_shown_at(
    rt: &impl Abort,
    met: &mut Met,
    plain: &Plain,
    key: Key,
    place: usize,
    shown: &Shown,
) -> Result<(), AllocError> {
    match shown {
        Shown::Settled(value) => {
            count(&mut met.settled);
            assert!(rt; is_right(plain, place, key, value)?);
        }
        Shown::Pending(id) => {
            count(&mut met.pending);
            assert!(rt; plain.writer(place, key) == Some(*id));
        }
    }
    Ok(())
}

fn is_shown(
    rt: &impl Abort,
    met: &mut Met,
    plain: &mut Plain,
    place: Result<(Key, usize), Fault>,
    answer: &Result<Shown, Fault>,
) -> Result<(), AllocError> {
    match (place, answer) {
        (Ok((key, place)), Ok(shown)) => {
            plain.run(rt)?;
            is_shown_at(rt, met, plain, key, place, shown)
        }
        (Err(wanted), Err(fault)) => {
            assert!(rt; *fault == wanted);
            Ok(())
        }
        _ => {
            assert!(rt; false);
            Ok(())
        }
    }
}

/// Rows are listed in their order, with the plain program's causes where they are settled.
fn is_listed(
    rt: &impl Abort,
    met: &mut Met,
    plain: &mut Plain,
    looks: &[RowLook],
) -> Result<(), AllocError> {
    plain.run(rt)?;
    assert!(rt; looks.len() == plain.rows.len());
    for (place, (row, look)) in plain.rows.iter().zip(looks.iter()).enumerate() {
        let cause = if look.status.is_settled() {
            plain.cause(place)
        } else {
            None
        };
        assert!(rt; look.id == row.id && look.instr == row.plan.instr());
        assert!(rt; look.cause == cause);
        if cause.is_some() {
            count(&mut met.causes);
        }
    }
    Ok(())
}

/// The reply of an entry is what the definitions give.
fn is_right_reply(
    rt: &impl Abort,
    met: &mut Met,
    plain: &mut Plain,
    entry: &Entry,
) -> Result<(), AllocError> {
    match (&entry.event, &entry.reply) {
        (Event::Edit(edit), Reply::Edit(answer)) => {
            let wanted = plain.edit(rt, edit);
            is_edited(rt, met, wanted, answer);
            Ok(())
        }
        (Event::Take, Reply::Take(order)) => is_taken(rt, met, plain, order),
        (Event::Bring(done), Reply::Bring(verdict)) => is_brought(rt, met, plain, done, *verdict),
        (Event::Release, Reply::Release) => Ok(()),
        (Event::Show(name, spot), Reply::Show(answer)) => {
            let place = looked_at(plain, *name, *spot);
            is_shown(rt, met, plain, place, answer)
        }
        (Event::List, Reply::List(looks)) => is_listed(rt, met, plain, looks.as_slice()),
        _ => {
            assert!(rt; false);
            Ok(())
        }
    }
}

/// Looks that met a history of so many entries show what the definitions give there.
fn are_right_looks(
    rt: &impl Abort,
    met: &mut Met,
    plain: &mut Plain,
    seen: &[Entry],
    length: u64,
) -> Result<(), AllocError> {
    for look in seen {
        if look.seat == length {
            is_right_reply(rt, met, plain, look)?;
            count(&mut met.seen);
        }
    }
    Ok(())
}

/// All replies of a history are what the definitions give, and so is what was seen with no lock.
pub(crate) fn agrees(
    rt: &impl Abort,
    alloc: Global,
    met: &mut Met,
    history: &[Entry],
    seen: &[Entry],
) -> Result<(), AllocError> {
    let mut plain = Plain::new(alloc);
    are_right_looks(rt, met, &mut plain, seen, 0)?;
    for (place, entry) in history.iter().enumerate() {
        is_right_reply(rt, met, &mut plain, entry)?;
        let length = (place as u64).saturating_add(1);
        are_right_looks(rt, met, &mut plain, seen, length)?;
    }
    Ok(())
}
