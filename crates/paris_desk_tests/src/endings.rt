//! How desks are ended, and what is left of them.

use paris_audit::{audit, audit_with};
use paris_desk::{Cause, CloseFault, Closed, Desk, Office, Receipt, Seat, close};
use paris_events::{Event, Reply};
use paris_names::{Fault, Profile};
use std::alloc::Global;
use std::process::Abort;
use std::sync::Wait;

/// A change to what is left of a closed desk, by which history and receipts don't agree any more.
#[derive(Clone, Copy)]
pub(crate) enum Spoil {
    /// The lists of the first two seats trade places.
    TradesLists,
    /// The last seat's list is gone.
    LosesAList,
    /// The last seat's last receipt is gone.
    LosesAReceipt,
    /// The last entry is gone.
    LosesAnEntry,
    /// The last entry is of the first seat.
    EntryNamesAnotherSeat,
    /// The last seat's last receipt is of the first seat.
    ReceiptNamesAnotherSeat,
    /// The last seat's last receipt has this number.
    ReceiptHasNumber(u64),
    /// The last seat's last receipt is of a look at the rows.
    TellsAnotherEvent,
    /// The last seat's last receipt is of another reply.
    TellsAnotherReply,
    /// The first entry and the first seat's first receipt are of the same reply, which the book doesn't make.
    TellsAReplyThatIsNotMade,
}

/// How a desk is ended.
#[derive(Clone, Copy)]
pub(crate) enum Ending {
    /// It is let go.
    IsDiscarded,
    /// It is closed. The seats have so many receipts, by number, and history and receipts agree.
    Closes(&'static [usize]),
    /// It is closed, and so it is with its history and receipts in profile 2, in which they agree. In profile 1 they don't.
    ClosesInTwo(&'static [usize]),
    /// It isn't closed without the seat at this place, which has this number, and then it is.
    Misses(usize, &'static [usize]),
    /// It is closed, and what is left is changed.
    IsSpoilt(Spoil),
}

/// What is left of a desk that is closed with all its seats.
fn left_of<L: Office>(rt: &(impl Abort + Wait), desk: Desk<L>, seats: Vec<Seat<L>>) -> Closed {
    match close(rt, desk, seats) {
        Ok(closed) => closed,
        Err(fault) => {
            let CloseFault {
                desk,
                seats: _seats,
                cause: _,
            } = fault;
            desk.discard(rt);
            None.expect(rt, "it is closed")
        }
    }
}

/// The desk and the seats that come back, since the seat of a number is missing.
fn back_of<L: Office>(
    rt: &(impl Abort + Wait),
    desk: Desk<L>,
    seats: Vec<Seat<L>>,
    number: u64,
) -> (Desk<L>, Vec<Seat<L>>) {
    let count = seats.len();
    let fault = close(rt, desk, seats).err().expect(rt, "a seat is missing");
    let CloseFault { desk, seats, cause } = fault;
    assert!(rt; cause == Cause::Missing(number) && seats.len() == count);
    (desk, seats)
}

/// What is left of a desk that is closed first without the seat at a place, and then with it.
fn left_at_last<L: Office>(
    rt: &(impl Abort + Wait),
    desk: Desk<L>,
    seats: Vec<Seat<L>>,
    place: usize,
) -> Closed {
    let mut seats = seats;
    assert!(rt; place < seats.len());
    let missing = seats.remove(place);
    let (desk, mut seats) = back_of(rt, desk, seats, place as u64);
    seats.push(missing).ok().expect(rt, "there is memory");
    left_of(rt, desk, seats)
}

/// Whether the lists have so many receipts, and the history has no other entries.
fn has_counts(closed: &Closed, counts: &[usize]) -> bool {
    let mut left = closed.history.len();
    if closed.receipts.len() != counts.len() {
        return false;
    }
    for (receipts, count) in closed.receipts.iter().zip(counts.iter()) {
        if receipts.len() != *count || receipts.len() > left {
            return false;
        }
        left -= receipts.len();
    }
    left == 0
}

fn is_agreed(alloc: Global, closed: &Closed) -> Result<bool, Fault> {
    Ok(audit(alloc, &closed.history, &closed.receipts)?)
}

/// Whether the lists have so many receipts, and agree with the history, which has no other entries.
fn agrees(alloc: Global, closed: &Closed, counts: &[usize]) -> Result<bool, Fault> {
    Ok(is_agreed(alloc, closed)? && has_counts(closed, counts))
}

/// Whether the lists have so many receipts, and agree with the history in profile 2 and not in profile 1.
fn agrees_in_two(alloc: Global, closed: &Closed, counts: &[usize]) -> Result<bool, Fault> {
    let is_so = audit_with(alloc, Profile::Two, &closed.history, &closed.receipts)?;
    let is_so_in_one = audit_with(alloc, Profile::One, &closed.history, &closed.receipts)?;
    Ok(is_so && !is_so_in_one && !is_agreed(alloc, closed)? && has_counts(closed, counts))
}

/// The last seat's last receipt.
fn last_receipt<'a>(rt: &impl Abort, closed: &'a mut Closed) -> &'a mut Receipt {
    let list = closed.receipts.last_mut().expect(rt, "there is a list");
    list.last_mut().expect(rt, "there is a receipt")
}

/// Changes the reply of the first call, where it was made and where it was recorded.
fn tell_another_reply(rt: &impl Abort, closed: &mut Closed) {
    let entry = closed.history.first_mut().expect(rt, "there is an entry");
    entry.reply = Reply::Edit(Err(Fault::SetsFull));
    let list = closed.receipts.first_mut().expect(rt, "there is a list");
    let receipt = list.first_mut().expect(rt, "there is a receipt");
    receipt.reply = Reply::Edit(Err(Fault::SetsFull));
}

fn make_change(rt: &impl Abort, closed: &mut Closed, change: Spoil) {
    match change {
        Spoil::TradesLists => {
            assert!(rt; closed.receipts.len() > 1);
            closed.receipts.swap(0, 1);
        }
        Spoil::LosesAList => {
            let _list = closed.receipts.pop().expect(rt, "there is a list");
        }
        Spoil::LosesAReceipt => {
            let list = closed.receipts.last_mut().expect(rt, "there is a list");
            let _receipt = list.pop().expect(rt, "there is a receipt");
        }
        Spoil::LosesAnEntry => {
            let _entry = closed.history.pop().expect(rt, "there is an entry");
        }
        Spoil::EntryNamesAnotherSeat => {
            let entry = closed.history.last_mut().expect(rt, "there is an entry");
            entry.seat = 0;
        }
        Spoil::ReceiptNamesAnotherSeat => last_receipt(rt, closed).seat = 0,
        Spoil::ReceiptHasNumber(number) => last_receipt(rt, closed).number = number,
        Spoil::TellsAnotherEvent => last_receipt(rt, closed).event = Event::List,
        Spoil::TellsAnotherReply => last_receipt(rt, closed).reply = Reply::Release,
        Spoil::TellsAReplyThatIsNotMade => tell_another_reply(rt, closed),
    }
}

/// Whether history and receipts agree, and with a change don't.
fn is_found(
    rt: &impl Abort,
    alloc: Global,
    closed: &mut Closed,
    change: Spoil,
) -> Result<bool, Fault> {
    let was_agreed = is_agreed(alloc, closed)?;
    make_change(rt, closed, change);
    Ok(was_agreed && !is_agreed(alloc, closed)?)
}

/// Ends a desk, and says whether what is left is as it must be.
pub(crate) fn ends<L: Office>(
    rt: &(impl Abort + Wait),
    alloc: Global,
    desk: Desk<L>,
    seats: Vec<Seat<L>>,
    ending: Ending,
) -> Result<bool, Fault> {
    match ending {
        Ending::IsDiscarded => {
            desk.discard(rt);
            Ok(true)
        }
        Ending::Closes(counts) => agrees(alloc, &left_of(rt, desk, seats), counts),
        Ending::ClosesInTwo(counts) => agrees_in_two(alloc, &left_of(rt, desk, seats), counts),
        Ending::Misses(place, counts) => {
            agrees(alloc, &left_at_last(rt, desk, seats, place), counts)
        }
        Ending::IsSpoilt(change) => is_found(rt, alloc, &mut left_of(rt, desk, seats), change),
    }
}
