//! What lies under the lock of a desk, and the one call that changes it.

ghost use Rattle.std.specs.Prelude.{◌≡◌, ◌≤◌, [], drop, IfOk, IfErr, length};
ghost use Rattle.std.specs.Arc.{arc_value};
ghost use Rattle.paris_names.specs.Faults.{IsFaultOf};
ghost use Rattle.paris_records.specs.History.{state_of};
ghost use Rattle.paris_desk.specs.Calls.{Recorded, hold_fault};
ghost use Rattle.paris_desk.specs.Rules.{posted};

use crate::log::{Head, Known};
use crate::office::Office;
use crate::preparing::{Prepared, prepare};
use crate::published::{DeskWriter, Published};
use crate::publishing::publish;
use crate::seat::Seat;
use paris_book::Book;
use paris_events::{Event, Reply};
use paris_names::Fault;
use paris_records::Entry;
use std::alloc::Global;
use std::marker::Model;
use std::mem;
use std::sync::ledger::{Book as Tally, Share};
use std::sync::{Arc, Wait};

/// What the lock keeps: the book, which is the one that is published, the history that led to it, and the ledger's count of the
/// entries. A clause sees the history. It can't be dropped, since who publishes can't be.
pub struct Locked<L: Office> {
    pub(crate) book: Arc<Book, Global>,
    pub(crate) history: Vec<Entry>,
    pub(crate) limit: u64,
    pub(crate) tally: Tally<L>,
    /// The share of no part that is left where each seat has its own.
    pub(crate) rest: Share<L>,
    pub(crate) head: Head<L>,
    /// All of the history.
    pub(crate) known: Known<L>,
    pub(crate) writer: Option<DeskWriter<L>>,
}

impl<L: Office> Model for Locked<L> {
    ghost use Rattle.std.specs.Prelude.{◌≡◌, ◌≤◌, List, [], length, drop, IsSomeAnd};
    ghost use Rattle.std.specs.Arc.{arc_value};
    ghost use Rattle.paris_records.specs.declared.records.Entry.{Entry};
    ghost use Rattle.paris_records.specs.History.{Legal, state_of};
    ghost use Rattle.paris_desk.specs.Rules.{posted};

    ghost Value = { List Entry };

    ghost view = { λ k. k.history.items };

    ghost invariant = { λ k. Legal L.profile k.history.items
        × (arc_value k.book ≡ state_of L.profile k.history.items)
        × (k.tally.total ≡ length k.history.items)
        × (length k.history.items ≤ L.limit)
        × (k.limit ≡ L.limit)
        × (k.rest.parts ≡ 0)
        × (k.rest.amount ≡ 0)
        × (k.known ≡ k.history.items)
        × IsSomeAnd k.writer (λ w. (w.desk.shown.value ≡ posted L.profile L.log k.history.items) × (drop w.behind w.log.items ≡ [])) };
}

impl<L: Office> Locked<L> {
    /// An empty book with an empty history.
    pub(crate) fn new(
        limit: u64,
        book: Arc<Book, Global>,
        history: Vec<Entry>,
        ledger: (Tally<L>, Share<L>),
        log: (Head<L>, Known<L>),
        writer: DeskWriter<L>,
    ) -> Locked<L>
        requires limit { limit ≡ L.limit }
        requires empty { (arc_value book ≡ state_of L.profile []) × (history.items ≡ []) }
        requires ledger { (ledger.0.total ≡ 0) × (ledger.1.parts ≡ 0) × (ledger.1.amount ≡ 0) }
        requires known { log.1 ≡ [] }
        requires shown { (writer.desk.shown.value ≡ posted L.profile L.log []) × (drop writer.behind writer.log.items ≡ []) }
        ensures { result ≡ [] }
    {
        let (tally, rest) = ledger;
        let (head, known) = log;
        Locked {
            book,
            history,
            limit,
            tally,
            rest,
            head,
            known,
            writer: Some(writer),
        }
    }

    /// Why a call of a seat with this front is not recorded, whatever memory there is.
    fn due(&self, front: u64) -> Option<Fault>
        ensures value { result ≡ hold_fault L.limit (length self.now) front }
        ensures few { length self.now ≤ L.limit }
    {
        let length = self.history.len() as u64;
        if front > length {
            return Some(Fault::StrangeSeat(front, length));
        }
        if length == self.limit {
            return Some(Fault::HistoryFull(length));
        }
        None
    }

    /// One call of a seat. It is recorded: the history's next entry and the seat's next receipt hold the event and the machine's
    /// reply, which is answered, the seat's past is the history, and the book is published. Or it is refused, and the event comes
    /// back: by `StrangeSeat` where the seat was told of more entries than there are, else by `HistoryFull` where there are as many
    /// as the limit, else by `NoMemory` where memory is refused.
    pub fn hold<R: Wait>(
        &mut self,
        rt: &R,
        seat: &mut Seat<L>,
        event: Event,
    ) -> Result<Reply, (Event, Fault)>
        ensures recorded { IfOk result (λ reply. Recorded L.profile L.limit self.old self.new seat.old seat.new event reply) }
        ensures refused { IfErr result (λ e. IsFaultOf (hold_fault L.limit (length self.old) seat.old.front) e.1) }
        ensures event { IfErr result (λ e. e.0 ≡ event) }
        ensures same { IfErr result (λ e. (self.new ≡ self.old) × (seat.new ≡ seat.old)) }
    {
        if let Some(fault) = self.due(seat.front) {
            return Err((event, fault));
        }
        seat.known.compare(&self.known);
        if self.history.reserve(1).is_err() || seat.receipts.reserve(1).is_err() {
            return Err((event, Fault::NoMemory));
        }
        let alloc = *self.history.allocator();
        let number = self.history.len() as u64 + 1;
        let prepared = match prepare(alloc, &self.book, seat.number, number, event) {
            Ok(prepared) => prepared,
            Err(event) => return Err((event, Fault::NoMemory)),
        };
        let Some(known) = self.known.add(&self.head, &prepared.entry) else {
            return Err((prepared.given_up(), Fault::NoMemory));
        };
        let Prepared {
            kept,
            shown,
            given,
            entry,
            receipt,
        } = prepared;
        self.history.push_reserved(entry);
        seat.receipts.push_reserved(receipt);
        seat.front = number;
        seat.known = known.again();
        self.tally.add(&mut seat.share, 1);
        self.book = kept;
        self.known = known.again();
        let Some(writer) = self.writer.take() else {
            unreachable!()
        };
        let writer = publish(rt, writer, Published::new(shown, known));
        match mem::replace(&mut self.writer, Some(writer)) {
            None => {}
            Some(_) => unreachable!(),
        }
        Ok(given)
    }
}
