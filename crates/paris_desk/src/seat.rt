//! Seats: who calls a desk, and what each keeps of its calls.

ghost use Rattle.std.specs.Prelude.{◌≡◌, ◌≤◌, max, [], length};
ghost use Rattle.paris_desk.specs.Seats.{SeatState, sitting};
ghost use Rattle.paris_desk.specs.Pasts.{Learned};

use crate::log::Known;
use crate::office::Office;
use crate::published::DeskReader;
use paris_records::{Front, Receipt};
use std::alloc::Global;
use std::marker::Model;
use std::sync::ledger::Share;

/// A seat of the desk of this name. A clause sees its number, its receipts, its front and its past.
#[derive(Drop)]
pub struct Seat<L: Office> {
    pub(crate) number: u64,
    pub(crate) receipts: Vec<Receipt>,
    pub(crate) front: u64,
    pub(crate) share: Share<L>,
    pub(crate) known: Known<L>,
    pub(crate) reader: DeskReader<L>,
}

impl<L: Office> Model for Seat<L> {
    ghost use Rattle.std.specs.Prelude.{◌≡◌, ◌≤◌, length};
    ghost use Rattle.paris_records.specs.Receipts.{IsPart};
    ghost use Rattle.paris_desk.specs.Seats.{SeatState, sitting};

    ghost Value = { SeatState };

    ghost view = { λ s. sitting s.number s.receipts.items s.front s.known };

    ghost invariant = { λ s. (s.share.parts ≡ 1)
        × (s.share.amount ≡ length s.receipts.items)
        × (length s.known ≤ s.front)
        × IsPart s.number 0 s.receipts.items s.known };
}

impl<L: Office> Seat<L> {
    /// A seat that made no call.
    pub(crate) fn new(
        alloc: Global,
        number: u64,
        share: Share<L>,
        known: Known<L>,
        reader: DeskReader<L>,
    ) -> Seat<L>
        requires { (share.parts ≡ 1) × (share.amount ≡ 0) × (known ≡ []) }
        ensures { result ≡ sitting number [] 0 [] }
    {
        Seat {
            number,
            receipts: Vec::new(alloc),
            front: 0,
            share,
            known,
            reader,
        }
    }

    /// Its number, by which entries and receipts name it.
    pub fn number(&self) -> u64
        ensures { result ≡ self.now.number }
    {
        self.number
    }

    /// A receipt for each recorded call, in order.
    pub fn receipts(&self) -> &[Receipt]
        ensures { result.now ≡ self.now.receipts }
    {
        self.receipts.as_slice()
    }

    /// How many entries of the history it has been told of: at first none, after a recorded call those up to its own. Its past is
    /// never longer.
    pub fn front(&self) -> Front
        ensures value { result.0 ≡ self.now.front }
        ensures past { length self.now.past ≤ result.0 }
    {
        Front(self.front)
    }

    /// Tells the seat of a front, as one that another seat has. Its calls are recorded behind that many entries, or not at all.
    pub fn learn(&mut self, front: Front)
        ensures { self.new ≡ sitting self.old.number self.old.receipts (max self.old.front front.0) self.old.past }
    {
        self.front = self.front.max(front.0);
    }

    /// Tells the seat of all that another one knows of the history, and no more. Its calls are recorded behind that, or not at all, and
    /// what it looks at has it.
    pub fn learn_from(&mut self, other: &Seat<L>)
        ensures { Learned L.profile self.old other.now self.new }
    {
        self.known.compare(&other.known);
        other.known.compare(&self.known);
        if self.known.len() < other.known.len() {
            self.known = other.known.again();
        }
        self.front = self.front.max(self.known.len());
    }
}
