//! A seat in two parts: what a look needs, and the rest.

ghost use Rattle.std.specs.Prelude.{◌≡◌, ◌≤◌, max, length};
ghost use Rattle.paris_desk.specs.Pasts.{Joined};
ghost use Rattle.paris_desk.specs.Seats.{SeatState, sitting};

use crate::log::Known;
use crate::office::Office;
use crate::published::DeskReader;
use crate::seat::Seat;
use paris_records::{Front, Receipt};
use std::marker::Model;
use std::sync::ledger::Share;

/// What a look needs of a seat: its reader, and its past.
#[derive(Drop)]
pub struct Looker<L: Office> {
    pub number: u64,
    pub known: Known<L>,
    pub reader: DeskReader<L>,
}

/// What a look leaves of a seat. A clause sees the seat.
#[derive(Drop)]
pub struct Rest<L: Office> {
    number: u64,
    receipts: Vec<Receipt>,
    front: u64,
    share: Share<L>,
    known: Known<L>,
}

impl<L: Office> Model for Rest<L> {
    ghost use Rattle.std.specs.Prelude.{◌≡◌, ◌≤◌, length};
    ghost use Rattle.paris_records.specs.Receipts.{IsPart};
    ghost use Rattle.paris_desk.specs.Seats.{SeatState, sitting};

    ghost Value = { SeatState };

    ghost view = { λ s. sitting s.number s.receipts.items s.front s.known };

    ghost invariant = { λ s. (s.share.parts ≡ 1)
        × (s.share.amount ≡ length s.receipts.items)
        × (length s.known ≤ s.front)
        × IsPart s.number 0 s.receipts.items s.known };
}

impl<L: Office> Looker<L> {
    /// The number of the seat.
    pub fn number(&self) -> u64
        ensures { result ≡ self.now.number }
    {
        self.number
    }
}

impl<L: Office> Rest<L> {
    /// The number of the seat.
    pub fn number(&self) -> u64
        ensures { result ≡ self.now.number }
    {
        self.number
    }

    /// How many entries of the history the seat has been told of.
    pub fn front(&self) -> Front
        ensures { result.0 ≡ self.now.front }
    {
        Front(self.front)
    }
}

impl<L: Office> Seat<L> {
    /// The seat in two parts. Both know its past.
    pub fn part(self) -> (Looker<L>, Rest<L>)
        ensures looker { (result.0.number ≡ self.number) × (result.0.known ≡ self.past) }
        ensures rest { result.1 ≡ self }
        ensures within { length self.past ≤ self.front }
    {
        let Seat {
            number,
            receipts,
            front,
            share,
            known,
            reader,
        } = self;
        let looker = Looker {
            number,
            known: known.again(),
            reader,
        };
        let rest = Rest {
            number,
            receipts,
            front,
            share,
            known,
        };
        (looker, rest)
    }

    /// A seat of two parts. Its past is what either part knows, and its front is no less than that is long.
    pub fn join(looker: Looker<L>, rest: Rest<L>) -> Seat<L>
        requires { looker.number ≡ rest.number }
        ensures { Joined looker.known rest result }
    {
        let Looker {
            number,
            known: past,
            reader,
        } = looker;
        let Rest {
            number: _,
            receipts,
            front,
            share,
            known,
        } = rest;
        past.compare(&known);
        known.compare(&past);
        let known = if past.len() < known.len() {
            known
        } else {
            past
        };
        Seat {
            number,
            receipts,
            front: front.max(known.len()),
            share,
            known,
            reader,
        }
    }
}
