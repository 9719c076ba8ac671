//! A seat that is reading what a desk published.

ghost use Rattle.std.specs.Prelude.{◌≡◌, length, Err, IsOk, MatchOption, MatchResult};
ghost use Rattle.paris_events.specs.Show.{show_reply};
ghost use Rattle.paris_records.specs.History.{state_of};
ghost use Rattle.paris_desk.specs.Seats.{SeatState, sitting};
ghost use Rattle.paris_view.specs.Entering.{IsUnmet};
ghost use Rattle.paris_view.specs.Looks.{Looked};

use paris_book::Book;
use paris_desk::{DeskReading, Known, Looker, Office, OneLog, Rest, Seat};
use paris_names::{Fault, KeyName, Spot};
use std::marker::Model;

/// Why a seat doesn't read.
#[derive(Clone, Copy)]
pub(crate) enum Unmet {
    /// Nothing is published that has all of its past.
    Nothing,
    /// It was told of so many entries, and meets fewer, namely so many.
    Short(u64, u64),
}

/// A seat that is reading. It can't be dropped: it is ended by `leave`. A clause sees the seat, whose past is the history that led
/// to the book.
pub(crate) struct Entered<L: Office> {
    rest: Rest<L>,
    number: u64,
    known: Known<L>,
    reading: DeskReading<L>,
}

impl<L: Office> Model for Entered<L> {
    ghost use Rattle.std.specs.Prelude.{◌≡◌, ◌≤◌, length};
    ghost use mathlib.Core.List.{IsPrefix};
    ghost use Rattle.paris_records.specs.History.{state_of};
    ghost use Rattle.paris_desk.specs.Seats.{SeatState, sitting};

    ghost Value = { SeatState };

    ghost view = { λ s. sitting s.rest.number s.rest.receipts (length s.known) s.known };

    ghost invariant = { λ s. (s.number ≡ s.rest.number) × (s.rest.front ≤ length s.known) × IsPrefix s.rest.past s.known × (s.reading.part.value.history ≡ s.known) × (s.reading.part.value.state ≡ state_of L.profile s.known) };
}

/// Begins to read.
pub(crate) fn enter<L: Office>(seat: Seat<L>) -> Result<Entered<L>, (Seat<L>, Unmet)>
    ensures { MatchResult result (λ entered. Looked L.profile seat entered) (λ e. IsUnmet L.profile seat e.0 e.1) }
{
    let (looker, rest) = seat.part();
    let Looker {
        number,
        known,
        reader,
    } = looker;
    let reading = match reader.enter_as::<OneLog<L>>() {
        Ok(reading) => reading,
        Err(reader) => {
            let looker = Looker {
                number,
                known,
                reader,
            };
            return Err((Seat::join(looker, rest), Unmet::Nothing));
        }
    };
    let met = reading.get().past::<L>();
    let count = met.len();
    if count < known.len() {
        let looker = Looker {
            number,
            known,
            reader: reading.leave(),
        };
        return Err((Seat::join(looker, rest), Unmet::Nothing));
    }
    known.compare(&met);
    let front = rest.front().0;
    if front > count {
        let looker = Looker {
            number,
            known: met,
            reader: reading.leave(),
        };
        return Err((Seat::join(looker, rest), Unmet::Short(front, count)));
    }
    Ok(Entered {
        rest,
        number,
        known: met,
        reading,
    })
}

impl<L: Office> Entered<L> {
    /// The book.
    pub(crate) fn book(&self) -> &Book
        ensures { result.now ≡ state_of L.profile self.now.past }
    {
        self.reading.get().book()
    }

    /// Why there is nothing to look at.
    pub(crate) fn refusal(&self, name: &KeyName, spot: Spot) -> Option<Fault>
        ensures { MatchOption result (IsOk (show_reply (state_of L.profile self.now.past) name.now spot)) (λ fault. Err fault ≡ show_reply (state_of L.profile self.now.past) name.now spot) }
    {
        match self.book().show(*name, spot) {
            Ok(_) => None,
            Err(fault) => Some(fault),
        }
    }

    /// Ends the reading.
    pub(crate) fn leave(self) -> Seat<L>
        ensures { result ≡ self }
    {
        let Entered {
            rest,
            number,
            known,
            reading,
        } = self;
        let looker = Looker {
            number,
            known,
            reader: reading.leave(),
        };
        Seat::join(looker, rest)
    }
}
