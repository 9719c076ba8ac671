//! Looks.

ghost use Rattle.std.specs.Prelude.{◌≡◌, Ok, Err, IsOk, IfOk, IfErr, MatchOption};
ghost use Rattle.paris_events.specs.Show.{show_reply};
ghost use Rattle.paris_book.specs.Among.{look_shown};
ghost use Rattle.paris_book.specs.Laws.{NowIsDirect};
ghost use Rattle.paris_records.specs.History.{state_of};
ghost use Rattle.paris_view.specs.Entering.{fault_of};
ghost use Rattle.paris_view.specs.Looks.{Held as HeldSeat, Looked, Missed};

use crate::entered::{Entered, Unmet, enter};
use paris_book::Look;
use paris_desk::{Desk, Office, Seat};
use paris_names::{Fault, KeyName, Spot};
use std::marker::{Model, PhantomData};

/// What seats look at: a desk.
#[derive(Drop)]
pub struct View<'a, L: Office> {
    desk: &'a Desk<L>,
}

/// A seat with what it looks at. It can't be dropped: it is ended by `end`. A clause sees the seat, and the answer of the look.
pub struct Held<'a, L: Office> {
    entered: Entered<L>,
    name: KeyName,
    spot: Spot,
    of: PhantomData<&'a Desk<L>>,
}

impl<'a, L: Office> Model for Held<'a, L> {
    ghost use Rattle.std.specs.Prelude.{◌≡◌, IsOk};
    ghost use Rattle.paris_events.specs.Show.{show_reply};
    ghost use Rattle.paris_records.specs.History.{state_of};
    ghost use Rattle.paris_view.specs.Looks.{Held as HeldSeat};

    ghost Value = { HeldSeat };

    ghost view = { λ h. record { seat = h.entered; answer = show_reply (state_of L.profile h.entered.past) h.name h.spot } };

    ghost invariant = { λ h. IsOk (show_reply (state_of L.profile h.entered.past) h.name h.spot) };
}

/// The fault of a seat that doesn't read.
fn fault_of(unmet: Unmet) -> Fault
    ensures { result ≡ fault_of unmet }
{
    match unmet {
        Unmet::Nothing => Fault::NoEntry,
        Unmet::Short(front, length) => Fault::StrangeSeat(front, length),
    }
}

impl<'a, L: Office> View<'a, L> {
    /// A view of a desk.
    pub fn new(desk: &'a Desk<L>) -> View<'a, L> {
        View { desk }
    }

    /// Looks at a key at a place of the program, in the book as it was published last. That is the book after a legal history, which
    /// begins with the seat's past, and is its past then. It is refused by `NoEntry` where no such book is met, then by `StrangeSeat`
    /// where the seat was told of more entries than that history has, then by `NoField` or `NoRow` where there is nothing to look at.
    /// It takes no memory and no lock, and waits for nobody.
    pub fn look(
        &self,
        seat: Seat<L>,
        name: KeyName,
        spot: Spot,
    ) -> Result<Held<'a, L>, (Seat<L>, Fault)>
        ensures met { IfOk result (λ held. Looked L.profile seat held.seat) }
        ensures answer { IfOk result (λ held. held.answer ≡ show_reply (state_of L.profile held.seat.past) name spot) }
        ensures missed { IfErr result (λ e. Missed L.profile name spot seat e.0 e.1) }
    {
        let entered = match enter(seat) {
            Ok(entered) => entered,
            Err((seat, unmet)) => return Err((seat, fault_of(unmet))),
        };
        let refused = entered.refusal(&name, spot);
        if let Some(fault) = refused {
            return Err((entered.leave(), fault));
        }
        Ok(Held {
            entered,
            name,
            spot,
            of: PhantomData,
        })
    }
}

impl<'a, L: Office> Held<'a, L> {
    /// What the key holds. Its value is lent.
    pub fn look(&self) -> Look<'_>
        ensures { Ok (look_shown result) ≡ self.now.answer }
    {
        match self.entered.book().show(self.name, self.spot) {
            Ok(look) => look,
            Err(_) => unreachable!(),
        }
    }

    /// The run of the program that is looked at is the one in which each instruction sees the whole world, at each place. It changes
    /// nothing: what it ensures is the law.
    pub fn now_is_direct(&self)
        ensures { NowIsDirect (state_of L.profile self.now.seat.past) }
    {
        self.entered.book().now_is_direct();
    }

    /// Ends the look.
    pub fn end(self) -> Seat<L>
        ensures { result ≡ self.entry.seat }
    {
        let Held {
            entered,
            name: _,
            spot: _,
            of: _,
        } = self;
        entered.leave()
    }
}
