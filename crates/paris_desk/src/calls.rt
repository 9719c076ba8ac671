//! The calls of a seat. Each is one event of the book's, in one hold of the desk's lock.

ghost use Rattle.std.specs.Prelude.{◌≡◌, Ok, Err, IfOk, IfErr, OnOk, MatchBool};
ghost use Rattle.paris_events.specs.declared.events.Event.TheVariants as EventCase;
ghost use Rattle.paris_events.specs.declared.events.Reply.TheVariants as ReplyCase;
ghost use Rattle.paris_desk.specs.Calls.{Called, Unrecorded, is_unrecorded};

use crate::desk::Desk;
use crate::office::Office;
use crate::seat::Seat;
use paris_edits::{Edit, EditReply, RowLook, Verdict};
use paris_events::{Event, Reply, Shown};
use paris_exec::{Done, Order};
use paris_names::{Fault, Items, KeyName, Spot};
use std::sync::Wait;

impl<L: Office> Desk<L> {
    /// Makes an edit. `StrangeSeat`, `HistoryFull` and `NoMemory` say that the call was not recorded, every other fault that the
    /// book refused the edit.
    pub fn edit<R: Wait>(&self, rt: &R, seat: &mut Seat<L>, edit: Edit) -> Result<EditReply, Fault>
        ensures recorded { IfOk result (λ answer. Called L.profile seat.old seat.new (EventCase.Edit edit) (ReplyCase.Edit (Ok answer))) }
        ensures refused { IfErr result (λ fault. MatchBool (is_unrecorded fault)
            (Unrecorded L.limit seat.old seat.new fault)
            (Called L.profile seat.old seat.new (EventCase.Edit edit) (ReplyCase.Edit (Err fault)))) }
    {
        match self.call(rt, seat, Event::Edit(edit)) {
            Ok(Reply::Edit(answer)) => answer,
            Ok(_) => unreachable!(),
            Err((_, fault)) => Err(fault),
        }
    }

    /// Takes an order for the first row that is ready. `None` where no row is.
    pub fn take<R: Wait>(&self, rt: &R, seat: &mut Seat<L>) -> Result<Option<Order>, Fault>
        ensures recorded { IfOk result (λ order. Called L.profile seat.old seat.new EventCase.Take (ReplyCase.Take order)) }
        ensures unrecorded { IfErr result (λ fault. Unrecorded L.limit seat.old seat.new fault) }
    {
        match self.call(rt, seat, Event::Take) {
            Ok(Reply::Take(order)) => Ok(order),
            Ok(_) => unreachable!(),
            Err((_, fault)) => Err(fault),
        }
    }

    /// Brings a result. Where the call is not recorded, it comes back.
    pub fn bring<R: Wait>(
        &self,
        rt: &R,
        seat: &mut Seat<L>,
        done: Done,
    ) -> Result<Verdict, (Done, Fault)>
        ensures recorded { IfOk result (λ verdict. Called L.profile seat.old seat.new (EventCase.Bring done) (ReplyCase.Bring verdict)) }
        ensures unrecorded { IfErr result (λ e. (e.0 ≡ done) × Unrecorded L.limit seat.old seat.new e.1) }
    {
        match self.call(rt, seat, Event::Bring(done)) {
            Ok(Reply::Bring(verdict)) => Ok(verdict),
            Ok(_) => unreachable!(),
            Err((event, fault)) => match event {
                Event::Bring(done) => Err((done, fault)),
                _ => unreachable!(),
            },
        }
    }

    /// Looks at a key at a place of the program. `StrangeSeat`, `HistoryFull` and `NoMemory` say that the call was not recorded,
    /// `NoField` and `NoRow` that there is nothing to look at.
    pub fn show<R: Wait>(
        &self,
        rt: &R,
        seat: &mut Seat<L>,
        name: KeyName,
        spot: Spot,
    ) -> Result<Shown, Fault>
        ensures recorded { IfOk result (λ shown. Called L.profile seat.old seat.new (EventCase.Show name spot) (ReplyCase.Show (Ok shown))) }
        ensures refused { IfErr result (λ fault. MatchBool (is_unrecorded fault)
            (Unrecorded L.limit seat.old seat.new fault)
            (Called L.profile seat.old seat.new (EventCase.Show name spot) (ReplyCase.Show (Err fault)))) }
    {
        match self.call(rt, seat, Event::Show(name, spot)) {
            Ok(Reply::Show(answer)) => answer,
            Ok(_) => unreachable!(),
            Err((_, fault)) => Err(fault),
        }
    }

    /// Lists the rows of the program, in order.
    pub fn list<R: Wait>(&self, rt: &R, seat: &mut Seat<L>) -> Result<Items<RowLook>, Fault>
        ensures recorded { IfOk result (λ looks. Called L.profile seat.old seat.new EventCase.List (ReplyCase.List looks)) }
        ensures unrecorded { IfErr result (λ fault. Unrecorded L.limit seat.old seat.new fault) }
    {
        match self.call(rt, seat, Event::List) {
            Ok(Reply::List(looks)) => Ok(looks),
            Ok(_) => unreachable!(),
            Err((_, fault)) => Err(fault),
        }
    }

    /// Gives up the orders that are out.
    pub fn release<R: Wait>(&self, rt: &R, seat: &mut Seat<L>) -> Result<(), Fault>
        ensures recorded { OnOk result (Called L.profile seat.old seat.new EventCase.Release ReplyCase.Release) }
        ensures unrecorded { IfErr result (λ fault. Unrecorded L.limit seat.old seat.new fault) }
    {
        match self.call(rt, seat, Event::Release) {
            Ok(Reply::Release) => Ok(()),
            Ok(_) => unreachable!(),
            Err((_, fault)) => Err(fault),
        }
    }
}
