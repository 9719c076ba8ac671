//! Events of a book, one and then any list of them.

ghost use Rattle.std.specs.Prelude.{◌≡◌, ◌<◌, ◌≤◌, ◌++◌, ◌∷◌, [], take, length, slice_get, vec_len, vec_capacity, None, Some, true, IfOk, IfErr, OnOk, OnErr};
ghost use Rattle.paris_events.specs.Show.{show_reply};
ghost use Rattle.paris_events.specs.Edits.{edit_fault};
ghost use Rattle.paris_events.specs.Events.{reply_to, after, replies_to, after_all, has_value, grows};
ghost use Rattle.paris_events.specs.declared.events.Event.{Event as AnyEvent};
ghost use Rattle.paris_events.specs.declared.events.Event.TheVariants as EventCase;

use crate::book::Book;
use crate::look::SharedLook;
use paris_edits::Edit;
use paris_events::{Event, Reply, Shown};
use paris_names::{Items, KeyName, Spot};
use std::alloc::AllocError;

/// Adds a reply, for which there is room.
fn push_reply(replies: &mut Vec<Reply>, reply: Reply)
    requires { vec_len replies.old < vec_capacity replies.old }
    ensures items { replies.new.items ≡ replies.old.items ++ reply ∷ [] }
    ensures capacity { vec_capacity replies.old ≤ vec_capacity replies.new }
{
    match replies.push(reply) {
        Ok(()) => {}
        Err(_) => unreachable!(),
    }
}

impl Book {
    /// An edit as an event.
    fn step_edit(&mut self, edit: &Edit) -> Result<Reply, AllocError>
        ensures reply { IfOk result (λ reply. reply ≡ reply_to self.old (EventCase.Edit edit.now)) }
        ensures state { OnOk result (self.new ≡ after self.old (EventCase.Edit edit.now)) }
        ensures err { OnErr result (self.new ≡ self.old) }
        ensures due { OnErr result (edit_fault self.old edit.now ≡ None) }
    {
        match self.apply(edit) {
            Ok(answer) => Ok(Reply::Edit(Ok(answer))),
            Err(fault) => {
                if fault.is_no_memory() {
                    return Err(AllocError);
                }
                Ok(Reply::Edit(Err(fault)))
            }
        }
    }

    /// A look as an event, whose reply shares the value.
    fn step_show(&self, name: &KeyName, spot: &Spot) -> Result<Reply, AllocError>
        ensures reply { IfOk result (λ reply. reply ≡ reply_to self.now (EventCase.Show name.now spot.now)) }
        ensures value { OnErr result (has_value (show_reply self.now name.now spot.now) ≡ true) }
    {
        match self.shared_look(*name, *spot) {
            Err(fault) => Ok(Reply::Show(Err(fault))),
            Ok(SharedLook::Pending(id)) => Ok(Reply::Show(Ok(Shown::Pending(id)))),
            Ok(SharedLook::Settled(value)) => Ok(Reply::Show(Ok(Shown::Settled(value.copy()?)))),
        }
    }

    /// One event. The error says that memory for it was refused, and hands the event back; the book is as it was. A refused edit, a
    /// take where no row is ready, a result, a release and a look at a row that is to be settled need no memory.
    pub fn step(&mut self, event: Event) -> Result<Reply, (Event, AllocError)>
        ensures reply { IfOk result (λ reply. reply ≡ reply_to self.old event) }
        ensures state { OnOk result (self.new ≡ after self.old event) }
        ensures err { IfErr result (λ e. (e.0 ≡ event) × (self.new ≡ self.old)) }
        ensures grows { OnErr result (grows self.old event ≡ true) }
    {
        match event {
            Event::Edit(edit) => match self.step_edit(&edit) {
                Ok(reply) => Ok(reply),
                Err(refused) => Err((Event::Edit(edit), refused)),
            },
            Event::Take => match self.take() {
                Ok(order) => Ok(Reply::Take(order)),
                Err(refused) => Err((Event::Take, refused)),
            },
            Event::Bring(done) => Ok(Reply::Bring(self.bring(done))),
            Event::Release => {
                self.release();
                Ok(Reply::Release)
            }
            Event::Show(name, spot) => match self.step_show(&name, &spot) {
                Ok(reply) => Ok(reply),
                Err(refused) => Err((Event::Show(name, spot), refused)),
            },
            Event::List => match self.list() {
                Ok(looks) => Ok(Reply::List(looks)),
                Err(refused) => Err((Event::List, refused)),
            },
        }
    }

    /// Any list of events, in order. The error says that memory was refused: it holds the replies so far, and the book is that
    /// after the events of these. Room for all replies is asked for first; behind the first reply the next event is one that takes memory.
    pub fn run_events(
        &mut self,
        events: Vec<Event>,
    ) -> Result<Items<Reply>, (Items<Reply>, AllocError)>
        ensures replies { IfOk result (λ replies. replies ≡ replies_to self.old events.items) }
        ensures state { OnOk result (self.new ≡ after_all self.old events.items) }
        ensures err { IfErr result (λ e. (e.0 ≡ replies_to self.old (take (length e.0) events.items))
            × (self.new ≡ after_all self.old (take (length e.0) events.items))) }
        ensures fewer { IfErr result (λ e. length e.0 < length events.items) }
        ensures grows { IfErr result (λ e. (next : AnyEvent) → 0 < length e.0 → slice_get events.items (length e.0) ≡ Some next
            → grows self.new next ≡ true) }
    {
        let mut replies = Vec::new(self.loose.allocator());
        if let Err(refused) = replies.reserve(events.len()) {
            return Err((Items::new(replies), refused));
        }
        for event in events {
            match self.step(event) {
                Ok(reply) => push_reply(&mut replies, reply),
                Err((_, refused)) => return Err((Items::new(replies), refused)),
            }
        }
        Ok(Items::new(replies))
    }
}
