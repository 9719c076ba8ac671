//! A session with the reply to its last line, as C calls it.

ghost use Rattle.std.specs.Prelude.{◌≡◌, ◌⊎◌, ◌^◌, [], false, Some, nat_lt};
ghost use Rattle.paris_events.specs.State.{empty_state_of};
ghost use Rattle.paris_session.specs.Hands.{is_skipped};
ghost use Rattle.paris_session.specs.Transcript.{start, with_book, answer};
ghost use Rattle.paris_c.specs.Calls.{IsFull, IsPartlyAnswered, IsSettled, IsPartlySettled};
ghost use Rattle.paris_c.specs.declared.statuses.TheConstants.{OK, NO_MEMORY, TOO_MANY, PARTLY};

use crate::statuses::{NO_MEMORY, OK, PARTLY, TOO_MANY};
use paris_names::Profile;
use paris_session::{Alone, NoReply, Session};
use std::alloc::Global;

/// A session, and the reply to its last line.
#[derive(Drop)]
pub struct Contents {
    pub session: Session,
    pub reply: Vec<u8>,
}

impl Contents {
    /// Contents whose session begins.
    pub(crate) fn new(alloc: Global) -> Contents
        ensures session { result.session ≡ start }
        ensures reply { result.reply.items ≡ [] }
    {
        Contents {
            session: Session::new(alloc),
            reply: Vec::new(alloc),
        }
    }

    /// Contents whose session has an empty book of a profile.
    pub(crate) fn with_profile(alloc: Global, profile: Profile) -> Contents
        ensures session { result.session ≡ with_book start (empty_state_of profile 0) [] }
        ensures reply { result.reply.items ≡ [] }
    {
        Contents {
            session: Session::with_profile(alloc, profile),
            reply: Vec::new(alloc),
        }
    }

    /// Whether the session can count one more command.
    fn has_room(&self) -> bool
        ensures { result ≡ nat_lt self.now.session.hand.commands (2 ^ 62) }
    {
        self.session.summary().commands < 1 << 62
    }

    /// Answers a line, and keeps the reply.
    pub(crate) fn answer(&mut self, line: &[u8]) -> u32
        ensures answered { result ≡ OK → (self.new.session, self.new.reply.items) ≡ answer self.old.session line.now }
        ensures kept { (result ≡ NO_MEMORY) ⊎ (result ≡ TOO_MANY) → self.new ≡ self.old }
        ensures memory { result ≡ NO_MEMORY → is_skipped line.now ≡ false }
        ensures full { result ≡ TOO_MANY → IsFull (Some self.old) }
        ensures partly { result ≡ PARTLY → IsPartlyAnswered (Some self.old) (Some self.new) line.now }
        ensures status { (result ≡ OK) ⊎ ((result ≡ NO_MEMORY) ⊎ ((result ≡ TOO_MANY) ⊎ (result ≡ PARTLY))) }
    {
        if !self.has_room() {
            return TOO_MANY;
        }
        match self.session.answer(&Alone, line) {
            Ok(text) => {
                self.reply = text;
                OK
            }
            Err(NoReply::Unchanged) => NO_MEMORY,
            Err(NoReply::Partly) => PARTLY,
        }
    }

    /// Settles every row, and says how many orders were run. Where memory is refused, it says this too, and at least so many rows more
    /// are settled.
    pub(crate) fn settle(&mut self, ran: &mut u64) -> u32
        ensures settled { result ≡ OK → IsSettled (Some self.old) (Some self.new) ran.new }
        ensures partly { result ≡ PARTLY → IsPartlySettled (Some self.old) (Some self.new) ran.new }
        ensures status { (result ≡ OK) ⊎ (result ≡ PARTLY) }
    {
        match self.session.settle(&Alone) {
            Ok(count) => {
                *ran = count;
                OK
            }
            Err(fault) => {
                *ran = fault.ran;
                PARTLY
            }
        }
    }
}
