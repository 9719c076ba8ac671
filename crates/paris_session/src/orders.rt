//! Orders, results and snapshots of a session, with no line that says so. They are no commands: they leave the counts and the tray.

ghost use Rattle.std.specs.Prelude.{◌≡◌, None, is_some, IsSome, IfSome, IfOk, OnErr};
ghost use Rattle.paris_events.specs.Orders.{take_reply, after_take, after_release};
ghost use Rattle.paris_events.specs.Results.{verdict_of, after_bring};
ghost use Rattle.paris_events.specs.Settling.{unsettled_rows};
ghost use Rattle.paris_session.specs.Transcript.{with_book};

use crate::answers::Session;
use paris_edits::Verdict;
use paris_exec::{Done, Order};
use std::alloc::AllocError;

impl Session {
    /// An order for the first row that waits and whose keys read all have the start or a settled row as origin. It gets no number.
    /// `None` where there is no such row: then the session is as it was, and no memory is taken. The error says that memory for the
    /// order was refused.
    pub fn take(&mut self) -> Result<Option<Order>, AllocError>
        ensures order { IfOk result (λ order. order ≡ take_reply self.old.state) }
        ensures taken { IfOk result (λ order. IfSome order (λ _.
            self.new ≡ with_book self.old (after_take self.old.state) self.old.hand.tray)) }
        ensures none { IfOk result (λ order. order ≡ None → self.new ≡ self.old) }
        ensures err { OnErr result (self.new ≡ self.old) }
        ensures ready { OnErr result (IsSome (take_reply self.old.state)) }
    {
        let Some(order) = self.book.take()? else {
            return Ok(None);
        };
        self.hand.begin();
        Ok(Some(order))
    }

    /// Whether a row is ready, so that a take would give an order. It takes no memory.
    pub fn has_ready(&self) -> bool
        ensures { result ≡ is_some (take_reply self.now.state) }
    {
        self.book.has_ready()
    }

    /// Brings a result, and settles its row where it belongs to the present program and the present input data, with the rows that
    /// are cut off then. It takes no memory.
    pub fn bring(&mut self, done: Done) -> Verdict
        ensures answer { result ≡ verdict_of self.old.state done }
        ensures state { self.new ≡ with_book self.old (after_bring self.old.state done) self.old.hand.tray }
    {
        self.hand.begin();
        self.book.bring(done)
    }

    /// Gives up the orders that are out: every row that is out waits, with its edition. It takes no memory.
    pub fn release(&mut self)
        ensures { self.new ≡ with_book self.old (after_release self.old.state) self.old.hand.tray }
    {
        self.hand.begin();
        self.book.release();
    }

    /// A session in the same state: with the same book, orders in its tray and counts. It shares all values with this one. What is
    /// done with either session later leaves the other as it is. The error says that memory was refused.
    pub fn snapshot(&self) -> Result<Session, AllocError>
        ensures { IfOk result (λ session. session ≡ self.now) }
    {
        let book = self.book.snapshot()?;
        let hand = self.hand.copy()?;
        Ok(Session { book, hand })
    }

    /// How many rows are unsettled.
    pub fn unsettled(&self) -> usize
        ensures { result ≡ unsettled_rows self.now.state.rows }
    {
        self.book.unsettled_count()
    }
}
