//! The history of a chapter, and the book that it leads to.

ghost use Rattle.std.specs.Prelude.{◌≡◌, ◌↔◌, ◌<◌, ◌==◌, [], length, option_map, true, IsTrue, IfOk, IfErr, OnOk, OnErr};
ghost use Rattle.std.specs.Arc.{arc_value};
ghost use Rattle.paris_events.specs.Events.{reply_to};
ghost use Rattle.paris_records.specs.History.{LegalFrom};
ghost use Rattle.paris_ledger.specs.Ledgers.{chapter, entry_numbered, present, with_entry};
ghost use Rattle.paris_ledger.specs.Refusals.{IsRefused};

use crate::making::{Made, make};
use paris_audit::are_answered;
use paris_book::Book;
use paris_events::{Event, Reply};
use paris_names::Fault;
use paris_records::Entry;
use std::alloc::{AllocError, Global};
use std::marker::Model;
use std::sync::Arc;

/// A book with the history that led to it, from the state at which the chapter begins. A clause sees that state, the history, and how many
/// entries it may have.
#[derive(Drop)]
pub struct Ledger {
    first: Book,
    book: Arc<Book, Global>,
    history: Vec<Entry>,
    limit: u64,
    alloc: Global,
}

impl Model for Ledger {
    ghost use Rattle.std.specs.Prelude.{◌≡◌};
    ghost use Rattle.std.specs.Arc.{arc_value};
    ghost use Rattle.paris_records.specs.History.{LegalFrom};
    ghost use Rattle.paris_ledger.specs.Ledgers.{Chapter, chapter, state_from};

    ghost Value = { Chapter };

    ghost view = { λ l. chapter l.first l.history.items l.limit };

    ghost invariant = { λ l. LegalFrom l.first l.history.items × (arc_value l.book ≡ state_from l.first l.history.items) };
}

/// Whether a history is legal from a book's state on.
fn is_legal_from(first: &Book, history: &[Entry]) -> Result<bool, AllocError>
    ensures { IfOk result (λ answer. IsTrue answer ↔ LegalFrom first.now history.now) }
{
    let mut book = first.snapshot()?;
    are_answered(&mut book, history)
}

impl Ledger {
    /// A ledger whose chapter begins at the state of a book, with no entry. There may be as many as the limit.
    pub fn new(alloc: Global, book: &Book, limit: u64) -> Result<Ledger, AllocError>
        ensures { IfOk result (λ ledger. ledger ≡ chapter book.now [] limit) }
    {
        let first = book.snapshot()?;
        let next = book.snapshot()?;
        Ok(Ledger {
            first,
            book: Arc::new(alloc, next)?,
            history: Vec::new(alloc),
            limit,
            alloc,
        })
    }

    /// How many entries the chapter has.
    pub fn len(&self) -> usize
        ensures { result ≡ length self.now.history }
    {
        self.history.len()
    }

    /// Whether the chapter has no entry.
    pub fn is_empty(&self) -> bool
        ensures { result ≡ (length self.now.history == 0) }
    {
        self.history.len() == 0
    }

    /// The entry of a number, which counts from 1.
    pub fn entry(&self, number: u64) -> Option<&Entry>
        ensures { option_map (λ entry. entry.now) result ≡ entry_numbered self.now.history number }
    {
        if number == 0 {
            return None;
        }
        self.history.as_slice().get((number - 1) as usize)
    }

    /// The book as it is.
    pub fn book(&self) -> &Book
        ensures { result.now ≡ present self.now }
    {
        &self.book
    }

    /// The book as it is, which who has it may keep: later calls don't change it. The error says that it has too many owners.
    pub fn look(&self) -> Result<Arc<Book, Global>, AllocError>
        ensures { IfOk result (λ book. arc_value book ≡ present self.now) }
    {
        Arc::try_clone(&self.book)
    }

    /// A call of a seat. It is recorded: the next entry of the history holds the seat, the event and the machine's reply, which is
    /// answered. Or it is refused, and the event comes back: by `HistoryFull` where there are as many entries as the limit, else by
    /// `NoMemory` where memory is refused.
    pub fn call(&mut self, seat: u64, event: Event) -> Result<Reply, (Event, Fault)>
        ensures recorded { IfOk result (λ reply. (reply ≡ reply_to (present self.old) event) × (self.new ≡ with_entry self.old seat event reply)) }
        ensures room { OnOk result (length self.old.history < self.old.limit) }
        ensures refused { IfErr result (λ e. (e.0 ≡ event) × IsRefused self.old e.1) }
        ensures same { OnErr result (self.new ≡ self.old) }
    {
        if self.history.len() as u64 >= self.limit {
            return Err((event, Fault::HistoryFull(self.limit)));
        }
        if self.history.reserve(1).is_err() {
            return Err((event, Fault::NoMemory));
        }
        let made = match make(self.alloc, &self.book, seat, &event) {
            Ok(made) => made,
            Err(_) => return Err((event, Fault::NoMemory)),
        };
        let Made { book, given, entry } = made;
        self.history.push_reserved(entry);
        self.book = book;
        Ok(given)
    }

    /// Begins a new chapter: the history is empty, and begins at the present state.
    pub fn cut(&mut self) -> Result<(), AllocError>
        ensures cut { OnOk result (self.new ≡ chapter (present self.old) [] self.old.limit) }
        ensures same { OnErr result (self.new ≡ self.old) }
    {
        let first = self.book.snapshot()?;
        self.first = first;
        self.history = Vec::new(self.alloc);
        Ok(())
    }

    /// Whether all replies of the chapter are what a book answers that begins where the chapter does. They are; the error says that memory
    /// was refused. All events are made again.
    pub fn audit(&self) -> Result<bool, AllocError>
        ensures { IfOk result (λ agrees. agrees ≡ true) }
    {
        is_legal_from(&self.first, self.history.as_slice())
    }
}
