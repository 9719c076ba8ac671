//! What the lock's holder publishes, and readers look at with no lock.

ghost use Rattle.std.specs.Prelude.{◌≡◌, IfOk};
ghost use Rattle.std.specs.Arc.{arc_value};
ghost use Rattle.paris_records.specs.History.{Legal, state_of};
ghost use Rattle.paris_desk.specs.Rules.{posted};

use crate::log::{Known, Law};
use crate::office::Office;
use crossbeam_utils::rule::{Outcome, Protocol};
use left_right::Absorb;
use left_right::reader::{Reader, Reading};
use left_right::writer::Writer;
use logbook::Seen;
use paris_book::Book;
use paris_records::Entry;
use std::alloc::{AllocError, Global};
use std::collections::LinkedList;
use std::marker::{Model, PhantomData};
use std::sync::Arc;

/// A book, and the beginning of a log that led to it. Its type doesn't name the desk; a clause sees the log, its entries, and the
/// book's state.
#[derive(Drop)]
pub struct Published {
    book: Arc<Book, Global>,
    count: u64,
    seen: Seen<Entry, u64, Law>,
}

impl Model for Published {
    ghost use Rattle.std.specs.Prelude.{◌≡◌, length};
    ghost use Rattle.std.specs.Arc.{arc_value};
    ghost use Rattle.paris_desk.specs.Rules.{Posted};

    ghost Value = { Posted };

    ghost view = { λ p. record { log = p.seen.book; history = p.seen.log; state = arc_value p.book } };

    ghost invariant = { λ p. p.count ≡ length p.seen.log };
}

impl Published {
    /// A book with the history that led to it.
    pub(crate) fn new<L: Office>(book: Arc<Book, Global>, known: Known<L>) -> Published
        requires { arc_value book ≡ state_of L.profile known }
        ensures shown { result ≡ posted L.profile L.log known }
        ensures legal { Legal L.profile known }
    {
        let Known { count, seen, of: _ } = known;
        Published { book, count, seen }
    }

    /// The same, with the same book. The error says that the book has too many owners.
    pub(crate) fn again(&self) -> Result<Published, AllocError>
        ensures { IfOk result (λ copy. copy ≡ self.now) }
    {
        Ok(Published {
            book: Arc::try_clone(&self.book)?,
            count: self.count,
            seen: self.seen.again(),
        })
    }

    /// The history that led to the book.
    pub fn past<L: Office>(&self) -> Known<L>
        requires log { self.now.log ≡ L.log }
        requires legal { Legal L.profile self.now.history }
        ensures { result ≡ self.now.history }
    {
        Known {
            count: self.count,
            seen: self.seen.again(),
            of: PhantomData,
        }
    }

    /// The book.
    pub fn book(&self) -> &Book
        ensures { result.now ≡ self.now.state }
    {
        &self.book
    }
}

// What is appended is the whole new value.
impl Absorb<Published> for Published {
    type State = Published;

    ghost state = { λ p. p };

    ghost applied = { λ p next. next };

    fn absorb_first(
        &mut self,
        operation: &Published,
        _other: &Published,
    ) -> Result<(), AllocError> {
        *self = operation.again()?;
        Ok(())
    }
}

/// What a reader saw last. No value of it is made.
pub struct Saw {
    pub past: LinkedList<Entry>,
}

/// The rule of what is published: it is of the desk's log, its history is legal in the desk's profile and leads to the book, and it
/// begins with what each reader saw.
pub struct OneLog<L> {
    of: PhantomData<L>,
}

impl<L: Office> Protocol<Published, Saw> for OneLog<L> {
    ghost use Rattle.paris_desk.specs.Pasts.{Holds, saw};
    ghost use Rattle.std.specs.Prelude.{[]};

    ghost holds = { Holds L.profile L.log };

    ghost first = { saw [] };
}

impl<L: Office> Outcome<Published, Saw> for OneLog<L> {
    ghost use Rattle.paris_desk.specs.Pasts.{Sees};

    ghost then = { Sees L.profile L.log };
}

/// Who looks.
pub type DeskReader<L> = Reader<Published, Saw, OneLog<L>>;

/// Who is looking.
pub type DeskReading<L> = Reading<Published, Saw, OneLog<L>>;

/// Who publishes.
pub type DeskWriter<L> = Writer<Published, Published, Saw, OneLog<L>>;
