//! The name of a desk, and what a desk is opened with.

ghost use Rattle.std.specs.Prelude.{◌≡◌, []};
ghost use Rattle.paris_desk.specs.Rules.{head_of};

use crate::log::{Head, Known, Law};
use logbook::{Seen, Start, Word};
use paris_records::Entry;
use std::marker::{Brand, PhantomData};
use std::sync::ledger::{Blank, Ledger};

/// The name of one desk: its ledger, and what is fixed when the desk is made.
pub trait Office: Ledger {
    ghost use Rattle.std.specs.Prelude.{ℕ};
    ghost use Rattle.logbook.specs.Pages.{Book};
    ghost use Rattle.paris_names.specs.declared.profiles.Profile.{Profile};

    /// How many seats there are.
    ghost seats: { ℕ };

    /// The most entries of the history.
    ghost limit: { ℕ };

    /// The profile of the book.
    ghost profile: { Profile };

    /// The log of which the history is.
    ghost log: { Book };
}

impl Office for Brand {
    ghost use Rattle.paris_names.specs.declared.profiles.Profile.TheVariants.{One};

    ghost seats = { 0 };

    ghost limit = { 0 };

    ghost profile = { One };

    ghost log = { record { number = 0; log_name = 0; cells_name = 0 } };
}

/// What a desk is opened with: a ledger that has no name yet, with a part for each seat, and an empty log.
pub struct Opening {
    pub blank: Blank,
    /// What is known of the log: that it has no entry.
    pub seen: Seen<Entry, u64, Law>,
    /// The length of the log.
    pub head: Word<Entry, u64, Law>,
    pub ghost none: { seen.log ≡ [] },
    pub ghost head_is: { head ≡ head_of seen.book },
}

impl Opening {
    /// The opening of a desk with so many seats.
    pub fn new(seats: u64) -> Opening
        ensures { result.blank.parts ≡ seats }
    {
        let (seen, mut first, _second) = Seen::open(Start::alone(), 0, 0);
        Opening {
            blank: Blank::new(seats),
            seen,
            head: Word::tracked(0, &mut first),
        }
    }

    /// The ledger without its name, and the log under the desk's.
    pub(crate) fn named<L: Office>(self) -> (Blank, Head<L>, Known<L>)
        requires { self.seen.book ≡ L.log }
        ensures blank { result.0 ≡ self.blank }
        ensures known { result.2 ≡ [] }
    {
        let Opening { blank, seen, head } = self;
        let head = Head {
            head,
            of: PhantomData,
        };
        let known = Known {
            count: 0,
            seen,
            of: PhantomData,
        };
        (blank, head, known)
    }
}
