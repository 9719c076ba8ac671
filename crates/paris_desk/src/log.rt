//! The log of a desk: its one history, of which each seat, the lock and whatever is published know a beginning. Of the entries
//! themselves it keeps nothing when it runs but how many there are.

ghost use Rattle.std.specs.Prelude.{◌≡◌, ◌+◌, ◌==◌, ◌<◌, ◌≤◌, ◌^◌, ◌++◌, ◌∷◌, ◌⊎◌, [], length, IfSome};
ghost use mathlib.Core.List.{IsPrefix};
ghost use Rattle.paris_records.specs.History.{Legal};
ghost use Rattle.paris_desk.specs.Rules.{MayFollow, head_of};

use crate::office::Office;
use logbook::{Gain, Offer, Plain, Play, Rule, Seen, Word};
use paris_records::Entry;
use std::marker::{Model, PhantomData};

/// The rule of the log: its first word is the number of its entries, of which it says no more.
pub struct Law;

impl Rule<Entry, u64> for Law {
    ghost use Rattle.std.specs.Prelude.{[]};
    ghost use base.Fml.{ftrue};
    ghost use Rattle.paris_desk.specs.Rules.{IsKept};

    ghost holds = { λ cells log. IsKept cells log };

    ghost first = { [] };

    ghost hinted = { λ n log. Unit {0} };

    ghost shows = { λ log. [] };

    ghost keeps = { λ names log. ftrue };

    ghost moves = { λ ask before after answer. Unit {0} };
}

/// Who adds an entry trades nothing for it.
pub struct Nothing;

impl Gain<Entry, u64> for Nothing {
    ghost use base.Fml.{ftrue};

    ghost after = { λ names about answer. ftrue };
}

/// The step that adds an entry.
pub struct Add;

impl Play<Entry, u64> for Add {
    ghost use Rattle.paris_desk.specs.Rules.{Adds};

    ghost then = { Adds };
}

impl Plain<Entry, Entry, u64> for Add {
    ghost use Rattle.std.specs.Prelude.{None};

    ghost ask = { λ entry. entry };

    ghost state = { λ entry. None };
}

/// The word that holds the length of the desk's log.
#[derive(Drop)]
pub struct Head<L: Office> {
    pub(crate) head: Word<Entry, u64, Law>,
    pub(crate) of: PhantomData<L>,
    ghost head_is: { head ≡ head_of L.log },
}

/// A beginning of the desk's history, as long as was known of it. A clause sees its entries.
#[derive(Drop)]
pub struct Known<L: Office> {
    pub(crate) count: u64,
    pub(crate) seen: Seen<Entry, u64, Law>,
    pub(crate) of: PhantomData<L>,
}

impl<L: Office> Model for Known<L> {
    ghost use Rattle.std.specs.Prelude.{◌≡◌, List, length};
    ghost use Rattle.paris_records.specs.declared.records.Entry.{Entry};
    ghost use Rattle.paris_records.specs.History.{Legal};

    ghost Value = { List Entry };

    ghost view = { λ k. k.seen.log };

    ghost invariant = { λ k. (k.count ≡ length k.seen.log) × (k.seen.book ≡ L.log) × Legal L.profile k.seen.log };
}

impl<L: Office> Known<L> {
    /// How many entries it has.
    pub fn len(&self) -> u64
        ensures count { result ≡ length self.now }
        ensures legal { Legal L.profile self.now }
    {
        self.count
    }

    /// The same knowledge once more.
    pub fn again(&self) -> Known<L>
        ensures { result ≡ self.now }
    {
        Known {
            count: self.count,
            seen: self.seen.again(),
            of: PhantomData,
        }
    }

    /// Compares two beginnings of the one history, of which the shorter begins the longer. When it runs it does nothing.
    pub fn compare(&self, other: &Known<L>)
        ensures { length self.now ≤ length other.now → IsPrefix self.now other.now }
    {
        let mut both = self.seen.again();
        both.learn(&other.seen);
        let _ = self.count + 0 * other.count;
    }

    /// Adds an entry behind all that is known, where that is the whole history. `None` where it isn't.
    pub(crate) fn add(&self, head: &Head<L>, entry: &Entry) -> Option<Known<L>>
        requires room { length self.now < 2 ^ 62 }
        requires legal { MayFollow L.profile self.now entry.now }
        ensures { IfSome result (λ known. known ≡ self.now ++ entry.now ∷ []) }
    {
        let mut seen = self.seen.again();
        let mut offer: Offer<Entry, u64, Law, Nothing> = seen.plain::<Nothing, Entry, Add>(entry);
        let mut pen = seen.no_pen();
        let count = self.count;
        let found = head
            .head
            .compare_exchange::<Add, Nothing>(count, count + 1, &mut seen, &mut offer, &mut pen);
        if found != count {
            return None;
        }
        Some(Known {
            count: count + 1,
            seen,
            of: PhantomData,
        })
    }
}
