//! Sittings: two seats in turn, a history that is full, a new chapter, and audits.

use crate::steps::Step::*;
use crate::steps::{Step, is_full, play, shows, waits};
use paris_book::Book;
use paris_ledger::Ledger;
use std::alloc::{AllocError, Global};
use std::process::Abort;

/// A sum, up to the order for its row: each kind of edit, and an edit that is refused.
const BEGINS: &[(u64, Step)] = &[
    (0, Says(b"set s 4")),
    (0, Says(b"field a s 8")),
    (1, Says(b"field b s 8")),
    (0, Says(b"field a s 8")),
    (1, Says(b"field c s 8")),
    (1, Says(b"input a 0 1 2 3 4")),
    (0, Says(b"input b 0 10 20 30 40")),
    (1, Says(b"insert end u-add-3-1L c a b 8")),
    (0, Says(b"insert end u-add-3-1L a a b 8")),
    (0, Says(b"replace 2 u-add-3-1L b b a 8")),
    (1, Says(b"delete 2")),
    (1, Says(b"show c end")),
];

/// An order that is lost and given up, one whose result is kept, and looks.
const SETTLES: &[(u64, Step)] = &[
    (1, Takes),
    (0, Says(b"release")),
    (1, Takes),
    (1, Brings),
    (0, Says(b"show c end")),
    (0, Says(b"show d end")),
    (1, Says(b"list")),
    (0, Takes),
];

const SUMS: &[u128] = &[11, 22, 33, 44];

fn is_audited(ledger: &Ledger) -> Result<bool, AllocError> {
    ledger.audit()
}

/// A look at what is pending stays as it is while the row is settled.
fn sits(
    rt: &impl Abort,
    alloc: Global,
    ledger: &mut Ledger,
    beside: &mut Book,
) -> Result<bool, AllocError> {
    play(rt, alloc, ledger, beside, BEGINS)?;
    let still = ledger.look()?;
    play(rt, alloc, ledger, beside, SETTLES)?;
    Ok(waits(&still, b"c") && shows(ledger.book(), b"c", SUMS)? && ledger.len() == 20)
}

/// Of 20 entries there is none of the number 0, and none above the last one.
fn has_no_others(ledger: &Ledger) -> bool {
    ledger.entry(0).is_none()
        && ledger.entry(21).is_none()
        && ledger.entry(u64::MAX).is_none()
        && ledger.entry(1).is_some()
        && ledger.entry(20).is_some()
}

/// A new chapter begins at the present state, and is audited from there.
fn goes_on(
    rt: &impl Abort,
    alloc: Global,
    ledger: &mut Ledger,
    beside: &mut Book,
) -> Result<bool, AllocError> {
    ledger.cut()?;
    let is_new = ledger.is_empty() && shows(ledger.book(), b"c", SUMS)?;
    play(rt, alloc, ledger, beside, &[(1, Says(b"show c end"))])?;
    Ok(is_new && ledger.len() == 1 && is_audited(ledger)?)
}

/// A call past the last entry that there may be is refused, and leaves the history. A new chapter has room again.
fn fills(
    rt: &impl Abort,
    alloc: Global,
    ledger: &mut Ledger,
    beside: &mut Book,
) -> Result<bool, AllocError> {
    play(rt, alloc, ledger, beside, BEGINS)?;
    let was_full = is_full(ledger, 12) && ledger.len() == 12 && is_audited(ledger)?;
    ledger.cut()?;
    play(rt, alloc, ledger, beside, SETTLES)?;
    Ok(was_full && shows(ledger.book(), b"c", SUMS)? && ledger.len() == 8)
}

/// What is done at a ledger that is new.
#[derive(Clone, Copy)]
enum Sitting {
    /// Two seats sit in turn. A new chapter begins behind it, and both are audited.
    InTurn,
    /// There may be 12 entries, and another one is tried.
    Full,
    /// No entry may be made.
    NoEntry,
}

impl Sitting {
    fn limit(self) -> u64 {
        match self {
            Sitting::InTurn => 20,
            Sitting::Full => 12,
            Sitting::NoEntry => 0,
        }
    }

    fn is_played(
        self,
        rt: &impl Abort,
        alloc: Global,
        ledger: &mut Ledger,
        beside: &mut Book,
    ) -> Result<bool, AllocError> {
        match self {
            Sitting::InTurn => Ok(
                sits(rt, alloc, ledger, beside)?
                    && has_no_others(ledger)
                    && is_audited(ledger)?
                    && goes_on(rt, alloc, ledger, beside)?,
            ),
            Sitting::Full => fills(rt, alloc, ledger, beside),
            Sitting::NoEntry => {
                Ok(is_full(ledger, 0) && ledger.is_empty() && is_audited(ledger)?)
            }
        }
    }
}

/// Whether all is as it has to be at a new ledger. (What has a ledger of its own ends at one place.)
fn is_held(rt: &impl Abort, alloc: Global, sitting: Sitting) -> Result<bool, AllocError> {
    let mut beside = Book::new(alloc);
    let mut ledger = Ledger::new(alloc, &beside, sitting.limit())?;
    sitting.is_played(rt, alloc, &mut ledger, &mut beside)
}

#[test]
fn seats_sit_in_turn(rt: HostRuntime) -> Result<(), AllocError> {
    let is_so = is_held(&rt, rt.alloc(), Sitting::InTurn)?;
    assert!(rt; is_so);
    Ok(())
}

#[test]
fn a_history_is_full(rt: HostRuntime) -> Result<(), AllocError> {
    let is_so = is_held(&rt, rt.alloc(), Sitting::Full)?;
    assert!(rt; is_so);
    Ok(())
}

#[test]
fn no_entry_may_be_made(rt: HostRuntime) -> Result<(), AllocError> {
    let is_so = is_held(&rt, rt.alloc(), Sitting::NoEntry)?;
    assert!(rt; is_so);
    Ok(())
}
