//! Tests of work: seats that take, execute and bring, by themselves and in threads.

ghost use Rattle.std.specs.Prelude.{◌≡◌, ◌≤◌};
ghost use Rattle.paris_names.specs.declared.profiles.Profile.TheVariants.{One};
ghost use Rattle.paris_records.specs.declared.limits.TheConstants.{MAX_HISTORY, MAX_SEATS};

use crate::endings::Ending::Closes;
use crate::endings::{Ending, ends};
use crate::steps::Change::{Field, Set};
use crate::steps::Step::{Accepts, Inserts, Shows};
use crate::steps::{Step, plays_alone};
use paris_desk::{Desk, Office, Opening, Seat, work};
use paris_exec::{Gate, OpenGate};
use paris_names::Spot::End;
use paris_names::{Edition, Fault, RowId};
use std::alloc::Global;
use std::marker::Brand;
use std::process::Abort;
use std::sync::Wait;
use std::sync::atomic::{AtomicBool, AtomicU64, Ordering};
use std::thread;
use std::thread::{Threads, join};
use std::time::{Clock, Duration};

/// How often a gate looks whether the other execution has entered, a millisecond apart.
const TURNS: u64 = 10_000;

/// A gate that holds executions until there were two.
#[derive(Drop)]
struct TwoAtOnce<'a, C: Clock> {
    clock: &'a C,
    entered: AtomicU64,
    left: AtomicU64,
    late: AtomicBool,
}

impl<'a, C: Clock> TwoAtOnce<'a, C> {
    fn new(clock: &'a C) -> TwoAtOnce<'a, C> {
        TwoAtOnce {
            clock,
            entered: AtomicU64::new(0),
            left: AtomicU64::new(0),
            late: AtomicBool::new(false),
        }
    }

    /// Whether two executions have come in, each with the other, and left.
    fn has_let_two_through(&self) -> bool {
        let late = self.late.load(Ordering::SeqCst);
        let left = self.left.load(Ordering::SeqCst);
        !late && left == 2
    }
}

impl<C: Clock> Gate for TwoAtOnce<'_, C> {
    fn enter(&self, _id: RowId, _edition: Edition) {
        self.entered.fetch_add(1, Ordering::SeqCst);
        for _ in 0..TURNS {
            if self.entered.load(Ordering::SeqCst) >= 2 {
                return;
            }
            thread::sleep(self.clock, Duration::from_millis(1));
        }
        self.late.store(true, Ordering::SeqCst);
    }

    fn leave(&self, _id: RowId, _edition: Edition) {
        self.left.fetch_add(1, Ordering::SeqCst);
    }
}

/// Two rows, each of which is ready from the first.
const TWO_ROWS: &[Step] = &[
    Accepts(Set(&[4])),
    Accepts(Field(b"a")),
    Accepts(Field(b"b")),
    Inserts(b"u-move-constant-1L a 1 8", 1),
    Inserts(b"u-move-constant-1L b 2 8", 2),
];

/// What both rows leave.
const RESULTS: &[Step] = &[
    Shows(b"a", End, &[1, 1, 1, 1]),
    Shows(b"b", End, &[2, 2, 2, 2]),
];

/// Whether two seats that work at once run one row each, and both rows are in execution at once.
fn both_work<L: Office + Send + Sync, R: Abort + Threads + Wait + Sync, C: Clock + Sync>(
    rt: &R,
    alloc: Global,
    desk: &Desk<L>,
    one: &mut Seat<L>,
    two: &mut Seat<L>,
    gate: &TwoAtOnce<'_, C>,
) -> bool {
    let (first, second) = join(
        rt,
        || work(rt, alloc, desk, &mut *one, gate, 10),
        || work(rt, alloc, desk, &mut *two, gate, 10),
    );
    first == Ok(1) && second == Ok(1) && gate.has_let_two_through()
}

/// Whether a seat has so many receipts more than it had.
fn has_more<L: Office>(seat: &Seat<L>, before: usize, more: usize) -> bool {
    seat.receipts().len().checked_sub(before) == Some(more)
}

/// Two seats work: each runs one of two independent rows, and both rows are in execution at once.
fn two_work<L: Office + Send + Sync, R: Abort + Threads + Wait + Sync, C: Clock + Sync>(
    rt: &R,
    alloc: Global,
    desk: &Desk<L>,
    one: &mut Seat<L>,
    two: &mut Seat<L>,
    gate: &TwoAtOnce<'_, C>,
) -> Result<(), Fault> {
    plays_alone(rt, alloc, desk, one, TWO_ROWS)?;
    let before = one.receipts().len();
    assert!(rt; both_work(rt, alloc, desk, one, two, gate));
    assert!(rt; has_more(one, before, 3) && has_more(two, 0, 3));
    one.learn(two.front());
    plays_alone(rt, alloc, desk, one, RESULTS)
}

/// Whether a seat that is asked for so many orders runs so many, and has so many receipts more then.
fn runs<L: Office>(
    rt: &(impl Abort + Wait),
    alloc: Global,
    desk: &Desk<L>,
    seat: &mut Seat<L>,
    asked: u64,
    ran: u64,
    more: usize,
) -> bool {
    let before = seat.receipts().len();
    let answer = work(rt, alloc, desk, seat, &OpenGate, asked);
    answer == Ok(ran) && has_more(seat, before, more)
}

/// A seat runs no more orders than it is asked for, and stops where no row is ready.
fn one_works<L: Office>(
    rt: &(impl Abort + Wait),
    alloc: Global,
    desk: &Desk<L>,
    seat: &mut Seat<L>,
) -> Result<(), Fault> {
    plays_alone(rt, alloc, desk, seat, TWO_ROWS)?;
    assert!(rt; runs(rt, alloc, desk, seat, 0, 0, 0));
    assert!(rt; runs(rt, alloc, desk, seat, 1, 1, 2));
    assert!(rt; runs(rt, alloc, desk, seat, 5, 1, 3));
    plays_alone(rt, alloc, desk, seat, RESULTS)
}

fn works_with<L: Office + Send + Sync, R: Abort + Threads + Wait + Sync, C: Clock + Sync>(
    rt: &R,
    alloc: Global,
    desk: &Desk<L>,
    seats: &mut [Seat<L>],
    gate: &TwoAtOnce<'_, C>,
) -> Result<(), Fault> {
    let (one, rest) = seats.split_first_mut().expect(rt, "there is a seat");
    match rest.first_mut() {
        None => one_works(rt, alloc, desk, one),
        Some(two) => two_work(rt, alloc, desk, one, two, gate),
    }
}

/// Whether seats work at a desk, and the desk is ended as it must be.
fn opens<L: Office + Send + Sync, R: Abort + Threads + Wait + Sync, C: Clock + Sync>(
    rt: &R,
    alloc: Global,
    opening: Opening,
    seats: u64,
    limit: u64,
    gate: &TwoAtOnce<'_, C>,
    ending: Ending,
) -> Result<bool, Fault>
    requires opening { (opening.blank.name ≡ L.name) × (opening.blank.parts ≡ L.parts) × (opening.seen.book ≡ L.log) }
    requires profile { One ≡ L.profile }
    requires seats { (seats ≡ L.parts) × (seats ≡ L.seats) }
    requires few { (1 ≤ seats) × (seats ≤ MAX_SEATS) }
    requires limit { (limit ≡ L.limit) × (limit ≤ MAX_HISTORY) }
{
    let (desk, mut all) = Desk::<L>::new(rt, alloc, opening, seats, limit)?;
    match works_with(rt, alloc, &desk, &mut all, gate) {
        Ok(()) => ends(rt, alloc, desk, all, ending),
        Err(fault) => {
            desk.discard(rt);
            Err(fault)
        }
    }
}

/// Works at a desk of so many seats, and ends it.
fn works<R: Abort + Threads + Wait + Clock + Sync>(
    rt: &R,
    alloc: Global,
    seats: u64,
    ending: Ending,
) -> Result<(), Fault>
    requires { (1 ≤ seats) × (seats ≤ MAX_SEATS) }
{
    let gate = TwoAtOnce::new(rt);
    let opening = Opening::new(seats);
    let is_ended = opens::<Brand, R, R>(rt, alloc, opening, seats, 100, &gate, ending)?;
    assert!(rt; is_ended);
    Ok(())
}

#[test]
fn independent_rows_are_executed_at_once(rt: HostRuntime) -> Result<(), Fault> {
    works(&rt, rt.alloc(), 2, Closes(&[10, 3]))
}

#[test]
fn a_limit_is_kept(rt: HostRuntime) -> Result<(), Fault> {
    works(&rt, rt.alloc(), 1, Closes(&[12]))
}
