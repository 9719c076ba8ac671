//! Settling in threads: independent orders are executed at once, and any number of workers leaves the same values.

ghost use Rattle.std.specs.Prelude.{◌≤◌};
ghost use Rattle.paris_names.specs.declared.limits.TheConstants.{MAX_WORKERS};

use crate::programs::{Given, append, becomes_row, prepare, run, shows};
use crate::spellings::*;
use paris_book::{Book, Look};
use paris_exec::{Gate, OpenGate};
use paris_names::{Edition, KeyName, RowId, Spot};
use std::alloc::{AllocError, Global};
use std::process::Abort;
use std::sync::atomic::{AtomicBool, AtomicU64, Ordering};
use std::thread;
use std::thread::Threads;
use std::time::{Clock, Duration};

/// How often a gate looks whether the other execution has entered, a millisecond apart.
const TURNS: u64 = 10_000;

/// A gate that holds executions until they are two: the first with the second, then the third with the fourth, and so on.
#[derive(Drop)]
struct InPairs<'a, C: Clock> {
    clock: &'a C,
    entered: AtomicU64,
    late: AtomicBool,
}

impl<'a, C: Clock> InPairs<'a, C> {
    fn new(clock: &'a C) -> InPairs<'a, C> {
        InPairs {
            clock,
            entered: AtomicU64::new(0),
            late: AtomicBool::new(false),
        }
    }

    /// Whether an execution went on without another one.
    fn is_late(&self) -> bool {
        self.late.load(Ordering::SeqCst)
    }
}

impl<C: Clock> Gate for InPairs<'_, C> {
    fn enter(&self, _id: RowId, _edition: Edition) {
        let before = self.entered.fetch_add(1, Ordering::SeqCst);
        let pairs = (before / 2).saturating_add(1);
        for _ in 0..TURNS {
            if self.entered.load(Ordering::SeqCst) / 2 >= pairs {
                return;
            }
            thread::sleep(self.clock, Duration::from_millis(1));
        }
        self.late.store(true, Ordering::SeqCst);
    }

    fn leave(&self, _id: RowId, _edition: Edition) {}
}

const FIELDS: &[Given<'static>] = &[
    (b"a", 8, &[1, 2, 3, 4]),
    (b"b", 8, &[10, 20, 30, 0]),
    (b"c", 8, &[0, 0, 0, 0]),
    (b"d", 8, &[0, 0, 0, 0]),
];

/// How many processors the fields below have: a row of them is worth a thread.
const PROCESSORS: usize = 65_536;

const WIDE_FIELDS: &[Given<'static>] = &[
    (b"a", 64, &[0]),
    (b"b", 64, &[0]),
    (b"c", 64, &[0]),
    (b"d", 64, &[0]),
];

/// Two rows that are ready at once, and two that are once those are settled.
const PAIRS: &[Text] = &[
    b"u-move-constant-1L c 7 64",
    b"u-move-constant-1L d 9 64",
    b"logxor-3-1L a c d 64",
    b"logior-3-1L b c d 64",
];

/// Two workers execute both rows of a level at once.
fn two_workers_meet<R: Threads + Abort + Sync, C: Clock + Sync>(
    rt: &R,
    alloc: Global,
    book: &mut Book,
    gate: &InPairs<'_, C>,
) -> Result<(), AllocError> {
    prepare(rt, alloc, book, &[PROCESSORS as u64], WIDE_FIELDS)?;
    let count = append(rt, book, PAIRS);
    assert!(rt; book.settle_par(rt, 2, gate) == Ok(count));
    assert!(rt; !gate.is_late());
    let (a, b) = (7 ^ 9, 7 | 9);
    shows(rt, book, b"a", &Vec::from_elem(alloc, a, PROCESSORS)?)?;
    shows(rt, book, b"b", &Vec::from_elem(alloc, b, PROCESSORS)?)
}

#[test]
fn independent_rows_are_executed_at_once(rt: HostRuntime) -> Result<(), AllocError> {
    let mut book = Book::new(rt.alloc());
    let gate = InPairs::new(&rt);
    two_workers_meet(&rt, rt.alloc(), &mut book, &gate)
}

/// Six rows: 1, 2 and 4 are ready at once, 3, 5 and 6 wait for rows before them.
const PROGRAM: &[Text] = &[
    b"u-move-constant-1L c 7 8",
    b"u-add-3-1L d a b 8",
    b"u-add-3-1L a c d 8",
    b"u-move-constant-1L b 5 8",
    b"u-add-3-1L d a b 8",
    b"u-add-3-1L c d d 8",
];

/// The numbers that a key holds after the last row, which is settled.
fn numbers_at_end(rt: &impl Abort, book: &Book, key: KeyName) -> Result<Vec<u128>, AllocError> {
    match book.show(key, Spot::End) {
        Ok(Look::Settled(value)) => value.numbers(),
        _ => panic!(rt; "it is settled"),
    }
}

/// A field holds the same numbers in both books, after the last row.
fn agree(rt: &impl Abort, one: &Book, other: &Book, text: &[u8]) -> Result<(), AllocError> {
    let numbers = numbers_at_end(rt, one, key(rt, text))?;
    shows(rt, other, text, numbers.as_slice())
}

fn agree_on_all(rt: &impl Abort, one: &Book, other: &Book) -> Result<(), AllocError> {
    for text in [b"a", b"b", b"c", b"d"] {
        agree(rt, one, other, text)?;
    }
    Ok(())
}

fn settle_alone(rt: &impl Abort, alloc: Global, book: &mut Book) -> Result<(), AllocError> {
    prepare(rt, alloc, book, &[4], FIELDS)?;
    run(rt, book, PROGRAM);
    Ok(())
}

/// Settles the program by so many workers.
fn settle_by<R: Threads + Abort + Sync>(
    rt: &R,
    alloc: Global,
    book: &mut Book,
    workers: usize,
) -> Result<(), AllocError>
    requires { (1 ≤ workers) × (workers ≤ MAX_WORKERS) }
{
    prepare(rt, alloc, book, &[4], FIELDS)?;
    let count = append(rt, book, PROGRAM);
    assert!(rt; book.settle_par(rt, workers, &OpenGate) == Ok(count));
    assert!(rt; book.settle_par(rt, workers, &OpenGate) == Ok(0));
    Ok(())
}

fn leave_the_same<R: Threads + Abort + Sync>(
    rt: &R,
    alloc: Global,
    alone: &mut Book,
    book: &mut Book,
    workers: usize,
) -> Result<(), AllocError>
    requires { (1 ≤ workers) × (workers ≤ MAX_WORKERS) }
{
    settle_alone(rt, alloc, alone)?;
    settle_by(rt, alloc, book, workers)?;
    agree_on_all(rt, alone, book)?;
    shows(rt, book, b"c", &[46, 68, 90, 32])
}

/// So many workers leave what `settle` leaves.
fn workers_settle<R: Threads + Abort + Sync>(
    rt: &R,
    alloc: Global,
    workers: usize,
) -> Result<(), AllocError>
    requires { (1 ≤ workers) × (workers ≤ MAX_WORKERS) }
{
    let mut alone = Book::new(alloc);
    let mut book = Book::new(alloc);
    leave_the_same(rt, alloc, &mut alone, &mut book, workers)
}

#[test]
fn any_number_of_workers_leaves_the_same(rt: HostRuntime) -> Result<(), AllocError> {
    workers_settle(&rt, rt.alloc(), 1)?;
    workers_settle(&rt, rt.alloc(), 2)?;
    workers_settle(&rt, rt.alloc(), 16)
}

/// How many rows a gate of the kind below may see.
const ROWS: usize = 8;

/// A gate that knows for each row of which edition an order is being executed, or 0, and how many executions were left.
#[derive(Drop)]
struct Doorkeeper {
    inside: [AtomicU64; ROWS],
    left: AtomicU64,
    wrong: AtomicBool,
}

impl Doorkeeper {
    fn new() -> Doorkeeper {
        Doorkeeper {
            inside: [
                AtomicU64::new(0),
                AtomicU64::new(0),
                AtomicU64::new(0),
                AtomicU64::new(0),
                AtomicU64::new(0),
                AtomicU64::new(0),
                AtomicU64::new(0),
                AtomicU64::new(0),
            ],
            left: AtomicU64::new(0),
            wrong: AtomicBool::new(false),
        }
    }

    /// Puts an edition in the place of another one, which has to stand there.
    fn exchange(&self, id: RowId, old: u64, new: u64) {
        match self.inside.get(id.0 as usize) {
            Some(edition) if edition.swap(new, Ordering::SeqCst) == old => {}
            _ => self.wrong.store(true, Ordering::SeqCst),
        }
    }
}

impl Gate for Doorkeeper {
    fn enter(&self, id: RowId, edition: Edition) {
        self.exchange(id, 0, edition.0);
    }

    fn leave(&self, id: RowId, edition: Edition) {
        self.exchange(id, edition.0, 0);
        self.left.fetch_add(1, Ordering::SeqCst);
    }
}

/// Each execution is entered and left once, for the row and the edition of its order.
fn each_is_entered_and_left<R: Threads + Abort + Sync>(
    rt: &R,
    alloc: Global,
    book: &mut Book,
) -> Result<(), AllocError> {
    let gate = Doorkeeper::new();
    prepare(rt, alloc, book, &[4], FIELDS)?;
    let count = append(rt, book, PROGRAM);
    assert!(rt; book.settle_par(rt, 3, &gate) == Ok(count));
    assert!(rt; gate.left.load(Ordering::SeqCst) == count);
    assert!(rt; !gate.wrong.load(Ordering::SeqCst));
    Ok(())
}

#[test]
fn the_gate_is_entered_and_left(rt: HostRuntime) -> Result<(), AllocError> {
    let mut book = Book::new(rt.alloc());
    each_is_entered_and_left(&rt, rt.alloc(), &mut book)
}

/// How many rows the chain below has.
const LINKS: u64 = 515;

/// A gate that knows how many executions are inside, whether they were ever two at once, and how many were left.
#[derive(Drop)]
struct OneByOne {
    inside: AtomicU64,
    left: AtomicU64,
    crowded: AtomicBool,
}

impl OneByOne {
    fn new() -> OneByOne {
        OneByOne {
            inside: AtomicU64::new(0),
            left: AtomicU64::new(0),
            crowded: AtomicBool::new(false),
        }
    }
}

impl Gate for OneByOne {
    fn enter(&self, _id: RowId, _edition: Edition) {
        if self.inside.fetch_add(1, Ordering::SeqCst) > 0 {
            self.crowded.store(true, Ordering::SeqCst);
        }
    }

    fn leave(&self, _id: RowId, _edition: Edition) {
        self.inside.fetch_sub(1, Ordering::SeqCst);
        self.left.fetch_add(1, Ordering::SeqCst);
    }
}

/// Declares the fields, and puts in a chain of rows, each of which reads what the one before it writes.
fn prepare_chain(rt: &impl Abort, alloc: Global, book: &mut Book) -> Result<(), AllocError> {
    prepare(rt, alloc, book, &[4], FIELDS)?;
    for link in 0..LINKS {
        let instr = instr_of(rt, b"u-add-3-1L a a b 8");
        assert!(rt; becomes_row(book, Spot::End, instr, link.saturating_add(1)));
    }
    Ok(())
}

/// Four workers execute a chain row by row, and leave what `settle` leaves.
fn chain_is_run_row_by_row<R: Threads + Abort + Sync>(
    rt: &R,
    alloc: Global,
    alone: &mut Book,
    book: &mut Book,
) -> Result<(), AllocError> {
    let gate = OneByOne::new();
    prepare_chain(rt, alloc, alone)?;
    prepare_chain(rt, alloc, book)?;
    assert!(rt; alone.settle() == Ok(LINKS));
    assert!(rt; book.settle_par(rt, 4, &gate) == Ok(LINKS));
    assert!(rt; gate.left.load(Ordering::SeqCst) == LINKS);
    assert!(rt; !gate.crowded.load(Ordering::SeqCst));
    assert!(rt; book.unsettled_count() == 0);
    shows(rt, book, b"a", &[31, 62, 93, 4])?;
    agree_on_all(rt, alone, book)
}

#[test]
fn a_chain_is_run_row_by_row(rt: HostRuntime) -> Result<(), AllocError> {
    let mut alone = Book::new(rt.alloc());
    let mut book = Book::new(rt.alloc());
    chain_is_run_row_by_row(&rt, rt.alloc(), &mut alone, &mut book)
}
