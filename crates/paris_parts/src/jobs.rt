//! What the seats of a desk do at once: some play a part, the others work.

ghost use Rattle.std.specs.Prelude.{◌≡◌, ◌<◌, ◌≤◌, ◌++◌, ◌∷◌, ℕ, [], Result, Ok, length, map, option_map, slice_get, slice_index_or, IfErr, IfOk, IfSome, OnOk};
ghost use Rattle.std.specs.List.{All};
ghost use Rattle.paris_names.specs.declared.faults.Fault.{Fault};
ghost use Rattle.paris_names.specs.declared.faults.Fault.TheVariants as FaultCase;
ghost use Rattle.paris_desk.specs.Pasts.{Learned};
ghost use Rattle.paris_parts.specs.Parts.{IsShort};
ghost use Rattle.paris_parts.specs.Beginning.{hand_at};
ghost use Rattle.paris_parts.specs.Faults.{StopsRun, rank, worse};
ghost use Rattle.paris_parts.specs.Jobs.{AreDone, AreTold, Doing, JobHasRun, HasRunIn, IsNew, IsWorst, begun_at};
ghost use Rattle.paris_parts.specs.Seeing.{IsInTime};

use crate::parts::Part;
use crate::players::play;
use paris_desk::{Desk, MAX_HISTORY, Office, Seat, work};
use paris_exec::Gate;
use paris_names::Fault;
use paris_session::Hand;
use std::alloc::{AllocError, Global};
use std::marker::Model;
use std::sync::Wait;
use std::thread::Threads;
use std::{mem, thread};

/// What is done at a seat.
#[derive(Drop)]
pub(crate) struct Job<L: Office> {
    pub(crate) seat: Seat<L>,
    pub(crate) hand: Hand,
    pub(crate) text: Vec<u8>,
}

impl<L: Office> Model for Job<L> {
    ghost use Rattle.paris_parts.specs.Jobs.{Doing, doing};

    ghost Value = { Doing };

    ghost view = { λ j. doing j.seat j.hand.hand j.text.items };
}

/// The part of a number, if there is one.
fn part_of(parts: &[Part], number: u64) -> Option<&Part>
    requires { All IsShort parts.now }
    ensures part { option_map (λ part. part.now) result ≡ slice_get parts.now number }
    ensures short { IfSome result (λ part. IsShort part.now) }
{
    parts.get(number as usize)
}

/// An empty hand for a seat. The first command at the first seat is the first of all.
fn hand_at<L: Office>(alloc: Global, seat: &Seat<L>) -> Hand
    ensures { result.hand ≡ hand_at seat.now }
{
    Hand::new(alloc, seat.number() == 0)
}

impl<L: Office> Job<L> {
    fn new(alloc: Global, seat: Seat<L>) -> Job<L>
        ensures { result ≡ begun_at seat }
    {
        let hand = hand_at(alloc, &seat);
        Job {
            seat,
            hand,
            text: Vec::new(alloc),
        }
    }

    /// Plays the part of the seat's number, or works where there is none.
    fn run<R: Wait, G: Gate>(
        self,
        rt: &R,
        alloc: Global,
        desk: &Desk<L>,
        parts: &[Part],
        gate: &G,
    ) -> Result<Job<L>, Fault>
        requires short { All IsShort parts.now }
        requires time { IsInTime self.seat }
        ensures run { IfOk result (λ job. JobHasRun L.profile parts.now self.seat job) }
        ensures fault { IfErr result (λ fault. StopsRun L.limit fault) }
    {
        let Job {
            mut seat,
            hand: _,
            text,
        } = self;
        let mut hand = hand_at(alloc, &seat);
        let Some(part) = part_of(parts, seat.number()) else {
            work(rt, alloc, desk, &mut seat, gate, MAX_HISTORY)?;
            return Ok(Job { seat, hand, text });
        };
        let (seat, text) = play(&mut hand, rt, alloc, desk, seat, part)?;
        Ok(Job { seat, hand, text })
    }
}

/// A seat, once it is told of all that the first one knows.
fn told<L: Office>(seat: Seat<L>, first: &Seat<L>) -> Seat<L>
    ensures { Learned L.profile seat first.now result }
{
    let mut seat = seat;
    seat.learn_from(first);
    seat
}

/// A job of each seat, which is told of all that the first one knows.
fn jobs_told<L: Office>(
    alloc: Global,
    seats: Vec<Seat<L>>,
    first: &Seat<L>,
) -> Result<Vec<Result<Job<L>, Fault>>, AllocError>
    ensures { IfOk result (λ jobs. AreTold L.profile first.now seats.items jobs.items) }
{
    let mut jobs = Vec::new(alloc);
    for seat in seats {
        jobs.push(Ok(Job::new(alloc, told(seat, first))))?;
    }
    Ok(jobs)
}

/// Which fault ends a run where several were met: a full history before all others, and want of memory behind them.
fn rank(fault: Fault) -> u64
    ensures { result ≡ rank fault }
{
    match fault {
        Fault::HistoryFull(_) => 2,
        Fault::NoMemory => 0,
        _ => 1,
    }
}

/// The next fault, where it ranks above the one before.
fn worse(before: Option<Fault>, next: Fault) -> Fault
    ensures { result ≡ worse before next }
{
    match before {
        None => next,
        Some(fault) => {
            if rank(next) > rank(fault) {
                next
            } else {
                fault
            }
        }
    }
}

/// Of the faults that ended jobs the one that ends the run.
fn worst_fault<L: Office>(jobs: &[Result<Job<L>, Fault>]) -> Option<Fault>
    ensures { IsWorst jobs.now result }
{
    let mut worst = None;
    for job in jobs {
        if let Err(fault) = job {
            worst = Some(worse(worst, *fault));
        }
    }
    worst
}

/// Runs a job, in its place.
fn run_in<L: Office, R: Wait, G: Gate>(
    rt: &R,
    alloc: Global,
    desk: &Desk<L>,
    job: &mut Result<Job<L>, Fault>,
    parts: &[Part],
    gate: &G,
)
    requires short { All IsShort parts.now }
    requires time { IfOk job.old (λ begun. IsInTime begun.seat) }
    ensures { HasRunIn L.profile L.limit parts.now job.old job.new }
{
    if let Ok(begun) = mem::replace(job, Err(Fault::NoMemory)) {
        *job = begun.run(rt, alloc, desk, parts, gate);
    }
}

/// Runs the jobs, each in a thread of its own.
fn run_at_once<L: Office + Send + Sync, R: Threads + Wait + Sync, G: Gate + Sync>(
    rt: &R,
    alloc: Global,
    desk: &Desk<L>,
    jobs: &mut [Result<Job<L>, Fault>],
    parts: &[Part],
    gate: &G,
)
    requires short { All IsShort parts.now }
    requires time { All (λ job. IfOk job (λ begun. IsInTime begun.seat)) jobs.old }
    ensures len { length jobs.new ≡ length jobs.old }
    ensures each { (i : ℕ) (d : Result Doing Fault) → i < length jobs.old → HasRunIn L.profile L.limit parts.now (slice_index_or jobs.old i d) (slice_index_or jobs.new i d) }
{
    let threads = jobs.len().max(1);
    thread::for_each_mut(
        rt,
        jobs,
        threads,
        &|_i: usize, job: &mut Result<Job<L>, Fault>| { run_in(rt, alloc, desk, job, parts, gate) },
    );
}

fn keep<L: Office>(jobs: &mut Vec<Job<L>>, job: Job<L>) -> Result<(), Fault>
    ensures jobs { OnOk result (jobs.new.items ≡ jobs.old.items ++ job ∷ []) }
    ensures fault { IfErr result (λ fault. fault ≡ FaultCase.NoMemory) }
{
    if jobs.push(job).is_err() {
        return Err(Fault::NoMemory);
    }
    Ok(())
}

/// The first job and the others. Where a fault ended one of these, the fault.
fn together<L: Office>(
    alloc: Global,
    first: Job<L>,
    others: Vec<Result<Job<L>, Fault>>,
) -> Result<Vec<Job<L>>, Fault>
    requires { All (λ job. IfErr job (λ fault. StopsRun L.limit fault)) others.items }
    ensures jobs { IfOk result (λ jobs. map Ok jobs.items ≡ Ok first ∷ others.items) }
    ensures fault { IfErr result (λ fault. StopsRun L.limit fault) }
{
    let mut jobs = Vec::new(alloc);
    keep(&mut jobs, first)?;
    for job in others {
        keep(&mut jobs, job?)?;
    }
    Ok(jobs)
}

/// Runs what there is to do at the first seat, and then at the others at once, which are told of all that the first one knows then.
pub(crate) fn run_all<L: Office + Send + Sync, R: Threads + Wait + Sync, G: Gate + Sync>(
    rt: &R,
    alloc: Global,
    desk: &Desk<L>,
    seats: Vec<Seat<L>>,
    parts: &[Part],
    gate: &G,
) -> Result<Vec<Job<L>>, Fault>
    requires short { All IsShort parts.now }
    requires seats { (1 ≤ length seats.items) × All IsNew seats.items }
    ensures done { IfOk result (λ jobs. AreDone L.profile parts.now seats.items jobs.items) }
    ensures fault { IfErr result (λ fault. StopsRun L.limit fault) }
{
    let mut seats = seats;
    let first = Job::new(alloc, seats.remove(0)).run(rt, alloc, desk, parts, gate)?;
    let mut others = jobs_told(alloc, seats, &first.seat)?;
    run_at_once(rt, alloc, desk, others.as_mut_slice(), parts, gate);
    match worst_fault(others.as_slice()) {
        Some(fault) => Err(fault),
        None => together(alloc, first, others),
    }
}
