//! What the parts and workers of a desk leave.

ghost use Rattle.std.specs.Prelude.{◌≡◌, ◌≤◌, ◌<◌, ◌^◌, ℕ, List, length, map, IfErr, IfOk};
ghost use Rattle.std.specs.List.{All};
ghost use Rattle.paris_parts.specs.Parts.{IsShort};
ghost use Rattle.paris_records.specs.declared.limits.TheConstants.{MAX_SEATS};
ghost use Rattle.paris_desk.specs.Seats.{fresh};
ghost use Rattle.paris_parts.specs.Faults.{StopsRun};
ghost use Rattle.paris_parts.specs.Jobs.{AreDone, Doing};
ghost use Rattle.paris_parts.specs.Run.{LeftBy};
ghost use Rattle.paris_parts.specs.Texts.{at_seat, commands_in, refusals_in};

use crate::jobs::{Job, run_all};
use crate::parts::Part;
use crate::texts::parts_text;
use paris_desk::{Desk, Office, Seat};
use paris_exec::Gate;
use paris_names::Fault;
use paris_session::Summary;
use std::alloc::{AllocError, Global};
use std::sync::Wait;
use std::thread::Threads;

/// What the parts and workers of a desk leave: their seats, what the parts wrote, and the counts of their commands.
#[derive(Drop)]
pub(crate) struct Ended<L: Office> {
    pub(crate) seats: Vec<Seat<L>>,
    pub(crate) text: Vec<u8>,
    pub(crate) summary: Summary,
}

/// The counts of the first so many jobs.
fn counted<L: Office>(jobs: &[Job<L>], count: usize) -> Summary
    requires count { (count ≤ length jobs.now) × (count ≤ MAX_SEATS) }
    requires few { (n : ℕ) → n < count → (at_seat jobs.now n).hand.commands < 2 ^ 50 }
    ensures value { result ≡ record { commands = commands_in jobs.now count; refusals = refusals_in jobs.now count } }
    ensures few { (result.commands < 2 ^ 62) × (result.refusals < 2 ^ 62) }
{
    let mut summary = Summary {
        commands: 0,
        refusals: 0,
    };
    for number in 0..count {
        let job = &jobs[number];
        summary.commands += job.hand.commands();
        summary.refusals += job.hand.refusals();
    }
    summary
}

/// The seats of some jobs.
fn seats_of<L: Office>(alloc: Global, jobs: Vec<Job<L>>) -> Result<Vec<Seat<L>>, AllocError>
    ensures { IfOk result (λ seats. seats.items ≡ map (λ d. d.seat) jobs.items) }
{
    let mut seats = Vec::new(alloc);
    for job in jobs {
        seats.push(job.seat)?;
    }
    Ok(seats)
}

/// What jobs leave, of which the first so many played parts.
fn gathered<L: Office>(
    alloc: Global,
    jobs: Vec<Job<L>>,
    count: usize,
) -> Result<Ended<L>, AllocError>
    requires count { (count ≤ length jobs.items) × (count ≤ MAX_SEATS) }
    requires few { (n : ℕ) → n < count → (at_seat jobs.items n).hand.commands < 2 ^ 50 }
    ensures left { IfOk result (λ ended. LeftBy jobs.items count ended.seats.items ended.text.items ended.summary) }
    ensures few { IfOk result (λ ended. (ended.summary.commands < 2 ^ 62) × (ended.summary.refusals < 2 ^ 62)) }
{
    let text = parts_text(alloc, jobs.as_slice(), count)?;
    let summary = counted(jobs.as_slice(), count);
    let seats = seats_of(alloc, jobs)?;
    Ok(Ended {
        seats,
        text,
        summary,
    })
}

/// Plays the parts, each at the seat of its number, while the seats behind them work.
pub(crate) fn play_parts<L: Office + Send + Sync, R: Threads + Wait + Sync, G: Gate + Sync>(
    rt: &R,
    alloc: Global,
    desk: &Desk<L>,
    seats: Vec<Seat<L>>,
    count: u64,
    parts: &[Part],
    gate: &G,
) -> Result<Ended<L>, Fault>
    requires parts { All IsShort parts.now }
    requires seats { (seats.items ≡ fresh count) × (1 ≤ count) × (count ≤ MAX_SEATS) × (length parts.now ≤ count) }
    ensures done { IfOk result (λ ended. (ds : List Doing) × AreDone L.profile parts.now (fresh count) ds × LeftBy ds (length parts.now) ended.seats.items ended.text.items ended.summary) }
    ensures few { IfOk result (λ ended. (ended.summary.commands < 2 ^ 62) × (ended.summary.refusals < 2 ^ 62)) }
    ensures fault { IfErr result (λ fault. StopsRun L.limit fault) }
{
    let jobs = run_all(rt, alloc, desk, seats, parts, gate)?;
    Ok(gathered(alloc, jobs, parts.len())?)
}
