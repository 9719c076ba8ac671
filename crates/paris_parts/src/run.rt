//! Runs a script in parts: sessions that share a desk, with workers beside them.

ghost use Rattle.std.specs.Prelude.{◌≡◌, ◌⊎◌, ◌↔◌, ◌≤◌, ◌*◌, ℕ, List, true, length, IfOk, IfErr, OnErr, OnOk, if◌then◌else◌};
ghost use Rattle.std.specs.List.{All};
ghost use Rattle.std.specs.Io.KnownBytes.{Appends, Consumes, Keeps, IsAtEnd};
ghost use Rattle.paris_session.specs.Calls.{no_marks};
ghost use Rattle.paris_session.specs.Texts.{WritesFront};
ghost use Rattle.paris_parts.specs.Parts.{IsShort};
ghost use Rattle.paris_records.specs.declared.limits.TheConstants.{MAX_HISTORY, MAX_SEATS};
ghost use Rattle.paris_names.specs.declared.limits.TheConstants.{MAX_WORKERS};
ghost use Rattle.paris_session.specs.declared.run.RunFault.TheVariants as RunCase;
ghost use Rattle.paris_session.specs.Run.{HasCause, HasEnded, most_reads};
ghost use Rattle.paris_parts.specs.declared.run.DeskRunFault.TheVariants as DeskCase;
ghost use Rattle.paris_parts.specs.Beginning.{profile_of_run};
ghost use Rattle.paris_parts.specs.Faults.{StopsRun};
ghost use Rattle.paris_parts.specs.Run.{HasSeats, HasDeskCause, IsCutShort, PartsPlay, ScriptRuns, StoppedBy};

use crate::choosing::profile_of;
use crate::closing::conclude;
use crate::last::Transcript;
use crate::outcome::play_parts;
use crate::parts::{Part, parts_of};
use crate::reading::read_all;
use paris_desk::{Desk, MAX_HISTORY, MAX_SEATS, Office, Opening};
use paris_exec::Gate;
use paris_names::limits::MAX_READS;
use paris_names::{Fault, Profile};
use paris_session::{RunFault, Settler, Summary, Tally, write_out};
use std::alloc::{AllocError, Global};
use std::io::{Read, Write};
use std::marker::Brand;
use std::sync::Wait;
use std::thread::Threads;
use thiserror::Error;

/// Why a run of a script in parts stops before its end.
#[derive(Clone, Copy, Debug, PartialEq, Eq, Error)]
pub enum DeskRunFault {
    /// The reader or the writer failed, or there is no memory left.
    #[error("{0}")]
    Run(RunFault),
    /// There are fewer than three parts, or more sessions and workers than a desk has seats.
    #[error("wrong parts")]
    Parts,
    /// A call was not recorded, since the history is full or a seat was told of a longer one, or a seat met no history that it could
    /// look at, or with which its desk is closed.
    #[error("{0}")]
    Desk(Fault),
}

impl From<AllocError> for DeskRunFault {
    ghost use Rattle.paris_session.specs.declared.run.RunFault.TheVariants as RunCase;
    ghost use Rattle.paris_parts.specs.declared.run.DeskRunFault.TheVariants as DeskCase;

    ghost from_gives = { λ error fault. fault ≡ DeskCase.Run RunCase.NoMemory };

    fn from(_error: AllocError) -> DeskRunFault {
        DeskRunFault::Run(RunFault::NoMemory)
    }
}

impl From<Fault> for DeskRunFault {
    ghost use Rattle.paris_session.specs.declared.run.RunFault.TheVariants as RunCase;
    ghost use Rattle.paris_names.specs.Faults.{is_no_memory};
    ghost use Rattle.paris_parts.specs.declared.run.DeskRunFault.TheVariants as DeskCase;

    ghost from_gives = { λ fault desk_fault. desk_fault ≡ (if is_no_memory fault then DeskCase.Run RunCase.NoMemory else DeskCase.Desk fault) };

    fn from(fault: Fault) -> DeskRunFault {
        if fault.is_no_memory() {
            return DeskRunFault::Run(RunFault::NoMemory);
        }
        DeskRunFault::Desk(fault)
    }
}

/// Plays all parts at a desk of a profile with so many seats.
fn play_all<L: Office + Send + Sync, R: Threads + Wait + Sync, S: Settler, G: Gate + Sync>(
    rt: &R,
    settler: &S,
    alloc: Global,
    opening: Opening,
    profile: Profile,
    seats: u64,
    limit: u64,
    parts: &[Part],
    last: &Part,
    gate: &G,
) -> Result<Transcript, Fault>
    requires opening { (opening.blank.name ≡ L.name) × (opening.blank.parts ≡ L.parts) × (opening.seen.book ≡ L.log) }
    requires profile { profile ≡ L.profile }
    requires seats { (seats ≡ L.parts) × (seats ≡ L.seats) }
    requires few { (1 ≤ seats) × (seats ≤ MAX_SEATS) × (1 ≤ length parts.now) × (length parts.now ≤ seats) }
    requires limit { (limit ≡ L.limit) × (limit ≤ MAX_HISTORY) }
    requires parts { All IsShort parts.now × IsShort last.now }
    requires settler { S.can_settle settler.now }
    ensures plays { IfOk result (λ t. PartsPlay profile seats parts.now last.now t.text.items t.summary) }
    ensures fault { IfErr result (λ fault. StopsRun limit fault) }
{
    let (desk, all) = Desk::<L>::with_profile(rt, alloc, opening, profile, seats, limit)?;
    match play_parts(rt, alloc, &desk, all, seats, parts, gate) {
        Ok(ended) => conclude(rt, settler, alloc, profile, desk, ended, last),
        Err(fault) => {
            desk.discard(rt);
            Err(fault)
        }
    }
}

/// Whether there are parts enough before the last, and seats enough for them and for so many workers.
fn fit(parts: &[Part], workers: usize) -> bool
    requires { workers ≤ MAX_WORKERS }
    ensures { (result ≡ true) ↔ HasSeats (length parts.now) workers }
{
    parts.len() >= 2 && parts.len() + workers <= MAX_SEATS as usize
}

/// The profile of a run, which its first part chooses. The error says that memory was refused.
fn profile_of_run(alloc: Global, parts: &[Part]) -> Result<Profile, AllocError>
    ensures { IfOk result (λ profile. profile ≡ profile_of_run parts.now) }
{
    match parts.first() {
        Some(part) => profile_of(alloc, part),
        None => Ok(Profile::One),
    }
}

/// Runs a script in parts, at a desk whose history has room for so many entries: what is to be written for it.
pub fn run_parts<R: Threads + Wait + Sync, S: Settler, G: Gate + Sync>(
    rt: &R,
    settler: &S,
    alloc: Global,
    script: &[u8],
    workers: usize,
    limit: u64,
    gate: &G,
) -> Result<Transcript, DeskRunFault>
    requires workers { (1 ≤ workers) × (workers ≤ MAX_WORKERS) }
    requires limit { limit ≤ MAX_HISTORY }
    requires settler { S.can_settle settler.now }
    requires few { length script.now ≤ 4096 * most_reads }
    ensures runs { IfOk result (λ t. ScriptRuns workers script.now t.text.items t.summary) }
    ensures cause { IfErr result (λ fault. StoppedBy limit workers script.now fault) }
{
    let mut parts = parts_of(alloc, script)?;
    let Some(last) = parts.pop() else {
        return Err(DeskRunFault::Parts);
    };
    if !fit(parts.as_slice(), workers) {
        return Err(DeskRunFault::Parts);
    }
    let profile = profile_of_run(alloc, parts.as_slice())?;
    let seats = (parts.len() + workers) as u64;
    let transcript = play_all::<Brand, R, S, G>(
        rt,
        settler,
        alloc,
        Opening::new(seats),
        profile,
        seats,
        limit,
        parts.as_slice(),
        &last,
        gate,
    )?;
    Ok(transcript)
}

/// Writes what a script that was read comes to.
fn write_text<W: Write>(
    rt: &impl Wait,
    writer: &mut W,
    tally: &mut Tally,
    text: &[u8],
) -> Result<(), RunFault>
    requires ended { HasEnded tally.old }
    ensures ok { OnOk result (Appends (W.contents writer.old) (W.contents writer.new) text.now) }
    ensures still { OnOk result (HasEnded tally.new) }
    ensures reads { tally.new.reads ≡ tally.old.reads }
    ensures front { OnErr result (WritesFront (W.contents writer.old) (W.contents writer.new) text.now) }
    ensures fault { IfErr result (λ fault. fault ≡ RunCase.Write) }
    ensures cause { IfErr result (λ fault. HasCause fault tally.new most_reads) }
{
    match write_out(rt, writer, tally, text) {
        Ok(()) => Ok(()),
        Err(_) => Err(RunFault::Write),
    }
}

/// Runs the script in parts that the reader gives. It is read to its end first; its parts but the last are played at once by
/// sessions of one desk, the first of them before the others, with so many workers beside them, and the last part is played on the
/// book that they leave, settled. The desk is of the profile that the first part chooses. A `show` of any part but the last is a look, and no call. All is written at the end.
pub fn run_sessions<H: Threads + Wait + Sync, S: Settler, R: Read, W: Write, G: Gate + Sync>(
    rt: &H,
    settler: &S,
    alloc: Global,
    reader: &mut R,
    writer: &mut W,
    workers: usize,
    gate: &G,
    tally: &mut Tally,
) -> Result<Summary, DeskRunFault>
    requires workers { (1 ≤ workers) × (workers ≤ MAX_WORKERS) }
    requires settler { S.can_settle settler.now }
    requires fresh { tally.old ≡ no_marks }
    ensures ended { OnOk result (HasEnded tally.new) }
    ensures bounded { tally.new.reads ≤ most_reads }
    ensures ok { IfOk result (λ summary. (script : List ℕ) × (text : List ℕ) × Consumes (R.remaining reader.old) (R.remaining reader.new) script
        × IsAtEnd (R.remaining reader.new) × Appends (W.contents writer.old) (W.contents writer.new) text × ScriptRuns workers script text summary) }
    ensures cause { IfErr result (λ fault. HasDeskCause workers (R.remaining reader.old) (R.remaining reader.new) fault tally.new) }
    ensures unwritten { IfErr result (λ fault. (fault ≡ DeskCase.Run RunCase.Write → ⊥) → Keeps (W.contents writer.old) (W.contents writer.new)) }
    ensures front { IfErr result (λ fault. Keeps (W.contents writer.old) (W.contents writer.new)
        ⊎ IsCutShort workers (R.remaining reader.old) (R.remaining reader.new) (W.contents writer.old) (W.contents writer.new)) }
{
    let script = match read_all(alloc, reader, MAX_READS, tally) {
        Ok(script) => script,
        Err(fault) => return Err(DeskRunFault::Run(fault)),
    };
    let transcript = run_parts(
        rt,
        settler,
        alloc,
        script.as_slice(),
        workers,
        MAX_HISTORY,
        gate,
    )?;
    match write_text(rt, writer, tally, transcript.text.as_slice()) {
        Ok(()) => Ok(transcript.summary),
        Err(fault) => Err(DeskRunFault::Run(fault)),
    }
}
