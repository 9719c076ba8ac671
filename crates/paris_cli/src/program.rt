//! The program over any reader and writers: runs a script, and answers with an exit status.

ghost use Rattle.std.specs.Prelude.{◌≡◌, ◌≢◌, ℕ, ◌<◌, ◌≤◌, List, map, true, false};
ghost use Rattle.std.specs.String.{string_bytes};
ghost use Rattle.std.specs.Io.KnownBytes.{Appends};
ghost use Rattle.paris_session.specs.Calls.{no_marks};
ghost use Rattle.paris_session.specs.Texts.{WritesFront};
ghost use Rattle.paris_session.specs.Run.{HasEnded};
ghost use Rattle.paris_cli.specs.Program.{Finishes, FinishesAtDesk, Halts, Refuses, Sits, Stops, StopsAtDesk, TellsOfWords, desk_fault_line, desk_fault_status, exit_status, run_fault_line, run_fault_status};
ghost use Rattle.paris_cli.specs.Words.{AreTaken, AskForDesk, refusal_line, refusal_status};
ghost use Rattle.paris_names.specs.declared.limits.TheConstants.{MAX_WORKERS};

use crate::words::{Wanted, WordsFault, read_words};
use crate::workers::Workers;
use paris_exec::OpenGate;
use paris_names::Fault;
use paris_parts::{DeskRunFault, run_sessions};
use paris_session::{RunFault, Summary, Tally, run_script, write_out};
use std::io::{Read, Write};
use std::sync::Wait;
use std::thread::Threads;

/// The line that names a fault.
fn run_fault_line(fault: RunFault) -> &'static [u8]
    ensures { result.now ≡ run_fault_line fault }
{
    match fault {
        RunFault::Read => b"read fault\n",
        RunFault::Write => b"write fault\n",
        RunFault::TooLong => b"too long\n",
        RunFault::NoMemory => b"no memory\n",
    }
}

/// The exit status of a run that stopped short.
fn run_fault_status(fault: RunFault) -> u8
    ensures { result ≡ run_fault_status fault }
{
    match fault {
        RunFault::Read | RunFault::Write | RunFault::TooLong => 3,
        RunFault::NoMemory => 4,
    }
}

/// The exit status of a run that came to its end.
fn exit_status(summary: &Summary) -> u8
    ensures { result ≡ exit_status summary.now.refusals }
{
    if summary.refusals == 0 { 0 } else { 1 }
}

/// The line that names a fault of a run at a desk.
fn desk_fault_line(fault: DeskRunFault) -> &'static [u8]
    ensures { result.now ≡ desk_fault_line fault }
{
    match fault {
        DeskRunFault::Run(fault) => run_fault_line(fault),
        DeskRunFault::Parts => b"wrong parts\n",
        DeskRunFault::Desk(Fault::NoEntry) => b"no entry\n",
        DeskRunFault::Desk(_) => b"history full\n",
    }
}

/// The exit status of a run at a desk that stopped short.
fn desk_fault_status(fault: DeskRunFault) -> u8
    ensures { result ≡ desk_fault_status fault }
{
    match fault {
        DeskRunFault::Run(fault) => run_fault_status(fault),
        DeskRunFault::Parts => 2,
        DeskRunFault::Desk(_) => 4,
    }
}

/// What came of the calls of a run.
#[derive(Drop)]
pub struct Tallies {
    /// Those of its reader and its writer.
    pub run: Tally,
    /// Those of the writer that errors are told on.
    pub errors: Tally,
}

impl Tallies {
    /// The tallies of a run that has called nothing yet.
    pub fn new() -> Tallies
        ensures run { result.run ≡ no_marks }
        ensures errors { result.errors ≡ no_marks }
    {
        Tallies {
            run: Tally::new(),
            errors: Tally::new(),
        }
    }
}

/// Writes what is said of a fault. Where the writer fails, the rest of it is lost.
fn report<E: Write>(rt: &impl Wait, errors: &mut E, tally: &mut Tally, line: &[u8])
    ensures front { WritesFront (E.contents errors.old) (E.contents errors.new) line.now }
    ensures whole { tally.new.write_failed ≡ false → Appends (E.contents errors.old) (E.contents errors.new) line.now }
{
    let _ = write_out(rt, errors, tally, line);
}

/// Says why words are refused, and answers the exit status.
pub fn refuse_words<E: Write>(
    rt: &impl Wait,
    errors: &mut E,
    tally: &mut Tally,
    fault: &WordsFault,
) -> u8
    ensures line { WritesFront (E.contents errors.old) (E.contents errors.new) (refusal_line fault.now) }
    ensures whole { tally.new.write_failed ≡ false → Appends (E.contents errors.old) (E.contents errors.new) (refusal_line fault.now) }
    ensures status { result ≡ refusal_status fault.now }
{
    report(rt, errors, tally, fault.line());
    fault.status()
}

/// Runs the script that the reader gives, with at most so many workers, and writes its transcript. Status 0 says that all commands
/// were accepted, 1 that some command was refused, 3 that the reader or the writer failed or the bound on reads was passed, and 4
/// that there is no memory left.
fn run<H: Threads + Wait + Sync + AllocGlobal, R: Read, W: Write, E: Write>(
    rt: &H,
    workers: usize,
    reader: &mut R,
    writer: &mut W,
    errors: &mut E,
    tallies: &mut Tallies,
) -> u8
    requires workers { (1 ≤ workers) × (workers ≤ MAX_WORKERS) }
    requires fresh { tallies.old.run ≡ no_marks }
    ensures finishes { result ≤ 1 → Finishes (R.remaining reader.old) (R.remaining reader.new)
        (W.contents writer.old) (W.contents writer.new) (E.contents errors.old) (E.contents errors.new) tallies.new.run result }
    ensures stops { 1 < result → Stops (R.remaining reader.old) (R.remaining reader.new) (W.contents writer.old) (W.contents writer.new)
        (E.contents errors.old) (E.contents errors.new) tallies.new.run tallies.new.errors result }
    ensures status { result ≢ 2 }
    ensures untold { result ≤ 1 → tallies.new.errors ≡ tallies.old.errors }
{
    let workers = Workers { rt, count: workers };
    match run_script(rt, &workers, rt.alloc(), reader, writer, &mut tallies.run) {
        Ok(summary) => exit_status(&summary),
        Err(fault) => {
            report(rt, errors, &mut tallies.errors, run_fault_line(fault));
            run_fault_status(fault)
        }
    }
}

/// Runs the script in parts that the reader gives, by sessions of one desk with so many workers beside them. Status 0 says that all
/// commands were accepted, 1 that some command was refused, 2 that the parts are wrong, 3 that the reader or the writer failed or the
/// bound on reads was passed, and 4 that there is no memory left, that the history is full, or
/// that a seat met no history to look at.
fn run_at_desk<H: Threads + Wait + Sync + AllocGlobal, R: Read, W: Write, E: Write>(
    rt: &H,
    workers: usize,
    reader: &mut R,
    writer: &mut W,
    errors: &mut E,
    tallies: &mut Tallies,
) -> u8
    requires workers { (1 ≤ workers) × (workers ≤ MAX_WORKERS) }
    requires fresh { tallies.old.run ≡ no_marks }
    ensures finishes { result ≤ 1 → FinishesAtDesk workers (R.remaining reader.old) (R.remaining reader.new)
        (W.contents writer.old) (W.contents writer.new) (E.contents errors.old) (E.contents errors.new) tallies.new.run result }
    ensures stops { 1 < result → StopsAtDesk workers (R.remaining reader.old) (R.remaining reader.new) (W.contents writer.old) (W.contents writer.new)
        (E.contents errors.old) (E.contents errors.new) tallies.new.run tallies.new.errors result }
    ensures untold { result ≤ 1 → tallies.new.errors ≡ tallies.old.errors }
{
    let settler = Workers { rt, count: workers };
    let alloc = rt.alloc();
    match run_sessions(
        rt,
        &settler,
        alloc,
        reader,
        writer,
        workers,
        &OpenGate,
        &mut tallies.run,
    ) {
        Ok(summary) => exit_status(&summary),
        Err(fault) => {
            report(rt, errors, &mut tallies.errors, desk_fault_line(fault));
            desk_fault_status(fault)
        }
    }
}

/// Runs the script that the reader gives, as the words of the command line ask, and answers the exit status: 0 where all commands
/// were accepted, 1 where some command was refused, 2 where the words are refused or the parts of a script at a desk are wrong, 3
/// after a fault of the reader or the writer or past the bound on reads, and 4 where there is no memory left, or a desk's history is
/// full or not met. At 2, 3 and 4 the cause is said on `errors`. The tallies say what came of the calls.
pub fn run_words<H: Threads + Wait + Sync + AllocGlobal, R: Read, W: Write, E: Write>(
    rt: &H,
    words: &[String],
    reader: &mut R,
    writer: &mut W,
    errors: &mut E,
    tallies: &mut Tallies,
) -> u8
    requires fresh { tallies.old.run ≡ no_marks }
    ensures finishes { result ≤ 1 → AskForDesk (map string_bytes words.now) false → Finishes (R.remaining reader.old) (R.remaining reader.new)
        (W.contents writer.old) (W.contents writer.new) (E.contents errors.old) (E.contents errors.new) tallies.new.run result }
    ensures sits { result ≤ 1 → AskForDesk (map string_bytes words.now) true → Sits (map string_bytes words.now) (R.remaining reader.old)
        (R.remaining reader.new) (W.contents writer.old) (W.contents writer.new) (E.contents errors.old) (E.contents errors.new) tallies.new.run result }
    ensures taken { result ≤ 1 → AreTaken (map string_bytes words.now) }
    ensures untaken { result ≡ 2 → AskForDesk (map string_bytes words.now) false → AreTaken (map string_bytes words.now) → ⊥ }
    ensures refuses { result ≡ 2 → AskForDesk (map string_bytes words.now) false → Refuses (R.remaining reader.old) (R.remaining reader.new)
        (W.contents writer.old) (W.contents writer.new) (E.contents errors.old) (E.contents errors.new) tallies.new.run }
    ensures stops { 2 < result → AskForDesk (map string_bytes words.now) false → Stops (R.remaining reader.old) (R.remaining reader.new)
        (W.contents writer.old) (W.contents writer.new) (E.contents errors.old) (E.contents errors.new) tallies.new.run tallies.new.errors result }
    ensures halts { 1 < result → AskForDesk (map string_bytes words.now) true → Halts (map string_bytes words.now) (R.remaining reader.old) (R.remaining reader.new)
        (W.contents writer.old) (W.contents writer.new) (E.contents errors.old) (E.contents errors.new) tallies.new.run tallies.new.errors result }
    ensures refused { (AreTaken (map string_bytes words.now) → ⊥) → TellsOfWords (map string_bytes words.now) (R.remaining reader.old) (R.remaining reader.new)
        (W.contents writer.old) (W.contents writer.new) (E.contents errors.old) (E.contents errors.new) tallies.new.run tallies.new.errors result }
    ensures ended { result ≤ 1 → HasEnded tallies.new.run }
    ensures untold { result ≤ 1 → tallies.new.errors ≡ tallies.old.errors }
{
    let Wanted { workers, desk } = match read_words(rt.alloc(), words) {
        Ok(wanted) => wanted,
        Err(fault) => return refuse_words(rt, errors, &mut tallies.errors, &fault),
    };
    if desk {
        return run_at_desk(rt, workers, reader, writer, errors, tallies);
    }
    run(rt, workers, reader, writer, errors, tallies)
}
