//! Tests of scripts in parts, by what is written for them.

use crate::waiting::TwoAtOnce;
use paris_exec::{Gate, OpenGate};
use paris_names::Fault;
use paris_names::limits::MAX_LINE;
use paris_parts::{DeskRunFault, run_parts, run_sessions};
use paris_session::{Alone, Summary, Tally};
use std::alloc::{AllocError, Global};
use std::process::Abort;
use std::sync::Wait;
use std::test::*;
use std::thread::Threads;

/// How many workers there are.
const WORKERS: usize = 2;

/// A script, what is written for it, and how many commands it has and how many of them are refused.
type Row<'a> = (&'a [u8], &'static [u8], u64, u64);

const SCRIPT: &[u8] =
    b"set S 4\nfield a S 8\nfield b S 8\nfield c S 8\ninsert end u-add-3-1L c a b 8\nsession\ninput a 0 10 20 30 250\nsession\ninput b 0 1 2 3 10\nsession\nshow c end\nshow S.overflow end\nfaults\n";

const ROWS: &[Row<'static>] = &[
    (
        SCRIPT,
        b"ok\nok\nok\nok\nrow 1\nsession 1\nok\nsession 2\nok\nclose\nedits 7\naudit yes\nvalues 11 22 33 4\nvalues 0 0 0 1\nfaults 0\n",
        10,
        0,
    ),
    (
        b"set S 4\nfield a S 8\nfield b S 8\ninsert end u-move-constant-1L a 1 8\ninsert end u-move-constant-1L b 2 8\nsession\nsession\nlist\n",
        b"ok\nok\nok\nrow 1\nrow 2\nsession 1\nclose\nedits 5\naudit yes\nrows 2\n1 edition 4 settled u-move-constant-1L a 1 8\n2 edition 5 settled u-move-constant-1L b 2 8\n",
        6,
        0,
    ),
    (LOOKS, LOOKED, 10, 2),
    // A session settles nothing, and a cut is a line that says just its word.
    (
        b"# nothing\n\nsettle\nsession\nsession \nsession\nsettle\n",
        b"refused 20 1\nsession 1\nrefused 20 1\nclose\nedits 0\naudit yes\nsettled 0\n",
        3,
        2,
    ),
    // The first command of the first part chooses the profile, which is that of all parts.
    (
        b"paris 2\nset S 2\nfield a S 128\nsession\ninput a 0 0 340282366920938463463374607431768211455\nsession\nshow a end\n",
        b"ok\nok\nok\nsession 1\nok\nclose\nedits 3\naudit yes\nvalues 0 340282366920938463463374607431768211455\n",
        5,
        0,
    ),
    (
        b"paris 1\nset S 2\nfield a S 65\nfield a S 64\nsession\nsession\nshow a end\n",
        b"ok\nok\nrefused 6\nok\nsession 1\nclose\nedits 3\naudit yes\nvalues 0 0\n",
        5,
        1,
    ),
    // Behind lines that are skipped it is still the first.
    (
        b"# wide\n\nparis 2\nset S 2\nfield a S 65\nsession\n# none\nsession\nshow a end\n",
        b"ok\nok\nok\nsession 1\nclose\nedits 2\naudit yes\nvalues 0 0\n",
        4,
        0,
    ),
    // In any other place no line chooses it: behind another command, behind a line that chooses none, in another part, and in the last.
    (
        b"set S 2\nparis 2\nfield a S 65\nsession\nparis 2\nfield a S 65\nsession\nparis 2\nfield a S 65\n",
        b"ok\nrefused 20 1\nrefused 6\nsession 1\nrefused 20 1\nrefused 6\nclose\nedits 3\naudit yes\nrefused 20 1\nrefused 6\n",
        7,
        6,
    ),
    (
        b"paris 3\nparis 2\nset S 2\nfield a S 65\nsession\nsession\nparis 1\n",
        b"refused 20 7\nrefused 20 1\nok\nrefused 6\nsession 1\nclose\nedits 2\naudit yes\nrefused 20 1\n",
        5,
        4,
    ),
    (
        b"paris 2\nparis 2\nset S 2\nsession\nparis 2\nfield a S 65\nsession\nparis 2\nfield b S 65\n",
        b"ok\nrefused 20 1\nok\nsession 1\nrefused 20 1\nok\nclose\nedits 2\naudit yes\nrefused 20 1\nok\n",
        7,
        3,
    ),
    // A first part that has no command chooses none.
    (
        b"\nsession\nparis 2\nset S 2\nfield a S 65\nsession\n",
        b"session 1\nrefused 20 1\nok\nrefused 6\nclose\nedits 2\naudit yes\n",
        3,
        2,
    ),
];

/// Three calls and three looks, and then a call between two looks.
const LOOKS: &[u8] =
    b"set S 2\nfield a S 8\ninput a 0 7 9\nshow a start\nshow b end\nshow a after 9\nsession\nshow a end\ninput a 0 1 2\nshow a end\nsession\nshow a end\n";

const LOOKED: &[u8] =
    b"ok\nok\nok\nvalues 7 9\nrefused 7\nrefused 10\nsession 1\nvalues 7 9\nok\nvalues 1 2\nclose\nedits 4\naudit yes\nvalues 1 2\n";

/// Two rows, neither of which reads what the other writes, and a session that does nothing.
const TWO_ROWS: &[u8] =
    b"set S 4\nfield a S 8\nfield b S 8\ninsert end u-move-constant-1L a 1 8\ninsert end u-move-constant-1L b 2 8\nsession\nsession\nshow a end\nshow b end\n";

const TWO_RESULTS: &[u8] =
    b"ok\nok\nok\nrow 1\nrow 2\nsession 1\nclose\nedits 5\naudit yes\nvalues 1 1 1 1\nvalues 2 2 2 2\n";

fn writes<R: Abort + Threads + Wait + Sync, G: Gate + Sync>(
    rt: &R,
    alloc: Global,
    row: Row<'_>,
    gate: &G,
) {
    let (script, written, commands, refusals) = row;
    let mut reader = script;
    let mut out = Vec::new(alloc);
    let answer = run_sessions(
        rt,
        &Alone,
        alloc,
        &mut reader,
        &mut out,
        WORKERS,
        gate,
        &mut Tally::new(),
    );
    let summary = Summary { commands, refusals };
    assert_eq!(rt; answer, Ok(summary));
    assert_eq!(rt; out.as_slice(), written);
}

#[test]
fn scripts_are_played(rt: HostRuntime) -> Result<(), Fail> {
    for row in ROWS {
        writes(&rt, rt.alloc(), *row, &OpenGate);
    }
    Ok(())
}

/// A first part whose first line is too long to be read, and then one that would choose a profile.
fn overlong(alloc: Global) -> Result<Vec<u8>, AllocError> {
    let mut script = vec![in alloc; b'x'; MAX_LINE + 1]?;
    script.extend_from_slice(b"\nparis 2\nset S 2\nfield a S 65\nsession\nsession\n")?;
    Ok(script)
}

/// A line that is too long is the first command, and chooses no profile.
#[test]
fn a_line_that_is_too_long_chooses_none(rt: HostRuntime) -> Result<(), AllocError> {
    let script = overlong(rt.alloc())?;
    let written =
        b"refused 20 65537\nrefused 20 1\nok\nrefused 6\nsession 1\nclose\nedits 2\naudit yes\n";
    writes(&rt, rt.alloc(), (&script, written, 4, 3), &OpenGate);
    Ok(())
}

#[test]
fn independent_rows_are_executed_at_once(rt: HostRuntime) -> Result<(), Fail> {
    let gate = TwoAtOnce::new(&rt);
    writes(&rt, rt.alloc(), (TWO_ROWS, TWO_RESULTS, 7, 0), &gate);
    assert!(&rt; gate.has_let_two_through());
    Ok(())
}

/// A history of so many entries is long enough for a script.
fn fits<R: Abort + Threads + Wait + Sync>(
    rt: &R,
    alloc: Global,
    script: &[u8],
    limit: u64,
    written: &[u8],
) {
    assert!(rt; script.len() <= 1_000 && limit <= 1_000);
    match run_parts(rt, &Alone, alloc, script, WORKERS, limit, &OpenGate) {
        Ok(transcript) => assert_eq!(rt; transcript.text.as_slice(), written),
        Err(_) => assert!(rt; false),
    }
}

/// Looks are no calls: with a call of each worker, which finds nothing to do, the history has six entries.
#[test]
fn looks_are_not_recorded(rt: HostRuntime) -> Result<(), Fail> {
    fits(&rt, rt.alloc(), LOOKS, 6, LOOKED);
    let full = DeskRunFault::Desk(Fault::HistoryFull(5));
    stops(&rt, rt.alloc(), LOOKS, 5, full);
    Ok(())
}

/// Parts stop before their end.
fn stops<R: Abort + Threads + Wait + Sync>(
    rt: &R,
    alloc: Global,
    script: &[u8],
    limit: u64,
    fault: DeskRunFault,
) {
    assert!(rt; script.len() <= 1_000 && limit <= 1_000);
    let answer = run_parts(rt, &Alone, alloc, script, WORKERS, limit, &OpenGate);
    assert_eq!(rt; answer.err(), Some(fault));
}

#[test]
fn parts_stop(rt: HostRuntime) -> Result<(), Fail> {
    let alloc = rt.alloc();
    let two_parts = b"set S 4\nsession\nshow c end\n".as_slice();
    stops(&rt, alloc, two_parts, 1_000, DeskRunFault::Parts);
    // The five commands of the first part have room, and the two inputs and the worker's calls have none.
    let full = DeskRunFault::Desk(Fault::HistoryFull(5));
    stops(&rt, alloc, SCRIPT, 5, full);
    let full = DeskRunFault::Desk(Fault::HistoryFull(4));
    stops(&rt, alloc, SCRIPT, 4, full);
    Ok(())
}
