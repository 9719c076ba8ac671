//! Scripts run from memory, by readers and writers that take little, are interrupted or fail.

ghost use Rattle.std.specs.Prelude.{Some};

use paris_cli::{Tallies, read_words, run_words};
use paris_session::{Alone, RunFault, Summary, Tally, run_script_bounded, transcript};
use std::alloc::Global;
use std::io;
use std::io::{ErrorKind, Read, Write};
use std::process::Abort;
use std::sync::Wait;
use std::test::*;
use std::thread::Threads;

/// Gives at most `step` bytes a call. Call `fails` fails, and each odd call is interrupted where `interrupts`.
#[derive(Drop)]
struct Slow<'a> {
    bytes: &'a [u8],
    step: usize,
    calls: u64,
    fails: u64,
    interrupts: bool,
}

impl<'a> Read for Slow<'a> {
    ghost remaining = { λ r. Some r.bytes.now };

    fn read(&mut self, room: &mut [u8]) -> io::Result<usize> {
        self.calls = self.calls.saturating_add(1);
        if self.calls == self.fails {
            return Err(ErrorKind::Other.into());
        }
        if self.interrupts && self.calls % 2 == 1 {
            return Err(ErrorKind::Interrupted.into());
        }
        if room.is_empty() {
            return Ok(0);
        }
        let room_len = room.len().min(self.step.max(1));
        let count = self.bytes.len().min(room_len);
        room[..count].copy_from_slice(&self.bytes[..count]);
        self.bytes = &self.bytes[count..];
        Ok(count)
    }
}

/// Takes one byte a call. Call `fails` fails, and each odd call is interrupted.
#[derive(Drop)]
struct Narrow {
    taken: Vec<u8>,
    calls: u64,
    fails: u64,
}

impl Write for Narrow {
    ghost contents = { λ w. Some w.taken.items };

    fn write(&mut self, text: &[u8]) -> io::Result<usize> {
        self.calls = self.calls.saturating_add(1);
        if self.calls == self.fails {
            return Err(ErrorKind::Other.into());
        }
        if self.calls % 2 == 1 {
            return Err(ErrorKind::Interrupted.into());
        }
        if text.is_empty() {
            return Ok(0);
        }
        self.taken.push(text[0])?;
        Ok(1)
    }

    fn flush(&mut self) -> io::Result<()> {
        Ok(())
    }
}

fn slow_reader(bytes: &[u8], step: usize) -> Slow<'_> {
    Slow {
        bytes,
        step,
        calls: 0,
        fails: 0,
        interrupts: false,
    }
}

/// Runs a script, and asserts the status and what is written. Nothing is written for a fault.
pub(crate) fn assert_run<H: Abort + Threads + Wait + Sync + AllocGlobal>(
    rt: &H,
    script: &[u8],
    status: u8,
    want: &[u8],
) {
    let words = Vec::new(rt.alloc());
    let mut reader = script;
    let mut out = Vec::new(rt.alloc());
    let mut errors = Vec::new(rt.alloc());
    let got = run_words(
        rt,
        words.as_slice(),
        &mut reader,
        &mut out,
        &mut errors,
        &mut Tallies::new(),
    );
    assert_eq!(rt; out.as_slice(), want);
    assert_eq!(rt; got, status);
    assert!(rt; errors.is_empty());
}

#[test]
fn refuses_lines_outside_the_grammar(rt: HostRuntime) {
    let script =
        b"set S 04\nset  S 4\nset S 4 \n set S 4\nset S 2x\nset S 2x04\nset S 2x2 4\ninput S.context 0\ninput S.flag 0 1\ninput a 0 1 340282366920938463463374607431768211456\nbring 18446744073709551616\ntake x\ninsert start u-move-constant-1L a 1\ninsert after u-move-constant-1L a 1 1\ninsert middle set-test S\ninsert end set-test\ninsert end u-add-4-1L a a a 8\ninsert end get-from-news-1L a a 0 up 8\ninsert end scan-with-u-add-1L a a 0 8 upward all none\ninsert end send-1L a a a 8 9\nreplace 1\nreplace 1 set-test S S\ndelete one\nshow S.test middle\nshow S.test after\nshow S.test after 1 2\nlist all\nfaults 1\nsettle now\nrelease 1\nbring 18446744073709551615\nbring 0\n# note\nset S 4\r\nset none 4\n";
    let want =
        b"refused 20 7\nrefused 20 5\nrefused 20 9\nrefused 20 1\nrefused 20 7\nrefused 20 7\nrefused 20 11\nrefused 20 18\nrefused 20 7\nrefused 20 13\nrefused 20 7\nrefused 20 6\nrefused 20 36\nrefused 20 14\nrefused 20 8\nrefused 20 20\nrefused 20 12\nrefused 20 35\nrefused 20 46\nrefused 20 28\nrefused 20 10\nrefused 20 22\nrefused 20 8\nrefused 20 13\nrefused 20 18\nrefused 20 21\nrefused 20 6\nrefused 20 8\nrefused 20 8\nrefused 20 9\nrefused 22\nrefused 22\nrefused 20 7\nrefused 20 5\n";
    assert_run(&rt, script, 1, want);
}

#[test]
fn lists_rows_by_status(rt: HostRuntime) {
    let script =
        b"list\nset S 4\nfield a S 8\ninsert end u-move-constant-1L a 5 8\ninsert start set-context S\nlist\ntake\nlist\nsettle\nlist\nfaults\n";
    let want =
        b"rows 0\nok\nok\nrow 1\nrow 2\nrows 2\n2 edition 4 waiting set-context S\n1 edition 4 waiting u-move-constant-1L a 5 8\norder 1 row 2 edition 4\nrows 2\n2 edition 4 out set-context S\n1 edition 4 waiting u-move-constant-1L a 5 8\nsettled 2\nrows 2\n2 edition 4 settled set-context S\n1 edition 4 settled u-move-constant-1L a 5 8\nfaults 0\n";
    assert_run(&rt, script, 0, want);
}

#[test]
fn tells_the_causes_of_refused_rows(rt: HostRuntime) {
    let script =
        b"set S 4\nfield d S 8\nfield p S 8\nfield q S 8\ninput p 0 3 3 0 1\ninput q 0 0 9 0 0\ninsert end send-1L d p q 8 none\ninsert end get-1L d q p 8\nfaults\nsettle\nfaults\n";
    let want =
        b"ok\nok\nok\nok\nok\nok\nrow 1\nrow 2\nfaults 0\nsettled 2\nfaults 2\n1 collision 3\n2 bad-address 1\n";
    assert_run(&rt, script, 0, want);
}

#[test]
fn released_orders_stay_in_the_tray(rt: HostRuntime) {
    let script =
        b"set S 4\nfield a S 8\ninsert end u-move-constant-1L a 5 8\ntake\ntake\nrelease\ntake\nbring 1\nbring 2\nshow a end\n";
    let want =
        b"ok\nok\nrow 1\norder 1 row 1 edition 3\nnothing\nok\norder 2 row 1 edition 3\nkept\nrepeated\nvalues 5 5 5 5\n";
    assert_run(&rt, script, 0, want);
}

#[test]
fn edits_rows_by_id(rt: HostRuntime) {
    let script =
        b"set S 2x2\nfield a S 8\nfield b S 8\ninsert end u-move-constant-1L a 1 8\ninsert after 1 u-move-1L b a 8\nreplace 1 u-move-constant-1L a 2 8\nsettle\nshow b end\nshow b after 1\ndelete 2\nshow b end\ndelete 2\nreplace 1 u-move-1L a c 8\n";
    let want =
        b"ok\nok\nok\nrow 1\nrow 2\nok\nsettled 2\nvalues 2 2 2 2\nvalues 0 0 0 0\nok\nvalues 0 0 0 0\nrefused 10\nrefused 7\n";
    assert_run(&rt, script, 1, want);
}

/// The words of a command line that is cut at spaces.
fn words_in(alloc: Global, line: &str) -> Result<Vec<String>, Fail> {
    let mut words = Vec::new(alloc);
    for word in line.split(' ') {
        words.push(String::from_str(alloc, word)?)?;
    }
    Ok(words)
}

#[test]
fn takes_a_number_of_workers(rt: HostRuntime) -> Result<(), Fail> {
    for (line, number) in [
        ("--workers 16", 16usize),
        ("--workers=1", 1),
        ("--workers +3", 3),
        ("--workers 007", 7),
        ("--", 2),
    ] {
        let words = words_in(rt.alloc(), line)?;
        let wanted = read_words(rt.alloc(), words.as_slice());
        assert!(rt;
            matches!(wanted, Ok(wanted) if wanted.workers == number && !wanted.desk),
            "at {line}"
        );
        let mut reader = b"settle\n".as_slice();
        let mut out = Vec::new(rt.alloc());
        let mut errors = Vec::new(rt.alloc());
        let status = run_words(
            &rt,
            words.as_slice(),
            &mut reader,
            &mut out,
            &mut errors,
            &mut Tallies::new(),
        );
        assert_eq!(rt; status, 0, "at {line}");
        assert_eq!(rt; out.as_slice(), b"settled 0\n".as_slice(), "at {line}");
        assert!(rt; errors.is_empty(), "at {line}");
    }
    Ok(())
}

#[test]
fn refuses_other_words(rt: HostRuntime) -> Result<(), Fail> {
    for line in [
        "--workers 17",
        "--workers 0",
        "--workers",
        "--workers x",
        "--workers 1 --workers 2",
        "--desk=1",
        "--desk --desk",
        "x",
        "",
        "--help",
    ] {
        let words = words_in(rt.alloc(), line)?;
        let mut reader = b"take\n".as_slice();
        let mut out = Vec::new(rt.alloc());
        let mut errors = Vec::new(rt.alloc());
        let status = run_words(
            &rt,
            words.as_slice(),
            &mut reader,
            &mut out,
            &mut errors,
            &mut Tallies::new(),
        );
        assert_eq!(rt; status, 2, "at {line}");
        assert!(rt; out.is_empty(), "at {line}");
        assert_eq!(rt; reader.len(), 5, "at {line}");
        assert!(rt; !errors.is_empty(), "at {line}");
    }
    Ok(())
}

#[test]
fn goes_on_after_interruptions(rt: HostRuntime) {
    let words = Vec::new(rt.alloc());
    let mut errors = Vec::new(rt.alloc());
    let mut out = Narrow {
        taken: Vec::new(rt.alloc()),
        calls: 0,
        fails: 0,
    };
    let mut input = slow_reader(b"set S 4\ntake\nshw", 1);
    input.interrupts = true;
    let status = run_words(
        &rt,
        words.as_slice(),
        &mut input,
        &mut out,
        &mut errors,
        &mut Tallies::new(),
    );
    assert_eq!(rt;
        out.taken.as_slice(),
        b"ok\nnothing\nrefused 20 1\n".as_slice()
    );
    assert_eq!(rt; status, 1);
}

#[test]
fn stops_at_each_failed_read(rt: HostRuntime) {
    let words = Vec::new(rt.alloc());
    for fails in 1..14u64 {
        let mut out = Vec::new(rt.alloc());
        let mut errors = Vec::new(rt.alloc());
        let mut input = slow_reader(b"set S 4\ntake", 1);
        input.fails = fails;
        let status = run_words(
            &rt,
            words.as_slice(),
            &mut input,
            &mut out,
            &mut errors,
            &mut Tallies::new(),
        );
        let answered = if fails > 8 {
            b"ok\n".as_slice()
        } else {
            b"".as_slice()
        };
        assert_eq!(rt; status, 3);
        assert_eq!(rt; errors.as_slice(), b"read fault\n".as_slice());
        assert_eq!(rt; out.as_slice(), answered);
    }
}

#[test]
fn stops_at_each_failed_write(rt: HostRuntime) {
    let words = Vec::new(rt.alloc());
    let whole = b"ok\nnothing\n".as_slice();
    for fails in 1..22u64 {
        let mut errors = Vec::new(rt.alloc());
        let mut out = Narrow {
            taken: Vec::new(rt.alloc()),
            calls: 0,
            fails,
        };
        let mut input = b"set S 4\ntake".as_slice();
        let status = run_words(
            &rt,
            words.as_slice(),
            &mut input,
            &mut out,
            &mut errors,
            &mut Tallies::new(),
        );
        assert_eq!(rt; status, 3);
        assert_eq!(rt; errors.as_slice(), b"write fault\n".as_slice());
        assert!(rt; whole.starts_with(out.taken.as_slice()));
    }
}

#[test]
fn a_fault_of_the_error_writer_changes_no_status(rt: HostRuntime) {
    let words = Vec::new(rt.alloc());
    let mut out = Vec::new(rt.alloc());
    let mut errors = Narrow {
        taken: Vec::new(rt.alloc()),
        calls: 0,
        fails: 4,
    };
    let mut input = slow_reader(b"take", 4);
    input.fails = 1;
    let status = run_words(
        &rt,
        words.as_slice(),
        &mut input,
        &mut out,
        &mut errors,
        &mut Tallies::new(),
    );
    assert_eq!(rt; status, 3);
    assert_eq!(rt; errors.taken.as_slice(), b"r".as_slice());
}

#[test]
fn counts_read_calls(rt: HostRuntime) {
    for (bound, want, written) in [
        (3u64, Err(RunFault::TooLong), b"".as_slice()),
        (
            6,
            Ok(Summary {
                commands: 1,
                refusals: 0,
            }),
            b"nothing\n".as_slice(),
        ),
    ] {
        let mut out = Vec::new(rt.alloc());
        let mut tally = Tally::new();
        let mut input = slow_reader(b"take\n", 1);
        let alloc = rt.alloc();
        let summary = run_script_bounded(
            &rt, &Alone, alloc, &mut input, &mut out, bound, &mut tally,
        );
        assert_eq!(rt; summary, want);
        assert_eq!(rt; tally.reads(), bound);
        assert_eq!(rt; out.as_slice(), written);
    }
}

#[test]
fn tells_a_whole_script_at_once(rt: HostRuntime) -> Result<(), Fail> {
    let script =
        b"set S 4\nfield a S 8\n\ninsert end u-move-constant-1L a 5 8\nsettle\n# note\nshow a end\nset S 4\ntake";
    let want = b"ok\nok\nrow 1\nsettled 1\nvalues 5 5 5 5\nrefused 3\nnothing\n";
    let text = transcript(rt.alloc(), script)?;
    assert_eq!(rt; text.as_slice(), want.as_slice());
    Ok(())
}
