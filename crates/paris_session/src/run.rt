//! Runs a script: reads it from any reader, and writes the reply to each of its commands to any writer.

ghost use Rattle.std.specs.Prelude.{◌≡◌, ℕ, ◌+◌, ◌^◌, ◌<◌, ◌≤◌, List, [], ◌∷◌, length, nat_eq, take, true, false, IfOk, IfErr, OnOk, OnErr};
ghost use Rattle.std.specs.Io.KnownBytes.{Appends, Keeps};
ghost use Rattle.std.specs.List.{position_or_len};
ghost use Rattle.paris_session.specs.Calls.{no_marks, SameReads};
ghost use Rattle.paris_session.specs.Texts.{WritesFront};
ghost use Rattle.paris_session.specs.Transcript.{answer, start};
ghost use Rattle.paris_session.specs.Progress.{ended_lines, open_line, said, sitting_at};
ghost use Rattle.paris_session.specs.Run.{most_reads, IsWriteFault, HasCause, HasEnded, EndsWell, StopsShort};

use crate::answers::{Session, Summary};
use crate::calls::read_once;
use crate::settlers::Settler;
use crate::tally::{Given, Tally};
use crate::texts::write_out;
use crate::whole::is_line_feed;
use paris_names::limits::{MAX_LINE, MAX_READS};
use std::alloc::Global;
use std::io::{Read, Write};
use std::sync::Wait;
use thiserror::Error;

/// Why a run stops before its script ends.
#[derive(Clone, Copy, Debug, PartialEq, Eq, Error)]
pub enum RunFault {
    /// The reader failed.
    #[error("read fault")]
    Read,
    /// The writer failed.
    #[error("write fault")]
    Write,
    /// The reader was asked as often as a run may ask it, and has not ended.
    #[error("too long")]
    TooLong,
    /// There is no memory left.
    #[error("no memory")]
    NoMemory,
}

/// Writes a reply.
fn write_reply<W: Write>(
    rt: &impl Wait,
    writer: &mut W,
    tally: &mut Tally,
    text: &[u8],
) -> Result<(), RunFault>
    ensures ok { OnOk result (Appends (W.contents writer.old) (W.contents writer.new) text.now) }
    ensures err { OnErr result (WritesFront (W.contents writer.old) (W.contents writer.new) text.now) }
    ensures fault { IfErr result (λ e. (e ≡ RunFault.Write) × (tally.new.write_failed ≡ true)) }
    ensures reads { SameReads tally.old tally.new }
    ensures kept { OnOk result (tally.new ≡ tally.old) }
{
    match write_out(rt, writer, tally, text) {
        Ok(()) => Ok(()),
        Err(_) => Err(RunFault::Write),
    }
}

/// How many bytes stand before a line feed.
fn len_before_line_feed(bytes: &[u8]) -> usize
    ensures within { result ≤ length bytes.now }
    ensures value { result ≡ position_or_len (λ b. nat_eq b 10) bytes.now }
{
    for (i, byte) in bytes.iter().enumerate() {
        if is_line_feed(*byte) {
            return i;
        }
    }
    bytes.len()
}

/// A session, and the line that has begun.
#[derive(Drop)]
struct Script {
    session: Session,
    line: Vec<u8>,
}

impl Script {
    fn new(alloc: Global) -> Script
        ensures session { result.session ≡ start }
        ensures line { result.line.items ≡ [] }
    {
        Script {
            session: Session::new(alloc),
            line: Vec::new(alloc),
        }
    }

    /// Answers the line that has begun, and begins a new one.
    fn end_line<S: Settler>(&mut self, settler: &S) -> Result<Vec<u8>, RunFault>
        requires room { self.old.session.hand.commands < 2 ^ 62 }
        requires settler { S.can_settle settler.now }
        ensures answer { IfOk result (λ text. (self.new.session, text.items) ≡ answer self.old.session self.old.line.items) }
        ensures line { OnOk result (self.new.line.items ≡ []) }
        ensures count { OnOk result (self.new.session.hand.commands ≤ self.old.session.hand.commands + 1) }
        ensures err { IfErr result (λ e. e ≡ RunFault.NoMemory) }
    {
        match self.session.answer(settler, self.line.as_slice()) {
            Ok(text) => {
                self.line.clear();
                Ok(text)
            }
            Err(_) => Err(RunFault::NoMemory),
        }
    }

    /// Takes the bytes that stand before a line feed into the line that has begun. The answer is how many they are.
    fn take_run(&mut self, bytes: &[u8]) -> Result<usize, RunFault>
        ensures session { self.new.session ≡ self.old.session }
        ensures count { IfOk result (λ n. n ≡ position_or_len (λ b. nat_eq b 10) bytes.now) }
        ensures ends { IfOk result (λ n. ended_lines self.old.line.items (take n bytes.now) ≡ []) }
        ensures line { IfOk result (λ n. self.new.line.items ≡ open_line self.old.line.items (take n bytes.now)) }
        ensures err { IfErr result (λ e. e ≡ RunFault.NoMemory) }
    {
        let count = len_before_line_feed(bytes);
        let room = (MAX_LINE + 1).saturating_sub(self.line.len());
        match self.line.extend_from_slice(&bytes[..count.min(room)]) {
            Ok(()) => Ok(count),
            Err(_) => Err(RunFault::NoMemory),
        }
    }

    /// Takes a line feed, and answers the line that it ends, or the bytes that stand before one. The answer is how many bytes it took.
    fn take_part<H: Wait, S: Settler, W: Write>(
        &mut self,
        rt: &H,
        settler: &S,
        writer: &mut W,
        tally: &mut Tally,
        bytes: &[u8],
    ) -> Result<usize, RunFault>
        requires room { self.old.session.hand.commands < 2 ^ 62 }
        requires settler { S.can_settle settler.now }
        requires some { 0 < length bytes.now }
        ensures some { IfOk result (λ n. (0 < n) × (n ≤ length bytes.now)) }
        ensures session { IfOk result (λ n. self.new.session ≡ sitting_at self.old.session self.old.line.items (take n bytes.now)) }
        ensures line { IfOk result (λ n. self.new.line.items ≡ open_line self.old.line.items (take n bytes.now)) }
        ensures written { IfOk result (λ n. Appends (W.contents writer.old) (W.contents writer.new)
            (said self.old.session self.old.line.items (take n bytes.now))) }
        ensures err { OnErr result (WritesFront (W.contents writer.old) (W.contents writer.new)
            (said self.old.session self.old.line.items (take 1 bytes.now))) }
        ensures fault { IfErr result (λ e. IsWriteFault e tally.old tally.new) }
        ensures reads { SameReads tally.old tally.new }
        ensures kept { OnOk result (tally.new ≡ tally.old) }
        ensures count { IfOk result (λ n. self.new.session.hand.commands ≤ self.old.session.hand.commands + n) }
    {
        if bytes[0] != b'\n' {
            let count = self.take_run(bytes)?;
            return Ok(count);
        }
        let answer = self.end_line(settler)?;
        write_reply(rt, writer, tally, answer.as_slice())?;
        Ok(1)
    }

    /// Takes some bytes, and answers each line that they end.
    fn take_bytes<H: Wait, S: Settler, W: Write>(
        &mut self,
        rt: &H,
        settler: &S,
        writer: &mut W,
        tally: &mut Tally,
        bytes: &[u8],
    ) -> Result<(), RunFault>
        requires room { self.old.session.hand.commands + length bytes.now < 2 ^ 62 }
        requires settler { S.can_settle settler.now }
        ensures session { OnOk result (self.new.session ≡ sitting_at self.old.session self.old.line.items bytes.now) }
        ensures line { OnOk result (self.new.line.items ≡ open_line self.old.line.items bytes.now) }
        ensures written { OnOk result (Appends (W.contents writer.old) (W.contents writer.new)
            (said self.old.session self.old.line.items bytes.now)) }
        ensures err { OnErr result (WritesFront (W.contents writer.old) (W.contents writer.new)
            (said self.old.session self.old.line.items bytes.now)) }
        ensures fault { IfErr result (λ e. IsWriteFault e tally.old tally.new) }
        ensures reads { SameReads tally.old tally.new }
        ensures kept { OnOk result (tally.new ≡ tally.old) }
        ensures count { OnOk result (self.new.session.hand.commands ≤ self.old.session.hand.commands + length bytes.now) }
    {
        let mut at = 0;
        while at < bytes.len() {
            at += self.take_part(rt, settler, writer, tally, &bytes[at..])?;
        }
        Ok(())
    }

    /// Answers the line that has begun, as the last one.
    fn finish<H: Wait, S: Settler, W: Write>(
        &mut self,
        rt: &H,
        settler: &S,
        writer: &mut W,
        tally: &mut Tally,
    ) -> Result<Summary, RunFault>
        requires room { self.old.session.hand.commands < 2 ^ 62 }
        requires settler { S.can_settle settler.now }
        ensures ok { IfOk result (λ summary. let last = answer self.old.session self.old.line.items in
            Appends (W.contents writer.old) (W.contents writer.new) last.1
            × (summary ≡ record { commands = last.0.hand.commands; refusals = last.0.hand.refusals })) }
        ensures err { IfErr result (λ e. IsWriteFault e tally.old tally.new
            × WritesFront (W.contents writer.old) (W.contents writer.new) (answer self.old.session self.old.line.items).1) }
        ensures reads { SameReads tally.old tally.new }
        ensures kept { OnOk result (tally.new ≡ tally.old) }
    {
        let reply = self.end_line(settler)?;
        write_reply(rt, writer, tally, reply.as_slice())?;
        Ok(self.session.summary())
    }
}

/// Room for the bytes of one read.
const ROOM: usize = 4096;

/// Reads a script to its end, by at most `bound` reads, and writes its transcript. The tally says what came of it.
pub fn run_script_bounded<H: Wait, S: Settler, R: Read, W: Write>(
    rt: &H,
    settler: &S,
    alloc: Global,
    reader: &mut R,
    writer: &mut W,
    bound: u64,
    tally: &mut Tally,
) -> Result<Summary, RunFault>
    requires bound { bound ≤ most_reads }
    requires settler { S.can_settle settler.now }
    requires fresh { tally.old ≡ no_marks }
    ensures ended { OnOk result (HasEnded tally.new) }
    ensures ok { IfOk result (λ summary. EndsWell (R.remaining reader.old) (R.remaining reader.new)
        (W.contents writer.old) (W.contents writer.new) summary) }
    ensures short { IfErr result (λ fault. StopsShort (R.remaining reader.old) (R.remaining reader.new)
        (W.contents writer.old) (W.contents writer.new) fault) }
    ensures fault { IfErr result (λ fault. HasCause fault tally.new bound) }
    ensures bounded { tally.new.reads ≤ bound }
{
    let mut script = Script::new(alloc);
    let mut room = [0u8; ROOM];
    for _ in 0..bound {
        match read_once(reader, tally, &mut room) {
            Given::Bytes(n) => script.take_bytes(rt, settler, writer, tally, &room[..n])?,
            Given::End => return script.finish(rt, settler, writer, tally),
            Given::Interrupted => {}
            Given::Failed => return Err(RunFault::Read),
        }
    }
    Err(RunFault::TooLong)
}

/// Reads a script to its end, and writes its transcript, which is the same whoever settles. The tally says what came of it.
pub fn run_script<H: Wait, S: Settler, R: Read, W: Write>(
    rt: &H,
    settler: &S,
    alloc: Global,
    reader: &mut R,
    writer: &mut W,
    tally: &mut Tally,
) -> Result<Summary, RunFault>
    requires settler { S.can_settle settler.now }
    requires fresh { tally.old ≡ no_marks }
    ensures ended { OnOk result (HasEnded tally.new) }
    ensures ok { IfOk result (λ summary. EndsWell (R.remaining reader.old) (R.remaining reader.new)
        (W.contents writer.old) (W.contents writer.new) summary) }
    ensures short { IfErr result (λ fault. StopsShort (R.remaining reader.old) (R.remaining reader.new)
        (W.contents writer.old) (W.contents writer.new) fault) }
    ensures fault { IfErr result (λ fault. HasCause fault tally.new most_reads) }
    ensures bounded { tally.new.reads ≤ most_reads }
{
    run_script_bounded(rt, settler, alloc, reader, writer, MAX_READS, tally)
}
