//! What a run keeps of its calls, and what one call gave.

ghost use Rattle.std.specs.Prelude.{◌≡◌, ℕ, ◌+◌, ◌^◌, ◌<◌, true, false};
ghost use Rattle.paris_session.specs.Calls.{no_marks, IsGivenBy, IsSentBy, ReadMarks, WriteMarks};

use std::io;
use std::io::ErrorKind;
use std::marker::Model;

/// How often a run has asked its reader, and how its reader and writer answered. Only `note_read` and `note_write` change it.
/// A clause sees the marks of `specs/Calls.antt`.
#[derive(Drop)]
pub struct Tally {
    reads: u64,
    ended: bool,
    read_failed: bool,
    write_failed: bool,
}

impl Model for Tally {
    ghost use Rattle.paris_session.specs.Calls.{Marks};

    ghost Value = { Marks };

    ghost view = { λ t. record { reads = t.reads; ended = t.ended; read_failed = t.read_failed; write_failed = t.write_failed } };
}

/// What one read gave.
#[derive(Clone, Copy, Debug, PartialEq, Eq)]
pub enum Given {
    /// This many bytes.
    Bytes(usize),
    /// The reader is at its end.
    End,
    /// Nothing: the call was interrupted.
    Interrupted,
    Failed,
}

/// What one write took.
#[derive(Clone, Copy, Debug, PartialEq, Eq)]
pub enum Sent {
    /// This many bytes.
    Bytes(usize),
    /// Nothing: the call was interrupted.
    Interrupted,
    Failed,
}

impl Tally {
    /// The tally of a run that has called nothing yet.
    pub fn new() -> Tally
        ensures { result ≡ no_marks }
    {
        Tally {
            reads: 0,
            ended: false,
            read_failed: false,
            write_failed: false,
        }
    }

    /// How often the reader was asked.
    pub fn reads(&self) -> u64
        ensures { result ≡ self.now.reads }
    {
        self.reads
    }

    /// Notes what the reader answered, and says what that gave.
    pub(crate) fn note_read(&mut self, answer: &io::Result<usize>) -> Given
        requires few { self.old.reads < 2 ^ 62 }
        ensures given { IsGivenBy answer.now result }
        ensures marks { ReadMarks self.old self.new result }
    {
        self.reads += 1;
        match answer {
            Ok(0) => {
                self.ended = true;
                Given::End
            }
            Ok(n) => Given::Bytes(*n),
            Err(e) => {
                if e.kind() == ErrorKind::Interrupted {
                    return Given::Interrupted;
                }
                self.read_failed = true;
                Given::Failed
            }
        }
    }

    /// Notes what the writer answered, and says what that took. That it takes no byte is a failure.
    pub(crate) fn note_write(&mut self, answer: &io::Result<usize>) -> Sent
        ensures sent { IsSentBy answer.now result }
        ensures marks { WriteMarks self.old self.new result }
    {
        match answer {
            Ok(0) => {
                self.write_failed = true;
                Sent::Failed
            }
            Ok(n) => Sent::Bytes(*n),
            Err(e) => {
                if e.kind() == ErrorKind::Interrupted {
                    return Sent::Interrupted;
                }
                self.write_failed = true;
                Sent::Failed
            }
        }
    }
}
