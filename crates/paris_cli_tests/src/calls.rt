//! Single calls of a reader that fails once and of a writer that takes all that it is given.

ghost use Rattle.std.specs.Prelude.{Some};

use paris_session::{Given, Sent, Tally, read_once, write_once};
use std::io;
use std::io::{ErrorKind, Read, Write};
use std::test::*;

/// Fails at the first call, is interrupted at the second one, and gives all of its bytes at the third.
#[derive(Drop)]
struct Late<'a> {
    bytes: &'a [u8],
    calls: u64,
}

impl<'a> Read for Late<'a> {
    ghost remaining = { λ r. Some r.bytes.now };

    fn read(&mut self, room: &mut [u8]) -> io::Result<usize> {
        self.calls = self.calls.saturating_add(1);
        if self.calls == 1 {
            return Err(ErrorKind::Other.into());
        }
        if self.calls == 2 {
            return Err(ErrorKind::Interrupted.into());
        }
        let count = self.bytes.len().min(room.len());
        room[..count].copy_from_slice(&self.bytes[..count]);
        self.bytes = &self.bytes[count..];
        Ok(count)
    }
}

/// Takes all that it is given, and counts the calls.
#[derive(Drop)]
struct Wide {
    taken: Vec<u8>,
    calls: u64,
}

impl Write for Wide {
    ghost contents = { λ w. Some w.taken.items };

    fn write(&mut self, text: &[u8]) -> io::Result<usize> {
        self.calls = self.calls.saturating_add(1);
        self.taken.extend_from_slice(text)?;
        Ok(text.len())
    }

    fn flush(&mut self) -> io::Result<()> {
        Ok(())
    }
}

#[test]
fn a_reader_is_asked_once_and_told_as_it_answers(rt: HostRuntime) {
    let mut reader = Late {
        bytes: b"take\n",
        calls: 0,
    };
    let mut tally = Tally::new();
    let mut room = [0u8; 8];
    for (number, given) in [
        (1u64, Given::Failed),
        (2, Given::Interrupted),
        (3, Given::Bytes(5)),
        (4, Given::End),
    ] {
        assert!(rt; tally.reads() < number);
        assert!(rt; number < 9);
        assert_eq!(rt; read_once(&mut reader, &mut tally, &mut room), given);
        assert!(rt; reader.calls == number && tally.reads() == number);
    }
    assert_eq!(rt; &room[..5], b"take\n".as_slice());
}

#[test]
fn a_writer_is_asked_once_for_all(rt: HostRuntime) {
    let mut writer = Wide {
        taken: Vec::new(rt.alloc()),
        calls: 0,
    };
    let mut tally = Tally::new();
    for number in 1..4u64 {
        let sent = write_once(&mut writer, &mut tally, b"nothing\n");
        assert_eq!(rt; sent, Sent::Bytes(8));
        assert_eq!(rt; writer.calls, number);
    }
    assert_eq!(rt; writer.taken.len(), 24);
}
