//! Single calls of a reader and a writer, counted.

ghost use Rattle.std.specs.Prelude.{ℕ, ◌^◌, ◌<◌, length};
ghost use Rattle.paris_session.specs.Calls.{ReadGives, WriteTakes, ReadMarks, WriteMarks};

use crate::tally::{Given, Sent, Tally};
use std::io::{Read, Write};

/// Asks the reader once. That its very answer is noted is what its contract rests on, and can't say: a reader remembers no answers.
pub fn read_once<R: Read>(reader: &mut R, tally: &mut Tally, room: &mut [u8]) -> Given
    requires some_room { 0 < length room.old }
    requires few { tally.old.reads < 2 ^ 62 }
    ensures bytes { ReadGives (R.remaining reader.old) (R.remaining reader.new) room.new result }
    ensures marks { ReadMarks tally.old tally.new result }
{
    let answer = reader.read(room);
    tally.note_read(&answer)
}

/// Hands the writer some bytes once. That it takes none of them is a failure. As with a read, its very answer is noted.
pub fn write_once<W: Write>(writer: &mut W, tally: &mut Tally, text: &[u8]) -> Sent
    ensures bytes { WriteTakes (W.contents writer.old) (W.contents writer.new) text.now result }
    ensures marks { WriteMarks tally.old tally.new result }
{
    let answer = writer.write(text);
    tally.note_write(&answer)
}
