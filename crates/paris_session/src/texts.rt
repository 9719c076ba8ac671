//! Whole texts, by single writes.

ghost use Rattle.std.specs.Prelude.{◌≡◌, true, OnOk, OnErr};
ghost use Rattle.std.specs.Io.KnownBytes.{Appends};
ghost use Rattle.paris_session.specs.Calls.{SameReads};
ghost use Rattle.paris_session.specs.Texts.{WritesFront};

use crate::calls::write_once;
use crate::tally::{Sent, Tally};
use std::io::Write;
use std::sync::Wait;

/// The writer failed before it had taken the whole text.
#[derive(Clone, Copy, Debug, PartialEq, Eq)]
pub struct WriteFailed;

/// Writes the whole text, by as many writes as the writer takes. At an error the writer has taken a front of it.
pub fn write_out<W: Write>(
    rt: &impl Wait,
    writer: &mut W,
    tally: &mut Tally,
    text: &[u8],
) -> Result<(), WriteFailed>
    ensures ok { OnOk result (Appends (W.contents writer.old) (W.contents writer.new) text.now) }
    ensures err { OnErr result (WritesFront (W.contents writer.old) (W.contents writer.new) text.now) }
    ensures failed { OnErr result (tally.new.write_failed ≡ true) }
    ensures reads { SameReads tally.old tally.new }
    ensures kept { OnOk result (tally.new ≡ tally.old) }
{
    let mut rest = text;
    for _ in rt.forever() {
        if rest.is_empty() {
            return Ok(());
        }
        match write_once(writer, tally, rest) {
            Sent::Bytes(n) => rest = &rest[n..],
            Sent::Interrupted => {}
            Sent::Failed => return Err(WriteFailed),
        }
    }
    unreachable!()
}
