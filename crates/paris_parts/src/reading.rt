//! Reads a script as a whole.

ghost use Rattle.std.specs.Prelude.{◌≡◌, ◌*◌, ◌≤◌, length, OnOk, IfOk, IfErr};
ghost use Rattle.std.specs.Io.KnownBytes.{Consumes, IsAtEnd};
ghost use Rattle.paris_session.specs.Calls.{no_marks};
ghost use Rattle.paris_session.specs.Run.{most_reads, HasCause, HasEnded};

use paris_session::{Given, RunFault, Tally, read_once};
use std::alloc::Global;
use std::io::Read;

/// Room for the bytes of one read.
const ROOM: usize = 4096;

/// Reads to the end, by at most `bound` reads.
pub fn read_all<R: Read>(
    alloc: Global,
    reader: &mut R,
    bound: u64,
    tally: &mut Tally,
) -> Result<Vec<u8>, RunFault>
    requires bound { bound ≤ most_reads }
    requires fresh { tally.old ≡ no_marks }
    ensures script { IfOk result (λ script. Consumes (R.remaining reader.old) (R.remaining reader.new) script.items × IsAtEnd (R.remaining reader.new)) }
    ensures few { IfOk result (λ script. length script.items ≤ 4096 * bound) }
    ensures ended { OnOk result (HasEnded tally.new) }
    ensures fault { IfErr result (λ fault. HasCause fault tally.new bound) }
    ensures bounded { tally.new.reads ≤ bound }
{
    let mut script = Vec::new(alloc);
    let mut room = [0u8; ROOM];
    for _ in 0..bound {
        match read_once(reader, tally, &mut room) {
            Given::Bytes(n) => {
                if script.extend_from_slice(&room[..n]).is_err() {
                    return Err(RunFault::NoMemory);
                }
            }
            Given::End => return Ok(script),
            Given::Interrupted => {}
            Given::Failed => return Err(RunFault::Read),
        }
    }
    Err(RunFault::TooLong)
}
