//! The transcript of a script that is given as a whole.

ghost use Rattle.std.specs.Prelude.{◌≡◌, ◌^◌, ◌<◌, length, nat_eq, IfOk};
ghost use Rattle.paris_session.specs.Transcript.{transcript};

use crate::answers::Session;
use crate::settlers::Alone;
use std::alloc::{AllocError, Global};

pub(crate) fn is_line_feed(byte: u8) -> bool
    ensures { result ≡ nat_eq byte 10 }
{
    byte == b'\n'
}

/// What is written for a script, whose rows are settled in the caller's thread.
pub fn transcript(alloc: Global, script: &[u8]) -> Result<Vec<u8>, AllocError>
    requires { length script.now < 2 ^ 62 }
    ensures { IfOk result (λ text. text.items ≡ transcript script.now) }
{
    let mut session = Session::new(alloc);
    let mut text = Vec::new(alloc);
    for line in script.split(|byte| is_line_feed(*byte)) {
        let Ok(reply) = session.answer(&Alone, line) else {
            return Err(AllocError);
        };
        text.extend_from_slice(reply.as_slice())?;
    }
    Ok(text)
}
