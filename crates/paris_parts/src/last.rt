//! Plays the last part of a script, on the book that a desk left.

ghost use Rattle.std.specs.Prelude.{◌≡◌, [], ◌<◌, ◌≤◌, ◌^◌, length, IfOk};
ghost use Rattle.paris_events.specs.Settling.{all_settled};
ghost use Rattle.paris_session.specs.Transcript.{start, with_book, replies, after_lines};

use crate::parts::Part;
use paris_book::Book;
use paris_session::{Session, Settler, Summary};
use std::alloc::{AllocError, Global};

/// What a run has to write, and how many commands it answered.
#[derive(Drop)]
pub struct Transcript {
    pub text: Vec<u8>,
    pub summary: Summary,
}

/// Settles the book, and answers the lines of the part. The error says that memory was refused.
pub fn play_last<S: Settler>(
    settler: &S,
    alloc: Global,
    book: Book,
    part: &Part,
) -> Result<Transcript, AllocError>
    requires settler { S.can_settle settler.now }
    requires few { length part.now < 2 ^ 62 }
    ensures text { IfOk result (λ t. t.text.items ≡ replies (with_book start (all_settled book) []) part.now) }
    ensures count { IfOk result (λ t. let last = after_lines (with_book start (all_settled book) []) part.now in
        t.summary ≡ record { commands = last.hand.commands; refusals = last.hand.refusals }) }
    ensures few { IfOk result (λ t. (t.summary.commands ≤ length part.now) × (t.summary.refusals ≤ t.summary.commands)) }
{
    let mut session = Session::of_book(alloc, book);
    let Ok(_) = session.settle(settler) else {
        return Err(AllocError);
    };
    let mut text = Vec::new(alloc);
    let lines = part.lines();
    for line in lines {
        let Ok(reply) = session.answer(settler, line.as_slice()) else {
            return Err(AllocError);
        };
        text.extend_from_slice(reply.as_slice())?;
    }
    Ok(Transcript {
        text,
        summary: session.summary(),
    })
}
