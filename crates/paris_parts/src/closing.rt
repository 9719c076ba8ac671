//! Closes a desk, and plays the last part of a script on the book that it leaves.

ghost use Rattle.std.specs.Prelude.{◌≡◌, ◌<◌, ◌^◌, ℕ, ◌++◌, true, length, map, IfErr, IfOk};
ghost use mathlib.Core.List.{IsPrefix};
ghost use Rattle.paris_records.specs.Agreement.{Agree, receipts_of_seat};
ghost use Rattle.paris_desk.specs.Closing.{Hinders, by_number, past_of};
ghost use Rattle.paris_desk.specs.declared.closing.Cause.{Cause};
ghost use Rattle.paris_records.specs.History.{state_of};
ghost use Rattle.paris_records.specs.Receipts.{receipts_in};
ghost use Rattle.paris_parts.specs.Faults.{StopsRun, closing_fault};
ghost use Rattle.paris_parts.specs.Run.{Concludes};
ghost use Rattle.paris_parts.specs.Texts.{closed_text, edits_in};

use crate::last::{Transcript, play_last};
use crate::outcome::Ended;
use crate::parts::Part;
use crate::texts::{closed_text, edits_in};
use paris_audit::audit_with;
use paris_book::Book;
use paris_desk::{Cause, CloseFault, Closed, Desk, Entry, Office, Receipt, Seat, close};
use paris_names::{Fault, Profile};
use paris_session::{Settler, Summary};
use std::alloc::{AllocError, Global};
use std::sync::Wait;

/// The fault that ends a run whose desk is not closed.
fn fault_of(cause: Cause) -> Fault
    ensures { result ≡ closing_fault cause }
{
    match cause {
        Cause::Ahead(_, _) | Cause::Missing(_) => Fault::NoEntry,
        Cause::NoMemory => Fault::NoMemory,
    }
}

/// Closes a desk, or ends it where that is refused.
fn closed<L: Office, R: Wait>(rt: &R, desk: Desk<L>, seats: Vec<Seat<L>>) -> Result<Closed, Fault>
    ensures state { IfOk result (λ closed. closed.book ≡ state_of L.profile closed.history.items) }
    ensures agree { IfOk result (λ closed. Agree L.profile closed.history.items (map (λ r. r.items) closed.receipts.items)) }
    ensures receipts { IfOk result (λ closed. map (λ r. r.items) closed.receipts.items ≡ by_number L.seats seats.items) }
    ensures begins { IfOk result (λ closed. (n : ℕ) → n < L.seats → IsPrefix (past_of n seats.items) closed.history.items) }
    ensures each { IfOk result (λ closed. (n : ℕ) → receipts_of_seat (map (λ r. r.items) closed.receipts.items) n ≡ receipts_in n 0 closed.history.items) }
    ensures cause { IfErr result (λ fault. (cause : Cause) × Hinders L.seats seats.items cause × (fault ≡ closing_fault cause)) }
{
    match close(rt, desk, seats) {
        Ok(closed) => Ok(closed),
        Err(fault) => {
            let CloseFault {
                desk,
                seats: _seats,
                cause,
            } = fault;
            desk.discard(rt);
            Err(fault_of(cause))
        }
    }
}

/// What is written of a history that is closed, once it is audited.
fn audited_text(
    alloc: Global,
    profile: Profile,
    history: &[Entry],
    receipts: &[Vec<Receipt>],
) -> Result<Vec<u8>, AllocError>
    requires { Agree profile history.now (map (λ r. r.items) receipts.now) }
    ensures { IfOk result (λ text. text.items ≡ closed_text (edits_in history.now) true) }
{
    let agree = audit_with(alloc, profile, history, receipts)?;
    closed_text(alloc, edits_in(history), agree)
}

/// The book of a closed desk, and what is written of its history.
fn audited(alloc: Global, profile: Profile, closed: Closed) -> Result<(Book, Vec<u8>), AllocError>
    requires { Agree profile closed.history.items (map (λ r. r.items) closed.receipts.items) }
    ensures book { IfOk result (λ p. p.0 ≡ closed.book) }
    ensures text { IfOk result (λ p. p.1.items ≡ closed_text (edits_in closed.history.items) true) }
{
    let Closed {
        book,
        history,
        receipts,
    } = closed;
    let text = audited_text(alloc, profile, history.as_slice(), receipts.as_slice())?;
    Ok((book, text))
}

/// A text with two more behind it.
fn joined(text: Vec<u8>, next: &[u8], last: &[u8]) -> Result<Vec<u8>, AllocError>
    ensures { IfOk result (λ all. all.items ≡ (text.items ++ next.now) ++ last.now) }
{
    let mut all = text;
    all.extend_from_slice(next)?;
    all.extend_from_slice(last)?;
    Ok(all)
}

/// Closes the desk, audits what it leaves, and plays the last part on the book that it leaves. What is written is added to what the
/// parts wrote.
pub(crate) fn conclude<L: Office, R: Wait, S: Settler>(
    rt: &R,
    settler: &S,
    alloc: Global,
    profile: Profile,
    desk: Desk<L>,
    ended: Ended<L>,
    last: &Part,
) -> Result<Transcript, Fault>
    requires settler { S.can_settle settler.now }
    requires profile { profile ≡ L.profile }
    requires few { (length last.now < 2 ^ 62) × (ended.summary.commands < 2 ^ 62) × (ended.summary.refusals < 2 ^ 62) }
    ensures concluded { IfOk result (λ t. Concludes L.profile L.seats ended.seats.items last.now ended.text.items t.text.items ended.summary t.summary) }
    ensures fault { IfErr result (λ fault. StopsRun L.limit fault) }
{
    let Ended {
        seats,
        text,
        summary,
    } = ended;
    let left = closed(rt, desk, seats)?;
    let (book, closing) = audited(alloc, profile, left)?;
    let rest = play_last(settler, alloc, book, last)?;
    let all = joined(text, closing.as_slice(), rest.text.as_slice())?;
    let summary = Summary {
        commands: summary.commands + rest.summary.commands,
        refusals: summary.refusals + rest.summary.refusals,
    };
    Ok(Transcript { text: all, summary })
}
