//! How a desk ends with all of its seats.

ghost use Rattle.std.specs.Prelude.{◌≡◌, ◌≢◌, ◌<◌, ◌≤◌, ◌+◌, ◌==◌, ℕ, true, [], length, map, position, IfOk, IfErr, MatchOption, vec_capacity};
ghost use mathlib.Core.List.{IsPrefix};
ghost use Rattle.std.specs.List.{sum_by};
ghost use Rattle.std.specs.Arc.{arc_value};
ghost use Rattle.paris_records.specs.History.{Legal, state_of};
ghost use Rattle.paris_records.specs.Agreement.{Agree, receipts_of_seat};
ghost use Rattle.paris_records.specs.Receipts.{IsPart, receipts_in};
ghost use Rattle.paris_desk.specs.Closing.{AreHere, AreWithin, Hinders, IsAhead, by_number, has_seat, is_unopened, past_of, receipts_of};

use crate::desk::Desk;
use crate::hold::Locked;
use crate::log::Known;
use crate::office::Office;
use crate::publishing::end;
use crate::seat::Seat;
use paris_book::Book;
use paris_records::{Entry, Receipt};
use std::alloc::Global;
use std::sync::ledger::Share;
use std::sync::{Arc, Mutex, Wait};
use thiserror::Error;

/// What is left of a closed desk: the book, the history that led to it, and the receipts of each seat, by its number.
#[derive(Drop)]
pub struct Closed {
    pub book: Book,
    pub history: Vec<Entry>,
    pub receipts: Vec<Vec<Receipt>>,
}

/// Why a desk is not closed.
#[derive(Clone, Copy, PartialEq, Eq, Debug, Error)]
pub enum Cause {
    /// The seat of this number is not handed in, and all seats of lesser numbers are.
    #[error("seat {0} is not handed in")]
    Missing(u64),
    /// The seat of this number knows more than the history's entries, of which there are so many, and no seat of a lesser number
    /// does.
    #[error("seat {0} knows more than the {1} entries of the history")]
    Ahead(u64, u64),
    /// Memory for the lists of receipts was refused.
    #[error("there is no memory left")]
    NoMemory,
}

/// A desk that is not closed, with the seats that were handed in, and the cause, which is the error: a desk isn't dropped, and an error
/// may be.
pub struct CloseFault<L: Office> {
    pub desk: Desk<L>,
    pub seats: Vec<Seat<L>>,
    pub cause: Cause,
}

/// Whether one of the seats has a number.
fn has_seat<L: Office>(seats: &[Seat<L>], number: u64) -> bool
    ensures { result ≡ has_seat number seats.now }
{
    seats.iter().any(|seat| seat.number() == number)
}

/// The least number below a count that no seat has.
fn first_missing<L: Office>(seats: &[Seat<L>], count: u64) -> Option<u64>
    ensures { MatchOption result (AreHere count seats.now) (λ number. Hinders count seats.now (Cause.Missing number)) }
{
    for number in 0..count {
        if !has_seat(seats, number) {
            return Some(number);
        }
    }
    None
}

/// Why receipts can't be gathered. Where nothing hinders it there is room for a list of each seat.
fn hindrance<L: Office>(
    seats: &[Seat<L>],
    count: u64,
    receipts: &mut Vec<Vec<Receipt>>,
) -> Option<Cause>
    requires { receipts.old.items ≡ [] }
    ensures cause { MatchOption result (AreHere count seats.now) (λ cause. Hinders count seats.now cause) }
    ensures room { MatchOption result ((receipts.new.items ≡ []) × (count ≤ vec_capacity receipts.new)) (λ _. Unit {0}) }
{
    if let Some(number) = first_missing(seats, count) {
        return Some(Cause::Missing(number));
    }
    if receipts.reserve(count as usize).is_err() {
        return Some(Cause::NoMemory);
    }
    None
}

/// The place of the first seat of a number.
fn place_of<L: Office>(seats: &[Seat<L>], number: u64) -> Option<usize>
    ensures { result ≡ position (λ s. s.number == number) seats.now }
{
    seats.iter().position(|seat| seat.number() == number)
}

/// How many entries the first seat of a number knows.
fn known_by<L: Office>(seats: &[Seat<L>], number: u64) -> u64
    requires { has_seat number seats.now ≡ true }
    ensures { result ≡ length (past_of number seats.now) }
{
    match place_of(seats, number) {
        Some(place) => {
            let seat = &seats[place];
            seat.known.len()
        }
        None => unreachable!(),
    }
}

/// The least number below a count of a seat that knows more than a history.
fn first_ahead<L: Office>(seats: &[Seat<L>], count: u64, known: &Known<L>) -> Option<u64>
    requires { AreHere count seats.now }
    ensures { MatchOption result (AreWithin count (length known.now) seats.now) (λ number. (number < count) × IsAhead number (length known.now) seats.now) }
{
    for number in 0..count {
        if known_by(seats, number) > known.len() {
            return Some(number);
        }
    }
    None
}

/// Takes the first seat of a number out.
fn take_out<L: Office>(seats: &mut Vec<Seat<L>>, number: u64) -> Seat<L>
    requires { has_seat number seats.old.items ≡ true }
    ensures number { result.number ≡ number }
    ensures receipts { result.receipts ≡ receipts_of number seats.old.items }
    ensures past { result.past ≡ past_of number seats.old.items }
    ensures len { length seats.new.items + 1 ≡ length seats.old.items }
    ensures others { (n : ℕ) → n ≢ number → (has_seat n seats.new.items ≡ has_seat n seats.old.items)
        × (receipts_of n seats.new.items ≡ receipts_of n seats.old.items)
        × (past_of n seats.new.items ≡ past_of n seats.old.items) }
{
    match place_of(seats.as_slice(), number) {
        Some(place) => seats.remove(place),
        None => unreachable!(),
    }
}

/// Lets seats go of which none is left, since its part would be one more than there are.
fn let_none_go<L: Office>(whole: &mut Share<L>, left: Vec<Seat<L>>)
    requires { whole.old.parts ≡ L.parts }
    ensures none { left.items ≡ [] }
    ensures same { (whole.new.parts ≡ whole.old.parts) × (whole.new.amount ≡ whole.old.amount) }
{
    let mut left = left;
    if let Some(seat) = left.pop() {
        let Seat {
            number: _,
            receipts: _receipts,
            front: _,
            share,
            known: _known,
            reader: _reader,
        } = seat;
        whole.merge(share);
        unreachable!();
    }
}

/// Gathers the receipts by number, and merges the shares. The history, of which all is known, begins with the past of each seat, and
/// the receipts are a part of it.
fn gather<L: Office>(
    receipts: &mut Vec<Vec<Receipt>>,
    whole: &mut Share<L>,
    seats: Vec<Seat<L>>,
    count: u64,
    known: &Known<L>,
)
    requires room { (receipts.old.items ≡ []) × (count ≤ vec_capacity receipts.old) }
    requires none { (whole.old.parts ≡ 0) × (whole.old.amount ≡ 0) }
    requires here { AreHere count seats.items }
    requires within { AreWithin count (length known.now) seats.items }
    requires parts { count ≡ L.parts }
    ensures len { length seats.items ≡ count }
    ensures parts { whole.new.parts ≡ count }
    ensures amount { whole.new.amount ≡ sum_by length (by_number count seats.items) }
    ensures receipts { map (λ r. r.items) receipts.new.items ≡ by_number count seats.items }
    ensures pasts { (n : ℕ) → n < count → IsPrefix (past_of n seats.items) known.now }
    ensures standing { (n : ℕ) → n < count → IsPart n 0 (receipts_of n seats.items) known.now }
{
    let mut left = seats;
    for number in 0..count {
        let Seat {
            number: _,
            receipts: own,
            front: _,
            share,
            known: past,
            reader: _reader,
        } = take_out(&mut left, number);
        past.compare(known);
        whole.merge(share);
        receipts.push_reserved(own);
    }
    let_none_go(whole, left);
}

/// The book, once nobody else has it: when nobody looks any more and nobody publishes, that is so.
fn alone<R: Wait>(rt: &R, book: Arc<Book, Global>) -> Book
    ensures { result ≡ arc_value book }
{
    let mut book = book;
    for _ in rt.forever() {
        match Arc::try_unwrap(book) {
            Ok(alone) => return alone,
            Err(back) => book = back,
        }
    }
    unreachable!()
}

/// Closes a desk, once its seats are handed in: seats and desk are given up for what they leave. The history is legal and leads to
/// the book. It begins with the past of each seat, and its entries of a seat are that seat's receipts, in order and each once, so that
/// `audit` finds that they agree. Where a seat is missing, or memory is refused, all is handed back, and so it is where a seat knows
/// more than the history has.
pub fn close<L: Office, R: Wait>(
    rt: &R,
    desk: Desk<L>,
    seats: Vec<Seat<L>>,
) -> Result<Closed, CloseFault<L>>
    ensures legal { IfOk result (λ closed. Legal L.profile closed.history.items × (closed.book ≡ state_of L.profile closed.history.items)) }
    ensures receipts { IfOk result (λ closed. map (λ r. r.items) closed.receipts.items ≡ by_number L.seats seats.items) }
    ensures count { IfOk result (λ closed. length closed.history.items ≡ sum_by length (by_number L.seats seats.items)) }
    ensures here { IfOk result (λ _. AreHere L.seats seats.items × (length seats.items ≡ L.seats)) }
    ensures begins { IfOk result (λ closed. (n : ℕ) → n < L.seats → IsPrefix (past_of n seats.items) closed.history.items) }
    ensures each { IfOk result (λ closed. (n : ℕ) → receipts_of_seat (map (λ r. r.items) closed.receipts.items) n ≡ receipts_in n 0 closed.history.items) }
    ensures agree { IfOk result (λ closed. Agree L.profile closed.history.items (map (λ r. r.items) closed.receipts.items)) }
    ensures cause { IfErr result (λ fault. Hinders L.seats seats.items fault.cause) }
    ensures back { IfErr result (λ fault. fault.seats ≡ seats) }
    ensures unopened { IfErr result (λ fault. is_unopened fault.cause ≡ true → fault.desk ≡ desk) }
{
    let count = desk.seats.seats;
    let mut receipts = Vec::new(desk.alloc);
    if let Some(cause) = hindrance(seats.as_slice(), count, &mut receipts) {
        return Err(CloseFault { desk, seats, cause });
    }
    let Desk {
        lock,
        seats: parts,
        alloc,
    } = desk;
    let locked = lock.into_inner();
    if let Some(number) = first_ahead(seats.as_slice(), count, &locked.known) {
        let cause = Cause::Ahead(number, locked.known.len());
        let lock = Mutex::new(locked);
        let desk = Desk {
            lock,
            seats: parts,
            alloc,
        };
        return Err(CloseFault { desk, seats, cause });
    }
    let Locked {
        book,
        history,
        limit: _,
        mut tally,
        mut rest,
        head: _head,
        known,
        writer,
    } = locked;
    gather(&mut receipts, &mut rest, seats, count, &known);
    tally.audit(&mut rest);
    end(rt, writer);
    Ok(Closed {
        book: alone(rt, book),
        history,
        receipts,
    })
}
