//! Whether a history and the receipts of its seats agree.

ghost use Rattle.std.specs.Prelude.{◌≡◌, ◌<◌, ◌↔◌, ℕ, nat_lt, length, map, IfOk, IsTrue, OnOk};
ghost use Rattle.std.specs.List.{list_all};
ghost use Rattle.paris_names.specs.declared.profiles.Profile.TheVariants.{One};
ghost use Rattle.paris_events.specs.Events.{after, reply_to};
ghost use Rattle.paris_records.specs.History.{Legal, LegalFrom, entry};
ghost use Rattle.paris_records.specs.Agreement.{Accounted, Agree, InPlace, InPlaces, calls_of, receipts_of_seat};

use paris_book::Book;
use paris_names::Profile;
use paris_records::{Entry, Receipt, copy_of_event, is_same_event, is_same_reply};
use std::alloc::{AllocError, Global};

/// Whether an entry's reply is what a book answers to its event. The book makes the event.
fn is_answered(book: &mut Book, entry: &Entry) -> Result<bool, AllocError>
    ensures reply { IfOk result (λ same. IsTrue same ↔ (entry.now.reply ≡ reply_to book.old entry.now.event)) }
    ensures state { OnOk result (book.new ≡ after book.old entry.now.event) }
{
    let event = copy_of_event(&entry.event)?;
    match book.step(event) {
        Ok(reply) => Ok(is_same_reply(&reply, &entry.reply)),
        Err(_) => Err(AllocError),
    }
}

/// Whether each reply of a list of entries is what the book answers. The book makes the events one by one, up to the first entry whose reply
/// is another one. The error says that memory for an event was refused; the book has then made those before it.
pub fn are_answered(book: &mut Book, entries: &[Entry]) -> Result<bool, AllocError>
    ensures { IfOk result (λ answer. IsTrue answer ↔ LegalFrom book.old entries.now) }
{
    for entry in entries {
        if !is_answered(book, entry)? {
            return Ok(false);
        }
    }
    Ok(true)
}

/// Whether each reply is what the book answers: the events are made again, one by one, from an empty book of a profile on.
fn is_legal(alloc: Global, profile: Profile, entries: &[Entry]) -> Result<bool, AllocError>
    ensures { IfOk result (λ answer. IsTrue answer ↔ Legal profile entries.now) }
{
    let mut book = Book::with_profile(alloc, profile);
    are_answered(&mut book, entries)
}

/// Whether an entry has a seat and a receipt's event and reply.
fn is_of(kept: &Entry, seat: u64, receipt: &Receipt) -> bool
    ensures { IsTrue result ↔ (kept.now ≡ entry seat receipt.now.event receipt.now.reply) }
{
    kept.seat == seat
        && is_same_event(&kept.event, &receipt.event)
        && is_same_reply(&kept.reply, &receipt.reply)
}

/// Whether a receipt is in its place, above a number.
fn is_in_place(entries: &[Entry], seat: u64, above: u64, receipt: &Receipt) -> bool
    ensures { IsTrue result ↔ InPlace entries.now seat above receipt.now }
{
    if receipt.number <= above || receipt.seat != seat {
        return false;
    }
    match entries.get((receipt.number - 1) as usize) {
        Some(kept) => is_of(kept, seat, receipt),
        None => false,
    }
}

/// Whether a seat's receipts are in their places.
fn are_in_places(entries: &[Entry], seat: u64, receipts: &[Receipt]) -> bool
    ensures { IsTrue result ↔ InPlaces entries.now seat 0 receipts.now }
{
    let mut above = 0;
    for receipt in receipts {
        if !is_in_place(entries, seat, above, receipt) {
            return false;
        }
        above = receipt.number;
    }
    true
}

/// How many entries a seat has.
fn calls_of(entries: &[Entry], seat: u64) -> usize
    ensures { result ≡ calls_of seat entries.now }
{
    let mut count = 0;
    for entry in entries {
        if entry.seat == seat {
            count += 1;
        }
    }
    count
}

/// Whether a seat's receipts account for its entries.
fn is_accounted(entries: &[Entry], seat: u64, receipts: &[Receipt]) -> bool
    ensures { IsTrue result ↔ Accounted entries.now seat receipts.now }
{
    are_in_places(entries, seat, receipts) && calls_of(entries, seat) == receipts.len()
}

/// Whether each list accounts for the entries of its seat.
fn are_accounted(entries: &[Entry], receipts: &[Vec<Receipt>]) -> bool
    ensures { IsTrue result ↔ ((seat : ℕ) → seat < length receipts.now → Accounted entries.now seat (receipts_of_seat (map (λ r. r.items) receipts.now) seat)) }
{
    for seat in 0..receipts.len() {
        if !is_accounted(entries, seat as u64, receipts[seat].as_slice()) {
            return false;
        }
    }
    true
}

/// Whether the seat of each entry is below a number.
fn are_below(entries: &[Entry], seats: u64) -> bool
    ensures { result ≡ list_all (λ e. nat_lt e.seat seats) entries.now }
{
    entries.iter().all(|entry| entry.seat < seats)
}

/// Whether the receipts account for all entries: each list for those of its seat, and no other seat has one.
fn are_all_accounted(entries: &[Entry], receipts: &[Vec<Receipt>]) -> bool
    ensures { IsTrue result ↔ ((seat : ℕ) → Accounted entries.now seat (receipts_of_seat (map (λ r. r.items) receipts.now) seat)) }
{
    are_below(entries, receipts.len() as u64) && are_accounted(entries, receipts)
}

/// Whether a history and the receipts of its seats, by number, agree, as those of a closed desk of profile 1 do. The events are made
/// again from an empty book on; the error says that memory for it was refused.
pub fn audit(
    alloc: Global,
    entries: &[Entry],
    receipts: &[Vec<Receipt>],
) -> Result<bool, AllocError>
    ensures { IfOk result (λ answer. IsTrue answer ↔ Agree One entries.now (map (λ r. r.items) receipts.now)) }
{
    audit_with(alloc, Profile::One, entries, receipts)
}

/// The same of a desk of a profile.
pub fn audit_with(
    alloc: Global,
    profile: Profile,
    entries: &[Entry],
    receipts: &[Vec<Receipt>],
) -> Result<bool, AllocError>
    ensures { IfOk result (λ answer. IsTrue answer ↔ Agree profile entries.now (map (λ r. r.items) receipts.now)) }
{
    let legal = is_legal(alloc, profile, entries)?;
    Ok(legal && are_all_accounted(entries, receipts))
}
