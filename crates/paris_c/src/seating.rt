//! What the handles of a desk and of a seat hold.

use paris_book::Book;
use paris_ledger::Ledger;
use std::alloc::Global;
use std::sync::Arc;

/// A desk: the name that its caller gave it, its ledger, and how many seats sat down.
#[derive(Drop)]
pub struct DeskContents {
    pub name: u64,
    pub ledger: Ledger,
    pub seats: u64,
}

/// A seat: the name of its desk, its number, the number of the last entry that it knows, the book that it looks at, and the reply to its last
/// line.
#[derive(Drop)]
pub struct SeatContents {
    pub desk: u64,
    pub number: u64,
    pub front: u64,
    pub still: Arc<Book, Global>,
    pub reply: Vec<u8>,
}
