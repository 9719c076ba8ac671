//! What is kept of a call: the desk's entry and the seat's receipt.

use paris_events::{Event, Reply};

/// A call in the history of a desk: who made it, what was asked, and what was answered.
#[derive(Debug, Drop)]
pub struct Entry {
    pub seat: u64,
    pub event: Event,
    pub reply: Reply,
}

/// What a seat keeps of a call. Its number in the history counts from 1.
#[derive(Debug, Drop)]
pub struct Receipt {
    pub seat: u64,
    pub number: u64,
    pub event: Event,
    pub reply: Reply,
}

/// A number of entries of a history.
#[derive(Clone, Copy, PartialEq, Eq, PartialOrd, Ord, Hash, Debug)]
pub struct Front(pub u64);
