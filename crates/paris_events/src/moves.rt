//! What a schedule is made of, and what a book answers to each move of it.

use crate::events::{Event, Reply};

/// A move of a schedule. The orders that its takes give are numbered from 1 and kept.
#[derive(Debug, Drop)]
pub enum Move {
    Event(Event),
    /// Executes the order of this number, and brings its result.
    Bring(u64),
    /// Drops the order of this number, as a worker that vanishes does. The order keeps its number, and no other one gets it.
    Lose(u64),
}

/// What a book answers to a move.
#[derive(Debug, Drop)]
pub enum MoveReply {
    Reply(Reply),
    /// The order is dropped.
    Lost,
    /// No order of this number was given, or it is lost. Nothing changes.
    NoOrder,
}
