//! The machine: what a book is, what each event does to it, and what it answers.
#![tactic(auto)]

mod events;
mod inputs;
mod moves;

pub use events::{Event, Reply, Shown};
pub use inputs::{FlagInputs, Input};
pub use moves::{Move, MoveReply};
