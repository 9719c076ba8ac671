//! What a line asks for.

use paris_events::Event;
use paris_names::{Fault, KeyName, Profile, Spot};

/// What a command asks for.
#[derive(Debug, Drop)]
pub enum Asked {
    /// An event of the book, whose reply is told.
    Call(Event),
    /// A look at a key, which is an event too, and whose value is lent.
    Look(KeyName, Spot),
    /// The rows that are refused.
    Faults,
    /// That every row is settled.
    Settle,
    /// That the profile is this one.
    Chosen(Profile),
    /// Nothing: it is refused.
    Refused(Fault),
}
