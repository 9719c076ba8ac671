//! What is kept of calls: entries of a history and receipts of seats, their copies, and whether two are the same. It stands on no
//! book, no lock and no desk.
#![tactic(auto)]

mod copies;
mod limits;
mod records;
mod same;

pub use copies::{copy_of_event, copy_of_reply};
pub use limits::{MAX_HISTORY, MAX_SEATS};
pub use records::{Entry, Front, Receipt};
pub use same::{is_same_event, is_same_reply};
