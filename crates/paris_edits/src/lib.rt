//! What is asked of a book and what it answers, in plain values: edits, the states of rows, and verdicts on results.
#![tactic(auto)]

mod edits;
mod rows;
mod verdicts;

pub use edits::{Edit, EditReply};
pub use rows::{RowFault, RowLook, Status};
pub use verdicts::Verdict;
