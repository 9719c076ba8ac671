//! The command line: its words, the run that they ask for over any reader and writers, and the exit status.
#![tactic(auto)]

mod program;
mod words;
mod workers;

pub use program::{Tallies, refuse_words, run_words};
pub use words::{Wanted, WordsFault, read_words};
