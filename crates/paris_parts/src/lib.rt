//! Scripts in parts: sessions that share a desk, with workers beside them. A script is read as a whole and cut, its parts are played by
//! calls of seats, and the last one on the book that the desk leaves.
#![tactic(auto)]

mod choosing;
mod closing;
mod jobs;
mod last;
pub mod laws;
mod outcome;
mod parts;
mod players;
mod reading;
mod run;
mod texts;

pub use last::{Transcript, play_last};
pub use parts::{Part, parts_of};
pub use reading::read_all;
pub use run::{DeskRunFault, run_parts, run_sessions};
