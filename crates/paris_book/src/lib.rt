//! The book: a program that is edited, its input data, and the results that are settled.
#![tactic(auto)]

mod book;
mod cut_off;
mod edits;
mod events;
mod inputs;
pub mod laws;
mod levels;
mod listing;
mod look;
mod looks;
mod loose;
mod marks;
mod orders_for;
mod play;
mod program_rows;
mod refusals;
mod rounds;
mod rows;
mod running;
mod settlement;
mod shared_index;
mod snapshot;
mod sources;
mod statuses;
mod wanted;
mod work;

pub use book::Book;
pub use look::Look;
pub use paris_depends::Looks;
pub use settlement::{SettleFault, execute_inside};
