//! Orders and their execution: what a worker does with no book and no lock.
#![tactic(auto)]

mod binary;
mod contexts;
mod elementwise;
mod execution;
mod gate;
mod lines;
mod mail;
mod news;
mod orders;
mod planes;

pub use execution::execute;
pub use gate::{Gate, OpenGate};
pub use orders::{Done, Order, Outcome};
