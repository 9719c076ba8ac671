//! Planes: one bit for each virtual processor, kept in words of 64 and worked on by lanes of four words.
#![tactic(auto)]

mod exchange;
mod few;
mod kernel;
mod moves;
mod plane;
mod runs;
mod turns;
mod words;

pub use kernel::{
    And, Borrow, Or, Select, TripleOp, Without, WordOp, Xor, bit_of_three, bit_of_two, word_of,
};
pub use plane::{Plane, accumulate_step};
