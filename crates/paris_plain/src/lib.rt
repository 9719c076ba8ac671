//! The plain program: what each instruction leaves, one processor after the other, over lists of numbers. It is slow, and
//! its contracts are the definitions.
#![tactic(auto)]

mod bits;
mod combine;
mod conditional;
mod coordinates;
mod elementwise;
mod execution;
mod inputs;
mod lines;
mod mail;
mod news;
mod unconditional;

pub use conditional::conditional_after;
pub use execution::outcome;
pub use inputs::{Inputs, flags_are_bits};
pub use lines::line_after;
pub use mail::{mail_after, mail_refusal};
pub use news::news_after;
pub use unconditional::unconditional_after;
