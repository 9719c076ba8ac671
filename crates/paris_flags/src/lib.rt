//! The flags that an action sets and reads, as sets, and the steps of the context and test flags of all processors.
#![tactic(auto)]

mod access;
mod sets;
mod steps;

pub use access::{read_flags, written_flags};
pub use sets::{FlagNames, FlagSet};
pub use steps::{ContextStep, TestStep, context_step, test_step};
