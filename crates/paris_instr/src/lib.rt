//! Instructions as they are written, and plans: instructions resolved against a board.
#![tactic(auto)]

mod fits;
mod key_lists;
mod naming;
mod operands;
mod plans;
mod resolving;
mod shared;

pub use plans::Plan;
pub use resolving::resolve;
pub use shared::SharedPlan;
