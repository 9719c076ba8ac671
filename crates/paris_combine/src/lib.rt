//! Sends whose messages combine with what their receiver holds.
#![tactic(auto)]

mod operators;
mod sends;

pub use operators::apply;
pub use sends::send_with;
