//! Looks at a desk with no lock: what a key holds in the book as it was published last.
#![tactic(auto)]

mod entered;
mod view;

pub use view::{Held, View};
