//! Values in stretches of their processors: what the numbers of a stretch come to, and in which two values differ.
#![tactic(auto)]

mod bounds;
mod counts;
mod differences;
mod summaries;
mod tallies;

pub use counts::count_of;
pub use differences::put_differences;
pub use summaries::{Sum, Summary, summary_of};
