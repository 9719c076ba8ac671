//! What the numbers of the processors of a mask in a span come to, by counts of bits.
#![tactic(auto)]

mod counts;
mod totals;

pub use totals::{maximum_of, or_of, sum_of, xor_of};
