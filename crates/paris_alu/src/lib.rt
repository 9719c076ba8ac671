//! Arithmetic on fields whose bits lie in layers: what an operator makes of the operands of all processors at once.
//!
//! Each function takes the low `bits` bits of its operands, works on whole layers, those in words by lanes, and makes its results in new
//! layers. It fails only for want of memory.
#![tactic(auto)]

mod bitwise;
mod comparisons;
mod kernel;
mod planes;
mod sums;
mod widths;

pub use bitwise::{BitOperator, copy_low, invert, logic};
pub use comparisons::{Extremum, compare, extreme};
pub use sums::{Overflowing, Sum, add, add_carry, negate, subtract};
pub use widths::extend;
