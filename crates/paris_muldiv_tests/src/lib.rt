//! Tests of arithmetic, comparisons and bits of fields at widths to 128: worked rows of products, quotients and remainders, and each
//! operation beside the same on the numbers of each processor. It has no code of its own.
#![tactic(auto)]

#[cfg(test)]
mod beside;
#[cfg(test)]
mod cases;
#[cfg(test)]
mod expected;
#[cfg(test)]
mod operations;
#[cfg(test)]
mod worked_rows;
