//! Tests of scans, spreads and reduces on planes: worked rows, and each beside the plain program and beside a loop over numbers. It has no
//! code of its own.
#![tactic(auto)]

#[cfg(test)]
mod beside;
#[cfg(test)]
mod calls;
#[cfg(test)]
mod cases;
#[cfg(test)]
mod expected;
#[cfg(test)]
mod worked_rows;
