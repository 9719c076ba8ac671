//! Tests of ledgers, with two seats in turn. It has no code of its own.
#![tactic(auto)]

#[cfg(test)]
mod sittings;
#[cfg(test)]
mod steps;
