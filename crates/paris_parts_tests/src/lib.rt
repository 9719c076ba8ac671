//! Tests of scripts in parts. It has no code of its own.
#![tactic(auto)]

#[cfg(test)]
mod runs;
#[cfg(test)]
mod waiting;
