//! Schedules from a list: worked rows. It has no code of its own.
#![tactic(auto)]

#[cfg(test)]
mod rows;
#[cfg(test)]
mod texts;
