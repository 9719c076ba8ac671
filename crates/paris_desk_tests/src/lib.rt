//! Tests of desks, with seats in threads. It has no code of its own.
#![tactic(auto)]

#[cfg(test)]
mod desks;
#[cfg(test)]
mod endings;
#[cfg(test)]
mod spellings;
#[cfg(test)]
mod steps;
#[cfg(test)]
mod working;
