//! Tests of looks at desks. It has no code of its own.
#![tactic(auto)]

#[cfg(test)]
mod looks;
#[cfg(test)]
mod spellings;
