//! Tests of the public calls of the libraries below the book. It has no code of its own.
#![tactic(auto)]

#[cfg(test)]
mod boards;
#[cfg(test)]
mod commands;
#[cfg(test)]
mod common;
#[cfg(test)]
mod depends;
#[cfg(test)]
mod families;
#[cfg(test)]
mod geometries;
#[cfg(test)]
mod ids;
#[cfg(test)]
mod lists;
#[cfg(test)]
mod names;
#[cfg(test)]
mod orders;
#[cfg(test)]
mod plans;
#[cfg(test)]
mod programs;
#[cfg(test)]
mod resolving;
#[cfg(test)]
mod spellings;
