//! Tests of the book, and of every instruction through it: tables, and what must come of each. It has no code of its own.
#![tactic(auto)]

#[cfg(test)]
mod books;
#[cfg(test)]
mod cut_off;
#[cfg(test)]
mod edits;
#[cfg(test)]
mod events;
#[cfg(test)]
mod exchanges;
#[cfg(test)]
mod faults;
#[cfg(test)]
mod instructions;
#[cfg(test)]
mod programs;
#[cfg(test)]
mod settling;
#[cfg(test)]
mod sizes;
#[cfg(test)]
mod spellings;
#[cfg(test)]
mod steps;
#[cfg(test)]
mod turns;
#[cfg(test)]
mod words;
