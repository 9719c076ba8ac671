//! Tests of each call on planes beside the plain program, on numbers from a fixed generator. It has no code of its own.
#![tactic(auto)]

#[cfg(test)]
mod arithmetic;
#[cfg(test)]
mod beside;
#[cfg(test)]
mod bits;
#[cfg(test)]
mod cases;
#[cfg(test)]
mod fields;
#[cfg(test)]
mod planes;
#[cfg(test)]
mod runs;
#[cfg(test)]
mod steps;
#[cfg(test)]
mod values;
#[cfg(test)]
mod worked_rows;
