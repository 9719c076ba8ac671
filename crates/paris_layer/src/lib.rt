//! Layers: planes that take no words where all their bits are one bit.
#![tactic(auto)]

mod arithmetic;
mod layer;
mod operations;

pub use layer::{Layer, Lent};
