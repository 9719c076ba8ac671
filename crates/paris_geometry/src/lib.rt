//! Geometry: the lengths of a set's axes, and the two directions along an axis.
#![tactic(auto)]

mod direction;
pub mod laws;
mod shape;

pub use direction::Direction;
pub use shape::Geometry;
