//! Products, quotients and remainders of fields whose bits lie in planes.
#![tactic(auto)]

mod blocks;
mod numbers;
mod planes;
mod products;
mod quotients;
mod signed_planes;
mod words;

pub use products::multiply;
pub use quotients::{remainder, truncate};
