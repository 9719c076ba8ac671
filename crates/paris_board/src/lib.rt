//! The board: the declared sets and fields, each in the order of its declaration.
#![tactic(auto)]

mod declarations;

pub use declarations::Board;
