//! Numbers, one for each processor, whose bits lie in planes.
#![tactic(auto)]

mod blocks;
mod field;
mod lanes;
mod pairs;
mod planes;
mod quads;
mod shared;
mod transpose;
mod words;

pub use blocks::{block_numbers, block_words, put_block, put_block_words};
pub use field::FieldValue;
pub use pairs::block_pairs;
pub use planes::{chosen_layers, copy_layers, layers_of, merge_planes, planes_of, zero_planes};
pub use quads::{put_quad_words, quad_operands, quad_words};
pub use shared::SharedValue;
pub use transpose::transpose64;
