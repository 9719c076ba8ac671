//! Values moved to the neighbours along an axis.
#![tactic(auto)]

mod coordinates;
mod shifts;

pub use coordinates::coordinate_plane;
pub use shifts::{Sent, send, shift, shift_plane};
