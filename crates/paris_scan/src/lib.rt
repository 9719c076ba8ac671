//! Values combined along the lines of an axis, in logarithmically many steps: by doubling up to each processor, and by a
//! butterfly over whole lines. Scans by sums, maxima and minima of up to 64 bits along long lines make one value after another.
#![tactic(auto)]

mod adjacent;
mod back;
mod bitwise;
mod butterfly;
mod columns;
mod combine;
mod doubling;
mod extremes;
mod firsts;
mod halves;
mod lines;
mod maxima;
mod moves;
mod near;
mod partner;
mod repeated;
mod results;
mod running;
mod scans;
mod sources;
mod spreads;
mod sums;

pub use adjacent::Total;
pub use bitwise::{Ors, Xors};
pub use butterfly::spread_planes;
pub use combine::{Combine, Commute};
pub use firsts::Firsts;
pub use halves::JoinHalves;
pub use lines::{Along, scan_planes};
pub use maxima::Maxima;
pub use partner::Partner;
pub use results::Combined;
pub use scans::{copy_scan, scan};
pub use sources::{complement_planes, invert_planes, selected_planes};
pub use spreads::{Reduced, copy_spread, reduce, spread};
pub use sums::Sums;
