//! The profiles of the machine, and how wide a field may be in each.

ghost use Rattle.std.specs.Prelude.{◌≡◌, ◌≤◌};
ghost use Rattle.paris_names.specs.Profiles.{max_width};
ghost use Rattle.paris_names.specs.declared.limits.TheConstants.{MAX_WIDTH};

use crate::limits::{MAX_WIDTH, MAX_WIDTH_OF_ONE};

/// A profile of the machine: it says how wide a field may be.
#[derive(Clone, Copy, PartialEq, Eq, Debug)]
pub enum Profile {
    /// Fields of up to 64 bits. A book is of this one unless another is asked for.
    One,
    /// Fields of up to 128 bits.
    Two,
}

impl Profile {
    /// The greatest width of a field, in bits.
    pub fn max_width(self) -> u64
        ensures value { result ≡ max_width self }
        ensures small { result ≤ MAX_WIDTH }
    {
        match self {
            Profile::One => MAX_WIDTH_OF_ONE,
            Profile::Two => MAX_WIDTH,
        }
    }
}
