//! The two directions along an axis.

/// A direction along an axis.
#[derive(Clone, Copy, PartialEq, Eq, Debug)]
pub enum Direction {
    /// To the processor whose coordinate is one greater.
    Upward,
    /// To the processor whose coordinate is one less.
    Downward,
}
