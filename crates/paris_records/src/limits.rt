//! The limits of a desk.

/// The most seats of a desk.
pub const MAX_SEATS: u64 = 16;

/// The most entries of a history.
pub const MAX_HISTORY: u64 = 1_000_000;
