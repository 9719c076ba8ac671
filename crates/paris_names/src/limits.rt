//! The limits of sets, fields, programs, names, scripts and workers. Definitions and contracts cite them by their names.

/// The most axes of a set.
pub const MAX_AXES: usize = 4;

/// The most virtual processors of a set.
pub const MAX_PROCESSORS: u32 = 65_536;

/// The most sets that a board declares.
pub const MAX_SETS: usize = 8;

/// The most fields that a board declares, over all sets.
pub const MAX_FIELDS: usize = 64;

/// The greatest width of a field in any profile, in bits.
pub const MAX_WIDTH: u64 = 128;

/// The greatest width of a field in profile 1, in bits.
pub const MAX_WIDTH_OF_ONE: u64 = 64;

/// The most rows of a program.
pub const MAX_ROWS: usize = 4096;

/// The greatest value of the edit counter.
pub const MAX_EDITS: u64 = 9_223_372_036_854_775_807;

/// The most bytes of a name.
pub const MAX_NAME: usize = 16;

/// The most bytes of a script's line, without its line feed.
pub const MAX_LINE: usize = 65_536;

/// The most read calls of one run of a script.
pub const MAX_READS: u64 = 1_073_741_824;

/// The most workers that execute orders side by side.
pub const MAX_WORKERS: usize = 16;
