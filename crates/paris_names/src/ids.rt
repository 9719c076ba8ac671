//! The ids of rows, their editions, and places in the program.

/// The id of a row of the program. Ids rise from 1, and none is used again.
#[derive(Clone, Copy, PartialEq, Eq, PartialOrd, Ord, Hash, Debug)]
pub struct RowId(pub u64);

/// The edition of a row: the edit counter just after the edit that last made the row unsettled.
#[derive(Clone, Copy, PartialEq, Eq, PartialOrd, Ord, Hash, Debug)]
pub struct Edition(pub u64);

/// A place in the program.
#[derive(Clone, Copy, PartialEq, Eq, Debug)]
pub enum Spot {
    /// Before the first row.
    Start,
    /// Just after the row with this id.
    After(RowId),
    /// After the last row.
    End,
}
