//! Edits of a book, and the answer to one that is accepted.

use paris_model::Instr;
use paris_names::{Items, KeyName, Name, RowId, Spot};

/// An edit of the declarations, the input data or the program.
#[derive(Clone, PartialEq, Eq, Debug, Drop)]
pub enum Edit {
    /// Declares a set of this name, with axes of these lengths.
    AddSet {
        name: Name,
        axes: Items<u64>,
    },
    /// Declares a field of this name in the set of that name, with its width in bits.
    AddField {
        name: Name,
        set: Name,
        width: u64,
    },
    /// Gives a key these values, from a processor on.
    Input {
        key: KeyName,
        from: u64,
        values: Items<u128>,
    },
    /// Puts an instruction at a place of the program.
    Insert {
        spot: Spot,
        instr: Instr,
    },
    /// Takes the row with this id out of the program.
    Delete(RowId),
    /// Gives the row with this id another instruction. The row keeps its id and its place.
    Replace {
        row: RowId,
        instr: Instr,
    },
}

/// The answer to an edit that is accepted.
#[derive(Clone, Copy, PartialEq, Eq, Debug)]
pub enum EditReply {
    Accepted,
    /// The id of the row that was put in.
    Row(RowId),
}
