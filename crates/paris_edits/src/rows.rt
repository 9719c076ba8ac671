//! Where the rows of a program stand, as they are listed.

ghost use Rattle.std.specs.Prelude.{◌≡◌};
ghost use Rattle.paris_edits.specs.Rows.{is_settled, is_waiting};

use paris_model::{Instr, Refusal};
use paris_names::{Edition, RowId};

/// Where a row stands.
#[derive(Clone, Copy, PartialEq, Eq, Debug)]
pub enum Status {
    /// It is unsettled, and no order of its present edition is out.
    Waiting,
    /// It is unsettled, and an order of its present edition is out.
    Out,
    /// Its result is known, and belongs to the present program.
    Settled,
}

impl Status {
    /// Whether the row's result is known.
    pub fn is_settled(self) -> bool
        ensures { result ≡ is_settled self }
    {
        match self {
            Status::Waiting | Status::Out => false,
            Status::Settled => true,
        }
    }

    /// Whether the row waits for an order to be taken.
    pub fn is_waiting(self) -> bool
        ensures { result ≡ is_waiting self }
    {
        match self {
            Status::Waiting => true,
            Status::Out | Status::Settled => false,
        }
    }
}

/// A row of the program, as it is listed.
#[derive(Clone, Copy, PartialEq, Eq, Debug)]
pub struct RowLook {
    pub id: RowId,
    pub edition: Edition,
    pub status: Status,
    pub instr: Instr,
    /// Why the row is refused, where it is settled and refused.
    pub cause: Option<Refusal>,
}

/// A settled row whose instruction is refused, with the cause.
#[derive(Clone, Copy, PartialEq, Eq, Debug)]
pub struct RowFault {
    pub id: RowId,
    pub cause: Refusal,
}
