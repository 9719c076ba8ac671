//! Why a call is refused.

ghost use Rattle.std.specs.Prelude.{◌≡◌};
ghost use Rattle.paris_names.specs.Faults.{number_of, is_no_memory};

use std::alloc::AllocError;
use thiserror::Error;

/// Why a call is refused. Each fault has a number, by which scripts name it.
#[derive(Clone, Copy, PartialEq, Eq, Debug, Error)]
pub enum Fault {
    #[error("as many sets as a board may have are declared")]
    SetsFull,
    #[error("the lengths of the axes make no geometry")]
    BadAxes,
    #[error("a set or a field has this name")]
    NameTaken,
    #[error("no set has this name")]
    NoSet,
    #[error("as many fields as a board may have are declared")]
    FieldsFull,
    #[error("the width is 0 or above the greatest one")]
    BadWidth,
    #[error("no field has this name, or no set has the name before the dot")]
    NoField,
    #[error("there are no values, or more than fit from the first place on")]
    WrongCount,
    #[error("the value for processor {0} does not fit the width")]
    TooWide(u64),
    #[error("no row has this id")]
    NoRow,
    #[error("the program has as many rows as it may have")]
    RowsFull,
    #[error("a length is 0, or above the width of an operand")]
    BadLength,
    #[error("fields of two sets are named")]
    WrongSet,
    #[error("the set has no axis of this number")]
    BadAxis,
    #[error("an operand of one bit is wider, a constant is too great, or a coordinate is outside its axis")]
    BadOperand,
    #[error("the notify field is the destination")]
    Overlap,
    #[error("the edit counter is at its greatest value")]
    EditionsSpent,
    #[error("the history has {0} entries, which is its limit")]
    HistoryFull(u64),
    #[error("there is no memory left")]
    NoMemory,
    #[error("the line is not in the grammar, from column {0} on")]
    Syntax(u64),
    #[error("the seat has seen {0} entries of a history of {1}")]
    StrangeSeat(u64, u64),
    #[error("no order has this number")]
    NoOrder,
    #[error("a look found no entry")]
    NoEntry,
}

impl From<AllocError> for Fault {
    ghost use Rattle.paris_names.specs.declared.faults.Fault.TheVariants as FaultCase;

    ghost from_gives = { λ error fault. fault ≡ FaultCase.NoMemory };

    fn from(_error: AllocError) -> Fault {
        Fault::NoMemory
    }
}

impl Fault {
    /// Whether this is want of memory.
    pub fn is_no_memory(self) -> bool
        ensures { result ≡ is_no_memory self }
    {
        self == Fault::NoMemory
    }

    /// The number by which scripts name the fault, from 1 to 23.
    pub fn number(self) -> u64
        ensures { result ≡ number_of self }
    {
        match self {
            Fault::SetsFull => 1,
            Fault::BadAxes => 2,
            Fault::NameTaken => 3,
            Fault::NoSet => 4,
            Fault::FieldsFull => 5,
            Fault::BadWidth => 6,
            Fault::NoField => 7,
            Fault::WrongCount => 8,
            Fault::TooWide(_) => 9,
            Fault::NoRow => 10,
            Fault::RowsFull => 11,
            Fault::BadLength => 12,
            Fault::WrongSet => 13,
            Fault::BadAxis => 14,
            Fault::BadOperand => 15,
            Fault::Overlap => 16,
            Fault::EditionsSpent => 17,
            Fault::HistoryFull(_) => 18,
            Fault::NoMemory => 19,
            Fault::Syntax(_) => 20,
            Fault::StrangeSeat(_, _) => 21,
            Fault::NoOrder => 22,
            Fault::NoEntry => 23,
        }
    }
}
