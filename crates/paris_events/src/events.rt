//! What is asked of a book, and what it answers.

use paris_edits::{Edit, EditReply, RowLook, Verdict};
use paris_exec::{Done, Order};
use paris_field::SharedValue;
use paris_names::{Fault, Items, KeyName, RowId, Spot};

/// What is shown of a key, with its value.
#[derive(Debug, Drop)]
pub enum Shown {
    Settled(SharedValue),
    /// The row that has to be settled first.
    Pending(RowId),
}

/// What is asked of a book.
#[derive(Debug, Drop)]
pub enum Event {
    Edit(Edit),
    /// Asks for an order for the first ready row.
    Take,
    /// Brings the result of an order.
    Bring(Done),
    /// Gives up the orders that are out.
    Release,
    /// Looks at a key at a place of the program.
    Show(KeyName, Spot),
    /// Looks at the rows of the program.
    List,
}

/// What a book answers.
#[derive(Debug, Drop)]
pub enum Reply {
    Edit(Result<EditReply, Fault>),
    Take(Option<Order>),
    Bring(Verdict),
    Release,
    Show(Result<Shown, Fault>),
    List(Items<RowLook>),
}
