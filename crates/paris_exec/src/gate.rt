//! Gates: what is called round each execution of an order.

use paris_names::{Edition, RowId};

/// What is called round each execution, by several threads at once.
pub trait Gate {
    /// Called before the execution of an order for a row's edition.
    fn enter(&self, id: RowId, edition: Edition);

    /// Called after it, whether it gave a result or was refused memory.
    fn leave(&self, id: RowId, edition: Edition);
}

/// A gate that does nothing.
#[derive(Clone, Copy, PartialEq, Eq, Debug)]
pub struct OpenGate;

impl Gate for OpenGate {
    fn enter(&self, _id: RowId, _edition: Edition) {}

    fn leave(&self, _id: RowId, _edition: Edition) {}
}
