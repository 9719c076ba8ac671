//! A look at a key.

ghost use Rattle.std.specs.Prelude.{◌≡◌};
ghost use Rattle.paris_book.specs.Among.{look_shown, shared_shown};

use paris_field::{FieldValue, SharedValue};
use paris_names::RowId;

/// What is shown of a key, with its value lent.
#[derive(Debug, Drop)]
pub enum Look<'a> {
    Settled(&'a FieldValue),
    /// The row that has to be settled first.
    Pending(RowId),
}

/// What is shown of a key, with its value lent to be shared.
#[derive(Debug, Drop)]
pub(crate) enum SharedLook<'a> {
    Settled(&'a SharedValue),
    /// The row that has to be settled first.
    Pending(RowId),
}

impl<'a> SharedLook<'a> {
    /// The same look, with the value itself lent.
    pub(crate) fn lent(self) -> Look<'a>
        ensures { look_shown result ≡ shared_shown self.entry }
    {
        match self {
            SharedLook::Settled(value) => Look::Settled(value.get()),
            SharedLook::Pending(id) => Look::Pending(id),
        }
    }
}
