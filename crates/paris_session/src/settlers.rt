//! Who settles the book of a session.

ghost use Rattle.std.specs.Prelude.{◌≡◌, IfOk, IfErr, OnOk};
ghost use Rattle.paris_events.specs.Settling.{all_settled, due};
ghost use Rattle.paris_book.specs.Stopped.{IsStopped};

use paris_book::{Book, SettleFault};

/// One who settles books.
pub trait Settler {
    /// What one needs to settle a book.
    ghost can_settle: { Self → Type 0 };

    /// Gives up the orders that are out, and settles every row. The answer is how many orders were run, one for each row that was due.
    /// The error says that memory was refused, and comes only where a row is left that must be run: so many orders were run, at least
    /// so many rows more are settled, no order is out, all else is as it was, and the book can be settled again.
    fn settle(&self, book: &mut Book) -> Result<u64, SettleFault>
        requires { can_settle self.now }
        ensures count { IfOk result (λ ran. ran ≡ due book.old) }
        ensures settled { OnOk result (book.new ≡ all_settled book.old) }
        ensures stopped { IfErr result (λ fault. IsStopped fault.ran book.old book.new) };
}

/// One who runs one row after another, in the caller's thread.
#[derive(Clone, Copy, PartialEq, Eq, Debug)]
pub struct Alone;

impl Settler for Alone {
    ghost can_settle = { λ _. Unit {0} };

    fn settle(&self, book: &mut Book) -> Result<u64, SettleFault> {
        book.settle()
    }
}
