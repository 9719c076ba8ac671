//! Laws of sessions. Whatever lines a session answered, its book's state is one that a book can have, so what is always true of a book
//! is true of it.

ghost use Rattle.std.specs.Prelude.{ℕ, List};
ghost use Rattle.paris_book.specs.Laws.{IsBookState, NowIsDirect, OrdersSettle};
ghost use Rattle.paris_session.specs.Transcript.{after_lines, start};

use crate::answers::Session;
use paris_book::laws::{states_are_direct, states_settle};

impl Session {
    /// At each place, running the program once from the input data gives what the same run gives in which each instruction sees the
    /// whole world. It changes nothing: what it ensures is the law.
    pub fn now_is_direct(&self)
        ensures { NowIsDirect self.now.state }
    {
        self.book.now_is_direct();
    }

    /// Takes and results settle the program, once the orders that are out are given up. It changes nothing: what it ensures is the law.
    pub fn orders_settle(&self)
        ensures { OrdersSettle self.now.state }
    {
        self.book.orders_settle();
    }
}

/// After any lines, the run of the program is the one in which each instruction sees the whole world. It does nothing: what it ensures
/// is the law.
pub fn lines_are_direct()
    ensures book { (lines : List (List ℕ)) → IsBookState (after_lines start lines).state }
    ensures direct { (lines : List (List ℕ)) → NowIsDirect (after_lines start lines).state }
{
    states_are_direct();
}

/// After any lines, takes and results settle the program, once the orders that are out are given up. It does nothing: what it ensures
/// is the law.
pub fn lines_settle()
    ensures { (lines : List (List ℕ)) → OrdersSettle (after_lines start lines).state }
{
    states_settle();
}
