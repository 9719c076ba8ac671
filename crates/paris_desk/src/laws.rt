//! Laws of histories. The book after a history is one that a book can have, whatever the history, so what is always true of a book is
//! true of it: of the book of a desk, of the one after a seat's past, of a look, and of what a closed desk leaves.

ghost use Rattle.std.specs.Prelude.{List};
ghost use Rattle.paris_names.specs.declared.profiles.Profile.{Profile};
ghost use Rattle.paris_book.specs.Laws.{IsBookState, NowIsDirect, OrdersSettle};
ghost use Rattle.paris_records.specs.declared.records.Entry.{Entry};
ghost use Rattle.paris_records.specs.History.{state_of};

use paris_book::laws::{states_are_direct, states_settle};

/// After each history the run of the program is the one in which each instruction sees the whole world. It does nothing: what it
/// ensures is the law.
pub fn histories_are_direct()
    ensures book { (profile : Profile) (history : List Entry) → IsBookState (state_of profile history) }
    ensures direct { (profile : Profile) (history : List Entry) → NowIsDirect (state_of profile history) }
{
    states_are_direct();
}

/// After each history takes and results settle the program, once the orders that are out are given up. It does nothing: what it
/// ensures is the law.
pub fn histories_settle()
    ensures { (profile : Profile) (history : List Entry) → OrdersSettle (state_of profile history) }
{
    states_settle();
}
