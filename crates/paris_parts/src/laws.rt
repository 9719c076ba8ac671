//! Laws of the last part. Whatever history a desk leaves, and whatever lines the last part has, its book's state is one that a book can
//! have, so what is always true of a book is true of it.

ghost use Rattle.std.specs.Prelude.{ℕ, List};
ghost use Rattle.paris_names.specs.declared.profiles.Profile.{Profile};
ghost use Rattle.paris_book.specs.Laws.{IsBookState, NowIsDirect, OrdersSettle};
ghost use Rattle.paris_records.specs.declared.records.Entry.{Entry};
ghost use Rattle.paris_session.specs.Transcript.{after_lines};
ghost use Rattle.paris_parts.specs.Run.{last_session};

use paris_book::laws::{states_are_direct, states_settle};

/// After any lines of the last part, the run of the program is the one in which each instruction sees the whole world. It does
/// nothing: what it ensures is the law.
pub fn last_parts_are_direct()
    ensures book { (profile : Profile) (history : List Entry) (lines : List (List ℕ)) → IsBookState (after_lines (last_session profile history) lines).state }
    ensures direct { (profile : Profile) (history : List Entry) (lines : List (List ℕ)) → NowIsDirect (after_lines (last_session profile history) lines).state }
{
    states_are_direct();
}

/// After any lines of the last part, takes and results settle the program, once the orders that are out are given up. It does
/// nothing: what it ensures is the law.
pub fn last_parts_settle()
    ensures { (profile : Profile) (history : List Entry) (lines : List (List ℕ)) → OrdersSettle (after_lines (last_session profile history) lines).state }
{
    states_settle();
}
