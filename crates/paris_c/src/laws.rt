//! Laws of what a handle holds: it is a session, so what is always true of a book is true of its book.

ghost use Rattle.paris_book.specs.Laws.{NowIsDirect, OrdersSettle};

use crate::contents::Contents;

impl Contents {
    /// At each place, running the program once from the input data gives what the same run gives in which each instruction sees the
    /// whole world. It changes nothing: what it ensures is the law.
    pub(crate) fn now_is_direct(&self)
        ensures { NowIsDirect self.now.session.state }
    {
        self.session.now_is_direct();
    }

    /// Takes and results settle the program, once the orders that are out are given up. It changes nothing: what it ensures is the law.
    pub(crate) fn orders_settle(&self)
        ensures { OrdersSettle self.now.session.state }
    {
        self.session.orders_settle();
    }
}
