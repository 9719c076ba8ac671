//! Workers: a session's book is settled in threads.

ghost use Rattle.std.specs.Prelude.{◌≤◌};
ghost use Rattle.std.specs.Thread.{IsSync};
ghost use Rattle.paris_names.specs.declared.limits.TheConstants.{MAX_WORKERS};

use paris_book::{Book, SettleFault};
use paris_exec::OpenGate;
use paris_session::Settler;
use std::thread::Threads;

/// So many workers, from 1 to 16, each in a thread of the runtime.
#[derive(Drop)]
pub(crate) struct Workers<'a, H> {
    pub(crate) rt: &'a H,
    pub(crate) count: usize,
    ghost some: { 1 ≤ count },
    ghost few: { count ≤ MAX_WORKERS },
}

impl<'a, H: Threads + Sync> Settler for Workers<'a, H> {
    ghost can_settle = { λ _. IsSync H.row };

    fn settle(&self, book: &mut Book) -> Result<u64, SettleFault> {
        book.settle_par(self.rt, self.count, &OpenGate)
    }
}
