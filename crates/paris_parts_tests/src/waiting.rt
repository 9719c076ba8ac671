//! A gate that holds executions until there were two.

use paris_exec::Gate;
use paris_names::{Edition, RowId};
use std::sync::atomic::{AtomicBool, AtomicU64, Ordering};
use std::thread;
use std::time::{Clock, Duration};

/// How often a gate looks whether the other execution has entered, a millisecond apart.
const TURNS: u64 = 10_000;

#[derive(Drop)]
pub(crate) struct TwoAtOnce<'a, C: Clock> {
    clock: &'a C,
    entered: AtomicU64,
    left: AtomicU64,
    late: AtomicBool,
}

impl<'a, C: Clock> TwoAtOnce<'a, C> {
    pub(crate) fn new(clock: &'a C) -> TwoAtOnce<'a, C> {
        TwoAtOnce {
            clock,
            entered: AtomicU64::new(0),
            left: AtomicU64::new(0),
            late: AtomicBool::new(false),
        }
    }

    /// Whether two executions have come in, each with the other, and left.
    pub(crate) fn has_let_two_through(&self) -> bool {
        let late = self.late.load(Ordering::SeqCst);
        let left = self.left.load(Ordering::SeqCst);
        !late && left == 2
    }
}

impl<C: Clock> Gate for TwoAtOnce<'_, C> {
    fn enter(&self, _id: RowId, _edition: Edition) {
        self.entered.fetch_add(1, Ordering::SeqCst);
        for _ in 0..TURNS {
            if self.entered.load(Ordering::SeqCst) >= 2 {
                return;
            }
            thread::sleep(self.clock, Duration::from_millis(1));
        }
        self.late.store(true, Ordering::SeqCst);
    }

    fn leave(&self, _id: RowId, _edition: Edition) {
        self.left.fetch_add(1, Ordering::SeqCst);
    }
}
