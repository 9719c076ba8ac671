//! Orders, results and snapshots of a session, as C calls it.

ghost use Rattle.std.specs.Prelude.{◌≡◌, ◌≢◌, ◌⊎◌, [], None, Some, false, IfOk};
ghost use Rattle.paris_c.specs.OrderCalls.{is_spent, result_in, verdict_number, IsTaken, HasNoneReady, IsBrought, HasVerdict, TellsEdition, HasEdition, IsReleased, IsSnapshot};
ghost use Rattle.paris_c.specs.TurnCalls.{HasReady};
ghost use Rattle.paris_c.specs.declared.statuses.TheConstants.{OK, NO_MEMORY, NOTHING, NOT_RUN};

use crate::contents::Contents;
use crate::order_state::OrderState;
use crate::statuses::{FOREIGN, GONE, KEPT, NO_MEMORY, NOT_RUN, NOTHING, OK, REPEATED, STALE};
use paris_edits::Verdict;
use std::alloc::{AllocError, Global};

/// The number of a verdict. Of a stale result it says the row's present edition.
pub(crate) fn tell_verdict(verdict: Verdict, edition: &mut u64) -> u32
    ensures number { result ≡ verdict_number verdict }
    ensures edition { TellsEdition verdict edition.new }
{
    match verdict {
        Verdict::Kept => KEPT,
        Verdict::Repeated => REPEATED,
        Verdict::Stale(present) => {
            *edition = present.0;
            STALE
        }
        Verdict::Gone => GONE,
        Verdict::Foreign => FOREIGN,
    }
}

impl Contents {
    /// What is answered where memory for the box of an order was refused: that, or that no row is ready.
    pub(crate) fn without_box(&self) -> u32
        ensures nothing { result ≡ NOTHING → HasNoneReady (Some self.now) }
        ensures memory { result ≡ NO_MEMORY → HasReady (Some self.now) }
        ensures status { (result ≡ NO_MEMORY) ⊎ (result ≡ NOTHING) }
    {
        if self.session.has_ready() {
            NO_MEMORY
        } else {
            NOTHING
        }
    }

    /// Takes an order for the first ready row, and puts it into its state.
    pub(crate) fn take(&mut self, state: &mut OrderState) -> u32
        ensures taken { result ≡ OK → IsTaken (Some self.old) (Some self.new) (Some state.new) }
        ensures whole { result ≡ OK → is_spent state.new ≡ false }
        ensures nothing { result ≡ NOTHING → HasNoneReady (Some self.old) }
        ensures memory { result ≡ NO_MEMORY → HasReady (Some self.old) }
        ensures kept { result ≢ OK → self.new ≡ self.old }
        ensures status { (result ≡ OK) ⊎ ((result ≡ NO_MEMORY) ⊎ (result ≡ NOTHING)) }
    {
        match self.session.take() {
            Ok(Some(order)) => {
                *state = OrderState::Order(order);
                OK
            }
            Ok(None) => NOTHING,
            Err(_) => NO_MEMORY,
        }
    }

    /// Brings the result of an order, if it is executed, and says the verdict's number and, of a stale one, the row's present edition.
    pub(crate) fn bring(&mut self, state: &OrderState, verdict: &mut u32, edition: &mut u64) -> u32
        ensures brought { result ≡ OK → IsBrought (Some self.old) (Some self.new) (result_in (Some state.now)) }
        ensures verdict { result ≡ OK → HasVerdict (Some self.old) (result_in (Some state.now)) verdict.new }
        ensures edition { result ≡ OK → HasEdition (Some self.old) (result_in (Some state.now)) edition.new }
        ensures not_run { result ≡ NOT_RUN → result_in (Some state.now) ≡ None }
        ensures kept { result ≢ OK → self.new ≡ self.old }
        ensures status { (result ≡ OK) ⊎ ((result ≡ NO_MEMORY) ⊎ (result ≡ NOT_RUN)) }
    {
        let OrderState::Done(done) = state else {
            return NOT_RUN;
        };
        let Ok(copy) = done.copy() else {
            return NO_MEMORY;
        };
        *verdict = tell_verdict(self.session.bring(copy), edition);
        OK
    }

    /// Gives up the orders that are out.
    pub(crate) fn release(&mut self)
        ensures { IsReleased (Some self.old) (Some self.new) }
    {
        self.session.release();
    }

    /// A session in the same state, in a box, with no reply.
    pub(crate) fn snapshot(&self, alloc: Global) -> Result<Box<Contents>, AllocError>
        ensures { IfOk result (λ copy. IsSnapshot (Some self.now) (Some copy.value)) }
    {
        let session = self.session.snapshot()?;
        let reply = Vec::new(alloc);
        match Box::new(alloc, Contents { session, reply }) {
            Ok(copy) => Ok(copy),
            Err(_) => Err(AllocError),
        }
    }
}
