//! Settling a book by several workers. The rows of a level are run at once, one level after another.

ghost use Rattle.std.specs.Prelude.{◌≡◌, ℕ, ◌<◌, ◌≤◌, length, slice_index_or, OnOk, IfOk, IfErr};
ghost use Rattle.paris_events.specs.Orders.{IsIdle};
ghost use Rattle.paris_events.specs.Settling.{all_settled, unsettled_rows, due};
ghost use Rattle.paris_book.specs.Rounds.{Advances, HasRun, HoldsTask, HoldOrders, HoldResults, ran_of};
ghost use Rattle.paris_book.specs.Stopped.{IsStopped};
ghost use Rattle.paris_book.specs.declared.rounds.Slot.{Slot as SlotShape};
ghost use Rattle.paris_names.specs.declared.limits.TheConstants.{MAX_WORKERS};

use crate::book::Book;
use crate::levels::{LeveledRow, level_end, rows_by_level};
use crate::loose::Loose;
use crate::settlement::{SettleFault, execute_inside};
use crate::work::{WORTH_A_THREAD, work_of};
use paris_exec::{Done, Gate, Order};
use std::alloc::{AllocError, Global};
use std::thread;
use std::thread::Threads;

/// An order of the row at a place that is to be executed, or what came of it: a result, or nothing where memory was refused.
#[derive(Drop)]
pub(crate) struct Slot {
    place: usize,
    order: Option<Order>,
    done: Option<Done>,
}

impl Slot {
    fn new(place: usize, order: Order) -> Slot
        ensures { result ≡ record { place = place; order = Some order; done = None } }
    {
        Slot {
            place,
            order: Some(order),
            done: None,
        }
    }

    /// Executes the order.
    fn run<G: Gate>(&mut self, alloc: Global, gate: &G)
        ensures { HasRun self.old self.new }
    {
        self.done = match self.order.take() {
            None => None,
            Some(order) => execute_inside(alloc, gate, order),
        };
    }
}

/// How many threads it pays to give to the orders of slots, at most so many. Each gets work that takes longer than to start it.
fn threads_for(slots: &[Slot], workers: usize) -> usize
    requires { 0 < workers }
    ensures { 0 < result }
{
    let mut work: u64 = 0;
    for slot in slots {
        if let Some(order) = &slot.order {
            work = work.saturating_add(work_of(order.plan()));
        }
    }
    let worth = (work / WORTH_A_THREAD) as usize;
    workers.min(worth.max(1))
}

/// Executes the order of each slot, in at most as many threads as there are workers.
fn run_slots<R: Threads + Sync, G: Gate + Sync>(
    rt: &R,
    alloc: Global,
    workers: usize,
    gate: &G,
    slots: &mut [Slot],
)
    requires { 0 < workers }
    ensures { (i : ℕ) (d : SlotShape) → i < length slots.old → HasRun (slice_index_or slots.old i d) (slice_index_or slots.new i d) }
{
    thread::for_each_mut(
        rt,
        slots,
        workers,
        &|_i: usize, slot: &mut Slot| { slot.run(alloc, gate) },
    );
}

impl Loose {
    /// Gives the row at a place its turn, where it needs no order: it is settled, or it would compute again what it computed last. Else
    /// its order is added, if it can be run now.
    fn order_or_settle(&mut self, place: usize, slots: &mut Vec<Slot>) -> Result<(), AllocError>
        requires { HoldOrders self.old slots.old.items }
        ensures advances { Advances 0 self.old self.new }
        ensures slots { HoldOrders self.new slots.new.items }
    {
        if let Some(order) = self.order_or_cut(place)? {
            slots.push(Slot::new(place, order))?;
        }
        Ok(())
    }

    /// The orders of these rows that have to be run and can be run now. Rows that would compute again what they computed last are
    /// settled with that. The room for the orders is made before the first.
    fn orders_of(&mut self, rows: &[LeveledRow]) -> Result<Vec<Slot>, AllocError>
        ensures advances { Advances 0 self.old self.new }
        ensures slots { IfOk result (λ slots. HoldOrders self.new slots.items) }
    {
        let mut slots = Vec::with_capacity(self.alloc, rows.len())?;
        for row in rows {
            self.order_or_settle(row.place, &mut slots)?;
        }
        Ok(slots)
    }

    /// Settles the row at a place by the result of the order that it would give now, unless it is settled. The answer is how many
    /// rows were settled, which is 1 or 0.
    fn keep_unsettled(&mut self, place: usize, done: Done) -> u64
        requires { HoldsTask self.old place done }
        ensures { Advances result self.old self.new }
    {
        if self.is_settled_at(place) {
            return 0;
        }
        self.keep_own(place, done);
        1
    }

    /// Settles the rows of the slots that hold results, and counts them. The error says that there is a slot with none.
    fn keep_slots(&mut self, slots: Vec<Slot>) -> Result<u64, SettleFault>
        requires { HoldResults self.old slots.items }
        ensures { Advances (ran_of result) self.old self.new }
    {
        // How many rows are unsettled bounds how many are run.
        let _unsettled = self.unsettled_count();
        let mut ran = 0;
        let mut complete = true;
        for slot in slots {
            let Slot { place, done, .. } = slot;
            match done {
                None => complete = false,
                Some(done) => ran += self.keep_unsettled(place, done),
            }
        }
        if complete {
            Ok(ran)
        } else {
            Err(SettleFault { ran })
        }
    }

    /// Gives the row at a place its turn, and counts whether it was run.
    fn turn_of<G: Gate>(&mut self, gate: &G, place: usize) -> Result<u64, SettleFault>
        ensures { Advances (ran_of result) self.old self.new }
    {
        match self.turn_at(gate, place) {
            Ok(ran) => Ok(ran),
            Err(_) => Err(SettleFault { ran: 0 }),
        }
    }

    /// Gives the rows of a level their turn: one without a thread, and several at once. The answer is how many were run, at an error
    /// too, which says that memory was refused.
    fn run_level<R: Threads + Sync, G: Gate + Sync>(
        &mut self,
        rt: &R,
        workers: usize,
        gate: &G,
        rows: &[LeveledRow],
    ) -> Result<u64, SettleFault>
        requires { 0 < workers }
        ensures { Advances (ran_of result) self.old self.new }
    {
        if let [row] = rows {
            return self.turn_of(gate, row.place);
        }
        match self.orders_of(rows) {
            Err(_) => Err(SettleFault { ran: 0 }),
            Ok(mut slots) => {
                let threads = threads_for(&slots, workers);
                run_slots(rt, self.alloc, threads, gate, slots.as_mut_slice());
                self.keep_slots(slots)
            }
        }
    }

    /// Gives the unsettled rows their turn level by level. The answer is how many were run, at an error too, which says that memory
    /// was refused.
    fn run_levels<R: Threads + Sync, G: Gate + Sync>(
        &mut self,
        rt: &R,
        workers: usize,
        gate: &G,
    ) -> Result<u64, SettleFault>
        requires { 0 < workers }
        ensures { Advances (ran_of result) self.old self.new }
    {
        // How many rows are unsettled bounds how many are run.
        let _unsettled = self.unsettled_count();
        let Ok(rows) = rows_by_level(self.alloc, &self.rows) else {
            return Err(SettleFault { ran: 0 });
        };
        let mut ran = 0;
        let mut start = 0;
        while start < rows.len() {
            let end = level_end(rows.as_slice(), start);
            match self.run_level(rt, workers, gate, &rows[start..end]) {
                Ok(more) => ran += more,
                Err(fault) => {
                    return Err(SettleFault {
                        ran: ran + fault.ran,
                    });
                }
            }
            start = end;
        }
        Ok(ran)
    }

    /// Settles all rows: level by level where several workers are given, and what is left in program order. The answer is how many
    /// were run, at an error too, which says that memory was refused. No row is out.
    fn run_all<R: Threads + Sync, G: Gate + Sync>(
        &mut self,
        rt: &R,
        workers: usize,
        gate: &G,
    ) -> Result<u64, SettleFault>
        requires workers { 0 < workers }
        requires idle { IsIdle self.old.rows }
        ensures advances { Advances (ran_of result) self.old self.new }
        ensures ok { OnOk result (unsettled_rows self.new.rows ≡ 0) }
    {
        // How many rows are unsettled bounds how many are run.
        let _unsettled = self.unsettled_count();
        let mut ran = 0;
        if workers > 1 {
            ran = self.run_levels(rt, workers, gate)?;
        }
        match self.run_in_order(gate) {
            Ok(more) => Ok(ran + more),
            Err(fault) => Err(SettleFault {
                ran: ran + fault.ran,
            }),
        }
    }
}

impl Book {
    /// Settles the book as `settle` does, with at most so many orders executed at once, each inside the gate. The answer is how many
    /// were run, whatever the number of workers. The error says that memory was refused, and leaves what that of `settle` does, but that
    /// the orders may have been run in another order.
    pub fn settle_par<R: Threads + Sync, G: Gate + Sync>(
        &mut self,
        rt: &R,
        workers: usize,
        gate: &G,
    ) -> Result<u64, SettleFault>
        requires workers { (1 ≤ workers) × (workers ≤ MAX_WORKERS) }
        ensures count { IfOk result (λ ran. ran ≡ due self.old) }
        ensures settled { OnOk result (self.new ≡ all_settled self.old) }
        ensures stopped { IfErr result (λ fault. IsStopped fault.ran self.old self.new) }
    {
        self.loose.release();
        match self.loose.run_all(rt, workers, gate) {
            Ok(ran) => Ok(ran),
            Err(fault) => {
                self.loose.cut_off();
                if self.loose.unsettled_count() == 0 {
                    return Ok(fault.ran);
                }
                Err(fault)
            }
        }
    }
}
