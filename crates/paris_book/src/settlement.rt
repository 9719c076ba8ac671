//! Settling a book: orders that are out are given up, and rows are run until every row is settled.

ghost use Rattle.std.specs.Prelude.{◌≡◌, ◌<◌, ◌≤◌, length, slice_get, true, false, if◌then◌else◌, Some, map, is_some, OnOk, OnErr, IfOk, IfErr, IfSome};
ghost use Rattle.paris_names.specs.declared.limits.TheConstants.{MAX_ROWS};
ghost use Rattle.paris_events.specs.CutOff.{cut_off};
ghost use Rattle.paris_events.specs.Orders.{IsIdle, after_release};
ghost use Rattle.paris_events.specs.Settling.{ran_orders, all_settled, unsettled_rows, due};
ghost use Rattle.paris_book.specs.Marks.{recalled_data};
ghost use Rattle.paris_book.specs.Entries.{with_data};
ghost use Rattle.paris_book.specs.Rounds.{Advances, ran_of};
ghost use Rattle.paris_book.specs.Statuses.{next_unsettled};
ghost use Rattle.paris_book.specs.Stopped.{IsStopped};
ghost use Rattle.paris_book.specs.Steps.{own_order, settled_on, run_at, left_at, runs_at, turned_at};

use crate::book::Book;
use crate::looks::{order_at, present_sources, sourced_order_at};
use crate::loose::Loose;
use crate::program_rows::Rows;
use crate::sources::Sources;
use paris_exec::{Done, Gate, OpenGate, Order, execute};
use std::alloc::{AllocError, Global};
use thiserror::Error;

/// Memory was refused while a book was settled.
#[derive(Clone, Copy, PartialEq, Eq, Debug, Error)]
#[error("no memory after {ran} orders were run")]
pub struct SettleFault {
    /// How many orders were run all the same, each of which settled its row.
    pub ran: u64,
}

/// Makes every row wait of which an order is out.
fn recall_all(rows: &mut Rows)
    ensures rows { rows.new.rows ≡ map (with_data recalled_data) rows.old.rows }
    ensures next_id { rows.new.next_id ≡ rows.old.next_id }
{
    let mut from = 0;
    while let Some(place) = rows.next_unsettled(from) {
        rows.recall(place);
        from = place + 1;
    }
}

/// Executes an order inside a gate. `None` where memory was refused.
pub fn execute_inside<G: Gate>(alloc: Global, gate: &G, order: Order) -> Option<Done>
    ensures { IfSome result (λ done. done ≡ order) }
{
    let id = order.id();
    let edition = order.edition();
    gate.enter(id, edition);
    let done = execute(alloc, order).ok();
    gate.leave(id, edition);
    done
}

impl Loose {
    /// Gives up the orders that are out: every row that is out waits, with its edition. It takes no memory.
    pub(crate) fn release(&mut self)
        ensures { self.new ≡ after_release self.old }
    {
        recall_all(&mut self.rows);
    }

    /// The first place from one on with an unsettled row. `None` where all rows from there on are settled.
    pub(crate) fn next_unsettled(&self, from: usize) -> Option<usize>
        ensures value { result ≡ next_unsettled self.now.rows from }
        ensures within { IfSome result (λ place. (from ≤ place) × (place < length self.now.rows)) }
        ensures few { length self.now.rows ≤ MAX_ROWS }
    {
        self.rows.next_unsettled(from)
    }

    /// An order for the row at a place, whatever its status. `None` where there is no row, or where a key that it reads waits for an
    /// unsettled row.
    pub(crate) fn own_order(&self, place: usize) -> Result<Option<Order>, AllocError>
        ensures order { IfOk result (λ order. order ≡ own_order self.now place) }
        ensures there { OnErr result (place < length self.now.rows) }
    {
        if place >= self.rows.len() {
            return Ok(None);
        }
        order_at(self.alloc, &self.inputs, &self.rows, place)
    }

    /// Settles the row at a place, which is unsettled, by the result of the order that it would give now. Nothing is compared.
    pub(crate) fn keep_own(&mut self, place: usize, done: Done)
        requires own { own_order self.old place ≡ Some done }
        requires unsettled { settled_on (slice_get self.old.rows place) ≡ false }
        ensures { self.new ≡ run_at self.old place }
    {
        let sources = present_sources(&self.inputs, &self.rows, place);
        self.rows.keep(place, done, sources);
    }

    /// Runs the order that the row at a place, which is unsettled, would give now, and keeps the result. The answer is whether there was
    /// one. At an error nothing has changed.
    pub(crate) fn run_own<G: Gate>(&mut self, gate: &G, place: usize) -> Result<bool, AllocError>
        requires { settled_on (slice_get self.old.rows place) ≡ false }
        ensures ran { IfOk result (λ ran. ran ≡ is_some (own_order self.old place)) }
        ensures state { IfOk result (λ ran. self.new ≡ (if ran then run_at self.old place else self.old)) }
        ensures err { OnErr result (self.new ≡ self.old) }
        ensures there { OnErr result (place < length self.old.rows) }
    {
        if place >= self.rows.len() {
            return Ok(false);
        }
        let mut sources = Sources::none();
        let Some(order) = sourced_order_at(
            self.alloc,
            &self.inputs,
            &self.rows,
            place,
            &mut sources,
        )?
        else {
            return Ok(false);
        };
        match execute_inside(self.alloc, gate, order) {
            None => Err(AllocError),
            Some(done) => {
                self.rows.keep(place, done, sources);
                Ok(true)
            }
        }
    }

    /// Gives the row at a place its turn. An unsettled row that would compute again what it computed last is settled with that. Any
    /// other one is run: its order is made, executed inside a gate, and the result is kept, unless a key that it reads waits. The
    /// answer is how many rows were run, which is 1 or 0. At an error nothing has changed.
    pub(crate) fn turn_at<G: Gate>(&mut self, gate: &G, place: usize) -> Result<u64, AllocError>
        ensures ran { IfOk result (λ ran. ran ≡ (if runs_at self.old place then 1 else 0)) }
        ensures state { OnOk result (self.new ≡ turned_at self.old place) }
        ensures err { OnErr result (self.new ≡ self.old) }
        ensures left { OnErr result (left_at self.old place ≡ true) }
    {
        if self.is_settled_at(place) || self.cut_at(place) {
            return Ok(0);
        }
        if self.run_own(gate, place)? {
            Ok(1)
        } else {
            Ok(0)
        }
    }

    /// Settles all rows in program order: a row's turn comes when all rows before it are settled, so no key that it reads waits. The
    /// answer is how many were run. At an error the row whose turn it was is as it was. No row is out.
    pub(crate) fn run_in_order<G: Gate>(&mut self, gate: &G) -> Result<u64, SettleFault>
        requires { IsIdle self.old.rows }
        ensures settled { OnOk result (unsettled_rows self.new.rows ≡ 0) }
        ensures state { cut_off self.new ≡ ran_orders (ran_of result) (cut_off self.old) }
        ensures advances { Advances (ran_of result) self.old self.new }
        ensures fewer { IfErr result (λ fault. fault.ran < due self.old) }
    {
        self.ids_are_apart();
        let mut ran = 0;
        let mut from = 0;
        while let Some(place) = self.next_unsettled(from) {
            let Ok(more) = self.turn_at(gate, place) else {
                return Err(SettleFault { ran });
            };
            ran += more;
            from = place + 1;
        }
        Ok(ran)
    }
}

impl Book {
    /// Gives up the orders that are out, and then takes orders, executes them and brings their results until every row is settled.
    /// The answer is how many orders were run, one for each row that was due: unsettled, with another plan or other inputs than its
    /// last kept result. The error says that memory was refused, and comes only where a row is left that must be run: the rows of the
    /// orders that were run are settled, those that were settled stay so, no order is out, and the book can be settled again.
    pub fn settle(&mut self) -> Result<u64, SettleFault>
        ensures count { IfOk result (λ ran. ran ≡ due self.old) }
        ensures settled { OnOk result (self.new ≡ all_settled self.old) }
        ensures ran { self.new ≡ ran_orders (ran_of result) (after_release self.old) }
        ensures stopped { IfErr result (λ fault. IsStopped fault.ran self.old self.new) }
    {
        self.loose.release();
        match self.loose.run_in_order(&OpenGate) {
            Ok(ran) => Ok(ran),
            Err(fault) => {
                self.loose.cut_off();
                Err(fault)
            }
        }
    }
}
