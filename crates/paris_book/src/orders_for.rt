//! An order for one value: of the rows that it stands on, the first that is ready.

ghost use Rattle.std.specs.Prelude.{◌≡◌, ◌≤◌, ◌&&◌, length, Some, if◌then◌else◌, IfOk, IfSome, IsSome, OnErr};
ghost use Rattle.std.specs.List.{list_all};
ghost use Rattle.std.specs.Option.{option_map};
ghost use Rattle.paris_model.specs.Instructions.{reads};
ghost use Rattle.paris_edits.specs.Rows.{is_waiting};
ghost use Rattle.paris_edits.specs.declared.verdicts.Verdict.TheVariants as VerdictCase;
ghost use Rattle.paris_events.specs.Show.{origin_at};
ghost use Rattle.paris_events.specs.Orders.{is_firm as is_firm_origin};
ghost use Rattle.paris_events.specs.Results.{verdict_of};
ghost use Rattle.paris_book.specs.Entries.{rows_seen};
ghost use Rattle.paris_book.specs.OrdersFor.{first_ready_among, order_for};
ghost use Rattle.paris_book.specs.Wanted.{stands_on};

use crate::book::Book;
use crate::looks::{is_firm, order_at};
use crate::loose::Loose;
use crate::program_rows::Rows;
use crate::rows::RowData;
use crate::wanted::carry_back;
use paris_depends::mark;
use paris_exec::Order;
use paris_names::{Key, KeyName, Spot};
use std::alloc::AllocError;

/// Whether the row at a place waits, and each key that it reads has the start or a settled row as origin.
fn is_ready(rows: &Rows, place: usize, row: &RowData) -> bool
    requires { place ≤ length rows.now.rows }
    ensures { result ≡ (is_waiting row.now.status && list_all (λ k. is_firm_origin (origin_at (rows_seen rows.now.rows) place k)) (reads row.now.plan)) }
{
    if !row.status().is_waiting() {
        return false;
    }
    let keys = row.plan().reads();
    for key in keys {
        if !is_firm(rows, place, key) {
            return false;
        }
    }
    true
}

/// The place of a row, where it has a turn and is ready, and otherwise the one that was found behind it.
fn nearest(
    rows: &Rows,
    place: usize,
    row: &RowData,
    turn: bool,
    behind: Option<usize>,
) -> Option<usize>
    requires { place ≤ length rows.now.rows }
    ensures { result ≡ (if turn && (is_waiting row.now.status && list_all (λ k. is_firm_origin (origin_at (rows_seen rows.now.rows) place k)) (reads row.now.plan)) then Some place else behind) }
{
    if turn && is_ready(rows, place, row) {
        Some(place)
    } else {
        behind
    }
}

/// The place of the first ready row that the value of a key at a place stands on. Rows before the first unsettled one aren't looked
/// at. It takes no memory.
fn first_ready_for(rows: &Rows, place: usize, key: Key) -> Option<usize>
    requires { place ≤ length rows.now.rows }
    ensures { result ≡ option_map (λ e. e.0) (first_ready_among (rows_seen rows.now.rows) (stands_on (rows_seen rows.now.rows) place key)) }
{
    let mut wanted = [false; 128];
    mark(&mut wanted, &[key], true);
    let start = rows.next_unsettled(0).unwrap_or(place);
    let mut first = None;
    let mut at = place;
    while at > start {
        at -= 1;
        let (id, row) = rows.at(at);
        let turn = carry_back(&mut wanted, id, row);
        first = nearest(rows, at, row, turn, first);
    }
    first
}

impl Loose {
    /// An order for the first ready row that the value that a look shows stands on. `None` where none of these rows is ready, and where
    /// the look is refused.
    fn order_for(&self, name: KeyName, spot: Spot) -> Result<Option<Order>, AllocError>
        ensures order { IfOk result (λ order. order ≡ order_for self.now name spot) }
        ensures ready { OnErr result (IsSome (order_for self.now name spot)) }
    {
        match self.found(name, spot) {
            Err(_) => Ok(None),
            Ok((key, place)) => match first_ready_for(&self.rows, place, key) {
                None => Ok(None),
                Some(at) => order_at(self.alloc, &self.inputs, &self.rows, at),
            },
        }
    }
}

impl Book {
    /// An order for the first ready row that a value stands on: of the rows that `settle_for` would give their turn, the first in program
    /// order that `take` could give an order for. `None` where none of them is ready, as where the value is shown or the look is refused,
    /// and then it takes no memory. The error says that memory for the order was refused.
    ///
    /// It changes nothing: the row waits as before, and a result that is brought for it now is kept.
    pub fn order_for(&self, name: KeyName, spot: Spot) -> Result<Option<Order>, AllocError>
        ensures order { IfOk result (λ order. order ≡ order_for self.now name spot) }
        ensures kept { IfOk result (λ order. IfSome order (λ order. verdict_of self.now order ≡ VerdictCase.Kept)) }
        ensures ready { OnErr result (IsSome (order_for self.now name spot)) }
    {
        self.loose.ids_are_apart();
        self.loose.order_for(name, spot)
    }
}
