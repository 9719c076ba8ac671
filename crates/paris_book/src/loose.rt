//! The parts of a book: what calls change of them before rows are cut off, and what they show.

ghost use Rattle.std.specs.Prelude.{◌≡◌, ◌<◌, ◌≤◌, ◌+◌, length, map, Ok, Err, Some, None, IsSome, IfOk, IfErr, OnOk, OnErr};
ghost use Rattle.std.specs.Option.{option_map};
ghost use Rattle.paris_names.specs.declared.faults.Fault.TheVariants as FaultCase;
ghost use Rattle.paris_program.specs.Program.{place_of};
ghost use Rattle.paris_events.specs.State.{empty_state_of, place_of_spot};
ghost use Rattle.paris_events.specs.Show.{show_reply};
ghost use Rattle.paris_events.specs.Orders.{take_reply, after_take};
ghost use Rattle.paris_events.specs.CutOff.{IsAtRest};
ghost use Rattle.paris_events.specs.Results.{verdict_of, after_bring};
ghost use Rattle.paris_events.specs.Settling.{unsettled_rows};
ghost use Rattle.paris_book.specs.Among.{shared_shown};
ghost use Rattle.paris_book.specs.Entries.{machine_row};
ghost use Rattle.paris_book.specs.Origins.{origin_reply};
ghost use Rattle.paris_names.specs.declared.limits.TheConstants.{MAX_EDITS};

use crate::inputs::InputData;
use crate::look::SharedLook;
use crate::looks::{first_ready, judge, look_at, order_at, present_sources};
use crate::program_rows::Rows;
use paris_board::Board;
use paris_edits::Verdict;
use paris_exec::{Done, Order};
use paris_names::{Fault, KeyName, Profile, RowId, Spot};
use std::alloc::{AllocError, Global};
use std::marker::Model;

/// The parts of a book. Rows may stand in it that could be cut off. A clause sees what it sees of a book.
#[derive(Drop)]
pub(crate) struct Loose {
    pub(crate) board: Board,
    pub(crate) edits: u64,
    pub(crate) inputs: InputData,
    pub(crate) rows: Rows,
    pub(crate) alloc: Global,
}

impl Model for Loose {
    ghost use Rattle.std.specs.Prelude.{map};
    ghost use Rattle.paris_events.specs.State.{State};

    ghost Value = { State };

    ghost use Rattle.paris_book.specs.Entries.{machine_row};
    ghost use Rattle.paris_book.specs.Among.{inputs_of};
    ghost use Rattle.paris_book.specs.Whole.{IsWhole};

    ghost view = { λ a. record { board = a.board; edits = a.edits; inputs = inputs_of a.inputs; next = a.rows.next_id; rows = map machine_row a.rows.rows } };

    ghost invariant = { λ a. IsWhole a.board a.edits a.rows.next_id (inputs_of a.inputs) a.rows.rows };
}

impl Loose {
    /// A book of a profile with nothing in it, of which that many edits count as made.
    pub(crate) fn empty(alloc: Global, profile: Profile, count: u64) -> Loose
        requires { count ≤ MAX_EDITS }
        ensures { result ≡ empty_state_of profile count }
    {
        Loose {
            board: Board::with_profile(alloc, profile),
            edits: count,
            inputs: InputData {
                fields: Vec::new(alloc),
                flags: Vec::new(alloc),
            },
            rows: Rows::new(alloc),
            alloc,
        }
    }

    /// What it grows by.
    pub(crate) fn allocator(&self) -> Global {
        self.alloc
    }

    /// An order for the first row that waits and whose keys read all have the start or a settled row as origin. `None` where there
    /// is no such row, and then it takes no memory. The error says that memory for the order was refused.
    pub(crate) fn take(&mut self) -> Result<Option<Order>, AllocError>
        ensures order { IfOk result (λ order. order ≡ take_reply self.old) }
        ensures state { OnOk result (self.new ≡ after_take self.old) }
        ensures err { OnErr result (self.new ≡ self.old) }
        ensures ready { OnErr result (IsSome (take_reply self.old)) }
    {
        let Some(place) = first_ready(&self.rows) else {
            return Ok(None);
        };
        let order = order_at(self.alloc, &self.inputs, &self.rows, place)?;
        self.rows.hand_out(place);
        Ok(order)
    }

    /// The order that `take` would give. It changes nothing, and the error says what that of `take` does.
    pub(crate) fn peek(&self) -> Result<Option<Order>, AllocError>
        ensures order { IfOk result (λ order. order ≡ take_reply self.now) }
        ensures ready { OnErr result (IsSome (take_reply self.now)) }
    {
        match first_ready(&self.rows) {
            None => Ok(None),
            Some(place) => order_at(self.alloc, &self.inputs, &self.rows, place),
        }
    }

    /// Brings a result, and settles its row where it belongs to the present program and the present input data, with the rows that
    /// are cut off then. No row could be cut off before.
    pub(crate) fn bring(&mut self, done: Done) -> Verdict
        requires { IsAtRest self.old }
        ensures answer { result ≡ verdict_of self.old done }
        ensures state { self.new ≡ after_bring self.old done }
    {
        match self.rows.place_of(done.order().id()) {
            None => Verdict::Gone,
            Some(place) => {
                let verdict = judge(&self.inputs, &self.rows, place, &done);
                if !verdict.is_kept() {
                    return verdict;
                }
                let sources = present_sources(&self.inputs, &self.rows, place);
                self.rows.keep(place, done, sources);
                self.cut_behind(place);
                verdict
            }
        }
    }

    /// The place that a spot names. `NoRow` where no row has its id.
    pub(crate) fn place_of_spot(&self, spot: Spot) -> Result<usize, Fault>
        ensures ok { IfOk result (λ place. place_of_spot self.now spot ≡ Some place) }
        ensures within { IfOk result (λ place. place ≤ length self.now.rows) }
        ensures err { IfErr result (λ fault. (fault ≡ FaultCase.NoRow) × (place_of_spot self.now spot ≡ None)) }
    {
        match spot {
            Spot::Start => Ok(0),
            Spot::After(id) => place_after(&self.rows, id),
            Spot::End => Ok(self.rows.len()),
        }
    }

    /// What a key holds at a place of the program, with its value lent to be shared.
    pub(crate) fn shared_look(&self, name: KeyName, spot: Spot) -> Result<SharedLook<'_>, Fault>
        ensures shown { IfOk result (λ look. Ok (shared_shown look) ≡ show_reply self.now name spot) }
        ensures refused { IfErr result (λ fault. Err fault ≡ show_reply self.now name spot) }
    {
        let key = self.board.key_of(name)?;
        let place = self.place_of_spot(spot)?;
        Ok(look_at(&self.inputs, &self.rows, place, &key))
    }

    /// The row whose value a look shows.
    pub(crate) fn origin(&self, name: KeyName, spot: Spot) -> Result<Option<RowId>, Fault>
        ensures { result ≡ origin_reply self.now name spot }
    {
        let key = self.board.key_of(name)?;
        let place = self.place_of_spot(spot)?;
        Ok(self.rows.origin(place, &key))
    }

    /// How many edits were accepted.
    pub(crate) fn edits(&self) -> u64
        ensures { result ≡ self.now.edits }
    {
        self.edits
    }

    /// How many rows are unsettled.
    pub(crate) fn unsettled_count(&self) -> usize
        ensures { result ≡ unsettled_rows self.now.rows }
    {
        self.rows.count_unsettled()
    }
}

/// The place just after the row with an id. `NoRow` where no row has it.
fn place_after(rows: &Rows, id: RowId) -> Result<usize, Fault>
    ensures ok { IfOk result (λ below. option_map (λ place. place + 1) (place_of rows.now.rows id.0) ≡ Some below) }
    ensures within { IfOk result (λ below. below ≤ length rows.now.rows) }
    ensures err { IfErr result (λ fault. (fault ≡ FaultCase.NoRow) × (place_of rows.now.rows id.0 ≡ None)) }
{
    // The length is what says that the place just after a row is one.
    let _len = rows.len();
    match rows.place_of(id) {
        Some(place) => Ok(place + 1),
        None => Err(Fault::NoRow),
    }
}
