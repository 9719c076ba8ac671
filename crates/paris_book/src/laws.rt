//! Laws of a book. A run of its program is the one in which each instruction sees the whole world: what that takes of numbers and
//! plans their types promise, so the functions go over them and learn it. And settling is what takes and results come to. The same is
//! said of each state that events lead to from an empty book, whoever holds it: a session, a desk, a look or a history.

ghost use Rattle.std.specs.Prelude.{◌≡◌, ℕ, ◌<◌, All, IsSome};
ghost use Rattle.paris_events.specs.Orders.{after_release, take_reply};
ghost use Rattle.paris_events.specs.Settling.{all_settled, ran_orders, due};
ghost use Rattle.paris_events.specs.State.{IdsApart, row_ids};
ghost use Rattle.paris_book.specs.Among.{inputs_of};
ghost use Rattle.paris_book.specs.Laws.{InputFits, FlagsFit, InputsFit, ActionFits, ActionsFit, NowIsDirect, EventsGoOn, SettlingGoesOn, StatesAreDirect, StatesSettle};

use crate::book::Book;
use crate::inputs::InputData;
use crate::loose::Loose;
use crate::program_rows::Rows;
use crate::rows::RowData;
use paris_events::{FlagInputs, Input};
use paris_model::laws::run_is_direct;
use paris_names::RowId;

/// The numbers of input data fit its width.
fn input_fits(input: &Input)
    ensures { InputFits input.now }
{
    input.value.get().low(0);
}

/// So do those of each flag.
fn flags_fit(flags: &FlagInputs)
    ensures { FlagsFit flags.now }
{
    input_fits(&flags.context);
    input_fits(&flags.test);
    input_fits(&flags.carry);
    input_fits(&flags.overflow);
}

/// And those of each field.
fn all_fields_fit(fields: &[Input])
    ensures { All InputFits fields.now }
{
    for input in fields {
        input_fits(input);
    }
}

/// And those of the flags of each set.
fn all_flags_fit(all: &[FlagInputs])
    ensures { All FlagsFit all.now }
{
    for flags in all {
        flags_fit(flags);
    }
}

/// All input data fits.
fn inputs_fit(inputs: &InputData)
    ensures { InputsFit (inputs_of inputs.now) }
{
    all_fields_fit(inputs.fields.as_slice());
    all_flags_fit(inputs.flags.as_slice());
}

/// The plan of a row fits its set's axes and its operands' widths.
fn action_fits(id: RowId, row: &RowData)
    ensures { ActionFits (id.0, row.now) }
{
    row.plan().action();
}

/// So do those of all rows.
fn actions_fit(rows: &Rows)
    ensures { ActionsFit rows.now.rows }
{
    for place in 0..rows.len() {
        let (id, row) = rows.at(place);
        action_fits(id, row);
    }
}

impl Loose {
    /// The run of the program is the direct one.
    fn now_is_direct(&self)
        ensures { NowIsDirect self.now }
    {
        inputs_fit(&self.inputs);
        actions_fit(&self.rows);
        run_is_direct();
    }

    /// No id stands twice.
    pub(crate) fn ids_are_apart(&self)
        ensures { IdsApart (row_ids self.now.rows) }
    {
        // Whoever touches a part knows the invariant.
        let _rows = &self.rows;
    }
}

impl Book {
    /// At each place, running the program once from the input data gives what the same run gives in which each instruction sees the
    /// whole world. It changes nothing: what it ensures is the law.
    pub fn now_is_direct(&self)
        ensures { NowIsDirect self.now }
    {
        self.loose.now_is_direct();
    }

    /// To settle a book is to give up the orders that are out, and then to take an order and bring its result until no row is
    /// unsettled. As many takes give an order as rows are due: unsettled, with another plan or other inputs than the last kept
    /// result. It changes nothing: what it ensures is the law.
    pub fn orders_settle(&self)
        ensures settled { ran_orders (due self.now) (after_release self.now) ≡ all_settled self.now }
        ensures orders { (n : ℕ) → n < due self.now → IsSome (take_reply (ran_orders n (after_release self.now))) }
    {
        self.loose.ids_are_apart();
    }
}

/// What events lead to from an empty book of a profile is a state that a book can have. Further events lead to such a state, and so
/// does settling. It does nothing: what it ensures is the law.
pub fn states_go_on()
    ensures events { EventsGoOn }
    ensures settling { SettlingGoesOn }
{}

/// In each state that a book can have, running the program once gives at each place what the same run gives in which each instruction
/// sees the whole world. It does nothing: what it ensures is the law.
pub fn states_are_direct()
    ensures { StatesAreDirect }
{
    run_is_direct();
}

/// Each state that a book can have is settled by what takes and results come to, as `Book::orders_settle` says of a book. It does
/// nothing: what it ensures is the law.
pub fn states_settle()
    ensures { StatesSettle }
{}
