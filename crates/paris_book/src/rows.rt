//! What the book keeps of a row, and what calls change of it.

ghost use Rattle.std.specs.Prelude.{◌≡◌, IfOk, IfSome};
ghost use Rattle.std.specs.Option.{option_copied};
ghost use Rattle.paris_book.specs.RowsInside.{plan_held, done_held, of_plan};
ghost use Rattle.paris_book.specs.Marks.{fresh_data, replaced_data, out_data, kept_data, again_data, recalled_data, stale_data};

use crate::sources::Sources;
use paris_edits::Status;
use paris_exec::Done;
use paris_instr::{Plan, SharedPlan};
use paris_names::Edition;
use std::alloc::{AllocError, Global};
use std::marker::Model;

/// The plan of a row, with the result that was last kept of it, if there is one.
#[derive(Debug, Drop)]
pub(crate) enum RowContent {
    /// A plan of which no result was kept yet.
    Plan(SharedPlan),
    /// A result, whose order has the plan.
    Done(Done),
    /// A plan that an edit put in place of another one, and the result that was kept before it.
    Replaced(SharedPlan, Done),
}

impl RowContent {
    /// The same once more, which is shared.
    fn copy(&self) -> Result<RowContent, AllocError>
        ensures { IfOk result (λ copy. copy ≡ self.now) }
    {
        match self {
            RowContent::Plan(plan) => Ok(RowContent::Plan(plan.copy()?)),
            RowContent::Done(done) => Ok(RowContent::Done(done.copy()?)),
            RowContent::Replaced(plan, done) => Ok(RowContent::Replaced(
                plan.copy()?,
                done.copy()?,
            )),
        }
    }

    /// The result, if there is one.
    fn done(&self) -> Option<&Done>
        ensures { option_copied result ≡ done_held self.now }
    {
        match self {
            RowContent::Plan(_) => None,
            RowContent::Done(done) | RowContent::Replaced(_, done) => Some(done),
        }
    }

    /// The result, if there is one and it is of the plan.
    fn result_of_plan(&self) -> Option<&Done>
        ensures value { option_copied result ≡ of_plan (plan_held self.now) (done_held self.now) }
        ensures same { IfSome result (λ done. done.now.plan ≡ plan_held self.now) }
    {
        match self {
            RowContent::Plan(_) => None,
            RowContent::Done(done) => Some(done),
            RowContent::Replaced(plan, done) => {
                if plan.get().equals(done.order().plan()) {
                    Some(done)
                } else {
                    None
                }
            }
        }
    }

    /// Another plan, with the same result. It is shared.
    fn with_plan(&self, plan: SharedPlan) -> Result<RowContent, AllocError>
        ensures plan { IfOk result (λ held. plan_held held ≡ plan) }
        ensures done { IfOk result (λ held. done_held held ≡ done_held self.now) }
    {
        match self.done() {
            None => Ok(RowContent::Plan(plan)),
            Some(done) => Ok(RowContent::Replaced(plan, done.copy()?)),
        }
    }
}

/// A plan, to be shared from here on.
fn shared(alloc: Global, plan: Plan) -> Result<SharedPlan, AllocError>
    ensures { IfOk result (λ shared. shared ≡ plan) }
{
    match SharedPlan::new(alloc, plan) {
        Ok(plan) => Ok(plan),
        Err((_, error)) => Err(error),
    }
}

/// What the book keeps of a row, whose id is the program's, with the result that was last kept and the sources of the values by
/// which that was computed. Copies of a row share its plan and its result. A clause sees the plan, and the result beside it.
#[derive(Debug, Drop)]
pub struct RowData {
    held: RowContent,
    set_by: u64,
    edition: Edition,
    status: Status,
    sources: Sources,
}

impl Model for RowData {
    ghost use Rattle.paris_book.specs.Rows.{RowData as Row};
    ghost use Rattle.paris_book.specs.RowsInside.{row_of};

    ghost Value = { Row };

    ghost view = { row_of };
}

impl RowData {
    /// A row that the edit of this number gives this plan.
    pub(crate) fn fresh(alloc: Global, plan: Plan, number: u64) -> Result<RowData, AllocError>
        ensures { IfOk result (λ row. row ≡ fresh_data plan number) }
    {
        let plan = shared(alloc, plan)?;
        Ok(RowData {
            held: RowContent::Plan(plan),
            set_by: number,
            edition: Edition(number),
            status: Status::Waiting,
            sources: Sources::none(),
        })
    }

    /// The row once the edit of this number has given it another plan. It keeps the result with its sources.
    pub(crate) fn replaced(
        &self,
        alloc: Global,
        plan: Plan,
        number: u64,
    ) -> Result<RowData, AllocError>
        ensures { IfOk result (λ row. row ≡ replaced_data plan number self.now) }
    {
        let plan = shared(alloc, plan)?;
        let held = self.held.with_plan(plan)?;
        Ok(RowData {
            held,
            set_by: number,
            edition: Edition(number),
            status: Status::Waiting,
            sources: self.sources,
        })
    }

    /// The plan.
    pub(crate) fn plan(&self) -> &Plan
        ensures { result.now ≡ self.now.plan }
    {
        match &self.held {
            RowContent::Plan(plan) | RowContent::Replaced(plan, _) => plan.get(),
            RowContent::Done(done) => done.order().plan(),
        }
    }

    /// The plan once more, which is shared. No memory is taken: the error is for a count of owners that is full.
    pub(crate) fn shared_plan(&self) -> Result<SharedPlan, AllocError>
        ensures { IfOk result (λ plan. plan ≡ self.now.plan) }
    {
        match &self.held {
            RowContent::Plan(plan) | RowContent::Replaced(plan, _) => plan.copy(),
            RowContent::Done(done) => done.order().shared_plan().copy(),
        }
    }

    /// The edition.
    pub(crate) fn edition(&self) -> Edition
        ensures { result ≡ self.now.edition }
    {
        self.edition
    }

    /// Where the row stands.
    pub(crate) fn status(&self) -> Status
        ensures { result ≡ self.now.status }
    {
        self.status
    }

    /// The result that was last kept, if there is one.
    pub(crate) fn done(&self) -> Option<&Done>
        ensures { option_copied result ≡ self.now.done }
    {
        self.held.done()
    }

    /// The result that was last kept, if there is one and it is of the plan.
    pub(crate) fn result_of_plan(&self) -> Option<&Done>
        ensures value { option_copied result ≡ of_plan self.now.plan self.now.done }
        ensures same { IfSome result (λ done. done.now.plan ≡ self.now.plan) }
    {
        self.held.result_of_plan()
    }

    /// The sources of the values by which the row was settled last.
    pub(crate) fn sources(&self) -> &Sources
        ensures { result.now.keys ≡ self.now.sources }
    {
        &self.sources
    }

    /// Marks the row as one of which an order is out.
    pub(crate) fn hand_out(&mut self)
        ensures { self.new ≡ out_data self.old }
    {
        self.status = Status::Out;
    }

    /// Settles the row by a result of its plan, which was computed by values of these sources.
    pub(crate) fn keep(&mut self, done: Done, sources: Sources)
        requires { self.old.plan ≡ done.plan }
        ensures { self.new ≡ kept_data done sources.keys self.old }
    {
        self.status = Status::Settled;
        self.sources = sources;
        self.held = RowContent::Done(done);
    }

    /// Settles the row by the result that was last kept, which would be computed by values of these sources now.
    pub(crate) fn settle_again(&mut self, sources: Sources)
        ensures { self.new ≡ again_data sources.keys self.old }
    {
        self.status = Status::Settled;
        self.sources = sources;
    }

    /// Makes the row wait if an order of it is out.
    pub(crate) fn recall(&mut self)
        ensures { self.new ≡ recalled_data self.old }
    {
        match self.status {
            Status::Out => self.status = Status::Waiting,
            Status::Waiting | Status::Settled => {}
        }
    }

    /// Makes the row unsettled by the edit of this number.
    pub(crate) fn unsettle(&mut self, number: u64)
        ensures { self.new ≡ stale_data number self.old }
    {
        self.edition = Edition(number);
        self.status = Status::Waiting;
    }
}

impl Clone for RowData {
    ghost is_clone = { λ row copy. copy ≡ row };

    fn clone(&self) -> Result<RowData, AllocError> {
        let held = self.held.copy()?;
        Ok(RowData {
            held,
            set_by: self.set_by,
            edition: self.edition,
            status: self.status,
            sources: self.sources,
        })
    }
}
