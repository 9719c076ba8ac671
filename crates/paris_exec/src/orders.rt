//! Orders, and what executing them gives.

ghost use Rattle.std.specs.Prelude.{◌≡◌, ◌<◌, ◌≤◌, ◌↔◌, length, true, IsTrue, IfOk, IfErr, List};
ghost use Rattle.std.specs.Option.{SomeIff, option_copied};
ghost use Rattle.paris_names.specs.Keys.{has_key};
ghost use Rattle.paris_geometry.specs.Geometry.{processor_count};
ghost use Rattle.paris_model.specs.Instructions.{reads, writes, value_at};
ghost use Rattle.paris_exec.specs.Tasks.{fits, fits_key, fits_keys, beside, field_of, numbers_of, task_outcome, task_value};

use paris_field::{FieldValue, SharedValue};
use paris_instr::{Plan, SharedPlan};
use paris_model::Refusal;
use paris_names::{Edition, Items, Key, RowId};
use std::alloc::{AllocError, Global};
use std::marker::Model;
use std::sync::Arc;

/// An order for a row: its plan, which is shared, and a value for each key that the plan reads. A clause sees the task.
#[derive(Debug, Drop)]
pub struct Order {
    id: RowId,
    edition: Edition,
    plan: SharedPlan,
    inputs: Vec<SharedValue>,
}

impl Model for Order {
    ghost use Rattle.std.specs.Prelude.{◌≡◌, true};
    ghost use Rattle.paris_exec.specs.Tasks.{Task, fits};

    ghost Value = { Task };

    ghost view = { λ a. record { id = a.id; edition = a.edition; plan = a.plan; inputs = a.inputs.items } };

    ghost invariant = { λ a. fits a.plan a.inputs.items ≡ true };
}

/// What an instruction gives: a value for each key that its plan writes, in order, or why it was refused.
#[derive(Debug, Drop)]
pub enum Outcome {
    Values(Items<SharedValue>),
    Refused(Refusal),
}

/// An order with the definitions' outcome of it. A clause sees the order's task.
#[derive(Debug, Drop)]
struct Executed {
    task: Order,
    outcome: Outcome,
}

impl Model for Executed {
    ghost use Rattle.std.specs.Prelude.{◌≡◌};
    ghost use Rattle.paris_exec.specs.Tasks.{Task, task_outcome};

    ghost Value = { Task };

    ghost view = { λ a. a.task };

    ghost invariant = { λ a. a.outcome ≡ task_outcome a.task };
}

/// An executed order. Its outcome is the definitions' outcome of its own order. It never changes, and its copies share it. A clause
/// sees the order's task.
#[derive(Debug, Drop)]
pub struct Done {
    executed: Arc<Executed, Global>,
}

impl Model for Done {
    ghost use Rattle.std.specs.Arc.{arc_value};
    ghost use Rattle.paris_exec.specs.Tasks.{Task};

    ghost Value = { Task };

    ghost view = { λ a. arc_value a.executed };
}

/// The value beside a key.
fn value_beside<'a>(keys: &[Key], values: &'a [SharedValue], key: &Key) -> Option<&'a SharedValue>
    ensures { option_copied result ≡ beside keys.now values.entry.now key.now }
{
    for i in 0..keys.len() {
        if i >= values.len() {
            return None;
        }
        if key.is_same(keys[i]) {
            return Some(&values[i]);
        }
    }
    None
}

/// Whether the values fit the keys of a plan one by one.
fn are_fit(plan: &Plan, keys: &[Key], values: &[SharedValue]) -> bool
    ensures { result ≡ fits_keys plan.now keys.now values.now }
{
    if keys.len() != values.len() {
        return false;
    }
    for i in 0..keys.len() {
        if !is_fit(plan, &keys[i], values[i].get()) {
            return false;
        }
    }
    true
}

/// Whether a value has a key's width, and a number for each processor of the plan's set.
fn is_fit(plan: &Plan, key: &Key, value: &FieldValue) -> bool
    ensures { result ≡ fits_key plan.now key.now value.now }
{
    value.width() == plan.width(*key) && value.len() == plan.geometry().vps()
}

/// Copies of values.
fn copies(alloc: Global, values: &[SharedValue]) -> Result<Vec<SharedValue>, AllocError>
    ensures { IfOk result (λ copies. copies.items ≡ values.now) }
{
    let mut copies = Vec::new(alloc);
    for value in values {
        copies.push(value.copy()?)?;
    }
    Ok(copies)
}

/// Whether values are the same as others.
fn are_same_values(values: &[SharedValue], others: &[SharedValue]) -> bool
    ensures { IsTrue result ↔ (values.now ≡ others.now) }
{
    if values.len() != others.len() {
        return false;
    }
    for i in 0..values.len() {
        if !values[i].get().equals(others[i].get()) {
            return false;
        }
    }
    true
}

impl Order {
    /// The order of these parts, where the inputs fit the plan: one for each key that it reads, in the order of
    /// `Plan::reads`, of the key's width and with a number for each processor. Else the inputs are dropped.
    pub fn new(
        id: RowId,
        edition: Edition,
        plan: SharedPlan,
        inputs: Vec<SharedValue>,
    ) -> Option<Order>
        ensures { SomeIff result (fits plan inputs.items ≡ true) (record { id = id; edition = edition; plan = plan; inputs = inputs.items }) }
    {
        if !are_fit(plan.get(), plan.get().reads(), inputs.as_slice()) {
            return None;
        }
        Some(Order {
            id,
            edition,
            plan,
            inputs,
        })
    }

    /// The row that the order is for.
    pub fn id(&self) -> RowId
        ensures { result ≡ self.now.id }
    {
        self.id
    }

    /// The edition of the row that it is for.
    pub fn edition(&self) -> Edition
        ensures { result ≡ self.now.edition }
    {
        self.edition
    }

    /// The plan.
    pub fn plan(&self) -> &Plan
        ensures { result.now ≡ self.now.plan }
    {
        self.plan.get()
    }

    /// The same plan, to be shared.
    pub fn shared_plan(&self) -> &SharedPlan
        ensures { result.now ≡ self.now.plan }
    {
        &self.plan
    }

    /// The inputs, in the order of `Plan::reads`.
    pub fn inputs(&self) -> &[SharedValue]
        ensures value { result.now ≡ self.now.inputs }
        ensures fit { fits self.now.plan self.now.inputs ≡ true }
    {
        self.inputs.as_slice()
    }

    /// The input at a key that the plan reads.
    pub fn input(&self, key: &Key) -> &FieldValue
        requires { has_key (reads self.now.plan) key.now ≡ true }
        ensures value { result.now ≡ field_of self.now.plan key.now (value_at (reads self.now.plan) (numbers_of self.now.inputs) key.now) }
        ensures count { length result.now.numbers ≡ processor_count self.now.plan.axes }
    {
        self.shared_input(key).get()
    }

    /// The same input, to be shared.
    pub fn shared_input(&self, key: &Key) -> &SharedValue
        requires { has_key (reads self.now.plan) key.now ≡ true }
        ensures value { result.now ≡ field_of self.now.plan key.now (value_at (reads self.now.plan) (numbers_of self.now.inputs) key.now) }
        ensures count { length result.now.numbers ≡ processor_count self.now.plan.axes }
    {
        match value_beside(self.plan.get().reads(), self.inputs.as_slice(), key) {
            Some(value) => value,
            None => unreachable!(),
        }
    }

    /// Whether another order is the same work: of an equal plan with equal inputs, whatever row and edition it is for. It takes no
    /// memory.
    pub fn same_work(&self, other: &Order) -> bool
        ensures { IsTrue result ↔ ((self.now.plan ≡ other.now.plan) × (self.now.inputs ≡ other.now.inputs)) }
    {
        self.plan.get().equals(other.plan.get())
            && are_same_values(self.inputs.as_slice(), other.inputs.as_slice())
    }

    /// A copy that equals the order.
    pub fn copy(&self) -> Result<Order, AllocError>
        ensures { IfOk result (λ order. order ≡ self.now) }
    {
        let plan = self.plan.copy()?;
        let inputs = copies(*self.inputs.allocator(), self.inputs.as_slice())?;
        Ok(Order {
            id: self.id,
            edition: self.edition,
            plan,
            inputs,
        })
    }
}

impl Executed {
    /// What the instruction leaves at a key that its plan writes: of a refused one, the value that was read.
    fn shared_value(&self, key: &Key) -> &SharedValue
        requires { has_key (writes self.now.plan) key.now ≡ true }
        ensures value { result.now ≡ task_value self.now key.now }
        ensures count { length result.now.numbers ≡ processor_count self.now.plan.axes }
    {
        match &self.outcome {
            Outcome::Values(values) => {
                match value_beside(self.task.plan().writes(), values.as_slice(), key) {
                    Some(value) => value,
                    None => unreachable!(),
                }
            }
            Outcome::Refused(_) => self.task.shared_input(key),
        }
    }
}

impl Done {
    /// An order with its outcome. At want of memory the order comes back.
    pub(crate) fn new(
        alloc: Global,
        order: Order,
        outcome: Outcome,
    ) -> Result<Done, (Order, AllocError)>
        requires { outcome ≡ task_outcome order }
        ensures ok { IfOk result (λ done. done ≡ order) }
        ensures err { IfErr result (λ e. e.0 ≡ order) }
    {
        let executed = Executed {
            task: order,
            outcome,
        };
        match Arc::new(alloc, executed) {
            Ok(executed) => Ok(Done { executed }),
            Err(failed) => {
                let Executed { task, .. } = failed.value;
                Err((task, AllocError))
            }
        }
    }

    /// The order that was executed.
    pub fn order(&self) -> &Order
        ensures { result.now ≡ self.now }
    {
        &self.executed.task
    }

    /// What it gave.
    pub fn outcome(&self) -> &Outcome
        ensures { result.now ≡ task_outcome self.now }
    {
        &self.executed.outcome
    }

    /// What the instruction leaves at a key that its plan writes: of a refused one, the value that was read.
    pub fn value(&self, key: &Key) -> &FieldValue
        requires { has_key (writes self.now.plan) key.now ≡ true }
        ensures value { result.now ≡ task_value self.now key.now }
        ensures count { length result.now.numbers ≡ processor_count self.now.plan.axes }
    {
        self.shared_value(key).get()
    }

    /// The same value, to be shared.
    pub fn shared_value(&self, key: &Key) -> &SharedValue
        requires { has_key (writes self.now.plan) key.now ≡ true }
        ensures value { result.now ≡ task_value self.now key.now }
        ensures count { length result.now.numbers ≡ processor_count self.now.plan.axes }
    {
        self.executed.shared_value(key)
    }

    /// A copy that equals the result, and shares it. No memory is taken: the error is for a count of owners that is full.
    pub fn copy(&self) -> Result<Done, AllocError>
        ensures { IfOk result (λ done. done ≡ self.now) }
    {
        let executed = Arc::try_clone(&self.executed)?;
        Ok(Done { executed })
    }
}
