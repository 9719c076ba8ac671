//! Executing orders: it needs no book and no lock.

ghost use Rattle.std.specs.Prelude.{◌≡◌, IfOk, IfErr};
ghost use Rattle.paris_model.specs.Instructions.{refusal};
ghost use Rattle.paris_router.specs.Mail.{refusal_of};
ghost use Rattle.paris_exec.specs.Tasks.{left_values, seen_at, task_outcome};
ghost use Rattle.paris_exec.specs.Frames.{GivesDirectly, GivesInAnyWorld, RefusedInAnyWorld};

use crate::contexts::unconditional_values;
use crate::elementwise::conditional_values;
use crate::lines::line_values;
use crate::mail::mail_answer;
use crate::news::news_values;
use crate::orders::{Done, Order, Outcome};
use paris_field::{FieldValue, SharedValue};
use paris_model::{Action, Refusal};
use paris_names::Items;
use std::alloc::{AllocError, Global};

/// The values that an order's instruction leaves at the keys that its plan writes, in their order, or why it is refused.
fn answer(alloc: Global, order: &Order) -> Result<Result<Vec<FieldValue>, Refusal>, AllocError>
    ensures refused { IfOk result (λ answer. refusal_of answer ≡ refusal order.now.plan (seen_at order.now)) }
    ensures values { IfOk result (λ answer. IfOk answer (λ values. values.items ≡ left_values order.now)) }
{
    match &order.plan().action() {
        Action::OnSelected(i) => Ok(Ok(conditional_values(alloc, order, i)?)),
        Action::OnAll(i) => Ok(Ok(unconditional_values(alloc, order, i)?)),
        Action::ByNews(i) => Ok(Ok(news_values(alloc, order, i)?)),
        Action::AlongLine(i) => Ok(Ok(line_values(alloc, order, i)?)),
        Action::ByMail(i) => mail_answer(alloc, order, i),
    }
}

/// Values, to be shared from here on.
fn shared_all(alloc: Global, values: Vec<FieldValue>) -> Result<Vec<SharedValue>, AllocError>
    ensures { IfOk result (λ all. all.items ≡ values.items) }
{
    let mut all = Vec::with_capacity(alloc, values.len())?;
    for value in values {
        match SharedValue::new(alloc, value) {
            Ok(shared) => all.push(shared)?,
            Err((_, error)) => return Err(error),
        }
    }
    Ok(all)
}

/// What the plan of an order gives on its inputs.
fn outcome_of(alloc: Global, order: &Order) -> Result<Outcome, AllocError>
    ensures { IfOk result (λ outcome. outcome ≡ task_outcome order.now) }
{
    match answer(alloc, order)? {
        Ok(values) => {
            let shared = shared_all(alloc, values)?;
            Ok(Outcome::Values(Items::new(shared)))
        }
        Err(cause) => Ok(Outcome::Refused(cause)),
    }
}

/// Executes an order. At want of memory the order comes back.
pub fn execute(alloc: Global, order: Order) -> Result<Done, (Order, AllocError)>
    ensures ok { IfOk result (λ done. done ≡ order) }
    ensures err { IfErr result (λ e. e.0 ≡ order) }
    ensures frame { GivesInAnyWorld order }
    ensures direct { GivesDirectly order }
    ensures refused { RefusedInAnyWorld order }
{
    // Whoever asks a plan for its action knows that it is fit.
    order.plan().action();
    match outcome_of(alloc, &order) {
        Ok(outcome) => Done::new(alloc, order, outcome),
        Err(error) => Err((order, error)),
    }
}
