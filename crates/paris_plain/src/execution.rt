//! One instruction, of any family.

ghost use Rattle.std.specs.Prelude.{◌≡◌, map, IfOk};
ghost use Rattle.paris_plain.specs.Narrow.{IsNarrow};
ghost use Rattle.paris_model.specs.Instructions.{after_in, refusal_in};
ghost use Rattle.paris_plain.specs.Plain.{frame_of_seen, plain_outcome};

use crate::conditional::conditional_after;
use crate::inputs::Inputs;
use crate::lines::line_after;
use crate::mail::{mail_after, mail_refusal};
use crate::news::news_after;
use crate::unconditional::unconditional_after;
use paris_model::{Action, Operand, Refusal};
use paris_names::{Items, Key, SetNo};
use std::alloc::{AllocError, Global};

/// Why an action is refused, if it is.
fn refusal(
    alloc: Global,
    inputs: &Inputs,
    action: &Action<Operand, SetNo>,
) -> Result<Option<Refusal>, AllocError>
    requires { IsNarrow inputs.now.axes action.now }
    ensures { IfOk result (λ cause. cause ≡ refusal_in (frame_of_seen inputs.now) action.now) }
{
    match action {
        Action::ByMail(i) => mail_refusal(alloc, inputs, i),
        Action::OnSelected(_) | Action::OnAll(_) | Action::ByNews(_) | Action::AlongLine(_) => {
            Ok(None)
        }
    }
}

/// The numbers that an action leaves at a key, where it isn't refused.
fn numbers_after(
    alloc: Global,
    inputs: &Inputs,
    action: &Action<Operand, SetNo>,
    key: &Key,
) -> Result<Vec<u128>, AllocError>
    requires { IsNarrow inputs.now.axes action.now }
    ensures { IfOk result (λ numbers. numbers.items ≡ after_in (frame_of_seen inputs.now) action.now key.now) }
{
    match action {
        Action::OnSelected(i) => conditional_after(alloc, inputs, i, key),
        Action::OnAll(i) => unconditional_after(alloc, inputs, i, key),
        Action::ByNews(i) => news_after(alloc, inputs, i, key),
        Action::AlongLine(i) => line_after(alloc, inputs, i, key),
        Action::ByMail(i) => mail_after(alloc, inputs, i, key),
    }
}

/// The numbers that an action leaves at some keys, where it isn't refused.
fn values_after(
    alloc: Global,
    inputs: &Inputs,
    action: &Action<Operand, SetNo>,
    writes: &[Key],
) -> Result<Vec<Items<u128>>, AllocError>
    requires { IsNarrow inputs.now.axes action.now }
    ensures { IfOk result (λ values. values.items ≡ map (after_in (frame_of_seen inputs.now) action.now) writes.now) }
{
    let mut values = Vec::new(alloc);
    for key in writes {
        values.push(Items::new(numbers_after(alloc, inputs, action, key)?))?;
    }
    Ok(values)
}

/// What an action gives on its inputs: for each of the keys `writes`, in their order, the numbers that it leaves there, by
/// processor, or else its refusal. The outer error is want of memory.
pub fn outcome(
    alloc: Global,
    inputs: &Inputs,
    action: &Action<Operand, SetNo>,
    writes: &[Key],
) -> Result<Result<Items<Items<u128>>, Refusal>, AllocError>
    requires { IsNarrow inputs.now.axes action.now }
    ensures { IfOk result (λ outcome. outcome ≡ plain_outcome (frame_of_seen inputs.now) action.now writes.now) }
{
    match refusal(alloc, inputs, action)? {
        Some(cause) => Ok(Err(cause)),
        None => {
            let values = values_after(alloc, inputs, action, writes)?;
            Ok(Ok(Items::new(values)))
        }
    }
}
