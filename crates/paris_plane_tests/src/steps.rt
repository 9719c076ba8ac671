//! Steps of the context and test flags beside the instructions that do them.

ghost use Rattle.std.specs.Prelude.{◌≡◌, ◌<◌, ◌≤◌, ℕ, List, length};
ghost use Rattle.paris_plain.specs.Narrow.{IsNarrow};

use crate::beside::{Made, agrees, alone, bit_operand, flag, seen_by_selected};
use crate::cases::{Sample, layer};
use paris_field::FieldValue;
use paris_flags::{ContextStep, TestStep, context_step, test_step};
use paris_model::{Action, Conditional, Operand, Unconditional};
use paris_names::{FlagName, SetNo};
use paris_plain::Inputs;
use std::alloc::{AllocError, Global};
use std::process::Abort;
use std::test::Fail;

const CONTEXT_STEPS: &[ContextStep] = &[
    ContextStep::Set,
    ContextStep::Clear,
    ContextStep::Invert,
    ContextStep::Load,
    ContextStep::And,
    ContextStep::Or,
];

const TEST_STEPS: &[TestStep] = &[TestStep::Set, TestStep::Clear, TestStep::Load];

/// The instruction of a step of the context.
fn context_action(step: ContextStep) -> Action<Operand, SetNo>
    ensures { (axes : List ℕ) → IsNarrow axes result }
{
    match step {
        ContextStep::Set => Action::OnAll(Unconditional::SetContext(SetNo::new(0))),
        ContextStep::Clear => Action::OnAll(Unconditional::ClearContext(SetNo::new(0))),
        ContextStep::Invert => Action::OnAll(Unconditional::InvertContext(SetNo::new(0))),
        ContextStep::Load => Action::OnAll(Unconditional::LoadContext(bit_operand())),
        ContextStep::And => Action::OnAll(Unconditional::AndContext(bit_operand())),
        ContextStep::Or => Action::OnAll(Unconditional::OrContext(bit_operand())),
    }
}

/// The instruction of a step of the test flag.
fn test_action(step: TestStep) -> Action<Operand, SetNo>
    ensures { (axes : List ℕ) → IsNarrow axes result }
{
    match step {
        TestStep::Set => Action::OnSelected(Conditional::SetTest(SetNo::new(0))),
        TestStep::Clear => Action::OnSelected(Conditional::ClearTest(SetNo::new(0))),
        TestStep::Load => Action::OnSelected(Conditional::LoadTest(bit_operand())),
    }
}

/// What a step of the context makes of a sample.
fn context_made(alloc: Global, sample: &Sample, step: ContextStep) -> Result<Made, AllocError> {
    let operand = layer(alloc, sample.left.as_slice())?;
    let mut context = layer(alloc, sample.context.as_slice())?;
    context_step(alloc, step, &mut context, &operand)?;
    let value = FieldValue::from_layer(alloc, context)?;
    alone(alloc, flag(FlagName::Context), value)
}

/// Each step of the context leaves what its instruction leaves.
fn steps_context(
    rt: &impl Abort,
    alloc: Global,
    sample: &Sample,
    seen: &Inputs,
) -> Result<(), Fail> {
    for step in CONTEXT_STEPS {
        let made = context_made(alloc, sample, *step)?;
        let case = (*step, sample.count);
        agrees(
            rt,
            alloc,
            &case,
            seen,
            &context_action(*step),
            made.as_slice(),
        )?;
    }
    Ok(())
}

/// What a step of the test flag makes of a sample.
fn test_made(alloc: Global, sample: &Sample, step: TestStep) -> Result<Made, AllocError> {
    let operand = layer(alloc, sample.left.as_slice())?;
    let context = layer(alloc, sample.context.as_slice())?;
    let mut test = layer(alloc, sample.test.as_slice())?;
    test_step(alloc, step, &mut test, &context, &operand)?;
    let value = FieldValue::from_layer(alloc, test)?;
    alone(alloc, flag(FlagName::Test), value)
}

/// Each step of the test flag leaves what its instruction leaves.
fn steps_test(rt: &impl Abort, alloc: Global, sample: &Sample, seen: &Inputs) -> Result<(), Fail> {
    for step in TEST_STEPS {
        let made = test_made(alloc, sample, *step)?;
        let case = (*step, sample.count);
        agrees(rt, alloc, &case, seen, &test_action(*step), made.as_slice())?;
    }
    Ok(())
}

/// Runs each step where an instruction sees this of a sample.
fn run_steps(rt: &impl Abort, alloc: Global, sample: &Sample, seen: &Inputs) -> Result<(), Fail> {
    steps_context(rt, alloc, sample, seen)?;
    steps_test(rt, alloc, sample, seen)
}

/// Runs each step on a sample of width 1.
pub(crate) fn run(rt: &impl Abort, alloc: Global, sample: &Sample) -> Result<(), Fail> {
    if sample.width != 1 {
        return Ok(());
    }
    let seen = seen_by_selected(rt, alloc, sample)?;
    run_steps(rt, alloc, sample, &seen)
}
