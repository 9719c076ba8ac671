//! What an instruction does to the context flags and to the test flags of all processors at once.

ghost use Rattle.std.specs.Prelude.{◌≡◌, OnErr, OnOk, length};
ghost use Rattle.std.specs.Simd.Lanes.{zip2};
ghost use Rattle.paris_plane.specs.Bits.{zip3};
ghost use Rattle.paris_flags.specs.Steps.{context_bit, test_bit};

use paris_layer::Layer;
use paris_plane::{And, Or, Without};
use std::alloc::{AllocError, Global};

/// What becomes of each context flag, beside the bit of an operand.
#[derive(Clone, Copy, PartialEq, Eq, Debug)]
pub enum ContextStep {
    Set,
    Clear,
    /// Turned.
    Invert,
    /// The operand's bit.
    Load,
    /// What it and the operand's bit both are.
    And,
    /// What it or the operand's bit is.
    Or,
}

/// What becomes of each test flag of a selected processor, beside the bit of an operand.
#[derive(Clone, Copy, PartialEq, Eq, Debug)]
pub enum TestStep {
    Set,
    Clear,
    /// The operand's bit.
    Load,
}

/// Does a step to the context flags of all processors. `Set`, `Clear` and `Invert` don't look at the operand. Fails only for want of
/// memory; all then stays as it was.
pub fn context_step(
    alloc: Global,
    step: ContextStep,
    context: &mut Layer,
    operand: &Layer,
) -> Result<(), AllocError>
    requires { length context.old ≡ length operand.now }
    ensures ok { OnOk result (context.new ≡ zip2 (context_bit step) context.old operand.now) }
    ensures err { OnErr result (context.new ≡ context.old) }
{
    match step {
        ContextStep::Set => *context = Layer::filled(true, context.len()),
        ContextStep::Clear => *context = Layer::filled(false, context.len()),
        ContextStep::Invert => context.not_in(),
        ContextStep::Load => *context = operand.copy()?,
        ContextStep::And => context.put::<And>(alloc, operand)?,
        ContextStep::Or => context.put::<Or>(alloc, operand)?,
    }
    Ok(())
}

/// Does a step to the test flags, or to other flags, of the processors whose context flags are 1. `Set` and `Clear` don't look at the
/// operand. Fails only for want of memory; all then stays as it was.
pub fn test_step(
    alloc: Global,
    step: TestStep,
    test: &mut Layer,
    context: &Layer,
    operand: &Layer,
) -> Result<(), AllocError>
    requires context { length test.old ≡ length context.now }
    requires operand { length test.old ≡ length operand.now }
    ensures ok { OnOk result (test.new ≡ zip3 (test_bit step) test.old operand.now context.now) }
    ensures err { OnErr result (test.new ≡ test.old) }
{
    match step {
        TestStep::Set => test.put::<Or>(alloc, context),
        TestStep::Clear => test.put::<Without>(alloc, context),
        TestStep::Load => test.select_in(alloc, context, operand),
    }
}
