//! Instructions that store in every processor, on planes.

ghost use Rattle.std.specs.Prelude.{◌≡◌, ◌∷◌, [], true, length, IfOk};
ghost use Rattle.paris_model.specs.Fits.{IsFit};
ghost use Rattle.std.specs.Simd.Lanes.{zip2};
ghost use Rattle.paris_flags.specs.Steps.{context_bit};
ghost use Rattle.paris_exec.specs.Planes.{flag_value};
ghost use Rattle.paris_exec.specs.Tasks.{left_values};

use crate::orders::Order;
use crate::planes::flag_plane;
use paris_alu::copy_low;
use paris_field::FieldValue;
use paris_flags::{ContextStep, context_step};
use paris_layer::Layer;
use paris_model::{Action, Operand, Unconditional};
use paris_names::{FlagName, Key, SetNo};
use std::alloc::{AllocError, Global};

/// The values of a move of a source's low bits to the low bits of a field, in every processor.
fn move_always_values(
    alloc: Global,
    order: &Order,
    to: &Operand,
    from: &Operand,
    bits: u64,
) -> Result<Vec<FieldValue>, AllocError>
    requires acts { order.now.plan.action ≡ Action.OnAll (Unconditional.MoveAlways to.now from.now bits) }
    requires fit { IsFit order.now.plan.axes order.now.plan.action }
    ensures { IfOk result (λ values. values.items ≡ left_values order.now) }
{
    let x = order.input(&Key::Field(from.field));
    let low = x.low(bits);
    let mut values = Vec::with_capacity(alloc, 1)?;
    if bits == to.width {
        values.push(copy_low(alloc, x, bits)?)?;
        return Ok(values);
    }
    let all = Layer::filled(true, x.len());
    let value = order.input(&Key::Field(to.field)).merged(&all, low, bits)?;
    values.push(value)?;
    Ok(values)
}

/// The value of a flag or of a field of one bit, alone.
fn bits_alone(alloc: Global, bits: Layer) -> Result<Vec<FieldValue>, AllocError>
    ensures { IfOk result (λ values. values.items ≡ flag_value bits ∷ []) }
{
    let mut values = Vec::with_capacity(alloc, 1)?;
    values.push(FieldValue::from_layer(alloc, bits)?)?;
    Ok(values)
}

/// The context flags of all processors after a step, alone.
fn stepped(
    alloc: Global,
    step: ContextStep,
    context: &Layer,
    operand: &Layer,
) -> Result<Vec<FieldValue>, AllocError>
    requires { length context.now ≡ length operand.now }
    ensures { IfOk result (λ values. values.items ≡ flag_value (zip2 (context_bit step) context.now operand.now) ∷ []) }
{
    let mut bits = context.copy()?;
    context_step(alloc, step, &mut bits, operand)?;
    bits_alone(alloc, bits)
}

/// The values that an instruction of this family leaves at the keys that its plan writes, in their order.
pub(crate) fn unconditional_values(
    alloc: Global,
    order: &Order,
    i: &Unconditional<Operand, SetNo>,
) -> Result<Vec<FieldValue>, AllocError>
    requires acts { order.now.plan.action ≡ Action.OnAll i.now }
    requires fit { IsFit order.now.plan.axes order.now.plan.action }
    ensures { IfOk result (λ values. values.items ≡ left_values order.now) }
{
    let vps = order.plan().geometry().vps();
    let context = FlagName::Context;
    match i {
        Unconditional::MoveAlways { to, from, length } => {
            move_always_values(alloc, order, to, from, *length)
        }
        Unconditional::SetContext(_) => bits_alone(alloc, Layer::filled(true, vps)),
        Unconditional::ClearContext(_) => bits_alone(alloc, Layer::filled(false, vps)),
        Unconditional::LoadContext(from) => {
            let bits = order.input(&Key::Field(from.field)).mask().copy()?;
            bits_alone(alloc, bits)
        }
        Unconditional::StoreContext(_) => bits_alone(alloc, flag_plane(order, &context).copy()?),
        Unconditional::InvertContext(_) => {
            let bits = flag_plane(order, &context);
            stepped(alloc, ContextStep::Invert, bits, bits)
        }
        Unconditional::AndContext(from) => {
            let bits = flag_plane(order, &context);
            let operand = order.input(&Key::Field(from.field)).mask();
            stepped(alloc, ContextStep::And, bits, operand)
        }
        Unconditional::OrContext(from) => {
            let bits = flag_plane(order, &context);
            let operand = order.input(&Key::Field(from.field)).mask();
            stepped(alloc, ContextStep::Or, bits, operand)
        }
        Unconditional::AndContextWithTest(_) => {
            let bits = flag_plane(order, &context);
            let operand = flag_plane(order, &FlagName::Test);
            stepped(alloc, ContextStep::And, bits, operand)
        }
    }
}
