//! Instructions that store in every processor.

ghost use Rattle.std.specs.Prelude.{◌≡◌, ◌≤◌, IfOk};
ghost use Rattle.paris_plain.specs.Narrow.{IsNarrow};
ghost use Rattle.paris_model.specs.Unconditional.{unconditional_length, unconditional_value, unconditional_after};
ghost use Rattle.paris_plain.specs.Plain.{frame_of_seen};
ghost use Rattle.paris_names.specs.declared.limits.TheConstants.{MAX_WIDTH_OF_ONE};

use crate::inputs::Inputs;
use paris_model::{Action, Operand, Unconditional};
use paris_names::{FlagName, Key, SetNo};
use std::alloc::{AllocError, Global};

/// How many low bits an instruction stores.
fn stored_length(inputs: &Inputs, i: &Unconditional<Operand, SetNo>) -> u64
    requires { IsNarrow inputs.now.axes (Action.OnAll i.now) }
    ensures value { result ≡ unconditional_length i.now }
    ensures narrow { result ≤ MAX_WIDTH_OF_ONE }
{
    match *i {
        Unconditional::MoveAlways { length, .. } => length,
        Unconditional::SetContext(_)
        | Unconditional::ClearContext(_)
        | Unconditional::InvertContext(_)
        | Unconditional::LoadContext(_)
        | Unconditional::AndContext(_)
        | Unconditional::OrContext(_)
        | Unconditional::AndContextWithTest(_)
        | Unconditional::StoreContext(_) => 1,
    }
}

/// The number that an instruction stores in a processor.
fn new_at(inputs: &Inputs, i: &Unconditional<Operand, SetNo>, v: usize) -> u128
    requires { IsNarrow inputs.now.axes (Action.OnAll i.now) }
    ensures { result ≡ unconditional_value (frame_of_seen inputs.now) i.now v }
{
    let context = inputs.flag_at(FlagName::Context, v);
    match *i {
        Unconditional::MoveAlways {
            to: _,
            from,
            length,
        } => inputs.low_at(from, length, v),
        Unconditional::SetContext(_) => 1,
        Unconditional::ClearContext(_) => 0,
        Unconditional::InvertContext(_) => 1 - context,
        Unconditional::LoadContext(from) => inputs.field_at(from, v),
        Unconditional::AndContext(from) => context & inputs.field_at(from, v),
        Unconditional::OrContext(from) => context | inputs.field_at(from, v),
        Unconditional::AndContextWithTest(_) => context & inputs.flag_at(FlagName::Test, v),
        Unconditional::StoreContext(_) => context,
    }
}

/// The numbers, by processor, that an instruction which stores in every processor leaves at a key. Its only error is want
/// of memory.
pub fn unconditional_after(
    alloc: Global,
    inputs: &Inputs,
    i: &Unconditional<Operand, SetNo>,
    key: &Key,
) -> Result<Vec<u128>, AllocError>
    requires { IsNarrow inputs.now.axes (Action.OnAll i.now) }
    ensures { IfOk result (λ numbers. numbers.items ≡ unconditional_after (frame_of_seen inputs.now) i.now key.now) }
{
    let length = stored_length(inputs, i);
    (0..inputs.vps())
        .map(|v| inputs.stored_at(key, true, length, new_at(inputs, i, v), v))
        .collect(alloc)
}
