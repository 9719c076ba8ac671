//! Numbers of one length as numbers of another.

ghost use Rattle.std.specs.Prelude.{◌≡◌, ◌≤◌, ◌<◌, IfOk, false, length, replicate};
ghost use Rattle.paris_alu.specs.Alu.{resize_overflow_plane, resized_field};
ghost use Rattle.paris_alu.specs.Bits.{by_sign};

use crate::planes::{extended_planes, unlike_rest};
use crate::sums::Overflowing;
use paris_field::FieldValue;
use paris_layer::Layer;
use paris_model::Sign;
use std::alloc::{AllocError, Global};

/// The bits that stand above the top bit.
fn rest_above(sign: Sign, top: &Layer) -> Result<Layer, AllocError>
    ensures { IfOk result (λ plane. plane ≡ by_sign sign (replicate (length top.now) false) top.now) }
{
    match sign {
        Sign::Unsigned => Ok(Layer::filled(false, top.len())),
        Sign::Signed => top.copy(),
    }
}

/// The low `from_bits` bits of a field as numbers of `bits` bits.
pub fn extend(
    alloc: Global,
    sign: Sign,
    x: &FieldValue,
    from_bits: u64,
    bits: u64,
) -> Result<Overflowing, AllocError>
    requires positive { 0 < bits }
    requires narrow { bits ≤ 128 }
    requires from_some { 0 < from_bits }
    requires x_width { from_bits ≤ x.now.width }
    ensures value { IfOk result (λ resized. resized.value ≡ resized_field sign bits from_bits x.now) }
    ensures overflow { IfOk result (λ resized. resized.overflow ≡ resize_overflow_plane sign bits from_bits x.now) }
{
    let vps = x.len();
    let xs = x.low(from_bits);
    let kept = from_bits.min(bits) as usize;
    let rest = rest_above(sign, &xs[kept - 1])?;
    let overflow = unlike_rest(alloc, &xs[kept..], &rest)?;
    let planes = extended_planes(alloc, &xs[..kept], &rest, bits as usize)?;
    Ok(Overflowing {
        value: FieldValue::from_layers(planes, vps),
        overflow,
    })
}
