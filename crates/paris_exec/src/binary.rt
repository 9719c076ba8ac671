//! Operators of two sources, on planes.

ghost use Rattle.std.specs.Prelude.{◌≡◌, ◌≤◌, ◌<◌, true, length, slice_index, [], ◌∷◌, IfOk};
ghost use Rattle.paris_names.specs.Keys.{has_key};
ghost use Rattle.paris_names.specs.declared.keys.FlagName.TheVariants.{Carry, Overflow};
ghost use Rattle.paris_names.specs.declared.keys.Key.TheVariants.{Flag};
ghost use Rattle.paris_geometry.specs.Geometry.{processor_count};
ghost use Rattle.paris_model.specs.Elementwise.{binary_flags};
ghost use Rattle.paris_model.specs.Fits.{IsFit};
ghost use Rattle.paris_model.specs.Instructions.{reads};
ghost use Rattle.paris_exec.specs.Made.{IsMade};
ghost use Rattle.paris_exec.specs.Tasks.{left_values, seen_at};

use crate::orders::Order;
use crate::planes::{flag_plane, put_field, put_overflowing, put_quotient, put_sum};
use paris_alu::{
    BitOperator, Extremum, Overflowing, Sum, add, add_carry, extreme, logic, subtract,
};
use paris_field::FieldValue;
use paris_model::{Action, BinaryOperator, Conditional, Operand, Sign};
use paris_muldiv::{multiply, remainder, truncate};
use paris_names::{FlagName, Key};
use std::alloc::{AllocError, Global};

/// What an operator makes of two sources: its result in each processor, with a plane for each flag that it sets.
#[derive(Drop)]
enum Made {
    Sum(Sum),
    Product(Overflowing),
    /// A quotient or a remainder. Where it overflows there is no result.
    Quotient(Overflowing),
    /// A result that sets no flag.
    Plain(FieldValue),
}

/// What an operator makes of two sources.
fn made_of(
    alloc: Global,
    order: &Order,
    operator: BinaryOperator,
    x: &FieldValue,
    y: &FieldValue,
    bits: u64,
) -> Result<Made, AllocError>
    requires positive { 0 < bits }
    requires narrow { bits ≤ 128 }
    requires x_width { bits ≤ x.now.width }
    requires y_width { bits ≤ y.now.width }
    requires same { length x.now.numbers ≡ length y.now.numbers }
    requires count { length x.now.numbers ≡ processor_count order.now.plan.axes }
    requires carry { binary_flags operator ≡ Carry ∷ Overflow ∷ [] → has_key (reads order.now.plan) (Flag order.now.plan.set_no Carry) ≡ true }
    ensures { IfOk result (λ made. IsMade operator bits x.now y.now (slice_index (seen_at order.now (Flag order.now.plan.set_no Carry))) made) }
{
    match operator {
        BinaryOperator::UnsignedAdd => Ok(Made::Sum(add(alloc, Sign::Unsigned, x, y, bits)?)),
        BinaryOperator::SignedAdd => Ok(Made::Sum(add(alloc, Sign::Signed, x, y, bits)?)),
        BinaryOperator::UnsignedAddCarry => {
            let carry = flag_plane(order, &FlagName::Carry);
            Ok(Made::Sum(add_carry(alloc, x, y, carry, bits)?))
        }
        BinaryOperator::UnsignedSubtract => {
            Ok(Made::Sum(subtract(alloc, Sign::Unsigned, x, y, bits)?))
        }
        BinaryOperator::SignedSubtract => {
            Ok(Made::Sum(subtract(alloc, Sign::Signed, x, y, bits)?))
        }
        BinaryOperator::UnsignedMultiply => {
            Ok(Made::Product(multiply(alloc, Sign::Unsigned, x, y, bits)?))
        }
        BinaryOperator::SignedMultiply => {
            Ok(Made::Product(multiply(alloc, Sign::Signed, x, y, bits)?))
        }
        BinaryOperator::Truncate => Ok(Made::Quotient(truncate(alloc, x, y, bits)?)),
        BinaryOperator::Remainder => Ok(Made::Quotient(remainder(alloc, x, y, bits)?)),
        BinaryOperator::Maximum(sign) => {
            Ok(Made::Plain(extreme(alloc, Extremum::Maximum, sign, x, y, bits)?))
        }
        BinaryOperator::Minimum(sign) => {
            Ok(Made::Plain(extreme(alloc, Extremum::Minimum, sign, x, y, bits)?))
        }
        BinaryOperator::BitAnd => Ok(Made::Plain(logic(alloc, BitOperator::And, x, y, bits)?)),
        BinaryOperator::BitOr => Ok(Made::Plain(logic(alloc, BitOperator::Or, x, y, bits)?)),
        BinaryOperator::BitXor => Ok(Made::Plain(logic(alloc, BitOperator::Xor, x, y, bits)?)),
    }
}

/// The values that an operator of two sources leaves.
pub(crate) fn binary_values(
    alloc: Global,
    order: &Order,
    operator: BinaryOperator,
    to: &Operand,
    left: &Operand,
    right: &Operand,
    bits: u64,
) -> Result<Vec<FieldValue>, AllocError>
    requires acts { order.now.plan.action ≡ Action.OnSelected (Conditional.Binary operator to.now left.now right.now bits) }
    requires fit { IsFit order.now.plan.axes order.now.plan.action }
    ensures { IfOk result (λ values. values.items ≡ left_values order.now) }
{
    let x = order.input(&Key::Field(left.field));
    let y = order.input(&Key::Field(right.field));
    match made_of(alloc, order, operator, x, y, bits)? {
        Made::Sum(sum) => put_sum(alloc, order, to, sum),
        Made::Product(product) => put_overflowing(alloc, order, to, product),
        Made::Quotient(quotient) => put_quotient(alloc, order, to, quotient),
        Made::Plain(value) => put_field(alloc, order, to, value),
    }
}
