//! Instructions that store in selected processors, each by itself.

ghost use Rattle.std.specs.Prelude.{◌≡◌, ℕ, ◌<◌, ◌≤◌, ◌==◌, ◌^◌, false, slice_index, IfOk, if◌then◌else◌};
ghost use Rattle.paris_geometry.specs.Geometry.{coordinate};
ghost use Rattle.paris_names.specs.declared.keys.FlagName.TheVariants.{Test, Carry};
ghost use Rattle.paris_model.specs.Store.{low, bit};
ghost use Rattle.paris_model.specs.Elementwise.{binary_result, binary_carry, binary_overflow, unary_result, unary_overflow, resize_result, resize_overflow, compares};
ghost use Rattle.paris_model.specs.Frame.{field_at, low_at, flag_at, put_selected};
ghost use Rattle.paris_model.specs.Conditional.{conditional_field, conditional_flag, conditional_after};
ghost use Rattle.paris_model.specs.Fits.{is_bad_axis};
ghost use Rattle.paris_plain.specs.Narrow.{IsNarrow};
ghost use Rattle.paris_plain.specs.Plain.{frame_of_seen};
ghost use Rattle.paris_names.specs.declared.limits.TheConstants.{MAX_WIDTH_OF_ONE};

use crate::bits::bit;
use crate::elementwise::{
    binary_carries, binary_overflows, binary_value, compare, resize_overflows, resized,
    unary_overflows, unary_value,
};
use crate::inputs::Inputs;
use paris_model::{Action, BinaryOperator, Comparison, Conditional, Operand, Sign, UnaryOperator};
use paris_names::{FlagName, Key, SetNo};
use std::alloc::{AllocError, Global};

/// The numbers at a key after the selected processors have stored the results of an operator.
fn binary_stored(
    alloc: Global,
    inputs: &Inputs,
    key: &Key,
    operator: BinaryOperator,
    to: Operand,
    left: Operand,
    right: Operand,
    length: u64,
) -> Result<Vec<u128>, AllocError>
    requires positive { 0 < length }
    requires narrow { length ≤ MAX_WIDTH_OF_ONE }
    ensures { IfOk result (λ numbers. numbers.items ≡ put_selected (frame_of_seen inputs.now) key.now length
        (λ v. binary_result operator length (low_at (frame_of_seen inputs.now) left length v) (low_at (frame_of_seen inputs.now) right length v) (flag_at (frame_of_seen inputs.now) Carry v) (field_at (frame_of_seen inputs.now) to v))) }
{
    (0..inputs.vps())
        .map(|v| {
            let x = inputs.low_at(left, length, v);
            let y = inputs.low_at(right, length, v);
            let carry = inputs.flag_at(FlagName::Carry, v);
            let new = binary_value(operator, length, x, y, carry, inputs.field_at(to, v));
            inputs.selected_at(key, length, new, v)
        })
        .collect(alloc)
}

/// The numbers at a flag after the selected processors have stored the carry of an operator.
fn carry_stored(
    alloc: Global,
    inputs: &Inputs,
    key: &Key,
    operator: BinaryOperator,
    left: Operand,
    right: Operand,
    length: u64,
) -> Result<Vec<u128>, AllocError>
    requires { length ≤ MAX_WIDTH_OF_ONE }
    ensures { IfOk result (λ numbers. numbers.items ≡ put_selected (frame_of_seen inputs.now) key.now 1
        (λ v. bit (binary_carry operator length (low_at (frame_of_seen inputs.now) left length v) (low_at (frame_of_seen inputs.now) right length v) (flag_at (frame_of_seen inputs.now) Carry v)))) }
{
    (0..inputs.vps())
        .map(|v| {
            let x = inputs.low_at(left, length, v);
            let y = inputs.low_at(right, length, v);
            let carry = inputs.flag_at(FlagName::Carry, v);
            let new = bit(binary_carries(operator, length, x, y, carry));
            inputs.selected_at(key, 1, new, v)
        })
        .collect(alloc)
}

/// The numbers at a flag after the selected processors have stored the overflow of an operator.
fn overflow_stored(
    alloc: Global,
    inputs: &Inputs,
    key: &Key,
    operator: BinaryOperator,
    left: Operand,
    right: Operand,
    length: u64,
) -> Result<Vec<u128>, AllocError>
    requires positive { 0 < length }
    requires narrow { length ≤ MAX_WIDTH_OF_ONE }
    ensures { IfOk result (λ numbers. numbers.items ≡ put_selected (frame_of_seen inputs.now) key.now 1
        (λ v. bit (binary_overflow operator length (low_at (frame_of_seen inputs.now) left length v) (low_at (frame_of_seen inputs.now) right length v) (flag_at (frame_of_seen inputs.now) Carry v)))) }
{
    (0..inputs.vps())
        .map(|v| {
            let x = inputs.low_at(left, length, v);
            let y = inputs.low_at(right, length, v);
            let carry = inputs.flag_at(FlagName::Carry, v);
            let new = bit(binary_overflows(operator, length, x, y, carry));
            inputs.selected_at(key, 1, new, v)
        })
        .collect(alloc)
}

/// The numbers at a key after the selected processors have stored the results of an operator on one operand.
fn unary_stored(
    alloc: Global,
    inputs: &Inputs,
    key: &Key,
    operator: UnaryOperator,
    from: Operand,
    length: u64,
) -> Result<Vec<u128>, AllocError>
    requires { length ≤ MAX_WIDTH_OF_ONE }
    ensures { IfOk result (λ numbers. numbers.items ≡ put_selected (frame_of_seen inputs.now) key.now length (λ v. unary_result operator length (low_at (frame_of_seen inputs.now) from length v))) }
{
    (0..inputs.vps())
        .map(|v| {
            let new = unary_value(operator, length, inputs.low_at(from, length, v));
            inputs.selected_at(key, length, new, v)
        })
        .collect(alloc)
}

/// The numbers at a flag after the selected processors have stored the overflow of an operator on one operand.
fn unary_overflow_stored(
    alloc: Global,
    inputs: &Inputs,
    key: &Key,
    operator: UnaryOperator,
    from: Operand,
    length: u64,
) -> Result<Vec<u128>, AllocError>
    requires positive { 0 < length }
    requires narrow { length ≤ MAX_WIDTH_OF_ONE }
    ensures { IfOk result (λ numbers. numbers.items ≡ put_selected (frame_of_seen inputs.now) key.now 1 (λ v. bit (unary_overflow operator length (low_at (frame_of_seen inputs.now) from length v)))) }
{
    (0..inputs.vps())
        .map(|v| {
            let new = bit(unary_overflows(operator, length, inputs.low_at(from, length, v)));
            inputs.selected_at(key, 1, new, v)
        })
        .collect(alloc)
}

/// The numbers at a key after the selected processors have stored one number.
fn constant_stored(
    alloc: Global,
    inputs: &Inputs,
    key: &Key,
    number: u128,
    length: u64,
) -> Result<Vec<u128>, AllocError>
    requires { length ≤ MAX_WIDTH_OF_ONE }
    ensures { IfOk result (λ numbers. numbers.items ≡ put_selected (frame_of_seen inputs.now) key.now length (λ v. number)) }
{
    (0..inputs.vps())
        .map(|v| inputs.selected_at(key, length, number, v))
        .collect(alloc)
}

/// The numbers at a flag after the selected processors have stored a field.
fn field_stored(
    alloc: Global,
    inputs: &Inputs,
    key: &Key,
    from: Operand,
) -> Result<Vec<u128>, AllocError>
    ensures { IfOk result (λ numbers. numbers.items ≡ put_selected (frame_of_seen inputs.now) key.now 1 (field_at (frame_of_seen inputs.now) from)) }
{
    (0..inputs.vps())
        .map(|v| inputs.selected_at(key, 1, inputs.field_at(from, v), v))
        .collect(alloc)
}

/// The numbers at a key after the selected processors have stored a flag.
fn flag_stored(
    alloc: Global,
    inputs: &Inputs,
    key: &Key,
    flag: FlagName,
) -> Result<Vec<u128>, AllocError>
    ensures { IfOk result (λ numbers. numbers.items ≡ put_selected (frame_of_seen inputs.now) key.now 1 (flag_at (frame_of_seen inputs.now) flag)) }
{
    (0..inputs.vps())
        .map(|v| inputs.selected_at(key, 1, inputs.flag_at(flag, v), v))
        .collect(alloc)
}

/// The numbers at a key after the selected processors have stored a source as numbers of another length.
fn resized_stored(
    alloc: Global,
    inputs: &Inputs,
    key: &Key,
    sign: Sign,
    from: Operand,
    length: u64,
    from_length: u64,
) -> Result<Vec<u128>, AllocError>
    requires narrow { length ≤ MAX_WIDTH_OF_ONE }
    requires from_some { 0 < from_length }
    requires from_short { from_length ≤ MAX_WIDTH_OF_ONE }
    ensures { IfOk result (λ numbers. numbers.items ≡ put_selected (frame_of_seen inputs.now) key.now length (λ v. resize_result sign length from_length (low_at (frame_of_seen inputs.now) from from_length v))) }
{
    (0..inputs.vps())
        .map(|v| {
            let x = inputs.low_at(from, from_length, v);
            inputs.selected_at(key, length, resized(sign, length, from_length, x), v)
        })
        .collect(alloc)
}

/// The numbers at a flag after the selected processors have stored whether a source needs more bits.
fn resize_overflow_stored(
    alloc: Global,
    inputs: &Inputs,
    key: &Key,
    sign: Sign,
    from: Operand,
    length: u64,
    from_length: u64,
) -> Result<Vec<u128>, AllocError>
    requires positive { 0 < length }
    requires narrow { length ≤ MAX_WIDTH_OF_ONE }
    requires from_some { 0 < from_length }
    requires from_short { from_length ≤ MAX_WIDTH_OF_ONE }
    ensures { IfOk result (λ numbers. numbers.items ≡ put_selected (frame_of_seen inputs.now) key.now 1 (λ v. bit (resize_overflow sign length from_length (low_at (frame_of_seen inputs.now) from from_length v)))) }
{
    (0..inputs.vps())
        .map(|v| {
            let x = inputs.low_at(from, from_length, v);
            let new = bit(resize_overflows(sign, length, from_length, x));
            inputs.selected_at(key, 1, new, v)
        })
        .collect(alloc)
}

/// The numbers at a flag after the selected processors have stored a comparison.
fn comparison_stored(
    alloc: Global,
    inputs: &Inputs,
    key: &Key,
    comparison: Comparison,
    left: Operand,
    right: Operand,
    length: u64,
) -> Result<Vec<u128>, AllocError>
    requires positive { 0 < length }
    requires narrow { length ≤ MAX_WIDTH_OF_ONE }
    ensures { IfOk result (λ numbers. numbers.items ≡ put_selected (frame_of_seen inputs.now) key.now 1
        (λ v. bit (compares comparison length (low_at (frame_of_seen inputs.now) left length v) (low_at (frame_of_seen inputs.now) right length v)))) }
{
    (0..inputs.vps())
        .map(|v| {
            let x = inputs.low_at(left, length, v);
            let y = inputs.low_at(right, length, v);
            let new = bit(compare(comparison, length, x, y));
            inputs.selected_at(key, 1, new, v)
        })
        .collect(alloc)
}

/// The numbers at a key after the selected processors have stored their coordinates on an axis.
fn coordinate_stored(
    alloc: Global,
    inputs: &Inputs,
    key: &Key,
    axis: usize,
    length: u64,
) -> Result<Vec<u128>, AllocError>
    requires there { is_bad_axis inputs.now.axes axis ≡ false }
    requires narrow { length ≤ MAX_WIDTH_OF_ONE }
    ensures { IfOk result (λ numbers. numbers.items ≡ put_selected (frame_of_seen inputs.now) key.now length (coordinate inputs.now.axes axis)) }
{
    let geometry = inputs.geometry();
    (0..inputs.vps())
        .map(|v| {
            let new = u128::from(geometry.coordinate(v as u32, axis));
            inputs.selected_at(key, length, new, v)
        })
        .collect(alloc)
}

/// The numbers at a key after the selected processors have stored their send addresses.
fn address_stored(
    alloc: Global,
    inputs: &Inputs,
    key: &Key,
    length: u64,
) -> Result<Vec<u128>, AllocError>
    requires { length ≤ MAX_WIDTH_OF_ONE }
    ensures { IfOk result (λ numbers. numbers.items ≡ put_selected (frame_of_seen inputs.now) key.now length (λ v. v)) }
{
    (0..inputs.vps())
        .map(|v| inputs.selected_at(key, length, v as u128, v))
        .collect(alloc)
}

/// The numbers at a field after an instruction that stores in selected processors.
fn field_after(
    alloc: Global,
    inputs: &Inputs,
    i: &Conditional<Operand, SetNo>,
    key: &Key,
) -> Result<Vec<u128>, AllocError>
    requires { IsNarrow inputs.now.axes (Action.OnSelected i.now) }
    ensures { IfOk result (λ numbers. numbers.items ≡ conditional_field (frame_of_seen inputs.now) i.now key.now) }
{
    match *i {
        Conditional::Binary {
            operator,
            to,
            left,
            right,
            length,
        } => binary_stored(alloc, inputs, key, operator, to, left, right, length),
        Conditional::Unary {
            operator,
            to: _,
            from,
            length,
        } => unary_stored(alloc, inputs, key, operator, from, length),
        Conditional::MoveConstant {
            to: _,
            value,
            length,
        } => constant_stored(alloc, inputs, key, value, length),
        Conditional::Resize {
            sign,
            to: _,
            from,
            length,
            from_length,
        } => resized_stored(alloc, inputs, key, sign, from, length, from_length),
        Conditional::MyCoordinate {
            to: _,
            axis,
            length,
        } => coordinate_stored(alloc, inputs, key, axis as usize, length),
        Conditional::MyAddress { to: _, length } => address_stored(alloc, inputs, key, length),
        Conditional::StoreTest(_) => flag_stored(alloc, inputs, key, FlagName::Test),
        Conditional::Compare { .. }
        | Conditional::SetTest(_)
        | Conditional::ClearTest(_)
        | Conditional::LoadTest(_) => inputs.copied(alloc, key),
    }
}

/// The numbers at a flag after an instruction that stores in selected processors.
fn flag_after(
    alloc: Global,
    inputs: &Inputs,
    i: &Conditional<Operand, SetNo>,
    key: &Key,
    flag: FlagName,
) -> Result<Vec<u128>, AllocError>
    requires { IsNarrow inputs.now.axes (Action.OnSelected i.now) }
    ensures { IfOk result (λ numbers. numbers.items ≡ put_selected (frame_of_seen inputs.now) key.now 1 (conditional_flag (frame_of_seen inputs.now) i.now flag)) }
{
    match *i {
        Conditional::Binary {
            operator,
            to: _,
            left,
            right,
            length,
        } => match flag {
            FlagName::Carry => carry_stored(alloc, inputs, key, operator, left, right, length),
            FlagName::Context | FlagName::Test | FlagName::Overflow => {
                overflow_stored(alloc, inputs, key, operator, left, right, length)
            }
        },
        Conditional::Unary {
            operator,
            to: _,
            from,
            length,
        } => unary_overflow_stored(alloc, inputs, key, operator, from, length),
        Conditional::Resize {
            sign,
            to: _,
            from,
            length,
            from_length,
        } => resize_overflow_stored(alloc, inputs, key, sign, from, length, from_length),
        Conditional::Compare {
            comparison,
            left,
            right,
            length,
        } => comparison_stored(alloc, inputs, key, comparison, left, right, length),
        Conditional::SetTest(_) => constant_stored(alloc, inputs, key, 1, 1),
        Conditional::ClearTest(_) => constant_stored(alloc, inputs, key, 0, 1),
        Conditional::LoadTest(from) => field_stored(alloc, inputs, key, from),
        Conditional::MoveConstant { .. }
        | Conditional::MyCoordinate { .. }
        | Conditional::MyAddress { .. }
        | Conditional::StoreTest(_) => flag_stored(alloc, inputs, key, flag),
    }
}

/// The numbers, by processor, that an instruction which stores in selected processors leaves at a key. Its only error is
/// want of memory.
pub fn conditional_after(
    alloc: Global,
    inputs: &Inputs,
    i: &Conditional<Operand, SetNo>,
    key: &Key,
) -> Result<Vec<u128>, AllocError>
    requires { IsNarrow inputs.now.axes (Action.OnSelected i.now) }
    ensures { IfOk result (λ numbers. numbers.items ≡ conditional_after (frame_of_seen inputs.now) i.now key.now) }
{
    match *key {
        Key::Field(_) => field_after(alloc, inputs, i, key),
        Key::Flag(_, flag) => flag_after(alloc, inputs, i, key, flag),
    }
}
