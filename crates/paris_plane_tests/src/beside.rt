//! What the plain program leaves, and the comparison with what was made of planes.

ghost use Rattle.std.specs.Prelude.{◌≡◌, ◌<◌, ◌≤◌, ℕ, List};
ghost use Rattle.paris_plain.specs.Narrow.{IsNarrow};

use crate::cases::{Sample, everywhere};
use paris_field::FieldValue;
use paris_geometry::Geometry;
use paris_layer::Layer;
use paris_model::{Action, BinaryOperator, Comparison, Conditional, Operand, Sign, UnaryOperator};
use paris_names::{FieldNo, FlagName, Items, Key, SetNo};
use paris_plain::{Inputs, flags_are_bits, outcome};
use std::alloc::{AllocError, Global};
use std::fmt::Debug;
use std::process::Abort;
use std::test::Fail;

const LEFT: u64 = 0;

const RIGHT: u64 = 1;

const DESTINATION: u64 = 2;

/// A field of 64 bits.
fn operand(number: u64) -> Operand
    requires { number < 64 }
    ensures { result ≡ record { field = number; width = 64 } }
{
    Operand {
        field: FieldNo::new(number),
        width: 64,
    }
}

/// The left field, read as one of a bit.
pub(crate) fn bit_operand() -> Operand
    ensures { result ≡ record { field = 0; width = 1 } }
{
    Operand {
        field: FieldNo::new(LEFT),
        width: 1,
    }
}

fn field(number: u64) -> Key
    requires { number < 64 }
{
    Key::Field(FieldNo::new(number))
}

/// The field that the instructions store to.
pub(crate) fn destination() -> Key {
    field(DESTINATION)
}

pub(crate) fn flag(name: FlagName) -> Key {
    Key::Flag(SetNo::new(0), name)
}

/// An operator on the low bits of the left and the right field.
pub(crate) fn binary(operator: BinaryOperator, length: u64) -> Action<Operand, SetNo>
    requires positive { 0 < length }
    requires narrow { length ≤ 64 }
    ensures { (axes : List ℕ) → IsNarrow axes result }
{
    Action::OnSelected(Conditional::Binary {
        operator,
        to: operand(DESTINATION),
        left: operand(LEFT),
        right: operand(RIGHT),
        length,
    })
}

/// An operator on the low bits of the left field.
pub(crate) fn unary(operator: UnaryOperator, length: u64) -> Action<Operand, SetNo>
    requires positive { 0 < length }
    requires narrow { length ≤ 64 }
    ensures { (axes : List ℕ) → IsNarrow axes result }
{
    Action::OnSelected(Conditional::Unary {
        operator,
        to: operand(DESTINATION),
        from: operand(LEFT),
        length,
    })
}

/// The low `from_length` bits of the left field as a number of `length` bits.
pub(crate) fn resize(sign: Sign, length: u64, from_length: u64) -> Action<Operand, SetNo>
    requires positive { 0 < length }
    requires narrow { length ≤ 64 }
    requires from_some { 0 < from_length }
    requires from_short { from_length ≤ 64 }
    ensures { (axes : List ℕ) → IsNarrow axes result }
{
    Action::OnSelected(Conditional::Resize {
        sign,
        to: operand(DESTINATION),
        from: operand(LEFT),
        length,
        from_length,
    })
}

/// A comparison of the low bits of the left and the right field.
pub(crate) fn compare(comparison: Comparison, length: u64) -> Action<Operand, SetNo>
    requires positive { 0 < length }
    requires narrow { length ≤ 64 }
    ensures { (axes : List ℕ) → IsNarrow axes result }
{
    Action::OnSelected(Conditional::Compare {
        comparison,
        left: operand(LEFT),
        right: operand(RIGHT),
        length,
    })
}

/// The keys of parts.
fn keys_in(alloc: Global, parts: &[(Key, &[u128])]) -> Result<Vec<Key>, AllocError> {
    parts.iter().map(|part| part.0).collect(alloc)
}

/// The numbers of parts.
fn lists_in(alloc: Global, parts: &[(Key, &[u128])]) -> Result<Vec<Items<u128>>, AllocError> {
    let mut lists = Vec::new(alloc);
    for (_key, numbers) in parts {
        lists.push(Items::new(Vec::from_slice(alloc, *numbers)?))?;
    }
    Ok(lists)
}

/// What an instruction sees in a set of `count` processors in a line: these keys with these numbers.
fn inputs(
    rt: &impl Abort,
    alloc: Global,
    count: usize,
    parts: &[(Key, &[u128])],
) -> Result<Inputs, Fail> {
    let geometry = Geometry::new(&[count as u64])?;
    let keys = keys_in(alloc, parts)?;
    let values = lists_in(alloc, parts)?;
    assert!(rt; flags_are_bits(keys.as_slice(), values.as_slice()));
    Ok(Inputs::new(SetNo::new(0), geometry, keys, values))
}

/// What an instruction sees of a sample where these processors are selected and these numbers stand at the destination.
pub(crate) fn seen<'a>(
    rt: &impl Abort,
    alloc: Global,
    sample: &'a Sample,
    old: &'a [u128],
    context: &'a [u128],
) -> Result<Inputs, Fail> {
    let parts = [
        (field(LEFT), sample.left.as_slice()),
        (field(RIGHT), sample.right.as_slice()),
        (field(DESTINATION), old),
        (flag(FlagName::Context), context),
        (flag(FlagName::Test), sample.test.as_slice()),
        (flag(FlagName::Carry), sample.carry.as_slice()),
    ];
    inputs(rt, alloc, sample.count, &parts)
}

/// What an instruction sees of a sample where the processors of its context are selected.
pub(crate) fn seen_by_selected(
    rt: &impl Abort,
    alloc: Global,
    sample: &Sample,
) -> Result<Inputs, Fail> {
    let old = sample.old.as_slice();
    seen(rt, alloc, sample, old, sample.context.as_slice())
}

/// What an instruction sees of a sample where all processors are selected and zeros stand at the destination.
pub(crate) fn seen_by_all(rt: &impl Abort, alloc: Global, sample: &Sample) -> Result<Inputs, Fail> {
    let zeros = everywhere(alloc, 0, sample.count)?;
    let ones = everywhere(alloc, 1, sample.count)?;
    seen(rt, alloc, sample, zeros.as_slice(), ones.as_slice())
}

/// What was made of planes for some keys.
pub(crate) type Made = Vec<(Key, FieldValue)>;

/// Adds what was made for a key.
pub(crate) fn with(made: Made, key: Key, value: FieldValue) -> Result<Made, AllocError> {
    let mut made = made;
    made.push((key, value))?;
    Ok(made)
}

/// What was made for one key.
pub(crate) fn alone(alloc: Global, key: Key, value: FieldValue) -> Result<Made, AllocError> {
    with(Vec::new(alloc), key, value)
}

fn keys_of(alloc: Global, made: &[(Key, FieldValue)]) -> Result<Vec<Key>, AllocError> {
    let mut keys = Vec::new(alloc);
    for (key, _) in made {
        keys.push(*key)?;
    }
    Ok(keys)
}

/// What was made for the destination and the carry.
pub(crate) fn with_carry(
    alloc: Global,
    value: FieldValue,
    carry: Layer,
) -> Result<Made, AllocError> {
    let carry = FieldValue::from_layer(alloc, carry)?;
    let made = alone(alloc, destination(), value)?;
    with(made, flag(FlagName::Carry), carry)
}

/// Whether a value's numbers are these.
pub(crate) fn holds(value: &FieldValue, expected: &[u128]) -> Result<bool, AllocError> {
    let numbers = value.numbers()?;
    Ok(numbers.as_slice() == expected)
}

/// Whether a layer's bits are these, as the numbers of a value.
pub(crate) fn layer_holds(
    alloc: Global,
    layer: Layer,
    expected: &[u128],
) -> Result<bool, AllocError> {
    let value = FieldValue::from_layer(alloc, layer)?;
    holds(&value, expected)
}

/// Whether a value's numbers are these, read one by one.
pub(crate) fn has_numbers(value: &FieldValue, expected: &[u128]) -> bool {
    if value.len() != expected.len() {
        return false;
    }
    for v in 0..expected.len() {
        if value.get(v) != expected[v] {
            return false;
        }
    }
    true
}

/// Whether a layer's bits are these, read one by one.
pub(crate) fn has_bits(layer: &Layer, expected: &[u128]) -> bool {
    if layer.len() != expected.len() {
        return false;
    }
    for v in 0..expected.len() {
        if u128::from(layer.get(v)) != expected[v] {
            return false;
        }
    }
    true
}

/// Whether values' numbers are these, key by key.
fn hold(made: &[(Key, FieldValue)], left: &[Items<u128>]) -> Result<bool, AllocError> {
    for ((_, value), expected) in made.iter().zip(left) {
        if !holds(value, expected.as_slice())? {
            return Ok(false);
        }
    }
    Ok(made.len() == left.len())
}

/// Whether what was made is what an action leaves.
fn is_left(
    alloc: Global,
    inputs: &Inputs,
    action: &Action<Operand, SetNo>,
    made: &[(Key, FieldValue)],
) -> Result<bool, AllocError>
    requires { (axes : List ℕ) → IsNarrow axes action.now }
{
    let keys = keys_of(alloc, made)?;
    match outcome(alloc, inputs, action, keys.as_slice())? {
        Ok(left) => hold(made, left.as_slice()),
        Err(_refusal) => Ok(false),
    }
}

/// Stops where what was made is not what an action leaves.
pub(crate) fn agrees(
    rt: &impl Abort,
    alloc: Global,
    case: &impl Debug,
    inputs: &Inputs,
    action: &Action<Operand, SetNo>,
    made: &[(Key, FieldValue)],
) -> Result<(), Fail>
    requires { (axes : List ℕ) → IsNarrow axes action.now }
{
    let is_left = is_left(alloc, inputs, action, made)?;
    assert!(rt; is_left, "{case:?}");
    Ok(())
}
