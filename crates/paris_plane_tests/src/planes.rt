//! Planes beside instructions of one bit, and beside the lists that they are made of.

ghost use Rattle.std.specs.Prelude.{◌≡◌, ◌<◌, ◌≤◌, ℕ, List, length};
ghost use Rattle.paris_plain.specs.Narrow.{IsNarrow};

use crate::beside::{
    self, Made, agrees, alone, destination, layer_holds, seen_by_all, seen_by_selected, with_carry,
};
use crate::cases::{Sample, everywhere, plane, put_bits};
use paris_field::FieldValue;
use paris_layer::Layer;
use paris_model::{Action, BinaryOperator, Operand, UnaryOperator};
use paris_names::SetNo;
use paris_plain::Inputs;
use paris_plane::{And, Or, Plane, Select, Xor};
use std::alloc::{AllocError, Global};
use std::process::Abort;
use std::test::Fail;

/// What is done to a plane, with a second one.
#[derive(Clone, Copy, Debug)]
enum Operation {
    AndIn,
    OrIn,
    XorIn,
    NotIn,
    PutAnd,
    PutOr,
    PutXor,
    NewAnd,
    NewOr,
    NewXor,
    Inverted,
}

const OPERATIONS: &[Operation] = &[
    Operation::AndIn,
    Operation::OrIn,
    Operation::XorIn,
    Operation::NotIn,
    Operation::PutAnd,
    Operation::PutOr,
    Operation::PutXor,
    Operation::NewAnd,
    Operation::NewOr,
    Operation::NewXor,
    Operation::Inverted,
];

impl Operation {
    /// The plane that it leaves, which is the first one where it works in place.
    fn run(self, alloc: Global, x: Plane, y: &Plane) -> Result<Plane, AllocError>
        requires { length x ≡ length y.now }
    {
        let mut x = x;
        match self {
            Operation::AndIn => x.and_in(y),
            Operation::OrIn => x.or_in(y),
            Operation::XorIn => x.xor_in(y),
            Operation::NotIn => x.not_in(),
            Operation::PutAnd => x.put::<And>(y),
            Operation::PutOr => x.put::<Or>(y),
            Operation::PutXor => x.put::<Xor>(y),
            Operation::NewAnd => return Plane::combined::<And>(alloc, &x, y),
            Operation::NewOr => return Plane::combined::<Or>(alloc, &x, y),
            Operation::NewXor => return Plane::combined::<Xor>(alloc, &x, y),
            Operation::Inverted => return Plane::inverted(alloc, &x),
        }
        Ok(x)
    }

    /// What the operation makes of a sample.
    fn made(self, alloc: Global, sample: &Sample) -> Result<Made, AllocError> {
        let x = plane(alloc, sample.left.as_slice())?;
        let y = plane(alloc, sample.right.as_slice())?;
        stored(alloc, self.run(alloc, x, &y)?)
    }

    /// The instruction that leaves the same.
    fn action(self) -> Action<Operand, SetNo>
        ensures { (axes : List ℕ) → IsNarrow axes result }
    {
        match self {
            Operation::AndIn | Operation::PutAnd | Operation::NewAnd => beside::binary(
                BinaryOperator::BitAnd,
                1,
            ),
            Operation::OrIn | Operation::PutOr | Operation::NewOr => beside::binary(
                BinaryOperator::BitOr,
                1,
            ),
            Operation::XorIn | Operation::PutXor | Operation::NewXor => beside::binary(
                BinaryOperator::BitXor,
                1,
            ),
            Operation::NotIn | Operation::Inverted => beside::unary(UnaryOperator::BitNot, 1),
        }
    }
}

/// The other calls.
#[derive(Clone, Copy, Debug)]
enum Call {
    AddStep,
    SubtractStep,
    Get,
    Copy,
    Set,
    Equals,
    Word,
    SetWord,
}

/// How bits are chosen by a mask.
#[derive(Clone, Copy, Debug)]
enum Choice {
    SelectIn,
    PutSelect,
    Selected,
    NewSelect,
}

const CHOICES: &[Choice] = &[
    Choice::SelectIn,
    Choice::PutSelect,
    Choice::Selected,
    Choice::NewSelect,
];

/// How a plane of one bit is made.
#[derive(Clone, Copy, Debug)]
enum Filling {
    Zeros,
    Ones,
    AllOf(bool),
    Clear,
    Fill,
}

/// Each with the bit that stands in every processor.
const FILLINGS: &[(Filling, u128)] = &[
    (Filling::Zeros, 0),
    (Filling::Ones, 1),
    (Filling::AllOf(false), 0),
    (Filling::AllOf(true), 1),
    (Filling::Clear, 0),
    (Filling::Fill, 1),
];

/// Whether a plane's bits are these, as the numbers of a value.
fn plane_holds(alloc: Global, plane: Plane, expected: &[u128]) -> Result<bool, AllocError> {
    layer_holds(alloc, Layer::from_plane(plane), expected)
}

/// Whether a plane's bits are these, read one by one.
fn has_bits(plane: &Plane, expected: &[u128]) -> bool {
    if plane.len() != expected.len() {
        return false;
    }
    for v in 0..expected.len() {
        if u128::from(plane.get(v)) != expected[v] {
            return false;
        }
    }
    true
}

/// Stops where a call fails.
fn check(rt: &impl Abort, call: Call, sample: &Sample, holds: bool) {
    assert!(rt; holds, "{call:?} of {} processors", sample.count);
}

/// What was made for the destination.
fn stored(alloc: Global, plane: Plane) -> Result<Made, AllocError> {
    let value = FieldValue::from_layer(alloc, Layer::from_plane(plane))?;
    alone(alloc, destination(), value)
}

/// Each operation leaves what its instruction leaves in a field of one bit.
fn operates(rt: &impl Abort, alloc: Global, sample: &Sample, seen: &Inputs) -> Result<(), Fail> {
    for operation in OPERATIONS {
        let made = operation.made(alloc, sample)?;
        let case = (*operation, sample.count);
        agrees(rt, alloc, &case, seen, &operation.action(), made.as_slice())?;
    }
    Ok(())
}

/// A plane where the bits of another were chosen by a mask.
fn chosen(alloc: Global, sample: &Sample, choice: Choice) -> Result<Plane, AllocError> {
    let mask = plane(alloc, sample.context.as_slice())?;
    let other = plane(alloc, sample.left.as_slice())?;
    let mut x = plane(alloc, sample.old.as_slice())?;
    match choice {
        Choice::SelectIn => x.select_in(&mask, &other),
        Choice::PutSelect => x.put_triple::<Select>(&other, &mask),
        Choice::Selected => return Plane::selected(alloc, &mask, &other, &x),
        Choice::NewSelect => return Plane::combined_triple::<Select>(alloc, &x, &other, &mask),
    }
    Ok(x)
}

/// A choice by a mask is a move in the processors of the mask.
fn selects(rt: &impl Abort, alloc: Global, sample: &Sample, seen: &Inputs) -> Result<(), Fail> {
    let action = beside::unary(UnaryOperator::Move, 1);
    for choice in CHOICES {
        let made = stored(alloc, chosen(alloc, sample, *choice)?)?;
        let case = (*choice, sample.count);
        agrees(rt, alloc, &case, seen, &action, made.as_slice())?;
    }
    Ok(())
}

/// The sum of two planes, and the carry.
fn added(alloc: Global, sample: &Sample) -> Result<(Plane, Plane), AllocError> {
    let x = plane(alloc, sample.left.as_slice())?;
    let y = plane(alloc, sample.right.as_slice())?;
    let mut carry = plane(alloc, sample.carry.as_slice())?;
    let sum = Plane::summed(alloc, &x, &y, &mut carry)?;
    Ok((sum, carry))
}

/// A step of an addition is a sum of one bit with the carry.
fn adds(rt: &impl Abort, alloc: Global, sample: &Sample, seen: &Inputs) -> Result<(), Fail> {
    let (sum, carry) = added(alloc, sample)?;
    let value = FieldValue::from_layer(alloc, Layer::from_plane(sum))?;
    let made = with_carry(alloc, value, Layer::from_plane(carry))?;
    let action = beside::binary(BinaryOperator::UnsignedAddCarry, 1);
    let case = (Call::AddStep, sample.count);
    agrees(rt, alloc, &case, seen, &action, made.as_slice())
}

/// The difference of two planes, and what is borrowed.
fn subtracted(alloc: Global, sample: &Sample) -> Result<(Plane, Plane), AllocError> {
    let x = plane(alloc, sample.left.as_slice())?;
    let y = plane(alloc, sample.right.as_slice())?;
    let mut borrow = Plane::zeros(alloc, x.len())?;
    let difference = Plane::difference(alloc, &x, &y, &mut borrow)?;
    Ok((difference, borrow))
}

/// A step of a subtraction from which nothing was borrowed is a difference of one bit.
fn subtracts(rt: &impl Abort, alloc: Global, sample: &Sample, seen: &Inputs) -> Result<(), Fail> {
    let (difference, borrow) = subtracted(alloc, sample)?;
    let value = FieldValue::from_layer(alloc, Layer::from_plane(difference))?;
    let made = with_carry(alloc, value, Layer::from_plane(borrow))?;
    let action = beside::binary(BinaryOperator::UnsignedSubtract, 1);
    let case = (Call::SubtractStep, sample.count);
    agrees(rt, alloc, &case, seen, &action, made.as_slice())
}

/// Runs the calls that are instructions in all processors.
fn run_on_all(rt: &impl Abort, alloc: Global, sample: &Sample, seen: &Inputs) -> Result<(), Fail> {
    operates(rt, alloc, sample, seen)?;
    adds(rt, alloc, sample, seen)?;
    subtracts(rt, alloc, sample, seen)
}

/// A plane of one bit.
fn filled(alloc: Global, sample: &Sample, filling: Filling) -> Result<Plane, AllocError> {
    let mut x = plane(alloc, sample.left.as_slice())?;
    match filling {
        Filling::Zeros => return Plane::zeros(alloc, sample.count),
        Filling::Ones => return Plane::ones(alloc, sample.count),
        Filling::AllOf(bit) => return Plane::filled(alloc, bit, sample.count),
        Filling::Clear => x.fill(false),
        Filling::Fill => x.fill(true),
    }
    Ok(x)
}

/// Planes of one bit are that bit in every processor.
fn fills(rt: &impl Abort, alloc: Global, sample: &Sample) -> Result<(), Fail> {
    for (filling, bit) in FILLINGS {
        let expected = everywhere(alloc, *bit, sample.count)?;
        let made = filled(alloc, sample, *filling)?;
        let holds = plane_holds(alloc, made, expected.as_slice())?;
        assert!(rt; holds, "{filling:?} of {} processors", sample.count);
    }
    Ok(())
}

/// Whether a copy of a plane of bits has these bits.
fn is_copied(alloc: Global, bits: &[u128]) -> Result<bool, AllocError> {
    let x = plane(alloc, bits)?;
    plane_holds(alloc, x.copy()?, bits)
}

/// Whether a plane has the bits that were written over others.
fn is_put(alloc: Global, sample: &Sample) -> Result<bool, AllocError> {
    let mut x = plane(alloc, sample.left.as_slice())?;
    put_bits(&mut x, sample.right.as_slice());
    plane_holds(alloc, x, sample.right.as_slice())
}

/// Bits are read back one by one, from a copy, and after others were written over them.
fn reads_back(rt: &impl Abort, alloc: Global, sample: &Sample) -> Result<(), Fail> {
    let bits = sample.left.as_slice();
    let x = plane(alloc, bits)?;
    check(rt, Call::Get, sample, has_bits(&x, bits));
    check(rt, Call::Copy, sample, is_copied(alloc, bits)?);
    check(rt, Call::Set, sample, is_put(alloc, sample)?);
    Ok(())
}

/// Whether two planes aren't equal, either way.
fn differ(x: &Plane, y: &Plane) -> bool {
    !x.equals(y) && !y.equals(x)
}

/// Whether a plane equals none with another bit at this place, and one with the same bit there.
fn tells_bit(x: &Plane, other: &mut Plane, v: usize) -> bool
    requires within { v < length x.now }
    requires same { length other.old ≡ length x.now }
    ensures { length other.new ≡ length other.old }
{
    let bit = x.get(v);
    other.set(v, !bit);
    let differs = differ(x, other);
    other.set(v, bit);
    differs && x.equals(other)
}

/// Whether a plane equals its copy, and none with another bit.
fn tells_bits(x: &Plane, other: &mut Plane, count: usize) -> bool
    requires count { length x.now ≡ count }
    requires same { length other.old ≡ count }
{
    for v in 0..count {
        if !tells_bit(x, other, v) {
            return false;
        }
    }
    true
}

/// Whether zeros don't equal more zeros.
fn tells_lengths(alloc: Global, count: usize) -> Result<bool, AllocError> {
    let zeros = Plane::zeros(alloc, count)?;
    let longer = Plane::zeros(alloc, count.saturating_add(1))?;
    Ok(differ(&zeros, &longer))
}

/// A plane equals its copy, and none with another bit or of another length.
fn tells_planes(rt: &impl Abort, alloc: Global, sample: &Sample) -> Result<(), Fail> {
    check(
        rt,
        Call::Equals,
        sample,
        tells_lengths(alloc, sample.count)?,
    );
    let x = plane(alloc, sample.left.as_slice())?;
    let mut other = x.copy()?;
    let tells = tells_bits(&x, &mut other, sample.count);
    check(rt, Call::Equals, sample, tells);
    Ok(())
}

/// The word of a block of bits, the first of them lowest.
fn packed(bits: &[u128], block: usize) -> u64 {
    let first = block.saturating_mul(64);
    let mut word = 0;
    for i in 0..64usize {
        if bits.get(first.saturating_add(i)) == Some(&1) {
            word |= 1u64 << i;
        }
    }
    word
}

/// The bits of the low `count` places of a word.
fn low_word(word: u64, count: usize) -> u64 {
    if count < 64 {
        word % (1u64 << count)
    } else {
        word
    }
}

/// Whether the words of a plane are the bits of blocks.
fn has_words(x: &Plane, bits: &[u128]) -> bool
    requires { length x.now ≡ length bits.now }
{
    let count = bits.len();
    for block in 0..count.div_ceil(64) {
        if low_word(x.word(block), count - 64 * block) != packed(bits, block) {
            return false;
        }
    }
    true
}

/// Words are the bits of blocks.
fn lends_words(rt: &impl Abort, alloc: Global, sample: &Sample) -> Result<(), Fail> {
    let x = plane(alloc, sample.left.as_slice())?;
    let lends = has_words(&x, sample.left.as_slice());
    check(rt, Call::Word, sample, lends);
    Ok(())
}

/// Of two lists the second in the processors of blocks of even number, and the first in the others.
fn even_blocks(alloc: Global, sample: &Sample) -> Result<Vec<u128>, AllocError> {
    let mut bits = Vec::with_capacity(alloc, sample.count)?;
    for v in 0..sample.count {
        bits.push(if v / 64 % 2 == 0 {
            sample.right[v]
        } else {
            sample.left[v]
        })?;
    }
    Ok(bits)
}

/// Puts words of these bits into the blocks of even number that a plane has.
fn put_even_blocks(x: &mut Plane, bits: &[u128]) {
    for block in (0..bits.len().div_ceil(64)).step_by(2) {
        if block < x.len().div_ceil(64) {
            x.set_word(block, packed(bits, block));
        }
    }
}

/// A word that is put changes the bits of its block alone.
fn puts_words(rt: &impl Abort, alloc: Global, sample: &Sample) -> Result<(), Fail> {
    let expected = even_blocks(alloc, sample)?;
    let mut x = plane(alloc, sample.left.as_slice())?;
    put_even_blocks(&mut x, sample.right.as_slice());
    let puts = plane_holds(alloc, x, expected.as_slice())?;
    check(rt, Call::SetWord, sample, puts);
    Ok(())
}

/// Runs the operations and steps on a sample.
fn run_steps(rt: &impl Abort, alloc: Global, sample: &Sample) -> Result<(), Fail> {
    let seen = seen_by_all(rt, alloc, sample)?;
    run_on_all(rt, alloc, sample, &seen)
}

/// Runs the choices on a sample.
fn run_choices(rt: &impl Abort, alloc: Global, sample: &Sample) -> Result<(), Fail> {
    let seen = seen_by_selected(rt, alloc, sample)?;
    selects(rt, alloc, sample, &seen)
}

/// Runs each call on a sample of width 1.
pub(crate) fn run(rt: &impl Abort, alloc: Global, sample: &Sample) -> Result<(), Fail> {
    if sample.width != 1 {
        return Ok(());
    }
    run_steps(rt, alloc, sample)?;
    run_choices(rt, alloc, sample)?;
    fills(rt, alloc, sample)?;
    reads_back(rt, alloc, sample)?;
    tells_planes(rt, alloc, sample)?;
    lends_words(rt, alloc, sample)?;
    puts_words(rt, alloc, sample)
}
