//! Instructions over three fields and the flags, which random games play, and numbers that look random.

use crate::spellings::{compare, constant, field_key, flag_key, name, sum, unary};
use paris_model::{Action, Comparison, Instr, Mail, Sign, UnaryOperator, Unconditional};
use paris_names::{FlagName, KeyName};
use std::alloc::{AllocError, Global};
use std::process::Abort;

/// The keys: the fields `a`, `b` and `c`, and then the flags.
pub(crate) const KEYS: u64 = 7;

pub(crate) const CONTEXT: u64 = 3;

const TEST: u64 = 4;

const CARRY: u64 = 5;

const OVERFLOW: u64 = 6;

/// Numbers that look random, and are the same in each run.
#[derive(Drop)]
pub(crate) struct Dice {
    pub(crate) state: u64,
}

/// A number below a bound.
pub(crate) fn throw(dice: &mut Dice, bound: u64) -> u64 {
    dice.state = dice
        .state
        .wrapping_mul(6_364_136_223_846_793_005)
        .wrapping_add(1_442_695_040_888_963_407);
    (dice.state >> 33).checked_rem(bound).unwrap_or(0)
}

/// An instruction over the three fields, which stand by their numbers.
#[derive(Clone, Copy)]
pub(crate) enum Operation {
    Sum { to: u64, left: u64, right: u64 },
    Constant { to: u64, value: u64 },
    Move { to: u64, from: u64 },
    MoveAlways { to: u64, from: u64 },
    Get { to: u64, addresses: u64, from: u64 },
    Less { left: u64, right: u64 },
    InvertContext,
    AndContextWithTest,
}

fn field_text(number: u64) -> &'static [u8] {
    match number {
        0 => b"a".as_slice(),
        1 => b"b".as_slice(),
        _ => b"c".as_slice(),
    }
}

pub(crate) fn key_name(rt: &impl Abort, key: u64) -> KeyName {
    match key {
        CONTEXT => flag_key(rt, FlagName::Context),
        TEST => flag_key(rt, FlagName::Test),
        CARRY => flag_key(rt, FlagName::Carry),
        OVERFLOW => flag_key(rt, FlagName::Overflow),
        _ => field_key(rt, field_text(key)),
    }
}

fn move_always(rt: &impl Abort, to: &[u8], from: &[u8]) -> Instr {
    Action::OnAll(Unconditional::MoveAlways {
        to: name(rt, to),
        from: name(rt, from),
        length: 8,
    })
}

fn get_by(rt: &impl Abort, to: &[u8], addresses: &[u8], from: &[u8]) -> Instr {
    Action::ByMail(Mail::Get {
        to: name(rt, to),
        addresses: name(rt, addresses),
        from: name(rt, from),
        length: 8,
    })
}

/// The instruction as it is written.
pub(crate) fn spelled(rt: &impl Abort, operation: Operation) -> Instr {
    match operation {
        Operation::Sum { to, left, right } => {
            sum(rt, field_text(to), field_text(left), field_text(right), 8)
        }
        Operation::Constant { to, value } => constant(rt, field_text(to), u128::from(value), 8),
        Operation::Move { to, from } => {
            unary(rt, UnaryOperator::Move, field_text(to), field_text(from), 8)
        }
        Operation::MoveAlways { to, from } => move_always(rt, field_text(to), field_text(from)),
        Operation::Get {
            to,
            addresses,
            from,
        } => get_by(rt, field_text(to), field_text(addresses), field_text(from)),
        Operation::Less { left, right } => compare(
            rt,
            Comparison::Less(Sign::Unsigned),
            field_text(left),
            field_text(right),
            8,
        ),
        Operation::InvertContext => { Action::OnAll(Unconditional::InvertContext(name(rt, b"s"))) }
        Operation::AndContextWithTest => {
            Action::OnAll(Unconditional::AndContextWithTest(name(rt, b"s")))
        }
    }
}

/// Whether an instruction writes a key.
pub(crate) fn writes(operation: Operation, key: u64) -> bool {
    match operation {
        Operation::Sum { to, .. } => key == to || key == CARRY || key == OVERFLOW,
        Operation::Constant { to, .. }
        | Operation::Move { to, .. }
        | Operation::MoveAlways { to, .. }
        | Operation::Get { to, .. } => key == to,
        Operation::Less { .. } => key == TEST,
        Operation::InvertContext | Operation::AndContextWithTest => key == CONTEXT,
    }
}

/// Whether an instruction reads a key: a source, the context where it goes by that, and what it writes, but for a move in all
/// processors, which leaves nothing of the old number.
pub(crate) fn reads(operation: Operation, key: u64) -> bool {
    match operation {
        Operation::Sum { left, right, .. } => {
            key == left || key == right || key == CONTEXT || writes(operation, key)
        }
        Operation::Constant { .. } => key == CONTEXT || writes(operation, key),
        Operation::Move { from, .. } => { key == from || key == CONTEXT || writes(operation, key) }
        Operation::MoveAlways { from, .. } => key == from,
        Operation::Get {
            addresses,
            from,
            ..
        } => key == addresses || key == from || key == CONTEXT || writes(operation, key),
        Operation::Less { left, right } => {
            key == left || key == right || key == CONTEXT || writes(operation, key)
        }
        Operation::InvertContext => key == CONTEXT,
        Operation::AndContextWithTest => key == CONTEXT || key == TEST,
    }
}

/// A field's number.
fn any_field(dice: &mut Dice) -> u64 {
    throw(dice, 3)
}

/// A number of a field, which is an address of one of the four processors in most cases.
fn any_number(dice: &mut Dice) -> u64 {
    if throw(dice, 4) == 0 {
        throw(dice, 256)
    } else {
        throw(dice, 4)
    }
}

fn any_flag_instruction(dice: &mut Dice) -> Operation {
    match throw(dice, 4) {
        0 => Operation::InvertContext,
        1 => Operation::AndContextWithTest,
        _ => Operation::Less {
            left: any_field(dice),
            right: any_field(dice),
        },
    }
}

pub(crate) fn any_operation(dice: &mut Dice) -> Operation {
    let (to, left, right) = (any_field(dice), any_field(dice), any_field(dice));
    match throw(dice, 8) {
        0 | 1 => Operation::Sum { to, left, right },
        2 => Operation::Constant {
            to,
            value: any_number(dice),
        },
        3 | 4 => Operation::Move { to, from: left },
        5 => Operation::MoveAlways { to, from: left },
        6 => Operation::Get {
            to,
            addresses: left,
            from: right,
        },
        _ => any_flag_instruction(dice),
    }
}

/// A number of a key. The context is 1 in most cases.
fn any_value(dice: &mut Dice, key: u64) -> u128 {
    if key == CONTEXT {
        return if throw(dice, 4) == 0 { 0 } else { 1 };
    }
    let number = if key < CONTEXT {
        any_number(dice)
    } else {
        throw(dice, 2)
    };
    u128::from(number)
}

/// Numbers for a key from a processor on.
pub(crate) fn any_values(
    alloc: Global,
    dice: &mut Dice,
    key: u64,
    from: u64,
) -> Result<Vec<u128>, AllocError> {
    let count = throw(dice, 4_u64.wrapping_sub(from)).wrapping_add(1);
    let mut values = Vec::new(alloc);
    for _ in 0..count {
        values.push(any_value(dice, key))?;
    }
    Ok(values)
}

/// The numbers that the twin is given: the same, or the last bit of each turned.
pub(crate) fn twin_values(
    alloc: Global,
    dice: &mut Dice,
    values: &[u128],
) -> Result<Vec<u128>, AllocError> {
    let turned = if throw(dice, 3) == 0 { 1 } else { 0 };
    let mut others = Vec::new(alloc);
    for value in values {
        others.push(*value ^ turned)?;
    }
    Ok(others)
}

/// The instruction that the twin is given: the same, or another constant.
pub(crate) fn twin_operation(dice: &mut Dice, operation: Operation) -> Operation {
    match operation {
        Operation::Constant { to, value } => Operation::Constant {
            to,
            value: value ^ throw(dice, 2),
        },
        _ => operation,
    }
}

/// A place among so many rows, or the one behind them.
pub(crate) fn any_place(dice: &mut Dice, count: usize) -> usize {
    throw(dice, (count as u64).wrapping_add(1)) as usize
}
