//! Names, keys, and instructions by their shapes.

use paris_model::{Action, BinaryOperator, Comparison, Conditional, Instr, UnaryOperator};
use paris_names::{FlagName, KeyName, Name};
use std::process::Abort;

pub(crate) fn name(rt: &impl Abort, text: &[u8]) -> Name {
    Name::new(text).expect(rt, "it is a name")
}

pub(crate) fn field_key(rt: &impl Abort, text: &[u8]) -> KeyName {
    KeyName {
        name: name(rt, text),
        flag: None,
    }
}

/// A flag of the set `s`.
pub(crate) fn flag_key(rt: &impl Abort, flag: FlagName) -> KeyName {
    KeyName {
        name: name(rt, b"s"),
        flag: Some(flag),
    }
}

pub(crate) fn binary(
    rt: &impl Abort,
    operator: BinaryOperator,
    to: &[u8],
    left: &[u8],
    right: &[u8],
    length: u64,
) -> Instr {
    Action::OnSelected(Conditional::Binary {
        operator,
        to: name(rt, to),
        left: name(rt, left),
        right: name(rt, right),
        length,
    })
}

/// `u-add-3-1L`.
pub(crate) fn sum(rt: &impl Abort, to: &[u8], left: &[u8], right: &[u8], length: u64) -> Instr {
    binary(rt, BinaryOperator::UnsignedAdd, to, left, right, length)
}

/// `u-move-constant-1L`.
pub(crate) fn constant(rt: &impl Abort, to: &[u8], value: u128, length: u64) -> Instr {
    let to = name(rt, to);
    Action::OnSelected(Conditional::MoveConstant { to, value, length })
}

pub(crate) fn unary(
    rt: &impl Abort,
    operator: UnaryOperator,
    to: &[u8],
    from: &[u8],
    length: u64,
) -> Instr {
    Action::OnSelected(Conditional::Unary {
        operator,
        to: name(rt, to),
        from: name(rt, from),
        length,
    })
}

pub(crate) fn compare(
    rt: &impl Abort,
    comparison: Comparison,
    left: &[u8],
    right: &[u8],
    length: u64,
) -> Instr {
    Action::OnSelected(Conditional::Compare {
        comparison,
        left: name(rt, left),
        right: name(rt, right),
        length,
    })
}
