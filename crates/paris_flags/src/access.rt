//! Which flags an action sets and reads.

ghost use Rattle.std.specs.Prelude.{◌≡◌};
ghost use Rattle.paris_flags.specs.FlagSets.{flags_in};
ghost use Rattle.paris_model.specs.Elementwise.{binary_flags, unary_flags};
ghost use Rattle.paris_model.specs.Conditional.{conditional_flags, conditional_source_flags};
ghost use Rattle.paris_model.specs.Unconditional.{unconditional_flags, unconditional_source_flags};
ghost use Rattle.paris_model.specs.Lines.{combiner_flags, line_flags};
ghost use Rattle.paris_model.specs.Instructions.{target_flags, source_flags};

use crate::sets::FlagSet;
use bitflags::Flags;
use paris_model::{
    Action, BinaryOperator, Combiner, Conditional, Line, Operand, UnaryOperator, Unconditional,
};
use paris_names::SetNo;

/// The flags that an action sets, in order.
pub fn written_flags(action: &Action<Operand, SetNo>) -> FlagSet
    ensures { flags_in result ≡ target_flags action.now }
{
    match action {
        Action::OnSelected(action) => conditional_flags(action),
        Action::OnAll(action) => unconditional_flags(action),
        Action::ByNews(_) | Action::ByMail(_) => FlagSet::empty(),
        Action::AlongLine(action) => line_flags(action),
    }
}

fn conditional_flags(action: &Conditional<Operand, SetNo>) -> FlagSet
    ensures { flags_in result ≡ conditional_flags action.now }
{
    match *action {
        Conditional::Binary { operator, .. } => binary_flags(operator),
        Conditional::Unary { operator, .. } => unary_flags(operator),
        Conditional::Resize { .. } => FlagSet::OVERFLOW,
        Conditional::Compare { .. }
        | Conditional::SetTest(_)
        | Conditional::ClearTest(_)
        | Conditional::LoadTest(_) => FlagSet::TEST,
        Conditional::MoveConstant { .. }
        | Conditional::MyCoordinate { .. }
        | Conditional::MyAddress { .. }
        | Conditional::StoreTest(_) => FlagSet::empty(),
    }
}

fn binary_flags(operator: BinaryOperator) -> FlagSet
    ensures { flags_in result ≡ binary_flags operator }
{
    match operator {
        BinaryOperator::UnsignedAdd
        | BinaryOperator::UnsignedAddCarry
        | BinaryOperator::UnsignedSubtract
        | BinaryOperator::SignedAdd
        | BinaryOperator::SignedSubtract => FlagSet::CARRY.union(FlagSet::OVERFLOW),
        BinaryOperator::UnsignedMultiply
        | BinaryOperator::SignedMultiply
        | BinaryOperator::Truncate
        | BinaryOperator::Remainder => FlagSet::OVERFLOW,
        BinaryOperator::Maximum(_)
        | BinaryOperator::Minimum(_)
        | BinaryOperator::BitAnd
        | BinaryOperator::BitOr
        | BinaryOperator::BitXor => FlagSet::empty(),
    }
}

fn unary_flags(operator: UnaryOperator) -> FlagSet
    ensures { flags_in result ≡ unary_flags operator }
{
    match operator {
        UnaryOperator::Negate => FlagSet::OVERFLOW,
        UnaryOperator::BitNot | UnaryOperator::Move => FlagSet::empty(),
    }
}

fn unconditional_flags(action: &Unconditional<Operand, SetNo>) -> FlagSet
    ensures { flags_in result ≡ unconditional_flags action.now }
{
    match *action {
        Unconditional::MoveAlways { .. } | Unconditional::StoreContext(_) => FlagSet::empty(),
        Unconditional::SetContext(_)
        | Unconditional::ClearContext(_)
        | Unconditional::InvertContext(_)
        | Unconditional::LoadContext(_)
        | Unconditional::AndContext(_)
        | Unconditional::OrContext(_)
        | Unconditional::AndContextWithTest(_) => FlagSet::CONTEXT,
    }
}

fn line_flags(action: &Line<Operand>) -> FlagSet
    ensures { flags_in result ≡ line_flags action.now }
{
    match *action {
        Line::Scan { combiner, .. }
        | Line::Spread { combiner, .. }
        | Line::Reduce { combiner, .. } => combiner_flags(combiner),
        Line::CopyScan { .. } | Line::CopySpread { .. } => FlagSet::empty(),
    }
}

fn combiner_flags(combiner: Combiner) -> FlagSet
    ensures { flags_in result ≡ combiner_flags combiner }
{
    match combiner {
        Combiner::Sum => FlagSet::OVERFLOW,
        Combiner::BitOr
        | Combiner::BitAnd
        | Combiner::BitXor
        | Combiner::Maximum
        | Combiner::Minimum => FlagSet::empty(),
    }
}

/// The flags that an action reads beside those that it sets, in order.
pub fn read_flags(action: &Action<Operand, SetNo>) -> FlagSet
    ensures { flags_in result ≡ source_flags action.now }
{
    match action {
        Action::OnSelected(action) => conditional_source_flags(action),
        Action::OnAll(action) => unconditional_source_flags(action),
        Action::ByNews(_) | Action::AlongLine(_) | Action::ByMail(_) => FlagSet::CONTEXT,
    }
}

fn conditional_source_flags(action: &Conditional<Operand, SetNo>) -> FlagSet
    ensures { flags_in result ≡ conditional_source_flags action.now }
{
    match *action {
        Conditional::Binary {
            operator: BinaryOperator::UnsignedAddCarry,
            ..
        } => FlagSet::CONTEXT.union(FlagSet::CARRY),
        Conditional::StoreTest(_) => FlagSet::CONTEXT.union(FlagSet::TEST),
        _ => FlagSet::CONTEXT,
    }
}

fn unconditional_source_flags(action: &Unconditional<Operand, SetNo>) -> FlagSet
    ensures { flags_in result ≡ unconditional_source_flags action.now }
{
    match *action {
        Unconditional::InvertContext(_)
        | Unconditional::AndContext(_)
        | Unconditional::OrContext(_)
        | Unconditional::StoreContext(_) => FlagSet::CONTEXT,
        Unconditional::AndContextWithTest(_) => FlagSet::CONTEXT.union(FlagSet::TEST),
        Unconditional::MoveAlways { .. }
        | Unconditional::SetContext(_)
        | Unconditional::ClearContext(_)
        | Unconditional::LoadContext(_) => FlagSet::empty(),
    }
}
