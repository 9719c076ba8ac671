//! Reads a line as an instruction. Each reader of operands takes a line and the place behind its first word.

ghost use Rattle.std.specs.Prelude.{◌≡◌, ◌+◌, ◌≤◌, length, IfOk, IfErr, Ok};
ghost use Rattle.paris_text.specs.declared.mnemonics.Mnemonic.TheVariants.{Binary, Unary, MoveConstant, Resize, Compare, MyCoordinate, MyAddress, MoveAlways, Flag, News as OfNews, Scan, CopyScan, Spread, CopySpread, Reduce, Get, Send, CombiningSend};
ghost use Rattle.paris_text.specs.Words.{words};
ghost use Rattle.paris_text.specs.Spelling.{Instruction, IsInBounds, spelling};
ghost use Rattle.paris_text.specs.Columns.{IsInstructionLine, IsColumn};
ghost use Rattle.paris_text.specs.Reading.{place, Gives, operands_at, instr_at, flag_instr};

use crate::mnemonics::{FlagAction, Mnemonic, NewsMove};
use crate::reader::{
    Syntax, line_end, next_direction, next_inclusion, next_mnemonic, next_name, next_number,
    next_option, next_value,
};
use paris_model::{
    Action, BinaryOperator, Combiner, Comparison, Conditional, Instr, Line, Mail, News, Sign,
    UnaryOperator, Unconditional,
};
use paris_names::Name;

#[tactic(auto, unfolding(crate::specs::Reading::operands_at))]
fn binary_operands(operator: BinaryOperator, line: &[u8], at: usize) -> Result<Instr, Syntax>
    requires { at ≤ length line.now + 1 }
    ensures { Gives (λ x. x) result (operands_at (Binary operator) (place line.now at)) }
{
    let (to, at) = next_name(line, at)?;
    let (left, at) = next_name(line, at)?;
    let (right, at) = next_name(line, at)?;
    let (length, at) = next_number(line, at)?;
    line_end(line, at)?;
    Ok(Action::OnSelected(Conditional::Binary {
        operator,
        to,
        left,
        right,
        length,
    }))
}

#[tactic(auto, unfolding(crate::specs::Reading::operands_at))]
fn unary_operands(operator: UnaryOperator, line: &[u8], at: usize) -> Result<Instr, Syntax>
    requires { at ≤ length line.now + 1 }
    ensures { Gives (λ x. x) result (operands_at (Unary operator) (place line.now at)) }
{
    let (to, at) = next_name(line, at)?;
    let (from, at) = next_name(line, at)?;
    let (length, at) = next_number(line, at)?;
    line_end(line, at)?;
    Ok(Action::OnSelected(Conditional::Unary {
        operator,
        to,
        from,
        length,
    }))
}

#[tactic(auto, unfolding(crate::specs::Reading::operands_at))]
fn constant_operands(line: &[u8], at: usize) -> Result<Instr, Syntax>
    requires { at ≤ length line.now + 1 }
    ensures { Gives (λ x. x) result (operands_at MoveConstant (place line.now at)) }
{
    let (to, at) = next_name(line, at)?;
    let (value, at) = next_value(line, at)?;
    let (length, at) = next_number(line, at)?;
    line_end(line, at)?;
    Ok(Action::OnSelected(Conditional::MoveConstant { to, value, length }))
}

#[tactic(auto, unfolding(crate::specs::Reading::operands_at))]
fn resize_operands(sign: Sign, line: &[u8], at: usize) -> Result<Instr, Syntax>
    requires { at ≤ length line.now + 1 }
    ensures { Gives (λ x. x) result (operands_at (Resize sign) (place line.now at)) }
{
    let (to, at) = next_name(line, at)?;
    let (from, at) = next_name(line, at)?;
    let (length, at) = next_number(line, at)?;
    let (from_length, at) = next_number(line, at)?;
    line_end(line, at)?;
    Ok(Action::OnSelected(Conditional::Resize {
        sign,
        to,
        from,
        length,
        from_length,
    }))
}

#[tactic(auto, unfolding(crate::specs::Reading::operands_at))]
fn comparison_operands(comparison: Comparison, line: &[u8], at: usize) -> Result<Instr, Syntax>
    requires { at ≤ length line.now + 1 }
    ensures { Gives (λ x. x) result (operands_at (Compare comparison) (place line.now at)) }
{
    let (left, at) = next_name(line, at)?;
    let (right, at) = next_name(line, at)?;
    let (length, at) = next_number(line, at)?;
    line_end(line, at)?;
    Ok(Action::OnSelected(Conditional::Compare {
        comparison,
        left,
        right,
        length,
    }))
}

#[tactic(auto, unfolding(crate::specs::Reading::operands_at))]
fn coordinate_operands(line: &[u8], at: usize) -> Result<Instr, Syntax>
    requires { at ≤ length line.now + 1 }
    ensures { Gives (λ x. x) result (operands_at MyCoordinate (place line.now at)) }
{
    let (to, at) = next_name(line, at)?;
    let (axis, at) = next_number(line, at)?;
    let (length, at) = next_number(line, at)?;
    line_end(line, at)?;
    Ok(Action::OnSelected(Conditional::MyCoordinate { to, axis, length }))
}

#[tactic(auto, unfolding(crate::specs::Reading::operands_at))]
fn address_operands(line: &[u8], at: usize) -> Result<Instr, Syntax>
    requires { at ≤ length line.now + 1 }
    ensures { Gives (λ x. x) result (operands_at MyAddress (place line.now at)) }
{
    let (to, at) = next_name(line, at)?;
    let (length, at) = next_number(line, at)?;
    line_end(line, at)?;
    Ok(Action::OnSelected(Conditional::MyAddress { to, length }))
}

#[tactic(auto, unfolding(crate::specs::Reading::operands_at))]
fn always_operands(line: &[u8], at: usize) -> Result<Instr, Syntax>
    requires { at ≤ length line.now + 1 }
    ensures { Gives (λ x. x) result (operands_at MoveAlways (place line.now at)) }
{
    let (to, at) = next_name(line, at)?;
    let (from, at) = next_name(line, at)?;
    let (length, at) = next_number(line, at)?;
    line_end(line, at)?;
    Ok(Action::OnAll(Unconditional::MoveAlways { to, from, length }))
}

/// The instruction on a flag, with the set or the field that it names.
fn flag_instr(action: FlagAction, name: Name) -> Instr
    ensures { result ≡ flag_instr action name }
{
    match action {
        FlagAction::SetTest => Action::OnSelected(Conditional::SetTest(name)),
        FlagAction::ClearTest => Action::OnSelected(Conditional::ClearTest(name)),
        FlagAction::LoadTest => Action::OnSelected(Conditional::LoadTest(name)),
        FlagAction::StoreTest => Action::OnSelected(Conditional::StoreTest(name)),
        FlagAction::SetContext => Action::OnAll(Unconditional::SetContext(name)),
        FlagAction::ClearContext => Action::OnAll(Unconditional::ClearContext(name)),
        FlagAction::InvertContext => Action::OnAll(Unconditional::InvertContext(name)),
        FlagAction::LoadContext => Action::OnAll(Unconditional::LoadContext(name)),
        FlagAction::AndContext => Action::OnAll(Unconditional::AndContext(name)),
        FlagAction::OrContext => Action::OnAll(Unconditional::OrContext(name)),
        FlagAction::AndContextWithTest => Action::OnAll(Unconditional::AndContextWithTest(name)),
        FlagAction::StoreContext => Action::OnAll(Unconditional::StoreContext(name)),
    }
}

#[tactic(auto, unfolding(crate::specs::Reading::operands_at))]
fn flag_operands(action: FlagAction, line: &[u8], at: usize) -> Result<Instr, Syntax>
    requires { at ≤ length line.now + 1 }
    ensures { Gives (λ x. x) result (operands_at (Flag action) (place line.now at)) }
{
    let (name, at) = next_name(line, at)?;
    line_end(line, at)?;
    Ok(flag_instr(action, name))
}

#[tactic(auto, unfolding(crate::specs::Reading::operands_at))]
fn news_operands(movement: NewsMove, line: &[u8], at: usize) -> Result<Instr, Syntax>
    requires { at ≤ length line.now + 1 }
    ensures { Gives (λ x. x) result (operands_at (OfNews movement) (place line.now at)) }
{
    let (to, at) = next_name(line, at)?;
    let (from, at) = next_name(line, at)?;
    let (axis, at) = next_number(line, at)?;
    let (direction, at) = next_direction(line, at)?;
    let (length, at) = next_number(line, at)?;
    line_end(line, at)?;
    match movement {
        NewsMove::Get => Ok(Action::ByNews(News::Get {
            to,
            from,
            axis,
            direction,
            length,
        })),
        NewsMove::Send => Ok(Action::ByNews(News::Send {
            to,
            from,
            axis,
            direction,
            length,
        })),
    }
}

#[tactic(auto, unfolding(crate::specs::Reading::operands_at))]
fn scan_operands(combiner: Combiner, line: &[u8], at: usize) -> Result<Instr, Syntax>
    requires { at ≤ length line.now + 1 }
    ensures { Gives (λ x. x) result (operands_at (Scan combiner) (place line.now at)) }
{
    let (to, at) = next_name(line, at)?;
    let (from, at) = next_name(line, at)?;
    let (axis, at) = next_number(line, at)?;
    let (length, at) = next_number(line, at)?;
    let (direction, at) = next_direction(line, at)?;
    let (inclusion, at) = next_inclusion(line, at)?;
    let (segments, at) = next_option(line, at)?;
    line_end(line, at)?;
    Ok(Action::AlongLine(Line::Scan {
        combiner,
        to,
        from,
        axis,
        length,
        direction,
        inclusion,
        segments,
    }))
}

#[tactic(auto, unfolding(crate::specs::Reading::operands_at))]
fn copy_scan_operands(line: &[u8], at: usize) -> Result<Instr, Syntax>
    requires { at ≤ length line.now + 1 }
    ensures { Gives (λ x. x) result (operands_at CopyScan (place line.now at)) }
{
    let (to, at) = next_name(line, at)?;
    let (from, at) = next_name(line, at)?;
    let (axis, at) = next_number(line, at)?;
    let (length, at) = next_number(line, at)?;
    let (direction, at) = next_direction(line, at)?;
    let (segments, at) = next_option(line, at)?;
    line_end(line, at)?;
    Ok(Action::AlongLine(Line::CopyScan {
        to,
        from,
        axis,
        length,
        direction,
        segments,
    }))
}

#[tactic(auto, unfolding(crate::specs::Reading::operands_at))]
fn spread_operands(combiner: Combiner, line: &[u8], at: usize) -> Result<Instr, Syntax>
    requires { at ≤ length line.now + 1 }
    ensures { Gives (λ x. x) result (operands_at (Spread combiner) (place line.now at)) }
{
    let (to, at) = next_name(line, at)?;
    let (from, at) = next_name(line, at)?;
    let (axis, at) = next_number(line, at)?;
    let (length, at) = next_number(line, at)?;
    line_end(line, at)?;
    Ok(Action::AlongLine(Line::Spread {
        combiner,
        to,
        from,
        axis,
        length,
    }))
}

#[tactic(auto, unfolding(crate::specs::Reading::operands_at))]
fn copy_spread_operands(line: &[u8], at: usize) -> Result<Instr, Syntax>
    requires { at ≤ length line.now + 1 }
    ensures { Gives (λ x. x) result (operands_at CopySpread (place line.now at)) }
{
    let (to, at) = next_name(line, at)?;
    let (from, at) = next_name(line, at)?;
    let (axis, at) = next_number(line, at)?;
    let (length, at) = next_number(line, at)?;
    let (coordinate, at) = next_number(line, at)?;
    line_end(line, at)?;
    Ok(Action::AlongLine(Line::CopySpread {
        to,
        from,
        axis,
        length,
        coordinate,
    }))
}

#[tactic(auto, unfolding(crate::specs::Reading::operands_at))]
fn reduce_operands(combiner: Combiner, line: &[u8], at: usize) -> Result<Instr, Syntax>
    requires { at ≤ length line.now + 1 }
    ensures { Gives (λ x. x) result (operands_at (Reduce combiner) (place line.now at)) }
{
    let (to, at) = next_name(line, at)?;
    let (from, at) = next_name(line, at)?;
    let (axis, at) = next_number(line, at)?;
    let (length, at) = next_number(line, at)?;
    let (coordinate, at) = next_number(line, at)?;
    line_end(line, at)?;
    Ok(Action::AlongLine(Line::Reduce {
        combiner,
        to,
        from,
        axis,
        length,
        coordinate,
    }))
}

#[tactic(auto, unfolding(crate::specs::Reading::operands_at))]
fn get_operands(line: &[u8], at: usize) -> Result<Instr, Syntax>
    requires { at ≤ length line.now + 1 }
    ensures { Gives (λ x. x) result (operands_at Get (place line.now at)) }
{
    let (to, at) = next_name(line, at)?;
    let (addresses, at) = next_name(line, at)?;
    let (from, at) = next_name(line, at)?;
    let (length, at) = next_number(line, at)?;
    line_end(line, at)?;
    Ok(Action::ByMail(Mail::Get {
        to,
        addresses,
        from,
        length,
    }))
}

#[tactic(auto, unfolding(crate::specs::Reading::operands_at))]
fn send_operands(line: &[u8], at: usize) -> Result<Instr, Syntax>
    requires { at ≤ length line.now + 1 }
    ensures { Gives (λ x. x) result (operands_at Send (place line.now at)) }
{
    let (to, at) = next_name(line, at)?;
    let (addresses, at) = next_name(line, at)?;
    let (from, at) = next_name(line, at)?;
    let (length, at) = next_number(line, at)?;
    let (notify, at) = next_option(line, at)?;
    line_end(line, at)?;
    Ok(Action::ByMail(Mail::Send {
        to,
        addresses,
        from,
        length,
        notify,
    }))
}

#[tactic(auto, unfolding(crate::specs::Reading::operands_at))]
fn combining_send_operands(combiner: Combiner, line: &[u8], at: usize) -> Result<Instr, Syntax>
    requires { at ≤ length line.now + 1 }
    ensures { Gives (λ x. x) result (operands_at (CombiningSend combiner) (place line.now at)) }
{
    let (to, at) = next_name(line, at)?;
    let (addresses, at) = next_name(line, at)?;
    let (from, at) = next_name(line, at)?;
    let (length, at) = next_number(line, at)?;
    let (notify, at) = next_option(line, at)?;
    line_end(line, at)?;
    Ok(Action::ByMail(Mail::CombiningSend {
        combiner,
        to,
        addresses,
        from,
        length,
        notify,
    }))
}

/// The instruction of a first word and of the words from a place on.
fn operands(mnemonic: Mnemonic, line: &[u8], at: usize) -> Result<Instr, Syntax>
    requires { at ≤ length line.now + 1 }
    ensures { Gives (λ x. x) result (operands_at mnemonic (place line.now at)) }
{
    match mnemonic {
        Mnemonic::Binary(operator) => binary_operands(operator, line, at),
        Mnemonic::Unary(operator) => unary_operands(operator, line, at),
        Mnemonic::MoveConstant => constant_operands(line, at),
        Mnemonic::Resize(sign) => resize_operands(sign, line, at),
        Mnemonic::Compare(comparison) => comparison_operands(comparison, line, at),
        Mnemonic::MyCoordinate => coordinate_operands(line, at),
        Mnemonic::MyAddress => address_operands(line, at),
        Mnemonic::MoveAlways => always_operands(line, at),
        Mnemonic::Flag(action) => flag_operands(action, line, at),
        Mnemonic::News(movement) => news_operands(movement, line, at),
        Mnemonic::Scan(combiner) => scan_operands(combiner, line, at),
        Mnemonic::CopyScan => copy_scan_operands(line, at),
        Mnemonic::Spread(combiner) => spread_operands(combiner, line, at),
        Mnemonic::CopySpread => copy_spread_operands(line, at),
        Mnemonic::Reduce(combiner) => reduce_operands(combiner, line, at),
        Mnemonic::Get => get_operands(line, at),
        Mnemonic::Send => send_operands(line, at),
        Mnemonic::CombiningSend(combiner) => combining_send_operands(combiner, line, at),
    }
}

/// The instruction that the words from a place on spell, up to the end of the line.
#[tactic(auto, unfolding(crate::specs::Reading::instr_at))]
pub fn next_instr(line: &[u8], at: usize) -> Result<Instr, Syntax>
    requires { at ≤ length line.now + 1 }
    ensures { Gives (λ x. x) result (instr_at (place line.now at)) }
{
    let (mnemonic, at) = next_mnemonic(line, at)?;
    operands(mnemonic, line, at)
}

/// The instruction that a line spells, or the column at which the line leaves the grammar of instructions.
pub fn read_instr(line: &[u8]) -> Result<Instr, Syntax>
    ensures spelled { IfOk result (λ i. line.now ≡ spelling i) }
    ensures bounds { IfOk result (λ i. IsInBounds i) }
    ensures read { (i : Instruction) → IsInBounds i → line.now ≡ spelling i → result ≡ Ok i }
    ensures column { IfErr result (λ e. IsColumn IsInstructionLine (words line.now) e.0) }
{
    next_instr(line, 0)
}
