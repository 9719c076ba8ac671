//! Writes an instruction as a line of text.

ghost use Rattle.std.specs.Prelude.{◌≡◌, ◌^◌, ◌<◌, ◌++◌, ◌∷◌, [], map, true, IfOk, OnOk};
ghost use Rattle.std.specs.Fmt.{decimal};
ghost use Rattle.std.specs.List.{AllByRecursion};
ghost use Rattle.paris_names.specs.Names.{is_name};
ghost use Rattle.paris_text.specs.Kinds.{direction_text, inclusion_text, option_text, IsOptionalName};
ghost use Rattle.paris_text.specs.Spelling.{instruction_parts, conditional_parts, unconditional_parts, news_parts, line_parts, mail_parts, operand_words, OperandsFit, spelling, IsInBounds};
ghost use Rattle.paris_text.specs.Writing.{tail_text};

use crate::mnemonics::{FlagAction, Mnemonic, NewsMove};
use paris_geometry::Direction;
use paris_model::{Action, Conditional, Inclusion, Instr, Line, Mail, News, Unconditional};
use paris_names::Name;
use std::alloc::{AllocError, Global};

fn conditional_mnemonic(action: &Conditional<Name, Name>) -> Mnemonic
    ensures { result ≡ (conditional_parts action.now).0 }
{
    match *action {
        Conditional::Binary { operator, .. } => Mnemonic::Binary(operator),
        Conditional::Unary { operator, .. } => Mnemonic::Unary(operator),
        Conditional::MoveConstant { .. } => Mnemonic::MoveConstant,
        Conditional::Resize { sign, .. } => Mnemonic::Resize(sign),
        Conditional::Compare { comparison, .. } => Mnemonic::Compare(comparison),
        Conditional::MyCoordinate { .. } => Mnemonic::MyCoordinate,
        Conditional::MyAddress { .. } => Mnemonic::MyAddress,
        Conditional::SetTest(_) => Mnemonic::Flag(FlagAction::SetTest),
        Conditional::ClearTest(_) => Mnemonic::Flag(FlagAction::ClearTest),
        Conditional::LoadTest(_) => Mnemonic::Flag(FlagAction::LoadTest),
        Conditional::StoreTest(_) => Mnemonic::Flag(FlagAction::StoreTest),
    }
}

fn unconditional_mnemonic(action: &Unconditional<Name, Name>) -> Mnemonic
    ensures { result ≡ (unconditional_parts action.now).0 }
{
    match *action {
        Unconditional::MoveAlways { .. } => Mnemonic::MoveAlways,
        Unconditional::SetContext(_) => Mnemonic::Flag(FlagAction::SetContext),
        Unconditional::ClearContext(_) => Mnemonic::Flag(FlagAction::ClearContext),
        Unconditional::InvertContext(_) => Mnemonic::Flag(FlagAction::InvertContext),
        Unconditional::LoadContext(_) => Mnemonic::Flag(FlagAction::LoadContext),
        Unconditional::AndContext(_) => Mnemonic::Flag(FlagAction::AndContext),
        Unconditional::OrContext(_) => Mnemonic::Flag(FlagAction::OrContext),
        Unconditional::AndContextWithTest(_) => Mnemonic::Flag(FlagAction::AndContextWithTest),
        Unconditional::StoreContext(_) => Mnemonic::Flag(FlagAction::StoreContext),
    }
}

fn line_mnemonic(action: &Line<Name>) -> Mnemonic
    ensures { result ≡ (line_parts action.now).0 }
{
    match *action {
        Line::Scan { combiner, .. } => Mnemonic::Scan(combiner),
        Line::CopyScan { .. } => Mnemonic::CopyScan,
        Line::Spread { combiner, .. } => Mnemonic::Spread(combiner),
        Line::CopySpread { .. } => Mnemonic::CopySpread,
        Line::Reduce { combiner, .. } => Mnemonic::Reduce(combiner),
    }
}

/// The first word of an instruction.
fn mnemonic_of(instr: &Instr) -> Mnemonic
    ensures { result ≡ (instruction_parts instr.now).0 }
{
    match instr {
        Action::OnSelected(action) => conditional_mnemonic(action),
        Action::OnAll(action) => unconditional_mnemonic(action),
        Action::ByNews(News::Get { .. }) => Mnemonic::News(NewsMove::Get),
        Action::ByNews(News::Send { .. }) => Mnemonic::News(NewsMove::Send),
        Action::AlongLine(action) => line_mnemonic(action),
        Action::ByMail(Mail::Get { .. }) => Mnemonic::Get,
        Action::ByMail(Mail::Send { .. }) => Mnemonic::Send,
        Action::ByMail(Mail::CombiningSend { combiner, .. }) => Mnemonic::CombiningSend(*combiner),
    }
}

fn direction_text(direction: Direction) -> &'static [u8]
    ensures { result.now ≡ direction_text direction }
{
    match direction {
        Direction::Upward => b"upward",
        Direction::Downward => b"downward",
    }
}

fn inclusion_text(inclusion: Inclusion) -> &'static [u8]
    ensures { result.now ≡ inclusion_text inclusion }
{
    match inclusion {
        Inclusion::Inclusive => b"inclusive",
        Inclusion::Exclusive => b"exclusive",
    }
}

/// Adds a space and a word.
fn push_word(line: &mut Vec<u8>, word: &[u8]) -> Result<(), AllocError>
    ensures { OnOk result (line.new.items ≡ line.old.items ++ tail_text (word.now ∷ [])) }
{
    line.push(b' ')?;
    line.extend_from_slice(word)
}

/// Adds names, each behind a space.
fn push_names(line: &mut Vec<u8>, names: &[Name]) -> Result<(), AllocError>
    ensures text { OnOk result (line.new.items ≡ line.old.items ++ tail_text names.now) }
    ensures fits { OnOk result (AllByRecursion (λ n. is_name n ≡ true) names.now) }
{
    for name in names {
        push_word(line, name.as_bytes())?;
    }
    Ok(())
}

/// Adds a space, and a name or the word `none`.
fn push_option(line: &mut Vec<u8>, option: Option<Name>) -> Result<(), AllocError>
    ensures text { OnOk result (line.new.items ≡ line.old.items ++ tail_text (option_text option ∷ [])) }
    ensures fits { IsOptionalName option }
{
    match option {
        Some(name) => push_word(line, name.as_bytes()),
        None => push_word(line, b"none"),
    }
}

/// Adds a space and a number in decimal.
fn push_number(alloc: Global, line: &mut Vec<u8>, number: u128) -> Result<(), AllocError>
    ensures { OnOk result (line.new.items ≡ line.old.items ++ tail_text (decimal number ∷ [])) }
{
    let digits = format!(in alloc; "{number}")?;
    push_word(line, digits.as_bytes())
}

/// Adds numbers in decimal, each behind a space.
fn push_numbers(alloc: Global, line: &mut Vec<u8>, numbers: &[u64]) -> Result<(), AllocError>
    ensures text { OnOk result (line.new.items ≡ line.old.items ++ tail_text (map decimal numbers.now)) }
    ensures fits { OnOk result (AllByRecursion (λ n. n < 2 ^ 64) numbers.now) }
{
    for number in numbers {
        push_number(alloc, line, u128::from(*number))?;
    }
    Ok(())
}

/// Adds names, and numbers in decimal after them.
fn push_both(
    alloc: Global,
    line: &mut Vec<u8>,
    names: &[Name],
    numbers: &[u64],
) -> Result<(), AllocError>
    ensures text { OnOk result (line.new.items ≡ line.old.items ++ tail_text (names.now ++ map decimal numbers.now)) }
    ensures names { OnOk result (AllByRecursion (λ n. is_name n ≡ true) names.now) }
    ensures numbers { OnOk result (AllByRecursion (λ n. n < 2 ^ 64) numbers.now) }
{
    push_names(line, names)?;
    push_numbers(alloc, line, numbers)
}

fn push_constant(
    alloc: Global,
    line: &mut Vec<u8>,
    to: Name,
    value: u128,
    length: u64,
) -> Result<(), AllocError>
    ensures text { OnOk result (line.new.items ≡ line.old.items ++ tail_text (to ∷ decimal value ∷ decimal length ∷ [])) }
    ensures fits { OnOk result ((is_name to ≡ true) × (value < 2 ^ 128) × (length < 2 ^ 64)) }
{
    push_names(line, &[to])?;
    push_number(alloc, line, value)?;
    push_numbers(alloc, line, &[length])
}

fn push_conditional(
    alloc: Global,
    line: &mut Vec<u8>,
    action: Conditional<Name, Name>,
) -> Result<(), AllocError>
    ensures text { OnOk result (line.new.items ≡ line.old.items ++ tail_text (operand_words (conditional_parts action).1)) }
    ensures fits { OnOk result (OperandsFit (conditional_parts action).1) }
{
    match action {
        Conditional::Binary {
            to,
            left,
            right,
            length,
            ..
        } => push_both(alloc, line, &[to, left, right], &[length]),
        Conditional::Unary {
            to,
            from,
            length,
            ..
        } => push_both(alloc, line, &[to, from], &[length]),
        Conditional::MoveConstant { to, value, length } => push_constant(
            alloc, line, to, value, length,
        ),
        Conditional::Resize {
            to,
            from,
            length,
            from_length,
            ..
        } => push_both(alloc, line, &[to, from], &[length, from_length]),
        Conditional::Compare {
            left,
            right,
            length,
            ..
        } => push_both(alloc, line, &[left, right], &[length]),
        Conditional::MyCoordinate { to, axis, length } => push_both(
            alloc,
            line,
            &[to],
            &[axis, length],
        ),
        Conditional::MyAddress { to, length } => push_both(alloc, line, &[to], &[length]),
        Conditional::SetTest(name)
        | Conditional::ClearTest(name)
        | Conditional::LoadTest(name)
        | Conditional::StoreTest(name) => push_names(line, &[name]),
    }
}

fn push_unconditional(
    alloc: Global,
    line: &mut Vec<u8>,
    action: Unconditional<Name, Name>,
) -> Result<(), AllocError>
    ensures text { OnOk result (line.new.items ≡ line.old.items ++ tail_text (operand_words (unconditional_parts action).1)) }
    ensures fits { OnOk result (OperandsFit (unconditional_parts action).1) }
{
    match action {
        Unconditional::MoveAlways { to, from, length } => push_both(
            alloc,
            line,
            &[to, from],
            &[length],
        ),
        Unconditional::SetContext(name)
        | Unconditional::ClearContext(name)
        | Unconditional::InvertContext(name)
        | Unconditional::LoadContext(name)
        | Unconditional::AndContext(name)
        | Unconditional::OrContext(name)
        | Unconditional::AndContextWithTest(name)
        | Unconditional::StoreContext(name) => push_names(line, &[name]),
    }
}

fn push_news(alloc: Global, line: &mut Vec<u8>, action: News<Name>) -> Result<(), AllocError>
    ensures text { OnOk result (line.new.items ≡ line.old.items ++ tail_text (operand_words (news_parts action).1)) }
    ensures fits { OnOk result (OperandsFit (news_parts action).1) }
{
    match action {
        News::Get {
            to,
            from,
            axis,
            direction,
            length,
        }
        | News::Send {
            to,
            from,
            axis,
            direction,
            length,
        } => {
            push_both(alloc, line, &[to, from], &[axis])?;
            push_word(line, direction_text(direction))?;
            push_numbers(alloc, line, &[length])
        }
    }
}

fn push_scan(
    alloc: Global,
    line: &mut Vec<u8>,
    to: Name,
    from: Name,
    axis: u64,
    length: u64,
    direction: Direction,
    inclusion: Inclusion,
    segments: Option<Name>,
) -> Result<(), AllocError>
    ensures text { OnOk result (line.new.items ≡ line.old.items ++ tail_text (to ∷ from ∷ decimal axis ∷ decimal length ∷ direction_text direction ∷ inclusion_text inclusion ∷ option_text segments ∷ [])) }
    ensures names { OnOk result ((is_name to ≡ true) × (is_name from ≡ true) × IsOptionalName segments) }
    ensures numbers { OnOk result ((axis < 2 ^ 64) × (length < 2 ^ 64)) }
{
    push_both(alloc, line, &[to, from], &[axis, length])?;
    push_word(line, direction_text(direction))?;
    push_word(line, inclusion_text(inclusion))?;
    push_option(line, segments)
}

fn push_copy_scan(
    alloc: Global,
    line: &mut Vec<u8>,
    to: Name,
    from: Name,
    axis: u64,
    length: u64,
    direction: Direction,
    segments: Option<Name>,
) -> Result<(), AllocError>
    ensures text { OnOk result (line.new.items ≡ line.old.items ++ tail_text (to ∷ from ∷ decimal axis ∷ decimal length ∷ direction_text direction ∷ option_text segments ∷ [])) }
    ensures names { OnOk result ((is_name to ≡ true) × (is_name from ≡ true) × IsOptionalName segments) }
    ensures numbers { OnOk result ((axis < 2 ^ 64) × (length < 2 ^ 64)) }
{
    push_both(alloc, line, &[to, from], &[axis, length])?;
    push_word(line, direction_text(direction))?;
    push_option(line, segments)
}

fn push_line(alloc: Global, line: &mut Vec<u8>, action: Line<Name>) -> Result<(), AllocError>
    ensures text { OnOk result (line.new.items ≡ line.old.items ++ tail_text (operand_words (line_parts action).1)) }
    ensures fits { OnOk result (OperandsFit (line_parts action).1) }
{
    match action {
        Line::Scan {
            to,
            from,
            axis,
            length,
            direction,
            inclusion,
            segments,
            ..
        } => push_scan(
            alloc, line, to, from, axis, length, direction, inclusion, segments,
        ),
        Line::CopyScan {
            to,
            from,
            axis,
            length,
            direction,
            segments,
        } => push_copy_scan(alloc, line, to, from, axis, length, direction, segments),
        Line::Spread {
            to,
            from,
            axis,
            length,
            ..
        } => push_both(alloc, line, &[to, from], &[axis, length]),
        Line::CopySpread {
            to,
            from,
            axis,
            length,
            coordinate,
        }
        | Line::Reduce {
            to,
            from,
            axis,
            length,
            coordinate,
            ..
        } => push_both(alloc, line, &[to, from], &[axis, length, coordinate]),
    }
}

fn push_mail(alloc: Global, line: &mut Vec<u8>, action: Mail<Name>) -> Result<(), AllocError>
    ensures text { OnOk result (line.new.items ≡ line.old.items ++ tail_text (operand_words (mail_parts action).1)) }
    ensures fits { OnOk result (OperandsFit (mail_parts action).1) }
{
    match action {
        Mail::Get {
            to,
            addresses,
            from,
            length,
        } => push_both(alloc, line, &[to, addresses, from], &[length]),
        Mail::Send {
            to,
            addresses,
            from,
            length,
            notify,
        }
        | Mail::CombiningSend {
            to,
            addresses,
            from,
            length,
            notify,
            ..
        } => {
            push_both(alloc, line, &[to, addresses, from], &[length])?;
            push_option(line, notify)
        }
    }
}

/// Adds the words behind an instruction's first word.
fn push_operands(alloc: Global, line: &mut Vec<u8>, instr: &Instr) -> Result<(), AllocError>
    ensures text { OnOk result (line.new.items ≡ line.old.items ++ tail_text (operand_words (instruction_parts instr.now).1)) }
    ensures fits { OnOk result (IsInBounds instr.now) }
{
    match *instr {
        Action::OnSelected(action) => push_conditional(alloc, line, action),
        Action::OnAll(action) => push_unconditional(alloc, line, action),
        Action::ByNews(action) => push_news(alloc, line, action),
        Action::AlongLine(action) => push_line(alloc, line, action),
        Action::ByMail(action) => push_mail(alloc, line, action),
    }
}

/// The one spelling of an instruction. Its names are names and its numbers are below their bounds, so that it is read back.
pub fn write_instr(alloc: Global, instr: &Instr) -> Result<Vec<u8>, AllocError>
    ensures text { IfOk result (λ line. line.items ≡ spelling instr.now) }
    ensures fits { OnOk result (IsInBounds instr.now) }
{
    let mut line = Vec::new(alloc);
    line.extend_from_slice(mnemonic_of(instr).text())?;
    push_operands(alloc, &mut line, instr)?;
    Ok(line)
}
