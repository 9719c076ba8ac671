//! Names to operands and set numbers.

ghost use Rattle.std.specs.Prelude.{◌≡◌, ◌<◌, length, IfOk, IfSome};
ghost use Rattle.paris_instr.specs.Resolve.{operand_named, set_no_named, operand_if_named, conditional_named, unconditional_named, news_named, line_named, mail_named, action_named, IsOperandOf, IsFoundOn};

use paris_board::Board;
use paris_geometry::Direction;
use paris_model::{
    Action, BinaryOperator, Combiner, Comparison, Conditional, Inclusion, Instr, Line, Mail, News,
    Operand, Sign, UnaryOperator, Unconditional,
};
use paris_names::{Fault, Key, KeyName, Name, SetNo};

/// The operand of a field's name.
fn operand(board: &Board, name: Name) -> Result<Operand, Fault>
    ensures value { result ≡ operand_named board.now name }
    ensures known { IfOk result (IsOperandOf board.now) }
{
    match board.key_of(KeyName { name, flag: None })? {
        Key::Field(field) => Ok(Operand {
            field,
            width: board.width(Key::Field(field)),
        }),
        Key::Flag(_, _) => unreachable!(),
    }
}

/// The operand of a field's name that may be left out.
fn operand_if_given(board: &Board, name: Option<Name>) -> Result<Option<Operand>, Fault>
    ensures value { result ≡ operand_if_named board.now name }
    ensures known { IfOk result (λ o. IfSome o (IsOperandOf board.now)) }
{
    match name {
        None => Ok(None),
        Some(name) => Ok(Some(operand(board, name)?)),
    }
}

/// The number of a set's name.
fn set_no(board: &Board, name: Name) -> Result<SetNo, Fault>
    ensures value { result ≡ set_no_named board.now name }
    ensures known { IfOk result (λ s. s < length board.now.sets) }
{
    board.set_of(name)
}

/// The instruction with operands and set numbers for its names.
pub(crate) fn action_named(board: &Board, instr: &Instr) -> Result<Action<Operand, SetNo>, Fault>
    ensures value { result ≡ action_named board.now instr.now }
    ensures known { IfOk result (IsFoundOn board.now) }
{
    match instr {
        Action::OnSelected(instr) => Ok(Action::OnSelected(conditional_named(board, instr)?)),
        Action::OnAll(instr) => Ok(Action::OnAll(unconditional_named(board, instr)?)),
        Action::ByNews(instr) => Ok(Action::ByNews(news_named(board, instr)?)),
        Action::AlongLine(instr) => Ok(Action::AlongLine(line_named(board, instr)?)),
        Action::ByMail(instr) => Ok(Action::ByMail(mail_named(board, instr)?)),
    }
}

fn conditional_named(
    board: &Board,
    instr: &Conditional<Name, Name>,
) -> Result<Conditional<Operand, SetNo>, Fault>
    ensures value { result ≡ conditional_named board.now instr.now }
    ensures known { IfOk result (λ i. IsFoundOn board.now (Action.OnSelected i)) }
{
    match *instr {
        Conditional::Binary {
            operator,
            to,
            left,
            right,
            length,
        } => binary(board, operator, to, left, right, length),
        Conditional::Unary {
            operator,
            to,
            from,
            length,
        } => unary(board, operator, to, from, length),
        Conditional::MoveConstant { to, value, length } => constant(board, to, value, length),
        Conditional::Resize {
            sign,
            to,
            from,
            length,
            from_length,
        } => resize(board, sign, to, from, length, from_length),
        Conditional::Compare {
            comparison,
            left,
            right,
            length,
        } => compare(board, comparison, left, right, length),
        Conditional::MyCoordinate { to, axis, length } => coordinate(board, to, axis, length),
        Conditional::MyAddress { to, length } => address(board, to, length),
        Conditional::SetTest(set) => Ok(Conditional::SetTest(set_no(board, set)?)),
        Conditional::ClearTest(set) => Ok(Conditional::ClearTest(set_no(board, set)?)),
        Conditional::LoadTest(field) => Ok(Conditional::LoadTest(operand(board, field)?)),
        Conditional::StoreTest(field) => Ok(Conditional::StoreTest(operand(board, field)?)),
    }
}

fn binary(
    board: &Board,
    operator: BinaryOperator,
    to: Name,
    left: Name,
    right: Name,
    length: u64,
) -> Result<Conditional<Operand, SetNo>, Fault>
    ensures value { result ≡ conditional_named board.now (Conditional.Binary operator to left right length) }
    ensures known { IfOk result (λ i. IsFoundOn board.now (Action.OnSelected i)) }
{
    Ok(Conditional::Binary {
        operator,
        to: operand(board, to)?,
        left: operand(board, left)?,
        right: operand(board, right)?,
        length,
    })
}

fn unary(
    board: &Board,
    operator: UnaryOperator,
    to: Name,
    from: Name,
    length: u64,
) -> Result<Conditional<Operand, SetNo>, Fault>
    ensures value { result ≡ conditional_named board.now (Conditional.Unary operator to from length) }
    ensures known { IfOk result (λ i. IsFoundOn board.now (Action.OnSelected i)) }
{
    Ok(Conditional::Unary {
        operator,
        to: operand(board, to)?,
        from: operand(board, from)?,
        length,
    })
}

fn constant(
    board: &Board,
    to: Name,
    value: u128,
    length: u64,
) -> Result<Conditional<Operand, SetNo>, Fault>
    ensures value { result ≡ conditional_named board.now (Conditional.MoveConstant to value length) }
    ensures known { IfOk result (λ i. IsFoundOn board.now (Action.OnSelected i)) }
{
    Ok(Conditional::MoveConstant {
        to: operand(board, to)?,
        value,
        length,
    })
}

fn resize(
    board: &Board,
    sign: Sign,
    to: Name,
    from: Name,
    length: u64,
    from_length: u64,
) -> Result<Conditional<Operand, SetNo>, Fault>
    ensures value { result ≡ conditional_named board.now (Conditional.Resize sign to from length from_length) }
    ensures known { IfOk result (λ i. IsFoundOn board.now (Action.OnSelected i)) }
{
    Ok(Conditional::Resize {
        sign,
        to: operand(board, to)?,
        from: operand(board, from)?,
        length,
        from_length,
    })
}

fn compare(
    board: &Board,
    comparison: Comparison,
    left: Name,
    right: Name,
    length: u64,
) -> Result<Conditional<Operand, SetNo>, Fault>
    ensures value { result ≡ conditional_named board.now (Conditional.Compare comparison left right length) }
    ensures known { IfOk result (λ i. IsFoundOn board.now (Action.OnSelected i)) }
{
    Ok(Conditional::Compare {
        comparison,
        left: operand(board, left)?,
        right: operand(board, right)?,
        length,
    })
}

fn coordinate(
    board: &Board,
    to: Name,
    axis: u64,
    length: u64,
) -> Result<Conditional<Operand, SetNo>, Fault>
    ensures value { result ≡ conditional_named board.now (Conditional.MyCoordinate to axis length) }
    ensures known { IfOk result (λ i. IsFoundOn board.now (Action.OnSelected i)) }
{
    Ok(Conditional::MyCoordinate {
        to: operand(board, to)?,
        axis,
        length,
    })
}

fn address(board: &Board, to: Name, length: u64) -> Result<Conditional<Operand, SetNo>, Fault>
    ensures value { result ≡ conditional_named board.now (Conditional.MyAddress to length) }
    ensures known { IfOk result (λ i. IsFoundOn board.now (Action.OnSelected i)) }
{
    Ok(Conditional::MyAddress {
        to: operand(board, to)?,
        length,
    })
}

fn unconditional_named(
    board: &Board,
    instr: &Unconditional<Name, Name>,
) -> Result<Unconditional<Operand, SetNo>, Fault>
    ensures value { result ≡ unconditional_named board.now instr.now }
    ensures known { IfOk result (λ i. IsFoundOn board.now (Action.OnAll i)) }
{
    match *instr {
        Unconditional::MoveAlways { to, from, length } => move_always(board, to, from, length),
        Unconditional::SetContext(set) => Ok(Unconditional::SetContext(set_no(board, set)?)),
        Unconditional::ClearContext(set) => Ok(Unconditional::ClearContext(set_no(board, set)?)),
        Unconditional::InvertContext(set) => Ok(Unconditional::InvertContext(set_no(board, set)?)),
        Unconditional::LoadContext(field) => Ok(Unconditional::LoadContext(operand(board, field)?)),
        Unconditional::AndContext(field) => Ok(Unconditional::AndContext(operand(board, field)?)),
        Unconditional::OrContext(field) => Ok(Unconditional::OrContext(operand(board, field)?)),
        Unconditional::AndContextWithTest(set) => Ok(Unconditional::AndContextWithTest(set_no(
            board, set,
        )?)),
        Unconditional::StoreContext(field) => Ok(Unconditional::StoreContext(operand(
            board, field,
        )?)),
    }
}

fn move_always(
    board: &Board,
    to: Name,
    from: Name,
    length: u64,
) -> Result<Unconditional<Operand, SetNo>, Fault>
    ensures value { result ≡ unconditional_named board.now (Unconditional.MoveAlways to from length) }
    ensures known { IfOk result (λ i. IsFoundOn board.now (Action.OnAll i)) }
{
    Ok(Unconditional::MoveAlways {
        to: operand(board, to)?,
        from: operand(board, from)?,
        length,
    })
}

fn news_named(board: &Board, instr: &News<Name>) -> Result<News<Operand>, Fault>
    ensures value { result ≡ news_named board.now instr.now }
    ensures known { IfOk result (λ i. IsFoundOn board.now (Action.ByNews i)) }
{
    match *instr {
        News::Get {
            to,
            from,
            axis,
            direction,
            length,
        } => get_from_news(board, to, from, axis, direction, length),
        News::Send {
            to,
            from,
            axis,
            direction,
            length,
        } => send_to_news(board, to, from, axis, direction, length),
    }
}

fn get_from_news(
    board: &Board,
    to: Name,
    from: Name,
    axis: u64,
    direction: Direction,
    length: u64,
) -> Result<News<Operand>, Fault>
    ensures value { result ≡ news_named board.now (News.Get to from axis direction length) }
    ensures known { IfOk result (λ i. IsFoundOn board.now (Action.ByNews i)) }
{
    Ok(News::Get {
        to: operand(board, to)?,
        from: operand(board, from)?,
        axis,
        direction,
        length,
    })
}

fn send_to_news(
    board: &Board,
    to: Name,
    from: Name,
    axis: u64,
    direction: Direction,
    length: u64,
) -> Result<News<Operand>, Fault>
    ensures value { result ≡ news_named board.now (News.Send to from axis direction length) }
    ensures known { IfOk result (λ i. IsFoundOn board.now (Action.ByNews i)) }
{
    Ok(News::Send {
        to: operand(board, to)?,
        from: operand(board, from)?,
        axis,
        direction,
        length,
    })
}

fn line_named(board: &Board, instr: &Line<Name>) -> Result<Line<Operand>, Fault>
    ensures value { result ≡ line_named board.now instr.now }
    ensures known { IfOk result (λ i. IsFoundOn board.now (Action.AlongLine i)) }
{
    match *instr {
        Line::Scan {
            combiner,
            to,
            from,
            axis,
            length,
            direction,
            inclusion,
            segments,
        } => scan(
            board, combiner, to, from, axis, length, direction, inclusion, segments,
        ),
        Line::CopyScan {
            to,
            from,
            axis,
            length,
            direction,
            segments,
        } => copy_scan(board, to, from, axis, length, direction, segments),
        Line::Spread {
            combiner,
            to,
            from,
            axis,
            length,
        } => spread(board, combiner, to, from, axis, length),
        Line::CopySpread {
            to,
            from,
            axis,
            length,
            coordinate,
        } => copy_spread(board, to, from, axis, length, coordinate),
        Line::Reduce {
            combiner,
            to,
            from,
            axis,
            length,
            coordinate,
        } => reduce(board, combiner, to, from, axis, length, coordinate),
    }
}

fn scan(
    board: &Board,
    combiner: Combiner,
    to: Name,
    from: Name,
    axis: u64,
    length: u64,
    direction: Direction,
    inclusion: Inclusion,
    segments: Option<Name>,
) -> Result<Line<Operand>, Fault>
    ensures value { result ≡ line_named board.now (Line.Scan combiner to from axis length direction inclusion segments) }
    ensures known { IfOk result (λ i. IsFoundOn board.now (Action.AlongLine i)) }
{
    Ok(Line::Scan {
        combiner,
        to: operand(board, to)?,
        from: operand(board, from)?,
        axis,
        length,
        direction,
        inclusion,
        segments: operand_if_given(board, segments)?,
    })
}

fn copy_scan(
    board: &Board,
    to: Name,
    from: Name,
    axis: u64,
    length: u64,
    direction: Direction,
    segments: Option<Name>,
) -> Result<Line<Operand>, Fault>
    ensures value { result ≡ line_named board.now (Line.CopyScan to from axis length direction segments) }
    ensures known { IfOk result (λ i. IsFoundOn board.now (Action.AlongLine i)) }
{
    Ok(Line::CopyScan {
        to: operand(board, to)?,
        from: operand(board, from)?,
        axis,
        length,
        direction,
        segments: operand_if_given(board, segments)?,
    })
}

fn spread(
    board: &Board,
    combiner: Combiner,
    to: Name,
    from: Name,
    axis: u64,
    length: u64,
) -> Result<Line<Operand>, Fault>
    ensures value { result ≡ line_named board.now (Line.Spread combiner to from axis length) }
    ensures known { IfOk result (λ i. IsFoundOn board.now (Action.AlongLine i)) }
{
    Ok(Line::Spread {
        combiner,
        to: operand(board, to)?,
        from: operand(board, from)?,
        axis,
        length,
    })
}

fn copy_spread(
    board: &Board,
    to: Name,
    from: Name,
    axis: u64,
    length: u64,
    coordinate: u64,
) -> Result<Line<Operand>, Fault>
    ensures value { result ≡ line_named board.now (Line.CopySpread to from axis length coordinate) }
    ensures known { IfOk result (λ i. IsFoundOn board.now (Action.AlongLine i)) }
{
    Ok(Line::CopySpread {
        to: operand(board, to)?,
        from: operand(board, from)?,
        axis,
        length,
        coordinate,
    })
}

fn reduce(
    board: &Board,
    combiner: Combiner,
    to: Name,
    from: Name,
    axis: u64,
    length: u64,
    coordinate: u64,
) -> Result<Line<Operand>, Fault>
    ensures value { result ≡ line_named board.now (Line.Reduce combiner to from axis length coordinate) }
    ensures known { IfOk result (λ i. IsFoundOn board.now (Action.AlongLine i)) }
{
    Ok(Line::Reduce {
        combiner,
        to: operand(board, to)?,
        from: operand(board, from)?,
        axis,
        length,
        coordinate,
    })
}

fn mail_named(board: &Board, instr: &Mail<Name>) -> Result<Mail<Operand>, Fault>
    ensures value { result ≡ mail_named board.now instr.now }
    ensures known { IfOk result (λ i. IsFoundOn board.now (Action.ByMail i)) }
{
    match *instr {
        Mail::Get {
            to,
            addresses,
            from,
            length,
        } => get(board, to, addresses, from, length),
        Mail::Send {
            to,
            addresses,
            from,
            length,
            notify,
        } => send(board, to, addresses, from, length, notify),
        Mail::CombiningSend {
            combiner,
            to,
            addresses,
            from,
            length,
            notify,
        } => combining_send(board, combiner, to, addresses, from, length, notify),
    }
}

fn get(
    board: &Board,
    to: Name,
    addresses: Name,
    from: Name,
    length: u64,
) -> Result<Mail<Operand>, Fault>
    ensures value { result ≡ mail_named board.now (Mail.Get to addresses from length) }
    ensures known { IfOk result (λ i. IsFoundOn board.now (Action.ByMail i)) }
{
    Ok(Mail::Get {
        to: operand(board, to)?,
        addresses: operand(board, addresses)?,
        from: operand(board, from)?,
        length,
    })
}

fn send(
    board: &Board,
    to: Name,
    addresses: Name,
    from: Name,
    length: u64,
    notify: Option<Name>,
) -> Result<Mail<Operand>, Fault>
    ensures value { result ≡ mail_named board.now (Mail.Send to addresses from length notify) }
    ensures known { IfOk result (λ i. IsFoundOn board.now (Action.ByMail i)) }
{
    Ok(Mail::Send {
        to: operand(board, to)?,
        addresses: operand(board, addresses)?,
        from: operand(board, from)?,
        length,
        notify: operand_if_given(board, notify)?,
    })
}

fn combining_send(
    board: &Board,
    combiner: Combiner,
    to: Name,
    addresses: Name,
    from: Name,
    length: u64,
    notify: Option<Name>,
) -> Result<Mail<Operand>, Fault>
    ensures value { result ≡ mail_named board.now (Mail.CombiningSend combiner to addresses from length notify) }
    ensures known { IfOk result (λ i. IsFoundOn board.now (Action.ByMail i)) }
{
    Ok(Mail::CombiningSend {
        combiner,
        to: operand(board, to)?,
        addresses: operand(board, addresses)?,
        from: operand(board, from)?,
        length,
        notify: operand_if_given(board, notify)?,
    })
}
