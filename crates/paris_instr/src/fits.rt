//! Whether an action fits its set's axes and its operands' widths.

ghost use Rattle.std.specs.Prelude.{◌≡◌, ◌^◌, ◌||◌, nat_le};
ghost use Rattle.paris_geometry.specs.Geometry.{axis_length};
ghost use Rattle.paris_model.specs.Fits.{is_bad_axis, conditional_bad_axis, news_axis, line_axis, has_bad_axis, is_bad_length, conditional_bad_length, unconditional_bad_length, news_bad_length, line_bad_length, mail_bad_length, has_bad_length, is_wide, is_wide_if_given, conditional_bad_operand, unconditional_bad_operand, line_bad_operand, mail_notify, has_bad_operand, mail_target, is_overlap, has_overlap};

use paris_geometry::Geometry;
use paris_model::{Action, Conditional, Line, Mail, News, Operand, Unconditional};
use paris_names::SetNo;

/// Whether there is no axis of this number.
fn is_bad_axis(geometry: Geometry, axis: u64) -> bool
    ensures { result ≡ is_bad_axis geometry axis }
{
    geometry.axes() as u64 <= axis
}

/// Whether the axis of an action isn't there.
pub(crate) fn has_bad_axis(geometry: Geometry, action: &Action<Operand, SetNo>) -> bool
    ensures { result ≡ has_bad_axis geometry action.now }
{
    match action {
        Action::OnSelected(action) => conditional_bad_axis(geometry, action),
        Action::ByNews(action) => is_bad_axis(geometry, news_axis(action)),
        Action::AlongLine(action) => is_bad_axis(geometry, line_axis(action)),
        Action::OnAll(_) | Action::ByMail(_) => false,
    }
}

fn conditional_bad_axis(geometry: Geometry, action: &Conditional<Operand, SetNo>) -> bool
    ensures { result ≡ conditional_bad_axis geometry action.now }
{
    match *action {
        Conditional::MyCoordinate { axis, .. } => is_bad_axis(geometry, axis),
        _ => false,
    }
}

fn news_axis(action: &News<Operand>) -> u64
    ensures { result ≡ news_axis action.now }
{
    match *action {
        News::Get { axis, .. } | News::Send { axis, .. } => axis,
    }
}

fn line_axis(action: &Line<Operand>) -> u64
    ensures { result ≡ line_axis action.now }
{
    match *action {
        Line::Scan { axis, .. }
        | Line::CopyScan { axis, .. }
        | Line::Spread { axis, .. }
        | Line::CopySpread { axis, .. }
        | Line::Reduce { axis, .. } => axis,
    }
}

/// Whether a length is 0, or above the width of an operand of that length.
fn is_bad_length(length: u64, operand: Operand) -> bool
    ensures { result ≡ is_bad_length length operand }
{
    length == 0 || operand.width < length
}

/// Whether a length doesn't fit a destination or a source.
fn is_bad_for_two(length: u64, to: Operand, from: Operand) -> bool
    ensures { result ≡ (is_bad_length length to || is_bad_length length from) }
{
    is_bad_length(length, to) || is_bad_length(length, from)
}

/// Whether some length of an action is bad.
pub(crate) fn has_bad_length(action: &Action<Operand, SetNo>) -> bool
    ensures { result ≡ has_bad_length action.now }
{
    match action {
        Action::OnSelected(action) => conditional_bad_length(action),
        Action::OnAll(action) => unconditional_bad_length(action),
        Action::ByNews(action) => news_bad_length(action),
        Action::AlongLine(action) => line_bad_length(action),
        Action::ByMail(action) => mail_bad_length(action),
    }
}

fn conditional_bad_length(action: &Conditional<Operand, SetNo>) -> bool
    ensures { result ≡ conditional_bad_length action.now }
{
    match *action {
        Conditional::Binary {
            to,
            left,
            right,
            length,
            ..
        } => is_bad_length(length, to) || is_bad_for_two(length, left, right),
        Conditional::Unary {
            to,
            from,
            length,
            ..
        } => is_bad_for_two(length, to, from),
        Conditional::Resize {
            to,
            from,
            length,
            from_length,
            ..
        } => is_bad_length(length, to) || is_bad_length(from_length, from),
        Conditional::Compare {
            left,
            right,
            length,
            ..
        } => is_bad_for_two(length, left, right),
        Conditional::MoveConstant { to, length, .. }
        | Conditional::MyCoordinate { to, length, .. }
        | Conditional::MyAddress { to, length } => is_bad_length(length, to),
        _ => false,
    }
}

fn unconditional_bad_length(action: &Unconditional<Operand, SetNo>) -> bool
    ensures { result ≡ unconditional_bad_length action.now }
{
    match *action {
        Unconditional::MoveAlways { to, from, length } => is_bad_for_two(length, to, from),
        _ => false,
    }
}

fn news_bad_length(action: &News<Operand>) -> bool
    ensures { result ≡ news_bad_length action.now }
{
    match *action {
        News::Get {
            to,
            from,
            length,
            ..
        }
        | News::Send {
            to,
            from,
            length,
            ..
        } => is_bad_for_two(length, to, from),
    }
}

fn line_bad_length(action: &Line<Operand>) -> bool
    ensures { result ≡ line_bad_length action.now }
{
    match *action {
        Line::Scan {
            to,
            from,
            length,
            ..
        }
        | Line::CopyScan {
            to,
            from,
            length,
            ..
        }
        | Line::Spread {
            to,
            from,
            length,
            ..
        }
        | Line::CopySpread {
            to,
            from,
            length,
            ..
        }
        | Line::Reduce {
            to,
            from,
            length,
            ..
        } => is_bad_for_two(length, to, from),
    }
}

fn mail_bad_length(action: &Mail<Operand>) -> bool
    ensures { result ≡ mail_bad_length action.now }
{
    match *action {
        Mail::Get {
            to,
            from,
            length,
            ..
        }
        | Mail::Send {
            to,
            from,
            length,
            ..
        }
        | Mail::CombiningSend {
            to,
            from,
            length,
            ..
        } => is_bad_for_two(length, to, from),
    }
}

/// Whether an operand of one bit is wider.
fn is_wide(operand: Operand) -> bool
    ensures { result ≡ is_wide operand }
{
    operand.width > 1
}

fn is_wide_if_given(operand: Option<Operand>) -> bool
    ensures { result ≡ is_wide_if_given operand }
{
    match operand {
        None => false,
        Some(operand) => is_wide(operand),
    }
}

/// Whether a number needs more bits than a length.
fn is_too_great(length: u64, number: u128) -> bool
    ensures { result ≡ nat_le (2 ^ length) number }
{
    length < 128 && number >= 1u128 << length
}

/// Whether a coordinate is outside its axis.
fn is_outside_axis(geometry: Geometry, axis: u64, coordinate: u64) -> bool
    ensures { result ≡ nat_le (axis_length geometry axis) coordinate }
{
    match geometry.lengths().get(axis as usize) {
        None => true,
        Some(length) => *length <= coordinate,
    }
}

/// Whether a constant needs more bits than its length, an operand of one bit is wider, or a coordinate is outside its axis.
pub(crate) fn has_bad_operand(geometry: Geometry, action: &Action<Operand, SetNo>) -> bool
    ensures { result ≡ has_bad_operand geometry action.now }
{
    match action {
        Action::OnSelected(action) => conditional_bad_operand(action),
        Action::OnAll(action) => unconditional_bad_operand(action),
        Action::ByNews(_) => false,
        Action::AlongLine(action) => line_bad_operand(geometry, action),
        Action::ByMail(action) => is_wide_if_given(mail_notify(action)),
    }
}

fn conditional_bad_operand(action: &Conditional<Operand, SetNo>) -> bool
    ensures { result ≡ conditional_bad_operand action.now }
{
    match *action {
        Conditional::MoveConstant { value, length, .. } => is_too_great(length, value),
        Conditional::LoadTest(field) | Conditional::StoreTest(field) => is_wide(field),
        _ => false,
    }
}

fn unconditional_bad_operand(action: &Unconditional<Operand, SetNo>) -> bool
    ensures { result ≡ unconditional_bad_operand action.now }
{
    match *action {
        Unconditional::LoadContext(field)
        | Unconditional::AndContext(field)
        | Unconditional::OrContext(field)
        | Unconditional::StoreContext(field) => is_wide(field),
        _ => false,
    }
}

fn line_bad_operand(geometry: Geometry, action: &Line<Operand>) -> bool
    ensures { result ≡ line_bad_operand geometry action.now }
{
    match *action {
        Line::Scan { segments, .. } | Line::CopyScan { segments, .. } => is_wide_if_given(segments),
        Line::Spread { .. } => false,
        Line::CopySpread {
            axis,
            coordinate,
            ..
        }
        | Line::Reduce {
            axis,
            coordinate,
            ..
        } => is_outside_axis(geometry, axis, coordinate),
    }
}

fn mail_notify(action: &Mail<Operand>) -> Option<Operand>
    ensures { result ≡ mail_notify action.now }
{
    match *action {
        Mail::Get { .. } => None,
        Mail::Send { notify, .. } | Mail::CombiningSend { notify, .. } => notify,
    }
}

fn mail_target(action: &Mail<Operand>) -> Operand
    ensures { result ≡ mail_target action.now }
{
    match *action {
        Mail::Get { to, .. } | Mail::Send { to, .. } | Mail::CombiningSend { to, .. } => to,
    }
}

/// Whether the notify field is the destination.
pub(crate) fn has_overlap(action: &Action<Operand, SetNo>) -> bool
    ensures { result ≡ has_overlap action.now }
{
    match action {
        Action::ByMail(action) => is_overlap(mail_target(action), mail_notify(action)),
        _ => false,
    }
}

fn is_overlap(to: Operand, notify: Option<Operand>) -> bool
    ensures { result ≡ is_overlap to notify }
{
    match notify {
        None => false,
        Some(notify) => notify.field == to.field,
    }
}
