//! The operands of an action.

ghost use Rattle.std.specs.Prelude.{◌≡◌, ◌<◌, ◌≤◌, [], ◌∷◌, ◌++◌, length};
ghost use Rattle.paris_model.specs.Conditional.{conditional_targets, conditional_sources};
ghost use Rattle.paris_model.specs.Unconditional.{unconditional_targets, unconditional_sources};
ghost use Rattle.paris_model.specs.News.{news_target, news_source};
ghost use Rattle.paris_model.specs.Lines.{line_target, line_sources, segment_sources};
ghost use Rattle.paris_model.specs.Mail.{mail_targets, mail_sources, notify_targets};
ghost use Rattle.paris_model.specs.Instructions.{target_fields, source_fields, operands};

use paris_model::{Action, Conditional, Line, Mail, News, Operand, Unconditional};
use paris_names::{FieldNo, SetNo};
use std::marker::Model;

/// At most four operands, in order. A clause sees the list of them.
#[derive(Drop)]
pub(crate) struct Operands {
    buffer: [Operand; 4],
    count: usize,
}

impl Model for Operands {
    ghost use Rattle.std.specs.Prelude.{◌≤◌, List, take};
    ghost use Rattle.paris_model.specs.declared.actions.Operand.{Operand};

    ghost Value = { List Operand };

    ghost view = { λ a. take a.count a.buffer };

    ghost invariant = { λ a. a.count ≤ 4 };
}

impl Operands {
    /// The operands of a list.
    fn of(operands: &[Operand]) -> Operands
        requires { length operands.now ≤ 4 }
        ensures { result ≡ operands.now }
    {
        let none = Operand {
            field: FieldNo::new(0),
            width: 0,
        };
        let mut buffer = [none; 4];
        buffer[..operands.len()].copy_from_slice(operands);
        Operands {
            buffer,
            count: operands.len(),
        }
    }

    /// Puts an operand at the end.
    fn push(&mut self, operand: Operand)
        requires { length self.old < 4 }
        ensures { self.new ≡ self.old ++ operand ∷ [] }
    {
        self.buffer[self.count] = operand;
        self.count += 1;
    }

    /// The operands, lent.
    pub(crate) fn as_slice(&self) -> &[Operand]
        ensures { result.now ≡ self.now }
    {
        &self.buffer[..self.count]
    }
}

/// The operands of an action: what it stores to, and then its sources.
pub(crate) fn all_operands(action: &Action<Operand, SetNo>) -> Operands
    ensures { result ≡ operands action.now }
{
    let mut all = targets(action);
    let sources = sources(action);
    for operand in sources.as_slice() {
        all.push(*operand);
    }
    all
}

/// The fields that an action stores to.
pub(crate) fn targets(action: &Action<Operand, SetNo>) -> Operands
    ensures value { result ≡ target_fields action.now }
    ensures few { length result ≤ 2 }
{
    match action {
        Action::OnSelected(action) => conditional_targets(action),
        Action::OnAll(action) => unconditional_targets(action),
        Action::ByNews(action) => Operands::of(&[news_target(action)]),
        Action::AlongLine(action) => Operands::of(&[line_target(action)]),
        Action::ByMail(action) => mail_targets(action),
    }
}

fn conditional_targets(action: &Conditional<Operand, SetNo>) -> Operands
    ensures value { result ≡ conditional_targets action.now }
    ensures few { length result ≤ 2 }
{
    match *action {
        Conditional::Binary { to, .. }
        | Conditional::Unary { to, .. }
        | Conditional::MoveConstant { to, .. }
        | Conditional::Resize { to, .. }
        | Conditional::MyCoordinate { to, .. }
        | Conditional::MyAddress { to, .. }
        | Conditional::StoreTest(to) => Operands::of(&[to]),
        Conditional::Compare { .. }
        | Conditional::SetTest(_)
        | Conditional::ClearTest(_)
        | Conditional::LoadTest(_) => Operands::of(&[]),
    }
}

fn unconditional_targets(action: &Unconditional<Operand, SetNo>) -> Operands
    ensures value { result ≡ unconditional_targets action.now }
    ensures few { length result ≤ 2 }
{
    match *action {
        Unconditional::MoveAlways { to, .. } | Unconditional::StoreContext(to) => {
            Operands::of(&[to])
        }
        Unconditional::SetContext(_)
        | Unconditional::ClearContext(_)
        | Unconditional::InvertContext(_)
        | Unconditional::LoadContext(_)
        | Unconditional::AndContext(_)
        | Unconditional::OrContext(_)
        | Unconditional::AndContextWithTest(_) => Operands::of(&[]),
    }
}

fn news_target(action: &News<Operand>) -> Operand
    ensures { result ≡ news_target action.now }
{
    match *action {
        News::Get { to, .. } | News::Send { to, .. } => to,
    }
}

fn line_target(action: &Line<Operand>) -> Operand
    ensures { result ≡ line_target action.now }
{
    match *action {
        Line::Scan { to, .. }
        | Line::CopyScan { to, .. }
        | Line::Spread { to, .. }
        | Line::CopySpread { to, .. }
        | Line::Reduce { to, .. } => to,
    }
}

fn mail_targets(action: &Mail<Operand>) -> Operands
    ensures value { result ≡ mail_targets action.now }
    ensures few { length result ≤ 2 }
{
    match *action {
        Mail::Get { to, .. } => Operands::of(&[to]),
        Mail::Send { to, notify, .. } => with_notify(to, notify),
        Mail::CombiningSend { to, notify, .. } => with_notify(to, notify),
    }
}

/// A destination, and the notify field where there is one.
fn with_notify(to: Operand, notify: Option<Operand>) -> Operands
    ensures value { result ≡ to ∷ notify_targets notify }
    ensures few { length result ≤ 2 }
{
    match notify {
        None => Operands::of(&[to]),
        Some(notify) => Operands::of(&[to, notify]),
    }
}

/// The source fields of an action.
pub(crate) fn sources(action: &Action<Operand, SetNo>) -> Operands
    ensures value { result ≡ source_fields action.now }
    ensures few { length result ≤ 2 }
{
    match action {
        Action::OnSelected(action) => conditional_sources(action),
        Action::OnAll(action) => unconditional_sources(action),
        Action::ByNews(action) => Operands::of(&[news_source(action)]),
        Action::AlongLine(action) => line_sources(action),
        Action::ByMail(action) => mail_sources(action),
    }
}

fn conditional_sources(action: &Conditional<Operand, SetNo>) -> Operands
    ensures value { result ≡ conditional_sources action.now }
    ensures few { length result ≤ 2 }
{
    match *action {
        Conditional::Binary { left, right, .. } | Conditional::Compare { left, right, .. } => {
            Operands::of(&[left, right])
        }
        Conditional::Unary { from, .. }
        | Conditional::Resize { from, .. }
        | Conditional::LoadTest(from) => Operands::of(&[from]),
        Conditional::MoveConstant { .. }
        | Conditional::MyCoordinate { .. }
        | Conditional::MyAddress { .. }
        | Conditional::SetTest(_)
        | Conditional::ClearTest(_)
        | Conditional::StoreTest(_) => Operands::of(&[]),
    }
}

fn unconditional_sources(action: &Unconditional<Operand, SetNo>) -> Operands
    ensures value { result ≡ unconditional_sources action.now }
    ensures few { length result ≤ 2 }
{
    match *action {
        Unconditional::MoveAlways { from, .. }
        | Unconditional::LoadContext(from)
        | Unconditional::AndContext(from)
        | Unconditional::OrContext(from) => Operands::of(&[from]),
        Unconditional::SetContext(_)
        | Unconditional::ClearContext(_)
        | Unconditional::InvertContext(_)
        | Unconditional::AndContextWithTest(_)
        | Unconditional::StoreContext(_) => Operands::of(&[]),
    }
}

fn news_source(action: &News<Operand>) -> Operand
    ensures { result ≡ news_source action.now }
{
    match *action {
        News::Get { from, .. } | News::Send { from, .. } => from,
    }
}

fn line_sources(action: &Line<Operand>) -> Operands
    ensures value { result ≡ line_sources action.now }
    ensures few { length result ≤ 2 }
{
    match *action {
        Line::Scan { from, segments, .. } | Line::CopyScan { from, segments, .. } => {
            with_segments(from, segments)
        }
        Line::Spread { from, .. } | Line::CopySpread { from, .. } | Line::Reduce { from, .. } => {
            Operands::of(&[from])
        }
    }
}

/// A source, and the segment field where there is one.
fn with_segments(from: Operand, segments: Option<Operand>) -> Operands
    ensures value { result ≡ from ∷ segment_sources segments }
    ensures few { length result ≤ 2 }
{
    match segments {
        None => Operands::of(&[from]),
        Some(segments) => Operands::of(&[from, segments]),
    }
}

fn mail_sources(action: &Mail<Operand>) -> Operands
    ensures value { result ≡ mail_sources action.now }
    ensures few { length result ≤ 2 }
{
    match *action {
        Mail::Get {
            addresses,
            from,
            ..
        }
        | Mail::Send {
            addresses,
            from,
            ..
        }
        | Mail::CombiningSend {
            addresses,
            from,
            ..
        } => Operands::of(&[addresses, from]),
    }
}
