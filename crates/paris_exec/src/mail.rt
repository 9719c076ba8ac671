//! Gets and sends by address, on planes.

ghost use Rattle.std.specs.Prelude.{◌≡◌, ◌≤◌, true, length, IfOk};
ghost use Rattle.paris_names.specs.Keys.{has_key};
ghost use Rattle.paris_names.specs.declared.limits.TheConstants.{MAX_PROCESSORS};
ghost use Rattle.paris_names.specs.declared.keys.Key.TheVariants.{Field};
ghost use Rattle.paris_geometry.specs.Geometry.{processor_count};
ghost use Rattle.paris_model.specs.Fits.{IsFit};
ghost use Rattle.paris_model.specs.Instructions.{reads, key_width, refusal};
ghost use Rattle.paris_router.specs.Mail.{refusal_of};
ghost use Rattle.paris_exec.specs.Combined.{by_field, delivered_values, mail_length, mail_source};
ghost use Rattle.paris_exec.specs.Tasks.{left_values, seen_at};

use crate::orders::Order;
use crate::planes::{flag_plane, put_field, put_where, widened};
use paris_combine::send_with;
use paris_field::FieldValue;
use paris_model::{Action, Combiner, Mail, Operand, Refusal};
use paris_names::{FieldNo, FlagName, Key};
use paris_router::{Delivery, get, send};
use std::alloc::{AllocError, Global};

/// Two values of fields, in the order of the fields' numbers.
fn both(
    alloc: Global,
    field: FieldNo,
    value: FieldValue,
    other: FieldNo,
    other_value: FieldValue,
) -> Result<Vec<FieldValue>, AllocError>
    ensures { IfOk result (λ values. values.items ≡ by_field field value other other_value) }
{
    let mut values = Vec::with_capacity(alloc, 2)?;
    if other.number() < field.number() {
        values.push(other_value)?;
        values.push(value)?;
    } else {
        values.push(value)?;
        values.push(other_value)?;
    }
    Ok(values)
}

/// The values that mail leaves: receivers store it, and the notify field tells in each processor whether it is one.
fn put_delivery(
    alloc: Global,
    order: &Order,
    to: &Operand,
    notify: &Option<Operand>,
    new: Delivery,
) -> Result<Vec<FieldValue>, AllocError>
    requires read { has_key (reads order.now.plan) (Field to.now.field) ≡ true }
    requires fits_key { new.value.width ≤ key_width order.now.plan (Field to.now.field) }
    requires count { length new.value.numbers ≡ processor_count order.now.plan.axes }
    requires receivers { length new.receivers ≡ processor_count order.now.plan.axes }
    ensures { IfOk result (λ values. values.items ≡ delivered_values order.now to.now.field notify.now new) }
{
    let Delivery { value, receivers } = new;
    let stored = put_where(order, &receivers, &Key::Field(to.field), value)?;
    match notify {
        None => {
            let mut values = Vec::with_capacity(alloc, 1)?;
            values.push(stored)?;
            Ok(values)
        }
        Some(notify) => {
            let notified = FieldValue::from_layer(alloc, receivers)?;
            both(alloc, to.field, stored, notify.field, notified)
        }
    }
}

/// The values that a get leaves, where the source is at least as wide as its length, or why it is refused.
fn get_answer(
    alloc: Global,
    order: &Order,
    to: &Operand,
    addresses: &Operand,
    from: &Operand,
    bits: u64,
    x: &FieldValue,
) -> Result<Result<Vec<FieldValue>, Refusal>, AllocError>
    requires acts { order.now.plan.action ≡ Action.ByMail (Mail.Get to.now addresses.now from.now bits) }
    requires fit { IsFit order.now.plan.axes order.now.plan.action }
    requires few { length x.now.numbers ≤ MAX_PROCESSORS }
    requires x_count { length x.now.numbers ≡ processor_count order.now.plan.axes }
    requires x_numbers { x.now.numbers ≡ seen_at order.now (Field from.now.field) }
    requires x_width { bits ≤ x.now.width }
    ensures refused { IfOk result (λ answer. refusal_of answer ≡ refusal order.now.plan (seen_at order.now)) }
    ensures values { IfOk result (λ answer. IfOk answer (λ values. values.items ≡ left_values order.now)) }
{
    let places = order.input(&Key::Field(addresses.field));
    let selected = flag_plane(order, &FlagName::Context);
    match get(alloc, places, x, selected, bits)? {
        Ok(new) => Ok(Ok(put_field(alloc, order, to, new)?)),
        Err(cause) => Ok(Err(cause)),
    }
}

/// The values that a send leaves, where the source is at least as wide as its length, or why it is refused.
fn send_answer(
    alloc: Global,
    order: &Order,
    to: &Operand,
    addresses: &Operand,
    from: &Operand,
    bits: u64,
    notify: &Option<Operand>,
    x: &FieldValue,
) -> Result<Result<Vec<FieldValue>, Refusal>, AllocError>
    requires acts { order.now.plan.action ≡ Action.ByMail (Mail.Send to.now addresses.now from.now bits notify.now) }
    requires fit { IsFit order.now.plan.axes order.now.plan.action }
    requires few { length x.now.numbers ≤ MAX_PROCESSORS }
    requires x_count { length x.now.numbers ≡ processor_count order.now.plan.axes }
    requires x_numbers { x.now.numbers ≡ seen_at order.now (Field from.now.field) }
    requires x_width { bits ≤ x.now.width }
    ensures refused { IfOk result (λ answer. refusal_of answer ≡ refusal order.now.plan (seen_at order.now)) }
    ensures values { IfOk result (λ answer. IfOk answer (λ values. values.items ≡ left_values order.now)) }
{
    let places = order.input(&Key::Field(addresses.field));
    let selected = flag_plane(order, &FlagName::Context);
    match send(alloc, places, x, selected, bits)? {
        Ok(new) => Ok(Ok(put_delivery(alloc, order, to, notify, new)?)),
        Err(cause) => Ok(Err(cause)),
    }
}

/// The values that a combining send leaves, where the source is at least as wide as its length, or why it is refused.
fn combining_answer(
    alloc: Global,
    order: &Order,
    combiner: Combiner,
    to: &Operand,
    addresses: &Operand,
    from: &Operand,
    bits: u64,
    notify: &Option<Operand>,
    x: &FieldValue,
) -> Result<Result<Vec<FieldValue>, Refusal>, AllocError>
    requires acts { order.now.plan.action ≡ Action.ByMail (Mail.CombiningSend combiner to.now addresses.now from.now bits notify.now) }
    requires fit { IsFit order.now.plan.axes order.now.plan.action }
    requires few { length x.now.numbers ≤ MAX_PROCESSORS }
    requires x_count { length x.now.numbers ≡ processor_count order.now.plan.axes }
    requires x_numbers { x.now.numbers ≡ seen_at order.now (Field from.now.field) }
    requires x_width { bits ≤ x.now.width }
    ensures refused { IfOk result (λ answer. refusal_of answer ≡ refusal order.now.plan (seen_at order.now)) }
    ensures values { IfOk result (λ answer. IfOk answer (λ values. values.items ≡ left_values order.now)) }
{
    let places = order.input(&Key::Field(addresses.field));
    let old = order.input(&Key::Field(to.field));
    let selected = flag_plane(order, &FlagName::Context);
    match send_with(alloc, combiner, places, x, old, selected, bits)? {
        Ok(new) => Ok(Ok(put_delivery(alloc, order, to, notify, new)?)),
        Err(cause) => Ok(Err(cause)),
    }
}

/// The values that an instruction of this family leaves, where the source is at least as wide as its length, or why it is refused.
fn answer_from(
    alloc: Global,
    order: &Order,
    i: &Mail<Operand>,
    x: &FieldValue,
) -> Result<Result<Vec<FieldValue>, Refusal>, AllocError>
    requires acts { order.now.plan.action ≡ Action.ByMail i.now }
    requires fit { IsFit order.now.plan.axes order.now.plan.action }
    requires few { length x.now.numbers ≤ MAX_PROCESSORS }
    requires x_count { length x.now.numbers ≡ processor_count order.now.plan.axes }
    requires x_numbers { x.now.numbers ≡ seen_at order.now (Field (mail_source i.now).field) }
    requires x_width { mail_length i.now ≤ x.now.width }
    ensures refused { IfOk result (λ answer. refusal_of answer ≡ refusal order.now.plan (seen_at order.now)) }
    ensures values { IfOk result (λ answer. IfOk answer (λ values. values.items ≡ left_values order.now)) }
{
    match i {
        Mail::Get {
            to,
            addresses,
            from,
            length,
        } => get_answer(alloc, order, to, addresses, from, *length, x),
        Mail::Send {
            to,
            addresses,
            from,
            length,
            notify,
        } => send_answer(alloc, order, to, addresses, from, *length, notify, x),
        Mail::CombiningSend {
            combiner,
            to,
            addresses,
            from,
            length,
            notify,
        } => combining_answer(
            alloc, order, *combiner, to, addresses, from, *length, notify, x,
        ),
    }
}

/// The source of mail.
fn source_of(i: &Mail<Operand>) -> Operand
    ensures { result ≡ mail_source i.now }
{
    match i {
        Mail::Get { from, .. } => *from,
        Mail::Send { from, .. } => *from,
        Mail::CombiningSend { from, .. } => *from,
    }
}

/// How many bits of its source mail moves.
fn length_of(i: &Mail<Operand>) -> u64
    ensures { result ≡ mail_length i.now }
{
    match i {
        Mail::Get { length, .. } => *length,
        Mail::Send { length, .. } => *length,
        Mail::CombiningSend { length, .. } => *length,
    }
}

/// The values that an instruction of this family leaves at the keys that its plan writes, in their order, or why it is refused.
pub(crate) fn mail_answer(
    alloc: Global,
    order: &Order,
    i: &Mail<Operand>,
) -> Result<Result<Vec<FieldValue>, Refusal>, AllocError>
    requires acts { order.now.plan.action ≡ Action.ByMail i.now }
    requires fit { IsFit order.now.plan.axes order.now.plan.action }
    ensures refused { IfOk result (λ answer. refusal_of answer ≡ refusal order.now.plan (seen_at order.now)) }
    ensures values { IfOk result (λ answer. IfOk answer (λ values. values.items ≡ left_values order.now)) }
{
    let bits = length_of(i);
    let x = order.input(&Key::Field(source_of(i).field));
    // No set has more processors than a router takes.
    let _ = order.plan().geometry().vps();
    if bits <= x.width() {
        return answer_from(alloc, order, i, x);
    }
    let wide = widened(alloc, x, bits)?;
    answer_from(alloc, order, i, &wide)
}
