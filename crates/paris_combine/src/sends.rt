//! Combining sends.

ghost use Rattle.std.specs.Prelude.{◌≡◌, ◌<◌, ◌≤◌, ◌^◌, All, IfOk, None, length, slice_index};
ghost use Rattle.paris_model.specs.Combine.{combined};
ghost use Rattle.paris_model.specs.Mail.{arrivals, first_cause};
ghost use Rattle.paris_model.specs.Store.{everywhere};
ghost use Rattle.paris_names.specs.declared.limits.TheConstants.{MAX_PROCESSORS};
ghost use Rattle.paris_router.specs.Mail.{bad_sender_of, mail_in, receivers_of, refusal_of};
ghost use Rattle.paris_combine.specs.Combined.{HasJoined, combined_mail};

use crate::operators::{BitAnds, BitOrs, BitXors, Join, Maxima, Minima, Sums, apply};
use paris_field::FieldValue;
use paris_layer::Layer;
use paris_model::{Combiner, Refusal};
use paris_plane::Plane;
use paris_router::{Delivery, Inbox, checked_mail, deliver_mail, low_mask, low_numbers, receivers};
use std::alloc::{AllocError, Global};
use std::marker::PhantomData;

/// Combines each message with the number of its receiver, one after the other.
fn combine_in(operator: Combiner, bits: u64, mail: &[(usize, u128)], values: &mut [u128])
    requires narrow { bits ≤ 128 }
    requires within { All (λ message. message.0 < length values.old) mail.now }
    requires fit { All (λ message. message.1 < 2 ^ bits) mail.now }
    requires held { All (λ value. value < 2 ^ bits) values.old }
    ensures value { values.new ≡ everywhere (length values.old) (λ r. combined operator bits (slice_index values.old r) (arrivals mail.now r)) }
    ensures fit { All (λ value. value < 2 ^ bits) values.new }
{
    for message in mail {
        let (receiver, value) = *message;
        values[receiver] = apply(operator, bits, values[receiver], value);
    }
}

/// What `send_with` makes of numbers of up to 128 bits.
fn combined_numbers(
    alloc: Global,
    operator: Combiner,
    addresses: &FieldValue,
    x: &FieldValue,
    old: &FieldValue,
    selected: &Layer,
    bits: u64,
) -> Result<Result<Delivery, Refusal>, AllocError>
    requires few { length x.now.numbers ≤ MAX_PROCESSORS }
    requires narrow { bits ≤ 128 }
    requires x_width { bits ≤ x.now.width }
    requires old_width { bits ≤ old.now.width }
    requires addresses { length addresses.now.numbers ≡ length x.now.numbers }
    requires old { length old.now.numbers ≡ length x.now.numbers }
    requires selected { length selected.now ≡ length x.now.numbers }
    ensures refused { IfOk result (λ sent. refusal_of sent ≡ first_cause (bad_sender_of addresses.now selected.now) None) }
    ensures value { IfOk result (λ sent. IfOk sent (λ delivery. delivery.value ≡ combined_mail operator bits old.now (mail_in bits addresses.now x.now selected.now))) }
    ensures receivers { IfOk result (λ sent. IfOk sent (λ delivery. delivery.receivers ≡ receivers_of (length x.now.numbers) (mail_in bits addresses.now x.now selected.now))) }
{
    let mail = match checked_mail(alloc, addresses, x, selected, bits)? {
        Ok(mail) => mail,
        Err(refusal) => return Ok(Err(refusal)),
    };
    let mut values = low_numbers(old, bits)?;
    let receivers = receivers(alloc, &mail, x.len())?;
    combine_in(operator, bits, &mail, &mut values);
    let value = FieldValue::from_numbers(alloc, bits, &values)?;
    Ok(Ok(Delivery { value, receivers }))
}

/// The numbers that processors hold, each combined with the words that come to it, and to which one comes.
#[derive(Drop)]
struct Joined<J> {
    mask: u64,
    words: Vec<u64>,
    receivers: Plane,
    by: PhantomData<J>,
}

impl<J: Join> Inbox for Joined<J> {
    ghost count = { λ joined. length joined.words.items };

    ghost IsWhole = { λ joined. length joined.receivers ≡ length joined.words.items };

    ghost HasHad = { λ start mail now. HasJoined J.operator start.mask start.words.items mail now.mask now.words.items now.receivers };

    fn len(&self) -> usize {
        self.words.len()
    }

    fn accept(&mut self, place: usize, word: u64) {
        self.words[place] = J::join(self.mask, self.words[place], word);
        self.receivers.set(place, true);
    }
}

/// What `send_with` makes of numbers of up to 64 bits by an operator, where addresses have up to 64 bits too.
fn send_joined<J: Join>(
    alloc: Global,
    addresses: &FieldValue,
    x: &FieldValue,
    old: &FieldValue,
    selected: &Layer,
    bits: u64,
) -> Result<Result<Delivery, Refusal>, AllocError>
    requires few { length x.now.numbers ≤ MAX_PROCESSORS }
    requires narrow { bits ≤ 64 }
    requires x_width { bits ≤ x.now.width }
    requires old_width { bits ≤ old.now.width }
    requires address_width { addresses.now.width ≤ 64 }
    requires addresses { length addresses.now.numbers ≡ length x.now.numbers }
    requires old { length old.now.numbers ≡ length x.now.numbers }
    requires selected { length selected.now ≡ length x.now.numbers }
    ensures refused { IfOk result (λ sent. refusal_of sent ≡ first_cause (bad_sender_of addresses.now selected.now) None) }
    ensures value { IfOk result (λ sent. IfOk sent (λ delivery. delivery.value ≡ combined_mail J.operator bits old.now (mail_in bits addresses.now x.now selected.now))) }
    ensures receivers { IfOk result (λ sent. IfOk sent (λ delivery. delivery.receivers ≡ receivers_of (length x.now.numbers) (mail_in bits addresses.now x.now selected.now))) }
{
    let mask = low_mask(bits) as u64;
    let words = old.low_words(bits)?;
    let receivers = Plane::zeros(alloc, x.len())?;
    let mut joined = Joined::<J> {
        mask,
        words,
        receivers,
        by: PhantomData,
    };
    if let Some(v) = deliver_mail(addresses, x, selected, bits, &mut joined) {
        return Ok(Err(Refusal::BadAddress(v as u32)));
    }
    let value = FieldValue::from_words(alloc, bits, &joined.words)?;
    let receivers = Layer::from_plane(joined.receivers);
    Ok(Ok(Delivery { value, receivers }))
}

/// What `send_with` makes of numbers of up to 64 bits, where addresses have up to 64 bits too.
fn send_words_with(
    alloc: Global,
    operator: Combiner,
    addresses: &FieldValue,
    x: &FieldValue,
    old: &FieldValue,
    selected: &Layer,
    bits: u64,
) -> Result<Result<Delivery, Refusal>, AllocError>
    requires few { length x.now.numbers ≤ MAX_PROCESSORS }
    requires narrow { bits ≤ 64 }
    requires x_width { bits ≤ x.now.width }
    requires old_width { bits ≤ old.now.width }
    requires address_width { addresses.now.width ≤ 64 }
    requires addresses { length addresses.now.numbers ≡ length x.now.numbers }
    requires old { length old.now.numbers ≡ length x.now.numbers }
    requires selected { length selected.now ≡ length x.now.numbers }
    ensures refused { IfOk result (λ sent. refusal_of sent ≡ first_cause (bad_sender_of addresses.now selected.now) None) }
    ensures value { IfOk result (λ sent. IfOk sent (λ delivery. delivery.value ≡ combined_mail operator bits old.now (mail_in bits addresses.now x.now selected.now))) }
    ensures receivers { IfOk result (λ sent. IfOk sent (λ delivery. delivery.receivers ≡ receivers_of (length x.now.numbers) (mail_in bits addresses.now x.now selected.now))) }
{
    match operator {
        Combiner::Sum => send_joined::<Sums>(alloc, addresses, x, old, selected, bits),
        Combiner::BitOr => send_joined::<BitOrs>(alloc, addresses, x, old, selected, bits),
        Combiner::BitAnd => send_joined::<BitAnds>(alloc, addresses, x, old, selected, bits),
        Combiner::BitXor => send_joined::<BitXors>(alloc, addresses, x, old, selected, bits),
        Combiner::Maximum => send_joined::<Maxima>(alloc, addresses, x, old, selected, bits),
        Combiner::Minimum => send_joined::<Minima>(alloc, addresses, x, old, selected, bits),
    }
}

/// In each processor the low `bits` bits of `old`, combined one by one with the low `bits` bits of `x` that each selected processor sends
/// to the address that it holds, by sender. Refused with the least selected processor whose address is outside the set, if there is one.
pub fn send_with(
    alloc: Global,
    operator: Combiner,
    addresses: &FieldValue,
    x: &FieldValue,
    old: &FieldValue,
    selected: &Layer,
    bits: u64,
) -> Result<Result<Delivery, Refusal>, AllocError>
    requires few { length x.now.numbers ≤ MAX_PROCESSORS }
    requires narrow { bits ≤ 128 }
    requires x_width { bits ≤ x.now.width }
    requires old_width { bits ≤ old.now.width }
    requires addresses { length addresses.now.numbers ≡ length x.now.numbers }
    requires old { length old.now.numbers ≡ length x.now.numbers }
    requires selected { length selected.now ≡ length x.now.numbers }
    ensures refused { IfOk result (λ sent. refusal_of sent ≡ first_cause (bad_sender_of addresses.now selected.now) None) }
    ensures value { IfOk result (λ sent. IfOk sent (λ delivery. delivery.value ≡ combined_mail operator bits old.now (mail_in bits addresses.now x.now selected.now))) }
    ensures receivers { IfOk result (λ sent. IfOk sent (λ delivery. delivery.receivers ≡ receivers_of (length x.now.numbers) (mail_in bits addresses.now x.now selected.now))) }
{
    if bits <= 64 && addresses.width() <= 64 {
        return send_words_with(alloc, operator, addresses, x, old, selected, bits);
    }
    combined_numbers(alloc, operator, addresses, x, old, selected, bits)
}
