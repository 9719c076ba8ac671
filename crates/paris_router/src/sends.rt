//! Sending by send address.

ghost use Rattle.std.specs.Prelude.{◌≡◌, ◌<◌, ◌≤◌, All, IfOk, IfSome, None, false, find, length, replicate};
ghost use Rattle.paris_geometry.specs.Geometry.{numbers_below};
ghost use Rattle.paris_model.specs.Mail.{collision_at, first_cause};
ghost use Rattle.paris_names.specs.declared.limits.TheConstants.{MAX_PROCESSORS};
ghost use Rattle.paris_field.specs.Numbers.{has};
ghost use Rattle.paris_router.specs.Mail.{HasCome, bad_sender_of, crowded_in, delivered_field, first_numbers, mail_in, mail_to, receivers_of, refusal_of, senders};

use crate::addresses::checked_addresses;
use crate::inbox::{Inbox, deliver_mail};
use crate::numbers::low_numbers;
use paris_field::FieldValue;
use paris_layer::Layer;
use paris_model::Refusal;
use paris_plane::Plane;
use std::alloc::{AllocError, Global};

/// What arrives in each processor, and in which processors something does.
#[derive(Debug, Drop)]
pub struct Delivery {
    pub value: FieldValue,
    pub receivers: Layer,
}

/// Numbers that arrive, and in which processors one does.
#[derive(Debug, Drop)]
struct Arrivals<T> {
    numbers: Vec<T>,
    receivers: Plane,
}

/// Puts the number of the first sender to each processor, and marks the processors to which one sends, and to which more than one do.
fn deliver<T: Copy>(
    addresses: &[usize],
    numbers: &[T],
    selected: &Layer,
    values: &mut [T],
    receivers: &mut Plane,
    crowded: &mut Plane,
)
    requires numbers { length numbers.now ≡ length addresses.now }
    requires selected { length selected.now ≡ length addresses.now }
    requires within { All (λ r. r < length values.old) addresses.now }
    requires none { receivers.old ≡ replicate (length values.old) false }
    requires alone { crowded.old ≡ replicate (length values.old) false }
    ensures values { (zero : T) → values.old ≡ replicate (length values.old) zero → values.new ≡ first_numbers (length values.old) numbers.now zero (senders addresses.now selected.now) }
    ensures receivers { receivers.new ≡ receivers_of (length values.old) (senders addresses.now selected.now) }
    ensures crowded { crowded.new ≡ crowded_in (length values.old) (senders addresses.now selected.now) }
{
    for p in 0..addresses.len() {
        if selected.get(p) {
            let receiver = addresses[p];
            if receivers.get(receiver) {
                crowded.set(receiver, true);
            } else {
                receivers.set(receiver, true);
                values[receiver] = numbers[p];
            }
        }
    }
}

/// The least processor of a plane whose bit is 1.
fn first_one(plane: &Plane) -> Option<usize>
    ensures value { result ≡ find (has plane.now) (numbers_below (length plane.now)) }
    ensures within { IfSome result (λ v. v < length plane.now) }
{
    (0..plane.len()).find(|v| plane.get(*v))
}

/// The number of the first sender to each processor, where `zeros` has what stands where none arrives. Refused with the least processor at
/// which two numbers meet, if there is one.
fn first_arrivals<T: Copy>(
    alloc: Global,
    addresses: &[usize],
    numbers: &[T],
    selected: &Layer,
    zeros: Vec<T>,
) -> Result<Result<Arrivals<T>, Refusal>, AllocError>
    requires few { length addresses.now ≤ MAX_PROCESSORS }
    requires numbers { length numbers.now ≡ length addresses.now }
    requires selected { length selected.now ≡ length addresses.now }
    requires zeros { length zeros.items ≡ length addresses.now }
    requires within { All (λ r. r < length addresses.now) addresses.now }
    ensures refused { IfOk result (λ sent. refusal_of sent ≡ first_cause None (collision_at (length addresses.now) (senders addresses.now selected.now))) }
    ensures numbers { IfOk result (λ sent. IfOk sent (λ arrived. (zero : T) → zeros.items ≡ replicate (length addresses.now) zero → arrived.numbers.items ≡ first_numbers (length addresses.now) numbers.now zero (senders addresses.now selected.now))) }
    ensures receivers { IfOk result (λ sent. IfOk sent (λ arrived. arrived.receivers ≡ receivers_of (length addresses.now) (senders addresses.now selected.now))) }
{
    let mut values = zeros;
    let mut receivers = Plane::zeros(alloc, addresses.len())?;
    let mut crowded = Plane::zeros(alloc, addresses.len())?;
    deliver(
        addresses,
        numbers,
        selected,
        &mut values,
        &mut receivers,
        &mut crowded,
    );
    match first_one(&crowded) {
        Some(r) => Ok(Err(Refusal::Collision(r as u32))),
        None => {
            let numbers = values;
            Ok(Ok(Arrivals { numbers, receivers }))
        }
    }
}

/// The first word that comes to each processor, and to which one comes, and more than one.
#[derive(Drop)]
struct Firsts {
    words: Vec<u64>,
    receivers: Plane,
    crowded: Plane,
}

impl Inbox for Firsts {
    ghost count = { λ firsts. length firsts.words.items };

    ghost IsWhole = { λ firsts. (length firsts.receivers ≡ length firsts.words.items) × (length firsts.crowded ≡ length firsts.words.items) };

    ghost HasHad = { λ start mail now. HasCome (length start.words.items) mail now.words.items now.receivers now.crowded };

    fn len(&self) -> usize {
        self.words.len()
    }

    fn accept(&mut self, place: usize, word: u64) {
        if self.receivers.get(place) {
            self.crowded.set(place, true);
        } else {
            self.receivers.set(place, true);
            self.words[place] = word;
        }
    }
}

/// What `send` makes of up to 64 bits, where addresses have up to 64 bits too.
fn send_words(
    alloc: Global,
    addresses: &FieldValue,
    x: &FieldValue,
    selected: &Layer,
    bits: u64,
) -> Result<Result<Delivery, Refusal>, AllocError>
    requires few { length x.now.numbers ≤ MAX_PROCESSORS }
    requires narrow { bits ≤ 64 }
    requires x_width { bits ≤ x.now.width }
    requires address_width { addresses.now.width ≤ 64 }
    requires addresses { length addresses.now.numbers ≡ length x.now.numbers }
    requires selected { length selected.now ≡ length x.now.numbers }
    ensures refused { IfOk result (λ sent. refusal_of sent ≡ first_cause (bad_sender_of addresses.now selected.now) (collision_at (length x.now.numbers) (mail_in bits addresses.now x.now selected.now))) }
    ensures value { IfOk result (λ sent. IfOk sent (λ delivery. delivery.value ≡ delivered_field bits (length x.now.numbers) (mail_in bits addresses.now x.now selected.now))) }
    ensures receivers { IfOk result (λ sent. IfOk sent (λ delivery. delivery.receivers ≡ receivers_of (length x.now.numbers) (mail_in bits addresses.now x.now selected.now))) }
{
    let vps = x.len();
    let words = Vec::from_elem(alloc, 0u64, vps)?;
    let receivers = Plane::zeros(alloc, vps)?;
    let crowded = Plane::zeros(alloc, vps)?;
    let mut firsts = Firsts {
        words,
        receivers,
        crowded,
    };
    if let Some(v) = deliver_mail(addresses, x, selected, bits, &mut firsts) {
        return Ok(Err(Refusal::BadAddress(v as u32)));
    }
    if let Some(r) = first_one(&firsts.crowded) {
        return Ok(Err(Refusal::Collision(r as u32)));
    }
    let value = FieldValue::from_words(alloc, bits, &firsts.words)?;
    let receivers = Layer::from_plane(firsts.receivers);
    Ok(Ok(Delivery { value, receivers }))
}

/// What each processor gets of the low `bits` bits of `x`, up to 128.
fn send_numbers(
    alloc: Global,
    addresses: &[usize],
    x: &FieldValue,
    selected: &Layer,
    bits: u64,
) -> Result<Result<Delivery, Refusal>, AllocError>
    requires few { length x.now.numbers ≤ MAX_PROCESSORS }
    requires narrow { bits ≤ 128 }
    requires addresses { length addresses.now ≡ length x.now.numbers }
    requires selected { length selected.now ≡ length x.now.numbers }
    requires within { All (λ r. r < length x.now.numbers) addresses.now }
    ensures refused { IfOk result (λ sent. refusal_of sent ≡ first_cause None (collision_at (length x.now.numbers) (mail_to bits addresses.now x.now selected.now))) }
    ensures value { IfOk result (λ sent. IfOk sent (λ delivery. delivery.value ≡ delivered_field bits (length x.now.numbers) (mail_to bits addresses.now x.now selected.now))) }
    ensures receivers { IfOk result (λ sent. IfOk sent (λ delivery. delivery.receivers ≡ receivers_of (length x.now.numbers) (mail_to bits addresses.now x.now selected.now))) }
{
    let numbers = low_numbers(x, bits)?;
    let zeros = Vec::from_elem(alloc, 0u128, x.len())?;
    let arrived = match first_arrivals(alloc, addresses, &numbers, selected, zeros)? {
        Ok(arrived) => arrived,
        Err(refusal) => return Ok(Err(refusal)),
    };
    let value = FieldValue::from_numbers(alloc, bits, &arrived.numbers)?;
    let receivers = Layer::from_plane(arrived.receivers);
    Ok(Ok(Delivery { value, receivers }))
}

/// The low `bits` bits of `x` that each processor gets, where each selected processor sends its own to the address that it holds, and 0
/// where none arrives. Refused with the least selected processor whose address is outside the set, or else with the least processor at
/// which two messages meet, if there is one.
pub fn send(
    alloc: Global,
    addresses: &FieldValue,
    x: &FieldValue,
    selected: &Layer,
    bits: u64,
) -> Result<Result<Delivery, Refusal>, AllocError>
    requires few { length x.now.numbers ≤ MAX_PROCESSORS }
    requires narrow { bits ≤ 128 }
    requires x_width { bits ≤ x.now.width }
    requires addresses { length addresses.now.numbers ≡ length x.now.numbers }
    requires selected { length selected.now ≡ length x.now.numbers }
    ensures refused { IfOk result (λ sent. refusal_of sent ≡ first_cause (bad_sender_of addresses.now selected.now) (collision_at (length x.now.numbers) (mail_in bits addresses.now x.now selected.now))) }
    ensures value { IfOk result (λ sent. IfOk sent (λ delivery. delivery.value ≡ delivered_field bits (length x.now.numbers) (mail_in bits addresses.now x.now selected.now))) }
    ensures receivers { IfOk result (λ sent. IfOk sent (λ delivery. delivery.receivers ≡ receivers_of (length x.now.numbers) (mail_in bits addresses.now x.now selected.now))) }
{
    if bits <= 64 && addresses.width() <= 64 {
        let sent = send_words(alloc, addresses, x, selected, bits)?;
        return Ok(sent);
    }
    let list = match checked_addresses(alloc, addresses, selected)? {
        Ok(list) => list,
        Err(refusal) => return Ok(Err(refusal)),
    };
    let sent = send_numbers(alloc, &list, x, selected, bits)?;
    Ok(sent)
}
