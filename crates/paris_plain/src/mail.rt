//! Moves by send address.

ghost use Rattle.std.specs.Prelude.{◌≡◌, ◌==◌, ◌<◌, ◌≤◌, ◌^◌, All, length, slice_index, IfOk, IfSome};
ghost use Rattle.paris_geometry.specs.Geometry.{processor_count};
ghost use Rattle.paris_model.specs.Combine.{combined};
ghost use Rattle.paris_plain.specs.Narrow.{IsNarrow};
ghost use Rattle.paris_model.specs.Frame.{field_at, is_selected, low_at, put_selected, put_where};
ghost use Rattle.paris_model.specs.Mail.{arrivals, bad_sender_in, collision_at, delivered, first_cause, gets_mail, mail_after, mail_of, mail_refusal, notified};
ghost use Rattle.paris_plain.specs.Plain.{frame_of_seen};
ghost use Rattle.paris_names.specs.declared.limits.TheConstants.{MAX_PROCESSORS, MAX_WIDTH_OF_ONE};

use crate::bits::bit;
use crate::combine::combine;
use crate::inputs::Inputs;
use paris_model::{Action, Combiner, Mail, Operand, Refusal};
use paris_names::{FieldNo, Key};
use std::alloc::{AllocError, Global};

/// The messages of an instruction, by sender: address and value.
fn messages(
    alloc: Global,
    inputs: &Inputs,
    addresses: Operand,
    from: Operand,
    length: u64,
) -> Result<Vec<(u128, u128)>, AllocError>
    requires { length ≤ MAX_WIDTH_OF_ONE }
    ensures { IfOk result (λ mail. mail.items ≡ mail_of (frame_of_seen inputs.now) addresses from length) }
{
    (0..inputs.vps())
        .filter(|p| inputs.is_selected(*p))
        .map(|p| (
            inputs.field_at(addresses, p),
            inputs.low_at(from, length, p),
        ))
        .collect(alloc)
}

/// How many messages arrive at a processor.
fn arrival_count(mail: &[(u128, u128)], r: usize) -> usize
    ensures { result ≡ length (arrivals mail.now r) }
{
    mail.iter().filter(|message| message.0 == r as u128).count()
}

/// The value of the first message that arrives at a processor, and 0 where none does.
fn first_arrival(mail: &[(u128, u128)], r: usize) -> u128
    ensures { result ≡ slice_index (arrivals mail.now r) 0 }
{
    for message in mail {
        if message.0 == r as u128 {
            return message.1;
        }
    }
    0
}

/// A processor's own number, combined with the values that arrive there.
#[tactic(auto, using(crate::proofs::Post::posted))]
fn combined_arrivals(
    combiner: Combiner,
    length: u64,
    own: u128,
    mail: &[(u128, u128)],
    r: usize,
) -> u128
    requires narrow { length ≤ MAX_WIDTH_OF_ONE }
    requires own_fits { own < 2 ^ length }
    requires mail_fits { All (λ message. message.1 < 2 ^ length) mail.now }
    ensures { result ≡ combined combiner length own (arrivals mail.now r) }
{
    let mut total = own;
    for message in mail {
        if message.0 == r as u128 {
            total = combine(combiner, length, total, message.1);
        }
    }
    total
}

/// The least selected processor that holds an address outside the set.
fn bad_sender(inputs: &Inputs, addresses: Operand) -> Option<usize>
    ensures value { result ≡ bad_sender_in (frame_of_seen inputs.now) addresses }
    ensures small { IfSome result (λ v. v ≤ MAX_PROCESSORS) }
{
    let count = inputs.vps();
    (0..count).find(|v| inputs.is_selected(*v) && inputs.field_at(addresses, *v) >= count as u128)
}

/// The least processor at which two messages meet.
fn collision(count: usize, mail: &[(u128, u128)]) -> Option<usize>
    ensures value { result ≡ collision_at count mail.now }
    ensures below { IfSome result (λ r. r < count) }
{
    (0..count).find(|r| arrival_count(mail, *r) > 1)
}

/// 1 where mail arrives, and 0 elsewhere.
fn notified(alloc: Global, count: usize, mail: &[(u128, u128)]) -> Result<Vec<u128>, AllocError>
    ensures { IfOk result (λ numbers. numbers.items ≡ notified count mail.now) }
{
    (0..count)
        .map(|r| bit(arrival_count(mail, r) > 0))
        .collect(alloc)
}

/// The cause of a refusal: a bad address comes before a collision.
fn first_cause(bad_sender: Option<usize>, collision: Option<usize>) -> Option<Refusal>
    requires sender_small { IfSome bad_sender (λ v. v ≤ MAX_PROCESSORS) }
    requires collision_small { IfSome collision (λ r. r ≤ MAX_PROCESSORS) }
    ensures { result ≡ first_cause bad_sender collision }
{
    match bad_sender {
        Some(v) => Some(Refusal::BadAddress(v as u32)),
        None => match collision {
            Some(r) => Some(Refusal::Collision(r as u32)),
            None => None,
        },
    }
}

/// Why a move by send address is refused, if it is. The only error is want of memory.
pub fn mail_refusal(
    alloc: Global,
    inputs: &Inputs,
    i: &Mail<Operand>,
) -> Result<Option<Refusal>, AllocError>
    requires { IsNarrow inputs.now.axes (Action.ByMail i.now) }
    ensures { IfOk result (λ cause. cause ≡ mail_refusal (frame_of_seen inputs.now) i.now) }
{
    match i {
        Mail::Get { addresses, .. } => Ok(first_cause(bad_sender(inputs, *addresses), None)),
        Mail::Send {
            to: _,
            addresses,
            from,
            length,
            notify: _,
        } => {
            let mail = messages(alloc, inputs, *addresses, *from, *length)?;
            let collision = collision(inputs.vps(), mail.as_slice());
            Ok(first_cause(bad_sender(inputs, *addresses), collision))
        }
        Mail::CombiningSend { addresses, .. } => {
            Ok(first_cause(bad_sender(inputs, *addresses), None))
        }
    }
}

/// The numbers at a key after the selected processors have stored the values at the addresses that they hold.
fn got(
    alloc: Global,
    inputs: &Inputs,
    key: &Key,
    addresses: Operand,
    from: Operand,
    length: u64,
) -> Result<Vec<u128>, AllocError>
    requires { length ≤ MAX_WIDTH_OF_ONE }
    ensures { IfOk result (λ numbers. numbers.items ≡ put_selected (frame_of_seen inputs.now) key.now length (λ v. low_at (frame_of_seen inputs.now) from length (field_at (frame_of_seen inputs.now) addresses v))) }
{
    (0..inputs.vps())
        .map(|v| {
            let new = inputs.low_at_address(from, length, inputs.field_at(addresses, v));
            inputs.selected_at(key, length, new, v)
        })
        .collect(alloc)
}

/// The numbers at a key after each processor at which mail arrives has stored the first value.
fn first_stored(
    alloc: Global,
    inputs: &Inputs,
    key: &Key,
    mail: &[(u128, u128)],
    length: u64,
) -> Result<Vec<u128>, AllocError>
    requires { length ≤ MAX_WIDTH_OF_ONE }
    ensures { IfOk result (λ numbers. numbers.items ≡ put_where (frame_of_seen inputs.now) (gets_mail mail.now) key.now length (λ r. slice_index (arrivals mail.now r) 0)) }
{
    (0..inputs.vps())
        .map(|r| {
            let arrives = arrival_count(mail, r) > 0;
            inputs.stored_at(key, arrives, length, first_arrival(mail, r), r)
        })
        .collect(alloc)
}

/// The numbers at a key after each processor at which mail arrives has combined its own number with the values.
fn combined_stored(
    alloc: Global,
    inputs: &Inputs,
    key: &Key,
    mail: &[(u128, u128)],
    combiner: Combiner,
    to: Operand,
    length: u64,
) -> Result<Vec<u128>, AllocError>
    requires narrow { length ≤ MAX_WIDTH_OF_ONE }
    requires mail_fits { All (λ message. message.1 < 2 ^ length) mail.now }
    ensures { IfOk result (λ numbers. numbers.items ≡ put_where (frame_of_seen inputs.now) (gets_mail mail.now) key.now length (λ r. combined combiner length (low_at (frame_of_seen inputs.now) to length r) (arrivals mail.now r))) }
{
    (0..inputs.vps())
        .map(|r| {
            let arrives = arrival_count(mail, r) > 0;
            let own = inputs.low_at(to, length, r);
            let new = combined_arrivals(combiner, length, own, mail, r);
            inputs.stored_at(key, arrives, length, new, r)
        })
        .collect(alloc)
}

/// The numbers at a field after a send of messages.
fn send_after(
    alloc: Global,
    inputs: &Inputs,
    field: FieldNo,
    mail: &[(u128, u128)],
    to: Operand,
    length: u64,
) -> Result<Vec<u128>, AllocError>
    requires { length ≤ MAX_WIDTH_OF_ONE }
    ensures { IfOk result (λ numbers. numbers.items ≡ delivered (frame_of_seen inputs.now) mail.now to length (λ r. slice_index (arrivals mail.now r) 0) field) }
{
    if field.number() == to.field.number() {
        first_stored(alloc, inputs, &Key::Field(field), mail, length)
    } else {
        notified(alloc, inputs.vps(), mail)
    }
}

/// The numbers at a field after a combining send of messages.
fn combining_send_after(
    alloc: Global,
    inputs: &Inputs,
    field: FieldNo,
    mail: &[(u128, u128)],
    combiner: Combiner,
    to: Operand,
    length: u64,
) -> Result<Vec<u128>, AllocError>
    requires narrow { length ≤ MAX_WIDTH_OF_ONE }
    requires mail_fits { All (λ message. message.1 < 2 ^ length) mail.now }
    ensures { IfOk result (λ numbers. numbers.items ≡ delivered (frame_of_seen inputs.now) mail.now to length (λ r. combined combiner length (low_at (frame_of_seen inputs.now) to length r) (arrivals mail.now r)) field) }
{
    if field.number() == to.field.number() {
        combined_stored(
            alloc,
            inputs,
            &Key::Field(field),
            mail,
            combiner,
            to,
            length,
        )
    } else {
        notified(alloc, inputs.vps(), mail)
    }
}

/// The numbers, by processor, that a move by send address leaves at a key, where it isn't refused. Its only error is want
/// of memory.
pub fn mail_after(
    alloc: Global,
    inputs: &Inputs,
    i: &Mail<Operand>,
    key: &Key,
) -> Result<Vec<u128>, AllocError>
    requires { IsNarrow inputs.now.axes (Action.ByMail i.now) }
    ensures { IfOk result (λ numbers. numbers.items ≡ mail_after (frame_of_seen inputs.now) i.now key.now) }
{
    let field = match *key {
        Key::Field(field) => field,
        Key::Flag(_, _) => return inputs.copied(alloc, key),
    };
    match *i {
        Mail::Get {
            to: _,
            addresses,
            from,
            length,
        } => got(alloc, inputs, key, addresses, from, length),
        Mail::Send {
            to,
            addresses,
            from,
            length,
            notify: _,
        } => {
            let mail = messages(alloc, inputs, addresses, from, length)?;
            send_after(alloc, inputs, field, mail.as_slice(), to, length)
        }
        Mail::CombiningSend {
            combiner,
            to,
            addresses,
            from,
            length,
            notify: _,
        } => {
            let mail = messages(alloc, inputs, addresses, from, length)?;
            combining_send_after(alloc, inputs, field, mail.as_slice(), combiner, to, length)
        }
    }
}
