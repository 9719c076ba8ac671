//! Messages between processors, by sender: the receiver and the value.

ghost use Rattle.std.specs.Prelude.{◌≡◌, ◌<◌, ◌≤◌, ◌^◌, All, IfOk, None, length, slice_index};
ghost use Rattle.paris_model.specs.Mail.{first_cause, messages};
ghost use Rattle.paris_names.specs.declared.limits.TheConstants.{MAX_PROCESSORS};
ghost use Rattle.paris_field.specs.Numbers.{has};
ghost use Rattle.paris_router.specs.Mail.{bad_sender_of, mail_in, receivers_of, refusal_of};

use crate::addresses::checked_addresses;
use crate::numbers::low_numbers;
use paris_field::FieldValue;
use paris_layer::Layer;
use paris_model::Refusal;
use paris_plane::Plane;
use std::alloc::{AllocError, Global};

/// The messages of the selected processors, which send numbers to addresses.
fn messages(
    alloc: Global,
    addresses: &[usize],
    numbers: &[u128],
    selected: &Layer,
) -> Result<Vec<(usize, u128)>, AllocError>
    requires numbers { length numbers.now ≡ length addresses.now }
    requires selected { length selected.now ≡ length addresses.now }
    ensures { IfOk result (λ mail. mail.items ≡ messages (length addresses.now) (has selected.now) (slice_index addresses.now) (slice_index numbers.now)) }
{
    let mut mail = Vec::with_capacity(alloc, addresses.len())?;
    for p in 0..addresses.len() {
        if selected.get(p) {
            mail.push((addresses[p], numbers[p]))?;
        }
    }
    Ok(mail)
}

/// The messages of the selected processors, each of which sends the low `bits` bits of `x` to the address that it holds. Refused with the
/// least selected processor whose address is outside the set, if there is one.
pub fn checked_mail(
    alloc: Global,
    addresses: &FieldValue,
    x: &FieldValue,
    selected: &Layer,
    bits: u64,
) -> Result<Result<Vec<(usize, u128)>, Refusal>, AllocError>
    requires few { length x.now.numbers ≤ MAX_PROCESSORS }
    requires narrow { bits ≤ 128 }
    requires addresses { length addresses.now.numbers ≡ length x.now.numbers }
    requires selected { length selected.now ≡ length x.now.numbers }
    ensures refused { IfOk result (λ checked. refusal_of checked ≡ first_cause (bad_sender_of addresses.now selected.now) None) }
    ensures value { IfOk result (λ checked. IfOk checked (λ mail. mail.items ≡ mail_in bits addresses.now x.now selected.now)) }
    ensures within { IfOk result (λ checked. IfOk checked (λ mail. All (λ message. message.0 < length x.now.numbers) mail.items)) }
    ensures fit { IfOk result (λ checked. IfOk checked (λ mail. All (λ message. message.1 < 2 ^ bits) mail.items)) }
{
    let list = match checked_addresses(alloc, addresses, selected)? {
        Ok(list) => list,
        Err(refusal) => return Ok(Err(refusal)),
    };
    let numbers = low_numbers(x, bits)?;
    let mail = messages(alloc, &list, &numbers, selected)?;
    Ok(Ok(mail))
}

/// In which of `count` processors mail arrives.
pub fn receivers(alloc: Global, mail: &[(usize, u128)], count: usize) -> Result<Layer, AllocError>
    requires within { All (λ message. message.0 < count) mail.now }
    ensures { IfOk result (λ plane. plane ≡ receivers_of count mail.now) }
{
    let mut plane = Plane::zeros(alloc, count)?;
    for message in mail {
        plane.set(message.0, true);
    }
    Ok(Layer::from_plane(plane))
}
