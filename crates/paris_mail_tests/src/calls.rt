//! Gets, sends and combining sends of fields.

ghost use Rattle.std.specs.Prelude.{◌≤◌};

use crate::cases::Sample;
use paris_combine::send_with;
use paris_field::FieldValue;
use paris_model::{Combiner, Refusal};
use paris_router::{Delivery, get, send};
use std::alloc::{AllocError, Global};
use std::process::Abort;

/// How processors move numbers by send address.
#[derive(Clone, Copy, Debug)]
pub(crate) enum Call {
    Get,
    Send,
    SendWith(Combiner),
}

/// What stands at the destination and, after a send, in the notify field, or why a call is refused.
pub(crate) type Outcome = Result<(Vec<u128>, Vec<u128>), Refusal>;

/// What a call gives of the low `bits` bits, and which processors store it.
fn delivery(
    alloc: Global,
    sample: &Sample,
    call: Call,
    bits: u64,
) -> Result<Result<Delivery, Refusal>, AllocError>
    requires narrow { bits ≤ 128 }
    requires within { bits ≤ sample.now.x.width }
{
    let Sample {
        selected,
        addresses,
        x,
        old,
        ..
    } = sample;
    match call {
        Call::Get => {
            let value = match get(alloc, addresses, x, selected, bits)? {
                Ok(value) => value,
                Err(refusal) => return Ok(Err(refusal)),
            };
            let receivers = selected.copy()?;
            Ok(Ok(Delivery { value, receivers }))
        }
        Call::Send => send(alloc, addresses, x, selected, bits),
        Call::SendWith(operator) => {
            send_with(alloc, operator, addresses, x, old, selected, bits)
        }
    }
}

/// What a call leaves of a sample.
pub(crate) fn made(
    rt: &impl Abort,
    alloc: Global,
    sample: &Sample,
    call: Call,
    bits: u64,
) -> Result<Outcome, AllocError> {
    assert!(rt; bits <= sample.x.width());
    let Delivery { value, receivers } = match delivery(alloc, sample, call, bits)? {
        Ok(delivery) => delivery,
        Err(refusal) => return Ok(Err(refusal)),
    };
    let mut destination = sample.old.copy()?;
    assert!(rt; value.len() == sample.x.len() && receivers.len() == sample.x.len());
    assert_eq!(rt; value.width(), bits);
    destination.merge_in(&receivers, value.planes(), bits)?;
    let notify = match call {
        Call::Get => Vec::new(alloc),
        Call::Send | Call::SendWith(_) => FieldValue::from_layer(alloc, receivers)?.numbers()?,
    };
    Ok(Ok((destination.numbers()?, notify)))
}
