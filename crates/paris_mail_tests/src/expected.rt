//! Gets, sends and combining sends by a loop over the numbers of the processors.

use crate::calls::{Call, Outcome};
use crate::cases::Lists;
use paris_model::{Combiner, Refusal};
use std::alloc::{AllocError, Global};
use std::process::Abort;

/// What is stored where y stands and x arrives, both of the bits of `low`.
fn met(call: Call, low: u128, y: u128, x: u128) -> u128 {
    match call {
        Call::Get | Call::Send => x,
        Call::SendWith(Combiner::Sum) => y.wrapping_add(x) & low,
        Call::SendWith(Combiner::BitOr) => y | x,
        Call::SendWith(Combiner::BitAnd) => y & x,
        Call::SendWith(Combiner::BitXor) => y ^ x,
        Call::SendWith(Combiner::Maximum) => y.max(x),
        Call::SendWith(Combiner::Minimum) => y.min(x),
    }
}

/// What a call is to leave of these lists, by the order of the processors that move a number.
pub(crate) fn expected(
    rt: &impl Abort,
    alloc: Global,
    lists: &Lists,
    call: Call,
    bits: u64,
) -> Result<Outcome, AllocError> {
    assert!(rt; 0 < bits && bits <= 128);
    let low = u128::MAX >> (128 - bits);
    let count = lists.numbers.len();
    assert!(rt; count <= 65_536 && lists.old.len() == count);
    assert!(rt; lists.context.len() == count && lists.addresses.len() == count);
    let mut destination = lists.old.clone()?;
    let mut arrived = Vec::from_elem(alloc, 0u128, count)?;
    let mut crowd = count;
    for v in 0..count {
        if lists.context[v] == 0 {
            continue;
        }
        if lists.addresses[v] >= count as u128 {
            return Ok(Err(Refusal::BadAddress(v as u32)));
        }
        let there = lists.addresses[v] as usize;
        let (from, to) = match call {
            Call::Get => (there, v),
            Call::Send | Call::SendWith(_) => (v, there),
        };
        let old = destination[to];
        let new = met(call, low, old & low, lists.numbers[from] & low);
        destination[to] = (old & !low) | new;
        if arrived[to] == 1 {
            crowd = crowd.min(to);
        }
        arrived[to] = 1;
    }
    match call {
        Call::Send if crowd < count => Ok(Err(Refusal::Collision(crowd as u32))),
        Call::Get => Ok(Ok((destination, Vec::new(alloc)))),
        Call::Send | Call::SendWith(_) => Ok(Ok((destination, arrived))),
    }
}
