//! Worked rows of numbers, for four processors.

use crate::beside::agrees;
use crate::calls::Call::{self, Get, Send, SendWith};
use crate::calls::{Outcome, made};
use crate::cases::{Lists, sample_with};
use paris_model::Combiner::{BitAnd, Sum};
use paris_model::Refusal::{self, BadAddress, Collision};
use std::test::Fail;

/// A call; which processors are selected, the addresses that they hold, their numbers, and what stands at the destination; and what is to
/// stand there and, after a send, in the notify field, or why the call is refused.
type Row = (Call, [[u128; 4]; 4], Result<[[u128; 4]; 2], Refusal>);

const ALL: [u128; 4] = [1, 1, 1, 1];

const SOME: [u128; 4] = [1, 1, 0, 1];

const OTHERS: [u128; 4] = [1, 0, 1, 1];

const RISE: [u128; 4] = [1, 2, 3, 4];

const ZEROS: [u128; 4] = [0, 0, 0, 0];

const TEN: [u128; 4] = [10, 0, 0, 0];

const TENS: [u128; 4] = [10, 20, 30, 40];

const GET: [[u128; 4]; 4] = [SOME, [3, 3, 0, 1], RISE, ZEROS];

const PAIR: [[u128; 4]; 4] = [ALL, [0, 0, 1, 2], RISE, TEN];

const LOGIC: [[u128; 4]; 4] = [ALL, [1, 1, 1, 3], [6, 12, 255, 7], [255, 14, 255, 3]];

const UNSELECTED: [[u128; 4]; 4] = [OTHERS, [2, 7, 3, 0], RISE, TENS];

const BOTH: [[u128; 4]; 4] = [OTHERS, [2, 7, 5, 4], RISE, TENS];

const BAD: [[u128; 4]; 4] = [ALL, [0, 0, 4, 1], RISE, TEN];

const ROWS: &[Row] = &[
    (Get, GET, Ok([[4, 4, 0, 2], ZEROS])),
    (Get, UNSELECTED, Ok([[3, 20, 4, 1], ZEROS])),
    (Get, BOTH, Err(BadAddress(2))),
    (Send, UNSELECTED, Ok([[4, 20, 1, 3], OTHERS])),
    (Send, PAIR, Err(Collision(0))),
    (Send, BAD, Err(BadAddress(2))),
    (Send, BOTH, Err(BadAddress(2))),
    (SendWith(Sum), PAIR, Ok([[13, 3, 4, 0], [1, 1, 1, 0]])),
    (SendWith(Sum), UNSELECTED, Ok([[14, 20, 31, 43], OTHERS])),
    (SendWith(Sum), BAD, Err(BadAddress(2))),
    (SendWith(Sum), BOTH, Err(BadAddress(2))),
    (
        SendWith(BitAnd),
        LOGIC,
        Ok([[255, 4, 255, 3], [0, 1, 0, 1]]),
    ),
];

#[test]
fn rows_leave_these_numbers(rt: HostRuntime) -> Result<(), Fail> {
    let alloc = rt.alloc();
    for (call, [context, addresses, numbers, old], wanted) in ROWS {
        let lists = Lists {
            context: Vec::from_slice(alloc, context)?,
            addresses: Vec::from_slice(alloc, addresses)?,
            numbers: Vec::from_slice(alloc, numbers)?,
            old: Vec::from_slice(alloc, old)?,
        };
        let sample = sample_with(&rt, alloc, 8, lists)?;
        let outcome = made(&rt, alloc, &sample, *call, 8)?;
        let wanted: Outcome = match wanted {
            Ok([left, _]) if matches!(call, Get) => {
                Ok((Vec::from_slice(alloc, left)?, Vec::new(alloc)))
            }
            Ok([left, notify]) => Ok((
                Vec::from_slice(alloc, left)?,
                Vec::from_slice(alloc, notify)?,
            )),
            Err(refusal) => Err(*refusal),
        };
        agrees(&rt, *call, &outcome, &wanted);
    }
    Ok(())
}
