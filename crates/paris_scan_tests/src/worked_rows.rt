//! Worked rows of numbers, for four processors in a line.

use crate::beside::check;
use crate::calls::Call::{self, CopyScan, CopySpread, Reduce, Scan, Spread};
use crate::calls::Case;
use crate::cases::sample_with;
use paris_geometry::Direction::{Downward, Upward};
use paris_model::Combiner::{self, BitOr, Maximum, Minimum, Sum};
use paris_model::Inclusion::{Exclusive, Inclusive};
use std::test::Fail;

/// A call, its operator and the coordinate; which processors are selected, where segments begin, the numbers, what is to stand at the
/// destination where zeros stood, and where a sum overflows.
type Row = (Call, Combiner, u64, [[u128; 4]; 5]);

const UP: Call = Scan(Upward, Inclusive);

const DOWN: Call = Scan(Downward, Inclusive);

const BEFORE: Call = Scan(Upward, Exclusive);

const COPY: Call = CopyScan(Upward);

const OFF: [u128; 4] = [0, 0, 0, 0];

const ALL: [u128; 4] = [1, 1, 1, 1];

const SOME: [u128; 4] = [1, 0, 1, 1];

const INNER: [u128; 4] = [0, 1, 1, 0];

const SECOND: [u128; 4] = [0, 1, 0, 0];

const THIRD: [u128; 4] = [0, 0, 1, 0];

const LATER: [u128; 4] = [0, 1, 1, 1];

const RISE: [u128; 4] = [1, 2, 3, 4];

const FALL: [u128; 4] = [9, 8, 7, 6];

const NINE: [u128; 4] = [9, 2, 3, 4];

const BIG: [u128; 4] = [200, 100, 1, 2];

const ROWS: &[Row] = &[
    (UP, Sum, 0, [SOME, OFF, RISE, [1, 0, 4, 8], OFF]),
    (UP, Sum, 0, [ALL, THIRD, RISE, [1, 3, 3, 7], OFF]),
    (DOWN, Sum, 0, [ALL, THIRD, RISE, [6, 5, 3, 4], OFF]),
    (BEFORE, Sum, 0, [ALL, THIRD, RISE, [0, 1, 0, 3], OFF]),
    (UP, Sum, 0, [ALL, OFF, BIG, [200, 44, 45, 47], LATER]),
    (BEFORE, Minimum, 0, [ALL, OFF, FALL, [255, 9, 8, 7], OFF]),
    (COPY, BitOr, 0, [SOME, SECOND, NINE, [9, 0, 3, 3], OFF]),
    (Spread, Sum, 0, [INNER, OFF, RISE, [0, 5, 5, 0], OFF]),
    (CopySpread, BitOr, 3, [INNER, OFF, RISE, [0, 4, 4, 0], OFF]),
    (Reduce, Maximum, 1, [INNER, OFF, RISE, [0, 3, 0, 0], OFF]),
    (Reduce, Maximum, 0, [INNER, OFF, RISE, OFF, OFF]),
];

#[test]
fn rows_leave_these_numbers(rt: HostRuntime) -> Result<(), Fail> {
    let alloc = rt.alloc();
    for (call, operator, place, lists) in ROWS {
        let [context, cuts, numbers, left, overflow] = lists;
        let numbers = Vec::from_slice(alloc, numbers)?;
        let context = Vec::from_slice(alloc, context)?;
        let cuts = Vec::from_slice(alloc, cuts)?;
        let sample = sample_with(&rt, alloc, &[4], 8, numbers, context, cuts)?;
        let case = Case {
            call: *call,
            operator: *operator,
            axis: 0,
            place: *place,
            bits: 8,
        };
        let made = check(&rt, alloc, &sample, &case)?;
        assert_eq!(rt; made.0.as_slice(), left.as_slice(), "{case:?}");
        assert_eq!(rt; made.1.as_slice(), overflow.as_slice(), "{case:?}");
    }
    Ok(())
}
