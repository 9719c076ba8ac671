//! Worked rows of numbers, for four processors.

use crate::operations::{Operation, outcome_of};
use paris_model::Sign;
use std::test::Fail;

/// A row of numbers, and what is to come of it.
struct Row {
    operation: Operation,
    bits: u64,
    x: [u128; 4],
    y: [u128; 4],
    value: [u128; 4],
    overflow: [u128; 4],
}

const UNSIGNED: Operation = Operation::Multiply(Sign::Unsigned);

const SIGNED: Operation = Operation::Multiply(Sign::Signed);

const WORD: u128 = 0xFFFF_FFFF_FFFF_FFFF;

const WORD_TOP: u128 = 1 << 63;

const MOST: u128 = u128::MAX;

const TOP: u128 = 1 << 127;

const ROWS: &[Row] = &[
    Row {
        operation: UNSIGNED,
        bits: 8,
        x: [16, 255, 2, 0],
        y: [16, 255, 100, 9],
        value: [0, 1, 200, 0],
        overflow: [1, 1, 0, 0],
    },
    Row {
        operation: SIGNED,
        bits: 8,
        x: [16, 255, 2, 0],
        y: [16, 255, 100, 9],
        value: [0, 1, 200, 0],
        overflow: [1, 0, 1, 0],
    },
    Row {
        operation: SIGNED,
        bits: 8,
        x: [128, 128, 254, 16],
        y: [1, 255, 64, 8],
        value: [128, 128, 128, 128],
        overflow: [0, 1, 0, 1],
    },
    Row {
        operation: UNSIGNED,
        bits: 1,
        x: [0, 0, 1, 1],
        y: [0, 1, 0, 1],
        value: [0, 0, 0, 1],
        overflow: [0, 0, 0, 0],
    },
    Row {
        operation: SIGNED,
        bits: 1,
        x: [0, 0, 1, 1],
        y: [0, 1, 0, 1],
        value: [0, 0, 0, 1],
        overflow: [0, 0, 0, 1],
    },
    Row {
        operation: UNSIGNED,
        bits: 64,
        x: [WORD, 1 << 32, WORD_TOP, WORD],
        y: [WORD, 1 << 32, 1, 0],
        value: [1, 0, WORD_TOP, 0],
        overflow: [1, 1, 0, 0],
    },
    Row {
        operation: SIGNED,
        bits: 64,
        x: [WORD, 1 << 32, WORD_TOP, WORD_TOP],
        y: [WORD, 1 << 31, WORD, 1],
        value: [1, WORD_TOP, WORD_TOP, WORD_TOP],
        overflow: [0, 1, 1, 0],
    },
    Row {
        operation: UNSIGNED,
        bits: 128,
        x: [TOP, MOST, WORD, 1 << 64],
        y: [TOP, MOST, WORD, WORD],
        value: [
            0,
            1,
            0xFFFF_FFFF_FFFF_FFFE_0000_0000_0000_0001,
            0xFFFF_FFFF_FFFF_FFFF_0000_0000_0000_0000,
        ],
        overflow: [1, 1, 0, 0],
    },
    Row {
        operation: SIGNED,
        bits: 128,
        x: [TOP, MOST, TOP, TOP],
        y: [TOP, MOST, MOST, 1],
        value: [0, 1, TOP, TOP],
        overflow: [1, 0, 1, 0],
    },
    Row {
        operation: Operation::Truncate,
        bits: 8,
        x: [7, 200, 255, 0],
        y: [2, 0, 255, 3],
        value: [3, 0, 1, 0],
        overflow: [0, 1, 0, 0],
    },
    Row {
        operation: Operation::Remainder,
        bits: 8,
        x: [7, 200, 255, 5],
        y: [2, 0, 255, 7],
        value: [1, 0, 0, 5],
        overflow: [0, 1, 0, 0],
    },
    Row {
        operation: Operation::Truncate,
        bits: 128,
        x: [MOST, MOST, TOP, WORD],
        y: [2, 0, 1 << 64, MOST],
        value: [TOP - 1, 0, WORD_TOP, 0],
        overflow: [0, 1, 0, 0],
    },
    Row {
        operation: Operation::Remainder,
        bits: 128,
        x: [MOST, MOST, TOP, WORD],
        y: [2, 0, WORD, MOST],
        value: [1, 0, WORD_TOP, WORD],
        overflow: [0, 1, 0, 0],
    },
];

#[test]
fn rows_have_these_values(rt: HostRuntime) -> Result<(), Fail> {
    for row in ROWS {
        assert!(rt; 0 < row.bits && row.bits <= 128);
        let made = outcome_of(
            &rt,
            rt.alloc(),
            row.operation,
            128,
            row.bits,
            &row.x,
            &row.y,
        )?;
        assert_eq!(rt;
            made.values.as_slice(),
            row.value.as_slice(),
            "values at {} bits",
            row.bits
        );
        assert_eq!(rt;
            made.overflow.as_slice(),
            row.overflow.as_slice(),
            "overflow at {} bits",
            row.bits
        );
    }
    Ok(())
}
