//! Worked rows of numbers, on fields of one processor, of some and of more than a vector of words.

ghost use Rattle.std.specs.Prelude.{◌≡◌, ◌<◌, ◌≤◌, IfOk, length};

use paris_alu::{
    BitOperator, Extremum, Overflowing, Sum, add, add_carry, compare, copy_low, extend, extreme,
    invert, logic, negate, subtract,
};
use paris_field::FieldValue;
use paris_layer::Layer;
use paris_model::{Comparison, Sign};
use std::alloc::{AllocError, Global};
use std::process::Abort;
use std::test::Fail;

/// How many processors there are.
const SIZES: &[usize] = &[1, 4, 65, 300];

/// What is done to two fields.
#[derive(Clone, Copy, Debug)]
enum Operation {
    Add(Sign),
    /// With a carried bit where the first is less.
    AddCarry,
    Subtract(Sign),
    Bitwise(BitOperator),
    Maximum(Sign),
    Minimum(Sign),
    Compare(Comparison),
    Negate,
    Invert,
    CopyLow,
    /// To four bits.
    Narrow(Sign),
    /// To eight bits.
    Widen(Sign),
}

/// What came of it.
#[derive(Drop)]
struct Outcome {
    value: FieldValue,
    carry: Option<Layer>,
    overflow: Option<Layer>,
}

impl From<Sum> for Outcome {
    fn from(sum: Sum) -> Self {
        Outcome {
            value: sum.value,
            carry: Some(sum.carry),
            overflow: Some(sum.overflow),
        }
    }
}

impl From<Overflowing> for Outcome {
    fn from(checked: Overflowing) -> Self {
        Outcome {
            value: checked.value,
            carry: None,
            overflow: Some(checked.overflow),
        }
    }
}

impl From<FieldValue> for Outcome {
    fn from(value: FieldValue) -> Self {
        Outcome {
            value,
            carry: None,
            overflow: None,
        }
    }
}

/// A row of numbers for four processors, which all others repeat, and what is to come of it.
struct Case {
    operation: Operation,
    length: u64,
    x: [u64; 4],
    y: [u64; 4],
    value: [u64; 4],
    carry: [u64; 4],
    overflow: [u64; 4],
}

const NONE: [u64; 4] = [0, 0, 0, 0];

const MOST: u64 = u64::MAX;

const LEAST: u64 = 1 << 63;

const CASES: &[Case] = &[
    Case {
        operation: Operation::Add(Sign::Unsigned),
        length: 8,
        x: [127, 128, 255, 0],
        y: [1, 255, 255, 0],
        value: [128, 127, 254, 0],
        carry: [0, 1, 1, 0],
        overflow: [0, 1, 1, 0],
    },
    Case {
        operation: Operation::Add(Sign::Signed),
        length: 8,
        x: [127, 128, 255, 0],
        y: [1, 255, 255, 0],
        value: [128, 127, 254, 0],
        carry: [0, 1, 1, 0],
        overflow: [1, 1, 0, 0],
    },
    Case {
        operation: Operation::Add(Sign::Signed),
        length: 1,
        x: [1, 1, 0, 0],
        y: [1, 0, 1, 0],
        value: [0, 1, 1, 0],
        carry: [1, 0, 0, 0],
        overflow: [1, 0, 0, 0],
    },
    Case {
        operation: Operation::Add(Sign::Signed),
        length: 64,
        x: [LEAST, MOST, LEAST - 1, 7],
        y: [LEAST, 1, 1, 8],
        value: [0, 0, LEAST, 15],
        carry: [1, 1, 0, 0],
        overflow: [1, 0, 1, 0],
    },
    Case {
        operation: Operation::AddCarry,
        length: 8,
        x: [255, 254, 0, 127],
        y: [0, 255, 0, 128],
        value: [255, 254, 0, 0],
        carry: [0, 1, 0, 1],
        overflow: [0, 1, 0, 1],
    },
    Case {
        operation: Operation::Subtract(Sign::Unsigned),
        length: 8,
        x: [5, 0, 255, 128],
        y: [6, 0, 1, 128],
        value: [255, 0, 254, 0],
        carry: [1, 0, 0, 0],
        overflow: [1, 0, 0, 0],
    },
    Case {
        operation: Operation::Subtract(Sign::Signed),
        length: 8,
        x: [128, 127, 5, 255],
        y: [1, 255, 6, 128],
        value: [127, 128, 255, 127],
        carry: [0, 1, 1, 0],
        overflow: [1, 1, 0, 0],
    },
    Case {
        operation: Operation::Subtract(Sign::Unsigned),
        length: 64,
        x: [0, MOST, 1, LEAST],
        y: [MOST, MOST, 2, 1],
        value: [1, 0, MOST, LEAST - 1],
        carry: [1, 0, 1, 0],
        overflow: [1, 0, 1, 0],
    },
    Case {
        operation: Operation::Bitwise(BitOperator::And),
        length: 4,
        x: [0b1100, 0b1010, 15, 0],
        y: [0b1010, 0b0101, 15, 9],
        value: [0b1000, 0, 15, 0],
        carry: NONE,
        overflow: NONE,
    },
    Case {
        operation: Operation::Bitwise(BitOperator::Or),
        length: 4,
        x: [0b1100, 0b1010, 15, 0],
        y: [0b1010, 0b0101, 15, 9],
        value: [0b1110, 15, 15, 9],
        carry: NONE,
        overflow: NONE,
    },
    Case {
        operation: Operation::Bitwise(BitOperator::Xor),
        length: 4,
        x: [0b1100, 0b1010, 15, 0],
        y: [0b1010, 0b0101, 15, 9],
        value: [0b0110, 15, 0, 9],
        carry: NONE,
        overflow: NONE,
    },
    Case {
        operation: Operation::Maximum(Sign::Unsigned),
        length: 8,
        x: [127, 128, 255, 3],
        y: [128, 127, 0, 3],
        value: [128, 128, 255, 3],
        carry: NONE,
        overflow: NONE,
    },
    Case {
        operation: Operation::Maximum(Sign::Signed),
        length: 8,
        x: [127, 128, 255, 3],
        y: [128, 127, 0, 3],
        value: [127, 127, 0, 3],
        carry: NONE,
        overflow: NONE,
    },
    Case {
        operation: Operation::Minimum(Sign::Unsigned),
        length: 8,
        x: [127, 128, 255, 3],
        y: [128, 127, 0, 3],
        value: [127, 127, 0, 3],
        carry: NONE,
        overflow: NONE,
    },
    Case {
        operation: Operation::Minimum(Sign::Signed),
        length: 8,
        x: [127, 128, 255, 3],
        y: [128, 127, 0, 3],
        value: [128, 128, 255, 3],
        carry: NONE,
        overflow: NONE,
    },
    Case {
        operation: Operation::Compare(Comparison::Equal),
        length: 8,
        x: [1, 2, 255, 0],
        y: [1, 3, 255, 128],
        value: [1, 0, 1, 0],
        carry: NONE,
        overflow: NONE,
    },
    Case {
        operation: Operation::Compare(Comparison::NotEqual),
        length: 8,
        x: [1, 2, 255, 0],
        y: [1, 3, 255, 128],
        value: [0, 1, 0, 1],
        carry: NONE,
        overflow: NONE,
    },
    Case {
        operation: Operation::Compare(Comparison::Less(Sign::Unsigned)),
        length: 8,
        x: [1, 3, 255, 128],
        y: [1, 2, 0, 127],
        value: [0, 0, 0, 0],
        carry: NONE,
        overflow: NONE,
    },
    Case {
        operation: Operation::Compare(Comparison::Less(Sign::Signed)),
        length: 8,
        x: [1, 3, 255, 128],
        y: [1, 2, 0, 127],
        value: [0, 0, 1, 1],
        carry: NONE,
        overflow: NONE,
    },
    Case {
        operation: Operation::Compare(Comparison::LessOrEqual(Sign::Unsigned)),
        length: 8,
        x: [1, 3, 255, 128],
        y: [1, 2, 0, 127],
        value: [1, 0, 0, 0],
        carry: NONE,
        overflow: NONE,
    },
    Case {
        operation: Operation::Compare(Comparison::LessOrEqual(Sign::Signed)),
        length: 8,
        x: [1, 3, 255, 128],
        y: [1, 2, 0, 127],
        value: [1, 0, 1, 1],
        carry: NONE,
        overflow: NONE,
    },
    Case {
        operation: Operation::Compare(Comparison::Greater(Sign::Unsigned)),
        length: 8,
        x: [1, 3, 255, 128],
        y: [1, 2, 0, 127],
        value: [0, 1, 1, 1],
        carry: NONE,
        overflow: NONE,
    },
    Case {
        operation: Operation::Compare(Comparison::Greater(Sign::Signed)),
        length: 8,
        x: [1, 3, 255, 128],
        y: [1, 2, 0, 127],
        value: [0, 1, 0, 0],
        carry: NONE,
        overflow: NONE,
    },
    Case {
        operation: Operation::Compare(Comparison::GreaterOrEqual(Sign::Unsigned)),
        length: 8,
        x: [1, 3, 255, 128],
        y: [1, 2, 0, 127],
        value: [1, 1, 1, 1],
        carry: NONE,
        overflow: NONE,
    },
    Case {
        operation: Operation::Compare(Comparison::GreaterOrEqual(Sign::Signed)),
        length: 64,
        x: [MOST, LEAST, LEAST - 1, 5],
        y: [LEAST, MOST, LEAST, 5],
        value: [1, 0, 1, 1],
        carry: NONE,
        overflow: NONE,
    },
    Case {
        operation: Operation::Negate,
        length: 8,
        x: [128, 1, 0, 255],
        y: NONE,
        value: [128, 255, 0, 1],
        carry: NONE,
        overflow: [1, 0, 0, 0],
    },
    Case {
        operation: Operation::Negate,
        length: 1,
        x: [1, 0, 1, 0],
        y: NONE,
        value: [1, 0, 1, 0],
        carry: NONE,
        overflow: [1, 0, 1, 0],
    },
    Case {
        operation: Operation::Invert,
        length: 8,
        x: [128, 1, 0, 255],
        y: NONE,
        value: [127, 254, 255, 0],
        carry: NONE,
        overflow: NONE,
    },
    Case {
        operation: Operation::CopyLow,
        length: 8,
        x: [128, 1, 0, 256 + 7],
        y: NONE,
        value: [128, 1, 0, 7],
        carry: NONE,
        overflow: NONE,
    },
    Case {
        operation: Operation::Widen(Sign::Signed),
        length: 4,
        x: [7, 8, 15, 16],
        y: NONE,
        value: [7, 248, 255, 0],
        carry: NONE,
        overflow: NONE,
    },
    Case {
        operation: Operation::Widen(Sign::Unsigned),
        length: 4,
        x: [7, 8, 15, 16],
        y: NONE,
        value: [7, 8, 15, 0],
        carry: NONE,
        overflow: NONE,
    },
    Case {
        operation: Operation::Narrow(Sign::Signed),
        length: 8,
        x: [7, 8, 248, 247],
        y: NONE,
        value: [7, 8, 8, 7],
        carry: NONE,
        overflow: [0, 1, 0, 1],
    },
    Case {
        operation: Operation::Narrow(Sign::Unsigned),
        length: 8,
        x: [7, 8, 248, 16],
        y: NONE,
        value: [7, 8, 8, 0],
        carry: NONE,
        overflow: [0, 0, 1, 1],
    },
    Case {
        operation: Operation::Widen(Sign::Signed),
        length: 8,
        x: [7, 128, 255, 256],
        y: NONE,
        value: [7, 128, 255, 0],
        carry: NONE,
        overflow: NONE,
    },
];

fn of_sum(sum: Result<Sum, AllocError>) -> Result<Outcome, AllocError> {
    Ok(sum?.into())
}

fn of_checked(checked: Result<Overflowing, AllocError>) -> Result<Outcome, AllocError> {
    Ok(checked?.into())
}

fn of_value(value: Result<FieldValue, AllocError>) -> Result<Outcome, AllocError> {
    Ok(value?.into())
}

/// The sum with a carried bit where the first number is less.
fn add_where_less(
    alloc: Global,
    x: &FieldValue,
    y: &FieldValue,
    len: u64,
) -> Result<Sum, AllocError>
    requires positive { 0 < len }
    requires narrow { len ≤ 64 }
    requires x_width { x.now.width ≡ 64 }
    requires y_width { y.now.width ≡ 64 }
    requires same { length x.now.numbers ≡ length y.now.numbers }
{
    let carry = compare(alloc, Comparison::Less(Sign::Unsigned), x, y, len)?;
    add_carry(alloc, x, y, &carry, len)
}

/// Where a comparison holds, as numbers.
fn compared(
    alloc: Global,
    comparison: Comparison,
    x: &FieldValue,
    y: &FieldValue,
    len: u64,
) -> Result<FieldValue, AllocError>
    requires positive { 0 < len }
    requires narrow { len ≤ 64 }
    requires x_width { x.now.width ≡ 64 }
    requires y_width { y.now.width ≡ 64 }
    requires same { length x.now.numbers ≡ length y.now.numbers }
{
    let layer = compare(alloc, comparison, x, y, len)?;
    FieldValue::from_layer(alloc, layer)
}

impl Operation {
    fn run(
        self,
        alloc: Global,
        x: &FieldValue,
        y: &FieldValue,
        len: u64,
    ) -> Result<Outcome, AllocError>
        requires positive { 0 < len }
        requires narrow { len ≤ 64 }
        requires x_width { x.now.width ≡ 64 }
        requires y_width { y.now.width ≡ 64 }
        requires same { length x.now.numbers ≡ length y.now.numbers }
    {
        match self {
            Operation::Add(sign) => of_sum(add(alloc, sign, x, y, len)),
            Operation::AddCarry => of_sum(add_where_less(alloc, x, y, len)),
            Operation::Subtract(sign) => of_sum(subtract(alloc, sign, x, y, len)),
            Operation::Bitwise(operator) => of_value(logic(alloc, operator, x, y, len)),
            Operation::Maximum(sign) => {
                of_value(extreme(alloc, Extremum::Maximum, sign, x, y, len))
            }
            Operation::Minimum(sign) => {
                of_value(extreme(alloc, Extremum::Minimum, sign, x, y, len))
            }
            Operation::Compare(comparison) => of_value(compared(alloc, comparison, x, y, len)),
            Operation::Negate => of_checked(negate(alloc, x, len)),
            Operation::Invert => of_value(invert(alloc, x, len)),
            Operation::CopyLow => of_value(copy_low(alloc, x, len)),
            Operation::Narrow(sign) => of_checked(extend(alloc, sign, x, len, 4)),
            Operation::Widen(sign) => of_checked(extend(alloc, sign, x, len, 8)),
        }
    }
}

/// The field of 64 bits whose numbers repeat a row.
fn repeated(alloc: Global, row: &[u64; 4], vps: usize) -> Result<FieldValue, AllocError>
    ensures width { IfOk result (λ value. value.width ≡ 64) }
    ensures count { IfOk result (λ value. length value.numbers ≡ vps) }
{
    let mut numbers = Vec::with_capacity(alloc, vps)?;
    for v in 0..vps {
        numbers.push(row[v % 4] as u128)?;
    }
    FieldValue::from_numbers(alloc, 64, &numbers)
}

/// Whether a layer's bits, where there is one, repeat a row.
fn flags_are(layer: &Option<Layer>, row: &[u64; 4], vps: usize) -> bool {
    let Some(layer) = layer else {
        return true;
    };
    if layer.len() != vps {
        return false;
    }
    for v in 0..vps {
        if layer.get(v) != (row[v % 4] == 1) {
            return false;
        }
    }
    true
}

/// Whether a field's numbers repeat a row.
fn numbers_are(value: &FieldValue, row: &[u64; 4], vps: usize) -> bool {
    if value.len() != vps {
        return false;
    }
    for v in 0..vps {
        if value.get(v) != u128::from(row[v % 4]) {
            return false;
        }
    }
    true
}

/// Whether this is what is to come of a case.
fn is_outcome(outcome: &Outcome, case: &Case, vps: usize) -> bool {
    numbers_are(&outcome.value, &case.value, vps)
        && flags_are(&outcome.carry, &case.carry, vps)
        && flags_are(&outcome.overflow, &case.overflow, vps)
}

/// What comes of a case.
fn outcome_of(alloc: Global, case: &Case, vps: usize) -> Result<Outcome, AllocError>
    requires positive { 0 < case.now.length }
    requires narrow { case.now.length ≤ 64 }
{
    let x = repeated(alloc, &case.x, vps)?;
    let y = repeated(alloc, &case.y, vps)?;
    case.operation.run(alloc, &x, &y, case.length)
}

fn case_holds(rt: &impl Abort, alloc: Global, case: &Case, vps: usize) -> Result<(), AllocError> {
    assert!(rt; 0 < case.length && case.length <= 64);
    let outcome = outcome_of(alloc, case, vps)?;
    assert!(rt;
        is_outcome(&outcome, case, vps),
        "{:?} of {vps}",
        case.operation
    );
    Ok(())
}

#[test]
fn each_operation_makes_the_worked_rows(rt: HostRuntime) -> Result<(), Fail> {
    for vps in SIZES {
        for case in CASES {
            case_holds(&rt, rt.alloc(), case, *vps)?;
        }
    }
    Ok(())
}
