//! Scans, spreads and reduces beside the plain program, and beside a loop over numbers.

ghost use Rattle.std.specs.Prelude.{◌≡◌, ◌<◌, ◌≤◌, IfOk, length};
ghost use Rattle.paris_geometry.specs.Geometry.{axis_length};
ghost use Rattle.paris_plain.specs.Narrow.{IsNarrow};
ghost use Rattle.paris_model.specs.declared.actions.Action.TheVariants.{AlongLine};

use crate::calls::{Call, Case, run_case};
use crate::cases::{COLUMNS, LINES, ROWS, RUNNING_SETS, SETS, Sample, random_sample};
use crate::expected::expected;
use paris_field::FieldValue;
use paris_geometry::{Direction, Geometry};
use paris_layer::Layer;
use paris_model::{Combiner, Inclusion, Line, Operand};
use paris_names::{FieldNo, FlagName, Items, Key, SetNo};
use paris_plain::{Inputs, flags_are_bits, line_after};
use paris_scan::{Combined, Reduced};
use std::alloc::{AllocError, Global};
use std::process::Abort;
use std::test::Fail;

const CALLS: [Call; 9] = [
    Call::Scan(Direction::Upward, Inclusion::Inclusive),
    Call::Scan(Direction::Upward, Inclusion::Exclusive),
    Call::Scan(Direction::Downward, Inclusion::Inclusive),
    Call::Scan(Direction::Downward, Inclusion::Exclusive),
    Call::CopyScan(Direction::Upward),
    Call::CopyScan(Direction::Downward),
    Call::Spread,
    Call::CopySpread,
    Call::Reduce,
];

const OPERATORS: [Combiner; 6] = [
    Combiner::Sum,
    Combiner::BitOr,
    Combiner::BitAnd,
    Combiner::BitXor,
    Combiner::Maximum,
    Combiner::Minimum,
];

/// A field of a width in bits.
fn operand(number: u64, width: u64) -> Operand
    requires { number < 64 }
    ensures { result ≡ record { field = number; width = width } }
{
    Operand {
        field: FieldNo::new(number),
        width,
    }
}

/// The instruction of a spread or a reduce from field 0 to field 1.
fn whole_line(geometry: Geometry, case: &Case) -> Line<Operand>
    requires axis { case.now.axis < length geometry }
    requires place { case.now.place < axis_length geometry case.now.axis }
    requires narrow { case.now.bits ≤ 64 }
    ensures { IsNarrow geometry (AlongLine result) }
{
    let from = operand(0, 64);
    let to = operand(1, 64);
    let combiner = case.operator;
    let axis = case.axis as u64;
    let length = case.bits;
    let coordinate = case.place;
    match case.call {
        Call::CopySpread => Line::CopySpread {
            to,
            from,
            axis,
            length,
            coordinate,
        },
        Call::Reduce => Line::Reduce {
            combiner,
            to,
            from,
            axis,
            length,
            coordinate,
        },
        _ => Line::Spread {
            combiner,
            to,
            from,
            axis,
            length,
        },
    }
}

/// The instruction of a call from field 0 to field 1, where segments begin where field 2 is 1.
fn line(geometry: Geometry, case: &Case) -> Line<Operand>
    requires axis { case.now.axis < length geometry }
    requires place { case.now.place < axis_length geometry case.now.axis }
    requires narrow { case.now.bits ≤ 64 }
    ensures { IsNarrow geometry (AlongLine result) }
{
    let from = operand(0, 64);
    let to = operand(1, 64);
    let axis = case.axis as u64;
    let length = case.bits;
    let segments = Some(operand(2, 1));
    match case.call {
        Call::Scan(direction, inclusion) => Line::Scan {
            combiner: case.operator,
            to,
            from,
            axis,
            length,
            direction,
            inclusion,
            segments,
        },
        Call::CopyScan(direction) => Line::CopyScan {
            to,
            from,
            axis,
            length,
            direction,
            segments,
        },
        Call::Spread | Call::CopySpread | Call::Reduce => whole_line(geometry, case),
    }
}

/// What an instruction sees of a sample: the numbers in field 0, zeros in field 1, and where segments begin in field 2.
fn seen(rt: &impl Abort, alloc: Global, sample: &Sample) -> Result<Inputs, Fail>
    ensures { IfOk result (λ inputs. inputs.axes ≡ sample.now.geometry) }
{
    let set = SetNo::new(0);
    let mut keys = Vec::new(alloc);
    let mut values = Vec::new(alloc);
    for (key, list) in [
        (Key::Field(FieldNo::new(0)), &sample.numbers),
        (Key::Field(FieldNo::new(2)), &sample.cuts),
        (Key::Flag(set, FlagName::Context), &sample.context),
    ] {
        keys.push(key)?;
        values.push(Items::new(list.clone()?))?;
    }
    assert!(rt; flags_are_bits(keys.as_slice(), values.as_slice()));
    Ok(Inputs::new(set, sample.geometry, keys, values))
}

/// Stops where the numbers of the processors that store aren't the expected ones.
fn agrees(
    rt: &impl Abort,
    case: &Case,
    stores: &Layer,
    value: &FieldValue,
    expected: &[u128],
) -> Result<(), AllocError> {
    let numbers = value.numbers()?;
    let count = expected.len();
    assert!(rt; numbers.len() == count && stores.len() == count, "{case:?}");
    for v in 0..count {
        let number = if stores.get(v) { numbers[v] } else { 0 };
        assert_eq!(rt; number, expected[v], "{case:?} at {v} of {count}");
    }
    Ok(())
}

/// Stops where a call doesn't leave what a loop over numbers leaves and, where there are few processors, the plain program.
pub(crate) fn check(
    rt: &impl Abort,
    alloc: Global,
    sample: &Sample,
    case: &Case,
) -> Result<(Vec<u128>, Vec<u128>), Fail> {
    assert!(rt; case.axis < sample.geometry.axes() && case.bits <= sample.field.width());
    assert!(rt; case.place < sample.geometry.len(case.axis));
    let Reduced { combined, stores } = run_case(alloc, sample, case)?;
    let Combined {
        value,
        overflow: over,
    } = combined;
    let (values, overflow) = expected(alloc, sample, case)?;
    agrees(rt, case, &stores, &value, &values)?;
    if let Some(layer) = over {
        let field = FieldValue::from_layer(alloc, layer)?;
        agrees(rt, case, &stores, &field, &overflow)?;
    }
    if case.bits <= 64 && values.len() <= 256 {
        let line = line(sample.geometry, case);
        let inputs = seen(rt, alloc, sample)?;
        let left = line_after(alloc, &inputs, &line, &Key::Field(FieldNo::new(1)))?;
        assert_eq!(rt; values.as_slice(), left.as_slice(), "{case:?}");
    }
    Ok((values, overflow))
}

/// Runs every so many-th of all calls by all operators, from the one in turn on.
fn run(
    rt: &impl Abort,
    alloc: Global,
    sample: &Sample,
    every: usize,
    turn: usize,
) -> Result<(), Fail> {
    assert!(rt; every > 0);
    let width = sample.field.width();
    for k in 0..54usize {
        if k % every == turn % every {
            let axis = (k + k / 9) % sample.geometry.axes();
            let is_half = (k / 9).wrapping_add(turn) % 2 == 1;
            let bits = if is_half { width - width / 2 } else { width };
            assert!(rt; 0 < bits && bits <= 128);
            let case = Case {
                call: CALLS[k % 9],
                operator: OPERATORS[k / 9],
                axis,
                place: k as u64 % sample.geometry.len(axis),
                bits,
            };
            check(rt, alloc, sample, &case)?;
        }
    }
    Ok(())
}

/// Runs calls in a set at each width, at the next one from the next call on.
fn run_widths(
    rt: &impl Abort,
    alloc: Global,
    lengths: &[u64],
    widths: &[u64],
    every: usize,
    turn: usize,
) -> Result<(), Fail> {
    for (k, width) in widths.iter().enumerate() {
        let sample = random_sample(rt, alloc, lengths, *width, 6)?;
        run(rt, alloc, &sample, every, turn.wrapping_add(k))?;
    }
    Ok(())
}

#[test]
fn lines_combine_to_what_their_numbers_do(rt: HostRuntime) -> Result<(), Fail> {
    for (lengths, widths, every, turn) in SETS {
        run_widths(&rt, rt.alloc(), *lengths, *widths, *every, *turn)?;
    }
    Ok(())
}

/// Runs what has one result for each line, along each axis, by an operator.
fn run_lines(
    rt: &impl Abort,
    alloc: Global,
    sample: &Sample,
    operator: Combiner,
) -> Result<(), Fail> {
    let bits = sample.field.width();
    assert!(rt; 0 < bits && bits <= 128);
    for axis in 0..sample.geometry.axes() {
        let place = sample.geometry.len(axis).saturating_sub(1);
        for call in [Call::Spread, Call::CopySpread, Call::Reduce] {
            let case = Case {
                call,
                operator,
                axis,
                place,
                bits,
            };
            check(rt, alloc, sample, &case)?;
        }
    }
    Ok(())
}

/// Runs them in sets of these lengths, at a width.
fn run_contexts(
    rt: &impl Abort,
    alloc: Global,
    lengths: &[u64],
    width: u64,
    contexts: &[u64],
) -> Result<(), Fail> {
    for eighths in contexts {
        let sample = random_sample(rt, alloc, lengths, width, *eighths)?;
        for operator in OPERATORS {
            run_lines(rt, alloc, &sample, operator)?;
        }
    }
    Ok(())
}

#[test]
fn the_line_of_a_set_combines_to_what_its_numbers_do(rt: HostRuntime) -> Result<(), Fail> {
    for (lengths, widths, contexts) in LINES {
        for width in *widths {
            run_contexts(&rt, rt.alloc(), *lengths, *width, *contexts)?;
        }
    }
    Ok(())
}

#[test]
fn lines_in_a_row_combine_to_what_their_numbers_do(rt: HostRuntime) -> Result<(), Fail> {
    for (lengths, widths, contexts) in ROWS {
        for width in *widths {
            run_contexts(&rt, rt.alloc(), *lengths, *width, *contexts)?;
        }
    }
    Ok(())
}

#[test]
fn lines_whole_words_apart_combine_to_what_their_numbers_do(rt: HostRuntime) -> Result<(), Fail> {
    for (lengths, widths, contexts) in COLUMNS {
        for width in *widths {
            run_contexts(&rt, rt.alloc(), *lengths, *width, *contexts)?;
        }
    }
    Ok(())
}

/// The operators whose scans may make one number after another.
const RUNNING: [Combiner; 3] = [Combiner::Sum, Combiner::Maximum, Combiner::Minimum];

/// Runs scans by these operators along an axis, in both directions, with each processor's own number and without.
fn run_scans(
    rt: &impl Abort,
    alloc: Global,
    sample: &Sample,
    axis: usize,
    bits: u64,
) -> Result<(), Fail> {
    assert!(rt; 0 < bits && bits <= 128);
    for k in 0..12usize {
        let case = Case {
            call: CALLS[k % 4],
            operator: RUNNING[k / 4],
            axis,
            place: 0,
            bits,
        };
        check(rt, alloc, sample, &case)?;
    }
    Ok(())
}

/// Runs them along each axis, of all bits of a sample's numbers and of the lower half and one more.
fn run_axes(rt: &impl Abort, alloc: Global, sample: &Sample) -> Result<(), Fail> {
    let width = sample.field.width();
    for axis in 0..sample.geometry.axes() {
        run_scans(rt, alloc, sample, axis, width)?;
        run_scans(rt, alloc, sample, axis, width / 2 + 1)?;
    }
    Ok(())
}

#[test]
fn scans_give_what_a_loop_over_numbers_does(rt: HostRuntime) -> Result<(), Fail> {
    for (lengths, widths, contexts) in RUNNING_SETS {
        for width in *widths {
            for eighths in *contexts {
                let sample = random_sample(&rt, rt.alloc(), lengths, *width, *eighths)?;
                run_axes(&rt, rt.alloc(), &sample)?;
            }
        }
    }
    Ok(())
}
