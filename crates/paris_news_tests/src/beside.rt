//! What the plain program leaves of moves.

ghost use Rattle.std.specs.Prelude.{◌≡◌, ◌<◌, ◌≤◌, IfOk, length};
ghost use Rattle.paris_plain.specs.Narrow.{IsNarrow};

use crate::cases::{SETS, Sample, random_sample};
use crate::expected::agrees;
use crate::moves::{Move, Moved, Step, run_step};
use paris_geometry::{Direction, Geometry};
use paris_model::{Action, News, Operand};
use paris_names::{FieldNo, FlagName, Items, Key, SetNo};
use paris_plain::{Inputs, flags_are_bits, outcome};
use std::alloc::{AllocError, Global};
use std::process::Abort;
use std::test::Fail;

const STEPS: &[(Move, Direction)] = &[
    (Move::Get, Direction::Upward),
    (Move::Get, Direction::Downward),
    (Move::Send, Direction::Upward),
    (Move::Send, Direction::Downward),
];

/// A field of 64 bits.
fn operand(number: u64) -> Operand
    requires { number < 64 }
    ensures { result ≡ record { field = number; width = 64 } }
{
    Operand {
        field: FieldNo::new(number),
        width: 64,
    }
}

/// The instruction of a move from field 0 to field 1.
fn action(geometry: Geometry, step: &Step) -> Action<Operand, SetNo>
    requires axis { step.now.axis < length geometry }
    requires positive { 0 < step.now.bits }
    requires narrow { step.now.bits ≤ 64 }
    ensures { IsNarrow geometry result }
{
    let axis = step.axis as u64;
    let direction = step.direction;
    let length = step.bits;
    let from = operand(0);
    let to = operand(1);
    Action::ByNews(match step.kind {
        Move::Get => News::Get {
            to,
            from,
            axis,
            direction,
            length,
        },
        Move::Send => News::Send {
            to,
            from,
            axis,
            direction,
            length,
        },
    })
}

/// What an instruction sees of a sample: the source in field 0, and the destination in field 1.
fn seen(rt: &impl Abort, alloc: Global, sample: &Sample) -> Result<Inputs, Fail>
    ensures { IfOk result (λ inputs. inputs.axes ≡ sample.now.geometry) }
{
    let set = SetNo::new(0);
    let selected = (0..sample.selected.len())
        .map(|v| u128::from(sample.selected.get(v)))
        .collect(alloc)?;
    let mut keys = Vec::new(alloc);
    let mut values = Vec::new(alloc);
    keys.push(Key::Field(FieldNo::new(0)))?;
    values.push(Items::new(sample.x.clone()?))?;
    keys.push(Key::Field(FieldNo::new(1)))?;
    values.push(Items::new(sample.y.clone()?))?;
    keys.push(Key::Flag(set, FlagName::Context))?;
    values.push(Items::new(selected))?;
    assert!(rt; flags_are_bits(keys.as_slice(), values.as_slice()));
    Ok(Inputs::new(set, sample.geometry, keys, values))
}

/// Stops where what a move left isn't what the plain program leaves.
fn agrees_with_plain(
    rt: &impl Abort,
    alloc: Global,
    sample: &Sample,
    step: &Step,
    moved: &Moved,
) -> Result<(), Fail>
    requires axis { step.now.axis < length sample.now.geometry }
    requires positive { 0 < step.now.bits }
    requires narrow { step.now.bits ≤ 64 }
{
    let inputs = seen(rt, alloc, sample)?;
    let action = action(sample.geometry, step);
    let key = Key::Field(FieldNo::new(1));
    let Ok(left) = outcome(alloc, &inputs, &action, &[key])? else {
        panic!(rt; "{action:?} is refused");
    };
    assert_eq!(rt; left.len(), 1);
    let numbers = moved.value.numbers()?;
    for expected in left.as_slice() {
        assert_eq!(rt;
            numbers.as_slice(),
            expected.as_slice(),
            "{action:?} of {:?}",
            sample.geometry
        );
    }
    Ok(())
}

/// Runs moves of the low `bits` bits along an axis. The plain program runs beside them where there are few processors.
fn run_bits(
    rt: &impl Abort,
    alloc: Global,
    sample: &Sample,
    axis: usize,
    bits: u64,
) -> Result<(), Fail>
    requires axis { axis < length sample.now.geometry }
    requires positive { 0 < bits }
    requires within { bits ≤ sample.now.width }
{
    for (kind, direction) in STEPS {
        let step = Step {
            kind: *kind,
            axis,
            direction: *direction,
            bits,
        };
        let moved = run_step(rt, alloc, sample, &step)?;
        agrees(rt, sample, &step, &moved)?;
        if bits <= 64 && sample.x.len() <= 256 {
            agrees_with_plain(rt, alloc, sample, &step, &moved)?;
        }
    }
    Ok(())
}

/// Runs moves of all bits along each axis, and of the low half where there are few processors.
fn run(rt: &impl Abort, alloc: Global, sample: &Sample) -> Result<(), Fail> {
    let width = sample.width;
    for axis in 0..sample.geometry.axes() {
        run_bits(rt, alloc, sample, axis, width)?;
        if sample.x.len() <= 256 {
            run_bits(rt, alloc, sample, axis, width - width / 2)?;
        }
    }
    Ok(())
}

/// Runs moves in a set at each width.
fn run_widths(rt: &impl Abort, alloc: Global, lengths: &[u64], widths: &[u64]) -> Result<(), Fail> {
    for width in widths {
        run(rt, alloc, &random_sample(rt, alloc, lengths, *width)?)?;
    }
    Ok(())
}

#[test]
fn processors_hold_what_their_neighbours_held(rt: HostRuntime) -> Result<(), Fail> {
    for (lengths, widths) in SETS {
        run_widths(&rt, rt.alloc(), *lengths, *widths)?;
    }
    Ok(())
}
