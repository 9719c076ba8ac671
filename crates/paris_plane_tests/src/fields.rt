//! Values of fields beside moves and sums of the plain program, and beside the lists that they are made of.

ghost use Rattle.std.specs.Prelude.{◌≡◌, ◌<◌, ◌≤◌, IfOk, length};

use crate::beside::{
    Made, agrees, alone, binary, destination, has_bits, has_numbers, holds, layer_holds, seen,
    seen_by_all, seen_by_selected, unary, with_carry,
};
use crate::cases::{Sample, everywhere, layer, plane};
use paris_field::{
    FieldValue, chosen_layers, copy_layers, merge_planes, planes_of, transpose64, zero_planes,
};
use paris_model::{BinaryOperator, UnaryOperator};
use paris_plain::Inputs;
use paris_plane::Plane;
use std::alloc::{AllocError, Global};
use std::process::Abort;
use std::test::Fail;

/// What is done to values.
#[derive(Clone, Copy, Debug)]
enum Call {
    FromNumbers,
    FromLayer,
    Copy,
    Equals,
    Zeros,
    ZeroPlanes,
    Low,
    Planes,
    Plane(u64),
    Mask,
    MergeIn,
    Merged,
    MergePlanes,
    WithNumbers,
    ChosenLayers,
}

/// What is named where a call fails.
#[derive(Clone, Copy, Debug)]
struct Case {
    call: Call,
    count: usize,
    width: u64,
    length: u64,
}

fn case_of(call: Call, sample: &Sample) -> Case
    ensures { result.length ≡ sample.now.width }
{
    Case {
        call,
        count: sample.count,
        width: sample.width,
        length: sample.width,
    }
}

fn short_case(call: Call, sample: &Sample, length: u64) -> Case
    ensures { result.length ≡ length }
{
    Case {
        call,
        count: sample.count,
        width: sample.width,
        length,
    }
}

fn left(alloc: Global, sample: &Sample) -> Result<FieldValue, AllocError>
    ensures width { IfOk result (λ value. value.width ≡ sample.now.width) }
    ensures count { IfOk result (λ value. length value.numbers ≡ sample.now.count) }
{
    FieldValue::from_numbers(alloc, sample.width, sample.left.as_slice())
}

fn right(alloc: Global, sample: &Sample) -> Result<FieldValue, AllocError>
    ensures width { IfOk result (λ value. value.width ≡ sample.now.width) }
    ensures count { IfOk result (λ value. length value.numbers ≡ sample.now.count) }
{
    FieldValue::from_numbers(alloc, sample.width, sample.right.as_slice())
}

fn old(alloc: Global, sample: &Sample) -> Result<FieldValue, AllocError>
    ensures width { IfOk result (λ value. value.width ≡ sample.now.width) }
    ensures count { IfOk result (λ value. length value.numbers ≡ sample.now.count) }
{
    FieldValue::from_numbers(alloc, sample.width, sample.old.as_slice())
}

/// Stops where a call fails.
fn check(rt: &impl Abort, call: Call, sample: &Sample, holds: bool) {
    assert!(rt; holds, "{:?}", case_of(call, sample));
}

/// Stops where a value isn't of a width, or isn't what a move leaves at the destination.
fn moves(
    rt: &impl Abort,
    alloc: Global,
    case: &Case,
    seen: &Inputs,
    value: FieldValue,
    width: u64,
) -> Result<(), Fail>
    requires positive { 0 < case.now.length }
    requires narrow { case.now.length ≤ 64 }
{
    let is_wide = value.width() == width;
    let made = alone(alloc, destination(), value)?;
    assert!(rt; is_wide, "{case:?}, width");
    let action = unary(UnaryOperator::Move, case.length);
    agrees(rt, alloc, case, seen, &action, made.as_slice())
}

/// Whether a value has the numbers of the left, one by one and together.
fn is_left(sample: &Sample, value: &FieldValue) -> Result<bool, AllocError> {
    let numbers = sample.left.as_slice();
    if value.width() != sample.width || !has_numbers(value, numbers) {
        return Ok(false);
    }
    holds(value, numbers)
}

/// Numbers are read back, one by one and together, and from a copy.
fn reads_back(rt: &impl Abort, alloc: Global, sample: &Sample) -> Result<(), Fail> {
    let value = left(alloc, sample)?;
    check(rt, Call::FromNumbers, sample, is_left(sample, &value)?);
    let copy = value.copy()?;
    check(rt, Call::Copy, sample, is_left(sample, &copy)?);
    Ok(())
}

/// Whether a value has the width of a sample, and a zero in every processor.
fn is_zero(alloc: Global, sample: &Sample, value: &FieldValue) -> Result<bool, AllocError> {
    let expected = everywhere(alloc, 0, sample.count)?;
    Ok(value.width() == sample.width && holds(value, expected.as_slice())?)
}

/// The value of planes of zeros.
fn zero_value(alloc: Global, sample: &Sample) -> Result<FieldValue, AllocError> {
    let planes = zero_planes(alloc, sample.width as usize, sample.count)?;
    FieldValue::from_planes(planes, sample.count)
}

/// Zeros are zeros in every processor.
fn makes_zeros(rt: &impl Abort, alloc: Global, sample: &Sample) -> Result<(), Fail> {
    let zeros = FieldValue::zeros(alloc, sample.width, sample.count)?;
    check(rt, Call::Zeros, sample, is_zero(alloc, sample, &zeros)?);
    let planes = zero_value(alloc, sample)?;
    check(
        rt,
        Call::ZeroPlanes,
        sample,
        is_zero(alloc, sample, &planes)?,
    );
    Ok(())
}

/// The low bits of the left numbers, by their layers.
fn low(alloc: Global, sample: &Sample, length: u64) -> Result<FieldValue, AllocError>
    requires within { length ≤ sample.now.width }
{
    let value = left(alloc, sample)?;
    let layers = copy_layers(alloc, value.low(length))?;
    Ok(FieldValue::from_layers(layers, sample.count))
}

/// The left numbers, by their planes.
fn whole(alloc: Global, sample: &Sample) -> Result<FieldValue, AllocError> {
    let value = left(alloc, sample)?;
    let planes = planes_of(alloc, value.planes())?;
    FieldValue::from_planes(planes, sample.count)
}

/// The planes of the low bits hold what a move of them leaves where zeros stood.
fn lends_planes(
    rt: &impl Abort,
    alloc: Global,
    sample: &Sample,
    seen: &Inputs,
) -> Result<(), Fail> {
    let width = sample.width;
    let length = width - width / 2;
    let case = short_case(Call::Low, sample, length);
    moves(rt, alloc, &case, seen, low(alloc, sample, length)?, length)?;
    let case = case_of(Call::Planes, sample);
    moves(rt, alloc, &case, seen, whole(alloc, sample)?, width)
}

/// Bit `k` of each number.
fn bits(alloc: Global, numbers: &[u128], k: u64) -> Result<Vec<u128>, AllocError>
    requires { k < 64 }
{
    numbers.iter().map(|n| (*n >> k) % 2).collect(alloc)
}

/// Whether plane `k` of a value holds bit `k` of the left numbers.
fn lends_plane(
    alloc: Global,
    sample: &Sample,
    value: &FieldValue,
    k: u64,
) -> Result<bool, AllocError>
    requires short { k < 64 }
    requires within { k < value.now.width }
{
    let expected = bits(alloc, sample.left.as_slice(), k)?;
    layer_holds(alloc, value.plane(k).copy()?, expected.as_slice())
}

/// Each plane holds a bit of the numbers.
fn lends_each_plane(rt: &impl Abort, alloc: Global, sample: &Sample) -> Result<(), Fail> {
    let value = left(alloc, sample)?;
    for k in 0..sample.width {
        check(
            rt,
            Call::Plane(k),
            sample,
            lends_plane(alloc, sample, &value, k)?,
        );
    }
    Ok(())
}

/// A layer is a value of one bit, whose mask is the layer.
fn is_mask(rt: &impl Abort, alloc: Global, sample: &Sample) -> Result<(), Fail> {
    let bits = sample.context.as_slice();
    let value = FieldValue::from_layer(alloc, layer(alloc, bits)?)?;
    check(rt, Call::Mask, sample, has_bits(value.mask(), bits));
    check(rt, Call::FromLayer, sample, holds(&value, bits)?);
    Ok(())
}

/// A value with the low `len` bits of another in the processors of a mask.
fn merged(
    alloc: Global,
    value: &FieldValue,
    mask: &Plane,
    other: &FieldValue,
    len: u64,
) -> Result<FieldValue, AllocError>
    requires narrow { value.now.width ≤ 64 }
    requires room { len ≤ value.now.width }
    requires there { len ≤ other.now.width }
    requires mask { length value.now.numbers ≡ length mask.now }
    requires others { length other.now.numbers ≡ length mask.now }
{
    let mut planes = planes_of(alloc, value.planes())?;
    let others = planes_of(alloc, other.low(len))?;
    merge_planes(&mut planes, mask, &others, len as usize);
    FieldValue::from_planes(planes, mask.len())
}

/// The old numbers with the low bits of the left in the processors of the context, merged in place.
fn merged_in(alloc: Global, sample: &Sample, length: u64) -> Result<FieldValue, AllocError>
    requires within { length ≤ sample.now.width }
{
    let mask = layer(alloc, sample.context.as_slice())?;
    let other = left(alloc, sample)?;
    let mut value = old(alloc, sample)?;
    value.merge_in(&mask, other.planes(), length)?;
    Ok(value)
}

/// The same in a copy.
fn merged_copy(alloc: Global, sample: &Sample, length: u64) -> Result<FieldValue, AllocError>
    requires within { length ≤ sample.now.width }
{
    let mask = layer(alloc, sample.context.as_slice())?;
    let other = left(alloc, sample)?;
    let value = old(alloc, sample)?;
    value.merged(&mask, other.planes(), length)
}

/// The same, by planes.
fn merged_planes(alloc: Global, sample: &Sample, length: u64) -> Result<FieldValue, AllocError>
    requires within { length ≤ sample.now.width }
{
    let mask = plane(alloc, sample.context.as_slice())?;
    let other = left(alloc, sample)?;
    let value = old(alloc, sample)?;
    merged(alloc, &value, &mask, &other, length)
}

/// A merge is a move in the processors of the mask.
fn merges(
    rt: &impl Abort,
    alloc: Global,
    sample: &Sample,
    seen: &Inputs,
    length: u64,
) -> Result<(), Fail>
    requires positive { 0 < length }
    requires within { length ≤ sample.now.width }
{
    let value = merged_in(alloc, sample, length)?;
    let case = short_case(Call::MergeIn, sample, length);
    moves(rt, alloc, &case, seen, value, sample.width)?;
    let value = merged_copy(alloc, sample, length)?;
    let case = short_case(Call::Merged, sample, length);
    moves(rt, alloc, &case, seen, value, sample.width)?;
    let value = merged_planes(alloc, sample, length)?;
    let case = short_case(Call::MergePlanes, sample, length);
    moves(rt, alloc, &case, seen, value, sample.width)
}

/// 1 in the processors from one to another, and 0 in the others.
fn range(alloc: Global, from: usize, to: usize, count: usize) -> Result<Vec<u128>, AllocError> {
    (0..count)
        .map(|v| u128::from(from <= v && v < to))
        .collect(alloc)
}

/// What an instruction sees where the processors from one to another are selected.
fn seen_by_range(
    rt: &impl Abort,
    alloc: Global,
    sample: &Sample,
    from: usize,
    to: usize,
) -> Result<Inputs, Fail> {
    let selected = range(alloc, from, to, sample.count)?;
    seen(
        rt,
        alloc,
        sample,
        sample.old.as_slice(),
        selected.as_slice(),
    )
}

/// The old numbers with those of the left from one processor to another.
fn renumbered(
    alloc: Global,
    sample: &Sample,
    from: usize,
    to: usize,
) -> Result<FieldValue, AllocError>
    requires order { from ≤ to }
    requires within { to ≤ sample.now.count }
{
    let value = old(alloc, sample)?;
    value.with_numbers(from, &sample.left[from..to])
}

/// Numbers in place of as many are what a move leaves.
fn renumbers(
    rt: &impl Abort,
    alloc: Global,
    sample: &Sample,
    seen: &Inputs,
    from: usize,
    to: usize,
) -> Result<(), Fail>
    requires order { from ≤ to }
    requires within { to ≤ sample.now.count }
{
    let value = renumbered(alloc, sample, from, to)?;
    let case = case_of(Call::WithNumbers, sample);
    moves(rt, alloc, &case, seen, value, sample.width)
}

/// Numbers in place of as many are a move in their processors.
fn takes_numbers(
    rt: &impl Abort,
    alloc: Global,
    sample: &Sample,
    from: usize,
    to: usize,
) -> Result<(), Fail>
    requires order { from ≤ to }
    requires within { to ≤ sample.now.count }
{
    let seen = seen_by_range(rt, alloc, sample, from, to)?;
    renumbers(rt, alloc, sample, &seen, from, to)
}

/// The left numbers in the processors of the context, and the old ones in the others, in new layers.
fn chosen(alloc: Global, sample: &Sample) -> Result<FieldValue, AllocError> {
    let mask = layer(alloc, sample.context.as_slice())?;
    let x = left(alloc, sample)?;
    let others = old(alloc, sample)?;
    let layers = chosen_layers(alloc, &mask, x.planes(), others.planes())?;
    Ok(FieldValue::from_layers(layers, sample.count))
}

/// A choice by a mask is a move in the processors of the mask.
fn chooses(rt: &impl Abort, alloc: Global, sample: &Sample, seen: &Inputs) -> Result<(), Fail> {
    let value = chosen(alloc, sample)?;
    let case = case_of(Call::ChosenLayers, sample);
    moves(rt, alloc, &case, seen, value, sample.width)
}

/// Whether a value equals one with another number in a processor just where that number is the same, either way.
fn tells_number(sample: &Sample, value: &FieldValue, v: usize) -> Result<bool, AllocError>
    requires within { v < sample.now.count }
    requires width { value.now.width ≡ sample.now.width }
    requires count { length value.now.numbers ≡ sample.now.count }
{
    let other = value.with_numbers(v, &sample.old[v..v + 1])?;
    let same = sample.left[v] == sample.old[v];
    Ok(value.equals(&other) == same && other.equals(value) == same)
}

/// Whether a value equals no value with another number in one of some processors.
fn tells_some(sample: &Sample, value: &FieldValue) -> Result<bool, AllocError>
    requires width { value.now.width ≡ sample.now.width }
    requires count { length value.now.numbers ≡ sample.now.count }
{
    for v in (0..sample.count).step_by(1 + sample.count / 64) {
        if !tells_number(sample, value, v)? {
            return Ok(false);
        }
    }
    Ok(true)
}

/// Whether a value equals its copy.
fn equals_copy(value: &FieldValue) -> Result<bool, AllocError> {
    let copy = value.copy()?;
    Ok(value.equals(&copy))
}

/// A value equals its copy, and no value with another number in one of some processors.
fn tells_numbers(rt: &impl Abort, alloc: Global, sample: &Sample) -> Result<(), Fail> {
    let value = left(alloc, sample)?;
    check(rt, Call::Equals, sample, equals_copy(&value)?);
    check(rt, Call::Equals, sample, tells_some(sample, &value)?);
    Ok(())
}

/// Whether two values aren't equal, either way.
fn differ(x: &FieldValue, y: &FieldValue) -> bool {
    !x.equals(y) && !y.equals(x)
}

/// Whether zeros equal none of another width or number of processors.
fn tells_sizes(alloc: Global, sample: &Sample) -> Result<bool, AllocError> {
    let zeros = FieldValue::zeros(alloc, sample.width, sample.count)?;
    let wider = FieldValue::zeros(alloc, sample.width + 1, sample.count)?;
    let longer = FieldValue::zeros(alloc, sample.width, sample.count.saturating_add(1))?;
    Ok(differ(&zeros, &wider) && differ(&zeros, &longer))
}

/// The word of the bits at a place of all rows.
fn column(rows: &[u64; 64], place: usize) -> u64
    requires { place < 64 }
{
    let mut word = 0;
    for j in 0..64usize {
        if (rows[j] >> place) % 2 == 1 {
            word |= 1u64 << j;
        }
    }
    word
}

/// Whether rows are the columns of a square.
fn are_columns(rows: &[u64; 64], square: &[u64; 64]) -> bool {
    for i in 0..64usize {
        if rows[i] != column(square, i) {
            return false;
        }
    }
    true
}

/// The rows of a square are its columns once it is turned.
pub(crate) fn turns(rt: &impl Abort, square: &[u64; 64]) {
    let mut rows = *square;
    transpose64(&mut rows);
    assert!(rt; are_columns(&rows, square), "{square:?}");
}

/// Runs the calls that are instructions in all processors, beside what these see.
fn run_all(rt: &impl Abort, alloc: Global, sample: &Sample, seen: &Inputs) -> Result<(), Fail> {
    lends_planes(rt, alloc, sample, seen)
}

/// Runs the calls that are instructions in all processors.
fn run_on_all(rt: &impl Abort, alloc: Global, sample: &Sample) -> Result<(), Fail> {
    let seen = seen_by_all(rt, alloc, sample)?;
    run_all(rt, alloc, sample, &seen)
}

/// Runs the calls that are instructions in the selected processors, beside what these see.
fn run_selected(
    rt: &impl Abort,
    alloc: Global,
    sample: &Sample,
    seen: &Inputs,
) -> Result<(), Fail> {
    let width = sample.width;
    chooses(rt, alloc, sample, seen)?;
    merges(rt, alloc, sample, seen, width)?;
    merges(rt, alloc, sample, seen, width - width / 2)
}

/// Runs the calls that are instructions in the selected processors.
fn run_on_selected(rt: &impl Abort, alloc: Global, sample: &Sample) -> Result<(), Fail> {
    let seen = seen_by_selected(rt, alloc, sample)?;
    run_selected(rt, alloc, sample, &seen)
}

/// Runs each call on a sample.
pub(crate) fn run(rt: &impl Abort, alloc: Global, sample: &Sample) -> Result<(), Fail> {
    let count = sample.count;
    reads_back(rt, alloc, sample)?;
    makes_zeros(rt, alloc, sample)?;
    lends_each_plane(rt, alloc, sample)?;
    is_mask(rt, alloc, sample)?;
    run_on_all(rt, alloc, sample)?;
    run_on_selected(rt, alloc, sample)?;
    takes_numbers(rt, alloc, sample, 0, count)?;
    takes_numbers(rt, alloc, sample, count / 3, count - count / 3)?;
    tells_numbers(rt, alloc, sample)?;
    check(rt, Call::Equals, sample, tells_sizes(alloc, sample)?);
    Ok(())
}
