//! Values beside plain lists of numbers, at widths and counts round a word.

ghost use Rattle.std.specs.Prelude.{◌≡◌, ◌<◌, ◌≤◌, ◌^◌, IfOk, length};
ghost use Rattle.paris_field.specs.Fields.{AllFit};

use crate::beside::{has_numbers, holds};
use paris_field::{FieldValue, copy_layers, planes_of, transpose64};
use paris_layer::Layer;
use paris_plane::Plane;
use std::alloc::{AllocError, Global};
use std::process::Abort;
use std::test::Fail;

/// A width in bits and a number of processors, each round a word or past it.
struct Case {
    width: u64,
    count: usize,
}

const CASES: &[Case] = &[
    Case { width: 1, count: 1 },
    Case { width: 8, count: 2 },
    Case {
        width: 64,
        count: 63,
    },
    Case {
        width: 65,
        count: 64,
    },
    Case {
        width: 128,
        count: 65,
    },
    Case {
        width: 1,
        count: 128,
    },
    Case {
        width: 8,
        count: 300,
    },
    Case {
        width: 64,
        count: 65,
    },
    Case {
        width: 65,
        count: 300,
    },
    Case {
        width: 128,
        count: 128,
    },
];

/// A number of this width, which must be some bits, for processor v.
pub(crate) fn number(width: u64, seed: u128, v: usize) -> u128
    requires positive { 0 < width }
    requires narrow { width ≤ 128 }
    ensures { result < 2 ^ width }
{
    let mixed = seed
        .wrapping_add(v as u128)
        .wrapping_mul(0x9E37_79B9_7F4A_7C15_F39C_C060_5CED_C835);
    mixed >> (128 - width)
}

/// A number for each of `count` processors.
fn list(alloc: Global, width: u64, seed: u128, count: usize) -> Result<Vec<u128>, AllocError>
    requires positive { 0 < width }
    requires narrow { width ≤ 128 }
    ensures count { IfOk result (λ list. length list.items ≡ count) }
    ensures fit { IfOk result (λ list. AllFit width list.items) }
{
    let mut list = Vec::new(alloc);
    for v in 0..count {
        list.push(number(width, seed, v))?;
    }
    Ok(list)
}

/// A mask with a 1 in each third processor.
fn thirds(alloc: Global, count: usize) -> Result<Plane, AllocError>
    ensures { IfOk result (λ mask. length mask ≡ count) }
{
    let mut mask = Plane::zeros(alloc, count)?;
    for v in 0..count {
        mask.set(v, v % 3 == 0);
    }
    Ok(mask)
}

/// Whether each number is read back one by one and together, and from a copy.
fn is_read_back(value: &FieldValue, width: u64, numbers: &[u128]) -> Result<bool, AllocError> {
    if value.width() != width || !has_numbers(value, numbers) || !holds(value, numbers)? {
        return Ok(false);
    }
    let copied = value.copy()?;
    Ok(copied.equals(value))
}

/// Numbers of a width are read back.
fn reads_back(rt: &impl Abort, alloc: Global, width: u64, count: usize) -> Result<(), AllocError>
    requires positive { 0 < width }
    requires narrow { width ≤ 128 }
{
    let numbers = list(alloc, width, 1, count)?;
    let value = FieldValue::from_numbers(alloc, width, &numbers)?;
    let good = is_read_back(&value, width, &numbers)?;
    assert!(rt; good, "{count} processors at width {width}");
    Ok(())
}

#[test]
fn numbers_are_read_back(rt: HostRuntime) -> Result<(), Fail> {
    for case in CASES {
        if case.width > 0 && case.width <= 128 {
            reads_back(&rt, rt.alloc(), case.width, case.count)?;
        }
    }
    Ok(())
}

/// Whether one number stands in each processor.
fn is_constant(alloc: Global, width: u64, count: usize) -> Result<bool, AllocError>
    requires positive { 0 < width }
    requires narrow { width ≤ 128 }
{
    let wanted = number(width, 1, 0);
    let constant = FieldValue::constant(alloc, width, wanted, count)?;
    let numbers = constant.numbers()?;
    Ok(numbers.len() == count && numbers.iter().all(|x| *x == wanted))
}

/// Whether these are some bits of each processor's address, above the lowest three.
fn are_address_bits(numbers: &[u128], bits: u64) -> bool
    requires { bits ≤ 5 }
{
    for (v, number) in numbers.iter().enumerate() {
        if *number != ((v as u128) >> 3) % (1u128 << bits) {
            return false;
        }
    }
    true
}

/// Whether bits of its own address stand in each processor.
fn has_addresses(alloc: Global, width: u64, count: usize) -> Result<bool, AllocError>
    requires positive { 0 < width }
    requires narrow { width ≤ 128 }
{
    let bits = width.min(5);
    let addresses = FieldValue::address_bits(alloc, width, 3, bits, count)?;
    let numbers = addresses.numbers()?;
    Ok(numbers.len() == count && are_address_bits(&numbers, bits))
}

/// One number stands in each processor, and bits of its own address do.
fn is_made_on_planes(
    rt: &impl Abort,
    alloc: Global,
    width: u64,
    count: usize,
) -> Result<(), AllocError>
    requires positive { 0 < width }
    requires narrow { width ≤ 128 }
{
    let constant = is_constant(alloc, width, count)?;
    let addresses = has_addresses(alloc, width, count)?;
    assert!(rt;
        constant && addresses,
        "{count} processors at width {width}"
    );
    Ok(())
}

#[test]
fn constants_and_addresses_are_made_on_planes(rt: HostRuntime) -> Result<(), Fail> {
    for case in CASES {
        if case.width > 0 && case.width <= 128 {
            is_made_on_planes(&rt, rt.alloc(), case.width, case.count)?;
        }
    }
    Ok(())
}

/// Whether numbers stand in place of as many from a processor on, and the others stay.
fn is_edited(edited: &FieldValue, numbers: &[u128], new: &[u128], from: usize) -> bool {
    if edited.len() != numbers.len() {
        return false;
    }
    for v in 0..numbers.len() {
        let want = match v.checked_sub(from) {
            Some(i) if i < new.len() => new[i],
            _ => numbers[v],
        };
        if edited.get(v) != want {
            return false;
        }
    }
    true
}

/// Numbers are put in place of as many in the middle, and the others stay.
fn takes_numbers(rt: &impl Abort, alloc: Global, width: u64, count: usize) -> Result<(), AllocError>
    requires positive { 0 < width }
    requires narrow { width ≤ 128 }
{
    let from = count / 3;
    let numbers = list(alloc, width, 1, count)?;
    let new = list(alloc, width, 1000, count / 2)?;
    let value = FieldValue::from_numbers(alloc, width, &numbers)?;
    let edited = value.with_numbers(from, &new)?;
    let good = is_edited(&edited, &numbers, &new, from);
    assert!(rt; good, "{count} processors at width {width}");
    Ok(())
}

#[test]
fn numbers_are_put_in_the_middle(rt: HostRuntime) -> Result<(), Fail> {
    for case in CASES {
        if case.width > 0 && case.width <= 128 {
            takes_numbers(&rt, rt.alloc(), case.width, case.count)?;
        }
    }
    Ok(())
}

/// Processors round the first and the last of a block.
const PLACES: &[usize] = &[0, 1, 63, 64, 65, 127, 128, 129, 299, 300];

/// Whether a value has words in place of a value's numbers from a processor up to another, and its other numbers.
fn has_words(edited: &FieldValue, value: &FieldValue, all: &[u64], from: usize, to: usize) -> bool
    requires { length value.now.numbers ≡ length all.now }
{
    if edited.width() != value.width() || edited.len() != all.len() {
        return false;
    }
    for v in 0..all.len() {
        let want = if v >= from && v < to {
            u128::from(all[v])
        } else {
            value.get(v)
        };
        if edited.get(v) != want {
            return false;
        }
    }
    true
}

/// Whether words are put in place of as many numbers from a processor up to another, and the others stay.
fn takes_words(value: &FieldValue, all: &[u64], from: usize, to: usize) -> Result<bool, AllocError>
    requires count { length value.now.numbers ≡ length all.now }
    requires order { from ≤ to }
    requires within { to ≤ length all.now }
{
    let words = &all[from..to];
    if FieldValue::first_word_too_wide(value.width(), words).is_some() {
        return Ok(false);
    }
    let edited = value.with_words(from, words)?;
    Ok(has_words(&edited, value, all, from, to))
}

/// The same between any two of some places that a value has.
fn takes_words_anywhere(value: &FieldValue, all: &[u64]) -> Result<bool, AllocError>
    requires { length value.now.numbers ≡ length all.now }
{
    for from in PLACES {
        for to in PLACES {
            if *from <= *to && *to <= all.len() && !takes_words(value, all, *from, *to)? {
                return Ok(false);
            }
        }
    }
    takes_words(value, all, 0, all.len())
}

/// A word of this width for each processor.
fn words(alloc: Global, width: u64, count: usize) -> Result<Vec<u64>, AllocError>
    requires positive { 0 < width }
    requires narrow { width ≤ 64 }
    ensures { IfOk result (λ words. length words.items ≡ count) }
{
    (0..count)
        .map(|v| number(width, 1000, v) as u64)
        .collect(alloc)
}

/// Words of this width, or of 64 bits, are put between any two of some places.
fn is_given_words(
    rt: &impl Abort,
    alloc: Global,
    width: u64,
    count: usize,
) -> Result<(), AllocError>
    requires positive { 0 < width }
    requires narrow { width ≤ 128 }
{
    let value = FieldValue::from_numbers(alloc, width, &list(alloc, width, 1, count)?)?;
    let all = words(alloc, width.min(64), count)?;
    let takes = takes_words_anywhere(&value, &all)?;
    assert!(rt; takes, "{count} processors at width {width}");
    Ok(())
}

#[test]
fn words_are_put_anywhere(rt: HostRuntime) -> Result<(), Fail> {
    for case in CASES {
        if case.width > 0 && case.width <= 128 {
            is_given_words(&rt, rt.alloc(), case.width, case.count)?;
        }
    }
    Ok(())
}

/// A width, words, and the place of the first that is too wide.
const WIDE_WORDS: &[(u64, &[u64], Option<usize>)] = &[
    (0, &[0, 1], Some(1)),
    (8, &[0, 255, 256, 257], Some(2)),
    (63, &[1 << 62, 1 << 63], Some(1)),
    (64, &[u64::MAX], None),
    (u64::MAX, &[u64::MAX], None),
];

#[test]
fn the_first_word_that_is_too_wide_is_found(rt: HostRuntime) {
    for (width, words, first) in WIDE_WORDS {
        let found = FieldValue::first_word_too_wide(*width, *words);
        assert!(rt; found == *first, "at width {width}");
    }
}

/// Whether the low bits of new numbers stand in each third processor.
fn is_merged(value: &FieldValue, numbers: &[u128], new: &[u128], low: u128) -> bool {
    if value.len() != numbers.len() || new.len() != numbers.len() {
        return false;
    }
    for v in 0..numbers.len() {
        let want = if v % 3 == 0 {
            (numbers[v] & !low) | (new[v] & low)
        } else {
            numbers[v]
        };
        if value.get(v) != want {
            return false;
        }
    }
    true
}

/// Stores the low `len` bits of new numbers in each third processor.
fn merged(
    alloc: Global,
    width: u64,
    len: u64,
    numbers: &[u128],
    new: &[u128],
) -> Result<FieldValue, AllocError>
    requires narrow { width ≤ 128 }
    requires within { len ≤ width }
    requires fit { AllFit width numbers.now }
    requires new_fit { AllFit width new.now }
    requires same { length new.now ≡ length numbers.now }
{
    let mask = Layer::from_plane(thirds(alloc, numbers.len())?);
    let other = FieldValue::from_numbers(alloc, width, new)?;
    let mut value = FieldValue::from_numbers(alloc, width, numbers)?;
    value.merge_in(&mask, other.planes(), len)?;
    Ok(value)
}

/// The low half of the bits is stored in each third processor.
fn merges(rt: &impl Abort, alloc: Global, width: u64, count: usize) -> Result<(), AllocError>
    requires positive { 0 < width }
    requires narrow { width ≤ 128 }
{
    let len = width - width / 2;
    let low = (1u128 << len).wrapping_sub(1);
    let numbers = list(alloc, width, 1, count)?;
    let new = list(alloc, width, 1000, count)?;
    let value = merged(alloc, width, len, &numbers, &new)?;
    let good = is_merged(&value, &numbers, &new, low);
    assert!(rt; good, "{count} processors at width {width}");
    Ok(())
}

#[test]
fn selected_processors_store(rt: HostRuntime) -> Result<(), Fail> {
    for case in CASES {
        if case.width > 0 && case.width <= 128 {
            merges(&rt, rt.alloc(), case.width, case.count)?;
        }
    }
    Ok(())
}

/// Whether the top plane of a value of 65 bits, and plane 8 of its low planes, are bits of its numbers.
fn lends_bits(value: &FieldValue, numbers: &[u128]) -> bool
    requires width { value.now.width ≡ 65 }
    requires count { length value.now.numbers ≡ length numbers.now }
{
    for v in 0..numbers.len() {
        let top = value.plane(64).get(v);
        let low = value.low(9)[8].get(v);
        if top != (numbers[v] >> 64 == 1) || low != ((numbers[v] >> 8) % 2 == 1) {
            return false;
        }
    }
    value.low(9).len() == 9
}

/// Whether a value of 65 bits equals that of its layers and of its planes, and no zeros.
fn is_of_planes(alloc: Global, value: &FieldValue) -> Result<bool, AllocError>
    requires width { value.now.width ≡ 65 }
{
    let layers = copy_layers(alloc, value.planes())?;
    let copied = FieldValue::from_layers(layers, value.len());
    let planes = planes_of(alloc, value.planes())?;
    let taken = FieldValue::from_planes(planes, value.len())?;
    let zeros = FieldValue::zeros(alloc, 65, value.len())?;
    Ok(copied.equals(value) && taken.equals(value) && !zeros.equals(value))
}

#[test]
fn planes_are_lent_and_taken(rt: HostRuntime) -> Result<(), Fail> {
    let numbers = list(rt.alloc(), 65, 3, 70)?;
    let value = FieldValue::from_numbers(rt.alloc(), 65, &numbers)?;
    let lent = lends_bits(&value, &numbers);
    let taken = is_of_planes(rt.alloc(), &value)?;
    assert!(rt; lent && taken);
    Ok(())
}

/// Whether a value of one bit has it in each third of 65 processors, and its mask has.
fn is_thirds(value: &FieldValue) -> bool
    requires width { value.now.width ≡ 1 }
    requires count { length value.now.numbers ≡ 65 }
{
    for v in 0..65usize {
        let third = v % 3 == 0;
        if value.mask().get(v) != third || (value.get(v) == 1) != third {
            return false;
        }
    }
    true
}

#[test]
fn a_layer_is_a_value_of_one_bit(rt: HostRuntime) -> Result<(), Fail> {
    let layer = Layer::from_plane(thirds(rt.alloc(), 65)?);
    let value = FieldValue::from_layer(rt.alloc(), layer)?;
    assert!(rt; is_thirds(&value));
    Ok(())
}

/// Whether a turn moves one bit of a row to its place across the diagonal.
fn is_moved(row: usize, place: usize) -> bool
    requires row { row < 64 }
    requires place { place < 64 }
{
    let mut rows = [0u64; 64];
    rows[row] = 1 << place;
    transpose64(&mut rows);
    let mut turned = [0u64; 64];
    turned[place] = 1 << row;
    rows == turned
}

#[test]
fn one_bit_is_moved_across_the_diagonal(rt: HostRuntime) {
    for (row, place) in [
        (0usize, 0usize),
        (0, 63),
        (63, 0),
        (1, 32),
        (45, 18),
        (7, 56),
    ] {
        assert!(rt; row < 64 && place < 64);
        assert!(rt; is_moved(row, place), "row {row}, place {place}");
    }
}

#[test]
fn two_turns_are_none(rt: HostRuntime) {
    let mut rows = [0u64; 64];
    for j in 0..64usize {
        rows[j] = (j as u64).wrapping_mul(0x9E37_79B9_7F4A_7C15);
    }
    let before = rows;
    transpose64(&mut rows);
    assert!(rt; rows != before);
    transpose64(&mut rows);
    assert!(rt; rows == before);
}
