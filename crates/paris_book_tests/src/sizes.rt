//! Each family of instructions on sets of 1 to 256 processors, on one to four axes, by formulas for each processor.

use crate::programs::{add_field, add_set, run, shows};
use crate::spellings::Text;
use paris_book::Book;
use std::alloc::{AllocError, Global};
use std::process::Abort;

/// Sets of 1, 2, 4, 32, 64, 128 and 256 processors.
const SETS: [&[u64]; 7] = [
    &[1],
    &[2],
    &[2, 2],
    &[8, 4],
    &[4, 4, 4],
    &[4, 4, 4, 2],
    &[16, 16],
];

/// A line of processors: how many its set has, how far apart two neighbours of the line are, and how many the line has.
#[derive(Clone, Copy)]
struct Line {
    count: u64,
    stride: u64,
    length: u64,
}

fn count(axes: &[u64]) -> u64 {
    let mut count: u64 = 1;
    for length in axes {
        count = count.wrapping_mul(*length);
    }
    count
}

/// All processors of a set of so many, in the order of their addresses.
fn whole(count: u64) -> Line {
    Line {
        count,
        stride: 1,
        length: count,
    }
}

/// The axes of a set by their digits, and a line along each.
fn lines_of(alloc: Global, axes: &[u64]) -> Result<Vec<(u8, Line)>, AllocError> {
    let mut lines = Vec::new(alloc);
    let count = count(axes);
    let mut stride: u64 = 1;
    for (digit, length) in b"0123".iter().zip(axes) {
        let line = Line {
            count,
            stride,
            length: *length,
        };
        lines.push((*digit, line))?;
        stride = stride.wrapping_mul(*length);
    }
    Ok(lines)
}

fn coordinate(v: u64, line: Line) -> u64 {
    let place = v.checked_div(line.stride).unwrap_or(0);
    place.checked_rem(line.length).unwrap_or(0)
}

/// The processor whose coordinate is one greater; after the last comes the first.
fn upward(v: u64, line: Line) -> u64 {
    if coordinate(v, line).wrapping_add(1) == line.length {
        v.wrapping_sub(line.stride.wrapping_mul(line.length.wrapping_sub(1)))
    } else {
        v.wrapping_add(line.stride)
    }
}

/// What each processor holds, as a table has it.
#[derive(Clone, Copy)]
enum Formula {
    /// This number.
    Always(u64),
    /// Its address times this number.
    Times(u64),
    /// Twice its address and, on top, the greatest coordinate of its line.
    TwiceAndLast,
    /// How many processors of its line come after it.
    After,
    /// How many processors of its line come up to it, with itself.
    UpToItself,
    /// The address of its neighbour upward.
    Upward,
    /// How many processors its line has.
    All,
    /// How many processors its line has, in the first one of the line; else 0.
    AllAtFirst,
}

fn number(formula: Formula, v: u64, line: Line) -> u64 {
    let last = line.length.wrapping_sub(1);
    match formula {
        Formula::Always(number) => number,
        Formula::Times(factor) => v.wrapping_mul(factor),
        Formula::TwiceAndLast => v.wrapping_mul(2).wrapping_add(last),
        Formula::After => last.wrapping_sub(coordinate(v, line)),
        Formula::UpToItself => coordinate(v, line).wrapping_add(1),
        Formula::Upward => upward(v, line),
        Formula::All => line.length,
        Formula::AllAtFirst if coordinate(v, line) == 0 => line.length,
        Formula::AllAtFirst => 0,
    }
}

/// What the processors of a line's set hold.
fn numbers(alloc: Global, line: Line, formula: Formula) -> Result<Vec<u128>, AllocError> {
    (0..line.count)
        .map(|v| u128::from(number(formula, v, line)))
        .collect(alloc)
}

/// What `v` holds, and what an instruction leaves in `d`.
type Effect = (Formula, Formula);

/// Declares a field whose numbers are given by a formula.
fn add_numbers(
    rt: &impl Abort,
    alloc: Global,
    book: &mut Book,
    text: &[u8],
    line: Line,
    formula: Formula,
) -> Result<(), AllocError> {
    let numbers = numbers(alloc, line, formula)?;
    add_field(rt, alloc, book, &(text, 16, numbers.as_slice()))
}

/// Declares `v` with numbers by a formula, `d` with zeros, and the addresses `ad` from the last to the first.
fn prepare(
    rt: &impl Abort,
    alloc: Global,
    book: &mut Book,
    axes: &[u64],
    line: Line,
    formula: Formula,
) -> Result<(), AllocError> {
    add_set(rt, alloc, book, axes)?;
    add_numbers(rt, alloc, book, b"v", line, formula)?;
    add_numbers(rt, alloc, book, b"d", line, Formula::Always(0))?;
    add_numbers(rt, alloc, book, b"ad", whole(line.count), Formula::After)
}

/// The numbers of `d` are given by a formula.
fn shows_numbers(
    rt: &impl Abort,
    alloc: Global,
    book: &Book,
    line: Line,
    formula: Formula,
) -> Result<(), AllocError> {
    let wanted = numbers(alloc, line, formula)?;
    shows(rt, book, b"d", wanted.as_slice())
}

/// What an instruction leaves in a book.
fn leaves_in(
    rt: &impl Abort,
    alloc: Global,
    book: &mut Book,
    axes: &[u64],
    line: Line,
    text: &[u8],
    effect: Effect,
) -> Result<(), AllocError> {
    prepare(rt, alloc, book, axes, line, effect.0)?;
    run(rt, book, &[text]);
    shows_numbers(rt, alloc, book, line, effect.1)
}

/// What an instruction leaves in a set with these axes, by formulas of a line.
fn leaves(
    rt: &impl Abort,
    alloc: Global,
    axes: &[u64],
    line: Line,
    text: &[u8],
    effect: Effect,
) -> Result<(), AllocError> {
    let mut book = Book::new(alloc);
    leaves_in(rt, alloc, &mut book, axes, line, text, effect)
}

/// What an instruction leaves in each of the sets, by formulas of all its processors.
fn leaves_in_each(
    rt: &impl Abort,
    alloc: Global,
    text: &[u8],
    effect: Effect,
) -> Result<(), AllocError> {
    for axes in SETS {
        leaves(rt, alloc, axes, whole(count(axes)), text, effect)?;
    }
    Ok(())
}

#[test]
fn each_processor_works_by_itself(rt: HostRuntime) -> Result<(), AllocError> {
    let effect = (Formula::Times(3), Formula::TwiceAndLast);
    leaves_in_each(&rt, rt.alloc(), b"u-add-3-1L d v ad 16", effect)
}

#[test]
fn each_processor_has_its_address(rt: HostRuntime) -> Result<(), AllocError> {
    let effect = (Formula::Always(0), Formula::Times(1));
    leaves_in_each(&rt, rt.alloc(), b"my-send-address-1L d 16", effect)
}

#[test]
fn each_processor_is_moved_to(rt: HostRuntime) -> Result<(), AllocError> {
    let effect = (Formula::Times(5), Formula::Times(5));
    leaves_in_each(&rt, rt.alloc(), b"u-move-always-1L d v 16", effect)
}

/// Instructions along an axis, by their texts before and after its number. A scan of ones tells how many processors stand before
/// or behind, a spread of ones tells all processors of a line how many they are, and a reduce the first of them.
const ALONG: [(Text, Text, Effect); 6] = [
    (
        b"get-from-news-1L d v ",
        b" upward 16",
        (Formula::Times(1), Formula::Upward),
    ),
    (
        b"send-to-news-1L d v ",
        b" downward 16",
        (Formula::Times(1), Formula::Upward),
    ),
    (
        b"scan-with-u-add-1L d v ",
        b" 8 upward inclusive none",
        (Formula::Always(1), Formula::UpToItself),
    ),
    (
        b"scan-with-u-add-1L d v ",
        b" 8 downward exclusive none",
        (Formula::Always(1), Formula::After),
    ),
    (
        b"spread-with-u-add-1L d v ",
        b" 8",
        (Formula::Always(1), Formula::All),
    ),
    (
        b"reduce-with-u-add-1L d v ",
        b" 8 0",
        (Formula::Always(1), Formula::AllAtFirst),
    ),
];

/// An instruction's text with the number of an axis in it.
fn joined(alloc: Global, before: &[u8], axis: u8, after: &[u8]) -> Result<Vec<u8>, AllocError> {
    let mut text = Vec::from_slice(alloc, before)?;
    text.push(axis)?;
    text.extend_from_slice(after)?;
    Ok(text)
}

/// All instructions along an axis of a set.
fn goes_along(
    rt: &impl Abort,
    alloc: Global,
    axes: &[u64],
    axis: u8,
    line: Line,
) -> Result<(), AllocError> {
    for (before, after, effect) in ALONG {
        let text = joined(alloc, before, axis, after)?;
        leaves(rt, alloc, axes, line, text.as_slice(), effect)?;
    }
    Ok(())
}

fn goes_along_each(rt: &impl Abort, alloc: Global, axes: &[u64]) -> Result<(), AllocError> {
    let lines = lines_of(alloc, axes)?;
    assert!(rt; lines.len() == axes.len());
    for (axis, line) in lines {
        goes_along(rt, alloc, axes, axis, line)?;
    }
    Ok(())
}

#[test]
fn each_line_is_gone_along(rt: HostRuntime) -> Result<(), AllocError> {
    for axes in SETS {
        goes_along_each(&rt, rt.alloc(), axes)?;
    }
    Ok(())
}

#[test]
fn each_processor_gets_mail(rt: HostRuntime) -> Result<(), AllocError> {
    let effect = (Formula::Times(1), Formula::After);
    leaves_in_each(&rt, rt.alloc(), b"get-1L d ad v 8", effect)?;
    leaves_in_each(&rt, rt.alloc(), b"send-1L d ad v 8 none", effect)?;
    leaves_in_each(
        &rt,
        rt.alloc(),
        b"send-with-logior-1L d ad v 8 none",
        effect,
    )
}
