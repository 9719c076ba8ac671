//! Tests of input data from words, beside the edit of the same numbers.

use crate::programs::shows;
use crate::spellings::*;
use crate::steps::Change::{Field, Set};
use crate::steps::Step::*;
use crate::steps::{Step, is_listed, plays_in};
use paris_book::Book;
use paris_edits::{Edit, EditReply};
use paris_names::Spot::End;
use paris_names::{Fault, Items, KeyName};
use std::alloc::{AllocError, Global};
use std::process::Abort;

/// Numbers that a key is given from a processor on, why they are refused, if they are, and what `a` holds then.
type Row = (Text, u64, &'static [u64], Option<Fault>, &'static [u128]);

/// Rows that follow each other.
const ROWS: &[Row] = &[
    (b"a", 0, &[1, 2, 3, 4], None, &[1, 2, 3, 4]),
    (b"a", 2, &[9], None, &[1, 2, 9, 4]),
    (b"a", 1, &[255, 0], None, &[1, 255, 0, 4]),
    (b"d", 0, &[1], Some(Fault::NoField), &[1, 255, 0, 4]),
    (b"a", 0, &[], Some(Fault::WrongCount), &[1, 255, 0, 4]),
    (b"a", 3, &[1, 256], Some(Fault::WrongCount), &[1, 255, 0, 4]),
    (b"a", 4, &[1], Some(Fault::WrongCount), &[1, 255, 0, 4]),
    (
        b"a",
        u64::MAX,
        &[1],
        Some(Fault::WrongCount),
        &[1, 255, 0, 4],
    ),
    (b"a", 2, &[1, 256], Some(Fault::TooWide(3)), &[1, 255, 0, 4]),
    (
        b"a",
        0,
        &[u64::MAX],
        Some(Fault::TooWide(0)),
        &[1, 255, 0, 4],
    ),
    (
        b"s.context",
        1,
        &[0, 2],
        Some(Fault::TooWide(2)),
        &[1, 255, 0, 4],
    ),
    (b"s.context", 1, &[0, 1, 0], None, &[1, 255, 0, 4]),
    (b"a", 3, &[7], None, &[1, 255, 0, 7]),
];

/// Whether two books have as many edits and the same rows.
fn are_alike(book: &Book, other: &Book) -> Result<bool, AllocError> {
    let rows = other.list()?;
    Ok(book.edits() == other.edits() && is_listed(book, rows.as_slice())?)
}

/// Whether words that a key is given are answered by this fault, or are accepted.
fn words_are_answered(
    book: &mut Book,
    key: KeyName,
    from: u64,
    words: &[u64],
    fault: Option<Fault>,
) -> bool {
    book.set_words(key, from, words).err() == fault
}

/// The edit that gives a key the numbers that these words are.
fn input_of(alloc: Global, key: KeyName, from: u64, words: &[u64]) -> Result<Edit, AllocError> {
    let values: Vec<u128> = words.iter().map(|word| u128::from(*word)).collect(alloc)?;
    Ok(Edit::Input {
        key,
        from,
        values: Items::new(values),
    })
}

/// Whether an edit is answered by this fault, or is accepted and puts in no row.
fn edit_is_answered(book: &mut Book, edit: Edit, fault: Option<Fault>) -> bool {
    match book.edit(edit) {
        Ok(reply) => reply == EditReply::Accepted && fault.is_none(),
        Err(found) => Some(found) == fault,
    }
}

/// Gives a key of a book words, and of another book the same numbers by an edit. Whether both answer so, and both books have as many
/// edits and the same rows then.
fn gives(
    alloc: Global,
    book: &mut Book,
    other: &mut Book,
    key: KeyName,
    from: u64,
    words: &[u64],
    fault: Option<Fault>,
) -> Result<bool, AllocError> {
    let edit = input_of(alloc, key, from, words)?;
    Ok(
        edit_is_answered(other, edit, fault)
            && words_are_answered(book, key, from, words, fault)
            && are_alike(book, other)?,
    )
}

/// Plays the same steps in two books.
fn both_play(
    rt: &impl Abort,
    alloc: Global,
    book: &mut Book,
    other: &mut Book,
    steps: &[Step],
) -> Result<(), AllocError> {
    plays_in(rt, alloc, book, steps)?;
    plays_in(rt, alloc, other, steps)
}

/// Each row is answered by both books, and by what they hold then, as it is wanted.
fn rows_are_given(
    rt: &impl Abort,
    alloc: Global,
    book: &mut Book,
    other: &mut Book,
) -> Result<(), AllocError> {
    const STEPS: &[Step] = &[Accepts(Set(b"s", &[4])), DeclaresFields(&[b"a"])];
    both_play(rt, alloc, book, other, STEPS)?;
    for (text, from, words, fault, wanted) in ROWS {
        let answered = gives(alloc, book, other, key(rt, *text), *from, *words, *fault)?;
        assert!(rt; answered);
        shows(rt, book, b"a", *wanted)?;
    }
    shows(rt, book, b"s.context", &[1, 0, 1, 0])?;
    Ok(())
}

#[test]
fn words_are_input_data_and_are_refused_as_it_is(rt: HostRuntime) -> Result<(), AllocError> {
    let mut book = Book::new(rt.alloc());
    let mut other = Book::new(rt.alloc());
    rows_are_given(&rt, rt.alloc(), &mut book, &mut other)
}

/// Both books answer some words by this fault, or accept them.
fn are_answered(
    rt: &impl Abort,
    alloc: Global,
    book: &mut Book,
    other: &mut Book,
    from: u64,
    words: &[u64],
    fault: Option<Fault>,
) -> Result<(), AllocError> {
    let answered = gives(alloc, book, other, key(rt, b"a"), from, words, fault)?;
    assert!(rt; answered);
    Ok(())
}

fn readers_are_settled_again(
    rt: &impl Abort,
    alloc: Global,
    book: &mut Book,
    other: &mut Book,
) -> Result<(), AllocError> {
    const STEPS: &[Step] = &[
        Accepts(Set(b"s", &[4])),
        DeclaresFields(&[b"a", b"b", b"c"]),
        Inserts(End, b"u-move-1L b a 8", 1),
        Inserts(End, b"u-move-1L c c 8", 2),
        Settles(2),
    ];
    const AFTER: &[Step] = &[HasUnsettled(1), Settles(1), Shows(b"b", End, &[0, 7, 8, 0])];
    both_play(rt, alloc, book, other, STEPS)?;
    are_answered(rt, alloc, book, other, 1, &[7, 8], None)?;
    both_play(rt, alloc, book, other, AFTER)
}

#[test]
fn the_readers_of_words_become_unsettled(rt: HostRuntime) -> Result<(), AllocError> {
    let mut book = Book::new(rt.alloc());
    let mut other = Book::new(rt.alloc());
    readers_are_settled_again(&rt, rt.alloc(), &mut book, &mut other)
}

#[test]
fn words_after_the_last_edit_are_refused(rt: HostRuntime) -> Result<(), AllocError> {
    let alloc = rt.alloc();
    let mut book = Book::starting_at(alloc, 9_223_372_036_854_775_807);
    let mut other = Book::starting_at(alloc, 9_223_372_036_854_775_807);
    let spent = Some(Fault::EditionsSpent);
    are_answered(&rt, alloc, &mut book, &mut other, 0, &[1], spent)
}

/// A word of 8 bits for each processor from one up to another.
fn words(alloc: Global, seed: u64, from: u64, to: u64) -> Result<Vec<u64>, AllocError> {
    (from..to)
        .map(|v| v.wrapping_mul(seed) % 256)
        .collect(alloc)
}

/// Gives a field the words of a seed, from a processor up to another.
fn fills_from(
    rt: &impl Abort,
    alloc: Global,
    book: &mut Book,
    other: &mut Book,
    seed: u64,
    from: u64,
    to: u64,
) -> Result<(), AllocError> {
    let words = words(alloc, seed, from, to)?;
    are_answered(rt, alloc, book, other, from, words.as_slice(), None)
}

/// What a field holds that was given all words of one seed, and then others between two processors.
fn filled(alloc: Global) -> Result<Vec<u128>, AllocError> {
    (0..65_536u128)
        .map(|v| v.wrapping_mul(if v >= 100 && v < 64_536 { 91 } else { 37 }) % 256)
        .collect(alloc)
}

fn both_are_filled(
    rt: &impl Abort,
    alloc: Global,
    book: &Book,
    other: &Book,
) -> Result<(), AllocError> {
    let wanted = filled(alloc)?;
    shows(rt, book, b"a", wanted.as_slice())?;
    shows(rt, other, b"a", wanted.as_slice())
}

/// All words, and then others from a processor up to another, are what a field of 65,536 processors holds.
fn fills(
    rt: &impl Abort,
    alloc: Global,
    book: &mut Book,
    other: &mut Book,
    steps: &[Step],
) -> Result<(), AllocError> {
    both_play(rt, alloc, book, other, steps)?;
    fills_from(rt, alloc, book, other, 37, 0, 65_536)?;
    fills_from(rt, alloc, book, other, 91, 100, 64_536)?;
    both_are_filled(rt, alloc, book, other)?;
    Ok(())
}

fn fills_new(rt: &impl Abort, alloc: Global, steps: &[Step]) -> Result<(), AllocError> {
    let mut book = Book::new(alloc);
    let mut other = Book::new(alloc);
    fills(rt, alloc, &mut book, &mut other, steps)
}

#[test]
fn words_fill_a_field_of_65536_processors(rt: HostRuntime) -> Result<(), AllocError> {
    const NARROW: &[Step] = &[Accepts(Set(b"s", &[65_536])), Accepts(Field(b"a", b"s", 8))];
    const WIDE: &[Step] = &[
        Accepts(Set(b"s", &[256, 256])),
        Accepts(Field(b"a", b"s", 64)),
    ];
    fills_new(&rt, rt.alloc(), NARROW)?;
    fills_new(&rt, rt.alloc(), WIDE)
}
