//! What a random game keeps: a book, the rows that it has to have, and what it is compared with.

use crate::books::declare_all;
use crate::ledger::{Row, recipes};
use crate::operations::{CONTEXT, Dice, KEYS};
use paris_book::Book;
use paris_edits::Status;
use paris_exec::Done;
use std::alloc::{AllocError, Global};
use std::process::Abort;

/// A book and the rows that it has to have, with each key's numbers at the start and the edit that gave them; a new book of the
/// same program, which is settled; a twin, which is given the same edits but for some numbers; results that are brought late; those
/// that were kept; and the recipes of the rows before the last edit.
#[derive(Drop)]
pub(crate) struct Game {
    pub(crate) alloc: Global,
    pub(crate) dice: Dice,
    pub(crate) book: Book,
    pub(crate) once: Book,
    pub(crate) twin: Book,
    pub(crate) rows: Vec<Row>,
    pub(crate) next: u64,
    pub(crate) given: Vec<u64>,
    pub(crate) start: Vec<Vec<u128>>,
    pub(crate) late: Vec<Done>,
    pub(crate) kept: Vec<Done>,
    pub(crate) before: Vec<u64>,
    pub(crate) met: Met,
}

/// How often each verdict was met, and how often a row was cut off.
#[derive(Clone, Copy)]
pub(crate) struct Met {
    pub(crate) gone: u64,
    pub(crate) stale: u64,
    pub(crate) repeated: u64,
    pub(crate) foreign: u64,
    pub(crate) kept: u64,
    pub(crate) cut: u64,
}

pub(crate) const NOTHING_MET: Met = Met {
    gone: 0,
    stale: 0,
    repeated: 0,
    foreign: 0,
    kept: 0,
    cut: 0,
};

fn four(alloc: Global, number: u128) -> Result<Vec<u128>, AllocError> {
    Vec::from_slice(alloc, &[number, number, number, number])
}

/// The numbers that keys have when they are declared.
fn declared_numbers(alloc: Global) -> Result<Vec<Vec<u128>>, AllocError> {
    let mut numbers = Vec::new(alloc);
    for key in 0..KEYS {
        let number = if key == CONTEXT { 1 } else { 0 };
        numbers.push(four(alloc, number)?)?;
    }
    Ok(numbers)
}

/// A game that has declared nothing yet.
pub(crate) fn new_game(alloc: Global, seed: u64) -> Game {
    Game {
        alloc,
        dice: Dice { state: seed },
        book: Book::new(alloc),
        once: Book::new(alloc),
        twin: Book::new(alloc),
        rows: Vec::new(alloc),
        next: 1,
        given: Vec::new(alloc),
        start: Vec::new(alloc),
        late: Vec::new(alloc),
        kept: Vec::new(alloc),
        before: Vec::new(alloc),
        met: NOTHING_MET,
    }
}

/// Declares the same in each of the books.
pub(crate) fn begins(rt: &impl Abort, game: &mut Game) -> Result<(), AllocError> {
    declare_all(rt, game.alloc, &mut game.book)?;
    declare_all(rt, game.alloc, &mut game.once)?;
    declare_all(rt, game.alloc, &mut game.twin)?;
    game.given.extend_from_slice(&[2, 3, 4, 1, 1, 1, 1])?;
    game.start = declared_numbers(game.alloc)?;
    Ok(())
}

fn present_recipes(game: &Game) -> Result<Vec<u64>, AllocError> {
    recipes(game.alloc, game.rows.as_slice(), game.given.as_slice())
}

/// Keeps the recipes of the rows as they are before an edit.
pub(crate) fn keep_recipes(game: &mut Game) -> Result<(), AllocError> {
    game.before = present_recipes(game)?;
    Ok(())
}

/// Marks the rows whose recipes the last edit changed.
pub(crate) fn mark(game: &mut Game) -> Result<(), AllocError> {
    let number = game.book.edits();
    let codes = present_recipes(game)?;
    for (row, code) in game.rows.iter_mut().zip(codes) {
        if !game.before.contains(&code) {
            row.edition = number;
            row.status = Status::Waiting;
        }
    }
    Ok(())
}
