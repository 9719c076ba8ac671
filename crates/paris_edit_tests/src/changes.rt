//! The edits of a random game, each of which is made in the book and, but for some numbers, in its twin, and the new book that is
//! settled after it.

use crate::books::{accept, declare_all, insert, refuse};
use crate::game::{Game, keep_recipes, mark};
use crate::ledger::{Row, spot_at, with_row, without_row};
use crate::operations::{
    KEYS, Operation, any_operation, any_place, any_values, key_name, spelled, throw,
    twin_operation, twin_values,
};
use crate::work::cuts_off;
use paris_book::Book;
use paris_edits::{Edit, Status};
use paris_names::{Fault, Items, RowId, Spot};
use std::alloc::{AllocError, Global};
use std::process::Abort;

/// A key's numbers after an input from a processor on.
fn with_input(
    alloc: Global,
    old: &[u128],
    from: u64,
    values: &[u128],
) -> Result<Vec<u128>, AllocError> {
    let mut new = Vec::new(alloc);
    for (v, number) in old.iter().enumerate() {
        let place = v.wrapping_sub(from as usize);
        new.push(*values.get(place).unwrap_or(number))?;
    }
    Ok(new)
}

fn give(rt: &impl Abort, book: &mut Book, key: u64, from: u64, values: Vec<u128>) {
    let input = Edit::Input {
        key: key_name(rt, key),
        from,
        values: Items::new(values),
    };
    accept(rt, book, input);
}

fn give_both(
    rt: &impl Abort,
    game: &mut Game,
    key: u64,
    from: u64,
    values: &[u128],
) -> Result<(), AllocError> {
    let own = Vec::from_slice(game.alloc, values)?;
    give(rt, &mut game.book, key, from, own);
    let others = twin_values(game.alloc, &mut game.dice, values)?;
    give(rt, &mut game.twin, key, from, others);
    Ok(())
}

/// Keeps that the last edit gave a key these numbers.
fn keep_start(game: &mut Game, key: u64, from: u64, values: &[u128]) -> Result<(), AllocError> {
    let number = game.book.edits();
    if let Some(given) = game.given.get_mut(key as usize) {
        *given = number;
    }
    if let Some(numbers) = game.start.get_mut(key as usize) {
        *numbers = with_input(game.alloc, numbers.as_slice(), from, values)?;
    }
    Ok(())
}

/// Gives both books values, and keeps them.
fn give_and_keep(
    rt: &impl Abort,
    game: &mut Game,
    key: u64,
    from: u64,
    values: &[u128],
) -> Result<(), AllocError> {
    keep_recipes(game)?;
    give_both(rt, game, key, from, values)?;
    keep_start(game, key, from, values)?;
    mark(game)
}

fn plays_input(rt: &impl Abort, game: &mut Game) -> Result<(), AllocError> {
    let key = throw(&mut game.dice, KEYS);
    let from = throw(&mut game.dice, 4);
    let values = any_values(game.alloc, &mut game.dice, key, from)?;
    give_and_keep(rt, game, key, from, values.as_slice())
}

/// The spot of a place, which for that behind the last row is the end in half of the cases.
fn any_spot(game: &mut Game, place: usize) -> Spot {
    if place == game.rows.len() && throw(&mut game.dice, 2) == 0 {
        Spot::End
    } else {
        spot_at(game.rows.as_slice(), place)
    }
}

/// A row that the last edit put into the program or replaced.
fn fresh(game: &Game, id: u64, operation: Operation) -> Row {
    let number = game.book.edits();
    Row {
        id,
        set_by: number,
        operation,
        edition: number,
        status: Status::Waiting,
    }
}

fn insert_both(rt: &impl Abort, game: &mut Game, spot: Spot, operation: Operation) {
    let other = twin_operation(&mut game.dice, operation);
    insert(rt, &mut game.book, spot, spelled(rt, operation), game.next);
    insert(rt, &mut game.twin, spot, spelled(rt, other), game.next);
}

fn plays_insert(rt: &impl Abort, game: &mut Game) -> Result<(), AllocError> {
    keep_recipes(game)?;
    let place = any_place(&mut game.dice, game.rows.len());
    let spot = any_spot(game, place);
    let operation = any_operation(&mut game.dice);
    insert_both(rt, game, spot, operation);
    let row = fresh(game, game.next, operation);
    game.next = game.next.wrapping_add(1);
    game.rows = with_row(game.alloc, game.rows.as_slice(), place, row)?;
    mark(game)
}

fn plays_delete(
    rt: &impl Abort,
    game: &mut Game,
    place: usize,
    row: Row,
) -> Result<(), AllocError> {
    keep_recipes(game)?;
    accept(rt, &mut game.book, Edit::Delete(RowId(row.id)));
    accept(rt, &mut game.twin, Edit::Delete(RowId(row.id)));
    game.rows = without_row(game.alloc, game.rows.as_slice(), place)?;
    mark(game)
}

fn replace_both(rt: &impl Abort, game: &mut Game, id: u64, operation: Operation) {
    let other = twin_operation(&mut game.dice, operation);
    let own = Edit::Replace {
        row: RowId(id),
        instr: spelled(rt, operation),
    };
    accept(rt, &mut game.book, own);
    let others = Edit::Replace {
        row: RowId(id),
        instr: spelled(rt, other),
    };
    accept(rt, &mut game.twin, others);
}

/// Gives a row another instruction, or in some cases the same again.
fn plays_replace(
    rt: &impl Abort,
    game: &mut Game,
    place: usize,
    row: Row,
) -> Result<(), AllocError> {
    keep_recipes(game)?;
    let operation = if throw(&mut game.dice, 4) == 0 {
        row.operation
    } else {
        any_operation(&mut game.dice)
    };
    replace_both(rt, game, row.id, operation);
    let new = fresh(game, row.id, operation);
    if let Some(old) = game.rows.get_mut(place) {
        *old = new;
    }
    mark(game)
}

/// Deletes or replaces a row. Where the dice give the place behind the last row, no row has the id, and the edit is refused.
fn plays_change(rt: &impl Abort, game: &mut Game, deletes: bool) -> Result<(), AllocError> {
    let place = any_place(&mut game.dice, game.rows.len());
    match game.rows.get(place).copied() {
        Some(row) if deletes => plays_delete(rt, game, place, row),
        Some(row) => plays_replace(rt, game, place, row),
        None => {
            let unknown = Edit::Delete(RowId(game.next));
            refuse(rt, &mut game.book, unknown, Fault::NoRow);
            Ok(())
        }
    }
}

/// Inserts a row where there are few, and deletes one where there are many.
fn plays_growth(rt: &impl Abort, game: &mut Game) -> Result<(), AllocError> {
    if game.rows.len() < 6 {
        plays_insert(rt, game)
    } else {
        plays_change(rt, game, true)
    }
}

/// Gives a key of a new book its numbers at the start.
fn give_start(
    rt: &impl Abort,
    alloc: Global,
    book: &mut Book,
    key: u64,
    numbers: &[u128],
) -> Result<(), AllocError> {
    give(rt, book, key, 0, Vec::from_slice(alloc, numbers)?);
    Ok(())
}

fn give_all(
    rt: &impl Abort,
    alloc: Global,
    book: &mut Book,
    start: &[Vec<u128>],
) -> Result<(), AllocError> {
    for (key, numbers) in start.iter().enumerate() {
        give_start(rt, alloc, book, key as u64, numbers.as_slice())?;
    }
    Ok(())
}

fn insert_all(rt: &impl Abort, book: &mut Book, rows: &[Row]) {
    for (place, row) in rows.iter().enumerate() {
        let id = (place as u64).wrapping_add(1);
        insert(rt, book, Spot::End, spelled(rt, row.operation), id);
    }
}

/// Gives a new book the present declarations, input data and rows, and settles it.
fn run_once(rt: &impl Abort, game: &mut Game) -> Result<(), AllocError> {
    game.once = Book::new(game.alloc);
    declare_all(rt, game.alloc, &mut game.once)?;
    give_all(rt, game.alloc, &mut game.once, game.start.as_slice())?;
    insert_all(rt, &mut game.once, game.rows.as_slice());
    assert!(rt; game.once.settle().is_ok());
    Ok(())
}

fn plays_any_edit(rt: &impl Abort, game: &mut Game) -> Result<(), AllocError> {
    match throw(&mut game.dice, 6) {
        0 | 1 => plays_input(rt, game),
        2 => plays_change(rt, game, true),
        3 => plays_change(rt, game, false),
        _ => plays_growth(rt, game),
    }
}

/// Makes an edit, and runs the program once that it leaves. Rows that would compute again what they computed last are settled.
pub(crate) fn plays_edit(rt: &impl Abort, game: &mut Game) -> Result<(), AllocError> {
    plays_any_edit(rt, game)?;
    run_once(rt, game)?;
    cuts_off(rt, game)
}
