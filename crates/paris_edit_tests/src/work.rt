//! The orders and results of a random game, late results and those of the twin too, and what has to become of each.

use crate::books::run;
use crate::game::{Game, Met};
use crate::ledger::{Row, first_ready, has_firm_origins};
use crate::operations::{KEYS, key_name, reads, spelled, throw};
use paris_book::{Book, Look};
use paris_edits::{Status, Verdict};
use paris_exec::{Done, Order};
use paris_field::FieldValue;
use paris_names::{Edition, RowId, Spot};
use std::alloc::AllocError;
use std::process::Abort;

fn set_status(game: &mut Game, id: u64, status: Status) {
    for row in game.rows.iter_mut() {
        if row.id == id {
            row.status = status;
        }
    }
}

/// Whether an order is for the row that is ready, and there is none where none is.
fn is_for(order: &Option<Order>, ready: &Option<Row>) -> bool {
    match (order, ready) {
        (Some(order), Some(row)) => {
            order.id() == RowId(row.id) && order.edition() == Edition(row.edition)
        }
        (None, None) => true,
        _ => false,
    }
}

/// Takes an order, which is for the first row that is ready.
fn takes(rt: &impl Abort, game: &mut Game) -> Result<Option<Order>, AllocError> {
    let ready = first_ready(game.rows.as_slice());
    let order = game.book.take()?;
    assert!(rt; is_for(&order, &ready));
    if let Some(row) = ready {
        set_status(game, row.id, Status::Out);
    }
    Ok(order)
}

/// The spot of a place in the new book, whose ids are counted from 1.
fn spot_once(place: usize) -> Spot {
    if place == 0 {
        Spot::Start
    } else {
        Spot::After(RowId(place as u64))
    }
}

/// Whether a value is that which a key has at a place where the program is run once.
pub(crate) fn is_present(
    rt: &impl Abort,
    once: &Book,
    place: usize,
    key: u64,
    value: &FieldValue,
) -> bool {
    match once.show(key_name(rt, key), spot_once(place)) {
        Ok(Look::Settled(present)) => present.equals(value),
        _ => {
            assert!(rt; false);
            false
        }
    }
}

/// Whether an order's inputs are the present ones for the row at a place.
fn has_present_inputs(rt: &impl Abort, once: &Book, place: usize, row: &Row, done: &Done) -> bool {
    let mut equal = true;
    let mut inputs = done.order().inputs().iter();
    for key in 0..KEYS {
        if reads(row.operation, key) {
            match inputs.next() {
                Some(value) => equal = is_present(rt, once, place, key, value.get()) && equal,
                None => equal = false,
            }
        }
    }
    equal
}

/// Whether a result is for the plan and the inputs that the row at a place has now.
fn belongs(rt: &impl Abort, game: &Game, place: usize, row: &Row, done: &Done) -> bool {
    done.order().plan().instr() == spelled(rt, row.operation)
        && has_firm_origins(game.rows.as_slice(), place, row)
        && has_present_inputs(rt, &game.once, place, row, done)
}

/// What has to become of a result for the row at a place.
fn verdict_at(rt: &impl Abort, game: &Game, place: usize, row: &Row, done: &Done) -> Verdict {
    if Edition(row.edition) != done.order().edition() {
        return Verdict::Stale(Edition(row.edition));
    }
    if row.status.is_settled() {
        return Verdict::Repeated;
    }
    if belongs(rt, game, place, row, done) {
        Verdict::Kept
    } else {
        Verdict::Foreign
    }
}

/// What has to become of a result.
fn verdict(rt: &impl Abort, game: &Game, done: &Done) -> Verdict {
    for (place, row) in game.rows.iter().enumerate() {
        if RowId(row.id) == done.order().id() {
            return verdict_at(rt, game, place, row, done);
        }
    }
    Verdict::Gone
}

/// A copy of the result that was last kept of a row.
fn last_kept(game: &Game, id: u64) -> Result<Option<Done>, AllocError> {
    for done in game.kept.iter().rev() {
        if done.order().id() == RowId(id) {
            return Ok(Some(done.copy()?));
        }
    }
    Ok(None)
}

/// Settles an unsettled row at a place whose last kept result is for its present plan and inputs.
fn cuts_row(rt: &impl Abort, game: &mut Game, place: usize, row: Row) -> Result<(), AllocError> {
    if row.status.is_settled() {
        return Ok(());
    }
    if let Some(done) = last_kept(game, row.id)? {
        if belongs(rt, game, place, &row, &done) {
            set_status(game, row.id, Status::Settled);
            game.met.cut = game.met.cut.wrapping_add(1);
        }
    }
    Ok(())
}

/// Settles each row, one after another, that would compute again what it computed last.
pub(crate) fn cuts_off(rt: &impl Abort, game: &mut Game) -> Result<(), AllocError> {
    for place in 0..game.rows.len() {
        if let Some(row) = game.rows.get(place).copied() {
            cuts_row(rt, game, place, row)?;
        }
    }
    Ok(())
}

fn note(met: &mut Met, verdict: Verdict) {
    match verdict {
        Verdict::Gone => met.gone = met.gone.wrapping_add(1),
        Verdict::Stale(_) => met.stale = met.stale.wrapping_add(1),
        Verdict::Repeated => met.repeated = met.repeated.wrapping_add(1),
        Verdict::Foreign => met.foreign = met.foreign.wrapping_add(1),
        Verdict::Kept => met.kept = met.kept.wrapping_add(1),
    }
}

/// Keeps that a row is settled by a result, and what is cut off then.
fn keeps(rt: &impl Abort, game: &mut Game, done: Done) -> Result<(), AllocError> {
    set_status(game, done.order().id().0, Status::Settled);
    game.kept.push(done)?;
    cuts_off(rt, game)
}

fn brings(rt: &impl Abort, game: &mut Game, done: Done) -> Result<(), AllocError> {
    let wanted = verdict(rt, game, &done);
    let own = done.copy()?;
    assert!(rt; game.book.bring(done) == wanted);
    note(&mut game.met, wanted);
    if wanted == Verdict::Kept {
        keeps(rt, game, own)?;
    }
    Ok(())
}

/// Takes an order, and brings its result at once.
pub(crate) fn plays_work(rt: &impl Abort, game: &mut Game) -> Result<(), AllocError> {
    if let Some(order) = takes(rt, game)? {
        let done = run(rt, game.alloc, order);
        brings(rt, game, done)?;
    }
    Ok(())
}

/// Takes an order, whose result may be brought later.
pub(crate) fn plays_take(rt: &impl Abort, game: &mut Game) -> Result<(), AllocError> {
    if let Some(order) = takes(rt, game)? {
        let done = run(rt, game.alloc, order);
        game.late.push(done)?;
    }
    Ok(())
}

/// Keeps a copy of a result, which may be brought later.
fn keep_copy(game: &mut Game, done: &Done) -> Result<(), AllocError> {
    game.late.push(done.copy()?)?;
    Ok(())
}

/// Lets the twin settle a row by a result, a copy of which may be brought later.
fn twin_settles(rt: &impl Abort, game: &mut Game) -> Result<(), AllocError> {
    if let Some(order) = game.twin.take()? {
        let done = run(rt, game.alloc, order);
        keep_copy(game, &done)?;
        assert!(rt; game.twin.bring(done) == Verdict::Kept);
    }
    Ok(())
}

/// Lets the twin settle its rows.
pub(crate) fn plays_twin(rt: &impl Abort, game: &mut Game) -> Result<(), AllocError> {
    for _ in 0..game.twin.unsettled_count() {
        twin_settles(rt, game)?;
    }
    Ok(())
}

/// One of the last eight results that were kept for later.
fn any_late(game: &mut Game) -> Result<Option<Done>, AllocError> {
    let back = throw(&mut game.dice, 8) as usize;
    match game.late.iter().rev().nth(back) {
        Some(done) => Ok(Some(done.copy()?)),
        None => Ok(None),
    }
}

/// Brings a copy of a late result, which may have been brought before.
pub(crate) fn plays_late(rt: &impl Abort, game: &mut Game) -> Result<(), AllocError> {
    if let Some(done) = any_late(game)? {
        brings(rt, game, done)?;
    }
    Ok(())
}

pub(crate) fn plays_release(game: &mut Game) {
    game.book.release();
    for row in game.rows.iter_mut() {
        if row.status == Status::Out {
            row.status = Status::Waiting;
        }
    }
}
