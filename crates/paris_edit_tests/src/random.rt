//! Random edits, orders and results. After each of them the book is compared with rows that are kept beside it, and with a new
//! book of the present program that is settled.

use crate::changes::plays_edit;
use crate::game::{Game, Met, NOTHING_MET, begins, new_game};
use crate::ledger::{Row, pending, spot_at};
use crate::operations::{KEYS, key_name, spelled, throw};
use crate::work::{is_present, plays_late, plays_release, plays_take, plays_twin, plays_work};
use paris_book::Look;
use paris_edits::RowLook;
use paris_names::{Edition, RowId, Spot};
use std::alloc::{AllocError, Global};
use std::process::Abort;

fn plays_any(rt: &impl Abort, game: &mut Game) -> Result<(), AllocError> {
    match throw(&mut game.dice, 16) {
        0..=4 => plays_edit(rt, game),
        5..=7 => plays_work(rt, game),
        8 | 9 => plays_take(rt, game),
        10 => plays_twin(rt, game),
        11..=14 => plays_late(rt, game),
        _ => {
            plays_release(game);
            Ok(())
        }
    }
}

/// The row that is listed for a row, whose cause is that of the program that is run once where the row is settled.
fn listed(rt: &impl Abort, row: &Row, once: &RowLook) -> RowLook {
    RowLook {
        id: RowId(row.id),
        edition: Edition(row.edition),
        status: row.status,
        instr: spelled(rt, row.operation),
        cause: if row.status.is_settled() {
            once.cause
        } else {
            None
        },
    }
}

/// Whether a book lists the rows that it has to have, and settled rows are refused as in the program that is run once.
fn is_list(rt: &impl Abort, looks: &[RowLook], rows: &[Row], once: &[RowLook]) -> bool {
    for (look, (row, once)) in looks.iter().zip(rows.iter().zip(once)) {
        if *look != listed(rt, row, once) {
            return false;
        }
    }
    looks.len() == rows.len() && once.len() == rows.len()
}

/// The book lists the rows that it has to have.
fn lists_rightly(rt: &impl Abort, game: &Game) -> Result<(), AllocError> {
    let once = game.once.list()?;
    let looks = game.book.list()?;
    assert!(rt; is_list(rt, looks.as_slice(), game.rows.as_slice(), once.as_slice()));
    Ok(())
}

/// Whether as many rows are unsettled as have to be.
fn is_count_right(game: &Game) -> bool {
    let mut count: usize = 0;
    for row in game.rows.iter() {
        if !row.status.is_settled() {
            count = count.wrapping_add(1);
        }
    }
    game.book.unsettled_count() == count
}

/// Whether a key is shown at a place as it has to be: as pending for its origin, or with the value of the program that is run once.
fn is_shown_rightly(rt: &impl Abort, game: &Game, place: usize, spot: Spot, key: u64) -> bool {
    let waits = pending(game.rows.as_slice(), place, key);
    match game.book.show(key_name(rt, key), spot) {
        Ok(Look::Settled(value)) => {
            waits.is_none() && is_present(rt, &game.once, place, key, value)
        }
        Ok(Look::Pending(id)) => Some(id) == waits,
        Err(_) => false,
    }
}

fn shows_all_rightly(rt: &impl Abort, game: &Game, place: usize, spot: Spot) {
    for key in 0..KEYS {
        assert!(rt; is_shown_rightly(rt, game, place, spot, key));
    }
}

/// The list, and each key at the end.
fn is_right(rt: &impl Abort, game: &Game) -> Result<(), AllocError> {
    assert!(rt; is_count_right(game));
    shows_all_rightly(rt, game, game.rows.len(), Spot::End);
    lists_rightly(rt, game)
}

/// Each key at the start and after each row.
fn is_right_everywhere(rt: &impl Abort, game: &Game) {
    for place in 0..game.rows.len().wrapping_add(1) {
        let spot = spot_at(game.rows.as_slice(), place);
        shows_all_rightly(rt, game, place, spot);
    }
}

/// How many games are played.
const GAMES: u64 = 48;

/// How many steps a game has.
const STEPS: u64 = 64;

/// Plays a step. After each eighth one the book is looked at everywhere.
fn plays_step(rt: &impl Abort, game: &mut Game, step: u64) -> Result<(), AllocError> {
    plays_any(rt, game)?;
    is_right(rt, game)?;
    if step % 8 == 7 {
        is_right_everywhere(rt, game);
    }
    Ok(())
}

fn plays_steps(rt: &impl Abort, game: &mut Game) -> Result<Met, AllocError> {
    begins(rt, game)?;
    for step in 0..STEPS {
        plays_step(rt, game, step)?;
    }
    Ok(game.met)
}

/// Plays a game, and tells which verdicts were met.
fn plays(rt: &impl Abort, alloc: Global, seed: u64) -> Result<Met, AllocError> {
    let mut game = new_game(alloc, seed);
    plays_steps(rt, &mut game)
}

fn both(one: Met, other: Met) -> Met {
    Met {
        gone: one.gone.wrapping_add(other.gone),
        stale: one.stale.wrapping_add(other.stale),
        repeated: one.repeated.wrapping_add(other.repeated),
        foreign: one.foreign.wrapping_add(other.foreign),
        kept: one.kept.wrapping_add(other.kept),
        cut: one.cut.wrapping_add(other.cut),
    }
}

fn plays_games(rt: &impl Abort, alloc: Global, first: u64) -> Result<Met, AllocError> {
    let mut met = NOTHING_MET;
    for seed in 0..GAMES {
        met = both(met, plays(rt, alloc, first.wrapping_add(seed))?);
    }
    Ok(met)
}

#[test]
fn a_book_agrees_with_a_single_run_after_random_steps(rt: HostRuntime) -> Result<(), AllocError> {
    let met = plays_games(&rt, rt.alloc(), 1987)?;
    assert!(rt; met.gone > 0 && met.stale > 0 && met.repeated > 0);
    assert!(rt; met.foreign > 0 && met.kept > 0 && met.cut > 0);
    Ok(())
}
