//! The rows that a random game keeps beside its book, and what has to be true of them, the slow way.

use crate::operations::{KEYS, Operation, reads, writes};
use paris_edits::Status;
use paris_names::{RowId, Spot};
use std::alloc::{AllocError, Global};

/// A row as it has to be.
#[derive(Clone, Copy)]
pub(crate) struct Row {
    pub(crate) id: u64,
    pub(crate) set_by: u64,
    pub(crate) operation: Operation,
    pub(crate) edition: u64,
    pub(crate) status: Status,
}

/// The last row above a place that writes a key.
fn writer(rows: &[Row], place: usize, key: u64) -> Option<Row> {
    let mut last = None;
    for row in rows.iter().take(place) {
        if writes(row.operation, key) {
            last = Some(*row);
        }
    }
    last
}

/// A code with a further number.
fn joined(code: u64, number: u64) -> u64 {
    let mixed = (code ^ number).wrapping_mul(11_400_714_819_323_198_485);
    (mixed ^ (mixed >> 29)).wrapping_mul(13_787_848_793_156_543_929)
}

/// The code of the recipe of a key's origin, from the codes of the rows above. Where none of them writes the key, it is that of
/// the edit that gave its start.
fn origin_code(rows: &[Row], codes: &[u64], given: u64, key: u64) -> u64 {
    let mut found = joined(0, given);
    for (row, code) in rows.iter().zip(codes) {
        if writes(row.operation, key) {
            found = *code;
        }
    }
    found
}

/// The code of a row's recipe: its id, the edit that set its instruction, and the recipes of the origins of the keys that it
/// reads.
fn row_code(rows: &[Row], codes: &[u64], given: &[u64], row: &Row) -> u64 {
    let mut code = joined(joined(1, row.id), row.set_by);
    for (key, number) in given.iter().enumerate() {
        let key = key as u64;
        if reads(row.operation, key) {
            code = joined(code, origin_code(rows, codes, *number, key));
        }
    }
    code
}

/// The codes of all rows' recipes.
pub(crate) fn recipes(alloc: Global, rows: &[Row], given: &[u64]) -> Result<Vec<u64>, AllocError> {
    let mut codes = Vec::new(alloc);
    for row in rows {
        let code = row_code(rows, codes.as_slice(), given, row);
        codes.push(code)?;
    }
    Ok(codes)
}

/// The spot just after the rows above a place.
pub(crate) fn spot_at(rows: &[Row], place: usize) -> Spot {
    match rows.iter().take(place).last() {
        Some(row) => Spot::After(RowId(row.id)),
        None => Spot::Start,
    }
}

/// The rows with one more at a place.
pub(crate) fn with_row(
    alloc: Global,
    rows: &[Row],
    place: usize,
    row: Row,
) -> Result<Vec<Row>, AllocError> {
    let (above, below) = rows.split_at(place.min(rows.len()));
    let mut new = Vec::from_slice(alloc, above)?;
    new.push(row)?;
    new.extend_from_slice(below)?;
    Ok(new)
}

/// The rows but that at a place.
pub(crate) fn without_row(
    alloc: Global,
    rows: &[Row],
    place: usize,
) -> Result<Vec<Row>, AllocError> {
    let mut new = Vec::new(alloc);
    for (i, row) in rows.iter().enumerate() {
        if i != place {
            new.push(*row)?;
        }
    }
    Ok(new)
}

/// Whether the origin of a key above a place is the start or a settled row.
fn is_firm(rows: &[Row], place: usize, key: u64) -> bool {
    match writer(rows, place, key) {
        Some(row) => row.status.is_settled(),
        None => true,
    }
}

/// Whether that holds of all keys that a row reads.
pub(crate) fn has_firm_origins(rows: &[Row], place: usize, row: &Row) -> bool {
    let mut firm = true;
    for key in 0..KEYS {
        if reads(row.operation, key) && !is_firm(rows, place, key) {
            firm = false;
        }
    }
    firm
}

/// The first row that waits, and all of whose origins are firm.
pub(crate) fn first_ready(rows: &[Row]) -> Option<Row> {
    for (place, row) in rows.iter().enumerate() {
        if row.status.is_waiting() && has_firm_origins(rows, place, row) {
            return Some(*row);
        }
    }
    None
}

/// The unsettled row that is a key's origin at a place.
pub(crate) fn pending(rows: &[Row], place: usize, key: u64) -> Option<RowId> {
    match writer(rows, place, key) {
        Some(row) if !row.status.is_settled() => Some(RowId(row.id)),
        _ => None,
    }
}
