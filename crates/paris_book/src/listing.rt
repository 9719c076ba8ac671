//! The list of rows, with their states.

ghost use Rattle.std.specs.Prelude.{◌≡◌, length, map, slice_set, IfOk};
ghost use Rattle.paris_events.specs.Lists.{list_of};
ghost use Rattle.paris_events.specs.Settling.{unsettled_rows};
ghost use Rattle.paris_book.specs.Among.{listed_entry, looks_kept};
ghost use Rattle.paris_book.specs.Entries.{machine_row};
ghost use Rattle.paris_book.specs.TouchedIds.{touched_ids};
ghost use Rattle.paris_book.specs.Unsettled.{filled, unsettled_ids};

use crate::book::Book;
use crate::loose::Loose;
use crate::program_rows::Rows;
use crate::refusals::cause_of;
use crate::rows::RowData;
use paris_edits::RowLook;
use paris_names::{Items, RowId};
use std::alloc::{AllocError, Global};

/// A row as it is listed.
fn listed(id: RowId, row: &RowData) -> RowLook
    ensures { result ≡ listed_entry (id.0, row.now) }
{
    RowLook {
        id,
        edition: row.edition(),
        status: row.status(),
        instr: row.plan().instr(),
        cause: cause_of(id, row),
    }
}

/// The rows as they are listed, in order.
fn listed_among(alloc: Global, rows: &Rows) -> Result<Vec<RowLook>, AllocError>
    ensures { IfOk result (λ looks. looks.items ≡ looks_kept rows.now.rows) }
{
    let mut looks = Vec::new(alloc);
    for place in 0..rows.len() {
        let (id, row) = rows.at(place);
        looks.extend_from_slice(&[listed(id, row)])?;
    }
    Ok(looks)
}

/// Puts the ids of the first unsettled rows into a room, as many as it has places for.
fn put_unsettled(rows: &Rows, room: &mut [u64])
    ensures { room.new ≡ filled room.old (unsettled_ids (map machine_row rows.now.rows)) }
{
    let mut from = 0;
    for i in 0..room.len() {
        let Some(place) = rows.next_unsettled(from) else {
            return;
        };
        let (id, _) = rows.at(place);
        room[i] = id.0;
        from = place + 1;
    }
}

/// Puts an id into a room, where it has that place.
pub(crate) fn put_id(room: &mut [u64], at: usize, id: u64)
    ensures { room.new ≡ slice_set room.old at id }
{
    if at < room.len() {
        room[at] = id;
    }
}

/// Puts the ids of the first rows that an edit behind the first so many touched into a room, as many as it has places for, and says
/// how many rows these are.
fn put_touched(rows: &Rows, since: u64, room: &mut [u64]) -> usize
    ensures ids { room.new ≡ filled room.old (touched_ids since (map machine_row rows.now.rows)) }
    ensures count { result ≡ length (touched_ids since (map machine_row rows.now.rows)) }
{
    let mut count = 0;
    for place in 0..rows.len() {
        let (id, row) = rows.at(place);
        if row.edition().0 > since {
            put_id(room, count, id.0);
            count += 1;
        }
    }
    count
}

impl Loose {
    /// The rows as they are listed.
    fn list(&self) -> Result<Items<RowLook>, AllocError>
        ensures { IfOk result (λ looks. looks ≡ list_of self.now) }
    {
        let looks = listed_among(self.alloc, &self.rows)?;
        Ok(Items::new(looks))
    }

    /// Puts the ids of the first unsettled rows into a room, as many as it has places for, and says how many rows are unsettled.
    fn unsettled_ids(&self, room: &mut [u64]) -> usize
        ensures ids { room.new ≡ filled room.old (unsettled_ids self.now.rows) }
        ensures count { result ≡ unsettled_rows self.now.rows }
    {
        put_unsettled(&self.rows, room);
        self.unsettled_count()
    }

    /// Puts the ids of the first rows that an edit behind the first so many touched into a room, as many as it has places for, and
    /// says how many rows these are.
    fn touched_ids(&self, since: u64, room: &mut [u64]) -> usize
        ensures ids { room.new ≡ filled room.old (touched_ids since self.now.rows) }
        ensures count { result ≡ length (touched_ids since self.now.rows) }
    {
        put_touched(&self.rows, since, room)
    }
}

impl Book {
    /// The rows in program order: the id, the edition, the status and the instruction of each, and where it is settled and refused
    /// where the program is run once from the input data, the cause. The error says that memory for the list was refused.
    pub fn list(&self) -> Result<Items<RowLook>, AllocError>
        ensures { IfOk result (λ looks. looks ≡ list_of self.now) }
    {
        self.loose.list()
    }

    /// Puts the ids of the unsettled rows into a room, in program order, as many as it has places for, and says how many rows are
    /// unsettled. It takes no memory.
    pub fn unsettled_ids(&self, room: &mut [u64]) -> usize
        ensures ids { room.new ≡ filled room.old (unsettled_ids self.now.rows) }
        ensures count { result ≡ unsettled_rows self.now.rows }
    {
        self.loose.unsettled_ids(room)
    }

    /// Puts the ids of the rows that an edit behind the first so many touched into a room, in program order, as many as it has places
    /// for, and says how many rows these are: rows that were put in or replaced, and those whose recipe became another one, settled or
    /// not. It takes no memory.
    pub fn touched_ids(&self, since: u64, room: &mut [u64]) -> usize
        ensures ids { room.new ≡ filled room.old (touched_ids since self.now.rows) }
        ensures count { result ≡ length (touched_ids since self.now.rows) }
    {
        self.loose.touched_ids(since, room)
    }
}
