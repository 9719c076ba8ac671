//! The rows of an index in program order, which copies share until one of them changes them.

ghost use Rattle.std.specs.Prelude.{◌≡◌, ◌^◌, ◌<◌, ◌≤◌, [], Some, IfOk, IfSome, OnOk, insert, length, remove, slice_get};
ghost use Rattle.std.specs.Option.{option_copied, option_map};
ghost use Rattle.paris_program.specs.Program.{ids_of, place_of, row_of, with_row};
ghost use Rattle.paris_depends.specs.Index.{footprint};
ghost use Rattle.paris_depends.specs.RowTable.{HasPlace, IsOwnAt};

use crate::row_keys::RowKeys;
use paris_blocks::Blocks;
use paris_instr::SharedPlan;
use paris_names::RowId;
use paris_program::Program;
use std::alloc::{AllocError, Global};
use std::marker::Model;

/// Rows in program order, each with its id and its keys. Where a row stands is asked of the program. Some may be changed; the others may
/// be shared with copies of the table. A clause sees the rows, which of them may be changed, and where a row can be put in with no more
/// memory.
#[derive(Drop)]
pub(crate) struct RowTable {
    rows: Blocks<RowKeys>,
}

impl Model for RowTable {
    ghost use Rattle.paris_depends.specs.RowTable.{RowTable as Tabled, tabled};

    ghost Value = { Tabled };

    ghost view = { tabled };
}

impl RowTable {
    /// No rows. It takes no memory until the first row.
    pub(crate) fn new(alloc: Global) -> RowTable
        ensures { result.rows ≡ [] }
    {
        RowTable {
            rows: Blocks::new(alloc),
        }
    }

    /// The place of the row with this id, counted from 0, in a table of the program's rows. `None` where no row has it.
    pub(crate) fn place_of<T>(&self, program: &Program<T>, id: RowId) -> Option<usize>
        requires { ids_of program.now.rows ≡ ids_of self.now.rows }
        ensures value { result ≡ place_of self.now.rows id.0 }
        ensures within { IfSome result (λ place. place < length self.now.rows) }
    {
        program.place_of(id)
    }

    /// The row at a place, counted from 0.
    pub(crate) fn at(&self, place: usize) -> &RowKeys
        requires { place < length self.now.rows }
        ensures { slice_get self.now.rows place ≡ Some result.now }
    {
        self.rows.at(place)
    }

    /// The row with this id, in a table of the program's rows. `None` where there is none.
    pub(crate) fn row<T>(&self, program: &Program<T>, id: RowId) -> Option<&RowKeys>
        requires { ids_of program.now.rows ≡ ids_of self.now.rows }
        ensures { option_map (λ r. r.1) (option_copied result) ≡ row_of self.now.rows id.0 }
    {
        match self.place_of(program, id) {
            Some(place) => Some(self.at(place)),
            None => None,
        }
    }

    /// Makes room for one more row at a place. The rows stay, also where memory is refused.
    pub(crate) fn room(&mut self, place: usize) -> Result<(), AllocError>
        requires { place ≤ length self.old.rows }
        ensures rows { self.new.rows ≡ self.old.rows }
        ensures ok { OnOk result (HasPlace self.new place) }
    {
        self.rows.room(place)
    }

    /// Makes the row at a place one that may be changed. The rows stay, also where memory is refused.
    pub(crate) fn own(&mut self, place: usize) -> Result<(), AllocError>
        requires { place < length self.old.rows }
        ensures rows { self.new.rows ≡ self.old.rows }
        ensures ok { OnOk result (IsOwnAt self.new place) }
    {
        self.rows.own(place)
    }

    /// Puts a row in at a place, before those that stand there, where there is room for it.
    pub(crate) fn put(&mut self, place: usize, id: RowId, plan: SharedPlan)
        requires there { place ≤ length self.old.rows }
        requires room { HasPlace self.old place }
        requires few { length self.old.rows < 2 ^ 63 }
        ensures { self.new.rows ≡ insert self.old.rows place (id.0, footprint plan) }
    {
        self.rows.insert(place, RowKeys::new(id, plan));
    }

    /// Takes the row at a place out, which may be changed. It takes no memory.
    pub(crate) fn take_out(&mut self, place: usize)
        requires there { place < length self.old.rows }
        requires own { IsOwnAt self.old place }
        ensures { self.new.rows ≡ remove self.old.rows place }
    {
        let _row = self.rows.remove(place);
    }

    /// Gives the row at a place, which may be changed, the keys of another plan. It takes no memory.
    pub(crate) fn replace(&mut self, place: usize, plan: SharedPlan)
        requires there { place < length self.old.rows }
        requires own { IsOwnAt self.old place }
        ensures { self.new.rows ≡ with_row self.old.rows place (footprint plan) }
    {
        let row = self.rows.at_mut(place);
        row.set_plan(plan);
    }

    /// Makes the rows ones that copies share. It takes no memory.
    pub(crate) fn share(&mut self)
        ensures { self.new.rows ≡ self.old.rows }
    {
        self.rows.share(0, self.rows.len());
    }

    /// A table of the same rows. It has the shared rows in common with this one, and copies of the others.
    pub(crate) fn copy(&self) -> Result<RowTable, AllocError>
        ensures { IfOk result (λ copy. copy.rows ≡ self.now.rows) }
    {
        let rows = self.rows.copy()?;
        Ok(RowTable { rows })
    }
}
