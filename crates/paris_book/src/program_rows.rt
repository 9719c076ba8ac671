//! The rows of a book in program order.

ghost use Rattle.std.specs.Prelude.{◌≡◌, ◌+◌, ◌^◌, ◌<◌, ◌≤◌, ◌↔◌, true, [], length, drop, map, remove, slice_get, take, Some, IsSome, IfOk, IfSome, OnOk, OnErr};
ghost use Rattle.std.specs.Option.{option_copied, option_map};
ghost use Rattle.paris_names.specs.Keys.{has_key};
ghost use Rattle.paris_names.specs.declared.limits.TheConstants.{MAX_ROWS};
ghost use Rattle.paris_program.specs.Program.{IsProgram, Inserts, Stays, AreOwn, KeepsOwn, IsOwn, IsOwnRow, place_of, place_in, row_of, with_row};
ghost use Rattle.paris_depends.specs.Index.{footprint, footprints};
ghost use Rattle.paris_depends.specs.Sweeps.{touched};
ghost use Rattle.paris_model.specs.Recipe.{origin as last_writer};
ghost use Rattle.paris_events.specs.Settling.{unsettled_rows};
ghost use Rattle.paris_book.specs.Entries.{Entry, ChangedAt, entry_plan, machine_row};
ghost use Rattle.paris_book.specs.Indexed.{IsUnsettledAt};
ghost use Rattle.paris_book.specs.Marks.{data_plan, is_among, ids_in, out_data, kept_data, again_data, recalled_data, stale_data};
ghost use Rattle.paris_book.specs.MostRead.{most_read};
ghost use Rattle.paris_book.specs.SharedIndexes.{CanAddIn, indexed_in};
ghost use Rattle.paris_book.specs.Statuses.{next_unsettled};

use crate::rows::RowData;
use crate::shared_index::SharedIndex;
use crate::sources::Sources;
use crate::statuses::Statuses;
use paris_depends::{Looks, affected, origin};
use paris_exec::Done;
use paris_instr::SharedPlan;
use paris_names::{Key, RowId};
use paris_program::Program;
use std::alloc::{AllocError, Global};
use std::marker::Model;

/// The rows of a book in program order, with their index, and once more where each of them stands, so that a search for unsettled
/// rows passes the others over. There are no more rows than a program may have. Unsettled rows may be changed; others may be shared with
/// copies. A clause sees the program.
#[derive(Drop)]
pub(crate) struct Rows {
    alloc: Global,
    program: Program<RowData>,
    index: SharedIndex,
    statuses: Statuses,
}

impl Model for Rows {
    ghost use Rattle.paris_program.specs.Program.{Program};
    ghost use Rattle.paris_book.specs.Rows.{RowData};
    ghost use Rattle.paris_book.specs.Indexed.{IsHeld};
    ghost use Rattle.paris_book.specs.SharedIndexes.{indexed_in};

    ghost Value = { Program RowData };

    ghost view = { λ r. r.program };

    ghost invariant = { λ r. IsHeld r.program (indexed_in r.index) r.statuses };
}

/// Adds the row at a place to the index of all others, which has room for it.
fn add_row(index: &mut SharedIndex, program: &Program<RowData>, place: usize, plan: SharedPlan)
    requires there { place < length program.now.rows }
    requires others { remove (footprints data_plan program.now.rows) place ≡ indexed_in index.old }
    requires plan { (e : Entry) → slice_get program.now.rows place ≡ Some e → e.1.plan ≡ plan }
    requires room { CanAddIn index.old place (footprint plan) }
    ensures { footprints data_plan program.now.rows ≡ indexed_in index.new }
{
    let (id, _) = program.at(place);
    index.add(program, id, plan);
}

impl Rows {
    /// No rows, and 1 as the first id. It takes no memory until the first insert.
    pub(crate) fn new(alloc: Global) -> Rows
        ensures rows { result.rows ≡ [] }
        ensures next_id { result.next_id ≡ 1 }
    {
        Rows {
            alloc,
            program: Program::new(alloc),
            index: SharedIndex::new(alloc),
            statuses: Statuses::new(alloc),
        }
    }

    /// A copy with the same rows under the same ids, and the same next id. It shares the plans and the results of the rows, and
    /// their index.
    pub(crate) fn copy(&self) -> Result<Rows, AllocError>
        ensures rows { IfOk result (λ rows. rows.rows ≡ self.now.rows) }
        ensures next_id { IfOk result (λ rows. rows.next_id ≡ self.now.next_id) }
    {
        let program = self.program.copy()?;
        let index = self.index.copy(self.alloc)?;
        let statuses = self.statuses.copy()?;
        Ok(Rows {
            alloc: self.alloc,
            program,
            index,
            statuses,
        })
    }

    /// How many rows there are.
    pub(crate) fn len(&self) -> usize
        ensures value { result ≡ length self.now.rows }
        ensures sound { IsProgram self.now }
    {
        self.program.len()
    }

    /// The place of the row with this id, counted from 0. `None` where no row has it.
    pub(crate) fn place_of(&self, id: RowId) -> Option<usize>
        ensures value { result ≡ place_of self.now.rows id.0 }
        ensures within { IfSome result (λ place. place < length self.now.rows) }
        ensures sound { IsProgram self.now }
    {
        self.program.place_of(id)
    }

    /// What is kept of the row with this id. `None` where no row has it.
    pub(crate) fn row(&self, id: RowId) -> Option<&RowData>
        ensures value { option_copied result ≡ row_of self.now.rows id.0 }
        ensures found { IsSome result ↔ IsSome (place_of self.now.rows id.0) }
        ensures sound { IsProgram self.now }
    {
        self.program.row(id)
    }

    /// The row at a place, counted from 0: its id, and what is kept of it.
    pub(crate) fn at(&self, place: usize) -> (RowId, &RowData)
        requires { place < length self.now.rows }
        ensures value { slice_get self.now.rows place ≡ Some (result.0.0, result.1.now) }
        ensures sound { IsProgram self.now }
    {
        self.program.at(place)
    }

    /// The id of the last row before a place that writes a key. `None` where no row does: the value comes from the start.
    pub(crate) fn origin(&self, place: usize, key: &Key) -> Option<RowId>
        requires { place ≤ length self.now.rows }
        ensures { option_map (λ id. id.0) result ≡ option_map (λ r. r.0) (last_writer entry_plan key.now (take place self.now.rows)) }
    {
        let mut looks = Looks::new();
        origin(&self.program, self.index.get(), place, *key, &mut looks)
    }

    /// The ids of the rows from a place on that become unsettled where just these keys get new recipes at that place, in program
    /// order. Entries of the index that are read are counted.
    pub(crate) fn affected(
        &self,
        alloc: Global,
        place: usize,
        keys: &[Key],
        looks: &mut Looks,
    ) -> Result<Vec<RowId>, AllocError>
        requires within { place ≤ length self.now.rows }
        requires few { length keys.now ≤ 128 }
        requires looks { looks.old ≤ 2 ^ 62 }
        ensures ids { IfOk result (λ ids. ids_in ids.items ≡ touched data_plan (has_key keys.now) (drop place self.now.rows)) }
        ensures read { IfOk result (λ ids. looks.new ≤ looks.old + most_read (length ids.items)) }
    {
        affected(alloc, &self.program, self.index.get(), place, keys, looks)
    }

    /// How many rows are unsettled.
    pub(crate) fn count_unsettled(&self) -> usize
        ensures { result ≡ unsettled_rows (map machine_row self.now.rows) }
    {
        self.statuses.count_unsettled()
    }

    /// The first place from one on with an unsettled row. `None` where all rows from there on are settled.
    pub(crate) fn next_unsettled(&self, from: usize) -> Option<usize>
        ensures value { result ≡ next_unsettled (map machine_row self.now.rows) from }
        ensures within { IfSome result (λ place. (from ≤ place) × (place < length self.now.rows)) }
        ensures few { length self.now.rows ≤ MAX_ROWS }
    {
        self.statuses.first_unsettled(from)
    }

    /// Marks the row at a place, which is unsettled, as one of which an order is out.
    pub(crate) fn hand_out(&mut self, place: usize)
        requires { IsUnsettledAt self.old.rows place }
        ensures rows { ChangedAt out_data self.old.rows place self.new.rows }
        ensures next_id { self.new.next_id ≡ self.old.next_id }
    {
        let row = self.program.at_mut(place);
        row.hand_out();
        self.statuses.set(place, row.status());
    }

    /// Settles the row at a place, which is unsettled, by a result of its plan, which was computed by values of these sources. Where no
    /// row is unsettled then, copies share all.
    pub(crate) fn keep(&mut self, place: usize, done: Done, sources: Sources)
        requires unsettled { IsUnsettledAt self.old.rows place }
        requires plan { (e : Entry) → slice_get self.old.rows place ≡ Some e → e.1.plan ≡ done.plan }
        ensures rows { ChangedAt (kept_data done sources.keys) self.old.rows place self.new.rows }
        ensures next_id { self.new.next_id ≡ self.old.next_id }
    {
        self.put_result(place, done, sources);
        self.share_all_settled();
    }

    /// Settles the row at a place, which is unsettled, by a result of its plan.
    fn put_result(&mut self, place: usize, done: Done, sources: Sources)
        requires unsettled { IsUnsettledAt self.old.rows place }
        requires plan { (e : Entry) → slice_get self.old.rows place ≡ Some e → e.1.plan ≡ done.plan }
        ensures rows { ChangedAt (kept_data done sources.keys) self.old.rows place self.new.rows }
        ensures next_id { self.new.next_id ≡ self.old.next_id }
    {
        let row = self.program.at_mut(place);
        row.keep(done, sources);
        self.statuses.set(place, row.status());
    }

    /// Settles the row at a place, which is unsettled, by the result that was last kept of it, which would be computed by values of
    /// these sources now. Where no row is unsettled then, copies share all.
    pub(crate) fn settle_again(&mut self, place: usize, sources: Sources)
        requires { IsUnsettledAt self.old.rows place }
        ensures rows { ChangedAt (again_data sources.keys) self.old.rows place self.new.rows }
        ensures next_id { self.new.next_id ≡ self.old.next_id }
    {
        self.put_last(place, sources);
        self.share_all_settled();
    }

    /// Settles the row at a place, which is unsettled, by the result that was last kept of it.
    fn put_last(&mut self, place: usize, sources: Sources)
        requires { IsUnsettledAt self.old.rows place }
        ensures rows { ChangedAt (again_data sources.keys) self.old.rows place self.new.rows }
        ensures next_id { self.new.next_id ≡ self.old.next_id }
    {
        let row = self.program.at_mut(place);
        row.settle_again(sources);
        self.statuses.set(place, row.status());
    }

    /// Makes the row at a place wait if an order of it is out.
    pub(crate) fn recall(&mut self, place: usize)
        requires { place < length self.old.rows }
        ensures rows { ChangedAt recalled_data self.old.rows place self.new.rows }
        ensures next_id { self.new.next_id ≡ self.old.next_id }
    {
        let (_, row) = self.program.at(place);
        if row.status().is_settled() {
            return;
        }
        let row = self.program.at_mut(place);
        row.recall();
        self.statuses.set(place, row.status());
    }

    /// Makes the row with this id, if there is one, a row that may be changed. The rows stay, also where memory is refused.
    fn own(&mut self, id: RowId) -> Result<(), AllocError>
        ensures rows { self.new.rows ≡ self.old.rows }
        ensures next_id { self.new.next_id ≡ self.old.next_id }
        ensures own { KeepsOwn self.old self.new }
        ensures ok { OnOk result (IsOwnRow self.new id.0) }
    {
        self.program.own(id)
    }

    /// Makes the rows with these ids rows that may be changed. The rows stay, also where memory is refused.
    pub(crate) fn own_all(&mut self, ids: &[RowId]) -> Result<(), AllocError>
        ensures rows { self.new.rows ≡ self.old.rows }
        ensures next_id { self.new.next_id ≡ self.old.next_id }
        ensures own { KeepsOwn self.old self.new }
        ensures ok { OnOk result (AreOwn self.new (is_among (ids_in ids.now))) }
    {
        for id in ids {
            self.own(*id)?;
        }
        Ok(())
    }

    /// Makes the row at a place, which may be changed, unsettled by the edit of this number.
    pub(crate) fn unsettle(&mut self, place: usize, number: u64)
        requires there { place < length self.old.rows }
        requires own { IsOwn self.old place }
        ensures rows { ChangedAt (stale_data number) self.old.rows place self.new.rows }
        ensures next_id { self.new.next_id ≡ self.old.next_id }
        ensures own { KeepsOwn self.old self.new }
    {
        let row = self.program.at_mut(place);
        row.unsettle(number);
        self.statuses.set(place, row.status());
    }

    /// Makes rows that are settled ones that copies share with these rows.
    pub(crate) fn share_settled(&mut self)
        ensures rows { self.new.rows ≡ self.old.rows }
        ensures next_id { self.new.next_id ≡ self.old.next_id }
    {
        let (start, end) = self.statuses.ends();
        self.program.share(0, start);
        self.program.share(end, self.program.len());
    }

    /// The same where no row is unsettled.
    pub(crate) fn share_all_settled(&mut self)
        ensures rows { self.new.rows ≡ self.old.rows }
        ensures next_id { self.new.next_id ≡ self.old.next_id }
    {
        if self.statuses.count_unsettled() == 0 {
            self.share_settled();
        }
    }

    /// Puts a row at a place, before the rows that stand there, under the next id, and returns that id. Where memory is refused the
    /// rows are as before.
    pub(crate) fn insert_at(&mut self, place: usize, row: RowData) -> Result<RowId, AllocError>
        requires place { place ≤ length self.old.rows }
        requires few { length self.old.rows < MAX_ROWS }
        requires ids { self.old.next_id < 2 ^ 63 }
        ensures ok { IfOk result (Inserts self.old self.new place row) }
        ensures err { OnErr result (Stays self.old self.new) }
        ensures own { KeepsOwn self.old self.new }
    {
        let plan = row.shared_plan()?;
        self.program.room(place)?;
        self.index.own(self.alloc)?;
        self.index.room(place, plan.get())?;
        self.statuses.insert(place, row.status())?;
        let id = self.program.put_at(place, row);
        add_row(&mut self.index, &self.program, place, plan);
        self.index.share();
        Ok(id)
    }

    /// Takes the row with this id out. The others keep their order. Where memory is refused the rows are as before.
    pub(crate) fn delete(&mut self, id: RowId) -> Result<(), AllocError>
        requires { IsSome (place_of self.old.rows id.0) }
        ensures ok { OnOk result (self.new.rows ≡ remove self.old.rows (place_in self.old.rows id.0)) }
        ensures next_id { self.new.next_id ≡ self.old.next_id }
        ensures err { OnErr result (Stays self.old self.new) }
        ensures own { KeepsOwn self.old self.new }
    {
        self.index.own(self.alloc)?;
        self.index.own_row(&self.program, id)?;
        self.program.own_to_delete(id)?;
        let place = self.program.place_of(id).unwrap();
        self.index.remove(&self.program, id);
        let _row = self.program.delete(id);
        self.index.share();
        self.statuses.remove(place);
        Ok(())
    }

    /// Puts another row in place of the one with this id, under that id. Where memory is refused the rows are as before.
    pub(crate) fn replace(&mut self, id: RowId, row: RowData) -> Result<(), AllocError>
        requires { IsSome (place_of self.old.rows id.0) }
        ensures ok { OnOk result (self.new.rows ≡ with_row self.old.rows (place_in self.old.rows id.0) row) }
        ensures next_id { self.new.next_id ≡ self.old.next_id }
        ensures err { OnErr result (Stays self.old self.new) }
        ensures own { KeepsOwn self.old self.new }
    {
        let plan = row.shared_plan()?;
        self.index.own(self.alloc)?;
        self.index.room_to_replace(&self.program, id, plan.get())?;
        self.program.own(id)?;
        let place = self.program.place_of(id).unwrap();
        self.statuses.set(place, row.status());
        self.program.replace(id, row);
        self.index.replace(&self.program, id, plan);
        self.index.share();
        Ok(())
    }
}
