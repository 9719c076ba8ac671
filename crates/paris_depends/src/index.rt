//! The rows that write and read each key, in program order, and the keys that each row writes.

ghost use Rattle.std.specs.Prelude.{◌≡◌, ℕ, List, ◌+◌, ◌^◌, ◌<◌, ◌≤◌, [], length, slice_get, Some, IsSome, IfSome, IfOk, OnOk, insert, remove};
ghost use Rattle.paris_names.specs.declared.keys.Key.{Key as AnyKey};
ghost use Rattle.paris_program.specs.Program.{ids_of, place_of, place_in, with_row};
ghost use Rattle.paris_depends.specs.Index.{CanAdd, CanChange, HasRoom, footprint, keys_written, readers, writers};

use crate::lists::Lists;
use crate::row_table::RowTable;
use crate::sides::{Side, put_all, room_for, take_all_out};
use paris_instr::{Plan, SharedPlan};
use paris_names::{Key, RowId};
use paris_program::Program;
use std::alloc::{AllocError, Global};
use std::marker::Model;

/// How many entries of an index were read. A clause sees the number.
#[derive(Debug, Drop)]
pub struct Looks {
    count: u64,
}

impl Model for Looks {
    ghost use Rattle.std.specs.Prelude.{ℕ};

    ghost Value = { ℕ };

    ghost view = { λ l. l.count };
}

impl Looks {
    /// No entry was read yet.
    pub fn new() -> Looks
        ensures { result ≡ 0 }
    {
        Looks { count: 0 }
    }

    /// How many entries were read.
    pub fn count(&self) -> u64
        ensures { result ≡ self.now }
    {
        self.count
    }

    /// Counts one entry more.
    fn add_one(&mut self)
        requires { self.old < 2 ^ 63 }
        ensures { self.new ≡ self.old + 1 }
    {
        self.count += 1;
    }
}

/// An index of the rows of a program: which rows write a key, which read it, and which keys a row writes. Copies share what none of
/// them changes. A clause sees the rows in program order, each with the keys that its plan writes and reads, and the room for more.
#[derive(Drop)]
pub struct Index {
    table: RowTable,
    writers: Lists,
    readers: Lists,
}

impl Model for Index {
    ghost use Rattle.paris_depends.specs.Index.{Index as Indexed};

    ghost Value = { Indexed };

    ghost use Rattle.paris_depends.specs.IndexInside.{IsIndex, indexed};

    ghost view = { indexed };

    ghost invariant = { IsIndex };
}

impl Index {
    /// An index of no rows. It grows by this allocator, and takes no memory until the first growth.
    pub fn new(alloc: Global) -> Index
        ensures { result.rows ≡ [] }
    {
        Index {
            table: RowTable::new(alloc),
            writers: Lists::new(alloc),
            readers: Lists::new(alloc),
        }
    }

    /// How many rows write a key.
    pub fn writers(&self, key: Key) -> usize
        ensures { result ≡ length (writers self.now.rows key) }
    {
        self.writers.len(key.slot())
    }

    /// How many rows read a key.
    pub fn readers(&self, key: Key) -> usize
        ensures { result ≡ length (readers self.now.rows key) }
    {
        self.readers.len(key.slot())
    }

    /// The id of a row that writes a key: the one at this place among them, counted from 0 in program order.
    pub fn writer(&self, key: Key, i: usize, looks: &mut Looks) -> RowId
        requires within { i < length (writers self.now.rows key) }
        requires few { looks.old < 2 ^ 63 }
        ensures value { slice_get (writers self.now.rows key) i ≡ Some result.0 }
        ensures looks { looks.new ≡ looks.old + 1 }
    {
        looks.add_one();
        self.writers.at(key.slot(), i)
    }

    /// The id of a row that reads a key: the one at this place among them, counted from 0 in program order.
    pub fn reader(&self, key: Key, i: usize, looks: &mut Looks) -> RowId
        requires within { i < length (readers self.now.rows key) }
        requires few { looks.old < 2 ^ 63 }
        ensures value { slice_get (readers self.now.rows key) i ≡ Some result.0 }
        ensures looks { looks.new ≡ looks.old + 1 }
    {
        looks.add_one();
        self.readers.at(key.slot(), i)
    }

    /// How many keys the row with this id writes: at most three. The index is of the program's rows.
    pub fn keys<T>(&self, program: &Program<T>, id: RowId) -> usize
        requires of { ids_of program.now.rows ≡ ids_of self.now.rows }
        requires there { IsSome (keys_written self.now.rows id.0) }
        ensures value { IfSome (keys_written self.now.rows id.0) (λ keys. result ≡ length keys) }
        ensures few { result ≤ 3 }
    {
        match self.table.row(program, id) {
            Some(row) => row.written().len(),
            None => unreachable!(),
        }
    }

    /// A key that the row with this id writes: the one at this place among them, counted from 0 in the order of its plan. The index is
    /// of the program's rows.
    pub fn key<T>(&self, program: &Program<T>, id: RowId, i: usize, looks: &mut Looks) -> Key
        requires of { ids_of program.now.rows ≡ ids_of self.now.rows }
        requires within { (keys : List AnyKey) → keys_written self.now.rows id.0 ≡ Some keys → i < length keys }
        requires there { IsSome (keys_written self.now.rows id.0) }
        requires few { looks.old < 2 ^ 63 }
        ensures value { IfSome (keys_written self.now.rows id.0) (λ keys. slice_get keys i ≡ Some result) }
        ensures looks { looks.new ≡ looks.old + 1 }
    {
        looks.add_one();
        match self.table.row(program, id) {
            Some(row) => row.written()[i],
            None => unreachable!(),
        }
    }
}

impl Index {
    /// Makes room for one more row of this plan at a place, so that it can be added there with no more memory. The rows stay, also
    /// where memory is refused.
    pub fn room(&mut self, place: usize, plan: &Plan) -> Result<(), AllocError>
        requires { place ≤ length self.old.rows }
        ensures rows { self.new.rows ≡ self.old.rows }
        ensures ok { OnOk result (CanAdd self.new.room place (footprint plan.now)) }
    {
        self.table.room(place)?;
        room_for(&mut self.writers, plan.writes())?;
        room_for(&mut self.readers, plan.reads())
    }

    /// Makes the row with this id one that may be changed, with the lists of its keys. The index is of the program's rows. They stay,
    /// also where memory is refused.
    pub fn own<T>(&mut self, program: &Program<T>, id: RowId) -> Result<(), AllocError>
        requires of { ids_of program.now.rows ≡ ids_of self.old.rows }
        requires there { IsSome (place_of self.old.rows id.0) }
        ensures rows { self.new.rows ≡ self.old.rows }
        ensures ok { OnOk result (CanChange self.new id.0) }
    {
        let place = self.table.place_of(program, id).unwrap();
        self.table.own(place)?;
        let row = self.table.at(place);
        room_for(&mut self.writers, row.keys_on(Side::Writers))?;
        room_for(&mut self.readers, row.keys_on(Side::Readers))
    }

    /// Makes room for the keys of this plan in their lists. Nothing else changes, also where memory is refused.
    pub fn room_for_keys(&mut self, plan: &Plan) -> Result<(), AllocError>
        ensures rows { self.new.rows ≡ self.old.rows }
        ensures kept { (id : ℕ) → CanChange self.old id → CanChange self.new id }
        ensures ok { OnOk result (HasRoom self.new.room (footprint plan.now)) }
    {
        room_for(&mut self.writers, plan.writes())?;
        room_for(&mut self.readers, plan.reads())
    }

    /// Adds a row of a program, which has this plan and for which there is room. The other rows of the program are in the index. It
    /// takes no memory.
    pub fn add<T>(&mut self, program: &Program<T>, id: RowId, plan: SharedPlan)
        requires there { IsSome (place_of program.now.rows id.0) }
        requires others { remove (ids_of program.now.rows) (place_in program.now.rows id.0) ≡ ids_of self.old.rows }
        requires room { CanAdd self.old.room (place_in program.now.rows id.0) (footprint plan) }
        ensures { self.new.rows ≡ insert self.old.rows (place_in program.now.rows id.0) (id.0, footprint plan) }
    {
        // The length is what says that one more row fits.
        let _len = program.len();
        let place = program.place_of(id).unwrap();
        self.table.put(place, id, plan);
        put_all(
            &mut self.writers,
            program,
            &self.table,
            Side::Writers,
            place,
        );
        put_all(
            &mut self.readers,
            program,
            &self.table,
            Side::Readers,
            place,
        );
    }

    /// Takes the row with this id out, which may be changed. The index is of the program's rows, with this one. It takes no memory.
    pub fn remove<T>(&mut self, program: &Program<T>, id: RowId)
        requires of { ids_of program.now.rows ≡ ids_of self.old.rows }
        requires there { IsSome (place_of self.old.rows id.0) }
        requires own { CanChange self.old id.0 }
        ensures { self.new.rows ≡ remove self.old.rows (place_in self.old.rows id.0) }
    {
        let place = self.table.place_of(program, id).unwrap();
        take_all_out(
            &mut self.writers,
            program,
            &self.table,
            Side::Writers,
            place,
        );
        take_all_out(
            &mut self.readers,
            program,
            &self.table,
            Side::Readers,
            place,
        );
        self.table.take_out(place);
    }

    /// Gives the row with this id, which may be changed, another plan, for which there is room. The index is of the program's rows. It
    /// takes no memory.
    pub fn replace<T>(&mut self, program: &Program<T>, id: RowId, plan: SharedPlan)
        requires of { ids_of program.now.rows ≡ ids_of self.old.rows }
        requires there { IsSome (place_of self.old.rows id.0) }
        requires own { CanChange self.old id.0 }
        requires room { HasRoom self.old.room (footprint plan) }
        ensures { self.new.rows ≡ with_row self.old.rows (place_in self.old.rows id.0) (footprint plan) }
    {
        let place = self.table.place_of(program, id).unwrap();
        take_all_out(
            &mut self.writers,
            program,
            &self.table,
            Side::Writers,
            place,
        );
        take_all_out(
            &mut self.readers,
            program,
            &self.table,
            Side::Readers,
            place,
        );
        self.table.replace(place, plan);
        put_all(
            &mut self.writers,
            program,
            &self.table,
            Side::Writers,
            place,
        );
        put_all(
            &mut self.readers,
            program,
            &self.table,
            Side::Readers,
            place,
        );
    }

    /// Makes the rows and the lists ones that copies share. It takes no memory.
    pub fn share(&mut self)
        ensures { self.new.rows ≡ self.old.rows }
    {
        self.table.share();
        self.writers.share();
        self.readers.share();
    }

    /// A copy, with the same rows. It has what is shared in common with this one, and copies of the rest.
    pub fn copy(&self) -> Result<Index, AllocError>
        ensures { IfOk result (λ copy. copy.rows ≡ self.now.rows) }
    {
        let table = self.table.copy()?;
        let writers = self.writers.copy()?;
        let readers = self.readers.copy()?;
        Ok(Index {
            table,
            writers,
            readers,
        })
    }
}

impl Clone for Index {
    ghost is_clone = { λ index copy. copy.rows ≡ index.rows };

    fn clone(&self) -> Result<Index, AllocError> {
        self.copy()
    }
}
