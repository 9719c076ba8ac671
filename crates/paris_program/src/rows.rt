//! Rows in program order, by their ids.

ghost use Rattle.std.specs.Prelude.{◌≡◌, ℕ, Bool, ◌+◌, ◌^◌, ◌<◌, ◌≤◌, ◌↔◌, [], length, remove, slice_get, None, Some, IsTrue, IsSome, IfOk, IfErr, IfSome, OnOk};
ghost use Rattle.std.specs.Option.{option_copied};

use crate::shared_ids::SharedIds;
use paris_blocks::Blocks;
use paris_names::RowId;
use std::alloc::{AllocError, AllocFailed, Global};
use std::marker::Model;
use std::mem;

/// The rows of a program in order, each with an id and data of its own. Ids begin at 1, and none is used again. Some rows may be
/// changed; the others may be shared with copies of the program. A clause sees the rows, the id of the next row, which rows may be
/// changed, and where a row fits with no more memory.
#[derive(Drop)]
pub struct Program<T> {
    alloc: Global,
    ids: SharedIds,
    rows: Blocks<(u64, T)>,
    next_id: u64,
}

impl<T> Model for Program<T> {
    ghost use Rattle.paris_program.specs.Program.{Program, IsKept};
    ghost use Rattle.paris_program.specs.SharedIds.{ids_held, own_spare};

    ghost Value = { Program T };

    ghost view = { λ p. record { rows = p.rows.items; next_id = p.next_id; own = p.rows.own; room = p.rows.room; own_ids = p.ids.held.own; spare = own_spare p.ids } };

    ghost invariant = { λ p. IsKept p.next_id (ids_held p.ids) p.rows.items };
}

impl<T> Program<T> {
    ghost use Rattle.paris_program.specs.Program.{IsProgram, place_of, row_of};

    /// A program with no rows, whose first id is 1. It grows by this allocator, and takes no memory until the first insert.
    pub fn new(alloc: Global) -> Program<T>
        ensures rows { result.rows ≡ [] }
        ensures next_id { result.next_id ≡ 1 }
    {
        Program {
            alloc,
            ids: SharedIds::new(alloc),
            rows: Blocks::new(alloc),
            next_id: 1,
        }
    }

    /// How many rows there are.
    pub fn len(&self) -> usize
        ensures value { result ≡ length self.now.rows }
        ensures few { result < 2 ^ 63 }
        ensures sound { IsProgram self.now }
    {
        self.ids.len()
    }

    /// Whether there are no rows.
    pub fn is_empty(&self) -> bool
        ensures { IsTrue result ↔ (self.now.rows ≡ []) }
    {
        self.len() == 0
    }

    /// The id that the next insert gives.
    pub fn next_id(&self) -> RowId
        ensures value { result ≡ record { 0 = self.now.next_id } }
        ensures sound { IsProgram self.now }
    {
        RowId(self.next_id)
    }

    /// The place of the row with this id, counted from 0. `None` where no row has it.
    pub fn place_of(&self, id: RowId) -> Option<usize>
        ensures value { result ≡ place_of self.now.rows id.0 }
        ensures within { IfSome result (λ place. place < length self.now.rows) }
        ensures sound { IsProgram self.now }
    {
        self.ids.place_of(id.0)
    }

    /// The row at a place, counted from 0: its id and its data.
    pub fn at(&self, place: usize) -> (RowId, &T)
        requires { place < length self.now.rows }
        ensures value { slice_get self.now.rows place ≡ Some (result.0.0, result.1.now) }
        ensures sound { IsProgram self.now }
    {
        let (id, row) = self.rows.at(place);
        (RowId(*id), row)
    }

    /// The data of the row with this id. `None` where no row has it.
    pub fn row(&self, id: RowId) -> Option<&T>
        ensures value { option_copied result ≡ row_of self.now.rows id.0 }
        ensures found { IsSome result ↔ IsSome (place_of self.now.rows id.0) }
        ensures sound { IsProgram self.now }
    {
        match self.place_of(id) {
            Some(place) => Some(self.at(place).1),
            None => None,
        }
    }
}

impl<T> Program<T> {
    ghost use Rattle.std.specs.Borrow.{sem};
    ghost use Rattle.std.specs.Option.{option_copied_mut};
    ghost use Rattle.paris_program.specs.Program.{id_at, row_of, IsOwn, IsOwnRow};
    ghost use Rattle.paris_program.specs.Lending.{LendsAt, LendsRow};

    /// The data of the row at a place, counted from 0, to change, where it may be changed. The ids and the places stay.
    pub fn at_mut(&mut self, place: usize) -> &mut T
        requires { IsOwn self.old place }
        ensures* writes_back { sem 𝓛 (LendsAt T.row self.entry place result) }
        ensures value { slice_get self.old.rows place ≡ Some (id_at self.old.rows place, result.now) }
    {
        let row = self.rows.at_mut(place);
        &mut row.1
    }

    /// The data of the row with this id, to change, where it may be changed. `None` where no row has it. The ids and the places stay.
    pub fn row_mut(&mut self, id: RowId) -> Option<&mut T>
        requires { IsOwnRow self.old id.0 }
        ensures* writes_back { sem 𝓛 (LendsRow T.row self.entry id.0 result) }
        ensures value { option_copied_mut result ≡ row_of self.old.rows id.0 }
    {
        match self.place_of(id) {
            Some(place) => Some(self.at_mut(place)),
            None => None,
        }
    }
}

impl<T: Clone + Drop> Program<T> {
    ghost use Rattle.paris_program.specs.Program.{place_of, place_in, Inserts, Stays, HasRoom, CanDelete, IsOwnRow, KeepsOwn};

    /// A program with the same rows under the same ids, and the same next id. The rows that may be changed here may be changed there,
    /// and it shares the others with this one. What clones the data of a row gives equals.
    pub fn copy(&self) -> Result<Program<T>, AllocError>
        requires equal { (row copy : T) → T.is_clone row copy → copy ≡ row }
        ensures rows { IfOk result (λ program. program.rows ≡ self.now.rows) }
        ensures next_id { IfOk result (λ program. program.next_id ≡ self.now.next_id) }
        ensures own { IfOk result (λ program. program.own ≡ self.now.own) }
    {
        let ids = self.ids.copy(self.alloc)?;
        let rows = self.rows.copy()?;
        Ok(Program {
            alloc: self.alloc,
            ids,
            rows,
            next_id: self.next_id,
        })
    }

    /// Makes the row with this id, if there is one, a row that may be changed. The rows and the ids stay, also where memory is refused.
    pub fn own(&mut self, id: RowId) -> Result<(), AllocError>
        requires equal { (row copy : T) → T.is_clone row copy → copy ≡ row }
        ensures rows { self.new.rows ≡ self.old.rows }
        ensures next_id { self.new.next_id ≡ self.old.next_id }
        ensures own { KeepsOwn self.old self.new }
        ensures ok { OnOk result (IsOwnRow self.new id.0) }
    {
        match self.place_of(id) {
            Some(place) => self.rows.own(place),
            None => Ok(()),
        }
    }

    /// Makes room for one more row at a place, so that it can be put in there. The rows and the ids stay, also where memory is refused.
    pub fn room(&mut self, place: usize) -> Result<(), AllocError>
        requires equal { (row copy : T) → T.is_clone row copy → copy ≡ row }
        requires place { place ≤ length self.old.rows }
        ensures rows { self.new.rows ≡ self.old.rows }
        ensures next_id { self.new.next_id ≡ self.old.next_id }
        ensures own { KeepsOwn self.old self.new }
        ensures ok { OnOk result (HasRoom self.new place) }
    {
        self.rows.room(place)?;
        self.ids.own(self.alloc)?;
        self.ids.room()
    }

    /// Puts a row at a place, counted from 0, before the rows that stand there, under the next id, and returns that id. Where memory
    /// is refused the row comes back, and the program is as before.
    pub fn insert_at(&mut self, place: usize, row: T) -> Result<RowId, AllocFailed<T>>
        requires equal { (row copy : T) → T.is_clone row copy → copy ≡ row }
        requires place { place ≤ length self.old.rows }
        requires ids { self.old.next_id < 2 ^ 63 }
        ensures ok { IfOk result (Inserts self.old self.new place row) }
        ensures err { IfErr result (λ e. (e.value ≡ row) × Stays self.old self.new) }
        ensures own { KeepsOwn self.old self.new }
    {
        match self.room(place) {
            Ok(()) => Ok(self.put_at(place, row)),
            Err(_) => Err(AllocFailed { value: row }),
        }
    }

    /// Puts a row before all others, under the next id, and returns that id. Where memory is refused the row comes back, and the
    /// program is as before.
    pub fn insert_start(&mut self, row: T) -> Result<RowId, AllocFailed<T>>
        requires equal { (row copy : T) → T.is_clone row copy → copy ≡ row }
        requires ids { self.old.next_id < 2 ^ 63 }
        ensures ok { IfOk result (Inserts self.old self.new 0 row) }
        ensures err { IfErr result (λ e. (e.value ≡ row) × Stays self.old self.new) }
        ensures own { KeepsOwn self.old self.new }
    {
        self.insert_at(0, row)
    }

    /// Puts a row just after the row with this id, under the next id, and returns that id. Where memory is refused the row comes
    /// back, and the program is as before.
    pub fn insert_after(&mut self, id: RowId, row: T) -> Result<RowId, AllocFailed<T>>
        requires equal { (row copy : T) → T.is_clone row copy → copy ≡ row }
        requires there { IsSome (place_of self.old.rows id.0) }
        requires ids { self.old.next_id < 2 ^ 63 }
        ensures ok { IfOk result (Inserts self.old self.new (place_in self.old.rows id.0 + 1) row) }
        ensures err { IfErr result (λ e. (e.value ≡ row) × Stays self.old self.new) }
        ensures own { KeepsOwn self.old self.new }
    {
        let place = self.place_of(id).unwrap();
        // The length is what says that `place + 1` fits.
        let _len = self.rows.len();
        self.insert_at(place + 1, row)
    }

    /// Puts a row after all others, under the next id, and returns that id. Where memory is refused the row comes back, and the
    /// program is as before.
    pub fn insert_end(&mut self, row: T) -> Result<RowId, AllocFailed<T>>
        requires equal { (row copy : T) → T.is_clone row copy → copy ≡ row }
        requires ids { self.old.next_id < 2 ^ 63 }
        ensures ok { IfOk result (Inserts self.old self.new (length self.old.rows) row) }
        ensures err { IfErr result (λ e. (e.value ≡ row) × Stays self.old self.new) }
        ensures own { KeepsOwn self.old self.new }
    {
        self.insert_at(self.len(), row)
    }

    /// Makes the row with this id, which is there, one that can be taken out with no more memory. The rows and the ids stay, also where
    /// memory is refused.
    pub fn own_to_delete(&mut self, id: RowId) -> Result<(), AllocError>
        requires equal { (row copy : T) → T.is_clone row copy → copy ≡ row }
        ensures rows { self.new.rows ≡ self.old.rows }
        ensures next_id { self.new.next_id ≡ self.old.next_id }
        ensures own { KeepsOwn self.old self.new }
        ensures ok { OnOk result (CanDelete self.new id.0) }
    {
        self.own(id)?;
        self.ids.own(self.alloc)
    }
}

impl<T: Drop> Program<T> {
    ghost use Rattle.paris_program.specs.Program.{place_of, place_in, row_of, with_row, Inserts, HasRoom, CanDelete, IsOwnRow, KeepsOwn, AreOwn, NoneWithin};

    /// Puts a row at a place, counted from 0, before the rows that stand there, under the next id, and returns that id. There is room
    /// for it, so it cannot fail.
    pub fn put_at(&mut self, place: usize, row: T) -> RowId
        requires room { HasRoom self.old place }
        requires place { place ≤ length self.old.rows }
        requires ids { self.old.next_id < 2 ^ 63 }
        ensures value { Inserts self.old self.new place row result }
        ensures own { KeepsOwn self.old self.new }
    {
        // The lengths are what says that one more fits.
        let _few = self.ids.len();
        let _len = self.rows.len();
        let id = self.next_id;
        self.ids.insert(place, id);
        self.ids.share();
        self.rows.insert(place, (id, row));
        self.next_id = id + 1;
        RowId(id)
    }

    /// Takes the row with this id out, and hands out its data. The others keep their order. It takes no memory.
    pub fn delete(&mut self, id: RowId) -> T
        requires there { IsSome (place_of self.old.rows id.0) }
        requires own { CanDelete self.old id.0 }
        ensures value { Some result ≡ row_of self.old.rows id.0 }
        ensures rows { self.new.rows ≡ remove self.old.rows (place_in self.old.rows id.0) }
        ensures next_id { self.new.next_id ≡ self.old.next_id }
        ensures own { KeepsOwn self.old self.new }
    {
        let place = self.place_of(id).unwrap();
        self.ids.remove(place);
        self.ids.share();
        let (_, row) = self.rows.remove(place);
        row
    }

    /// Puts other data into the row with this id, which may be changed, and hands out what it had. The row keeps its id and its place.
    /// It takes no memory.
    pub fn replace(&mut self, id: RowId, row: T) -> T
        requires there { IsSome (place_of self.old.rows id.0) }
        requires own { IsOwnRow self.old id.0 }
        ensures value { Some result ≡ row_of self.old.rows id.0 }
        ensures rows { self.new
            ≡ record self.old { rows = with_row self.old.rows (place_in self.old.rows id.0) row } }
    {
        let place = self.place_of(id).unwrap();
        mem::replace(self.at_mut(place), row)
    }

    /// Makes rows from one place to before another ones that copies of the program share with it. The rows and the ids stay, and those
    /// outside that may be changed still may.
    pub fn share(&mut self, start: usize, end: usize)
        ensures rows { self.new.rows ≡ self.old.rows }
        ensures next_id { self.new.next_id ≡ self.old.next_id }
        ensures own { (test : ℕ × T → Bool) → NoneWithin start end self.old.rows test → AreOwn self.old test → AreOwn self.new test }
    {
        self.rows.share(start, end);
    }
}
