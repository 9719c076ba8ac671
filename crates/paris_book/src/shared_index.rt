//! The index of a book's rows, which its snapshots share until one of them changes it.

ghost use Rattle.std.specs.Prelude.{◌≡◌, ◌≤◌, [], insert, length, remove, IsSome, IfOk, OnOk};
ghost use Rattle.paris_program.specs.Program.{ids_of, place_of, place_in, with_row};
ghost use Rattle.paris_depends.specs.Index.{footprint};
ghost use Rattle.paris_book.specs.SharedIndexes.{indexed_in, CanAddIn, CanChangeIn, HasOwnRoom, IsOwn};

use paris_depends::Index;
use paris_instr::{Plan, SharedPlan};
use paris_names::RowId;
use paris_program::Program;
use paris_shared::Held;
use std::alloc::{AllocError, Global};

/// An index that is changed, or one that is only read and may have several owners.
#[derive(Drop)]
pub(crate) struct SharedIndex {
    held: Held<Index>,
}

impl SharedIndex {
    /// Of no rows. It takes no memory until the first growth.
    pub(crate) fn new(alloc: Global) -> SharedIndex
        ensures { indexed_in result ≡ [] }
    {
        SharedIndex {
            held: Held::new(Index::new(alloc)),
        }
    }

    /// The index.
    pub(crate) fn get(&self) -> &Index
        ensures { result.now.rows ≡ indexed_in self.now }
    {
        self.held.get()
    }

    /// The index once more: with one more owner, or where it is changed, a copy of it.
    pub(crate) fn copy(&self, alloc: Global) -> Result<SharedIndex, AllocError>
        ensures { IfOk result (λ copy. indexed_in copy ≡ indexed_in self.now) }
    {
        if !self.held.is_own() {
            let held = self.held.another(Index::new(alloc))?;
            return Ok(SharedIndex { held });
        }
        let index = self.held.get().copy()?;
        Ok(SharedIndex {
            held: Held::new(index),
        })
    }

    /// Makes it one to change: a copy, where it has other owners. Where memory is refused the rows are as before.
    pub(crate) fn own(&mut self, alloc: Global) -> Result<(), AllocError>
        ensures rows { indexed_in self.new ≡ indexed_in self.old }
        ensures ok { OnOk result (IsOwn self.new) }
    {
        if !self.held.take_back() {
            let copy = self.held.get().copy()?;
            self.held.put(alloc, copy, Index::new(alloc))?;
        }
        self.held.make_place(alloc, Index::new(alloc))
    }

    /// Makes room for one more row of this plan at a place in an index to change, as `Index::room` does.
    pub(crate) fn room(&mut self, place: usize, plan: &Plan) -> Result<(), AllocError>
        requires own { IsOwn self.old }
        requires there { place ≤ length (indexed_in self.old) }
        ensures rows { indexed_in self.new ≡ indexed_in self.old }
        ensures ok { OnOk result (CanAddIn self.new place (footprint plan.now)) }
    {
        self.held.get_mut().room(place, plan)
    }

    /// Makes the row with this id in an index to change one that may be changed, as `Index::own` does.
    pub(crate) fn own_row<T>(&mut self, program: &Program<T>, id: RowId) -> Result<(), AllocError>
        requires of { ids_of program.now.rows ≡ ids_of (indexed_in self.old) }
        requires own { IsOwn self.old }
        requires there { IsSome (place_of (indexed_in self.old) id.0) }
        ensures rows { indexed_in self.new ≡ indexed_in self.old }
        ensures ok { OnOk result (CanChangeIn self.new id.0) }
    {
        self.held.get_mut().own(program, id)
    }

    /// Makes the row with this id in an index to change one that may be changed, with room for the keys of another plan.
    pub(crate) fn room_to_replace<T>(
        &mut self,
        program: &Program<T>,
        id: RowId,
        plan: &Plan,
    ) -> Result<(), AllocError>
        requires of { ids_of program.now.rows ≡ ids_of (indexed_in self.old) }
        requires own { IsOwn self.old }
        requires there { IsSome (place_of (indexed_in self.old) id.0) }
        ensures rows { indexed_in self.new ≡ indexed_in self.old }
        ensures own { OnOk result (CanChangeIn self.new id.0) }
        ensures ok { OnOk result (HasOwnRoom self.new (footprint plan.now)) }
    {
        let index = self.held.get_mut();
        index.own(program, id)?;
        index.room_for_keys(plan)
    }

    /// Adds a row of a program, which has this plan, to an index of the others that has room for it.
    pub(crate) fn add<T>(&mut self, program: &Program<T>, id: RowId, plan: SharedPlan)
        requires there { IsSome (place_of program.now.rows id.0) }
        requires others { remove (ids_of program.now.rows) (place_in program.now.rows id.0) ≡ ids_of (indexed_in self.old) }
        requires room { CanAddIn self.old (place_in program.now.rows id.0) (footprint plan) }
        ensures { indexed_in self.new ≡ insert (indexed_in self.old) (place_in program.now.rows id.0) (id.0, footprint plan) }
    {
        self.held.get_mut().add(program, id, plan);
    }

    /// Takes the row with this id out, which may be changed. It takes no memory.
    pub(crate) fn remove<T>(&mut self, program: &Program<T>, id: RowId)
        requires of { ids_of program.now.rows ≡ ids_of (indexed_in self.old) }
        requires there { IsSome (place_of (indexed_in self.old) id.0) }
        requires own { CanChangeIn self.old id.0 }
        ensures { indexed_in self.new ≡ remove (indexed_in self.old) (place_in (indexed_in self.old) id.0) }
    {
        self.held.get_mut().remove(program, id);
    }

    /// Gives the row with this id, which may be changed, another plan, for which there is room. It takes no memory.
    pub(crate) fn replace<T>(&mut self, program: &Program<T>, id: RowId, plan: SharedPlan)
        requires of { ids_of program.now.rows ≡ ids_of (indexed_in self.old) }
        requires there { IsSome (place_of (indexed_in self.old) id.0) }
        requires own { CanChangeIn self.old id.0 }
        requires room { HasOwnRoom self.old (footprint plan) }
        ensures { indexed_in self.new ≡ with_row (indexed_in self.old) (place_in (indexed_in self.old) id.0) (footprint plan) }
    {
        self.held.get_mut().replace(program, id, plan);
    }

    /// Makes it one that several books can have. It takes no memory.
    pub(crate) fn share(&mut self)
        ensures { indexed_in self.new ≡ indexed_in self.old }
    {
        if self.held.is_own() {
            self.held.get_mut().share();
            self.held.share();
        }
    }
}
