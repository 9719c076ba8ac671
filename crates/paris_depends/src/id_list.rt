//! A list of row ids: one to change, or one that is only read and may have several owners.

ghost use Rattle.std.specs.Prelude.{◌≡◌, ◌<◌, ◌≤◌, [], length, insert, remove, slice_get, Some, IfOk, OnOk};
ghost use Rattle.paris_depends.specs.ListsInside.{ids_held, room_in};

use paris_names::RowId;
use paris_shared::Held;
use std::alloc::{AllocError, Global};

/// How many more ids fit into a list that was copied so that it can be changed.
const SPARE: usize = 8;

/// Ids that may be changed, or ids that are only read and may have several owners.
#[derive(Drop)]
pub(crate) struct IdList {
    held: Held<Vec<RowId>>,
}

/// The ids once more, with room for some more in the same memory.
fn roomy(alloc: Global, ids: &Vec<RowId>) -> Result<Vec<RowId>, AllocError>
    ensures ids { IfOk result (λ copy. copy.items ≡ ids.now.items) }
{
    let mut copy = Vec::with_capacity(alloc, ids.len() + SPARE)?;
    copy.extend_from_slice(ids.as_slice())?;
    Ok(copy)
}

impl IdList {
    /// No ids. It takes no memory.
    pub(crate) fn new(alloc: Global) -> IdList
        ensures { ids_held result ≡ [] }
    {
        IdList {
            held: Held::new(Vec::new(alloc)),
        }
    }

    /// How many ids there are.
    pub(crate) fn len(&self) -> usize
        ensures { result ≡ length (ids_held self.now) }
    {
        self.held.get().len()
    }

    /// The id at a place.
    pub(crate) fn at(&self, i: usize) -> RowId
        requires { i < length (ids_held self.now) }
        ensures { slice_get (ids_held self.now) i ≡ Some result.0 }
    {
        self.held.get()[i]
    }

    /// Makes it one to change, with room for one more id: a copy, where it has other owners. The ids stay, also where memory is
    /// refused.
    pub(crate) fn make_room(&mut self, alloc: Global) -> Result<(), AllocError>
        ensures ids { ids_held self.new ≡ ids_held self.old }
        ensures more { room_in self.old ≤ room_in self.new }
        ensures ok { OnOk result (0 < room_in self.new) }
    {
        if !self.held.take_back() {
            let copy = roomy(alloc, self.held.get())?;
            self.held.put(alloc, copy, Vec::new(alloc))?;
        }
        self.held.make_place(alloc, Vec::new(alloc))?;
        self.held.get_mut().reserve(1)
    }

    /// Puts an id at a place of a list to change that has room.
    pub(crate) fn put(&mut self, i: usize, id: RowId)
        requires there { i ≤ length (ids_held self.old) }
        requires room { 0 < room_in self.old }
        ensures { ids_held self.new ≡ insert (ids_held self.old) i id.0 }
    {
        match self.held.get_mut().insert(i, id) {
            Ok(()) => {}
            Err(_) => unreachable!(),
        }
    }

    /// Takes the id at a place out of a list to change that has room.
    pub(crate) fn take_out(&mut self, i: usize)
        requires there { i < length (ids_held self.old) }
        requires room { 0 < room_in self.old }
        ensures ids { ids_held self.new ≡ remove (ids_held self.old) i }
        ensures more { room_in self.old ≤ room_in self.new }
    {
        let _id = self.held.get_mut().remove(i);
    }

    /// Makes it one that several indexes can have. It takes no memory.
    pub(crate) fn share(&mut self)
        ensures { ids_held self.new ≡ ids_held self.old }
    {
        self.held.share();
    }

    /// The list once more: with one more owner, or where it is one to change, a copy of it.
    pub(crate) fn copy(&self, alloc: Global) -> Result<IdList, AllocError>
        ensures { IfOk result (λ copy. ids_held copy ≡ ids_held self.now) }
    {
        if !self.held.is_own() {
            let held = self.held.another(Vec::new(alloc))?;
            return Ok(IdList { held });
        }
        let ids = self.held.get();
        let mut copy = Vec::new(alloc);
        copy.extend_from_slice(ids.as_slice())?;
        Ok(IdList {
            held: Held::new(copy),
        })
    }
}
