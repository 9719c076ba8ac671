//! A list of row ids for each key.

ghost use Rattle.std.specs.Prelude.{◌≡◌, ℕ, ◌<◌, ◌≤◌, [], length, map, insert, remove, slice_get, slice_index_or, Some, IfOk, IsOk, OnOk, nat_eq, if◌then◌else◌};
ghost use Rattle.paris_depends.specs.Lists.{list_at, room_at};
ghost use Rattle.paris_depends.specs.ListsInside.{ids_held, room_in};

use crate::id_list::IdList;
use paris_names::RowId;
use std::alloc::{AllocError, Global};
use std::marker::Model;

/// A list of row ids in each slot. A slot that was never used has an empty list and no room. Copies share the lists that none of them
/// changes. A clause sees the lists, and how many more ids fit into each with no more memory: none, where a copy may share it.
#[derive(Drop)]
pub(crate) struct Lists {
    alloc: Global,
    lists: Vec<IdList>,
}

impl Model for Lists {
    ghost use Rattle.paris_depends.specs.Lists.{Lists as Listed};

    ghost Value = { Listed };

    ghost use Rattle.paris_depends.specs.ListsInside.{listed};

    ghost view = { listed };
}

/// Adds empty lists until there is one in a slot.
fn widen(alloc: Global, lists: &mut Vec<IdList>, slot: usize) -> Result<(), AllocError>
    ensures ids { (s : ℕ) → slice_index_or (map ids_held lists.new.items) s [] ≡ slice_index_or (map ids_held lists.old.items) s [] }
    ensures more { (s : ℕ) → slice_index_or (map room_in lists.old.items) s 0 ≤ slice_index_or (map room_in lists.new.items) s 0 }
    ensures ok { OnOk result (slot < length lists.new.items) }
    ensures succeeds { slot < length lists.old.items → IsOk result }
{
    while lists.len() <= slot {
        lists.push(IdList::new(alloc))?;
    }
    Ok(())
}

/// Makes each list one that several indexes can have.
fn share_each(lists: &mut [IdList])
    ensures { map ids_held lists.new ≡ map ids_held lists.old }
{
    for list in lists.iter_mut() {
        list.share();
    }
}

impl Lists {
    /// Lists with no ids. They grow by this allocator, and take no memory yet.
    pub(crate) fn new(alloc: Global) -> Lists
        ensures { (s : ℕ) → list_at result s ≡ [] }
    {
        Lists {
            alloc,
            lists: Vec::new(alloc),
        }
    }

    /// How many ids a list has.
    pub(crate) fn len(&self, slot: usize) -> usize
        ensures { result ≡ length (list_at self.now slot) }
    {
        match self.lists.get(slot) {
            Some(list) => list.len(),
            None => 0,
        }
    }

    /// The id at a place of a list.
    pub(crate) fn at(&self, slot: usize, i: usize) -> RowId
        requires { i < length (list_at self.now slot) }
        ensures { slice_get (list_at self.now slot) i ≡ Some result.0 }
    {
        self.lists[slot].at(i)
    }

    /// Makes a list one to change, with room for one more id. The lists stay, also where memory is refused.
    pub(crate) fn make_room(&mut self, slot: usize) -> Result<(), AllocError>
        ensures ids { (s : ℕ) → list_at self.new s ≡ list_at self.old s }
        ensures ok { OnOk result (0 < room_at self.new slot) }
        ensures more { (s : ℕ) → room_at self.old s ≤ room_at self.new s }
    {
        widen(self.alloc, &mut self.lists, slot)?;
        self.lists[slot].make_room(self.alloc)
    }

    /// Puts an id at a place of a list that has room.
    pub(crate) fn put(&mut self, slot: usize, i: usize, id: RowId)
        requires there { i ≤ length (list_at self.old slot) }
        requires room { 0 < room_at self.old slot }
        ensures ids { (s : ℕ) → list_at self.new s ≡ (if nat_eq s slot then insert (list_at self.old s) i id.0 else list_at self.old s) }
        ensures rooms { (s : ℕ) → (s ≡ slot → ⊥) → room_at self.new s ≡ room_at self.old s }
    {
        self.lists[slot].put(i, id);
    }

    /// Takes the id at a place out of a list that has room, so that it is one to change.
    pub(crate) fn take_out(&mut self, slot: usize, i: usize)
        requires there { i < length (list_at self.old slot) }
        requires room { 0 < room_at self.old slot }
        ensures ids { (s : ℕ) → list_at self.new s ≡ (if nat_eq s slot then remove (list_at self.old s) i else list_at self.old s) }
        ensures more { (s : ℕ) → room_at self.old s ≤ room_at self.new s }
    {
        self.lists[slot].take_out(i);
    }

    /// Makes the lists ones that copies share. It takes no memory.
    pub(crate) fn share(&mut self)
        ensures { (s : ℕ) → list_at self.new s ≡ list_at self.old s }
    {
        share_each(self.lists.as_mut_slice());
    }

    /// A copy, with the same ids. It has the shared lists in common with this one, and copies of the others.
    pub(crate) fn copy(&self) -> Result<Lists, AllocError>
        ensures { IfOk result (λ copy. (s : ℕ) → list_at copy s ≡ list_at self.now s) }
    {
        let mut lists = Vec::with_capacity(self.alloc, self.lists.len())?;
        for list in self.lists.as_slice() {
            lists.push(list.copy(self.alloc)?)?;
        }
        Ok(Lists {
            alloc: self.alloc,
            lists,
        })
    }
}
