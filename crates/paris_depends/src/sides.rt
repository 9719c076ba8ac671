//! The two sides of an index: for each key the rows that write it, and those that read it.

ghost use Rattle.std.specs.Prelude.{◌≡◌, ℕ, List, ◌<◌, ◌≤◌, length, IfSome, OnOk, Some, nat_eq, remove, slice_get};
ghost use Rattle.std.specs.List.{AllByRecursion, IsDistinct};
ghost use Rattle.paris_names.specs.declared.keys.Key.{Key as AnyKey};
ghost use Rattle.paris_names.specs.Keys.{key_eq, key_slot};
ghost use Rattle.paris_program.specs.Program.{ids_of, place_of};
ghost use Rattle.paris_depends.specs.Index.{Footprint};
ghost use Rattle.paris_depends.specs.Lists.{HasRoomFor, list_at, room_at};
ghost use Rattle.paris_depends.specs.Places.{count_to};
ghost use Rattle.paris_depends.specs.Sides.{AreEntries, entries, keys_on, test_of};
ghost use Rattle.paris_depends.specs.declared.sides.Side.{Side as AnySide};

use crate::lists::Lists;
use crate::row_table::RowTable;
use paris_names::{Key, RowId};
use paris_program::Program;
use std::alloc::AllocError;

/// The rows that write a key, or those that read it.
#[derive(Clone, Copy)]
pub(crate) enum Side {
    /// The rows that write it.
    Writers,
    /// The rows that read it.
    Readers,
}

/// The place of the row with this id, or `usize::MAX` where there is none.
fn place_among<T>(program: &Program<T>, id: RowId) -> usize
    ensures place { IfSome (place_of program.now.rows id.0) (λ place. result ≡ place) }
    ensures distinct { IsDistinct nat_eq (ids_of program.now.rows) }
{
    match program.place_of(id) {
        Some(place) => place,
        None => usize::MAX,
    }
}

/// How many ids of a list stand among the rows of a program before a place, by halving. The list may lack the row at that place.
fn rank<T>(program: &Program<T>, lists: &Lists, slot: usize, place: usize) -> usize
    ensures within { result ≤ length (list_at lists.now slot) }
    ensures rank { (rows : List (ℕ × Footprint)) (side : AnySide) (key : AnyKey) → ids_of program.now.rows ≡ ids_of rows → AreEntries side key rows place (list_at lists.now slot) → place < length rows
        → result ≡ count_to (test_of side key) rows place }
{
    let mut low = 0;
    let mut high = lists.len(slot);
    while low < high {
        let middle = low + (high - low) / 2;
        let id = lists.at(slot, middle);
        let at = place_among(program, id);
        if at < place {
            low = middle + 1;
        } else {
            high = middle;
        }
    }
    low
}

/// Makes the list of each of these keys one to change, with room for one more id. The lists stay, also where memory is refused.
pub(crate) fn room_for(lists: &mut Lists, keys: &[Key]) -> Result<(), AllocError>
    ensures ids { (s : ℕ) → list_at lists.new s ≡ list_at lists.old s }
    ensures more { (s : ℕ) → room_at lists.old s ≤ room_at lists.new s }
    ensures ok { OnOk result (HasRoomFor lists.new keys.now) }
{
    for key in keys {
        lists.make_room(key.slot())?;
    }
    Ok(())
}

/// Puts the id of the row at a place into the list of each of its keys on a side. The lists have the entries of all other rows of the
/// program.
pub(crate) fn put_all<T>(
    lists: &mut Lists,
    program: &Program<T>,
    rows: &RowTable,
    side: Side,
    place: usize,
)
    requires of { ids_of program.now.rows ≡ ids_of rows.now.rows }
    requires within { place < length rows.now.rows }
    requires lists { (k : AnyKey) → list_at lists.old (key_slot k) ≡ entries side (remove rows.now.rows place) k }
    requires room { (r : ℕ × Footprint) → slice_get rows.now.rows place ≡ Some r → HasRoomFor lists.old (keys_on side r.1) }
    requires once { AllByRecursion (λ r. IsDistinct key_eq (keys_on side r.1)) rows.now.rows }
    ensures { (k : AnyKey) → list_at lists.new (key_slot k) ≡ entries side rows.now.rows k }
{
    let row = rows.at(place);
    for key in row.keys_on(side) {
        let i = rank(program, lists, key.slot(), place);
        lists.put(key.slot(), i, row.id());
    }
}

/// Takes the id of the row at a place out of the list of each of its keys on a side.
pub(crate) fn take_all_out<T>(
    lists: &mut Lists,
    program: &Program<T>,
    rows: &RowTable,
    side: Side,
    place: usize,
)
    requires of { ids_of program.now.rows ≡ ids_of rows.now.rows }
    requires within { place < length rows.now.rows }
    requires lists { (k : AnyKey) → list_at lists.old (key_slot k) ≡ entries side rows.now.rows k }
    requires room { (r : ℕ × Footprint) → slice_get rows.now.rows place ≡ Some r → HasRoomFor lists.old (keys_on side r.1) }
    requires once { AllByRecursion (λ r. IsDistinct key_eq (keys_on side r.1)) rows.now.rows }
    ensures ids { (k : AnyKey) → list_at lists.new (key_slot k) ≡ entries side (remove rows.now.rows place) k }
    ensures more { (s : ℕ) → room_at lists.old s ≤ room_at lists.new s }
{
    let row = rows.at(place);
    for key in row.keys_on(side) {
        let i = rank(program, lists, key.slot(), place);
        lists.take_out(key.slot(), i);
    }
}
