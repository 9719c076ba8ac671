//! How far changed keys reach: from a place to the first row from there on that writes the key.

ghost use Rattle.std.specs.Prelude.{◌≡◌, ℕ, List, ◌+◌, ◌*◌, ◌^◌, ◌<◌, ◌≤◌, ◌++◌, length, map, slice_get, OnOk, IsSome, unwrap_or, []};
ghost use Rattle.std.specs.Option.{option_map};
ghost use Rattle.std.specs.List.{AllByRecursion, filter};
ghost use Rattle.std.specs.Map.{keys_of};
ghost use Rattle.paris_names.specs.declared.keys.Key.{Key as AnyKey};
ghost use Rattle.paris_program.specs.Program.{ids_of};
ghost use Rattle.paris_depends.specs.Index.{Footprint, readers, keys_written};
ghost use Rattle.paris_depends.specs.Reaches.{IsReach, first_hit, goes_on, hit_at, moved, moved_past, reach_at};
ghost use Rattle.paris_depends.specs.Places.{nth_place};
ghost use Rattle.paris_depends.specs.Sides.{test_of, entries};

use crate::index::{Index, Looks};
use crate::nearby::look_around;
use crate::sides::Side;
use paris_names::{Key, RowId};
use paris_program::Program;
use std::alloc::AllocError;

/// No place.
pub(crate) const NEVER: usize = usize::MAX;

/// How far a changed key reaches: the place of the next row in reach that reads it, how many readers stand before that row, and the
/// place of the first row that writes the key.
#[derive(Clone, Copy, Drop)]
pub(crate) struct Reach {
    pub(crate) key: Key,
    pub(crate) next: usize,
    pub(crate) hit: usize,
    pub(crate) last: usize,
}

/// The place of an entry of a list, or the number of rows where there is none.
fn place_of_entry<T>(
    program: &Program<T>,
    index: &Index,
    side: &Side,
    key: &Key,
    i: usize,
    id: Option<RowId>,
) -> usize
    requires of { ids_of program.now.rows ≡ keys_of index.now.rows }
    requires entry { option_map (λ id. id.0) id ≡ slice_get (entries side.now index.now.rows key.now) i }
    ensures { result ≡ nth_place (test_of side.now key.now) index.now.rows i }
{
    let len = program.len();
    match id {
        Some(id) => program.place_of(id).unwrap(),
        None => len,
    }
}

/// The place of a reader, if there is one there and it stands at the last place or before.
fn hit_at(len: usize, at: usize, last: usize) -> usize
    ensures { (rows : List (ℕ × Footprint)) → length rows ≡ len → result ≡ hit_at rows at last }
{
    if at < len && at <= last { at } else { NEVER }
}

/// How far a key reaches that changes at a place.
pub(crate) fn reach_from<T>(
    program: &Program<T>,
    index: &Index,
    key: &Key,
    place: usize,
    looks: &mut Looks,
) -> Reach
    requires of { ids_of program.now.rows ≡ keys_of index.now.rows }
    requires within { place ≤ length program.now.rows }
    requires few { looks.old + 128 ≤ 2 ^ 63 }
    ensures value { result ≡ reach_at index.now.rows key.now place }
    ensures looks { (b : ℕ) → length program.now.rows < 2 ^ b → looks.new ≤ looks.old + 2 * b }
    ensures more { looks.old ≤ looks.new }
{
    let len = program.len();
    let writers = look_around(program, index, &Side::Writers, key, place, looks);
    let readers = look_around(program, index, &Side::Readers, key, place, looks);
    let last = place_of_entry(
        program,
        index,
        &Side::Writers,
        key,
        writers.before,
        writers.first,
    );
    let at = place_of_entry(
        program,
        index,
        &Side::Readers,
        key,
        readers.before,
        readers.first,
    );
    Reach {
        key: *key,
        next: readers.before,
        hit: hit_at(len, at, last),
        last,
    }
}

/// The same, past the reader that is hit.
fn moved<T>(program: &Program<T>, index: &Index, reach: &Reach, looks: &mut Looks) -> Reach
    requires of { ids_of program.now.rows ≡ keys_of index.now.rows }
    requires there { reach.now.next < length (readers index.now.rows reach.now.key) }
    requires few { looks.old < 2 ^ 63 }
    ensures value { result ≡ moved index.now.rows reach.now }
    ensures looks { looks.new ≤ looks.old + 1 }
    ensures more { looks.old ≤ looks.new }
{
    let key = &reach.key;
    let count = index.readers(*key);
    let next = reach.next + 1;
    let id = if next < count {
        Some(index.reader(*key, next, looks))
    } else {
        None
    };
    let at = place_of_entry(program, index, &Side::Readers, key, next, id);
    Reach {
        key: *key,
        next,
        hit: hit_at(program.len(), at, reach.last),
        last: reach.last,
    }
}

/// The first place that is hit.
pub(crate) fn first_hit(reaches: &[Reach]) -> usize
    ensures { result ≡ first_hit reaches.now }
{
    let mut first = NEVER;
    for i in (0..reaches.len()).rev() {
        first = reaches[i].hit.min(first);
    }
    first
}

/// A reach, past the row at a place.
fn moved_past<T>(
    program: &Program<T>,
    index: &Index,
    reach: &Reach,
    place: usize,
    looks: &mut Looks,
) -> Reach
    requires of { ids_of program.now.rows ≡ keys_of index.now.rows }
    requires within { place < length program.now.rows }
    requires known { IsReach index.now.rows place reach.now }
    requires few { looks.old < 2 ^ 63 }
    ensures value { result ≡ moved_past index.now.rows place reach.now }
    ensures looks { looks.new ≤ looks.old + 1 }
    ensures more { looks.old ≤ looks.new }
{
    if reach.hit == place {
        moved(program, index, reach, looks)
    } else {
        *reach
    }
}

/// Drops the reaches that end at the row at a place, or before it.
pub(crate) fn drop_ended(reaches: &mut Vec<Reach>, place: usize)
    ensures { reaches.new.items ≡ filter (goes_on place) reaches.old.items }
{
    reaches.retain(|reach| place < reach.last);
}

/// All reaches, past the row at a place.
pub(crate) fn move_past<T>(
    program: &Program<T>,
    index: &Index,
    reaches: &mut Vec<Reach>,
    place: usize,
    looks: &mut Looks,
)
    requires of { ids_of program.now.rows ≡ keys_of index.now.rows }
    requires within { place < length program.now.rows }
    requires known { AllByRecursion (IsReach index.now.rows place) reaches.old.items }
    requires few { looks.old + length reaches.old.items ≤ 2 ^ 63 }
    ensures reaches { reaches.new.items ≡ map (moved_past index.now.rows place) reaches.old.items }
    ensures looks { looks.new ≤ looks.old + length reaches.old.items }
    ensures more { looks.old ≤ looks.new }
{
    for i in 0..reaches.len() {
        reaches[i] = moved_past(program, index, &reaches[i], place, looks);
    }
}

/// Adds the reaches, from a place on, of the keys that a row writes.
pub(crate) fn add_writes<T>(
    program: &Program<T>,
    index: &Index,
    reaches: &mut Vec<Reach>,
    id: RowId,
    place: usize,
    looks: &mut Looks,
) -> Result<(), AllocError>
    requires of { ids_of program.now.rows ≡ keys_of index.now.rows }
    requires within { place ≤ length program.now.rows }
    requires there { IsSome (keys_written index.now.rows id.0) }
    requires few { looks.old + 387 ≤ 2 ^ 63 }
    ensures reaches { OnOk result (reaches.new.items ≡ reaches.old.items ++ map (λ k. reach_at index.now.rows k place) (unwrap_or (keys_written index.now.rows id.0) [])) }
    ensures looks { OnOk result ((b : ℕ) → length program.now.rows < 2 ^ b → looks.new ≤ looks.old + length (unwrap_or (keys_written index.now.rows id.0) []) * (2 * b + 1)) }
    ensures few { length (unwrap_or (keys_written index.now.rows id.0) []) ≤ 3 }
    ensures more { looks.old ≤ looks.new }
{
    // The length is what says that at most 64 halvings find an entry.
    let _len = program.len();
    for i in 0..index.keys(program, id) {
        let key = index.key(program, id, i, looks);
        let reach = reach_from(program, index, &key, place, looks);
        reaches.push(reach)?;
    }
    Ok(())
}
