//! The entries of an index around a place, by halving.

ghost use Rattle.std.specs.Prelude.{◌≡◌, ℕ, ◌+◌, ◌^◌, ◌<◌, ◌≤◌, length, slice_get};
ghost use Rattle.std.specs.Option.{option_map};
ghost use Rattle.std.specs.Map.{keys_of};
ghost use Rattle.paris_program.specs.Program.{ids_of};
ghost use Rattle.paris_depends.specs.Places.{count_to};
ghost use Rattle.paris_depends.specs.Sides.{test_of, entries, entry_before};

use crate::index::{Index, Looks};
use crate::sides::Side;
use paris_names::{Key, RowId};
use paris_program::Program;

/// How many entries of a list stand before a place, with the last of them, and the first of the others.
#[derive(Drop)]
pub(crate) struct Around {
    pub(crate) before: usize,
    pub(crate) last: Option<RowId>,
    pub(crate) first: Option<RowId>,
}

/// How many entries a list has.
fn len(index: &Index, side: &Side, key: &Key) -> usize
    ensures { result ≡ length (entries side.now index.now.rows key.now) }
{
    match side {
        Side::Writers => index.writers(*key),
        Side::Readers => index.readers(*key),
    }
}

/// One entry of a list.
pub(crate) fn entry(index: &Index, side: &Side, key: &Key, i: usize, looks: &mut Looks) -> RowId
    requires within { i < length (entries side.now index.now.rows key.now) }
    requires few { looks.old < 2 ^ 63 }
    ensures value { slice_get (entries side.now index.now.rows key.now) i ≡ Some result.0 }
    ensures looks { looks.new ≡ looks.old + 1 }
{
    match side {
        Side::Writers => index.writer(*key, i, looks),
        Side::Readers => index.reader(*key, i, looks),
    }
}

/// The entries of a list around a place, by halving.
pub(crate) fn look_around<T>(
    program: &Program<T>,
    index: &Index,
    side: &Side,
    key: &Key,
    place: usize,
    looks: &mut Looks,
) -> Around
    requires of { ids_of program.now.rows ≡ keys_of index.now.rows }
    requires within { place ≤ length program.now.rows }
    requires few { looks.old + 64 ≤ 2 ^ 63 }
    ensures before { result.before ≡ count_to (test_of side.now key.now) index.now.rows place }
    ensures last { option_map (λ id. id.0) result.last ≡ entry_before (entries side.now index.now.rows key.now) result.before }
    ensures first { option_map (λ id. id.0) result.first ≡ slice_get (entries side.now index.now.rows key.now) result.before }
    ensures looks { (b : ℕ) → length program.now.rows < 2 ^ b → looks.new ≤ looks.old + b }
    ensures more { looks.old ≤ looks.new }
{
    let mut low = 0;
    let mut high = len(index, side, key);
    let mut last = None;
    let mut first = None;
    while low < high {
        let middle = low + (high - low) / 2;
        let id = entry(index, side, key, middle, looks);
        let at = program.place_of(id).unwrap();
        if at < place {
            low = middle + 1;
            last = Some(id);
        } else {
            high = middle;
            first = Some(id);
        }
    }
    Around {
        before: low,
        last,
        first,
    }
}
