//! The rows whose recipes change with keys, from hit to hit of the keys' readers.

ghost use Rattle.std.specs.Prelude.{◌≡◌, ℕ, ◌+◌, ◌*◌, ◌^◌, ◌<◌, ◌≤◌, length, map, drop, IfOk, OnOk};
ghost use Rattle.std.specs.Map.{keys_of};
ghost use Rattle.paris_names.specs.declared.keys.Key.{Key as AnyKey};
ghost use Rattle.paris_names.specs.Keys.{has_key};
ghost use Rattle.paris_model.specs.Instructions.{Plan};
ghost use Rattle.paris_model.specs.Recipe.{Recipe};
ghost use Rattle.paris_depends.specs.Changes.{Differ, changed_between};
ghost use Rattle.paris_depends.specs.Sweeps.{touched};
ghost use Rattle.paris_program.specs.Program.{ids_of};
ghost use Rattle.paris_depends.specs.Index.{footprints};
ghost use Rattle.paris_depends.specs.Reaches.{reach_at};

use crate::index::{Index, Looks};
use crate::reaches::{Reach, add_writes, drop_ended, first_hit, move_past, reach_from};
use paris_names::{Key, RowId};
use paris_program::Program;
use std::alloc::{AllocError, Global};

/// How far keys reach that change at a place.
fn reaches_from<T>(
    alloc: Global,
    program: &Program<T>,
    index: &Index,
    place: usize,
    keys: &[Key],
    looks: &mut Looks,
) -> Result<Vec<Reach>, AllocError>
    requires of { ids_of program.now.rows ≡ keys_of index.now.rows }
    requires within { place ≤ length program.now.rows }
    requires few { looks.old + length keys.now * 129 ≤ 2 ^ 63 }
    ensures reaches { IfOk result (λ reaches. reaches.items ≡ map (λ k. reach_at index.now.rows k place) keys.now) }
    ensures looks { (b : ℕ) → length program.now.rows < 2 ^ b → looks.new ≤ looks.old + length keys.now * (2 * b + 1) }
    ensures more { looks.old ≤ looks.new }
{
    // The length is what says that at most 64 halvings find an entry.
    let _len = program.len();
    let mut reaches = Vec::new(alloc);
    for i in 0..keys.len() {
        let reach = reach_from(program, index, &keys[i], place, looks);
        reaches.push(reach)?;
    }
    Ok(reaches)
}

/// The ids of the rows from a place on whose recipe changes when just these keys get new recipes at that place, in program order. The
/// index is of the program's rows.
pub fn affected<T>(
    alloc: Global,
    program: &Program<T>,
    index: &Index,
    place: usize,
    keys: &[Key],
    looks: &mut Looks,
) -> Result<Vec<RowId>, AllocError>
    requires of { ids_of program.now.rows ≡ keys_of index.now.rows }
    requires within { place ≤ length program.now.rows }
    requires few { looks.old + (length keys.now + 3 * length program.now.rows) * (length program.now.rows + 129) ≤ 2 ^ 63 }
    ensures changed { IfOk result (λ ids. (plan : T → Plan) (number : ℕ → ℕ) (q q' : AnyKey → Recipe) → footprints plan program.now.rows ≡ index.now.rows → Differ (has_key keys.now) q q'
        → map (λ id. id.0) ids.items ≡ changed_between plan number q q' (drop place program.now.rows)) }
    ensures touched { IfOk result (λ ids. (plan : T → Plan) → footprints plan program.now.rows ≡ index.now.rows
        → map (λ id. id.0) ids.items ≡ touched plan (has_key keys.now) (drop place program.now.rows)) }
    ensures looks { IfOk result (λ ids. length program.now.rows ≤ 4096 → looks.new ≤ looks.old + (length keys.now + 3 * length ids.items) * (length ids.items + 32)) }
{
    let len = program.len();
    let mut ids = Vec::new(alloc);
    let mut reaches = reaches_from(alloc, program, index, place, keys, looks)?;
    let mut at = first_hit(reaches.as_slice());
    while at < len {
        let (id, _) = program.at(at);
        ids.push(id)?;
        drop_ended(&mut reaches, at);
        move_past(program, index, &mut reaches, at, looks);
        add_writes(program, index, &mut reaches, id, at + 1, looks)?;
        at = first_hit(reaches.as_slice());
    }
    Ok(ids)
}
