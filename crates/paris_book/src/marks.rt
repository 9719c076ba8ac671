//! Rows that an edit makes unsettled.

ghost use Rattle.std.specs.Prelude.{◌≡◌, ◌+◌, ◌^◌, ◌<◌, ◌≤◌, length, drop, map, Some, IsSome, IfOk};
ghost use Rattle.paris_names.specs.declared.keys.Key.{Key as AnyKey};
ghost use Rattle.paris_names.specs.Keys.{has_key};
ghost use Rattle.paris_names.specs.declared.limits.TheConstants.{MAX_EDITS};
ghost use Rattle.paris_model.specs.Instructions.{writes};
ghost use Rattle.paris_program.specs.Program.{IsProgram, AreOwn, place_of, row_of};
ghost use Rattle.paris_depends.specs.Sweeps.{touched};
ghost use Rattle.paris_book.specs.Marks.{unsettled_by_ids, is_among, ids_in, data_plan, writes_either};
ghost use Rattle.paris_book.specs.MostRead.{most_read};
ghost use Rattle.paris_book.specs.Rows.{RowData as RowShape};

use crate::program_rows::Rows;
use paris_depends::Looks;
use paris_instr::Plan;
use paris_names::{Key, RowId, has_key};
use std::alloc::{AllocError, Global};

/// Makes the rows of these ids, which may be changed, unsettled by the edit of this number.
fn unsettle_all(rows: &mut Rows, ids: &[RowId], number: u64)
    requires { AreOwn rows.old (is_among (ids_in ids.now)) }
    ensures rows { rows.new.rows ≡ unsettled_by_ids number (ids_in ids.now) rows.old.rows }
    ensures next_id { rows.new.next_id ≡ rows.old.next_id }
    ensures sound { IsProgram rows.old }
{
    // The length is what says that no id stands twice.
    let _len = rows.len();
    for id in ids {
        if let Some(place) = rows.place_of(*id) {
            rows.unsettle(place, number);
        }
    }
}

/// Ends an edit: it is the last one now, and the rows of these ids, which may be changed, become unsettled by it. Copies share
/// settled rows from then on.
pub(crate) fn end_edit(rows: &mut Rows, edits: &mut u64, ids: &[RowId])
    requires left { edits.old < MAX_EDITS }
    requires own { AreOwn rows.old (is_among (ids_in ids.now)) }
    ensures edits { edits.new ≡ edits.old + 1 }
    ensures rows { rows.new.rows ≡ unsettled_by_ids (edits.old + 1) (ids_in ids.now) rows.old.rows }
    ensures next_id { rows.new.next_id ≡ rows.old.next_id }
    ensures sound { IsProgram rows.old }
{
    *edits += 1;
    unsettle_all(rows, ids, *edits);
    rows.share_settled();
}

/// The keys that a plan or another one writes, each once.
fn written_by_either(alloc: Global, old: &Plan, new: &Plan) -> Result<Vec<Key>, AllocError>
    ensures keys { IfOk result (λ keys. (k : AnyKey) → has_key keys.items k ≡ writes_either old.now new.now k) }
    ensures few { IfOk result (λ keys. length keys.items ≤ length (writes old.now) + length (writes new.now)) }
{
    let mut keys = Vec::new(alloc);
    keys.extend_from_slice(old.writes())?;
    for key in new.writes() {
        if !has_key(keys.as_slice(), *key) {
            keys.push(*key)?;
        }
    }
    Ok(keys)
}

/// The ids of the rows from a place on that become unsettled where the row just before it gets another plan. Entries of the index that
/// are read are counted.
pub(crate) fn unsettled_by_replace(
    alloc: Global,
    rows: &Rows,
    id: RowId,
    below: usize,
    plan: &Plan,
    looks: &mut Looks,
) -> Result<Vec<RowId>, AllocError>
    requires within { below ≤ length rows.now.rows }
    requires there { IsSome (place_of rows.now.rows id.0) }
    requires looks { looks.old ≤ 2 ^ 62 }
    ensures ids { IfOk result (λ ids. (row : RowShape) → row_of rows.now.rows id.0 ≡ Some row → ids_in ids.items ≡ touched data_plan (writes_either row.plan plan.now) (drop below rows.now.rows)) }
    ensures read { IfOk result (λ ids. looks.new ≤ looks.old + most_read (length ids.items)) }
{
    match rows.row(id) {
        Some(row) => {
            let keys = written_by_either(alloc, row.plan(), plan)?;
            rows.affected(alloc, below, keys.as_slice(), looks)
        }
        None => unreachable!(),
    }
}
