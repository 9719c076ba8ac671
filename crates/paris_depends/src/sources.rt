//! The row that a key's value comes from.

ghost use Rattle.std.specs.Prelude.{◌≡◌, ◌+◌, ◌^◌, ◌<◌, ◌≤◌, length, take};
ghost use Rattle.std.specs.Option.{option_map};
ghost use Rattle.std.specs.Map.{keys_of};
ghost use Rattle.paris_model.specs.Instructions.{Plan};
ghost use Rattle.paris_model.specs.Recipe.{origin};
ghost use Rattle.paris_program.specs.Program.{ids_of};
ghost use Rattle.paris_depends.specs.Index.{footprints};

use crate::index::{Index, Looks};
use crate::nearby::look_around;
use crate::sides::Side;
use paris_names::{Key, RowId};
use paris_program::Program;

/// The id of the last row before a place that writes a key. `None` where no row does: the value comes from the start. The index is of
/// the program's rows.
pub fn origin<T>(
    program: &Program<T>,
    index: &Index,
    place: usize,
    key: Key,
    looks: &mut Looks,
) -> Option<RowId>
    requires of { ids_of program.now.rows ≡ keys_of index.now.rows }
    requires within { place ≤ length program.now.rows }
    requires few { looks.old + 64 ≤ 2 ^ 63 }
    ensures value { (plan : T → Plan) → footprints plan program.now.rows ≡ index.now.rows → option_map (λ id. id.0) result ≡ option_map (λ r. r.0) (origin (λ r. plan r.1) key (take place program.now.rows)) }
    ensures looks { length program.now.rows ≤ 4096 → looks.new ≤ looks.old + 13 }
{
    look_around(program, index, &Side::Writers, &key, place, looks).last
}
