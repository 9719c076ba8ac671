//! What depends on what: the row that a key's value comes from, and the rows whose recipes change with keys.
#![tactic(auto)]

mod id_list;
mod index;
mod lists;
mod nearby;
mod reaches;
mod row_keys;
mod row_table;
mod sides;
mod sources;
mod sweeps;
mod walks;

pub use index::{Index, Looks};
pub use sources::origin;
pub use sweeps::{is_any_marked, is_none_marked, mark};
pub use walks::affected;
