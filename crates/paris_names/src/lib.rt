//! What things are called: names, keys, rows and editions, the faults with their numbers, and the limits.
#![tactic(auto)]

mod faults;
mod ids;
mod items;
mod keys;
pub mod limits;
mod names;
mod profiles;

pub use faults::Fault;
pub use ids::{Edition, RowId, Spot};
pub use items::Items;
pub use keys::{FieldNo, FlagName, Key, SetNo, has_key};
pub use names::{KeyName, Name, NotAName};
pub use profiles::Profile;
