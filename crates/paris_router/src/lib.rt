//! Moves by send address: each selected processor fetches from an address, or sends to one.
#![tactic(auto)]

mod addresses;
mod gets;
mod inbox;
mod messages;
mod numbers;
mod quads;
mod sends;

pub use addresses::checked_addresses;
pub use gets::get;
pub use inbox::{Inbox, deliver_mail};
pub use messages::{checked_mail, receivers};
pub use numbers::{low_mask, low_numbers};
pub use sends::{Delivery, send};
