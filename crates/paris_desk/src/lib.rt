//! The desk: a book under a lock, which seats in threads share. Each call is an entry of one history, and a receipt of its seat.
//! After each call the book is published, so that a seat may look at it with no lock.
#![tactic(auto)]

mod calls;
mod closing;
mod desk;
mod hold;
pub mod laws;
mod log;
mod making;
mod office;
mod parts;
mod preparing;
mod published;
mod publishing;
mod seat;
mod working;

pub use closing::{Cause, CloseFault, Closed, close};
pub use desk::Desk;
pub use hold::Locked;
pub use log::Known;
pub use office::{Office, Opening};
pub use paris_records::{Entry, Front, MAX_HISTORY, MAX_SEATS, Receipt};
pub use parts::{Looker, Rest};
pub use published::{DeskReader, DeskReading, OneLog, Published, Saw};
pub use seat::Seat;
pub use working::work;
