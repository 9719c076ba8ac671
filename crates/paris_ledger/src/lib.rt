//! The ledger: a book with the history of who called it, under no lock. Who has it by `&mut` has it alone.
#![tactic(auto)]

mod ledger;
mod making;

pub use ledger::Ledger;
