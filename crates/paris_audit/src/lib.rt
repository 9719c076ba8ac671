//! The audit: whether a history and the receipts of its seats agree. It needs a book, and no desk.
#![tactic(auto)]

mod agreement;

pub use agreement::{are_answered, audit, audit_with};
