//! Random games with a book: edits, orders and results, late ones too, beside rows that are kept the slow way. It has no code of its own.
#![tactic(auto)]

#[cfg(test)]
mod books;
#[cfg(test)]
mod changes;
#[cfg(test)]
mod game;
#[cfg(test)]
mod ledger;
#[cfg(test)]
mod operations;
#[cfg(test)]
mod random;
#[cfg(test)]
mod spellings;
#[cfg(test)]
mod work;
