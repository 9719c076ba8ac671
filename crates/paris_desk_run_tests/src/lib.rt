//! Random sessions at desks, with seats in threads, beside what plain lists and the plain program give. It has no code of its own.
#![tactic(auto)]

#[cfg(test)]
mod dice;
#[cfg(test)]
mod eyes;
#[cfg(test)]
mod first;
#[cfg(test)]
mod plain;
#[cfg(test)]
mod replay;
#[cfg(test)]
mod runs;
#[cfg(test)]
mod seats;
#[cfg(test)]
mod spellings;
