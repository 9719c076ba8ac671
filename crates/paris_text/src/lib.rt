//! The text of a script: the words of a line, and the command that a line spells.
#![tactic(auto)]

mod commands;
mod instructions;
pub mod laws;
mod mnemonics;
mod reader;
mod verbs;
mod words;
mod writer;

pub use commands::{Command, read_command, read_command_in};
pub use instructions::read_instr;
pub use reader::Syntax;
pub use verbs::Setting;
pub use words::key_of_word;
pub use writer::write_instr;
