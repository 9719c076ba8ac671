//! Keys and edits by their texts, as tables have them.

use paris::{Command, Edit, KeyName, key_of_word, read_command};
use std::alloc::Global;
use std::process::Abort;

/// A text, as a table has it.
pub(crate) type Text = &'static [u8];

/// A field, as `a`, or a flag of a set, as `s.carry`.
pub(crate) fn key(rt: &impl Abort, text: &[u8]) -> KeyName {
    key_of_word(text).expect(rt, "it is a key")
}

fn edit_by(command: Command) -> Option<Edit> {
    match command {
        Command::Edit(edit) => Some(edit),
        _ => None,
    }
}

/// The edit that a line of a script spells.
pub(crate) fn edit_of(rt: &impl Abort, alloc: Global, line: &[u8]) -> Edit {
    let command = read_command(alloc, line, false)
        .ok()
        .expect(rt, "it is a command");
    edit_by(command).expect(rt, "it is an edit")
}
