//! Names, keys and instructions by their texts, as tables have them.

use paris_model::Instr;
use paris_names::{KeyName, Name};
use paris_text::{key_of_word, read_instr};
use std::process::Abort;

/// A text, as a table has it.
pub(crate) type Text = &'static [u8];

pub(crate) fn name(rt: &impl Abort, text: &[u8]) -> Name {
    Name::new(text).expect(rt, "it is a name")
}

/// A field, as `a`, or a flag of a set, as `s.carry`.
pub(crate) fn key(rt: &impl Abort, text: &[u8]) -> KeyName {
    key_of_word(text).expect(rt, "it is a key")
}

/// An instruction in its one spelling.
pub(crate) fn instr_of(rt: &impl Abort, text: &[u8]) -> Instr {
    read_instr(text).ok().expect(rt, "it is an instruction")
}
