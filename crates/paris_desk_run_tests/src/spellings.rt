//! Names, keys and instructions by their texts, as tables have them.

use paris_model::Instr;
use paris_names::{KeyName, Name};
use paris_text::{key_of_word, read_instr};
use std::process::Abort;

/// A text, as a table has it.
pub(crate) type Text = &'static [u8];

/// The fields that are declared in the set `s`, some of them in the midst of a run.
pub(crate) const FIELDS: &[Text] = &[b"a", b"b", b"c", b"d", b"e", b"n"];

/// Those that are declared before a run.
pub(crate) const FIRST_FIELDS: &[Text] = &[b"a", b"b", b"c", b"d"];

/// Keys of fields and flags. No field is called `z`.
pub(crate) const KEYS: &[Text] = &[
    b"a",
    b"b",
    b"c",
    b"d",
    b"e",
    b"n",
    b"z",
    b"s.context",
    b"s.test",
    b"s.carry",
    b"s.overflow",
];

/// Instructions of each family over these keys. Some are refused, since a field is unknown or a length doesn't fit.
pub(crate) const INSTRUCTIONS: &[Text] = &[
    b"u-add-3-1L c a b 8",
    b"u-add-carry-3-1L a b c 8",
    b"u-subtract-3-1L b c a 8",
    b"s-add-3-1L a a b 8",
    b"s-subtract-3-1L c b a 8",
    b"u-multiply-3-1L b a c 8",
    b"s-multiply-3-1L d a b 8",
    b"u-truncate-3-1L c a b 8",
    b"u-rem-3-1L a c b 8",
    b"u-max-3-1L c a b 8",
    b"s-min-3-1L a b d 8",
    b"logand-3-1L c a b 8",
    b"logxor-3-1L b a c 8",
    b"s-negate-2-1L c a 8",
    b"lognot-2-1L b c 8",
    b"u-move-1L a b 8",
    b"u-move-1L c a 4",
    b"u-move-1L b c 8",
    b"u-move-1L d a 8",
    b"u-move-1L n a 8",
    b"u-move-constant-1L a 7 8",
    b"u-move-constant-1L b 1 8",
    b"u-move-constant-1L d 3 8",
    b"u-move-2L c a 3 8",
    b"s-move-2L b a 8 4",
    b"u-lt-1L a b 8",
    b"s-ge-1L b c 8",
    b"u-eq-1L a c 8",
    b"my-news-coordinate-1L b 0 8",
    b"my-send-address-1L d 8",
    b"set-test s",
    b"load-test n",
    b"store-test n",
    b"u-move-always-1L c b 8",
    b"u-move-always-1L a z 8",
    b"set-context s",
    b"invert-context s",
    b"load-context n",
    b"logior-context n",
    b"logand-context-with-test s",
    b"store-context n",
    b"get-from-news-1L c a 0 upward 8",
    b"send-to-news-1L b c 0 downward 8",
    b"scan-with-u-add-1L c a 0 8 upward inclusive none",
    b"scan-with-u-max-1L b a 0 8 downward exclusive n",
    b"spread-with-logior-1L a c 0 8",
    b"reduce-with-u-add-1L c b 0 8 1",
    b"get-1L c b a 8",
    b"get-1L a d c 8",
    b"get-1L b a b 8",
    b"send-1L e d a 8 n",
    b"send-1L c b a 8 none",
    b"send-1L a b c 8 none",
    b"send-with-u-add-1L d a b 8 none",
];

/// How many of them, from the last on, take a time by the square of the number of processors in the plain program.
pub(crate) const SLOW: usize = 4;

pub(crate) fn name(rt: &impl Abort, text: &[u8]) -> Name {
    Name::new(text).expect(rt, "it is a name")
}

/// A field, as `a`, or a flag of a set, as `s.carry`.
pub(crate) fn key(rt: &impl Abort, text: &[u8]) -> KeyName {
    key_of_word(text).expect(rt, "it is a key")
}

/// An instruction in its one spelling.
pub(crate) fn instr_of(rt: &impl Abort, text: &[u8]) -> Instr {
    read_instr(text).ok().expect(rt, "it is an instruction")
}
