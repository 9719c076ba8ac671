//! Names of sets, fields and keys.

ghost use Rattle.std.specs.Prelude.{◌≡◌, ◌≤◌, length, true, codes, OkIff};
ghost use Rattle.std.specs.Option.{SomeIff};
ghost use Rattle.std.specs.List.{list_all};
ghost use Rattle.std.specs.Str.{bytes_eq};
ghost use Rattle.paris_names.specs.Names.{is_name, is_letter, is_name_byte};
ghost use Rattle.paris_names.specs.declared.limits.TheConstants.{MAX_NAME};

use crate::keys::FlagName;
use crate::limits::MAX_NAME;
use std::marker::Model;
use std::str::FromStr;
use thiserror::Error;

/// A name of a set or a field: 1 to 16 bytes, a letter and then letters, digits, `-` and `_`, and not the word `none`.
/// A clause sees its bytes.
#[derive(Clone, Copy, PartialEq, Eq, Hash, Debug)]
pub struct Name {
    buffer: [u8; MAX_NAME],
    len: usize,
}

impl Model for Name {
    ghost use Rattle.paris_names.specs.declared.limits.TheConstants.{MAX_NAME};
    ghost use Rattle.std.specs.Prelude.{◌≡◌, ℕ, ◌≤◌, List, length, take, true};
    ghost use Rattle.paris_names.specs.Names.{is_name, name_buffer};

    ghost Value = { List ℕ };

    ghost view = { λ n. take n.len n.buffer };

    ghost invariant = { λ n. (n.len ≤ MAX_NAME) × (n.buffer ≡ name_buffer (take n.len n.buffer)) × (is_name (take n.len n.buffer) ≡ true) };

    ghost inverse = { λ bs. record { buffer = name_buffer bs; len = length bs } };

    ghost use Rattle.paris_names.specs.NameFields.{name_fields};

    ghost inverse_ok = { name_fields };
}

#[tactic(auto, unfolding(crate::specs::Names::is_name))]
fn is_name(bytes: &[u8]) -> bool
    ensures value { result ≡ is_name bytes.now }
    ensures fits { result ≡ true → length bytes.now ≤ MAX_NAME }
{
    if bytes.is_empty() {
        return false;
    }
    let fits = bytes.len() <= MAX_NAME;
    let letter = is_letter(bytes[0]);
    let plain = are_name_bytes(bytes);
    let none = is_none_word(bytes);
    fits && letter && plain && !none
}

fn are_name_bytes(bytes: &[u8]) -> bool
    ensures { result ≡ list_all is_name_byte bytes.now }
{
    bytes.iter().all(|b| is_name_byte(*b))
}

fn is_none_word(bytes: &[u8]) -> bool
    ensures { result ≡ bytes_eq bytes.now (codes "none") }
{
    bytes == b"none".as_slice()
}

fn is_letter(byte: u8) -> bool
    ensures { result ≡ is_letter byte }
{
    match byte {
        b'A'..=b'Z' | b'a'..=b'z' => true,
        _ => false,
    }
}

fn is_name_byte(byte: u8) -> bool
    ensures { result ≡ is_name_byte byte }
{
    match byte {
        b'A'..=b'Z' | b'a'..=b'z' | b'0'..=b'9' | b'-' | b'_' => true,
        _ => false,
    }
}

impl Name {
    /// The name of these bytes, if they are a name's.
    pub fn new(bytes: &[u8]) -> Option<Name>
        ensures { SomeIff result (is_name bytes.now ≡ true) bytes.now }
    {
        if !is_name(bytes) {
            return None;
        }
        let mut buffer = [0u8; 16];
        buffer[..bytes.len()].copy_from_slice(bytes);
        Some(Name {
            buffer,
            len: bytes.len(),
        })
    }

    /// The name's bytes.
    pub fn as_bytes(&self) -> &[u8]
        ensures bytes { result.now ≡ self.now }
        ensures name { is_name self.now ≡ true }
    {
        &self.buffer[..self.len]
    }
}

/// A text that is no name.
#[derive(Clone, Copy, PartialEq, Eq, Debug, Error)]
#[error("a name is 1 to 16 bytes, a letter and then letters, digits, `-` and `_`, and not the word `none`")]
pub struct NotAName;

impl TryFrom<&[u8]> for Name {
    type Error = NotAName;

    ghost try_from_gives = { λ bytes result. OkIff result (is_name bytes.now ≡ true) bytes.now };

    fn try_from(bytes: &[u8]) -> Result<Name, NotAName> {
        Name::new(bytes).ok_or(NotAName)
    }
}

impl FromStr for Name {
    type Err = NotAName;

    ghost from_str_gives = { λ text result. OkIff result (is_name text ≡ true) text };

    fn from_str(text: &str) -> Result<Name, NotAName> {
        Name::try_from(text.as_bytes())
    }
}

/// The name of a key: of a field, or of a set with one of its flags.
#[derive(Clone, Copy, PartialEq, Eq, Hash, Debug)]
pub struct KeyName {
    /// The name of the field, or of the set.
    pub name: Name,
    /// The flag of the set. `None` where the name is a field's.
    pub flag: Option<FlagName>,
}
