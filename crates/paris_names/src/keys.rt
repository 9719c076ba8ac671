//! The numbers of sets and fields, and the keys of a machine's state.

ghost use Rattle.std.specs.Prelude.{◌≡◌, ◌<◌, ◌↔◌, IsTrue};
ghost use Rattle.paris_names.specs.Keys.{flag_place, key_before, key_eq, key_slot, has_key};
ghost use Rattle.paris_names.specs.declared.limits.TheConstants.{MAX_FIELDS, MAX_SETS};

use crate::limits::{MAX_FIELDS, MAX_SETS};
use std::marker::Model;

/// The number of a set of virtual processors: its place among the declared sets. A clause sees the number.
#[derive(Clone, Copy, PartialEq, Eq, Hash, Debug)]
pub struct SetNo {
    number: u64,
}

impl Model for SetNo {
    ghost use Rattle.paris_names.specs.declared.limits.TheConstants.{MAX_SETS};
    ghost use Rattle.std.specs.Prelude.{ℕ, ◌<◌};

    ghost Value = { ℕ };

    ghost view = { λ s. s.number };

    ghost invariant = { λ s. s.number < MAX_SETS };

    ghost inverse = { λ n. record { number = n } };
}

impl SetNo {
    /// The set at a place among the declared sets.
    pub fn new(number: u64) -> SetNo
        requires { number < MAX_SETS }
        ensures { result ≡ number }
    {
        SetNo { number }
    }

    /// The place among the declared sets.
    pub fn number(self) -> u64
        ensures value { result ≡ self }
        ensures small { result < MAX_SETS }
    {
        self.number
    }
}

/// The number of a field: its place among the declared fields. A clause sees the number.
#[derive(Clone, Copy, PartialEq, Eq, Hash, Debug)]
pub struct FieldNo {
    number: u64,
}

impl Model for FieldNo {
    ghost use Rattle.paris_names.specs.declared.limits.TheConstants.{MAX_FIELDS};
    ghost use Rattle.std.specs.Prelude.{ℕ, ◌<◌};

    ghost Value = { ℕ };

    ghost view = { λ f. f.number };

    ghost invariant = { λ f. f.number < MAX_FIELDS };

    ghost inverse = { λ n. record { number = n } };
}

impl FieldNo {
    /// The field at a place among the declared fields.
    pub fn new(number: u64) -> FieldNo
        requires { number < MAX_FIELDS }
        ensures { result ≡ number }
    {
        FieldNo { number }
    }

    /// The place among the declared fields.
    pub fn number(self) -> u64
        ensures value { result ≡ self }
        ensures small { result < MAX_FIELDS }
    {
        self.number
    }
}

/// One of the four flags of a set.
#[derive(Clone, Copy, PartialEq, Eq, Hash, Debug)]
pub enum FlagName {
    /// Whether a processor is selected.
    Context,
    /// What comparisons answer.
    Test,
    /// What a sum carries out of its highest bit, or a difference borrows there.
    Carry,
    /// Whether a result didn't fit.
    Overflow,
}

/// A field, or a flag of a set: what an instruction reads or writes.
#[derive(Clone, Copy, PartialEq, Eq, Hash, Debug)]
pub enum Key {
    /// A field.
    Field(FieldNo),
    /// This flag of a set.
    Flag(SetNo, FlagName),
}

impl FlagName {
    /// The flag's place in the order context, test, carry, overflow.
    pub fn place(self) -> u64
        ensures value { result ≡ flag_place self }
        ensures small { result < 4 }
    {
        match self {
            FlagName::Context => 0,
            FlagName::Test => 1,
            FlagName::Carry => 2,
            FlagName::Overflow => 3,
        }
    }
}

impl Key {
    /// Whether both are the same key.
    pub fn is_same(self, other: Key) -> bool
        ensures value { result ≡ key_eq self other }
        ensures same { IsTrue result ↔ (self ≡ other) }
    {
        self == other
    }

    /// Whether this key comes before the other: fields by number, and then flags in the order context, test, carry, overflow.
    pub fn is_before(self, other: Key) -> bool
        ensures { result ≡ key_before self other }
    {
        match self {
            Key::Field(field) => match other {
                Key::Field(later) => field.number() < later.number(),
                Key::Flag(_, _) => true,
            },
            Key::Flag(_, flag) => match other {
                Key::Field(_) => false,
                Key::Flag(_, later) => flag.place() < later.place(),
            },
        }
    }

    /// A number below 128 that no other key has.
    pub fn slot(self) -> usize
        ensures value { result ≡ key_slot self }
        ensures small { result < 128 }
    {
        match self {
            Key::Field(field) => 2 * field.number() as usize,
            Key::Flag(set, flag) => 8 * set.number() as usize + 2 * flag.place() as usize + 1,
        }
    }
}

/// Whether a key is among keys.
pub fn has_key(keys: &[Key], key: Key) -> bool
    ensures { result ≡ has_key keys.now key }
{
    keys.iter().any(|k| key.is_same(*k))
}
