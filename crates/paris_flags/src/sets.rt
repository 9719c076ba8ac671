//! Sets of flags.

ghost use Rattle.std.specs.Prelude.{⊤, ◌≡◌, ◌==◌, [], ◌∷◌, codes, length};
ghost use Rattle.std.specs.Iterator.{YieldsFirst, item_count};
ghost use Rattle.paris_flags.specs.FlagSets.{flag_bit, has_flag, flags_in, flags_left};

use bitflags::{Flag, Flags, bitflag_items};
use paris_names::FlagName;

/// Some of the four flags. A clause sees them by `flags_in`, in the order context, test, carry, overflow. Bits beside those of
/// the four stand for nothing.
#[derive(Clone, Copy, Debug)]
pub struct FlagSet(u8);

bitflag_items! {
    impl FlagSet: u8 {
        const CONTEXT = 1;
        const TEST = 2;
        const CARRY = 4;
        const OVERFLOW = 8;
    }
}

impl Flags for FlagSet {
    type Bits = u8;

    ghost exact = { ⊤ };

    ghost table = { (codes "CONTEXT", 1) ∷ (codes "TEST", 2) ∷ (codes "CARRY", 4) ∷ (codes "OVERFLOW", 8) ∷ [] };

    ghost set_of = { λ flags. flags.0 };

    fn flags<'a>() -> &'a [Flag<FlagSet>] {
        FlagSet::FLAGS
    }

    fn bits(&self) -> u8 {
        self.0
    }

    fn from_bits_retain(bits: u8) -> FlagSet {
        FlagSet(bits)
    }
}

impl From<FlagName> for FlagSet {
    ghost from_gives = { λ name flags. flags.0 ≡ flag_bit name };

    fn from(name: FlagName) -> FlagSet {
        match name {
            FlagName::Context => FlagSet::CONTEXT,
            FlagName::Test => FlagSet::TEST,
            FlagName::Carry => FlagSet::CARRY,
            FlagName::Overflow => FlagSet::OVERFLOW,
        }
    }
}

impl FlagSet {
    /// Whether a flag is in the set.
    pub fn contains(self, name: FlagName) -> bool
        ensures { result ≡ has_flag self name }
    {
        Flags::contains(&self, FlagSet::from(name))
    }

    /// Whether the set has no flag.
    pub fn is_empty(self) -> bool
        ensures { result ≡ (length (flags_in self) == 0) }
    {
        self.len() == 0
    }

    /// How many flags the set has.
    pub fn len(self) -> usize
        ensures { result ≡ length (flags_in self) }
    {
        self.names().count()
    }

    /// The flags of the set, in order.
    pub fn names(self) -> FlagNames
        ensures { flags_left result ≡ flags_in self }
    {
        FlagNames {
            flags: self,
            place: 0,
        }
    }
}

/// The flags, in order.
const FLAG_NAMES: [FlagName; 4] = [
    FlagName::Context,
    FlagName::Test,
    FlagName::Carry,
    FlagName::Overflow,
];

/// The flags of a set, one at a time, in order.
#[derive(Drop)]
pub struct FlagNames {
    flags: FlagSet,
    place: usize,
}

impl Iterator for FlagNames {
    type Item = FlagName;

    ghost next_gives = { YieldsFirst flags_left };

    ghost remaining = { item_count flags_left };

    fn next(&mut self) -> Option<FlagName> {
        while self.place < FLAG_NAMES.len() {
            let name = FLAG_NAMES[self.place];
            self.place += 1;
            if self.flags.contains(name) {
                return Some(name);
            }
        }
        None
    }
}
