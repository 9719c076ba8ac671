//! What an instruction sees: its set, the set's geometry, and numbers at keys.

ghost use Rattle.std.specs.Prelude.{◌≡◌, ◌<◌, ◌≤◌, ◌^◌, ◌||◌, not, true, if◌then◌else◌, IfOk};
ghost use Rattle.paris_geometry.specs.Geometry.{processor_count};
ghost use Rattle.paris_model.specs.Store.{put};
ghost use Rattle.paris_model.specs.Frame.{at, field_at, low_at, flag_at, is_selected};
ghost use Rattle.paris_model.specs.Instructions.{value_at};
ghost use Rattle.paris_plain.specs.Plain.{are_bits, flags_are_bits, frame_of_seen, is_flag};
ghost use Rattle.paris_names.specs.declared.limits.TheConstants.{MAX_PROCESSORS, MAX_WIDTH_OF_ONE};

use crate::bits::{low_bits, put_bits};
use paris_geometry::Geometry;
use paris_model::Operand;
use paris_names::{FlagName, Items, Key, SetNo};
use std::alloc::{AllocError, Global};
use std::marker::Model;

/// What an instruction sees: its set, the set's geometry, and for each of some keys a list of numbers, by processor. The
/// numbers at a flag are 0 or 1. Where there is no number, it is 0. A clause sees a record of the parts.
#[derive(Debug, Drop)]
pub struct Inputs {
    owner: SetNo,
    shape: Geometry,
    names: Vec<Key>,
    lists: Vec<Items<u128>>,
}

impl Model for Inputs {
    ghost use Rattle.std.specs.Prelude.{◌≡◌, true};
    ghost use Rattle.paris_plain.specs.Plain.{Seen, flags_are_bits};

    ghost Value = { Seen };

    ghost view = { λ a. record { set_no = a.owner; axes = a.shape; keys = a.names.items; values = a.lists.items } };

    ghost invariant = { λ a. flags_are_bits a.names.items a.lists.items ≡ true };
}

/// The list beside a key, which is empty where the key is none of them.
fn list_beside<'a>(keys: &[Key], lists: &'a [Items<u128>], key: &Key) -> &'a [u128]
    ensures { result.now ≡ value_at keys.now lists.entry.now key.now }
{
    for i in 0..keys.len() {
        if i >= lists.len() {
            return &[];
        }
        if key.is_same(keys[i]) {
            return lists[i].as_slice();
        }
    }
    &[]
}

/// Whether each number is 0 or 1.
fn are_bits(numbers: &[u128]) -> bool
    ensures { result ≡ are_bits numbers.now }
{
    numbers.iter().all(|n| *n < 2)
}

/// Whether a key may have these numbers: those of a flag are 0 or 1.
fn fits(key: &Key, numbers: &[u128]) -> bool
    ensures { result ≡ (not (is_flag key.now) || are_bits numbers.now) }
{
    match key {
        Key::Field(_) => true,
        Key::Flag(_, _) => are_bits(numbers),
    }
}

/// Whether the numbers at each flag are 0 or 1, where the lists lie beside the keys.
pub fn flags_are_bits(keys: &[Key], values: &[Items<u128>]) -> bool
    ensures { result ≡ flags_are_bits keys.now values.now }
{
    for i in 0..keys.len() {
        if i >= values.len() {
            return true;
        }
        if !fits(&keys[i], values[i].as_slice()) {
            return false;
        }
    }
    true
}

impl Inputs {
    /// The inputs of these parts: a list of numbers for each key, by processor. `flags_are_bits` tests what it requires.
    pub fn new(set: SetNo, geometry: Geometry, keys: Vec<Key>, values: Vec<Items<u128>>) -> Inputs
        requires { flags_are_bits keys.items values.items ≡ true }
        ensures { result ≡ record { set_no = set; axes = geometry; keys = keys.items; values = values.items } }
    {
        Inputs {
            owner: set,
            shape: geometry,
            names: keys,
            lists: values,
        }
    }

    /// The set's geometry.
    pub(crate) fn geometry(&self) -> Geometry
        ensures { result ≡ self.now.axes }
    {
        self.shape
    }

    /// How many processors there are.
    pub(crate) fn vps(&self) -> usize
        ensures value { result ≡ processor_count self.now.axes }
        ensures small { result ≤ MAX_PROCESSORS }
    {
        self.shape.vps()
    }

    /// The numbers at a key, by processor.
    pub(crate) fn numbers(&self, key: &Key) -> &[u128]
        ensures { result.now ≡ value_at self.now.keys self.now.values key.now }
    {
        list_beside(self.names.as_slice(), self.lists.as_slice(), key)
    }

    /// A copy of the numbers at a key.
    pub(crate) fn copied(&self, alloc: Global, key: &Key) -> Result<Vec<u128>, AllocError>
        ensures { IfOk result (λ copy. copy.items ≡ value_at self.now.keys self.now.values key.now) }
    {
        Vec::from_slice(alloc, self.numbers(key))
    }

    /// The number at a key in a processor.
    pub(crate) fn at(&self, key: &Key, v: usize) -> u128
        ensures { result ≡ at (frame_of_seen self.now) key.now v }
    {
        match self.numbers(key).get(v) {
            Some(number) => *number,
            None => 0,
        }
    }

    /// The low bits of a field in the processor at a send address, which may be outside the set.
    pub(crate) fn low_at_address(&self, operand: Operand, length: u64, address: u128) -> u128
        requires { length ≤ MAX_WIDTH_OF_ONE }
        ensures { result ≡ low_at (frame_of_seen self.now) operand length address }
    {
        let numbers = self.numbers(&Key::Field(operand.field));
        if address < numbers.len() as u128 {
            low_bits(length, numbers[address as usize])
        } else {
            0
        }
    }

    /// The number of a field in a processor.
    pub(crate) fn field_at(&self, operand: Operand, v: usize) -> u128
        ensures { result ≡ field_at (frame_of_seen self.now) operand v }
    {
        self.at(&Key::Field(operand.field), v)
    }

    /// The low bits of a field in a processor.
    pub(crate) fn low_at(&self, operand: Operand, length: u64, v: usize) -> u128
        requires { length ≤ MAX_WIDTH_OF_ONE }
        ensures value { result ≡ low_at (frame_of_seen self.now) operand length v }
        ensures small { result < 2 ^ length }
    {
        low_bits(length, self.field_at(operand, v))
    }

    /// The number of a flag of the set in a processor.
    pub(crate) fn flag_at(&self, flag: FlagName, v: usize) -> u128
        ensures value { result ≡ flag_at (frame_of_seen self.now) flag v }
        ensures small { result < 2 }
    {
        self.at(&Key::Flag(self.owner, flag), v)
    }

    /// Whether a processor is selected.
    pub(crate) fn is_selected(&self, v: usize) -> bool
        ensures { result ≡ is_selected (frame_of_seen self.now) v }
    {
        self.flag_at(FlagName::Context, v) == 1
    }

    /// The number at a key in a processor after it has put its new one into the low bits, if it stores.
    pub(crate) fn stored_at(
        &self,
        key: &Key,
        stores: bool,
        length: u64,
        new: u128,
        v: usize,
    ) -> u128
        requires { length ≤ MAX_WIDTH_OF_ONE }
        ensures { result ≡ (if stores then put (at (frame_of_seen self.now) key.now v) new length else at (frame_of_seen self.now) key.now v) }
    {
        if stores {
            put_bits(self.at(key, v), new, length)
        } else {
            self.at(key, v)
        }
    }

    /// The number at a key in a processor after it has put its new one into the low bits, if it is selected.
    pub(crate) fn selected_at(&self, key: &Key, length: u64, new: u128, v: usize) -> u128
        requires { length ≤ MAX_WIDTH_OF_ONE }
        ensures { result ≡ (if is_selected (frame_of_seen self.now) v then put (at (frame_of_seen self.now) key.now v) new length else at (frame_of_seen self.now) key.now v) }
    {
        self.stored_at(key, self.is_selected(v), length, new, v)
    }
}
