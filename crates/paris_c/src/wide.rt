//! Numbers of two words each, of keys of any width.

ghost use Rattle.std.specs.Prelude.{◌≡◌, ◌≢◌, ◌⊎◌, ◌≤◌, ◌^◌, length, map, nat_le, position, None, Some, IfOk};
ghost use Rattle.paris_edits.specs.declared.edits.Edit.TheVariants.{Input};
ghost use Rattle.paris_events.specs.Edits.{edit_fault};
ghost use Rattle.paris_text.specs.Words.{key_word};
ghost use Rattle.paris_c.specs.Calls.{looked, wide_of, wide_number, wide_numbers, CanBeSet, IsNumberOf, IsSet, IsSetFault, IsShown, ShowsNumbers, ShowsCount, ShowsPending, ShowsFault};
ghost use Rattle.paris_c.specs.declared.statuses.TheConstants.{OK, NO_MEMORY, CLOSED, NO_KEY, PENDING, WRONG_ROOM};

use crate::contents::Contents;
use crate::looks::spot_at;
use crate::statuses::{self, NO_KEY, NO_MEMORY, OK, PENDING, WRONG_ROOM};
use paris_book::Look;
use paris_edits::Edit;
use paris_field::FieldValue;
use paris_names::{Fault, Items, KeyName};
use paris_text::key_of_word;
use std::alloc::{AllocError, Global};

/// A number in two words.
#[repr(C)]
#[derive(Clone, Copy)]
pub struct Wide {
    pub low: u64,
    pub high: u64,
}

impl Wide {
    /// A number in two words.
    pub(crate) fn of(number: u128) -> Wide
        ensures { result ≡ wide_of number }
    {
        Wide {
            low: (number % (1 << 64)) as u64,
            high: (number >> 64) as u64,
        }
    }

    /// The number.
    fn number(self) -> u128
        ensures { result ≡ wide_number self }
    {
        u128::from(self.high) * (1 << 64) + u128::from(self.low)
    }
}

/// Puts numbers into a room of as many.
fn put_numbers(numbers: &[u128], room: &mut [Wide])
    requires { length room.old ≡ length numbers.now }
    ensures { wide_numbers room.new ≡ numbers.now }
{
    for i in 0..numbers.len() {
        room[i] = Wide::of(numbers[i]);
    }
}

/// Whether a number needs more bits than a width has.
fn is_too_wide(width: u64, words: Wide) -> bool
    requires { width ≤ 128 }
    ensures { result ≡ nat_le (2 ^ width) (wide_number words) }
{
    width < 128 && words.number() >= 1u128 << width
}

/// The place of the first number that needs more bits than a width has.
fn first_too_wide(width: u64, given: &[Wide]) -> Option<usize>
    requires { width ≤ 128 }
    ensures { result ≡ position (λ words. nat_le (2 ^ width) (wide_number words)) given.now }
{
    given.iter().position(|words| is_too_wide(width, *words))
}

/// The numbers of a list, each of which is given in two words.
pub(crate) fn numbers_of(alloc: Global, given: &[Wide]) -> Result<Vec<u128>, AllocError>
    ensures { IfOk result (λ numbers. numbers.items ≡ wide_numbers given.now) }
{
    let mut numbers = Vec::with_capacity(alloc, given.len())?;
    for number in given {
        numbers.push(number.number())?;
    }
    Ok(numbers)
}

/// Puts the numbers of a value into a room of as many, and says how many they are.
fn put_value(value: &FieldValue, room: &mut [Wide], told: &mut u64) -> u32
    ensures numbers { result ≡ OK → wide_numbers room.new ≡ value.now.numbers }
    ensures told { told.new ≡ length value.now.numbers }
    ensures kept { result ≢ OK → room.new ≡ room.old }
    ensures few { result ≡ WRONG_ROOM → length room.old ≢ length value.now.numbers }
    ensures status { (result ≡ OK) ⊎ ((result ≡ NO_MEMORY) ⊎ (result ≡ WRONG_ROOM)) }
{
    *told = value.len() as u64;
    if room.len() != value.len() {
        return WRONG_ROOM;
    }
    match value.numbers() {
        Ok(numbers) => {
            put_numbers(numbers.as_slice(), room);
            OK
        }
        Err(_) => NO_MEMORY,
    }
}

impl Contents {
    /// Why numbers of two words each can't be given to a key from a processor on, if they can't. It takes no memory.
    fn wide_fault(&self, key: KeyName, from: u64, given: &[Wide]) -> Option<Fault>
        ensures { result ≡ edit_fault self.now.session.state (Input key from (wide_numbers given.now)) }
    {
        match self.session.input_width(key, from, given.len()) {
            Err(fault) => Some(fault),
            Ok(width) => match first_too_wide(width, given) {
                Some(i) => Some(Fault::TooWide(from + i as u64)),
                None => None,
            },
        }
    }

    /// What is answered where memory for the list of these numbers was refused: that, or the fault by which they are refused.
    fn without_list(&self, key: KeyName, from: u64, given: &[Wide]) -> u32
        ensures fault { result ≢ NO_MEMORY → IsNumberOf (edit_fault self.now.session.state (Input key from (wide_numbers given.now))) result }
        ensures memory { result ≡ NO_MEMORY → edit_fault self.now.session.state (Input key from (wide_numbers given.now)) ≡ None }
        ensures some { 1 ≤ result }
        ensures few { result ≤ 23 }
    {
        match self.wide_fault(key, from, given) {
            Some(fault) => statuses::of_fault(fault),
            None => NO_MEMORY,
        }
    }

    /// Gives the key that a word names numbers from a processor on, two words a number.
    pub(crate) fn set_wide(&mut self, alloc: Global, key: &[u8], from: u64, given: &[Wide]) -> u32
        ensures set { result ≡ OK → IsSet (Some self.old) (Some self.new) (key_word key.now) from (wide_numbers given.now) }
        ensures kept { result ≢ OK → self.new ≡ self.old }
        ensures key { result ≡ NO_KEY → key_word key.now ≡ None }
        ensures fault { 1 ≤ result → result ≤ 23 → result ≢ NO_MEMORY →
            IsSetFault (Some self.old) (key_word key.now) from (wide_numbers given.now) result }
        ensures memory { result ≡ NO_MEMORY → CanBeSet (Some self.old) (key_word key.now) from (wide_numbers given.now) }
        ensures status { (result ≤ 23) ⊎ (result ≡ NO_KEY) }
        ensures open { result ≢ CLOSED }
    {
        let Some(key) = key_of_word(key) else {
            return NO_KEY;
        };
        let Ok(numbers) = numbers_of(alloc, given) else {
            return self.without_list(key, from, given);
        };
        let values = Items::new(numbers);
        match self.session.edit(Edit::Input { key, from, values }) {
            Ok(_) => OK,
            Err(fault) => statuses::of_fault(fault),
        }
    }

    /// Puts the numbers that the key of a word holds at a place into a room of as many, two words a number, and says how many they are.
    /// Where a row is pending, it says its id.
    pub(crate) fn get_wide(&self, key: &[u8], place: u64, room: &mut [Wide], told: &mut u64) -> u32
        ensures numbers { result ≡ OK → ShowsNumbers (looked (Some self.now) (key_word key.now) place) (wide_numbers room.new) }
        ensures count { (result ≡ OK) ⊎ (result ≡ WRONG_ROOM) → ShowsCount (looked (Some self.now) (key_word key.now) place) told.new }
        ensures pending { result ≡ PENDING → ShowsPending (looked (Some self.now) (key_word key.now) place) told.new }
        ensures fault { 1 ≤ result → result ≤ 23 → result ≢ NO_MEMORY → ShowsFault (looked (Some self.now) (key_word key.now) place) result }
        ensures memory { result ≡ NO_MEMORY → IsShown (looked (Some self.now) (key_word key.now) place) }
        ensures key { result ≡ NO_KEY → key_word key.now ≡ None }
        ensures few { result ≡ WRONG_ROOM → length room.old ≢ told.new }
        ensures kept { result ≢ OK → room.new ≡ room.old }
        ensures status { (result ≤ 23) ⊎ ((result ≡ NO_KEY) ⊎ ((result ≡ PENDING) ⊎ (result ≡ WRONG_ROOM))) }
        ensures open { result ≢ CLOSED }
    {
        let Some(key) = key_of_word(key) else {
            return NO_KEY;
        };
        match self.session.look(key, spot_at(place)) {
            Ok(Look::Settled(value)) => put_value(value, room, told),
            Ok(Look::Pending(id)) => {
                *told = id.0;
                PENDING
            }
            Err(fault) => statuses::of_fault(fault),
        }
    }
}
