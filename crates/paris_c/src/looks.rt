//! What a key holds, and the rows, as words.

ghost use Rattle.std.specs.Prelude.{◌≡◌, ◌≢◌, ◌⊎◌, ◌<◌, ◌≤◌, ◌+◌, length, None, Some, map, nat_lt};
ghost use Rattle.paris_text.specs.Words.{key_word};
ghost use Rattle.paris_field.specs.Fields.{AllFit};
ghost use Rattle.paris_c.specs.Calls.{spot_of, looked, ids_listed, IsPart, IsShown, ShowsNumbers, ShowsPart, ShowsCount, ShowsPending, ShowsFault, ShowsWide};
ghost use Rattle.paris_c.specs.declared.statuses.TheConstants.{OK, NO_MEMORY, CLOSED, NO_KEY, PENDING, WRONG_ROOM, TOO_WIDE};

use crate::contents::Contents;
use crate::statuses::{self, NO_KEY, NO_MEMORY, OK, PENDING, TOO_WIDE, WRONG_ROOM};
use paris_book::Look;
use paris_edits::RowLook;
use paris_field::FieldValue;
use paris_names::{RowId, Spot};
use paris_text::key_of_word;

/// The place of the program that a number names.
pub(crate) fn spot_at(place: u64) -> Spot
    ensures { result ≡ spot_of place }
{
    if place == 0 {
        Spot::Start
    } else if place == u64::MAX {
        Spot::End
    } else {
        Spot::After(RowId(place))
    }
}

/// Whether a value has more bits than a word.
fn is_too_wide(value: &FieldValue) -> bool
    ensures { result ≡ nat_lt 64 value.now.width }
{
    value.width() > 64
}

/// Puts numbers that fit a word into a room of as many words.
fn put_words(numbers: &[u128], room: &mut [u64])
    requires fit { AllFit 64 numbers.now }
    requires room { length room.old ≡ length numbers.now }
    ensures { room.new ≡ numbers.now }
{
    for i in 0..numbers.len() {
        room[i] = numbers[i] as u64;
    }
}

/// Puts the numbers of a value into a room of as many words, and says how many they are.
pub(crate) fn put_value(value: &FieldValue, room: &mut [u64], told: &mut u64) -> u32
    ensures numbers { result ≡ OK → room.new ≡ value.now.numbers }
    ensures told { told.new ≡ length value.now.numbers }
    ensures kept { result ≢ OK → room.new ≡ room.old }
    ensures few { result ≡ WRONG_ROOM → length room.old ≢ length value.now.numbers }
    ensures wide { result ≡ TOO_WIDE → 64 < value.now.width }
    ensures status { (result ≡ OK) ⊎ ((result ≡ NO_MEMORY) ⊎ ((result ≡ WRONG_ROOM) ⊎ (result ≡ TOO_WIDE))) }
{
    *told = value.len() as u64;
    if room.len() != value.len() {
        return WRONG_ROOM;
    }
    if is_too_wide(value) {
        return TOO_WIDE;
    }
    match value.numbers() {
        Ok(numbers) => {
            put_words(numbers.as_slice(), room);
            OK
        }
        Err(_) => NO_MEMORY,
    }
}

/// Puts the numbers of a value from a processor on into a room, and says how many the value has. It takes no memory.
fn put_part(value: &FieldValue, from: u64, room: &mut [u64], told: &mut u64) -> u32
    ensures part { result ≡ OK → IsPart value.now.numbers from (length room.old) room.new }
    ensures told { told.new ≡ length value.now.numbers }
    ensures kept { result ≢ OK → room.new ≡ room.old }
    ensures past { result ≡ WRONG_ROOM → length value.now.numbers < from + length room.old }
    ensures wide { result ≡ TOO_WIDE → 64 < value.now.width }
    ensures status { (result ≡ OK) ⊎ ((result ≡ WRONG_ROOM) ⊎ (result ≡ TOO_WIDE)) }
{
    let count = value.len() as u64;
    *told = count;
    if from > count || room.len() as u64 > count - from {
        return WRONG_ROOM;
    }
    if is_too_wide(value) {
        return TOO_WIDE;
    }
    for i in 0..room.len() {
        room[i] = value.get(from as usize + i) as u64;
    }
    OK
}

/// Puts the ids of rows into a room of as many words, and says how many they are.
fn put_ids(rows: &[RowLook], room: &mut [u64], count: &mut usize) -> u32
    ensures ids { result ≡ OK → room.new ≡ map (λ row. row.id.0) rows.now }
    ensures count { count.new ≡ length rows.now }
    ensures kept { result ≢ OK → room.new ≡ room.old }
    ensures few { result ≢ OK → (result ≡ WRONG_ROOM) × (length room.old ≢ length rows.now) }
{
    *count = rows.len();
    if room.len() != rows.len() {
        return WRONG_ROOM;
    }
    for i in 0..rows.len() {
        room[i] = rows[i].id.0;
    }
    OK
}

impl Contents {
    /// Puts the numbers that the key of a word holds at a place into a room of as many words, and says how many they are. Where a
    /// row is pending, it says its id.
    pub(crate) fn get(&self, key: &[u8], place: u64, room: &mut [u64], told: &mut u64) -> u32
        ensures numbers { result ≡ OK → ShowsNumbers (looked (Some self.now) (key_word key.now) place) room.new }
        ensures count { (result ≡ OK) ⊎ (result ≡ WRONG_ROOM) → ShowsCount (looked (Some self.now) (key_word key.now) place) told.new }
        ensures pending { result ≡ PENDING → ShowsPending (looked (Some self.now) (key_word key.now) place) told.new }
        ensures fault { 1 ≤ result → result ≤ 23 → result ≢ NO_MEMORY → ShowsFault (looked (Some self.now) (key_word key.now) place) result }
        ensures memory { result ≡ NO_MEMORY → IsShown (looked (Some self.now) (key_word key.now) place) }
        ensures key { result ≡ NO_KEY → key_word key.now ≡ None }
        ensures few { result ≡ WRONG_ROOM → length room.old ≢ told.new }
        ensures wide { result ≡ TOO_WIDE → ShowsWide (looked (Some self.now) (key_word key.now) place) }
        ensures kept { result ≢ OK → room.new ≡ room.old }
        ensures status { (result ≤ 23) ⊎ ((result ≡ NO_KEY) ⊎ ((result ≡ PENDING) ⊎ ((result ≡ WRONG_ROOM) ⊎ (result ≡ TOO_WIDE)))) }
        ensures open { result ≢ CLOSED }
    {
        let Some(key) = key_of_word(key) else {
            return NO_KEY;
        };
        match self.session.look(key, spot_at(place)) {
            Ok(Look::Settled(value)) => put_value(value, room, told),
            Ok(Look::Pending(id)) => {
                *told = id.0;
                PENDING
            }
            Err(fault) => statuses::of_fault(fault),
        }
    }

    /// Puts the numbers that the key of a word holds at a place, from a processor on, into a room of words, and says how many the key
    /// has. Where a row is pending, it says its id.
    pub(crate) fn part(
        &self,
        key: &[u8],
        place: u64,
        from: u64,
        room: &mut [u64],
        told: &mut u64,
    ) -> u32
        ensures part { result ≡ OK → ShowsPart (looked (Some self.now) (key_word key.now) place) from (length room.old) room.new }
        ensures count { (result ≡ OK) ⊎ (result ≡ WRONG_ROOM) → ShowsCount (looked (Some self.now) (key_word key.now) place) told.new }
        ensures pending { result ≡ PENDING → ShowsPending (looked (Some self.now) (key_word key.now) place) told.new }
        ensures fault { 1 ≤ result → result ≤ 23 → ShowsFault (looked (Some self.now) (key_word key.now) place) result }
        ensures memory { result ≢ NO_MEMORY }
        ensures key { result ≡ NO_KEY → key_word key.now ≡ None }
        ensures past { result ≡ WRONG_ROOM → told.new < from + length room.old }
        ensures wide { result ≡ TOO_WIDE → ShowsWide (looked (Some self.now) (key_word key.now) place) }
        ensures kept { result ≢ OK → room.new ≡ room.old }
        ensures status { (result ≤ 23) ⊎ ((result ≡ NO_KEY) ⊎ ((result ≡ PENDING) ⊎ ((result ≡ WRONG_ROOM) ⊎ (result ≡ TOO_WIDE)))) }
        ensures open { result ≢ CLOSED }
    {
        let Some(key) = key_of_word(key) else {
            return NO_KEY;
        };
        match self.session.look(key, spot_at(place)) {
            Ok(Look::Settled(value)) => put_part(value, from, room, told),
            Ok(Look::Pending(id)) => {
                *told = id.0;
                PENDING
            }
            Err(fault) => statuses::of_fault(fault),
        }
    }

    /// Puts the ids of the rows in program order into a room of as many words, and says how many they are.
    pub(crate) fn rows(&self, room: &mut [u64], count: &mut usize) -> u32
        ensures ids { result ≡ OK → room.new ≡ ids_listed self.now.session }
        ensures count { (result ≡ OK) ⊎ (result ≡ WRONG_ROOM) → count.new ≡ length (ids_listed self.now.session) }
        ensures few { result ≡ WRONG_ROOM → length room.old ≢ count.new }
        ensures kept { result ≢ OK → room.new ≡ room.old }
        ensures status { (result ≡ OK) ⊎ ((result ≡ NO_MEMORY) ⊎ (result ≡ WRONG_ROOM)) }
        ensures open { result ≢ CLOSED }
    {
        match self.session.rows() {
            Ok(rows) => put_ids(rows.as_slice(), room, count),
            Err(_) => NO_MEMORY,
        }
    }
}
