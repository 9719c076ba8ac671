//! The words of a line, and what each of them spells.

ghost use Rattle.std.specs.Prelude.{◌≡◌, ℕ, ◌+◌, ◌-◌, ◌*◌, ◌^◌, ◌<◌, ◌≤◌, List, length, min, take, drop, nat_eq, nat_lt, nat_le, slice_index, ◌||◌, Option, Some, None, if◌then◌else◌, true, false, IfOk};
ghost use Rattle.std.specs.Fmt.{decimal};
ghost use Rattle.std.specs.List.{count_by, position_or_len, list_all};
ghost use Rattle.std.specs.Option.{IfSome};
ghost use Rattle.paris_text.specs.Words.{is_digit, is_number, value_from, value_word, number_word, flag_word, key_word, axes_word, profile_word};
ghost use Rattle.paris_text.specs.Room.{axes_room};

use paris_names::{FlagName, Items, KeyName, Name, Profile};
use std::alloc::{AllocError, Global};

/// How many bytes come before the first one that is equal to `stop`.
pub fn len_before(bytes: &[u8], stop: u8) -> usize
    ensures within { result ≤ length bytes.now }
    ensures value { result ≡ position_or_len (λ b. nat_eq b stop) bytes.now }
{
    for (i, byte) in bytes.iter().enumerate() {
        if *byte == stop {
            return i;
        }
    }
    bytes.len()
}

/// How many spaces stand among some bytes.
pub(crate) fn count_spaces(bytes: &[u8]) -> usize
    ensures { result ≡ count_by (λ b. nat_eq b 32) bytes.now }
{
    let mut count = 0;
    for byte in bytes {
        count += usize::from(*byte == b' ');
    }
    count
}

fn is_digit(byte: u8) -> bool
    ensures { result ≡ is_digit byte }
{
    b'0' <= byte && byte <= b'9'
}

fn are_digits(word: &[u8]) -> bool
    ensures { result ≡ list_all is_digit word.now }
{
    word.iter().all(|b| is_digit(*b))
}

/// Whether no zero stands before another digit.
fn is_plain(word: &[u8]) -> bool
    ensures { result ≡ (nat_lt 48 (slice_index word.now 0) || nat_le (length word.now) 1) }
{
    if word.len() <= 1 {
        true
    } else {
        b'0' < word[0]
    }
}

/// Whether the word is `0`, or digits with no zero at their head.
#[tactic(auto, unfolding(crate::specs::Words::is_number))]
fn is_number(word: &[u8]) -> bool
    ensures value { result ≡ is_number word.now }
    ensures digits { result ≡ true → list_all is_digit word.now ≡ true }
{
    let digits = are_digits(word);
    let plain = is_plain(word);
    !word.is_empty() && digits && plain
}

/// How many digits spell a number below `2 ^ 64`, whichever they are.
const WORD_DIGITS: usize = 19;

/// The value of the first 19 of some digits, or of all where they are fewer.
fn value_of_first_digits(word: &[u8]) -> u64
    requires { list_all is_digit word.now ≡ true }
    ensures { value_from result (drop (min (length word.now) 19) word.now) ≡ value_from 0 word.now }
{
    let mut value = 0u64;
    for i in 0..word.len().min(WORD_DIGITS) {
        value = value * 10 + u64::from(word[i].saturating_sub(b'0'));
    }
    value
}

/// The value of the digits of a number with some more behind it, if it is below `2 ^ 128`.
fn value_with_digits(start: u64, word: &[u8]) -> Option<u128>
    ensures { result ≡ (if nat_lt (value_from start word.now) (2 ^ 128) then Some (value_from start word.now) else None) }
{
    let mut value = u128::from(start);
    for byte in word {
        let digit = u128::from(byte.saturating_sub(b'0'));
        let Some(tens) = value.checked_mul(10) else {
            return None;
        };
        let Some(sum) = tens.checked_add(digit) else {
            return None;
        };
        value = sum;
    }
    Some(value)
}

/// The value of some digits, if it is below `2 ^ 128`.
fn value_of_digits(word: &[u8]) -> Option<u128>
    requires { list_all is_digit word.now ≡ true }
    ensures { result ≡ (if nat_lt (value_from 0 word.now) (2 ^ 128) then Some (value_from 0 word.now) else None) }
{
    let rest = &word[word.len().min(WORD_DIGITS)..];
    value_with_digits(value_of_first_digits(word), rest)
}

/// The number below `2 ^ 128` that a word spells.
pub fn value_of_word(word: &[u8]) -> Option<u128>
    ensures value { result ≡ value_word word.now }
    ensures spelled { IfSome result (λ n. decimal n ≡ word.now) }
{
    if !is_number(word) {
        return None;
    }
    value_of_digits(word)
}

/// The number below `2 ^ 64` that a word spells.
pub fn number_of_word(word: &[u8]) -> Option<u64>
    ensures value { result ≡ number_word word.now }
    ensures spelled { IfSome result (λ n. decimal n ≡ word.now) }
{
    match value_of_word(word) {
        Some(value) if value <= u128::from(u64::MAX) => Some(value as u64),
        Some(_) => None,
        None => None,
    }
}

/// The number that the digits at the head of some bytes spell, or the first 19 of these, and how many they are.
fn leading_digits(bytes: &[u8]) -> (u64, usize)
    ensures within { result.1 ≤ length bytes.now }
    ensures digits { list_all is_digit (take result.1 bytes.now) ≡ true }
    ensures value { result.0 ≡ value_from 0 (take result.1 bytes.now) }
{
    let mut value = 0u64;
    let most = bytes.len().min(WORD_DIGITS);
    for i in 0..most {
        if !is_digit(bytes[i]) {
            return (value, i);
        }
        value = value * 10 + u64::from(bytes[i].saturating_sub(b'0'));
    }
    (value, most)
}

/// A number with one digit more behind it, if it is below `2 ^ 64`.
fn with_digit(value: u64, byte: u8) -> Option<u64>
    ensures { result ≡ (if nat_lt (value * 10 + (byte - 48)) (2 ^ 64) then Some (value * 10 + (byte - 48)) else None) }
{
    let tens = value.checked_mul(10)?;
    tens.checked_add(u64::from(byte.saturating_sub(b'0')))
}

/// The number that the digits at the head of some bytes spell, and how many they are: of more than 20 digits the first 20 count, and the
/// first 19 where 20 spell no number below `2 ^ 64`.
fn leading_number(bytes: &[u8]) -> (u64, usize)
    ensures within { result.1 ≤ length bytes.now }
    ensures digits { list_all is_digit (take result.1 bytes.now) ≡ true }
    ensures value { result.0 ≡ value_from 0 (take result.1 bytes.now) }
{
    let (value, len) = leading_digits(bytes);
    if len < WORD_DIGITS || len == bytes.len() || !is_digit(bytes[len]) {
        return (value, len);
    }
    match with_digit(value, bytes[len]) {
        Some(more) => (more, len + 1),
        None => (value, len),
    }
}

/// Whether some bytes have a space at a place, or end there.
fn ends_at(bytes: &[u8], place: usize) -> bool
    requires { place ≤ length bytes.now }
    ensures { result ≡ true → (place < length bytes.now → slice_index bytes.now place ≡ 32) }
{
    place == bytes.len() || bytes[place] == b' '
}

/// The number that the first word of some bytes spells, and the length of that word, where it is below `2 ^ 64`. `None` says nothing of
/// the word.
pub(crate) fn short_value(bytes: &[u8]) -> Option<(u64, usize)>
    ensures within { IfSome result (λ x. x.1 ≤ length bytes.now) }
    ensures word { IfSome result (λ x. x.1 ≡ position_or_len (λ b. nat_eq b 32) bytes.now) }
    ensures value { IfSome result (λ x. value_word (take x.1 bytes.now) ≡ Some x.0) }
{
    let (value, len) = leading_number(bytes);
    if len == 0 || !ends_at(bytes, len) {
        return None;
    }
    if !is_plain(&bytes[..len]) {
        return None;
    }
    Some((value, len))
}

fn flag_of_word(word: &[u8]) -> Option<FlagName>
    ensures { result ≡ flag_word word.now }
{
    if word == b"context".as_slice() {
        Some(FlagName::Context)
    } else if word == b"test".as_slice() {
        Some(FlagName::Test)
    } else if word == b"carry".as_slice() {
        Some(FlagName::Carry)
    } else if word == b"overflow".as_slice() {
        Some(FlagName::Overflow)
    } else {
        None
    }
}

/// The key that a word names: a name, or a name with a dot and a flag after it.
pub fn key_of_word(word: &[u8]) -> Option<KeyName>
    ensures { result ≡ key_word word.now }
{
    let dot = len_before(word, b'.');
    if dot == word.len() {
        let name = Name::new(word)?;
        return Some(KeyName { name, flag: None });
    }
    let name = Name::new(&word[..dot])?;
    let flag = flag_of_word(&word[dot + 1..])?;
    Some(KeyName {
        name,
        flag: Some(flag),
    })
}

/// The profile that a word is the number of.
pub fn profile_of_word(word: &[u8]) -> Option<Profile>
    ensures { result ≡ profile_word word.now }
{
    if word == b"1".as_slice() {
        Some(Profile::One)
    } else if word == b"2".as_slice() {
        Some(Profile::Two)
    } else {
        None
    }
}

fn is_joint(byte: u8) -> bool
    ensures { result ≡ nat_eq byte 120 }
{
    byte == b'x'
}

/// How many lengths of axes a word spells.
pub fn count_axes(word: &[u8]) -> Option<usize>
    ensures { result ≡ axes_room word.now }
{
    let mut count = 0;
    for part in word.split(|byte| is_joint(*byte)) {
        let Some(_) = number_of_word(part) else {
            return None;
        };
        count += 1;
    }
    Some(count)
}

/// The lengths of axes that a word spells: numbers below `2 ^ 64` that are joined by `x`. Room is made for so many at first.
pub fn axes_of_word(
    alloc: Global,
    word: &[u8],
    count: usize,
) -> Result<Option<Items<u64>>, AllocError>
    ensures { IfOk result (λ axes. axes ≡ axes_word word.now) }
{
    let mut axes = Vec::with_capacity(alloc, count)?;
    for part in word.split(|byte| is_joint(*byte)) {
        let Some(axis) = number_of_word(part) else {
            return Ok(None);
        };
        axes.push(axis)?;
    }
    Ok(Some(Items::new(axes)))
}
