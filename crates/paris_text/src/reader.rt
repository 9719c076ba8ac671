//! Reads the words of a line, from the left. Each reader takes a line and the place where a word begins, and answers
//! what the word stands for and the place where the next word begins. The place behind a line that has no more words
//! is the line's length plus 1.

ghost use Rattle.std.specs.Prelude.{◌≡◌, ◌+◌, ◌<◌, ◌≤◌, length, IfOk, IfSome, Ok};
ghost use Rattle.paris_names.specs.declared.faults.Fault.TheVariants.{Syntax as SyntaxFault};
ghost use Rattle.paris_text.specs.Kinds.{direction_word, inclusion_word, option_word};
ghost use Rattle.paris_text.specs.Kinds.Kind.{NameWord, NumberWord, ValueWord, DirectionWord, InclusionWord, OptionWord, KeyWord, AxesWord, ProfileWord};
ghost use Rattle.paris_text.specs.Reading.{place, left, Gives, word_at, mnemonic_at, kind_at, end_at};
ghost use Rattle.paris_text.specs.Shapes.Shape.{Done, One};
ghost use Rattle.paris_text.specs.CommandReading.{GivesIfRoom, verb_at, spot_at, many_at, shape_at};
ghost use Rattle.paris_text.specs.Room.{values_room};

use crate::mnemonics::Mnemonic;
use crate::verbs::{Setting, Verb};
use crate::words;
use paris_geometry::Direction;
use paris_model::Inclusion;
use paris_names::{Fault, Items, KeyName, Name, Profile, RowId, Spot};
use std::alloc::Global;

/// A line is not in the grammar: the column, from 1, at which it leaves it.
#[derive(Clone, Copy, PartialEq, Eq, Debug)]
pub struct Syntax(pub u64);

impl From<Syntax> for Fault {
    ghost from_gives = { λ syntax fault. fault ≡ SyntaxFault syntax.0 };

    fn from(syntax: Syntax) -> Fault {
        Fault::Syntax(syntax.0)
    }
}

/// The next word.
pub fn next_word(line: &[u8], at: usize) -> Result<(&[u8], usize), Syntax>
    requires { at ≤ length line.now + 1 }
    ensures gives { Gives (λ x. (x.0.now, place line.now x.1)) result (word_at (place line.now at)) }
    ensures within { IfOk result (λ x. (x.1 ≤ length line.now + 1) × (at < x.1)) }
{
    if at > line.len() {
        return Err(Syntax(at as u64));
    }
    let rest = &line[at..];
    let len = words::len_before(rest, b' ');
    Ok((&rest[..len], at + len + 1))
}

/// The next word as a mnemonic.
pub fn next_mnemonic(line: &[u8], at: usize) -> Result<(Mnemonic, usize), Syntax>
    requires { at ≤ length line.now + 1 }
    ensures gives { Gives (λ x. (x.0, place line.now x.1)) result (mnemonic_at (place line.now at)) }
    ensures within { IfOk result (λ x. x.1 ≤ length line.now + 1) }
{
    let (word, next) = next_word(line, at)?;
    match Mnemonic::of_word(word) {
        Some(mnemonic) => Ok((mnemonic, next)),
        None => Err(Syntax(at as u64 + 1)),
    }
}

/// The next word as the first word of a command.
pub fn next_verb(setting: Setting, line: &[u8], at: usize) -> Result<(Verb, usize), Syntax>
    requires { at ≤ length line.now + 1 }
    ensures gives { Gives (λ x. (x.0, place line.now x.1)) result (verb_at setting (place line.now at)) }
    ensures within { IfOk result (λ x. x.1 ≤ length line.now + 1) }
{
    let (word, next) = next_word(line, at)?;
    match Verb::of_word_in(setting, word) {
        Some(verb) => Ok((verb, next)),
        None => Err(Syntax(at as u64 + 1)),
    }
}

/// The next word as a name.
pub fn next_name(line: &[u8], at: usize) -> Result<(Name, usize), Syntax>
    requires { at ≤ length line.now + 1 }
    ensures gives { Gives (λ x. (x.0, place line.now x.1)) result (kind_at NameWord (place line.now at)) }
    ensures within { IfOk result (λ x. x.1 ≤ length line.now + 1) }
{
    let (word, next) = next_word(line, at)?;
    match Name::new(word) {
        Some(name) => Ok((name, next)),
        None => Err(Syntax(at as u64 + 1)),
    }
}

/// The next word as a number below `2 ^ 64`.
pub fn next_number(line: &[u8], at: usize) -> Result<(u64, usize), Syntax>
    requires { at ≤ length line.now + 1 }
    ensures gives { Gives (λ x. (x.0, place line.now x.1)) result (kind_at NumberWord (place line.now at)) }
    ensures within { IfOk result (λ x. x.1 ≤ length line.now + 1) }
{
    let (word, next) = next_word(line, at)?;
    match words::number_of_word(word) {
        Some(number) => Ok((number, next)),
        None => Err(Syntax(at as u64 + 1)),
    }
}

/// The next word as a number, and the place where the next one begins, where it is below `2 ^ 64`. `None` says nothing of it.
#[inline(always)]
fn short_value(line: &[u8], at: usize) -> Option<(u64, usize)>
    requires { at ≤ length line.now + 1 }
    ensures gives { IfSome result (λ x. kind_at ValueWord (place line.now at) ≡ Ok (x.0, place line.now x.1)) }
    ensures within { IfSome result (λ x. (x.1 ≤ length line.now + 1) × (at < x.1)) }
{
    if at > line.len() {
        return None;
    }
    let (value, len) = words::short_value(&line[at..])?;
    Some((value, at + len + 1))
}

/// The next word as a number below `2 ^ 128`, where the word's end is looked for first.
#[inline(never)]
fn long_value(line: &[u8], at: usize) -> Result<(u128, usize), Syntax>
    requires { at ≤ length line.now + 1 }
    ensures gives { Gives (λ x. (x.0, place line.now x.1)) result (kind_at ValueWord (place line.now at)) }
    ensures within { IfOk result (λ x. (x.1 ≤ length line.now + 1) × (at < x.1)) }
{
    let (word, next) = next_word(line, at)?;
    match words::value_of_word(word) {
        Some(value) => Ok((value, next)),
        None => Err(Syntax(at as u64 + 1)),
    }
}

/// The next word as a number below `2 ^ 128`.
#[inline(always)]
pub fn next_value(line: &[u8], at: usize) -> Result<(u128, usize), Syntax>
    requires { at ≤ length line.now + 1 }
    ensures gives { Gives (λ x. (x.0, place line.now x.1)) result (kind_at ValueWord (place line.now at)) }
    ensures within { IfOk result (λ x. (x.1 ≤ length line.now + 1) × (at < x.1)) }
{
    if let Some((value, next)) = short_value(line, at) {
        return Ok((u128::from(value), next));
    }
    long_value(line, at)
}

/// The next word as a direction.
pub fn next_direction(line: &[u8], at: usize) -> Result<(Direction, usize), Syntax>
    requires { at ≤ length line.now + 1 }
    ensures gives { Gives (λ x. (x.0, place line.now x.1)) result (kind_at DirectionWord (place line.now at)) }
    ensures within { IfOk result (λ x. x.1 ≤ length line.now + 1) }
{
    let (word, next) = next_word(line, at)?;
    match direction_of_word(word) {
        Some(direction) => Ok((direction, next)),
        None => Err(Syntax(at as u64 + 1)),
    }
}

/// The next word as whether a scan is inclusive.
pub fn next_inclusion(line: &[u8], at: usize) -> Result<(Inclusion, usize), Syntax>
    requires { at ≤ length line.now + 1 }
    ensures gives { Gives (λ x. (x.0, place line.now x.1)) result (kind_at InclusionWord (place line.now at)) }
    ensures within { IfOk result (λ x. x.1 ≤ length line.now + 1) }
{
    let (word, next) = next_word(line, at)?;
    match inclusion_of_word(word) {
        Some(inclusion) => Ok((inclusion, next)),
        None => Err(Syntax(at as u64 + 1)),
    }
}

/// The next word as a name, or as the word `none`.
pub fn next_option(line: &[u8], at: usize) -> Result<(Option<Name>, usize), Syntax>
    requires { at ≤ length line.now + 1 }
    ensures gives { Gives (λ x. (x.0, place line.now x.1)) result (kind_at OptionWord (place line.now at)) }
    ensures within { IfOk result (λ x. x.1 ≤ length line.now + 1) }
{
    let (word, next) = next_word(line, at)?;
    match option_of_word(word) {
        Some(option) => Ok((option, next)),
        None => Err(Syntax(at as u64 + 1)),
    }
}

/// The next word as the name of a key.
pub fn next_key(line: &[u8], at: usize) -> Result<(KeyName, usize), Syntax>
    requires { at ≤ length line.now + 1 }
    ensures gives { Gives (λ x. (x.0, place line.now x.1)) result (kind_at KeyWord (place line.now at)) }
    ensures within { IfOk result (λ x. x.1 ≤ length line.now + 1) }
{
    let (word, next) = next_word(line, at)?;
    match words::key_of_word(word) {
        Some(key) => Ok((key, next)),
        None => Err(Syntax(at as u64 + 1)),
    }
}

/// The next word as the number of a profile.
pub fn next_profile(line: &[u8], at: usize) -> Result<(Profile, usize), Syntax>
    requires { at ≤ length line.now + 1 }
    ensures gives { Gives (λ x. (x.0, place line.now x.1)) result (kind_at ProfileWord (place line.now at)) }
    ensures within { IfOk result (λ x. x.1 ≤ length line.now + 1) }
{
    let (word, next) = next_word(line, at)?;
    match words::profile_of_word(word) {
        Some(profile) => Ok((profile, next)),
        None => Err(Syntax(at as u64 + 1)),
    }
}

/// The last word of a line as the lengths of axes. Memory is asked for once the line is read to its end.
pub fn last_axes(alloc: Global, line: &[u8], at: usize) -> Result<Items<u64>, Fault>
    requires { at ≤ length line.now + 1 }
    ensures { GivesIfRoom (λ axes. (axes, tt)) result (shape_at (One AxesWord Done) (place line.now at)) }
{
    let (word, next) = next_word(line, at)?;
    let Some(count) = words::count_axes(word) else {
        return Err(Fault::Syntax(at as u64 + 1));
    };
    line_end(line, next)?;
    match words::axes_of_word(alloc, word, count) {
        Ok(Some(axes)) => Ok(axes),
        Ok(None) => Err(Fault::Syntax(at as u64 + 1)),
        Err(_) => Err(Fault::NoMemory),
    }
}

/// How many words are left, all of them numbers below `2 ^ 128`; there is one or more.
fn count_values(line: &[u8], at: usize) -> Result<usize, Syntax>
    requires { at ≤ length line.now + 1 }
    ensures { Gives (λ x. x) result (values_room (place line.now at)) }
{
    let mut count = 0;
    let mut next = at;
    loop {
        let (_, after) = next_value(line, next)?;
        count += 1;
        if line.len() < after {
            return Ok(count);
        }
        next = after;
    }
}

/// How many words are left.
fn count_words(line: &[u8], at: usize) -> usize
    ensures { result ≡ length (left line.now at) }
{
    if at > line.len() {
        return 0;
    }
    words::count_spaces(&line[at..]) + 1
}

/// All words that are left as numbers below `2 ^ 128`; there is one or more. Room is made for as many numbers as there are words. Where
/// memory is refused, the words are read before that is answered, so a wrong word comes first.
pub fn next_values(alloc: Global, line: &[u8], at: usize) -> Result<Items<u128>, Fault>
    requires { at ≤ length line.now + 1 }
    ensures { GivesIfRoom (λ x. x) result (many_at ValueWord (place line.now at)) }
{
    let Ok(mut values) = Vec::with_capacity(alloc, count_words(line, at)) else {
        count_values(line, at)?;
        return Err(Fault::NoMemory);
    };
    let mut next = at;
    loop {
        let (value, after) = next_value(line, next)?;
        values.push_reserved(value);
        if after > line.len() {
            return Ok(Items::new(values));
        }
        next = after;
    }
}

/// The next words as a place of the program.
#[tactic(auto, using(crate::proofs::PlaceLemmas::place_column), unfolding(crate::specs::CommandReading::spot_at))]
pub fn next_spot(line: &[u8], at: usize) -> Result<(Spot, usize), Syntax>
    requires { at ≤ length line.now + 1 }
    ensures gives { Gives (λ x. (x.0, place line.now x.1)) result (spot_at (place line.now at)) }
    ensures within { IfOk result (λ x. x.1 ≤ length line.now + 1) }
{
    let (word, next) = next_word(line, at)?;
    if word == b"start".as_slice() {
        Ok((Spot::Start, next))
    } else if word == b"after".as_slice() {
        let (row, next) = next_number(line, next)?;
        Ok((Spot::After(RowId(row)), next))
    } else if word == b"end".as_slice() {
        Ok((Spot::End, next))
    } else {
        Err(Syntax(at as u64 + 1))
    }
}

/// Nothing, where no words are left.
#[tactic(auto, unfolding(crate::specs::Reading::end_at))]
pub fn line_end(line: &[u8], at: usize) -> Result<(), Syntax>
    requires { at ≤ length line.now + 1 }
    ensures { Gives (λ x. x) result (end_at (place line.now at)) }
{
    if at > line.len() {
        Ok(())
    } else {
        Err(Syntax(at as u64 + 1))
    }
}

fn direction_of_word(word: &[u8]) -> Option<Direction>
    ensures { result ≡ direction_word word.now }
{
    if word == b"upward".as_slice() {
        Some(Direction::Upward)
    } else if word == b"downward".as_slice() {
        Some(Direction::Downward)
    } else {
        None
    }
}

fn inclusion_of_word(word: &[u8]) -> Option<Inclusion>
    ensures { result ≡ inclusion_word word.now }
{
    if word == b"inclusive".as_slice() {
        Some(Inclusion::Inclusive)
    } else if word == b"exclusive".as_slice() {
        Some(Inclusion::Exclusive)
    } else {
        None
    }
}

fn option_of_word(word: &[u8]) -> Option<Option<Name>>
    ensures { result ≡ option_word word.now }
{
    if word == b"none".as_slice() {
        return Some(None);
    }
    match Name::new(word) {
        Some(name) => Some(Some(name)),
        None => None,
    }
}
