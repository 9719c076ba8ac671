//! The input data: what each key holds at the start of the program.

ghost use Rattle.std.specs.Prelude.{◌≡◌, ◌<◌, ◌≤◌, ◌+◌, ◌^◌, ◌==◌, ◌||◌, ◌++◌, ◌∷◌, [], false, length, nat_le, nat_lt, position, None, IfOk, IfSome, IsSome, OnErr, OnOk, vec_len, vec_capacity};
ghost use Rattle.std.specs.Option.{option_copied};
ghost use Rattle.paris_field.specs.Fields.{AllFit};
ghost use Rattle.paris_events.specs.State.{flag_input, input_of, with_flag_input, with_input, declared_input, declared_flags};
ghost use Rattle.paris_events.specs.Edits.{fault_of_values};
ghost use Rattle.paris_book.specs.Among.{CanGive, given_numbers, input_given, inputs_of};
ghost use Rattle.paris_names.specs.declared.limits.TheConstants.{MAX_WIDTH};

use paris_events::{FlagInputs, Input};
use paris_field::{FieldValue, SharedValue};
use paris_names::{Fault, FlagName, Key};
use std::alloc::{AllocError, Global};

/// The input data of all fields, and of the flags of all sets, in the order of their declaration.
#[derive(Debug, Drop)]
pub(crate) struct InputData {
    pub(crate) fields: Vec<Input>,
    pub(crate) flags: Vec<FlagInputs>,
}

/// Numbers that an edit gives to processors: of up to 128 bits, or of one word each.
#[derive(Debug, Drop)]
pub(crate) enum Given<'a> {
    Numbers(&'a [u128]),
    Words(&'a [u64]),
}

impl Given<'_> {
    /// How many they are.
    fn len(&self) -> usize
        ensures { result ≡ length (given_numbers self.now) }
    {
        match self {
            Given::Numbers(numbers) => numbers.len(),
            Given::Words(words) => words.len(),
        }
    }

    /// The place of the first that needs more bits than a width has, up to 128.
    fn first_too_wide(&self, width: u64) -> Option<usize>
        requires { width ≤ 128 }
        ensures place { result ≡ position (λ x. nat_le (2 ^ width) x) (given_numbers self.now) }
        ensures fit { result ≡ None → AllFit width (given_numbers self.now) }
    {
        match self {
            Given::Numbers(numbers) => FieldValue::first_too_wide(width, numbers),
            Given::Words(words) => FieldValue::first_word_too_wide(width, words),
        }
    }
}

/// The input data of a key.
pub(crate) fn input_at<'a>(inputs: &'a InputData, key: &Key) -> Option<&'a Input>
    ensures { option_copied result ≡ input_of (inputs_of inputs.entry.now) key.now }
{
    match *key {
        Key::Field(field) => inputs.fields.get(field.number() as usize),
        Key::Flag(set, flag) => match inputs.flags.get(set.number() as usize) {
            Some(flags) => Some(flags.flag(flag)),
            None => None,
        },
    }
}

/// Whether so many numbers are none, or more than there are processors from one on, of `count`.
pub(crate) fn is_wrong_count(count: u64, from: u64, given: usize) -> bool
    ensures value { result ≡ (given == 0) || nat_lt count (from + given) }
    ensures within { result ≡ false → from + given ≤ count }
{
    given == 0 || from > count || given as u64 > count - from
}

/// Why numbers can't be given from a processor on in place of those of a value, if they can't.
fn fault_of(value: &FieldValue, from: u64, given: &Given<'_>) -> Option<Fault>
    ensures fault { result ≡ fault_of_values (length value.now.numbers) value.now.width from (given_numbers given.now) }
    ensures within { result ≡ None → from + length (given_numbers given.now) ≤ length value.now.numbers }
    ensures fit { result ≡ None → AllFit value.now.width (given_numbers given.now) }
{
    if is_wrong_count(value.len() as u64, from, given.len()) {
        return Some(Fault::WrongCount);
    }
    given
        .first_too_wide(value.width())
        .map(|i| Fault::TooWide(from + i as u64))
}

/// Why numbers can't be given to a key from a processor on, if they can't.
pub(crate) fn given_fault(
    inputs: &InputData,
    key: &Key,
    from: u64,
    given: &Given<'_>,
) -> Option<Fault>
    requires { IsSome (input_of (inputs_of inputs.now) key.now) }
    ensures fault { IfSome (input_of (inputs_of inputs.now) key.now) (λ input. result ≡ fault_of_values (length input.value.numbers) input.value.width from (given_numbers given.now)) }
    ensures none { result ≡ None → IfSome (input_of (inputs_of inputs.now) key.now) (λ input. CanGive input from (given_numbers given.now)) }
{
    match input_at(inputs, key) {
        Some(input) => fault_of(input.value.get(), from, given),
        None => unreachable!(),
    }
}

/// A value that is the input data of a key, to be shared.
fn input_with(alloc: Global, value: FieldValue, number: u64) -> Result<Input, AllocError>
    ensures { IfOk result (λ input. input ≡ record { value = value; number = number }) }
{
    match SharedValue::new(alloc, value) {
        Ok(value) => Ok(Input { value, number }),
        Err((_, error)) => Err(error),
    }
}

/// Gives input data numbers in place of as many from a processor on, where they can be given. At want of memory it stays.
fn give(
    alloc: Global,
    input: &mut Input,
    number: u64,
    from: u64,
    given: &Given<'_>,
) -> Result<(), AllocError>
    requires { CanGive input.old from (given_numbers given.now) }
    ensures ok { OnOk result (input.new ≡ input_given input.old number from (given_numbers given.now)) }
    ensures err { OnErr result (input.new ≡ input.old) }
{
    match given {
        Given::Numbers(numbers) => input.value.overwrite(alloc, from as usize, numbers)?,
        Given::Words(words) => input.value.overwrite_words(alloc, from as usize, words)?,
    }
    input.number = number;
    Ok(())
}

/// Gives a flag of a set numbers in place of as many from a processor on, where they can be given. At want of memory all stays.
fn give_flag(
    alloc: Global,
    flags: &mut FlagInputs,
    flag: FlagName,
    number: u64,
    from: u64,
    given: &Given<'_>,
) -> Result<(), AllocError>
    requires { CanGive (flag_input flags.old flag) from (given_numbers given.now) }
    ensures ok { OnOk result (flags.new ≡ with_flag_input flags.old flag (input_given (flag_input flags.old flag) number from (given_numbers given.now))) }
    ensures err { OnErr result (flags.new ≡ flags.old) }
{
    match flag {
        FlagName::Context => give(alloc, &mut flags.context, number, from, given),
        FlagName::Test => give(alloc, &mut flags.test, number, from, given),
        FlagName::Carry => give(alloc, &mut flags.carry, number, from, given),
        FlagName::Overflow => give(alloc, &mut flags.overflow, number, from, given),
    }
}

/// Gives a key numbers in place of as many from a processor on, where they can be given. At want of memory all stays.
pub(crate) fn give_key(
    alloc: Global,
    inputs: &mut InputData,
    key: &Key,
    number: u64,
    from: u64,
    given: &Given<'_>,
) -> Result<(), AllocError>
    requires there { IsSome (input_of (inputs_of inputs.old) key.now) }
    requires fit { IfSome (input_of (inputs_of inputs.old) key.now) (λ input. CanGive input from (given_numbers given.now)) }
    ensures ok { OnOk result (IfSome (input_of (inputs_of inputs.old) key.now) (λ input. inputs_of inputs.new ≡ with_input (inputs_of inputs.old) key.now (input_given input number from (given_numbers given.now)))) }
    ensures err { OnErr result (inputs_of inputs.new ≡ inputs_of inputs.old) }
{
    match *key {
        Key::Field(field) => {
            let i = field.number() as usize;
            give(alloc, &mut inputs.fields[i], number, from, given)
        }
        Key::Flag(set, flag) => {
            let i = set.number() as usize;
            give_flag(alloc, &mut inputs.flags[i], flag, number, from, given)
        }
    }
}

/// The input data of a key as it is declared: the same number everywhere.
pub(crate) fn declare_input(
    alloc: Global,
    number: u64,
    width: u64,
    count: usize,
    start: u128,
) -> Result<Input, AllocError>
    requires narrow { width ≤ MAX_WIDTH }
    requires wide { 0 < width }
    requires bit { start ≤ 1 }
    ensures { IfOk result (λ input. input ≡ declared_input number width count start) }
{
    let value = FieldValue::constant(alloc, width, start, count)?;
    input_with(alloc, value, number)
}

/// The input data of a set's flags as they are declared.
pub(crate) fn declare_flags(
    alloc: Global,
    number: u64,
    count: usize,
) -> Result<FlagInputs, AllocError>
    ensures { IfOk result (λ flags. flags ≡ declared_flags number count) }
{
    let context = declare_input(alloc, number, 1, count, 1)?;
    let test = declare_input(alloc, number, 1, count, 0)?;
    let carry = declare_input(alloc, number, 1, count, 0)?;
    let overflow = declare_input(alloc, number, 1, count, 0)?;
    Ok(FlagInputs {
        context,
        test,
        carry,
        overflow,
    })
}

/// Adds the input data of a field, for which there is room.
pub(crate) fn push_field(fields: &mut Vec<Input>, input: Input)
    requires { vec_len fields.old < vec_capacity fields.old }
    ensures { fields.new.items ≡ fields.old.items ++ input ∷ [] }
{
    match fields.push(input) {
        Ok(()) => {}
        Err(_) => unreachable!(),
    }
}

/// Adds the input data of a set's flags, for which there is room.
pub(crate) fn push_flags(all: &mut Vec<FlagInputs>, flags: FlagInputs)
    requires { vec_len all.old < vec_capacity all.old }
    ensures { all.new.items ≡ all.old.items ++ flags ∷ [] }
{
    match all.push(flags) {
        Ok(()) => {}
        Err(_) => unreachable!(),
    }
}
