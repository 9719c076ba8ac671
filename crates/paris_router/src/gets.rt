//! Fetching by send address.

ghost use Rattle.std.specs.Prelude.{◌≡◌, ◌≢◌, ℕ, ◌+◌, ◌-◌, ◌*◌, ◌/◌, ◌%◌, ◌^◌, ◌<◌, ◌≤◌, ◌&&◌, All, IfOk, IfSome, IsTrue, None, find, if◌then◌else◌, length, map, min, nat_le, slice_index, slice_index_or};
ghost use Rattle.paris_geometry.specs.Geometry.{numbers_below};
ghost use Rattle.paris_model.specs.Mail.{bad_sender, first_cause};
ghost use Rattle.paris_model.specs.Store.{everywhere, low};
ghost use Rattle.paris_names.specs.declared.limits.TheConstants.{MAX_PROCESSORS};
ghost use Rattle.paris_plane.specs.Bits.{word_bit};
ghost use Rattle.paris_field.specs.Fields.{operand};
ghost use Rattle.paris_field.specs.Numbers.{AllOf, has, number_at};
ghost use Rattle.paris_router.specs.Mail.{bad_sender_of, fetched_field, fetched_from, refusal_of};

use crate::addresses::checked_addresses;
use crate::numbers::low_numbers;
use crate::quads::quad_chosen;
use paris_field::{FieldValue, put_quad_words, quad_words, zero_planes};
use paris_layer::Layer;
use paris_model::Refusal;
use paris_plane::Plane;
use std::alloc::{AllocError, Global};

/// In each selected processor the number at its address, and `zero` in the others.
fn fetched<T: Copy>(
    alloc: Global,
    addresses: &[usize],
    numbers: &[T],
    selected: &Layer,
    zero: T,
) -> Result<Vec<T>, AllocError>
    requires within { All (λ r. r < length numbers.now) addresses.now }
    requires selected { length selected.now ≡ length addresses.now }
    ensures { IfOk result (λ list. list.items ≡ map (λ v. if has selected.now v then slice_index_or numbers.now (slice_index addresses.now v) zero else zero) (numbers_below (length addresses.now))) }
{
    let mut list = Vec::with_capacity(alloc, addresses.len())?;
    for v in 0..addresses.len() {
        let number = if selected.get(v) {
            numbers[addresses[v]]
        } else {
            zero
        };
        list.push_reserved(number);
    }
    Ok(list)
}

/// The word where bit `i` of `chosen` is 1, and 0 elsewhere.
fn chosen_word(chosen: u64, i: usize, word: u64) -> u64
    requires within { i < 64 }
    ensures { result ≡ (if word_bit chosen i then word else 0) }
{
    if (chosen >> i) % 2 == 1 { word } else { 0 }
}

/// Puts for each processor of a quad the word at its address. Gives the place of the first one whose address is outside the words, if
/// there is one.
fn fetch_every_word(
    addresses: &[u64; 256],
    words: &[u64],
    fetched: &mut [u64; 256],
) -> Option<usize>
    ensures bad { result ≡ find (λ i. nat_le (length words.now) (slice_index addresses.now i)) (numbers_below 256) }
    ensures inside { IfSome result (λ i. i < 256) }
    ensures values { result ≡ None → (i : ℕ) → i < 256 → slice_index fetched.new i ≡ slice_index words.now (slice_index addresses.now i) }
{
    for i in 0..256usize {
        let address = addresses[i];
        if address >= words.len() as u64 {
            return Some(i);
        }
        fetched[i] = words[address as usize];
    }
    None
}

/// Puts for each of the first `count` processors of a quad the word at its address, and 0 for those that aren't chosen. Gives the
/// place of the first chosen one whose address is outside the words, if there is one.
fn fetch_chosen_words(
    addresses: &[u64; 256],
    chosen: &[u64; 4],
    words: &[u64],
    count: usize,
    fetched: &mut [u64; 256],
) -> Option<usize>
    requires some { 0 < length words.now }
    requires within { count ≤ 256 }
    ensures bad { result ≡ find (λ i. word_bit (slice_index chosen.now (i / 64)) (i % 64) && nat_le (length words.now) (slice_index addresses.now i)) (numbers_below count) }
    ensures inside { IfSome result (λ i. i < count) }
    ensures values { result ≡ None → (i : ℕ) → i < count → slice_index fetched.new i ≡ (if word_bit (slice_index chosen.now (i / 64)) (i % 64) then slice_index words.now (slice_index addresses.now i) else 0) }
{
    for i in 0..count {
        let address = chosen_word(chosen[i / 64], i % 64, addresses[i]);
        if address >= words.len() as u64 {
            return Some(i);
        }
        let word = chosen_word(chosen[i / 64], i % 64, words[address as usize]);
        fetched[i] = word;
    }
    None
}

/// Whether the bits of four words are all 1.
fn are_all_ones(words: &[u64; 4]) -> bool
    ensures { IsTrue result → (q : ℕ) → q < 4 → slice_index words.now q ≡ 2 ^ 64 - 1 }
{
    words[0] == u64::MAX && words[1] == u64::MAX && words[2] == u64::MAX && words[3] == u64::MAX
}

/// Puts for each of the first `count` processors of a quad the word at its address, and 0 for those that aren't chosen. Gives the
/// place of the first chosen one whose address is outside the words, if there is one.
fn fetch_words(
    addresses: &[u64; 256],
    chosen: &[u64; 4],
    words: &[u64],
    count: usize,
    fetched: &mut [u64; 256],
) -> Option<usize>
    requires some { 0 < length words.now }
    requires within { count ≤ 256 }
    ensures bad { result ≡ find (λ i. word_bit (slice_index chosen.now (i / 64)) (i % 64) && nat_le (length words.now) (slice_index addresses.now i)) (numbers_below count) }
    ensures inside { IfSome result (λ i. i < count) }
    ensures values { result ≡ None → (i : ℕ) → i < count → slice_index fetched.new i ≡ (if word_bit (slice_index chosen.now (i / 64)) (i % 64) then slice_index words.now (slice_index addresses.now i) else 0) }
{
    if count == 256 && are_all_ones(chosen) {
        fetch_every_word(addresses, words, fetched)
    } else {
        fetch_chosen_words(addresses, chosen, words, count, fetched)
    }
}

/// Puts into the planes of a quad the words at the addresses of its selected processors, and 0 for the others. Gives the place in the
/// quad of the first selected processor whose address is outside the words, if there is one.
fn fetch_quad(
    addresses: &[Layer],
    words: &[u64],
    selected: &Layer,
    quad: usize,
    values: &mut [Plane],
) -> Option<usize>
    requires narrow { length addresses.now ≤ 64 }
    requires bits { length values.old ≤ 64 }
    requires within { 256 * quad < length words.now }
    requires selected { length selected.now ≡ length words.now }
    requires addresses { AllOf (length words.now) addresses.now }
    requires values { AllOf (length words.now) values.old }
    ensures long { AllOf (length words.now) values.new }
    ensures bad { result ≡ find (λ i. has selected.now (256 * quad + i) && nat_le (length words.now) (number_at addresses.now (256 * quad + i))) (numbers_below (min (length words.now - 256 * quad) 256)) }
    ensures inside { IfSome result (λ i. 256 * quad + i < length words.now) }
    ensures values { result ≡ None → (i : ℕ) → i < 256 → 256 * quad + i < length words.now → number_at values.new (256 * quad + i) ≡ low (length values.old) (if has selected.now (256 * quad + i) then slice_index words.now (number_at addresses.now (256 * quad + i)) else 0) }
    ensures others { (v : ℕ) → v < length words.now → v / 256 ≢ quad → number_at values.new v ≡ number_at values.old v }
{
    let vps = words.len();
    let count = (vps - 256 * quad).min(256);
    let mut places = [0u64; 256];
    quad_words(addresses, quad, vps, &mut places);
    let chosen = quad_chosen(selected, quad);
    let mut fetched = [0u64; 256];
    let bad = fetch_words(&places, &chosen, words, count, &mut fetched);
    put_quad_words(values, &fetched, quad, vps);
    bad
}

/// Puts into planes the words at the addresses of the selected processors, and 0 for the others. Gives the least selected processor whose
/// address is outside the words, if there is one.
fn fetch_all(
    addresses: &[Layer],
    words: &[u64],
    selected: &Layer,
    values: &mut [Plane],
) -> Option<usize>
    requires narrow { length addresses.now ≤ 64 }
    requires bits { length values.old ≤ 64 }
    requires selected { length selected.now ≡ length words.now }
    requires addresses { AllOf (length words.now) addresses.now }
    requires values { AllOf (length words.now) values.old }
    ensures long { AllOf (length words.now) values.new }
    ensures bad { result ≡ bad_sender (length words.now) (has selected.now) (number_at addresses.now) }
    ensures inside { IfSome result (λ v. v < length words.now) }
    ensures values { result ≡ None → (v : ℕ) → v < length words.now → number_at values.new v ≡ low (length values.old) (if has selected.now v then slice_index words.now (number_at addresses.now v) else 0) }
{
    for quad in 0..words.len().div_ceil(256) {
        if let Some(i) = fetch_quad(addresses, words, selected, quad, values) {
            return Some(256 * quad + i);
        }
    }
    None
}

/// What `get` makes of up to 64 bits, where addresses have up to 64 bits too.
fn get_words(
    alloc: Global,
    addresses: &FieldValue,
    x: &FieldValue,
    selected: &Layer,
    bits: u64,
) -> Result<Result<FieldValue, Refusal>, AllocError>
    requires few { length x.now.numbers ≤ MAX_PROCESSORS }
    requires narrow { bits ≤ 64 }
    requires x_width { bits ≤ x.now.width }
    requires address_width { addresses.now.width ≤ 64 }
    requires addresses { length addresses.now.numbers ≡ length x.now.numbers }
    requires selected { length selected.now ≡ length x.now.numbers }
    ensures refused { IfOk result (λ got. refusal_of got ≡ first_cause (bad_sender_of addresses.now selected.now) None) }
    ensures value { IfOk result (λ got. IfOk got (λ value. value ≡ fetched_field bits addresses.now x.now selected.now)) }
{
    let vps = x.len();
    let words = x.low_words(bits)?;
    let mut planes = zero_planes(alloc, bits as usize, vps)?;
    match fetch_all(addresses.planes(), &words, selected, &mut planes) {
        Some(v) => Ok(Err(Refusal::BadAddress(v as u32))),
        None => {
            let value = FieldValue::from_planes(planes, vps)?;
            Ok(Ok(value))
        }
    }
}

/// What each selected processor fetches of the low `bits` bits of `x`, up to 128.
fn fetched_numbers(
    alloc: Global,
    addresses: &[usize],
    x: &FieldValue,
    selected: &Layer,
    bits: u64,
) -> Result<FieldValue, AllocError>
    requires narrow { bits ≤ 128 }
    requires addresses { length addresses.now ≡ length x.now.numbers }
    requires selected { length selected.now ≡ length x.now.numbers }
    requires within { All (λ r. r < length x.now.numbers) addresses.now }
    ensures { IfOk result (λ value. value ≡ fetched_from bits addresses.now x.now selected.now) }
{
    let numbers = low_numbers(x, bits)?;
    let fetched = fetched(alloc, addresses, &numbers, selected, 0)?;
    let value = FieldValue::from_numbers(alloc, bits, &fetched)?;
    Ok(value)
}

/// In each selected processor the low `bits` bits of `x` at the processor whose address it holds, and 0 in the others. Refused with the
/// least selected processor whose address is outside the set, if there is one.
pub fn get(
    alloc: Global,
    addresses: &FieldValue,
    x: &FieldValue,
    selected: &Layer,
    bits: u64,
) -> Result<Result<FieldValue, Refusal>, AllocError>
    requires few { length x.now.numbers ≤ MAX_PROCESSORS }
    requires narrow { bits ≤ 128 }
    requires x_width { bits ≤ x.now.width }
    requires addresses { length addresses.now.numbers ≡ length x.now.numbers }
    requires selected { length selected.now ≡ length x.now.numbers }
    ensures refused { IfOk result (λ got. refusal_of got ≡ first_cause (bad_sender_of addresses.now selected.now) None) }
    ensures value { IfOk result (λ got. IfOk got (λ value. value ≡ fetched_field bits addresses.now x.now selected.now)) }
{
    if bits <= 64 && addresses.width() <= 64 {
        let got = get_words(alloc, addresses, x, selected, bits)?;
        return Ok(got);
    }
    let list = match checked_addresses(alloc, addresses, selected)? {
        Ok(list) => list,
        Err(refusal) => return Ok(Err(refusal)),
    };
    let value = fetched_numbers(alloc, &list, x, selected, bits)?;
    Ok(Ok(value))
}
