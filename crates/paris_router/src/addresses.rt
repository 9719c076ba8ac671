//! Addresses as places in lists.

ghost use Rattle.std.specs.Prelude.{◌≡◌, ◌<◌, ◌≤◌, ◌-◌, ◌^◌, All, IfOk, None, if◌then◌else◌, length, map, min, slice_index};
ghost use Rattle.paris_model.specs.Mail.{first_cause};
ghost use Rattle.paris_names.specs.declared.limits.TheConstants.{MAX_PROCESSORS};
ghost use Rattle.paris_field.specs.Numbers.{has};
ghost use Rattle.paris_router.specs.Mail.{bad_sender_of, clipped, refusal_of, selected_addresses};

use paris_field::FieldValue;
use paris_layer::Layer;
use paris_model::Refusal;
use std::alloc::{AllocError, Global};

/// The greatest word.
const GREATEST: u128 = (1 << 64) - 1;

/// Each number as a word, and the greatest word in place of a number that is too wide for one.
fn clipped_words(alloc: Global, numbers: &[u128]) -> Result<Vec<u64>, AllocError>
    ensures { IfOk result (λ words. words.items ≡ map clipped numbers.now) }
{
    let mut words = Vec::with_capacity(alloc, numbers.len())?;
    for v in 0..numbers.len() {
        words.push_reserved(numbers[v].min(GREATEST) as u64);
    }
    Ok(words)
}

/// The address in each processor, and the greatest word in place of one that is too wide for a word.
fn address_words(alloc: Global, addresses: &FieldValue) -> Result<Vec<u64>, AllocError>
    ensures { IfOk result (λ words. words.items ≡ map clipped addresses.now.numbers) }
{
    if addresses.width() <= 64 {
        let words = addresses.words()?;
        return Ok(words);
    }
    let numbers = addresses.numbers()?;
    clipped_words(alloc, &numbers)
}

/// The word of a selected processor, and 0 for another.
fn selected_word(words: &[u64], selected: &Layer, v: usize) -> u64
    requires within { v < length words.now }
    requires selected { length selected.now ≡ length words.now }
    ensures { result ≡ (if has selected.now v then slice_index words.now v else 0) }
{
    if selected.get(v) { words[v] } else { 0 }
}

/// The address that each selected processor holds, and 0 for the others. Refused with the least selected processor whose address is
/// outside the set, if there is one.
pub fn checked_addresses(
    alloc: Global,
    addresses: &FieldValue,
    selected: &Layer,
) -> Result<Result<Vec<usize>, Refusal>, AllocError>
    requires few { length addresses.now.numbers ≤ MAX_PROCESSORS }
    requires selected { length selected.now ≡ length addresses.now.numbers }
    ensures refused { IfOk result (λ checked. refusal_of checked ≡ first_cause (bad_sender_of addresses.now selected.now) None) }
    ensures value { IfOk result (λ checked. IfOk checked (λ list. list.items ≡ selected_addresses addresses.now selected.now)) }
    ensures within { IfOk result (λ checked. IfOk checked (λ list. All (λ r. r < length addresses.now.numbers) list.items)) }
{
    let words = address_words(alloc, addresses)?;
    let count = words.len();
    let mut list = Vec::with_capacity(alloc, count)?;
    for v in 0..count {
        let address = selected_word(&words, selected, v);
        if address >= count as u64 {
            return Ok(Err(Refusal::BadAddress(v as u32)));
        }
        list.push_reserved(address as usize);
    }
    Ok(Ok(list))
}
