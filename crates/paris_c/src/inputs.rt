//! Input data from words.

ghost use Rattle.std.specs.Prelude.{◌≡◌, ◌≢◌, ◌⊎◌, ◌≤◌, None, Some, IfOk};
ghost use Rattle.paris_text.specs.Words.{key_word};
ghost use Rattle.paris_c.specs.Calls.{CanBeSet, IsSet, IsSetFault};
ghost use Rattle.paris_c.specs.declared.statuses.TheConstants.{OK, NO_MEMORY, CLOSED, NO_KEY};

use crate::contents::Contents;
use crate::statuses::{self, NO_KEY, OK};
use paris_text::key_of_word;
use std::alloc::{AllocError, Global};

/// The numbers of a list of words.
pub(crate) fn list_of(alloc: Global, words: &[u64]) -> Result<Vec<u128>, AllocError>
    ensures { IfOk result (λ numbers. numbers.items ≡ words.now) }
{
    let mut numbers = Vec::with_capacity(alloc, words.len())?;
    for word in words {
        numbers.push(u128::from(*word))?;
    }
    Ok(numbers)
}

impl Contents {
    /// Gives the key that a word names numbers from a processor on.
    pub(crate) fn set(&mut self, key: &[u8], from: u64, words: &[u64]) -> u32
        ensures set { result ≡ OK → IsSet (Some self.old) (Some self.new) (key_word key.now) from words.now }
        ensures kept { result ≢ OK → self.new ≡ self.old }
        ensures key { result ≡ NO_KEY → key_word key.now ≡ None }
        ensures fault { 1 ≤ result → result ≤ 23 → result ≢ NO_MEMORY →
            IsSetFault (Some self.old) (key_word key.now) from words.now result }
        ensures memory { result ≡ NO_MEMORY → CanBeSet (Some self.old) (key_word key.now) from words.now }
        ensures status { (result ≤ 23) ⊎ (result ≡ NO_KEY) }
        ensures open { result ≢ CLOSED }
    {
        let Some(key) = key_of_word(key) else {
            return NO_KEY;
        };
        match self.session.set_words(key, from, words) {
            Ok(()) => OK,
            Err(fault) => statuses::of_fault(fault),
        }
    }
}
