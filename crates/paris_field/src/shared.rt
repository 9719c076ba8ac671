//! Values that are shared.

ghost use Rattle.std.specs.Prelude.{◌≡◌, ◌+◌, ◌≤◌, IfErr, IfOk, OnErr, OnOk, length};
ghost use Rattle.paris_field.specs.Fields.{AllFit, overwritten};

use crate::field::FieldValue;
use crate::words::words_of;
use std::alloc::{AllocError, Global};
use std::marker::Model;
use std::sync::Arc;

/// A value, and any number of owners of it: none of them sees another one change it. A clause sees the value.
#[derive(Debug, Drop)]
pub struct SharedValue {
    owned: Arc<FieldValue, Global>,
}

impl Model for SharedValue {
    ghost use Rattle.std.specs.Arc.{arc_value};
    ghost use Rattle.paris_field.specs.Fields.{FieldNumbers};

    ghost Value = { FieldNumbers };

    ghost view = { λ a. arc_value a.owned };
}

impl SharedValue {
    /// The value with one owner. At want of memory the value comes back.
    pub fn new(alloc: Global, value: FieldValue) -> Result<SharedValue, (FieldValue, AllocError)>
        ensures ok { IfOk result (λ shared. shared ≡ value) }
        ensures err { IfErr result (λ e. e.0 ≡ value) }
    {
        match Arc::new(alloc, value) {
            Ok(owned) => Ok(SharedValue { owned }),
            Err(failed) => Err((failed.value, AllocError)),
        }
    }

    /// The value.
    pub fn get(&self) -> &FieldValue
        ensures { result.now ≡ self.now }
    {
        &self.owned
    }

    /// Puts these numbers in place of as many from a processor on, in a copy, which takes the value's place here. What other owners see
    /// stays, and at want of memory all does.
    pub fn overwrite(
        &mut self,
        alloc: Global,
        from: usize,
        numbers: &[u128],
    ) -> Result<(), AllocError>
        requires within { from + length numbers.now ≤ length self.old.numbers }
        requires fit { AllFit self.old.width numbers.now }
        ensures ok { OnOk result (self.new ≡ record { width = self.old.width; numbers = overwritten self.old.numbers from numbers.now }) }
        ensures err { OnErr result (self.new ≡ self.old) }
    {
        if self.get().width() <= 64 {
            let words = words_of(alloc, numbers)?;
            return self.overwrite_words(alloc, from, &words);
        }
        let value = self.get().with_numbers(from, numbers)?;
        self.replace(alloc, value)
    }

    /// The same of numbers of one word each.
    pub fn overwrite_words(
        &mut self,
        alloc: Global,
        from: usize,
        words: &[u64],
    ) -> Result<(), AllocError>
        requires within { from + length words.now ≤ length self.old.numbers }
        requires fit { AllFit self.old.width words.now }
        ensures ok { OnOk result (self.new ≡ record { width = self.old.width; numbers = overwritten self.old.numbers from words.now }) }
        ensures err { OnErr result (self.new ≡ self.old) }
    {
        let value = self.get().with_words(from, words)?;
        self.replace(alloc, value)
    }

    /// Puts another value in its place here.
    fn replace(&mut self, alloc: Global, value: FieldValue) -> Result<(), AllocError>
        ensures ok { OnOk result (self.new ≡ value) }
        ensures err { OnErr result (self.new ≡ self.old) }
    {
        match SharedValue::new(alloc, value) {
            Ok(shared) => {
                *self = shared;
                Ok(())
            }
            Err((_, error)) => Err(error),
        }
    }

    /// The same value with one more owner. No number is copied and no memory taken: the error is for a count of owners that is full.
    pub fn copy(&self) -> Result<SharedValue, AllocError>
        ensures { IfOk result (λ shared. shared ≡ self.now) }
    {
        let owned = Arc::try_clone(&self.owned)?;
        Ok(SharedValue { owned })
    }
}
