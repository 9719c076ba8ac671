//! Snapshots of a book, which share its values.

ghost use Rattle.std.specs.Prelude.{◌≡◌, IfOk};
ghost use Rattle.paris_book.specs.Among.{inputs_of};

use crate::book::Book;
use crate::inputs::InputData;
use crate::loose::Loose;
use paris_events::{FlagInputs, Input};
use std::alloc::{AllocError, Global};

/// A copy of the input data of a key.
fn copy_of_input(input: &Input) -> Result<Input, AllocError>
    ensures { IfOk result (λ copy. copy ≡ input.now) }
{
    let value = input.value.copy()?;
    Ok(Input {
        value,
        number: input.number,
    })
}

/// A copy of the input data of a set's flags.
fn copy_of_flags(flags: &FlagInputs) -> Result<FlagInputs, AllocError>
    ensures { IfOk result (λ copy. copy ≡ flags.now) }
{
    let context = copy_of_input(&flags.context)?;
    let test = copy_of_input(&flags.test)?;
    let carry = copy_of_input(&flags.carry)?;
    let overflow = copy_of_input(&flags.overflow)?;
    Ok(FlagInputs {
        context,
        test,
        carry,
        overflow,
    })
}

/// A copy of the input data of each field.
fn copies_of_fields(alloc: Global, fields: &[Input]) -> Result<Vec<Input>, AllocError>
    ensures { IfOk result (λ copies. copies.items ≡ fields.now) }
{
    let mut copies = Vec::with_capacity(alloc, fields.len())?;
    for input in fields {
        copies.push(copy_of_input(input)?)?;
    }
    Ok(copies)
}

/// A copy of the input data of each set's flags.
fn copies_of_flags(alloc: Global, all: &[FlagInputs]) -> Result<Vec<FlagInputs>, AllocError>
    ensures { IfOk result (λ copies. copies.items ≡ all.now) }
{
    let mut copies = Vec::with_capacity(alloc, all.len())?;
    for flags in all {
        copies.push(copy_of_flags(flags)?)?;
    }
    Ok(copies)
}

/// A copy of all input data.
fn copy_of_inputs(alloc: Global, inputs: &InputData) -> Result<InputData, AllocError>
    ensures { IfOk result (λ copy. inputs_of copy ≡ inputs_of inputs.now) }
{
    let fields = copies_of_fields(alloc, inputs.fields.as_slice())?;
    let flags = copies_of_flags(alloc, inputs.flags.as_slice())?;
    Ok(InputData { fields, flags })
}

impl Loose {
    /// The same parts once more.
    fn copy(&self) -> Result<Loose, AllocError>
        ensures { IfOk result (λ copy. copy ≡ self.now) }
    {
        let board = self.board.copy()?;
        let inputs = copy_of_inputs(self.alloc, &self.inputs)?;
        let rows = self.rows.copy()?;
        Ok(Loose {
            board,
            edits: self.edits,
            inputs,
            rows,
            alloc: self.alloc,
        })
    }
}

impl Book {
    /// A book in the same state: with the same declarations, count of edits, input data, rows and orders out. It keeps the same
    /// results, and shares all values with this one. What is done with either book later leaves the other as it is. The error says
    /// that memory was refused.
    pub fn snapshot(&self) -> Result<Book, AllocError>
        ensures { IfOk result (λ book. book ≡ self.now) }
    {
        let loose = self.loose.copy()?;
        Ok(Book { loose })
    }
}
