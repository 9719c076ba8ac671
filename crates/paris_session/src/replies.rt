//! The text of each reply that has many numbers or rows.

ghost use Rattle.std.specs.Prelude.{◌≡◌, ℕ, ◌+◌, List, ◌++◌, IfOk, OnOk, codes};
ghost use Rattle.std.specs.Fmt.{decimal};
ghost use Rattle.std.specs.String.{string_bytes};
ghost use Rattle.paris_session.specs.Replies.{values_text, spaced, status_word, row_line, list_text, refused_row_line, faults_text};

use itoa::Buffer;
use paris_edits::{RowFault, RowLook, Status};
use paris_model::Refusal;
use paris_text::write_instr;
use std::alloc::{AllocError, Global};

/// Adds a space and a number. One of 64 bits, as most are, takes less time as such.
fn add_number(text: &mut Vec<u8>, number: u128) -> Result<(), AllocError>
    ensures { OnOk result (text.new.items ≡ text.old.items ++ (codes " " ++ decimal number)) }
{
    let mut digits = Buffer::new();
    text.extend_from_slice(b" ")?;
    if number <= u128::from(u64::MAX) {
        text.extend_from_slice(digits.format(number as u64).as_bytes())
    } else {
        text.extend_from_slice(digits.format(number).as_bytes())
    }
}

/// The reply to a look at a key whose value is settled: its number in each processor.
pub fn values_text(alloc: Global, numbers: &[u128]) -> Result<Vec<u8>, AllocError>
    ensures { IfOk result (λ text. text.items ≡ values_text numbers.now) }
{
    let mut text = Vec::from_slice(alloc, b"values")?;
    for number in numbers {
        add_number(&mut text, *number)?;
    }
    text.extend_from_slice(b"\n")?;
    Ok(text)
}

fn status_word(status: Status) -> &'static str
    ensures { result.now ≡ status_word status }
{
    match status {
        Status::Waiting => "waiting",
        Status::Out => "out",
        Status::Settled => "settled",
    }
}

/// Adds the line of a row.
fn add_row(alloc: Global, text: &mut Vec<u8>, look: &RowLook) -> Result<(), AllocError>
    ensures { OnOk result (text.new.items ≡ text.old.items ++ row_line look.now) }
{
    let id = look.id.0;
    let edition = look.edition.0;
    let status = status_word(look.status);
    let place = format!(in alloc; "{id} edition {edition} {status} ")?;
    let instr = write_instr(alloc, &look.instr)?;
    text.extend_from_slice(place.as_bytes())?;
    text.extend_from_slice(instr.as_slice())?;
    text.extend_from_slice(b"\n")
}

/// The reply to `list`.
pub fn list_text(alloc: Global, looks: &[RowLook]) -> Result<Vec<u8>, AllocError>
    ensures { IfOk result (λ text. text.items ≡ list_text looks.now) }
{
    let count = looks.len();
    let mut text = format!(in alloc; "rows {count}\n")?.into_bytes();
    for look in looks {
        add_row(alloc, &mut text, look)?;
    }
    Ok(text)
}

/// Adds the line of a row that is refused.
fn add_fault(text: &mut String, fault: &RowFault) -> Result<(), AllocError>
    ensures { OnOk result (string_bytes text.new ≡ string_bytes text.old ++ refused_row_line fault.now) }
{
    let id = fault.id.0;
    match fault.cause {
        Refusal::Collision(processor) => write!(text, "{id} collision {processor}\n"),
        Refusal::BadAddress(processor) => write!(text, "{id} bad-address {processor}\n"),
    }
}

/// The reply to `faults`.
pub fn faults_text(alloc: Global, faults: &[RowFault]) -> Result<Vec<u8>, AllocError>
    ensures { IfOk result (λ text. text.items ≡ faults_text faults.now) }
{
    let count = faults.len();
    let mut text = format!(in alloc; "faults {count}\n")?;
    for fault in faults {
        add_fault(&mut text, fault)?;
    }
    Ok(text.into_bytes())
}
