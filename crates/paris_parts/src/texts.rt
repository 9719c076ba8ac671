//! What is written for the parts of a script, and for a history that is closed.

ghost use Rattle.std.specs.Prelude.{◌≡◌, ◌<◌, ◌≤◌, ◌*◌, ℕ, List, ◌++◌, length, IfOk, OnOk};
ghost use Rattle.paris_session.specs.Hands.{faults_among};
ghost use Rattle.paris_parts.specs.Texts.{closed_text, commands_in, edits_in, head_line, is_edit, parts_text, refusals_in};

use crate::jobs::Job;
use paris_desk::{Entry, Office};
use paris_edits::{RowFault, RowLook};
use paris_events::Event;
use std::alloc::{AllocError, Global};

/// The line before what a part writes: none for the first.
fn head_line(alloc: Global, number: usize) -> Result<Vec<u8>, AllocError>
    ensures { IfOk result (λ line. line.items ≡ head_line number) }
{
    if number == 0 {
        return Ok(Vec::new(alloc));
    }
    Ok(format!(in alloc; "session {number}\n")?.into_bytes())
}

/// Adds what a job told, behind its line.
fn add_told<L: Office>(
    alloc: Global,
    text: &mut Vec<u8>,
    number: usize,
    job: &Job<L>,
) -> Result<(), AllocError>
    ensures { OnOk result (text.new.items ≡ (text.old.items ++ head_line number) ++ job.now.text) }
{
    let line = head_line(alloc, number)?;
    text.extend_from_slice(line.as_slice())?;
    text.extend_from_slice(job.text.as_slice())
}

/// What the first so many jobs told, each behind its line.
pub(crate) fn parts_text<L: Office>(
    alloc: Global,
    jobs: &[Job<L>],
    count: usize,
) -> Result<Vec<u8>, AllocError>
    requires { count ≤ length jobs.now }
    ensures { IfOk result (λ text. text.items ≡ parts_text jobs.now count) }
{
    let mut text = Vec::new(alloc);
    for number in 0..count {
        add_told(alloc, &mut text, number, &jobs[number])?;
    }
    Ok(text)
}

fn is_edit(event: &Event) -> bool
    ensures { result ≡ is_edit event.now }
{
    match event {
        Event::Edit(_) => true,
        _ => false,
    }
}

/// How many edits a history has.
pub(crate) fn edits_in(history: &[Entry]) -> usize
    ensures { result ≡ edits_in history.now }
{
    let mut count = 0;
    for entry in history {
        if is_edit(&entry.event) {
            count += 1;
        }
    }
    count
}

/// What is written of a history that is closed.
pub(crate) fn closed_text(alloc: Global, edits: usize, agree: bool) -> Result<Vec<u8>, AllocError>
    ensures { IfOk result (λ text. text.items ≡ closed_text edits agree) }
{
    let text = if agree {
        format!(in alloc; "close\nedits {edits}\naudit yes\n")?
    } else {
        format!(in alloc; "close\nedits {edits}\naudit no\n")?
    };
    Ok(text.into_bytes())
}

/// The rows of a list that are refused, with the cause.
pub(crate) fn faults_among(alloc: Global, looks: &[RowLook]) -> Result<Vec<RowFault>, AllocError>
    ensures { IfOk result (λ faults. faults.items ≡ faults_among looks.now) }
{
    let mut faults = Vec::new(alloc);
    for look in looks {
        if let Some(cause) = look.cause {
            faults.push(RowFault { id: look.id, cause })?;
        }
    }
    Ok(faults)
}
