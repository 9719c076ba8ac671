//! The rows that are refused for their data, as words.

ghost use Rattle.std.specs.Prelude.{◌≡◌, ◌≢◌, ◌⊎◌, ◌++◌, flat_map, Some, IfOk, OnOk};
ghost use Rattle.paris_events.specs.Lists.{faults_of};
ghost use Rattle.paris_c.specs.Calls.{cause_number, cause_processor, fault_words, row_words, HasFaults, CountsFaults};
ghost use Rattle.paris_c.specs.declared.statuses.TheConstants.{OK, NO_MEMORY};

use crate::contents::Contents;
use crate::rooms::fill;
use crate::statuses::{BAD_ADDRESS, COLLISION, NO_MEMORY, OK};
use paris_edits::RowLook;
use paris_model::Refusal;
use std::alloc::{AllocError, Global};

/// How many words tell of a row that is refused: its id, its cause and the processor.
const WORDS: usize = 3;

/// A cause by its number, and the processor that it names.
fn cause_words(cause: Refusal) -> (u64, u64)
    ensures number { result.0 ≡ cause_number cause }
    ensures processor { result.1 ≡ cause_processor cause }
{
    match cause {
        Refusal::Collision(processor) => (COLLISION as u64, processor as u64),
        Refusal::BadAddress(processor) => (BAD_ADDRESS as u64, processor as u64),
    }
}

/// Adds the words of a row that is refused, and none of any other row.
fn add_row(words: &mut Vec<u64>, look: &RowLook) -> Result<(), AllocError>
    ensures { OnOk result (words.new.items ≡ words.old.items ++ row_words look.now) }
{
    let Some(cause) = look.cause else {
        return Ok(());
    };
    let (number, processor) = cause_words(cause);
    words.extend_from_slice(&[look.id.0, number, processor])
}

/// The words of the rows of a list that are refused.
fn refused_words(alloc: Global, looks: &[RowLook]) -> Result<Vec<u64>, AllocError>
    ensures { IfOk result (λ words. words.items ≡ flat_map row_words looks.now) }
{
    let mut words = Vec::new(alloc);
    for look in looks {
        add_row(&mut words, look)?;
    }
    Ok(words)
}

impl Contents {
    /// The words of the settled rows that are refused for their data.
    #[tactic(auto, using(crate::proofs::FaultWords::words_are))]
    fn fault_words(&self, alloc: Global) -> Result<Vec<u64>, AllocError>
        ensures { IfOk result (λ words. words.items ≡ flat_map fault_words (faults_of self.now.session.state)) }
    {
        let rows = self.session.rows()?;
        refused_words(alloc, rows.as_slice())
    }

    /// Puts the words of the settled rows that are refused for their data into a room, as many of them as there is room for, and says
    /// how many rows these are.
    #[tactic(auto, using(crate::proofs::FaultWords::three_each))]
    pub(crate) fn faults(&self, alloc: Global, room: &mut [u64], count: &mut usize) -> u32
        ensures faults { result ≡ OK → HasFaults (Some self.now) room.old room.new }
        ensures count { result ≡ OK → CountsFaults (Some self.now) count.new }
        ensures kept { result ≢ OK → room.new ≡ room.old }
        ensures status { (result ≡ OK) ⊎ (result ≡ NO_MEMORY) }
    {
        match self.fault_words(alloc) {
            Ok(words) => {
                *count = words.len() / WORDS;
                fill(room, words.as_slice());
                OK
            }
            Err(_) => NO_MEMORY,
        }
    }
}
