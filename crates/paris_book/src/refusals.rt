//! The settled rows whose instructions are refused.

ghost use Rattle.std.specs.Prelude.{◌≡◌, IfOk};
ghost use Rattle.paris_events.specs.Lists.{faults_of};
ghost use Rattle.paris_book.specs.Among.{cause_kept, faults_kept};

use crate::book::Book;
use crate::loose::Loose;
use crate::program_rows::Rows;
use crate::rows::RowData;
use paris_edits::RowFault;
use paris_exec::Outcome;
use paris_model::Refusal;
use paris_names::{Items, RowId};
use std::alloc::{AllocError, Global};

/// Why the result that a settled row keeps was refused, if it was.
pub(crate) fn cause_of(id: RowId, row: &RowData) -> Option<Refusal>
    ensures { result ≡ cause_kept (id.0, row.now) }
{
    if !row.status().is_settled() {
        return None;
    }
    match row.done() {
        Some(done) => match done.outcome() {
            Outcome::Refused(cause) => Some(*cause),
            Outcome::Values(_) => None,
        },
        None => None,
    }
}

/// The settled rows whose results were refused, in order, with the cause.
fn faults_among(alloc: Global, rows: &Rows) -> Result<Vec<RowFault>, AllocError>
    ensures { IfOk result (λ faults. faults.items ≡ faults_kept rows.now.rows) }
{
    let mut faults = Vec::new(alloc);
    for place in 0..rows.len() {
        let (id, row) = rows.at(place);
        if let Some(cause) = cause_of(id, row) {
            faults.push(RowFault { id, cause })?;
        }
    }
    Ok(faults)
}

impl Loose {
    /// The settled rows that are refused.
    fn faults(&self) -> Result<Items<RowFault>, AllocError>
        ensures { IfOk result (λ faults. faults ≡ faults_of self.now) }
    {
        let faults = faults_among(self.alloc, &self.rows)?;
        Ok(Items::new(faults))
    }
}

impl Book {
    /// The settled rows whose instructions are refused where the program is run once from the input data, in program order, with
    /// the cause. The error says that memory for the list was refused.
    pub fn faults(&self) -> Result<Items<RowFault>, AllocError>
        ensures { IfOk result (λ faults. faults ≡ faults_of self.now) }
    {
        self.loose.faults()
    }
}
