//! What becomes of results.

ghost use Rattle.std.specs.Prelude.{◌≡◌};
ghost use Rattle.paris_edits.specs.Verdicts.{is_kept};

use paris_names::Edition;

/// What became of a result.
#[derive(Clone, Copy, PartialEq, Eq, Debug)]
pub enum Verdict {
    /// No row has its id.
    Gone,
    /// The row has another edition, which is given.
    Stale(Edition),
    /// The row is settled.
    Repeated,
    /// The plan or an input differs from the present one, or an origin isn't settled.
    Foreign,
    /// The row is settled by it.
    Kept,
}

impl Verdict {
    /// Whether the result was kept.
    pub fn is_kept(&self) -> bool
        ensures { result ≡ is_kept self.now }
    {
        match self {
            Verdict::Kept => true,
            Verdict::Gone | Verdict::Stale(_) | Verdict::Repeated | Verdict::Foreign => false,
        }
    }
}
