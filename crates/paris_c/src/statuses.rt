//! What became of a call. A status from 1 to 23 is the number of the fault by which it was refused, as scripts name it.

ghost use Rattle.std.specs.Prelude.{◌≡◌, ◌≤◌};
ghost use Rattle.paris_names.specs.Faults.{number_of};

use paris_names::Fault;

/// The call did what it is for.
pub(crate) const OK: u32 = 0;

/// The history has as many entries as it may have. It is the number of that fault.
pub(crate) const FULL: u32 = 18;

/// There is no memory left. It is the number of that fault.
pub(crate) const NO_MEMORY: u32 = 19;

/// No entry has this number. It is the number of that fault.
pub(crate) const NO_ENTRY: u32 = 23;

/// The handle is closed.
pub(crate) const CLOSED: u32 = 101;

/// The word is no key.
pub(crate) const NO_KEY: u32 = 102;

/// A row has to be settled first.
pub(crate) const PENDING: u32 = 103;

/// The room has another length than what is to be put there.
pub(crate) const WRONG_ROOM: u32 = 104;

/// The script is too long, or the session has answered as many lines as it can count.
pub(crate) const TOO_MANY: u32 = 105;

/// A number is wider than a word.
pub(crate) const TOO_WIDE: u32 = 106;

/// Memory was refused while rows were settled. Those that ran are settled.
pub(crate) const PARTLY: u32 = 107;

/// No profile has this number.
pub(crate) const NO_PROFILE: u32 = 108;

/// No row is ready.
pub(crate) const NOTHING: u32 = 109;

/// The order is not executed.
pub(crate) const NOT_RUN: u32 = 110;

/// Two values have another width or another number of processors.
pub(crate) const UNLIKE: u32 = 111;

/// The line is no event of a desk.
pub(crate) const NO_EVENT: u32 = 112;

/// The seat is of another desk.
pub(crate) const STRANGE: u32 = 113;

/// The cause of a row that is refused for its data: two messages meet at a processor.
pub(crate) const COLLISION: u32 = 1;

/// The cause of a row that is refused for its data: a processor holds an address outside its set.
pub(crate) const BAD_ADDRESS: u32 = 2;

/// The verdict on a result: its row is settled by it.
pub(crate) const KEPT: u32 = 1;

/// The verdict on a result: its row is settled.
pub(crate) const REPEATED: u32 = 2;

/// The verdict on a result: its row has another edition.
pub(crate) const STALE: u32 = 3;

/// The verdict on a result: no row has its id.
pub(crate) const GONE: u32 = 4;

/// The verdict on a result: its plan or an input differs from the present one, or an origin isn't settled.
pub(crate) const FOREIGN: u32 = 5;

/// The kind of an event: an edit.
pub(crate) const EDIT: u32 = 1;

/// The kind of an event: an order is taken.
pub(crate) const TAKE: u32 = 2;

/// The kind of an event: a result is brought.
pub(crate) const BRING: u32 = 3;

/// The kind of an event: the orders that are out are given up.
pub(crate) const RELEASE: u32 = 4;

/// The kind of an event: a look at a key.
pub(crate) const SHOW: u32 = 5;

/// The kind of an event: a look at the rows.
pub(crate) const LIST: u32 = 6;

/// The status of a call that is refused by a fault.
#[tactic(auto, using(crate::proofs::FaultNumbers::number_small))]
pub(crate) fn of_fault(fault: Fault) -> u32
    ensures number { result ≡ number_of fault }
    ensures some { 1 ≤ result }
    ensures few { result ≤ 23 }
{
    fault.number() as u32
}
