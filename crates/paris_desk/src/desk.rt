//! The desk.

ghost use Rattle.std.specs.Prelude.{◌≡◌, ◌≤◌, [], drop, IfOk, IfErr};
ghost use Rattle.std.specs.Arc.{arc_value};
ghost use Rattle.paris_names.specs.declared.profiles.Profile.TheVariants.{One};
ghost use Rattle.paris_records.specs.History.{state_of};
ghost use Rattle.paris_records.specs.declared.limits.TheConstants.{MAX_HISTORY, MAX_SEATS};
ghost use Rattle.paris_desk.specs.Rules.{posted};
ghost use Rattle.paris_desk.specs.Seats.{fresh};
ghost use Rattle.paris_desk.specs.Calls.{Called, Unrecorded};

use crate::hold::Locked;
use crate::log::Known;
use crate::office::{Office, Opening};
use crate::published::DeskWriter;
use crate::publishing::{end, opened};
use crate::seat::Seat;
use paris_book::Book;
use paris_events::{Event, Reply};
use paris_names::{Fault, Profile};
use std::alloc::{AllocError, Global};
use std::marker::PhantomData;
use std::sync::ledger::Share;
use std::sync::{Arc, Mutex, MutexGuard, Wait};

/// How many seats there are: one for each part of the ledger.
#[derive(Drop)]
pub(crate) struct Count<L: Office> {
    pub(crate) seats: u64,
    of: PhantomData<L>,
    ghost counted: { (seats ≡ L.seats) × (L.seats ≡ L.parts) },
}

/// A book under a lock, with the history that led to it. Seats call it, in any thread. It can't be dropped: it is ended by
/// `discard`, or by `close`.
pub struct Desk<L: Office> {
    pub(crate) lock: Mutex<Locked<L>>,
    pub(crate) seats: Count<L>,
    pub(crate) alloc: Global,
}

/// Seats, numbered from 0 on, that know nothing. The error says that memory for them was refused.
fn seated<L: Office>(
    alloc: Global,
    seats: u64,
    rest: &mut Share<L>,
    known: &Known<L>,
    writer: &DeskWriter<L>,
) -> Result<Vec<Seat<L>>, AllocError>
    requires ledger { (rest.old.parts ≡ seats) × (rest.old.amount ≡ 0) }
    requires known { known.now ≡ [] }
    ensures seats { IfOk result (λ all. all.items ≡ fresh seats) }
    ensures ledger { IfOk result (λ _. (rest.new.parts ≡ 0) × (rest.new.amount ≡ 0)) }
{
    let mut all = Vec::new(alloc);
    for number in 0..seats {
        let share = rest.split_off(1, 0);
        let Ok(reader) = writer.factory().reader() else {
            return Err(AllocError);
        };
        all.push(Seat::new(alloc, number, share, known.again(), reader))?;
    }
    Ok(all)
}

impl<L: Office> Desk<L> {
    /// A desk with an empty book of profile 1, and its seats, numbered from 0 on. Its history has room for so many entries. The error
    /// says that memory for the seats was refused.
    pub fn new<R: Wait>(
        rt: &R,
        alloc: Global,
        opening: Opening,
        seats: u64,
        limit: u64,
    ) -> Result<(Desk<L>, Vec<Seat<L>>), AllocError>
        requires opening { (opening.blank.name ≡ L.name) × (opening.blank.parts ≡ L.parts) × (opening.seen.book ≡ L.log) }
        requires profile { One ≡ L.profile }
        requires seats { (seats ≡ L.parts) × (seats ≡ L.seats) }
        requires few { (1 ≤ seats) × (seats ≤ MAX_SEATS) }
        requires limit { (limit ≡ L.limit) × (limit ≤ MAX_HISTORY) }
        ensures { IfOk result (λ opened. opened.1.items ≡ fresh seats) }
    {
        Desk::with_profile(rt, alloc, opening, Profile::One, seats, limit)
    }

    /// The same with an empty book of a profile.
    pub fn with_profile<R: Wait>(
        rt: &R,
        alloc: Global,
        opening: Opening,
        profile: Profile,
        seats: u64,
        limit: u64,
    ) -> Result<(Desk<L>, Vec<Seat<L>>), AllocError>
        requires opening { (opening.blank.name ≡ L.name) × (opening.blank.parts ≡ L.parts) × (opening.seen.book ≡ L.log) }
        requires profile { profile ≡ L.profile }
        requires seats { (seats ≡ L.parts) × (seats ≡ L.seats) }
        requires few { (1 ≤ seats) × (seats ≤ MAX_SEATS) }
        requires limit { (limit ≡ L.limit) × (limit ≤ MAX_HISTORY) }
        ensures { IfOk result (λ opened. opened.1.items ≡ fresh seats) }
    {
        let (blank, head, known) = opening.named::<L>();
        let (tally, mut rest) = blank.open::<L>();
        let book = Arc::new(alloc, Book::with_profile(alloc, profile))?;
        let writer = opened(rt, alloc, &book, &known, seats)?;
        let all = match seated(alloc, seats, &mut rest, &known, &writer) {
            Ok(all) => all,
            Err(refused) => {
                writer.take(rt);
                return Err(refused);
            }
        };
        let history = Vec::new(alloc);
        let locked = Locked::new(limit, book, history, (tally, rest), (head, known), writer);
        let lock = Mutex::new(locked);
        let seats = Count {
            seats,
            of: PhantomData,
        };
        Ok((Desk { lock, seats, alloc }, all))
    }

    /// A call of a seat: one hold of the lock.
    pub fn call<R: Wait>(
        &self,
        rt: &R,
        seat: &mut Seat<L>,
        event: Event,
    ) -> Result<Reply, (Event, Fault)>
        ensures recorded { IfOk result (λ reply. Called L.profile seat.old seat.new event reply) }
        ensures unrecorded { IfErr result (λ e. (e.0 ≡ event) × Unrecorded L.limit seat.old seat.new e.1) }
    {
        let mut guard = self.lock.lock(rt);
        let result = guard.hold(rt, seat, event);
        MutexGuard::unlock(guard);
        result
    }

    /// Ends a desk. What it published is waited for until nobody looks at it.
    pub fn discard<R: Wait>(self, rt: &R) {
        let Desk {
            lock,
            seats: _seats,
            alloc: _,
        } = self;
        let Locked {
            book: _book,
            history: _history,
            limit: _,
            tally: _tally,
            rest: _rest,
            head: _head,
            known: _known,
            writer,
        } = lock.into_inner();
        end(rt, writer);
    }
}
