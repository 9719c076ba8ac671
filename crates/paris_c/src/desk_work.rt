//! What a call does with a desk and a seat, once their handles are open.

ghost use Rattle.std.specs.Prelude.{◌≡◌, ◌≢◌, ◌⊎◌, [], Some, None, false, IfOk, IfErr, OnOk};
ghost use Rattle.paris_session.specs.Hands.{is_skipped};
ghost use Rattle.paris_session.specs.Transcript.{start, with_book};
ghost use Rattle.paris_text.specs.Words.{key_word};
ghost use Rattle.paris_c.specs.Calls.{wide_numbers};
ghost use Rattle.paris_c.specs.DeskCalls.{kind_number, HasEditionAt, HasEntry, HasNoEntry, HasNoneReadyAt, HasReadyAt, HasVerdictAt, IsBroughtAt, IsCut, IsDeskAnswered, IsDeskSet, IsDeskSnapshot, IsHistoryFull, IsLineAnswered, IsLineRefused, IsLooked, IsOpened, IsSeated, IsSpent, IsStrange, IsTakenAt};
ghost use Rattle.paris_c.specs.DeskLines.{line_asks};
ghost use Rattle.paris_c.specs.OrderCalls.{is_spent, result_in};
ghost use Rattle.paris_c.specs.declared.desk_lines.LineAsks.TheVariants as LineCase;
ghost use Rattle.paris_c.specs.declared.statuses.TheConstants.{OK, NO_MEMORY, FULL, NO_ENTRY, TOO_MANY, NOTHING, NOT_RUN, NO_EVENT, NO_KEY, STRANGE};

use crate::contents::Contents;
use crate::desk_lines::{LineAsks, line_asks, look_text, text_of, told_text};
use crate::inputs::list_of;
use crate::order_state::OrderState;
use crate::rooms::fill;
use crate::running::tell_verdict;
use crate::seating::{DeskContents, SeatContents};
use crate::statuses::{
    BRING, EDIT, FULL, LIST, NO_ENTRY, NO_EVENT, NO_KEY, NO_MEMORY, NOT_RUN, NOTHING, OK, RELEASE,
    SHOW, STRANGE, TAKE, TOO_MANY,
};
use crate::wide::{self, Wide};
use paris_book::Book;
use paris_edits::Edit;
use paris_events::{Event, Reply};
use paris_ledger::Ledger;
use paris_names::{Fault, Items, KeyName};
use paris_session::{Hand, Session};
use paris_text::key_of_word;
use std::alloc::{AllocError, Global};

/// An event by the number of its kind.
fn kind_of(event: &Event) -> u32
    ensures { result ≡ kind_number event.now }
{
    match event {
        Event::Edit(_) => EDIT,
        Event::Take => TAKE,
        Event::Bring(_) => BRING,
        Event::Release => RELEASE,
        Event::Show(_, _) => SHOW,
        Event::List => LIST,
    }
}

/// A session with a book, in a box, with no order and no reply.
pub(crate) fn session_of(alloc: Global, book: &Book) -> Result<Box<Contents>, AllocError>
    ensures { IfOk result (λ copy. (copy.value.session ≡ with_book start book.now []) × (copy.value.reply.items ≡ [])) }
{
    let copy = book.snapshot()?;
    let session = Session::of_book(alloc, copy);
    let reply = Vec::new(alloc);
    match Box::new(alloc, Contents { session, reply }) {
        Ok(contents) => Ok(contents),
        Err(_) => Err(AllocError),
    }
}

impl SeatContents {
    /// Keeps the text of a line that isn't in the grammar. No entry has it.
    fn refuse(&mut self, alloc: Global, fault: Fault, entry: &mut u64) -> u32
        ensures refused { result ≡ OK → IsLineRefused self.old self.new fault entry.new }
        ensures kept { result ≢ OK → self.new ≡ self.old }
        ensures status { (result ≡ OK) ⊎ (result ≡ NO_MEMORY) }
    {
        let mut hand = Hand::new(alloc, false);
        match hand.refuse(fault) {
            Ok(text) => {
                self.reply = text;
                *entry = 0;
                OK
            }
            Err(_) => NO_MEMORY,
        }
    }
}

impl DeskContents {
    /// A desk whose history begins at the state of a session, in a box.
    pub(crate) fn new(
        alloc: Global,
        from: &Contents,
        name: u64,
        limit: u64,
    ) -> Result<Box<DeskContents>, AllocError>
        ensures { IfOk result (λ desk. IsOpened (Some from.now) (Some desk.value) name limit) }
    {
        let ledger = Ledger::new(alloc, from.session.book(), limit)?;
        let desk = DeskContents {
            name,
            ledger,
            seats: 0,
        };
        match Box::new(alloc, desk) {
            Ok(desk) => Ok(desk),
            Err(_) => Err(AllocError),
        }
    }

    /// The next seat, in a box.
    pub(crate) fn sit(&mut self, alloc: Global) -> Result<Box<SeatContents>, u32>
        ensures seated { IfOk result (λ seat. IsSeated (Some self.old) (Some self.new) (Some seat.value) seat.value.number) }
        ensures kept { IfErr result (λ status. self.new ≡ self.old) }
        ensures spent { IfErr result (λ status. status ≡ TOO_MANY → IsSpent (Some self.old)) }
        ensures status { IfErr result (λ status. (status ≡ NO_MEMORY) ⊎ (status ≡ TOO_MANY)) }
    {
        if self.seats == u64::MAX {
            return Err(TOO_MANY);
        }
        let Ok(still) = self.ledger.look() else {
            return Err(NO_MEMORY);
        };
        let seat = SeatContents {
            desk: self.name,
            number: self.seats,
            front: self.ledger.len() as u64,
            still,
            reply: Vec::new(alloc),
        };
        match Box::new(alloc, seat) {
            Ok(seat) => {
                self.seats += 1;
                Ok(seat)
            }
            Err(_) => Err(NO_MEMORY),
        }
    }

    /// Makes the event of a line, and keeps the text of the reply. All memory that the text takes is there before the event is recorded.
    fn answer_call(
        &mut self,
        alloc: Global,
        seat: &mut SeatContents,
        event: Event,
        entry: &mut u64,
    ) -> u32
        requires { seat.old.desk ≡ self.old.name }
        ensures answered { result ≡ OK → IsLineAnswered self.old self.new seat.old seat.new (LineCase.Call event) entry.new }
        ensures kept { result ≢ OK → (self.new ≡ self.old) × (seat.new ≡ seat.old) }
        ensures full { result ≡ FULL → IsHistoryFull (Some self.old) }
        ensures status { (result ≡ OK) ⊎ ((result ≡ NO_MEMORY) ⊎ (result ≡ FULL)) }
    {
        let Ok(look) = look_text(alloc, self.ledger.book(), &event) else {
            return NO_MEMORY;
        };
        let mut hand = Hand::new(alloc, false);
        let Ok(room) = hand.ready(&Event::Take) else {
            return NO_MEMORY;
        };
        match self.ledger.call(seat.number, event) {
            Ok(reply) => {
                seat.reply = told_text(hand, room, reply, look);
                seat.front = self.ledger.len() as u64;
                *entry = seat.front;
                OK
            }
            Err((_, Fault::HistoryFull(_))) => FULL,
            Err(_) => NO_MEMORY,
        }
    }

    /// Answers a line of a seat.
    pub(crate) fn answer(
        &mut self,
        alloc: Global,
        seat: &mut SeatContents,
        line: &[u8],
        entry: &mut u64,
    ) -> u32
        ensures answered { result ≡ OK → IsDeskAnswered (Some self.old) (Some self.new) (Some seat.old) (Some seat.new) line.now entry.new }
        ensures kept { result ≢ OK → (self.new ≡ self.old) × (seat.new ≡ seat.old) }
        ensures strange { result ≡ STRANGE → IsStrange (Some self.old) (Some seat.old) }
        ensures no_event { result ≡ NO_EVENT → line_asks line.now ≡ LineCase.NoEvent }
        ensures full { result ≡ FULL → IsHistoryFull (Some self.old) }
        ensures memory { result ≡ NO_MEMORY → is_skipped line.now ≡ false }
        ensures status { (result ≡ OK) ⊎ ((result ≡ NO_MEMORY) ⊎ ((result ≡ FULL) ⊎ ((result ≡ NO_EVENT) ⊎ (result ≡ STRANGE)))) }
    {
        if seat.desk != self.name {
            return STRANGE;
        }
        match line_asks(alloc, line) {
            Ok(LineAsks::Call(event)) => self.answer_call(alloc, seat, event, entry),
            Ok(LineAsks::Refused(fault)) => seat.refuse(alloc, fault, entry),
            Ok(LineAsks::NoEvent) => NO_EVENT,
            Err(_) => NO_MEMORY,
        }
    }

    /// The key of a word, for a seat of this desk, or the status that says why there is none.
    fn key_for(&self, seat: &SeatContents, key: &[u8]) -> Result<KeyName, u32>
        ensures key { IfOk result (λ name. key_word key.now ≡ Some name) }
        ensures own { OnOk result (seat.now.desk ≡ self.now.name) }
        ensures strange { IfErr result (λ status. status ≡ STRANGE → IsStrange (Some self.now) (Some seat.now)) }
        ensures no_key { IfErr result (λ status. status ≡ NO_KEY → key_word key.now ≡ None) }
        ensures status { IfErr result (λ status. (status ≡ STRANGE) ⊎ (status ≡ NO_KEY)) }
    {
        if seat.desk != self.name {
            return Err(STRANGE);
        }
        match key_of_word(key) {
            Some(name) => Ok(name),
            None => Err(NO_KEY),
        }
    }

    /// Gives a seat's key numbers from a processor on, a word a number.
    pub(crate) fn set(
        &mut self,
        alloc: Global,
        seat: &mut SeatContents,
        key: &[u8],
        from: u64,
        words: &[u64],
        entry: &mut u64,
    ) -> u32
        ensures set { result ≡ OK → IsDeskSet (Some self.old) (Some self.new) (Some seat.old) (Some seat.new) (key_word key.now) from words.now entry.new }
        ensures kept { result ≢ OK → (self.new ≡ self.old) × (seat.new ≡ seat.old) }
        ensures strange { result ≡ STRANGE → IsStrange (Some self.old) (Some seat.old) }
        ensures key { result ≡ NO_KEY → key_word key.now ≡ None }
        ensures full { result ≡ FULL → IsHistoryFull (Some self.old) }
        ensures memory { result ≡ NO_MEMORY → key_word key.now ≢ None }
        ensures status { (result ≡ OK) ⊎ ((result ≡ NO_MEMORY) ⊎ ((result ≡ FULL) ⊎ ((result ≡ NO_KEY) ⊎ (result ≡ STRANGE)))) }
    {
        let key = match self.key_for(seat, key) {
            Ok(key) => key,
            Err(status) => return status,
        };
        let Ok(numbers) = list_of(alloc, words) else {
            return NO_MEMORY;
        };
        let values = Items::new(numbers);
        self.answer_call(
            alloc,
            seat,
            Event::Edit(Edit::Input { key, from, values }),
            entry,
        )
    }

    /// Gives a seat's key numbers from a processor on, two words a number.
    pub(crate) fn set_wide(
        &mut self,
        alloc: Global,
        seat: &mut SeatContents,
        key: &[u8],
        from: u64,
        given: &[Wide],
        entry: &mut u64,
    ) -> u32
        ensures set { result ≡ OK → IsDeskSet (Some self.old) (Some self.new) (Some seat.old) (Some seat.new) (key_word key.now) from (wide_numbers given.now) entry.new }
        ensures kept { result ≢ OK → (self.new ≡ self.old) × (seat.new ≡ seat.old) }
        ensures strange { result ≡ STRANGE → IsStrange (Some self.old) (Some seat.old) }
        ensures key { result ≡ NO_KEY → key_word key.now ≡ None }
        ensures full { result ≡ FULL → IsHistoryFull (Some self.old) }
        ensures memory { result ≡ NO_MEMORY → key_word key.now ≢ None }
        ensures status { (result ≡ OK) ⊎ ((result ≡ NO_MEMORY) ⊎ ((result ≡ FULL) ⊎ ((result ≡ NO_KEY) ⊎ (result ≡ STRANGE)))) }
    {
        let key = match self.key_for(seat, key) {
            Ok(key) => key,
            Err(status) => return status,
        };
        let Ok(numbers) = wide::numbers_of(alloc, given) else {
            return NO_MEMORY;
        };
        let values = Items::new(numbers);
        self.answer_call(
            alloc,
            seat,
            Event::Edit(Edit::Input { key, from, values }),
            entry,
        )
    }

    /// What is answered where memory for the box of an order was refused: that, or what comes before it.
    pub(crate) fn without_box(&self, seat: &SeatContents) -> u32
        ensures nothing { result ≡ NOTHING → HasNoneReadyAt (Some self.now) }
        ensures memory { result ≡ NO_MEMORY → HasReadyAt (Some self.now) }
        ensures strange { result ≡ STRANGE → IsStrange (Some self.now) (Some seat.now) }
        ensures status { (result ≡ NO_MEMORY) ⊎ ((result ≡ NOTHING) ⊎ (result ≡ STRANGE)) }
    {
        if seat.desk != self.name {
            STRANGE
        } else if self.ledger.book().has_ready() {
            NO_MEMORY
        } else {
            NOTHING
        }
    }

    /// Takes an order for the first ready row, and puts it into its state.
    pub(crate) fn take(
        &mut self,
        seat: &mut SeatContents,
        state: &mut OrderState,
        entry: &mut u64,
    ) -> u32
        ensures taken { result ≡ OK → IsTakenAt (Some self.old) (Some self.new) (Some seat.old) (Some seat.new) (Some state.new) entry.new }
        ensures whole { result ≡ OK → is_spent state.new ≡ false }
        ensures nothing { result ≡ NOTHING → HasNoneReadyAt (Some self.old) }
        ensures memory { result ≡ NO_MEMORY → HasReadyAt (Some self.old) }
        ensures kept { result ≢ OK → (self.new ≡ self.old) × (seat.new ≡ seat.old) }
        ensures strange { result ≡ STRANGE → IsStrange (Some self.old) (Some seat.old) }
        ensures full { result ≡ FULL → IsHistoryFull (Some self.old) }
        ensures status { (result ≡ OK) ⊎ ((result ≡ NO_MEMORY) ⊎ ((result ≡ FULL) ⊎ ((result ≡ NOTHING) ⊎ (result ≡ STRANGE)))) }
    {
        if seat.desk != self.name {
            return STRANGE;
        }
        if !self.ledger.book().has_ready() {
            return NOTHING;
        }
        match self.ledger.call(seat.number, Event::Take) {
            Ok(Reply::Take(Some(order))) => {
                *state = OrderState::Order(order);
                seat.front = self.ledger.len() as u64;
                *entry = seat.front;
                OK
            }
            Ok(_) => unreachable!(),
            Err((_, Fault::HistoryFull(_))) => FULL,
            Err(_) => NO_MEMORY,
        }
    }

    /// Brings the result of an order, if it is executed, and says the verdict's number and, of a stale one, the row's present edition.
    pub(crate) fn bring(
        &mut self,
        seat: &mut SeatContents,
        state: &OrderState,
        verdict: &mut u32,
        edition: &mut u64,
        entry: &mut u64,
    ) -> u32
        ensures brought { result ≡ OK → IsBroughtAt (Some self.old) (Some self.new) (Some seat.old) (Some seat.new) (result_in (Some state.now)) entry.new }
        ensures verdict { result ≡ OK → HasVerdictAt (Some self.old) (result_in (Some state.now)) verdict.new }
        ensures edition { result ≡ OK → HasEditionAt (Some self.old) (result_in (Some state.now)) edition.new }
        ensures not_run { result ≡ NOT_RUN → result_in (Some state.now) ≡ None }
        ensures memory { result ≡ NO_MEMORY → result_in (Some state.now) ≢ None }
        ensures kept { result ≢ OK → (self.new ≡ self.old) × (seat.new ≡ seat.old) }
        ensures strange { result ≡ STRANGE → IsStrange (Some self.old) (Some seat.old) }
        ensures full { result ≡ FULL → IsHistoryFull (Some self.old) }
        ensures status { (result ≡ OK) ⊎ ((result ≡ NO_MEMORY) ⊎ ((result ≡ FULL) ⊎ ((result ≡ NOT_RUN) ⊎ (result ≡ STRANGE)))) }
    {
        if seat.desk != self.name {
            return STRANGE;
        }
        let OrderState::Done(done) = state else {
            return NOT_RUN;
        };
        let Ok(copy) = done.copy() else {
            return NO_MEMORY;
        };
        match self.ledger.call(seat.number, Event::Bring(copy)) {
            Ok(Reply::Bring(said)) => {
                *verdict = tell_verdict(said, edition);
                seat.front = self.ledger.len() as u64;
                *entry = seat.front;
                OK
            }
            Ok(_) => unreachable!(),
            Err((_, Fault::HistoryFull(_))) => FULL,
            Err(_) => NO_MEMORY,
        }
    }

    /// Has a seat look at the book as it is.
    pub(crate) fn look(&self, seat: &mut SeatContents) -> u32
        ensures looked { result ≡ OK → IsLooked (Some self.now) (Some seat.old) (Some seat.new) }
        ensures kept { result ≢ OK → seat.new ≡ seat.old }
        ensures strange { result ≡ STRANGE → IsStrange (Some self.now) (Some seat.old) }
        ensures status { (result ≡ OK) ⊎ ((result ≡ NO_MEMORY) ⊎ (result ≡ STRANGE)) }
    {
        if seat.desk != self.name {
            return STRANGE;
        }
        match self.ledger.look() {
            Ok(still) => {
                seat.still = still;
                seat.front = self.ledger.len() as u64;
                OK
            }
            Err(_) => NO_MEMORY,
        }
    }

    /// Says the seat and the kind of an entry, and puts the text of its reply into a room, as much of it as there is room for.
    pub(crate) fn entry(
        &self,
        alloc: Global,
        number: u64,
        seat: &mut u64,
        kind: &mut u32,
        room: &mut [u8],
        reply: &mut usize,
    ) -> u32
        ensures told { result ≡ OK → HasEntry (Some self.now) number seat.new kind.new room.old room.new reply.new }
        ensures no_entry { result ≡ NO_ENTRY → HasNoEntry (Some self.now) number }
        ensures memory { result ≡ NO_MEMORY → HasNoEntry (Some self.now) number → ⊥ }
        ensures room { result ≢ OK → room.new ≡ room.old }
        ensures status { (result ≡ OK) ⊎ ((result ≡ NO_MEMORY) ⊎ (result ≡ NO_ENTRY)) }
    {
        let Some(entry) = self.ledger.entry(number) else {
            return NO_ENTRY;
        };
        let Ok(text) = text_of(alloc, &entry.reply) else {
            return NO_MEMORY;
        };
        *seat = entry.seat;
        *kind = kind_of(&entry.event);
        *reply = text.len();
        fill(room, text.as_slice());
        OK
    }

    /// Begins a new chapter at the present state, and says how many entries the last one had.
    pub(crate) fn cut(&mut self, entries: &mut u64) -> u32
        ensures cut { result ≡ OK → IsCut (Some self.old) (Some self.new) entries.new }
        ensures kept { result ≢ OK → self.new ≡ self.old }
        ensures status { (result ≡ OK) ⊎ (result ≡ NO_MEMORY) }
    {
        let count = self.ledger.len() as u64;
        match self.ledger.cut() {
            Ok(()) => {
                *entries = count;
                OK
            }
            Err(_) => NO_MEMORY,
        }
    }

    /// A session with the desk's book, in a box, with no order and no reply.
    pub(crate) fn snapshot(&self, alloc: Global) -> Result<Box<Contents>, AllocError>
        ensures { IfOk result (λ copy. IsDeskSnapshot (Some self.now) (Some copy.value)) }
    {
        session_of(alloc, self.ledger.book())
    }
}
