//! Answers the lines of a script from a book.

ghost use Rattle.std.specs.Prelude.{◌≡◌, ◌^◌, ◌<◌, ◌≤◌, [], false, None, Ok, Err, IfOk, IfErr, OnOk, OnErr, IsErr};
ghost use Rattle.paris_book.specs.Among.{look_shown};
ghost use Rattle.paris_book.specs.Stopped.{IsStopped};
ghost use Rattle.paris_edits.specs.declared.edits.Edit.TheVariants as edit;
ghost use Rattle.paris_names.specs.Faults.{IsFaultOf};
ghost use Rattle.paris_events.specs.Edits.{edit_fault, edit_answer, accepted};
ghost use Rattle.paris_events.specs.Lists.{list_of};
ghost use Rattle.paris_events.specs.Settling.{all_settled, due};
ghost use Rattle.paris_events.specs.Show.{show_reply};
ghost use Rattle.paris_events.specs.State.{empty_state_of};
ghost use Rattle.paris_session.specs.declared.asked.Asked.TheVariants as AskedCase;
ghost use Rattle.paris_session.specs.Hands.{asked_by_line, is_skipped};
ghost use Rattle.paris_session.specs.NoReplies.{IsLeft};
ghost use Rattle.paris_session.specs.Transcript.{start, with_book, answer_to, answer};

use crate::asked::Asked;
use crate::hand::Hand;
use crate::replies::faults_text;
use crate::room::Room;
use crate::settlers::Settler;
use paris_book::{Book, Look, SettleFault};
use paris_edits::{Edit, EditReply, RowLook};
use paris_events::Event;
use paris_names::{Fault, Items, KeyName, Profile, Spot};
use std::alloc::{AllocError, Global};
use std::marker::Model;
use thiserror::Error;

/// How many commands a run answered, and how many of them it refused.
#[derive(Clone, Copy, Debug, PartialEq, Eq)]
pub struct Summary {
    pub commands: u64,
    pub refusals: u64,
}

/// Why a line has no reply: memory was refused.
#[derive(Clone, Copy, Debug, PartialEq, Eq, Error)]
pub enum NoReply {
    /// The session is as it was before the line.
    #[error("no memory for the line")]
    Unchanged,
    /// The line is `settle`, and a row is left that must be run. The rows that it ran are settled, those that were settled stay so, and
    /// the orders that were out are given up. It can be told again.
    #[error("no memory to settle further")]
    Partly,
}

/// A reply, or that the session is as it was, since memory was refused.
fn or_unchanged(reply: Result<Vec<u8>, AllocError>) -> Result<Vec<u8>, NoReply>
    ensures ok { IfOk result (λ text. reply ≡ Ok text) }
    ensures err { IfErr result (λ cause. (cause ≡ NoReply.Unchanged) × IsErr reply) }
{
    match reply {
        Ok(text) => Ok(text),
        Err(_) => Err(NoReply::Unchanged),
    }
}

/// A book, and what the session has in hand: the orders that it took of it, and how many commands were answered and how many of them
/// refused. A clause sees the book's state, the tasks of the orders, and the counts of commands.
#[derive(Drop)]
pub struct Session {
    pub(crate) book: Book,
    pub(crate) hand: Hand,
}

impl Model for Session {
    ghost use Rattle.paris_session.specs.Transcript.{Sitting};

    ghost Value = { Sitting };

    ghost view = { λ s. record { state = s.book; hand = s.hand.hand } };
}

impl Session {
    /// A session with an empty book of profile 1 and no orders. Its first command may choose the profile.
    pub fn new(alloc: Global) -> Session
        ensures { result ≡ start }
    {
        Session {
            book: Book::new(alloc),
            hand: Hand::new(alloc, true),
        }
    }

    /// A session with an empty book of a profile and no orders. No command of it chooses another.
    pub fn with_profile(alloc: Global, profile: Profile) -> Session
        ensures { result ≡ with_book start (empty_state_of profile 0) [] }
    {
        Session::of_book(alloc, Book::with_profile(alloc, profile))
    }

    /// A session with this book and no orders. No command of it chooses the profile.
    pub fn of_book(alloc: Global, book: Book) -> Session
        ensures { result ≡ with_book start book [] }
    {
        Session {
            book,
            hand: Hand::new(alloc, false),
        }
    }

    /// How many commands were answered, and how many of them were refused.
    pub fn summary(&self) -> Summary
        ensures counts { result ≡ record { commands = self.now.hand.commands; refusals = self.now.hand.refusals } }
        ensures fewer { result.refusals ≤ result.commands }
    {
        Summary {
            commands: self.hand.commands(),
            refusals: self.hand.refusals(),
        }
    }

    pub(crate) fn alloc(&self) -> Global {
        self.hand.alloc()
    }

    /// Makes an edit that no line says: it is no command, and leaves the counts. What is refused leaves the session as it was.
    pub fn edit(&mut self, edit: Edit) -> Result<EditReply, Fault>
        ensures ok { IfOk result (λ answer. (edit_fault self.old.state edit ≡ None)
            × (answer ≡ edit_answer self.old.state edit)
            × (self.new ≡ with_book self.old (accepted self.old.state edit) self.old.hand.tray)) }
        ensures err { IfErr result (λ fault. (self.new ≡ self.old) × IsFaultOf (edit_fault self.old.state edit) fault) }
    {
        let answer = self.book.edit(edit)?;
        self.hand.begin();
        Ok(answer)
    }

    /// Gives a key numbers of one word each from a processor on: the edit of input data with these numbers, which no line says. It is no
    /// command, and leaves the counts. What is refused leaves the session as it was.
    pub fn set_words(&mut self, key: KeyName, from: u64, words: &[u64]) -> Result<(), Fault>
        ensures ok { OnOk result ((edit_fault self.old.state (edit.Input key from words.now) ≡ None)
            × (self.new ≡ with_book self.old (accepted self.old.state (edit.Input key from words.now)) self.old.hand.tray)) }
        ensures err { IfErr result (λ fault. (self.new ≡ self.old)
            × IsFaultOf (edit_fault self.old.state (edit.Input key from words.now)) fault) }
    {
        self.book.set_words(key, from, words)?;
        self.hand.begin();
        Ok(())
    }

    /// Settles the book, with no line that says so: it is no command, and leaves the counts. The answer is how many orders were run.
    /// The error says that memory was refused, and comes only where a row is left that must be run: so many orders were run, at least
    /// so many rows more are settled, no order is out, and the session can be settled again.
    pub fn settle<S: Settler>(&mut self, settler: &S) -> Result<u64, SettleFault>
        requires { S.can_settle settler.now }
        ensures count { IfOk result (λ ran. ran ≡ due self.old.state) }
        ensures settled { OnOk result (self.new ≡ with_book self.old (all_settled self.old.state) self.old.hand.tray) }
        ensures stopped { IfErr result (λ fault. IsStopped fault.ran self.old.state self.new.state) }
        ensures book { OnErr result (self.new ≡ with_book self.old self.new.state self.old.hand.tray) }
    {
        self.hand.begin();
        settler.settle(&mut self.book)
    }

    /// The book.
    pub fn book(&self) -> &Book
        ensures { result.now ≡ self.now.state }
    {
        &self.book
    }

    /// What a key holds at a place of the program: its value, lent, or the row that is pending.
    pub fn look(&self, name: KeyName, spot: Spot) -> Result<Look<'_>, Fault>
        ensures shown { IfOk result (λ look. Ok (look_shown look) ≡ show_reply self.now.state name spot) }
        ensures refused { IfErr result (λ fault. Err fault ≡ show_reply self.now.state name spot) }
    {
        self.book.show(name, spot)
    }

    /// The rows of the program.
    pub fn rows(&self) -> Result<Items<RowLook>, AllocError>
        ensures { IfOk result (λ looks. looks ≡ list_of self.now.state) }
    {
        self.book.list()
    }

    /// Answers an event of the book.
    fn answer_event(&mut self, event: Event) -> Result<Vec<u8>, AllocError>
        requires { self.old.hand.commands < 2 ^ 62 }
        ensures ok { IfOk result (λ text. (self.new, text.items) ≡ answer_to self.old (AskedCase.Call event)) }
        ensures err { OnErr result (self.new ≡ self.old) }
    {
        let room = self.hand.ready(&event)?;
        match self.book.step(event) {
            Ok(reply) => self.hand.tell(room, reply),
            Err((_, refused)) => Err(refused),
        }
    }

    /// Answers a look at a key, whose value is lent.
    fn answer_look(&mut self, key: KeyName, spot: Spot) -> Result<Vec<u8>, AllocError>
        requires { self.old.hand.commands < 2 ^ 62 }
        ensures ok { IfOk result (λ text. (self.new, text.items) ≡ answer_to self.old (AskedCase.Look key spot)) }
        ensures err { OnErr result (self.new ≡ self.old) }
    {
        match self.book.show(key, spot) {
            Ok(look) => self.hand.tell_look(&look),
            Err(fault) => self.hand.refuse(fault),
        }
    }

    /// Answers by the rows that are refused.
    #[tactic(auto, using(crate::proofs::AnswerLemmas::faults_listed))]
    fn answer_faults(&mut self) -> Result<Vec<u8>, AllocError>
        requires { self.old.hand.commands < 2 ^ 62 }
        ensures ok { IfOk result (λ text. (self.new, text.items) ≡ answer_to self.old AskedCase.Faults) }
        ensures err { OnErr result (self.new ≡ self.old) }
    {
        let faults = self.book.faults()?;
        let text = faults_text(self.alloc(), faults.as_slice())?;
        Ok(self.hand.plainly(text))
    }

    /// Settles every row, and answers by how many orders were run.
    fn answer_settle<S: Settler>(&mut self, settler: &S) -> Result<Vec<u8>, NoReply>
        requires count { self.old.hand.commands < 2 ^ 62 }
        requires settler { S.can_settle settler.now }
        ensures ok { IfOk result (λ text. (self.new, text.items) ≡ answer_to self.old AskedCase.Settle) }
        ensures err { IfErr result (λ cause. IsLeft cause self.old self.new AskedCase.Settle) }
    {
        let Ok(room) = Room::new(self.alloc()) else {
            return Err(NoReply::Unchanged);
        };
        match self.settle(settler) {
            Ok(ran) => Ok(self.hand.plainly(room.settled(ran))),
            Err(_) => Err(NoReply::Partly),
        }
    }

    /// Chooses the profile, of a book that is empty.
    fn answer_chosen(&mut self, profile: Profile) -> Result<Vec<u8>, AllocError>
        requires { self.old.hand.commands < 2 ^ 62 }
        ensures ok { IfOk result (λ text. (self.new, text.items) ≡ answer_to self.old (AskedCase.Chosen profile)) }
        ensures err { OnErr result (self.new ≡ self.old) }
    {
        let room = Room::new(self.alloc())?;
        self.book = Book::with_profile(self.alloc(), profile);
        Ok(self.hand.plainly(room.ok()))
    }

    /// Answers what is asked for.
    fn answer_to<S: Settler>(&mut self, settler: &S, asked: Asked) -> Result<Vec<u8>, NoReply>
        requires count { self.old.hand.commands < 2 ^ 62 }
        requires settler { S.can_settle settler.now }
        ensures ok { IfOk result (λ text. (self.new, text.items) ≡ answer_to self.old asked) }
        ensures err { IfErr result (λ cause. IsLeft cause self.old self.new asked) }
    {
        match asked {
            Asked::Call(event) => or_unchanged(self.answer_event(event)),
            Asked::Look(key, spot) => or_unchanged(self.answer_look(key, spot)),
            Asked::Faults => or_unchanged(self.answer_faults()),
            Asked::Settle => self.answer_settle(settler),
            Asked::Chosen(profile) => or_unchanged(self.answer_chosen(profile)),
            Asked::Refused(fault) => or_unchanged(self.hand.refuse(fault)),
        }
    }

    /// Answers a line: an empty one and one that begins with `#` by nothing, one that is too long by its first column past the
    /// longest line, and every other one by the reply to its command. The error says what is left where memory was refused, which is
    /// of no line that is answered by nothing.
    #[tactic(auto, unfolding(crate::specs::Transcript::answer))]
    pub fn answer<S: Settler>(&mut self, settler: &S, line: &[u8]) -> Result<Vec<u8>, NoReply>
        requires room { self.old.hand.commands < 2 ^ 62 }
        requires settler { S.can_settle settler.now }
        ensures ok { IfOk result (λ text. (self.new, text.items) ≡ answer self.old line.now) }
        ensures err { IfErr result (λ cause. IsLeft cause self.old self.new (asked_by_line false self.old.hand line.now)) }
        ensures needed { OnErr result (is_skipped line.now ≡ false) }
    {
        match self.hand.asked(false, line) {
            Ok(Some(asked)) => self.answer_to(settler, asked),
            Ok(None) => Ok(Vec::new(self.alloc())),
            Err(_) => Err(NoReply::Unchanged),
        }
    }
}
