//! The book: edits, orders, results and looks.

ghost use Rattle.std.specs.Prelude.{◌≡◌, ◌+◌, ◌^◌, ◌≤◌, Ok, Err, IsSome, IfOk, IfErr, OnOk, OnErr};
ghost use Rattle.paris_names.specs.Faults.{IsFaultOf};
ghost use Rattle.paris_names.specs.declared.limits.TheConstants.{MAX_EDITS, MAX_PROCESSORS, MAX_WIDTH};
ghost use Rattle.paris_edits.specs.declared.edits.Edit.TheVariants as EditCase;
ghost use Rattle.paris_events.specs.State.{empty_state, empty_state_of};
ghost use Rattle.paris_events.specs.Show.{show_reply};
ghost use Rattle.paris_events.specs.Orders.{take_reply, after_take, after_release};
ghost use Rattle.paris_events.specs.CutOff.{cut_off};
ghost use Rattle.paris_events.specs.Results.{verdict_of, after_bring};
ghost use Rattle.paris_events.specs.Edits.{edit_fault, edit_answer, accepted};
ghost use Rattle.paris_events.specs.Settling.{unsettled_rows};
ghost use Rattle.paris_book.specs.Among.{look_shown, shared_shown};
ghost use Rattle.paris_book.specs.InputWidths.{input_width};
ghost use Rattle.paris_book.specs.MostRead.{most_read_by};
ghost use Rattle.paris_book.specs.Origins.{origin_reply};

use crate::look::{Look, SharedLook};
use crate::loose::Loose;
use paris_depends::Looks;
use paris_edits::{Edit, EditReply, Verdict};
use paris_exec::{Done, Order};
use paris_names::{Fault, KeyName, Profile, RowId, Spot};
use std::alloc::{AllocError, Global};
use std::marker::Model;

/// A program that is edited, its input data, and the results that are settled. A clause sees the declarations, the count of
/// edits, the input data, the id of the next row, and the rows.
///
/// No row of it could be cut off: an unsettled row whose last kept result is of its plan and of the present values is settled with
/// that, and isn't run again.
#[derive(Drop)]
pub struct Book {
    pub(crate) loose: Loose,
}

impl Model for Book {
    ghost use Rattle.paris_events.specs.State.{State};
    ghost use Rattle.paris_events.specs.CutOff.{IsAtRest};

    ghost Value = { State };

    ghost view = { λ b. b.loose };

    ghost invariant = { λ b. IsAtRest b.loose };
}

impl Book {
    /// A book of profile 1 with nothing in it, which grows by this allocator.
    pub fn new(alloc: Global) -> Book
        ensures { result ≡ empty_state 0 }
    {
        Book::with_profile(alloc, Profile::One)
    }

    /// A book of a profile with nothing in it, which grows by this allocator.
    pub fn with_profile(alloc: Global, profile: Profile) -> Book
        ensures { result ≡ empty_state_of profile 0 }
    {
        Book {
            loose: Loose::empty(alloc, profile, 0),
        }
    }

    /// A book of profile 1 with nothing in it, of which that many edits count as made.
    pub fn starting_at(alloc: Global, count: u64) -> Book
        requires { count ≤ MAX_EDITS }
        ensures { result ≡ empty_state count }
    {
        Book {
            loose: Loose::empty(alloc, Profile::One, count),
        }
    }

    /// The profile, which says how wide a field may be.
    pub fn profile(&self) -> Profile
        ensures { result ≡ self.now.board.profile }
    {
        self.loose.board.profile()
    }

    /// Makes an edit. It is refused by `EditionsSpent` where the count of edits is spent, then by the first fault of its content, or
    /// by `NoMemory` where none of them is due and memory is refused. What is refused leaves the book as it was.
    pub fn edit(&mut self, edit: Edit) -> Result<EditReply, Fault>
        ensures ok { IfOk result (λ answer. (edit_fault self.old edit ≡ None)
            × (answer ≡ edit_answer self.old edit)
            × (self.new ≡ accepted self.old edit)) }
        ensures err { IfErr result (λ fault. (self.new ≡ self.old)
            × IsFaultOf (edit_fault self.old edit) fault) }
    {
        self.apply(&edit)
    }

    /// Makes an edit that is lent.
    pub(crate) fn apply(&mut self, edit: &Edit) -> Result<EditReply, Fault>
        ensures ok { IfOk result (λ answer. (edit_fault self.old edit.now ≡ None)
            × (answer ≡ edit_answer self.old edit.now)
            × (self.new ≡ accepted self.old edit.now)) }
        ensures err { IfErr result (λ fault. (self.new ≡ self.old)
            × IsFaultOf (edit_fault self.old edit.now) fault) }
    {
        let mut looks = Looks::new();
        self.edit_counted(edit, &mut looks)
    }

    /// Makes an edit that is lent, as `edit` does, and counts the entries of the index of keys that are read for it: the more rows it
    /// touches, the more they may be, however many others there are.
    pub fn edit_counted(&mut self, edit: &Edit, looks: &mut Looks) -> Result<EditReply, Fault>
        requires { looks.old ≤ 2 ^ 62 }
        ensures ok { IfOk result (λ answer. (edit_fault self.old edit.now ≡ None)
            × (answer ≡ edit_answer self.old edit.now)
            × (self.new ≡ accepted self.old edit.now)) }
        ensures err { IfErr result (λ fault. (self.new ≡ self.old)
            × IsFaultOf (edit_fault self.old edit.now) fault) }
        ensures read { OnOk result (looks.new ≤ looks.old + most_read_by self.old self.new) }
    {
        self.loose.apply(edit, looks)
    }

    /// Gives a key numbers of one word each from a processor on: the edit of input data with these numbers, which needs no list of
    /// wide ones. It is refused as that edit is, and what is refused leaves the book as it was.
    pub fn set_words(&mut self, key: KeyName, from: u64, words: &[u64]) -> Result<(), Fault>
        ensures ok { OnOk result ((edit_fault self.old (EditCase.Input key from words.now) ≡ None)
            × (self.new ≡ accepted self.old (EditCase.Input key from words.now))) }
        ensures err { IfErr result (λ fault. (self.new ≡ self.old)
            × IsFaultOf (edit_fault self.old (EditCase.Input key from words.now)) fault) }
    {
        let mut looks = Looks::new();
        self.set_words_counted(key, from, words, &mut looks)
    }

    /// Gives a key numbers as `set_words` does, and counts the entries of the index of keys that are read for it.
    pub fn set_words_counted(
        &mut self,
        key: KeyName,
        from: u64,
        words: &[u64],
        looks: &mut Looks,
    ) -> Result<(), Fault>
        requires { looks.old ≤ 2 ^ 62 }
        ensures ok { OnOk result ((edit_fault self.old (EditCase.Input key from words.now) ≡ None)
            × (self.new ≡ accepted self.old (EditCase.Input key from words.now))) }
        ensures err { IfErr result (λ fault. (self.new ≡ self.old)
            × IsFaultOf (edit_fault self.old (EditCase.Input key from words.now)) fault) }
        ensures read { OnOk result (looks.new ≤ looks.old + most_read_by self.old self.new) }
    {
        self.loose.set_words(key, from, words, looks)
    }

    /// The width that so many numbers have to fit which are given to a key from a processor on. The error is why they are refused,
    /// whatever they are. It takes no memory.
    pub fn input_width(&self, key: KeyName, from: u64, count: usize) -> Result<u64, Fault>
        ensures width { result ≡ input_width self.now key from count }
        ensures narrow { IfOk result (λ width. width ≤ MAX_WIDTH) }
        ensures within { OnOk result (from + count ≤ MAX_PROCESSORS) }
    {
        self.loose.input_width(key, from, count)
    }

    /// An order for the first row that waits and whose keys read all have the start or a settled row as origin. `None` where there
    /// is no such row, and then it takes no memory. The error says that memory for the order was refused.
    pub fn take(&mut self) -> Result<Option<Order>, AllocError>
        ensures order { IfOk result (λ order. order ≡ take_reply self.old) }
        ensures state { OnOk result (self.new ≡ after_take self.old) }
        ensures err { OnErr result (self.new ≡ self.old) }
        ensures ready { OnErr result (IsSome (take_reply self.old)) }
    {
        self.loose.take()
    }

    /// The order that `take` would give. It changes nothing, and the error says what that of `take` does.
    pub fn peek(&self) -> Result<Option<Order>, AllocError>
        ensures order { IfOk result (λ order. order ≡ take_reply self.now) }
        ensures ready { OnErr result (IsSome (take_reply self.now)) }
    {
        self.loose.peek()
    }

    /// Brings a result, and settles its row where it belongs to the present program and the present input data, with the rows that
    /// are cut off then. It needs no memory.
    pub fn bring(&mut self, done: Done) -> Verdict
        ensures answer { result ≡ verdict_of self.old done }
        ensures state { self.new ≡ after_bring self.old done }
    {
        self.loose.bring(done)
    }

    /// Gives up the orders that are out: every row that is out waits, with its edition. It takes no memory.
    pub fn release(&mut self)
        ensures { self.new ≡ after_release self.old }
    {
        self.loose.release();
    }

    /// What a key holds at a place of the program: its value, where its origin is the start or a settled row, or the row that is its
    /// origin. `NoField` where the key isn't declared, and then `NoRow` where no row has the place's id. It takes no memory.
    pub fn show(&self, name: KeyName, spot: Spot) -> Result<Look<'_>, Fault>
        ensures shown { IfOk result (λ look. Ok (look_shown look) ≡ show_reply self.now name spot) }
        ensures refused { IfErr result (λ fault. Err fault ≡ show_reply self.now name spot) }
    {
        Ok(self.shared_look(name, spot)?.lent())
    }

    /// The same look, with its value lent to be shared.
    pub(crate) fn shared_look(&self, name: KeyName, spot: Spot) -> Result<SharedLook<'_>, Fault>
        ensures shown { IfOk result (λ look. Ok (shared_shown look) ≡ show_reply self.now name spot) }
        ensures refused { IfErr result (λ fault. Err fault ≡ show_reply self.now name spot) }
    {
        self.loose.shared_look(name, spot)
    }

    /// The row whose value `show` shows, or the row that it says is pending: the last one before the place that writes the key. `None`
    /// is the start. The errors are those of `show`. It takes no memory.
    pub fn origin(&self, name: KeyName, spot: Spot) -> Result<Option<RowId>, Fault>
        ensures { result ≡ origin_reply self.now name spot }
    {
        self.loose.origin(name, spot)
    }

    /// How many edits were accepted.
    pub fn edits(&self) -> u64
        ensures { result ≡ self.now.edits }
    {
        self.loose.edits()
    }

    /// How many rows are unsettled.
    pub fn unsettled_count(&self) -> usize
        ensures { result ≡ unsettled_rows self.now.rows }
    {
        self.loose.unsettled_count()
    }

    /// One more pass of cut-off would change nothing. It changes nothing: what it ensures is the law.
    pub fn rests(&self)
        ensures { cut_off self.now ≡ self.now }
    {
        // Whoever touches a part knows the invariant.
        let _loose = &self.loose;
    }
}
