//! Edits of a book: declarations, input data, and rows that are put in, taken out and replaced.

ghost use Rattle.std.specs.Prelude.{◌≡◌, ◌∷◌, [], ◌+◌, ◌^◌, ◌<◌, ◌≤◌, length, true, Ok, Some, None, IfOk, IfErr, IfSome, IsSome, OnOk, OnErr, if◌then◌else◌};
ghost use Rattle.std.specs.Option.{option_or};
ghost use Rattle.paris_names.specs.Faults.{IsFaultOf};
ghost use Rattle.paris_names.specs.declared.faults.Fault.TheVariants as FaultCase;
ghost use Rattle.paris_names.specs.declared.ids.Spot.TheVariants as SpotCase;
ghost use Rattle.paris_geometry.specs.Geometry.{is_geometry};
ghost use Rattle.paris_board.specs.Board.{set_fault, field_fault, is_declared, key_named, set_named};
ghost use Rattle.paris_instr.specs.Resolve.{IsFittedTo};
ghost use Rattle.paris_events.specs.State.{find_row, input_of, place_of_spot};
ghost use Rattle.paris_events.specs.CutOff.{IsAtRest, cut_off};
ghost use Rattle.paris_events.specs.Edits.{HasEditsLeft, edit_fault, edit_answer, content_fault, edited_by, accepted, input_fault, set_added, field_added, input_set, row_inserted, replaced_from};
ghost use Rattle.paris_edits.specs.declared.edits.Edit.TheVariants as EditCase;
ghost use Rattle.paris_book.specs.Among.{CanGive, given_numbers};
ghost use Rattle.paris_book.specs.InputWidths.{input_width, width_for};
ghost use Rattle.paris_book.specs.Touched.{AreEnough};
ghost use Rattle.paris_names.specs.declared.limits.TheConstants.{MAX_PROCESSORS, MAX_WIDTH};
ghost use Rattle.paris_book.specs.Marks.{ids_in};
ghost use Rattle.paris_book.specs.MostRead.{most_read, most_read_by};
ghost use Rattle.paris_book.specs.TouchedIds.{touched_ids};

use crate::inputs::{
    Given, declare_flags, declare_input, give_key, given_fault, is_wrong_count, push_field,
    push_flags,
};
use crate::loose::Loose;
use crate::marks::{end_edit, unsettled_by_replace};
use crate::rows::RowData;
use paris_depends::Looks;
use paris_edits::{Edit, EditReply};
use paris_geometry::Geometry;
use paris_instr::{Plan, resolve};
use paris_model::Instr;
use paris_names::limits::{MAX_EDITS, MAX_ROWS};
use paris_names::{Fault, Key, KeyName, Name, RowId, Spot};
use std::alloc::AllocError;

impl Loose {
    /// Declares a set, if there are edits left. It touches no row, so none can be cut off then where none could be before.
    fn add_set(&mut self, name: Name, axes: &[u64]) -> Result<(), Fault>
        requires rests { IsAtRest self.old }
        requires left { HasEditsLeft self.old }
        ensures ok { OnOk result ((option_or (set_fault self.old.board name) (if is_geometry axes.now then None else Some FaultCase.BadAxes) ≡ None)
            × (self.new ≡ set_added self.old name axes.now)) }
        ensures enough { OnOk result (AreEnough [] self.new) }
        ensures err { IfErr result (λ fault. (self.new ≡ self.old)
            × IsFaultOf (option_or (set_fault self.old.board name) (if is_geometry axes.now then None else Some FaultCase.BadAxes)) fault) }
    {
        if let Some(fault) = self.board.set_fault(name) {
            return Err(fault);
        }
        let geometry = Geometry::new(axes)?;
        let number = self.edits + 1;
        let flags = declare_flags(self.alloc, number, geometry.vps())?;
        self.inputs.flags.reserve(1)?;
        self.board.add_set(name, geometry)?;
        push_flags(&mut self.inputs.flags, flags);
        self.edits = number;
        Ok(())
    }

    /// Declares a field, if there are edits left. It touches no row, so none can be cut off then where none could be before.
    fn add_field(&mut self, name: Name, set: Name, width: u64) -> Result<(), Fault>
        requires rests { IsAtRest self.old }
        requires left { HasEditsLeft self.old }
        ensures ok { OnOk result ((field_fault self.old.board name set width ≡ None)
            × (self.new ≡ field_added self.old name (set_named self.old.board set) width)) }
        ensures enough { OnOk result (AreEnough [] self.new) }
        ensures err { IfErr result (λ fault. (self.new ≡ self.old)
            × IsFaultOf (field_fault self.old.board name set width) fault) }
    {
        if let Some(fault) = self.board.field_fault(name, set, width) {
            return Err(fault);
        }
        let count = self.board.geometry(self.board.set_of(set)?).vps();
        let number = self.edits + 1;
        let input = declare_input(self.alloc, number, width, count, 0)?;
        self.inputs.fields.reserve(1)?;
        self.board.add_field(name, set, width)?;
        push_field(&mut self.inputs.fields, input);
        self.edits = number;
        Ok(())
    }

    /// Gives a key numbers from a processor on, if there are edits left, with the pass behind it. No row could be cut off before.
    fn set_input(
        &mut self,
        name: KeyName,
        from: u64,
        given: &Given<'_>,
        looks: &mut Looks,
    ) -> Result<(), Fault>
        requires rests { IsAtRest self.old }
        requires left { HasEditsLeft self.old }
        requires looks { looks.old ≤ 2 ^ 62 }
        ensures ok { OnOk result ((input_fault self.old from (given_numbers given.now) (key_named self.old.board name) ≡ None)
            × (self.new ≡ cut_off (input_set self.old (key_named self.old.board name) from (given_numbers given.now)))) }
        ensures err { IfErr result (λ fault. (self.new ≡ self.old)
            × IsFaultOf (input_fault self.old from (given_numbers given.now) (key_named self.old.board name)) fault) }
        ensures read { OnOk result (looks.new ≤ looks.old + most_read_by self.old self.new) }
    {
        let key = self.board.key_of(name)?;
        if let Some(fault) = given_fault(&self.inputs, &key, from, given) {
            return Err(fault);
        }
        let ids = self.put_input(key, from, given, looks)?;
        self.cut_listed(ids.as_slice());
        Ok(())
    }

    /// The width of a declared key, where so many numbers can be given to it from a processor on.
    fn width_for(&self, key: &Key, from: u64, count: usize) -> Result<u64, Fault>
        requires { is_declared self.now.board key.now ≡ true }
        ensures width { result ≡ width_for self.now from count (Some key.now) }
        ensures narrow { IfOk result (λ width. width ≤ MAX_WIDTH) }
        ensures within { OnOk result (from + count ≤ MAX_PROCESSORS) }
    {
        let vps = self.board.geometry(self.board.set_of_key(*key)).vps();
        if is_wrong_count(vps as u64, from, count) {
            return Err(Fault::WrongCount);
        }
        Ok(self.board.width(*key))
    }

    /// The width that so many numbers have to fit which are given to a key from a processor on. The error is why they are refused,
    /// whatever they are.
    pub(crate) fn input_width(&self, name: KeyName, from: u64, count: usize) -> Result<u64, Fault>
        ensures width { result ≡ input_width self.now name from count }
        ensures narrow { IfOk result (λ width. width ≤ MAX_WIDTH) }
        ensures within { OnOk result (from + count ≤ MAX_PROCESSORS) }
    {
        if self.edits >= MAX_EDITS {
            return Err(Fault::EditionsSpent);
        }
        let key = self.board.key_of(name)?;
        self.width_for(&key, from, count)
    }

    /// Gives a key numbers from a processor on that can be given, and ends that edit. The answer is the ids of the rows that it
    /// touched. No row could be cut off before.
    fn put_input(
        &mut self,
        key: Key,
        from: u64,
        given: &Given<'_>,
        looks: &mut Looks,
    ) -> Result<Vec<RowId>, AllocError>
        requires rests { IsAtRest self.old }
        requires left { HasEditsLeft self.old }
        requires looks { looks.old ≤ 2 ^ 62 }
        requires there { IsSome (input_of self.old.inputs key) }
        requires given { IfSome (input_of self.old.inputs key) (λ input. CanGive input from (given_numbers given.now)) }
        ensures ok { OnOk result (self.new ≡ input_set self.old (Some key) from (given_numbers given.now)) }
        ensures enough { IfOk result (λ ids. AreEnough (ids_in ids.items) self.new) }
        ensures err { OnErr result (self.new ≡ self.old) }
        ensures read { IfOk result (λ ids. looks.new ≤ looks.old + most_read (length ids.items)) }
        ensures touched { IfOk result (λ ids. length ids.items ≤ length (touched_ids self.old.edits self.new.rows)) }
    {
        let number = self.edits + 1;
        let ids = self.rows.affected(self.alloc, 0, &[key], looks)?;
        self.rows.own_all(ids.as_slice())?;
        give_key(self.alloc, &mut self.inputs, &key, number, from, given)?;
        end_edit(&mut self.rows, &mut self.edits, ids.as_slice());
        Ok(ids)
    }

    /// Puts an instruction into the program, if there are edits left, with the pass behind it. No row could be cut off before.
    fn insert(&mut self, spot: Spot, instr: Instr, looks: &mut Looks) -> Result<RowId, Fault>
        requires rests { IsAtRest self.old }
        requires left { HasEditsLeft self.old }
        requires looks { looks.old ≤ 2 ^ 62 }
        ensures ok { IfOk result (λ id. (content_fault self.old (EditCase.Insert spot instr) ≡ None)
            × (id ≡ record { 0 = self.old.next })
            × (self.new ≡ accepted self.old (EditCase.Insert spot instr))) }
        ensures err { IfErr result (λ fault. (self.new ≡ self.old)
            × IsFaultOf (content_fault self.old (EditCase.Insert spot instr)) fault) }
        ensures read { OnOk result (looks.new ≤ looks.old + most_read_by self.old self.new) }
    {
        let place = self.place_of_spot(spot)?;
        if self.rows.len() >= MAX_ROWS {
            return Err(Fault::RowsFull);
        }
        let plan = resolve(self.alloc, &self.board, instr)?;
        let (id, ids) = self.insert_plan(place, plan, looks)?;
        self.cut_listed(ids.as_slice());
        Ok(id)
    }

    /// Puts a row of a plan that fits at a place, if there are edits left. The answer is its id, and the ids of the other rows that
    /// are touched. No row could be cut off before.
    fn insert_plan(
        &mut self,
        place: usize,
        plan: Plan,
        looks: &mut Looks,
    ) -> Result<(RowId, Vec<RowId>), Fault>
        requires rests { IsAtRest self.old }
        requires left { HasEditsLeft self.old }
        requires looks { looks.old ≤ 2 ^ 62 }
        requires within { place ≤ length self.old.rows }
        requires few { length self.old.rows < MAX_ROWS }
        requires fitted { IsFittedTo self.old.board plan }
        ensures ok { IfOk result (λ made. (made.0 ≡ record { 0 = self.old.next }) × (self.new ≡ row_inserted self.old place plan)) }
        ensures enough { IfOk result (λ made. AreEnough (ids_in made.1.items) self.new) }
        ensures read { IfOk result (λ made. looks.new ≤ looks.old + most_read (length made.1.items)) }
        ensures touched { IfOk result (λ made. length made.1.items ≤ length (touched_ids self.old.edits self.new.rows)) }
        ensures err { IfErr result (λ fault. (self.new ≡ self.old) × (fault ≡ FaultCase.NoMemory)) }
    {
        let number = self.edits + 1;
        let ids = self.rows.affected(self.alloc, place, plan.writes(), looks)?;
        let row = RowData::fresh(self.alloc, plan, number)?;
        self.rows.own_all(ids.as_slice())?;
        let id = self.rows.insert_at(place, row)?;
        end_edit(&mut self.rows, &mut self.edits, ids.as_slice());
        Ok((id, ids))
    }

    /// Takes a row out of the program, if there are edits left, with the pass behind it. No row could be cut off before.
    fn delete(&mut self, id: RowId, looks: &mut Looks) -> Result<(), Fault>
        requires rests { IsAtRest self.old }
        requires left { HasEditsLeft self.old }
        requires looks { looks.old ≤ 2 ^ 62 }
        ensures ok { OnOk result ((content_fault self.old (EditCase.Delete id) ≡ None)
            × (self.new ≡ accepted self.old (EditCase.Delete id))) }
        ensures err { IfErr result (λ fault. (self.new ≡ self.old)
            × IsFaultOf (content_fault self.old (EditCase.Delete id)) fault) }
        ensures read { OnOk result (looks.new ≤ looks.old + most_read_by self.old self.new) }
    {
        let ids = self.take_out(id, looks)?;
        self.cut_listed(ids.as_slice());
        Ok(())
    }

    /// Takes a row out of the program, if there are edits left. The answer is the ids of the rows that are touched. No row could be
    /// cut off before.
    fn take_out(&mut self, id: RowId, looks: &mut Looks) -> Result<Vec<RowId>, Fault>
        requires rests { IsAtRest self.old }
        requires left { HasEditsLeft self.old }
        requires looks { looks.old ≤ 2 ^ 62 }
        ensures ok { OnOk result ((content_fault self.old (EditCase.Delete id) ≡ None)
            × (self.new ≡ edited_by self.old (EditCase.Delete id))) }
        ensures enough { IfOk result (λ ids. AreEnough (ids_in ids.items) self.new) }
        ensures err { IfErr result (λ fault. (self.new ≡ self.old)
            × IsFaultOf (content_fault self.old (EditCase.Delete id)) fault) }
        ensures read { IfOk result (λ ids. looks.new ≤ looks.old + most_read (length ids.items)) }
        ensures touched { IfOk result (λ ids. length ids.items ≤ length (touched_ids self.old.edits self.new.rows)) }
    {
        let below = self.place_of_spot(Spot::After(id))?;
        let ids = match self.rows.row(id) {
            Some(row) => self
                .rows
                .affected(self.alloc, below, row.plan().writes(), looks)?,
            None => unreachable!(),
        };
        self.rows.own_all(ids.as_slice())?;
        self.rows.delete(id)?;
        end_edit(&mut self.rows, &mut self.edits, ids.as_slice());
        Ok(ids)
    }

    /// Gives a row another instruction, if there are edits left, with the pass behind it. No row could be cut off before.
    fn replace(&mut self, id: RowId, instr: Instr, looks: &mut Looks) -> Result<(), Fault>
        requires rests { IsAtRest self.old }
        requires left { HasEditsLeft self.old }
        requires looks { looks.old ≤ 2 ^ 62 }
        ensures ok { OnOk result ((content_fault self.old (EditCase.Replace id instr) ≡ None)
            × (self.new ≡ accepted self.old (EditCase.Replace id instr))) }
        ensures err { IfErr result (λ fault. (self.new ≡ self.old)
            × IsFaultOf (content_fault self.old (EditCase.Replace id instr)) fault) }
        ensures read { OnOk result (looks.new ≤ looks.old + most_read_by self.old self.new) }
    {
        let below = self.place_of_spot(Spot::After(id))?;
        let plan = resolve(self.alloc, &self.board, instr)?;
        let ids = self.replace_plan(id, below, plan, looks)?;
        self.cut_row(id);
        self.cut_listed(ids.as_slice());
        Ok(())
    }

    /// Gives the row with an id another plan that fits, if there are edits left. The place is that just after the row. The answer is
    /// the ids of the other rows that are touched. No row could be cut off before.
    fn replace_plan(
        &mut self,
        id: RowId,
        below: usize,
        plan: Plan,
        looks: &mut Looks,
    ) -> Result<Vec<RowId>, Fault>
        requires rests { IsAtRest self.old }
        requires left { HasEditsLeft self.old }
        requires looks { looks.old ≤ 2 ^ 62 }
        requires there { place_of_spot self.old (SpotCase.After id) ≡ Some below }
        requires fitted { IsFittedTo self.old.board plan }
        ensures ok { OnOk result (self.new ≡ replaced_from self.old (find_row self.old id) (Ok plan)) }
        ensures enough { IfOk result (λ ids. AreEnough (id.0 ∷ ids_in ids.items) self.new) }
        ensures read { IfOk result (λ ids. looks.new ≤ looks.old + most_read (length ids.items)) }
        ensures touched { IfOk result (λ ids. length ids.items ≤ length (touched_ids self.old.edits self.new.rows)) }
        ensures err { IfErr result (λ fault. (self.new ≡ self.old) × (fault ≡ FaultCase.NoMemory)) }
    {
        let number = self.edits + 1;
        let ids = unsettled_by_replace(self.alloc, &self.rows, id, below, &plan, looks)?;
        let row = match self.rows.row(id) {
            Some(row) => row.replaced(self.alloc, plan, number)?,
            None => unreachable!(),
        };
        self.rows.own_all(ids.as_slice())?;
        self.rows.replace(id, row)?;
        end_edit(&mut self.rows, &mut self.edits, ids.as_slice());
        Ok(ids)
    }

    /// Gives a key numbers of one word each from a processor on: the edit of input data with these numbers, which needs no list of
    /// wide ones. It is refused as that edit is, and what is refused leaves the book as it was. No row could be cut off before.
    pub(crate) fn set_words(
        &mut self,
        key: KeyName,
        from: u64,
        words: &[u64],
        looks: &mut Looks,
    ) -> Result<(), Fault>
        requires rests { IsAtRest self.old }
        requires looks { looks.old ≤ 2 ^ 62 }
        ensures ok { OnOk result ((edit_fault self.old (EditCase.Input key from words.now) ≡ None)
            × (self.new ≡ accepted self.old (EditCase.Input key from words.now))) }
        ensures err { IfErr result (λ fault. (self.new ≡ self.old)
            × IsFaultOf (edit_fault self.old (EditCase.Input key from words.now)) fault) }
        ensures read { OnOk result (looks.new ≤ looks.old + most_read_by self.old self.new) }
    {
        if self.edits >= MAX_EDITS {
            return Err(Fault::EditionsSpent);
        }
        self.set_input(key, from, &Given::Words(words), looks)
    }

    /// Makes an edit that is lent, with the pass behind it, which looks at rows that the edit touched and at no others. Entries of the
    /// index that are read to find these are counted. No row could be cut off before.
    pub(crate) fn apply(&mut self, edit: &Edit, looks: &mut Looks) -> Result<EditReply, Fault>
        requires rests { IsAtRest self.old }
        requires looks { looks.old ≤ 2 ^ 62 }
        ensures ok { IfOk result (λ answer. (edit_fault self.old edit.now ≡ None)
            × (answer ≡ edit_answer self.old edit.now)
            × (self.new ≡ accepted self.old edit.now)) }
        ensures err { IfErr result (λ fault. (self.new ≡ self.old)
            × IsFaultOf (edit_fault self.old edit.now) fault) }
        ensures read { OnOk result (looks.new ≤ looks.old + most_read_by self.old self.new) }
    {
        if self.edits >= MAX_EDITS {
            return Err(Fault::EditionsSpent);
        }
        match edit {
            Edit::AddSet { name, axes } => self.add_set(*name, axes.as_slice())?,
            Edit::AddField { name, set, width } => self.add_field(*name, *set, *width)?,
            Edit::Input { key, from, values } => {
                self.set_input(*key, *from, &Given::Numbers(values.as_slice()), looks)?
            }
            Edit::Insert { spot, instr } => return Ok(EditReply::Row(self.insert(
                *spot, *instr, looks,
            )?)),
            Edit::Delete(id) => self.delete(*id, looks)?,
            Edit::Replace { row, instr } => self.replace(*row, *instr, looks)?,
        }
        Ok(EditReply::Accepted)
    }
}
