//! Early cut-off: a row that would compute again what it computed last is settled with that, and nothing is executed. It takes over the
//! present sources of the values that it reads. Where these stay, nothing is compared when it is looked at again.

ghost use Rattle.std.specs.Prelude.{◌≡◌, ◌<◌, length, slice_get, true, false, Some, if◌then◌else◌, IfOk, OnOk, OnErr};
ghost use Rattle.paris_names.specs.declared.keys.Key.{Key as AnyKey};
ghost use Rattle.paris_names.specs.Keys.{has_key};
ghost use Rattle.paris_model.specs.Instructions.{writes};
ghost use Rattle.paris_depends.specs.Sweeps.{marked};
ghost use Rattle.paris_events.specs.State.{Row, find_row};
ghost use Rattle.paris_events.specs.CutOff.{cut_at, cut_off};
ghost use Rattle.paris_book.specs.Touched.{cut_one, cut_listed};
ghost use Rattle.paris_book.specs.Marks.{ids_in};
ghost use Rattle.paris_book.specs.Steps.{WasSettled, cuts_at, left_at, settled_on, sweeps_at, swept_at, turn_order};

use crate::looks::sources_if_cut;
use crate::loose::Loose;
use paris_depends::{is_any_marked, is_none_marked, mark};
use paris_exec::Order;
use paris_names::RowId;
use std::alloc::AllocError;

impl Loose {
    /// Whether there is a row at a place, and it is settled.
    pub(crate) fn is_settled_at(&self, place: usize) -> bool
        ensures { result ≡ settled_on (slice_get self.now.rows place) }
    {
        if place >= self.rows.len() {
            return false;
        }
        let (_, row) = self.rows.at(place);
        row.status().is_settled()
    }

    /// Settles the row at a place where it is cut off, and says whether it is.
    pub(crate) fn cut_at(&mut self, place: usize) -> bool
        ensures cut { result ≡ cuts_at self.old place }
        ensures state { self.new ≡ cut_at self.old place }
    {
        if place >= self.rows.len() {
            return false;
        }
        let Some(sources) = sources_if_cut(&self.inputs, &self.rows, place) else {
            return false;
        };
        self.rows.settle_again(place, sources);
        true
    }

    /// The order by which the row at a place is run at its turn. `None` where it isn't: there is no row, or it is settled, or a key that
    /// it reads waits, or it would compute again what it computed last and is settled with that. At an error nothing has changed.
    pub(crate) fn order_or_cut(&mut self, place: usize) -> Result<Option<Order>, AllocError>
        ensures order { IfOk result (λ order. order ≡ turn_order self.old place) }
        ensures state { OnOk result (self.new ≡ cut_at self.old place) }
        ensures err { OnErr result (self.new ≡ self.old) }
        ensures left { OnErr result (left_at self.old place ≡ true) }
    {
        // A row that is cut off wants no order.
        if self.is_settled_at(place) || self.cut_at(place) {
            return Ok(None);
        }
        self.own_order(place)
    }

    /// One pass over the rows in program order, which settles each that is cut off. It needs no memory.
    pub(crate) fn cut_off(&mut self)
        ensures { self.new ≡ cut_off self.old }
    {
        let mut from = 0;
        while let Some(place) = self.next_unsettled(from) {
            self.cut_at(place);
            from = place + 1;
        }
    }

    /// Settles the row with an id, if there is one, where it is cut off.
    pub(crate) fn cut_row(&mut self, id: RowId)
        ensures { self.new ≡ cut_one self.old (find_row self.old id) }
    {
        if let Some(place) = self.rows.place_of(id) {
            self.cut_at(place);
        }
    }

    /// Looks at the rows with these ids alone, one after another, and settles each that is cut off. It needs no memory.
    pub(crate) fn cut_listed(&mut self, ids: &[RowId])
        ensures { self.new ≡ cut_listed (ids_in ids.now) self.old }
    {
        for id in ids {
            self.cut_row(*id);
        }
    }

    /// Settles the row at a place where it reads a marked key and is cut off, and says whether it is.
    fn sweep_at(&mut self, fresh: &[bool; 128], place: usize) -> bool
        requires { place < length self.old.rows }
        ensures cut { result ≡ sweeps_at (marked fresh.now) self.old place }
        ensures state { self.new ≡ swept_at (marked fresh.now) self.old place }
    {
        let (_, row) = self.rows.at(place);
        if !is_any_marked(fresh, row.plan().reads()) {
            return false;
        }
        self.cut_at(place)
    }

    /// Marks what the row at a place writes, or takes the marks off. The answer is whether no mark is left, where marks were taken off.
    fn mark_writes(&self, fresh: &mut [bool; 128], place: usize, hit: bool) -> bool
        requires { place < length self.now.rows }
        ensures marks { (r : Row) (k : AnyKey) → slice_get self.now.rows place ≡ Some r → marked fresh.new k ≡ (if has_key (writes r.plan) k then hit else marked fresh.old k) }
        ensures none { result ≡ true → (k : AnyKey) → marked fresh.new k ≡ false }
    {
        let (_, row) = self.rows.at(place);
        let writes = row.plan().writes();
        let taken = !hit && is_any_marked(fresh, writes);
        mark(fresh, writes, hit);
        taken && is_none_marked(fresh)
    }

    /// The pass where no row could be cut off until the row at a place was settled. It comes past the unsettled rows behind it alone,
    /// looks at those that read what was settled since, and ends where no row behind can read it.
    pub(crate) fn cut_behind(&mut self, place: usize)
        requires { WasSettled self.old place }
        ensures { self.new ≡ cut_off self.old }
    {
        let len = self.rows.len();
        if place >= len {
            return;
        }
        let mut fresh = [false; 128];
        self.mark_writes(&mut fresh, place, true);
        let mut from = place + 1;
        while let Some(behind) = self.next_unsettled(from) {
            let cut = self.sweep_at(&fresh, behind);
            if self.mark_writes(&mut fresh, behind, cut) {
                return;
            }
            from = behind + 1;
        }
    }
}
