//! A row of an index, with the keys that it writes and reads.

ghost use Rattle.std.specs.Prelude.{◌≡◌};
ghost use Rattle.paris_depends.specs.Index.{footprint};
ghost use Rattle.paris_depends.specs.Sides.{keys_on};

use crate::sides::Side;
use paris_instr::SharedPlan;
use paris_names::{Key, RowId};
use std::alloc::AllocError;
use std::marker::Model;

/// The id of a row, with the keys that its plan writes, and those that it reads. A clause sees the id and the two lists.
#[derive(Drop)]
pub(crate) struct RowKeys {
    id: u64,
    plan: SharedPlan,
}

impl Model for RowKeys {
    ghost use Rattle.std.specs.Prelude.{ℕ};
    ghost use Rattle.paris_depends.specs.Index.{Footprint, footprint};

    ghost Value = { ℕ × Footprint };

    ghost view = { λ r. (r.id, footprint r.plan) };
}

impl RowKeys {
    /// The keys of the plan of the row with this id.
    pub(crate) fn new(id: RowId, plan: SharedPlan) -> RowKeys
        ensures { result ≡ (id.0, footprint plan) }
    {
        RowKeys { id: id.0, plan }
    }

    /// Puts the keys of another plan in place of those that it has.
    pub(crate) fn set_plan(&mut self, plan: SharedPlan)
        ensures { self.new ≡ (self.old.0, footprint plan) }
    {
        self.plan = plan;
    }

    /// The row's id.
    pub(crate) fn id(&self) -> RowId
        ensures { result.0 ≡ self.now.0 }
    {
        RowId(self.id)
    }

    /// The keys that the row's plan writes.
    pub(crate) fn written(&self) -> &[Key]
        ensures { result.now ≡ self.now.1.written }
    {
        self.plan.get().writes()
    }

    /// The keys on a side.
    pub(crate) fn keys_on(&self, side: Side) -> &[Key]
        ensures { result.now ≡ keys_on side self.now.1 }
    {
        match side {
            Side::Writers => self.plan.get().writes(),
            Side::Readers => self.plan.get().reads(),
        }
    }
}

impl Clone for RowKeys {
    ghost is_clone = { λ row copy. copy ≡ row };

    fn clone(&self) -> Result<RowKeys, AllocError> {
        let plan = self.plan.copy()?;
        Ok(RowKeys { id: self.id, plan })
    }
}
