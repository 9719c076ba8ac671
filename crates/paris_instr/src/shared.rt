//! Plans that are shared.

ghost use Rattle.std.specs.Prelude.{◌≡◌, IfErr, IfOk};

use crate::plans::Plan;
use std::alloc::{AllocError, Global};
use std::marker::Model;
use std::sync::Arc;

/// A plan that never changes, and any number of owners of it. A clause sees the plan.
#[derive(Debug, Drop)]
pub struct SharedPlan {
    owned: Arc<Plan, Global>,
}

impl Model for SharedPlan {
    ghost use Rattle.std.specs.Arc.{arc_value};
    ghost use Rattle.paris_model.specs.Instructions.{Plan as Resolved};

    ghost Value = { Resolved };

    ghost view = { λ a. arc_value a.owned };
}

impl SharedPlan {
    /// The plan with one owner. At want of memory the plan comes back.
    pub fn new(alloc: Global, plan: Plan) -> Result<SharedPlan, (Plan, AllocError)>
        ensures ok { IfOk result (λ shared. shared ≡ plan) }
        ensures err { IfErr result (λ e. e.0 ≡ plan) }
    {
        match Arc::new(alloc, plan) {
            Ok(owned) => Ok(SharedPlan { owned }),
            Err(failed) => Err((failed.value, AllocError)),
        }
    }

    /// The plan.
    pub fn get(&self) -> &Plan
        ensures { result.now ≡ self.now }
    {
        &self.owned
    }

    /// The same plan with one more owner. No key is copied and no memory taken: the error is for a count of owners that is full.
    pub fn copy(&self) -> Result<SharedPlan, AllocError>
        ensures { IfOk result (λ shared. shared ≡ self.now) }
    {
        let owned = Arc::try_clone(&self.owned)?;
        Ok(SharedPlan { owned })
    }
}
