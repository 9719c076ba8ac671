//! An order as C calls it: to be executed, or executed.

ghost use Rattle.std.specs.Prelude.{◌≡◌, true, false, Some};
ghost use Rattle.paris_c.specs.OrderCalls.{is_spent, is_executed, task_in, IsExecuted, IsToExecute};

use paris_exec::{Done, Order, execute};
use std::alloc::Global;
use std::mem;

/// An order, or what came of it. `Nothing` stands there before an order is taken, and while it is executed.
#[derive(Drop)]
pub enum OrderState {
    Order(Order),
    Done(Done),
    Nothing,
}

impl OrderState {
    /// Executes the order in its place, unless it is executed. False where memory was refused: then it isn't executed, and is as it was.
    pub(crate) fn execute(&mut self, alloc: Global) -> bool
        requires { is_spent self.old ≡ false }
        ensures executed { result ≡ true → IsExecuted (Some self.old) (Some self.new) }
        ensures kept { result ≡ false → self.new ≡ self.old }
        ensures waits { result ≡ false → IsToExecute (Some self.old) }
        ensures whole { is_spent self.new ≡ false }
    {
        match mem::replace(self, OrderState::Nothing) {
            OrderState::Order(order) => match execute(alloc, order) {
                Ok(done) => {
                    *self = OrderState::Done(done);
                    true
                }
                Err((order, _)) => {
                    *self = OrderState::Order(order);
                    false
                }
            },
            OrderState::Done(done) => {
                *self = OrderState::Done(done);
                true
            }
            OrderState::Nothing => unreachable!(),
        }
    }

    /// The order, which may be executed.
    pub(crate) fn order(&self) -> &Order
        requires { is_spent self.now ≡ false }
        ensures { task_in self.now ≡ Some result.now }
    {
        match self {
            OrderState::Order(order) => order,
            OrderState::Done(done) => done.order(),
            OrderState::Nothing => unreachable!(),
        }
    }

    /// Whether the order is executed.
    pub(crate) fn is_executed(&self) -> bool
        ensures { result ≡ is_executed self.now }
    {
        match self {
            OrderState::Done(_) => true,
            OrderState::Order(_) | OrderState::Nothing => false,
        }
    }
}
