//! What a C caller holds of an order: nothing, or a box of its state as its pointer.

ghost use Rattle.std.specs.Prelude.{◌≡◌, Option, None, Some, is_some, true, false, option_map, IfSome};
ghost use Rattle.paris_c.specs.OrderCalls.{is_spent, is_held_spent};
ghost use Rattle.paris_c.specs.declared.order_state.OrderState.{OrderState};

use crate::order_state::OrderState;
use keep::RawBox;
use std::alloc::Global;
use std::marker::Model;
use std::mem;
use std::ptr::null_mut;

/// Nothing, or a box as its pointer. Its type is another than that of the order, since C may not be passed what points to one.
#[repr(C)]
#[derive(Drop)]
pub struct KeptOrder {
    at: *mut u8,
    alloc: Global,
    pub ghost value: { Option OrderState },
}

impl Model for KeptOrder {
    ghost use Rattle.std.specs.contracts.impls.GlobalAllocator.TheImpl as heap;
    ghost use Rattle.paris_c.specs.contracts.order_state.OrderState.{the_row};
    ghost use Rattle.paris_c.specs.Holding.{holds};

    ghost also_owns = { λ h. holds (heap.ghosts.dealloc_token h.alloc) the_row h.at h.value };
}

unsafe impl Send for KeptOrder {}

impl KeptOrder {
    fn of(raw_box: RawBox<OrderState, Global>) -> KeptOrder
        ensures { result.value ≡ Some raw_box.value }
    {
        let RawBox { at, alloc } = raw_box;
        KeptOrder {
            at: at as *mut u8,
            alloc,
        }
    }

    fn into_raw_box(self) -> RawBox<OrderState, Global>
        requires { is_some self.value ≡ true }
        ensures { self.value ≡ Some result.value }
    {
        let KeptOrder { at, alloc } = self;
        RawBox {
            at: at as *mut OrderState,
            alloc,
        }
    }

    fn empty(at: *mut u8, alloc: Global) -> KeptOrder
        ensures { result.value ≡ None }
    {
        KeptOrder { at, alloc }
    }
}

/// What C holds of an order. All zeros is a closed handle. No order is being executed while it stands there.
#[repr(C)]
#[derive(Drop)]
pub struct OrderHandle {
    pub kept: KeptOrder,
    pub is_open: bool,
    pub ghost agrees: { is_open ≡ is_some kept.value },
    pub ghost whole: { is_held_spent kept.value ≡ false },
}

impl OrderHandle {
    fn closed(alloc: Global) -> OrderHandle
        ensures { result.kept.value ≡ None }
    {
        let at: *mut u8 = null_mut();
        let kept = KeptOrder::empty(at, alloc);
        OrderHandle {
            kept,
            is_open: false,
        }
    }

    /// Takes the order, and leaves the handle closed.
    pub(crate) fn take(&mut self, alloc: Global) -> Option<Box<OrderState>>
        ensures given { option_map (λ state. state.value) result ≡ self.old.kept.value }
        ensures whole { IfSome result (λ state. is_spent state.value ≡ false) }
        ensures closed { self.new.kept.value ≡ None }
    {
        let OrderHandle { kept, is_open } = mem::replace(self, OrderHandle::closed(alloc));
        if is_open {
            Some(kept.into_raw_box().into_box())
        } else {
            None
        }
    }

    /// Puts an order into a closed handle.
    pub(crate) fn put(&mut self, state: Box<OrderState>)
        requires closed { self.old.kept.value ≡ None }
        requires whole { is_spent state.value ≡ false }
        ensures { self.new.kept.value ≡ Some state.value }
    {
        *self = OrderHandle {
            kept: KeptOrder::of(RawBox::of(state)),
            is_open: true,
        };
    }
}
