//! What a C caller holds of a seat: nothing, or a box of it as its pointer.

ghost use Rattle.std.specs.Prelude.{◌≡◌, Option, None, Some, is_some, true, option_map};
ghost use Rattle.paris_c.specs.declared.seating.SeatContents.{SeatContents};

use crate::seating::SeatContents;
use keep::RawBox;
use std::alloc::Global;
use std::marker::Model;
use std::mem;
use std::ptr::null_mut;

/// Nothing, or a box as its pointer. Its type is another than that of the contents, since C may not be passed what points to those.
#[repr(C)]
#[derive(Drop)]
pub struct KeptSeat {
    at: *mut u8,
    alloc: Global,
    pub ghost value: { Option SeatContents },
}

impl Model for KeptSeat {
    ghost use Rattle.std.specs.contracts.impls.GlobalAllocator.TheImpl as heap;
    ghost use Rattle.paris_c.specs.contracts.seating.SeatContents.{the_row};
    ghost use Rattle.paris_c.specs.Holding.{holds};

    ghost also_owns = { λ h. holds (heap.ghosts.dealloc_token h.alloc) the_row h.at h.value };
}

unsafe impl Send for KeptSeat {}

impl KeptSeat {
    fn of(raw_box: RawBox<SeatContents, Global>) -> KeptSeat
        ensures { result.value ≡ Some raw_box.value }
    {
        let RawBox { at, alloc } = raw_box;
        KeptSeat {
            at: at as *mut u8,
            alloc,
        }
    }

    fn into_raw_box(self) -> RawBox<SeatContents, Global>
        requires { is_some self.value ≡ true }
        ensures { self.value ≡ Some result.value }
    {
        let KeptSeat { at, alloc } = self;
        RawBox {
            at: at as *mut SeatContents,
            alloc,
        }
    }

    fn empty(at: *mut u8, alloc: Global) -> KeptSeat
        ensures { result.value ≡ None }
    {
        KeptSeat { at, alloc }
    }
}

/// What C holds. All zeros is a closed handle.
#[repr(C)]
#[derive(Drop)]
pub struct SeatHandle {
    pub kept: KeptSeat,
    pub is_open: bool,
    pub ghost agrees: { is_open ≡ is_some kept.value },
}

impl SeatHandle {
    fn closed(alloc: Global) -> SeatHandle
        ensures { result.kept.value ≡ None }
    {
        let at: *mut u8 = null_mut();
        let kept = KeptSeat::empty(at, alloc);
        SeatHandle {
            kept,
            is_open: false,
        }
    }

    /// Takes the contents, and leaves the handle closed.
    pub(crate) fn take(&mut self, alloc: Global) -> Option<Box<SeatContents>>
        ensures given { option_map (λ contents. contents.value) result ≡ self.old.kept.value }
        ensures closed { self.new.kept.value ≡ None }
    {
        let SeatHandle { kept, is_open } = mem::replace(self, SeatHandle::closed(alloc));
        if is_open {
            Some(kept.into_raw_box().into_box())
        } else {
            None
        }
    }

    /// Puts contents into a closed handle.
    pub(crate) fn put(&mut self, contents: Box<SeatContents>)
        requires { self.old.kept.value ≡ None }
        ensures { self.new.kept.value ≡ Some contents.value }
    {
        *self = SeatHandle {
            kept: KeptSeat::of(RawBox::of(contents)),
            is_open: true,
        };
    }
}
