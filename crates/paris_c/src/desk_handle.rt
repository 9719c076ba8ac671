//! What a C caller holds of a desk: nothing, or a box of it as its pointer.

ghost use Rattle.std.specs.Prelude.{◌≡◌, Option, None, Some, is_some, true, option_map};
ghost use Rattle.paris_c.specs.declared.seating.DeskContents.{DeskContents};

use crate::seating::DeskContents;
use keep::RawBox;
use std::alloc::Global;
use std::marker::Model;
use std::mem;
use std::ptr::null_mut;

/// Nothing, or a box as its pointer. Its type is another than that of the contents, since C may not be passed what points to those.
#[repr(C)]
#[derive(Drop)]
pub struct KeptDesk {
    at: *mut u8,
    alloc: Global,
    pub ghost value: { Option DeskContents },
}

impl Model for KeptDesk {
    ghost use Rattle.std.specs.contracts.impls.GlobalAllocator.TheImpl as heap;
    ghost use Rattle.paris_c.specs.contracts.seating.DeskContents.{the_row};
    ghost use Rattle.paris_c.specs.Holding.{holds};

    ghost also_owns = { λ h. holds (heap.ghosts.dealloc_token h.alloc) the_row h.at h.value };
}

unsafe impl Send for KeptDesk {}

impl KeptDesk {
    fn of(raw_box: RawBox<DeskContents, Global>) -> KeptDesk
        ensures { result.value ≡ Some raw_box.value }
    {
        let RawBox { at, alloc } = raw_box;
        KeptDesk {
            at: at as *mut u8,
            alloc,
        }
    }

    fn into_raw_box(self) -> RawBox<DeskContents, Global>
        requires { is_some self.value ≡ true }
        ensures { self.value ≡ Some result.value }
    {
        let KeptDesk { at, alloc } = self;
        RawBox {
            at: at as *mut DeskContents,
            alloc,
        }
    }

    fn empty(at: *mut u8, alloc: Global) -> KeptDesk
        ensures { result.value ≡ None }
    {
        KeptDesk { at, alloc }
    }
}

/// What C holds. All zeros is a closed handle.
#[repr(C)]
#[derive(Drop)]
pub struct DeskHandle {
    pub kept: KeptDesk,
    pub is_open: bool,
    pub ghost agrees: { is_open ≡ is_some kept.value },
}

impl DeskHandle {
    fn closed(alloc: Global) -> DeskHandle
        ensures { result.kept.value ≡ None }
    {
        let at: *mut u8 = null_mut();
        let kept = KeptDesk::empty(at, alloc);
        DeskHandle {
            kept,
            is_open: false,
        }
    }

    /// Takes the contents, and leaves the handle closed.
    pub(crate) fn take(&mut self, alloc: Global) -> Option<Box<DeskContents>>
        ensures given { option_map (λ contents. contents.value) result ≡ self.old.kept.value }
        ensures closed { self.new.kept.value ≡ None }
    {
        let DeskHandle { kept, is_open } = mem::replace(self, DeskHandle::closed(alloc));
        if is_open {
            Some(kept.into_raw_box().into_box())
        } else {
            None
        }
    }

    /// Puts contents into a closed handle.
    pub(crate) fn put(&mut self, contents: Box<DeskContents>)
        requires { self.old.kept.value ≡ None }
        ensures { self.new.kept.value ≡ Some contents.value }
    {
        *self = DeskHandle {
            kept: KeptDesk::of(RawBox::of(contents)),
            is_open: true,
        };
    }
}
