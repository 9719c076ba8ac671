//! What a C caller holds of a session with its reply: nothing, or a box of it as its pointer.

ghost use Rattle.std.specs.Prelude.{◌≡◌, Option, None, Some, is_some, true, option_map};
ghost use Rattle.paris_c.specs.declared.contents.Contents.{Contents};

use crate::contents::Contents;
use keep::RawBox;
use std::alloc::Global;
use std::marker::Model;
use std::mem;
use std::ptr::null_mut;

/// Nothing, or a box as its pointer. Its type is another than that of the contents, since C may not be passed what points to those.
#[repr(C)]
#[derive(Drop)]
pub struct Kept {
    at: *mut u8,
    alloc: Global,
    pub ghost value: { Option Contents },
}

impl Model for Kept {
    ghost use Rattle.std.specs.contracts.impls.GlobalAllocator.TheImpl as heap;
    ghost use Rattle.paris_c.specs.contracts.contents.Contents.{the_row};
    ghost use Rattle.paris_c.specs.Holding.{holds};

    ghost also_owns = { λ h. holds (heap.ghosts.dealloc_token h.alloc) the_row h.at h.value };
}

unsafe impl Send for Kept {}

impl Kept {
    fn of(raw_box: RawBox<Contents, Global>) -> Kept
        ensures { result.value ≡ Some raw_box.value }
    {
        let RawBox { at, alloc } = raw_box;
        Kept {
            at: at as *mut u8,
            alloc,
        }
    }

    fn into_raw_box(self) -> RawBox<Contents, Global>
        requires { is_some self.value ≡ true }
        ensures { self.value ≡ Some result.value }
    {
        let Kept { at, alloc } = self;
        RawBox {
            at: at as *mut Contents,
            alloc,
        }
    }

    fn empty(at: *mut u8, alloc: Global) -> Kept
        ensures { result.value ≡ None }
    {
        Kept { at, alloc }
    }
}

/// What C holds. All zeros is a closed handle.
#[repr(C)]
#[derive(Drop)]
pub struct Handle {
    pub kept: Kept,
    pub is_open: bool,
    pub ghost agrees: { is_open ≡ is_some kept.value },
}

impl Handle {
    fn closed(alloc: Global) -> Handle
        ensures { result.kept.value ≡ None }
    {
        let at: *mut u8 = null_mut();
        let kept = Kept::empty(at, alloc);
        Handle {
            kept,
            is_open: false,
        }
    }

    /// Takes the contents, and leaves the handle closed.
    pub(crate) fn take(&mut self, alloc: Global) -> Option<Box<Contents>>
        ensures given { option_map (λ contents. contents.value) result ≡ self.old.kept.value }
        ensures closed { self.new.kept.value ≡ None }
    {
        let Handle { kept, is_open } = mem::replace(self, Handle::closed(alloc));
        if is_open {
            Some(kept.into_raw_box().into_box())
        } else {
            None
        }
    }

    /// Puts contents into a closed handle.
    pub(crate) fn put(&mut self, contents: Box<Contents>)
        requires { self.old.kept.value ≡ None }
        ensures { self.new.kept.value ≡ Some contents.value }
    {
        *self = Handle {
            kept: Kept::of(RawBox::of(contents)),
            is_open: true,
        };
    }
}
