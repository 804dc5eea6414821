//! The struct that C holds for a framer: a pointer, and what contracts know of it. Its layout is
//! that of `giop_framer` in `include/giop.h`.
ghost use Rattle.std.specs.Prelude.{◌≡◌, ◌++◌, Option, Some, None};
ghost use Rattle.std.specs.Option.{MatchOption};
ghost use Rattle.giop_c.specs.declared.reader.Reader.{Reader};

use crate::Reader;
use handle::RawBox;
use std::alloc::Global;
use std::marker::Model;
use std::{mem, ptr};

/// What a handle of C points to; C never looks into it.
#[repr(C)]
pub struct Opaque {
    unseen: u8,
}

/// A framer as C holds it.
#[repr(C)]
pub struct FramerHandle {
    at: *mut Opaque,
    alloc: Global,
    pub ghost value: { Option Reader },
}

impl Model for FramerHandle {
    ghost use Rattle.handle.specs.Held.{held_at};
    ghost use Rattle.giop_c.specs.contracts.reader.Reader.{the_row};

    ghost also_owns = { λ h. held_at h.alloc the_row h.at h.value };
}

impl FramerHandle {
    /// A handle that holds nothing.
    pub fn closed(alloc: Global) -> FramerHandle
        ensures { result.value ≡ None }
    {
        FramerHandle {
            at: ptr::null_mut(),
            alloc,
        }
    }

    fn of_raw(raw: RawBox<Reader, Global>) -> FramerHandle
        ensures { result.value ≡ Some raw.value }
    {
        let RawBox { at, alloc } = raw;
        FramerHandle {
            at: at as *mut Opaque,
            alloc,
        }
    }

    fn into_raw(self) -> Option<RawBox<Reader, Global>>
        ensures { MatchOption result (self.value ≡ None) (λ b. self.value ≡ Some b.value) }
    {
        let FramerHandle { at, alloc } = self;
        if at.is_null() {
            None
        } else {
            Some(RawBox {
                at: at as *mut Reader,
                alloc,
            })
        }
    }

    /// An open handle that owns what the box held. It takes no memory.
    pub fn of(boxed: Box<Reader>) -> FramerHandle
        ensures { result.value ≡ Some boxed.value }
    {
        FramerHandle::of_raw(RawBox::of(boxed))
    }

    /// What the handle held, or `None` for a closed one. It takes no memory.
    pub fn into_box(self) -> Option<Box<Reader>>
        ensures { MatchOption result (self.value ≡ None) (λ b. self.value ≡ Some b.value) }
    {
        match self.into_raw() {
            Some(raw) => Some(raw.into_box()),
            None => None,
        }
    }

    /// What the handle held, or `None` for a closed one. It is left closed.
    pub fn take(&mut self, alloc: Global) -> Option<Box<Reader>>
        ensures held { MatchOption result (self.old.value ≡ None)
            (λ b. self.old.value ≡ Some b.value) }
        ensures left { self.new.value ≡ None }
    {
        mem::replace(self, FramerHandle::closed(alloc)).into_box()
    }
}

// What it holds may go to another thread: see proofs/Crossing.antt.
unsafe impl Send for FramerHandle {}

impl Drop for FramerHandle {
    fn drop(self) {
        let _held = self.into_box();
    }
}
