//! The struct that C holds for a server's end: a pointer, and what contracts know of it. Its layout
//! is that of `giop_server` in `include/giop.h`.
ghost use Rattle.std.specs.Prelude.{◌≡◌, ◌++◌, Option, Some, None};
ghost use Rattle.std.specs.Coded.{coded_option};
ghost use Rattle.std.specs.Option.{MatchOption};
ghost use Rattle.giop_c.specs.contracts.server.served.Served.{the_row};
ghost use Rattle.giop_c.specs.declared.server.served.Served.{Served};

use crate::framer_handle::Opaque;
use crate::server::served::Served;
use handle::RawBox;
use std::alloc::Global;
use std::marker::Model;
use std::{mem, ptr};

/// A server's end as C holds it.
#[repr(C)]
pub struct ServerHandle {
    at: *mut Opaque,
    alloc: Global,
    pub ghost value: { Option Served } by { coded_option the_row.coded },
}

impl Model for ServerHandle {
    ghost use Rattle.handle.specs.Held.{held_at};
    ghost use Rattle.giop_c.specs.contracts.server.served.Served.{the_row};

    ghost also_owns = { λ h. held_at h.alloc the_row h.at h.value };
}

impl ServerHandle {
    /// A handle that holds nothing.
    pub fn closed(alloc: Global) -> ServerHandle
        ensures { result.value ≡ None }
    {
        ServerHandle {
            at: ptr::null_mut(),
            alloc,
        }
    }

    fn of_raw(raw: RawBox<Served, Global>) -> ServerHandle
        ensures { result.value ≡ Some raw.value }
    {
        let RawBox { at, alloc } = raw;
        ServerHandle {
            at: at as *mut Opaque,
            alloc,
        }
    }

    fn into_raw(self) -> Option<RawBox<Served, Global>>
        ensures { MatchOption result (self.value ≡ None) (λ b. self.value ≡ Some b.value) }
    {
        let ServerHandle { at, alloc } = self;
        if at.is_null() {
            None
        } else {
            Some(RawBox {
                at: at as *mut Served,
                alloc,
            })
        }
    }

    /// An open handle that owns what the box held. It takes no memory.
    pub fn of(boxed: Box<Served>) -> ServerHandle
        ensures { result.value ≡ Some boxed.value }
    {
        ServerHandle::of_raw(RawBox::of(boxed))
    }

    /// What the handle held, or `None` for a closed one. It takes no memory.
    pub fn into_box(self) -> Option<Box<Served>>
        ensures { MatchOption result (self.value ≡ None) (λ b. self.value ≡ Some b.value) }
    {
        match self.into_raw() {
            Some(raw) => Some(raw.into_box()),
            None => None,
        }
    }

    /// What the handle held, or `None` for a closed one. It is left closed.
    pub fn take(&mut self, alloc: Global) -> Option<Box<Served>>
        ensures held { MatchOption result (self.old.value ≡ None)
            (λ b. self.old.value ≡ Some b.value) }
        ensures left { self.new.value ≡ None }
    {
        mem::replace(self, ServerHandle::closed(alloc)).into_box()
    }
}

// What it holds may go to another thread: see proofs/EndsCrossing.antt.
unsafe impl Send for ServerHandle {}

impl Drop for ServerHandle {
    fn drop(self) {
        let _held = self.into_box();
    }
}
