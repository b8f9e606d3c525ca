//! The handle that C holds.
ghost use Rattle.clock2q_c.specs.Handle.{HeldInC, held_coded};
ghost use Rattle.std.specs.Prelude.{◌≡◌, IsSome, None, Option, Some};

use crate::held::Held;
use crate::unboxed::Unboxed;
use std::alloc::Global;
use std::marker::Model;
use std::mem;

/// The pointer to a cache, or null if there is none. Nothing drops it.
#[repr(C)]
pub struct Handle {
    pointer: *mut u8,
    alloc: Global,
    pub(crate) ghost cache: { Option HeldInC } by { held_coded },
}

impl Model for Handle {
    ghost use Rattle.clock2q_c.specs.Handle.{handle_owns};

    ghost also_owns = { λ h. handle_owns h.alloc h.pointer h.cache };
}

impl Handle {
    ghost use Rattle.clock2q_c.specs.Lends.{LendsHeld};
    ghost use Rattle.std.specs.Borrow.{sem};

    /// Returns a handle without a cache, like `CLOCK2Q_NONE`. For tests: C makes its own.
    pub fn none(alloc: Global) -> Handle
        ensures { result.cache ≡ None }
    {
        Handle {
            pointer: std::ptr::null_mut(),
            alloc,
        }
    }

    /// Returns a handle to what was in the box.
    pub(crate) fn close(held: Unboxed<Held<Global>, Global>) -> Handle
        ensures { result.cache ≡ Some held.value }
    {
        let Unboxed { pointer, alloc } = held;
        Handle {
            pointer: pointer as *mut u8,
            alloc,
        }
    }

    /// Returns what the handle points to.
    pub(crate) fn open(self) -> Unboxed<Held<Global>, Global>
        requires { IsSome self.cache }
        ensures { Some result.value ≡ self.cache }
    {
        let Handle { pointer, alloc } = self;
        Unboxed {
            pointer: pointer as *mut Held<Global>,
            alloc,
        }
    }

    /// Returns a reference to what the handle points to. It writes nothing.
    pub(crate) fn held(&mut self) -> &mut Held<Global>
        requires { IsSome self.old.cache }
        ensures* writes_back { sem 𝓛 (LendsHeld self.entry result) }
        ensures value { Some result.now ≡ self.old.cache }
    {
        unsafe { &mut *(self.pointer as *mut Held<Global>) }
    }

    /// Discards a handle without a cache.
    pub(crate) fn discard(self)
        requires { self.cache ≡ None }
    {
        let Handle {
            pointer: _,
            alloc: _,
        } = self;
    }
}

/// Takes the cache out of a handle that C gives up.
pub(crate) fn opened(handle: Handle) -> Box<Held<Global>>
    requires { IsSome handle.cache }
    ensures { Some result.value ≡ handle.cache }
{
    handle.open().into_box()
}

/// Puts a cache into a handle without one.
pub(crate) fn put(handle: &mut Handle, cache: Box<Held<Global>>)
    requires { handle.old.cache ≡ None }
    ensures { handle.new.cache ≡ Some cache.value }
{
    mem::replace(handle, Handle::close(Unboxed::of(cache))).discard();
}
