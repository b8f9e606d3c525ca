//! The handle of tokens that C holds.
ghost use Rattle.clock2q_c.specs.Tokens.{TokensInC, tokens_coded};
ghost use Rattle.std.specs.Prelude.{◌≡◌, IsSome, None, Option, Some};

use crate::tokens::held::HeldTokens;
use crate::unboxed::Unboxed;
use std::alloc::Global;
use std::marker::Model;
use std::mem;

/// The pointer to a cache of tokens, or null if there is none. Nothing drops it.
#[repr(C)]
pub struct TokensHandle {
    pointer: *mut u8,
    alloc: Global,
    pub(crate) ghost cache: { Option TokensInC } by { tokens_coded },
}

impl Model for TokensHandle {
    ghost use Rattle.clock2q_c.specs.Tokens.{tokens_own};

    ghost also_owns = { λ h. tokens_own h.alloc h.pointer h.cache };
}

impl TokensHandle {
    ghost use Rattle.clock2q_c.specs.TokensLends.{LendsTokens};
    ghost use Rattle.std.specs.Borrow.{sem};

    /// Returns a handle without a cache, like `CLOCK2Q_TOKENS_NONE`. For tests: C makes its own.
    pub fn none(alloc: Global) -> TokensHandle
        ensures { result.cache ≡ None }
    {
        TokensHandle {
            pointer: std::ptr::null_mut(),
            alloc,
        }
    }

    /// Returns a handle to what was in the box.
    pub(crate) fn close(held: Unboxed<HeldTokens<Global>, Global>) -> TokensHandle
        ensures { result.cache ≡ Some held.value }
    {
        let Unboxed { pointer, alloc } = held;
        TokensHandle {
            pointer: pointer as *mut u8,
            alloc,
        }
    }

    /// Returns what the handle points to.
    pub(crate) fn open(self) -> Unboxed<HeldTokens<Global>, Global>
        requires { IsSome self.cache }
        ensures { Some result.value ≡ self.cache }
    {
        let TokensHandle { pointer, alloc } = self;
        Unboxed {
            pointer: pointer as *mut HeldTokens<Global>,
            alloc,
        }
    }

    /// Returns a reference to what the handle points to. It writes nothing.
    pub(crate) fn held(&mut self) -> &mut HeldTokens<Global>
        requires { IsSome self.old.cache }
        ensures* writes_back { sem 𝓛 (LendsTokens self.entry result) }
        ensures value { Some result.now ≡ self.old.cache }
    {
        unsafe { &mut *(self.pointer as *mut HeldTokens<Global>) }
    }

    /// Discards a handle without a cache.
    pub(crate) fn discard(self)
        requires { self.cache ≡ None }
    {
        let TokensHandle {
            pointer: _,
            alloc: _,
        } = self;
    }
}

/// Takes the cache out of a handle that C gives up.
pub(crate) fn opened(handle: TokensHandle) -> Box<HeldTokens<Global>>
    requires { IsSome handle.cache }
    ensures { Some result.value ≡ handle.cache }
{
    handle.open().into_box()
}

/// Puts a cache into a handle without one.
pub(crate) fn put(handle: &mut TokensHandle, cache: Box<HeldTokens<Global>>)
    requires { handle.old.cache ≡ None }
    ensures { handle.new.cache ≡ Some cache.value }
{
    mem::replace(handle, TokensHandle::close(Unboxed::of(cache))).discard();
}
