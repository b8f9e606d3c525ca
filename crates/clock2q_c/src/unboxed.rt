//! A box taken apart.
ghost use Rattle.std.specs.Prelude.{◌≡◌};
ghost use Rattle.std.specs.Box.Ownership.{box_owns};

use std::alloc::Allocator;
use std::marker::Model;

/// The pointer of a box and its allocator, which together own what the box did.
pub(crate) struct Unboxed<T, A: Allocator> {
    pub(crate) pointer: *mut T,
    pub(crate) alloc: A,
    pub(crate) ghost value: { T },
}

impl<T, A: Allocator> Model for Unboxed<T, A> {
    ghost also_owns = { λ u. box_owns (A.dealloc_token u.alloc) T.row u.pointer u.value };
}

impl<T: Drop, A: Allocator> Unboxed<T, A> {
    /// Takes a box apart.
    pub(crate) fn of(whole: Box<T, A>) -> Unboxed<T, A>
        ensures { result.value ≡ whole.value }
    {
        let (pointer, alloc) = Box::into_raw_with_allocator(whole);
        Unboxed { pointer, alloc }
    }

    /// Puts the box together again.
    pub(crate) fn into_box(self) -> Box<T, A>
        ensures { result.value ≡ self.value }
    {
        let Unboxed { pointer, alloc } = self;
        unsafe { Box::from_raw(alloc, pointer) }
    }
}
