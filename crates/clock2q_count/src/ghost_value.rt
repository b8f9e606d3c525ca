ghost use Rattle.std.specs.Borrow.{ftrue};
ghost use Rattle.std.specs.Prelude.{◌≡◌};

use std::marker::{Model, PhantomData};

/// A value of type `T` that only contracts can see. It takes no bytes, and no code can read it.
///
/// The proof of each call picks the value. It may depend on what the call's argument refers to.
///
/// # Example
///
/// A [Count](crate::Count) is one of these over a number:
///
/// ```
/// struct Count {
///     ticks: GhostValue<usize>,
/// }
///
/// self.ticks.set(&());
/// ```
#[derive(Drop)]
pub struct GhostValue<T> {
    of: PhantomData<T>,
    pub ghost value: { T },
}

impl<T> Model for GhostValue<T> {
    ghost also_owns = { λ _. ftrue };
}

impl<T> GhostValue<T> {
    /// Returns a `GhostValue` with the picked value.
    pub fn new<X>(_seen: &X) -> GhostValue<T>
        ghost picked: { T }
        ensures value { result.value ≡ picked }
    {
        GhostValue { of: PhantomData }
    }

    /// Replaces the value with the picked one.
    pub fn set<X>(&mut self, seen: &X)
        ghost picked: { T }
        ensures value { self.new.value ≡ picked }
    {
        *self = GhostValue::new(seen);
    }
}

unsafe impl<T> Send for GhostValue<T> {}

unsafe impl<T> Sync for GhostValue<T> {}
