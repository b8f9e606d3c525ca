//! The calls that raise the capacity of a cache.
ghost use Rattle.clock2q_c.specs.Handle.{machine_in};
ghost use Rattle.clock2q_machine.specs.Growth.{IsAtLeast, grown};
ghost use Rattle.clock2q_machine.specs.Policies.{IsPolicy, shares_with};
ghost use Rattle.clock2q_machine.specs.Shares.{usual_shares};
ghost use Rattle.std.specs.Option.{option_map};
ghost use Rattle.std.specs.Prelude.{◌≡◌, ◌≢◌, ◌<◌, ◌≤◌, ◌↔◌, ◌⊎◌, IsSome, IfSome};

use crate::handle::Handle;
use crate::status::{BAD_CAPACITY, BAD_POLICY, DONE, NO_MEMORY, status_of};
use clock2q_cache::MAX_CAPACITY;
use std::num::NonZeroUsize;

/// Raises the capacity to `capacity` keys, with the usual shares. No key leaves its slot, and what is
/// remembered stays so.
///
/// Returns [`DONE`], or why the cache is as it was: [`BAD_CAPACITY`], [`BAD_POLICY`] if a share would be
/// smaller than it is, or [`NO_MEMORY`].
///
/// # Cost
///
/// That of `Cache::grow`.
#[unsafe(no_mangle)]
pub extern "C" fn clock2q_grow(handle: &mut Handle, capacity: usize) -> u32
    requires { IsSome handle.old.cache }
    ensures grown { result ≡ DONE →
        machine_in handle.new.cache ≡ option_map (grown (usual_shares capacity)) (machine_in handle.old.cache) }
    ensures refused { result ≢ DONE → handle.new.cache ≡ handle.old.cache }
    ensures capacity { (result ≡ BAD_CAPACITY) ↔ ((capacity ≡ 0) ⊎ (MAX_CAPACITY < capacity)) }
    ensures policy { IfSome (machine_in handle.old.cache) (λ m. (result ≡ BAD_POLICY) ↔
        ((0 < capacity) × (capacity ≤ MAX_CAPACITY) × ¬ IsAtLeast m.shares (usual_shares capacity))) }
    ensures memory { result ≢ DONE → result ≢ BAD_CAPACITY → result ≢ BAD_POLICY →
        result ≡ NO_MEMORY }
    ensures holds { IsSome handle.new.cache }
{
    let Some(capacity) = NonZeroUsize::new(capacity) else {
        return BAD_CAPACITY;
    };
    match handle.held().cache.grow(capacity) {
        Ok(()) => DONE,
        Err(refusal) => status_of(refusal),
    }
}

/// Raises the capacity to `capacity` keys, with these shares, as
/// [`clock2q_with_history`](crate::clock2q_with_history) has them.
///
/// Returns what [`clock2q_grow`] does, and [`BAD_POLICY`] if the shares don't fit together too.
///
/// # Cost
///
/// That of [`clock2q_grow`].
#[unsafe(no_mangle)]
pub extern "C" fn clock2q_grow_with_history(
    handle: &mut Handle,
    capacity: usize,
    small: usize,
    window: usize,
    history: usize,
) -> u32
    requires { IsSome handle.old.cache }
    ensures grown { result ≡ DONE →
        machine_in handle.new.cache ≡
        option_map (grown (shares_with capacity small window history)) (machine_in handle.old.cache) }
    ensures refused { result ≢ DONE → handle.new.cache ≡ handle.old.cache }
    ensures capacity { (result ≡ BAD_CAPACITY) ↔ ((capacity ≡ 0) ⊎ (MAX_CAPACITY < capacity)) }
    ensures policy { IfSome (machine_in handle.old.cache) (λ m. (result ≡ BAD_POLICY) ↔
        ((0 < capacity) × (capacity ≤ MAX_CAPACITY) ×
        ¬ (IsPolicy (shares_with capacity small window history) ×
        IsAtLeast m.shares (shares_with capacity small window history)))) }
    ensures memory { result ≢ DONE → result ≢ BAD_CAPACITY → result ≢ BAD_POLICY →
        result ≡ NO_MEMORY }
    ensures holds { IsSome handle.new.cache }
{
    let Some(capacity) = NonZeroUsize::new(capacity) else {
        return BAD_CAPACITY;
    };
    let cache = &mut handle.held().cache;
    match cache.grow_with_history(capacity, small, window, history) {
        Ok(()) => DONE,
        Err(refusal) => status_of(refusal),
    }
}
