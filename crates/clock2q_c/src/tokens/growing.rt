//! The calls that raise the capacity of a cache of tokens.
ghost use Rattle.clock2q_c.specs.Tokens.{tokens_in};
ghost use Rattle.clock2q_machine.specs.Growth.{IsAtLeast, grown};
ghost use Rattle.clock2q_machine.specs.Policies.{IsPolicy, shares_with};
ghost use Rattle.clock2q_machine.specs.Shares.{usual_shares};
ghost use Rattle.std.specs.Option.{option_map};
ghost use Rattle.std.specs.Prelude.{◌≡◌, ◌≢◌, ◌<◌, ◌≤◌, ◌↔◌, ◌⊎◌, IsSome, IfSome};

use crate::status::{BAD_CAPACITY, BAD_POLICY, DONE, NO_MEMORY, status_of};
use crate::tokens::handle::TokensHandle;
use clock2q_cache::MAX_CAPACITY;
use std::num::NonZeroUsize;

/// Raises the capacity to `capacity` tokens, with the usual shares. No token leaves its slot, and what is
/// remembered stays so.
///
/// Returns [`DONE`], or why the cache is as it was: [`BAD_CAPACITY`], [`BAD_POLICY`] if a share would be
/// smaller than it is, or [`NO_MEMORY`].
///
/// # Cost
///
/// That of `Cache::grow`.
#[unsafe(no_mangle)]
pub extern "C" fn clock2q_tokens_grow(handle: &mut TokensHandle, capacity: usize) -> u32
    requires { IsSome handle.old.cache }
    ensures grown { result ≡ DONE →
        tokens_in handle.new.cache ≡ option_map (grown (usual_shares capacity)) (tokens_in handle.old.cache) }
    ensures refused { result ≢ DONE → handle.new.cache ≡ handle.old.cache }
    ensures capacity { (result ≡ BAD_CAPACITY) ↔ ((capacity ≡ 0) ⊎ (MAX_CAPACITY < capacity)) }
    ensures policy { IfSome (tokens_in handle.old.cache) (λ m. (result ≡ BAD_POLICY) ↔
        ((0 < capacity) × (capacity ≤ MAX_CAPACITY) × ¬ IsAtLeast m.shares (usual_shares capacity))) }
    ensures memory { result ≢ DONE → result ≢ BAD_CAPACITY → result ≢ BAD_POLICY →
        result ≡ NO_MEMORY }
    ensures holds { IsSome handle.new.cache }
{
    let Some(capacity) = NonZeroUsize::new(capacity) else {
        return BAD_CAPACITY;
    };
    match handle.held().cache.grow(capacity) {
        Ok(()) => DONE,
        Err(refusal) => status_of(refusal),
    }
}

/// Raises the capacity to `capacity` tokens, with these shares, as
/// [`clock2q_tokens_with_history`](crate::tokens::clock2q_tokens_with_history) has them.
///
/// Returns what [`clock2q_tokens_grow`] does, and [`BAD_POLICY`] if the shares don't fit together too.
///
/// # Cost
///
/// That of [`clock2q_tokens_grow`].
#[unsafe(no_mangle)]
pub extern "C" fn clock2q_tokens_grow_with_history(
    handle: &mut TokensHandle,
    capacity: usize,
    small: usize,
    window: usize,
    history: usize,
) -> u32
    requires { IsSome handle.old.cache }
    ensures grown { result ≡ DONE →
        tokens_in handle.new.cache ≡
        option_map (grown (shares_with capacity small window history)) (tokens_in handle.old.cache) }
    ensures refused { result ≢ DONE → handle.new.cache ≡ handle.old.cache }
    ensures capacity { (result ≡ BAD_CAPACITY) ↔ ((capacity ≡ 0) ⊎ (MAX_CAPACITY < capacity)) }
    ensures policy { IfSome (tokens_in handle.old.cache) (λ m. (result ≡ BAD_POLICY) ↔
        ((0 < capacity) × (capacity ≤ MAX_CAPACITY) ×
        ¬ (IsPolicy (shares_with capacity small window history) ×
        IsAtLeast m.shares (shares_with capacity small window history)))) }
    ensures memory { result ≢ DONE → result ≢ BAD_CAPACITY → result ≢ BAD_POLICY →
        result ≡ NO_MEMORY }
    ensures holds { IsSome handle.new.cache }
{
    let Some(capacity) = NonZeroUsize::new(capacity) else {
        return BAD_CAPACITY;
    };
    let cache = &mut handle.held().cache;
    match cache.grow_with_history(capacity, small, window, history) {
        Ok(()) => DONE,
        Err(refusal) => status_of(refusal),
    }
}
