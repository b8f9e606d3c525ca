//! The calls that make a cache and release it.
ghost use Rattle.clock2q_c.specs.Handle.{machine_in};
ghost use Rattle.clock2q_machine.specs.Machine.{empty};
ghost use Rattle.clock2q_machine.specs.Policies.{IsPolicy, shares_of, shares_with};
ghost use Rattle.clock2q_machine.specs.Shares.{usual_shares};
ghost use Rattle.std.specs.Prelude.{◌≡◌, ◌≢◌, ◌<◌, ◌≤◌, ◌↔◌, ◌⊎◌, Some, None, IsSome, IfOk, IsErrOf, IsOkUnless, Err};

use crate::handle::{Handle, opened, put};
use crate::held::Held;
use crate::status::{BAD_CAPACITY, BAD_POLICY, DONE, NO_MEMORY, status_of};
use clock2q_cache::{Cache, CacheError, DefaultHashBuilder, MAX_CAPACITY};
use std::alloc::{Allocator, Global};
use std::hash::BuildHasherDefault;
use std::num::NonZeroUsize;

/// Makes a cache for `capacity` keys, with the usual shares.
///
/// Returns [`DONE`], or why no cache was made: [`BAD_CAPACITY`], before any memory is taken, or
/// [`NO_MEMORY`], after what was taken is given back.
///
/// # Cost
///
/// Time and memory in proportion to `capacity`, in at most twelve requests for memory.
#[unsafe(no_mangle)]
pub extern "C" fn clock2q_new(alloc: Global, handle: &mut Handle, capacity: usize) -> u32
    requires { handle.old.cache ≡ None }
    ensures made { result ≡ DONE →
        machine_in handle.new.cache ≡ Some (empty (usual_shares capacity)) }
    ensures holds { IsSome handle.new.cache ↔ (result ≡ DONE) }
    ensures refused { result ≢ DONE → handle.new.cache ≡ None }
    ensures capacity { (result ≡ BAD_CAPACITY) ↔ ((capacity ≡ 0) ⊎ (MAX_CAPACITY < capacity)) }
    ensures memory { result ≢ DONE → result ≢ BAD_CAPACITY → result ≡ NO_MEMORY }
{
    match boxed(alloc, capacity) {
        Ok(cache) => {
            put(handle, cache);
            DONE
        }
        Err(refusal) => status_of(refusal),
    }
}

/// Makes a cache for `capacity` keys in which Small has `small` slots and a key is young for
/// `window` admissions.
///
/// Returns what [`clock2q_new`] does, or [`BAD_POLICY`] if the capacity is valid but Small leaves
/// Main no slot, or one of `small` and `window` is 0 and the other isn't, or the window is longer
/// than Small.
///
/// # Cost
///
/// That of [`clock2q_new`].
#[unsafe(no_mangle)]
pub extern "C" fn clock2q_with_policy(
    alloc: Global,
    handle: &mut Handle,
    capacity: usize,
    small: usize,
    window: usize,
) -> u32
    requires { handle.old.cache ≡ None }
    ensures made { result ≡ DONE →
        machine_in handle.new.cache ≡ Some (empty (shares_of capacity small window)) }
    ensures holds { IsSome handle.new.cache ↔ (result ≡ DONE) }
    ensures refused { result ≢ DONE → handle.new.cache ≡ None }
    ensures capacity { (result ≡ BAD_CAPACITY) ↔ ((capacity ≡ 0) ⊎ (MAX_CAPACITY < capacity)) }
    ensures policy { (result ≡ BAD_POLICY) ↔
        ((0 < capacity) × (capacity ≤ MAX_CAPACITY) ×
        ¬ IsPolicy (shares_of capacity small window)) }
    ensures memory { result ≢ DONE → result ≢ BAD_CAPACITY → result ≢ BAD_POLICY →
        result ≡ NO_MEMORY }
{
    match boxed_with(alloc, capacity, small, window) {
        Ok(cache) => {
            put(handle, cache);
            DONE
        }
        Err(refusal) => status_of(refusal),
    }
}

/// Makes a cache as [`clock2q_with_policy`] does, whose history remembers up to `history` evicted
/// keys in place of half the capacity.
///
/// Returns what [`clock2q_with_policy`] does, and [`BAD_POLICY`] if `history` is more than the
/// capacity too.
///
/// # Cost
///
/// That of [`clock2q_new`], with room for `history` evicted keys.
#[unsafe(no_mangle)]
pub extern "C" fn clock2q_with_history(
    alloc: Global,
    handle: &mut Handle,
    capacity: usize,
    small: usize,
    window: usize,
    history: usize,
) -> u32
    requires { handle.old.cache ≡ None }
    ensures made { result ≡ DONE →
        machine_in handle.new.cache ≡ Some (empty (shares_with capacity small window history)) }
    ensures holds { IsSome handle.new.cache ↔ (result ≡ DONE) }
    ensures refused { result ≢ DONE → handle.new.cache ≡ None }
    ensures capacity { (result ≡ BAD_CAPACITY) ↔ ((capacity ≡ 0) ⊎ (MAX_CAPACITY < capacity)) }
    ensures policy { (result ≡ BAD_POLICY) ↔
        ((0 < capacity) × (capacity ≤ MAX_CAPACITY) ×
        ¬ IsPolicy (shares_with capacity small window history)) }
    ensures memory { result ≢ DONE → result ≢ BAD_CAPACITY → result ≢ BAD_POLICY →
        result ≡ NO_MEMORY }
{
    match boxed_remembering(alloc, capacity, small, window, history) {
        Ok(cache) => {
            put(handle, cache);
            DONE
        }
        Err(refusal) => status_of(refusal),
    }
}

/// Frees a cache with all its memory, and consumes the handle.
#[unsafe(no_mangle)]
pub extern "C" fn clock2q_release(handle: Handle)
    requires { IsSome handle.cache }
{
    drop(opened(handle));
}

/// Makes a cache with the usual shares on the heap.
///
/// # Errors
///
/// `Capacity` if it is 0 or above [`MAX_CAPACITY`], before any memory is taken. `Memory` if a
/// request is refused; what was taken is given back.
pub(crate) fn boxed<A: Allocator + Copy>(
    alloc: A,
    capacity: usize,
) -> Result<Box<Held<A>, A>, CacheError>
    ensures made { IfOk result (λ made. made.value.cache.machine ≡ empty (usual_shares capacity)) }
    ensures capacity { IsErrOf result CacheError.Capacity ↔
        ((capacity ≡ 0) ⊎ (MAX_CAPACITY < capacity)) }
    ensures policy { result ≢ Err CacheError.Policy }
{
    let Some(capacity) = NonZeroUsize::new(capacity) else {
        return Err(CacheError::Capacity);
    };
    in_box(alloc, Cache::new(alloc, capacity)?)
}

/// Makes a cache with these shares on the heap.
///
/// # Errors
///
/// Those of [`boxed`], and `Policy` if the capacity is valid but the shares don't fit, before any
/// memory is taken.
pub(crate) fn boxed_with<A: Allocator + Copy>(
    alloc: A,
    capacity: usize,
    small: usize,
    window: usize,
) -> Result<Box<Held<A>, A>, CacheError>
    ensures made { IfOk result
        (λ made. made.value.cache.machine ≡ empty (shares_of capacity small window)) }
    ensures capacity { IsErrOf result CacheError.Capacity ↔
        ((capacity ≡ 0) ⊎ (MAX_CAPACITY < capacity)) }
    ensures policy { IsErrOf result CacheError.Policy ↔
        ((0 < capacity) × (capacity ≤ MAX_CAPACITY) ×
        ¬ IsPolicy (shares_of capacity small window)) }
{
    let Some(capacity) = NonZeroUsize::new(capacity) else {
        return Err(CacheError::Capacity);
    };
    let hasher = BuildHasherDefault::new();
    in_box(
        alloc,
        Cache::with_policy(alloc, capacity, small, window, hasher)?,
    )
}

/// Makes a cache with these shares and this history on the heap.
///
/// # Errors
///
/// Those of [`boxed_with`].
pub(crate) fn boxed_remembering<A: Allocator + Copy>(
    alloc: A,
    capacity: usize,
    small: usize,
    window: usize,
    history: usize,
) -> Result<Box<Held<A>, A>, CacheError>
    ensures made { IfOk result
        (λ made. made.value.cache.machine ≡ empty (shares_with capacity small window history)) }
    ensures capacity { IsErrOf result CacheError.Capacity ↔
        ((capacity ≡ 0) ⊎ (MAX_CAPACITY < capacity)) }
    ensures policy { IsErrOf result CacheError.Policy ↔
        ((0 < capacity) × (capacity ≤ MAX_CAPACITY) ×
        ¬ IsPolicy (shares_with capacity small window history)) }
{
    let Some(capacity) = NonZeroUsize::new(capacity) else {
        return Err(CacheError::Capacity);
    };
    let hasher = BuildHasherDefault::new();
    in_box(
        alloc,
        Cache::with_history(alloc, capacity, small, window, history, hasher)?,
    )
}

/// Puts a cache on the heap. If there is no memory for that, it frees the cache.
fn in_box<A: Allocator>(
    alloc: A,
    cache: Cache<usize, (), DefaultHashBuilder, A>,
) -> Result<Box<Held<A>, A>, CacheError>
    ensures made { IfOk result (λ made. made.value.cache ≡ cache) }
    ensures memory { IsOkUnless result CacheError.Memory }
{
    match Box::new(alloc, Held { cache }) {
        Ok(made) => Ok(made),
        Err(_) => Err(CacheError::Memory),
    }
}
