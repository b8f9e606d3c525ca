//! The calls that change no key's slot and record no hit.
ghost use Rattle.clock2q_c.specs.Handle.{machine_in};
ghost use Rattle.clock2q_cache.specs.Costs.{LooksAhead};
ghost use Rattle.clock2q_machine.specs.Calls.{Evict};
ghost use Rattle.clock2q_machine.specs.Leaving.{leaver, next_victim};
ghost use Rattle.clock2q_machine.specs.Machine.{resident_count, vacancy};
ghost use Rattle.clock2q_pages.specs.Pages.{resident_frame};
ghost use Rattle.std.specs.Option.{unwrap_or};
ghost use Rattle.std.specs.Prelude.{◌≡◌, ◌↔◌, eqb, if◌then◌else◌, false, None, Some, IsSome, IsTrue, IfSome};

use crate::calls::{Found, Place};
use crate::handle::Handle;
use clock2q_cache::DefaultHashBuilder;
use std::hash::{BuildHasher, FoldHasher, Hash, Hasher};

/// Returns true if the key has a slot. It records no hit.
///
/// # Cost
///
/// That of `Cache::contains`.
#[unsafe(no_mangle)]
pub extern "C" fn clock2q_contains(handle: &mut Handle, key: usize) -> bool
    requires { IsSome handle.old.cache }
    ensures resident { IfSome (machine_in handle.old.cache)
        (λ m. IsTrue result ↔ IsSome (resident_frame m key)) }
    ensures same { handle.new.cache ≡ handle.old.cache }
{
    handle.held().cache.contains(&key)
}

/// Returns the slot of a key, if the key has one. It records no hit.
///
/// # Cost
///
/// That of `Cache::peek_slot`.
#[unsafe(no_mangle)]
pub extern "C" fn clock2q_peek_key(handle: &mut Handle, key: usize) -> Found
    requires { IsSome handle.old.cache }
    ensures resident { IfSome (machine_in handle.old.cache)
        (λ m. IsTrue result.is_found ↔ IsSome (resident_frame m key)) }
    ensures slot { IfSome (machine_in handle.old.cache)
        (λ m. result.slot ≡ unwrap_or (resident_frame m key) 0) }
    ensures same { handle.new.cache ≡ handle.old.cache }
{
    match handle.held().cache.peek_slot(&key) {
        Some(slot) => Found {
            slot,
            is_found: true,
        },
        None => Found {
            slot: 0,
            is_found: false,
        },
    }
}

/// Returns the place of the key that leaves next: its slot, and itself as the key that has it. If no key
/// has a slot, returns a place whose parts are all 0 and false.
///
/// # Cost
///
/// That of `Cache::next_victim`: no hash.
#[unsafe(no_mangle)]
pub extern "C" fn clock2q_next_victim(handle: &mut Handle) -> Place
    requires { IsSome handle.old.cache }
    ensures left { IfSome (machine_in handle.old.cache)
        (λ m. leaver eqb Evict m ≡
        (if result.has_last then Some (result.last, result.slot) else None)) }
    ensures unknown { IfSome (machine_in handle.old.cache)
        (λ m. vacancy m ≡ None →
        next_victim m ≡ (if result.has_last then Some (result.last, result.slot) else None)) }
    ensures stays { result.evicted ≡ false }
    ensures slot { result.has_last ≡ false → result.slot ≡ 0 }
    ensures which { result.has_last ≡ false → result.last ≡ 0 }
    ensures machine { machine_in handle.new.cache ≡ machine_in handle.old.cache }
    ensures looks { IfSome handle.old.cache
        (λ o. IfSome handle.new.cache
        (λ n. LooksAhead ⟦<usize as Hash>⟧ ⟦<DefaultHashBuilder as BuildHasher>⟧ ⟦<FoldHasher as Hasher>⟧
        o.cache n.cache)) }
    ensures holds { IsSome handle.new.cache }
{
    match handle.held().cache.next_victim() {
        Some((key, slot)) => Place {
            slot,
            last: *key,
            has_last: true,
            evicted: false,
        },
        None => Place {
            slot: 0,
            last: 0,
            has_last: false,
            evicted: false,
        },
    }
}

/// Returns the number of keys that have a slot.
#[unsafe(no_mangle)]
pub extern "C" fn clock2q_len(handle: &mut Handle) -> usize
    requires { IsSome handle.old.cache }
    ensures count { IfSome (machine_in handle.old.cache) (λ m. result ≡ resident_count m) }
    ensures same { handle.new.cache ≡ handle.old.cache }
{
    handle.held().cache.len()
}

/// Returns the number of keys that can have a slot.
#[unsafe(no_mangle)]
pub extern "C" fn clock2q_capacity(handle: &mut Handle) -> usize
    requires { IsSome handle.old.cache }
    ensures capacity { IfSome (machine_in handle.old.cache) (λ m. result ≡ m.shares.capacity) }
    ensures same { handle.new.cache ≡ handle.old.cache }
{
    handle.held().cache.capacity()
}
