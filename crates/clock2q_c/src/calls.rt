//! The calls that find, give and free a key's slot.
ghost use Rattle.clock2q_c.specs.Handle.{machine_in};
ghost use Rattle.clock2q_c.specs.Holders.{holder, occupied_by};
ghost use Rattle.clock2q_cache.specs.Costs.{Costs};
ghost use Rattle.clock2q_cache.specs.Occupants.{evicted_from};
ghost use Rattle.clock2q_machine.specs.Calls.{Clear, Get, GetAt, Put, Remove, SlotFor};
ghost use Rattle.clock2q_machine.specs.Leaving.{leaver};
ghost use Rattle.clock2q_machine.specs.Machine.{cleared, hit, removed};
ghost use Rattle.clock2q_machine.specs.Steps.{hit_at, put};
ghost use Rattle.clock2q_pages.specs.Pages.{resident_frame};
ghost use Rattle.std.specs.Option.{option_map, unwrap_or};
ghost use Rattle.std.specs.Prelude.{◌≡◌, ◌<◌, ◌↔◌, eqb, if◌then◌else◌, None, Some, IsSome, IsTrue, IfSome, is_some};

use crate::handle::Handle;
use clock2q_cache::{DefaultHashBuilder, Occupant};
use clock2q_pages::{find, is_in};
use std::hash::{BuildHasher, FoldHasher, Hash, Hasher};

/// A key's slot, and which key had that slot until now.
#[repr(C)]
#[derive(Drop)]
pub struct Place {
    /// Below the capacity.
    pub slot: usize,
    /// The key that had the slot until now, which may be the same one, or 0.
    pub last: usize,
    /// Whether there was one.
    pub has_last: bool,
    /// Whether it lost the slot.
    pub evicted: bool,
}

/// The slot of a key, if it has one.
#[repr(C)]
#[derive(Drop)]
pub struct Found {
    /// The slot, or 0.
    pub slot: usize,
    /// Whether the key has one.
    pub is_found: bool,
}

/// Returns the slot of a key, after a hit, or after giving the key a slot, which another key may
/// lose. By value, so that C needn't pass memory that already holds a place.
///
/// # Cost
///
/// That of `Cache::put_slot`.
#[unsafe(no_mangle)]
pub extern "C" fn clock2q_enter_key(handle: &mut Handle, key: usize) -> Place
    requires { IsSome handle.old.cache }
    ensures resident { IfSome (machine_in handle.new.cache)
        (λ m. resident_frame m key ≡ Some result.slot) }
    ensures last { IfSome (machine_in handle.old.cache)
        (λ m. result.has_last ≡ is_some (holder key m)) }
    ensures which { IfSome (machine_in handle.old.cache)
        (λ m. result.last ≡ unwrap_or (holder key m) 0) }
    ensures evicted { IfSome (machine_in handle.old.cache)
        (λ m. leaver eqb (Put key tt) m ≡
        (if result.evicted then Some (result.last, result.slot) else None)) }
    ensures within { IfSome (machine_in handle.old.cache) (λ m. result.slot < m.shares.capacity) }
    ensures machine { machine_in handle.new.cache ≡
        option_map (put (eqb key) key tt) (machine_in handle.old.cache) }
    ensures costs { IfSome handle.old.cache
        (λ o. IfSome handle.new.cache
        (λ n. Costs ⟦<usize as Hash>⟧ ⟦<DefaultHashBuilder as BuildHasher>⟧ ⟦<FoldHasher as Hasher>⟧
        (SlotFor key tt) o.cache n.cache)) }
    ensures holds { IsSome handle.new.cache }
{
    let held = handle.held();
    held.cache.facts();
    let (slot, occupant) = held.cache.put_slot(key, ());
    place_of(key, slot, occupant)
}

/// Returns the slot of a key and who had it, in C's form.
fn place_of(key: usize, slot: usize, occupant: Occupant<usize>) -> Place
    ensures slot { result.slot ≡ slot }
    ensures last { result.has_last ≡ is_some (occupied_by key occupant) }
    ensures which { result.last ≡ unwrap_or (occupied_by key occupant) 0 }
    ensures evicted { evicted_from slot occupant ≡
        (if result.evicted then Some (result.last, slot) else None) }
{
    let (last, has_last, evicted) = match occupant {
        Occupant::Itself => (key, true, false),
        Occupant::Nobody => (0, false, false),
        Occupant::Other(other) => (other, true, true),
    };
    Place {
        slot,
        last,
        has_last,
        evicted,
    }
}

/// Returns the slot of a key and records a hit, if the key has a slot.
///
/// # Cost
///
/// That of `Cache::get`.
#[unsafe(no_mangle)]
pub extern "C" fn clock2q_find_key(handle: &mut Handle, key: usize) -> Found
    requires { IsSome handle.old.cache }
    ensures resident { IfSome (machine_in handle.old.cache)
        (λ m. IsTrue result.is_found ↔ IsSome (resident_frame m key)) }
    ensures slot { IfSome (machine_in handle.old.cache)
        (λ m. result.slot ≡ unwrap_or (resident_frame m key) 0) }
    ensures machine { machine_in handle.new.cache ≡
        option_map (hit (eqb key)) (machine_in handle.old.cache) }
    ensures costs { IfSome handle.old.cache
        (λ o. IfSome handle.new.cache
        (λ n. Costs ⟦<usize as Hash>⟧ ⟦<DefaultHashBuilder as BuildHasher>⟧ ⟦<FoldHasher as Hasher>⟧
        (Get key) o.cache n.cache)) }
    ensures holds { IsSome handle.new.cache }
{
    match find(&mut handle.held().cache, key) {
        Some(slot) => Found {
            slot,
            is_found: true,
        },
        None => Found {
            slot: 0,
            is_found: false,
        },
    }
}

/// If the key is at this slot, records a hit and returns true. The slot may be any number.
///
/// # Cost
///
/// That of `Cache::get_at`: no hash.
#[unsafe(no_mangle)]
pub extern "C" fn clock2q_at(handle: &mut Handle, slot: usize, key: usize) -> bool
    requires { IsSome handle.old.cache }
    ensures resident { IfSome (machine_in handle.old.cache)
        (λ m. IsTrue result ↔ (resident_frame m key ≡ Some slot)) }
    ensures machine { machine_in handle.new.cache ≡
        option_map (hit_at slot (eqb key)) (machine_in handle.old.cache) }
    ensures costs { IfSome handle.old.cache
        (λ o. IfSome handle.new.cache
        (λ n. Costs ⟦<usize as Hash>⟧ ⟦<DefaultHashBuilder as BuildHasher>⟧ ⟦<FoldHasher as Hasher>⟧
        (GetAt slot key) o.cache n.cache)) }
    ensures holds { IsSome handle.new.cache }
{
    is_in(&mut handle.held().cache, slot, key)
}

/// Frees the slot of a key, and returns true if the key had one. A key without a slot is forgotten
/// if it is remembered.
///
/// # Cost
///
/// That of `Cache::remove`.
#[unsafe(no_mangle)]
pub extern "C" fn clock2q_remove(handle: &mut Handle, key: usize) -> bool
    requires { IsSome handle.old.cache }
    ensures found { IfSome (machine_in handle.old.cache)
        (λ m. IsTrue result ↔ IsSome (resident_frame m key)) }
    ensures machine { machine_in handle.new.cache ≡
        option_map (removed (eqb key)) (machine_in handle.old.cache) }
    ensures costs { IfSome handle.old.cache
        (λ o. IfSome handle.new.cache
        (λ n. Costs ⟦<usize as Hash>⟧ ⟦<DefaultHashBuilder as BuildHasher>⟧ ⟦<FoldHasher as Hasher>⟧
        (Remove key) o.cache n.cache)) }
    ensures holds { IsSome handle.new.cache }
{
    handle.held().cache.remove(&key)
}

/// Frees all slots, and forgets all keys.
///
/// # Cost
///
/// That of `Cache::clear`: time in proportion to the capacity.
#[unsafe(no_mangle)]
pub extern "C" fn clock2q_clear(handle: &mut Handle)
    requires { IsSome handle.old.cache }
    ensures machine { machine_in handle.new.cache ≡
        option_map cleared (machine_in handle.old.cache) }
    ensures costs { IfSome handle.old.cache
        (λ o. IfSome handle.new.cache
        (λ n. Costs ⟦<usize as Hash>⟧ ⟦<DefaultHashBuilder as BuildHasher>⟧ ⟦<FoldHasher as Hasher>⟧ Clear o.cache n.cache)) }
    ensures holds { IsSome handle.new.cache }
{
    handle.held().cache.clear();
}
