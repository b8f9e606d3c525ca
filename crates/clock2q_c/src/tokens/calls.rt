//! The calls that give tokens slots, hit them there and free the slots.
ghost use Rattle.clock2q_c.specs.Tokens.{AreEqualByBoth, token, tokens_in};
ghost use Rattle.clock2q_cache.specs.Costs.{Costs};
ghost use Rattle.clock2q_cache.specs.SlotsByHash.{hash_in, slots_with_hash};
ghost use Rattle.clock2q_machine.specs.Calls.{Clear, Get, Put, Remove, SlotFor};
ghost use Rattle.clock2q_machine.specs.Machine.{cleared, hit, removed, resident_at, slot_of};
ghost use Rattle.clock2q_machine.specs.Steps.{put};
ghost use Rattle.std.specs.Option.{option_map};
ghost use Rattle.std.specs.Prelude.{◌≡◌, ◌<◌, ◌↔◌, true, false, Some, None, [], IsSome, IsTrue, IfSome, IfNone, slice_get};

use crate::tokens::given::GivenHash;
use crate::tokens::handle::TokensHandle;
use crate::tokens::held::HeldTokens;
use crate::tokens::token::Token;
use std::alloc::Global;
use std::hash::{BuildHasher, BuildHasherDefault, Hash, Hasher};

/// A slot, and whether a token has just entered it.
#[repr(C)]
#[derive(Drop)]
pub struct Admitted {
    /// Below the capacity.
    pub slot: usize,
    /// Whether a token entered it. If not, it is the first slot of the hash.
    pub has_entered: bool,
}

/// If no token has this hash, gives the token of this hash and the number 0 a slot, which another
/// token may lose. Otherwise returns the slot that [`clock2q_tokens_seek`] returns first, records
/// no hit and changes nothing.
///
/// # Cost
///
/// That of `Cache::slot_with_hash_or_insert`.
#[unsafe(no_mangle)]
pub extern "C" fn clock2q_tokens_admit(handle: &mut TokensHandle, hash: u64) -> Admitted
    requires { IsSome handle.old.cache }
    ensures hash { IfSome handle.old.cache
        (λ o. hash_in ⟦<Token as Hash>⟧ ⟦<BuildHasherDefault<GivenHash> as BuildHasher>⟧ ⟦<GivenHash as Hasher>⟧ o.cache
        (token hash 0) ≡ hash) }
    ensures first { result.has_entered ≡ false →
        IfSome handle.old.cache
        (λ o. slice_get
        (slots_with_hash ⟦<Token as Hash>⟧ ⟦<BuildHasherDefault<GivenHash> as BuildHasher>⟧ ⟦<GivenHash as Hasher>⟧
        (hash_in ⟦<Token as Hash>⟧ ⟦<BuildHasherDefault<GivenHash> as BuildHasher>⟧ ⟦<GivenHash as Hasher>⟧ o.cache
        (token hash 0)) o.cache) 0 ≡ Some result.slot) }
    ensures same { result.has_entered ≡ false → handle.new.cache ≡ handle.old.cache }
    ensures alone { result.has_entered ≡ true →
        IfSome handle.old.cache
        (λ o. slots_with_hash ⟦<Token as Hash>⟧ ⟦<BuildHasherDefault<GivenHash> as BuildHasher>⟧ ⟦<GivenHash as Hasher>⟧
        (hash_in ⟦<Token as Hash>⟧ ⟦<BuildHasherDefault<GivenHash> as BuildHasher>⟧ ⟦<GivenHash as Hasher>⟧ o.cache
        (token hash 0)) o.cache ≡ []) }
    ensures resident { result.has_entered ≡ true →
        IfSome (tokens_in handle.new.cache)
        (λ m. slot_of (⟦<Token as PartialEq>⟧.eq (token hash 0)) m ≡ Some result.slot) }
    ensures within { IfSome (tokens_in handle.new.cache) (λ m. result.slot < m.shares.capacity) }
    ensures machine { result.has_entered ≡ true →
        tokens_in handle.new.cache ≡
        option_map (put (⟦<Token as PartialEq>⟧.eq (token hash 0)) (token hash 0) tt)
        (tokens_in handle.old.cache) }
    ensures costs { result.has_entered ≡ true →
        IfSome handle.old.cache
        (λ o. IfSome handle.new.cache
        (λ n. Costs ⟦<Token as Hash>⟧ ⟦<BuildHasherDefault<GivenHash> as BuildHasher>⟧ ⟦<GivenHash as Hasher>⟧
        (Put (token hash 0) tt) o.cache n.cache)) }
    ensures holds { IsSome handle.new.cache }
{
    let (slot, has_entered) = admit(handle.held(), hash);
    Admitted { slot, has_entered }
}

/// Admits the token of a hash and the number 0, if no token has the hash.
fn admit(held: &mut HeldTokens<Global>, hash: u64) -> (usize, bool)
    ensures hash { hash_in ⟦<Token as Hash>⟧ ⟦<BuildHasherDefault<GivenHash> as BuildHasher>⟧ ⟦<GivenHash as Hasher>⟧ held.old.cache
        (token hash 0) ≡ hash }
    ensures first { result.1 ≡ false →
        slice_get (slots_with_hash ⟦<Token as Hash>⟧ ⟦<BuildHasherDefault<GivenHash> as BuildHasher>⟧ ⟦<GivenHash as Hasher>⟧
        (hash_in ⟦<Token as Hash>⟧ ⟦<BuildHasherDefault<GivenHash> as BuildHasher>⟧ ⟦<GivenHash as Hasher>⟧ held.old.cache
        (token hash 0)) held.old.cache) 0 ≡ Some result.0 }
    ensures same { result.1 ≡ false → held.new ≡ held.old }
    ensures alone { result.1 ≡ true →
        slots_with_hash ⟦<Token as Hash>⟧ ⟦<BuildHasherDefault<GivenHash> as BuildHasher>⟧ ⟦<GivenHash as Hasher>⟧
        (hash_in ⟦<Token as Hash>⟧ ⟦<BuildHasherDefault<GivenHash> as BuildHasher>⟧ ⟦<GivenHash as Hasher>⟧ held.old.cache
        (token hash 0)) held.old.cache ≡ [] }
    ensures resident { result.1 ≡ true →
        slot_of (⟦<Token as PartialEq>⟧.eq (token hash 0)) held.new.cache.machine ≡ Some result.0 }
    ensures within { result.0 < held.new.cache.machine.shares.capacity }
    ensures machine { result.1 ≡ true →
        held.new.cache.machine ≡
        put (⟦<Token as PartialEq>⟧.eq (token hash 0)) (token hash 0) tt held.old.cache.machine }
    ensures costs { result.1 ≡ true →
        Costs ⟦<Token as Hash>⟧ ⟦<BuildHasherDefault<GivenHash> as BuildHasher>⟧ ⟦<GivenHash as Hasher>⟧
        (Put (token hash 0) tt) held.old.cache held.new.cache }
{
    let token = Token { hash, number: 0 };
    held.cache.slot_with_hash_or_insert(token, ())
}

/// Gives the token of this hash and this number a slot, which another token may lose, or records a
/// hit if it has one. Returns the slot.
///
/// # Cost
///
/// That of `Cache::put_slot`.
#[unsafe(no_mangle)]
pub extern "C" fn clock2q_tokens_enter(handle: &mut TokensHandle, hash: u64, number: u64) -> usize
    requires { IsSome handle.old.cache }
    ensures equality { AreEqualByBoth ⟦<Token as PartialEq>⟧.eq }
    ensures hash { IfSome handle.old.cache
        (λ o. hash_in ⟦<Token as Hash>⟧ ⟦<BuildHasherDefault<GivenHash> as BuildHasher>⟧ ⟦<GivenHash as Hasher>⟧ o.cache
        (token hash number) ≡ hash) }
    ensures resident { IfSome (tokens_in handle.new.cache)
        (λ m. slot_of (⟦<Token as PartialEq>⟧.eq (token hash number)) m ≡ Some result) }
    ensures within { IfSome (tokens_in handle.new.cache) (λ m. result < m.shares.capacity) }
    ensures machine { tokens_in handle.new.cache ≡
        option_map (put (⟦<Token as PartialEq>⟧.eq (token hash number)) (token hash number) tt)
        (tokens_in handle.old.cache) }
    ensures costs { IfSome handle.old.cache
        (λ o. IfSome handle.new.cache
        (λ n. Costs ⟦<Token as Hash>⟧ ⟦<BuildHasherDefault<GivenHash> as BuildHasher>⟧ ⟦<GivenHash as Hasher>⟧
        (SlotFor (token hash number) tt) o.cache n.cache)) }
    ensures holds { IsSome handle.new.cache }
{
    let token = Token { hash, number };
    handle.held().cache.put_slot(token, ()).0
}

/// Records a hit on the token at this slot and returns true, if there is one. The slot may be any
/// number.
///
/// # Cost
///
/// That of `Cache::hit_slot`: no hash.
#[unsafe(no_mangle)]
pub extern "C" fn clock2q_tokens_hit(handle: &mut TokensHandle, slot: usize) -> bool
    requires { IsSome handle.old.cache }
    ensures found { IfSome (tokens_in handle.old.cache)
        (λ m. IsTrue result ↔ IsSome (resident_at m slot)) }
    ensures machine { IfSome handle.old.cache
        (λ o. IfSome handle.new.cache
        (λ n. IfSome (resident_at o.cache.machine slot)
        (λ r. n.cache.machine ≡ hit (⟦<Token as PartialEq>⟧.eq r.0) o.cache.machine))) }
    ensures missed { IfSome handle.old.cache
        (λ o. IfNone (resident_at o.cache.machine slot) (handle.new.cache ≡ handle.old.cache)) }
    ensures costs { IfSome handle.old.cache
        (λ o. IfSome handle.new.cache
        (λ n. IfSome (resident_at o.cache.machine slot)
        (λ r. Costs ⟦<Token as Hash>⟧ ⟦<BuildHasherDefault<GivenHash> as BuildHasher>⟧ ⟦<GivenHash as Hasher>⟧
        (Get r.0) o.cache n.cache))) }
    ensures holds { IsSome handle.new.cache }
{
    handle.held().cache.hit_slot(slot)
}

/// Frees this slot and returns true, if a token has it. The slot may be any number.
///
/// # Cost
///
/// That of `Cache::remove_slot`: no hash.
#[unsafe(no_mangle)]
pub extern "C" fn clock2q_tokens_remove(handle: &mut TokensHandle, slot: usize) -> bool
    requires { IsSome handle.old.cache }
    ensures found { IfSome (tokens_in handle.old.cache)
        (λ m. IsTrue result ↔ IsSome (resident_at m slot)) }
    ensures machine { IfSome handle.old.cache
        (λ o. IfSome handle.new.cache
        (λ n. IfSome (resident_at o.cache.machine slot)
        (λ r. n.cache.machine ≡ removed (⟦<Token as PartialEq>⟧.eq r.0) o.cache.machine))) }
    ensures missed { IfSome handle.old.cache
        (λ o. IfNone (resident_at o.cache.machine slot) (handle.new.cache ≡ handle.old.cache)) }
    ensures costs { IfSome handle.old.cache
        (λ o. IfSome handle.new.cache
        (λ n. IfSome (resident_at o.cache.machine slot)
        (λ r. Costs ⟦<Token as Hash>⟧ ⟦<BuildHasherDefault<GivenHash> as BuildHasher>⟧ ⟦<GivenHash as Hasher>⟧
        (Remove r.0) o.cache n.cache))) }
    ensures holds { IsSome handle.new.cache }
{
    handle.held().cache.remove_slot(slot)
}

/// Forgets the token of this hash and this number, so that it counts as new when it comes back. If
/// it has a slot, frees the slot and returns true.
///
/// # Cost
///
/// That of `Cache::remove`.
#[unsafe(no_mangle)]
pub extern "C" fn clock2q_tokens_forget(handle: &mut TokensHandle, hash: u64, number: u64) -> bool
    requires { IsSome handle.old.cache }
    ensures hash { IfSome handle.old.cache
        (λ o. hash_in ⟦<Token as Hash>⟧ ⟦<BuildHasherDefault<GivenHash> as BuildHasher>⟧ ⟦<GivenHash as Hasher>⟧ o.cache
        (token hash number) ≡ hash) }
    ensures found { IfSome (tokens_in handle.old.cache)
        (λ m. IsTrue result ↔ IsSome (slot_of (⟦<Token as PartialEq>⟧.eq (token hash number)) m)) }
    ensures machine { tokens_in handle.new.cache ≡
        option_map (removed (⟦<Token as PartialEq>⟧.eq (token hash number)))
        (tokens_in handle.old.cache) }
    ensures costs { IfSome handle.old.cache
        (λ o. IfSome handle.new.cache
        (λ n. Costs ⟦<Token as Hash>⟧ ⟦<BuildHasherDefault<GivenHash> as BuildHasher>⟧ ⟦<GivenHash as Hasher>⟧
        (Remove (token hash number)) o.cache n.cache)) }
    ensures holds { IsSome handle.new.cache }
{
    handle.held().cache.remove(&Token { hash, number })
}

/// Frees all slots, and forgets all tokens.
///
/// # Cost
///
/// That of `Cache::clear`: time in proportion to the capacity.
#[unsafe(no_mangle)]
pub extern "C" fn clock2q_tokens_clear(handle: &mut TokensHandle)
    requires { IsSome handle.old.cache }
    ensures machine { tokens_in handle.new.cache ≡ option_map cleared (tokens_in handle.old.cache) }
    ensures costs { IfSome handle.old.cache
        (λ o. IfSome handle.new.cache
        (λ n. Costs ⟦<Token as Hash>⟧ ⟦<BuildHasherDefault<GivenHash> as BuildHasher>⟧ ⟦<GivenHash as Hasher>⟧ Clear o.cache n.cache)) }
    ensures holds { IsSome handle.new.cache }
{
    handle.held().cache.clear();
}
