//! The calls for tokens that change no token's slot and record no hit.
ghost use Rattle.clock2q_c.specs.Tokens.{tokens_in};
ghost use Rattle.clock2q_cache.specs.Costs.{LooksAhead};
ghost use Rattle.clock2q_cache.specs.SlotsByHash.{ListsOnce, slots_with_hash};
ghost use Rattle.clock2q_machine.specs.Calls.{Evict};
ghost use Rattle.clock2q_machine.specs.Leaving.{leaver, next_victim};
ghost use Rattle.clock2q_machine.specs.Machine.{resident_count, vacancy};
ghost use Rattle.std.specs.Option.{option_map, unwrap_or};
ghost use Rattle.std.specs.Prelude.{◌≡◌, ◌<◌, ◌↔◌, if◌then◌else◌, false, None, Some, IsSome, IsTrue, IfSome, slice_get};

use crate::calls::Found;
use crate::tokens::given::GivenHash;
use crate::tokens::handle::TokensHandle;
use crate::tokens::token::Token;
use std::hash::{BuildHasher, BuildHasherDefault, Hash, Hasher};

/// Returns the slot that comes after `nth` others among those of the tokens that have this hash, if
/// there is one. It records no hit.
///
/// # Cost
///
/// That of `Cache::slot_with_hash`: no hash, and time in proportion to `nth` if hashes are well
/// spread.
#[unsafe(no_mangle)]
pub extern "C" fn clock2q_tokens_seek(handle: &mut TokensHandle, hash: u64, nth: usize) -> Found
    requires { IsSome handle.old.cache }
    ensures found { IfSome handle.old.cache
        (λ o. IsTrue result.is_found ↔
        IsSome (slice_get
        (slots_with_hash ⟦<Token as Hash>⟧ ⟦<BuildHasherDefault<GivenHash> as BuildHasher>⟧ ⟦<GivenHash as Hasher>⟧ hash o.cache) nth)) }
    ensures slot { IfSome handle.old.cache
        (λ o. result.slot ≡
        unwrap_or (slice_get
        (slots_with_hash ⟦<Token as Hash>⟧ ⟦<BuildHasherDefault<GivenHash> as BuildHasher>⟧ ⟦<GivenHash as Hasher>⟧ hash o.cache) nth) 0) }
    ensures listed { IfSome handle.old.cache
        (λ o. ListsOnce ⟦<Token as Hash>⟧ ⟦<BuildHasherDefault<GivenHash> as BuildHasher>⟧ ⟦<GivenHash as Hasher>⟧ hash o.cache) }
    ensures within { IfSome (tokens_in handle.old.cache)
        (λ m. IsTrue result.is_found → result.slot < m.shares.capacity) }
    ensures same { handle.new.cache ≡ handle.old.cache }
{
    match handle.held().cache.slot_with_hash(hash, nth) {
        Some(slot) => Found {
            slot,
            is_found: true,
        },
        None => Found {
            slot: 0,
            is_found: false,
        },
    }
}

/// Returns the slot of the token that leaves next, if a token has one.
///
/// # Cost
///
/// That of `Cache::next_victim`: no hash.
#[unsafe(no_mangle)]
pub extern "C" fn clock2q_tokens_next_victim(handle: &mut TokensHandle) -> Found
    requires { IsSome handle.old.cache }
    ensures left { IfSome (tokens_in handle.old.cache)
        (λ m. option_map (λ r. r.1) (leaver ⟦<Token as PartialEq>⟧.eq Evict m) ≡
        (if result.is_found then Some result.slot else None)) }
    ensures unknown { IfSome (tokens_in handle.old.cache)
        (λ m. vacancy m ≡ None →
        option_map (λ r. r.1) (next_victim m) ≡ (if result.is_found then Some result.slot else None)) }
    ensures none { result.is_found ≡ false → result.slot ≡ 0 }
    ensures machine { tokens_in handle.new.cache ≡ tokens_in handle.old.cache }
    ensures looks { IfSome handle.old.cache
        (λ o. IfSome handle.new.cache
        (λ n. LooksAhead ⟦<Token as Hash>⟧ ⟦<BuildHasherDefault<GivenHash> as BuildHasher>⟧ ⟦<GivenHash as Hasher>⟧
        o.cache n.cache)) }
    ensures holds { IsSome handle.new.cache }
{
    match handle.held().cache.next_victim() {
        Some((_, slot)) => Found {
            slot,
            is_found: true,
        },
        None => Found {
            slot: 0,
            is_found: false,
        },
    }
}

/// Returns the number of tokens that have a slot.
#[unsafe(no_mangle)]
pub extern "C" fn clock2q_tokens_len(handle: &mut TokensHandle) -> usize
    requires { IsSome handle.old.cache }
    ensures count { IfSome (tokens_in handle.old.cache) (λ m. result ≡ resident_count m) }
    ensures same { handle.new.cache ≡ handle.old.cache }
{
    handle.held().cache.len()
}

/// Returns the number of tokens that can have a slot.
#[unsafe(no_mangle)]
pub extern "C" fn clock2q_tokens_capacity(handle: &mut TokensHandle) -> usize
    requires { IsSome handle.old.cache }
    ensures capacity { IfSome (tokens_in handle.old.cache) (λ m. result ≡ m.shares.capacity) }
    ensures same { handle.new.cache ≡ handle.old.cache }
{
    handle.held().cache.capacity()
}
