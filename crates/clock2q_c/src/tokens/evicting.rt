//! The call that takes a slot away though no token comes.
ghost use Rattle.clock2q_c.specs.Tokens.{tokens_in};
ghost use Rattle.clock2q_cache.specs.Costs.{Costs};
ghost use Rattle.clock2q_machine.specs.Calls.{Evict};
ghost use Rattle.clock2q_machine.specs.Leaving.{leaver};
ghost use Rattle.clock2q_machine.specs.Machine.{evicted};
ghost use Rattle.std.specs.Option.{option_map};
ghost use Rattle.std.specs.Prelude.{◌≡◌, if◌then◌else◌, false, None, Some, IsSome, IfSome};

use crate::calls::Found;
use crate::tokens::given::GivenHash;
use crate::tokens::handle::TokensHandle;
use crate::tokens::token::Token;
use std::hash::{BuildHasher, BuildHasherDefault, Hash, Hasher};

/// Takes the slot away from the token that leaves next, and returns the slot, if a token has one.
///
/// # Cost
///
/// That of `Cache::evict`: no hash.
#[unsafe(no_mangle)]
pub extern "C" fn clock2q_tokens_evict(handle: &mut TokensHandle) -> Found
    requires { IsSome handle.old.cache }
    ensures left { IfSome (tokens_in handle.old.cache)
        (λ m. option_map (λ r. r.1) (leaver ⟦<Token as PartialEq>⟧.eq Evict m) ≡
        (if result.is_found then Some result.slot else None)) }
    ensures none { result.is_found ≡ false → result.slot ≡ 0 }
    ensures machine { tokens_in handle.new.cache ≡ option_map evicted (tokens_in handle.old.cache) }
    ensures costs { IfSome handle.old.cache
        (λ o. IfSome handle.new.cache
        (λ n. Costs ⟦<Token as Hash>⟧ ⟦<BuildHasherDefault<GivenHash> as BuildHasher>⟧ ⟦<GivenHash as Hasher>⟧ Evict o.cache n.cache)) }
    ensures holds { IsSome handle.new.cache }
{
    match handle.held().cache.evict() {
        Some((_, slot)) => Found {
            slot,
            is_found: true,
        },
        None => Found {
            slot: 0,
            is_found: false,
        },
    }
}
