//! The call that takes a slot away though no key comes.
ghost use Rattle.clock2q_c.specs.Handle.{machine_in};
ghost use Rattle.clock2q_cache.specs.Costs.{Costs};
ghost use Rattle.clock2q_machine.specs.Calls.{Evict};
ghost use Rattle.clock2q_machine.specs.Leaving.{leaver};
ghost use Rattle.clock2q_machine.specs.Machine.{evicted};
ghost use Rattle.std.specs.Option.{option_map};
ghost use Rattle.std.specs.Prelude.{◌≡◌, eqb, if◌then◌else◌, false, None, Some, IsSome, IfSome};

use crate::calls::Place;
use crate::handle::Handle;
use clock2q_cache::DefaultHashBuilder;
use std::hash::{BuildHasher, FoldHasher, Hash, Hasher};

/// Takes the slot away from the key that leaves next, and returns its place: the slot that it had,
/// and itself as the key that had it. If no key has a slot, returns a place whose parts are all 0 and
/// false, and changes nothing.
///
/// # Cost
///
/// That of `Cache::evict`: no hash.
#[unsafe(no_mangle)]
pub extern "C" fn clock2q_evict_key(handle: &mut Handle) -> Place
    requires { IsSome handle.old.cache }
    ensures left { IfSome (machine_in handle.old.cache)
        (λ m. leaver eqb Evict m ≡
        (if result.evicted then Some (result.last, result.slot) else None)) }
    ensures last { result.has_last ≡ result.evicted }
    ensures slot { result.evicted ≡ false → result.slot ≡ 0 }
    ensures which { result.evicted ≡ false → result.last ≡ 0 }
    ensures machine { machine_in handle.new.cache ≡
        option_map evicted (machine_in handle.old.cache) }
    ensures costs { IfSome handle.old.cache
        (λ o. IfSome handle.new.cache
        (λ n. Costs ⟦<usize as Hash>⟧ ⟦<DefaultHashBuilder as BuildHasher>⟧ ⟦<FoldHasher as Hasher>⟧ Evict o.cache n.cache)) }
    ensures holds { IsSome handle.new.cache }
{
    match handle.held().cache.evict() {
        Some((key, slot)) => Place {
            slot,
            last: key,
            has_last: true,
            evicted: true,
        },
        None => Place {
            slot: 0,
            last: 0,
            has_last: false,
            evicted: false,
        },
    }
}
