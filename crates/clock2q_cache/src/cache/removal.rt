//! Removal of one key, of those that a closure picks, and of all.
ghost use Rattle.std.specs.Prelude.{◌≡◌, ◌∷◌, ◌<◌, reverse, vec_len, vec_capacity};

use crate::cache::Cache;
use clock2q_directory::handle::Found;
use std::alloc::Allocator;
use std::hash::{BuildHasher, Hash};

impl<K: Hash + Eq, V, S: BuildHasher, A: Allocator> Cache<K, V, S, A> {
    ghost use Rattle.std.specs.Prelude.{◌≡◌, ◌+◌, ◌*◌, ◌^◌, ◌≤◌, IsTrue, ◌↔◌, IsSome, IfSome, ◌<◌, length, Some, is_some, List, Bool};
    ghost use Rattle.clock2q_machine.specs.Calls.{Remove, Retain};
    ghost use Rattle.clock2q_cache.specs.Closures.{MayBeAsked, Retains};
    ghost use Rattle.clock2q_cache.specs.Costs.{Spends, Costs};
    ghost use Rattle.clock2q_cache.specs.Hashes.{hash_of};
    ghost use Rattle.clock2q_cache.specs.Places.{left_by};
    ghost use Rattle.clock2q_cache.specs.Removals.{known_among, known_without};
    ghost use Rattle.clock2q_machine.specs.Machine.{slot_of, resident_at, resident_count, vacated, removed};

    /// Removes a key, and returns true if it was resident.
    ///
    /// A resident's slot becomes the next free slot to be taken, and keeps its value until then.
    /// The history stays as it is, since a resident is never in it. A key that isn't resident is
    /// removed from the history, so that it counts as new when it comes back.
    ///
    /// # Cost
    ///
    /// One hash of the key, and at most one comparison with each candidate. At most eight accesses to
    /// links, one lookup in the index and one change of it, both under the key's hash, and no
    /// inspection by the hand.
    pub fn remove(&mut self, key: &K) -> bool
        ensures found { IsTrue result ↔ IsSome (slot_of (K.eq key.now) self.old.machine) }
        ensures machine { self.new.machine ≡ removed (K.eq key.now) self.old.machine }
        ensures known { self.new.known ≡
            known_without K.Hash S.BuildHasher S.Hasher.Hasher key.now self.old }
        ensures hasher { self.new.hasher ≡ self.old.hasher }
        ensures costs { Costs K.Hash S.BuildHasher S.Hasher.Hasher
            (Remove key.now) self.old self.new }
    {
        let hash = self.hash(key);
        let found = self.lookup(hash, key);
        let Found::Resident(slot) = found else {
            self.forget(hash, key, &found);
            return false;
        };
        self.vacate(slot);
        true
    }

    /// Keeps the residents for which `keep` returns true, and removes the others.
    ///
    /// `keep` is called once for each resident, in ascending order of slots. The history stays as
    /// it is.
    ///
    /// # Cost
    ///
    /// At most eight accesses to links and one change of the index for each resident that is
    /// removed. No key is hashed.
    pub fn retain<F: FnMut(&K, &V) -> bool>(&mut self, mut keep: F)
        requires callable { MayBeAsked F.FnMut keep self.old.machine }
        ensures retained { Retains F.FnMut keep self.old.machine self.new.machine }
        ensures known { self.new.known ≡
            known_among K.Hash S.BuildHasher S.Hasher.Hasher self.new.machine self.old }
        ensures hasher { self.new.hasher ≡ self.old.hasher }
        ensures costs { (bits : List Bool) →
            Costs K.Hash S.BuildHasher S.Hasher.Hasher (Retain bits) self.old self.new }
        ensures removals { self.new.counts.accesses + 8 * resident_count self.new.machine ≤
            self.old.counts.accesses + 8 * resident_count self.old.machine }
    {
        self.facts();
        for slot in 0..self.made() {
            if self.is_resident(slot as usize) {
                let stays = keep(self.key(slot), self.value(slot));
                if !stays {
                    self.vacate(slot);
                }
            }
        }
    }

    /// Returns the number of slots that have a value, whether a resident's or an earlier one.
    pub(super) fn made(&self) -> u32
        ensures { result ≡ length self.now.machine.values }
    {
        self.directory.made() as u32
    }

    /// Returns true if there is a resident at this slot. Any number is allowed.
    pub(super) fn is_resident(&self, slot: usize) -> bool
        ensures resident { result ≡ is_some (resident_at self.now.machine slot) }
        ensures own { IfSome (resident_at self.now.machine slot)
            (λ r. slot_of (K.eq r.0) self.now.machine ≡ Some slot) }
        ensures small { IsTrue result → slot < 2 ^ 32 }
    {
        self.queues.is_resident(slot)
    }

    /// Returns the key of the resident at a slot.
    pub(super) fn key(&self, slot: u32) -> &K
        requires { IsSome (resident_at self.now.machine slot) }
        ensures { resident_at self.now.machine slot ≡ Some (result.now, slot) }
    {
        self.directory.key(slot)
    }

    /// Removes the resident at a slot, and frees the slot.
    pub(super) fn vacate(&mut self, slot: u32)
        requires { IsSome (resident_at self.old.machine slot) }
        ensures machine { self.new.machine ≡ vacated slot self.old.machine }
        ensures known { self.new.known ≡
            left_by (λ k. hash_of S.BuildHasher S.Hasher.Hasher self.old.hasher (K.hash_input k))
            (resident_at self.old.machine slot) slot self.old.known }
        ensures hasher { self.new.hasher ≡ self.old.hasher }
        ensures counts { Spends 0 8 0 self.old.counts self.new.counts }
    {
        self.directory.leave(slot);
        self.queues.leave(slot);
        free_slot(&mut self.free, slot);
    }
}

impl<K: Hash + Eq + Drop, V: Drop, S: BuildHasher, A: Allocator> Cache<K, V, S, A> {
    ghost use Rattle.std.specs.Prelude.{◌≡◌, []};
    ghost use Rattle.clock2q_directory.specs.History.{places_with};
    ghost use Rattle.clock2q_directory.specs.Index.{emptied};
    ghost use Rattle.clock2q_machine.specs.Calls.{Clear};
    ghost use Rattle.clock2q_cache.specs.Costs.{Costs};
    ghost use Rattle.clock2q_machine.specs.Machine.{cleared};

    /// Removes every key with its value, and the history. The cache is then as new, but keeps its
    /// memory.
    ///
    /// # Cost
    ///
    /// Time in proportion to the capacity: one access to each slot of the index. No key is hashed.
    pub fn clear(&mut self)
        ensures machine { self.new.machine ≡ cleared self.old.machine }
        ensures known { self.new.known ≡ places_with (emptied self.old.known.index) [] [] }
        ensures hasher { self.new.hasher ≡ self.old.hasher }
        ensures costs { Costs K.Hash S.BuildHasher S.Hasher.Hasher Clear self.old self.new }
    {
        self.directory.clear();
        self.queues.clear();
        self.free.clear();
    }
}

/// Adds a slot to the free ones. It is the next to be taken.
pub(super) fn free_slot<A: Allocator>(free: &mut Vec<u32, A>, slot: u32)
    requires room { vec_len free.old < vec_capacity free.old }
    ensures top { reverse free.new.items ≡ slot ∷ reverse free.old.items }
    ensures capacity { vec_capacity free.new ≡ vec_capacity free.old }
{
    free.push_reserved(slot);
}
