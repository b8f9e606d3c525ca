//! Calls by slot or by hash, for a caller that compares its keys itself, between two calls.
use crate::cache::Cache;
use std::alloc::Allocator;
use std::hash::{BuildHasher, Hash};

impl<K: Hash + Eq, V, S: BuildHasher, A: Allocator> Cache<K, V, S, A> {
    ghost use Rattle.std.specs.Prelude.{◌≡◌, ◌<◌, ◌^◌, ◌↔◌, IsTrue, IsSome, IfSome, IfNone, None, Some, is_some, slice_get};
    ghost use Rattle.clock2q_machine.specs.Calls.{Get, Remove};
    ghost use Rattle.clock2q_machine.specs.Machine.{hit, removed, resident_at, slot_of};
    ghost use Rattle.clock2q_cache.specs.Costs.{Costs, Spends};
    ghost use Rattle.clock2q_cache.specs.Hashes.{hash_of};
    ghost use Rattle.clock2q_cache.specs.Places.{hash_in, left_by};
    ghost use Rattle.clock2q_cache.specs.SlotsByHash.{ListsOnce, slots_with_hash};

    /// Returns the slot of a resident key, or `None`. It records no hit, and so changes no later
    /// eviction.
    ///
    /// # Cost
    ///
    /// That of [`contains`](Cache::contains).
    pub fn peek_slot(&self, key: &K) -> Option<usize>
        ensures slot { result ≡ slot_of (K.eq key.now) self.now.machine }
    {
        Some(self.slot_of(key)? as usize)
    }

    /// Returns the slot that comes after `nth` others among those of the residents whose keys have
    /// this hash, or `None` if there are no more. It compares no key and records no hit. The order
    /// is the same until a key enters or leaves.
    ///
    /// # Cost
    ///
    /// No hash and no comparison. It reads each candidate up to the one that it returns.
    pub fn slot_with_hash(&self, hash: u64, nth: usize) -> Option<usize>
        ensures slot { result ≡
            slice_get (slots_with_hash K.Hash S.BuildHasher S.Hasher.Hasher hash self.now) nth }
        ensures listed { ListsOnce K.Hash S.BuildHasher S.Hasher.Hasher hash self.now }
        ensures within { IfSome result (λ slot. slot < self.now.machine.shares.capacity) }
    {
        Some(self.with_hash(hash, nth)? as usize)
    }

    /// Records a hit on the resident at this slot and returns true. Any number is allowed. Returns
    /// false and changes nothing if no resident is there.
    ///
    /// # Cost
    ///
    /// No hash, no comparison, and no access to a link.
    pub fn hit_slot(&mut self, slot: usize) -> bool
        ensures found { IsTrue result ↔ IsSome (resident_at self.old.machine slot) }
        ensures machine { IfSome (resident_at self.old.machine slot)
            (λ r. self.new.machine ≡ hit (K.eq r.0) self.old.machine) }
        ensures missed { IfNone (resident_at self.old.machine slot) (self.new ≡ self.old) }
        ensures kept { self.new ≡ record self.old { machine = self.new.machine } }
        ensures costs { IfSome (resident_at self.old.machine slot)
            (λ r. Costs K.Hash S.BuildHasher S.Hasher.Hasher (Get r.0) self.old self.new) }
    {
        if !self.is_resident(slot) {
            return false;
        }
        self.queues.hit(slot as u32);
        true
    }

    /// Removes the key that is resident at this slot, as [`remove`](Cache::remove) does, and
    /// returns true. Any number is allowed. Returns false and changes nothing if no resident is
    /// there.
    ///
    /// # Cost
    ///
    /// No hash and no comparison. At most eight accesses to links, and one change of the index.
    pub fn remove_slot(&mut self, slot: usize) -> bool
        ensures found { IsTrue result ↔ IsSome (resident_at self.old.machine slot) }
        ensures machine { IfSome (resident_at self.old.machine slot)
            (λ r. self.new.machine ≡ removed (K.eq r.0) self.old.machine) }
        ensures missed { IfNone (resident_at self.old.machine slot) (self.new ≡ self.old) }
        ensures known { self.new.known ≡
            left_by (hash_in K.Hash S.BuildHasher S.Hasher.Hasher self.old)
            (resident_at self.old.machine slot) slot self.old.known }
        ensures hasher { self.new.hasher ≡ self.old.hasher }
        ensures counts { Spends 0 8 0 self.old.counts self.new.counts }
        ensures costs { IfSome (resident_at self.old.machine slot)
            (λ r. Costs K.Hash S.BuildHasher S.Hasher.Hasher (Remove r.0) self.old self.new) }
    {
        if !self.is_resident(slot) {
            return false;
        }
        self.vacate(slot as u32);
        true
    }

    /// Returns slot number `nth` of those of the residents whose keys have a hash.
    #[inline(always)]
    fn with_hash(&self, hash: u64, nth: usize) -> Option<u32>
        ensures slot { result ≡
            slice_get (slots_with_hash K.Hash S.BuildHasher S.Hasher.Hasher hash self.now) nth }
        ensures listed { ListsOnce K.Hash S.BuildHasher S.Hasher.Hasher hash self.now }
        ensures absent { IfNone result
            (nth ≡ 0 → (key : K) →
            hash ≡ hash_of S.BuildHasher S.Hasher.Hasher self.now.hasher (K.hash_input key) →
            slot_of (K.eq key) self.now.machine ≡ None) }
        ensures within { IfSome result (λ slot. slot < self.now.machine.shares.capacity) }
    {
        self.directory.slot_with_hash(hash, nth)
    }
}

impl<K: Hash + Eq + Drop, V: Drop, S: BuildHasher, A: Allocator> Cache<K, V, S, A> {
    ghost use Rattle.std.specs.Prelude.{◌≡◌, ◌<◌, true, false, None, Some, [], slice_get};
    ghost use Rattle.clock2q_machine.specs.Calls.{Put};
    ghost use Rattle.clock2q_machine.specs.Machine.{slot_of};
    ghost use Rattle.clock2q_machine.specs.Steps.{put};
    ghost use Rattle.clock2q_cache.specs.Costs.{Costs};
    ghost use Rattle.clock2q_cache.specs.Hashes.{hash_of};
    ghost use Rattle.clock2q_cache.specs.Places.{known_once};
    ghost use Rattle.clock2q_cache.specs.SlotsByHash.{slots_with_hash};

    /// Inserts a key with a value if no resident's key has its hash, and returns its slot and true.
    /// Otherwise returns the slot that [`slot_with_hash`](Cache::slot_with_hash) returns first, and
    /// false. Nothing changes then, and `key` and `value` are dropped.
    ///
    /// # Cost
    ///
    /// One hash of the key, and at most one comparison with each candidate in the history. If the key
    /// is inserted, that of [`put`](Cache::put), and one more walk of the index, the first, which
    /// `costs` leaves out.
    pub fn slot_with_hash_or_insert(&mut self, key: K, value: V) -> (usize, bool)
        ensures first { result.1 ≡ false →
            slice_get (slots_with_hash K.Hash S.BuildHasher S.Hasher.Hasher
            (hash_of S.BuildHasher S.Hasher.Hasher self.old.hasher
            (K.hash_input key)) self.old) 0 ≡ Some result.0 }
        ensures same { result.1 ≡ false → self.new ≡ self.old }
        ensures alone { result.1 ≡ true →
            slots_with_hash K.Hash S.BuildHasher S.Hasher.Hasher
            (hash_of S.BuildHasher S.Hasher.Hasher self.old.hasher
            (K.hash_input key)) self.old ≡ [] }
        ensures absent { result.1 ≡ true → slot_of (K.eq key) self.old.machine ≡ None }
        ensures resident { result.1 ≡ true → slot_of (K.eq key) self.new.machine ≡ Some result.0 }
        ensures within { result.0 < self.new.machine.shares.capacity }
        ensures machine { result.1 ≡ true →
            self.new.machine ≡ put (K.eq key) key value self.old.machine }
        ensures known { result.1 ≡ true →
            self.new.known ≡
            known_once K.Hash S.BuildHasher S.Hasher.Hasher false key self.old }
        ensures hasher { self.new.hasher ≡ self.old.hasher }
        ensures costs { result.1 ≡ true →
            Costs K.Hash S.BuildHasher S.Hasher.Hasher (Put key value) self.old self.new }
    {
        let hash = self.hash(&key);
        if let Some(slot) = self.with_hash(hash, 0) {
            return (slot as usize, false);
        }
        self.facts();
        let found = self.find_place(hash, &key);
        (self.insert(hash, key, value, found) as usize, true)
    }
}
