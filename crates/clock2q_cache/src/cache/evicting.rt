//! Eviction: which resident leaves next, the eviction of one though no key comes, a `put` that hands
//! over what it replaces or evicts, and one that says who had the slot.
use crate::cache::Cache;
use crate::cache::removal::free_slot;
use crate::occupant::Occupant;
use clock2q_directory::handle::Found;
use clock2q_directory::newcomer::Newcomer;
use std::alloc::Allocator;
use std::hash::{BuildHasher, Hash};

impl<K: Hash + Eq, V, S: BuildHasher, A: Allocator> Cache<K, V, S, A> {
    ghost use Rattle.std.specs.Prelude.{◌≡◌, ◌<◌, IfSome, None};
    ghost use Rattle.std.specs.Borrow.{sem};
    ghost use Rattle.std.specs.Option.{option_map};
    ghost use Rattle.clock2q_machine.specs.Calls.{Evict};
    ghost use Rattle.clock2q_machine.specs.Leaving.{leaver, next_victim};
    ghost use Rattle.clock2q_machine.specs.Machine.{vacancy};
    ghost use Rattle.clock2q_cache.specs.CacheLends.{LeavesLooked};

    /// Returns the resident that leaves next, with its slot: the one that [`evict`](Cache::evict) would
    /// evict, and in a full cache the one that leaves for a key that the cache doesn't know. Returns
    /// `None` if the cache is empty.
    ///
    /// No hit is recorded, and the hand stays where it is. Only counts that contracts see change. A
    /// key that the history has goes to Main, and so another resident may leave for it.
    ///
    /// # Cost
    ///
    /// No hash and no comparison. If Small's tail leaves next, there is no walk. Otherwise each
    /// call walks along Main, from the hand to the first resident whose bit is clear, which is at
    /// most all of Main. There is one access to a link for the tail, and one for each resident that
    /// an eviction now would inspect.
    pub fn next_victim(&mut self) -> Option<(&K, usize)>
        ensures* looks { sem 𝓛
            (LeavesLooked K.row V.row S.row A.row S.Hasher.row K.Hash S.BuildHasher S.Hasher.Hasher A.Allocator self.entry) }
        ensures left { option_map (λ r. (r.0.now, r.1)) result ≡
            leaver K.eq Evict self.old.machine }
        ensures unknown { vacancy self.old.machine ≡ None →
            option_map (λ r. (r.0.now, r.1)) result ≡ next_victim self.old.machine }
        ensures within { IfSome result (λ r. r.1 < self.old.machine.shares.capacity) }
    {
        let slot = self.queues.next_victim()?;
        Some((self.directory.key(slot), slot as usize))
    }
}

impl<K: Hash + Eq + Copy, V: Drop, S: BuildHasher, A: Allocator> Cache<K, V, S, A> {
    ghost use Rattle.std.specs.Prelude.{◌≡◌, ◌+◌, ◌<◌, true, None, Some};
    ghost use Rattle.std.specs.List.{last_or};
    ghost use Rattle.std.specs.Option.{option_map};
    ghost use Rattle.clock2q_machine.specs.Calls.{Evict};
    ghost use Rattle.clock2q_machine.specs.Entries.{first_of, from_victim, inspections};
    ghost use Rattle.clock2q_machine.specs.Leaving.{leaver};
    ghost use Rattle.clock2q_machine.specs.Machine.{evicted, tail_evicted, victim_evicted, victim_leaves};
    ghost use Rattle.clock2q_cache.specs.Costs.{Costs, Spends};
    ghost use Rattle.clock2q_cache.specs.MakingRoom.{known_evicted, retired_from};
    ghost use Rattle.clock2q_cache.specs.Hashes.{hash_of};
    ghost use Rattle.clock2q_cache.specs.Places.{left_by};

    /// Evicts a resident though no key comes, and returns its key with its slot. Returns `None` if
    /// the cache is empty.
    ///
    /// In a full cache it is the resident that would leave for a new key. A key that leaves Small
    /// goes into the history, so the one that is returned is a copy. The slot becomes the next free
    /// slot to be taken, and keeps its value until then.
    ///
    /// # Cost
    ///
    /// No hash and no comparison. At most 19 more accesses to links than inspections by the hand,
    /// and at most two changes of the index, one under the hash of the key that leaves and one
    /// under that of the oldest remembered key.
    pub fn evict(&mut self) -> Option<(K, usize)>
        ensures left { result ≡ leaver K.eq Evict self.old.machine }
        ensures machine { self.new.machine ≡ evicted self.old.machine }
        ensures known { self.new.known ≡
            known_evicted (λ k. hash_of S.BuildHasher S.Hasher.Hasher self.old.hasher (K.hash_input k))
            result self.old.machine self.old.known }
        ensures hasher { self.new.hasher ≡ self.old.hasher }
        ensures costs { Costs K.Hash S.BuildHasher S.Hasher.Hasher Evict self.old self.new }
    {
        self.facts();
        if self.victim_leaves() {
            return Some(self.evict_victim());
        }
        self.retire_tail()
    }

    /// Returns true if a resident of Main leaves next, rather than Small's tail.
    fn victim_leaves(&mut self) -> bool
        ensures leaves { result ≡ victim_leaves self.old.machine }
        ensures kept { self.new ≡ record self.old { counts = self.new.counts } }
        ensures counts { Spends 0 1 0 self.old.counts self.new.counts }
    {
        self.queues.victim_leaves()
    }

    /// Evicts Main's victim, while Small's tail moves on to Main.
    fn evict_victim(&mut self) -> (K, usize)
        requires leaves { victim_leaves self.old.machine ≡ true }
        ensures left { first_of (from_victim self.old.machine.main) ≡ Some result }
        ensures machine { self.new.machine ≡
            victim_evicted (last_or None self.old.machine.small)
            (from_victim self.old.machine.main) self.old.machine }
        ensures known { self.new.known ≡
            left_by (λ k. hash_of S.BuildHasher S.Hasher.Hasher self.old.hasher (K.hash_input k))
            (Some result) result.1 self.old.known }
        ensures hasher { self.new.hasher ≡ self.old.hasher }
        ensures counts { Spends (inspections self.old.machine.main)
            (inspections self.old.machine.main + 18) 0 self.old.counts self.new.counts }
    {
        let slot = self.queues.take_victim();
        let key = *self.directory.key(slot);
        self.directory.leave(slot);
        free_slot(&mut self.free, slot);
        let Some(tail) = self.queues.take_tail() else {
            return (key, slot as usize);
        };
        self.queues.append(tail);
        (key, slot as usize)
    }

    /// Evicts Small's tail, which is remembered.
    fn retire_tail(&mut self) -> Option<(K, usize)>
        ensures left { result ≡
            option_map (λ tail. (tail.key, tail.slot)) (last_or None self.old.machine.small) }
        ensures machine { self.new.machine ≡
            tail_evicted (last_or None self.old.machine.small) self.old.machine }
        ensures known { self.new.known ≡
            retired_from (λ k.
            hash_of S.BuildHasher S.Hasher.Hasher self.old.hasher
            (K.hash_input k)) result self.old.machine self.old.known }
        ensures hasher { self.new.hasher ≡ self.old.hasher }
        ensures counts { Spends 0 15 0 self.old.counts self.new.counts }
    {
        let tail = self.queues.take_tail()?;
        let key = self.directory.retire(tail);
        free_slot(&mut self.free, tail);
        Some((key, tail as usize))
    }
}

impl<K: Hash + Eq + Copy, V: Drop, S: BuildHasher, A: Allocator> Cache<K, V, S, A> {
    ghost use Rattle.std.specs.Prelude.{◌≡◌, ◌≢◌, ◌+◌, ◌<◌, ◌↔◌, false, is_some, length, IfSome, IsSome, None, Some};
    ghost use Rattle.clock2q_directory.specs.History.{found_gap};
    ghost use Rattle.std.specs.List.{list_any};
    ghost use Rattle.std.specs.Option.{option_map};
    ghost use Rattle.clock2q_machine.specs.Bounds.{inspections_for};
    ghost use Rattle.clock2q_handles.specs.Homes.{candidates};
    ghost use Rattle.clock2q_machine.specs.Calls.{Put, SlotFor};
    ghost use Rattle.clock2q_machine.specs.Leaving.{leaver, leaves_for, victim_of, with_value};
    ghost use Rattle.clock2q_machine.specs.Machine.{inserted, placement, slot_of, value_of};
    ghost use Rattle.clock2q_machine.specs.Steps.{put};
    ghost use Rattle.clock2q_cache.specs.CacheState.{remembered_in};
    ghost use Rattle.clock2q_cache.specs.Costs.{Costs, Spends};
    ghost use Rattle.clock2q_cache.specs.Insertions.{IsAbsent, IsFoundFor};
    ghost use Rattle.clock2q_cache.specs.Occupants.{evicted_from};
    ghost use Rattle.clock2q_cache.specs.Places.{known_at, known_taken, known_with, looked_for};

    /// Stores a value for a key as [`put`](Cache::put) does, and hands over what it replaces or
    /// evicts: `key` with the value that it had, or the resident that leaves, with its value.
    ///
    /// A write-back cache writes what leaves. A key that leaves Small goes into the history, so the
    /// one that is handed over is a copy.
    ///
    /// # Cost
    ///
    /// That of [`put`](Cache::put).
    pub fn put_evicting(&mut self, key: K, value: V) -> Option<(K, V)>
        ensures replaced { IfSome (value_of (K.eq key) self.old.machine)
            (λ before. result ≡ Some (key, before)) }
        ensures evicted { slot_of (K.eq key) self.old.machine ≡ None →
            result ≡ option_map (λ v. (v.0, v.1.1))
            (victim_of K.eq (Put key value) self.old.machine) }
        ensures machine { self.new.machine ≡ put (K.eq key) key value self.old.machine }
        ensures resident { value_of (K.eq key) self.new.machine ≡ Some value }
        ensures known { self.new.known ≡
            known_with K.Hash S.BuildHasher S.Hasher.Hasher key self.old }
        ensures hasher { self.new.hasher ≡ self.old.hasher }
        ensures costs { Costs K.Hash S.BuildHasher S.Hasher.Hasher
            (Put key value) self.old self.new }
    {
        let hash = self.hash(&key);
        let found = self.lookup(hash, &key);
        let Found::Resident(slot) = found else {
            return self.insert_evicting(hash, key, value, found);
        };
        self.record_hit(slot, &key);
        Some((key, self.replace_value(slot, value)))
    }

    /// Inserts a key that is not resident, for which a lookup found `found`, and hands over the
    /// resident that leaves.
    fn insert_evicting(&mut self, hash: u64, key: K, value: V, found: Found) -> Option<(K, V)>
        requires found { IsFoundFor K.eq found key hash self.old }
        requires absent { IsAbsent K.Hash S.BuildHasher S.Hasher.Hasher key hash self.old }
        ensures evicted { result ≡
            option_map (λ v. (v.0, v.1.1))
            (with_value self.old.machine
            (leaves_for (list_any (K.eq key) self.old.machine.history) self.old.machine)) }
        ensures machine { self.new.machine ≡ inserted (K.eq key) key value self.old.machine }
        ensures known { self.new.known ≡
            known_at K.Hash S.BuildHasher S.Hasher.Hasher key
            (placement (K.eq key) key self.old.machine).slot (is_some (found_gap found)) self.old }
        ensures hasher { self.new.hasher ≡ self.old.hasher }
        ensures counts { Spends (inspections_for (K.eq key) self.old.machine)
            (inspections_for (K.eq key) self.old.machine + 29) 0 self.old.counts self.new.counts }
    {
        let admission = self.choose_queue(hash, &key, &found);
        let gap = found.gap();
        if self.makes_slot(admission) {
            let newcomer = Newcomer {
                gap,
                hash,
                key,
                value: Some(value),
            };
            self.insert_unknown(newcomer, admission, |_| ());
            return None;
        }
        let newcomer = Newcomer {
            gap,
            hash,
            key,
            value: None,
        };
        let (slot, left) = self.insert_unknown(newcomer, admission, |key| *key);
        let before = self.replace_value(slot, value);
        left.map(|evicted| (evicted, before))
    }

    /// Stores a value for a key as [`put`](Cache::put) does, and returns the key's slot and who had
    /// that slot until now. The key keeps its slot until it leaves the cache, so a caller can keep
    /// what belongs to a key in an array of its own. A key that is evicted is handed over as a copy.
    ///
    /// # Cost
    ///
    /// That of [`get_or_insert_mut`](Cache::get_or_insert_mut).
    pub fn put_slot(&mut self, key: K, value: V) -> (usize, Occupant<K>)
        ensures slot { slot_of (K.eq key) self.new.machine ≡ Some result.0 }
        ensures hit { (result.1 ≡ Occupant.Itself) ↔ IsSome (slot_of (K.eq key) self.old.machine) }
        ensures evicted { evicted_from result.0 result.1 ≡
            leaver K.eq (Put key value) self.old.machine }
        ensures within { result.0 < self.new.machine.shares.capacity }
        ensures machine { self.new.machine ≡ put (K.eq key) key value self.old.machine }
        ensures known { self.new.known ≡
            known_taken K.Hash S.BuildHasher S.Hasher.Hasher key self.old }
        ensures hasher { self.new.hasher ≡ self.old.hasher }
        ensures costs { Costs K.Hash S.BuildHasher S.Hasher.Hasher
            (SlotFor key value) self.old self.new }
    {
        self.facts();
        let hash = self.hash(&key);
        if let Some(slot) = self.find(hash, &key) {
            self.record_hit(slot, &key);
            self.replace_value(slot, value);
            return (slot as usize, Occupant::Itself);
        }
        let (slot, occupant) = self.insert_at_slot(hash, key, value);
        (slot as usize, occupant)
    }

    /// Inserts a key that is not resident, whether or not the history has it, and returns its slot
    /// and who had that. It is out of line, so that a hit spills few registers.
    #[cold]
    #[inline(never)]
    fn insert_at_slot(&mut self, hash: u64, key: K, value: V) -> (u32, Occupant<K>)
        requires absent { IsAbsent K.Hash S.BuildHasher S.Hasher.Hasher key hash self.old }
        ensures slot { result.0 ≡ (placement (K.eq key) key self.old.machine).slot }
        ensures other { result.1 ≢ Occupant.Itself }
        ensures evicted { evicted_from result.0 result.1 ≡
            leaves_for (list_any (K.eq key) self.old.machine.history) self.old.machine }
        ensures machine { self.new.machine ≡ inserted (K.eq key) key value self.old.machine }
        ensures known { self.new.known ≡
            known_at K.Hash S.BuildHasher S.Hasher.Hasher key result.0 false
            (looked_for K.Hash S.BuildHasher S.Hasher.Hasher key self.old) }
        ensures hasher { self.new.hasher ≡ self.old.hasher }
        ensures counts { Spends (inspections_for (K.eq key) self.old.machine)
            (inspections_for (K.eq key) self.old.machine + 29)
            (length (candidates
            (remembered_in self.old.known) hash)) self.old.counts self.new.counts }
    {
        let found = self.find_place(hash, &key);
        let admission = self.choose_queue(hash, &key, &found);
        let newcomer = Newcomer {
            gap: found.gap(),
            hash,
            key,
            value: Some(value),
        };
        let (slot, left) = self.insert_unknown(newcomer, admission, |key| *key);
        match left {
            Some(evicted) => (slot, Occupant::Other(evicted)),
            None => (slot, Occupant::Nobody),
        }
    }
}
