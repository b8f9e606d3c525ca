//! Calls that look a key up and, if it is not resident, insert it with what a closure returns.
use crate::cache::Cache;
use crate::entered::Entered;
use clock2q_count::GhostValue;
use clock2q_directory::handle::Found;
use std::alloc::Allocator;
use std::hash::{BuildHasher, Hash};

impl<K: Hash + Eq + Drop, V: Drop, S: BuildHasher, A: Allocator> Cache<K, V, S, A> {
    ghost use Rattle.std.specs.Prelude.{◌≡◌, ℕ, ◌+◌, ◌<◌, length, slice_get, None, Ok, Err, IfOk, IfErr, OnOk, OnErr, IsOkAnd, MatchResult, Some, is_some};
    ghost use Rattle.std.specs.Option.{UnwrapsOrElse};
    ghost use Rattle.std.specs.Borrow.{sem};
    ghost use Rattle.clock2q_machine.specs.Bounds.{inspections_for};
    ghost use Rattle.clock2q_machine.specs.Calls.{With};
    ghost use Rattle.clock2q_machine.specs.Leaving.{leaves_wanted};
    ghost use Rattle.clock2q_cache.specs.CacheLends.{LeavesKnown, LeavesTried, LendsPut, LendsTaken};
    ghost use Rattle.clock2q_cache.specs.Hashes.{hash_of};
    ghost use Rattle.clock2q_cache.specs.Closures.{Fetches, TakesSlot};
    ghost use Rattle.clock2q_cache.specs.Costs.{Reaches, Spends, accesses_for, alike, slots_for, walked};
    ghost use Rattle.clock2q_cache.specs.Places.{known_taken, known_with, looked_for};
    ghost use Rattle.clock2q_machine.specs.Machine.{slot_of, value_of};
    ghost use Rattle.clock2q_machine.specs.Steps.{put, fetched, slotted, slotted_at};

    /// Returns the value of a key, after inserting what `f` returns if the key isn't resident. A
    /// resident key is hit, as by [`get`](Cache::get).
    ///
    /// `f` is called only if the key isn't resident, before anything changes.
    ///
    /// # Cost
    ///
    /// That of [`put`](Cache::put), and that of `f` if it is called.
    pub fn get_or_insert_with<F: FnOnce() -> V>(&mut self, key: K, f: F) -> &V
        requires { slot_of (K.eq key) self.old.machine ≡ None → F.pre f }
        ensures* machine { sem 𝓛
            (LeavesKnown K.row V.row S.row A.row S.Hasher.row K.Hash S.BuildHasher S.Hasher.Hasher A.Allocator self.entry
            (With key result.now) (fetched (K.eq key) key result.now self.old.machine)
            (known_with K.Hash S.BuildHasher S.Hasher.Hasher key self.old)) }
        ensures value { UnwrapsOrElse (value_of (K.eq key) self.old.machine) (F.post f) result.now }
    {
        let slot = self.find_or_insert(key, f);
        self.value(slot)
    }

    /// Returns the value of a key as [`get_or_insert_with`](Cache::get_or_insert_with) does, but
    /// `f` may fail.
    ///
    /// # Errors
    ///
    /// The error of `f`. The cache and its history are then as they were.
    ///
    /// # Cost
    ///
    /// That of [`get_or_insert_with`](Cache::get_or_insert_with). After an error no link was
    /// accessed.
    pub fn try_get_or_insert_with<F: FnOnce() -> Result<V, E>, E>(
        &mut self,
        key: K,
        f: F,
    ) -> Result<&V, E>
        requires { slot_of (K.eq key) self.old.machine ≡ None → F.pre f }
        ensures* machine { sem 𝓛
            (LeavesTried K.row V.row S.row A.row S.Hasher.row K.Hash S.BuildHasher S.Hasher.Hasher A.Allocator self.entry key result) }
        ensures value { IfOk result
            (λ value. UnwrapsOrElse (value_of (K.eq key) self.old.machine)
            (λ v. F.post f (Ok v)) value.now) }
        ensures err { IfErr result (λ e. F.post f (Err e)) }
        ensures absent { OnErr result (slot_of (K.eq key) self.old.machine ≡ None) }
    {
        let found = self.try_find_or_insert(key, f);
        self.value_found(found)
    }

    /// Returns the value of a key, to write to, as
    /// [`try_get_or_insert_with`](Cache::try_get_or_insert_with) does.
    ///
    /// # Errors
    ///
    /// The error of `f`. The cache and its history are then as they were.
    ///
    /// # Cost
    ///
    /// That of [`try_get_or_insert_with`](Cache::try_get_or_insert_with).
    pub fn try_get_or_insert_with_mut<F: FnOnce() -> Result<V, E>, E>(
        &mut self,
        key: K,
        f: F,
    ) -> Result<&mut V, E>
        requires { slot_of (K.eq key) self.old.machine ≡ None → F.pre f }
        ensures* writes_back { sem 𝓛
            (LendsPut K.row V.row S.row A.row S.Hasher.row K.Hash S.BuildHasher S.Hasher.Hasher A.Allocator self.entry key result) }
        ensures value { IfOk result
            (λ value. UnwrapsOrElse (value_of (K.eq key) self.old.machine)
            (λ v. F.post f (Ok v)) value.now) }
        ensures unwritten { IfOk result
            (λ value. put (K.eq key) key value.now self.old.machine ≡
            fetched (K.eq key) key value.now self.old.machine) }
        ensures err { IfErr result (λ e. F.post f (Err e)) }
        ensures absent { OnErr result (slot_of (K.eq key) self.old.machine ≡ None) }
    {
        let slot = self.try_find_or_insert(key, f)?;
        Ok(self.value_mut(slot))
    }

    /// Returns the slot of a key and its value, to write to, after inserting the key if it isn't
    /// resident. A resident key is hit, as by [`get`](Cache::get).
    ///
    /// A slot that another key had keeps its value, to be overwritten, so a cache of buffers needs
    /// no new ones. `make` is called only if a slot is made. The key keeps its slot until it leaves
    /// the cache, and [`get_at`](Cache::get_at) finds it there without a hash.
    ///
    /// # Cost
    ///
    /// That of [`put`](Cache::put), and that of `make` if it is called. If the key isn't resident,
    /// it is looked up twice. Contracts don't see what the call spent, since its counts of
    /// comparisons and of accesses to links are raised to the bounds.
    pub fn get_or_insert_mut<F: FnOnce() -> V>(&mut self, key: K, make: F) -> (usize, &mut V)
        requires { slice_get self.old.machine.values
            (slotted_at (slot_of (K.eq key) self.old.machine) (K.eq key) key self.old.machine) ≡
            None → F.pre make }
        ensures* writes_back { sem 𝓛
            (LendsTaken K.row V.row S.row A.row S.Hasher.row K.Hash S.BuildHasher S.Hasher.Hasher A.Allocator self.entry key result.1) }
        ensures slot { result.0 ≡
            slotted_at (slot_of (K.eq key) self.old.machine) (K.eq key) key self.old.machine }
        ensures value { UnwrapsOrElse (slice_get self.old.machine.values result.0)
            (F.post make) result.1.now }
        ensures unwritten { put (K.eq key) key result.1.now self.old.machine ≡
            slotted (K.eq key) key result.1.now self.old.machine }
    {
        let (slot, value, _) = self.enter(key, make);
        (slot, value)
    }

    /// Returns the slot of a key and its value, to write to, as
    /// [`get_or_insert_mut`](Cache::get_or_insert_mut) does, and whether the key was resident, and
    /// whether another resident was evicted. The value is then the evicted one's.
    ///
    /// # Cost
    ///
    /// That of [`get_or_insert_mut`](Cache::get_or_insert_mut).
    pub fn enter<F: FnOnce() -> V>(&mut self, key: K, make: F) -> (usize, &mut V, Entered)
        requires { slice_get self.old.machine.values
            (slotted_at (slot_of (K.eq key) self.old.machine) (K.eq key) key self.old.machine) ≡
            None → F.pre make }
        ensures* writes_back { sem 𝓛
            (LendsTaken K.row V.row S.row A.row S.Hasher.row K.Hash S.BuildHasher S.Hasher.Hasher A.Allocator self.entry key result.1) }
        ensures slot { result.0 ≡
            slotted_at (slot_of (K.eq key) self.old.machine) (K.eq key) key self.old.machine }
        ensures value { UnwrapsOrElse (slice_get self.old.machine.values result.0)
            (F.post make) result.1.now }
        ensures unwritten { put (K.eq key) key result.1.now self.old.machine ≡
            slotted (K.eq key) key result.1.now self.old.machine }
        ensures hit { result.2.is_hit ≡ is_some (slot_of (K.eq key) self.old.machine) }
        ensures evicted { result.2.has_evicted ≡
            is_some (leaves_wanted (K.eq key) self.old.machine) }
    {
        let hash = self.hash(&key);
        let most = self.most(&key);
        let (slot, entered) = self.find_or_reuse(hash, key, make);
        self.charge(&most);
        (slot as usize, self.value_mut(slot), entered)
    }

    /// Returns two numbers only for contracts. The proof of the call picks them, and they may
    /// depend on the cache and the key.
    fn most(&self, key: &K) -> GhostValue<(usize, usize)>
        ghost picked: { ℕ × ℕ }
        ensures picked { result.value ≡ picked }
    {
        let _ = key;
        GhostValue::new(&())
    }

    /// Raises the counts of link accesses and of comparisons by the amounts that the proof of the
    /// call picks, which may depend on `most`.
    fn charge(&mut self, most: &GhostValue<(usize, usize)>)
        ghost more: { ℕ × ℕ }
        ensures charged { self.new ≡
            record self.old {
              counts = record self.old.counts {
                accesses = self.old.counts.accesses +
                    more.0;
                comparisons = self.old.counts.comparisons + more.1;
              };
            } }
    {
        let _ = most;
        self.queues.charge();
        self.directory.charge();
    }

    /// Returns the slot of a key, which is hit or inserted with what `f` returns.
    fn find_or_insert<F: FnOnce() -> V>(&mut self, key: K, f: F) -> u32
        requires { slot_of (K.eq key) self.old.machine ≡ None → F.pre f }
        ensures fetched { Fetches (K.eq key) key
            (F.post f) self.old.machine result self.new.machine }
        ensures made { result < length self.new.machine.values }
        ensures known { self.new.known ≡
            known_with K.Hash S.BuildHasher S.Hasher.Hasher key self.old }
        ensures hasher { self.new.hasher ≡ self.old.hasher }
        ensures index { Reaches
            (slots_for K.Hash S.BuildHasher S.Hasher.Hasher key self.old) self.old self.new }
        ensures counts { Spends (inspections_for (K.eq key) self.old.machine)
            (accesses_for (K.eq key) self.old.machine)
            (alike K.Hash S.BuildHasher S.Hasher.Hasher key self.old) self.old.counts self.new.counts }
    {
        let hash = self.hash(&key);
        let found = self.lookup(hash, &key);
        if let Found::Resident(slot) = found {
            self.record_hit(slot, &key);
            return slot;
        }
        let value = f();
        self.insert(hash, key, value, found)
    }

    /// Returns the slot of a key, which is hit or inserted. A slot that was made before keeps its
    /// value, and a new one gets what `make` returns.
    fn find_or_reuse<F: FnOnce() -> V>(&mut self, hash: u64, key: K, make: F) -> (u32, Entered)
        requires hash { hash ≡
            hash_of S.BuildHasher S.Hasher.Hasher self.old.hasher (K.hash_input key) }
        requires make { slice_get self.old.machine.values
            (slotted_at (slot_of (K.eq key) self.old.machine) (K.eq key) key self.old.machine) ≡
            None → F.pre make }
        ensures taken { TakesSlot (K.eq key) key
            (F.post make) self.old.machine result.0 self.new.machine }
        ensures made { result.0 < length self.new.machine.values }
        ensures hit { result.1.is_hit ≡ is_some (slot_of (K.eq key) self.old.machine) }
        ensures evicted { result.1.has_evicted ≡
            is_some (leaves_wanted (K.eq key) self.old.machine) }
        ensures known { self.new.known ≡
            known_taken K.Hash S.BuildHasher S.Hasher.Hasher key self.old }
        ensures hasher { self.new.hasher ≡ self.old.hasher }
        ensures counts { Spends (inspections_for (K.eq key) self.old.machine)
            (accesses_for (K.eq key) self.old.machine)
            (alike K.Hash S.BuildHasher S.Hasher.Hasher key self.old) self.old.counts self.new.counts }
    {
        if let Some(slot) = self.find(hash, &key) {
            self.record_hit(slot, &key);
            let entered = Entered {
                is_hit: true,
                has_evicted: false,
            };
            return (slot, entered);
        }
        let (slot, has_evicted) = self.insert_reusing(hash, key, make);
        let entered = Entered {
            is_hit: false,
            has_evicted,
        };
        (slot, entered)
    }

    /// Returns the value at the slot that was found, or the error that was returned instead.
    fn value_found<E>(&self, found: Result<u32, E>) -> Result<&V, E>
        requires made { IfOk found (λ slot. slot < length self.now.machine.values) }
        ensures lent { MatchResult found
            (λ slot. IsOkAnd result
            (λ value. slice_get self.now.machine.values slot ≡ Some value.now))
            (λ e. result ≡ Err e) }
    {
        match found {
            Ok(slot) => Ok(self.value(slot)),
            Err(error) => Err(error),
        }
    }

    /// Does what `find_or_insert` does, with an `f` that may fail. If it does, nothing changes.
    fn try_find_or_insert<F: FnOnce() -> Result<V, E>, E>(&mut self, key: K, f: F) -> Result<u32, E>
        requires { slot_of (K.eq key) self.old.machine ≡ None → F.pre f }
        ensures fetched { IfOk result
            (λ slot. Fetches (K.eq key) key
            (λ v. F.post f (Ok v)) self.old.machine slot self.new.machine) }
        ensures made { IfOk result (λ slot. slot < length self.new.machine.values) }
        ensures err { IfErr result (λ e. F.post f (Err e)) }
        ensures absent { OnErr result (slot_of (K.eq key) self.old.machine ≡ None) }
        ensures machine { OnErr result (self.new.machine ≡ self.old.machine) }
        ensures hasher { self.new.hasher ≡ self.old.hasher }
        ensures counts { OnOk result
            (Spends (inspections_for (K.eq key) self.old.machine)
            (accesses_for (K.eq key) self.old.machine)
            (alike K.Hash S.BuildHasher S.Hasher.Hasher key self.old) self.old.counts self.new.counts) }
        ensures index { MatchResult result
            (λ _. Reaches
            (slots_for K.Hash S.BuildHasher S.Hasher.Hasher key self.old) self.old self.new)
            (λ _. Reaches
            (walked K.Hash S.BuildHasher S.Hasher.Hasher self.old key) self.old self.new) }
        ensures asked { OnErr result
            (Spends 0 0 (alike K.Hash S.BuildHasher S.Hasher.Hasher key self.old) self.old.counts self.new.counts) }
        ensures known { MatchResult result
            (λ _. self.new.known ≡
            known_with K.Hash S.BuildHasher S.Hasher.Hasher key self.old)
            (λ _. self.new.known ≡
            (looked_for K.Hash S.BuildHasher S.Hasher.Hasher key self.old).known) }
    {
        let hash = self.hash(&key);
        let found = self.lookup(hash, &key);
        if let Found::Resident(slot) = found {
            self.record_hit(slot, &key);
            return Ok(slot);
        }
        let value = f()?;
        Ok(self.insert(hash, key, value, found))
    }
}
