//! The cache itself: lookups, hits and `put`.

mod construction;
mod debug;
mod evicting;
mod fetching;
mod filling;
mod growth;
mod insertion;
mod iteration;
mod removal;
mod slots;

use crate::shares::Shares;
use clock2q_directory::directory::Directory;
use clock2q_directory::handle::Found;
use clock2q_queues::queues::Queues;
pub use iteration::{Iter, Keys, Values};
use std::alloc::{Allocator, Global};
use std::hash::{BuildHasher, BuildHasherDefault, FoldHasher, Hash};
use std::marker::Model;

/// The largest capacity that a cache can have, in keys: 16,777,215.
pub const MAX_CAPACITY: usize = (1 << 24) - 1;

/// The builder of the hashers that [`Cache::new`] uses.
///
/// Its seed is fixed, so whoever chooses the keys can choose ones that collide. The replies stay
/// the same, but 20,000 such keys took 250 times as long as others. If strangers choose the keys,
/// pass a `RandomState` of `std::hash` to [`Cache::with_hasher`].
pub type DefaultHashBuilder = BuildHasherDefault<FoldHasher>;

/// A key-value cache of fixed capacity.
///
/// No reply depends on a hash, since only `Eq` decides whether two keys are the same. The
/// constructor takes all memory, and only [`grow`](Cache::grow) and
/// [`grow_with_history`](Cache::grow_with_history) ask for more.
///
/// # Cost
///
/// A call that takes a key, except [`get_at`](Cache::get_at), hashes it once and compares it only
/// with its candidates, the resident and remembered keys whose hashes have the same home and
/// fingerprint. Inspections by the hand are paid for. Since the cache was made, there have been no
/// more of them than keys that Main evicted and bits of Main that hits set. A call reads and writes
/// few slots of the index if hashes are well spread. Keys whose hashes collide cost more, by the
/// length of their walks and runs. A call that may change the cache is charged at most for these,
/// and its contract bounds them in the state before it.
///
/// # Example
///
/// ```
/// let mut cache: Cache<u64, u64> = Cache::new(rt.alloc(), capacity)?;
/// cache.put(1, 10);
/// assert_eq!(rt; cache.get(&1), Some(&10));
/// assert_eq!(rt; cache.get(&2), None);
/// ```
#[derive(Drop)]
pub struct Cache<K: Hash + Eq, V, S: BuildHasher = DefaultHashBuilder, A: Allocator = Global> {
    shares: Shares,
    queues: Queues<A>,
    directory: Directory<K, V, A>,
    free: Vec<u32, A>,
    hasher: S,
}

impl<K: Hash + Eq, V, S: BuildHasher, A: Allocator> Model for Cache<K, V, S, A> {
    ghost use Rattle.std.specs.Prelude.{vec_capacity};
    ghost use Rattle.clock2q_cache.specs.CacheState.{CacheState, cache_state, cache_code};
    ghost use Rattle.clock2q_directory.specs.Index.{slots};
    ghost use Rattle.clock2q_cache.specs.CacheFields.{machine_of, counts_of, IsCache};
    ghost use Rattle.clock2q_cache.specs.Hashes.{hash_of};

    ghost Value = { CacheState K V S };

    ghost coded = { cache_code K.code V.code S.code };

    ghost view = { λ c. cache_state (machine_of c.shares c.queues c.directory.residents.entries c.directory.history.entries c.free.items) c.directory.history.places c.hasher (counts_of c.queues c.directory.history c.directory.residents) };

    ghost invariant = { λ c. IsCache K.eq (λ k. hash_of S.BuildHasher S.Hasher.Hasher c.hasher (K.hash_input k)) c.shares c.queues c.directory.history (slots c.directory.history.places.index) c.directory.residents c.free.items (vec_capacity c.free) };
}

impl<K: Hash + Eq, V, S: BuildHasher, A: Allocator> Cache<K, V, S, A> {
    ghost use Rattle.std.specs.Prelude.{◌≡◌, IsTrue, ◌↔◌, IsSome, IfSome, IfNone, Some, None, ◌<◌, length, slice_get, if◌then◌else◌};
    ghost use Rattle.std.specs.Option.{option_copied, option_copied_mut};
    ghost use Rattle.std.specs.Borrow.{sem};
    ghost use Rattle.clock2q_machine.specs.Whole.{IsWhole};
    ghost use Rattle.clock2q_handles.specs.Homes.{candidates};
    ghost use Rattle.clock2q_directory.specs.History.{found_slot, found_place, found_gap, place_of};
    ghost use Rattle.clock2q_directory.specs.Index.{IsGapFor, IsWithinCapacity};
    ghost use Rattle.clock2q_cache.specs.CacheState.{residents_in, remembered_in};
    ghost use Rattle.clock2q_machine.specs.Calls.{Get, GetAt};
    ghost use Rattle.clock2q_cache.specs.CacheLends.{LeavesKnown, LendsHit, LendsSlot};
    ghost use Rattle.clock2q_cache.specs.Costs.{Becomes, Costs, Spends, alike};
    ghost use Rattle.clock2q_cache.specs.Hashes.{hash_of};
    ghost use Rattle.clock2q_cache.specs.Indexed.{IsIndexed, IsSpacious};
    ghost use Rattle.clock2q_cache.specs.Insertions.{IsFoundFor};
    ghost use Rattle.std.specs.Bool.{then_some};
    ghost use Rattle.std.specs.List.{list_any};
    ghost use Rattle.clock2q_machine.specs.Machine.{resident_count, slot_of, value_of, hit, forgotten};
    ghost use Rattle.clock2q_cache.specs.Places.{discarded, looked_for};
    ghost use Rattle.clock2q_machine.specs.Steps.{is_at, hit_at, value_at};

    /// Returns the capacity that the cache was made with, in keys.
    pub fn capacity(&self) -> usize
        ensures capacity { result ≡ self.now.machine.shares.capacity }
    {
        self.shares.capacity
    }

    /// Returns the number of keys in the cache, at most its capacity. Evicted keys don't count.
    pub fn len(&self) -> usize
        ensures count { result ≡ resident_count self.now.machine }
    {
        self.queues.small_len() + self.queues.main_len()
    }

    /// States what holds of every cache, for a caller's proof. It does nothing.
    #[inline(always)]
    pub fn facts(&self)
        ensures whole { IsWhole K.eq self.now.machine }
        ensures indexed { IsIndexed K.Hash S.BuildHasher S.Hasher.Hasher self.now }
        ensures spacious { IsSpacious self.now }
        ensures within { IsWithinCapacity self.now.known.index }
    {
        self.directory.facts();
    }

    /// Returns true if the cache holds no key.
    pub fn is_empty(&self) -> bool
        ensures empty { IsTrue result ↔ (resident_count self.now.machine ≡ 0) }
    {
        self.len() == 0
    }

    /// Returns true if the key is resident. It records no hit, and so changes no later eviction.
    ///
    /// # Cost
    ///
    /// One hash of the key, one walk of the index, and at most one comparison with each candidate among
    /// the residents.
    pub fn contains(&self, key: &K) -> bool
        ensures resident { IsTrue result ↔ IsSome (slot_of (K.eq key.now) self.now.machine) }
    {
        self.slot_of(key).is_some()
    }

    /// Returns the value of a resident key, or `None`. It records no hit, and so changes no later
    /// eviction.
    ///
    /// # Cost
    ///
    /// That of [`contains`](Cache::contains).
    pub fn peek(&self, key: &K) -> Option<&V>
        ensures value { option_copied result ≡ value_of (K.eq key.now) self.now.machine }
    {
        let slot = self.slot_of(key)?;
        Some(self.value(slot))
    }

    /// Returns the value of a resident key and records a hit, which may save the key from a later
    /// eviction.
    ///
    /// Returns `None` and changes nothing if the key isn't resident.
    ///
    /// # Cost
    ///
    /// That of [`contains`](Cache::contains). A hit sets one bit, and accesses no link.
    pub fn get(&mut self, key: &K) -> Option<&V>
        ensures* machine { sem 𝓛
            (LeavesKnown K.row V.row S.row A.row S.Hasher.row K.Hash S.BuildHasher S.Hasher.Hasher A.Allocator self.entry
            (Get key.now) (hit (K.eq key.now) self.old.machine)
            (looked_for K.Hash S.BuildHasher S.Hasher.Hasher key.now self.old).known) }
        ensures value { option_copied result ≡ value_of (K.eq key.now) self.old.machine }
    {
        let hash = self.hash(key);
        let slot = self.find(hash, key)?;
        // before the bit is set, so that the entries' position isn't read twice
        let value = self.directory.value(slot);
        self.queues.hit(slot);
        Some(value)
    }

    /// Returns the slot of a resident key and records a hit, as [`get`](Cache::get) does. The key
    /// keeps its slot until it is evicted or removed, so slots, which are below the capacity, can
    /// number the elements of the caller's own arrays.
    ///
    /// Returns `None` and changes nothing if the key isn't resident.
    ///
    /// # Cost
    ///
    /// That of [`get`](Cache::get).
    pub fn slot(&mut self, key: &K) -> Option<usize>
        ensures slot { result ≡ slot_of (K.eq key.now) self.old.machine }
        ensures machine { self.new.machine ≡ hit (K.eq key.now) self.old.machine }
        ensures known { self.new.known ≡
            (looked_for K.Hash S.BuildHasher S.Hasher.Hasher key.now self.old).known }
        ensures hasher { self.new.hasher ≡ self.old.hasher }
        ensures costs { Costs K.Hash S.BuildHasher S.Hasher.Hasher (Get key.now) self.old self.new }
    {
        Some(self.hit(key)? as usize)
    }

    /// Returns the value of a key that is resident at this slot and records a hit, as
    /// [`get`](Cache::get) does.
    ///
    /// Any number is allowed. Returns `None` and changes nothing if the key isn't resident there.
    ///
    /// # Cost
    ///
    /// No hash, at most one comparison, with the key at that slot, and no access to a link.
    pub fn get_at(&mut self, slot: usize, key: &K) -> Option<&V>
        ensures* machine { sem 𝓛
            (LeavesKnown K.row V.row S.row A.row S.Hasher.row K.Hash S.BuildHasher S.Hasher.Hasher A.Allocator self.entry
            (GetAt slot key.now) (hit_at slot (K.eq key.now) self.old.machine) self.old.known) }
        ensures value { option_copied result ≡ value_at slot (K.eq key.now) self.old.machine }
    {
        let found = self.find_at(slot, key)?;
        // before the bit is set, so that the entries' position isn't read twice
        let stored = self.directory.value(found);
        self.queues.hit(found);
        Some(stored)
    }

    /// Returns the value of a resident key to write to and records a hit, as [`get`](Cache::get)
    /// does.
    ///
    /// Returns `None` and changes nothing if the key isn't resident.
    ///
    /// # Cost
    ///
    /// That of [`get`](Cache::get).
    pub fn get_mut(&mut self, key: &K) -> Option<&mut V>
        ensures* writes_back { sem 𝓛
            (LendsHit K.row V.row S.row A.row S.Hasher.row K.Hash S.BuildHasher S.Hasher.Hasher A.Allocator self.entry key.now result) }
        ensures value { option_copied_mut result ≡ value_of (K.eq key.now) self.old.machine }
        ensures missed { IfNone result (slot_of (K.eq key.now) self.old.machine ≡ None) }
    {
        let resident = self.hit(key)?;
        Some(self.value_mut(resident))
    }

    /// Returns the value of a slot to write to.
    fn value_mut(&mut self, slot: u32) -> &mut V
        requires { slot < length self.old.machine.values }
        ensures* writes_back { sem 𝓛
            (LendsSlot K.row V.row S.row A.row S.Hasher.row K.Hash S.BuildHasher S.Hasher.Hasher A.Allocator self.entry slot result) }
        ensures value { slice_get self.old.machine.values slot ≡ Some result.now }
    {
        self.directory.value_mut(slot)
    }

    /// Returns the slot if the key is resident there.
    fn find_at(&mut self, slot: usize, key: &K) -> Option<u32>
        ensures slot { result ≡
            then_some (is_at slot (slot_of (K.eq key.now) self.old.machine)) slot }
        ensures found { IfSome result
            (λ found. slot_of (K.eq key.now) self.old.machine ≡ Some found) }
        ensures made { IfSome result (λ found. found < length self.old.machine.values) }
        ensures machine { self.new.machine ≡ self.old.machine }
        ensures kept { self.new ≡ record self.old { counts = self.new.counts } }
        ensures counts { Spends 0 0 1 self.old.counts self.new.counts }
    {
        if !self.queues.is_resident(slot) {
            return None;
        }
        let slot = slot as u32;
        self.directory.key_equals(slot, key).then_some(slot)
    }

    /// Returns the hash of a key.
    pub(crate) fn hash(&self, key: &K) -> u64
        ensures { result ≡
            hash_of S.BuildHasher S.Hasher.Hasher self.now.hasher (K.hash_input key.now) }
    {
        self.hasher.hash_one(key)
    }

    /// Returns the slot of a resident key, and counts no comparison.
    fn slot_of(&self, key: &K) -> Option<u32>
        ensures slot { result ≡ slot_of (K.eq key.now) self.now.machine }
        ensures made { IfSome result (λ slot. slot < length self.now.machine.values) }
        ensures whole { IsWhole K.eq self.now.machine }
    {
        self.directory.slot_of(self.hash(key), key)
    }

    /// Returns the slot of a resident key.
    pub(crate) fn find(&mut self, hash: u64, key: &K) -> Option<u32>
        requires { hash ≡
            hash_of S.BuildHasher S.Hasher.Hasher self.old.hasher (K.hash_input key.now) }
        ensures slot { result ≡ slot_of (K.eq key.now) self.old.machine }
        ensures made { IfSome result (λ slot. slot < length self.old.machine.values) }
        ensures machine { self.new.machine ≡ self.old.machine }
        ensures whole { IsWhole K.eq self.old.machine }
        ensures hasher { self.new.hasher ≡ self.old.hasher }
        ensures kept { self.new ≡
            record (looked_for K.Hash S.BuildHasher S.Hasher.Hasher key.now self.old) { counts = self.new.counts } }
        ensures counts { Spends 0 0
            (length (candidates
            (residents_in self.old.known) hash)) self.old.counts self.new.counts }
    {
        self.directory.find_resident(hash, key)
    }

    /// Looks a key up among the residents and in the history.
    #[inline(always)]
    pub(crate) fn lookup(&mut self, hash: u64, key: &K) -> Found
        requires { hash ≡
            hash_of S.BuildHasher S.Hasher.Hasher self.old.hasher (K.hash_input key.now) }
        ensures slot { found_slot result ≡ slot_of (K.eq key.now) self.old.machine }
        ensures made { IfSome (found_slot result) (λ slot. slot < length self.old.machine.values) }
        ensures place { found_slot result ≡ None →
            found_place result ≡
            place_of (K.eq key.now) self.old.machine.history self.old.known.taken }
        ensures gap { IsGapFor (found_gap result) hash self.old.known.index }
        ensures ended { found_slot result ≡ None → found_place result ≡ None →
            IsSome (found_gap result) }
        ensures machine { self.new.machine ≡ self.old.machine }
        ensures whole { IsWhole K.eq self.old.machine }
        ensures hasher { self.new.hasher ≡ self.old.hasher }
        ensures kept { self.new ≡
            record (looked_for K.Hash S.BuildHasher S.Hasher.Hasher key.now self.old) { counts = self.new.counts } }
        ensures counts { Spends 0 0
            (alike K.Hash S.BuildHasher S.Hasher.Hasher key.now self.old) self.old.counts self.new.counts }
        ensures as_many { length self.old.known.taken ≡ length self.old.machine.history }
        ensures within { IsWithinCapacity self.old.known.index }
    {
        self.directory.facts();
        self.directory.lookup(hash, key)
    }

    /// Looks a key that is not resident up in the history.
    pub(crate) fn find_place(&mut self, hash: u64, key: &K) -> Found
        requires { hash ≡
            hash_of S.BuildHasher S.Hasher.Hasher self.old.hasher (K.hash_input key.now) }
        ensures found { IsFoundFor K.eq result key.now hash self.new }
        ensures gap { found_gap result ≡ None }
        ensures kept { self.new ≡
            record (looked_for K.Hash S.BuildHasher S.Hasher.Hasher key.now self.old) { counts = self.new.counts } }
        ensures counts { Spends 0 0
            (length (candidates
            (remembered_in self.old.known) hash)) self.old.counts self.new.counts }
    {
        Found::from_place(self.directory.find_remembered(hash, key))
    }

    /// Returns the slot of a resident key, and records a hit on it.
    fn hit(&mut self, key: &K) -> Option<u32>
        ensures slot { result ≡ slot_of (K.eq key.now) self.old.machine }
        ensures made { IfSome result (λ slot. slot < length self.new.machine.values) }
        ensures becomes { Becomes K.Hash S.BuildHasher S.Hasher.Hasher (Get key.now)
            (hit (K.eq key.now) self.old.machine) self.old self.new }
        ensures known { self.new.known ≡
            (looked_for K.Hash S.BuildHasher S.Hasher.Hasher key.now self.old).known }
    {
        let hash = self.hash(key);
        let slot = self.find(hash, key)?;
        self.record_hit(slot, key);
        Some(slot)
    }

    /// Records a hit on the key that is resident at a slot.
    fn record_hit(&mut self, resident: u32, key: &K)
        requires { slot_of (K.eq key.now) self.old.machine ≡ Some resident }
        ensures machine { self.new.machine ≡ hit (K.eq key.now) self.old.machine }
        ensures kept { self.new ≡ record self.old { machine = self.new.machine } }
    {
        let _ = key;
        self.queues.hit(resident);
    }

    /// Removes the key, for which a lookup found `found`, from the history, and returns true if it
    /// was there.
    pub(crate) fn forget(&mut self, hash: u64, key: &K, found: &Found) -> bool
        requires place { found_place found.now ≡
            place_of (K.eq key.now) self.old.machine.history self.old.known.taken }
        requires hash { hash ≡
            hash_of S.BuildHasher S.Hasher.Hasher self.old.hasher (K.hash_input key.now) }
        ensures known { result ≡ list_any (K.eq key.now) self.old.machine.history }
        ensures machine { self.new.machine ≡ forgotten (K.eq key.now) self.old.machine }
        ensures hasher { self.new.hasher ≡ self.old.hasher }
        ensures places { self.new.known ≡ discarded (K.eq key.now) hash self.old }
        ensures counts { Spends 0 (if result then 7 else 0) 0 self.old.counts self.new.counts }
    {
        self.directory.forget(hash, key, found)
    }

    /// Returns the value of a slot.
    fn value(&self, slot: u32) -> &V
        requires { slot < length self.now.machine.values }
        ensures { slice_get self.now.machine.values slot ≡ Some result.now }
    {
        self.directory.value(slot)
    }
}

impl<K: Hash + Eq + Drop, V: Drop, S: BuildHasher, A: Allocator> Cache<K, V, S, A> {
    ghost use Rattle.std.specs.Prelude.{◌≡◌, ◌<◌, length, slice_get, Some};
    ghost use Rattle.clock2q_machine.specs.Calls.{Put};
    ghost use Rattle.clock2q_cache.specs.Costs.{Costs};
    ghost use Rattle.clock2q_cache.specs.Places.{known_with};
    ghost use Rattle.clock2q_machine.specs.Machine.{value_of, stored};
    ghost use Rattle.clock2q_machine.specs.Steps.{put};

    /// Stores a value for a key, and returns the one that it replaces.
    ///
    /// If the key is resident, this records a hit, keeps the stored key and drops `key`. Otherwise
    /// it inserts the key and returns `None`. One resident is evicted if the cache is full, or if
    /// the history has the key and Main is full.
    ///
    /// # Cost
    ///
    /// One hash of the key, one lookup in the index, and at most one comparison with each candidate
    /// among the residents and in the history. No link is accessed if the key is resident.
    /// Otherwise there are at most 29 more accesses to links than inspections by the hand. The
    /// index changes at most four times, twice under the key's hash, once under that of the key
    /// that leaves, and once under that of the oldest remembered key. A lookup reads at most the
    /// walk of its hash, and a change reads and writes at most that and twice its run with one more
    /// slot.
    #[inline(never)]
    pub fn put(&mut self, key: K, value: V) -> Option<V>
        ensures value { result ≡ value_of (K.eq key) self.old.machine }
        ensures machine { self.new.machine ≡ put (K.eq key) key value self.old.machine }
        ensures resident { value_of (K.eq key) self.new.machine ≡ Some value }
        ensures known { self.new.known ≡
            known_with K.Hash S.BuildHasher S.Hasher.Hasher key self.old }
        ensures hasher { self.new.hasher ≡ self.old.hasher }
        ensures costs { Costs K.Hash S.BuildHasher S.Hasher.Hasher
            (Put key value) self.old self.new }
    {
        // out of line, so that a caller's loop keeps its own values in registers
        let hash = self.hash(&key);
        let found = self.lookup(hash, &key);
        let Found::Resident(slot) = found else {
            self.insert(hash, key, value, found);
            return None;
        };
        self.record_hit(slot, &key);
        Some(self.replace_value(slot, value))
    }

    /// Replaces the value of a slot, and returns the old one.
    fn replace_value(&mut self, slot: u32, value: V) -> V
        requires { slot < length self.old.machine.values }
        ensures value { slice_get self.old.machine.values slot ≡ Some result }
        ensures machine { self.new.machine ≡ stored slot value self.old.machine }
        ensures kept { self.new ≡ record self.old { machine = self.new.machine } }
    {
        self.directory.replace_value(slot, value)
    }
}
