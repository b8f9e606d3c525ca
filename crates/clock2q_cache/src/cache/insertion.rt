//! Insertion of a key that is not resident.
use crate::cache::Cache;
use clock2q_directory::handle::Found;
use clock2q_directory::newcomer::Newcomer;
use std::alloc::Allocator;
use std::hash::{BuildHasher, Hash};

/// The queue that a new resident goes into.
#[derive(Clone, Copy)]
pub(super) enum Admission {
    /// Small, as its newest slot.
    Small,
    /// Main, just before the hand.
    Main,
}

impl<K: Hash + Eq + Drop, V: Drop, S: BuildHasher, A: Allocator> Cache<K, V, S, A> {
    ghost use Rattle.std.specs.Prelude.{◌≡◌, ◌==◌, ◌+◌, ◌<◌, length, true, false, None, IfSome, IfNone, is_some, slice_get};
    ghost use Rattle.std.specs.List.{last_or, list_any};
    ghost use Rattle.std.specs.Option.{option_map};
    ghost use Rattle.clock2q_machine.specs.Shares.{main_share};
    ghost use Rattle.clock2q_machine.specs.Ages.{is_promoted};
    ghost use Rattle.clock2q_machine.specs.Whole.{IsWhole};
    ghost use Rattle.clock2q_handles.specs.Homes.{candidates};
    ghost use Rattle.clock2q_directory.specs.History.{found_gap};
    ghost use Rattle.clock2q_machine.specs.Bounds.{inspections_for};
    ghost use Rattle.clock2q_cache.specs.Costs.{Spends};
    ghost use Rattle.clock2q_cache.specs.CacheState.{remembered_in};
    ghost use Rattle.clock2q_machine.specs.Entries.{inspections};
    ghost use Rattle.clock2q_cache.specs.Closures.{Reuses};
    ghost use Rattle.clock2q_cache.specs.Places.{known_at, looked_for};
    ghost use Rattle.clock2q_cache.specs.Insertions.{Enters, EntersMain, EntersQueue, EntersSmall, IsAbsent, IsFoundFor, IsUnknown, Notes, Admits, into_queue, has_room, makes_slot, leaves_placed, is_main};
    ghost use Rattle.clock2q_machine.specs.Leaving.{leaves_for, leaves_for_main};
    ghost use Rattle.clock2q_machine.specs.Machine.{vacancy, goes_to_main, placement, inserted};

    /// Inserts a key that is not resident, for which a lookup found `found`.
    pub(crate) fn insert(&mut self, hash: u64, key: K, value: V, found: Found) -> u32
        requires found { IsFoundFor K.eq found key hash self.old }
        requires absent { IsAbsent K.Hash S.BuildHasher S.Hasher.Hasher key hash self.old }
        ensures slot { result ≡ (placement (K.eq key) key self.old.machine).slot }
        ensures machine { self.new.machine ≡ inserted (K.eq key) key value self.old.machine }
        ensures known { self.new.known ≡
            known_at K.Hash S.BuildHasher S.Hasher.Hasher key result (is_some (found_gap found)) self.old }
        ensures hasher { self.new.hasher ≡ self.old.hasher }
        ensures counts { Spends (inspections_for (K.eq key) self.old.machine)
            (inspections_for (K.eq key) self.old.machine + 29) 0 self.old.counts self.new.counts }
    {
        let admission = self.choose_queue(hash, &key, &found);
        let newcomer = Newcomer {
            gap: found.gap(),
            hash,
            key,
            value: Some(value),
        };
        self.insert_unknown(newcomer, admission, |_| ()).0
    }

    /// Inserts a key that is not resident, whether or not the history has it. A slot that was made
    /// before keeps its value, and a new one gets what `make` returns. Also returns whether another
    /// resident was evicted. It is out of line, so that a hit spills few registers.
    #[cold]
    #[inline(never)]
    pub(crate) fn insert_reusing<F: FnOnce() -> V>(
        &mut self,
        hash: u64,
        key: K,
        make: F,
    ) -> (u32, bool)
        requires absent { IsAbsent K.Hash S.BuildHasher S.Hasher.Hasher key hash self.old }
        requires make { slice_get self.old.machine.values
            (placement (K.eq key) key self.old.machine).slot ≡ None → F.pre make }
        ensures slot { result.0 ≡ (placement (K.eq key) key self.old.machine).slot }
        ensures evicted { result.1 ≡
            is_some (leaves_for (list_any (K.eq key) self.old.machine.history) self.old.machine) }
        ensures machine { Reuses (K.eq key) key (F.post make) self.old.machine self.new.machine }
        ensures known { self.new.known ≡
            known_at K.Hash S.BuildHasher S.Hasher.Hasher key result.0 false
            (looked_for K.Hash S.BuildHasher S.Hasher.Hasher key self.old) }
        ensures hasher { self.new.hasher ≡ self.old.hasher }
        ensures counts { Spends (inspections_for (K.eq key) self.old.machine)
            (inspections_for (K.eq key) self.old.machine + 29)
            (length (candidates
            (remembered_in self.old.known) hash)) self.old.counts self.new.counts }
    {
        let found = self.find_place(hash, &key);
        let admission = self.choose_queue(hash, &key, &found);
        let value = self.makes_slot(admission).then(make);
        let newcomer = Newcomer {
            gap: found.gap(),
            hash,
            key,
            value,
        };
        let (slot, left) = self.insert_unknown(newcomer, admission, |_| ());
        (slot, left.is_some())
    }

    /// Inserts a key that is not known into the queue that was chosen. If a resident leaves, `leaves`
    /// is called with its key, and what it returns comes back beside the slot.
    pub(super) fn insert_unknown<R, F: FnOnce(&K) -> R>(
        &mut self,
        newcomer: Newcomer<K, V>,
        admission: Admission,
        leaves: F,
    ) -> (u32, Option<R>)
        requires callable { F.IsAlwaysCallable leaves }
        requires unknown { IsUnknown K.Hash S.BuildHasher S.Hasher.Hasher newcomer.key newcomer.hash newcomer.gap self.old }
        requires small { is_main admission ≡ false → goes_to_main false self.old.machine ≡ false }
        requires had { IfNone newcomer.value
            ((into_queue (is_main admission) newcomer.key self.old.machine).slot
            < length self.old.machine.values) }
        ensures entered { EntersQueue K.Hash S.BuildHasher S.Hasher.Hasher (is_main admission)
            newcomer.key newcomer.value (is_some newcomer.gap) result.0 self.old self.new }
        ensures left { Notes F.FnOnce leaves
            (leaves_placed (is_main admission) self.old.machine) result.0 result.1 }
    {
        if self.has_room(admission) {
            return (self.join(newcomer, admission), None);
        }
        match admission {
            Admission::Main => self.replace_victim(newcomer, leaves),
            Admission::Small => {
                if self.tail_is_promoted() {
                    self.promote_tail(newcomer, leaves)
                } else {
                    self.replace_tail(newcomer, leaves)
                }
            }
        }
    }

    /// Returns true if a slot is made for a key that goes into this queue.
    pub(super) fn makes_slot(&self, admission: Admission) -> bool
        ensures makes { result ≡ makes_slot (is_main admission) self.now.machine }
        ensures whole { IsWhole K.eq self.now.machine }
    {
        self.free.is_empty()
            && self.directory.made() < self.shares.capacity
            && self.has_room(admission)
    }

    /// Returns true if a key can go into a queue without taking another's slot.
    fn has_room(&self, admission: Admission) -> bool
        ensures room { result ≡ has_room (is_main admission) self.now.machine }
        ensures whole { IsWhole K.eq self.now.machine }
    {
        match admission {
            Admission::Main => self.queues.main_len() != self.shares.main(),
            Admission::Small => {
                self.directory.made() < self.shares.capacity || !self.free.is_empty()
            }
        }
    }

    /// Chooses the queue for a key that is not resident, for which a lookup found `found`, and erases
    /// the key from the history.
    pub(super) fn choose_queue(&mut self, hash: u64, key: &K, found: &Found) -> Admission
        requires found { IsFoundFor K.eq found.now key.now hash self.old }
        requires absent { IsAbsent K.Hash S.BuildHasher S.Hasher.Hasher key.now hash self.old }
        ensures sent { Admits K.Hash S.BuildHasher S.Hasher.Hasher key.now hash (is_main result) self.old self.new }
        ensures unknown { IsUnknown K.Hash S.BuildHasher S.Hasher.Hasher key.now hash
            (found_gap found.now) self.new }
        ensures small { is_main result ≡ false → goes_to_main false self.new.machine ≡ false }
    {
        if self.forget(hash, key, found) {
            return Admission::Main;
        }
        // without a vacancy a key goes to Small if that has a share
        let in_small = if self.has_room(Admission::Small) {
            self.queues.small_len()
        } else {
            0
        };
        if self.shares.small <= in_small {
            return Admission::Main;
        }
        Admission::Small
    }

    /// Inserts a key into a full Main, in place of its victim.
    fn replace_victim<R, F: FnOnce(&K) -> R>(
        &mut self,
        newcomer: Newcomer<K, V>,
        leaves: F,
    ) -> (u32, Option<R>)
        requires callable { F.IsAlwaysCallable leaves }
        requires unknown { IsUnknown K.Hash S.BuildHasher S.Hasher.Hasher newcomer.key newcomer.hash newcomer.gap self.old }
        requires full { length self.old.machine.main ≡ main_share self.old.machine.shares }
        ensures entered { EntersMain K.Hash S.BuildHasher S.Hasher.Hasher newcomer.key newcomer.value (is_some newcomer.gap)
            (inspections self.old.machine.main) result.0 self.old self.new }
        ensures left { Notes F.FnOnce leaves (leaves_for_main self.old.machine) result.0 result.1 }
    {
        let victim = self.queues.replace_victim();
        let old = self.directory.replace(victim, newcomer);
        (victim, Some(leaves(&old.1)))
    }

    /// Inserts a key into a queue that has room, at a vacancy.
    #[inline(always)]
    fn join(&mut self, newcomer: Newcomer<K, V>, admission: Admission) -> u32
        requires unknown { IsUnknown K.Hash S.BuildHasher S.Hasher.Hasher newcomer.key newcomer.hash newcomer.gap self.old }
        requires main { is_main admission ≡ true →
            length self.old.machine.main < main_share self.old.machine.shares }
        requires small { is_main admission ≡ false →
            length self.old.machine.small < self.old.machine.shares.small }
        requires had { IfNone newcomer.value
            ((into_queue (is_main admission) newcomer.key self.old.machine).slot
            < length self.old.machine.values) }
        ensures entered { Enters K.Hash S.BuildHasher S.Hasher.Hasher newcomer.key newcomer.value
            (into_queue (is_main admission) newcomer.key self.old.machine) (is_some newcomer.gap)
            None 0 10 result self.old self.new }
    {
        // the slot that was freed last, otherwise the lowest that has no value yet
        let slot = self.free.pop().unwrap_or(self.directory.made() as u32);
        self.directory.enter(slot, newcomer);
        match admission {
            Admission::Main => {
                self.queues.append(slot);
                slot
            }
            Admission::Small => {
                self.queues.admit(slot);
                slot
            }
        }
    }

    /// Returns true if Small's tail moves on to Main.
    pub(super) fn tail_is_promoted(&mut self) -> bool
        requires { 0 < length self.old.machine.small }
        ensures value { IfSome (last_or None self.old.machine.small)
            (λ tail. result ≡ is_promoted tail.age) }
        ensures machine { self.new.machine ≡ self.old.machine }
        ensures kept { self.new ≡ record self.old { counts = self.new.counts } }
        ensures counts { Spends 0 1 0 self.old.counts self.new.counts }
    {
        self.queues.tail_is_promoted()
    }

    /// Inserts a key into Small in the slot of its tail, which is evicted and remembered.
    fn replace_tail<R, F: FnOnce(&K) -> R>(
        &mut self,
        newcomer: Newcomer<K, V>,
        leaves: F,
    ) -> (u32, Option<R>)
        requires callable { F.IsAlwaysCallable leaves }
        requires unknown { IsUnknown K.Hash S.BuildHasher S.Hasher.Hasher newcomer.key newcomer.hash newcomer.gap self.old }
        requires some { 0 < length self.old.machine.small }
        requires full { vacancy self.old.machine ≡ None }
        requires out { IfSome (last_or None self.old.machine.small)
            (λ tail. is_promoted tail.age ≡ false) }
        ensures entered { EntersSmall K.Hash S.BuildHasher S.Hasher.Hasher newcomer.key newcomer.value (is_some newcomer.gap)
            (option_map (λ tail. tail.key)
            (last_or None self.old.machine.small)) 0 28 result.0 self.old self.new }
        ensures left { Notes F.FnOnce leaves
            (leaves_placed false self.old.machine) result.0 result.1 }
    {
        let tail = self.queues.replace_tail();
        let left = leaves(self.directory.key(tail));
        self.directory.replace_remembering(tail, newcomer);
        (tail, Some(left))
    }

    /// Inserts a key into Small in the slot of Main's victim, while Small's tail moves on to Main.
    fn promote_tail<R, F: FnOnce(&K) -> R>(
        &mut self,
        newcomer: Newcomer<K, V>,
        leaves: F,
    ) -> (u32, Option<R>)
        requires callable { F.IsAlwaysCallable leaves }
        requires unknown { IsUnknown K.Hash S.BuildHasher S.Hasher.Hasher newcomer.key newcomer.hash newcomer.gap self.old }
        requires some { 0 < length self.old.machine.small }
        requires full { vacancy self.old.machine ≡ None }
        requires on { IfSome (last_or None self.old.machine.small)
            (λ tail. is_promoted tail.age ≡ true) }
        ensures entered { EntersSmall K.Hash S.BuildHasher S.Hasher.Hasher newcomer.key newcomer.value (is_some newcomer.gap) None
            (inspections self.old.machine.main) 28 result.0 self.old self.new }
        ensures left { Notes F.FnOnce leaves
            (leaves_placed false self.old.machine) result.0 result.1 }
    {
        let slot = self.queues.take_victim();
        // the caller has seen that Small isn't empty
        let Some(tail) = self.queues.take_tail() else {
            unreachable!()
        };
        self.queues.append(tail);
        let old = self.directory.replace(slot, newcomer);
        self.queues.admit(slot);
        (slot, Some(leaves(&old.1)))
    }
}
