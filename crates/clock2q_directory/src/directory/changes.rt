//! What happens to a key: it enters, leaves, is remembered or forgotten.
use crate::directory::Directory;
use crate::handle::Found;
use crate::keys::Entry;
use crate::newcomer::Newcomer;
use std::alloc::Allocator;

impl<K: Eq, V, A: Allocator> Directory<K, V, A> {
    ghost use Rattle.std.specs.Prelude.{◌≡◌, ◌+◌, ◌<◌, ◌++◌, ◌∷◌, [], if◌then◌else◌, false, Some, length, map};
    ghost use Rattle.clock2q_handles.specs.Homes.{no_entries};
    ghost use Rattle.clock2q_queues.specs.Cells.{Rises};
    ghost use Rattle.clock2q_directory.specs.Keys.{entry, key_at};
    ghost use Rattle.clock2q_directory.specs.Indexes.{HasHash};
    ghost use Rattle.clock2q_directory.specs.Index.{emptied};
    ghost use Rattle.clock2q_directory.specs.History.{places_with, place_of, found_place, freed_place, is_remembered, forgotten};
    ghost use Rattle.clock2q_directory.specs.Directory.{IsResident, Leaves, Retires};

    /// Makes the next slot, with a key and a value. The key is not resident, and the slot waits for
    /// one that [enters](Directory::enter).
    pub fn prepare(&mut self, hash: u64, key: K, value: V)
        requires room { length self.old.residents.entries < self.old.residents.room }
        ensures prepared { self.new.residents ≡
            record self.old.residents {
              entries = self.old.residents.entries ++ entry hash key value ∷ [];
              writes = self.old.residents.writes + 1;
            } }
        ensures kept { self.new.history ≡ self.old.history }
    {
        self.residents.push(hash, key, value);
    }

    /// Removes the resident at a slot from the index. Its key and value stay at the slot until
    /// another key enters there.
    pub fn leave(&mut self, slot: u32)
        requires resident { IsResident slot self.old }
        ensures left { Leaves slot self.old self.new.history }
        ensures kept { self.new.residents ≡ self.old.residents }
    {
        self.index.remove_slot(self.residents.hash(slot), slot);
    }

    /// Removes the resident at a slot from the index, remembers its key as the newest, and returns
    /// it. Its value and a copy of the key stay at the slot until another key enters there. If the
    /// history is full, the oldest remembered key is forgotten.
    pub fn retire(&mut self, slot: u32) -> K
    where
        K: Copy,
        requires resident { IsResident slot self.old }
        requires absent { (old : K) → key_at self.old.residents.entries slot ≡ Some old →
            is_remembered K.eq old self.old.history.entries ≡ false }
        ensures retired { Retires slot result self.old self.new.history }
        ensures kept { self.new.residents ≡ self.old.residents }
    {
        let key = *self.residents.key(slot);
        let hash = self.residents.hash(slot);
        let Some(retired) = self.history.push(hash, key) else {
            self.index.remove_slot(hash, slot);
            return key;
        };
        self.index.forget(retired.oldest, retired.place);
        self.index.remember(hash, slot, retired.place);
        key
    }

    /// Forgets a key that is not resident, for which a lookup found `found`, and returns true if it
    /// was remembered.
    pub fn forget(&mut self, hash: u64, key: &K, found: &Found) -> bool
        requires hash { HasHash K.eq hash key.now self.old.history.entries }
        requires place { found_place found.now ≡
            place_of (K.eq key.now)
            (map (λ e. e.1) self.old.history.entries) self.old.history.places.taken }
        ensures found { result ≡ is_remembered K.eq key.now self.old.history.entries }
        ensures forgotten { self.new.history ≡
            record self.old.history {
              entries = forgotten K.eq key.now self.old.history.entries;
              places = self.new.history.places;
              accesses = self.new.history.accesses;
            } }
        ensures kept { self.new.residents ≡ self.old.residents }
        ensures places { self.new.history.places ≡
            freed_place hash
            (place_of (K.eq key.now)
            (map (λ e. e.1) self.old.history.entries) self.old.history.places.taken) self.old.history.places }
        ensures accesses { Rises 0 (if result then 7 else 0)
            self.old.history.accesses self.new.history.accesses }
    {
        let _ = key;
        let _ = self.history.order.len();
        let Found::Remembered(place) = *found else {
            return false;
        };
        self.index.forget(Some(hash), place);
        self.history.order.unlink(place);
        true
    }

    /// Forgets every key, and drops them with the residents' values.
    ///
    /// # Cost
    ///
    /// Linear in the number of keys that the index may hold, since all of it is reset.
    pub fn clear(&mut self)
    where
        K: Drop,
        V: Drop,
        ensures history { self.new.history ≡
            record self.old.history {
              entries = [];
              places = places_with (emptied self.old.history.places.index) [] [];
            } }
        ensures residents { self.new.residents ≡ record self.old.residents { entries = [] } }
    {
        self.residents.clear();
        self.index.clear();
        self.history.clear();
    }
}

impl<K: Eq + Drop, V: Drop, A: Allocator> Directory<K, V, A> {
    ghost use Rattle.std.specs.Prelude.{◌≡◌, ◌+◌, false, Some, is_some};
    ghost use Rattle.clock2q_directory.specs.Keys.{hash_at, key_at, Writes};
    ghost use Rattle.clock2q_directory.specs.Index.{entered, entered_from, left, IsGapFor};
    ghost use Rattle.clock2q_directory.specs.History.{is_remembered};
    ghost use Rattle.clock2q_directory.specs.Directory.{IsVacant, IsResident, IsWithinRoom, Remembers};

    /// Makes a key the resident of a slot that has none, with a new value, or with the one that the
    /// slot had.
    #[inline(always)]
    pub fn enter(&mut self, slot: u32, newcomer: Newcomer<K, V>)
        requires vacant { IsVacant newcomer.value slot self.old }
        requires gap { IsGapFor newcomer.gap newcomer.hash self.old.history.places.index }
        ensures index { self.new.history ≡
            record self.old.history { places = record self.old.history.places { index = entered (is_some newcomer.gap) newcomer.hash slot self.old.history.places.index } } }
        ensures entries { Writes newcomer.hash newcomer.key newcomer.value slot self.old.residents.entries self.new.residents.entries }
        ensures kept { self.new.residents ≡
            record self.old.residents {
              entries = self.new.residents.entries;
              writes = self.old.residents.writes + 1;
            } }
    {
        let Newcomer {
            gap,
            hash,
            key,
            value,
        } = newcomer;
        self.residents.put(slot, Entry { hash, key, value });
        self.index.add_slot(gap, hash, slot);
    }

    /// Makes a key the resident of a slot in place of another, which is no longer known, with a new
    /// value, or with the one that the slot had. Returns the other's hash and key.
    #[inline(always)]
    pub fn replace(&mut self, slot: u32, newcomer: Newcomer<K, V>) -> (u64, K)
        requires resident { IsResident slot self.old }
        requires gap { IsGapFor newcomer.gap newcomer.hash self.old.history.places.index }
        requires room { IsWithinRoom self.old.history }
        ensures hash { hash_at self.old.residents.entries slot ≡ Some result.0 }
        ensures key { key_at self.old.residents.entries slot ≡ Some result.1 }
        ensures index { self.new.history ≡
            record self.old.history {
              places = record self.old.history.places {
                index = entered_from self.old.history.places.index (is_some newcomer.gap) newcomer.hash slot
                    (left result.0 slot self.old.history.places.index);
              };
            } }
        ensures entries { Writes newcomer.hash newcomer.key newcomer.value slot self.old.residents.entries self.new.residents.entries }
        ensures kept { self.new.residents ≡
            record self.old.residents {
              entries = self.new.residents.entries;
              writes = self.old.residents.writes + 1;
            } }
    {
        let Newcomer {
            gap,
            hash,
            key,
            value,
        } = newcomer;
        let old = self.residents.replace(slot, Entry { hash, key, value });
        self.index.replace(gap, hash, slot, old.0);
        old
    }

    /// Makes a key the resident of a slot in place of another, which is remembered as the newest.
    /// If the history is full, the oldest remembered key is forgotten.
    #[inline(always)]
    pub fn replace_remembering(&mut self, slot: u32, newcomer: Newcomer<K, V>)
        requires resident { IsResident slot self.old }
        requires gap { IsGapFor newcomer.gap newcomer.hash self.old.history.places.index }
        requires room { IsWithinRoom self.old.history }
        requires absent { (old : K) → key_at self.old.residents.entries slot ≡ Some old →
            is_remembered K.eq old self.old.history.entries ≡ false }
        ensures index { Remembers (is_some newcomer.gap) newcomer.hash slot self.old self.new.history }
        ensures entries { Writes newcomer.hash newcomer.key newcomer.value slot self.old.residents.entries self.new.residents.entries }
        ensures kept { self.new.residents ≡
            record self.old.residents {
              entries = self.new.residents.entries;
              writes = self.old.residents.writes + 1;
            } }
    {
        let Newcomer {
            gap,
            hash,
            key,
            value,
        } = newcomer;
        let entry = Entry { hash, key, value };
        let (old_hash, old_key) = self.residents.replace(slot, entry);
        let Some(retired) = self.history.push(old_hash, old_key) else {
            self.index.replace(gap, hash, slot, old_hash);
            return;
        };
        self.index.replace_remembering(gap, hash, slot, retired);
    }
}
