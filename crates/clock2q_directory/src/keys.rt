//! Keys with their hashes and values, each at a place, lookups through an index, and the counts of
//! comparisons and writes.
ghost use Rattle.std.specs.Prelude.{◌≡◌, ℕ, ◌+◌, ◌<◌, ◌≤◌, [], ◌∷◌, ◌++◌, length, Some, IfNone, IfOk, IsSome, OnOk, OnErr};
ghost use Rattle.std.specs.Borrow.{sem};
ghost use Rattle.std.specs.List.{find, AllByRecursion};
ghost use Rattle.clock2q_directory.specs.Index.{slots_among, places_among};

mod hashed;

use crate::handle::Handle;
use clock2q_count::Count;
use clock2q_handles::Candidates;
use std::alloc::{AllocError, Allocator, Global};
use std::marker::Model;
use std::mem;

/// A key with its hash, and a value that belongs to it.
#[derive(Drop)]
pub struct Entry<K, V> {
    pub hash: u64,
    pub key: K,
    pub value: V,
}

/// A key at each place, with its hash and a value. Places are numbered from 0, in the order in
/// which they are first used.
///
/// Two functions compare keys, and count each comparison. Two functions write keys, and count each
/// write.
///
/// # Example
///
/// ```
/// let mut keys: Keys<u64, u64> = Keys::new(rt.alloc(), 2)?;
/// keys.push(7, 70, 700);
/// assert!(rt; keys.key_equals(0, &70));
/// let entry = Entry { hash: 9, key: 90, value: None };
/// assert_eq!(rt; keys.replace(0, entry), (7, 70));
/// assert_eq!(rt; *keys.key(0), 90);
/// assert_eq!(rt; *keys.value(0), 700);
/// ```
#[derive(Drop)]
pub struct Keys<K, V, A: Allocator = Global> {
    entries: Vec<Entry<K, V>, A>,
    writes: Count,
    comparisons: Count,
}

impl<K, V, A: Allocator> Model for Keys<K, V, A> {
    ghost use Rattle.std.specs.Prelude.{vec_capacity};
    ghost use Rattle.clock2q_directory.specs.Keys.{KeyPlaces, keys_code, key_places};

    ghost Value = { KeyPlaces K V };

    ghost coded = { keys_code K.code V.code };

    ghost view = { λ k. key_places k.entries.items (vec_capacity k.entries) k.writes.total k.comparisons.total };
}

impl<K, V, A: Allocator> Keys<K, V, A> {
    ghost use Rattle.clock2q_directory.specs.Keys.{key_places, entry, hash_at, key_at, value_at, with_value};
    ghost use Rattle.clock2q_directory.specs.KeysLends.{LendsValueAt};

    /// Returns places for up to `room` keys, with no key yet. It takes all the memory that the
    /// places will ever need.
    ///
    /// # Errors
    ///
    /// `AllocError` if the request for memory is refused.
    pub fn new(alloc: A, room: usize) -> Result<Self, AllocError>
        ensures made { IfOk result (λ k. k ≡ key_places [] room 0 0) }
    {
        Ok(Keys {
            entries: Vec::with_capacity(alloc, room)?,
            writes: Count::new(),
            comparisons: Count::new(),
        })
    }

    /// Returns the number of places that have a key.
    pub fn len(&self) -> usize
        ensures len { result ≡ length self.now.entries }
    {
        self.entries.len()
    }

    /// Returns the hash of the key at a place.
    pub fn hash(&self, place: u32) -> u64
        requires used { place < length self.now.entries }
        ensures hash { hash_at self.now.entries place ≡ Some result }
    {
        self.entries[place as usize].hash
    }

    /// Returns the key at a place. Comparisons that the caller makes aren't counted.
    pub fn key(&self, place: u32) -> &K
        requires used { place < length self.now.entries }
        ensures key { key_at self.now.entries place ≡ Some result.now }
    {
        &self.entries[place as usize].key
    }

    /// Returns the value at a place.
    pub fn value(&self, place: u32) -> &V
        requires used { place < length self.now.entries }
        ensures value { value_at self.now.entries place ≡ Some result.now }
    {
        &self.entries[place as usize].value
    }

    /// Returns a mutable reference to the value at a place.
    pub fn value_mut(&mut self, place: u32) -> &mut V
        requires used { place < length self.old.entries }
        ensures* writes_back { sem 𝓛
            (LendsValueAt K.row V.row A.row A.Allocator self.entry place result) }
        ensures value { value_at self.old.entries place ≡ Some result.now }
    {
        &mut self.entries[place as usize].value
    }

    /// Replaces the value at a place, and returns the old one.
    pub fn replace_value(&mut self, place: u32, value: V) -> V
        requires used { place < length self.old.entries }
        ensures old { value_at self.old.entries place ≡ Some result }
        ensures replaced { self.new ≡
            record self.old { entries = with_value place value self.old.entries } }
    {
        mem::replace(&mut self.entries[place as usize].value, value)
    }

    /// Writes a key to the next place.
    pub fn push(&mut self, hash: u64, key: K, value: V)
        requires room { length self.old.entries < self.old.room }
        ensures pushed { self.new ≡
            record self.old {
              entries = self.old.entries ++ entry hash key value ∷ [];
              writes = self.old.writes + 1;
            } }
    {
        self.writes.tick();
        self.entries.push_reserved(Entry { hash, key, value });
    }

    /// Makes room for up to `room` keys in all. Each key keeps its place.
    ///
    /// # Errors
    ///
    /// `AllocError` if the request for memory is refused. The room is then as it was.
    pub fn reserve(&mut self, room: usize) -> Result<(), AllocError>
        ensures kept { self.new ≡ record self.old { room = self.new.room } }
        ensures more { self.old.room ≤ self.new.room }
        ensures room { OnOk result (room ≤ self.new.room) }
        ensures refused { OnErr result (self.new ≡ self.old) }
    {
        let additional = room.saturating_sub(self.len());
        self.entries.reserve_exact(additional)
    }

    /// Drops every key and value. No place has a key afterwards.
    pub fn clear(&mut self)
    where
        K: Drop,
        V: Drop,
        ensures cleared { self.new ≡ record self.old { entries = [] } }
    {
        self.entries.clear();
    }
}

impl<K: Drop, V: Drop, A: Allocator> Keys<K, V, A> {
    ghost use Rattle.clock2q_directory.specs.Keys.{hash_at, key_at, Writes};

    /// Writes a key to a place: to the next one, which has to come with a value, or over the one that
    /// is there, which is dropped. Without a value, the place keeps the one that it has.
    #[inline(always)]
    pub fn put(&mut self, place: u32, entry: Entry<K, Option<V>>)
        requires next { place ≤ length self.old.entries }
        requires had { IfNone entry.value (place < length self.old.entries) }
        requires room { place < self.old.room }
        ensures entries { Writes entry.hash entry.key entry.value place self.old.entries self.new.entries }
        ensures kept { self.new ≡
            record self.old { entries = self.new.entries; writes = self.old.writes + 1 } }
    {
        let Entry { hash, key, value } = entry;
        if (place as usize) < self.len() {
            self.replace(place, Entry { hash, key, value });
        } else if let Some(value) = value {
            self.push(hash, key, value);
        }
    }

    /// Writes a key over the one at a place, and returns the old hash and key. Without a value, the
    /// place keeps the one that it has.
    pub fn replace(&mut self, place: u32, entry: Entry<K, Option<V>>) -> (u64, K)
        requires used { place < length self.old.entries }
        ensures hash { hash_at self.old.entries place ≡ Some result.0 }
        ensures key { key_at self.old.entries place ≡ Some result.1 }
        ensures entries { Writes entry.hash entry.key entry.value place self.old.entries self.new.entries }
        ensures kept { self.new ≡
            record self.old { entries = self.new.entries; writes = self.old.writes + 1 } }
    {
        self.writes.tick();
        let Entry { hash, key, value } = entry;
        let Some(value) = value else {
            let entry = &mut self.entries[place as usize];
            let old_hash = mem::replace(&mut entry.hash, hash);
            let old_key = mem::replace(&mut entry.key, key);
            return (old_hash, old_key);
        };
        let entry = Entry { hash, key, value };
        let old = mem::replace(&mut self.entries[place as usize], entry);
        (old.hash, old.key)
    }
}

impl<K: Eq, V, A: Allocator> Keys<K, V, A> {
    ghost use Rattle.clock2q_directory.specs.Keys.{is_key_at, comparisons_of};

    /// Returns the first slot among `handles` that has `key`, and counts each comparison. Places
    /// are skipped. The walk of `handles` has not ended yet.
    pub fn find(&mut self, mut handles: Candidates<'_, u32>, key: &K) -> Option<u32>
        requires walking { IsSome handles.end }
        requires used { AllByRecursion (λ place. place < length self.old.entries)
            (slots_among handles.left) }
        ensures found { result ≡
            find (is_key_at K.eq key.now self.old.entries) (slots_among handles.entry.left) }
        ensures counted { self.new ≡
            record self.old {
              comparisons = self.old.comparisons +
                  comparisons_of (is_key_at K.eq key.now self.old.entries)
                  (slots_among handles.entry.left);
            } }
    {
        while let Ok(handle) = handles.peek_or_gap() {
            if let Handle::Resident(slot) = Handle::unpack(handle) {
                if self.key_equals(slot, key) {
                    return Some(slot);
                }
            }
            handles.advance();
        }
        None
    }

    /// Returns the first place among `handles` that has `key`, and counts each comparison. Slots
    /// are skipped.
    pub fn find_remembered(&mut self, mut handles: Candidates<'_, u32>, key: &K) -> Option<u32>
        requires used { AllByRecursion (λ place. place < length self.old.entries)
            (places_among handles.left) }
        ensures found { result ≡
            find (is_key_at K.eq key.now self.old.entries) (places_among handles.entry.left) }
        ensures counted { self.new ≡
            record self.old {
              comparisons = self.old.comparisons +
                  comparisons_of (is_key_at K.eq key.now self.old.entries)
                  (places_among handles.entry.left);
            } }
    {
        while let Some(handle) = handles.next() {
            if let Handle::Remembered(place) = Handle::unpack(handle) {
                if self.key_equals(place, key) {
                    return Some(place);
                }
            }
        }
        None
    }

    /// Returns the first slot among `handles` that has `key`. The comparisons are counted in
    /// `compared` instead.
    pub fn find_counting_in(
        &self,
        mut handles: Candidates<'_, u32>,
        key: &K,
        compared: &mut Count,
    ) -> Option<u32>
        requires used { AllByRecursion (λ place. place < length self.now.entries)
            (slots_among handles.left) }
        ensures found { result ≡
            find (is_key_at K.eq key.now self.now.entries) (slots_among handles.entry.left) }
        ensures counted { compared.new.total ≡
            compared.old.total +
            comparisons_of (is_key_at K.eq key.now self.now.entries)
            (slots_among handles.entry.left) }
    {
        while let Some(handle) = handles.peek() {
            if let Handle::Resident(slot) = Handle::unpack(handle) {
                if self.is_counting_in(slot, key, compared) {
                    return Some(slot);
                }
            }
            handles.advance();
        }
        None
    }

    /// Returns true if `key` equals the key at a place, and counts the comparison.
    pub fn key_equals(&mut self, place: u32, key: &K) -> bool
        requires used { place < length self.old.entries }
        ensures value { result ≡ is_key_at K.eq key.now self.old.entries place }
        ensures counted { self.new ≡ record self.old { comparisons = self.old.comparisons + 1 } }
    {
        self.comparisons.tick();
        *key == self.entries[place as usize].key
    }

    /// Returns true if `key` equals the key at a place, and counts the comparison in `compared`.
    fn is_counting_in(&self, place: u32, key: &K, compared: &mut Count) -> bool
        requires used { place < length self.now.entries }
        ensures value { result ≡ is_key_at K.eq key.now self.now.entries place }
        ensures counted { compared.new.total ≡ compared.old.total + 1 }
    {
        compared.tick();
        *key == self.entries[place as usize].key
    }

    /// Raises the count of comparisons by an amount that the proof of the call picks. A caller that
    /// has to state the count exactly raises it to its bound with this.
    pub fn charge(&mut self)
        ghost more: { ℕ }
        ensures charged { self.new ≡ record self.old { comparisons = self.old.comparisons + more } }
    {
        self.comparisons.raise(&());
    }
}
