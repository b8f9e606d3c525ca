//! The directory itself, and access to keys and values by slot.
ghost use Rattle.std.specs.Prelude.{◌≡◌, ℕ, ◌+◌, ◌^◌, ◌<◌, Some, length, IfOk};
ghost use Rattle.std.specs.Borrow.{sem};
ghost use Rattle.clock2q_directory.specs.Keys.{key_at, value_at, with_value, is_key_at};
ghost use Rattle.clock2q_directory.specs.Index.{IsWithinCapacity};
ghost use Rattle.clock2q_directory.specs.History.{IsWholeHistory};
ghost use Rattle.clock2q_directory.specs.Directory.{nothing_known};
ghost use Rattle.clock2q_directory.specs.DirectoryLends.{LendsValueOf};

mod changes;
mod growth;
mod lookups;

use crate::history::Ghost;
use crate::index::Index;
use crate::keys::Keys;
use clock2q_queues::order::Order;
use std::alloc::{AllocError, Allocator, Global};
use std::marker::Model;

/// The keys that a cache knows, and the index of all of them. A resident's key is at its slot, with
/// its hash and its value, and a remembered key is at a place, with its hash. The index has the
/// slot or the place of each under the key's hash.
///
/// The caller passes a key's hash with the key, the same hash each time, and says which slots are
/// used. If hashes are well spread, a call compares few keys and costs the same however many are
/// known.
///
/// # Example
///
/// ```
/// let mut directory: Directory<u64, u64> = Directory::new(rt.alloc(), 1, 2)?;
/// directory.enter(0, Newcomer { gap: None, hash: hash_of(1), key: 1, value: Some(10) });
/// directory.replace_remembering(0, Newcomer { gap: None, hash: hash_of(2), key: 2, value: Some(20) });
/// let found = directory.lookup(hash_of(1), &1);
/// assert!(rt; directory.forget(hash_of(1), &1, &found));
/// assert_eq!(rt; *directory.value(0), 20);
/// ```
#[derive(Drop)]
pub struct Directory<K: Eq, V, A: Allocator = Global> {
    index: Index<A>,
    history: Ghost<K, A>,
    residents: Keys<K, V, A>,
}

impl<K: Eq, V, A: Allocator> Model for Directory<K, V, A> {
    ghost use Rattle.clock2q_directory.specs.History.{remembered_from, IsHistory};
    ghost use Rattle.clock2q_directory.specs.Directory.{Known, known, known_code};

    ghost Value = { Known K V };

    ghost coded = { known_code K.code V.code };

    ghost view = { λ d. known (remembered_from d.index d.history.order d.history.keys) d.residents };

    ghost invariant = { λ d. IsHistory K.eq d.index d.history.order d.history.keys };
}

impl<K: Eq + Drop, V: Drop, A: Allocator + Copy> Directory<K, V, A> {
    /// Returns an empty directory for up to `slots` residents and `limit` remembered keys. It takes
    /// all the memory that it will need until it [grows](Directory::grow).
    ///
    /// # Errors
    ///
    /// `AllocError` if a request for memory is refused. Memory taken so far is given back.
    ///
    /// # Cost
    ///
    /// Linear in `slots` and `limit`.
    pub fn new(alloc: A, slots: usize, limit: usize) -> Result<Self, AllocError>
        requires some { 0 < slots }
        requires few { slots < 2 ^ 24 }
        requires short { limit < 2 ^ 24 }
        ensures made { IfOk result (λ d. d ≡ nothing_known slots limit) }
    {
        Ok(Directory {
            index: Index::new(alloc, slots, limit)?,
            history: Ghost {
                order: Order::new(alloc, limit as u32)?,
                keys: Keys::new(alloc, limit)?,
            },
            residents: Keys::new(alloc, slots)?,
        })
    }
}

impl<K: Eq, V, A: Allocator> Directory<K, V, A> {
    /// Returns the number of remembered keys.
    pub fn remembered_len(&self) -> usize
        ensures len { result ≡ length self.now.history.entries }
    {
        self.history.order.len() as usize
    }

    /// States what holds of every directory, for a caller's proof. It does nothing.
    #[inline(always)]
    pub fn facts(&self)
        ensures whole { IsWholeHistory K.eq self.now.history }
        ensures within { IsWithinCapacity self.now.history.places.index }
    {
        self.index.facts();
    }

    /// Returns the number of slots that have a key and a value, with a resident or without.
    pub fn made(&self) -> usize
        ensures made { result ≡ length self.now.residents.entries }
    {
        self.residents.len()
    }

    /// Returns the key at a slot. Comparisons that the caller makes aren't counted.
    pub fn key(&self, slot: u32) -> &K
        requires made { slot < length self.now.residents.entries }
        ensures key { key_at self.now.residents.entries slot ≡ Some result.now }
    {
        self.residents.key(slot)
    }

    /// Returns the value at a slot.
    pub fn value(&self, slot: u32) -> &V
        requires made { slot < length self.now.residents.entries }
        ensures value { value_at self.now.residents.entries slot ≡ Some result.now }
    {
        self.residents.value(slot)
    }

    /// Returns a mutable reference to the value at a slot.
    pub fn value_mut(&mut self, slot: u32) -> &mut V
        requires made { slot < length self.old.residents.entries }
        ensures* writes_back { sem 𝓛
            (LendsValueOf K.row V.row A.row K.eq A.Allocator self.entry slot result) }
        ensures value { value_at self.old.residents.entries slot ≡ Some result.now }
    {
        self.residents.value_mut(slot)
    }

    /// Replaces the value at a slot, and returns the old one.
    pub fn replace_value(&mut self, slot: u32, value: V) -> V
        requires made { slot < length self.old.residents.entries }
        ensures old { value_at self.old.residents.entries slot ≡ Some result }
        ensures replaced { self.new.residents ≡
            record self.old.residents { entries = with_value slot value self.old.residents.entries } }
        ensures kept { self.new.history ≡ self.old.history }
    {
        self.residents.replace_value(slot, value)
    }

    /// Returns true if `key` equals the key at a slot, and counts the comparison.
    pub fn key_equals(&mut self, slot: u32, key: &K) -> bool
        requires made { slot < length self.old.residents.entries }
        ensures value { result ≡ is_key_at K.eq key.now self.old.residents.entries slot }
        ensures counted { self.new.residents ≡
            record self.old.residents { comparisons = self.old.residents.comparisons + 1 } }
        ensures kept { self.new.history ≡ self.old.history }
    {
        self.residents.key_equals(slot, key)
    }

    /// Raises the count of comparisons by an amount that the proof of the call picks. A caller that
    /// has to state the count exactly raises it to its bound with this.
    pub fn charge(&mut self)
        ghost more: { ℕ }
        ensures charged { self.new.residents ≡
            record self.old.residents { comparisons = self.old.residents.comparisons + more } }
        ensures kept { self.new.history ≡ self.old.history }
    {
        self.residents.charge();
    }
}
