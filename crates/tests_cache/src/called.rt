//! A cache whose calls are given as small values.

use crate::calls::{Answer, Call, is_kept, made_value};
use crate::model::Resident;
use clock2q_cache::{Cache, CacheError};
use std::alloc::{AllocError, Global};
use std::hash::BuildHasher;
use std::num::NonZeroUsize;

/// A cache to be called.
#[derive(Drop)]
pub(crate) struct Called<S: BuildHasher> {
    cache: Cache<u64, u64, S>,
}

impl<S: BuildHasher> Called<S> {
    pub(crate) fn new(cache: Cache<u64, u64, S>) -> Called<S> {
        Called { cache }
    }

    /// Raises the capacity.
    pub(crate) fn grow(&mut self, capacity: NonZeroUsize) -> Result<(), CacheError> {
        self.cache.grow(capacity)
    }

    /// Makes the call, and returns its answer.
    pub(crate) fn answer(&mut self, call: Call) -> Answer {
        match call {
            Call::Put(key, value) => Answer::Value(self.put(key, value)),
            Call::Evict(key, value) => Answer::Left(self.put_evicting(key, value)),
            Call::PutSlot(key, value) => self.put_slot(key, value),
            Call::Get(key) => Answer::Value(self.get(key)),
            Call::GetAt(slot, key) => Answer::Value(self.get_at(slot, key)),
            Call::Set(key, value) => Answer::Value(self.set(key, value)),
            Call::PeekSlot(key) => Answer::Found(self.peek_slot(key)),
            Call::HitSlot(slot) => Answer::Flag(self.hit_slot(slot)),
            Call::RemoveSlot(slot) => Answer::Flag(self.remove_slot(slot)),
            Call::With(key, value) => Answer::Value(self.fetch(key, value)),
            Call::Try(key, offered) => Answer::Value(self.try_fetch(key, offered)),
            Call::Write(key, offered, value) => Answer::Value(self.write(key, offered, value)),
            Call::Slot(key, value) => self.take_slot(key, value),
            Call::Enter(key, value) => self.enter(key, value),
            Call::Remove(key) => Answer::Flag(self.remove(key)),
            Call::Retain(bits, count) => {
                self.retain(bits, count, &[]);
                Answer::Done
            }
            Call::Clear => self.clear(),
            Call::MakeRoom => Answer::Left(self.evict()),
            Call::Prefill(first, more) => self.prefill(first, more),
            Call::Peek(key) => Answer::Value(self.peek(key)),
            Call::Contains(key) => Answer::Flag(self.contains(key)),
            Call::Len => Answer::Number(self.len()),
            Call::IsEmpty => Answer::Flag(self.is_empty()),
            Call::Capacity => Answer::Number(self.capacity()),
        }
    }

    fn put(&mut self, key: u64, value: u64) -> Option<u64> {
        self.cache.put(key, value)
    }

    fn put_evicting(&mut self, key: u64, value: u64) -> Option<(u64, u64)> {
        self.cache.put_evicting(key, value)
    }

    fn put_slot(&mut self, key: u64, value: u64) -> Answer {
        let (slot, occupant) = self.cache.put_slot(key, value);
        Answer::Placed(slot, occupant)
    }

    fn get(&mut self, key: u64) -> Option<u64> {
        self.cache.get(&key).copied()
    }

    fn get_at(&mut self, slot: usize, key: u64) -> Option<u64> {
        self.cache.get_at(slot, &key).copied()
    }

    fn set(&mut self, key: u64, value: u64) -> Option<u64> {
        let held = self.cache.get_mut(&key)?;
        let before = *held;
        *held = value;
        Some(before)
    }

    fn peek_slot(&self, key: u64) -> Option<usize> {
        self.cache.peek_slot(&key)
    }

    fn hit_slot(&mut self, slot: usize) -> bool {
        self.cache.hit_slot(slot)
    }

    fn remove_slot(&mut self, slot: usize) -> bool {
        self.cache.remove_slot(slot)
    }

    fn fetch(&mut self, key: u64, value: u64) -> Option<u64> {
        Some(*self.cache.get_or_insert_with(key, || value))
    }

    fn try_fetch(&mut self, key: u64, offered: Option<u64>) -> Option<u64> {
        match self.cache.try_get_or_insert_with(key, || offered.ok_or(())) {
            Ok(value) => Some(*value),
            Err(()) => None,
        }
    }

    fn write(&mut self, key: u64, offered: Option<u64>, value: u64) -> Option<u64> {
        match self
            .cache
            .try_get_or_insert_with_mut(key, || offered.ok_or(()))
        {
            Ok(held) => {
                let before = *held;
                *held = value;
                Some(before)
            }
            Err(()) => None,
        }
    }

    fn take_slot(&mut self, key: u64, value: u64) -> Answer {
        let (slot, held) = self.cache.get_or_insert_mut(key, || value);
        Answer::Slot(slot, *held)
    }

    fn enter(&mut self, key: u64, value: u64) -> Answer {
        let (slot, held, entered) = self.cache.enter(key, || value);
        Answer::Entered(slot, *held, entered.is_hit, entered.has_evicted)
    }

    fn remove(&mut self, key: u64) -> bool {
        self.cache.remove(&key)
    }

    /// Keeps the residents that the bits say, and returns true if these are all that it is asked about,
    /// in this order.
    fn retain(&mut self, bits: u64, count: u32, residents: &[Resident]) -> bool {
        let mut asked = 0u32;
        let mut left = residents;
        let mut same = true;
        self.cache.retain(|key, value| {
            match left.split_first() {
                Some((first, others)) => {
                    same = same && first.0 == *key && first.2 == *value;
                    left = others;
                }
                None => same = false,
            }
            let stays = is_kept(bits, count, asked);
            asked = asked.saturating_add(1);
            stays
        });
        same && left.is_empty()
    }

    fn evict(&mut self) -> Option<(u64, u64)> {
        let (key, slot) = self.cache.evict()?;
        Some((key, slot as u64))
    }

    fn clear(&mut self) -> Answer {
        self.cache.clear();
        Answer::Done
    }

    fn prefill(&mut self, first: u64, more: u64) -> Answer {
        let mut made = 0u64;
        self.cache.prefill(|| {
            let value = made_value(first, more, made);
            made = made.saturating_add(1);
            value
        });
        Answer::Done
    }

    fn peek(&self, key: u64) -> Option<u64> {
        self.cache.peek(&key).copied()
    }

    fn contains(&self, key: u64) -> bool {
        self.cache.contains(&key)
    }

    fn len(&self) -> usize {
        self.cache.len()
    }

    fn is_empty(&self) -> bool {
        self.cache.is_empty()
    }

    fn capacity(&self) -> usize {
        self.cache.capacity()
    }

    /// Returns the cache's `Debug` text.
    pub(crate) fn text(&self, alloc: Global) -> Result<String, AllocError> {
        format!(in alloc; "{:?}", self.cache)
    }

    /// Returns true if a slot is one of the first that are listed for a hash, of which there are this many.
    pub(crate) fn lists_slot(&self, hash: u64, count: usize, slot: usize) -> bool {
        for nth in 0..count {
            if self.cache.slot_with_hash(hash, nth) == Some(slot) {
                return true;
            }
        }
        false
    }

    /// Returns true if more than this many slots are listed for a hash.
    pub(crate) fn lists_more(&self, hash: u64, count: usize) -> bool {
        self.cache.slot_with_hash(hash, count).is_some()
    }

    /// Returns true if the cache lists exactly these residents, in this order.
    pub(crate) fn lists(&self, residents: &[Resident]) -> bool {
        let mut left = residents;
        for (key, slot, value) in &self.cache {
            match left.split_first() {
                Some((first, others)) if *first == (*key, slot, *value) => left = others,
                _ => return false,
            }
        }
        left.is_empty()
    }

    /// Returns true if `retain` visits exactly these residents, in this order.
    pub(crate) fn holds(&mut self, residents: &[Resident]) -> bool {
        self.retain(0, 0, residents)
    }
}
