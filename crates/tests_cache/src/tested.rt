//! A cache and its plain lists, driven by the same calls.

use crate::called::Called;
use crate::calls::Call;
use crate::model::{Model, Shares, hash_of};
use clock2q_cache::Cache;
use std::alloc::Global;
use std::hash::BuildHasher;
use std::num::NonZeroUsize;
use std::test::Fail;
use testing::{LinearHashBuilder, same_at};

/// The list, and the call in it, that a test is at.
#[derive(Clone, Copy, Debug)]
pub(crate) struct Position {
    pub(crate) list: u64,
    pub(crate) number: u64,
}

/// A cache and its lists.
#[derive(Drop)]
pub(crate) struct Tested<S: BuildHasher> {
    alloc: Global,
    called: Called<S>,
    pub(crate) model: Model,
}

impl<S: BuildHasher + Drop> Tested<S> {
    /// Makes both, empty.
    pub(crate) fn new(alloc: Global, shares: Shares, hasher: S) -> Result<Tested<S>, Fail> {
        let capacity = NonZeroUsize::new(shares.capacity).unwrap_or(NonZeroUsize::MIN);
        let (small, window) = (shares.small, shares.window);
        let cache = Cache::with_policy(alloc, capacity, small, window, hasher)?;
        Ok(Tested::of(alloc, shares, cache))
    }

    /// With the shares of a cache that is made with only a capacity.
    pub(crate) fn usual(alloc: Global, capacity: usize, hasher: S) -> Result<Tested<S>, Fail> {
        let most = NonZeroUsize::new(capacity).unwrap_or(NonZeroUsize::MIN);
        let cache = Cache::with_hasher(alloc, most, hasher)?;
        Ok(Tested::of(alloc, Shares::usual(capacity), cache))
    }

    /// A new cache with these shares, and lists with the same.
    fn of(alloc: Global, shares: Shares, cache: Cache<u64, u64, S>) -> Tested<S> {
        Tested {
            alloc,
            called: Called::new(cache),
            model: Model::new(alloc, shares),
        }
    }

    /// Raises the capacity of both.
    pub(crate) fn grow(&mut self, capacity: usize) -> Result<(), Fail> {
        let most = NonZeroUsize::new(capacity).unwrap_or(NonZeroUsize::MIN);
        self.called.grow(most)?;
        self.model.grow(Shares::usual(capacity));
        Ok(())
    }

    /// Makes the call on both. The answers are the same.
    pub(crate) fn call(&mut self, call: Call, position: Position) -> Result<(), Fail> {
        let answer = self.called.answer(call);
        let wanted = self.model.answer(call)?;
        same_at(answer, wanted, (position, call))
    }

    /// The cache's `Debug` text has the same numbers of keys.
    pub(crate) fn sizes_are_same(&self, position: Position) -> Result<(), Fail> {
        let wanted = self.model.text()?;
        let shown = self.called.text(self.alloc)?;
        same_at(shown.as_str(), wanted.as_str(), position)
    }

    /// The cache holds the same keys with the same values, slot by slot.
    pub(crate) fn residents_are_same(&mut self, position: Position) -> Result<(), Fail> {
        let wanted = self.model.residents()?;
        let is_listed = self.called.lists(&wanted);
        same_at(
            (is_listed, self.called.holds(&wanted)),
            (true, true),
            position,
        )
    }

    /// Looks each resident up at its slot and at the next one.
    pub(crate) fn slots_are_same(&mut self, position: Position) -> Result<(), Fail> {
        for slot in 0..self.model.made() {
            let key = self.model.key_at(slot).unwrap_or(0);
            self.call(Call::GetAt(slot, key), position)?;
            self.call(Call::GetAt(slot + 1, key), position)?;
        }
        Ok(())
    }

    /// Each key has the same slot, if it is resident.
    pub(crate) fn keys_are_same(&mut self, position: Position) -> Result<(), Fail> {
        for key in 0..self.model.keys() {
            self.call(Call::PeekSlot(key), position)?;
        }
        Ok(())
    }

    /// Each resident's slot, and no other, is listed once for its hash under this hasher.
    pub(crate) fn hashes_are_same(&self, spread: LinearHashBuilder) -> Result<(), Fail> {
        for key in 0..self.model.keys() {
            let hash = hash_of(spread, key);
            let count = self.model.hashed(spread, hash);
            let is_listed = match self.model.slot(key) {
                Some(slot) => self.called.lists_slot(hash, count, slot),
                None => true,
            };
            let found = (is_listed, self.called.lists_more(hash, count));
            same_at(found, (true, false), key)?;
        }
        Ok(())
    }

    /// Removes each key, resident or remembered. The `Debug` text shows after each which of the two
    /// it was.
    pub(crate) fn take_apart(&mut self, position: Position) -> Result<(), Fail> {
        for key in 0..self.model.keys() {
            self.call(Call::Remove(key), position)?;
            self.sizes_are_same(position)?;
        }
        Ok(())
    }
}
