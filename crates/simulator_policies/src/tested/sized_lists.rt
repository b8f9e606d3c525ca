//! Lists of keys that have sizes.

use crate::tested::lists::Lists;
use std::alloc::{AllocError, Allocator};

/// The number of lists.
const LISTS: usize = 4;

/// The largest mark of a key.
pub(crate) const MOST_HITS: u8 = 3;

/// Lists of keys as those of [`Lists`], with the sum of the sizes of each. A key has the size that
/// it had when it was admitted last.
#[derive(Drop)]
pub(crate) struct SizedLists<A: Allocator> {
    lists: Lists<A>,
    sizes: Vec<usize, A>,
    sums: [usize; LISTS],
}

impl<A: Allocator + Copy> SizedLists<A> {
    /// Returns empty lists for keys below `keys`.
    pub(crate) fn new(alloc: A, keys: u32) -> Result<SizedLists<A>, AllocError> {
        Ok(SizedLists {
            lists: Lists::new(alloc, keys)?,
            sizes: vec![in alloc; 0usize; keys as usize]?,
            sums: [0; LISTS],
        })
    }
}

impl<A: Allocator> SizedLists<A> {
    /// Returns the number of keys of a list.
    pub(crate) fn len(&self, list: u8) -> usize {
        self.lists.len(list)
    }

    /// Returns the sum of the sizes of a list's keys.
    pub(crate) fn bytes(&self, list: u8) -> usize {
        self.sums.get(usize::from(list)).copied().unwrap_or(0)
    }

    /// Returns the size of a key.
    pub(crate) fn size(&self, key: u32) -> usize {
        self.sizes.get(key as usize).copied().unwrap_or(0)
    }

    /// Returns true if a key is in a list.
    pub(crate) fn has(&self, list: u8, key: u32) -> bool {
        self.lists.has(list, key)
    }

    /// Returns the oldest key of a list.
    pub(crate) fn oldest(&self, list: u8) -> Option<u32> {
        self.lists.oldest(list)
    }

    /// Returns the next newer key of the same list, if there is any.
    pub(crate) fn newer(&self, key: u32) -> Option<u32> {
        self.lists.newer(key)
    }

    /// Returns the mark of a key.
    pub(crate) fn mark(&self, key: u32) -> u8 {
        self.lists.mark(key)
    }

    /// Replaces the mark of a key.
    pub(crate) fn set_mark(&mut self, key: u32, mark: u8) {
        self.lists.set_mark(key, mark);
    }

    /// Makes a key without a mark the newest of a list, with a size, and removes it from the list
    /// it was in.
    pub(crate) fn admit(&mut self, list: u8, key: u32, size: usize) {
        self.take(key);
        if let Some(known) = self.sizes.get_mut(key as usize) {
            *known = size;
        }
        self.set_mark(key, 0);
        self.put(list, key);
    }

    /// Makes a key the newest of a list, and removes it from the list it was in.
    pub(crate) fn put(&mut self, list: u8, key: u32) {
        self.take(key);
        self.lists.put(list, key);
        let size = self.size(key);
        if let Some(sum) = self.sums.get_mut(usize::from(list)) {
            *sum = sum.saturating_add(size);
        }
    }

    /// Removes a key from its list, if it is in one.
    pub(crate) fn take(&mut self, key: u32) {
        let (list, size) = (self.lists.list_of(key), self.size(key));
        if let Some(sum) = self.sums.get_mut(usize::from(list)) {
            *sum = sum.saturating_sub(size);
        }
        self.lists.take(key);
    }

    /// Makes a key the newest of a list that remembers keys for a number of bytes, and forgets the
    /// oldest keys of that list while they have more.
    pub(crate) fn remember(&mut self, list: u8, key: u32, most: usize) {
        self.put(list, key);
        for _ in 0..self.len(list) {
            if self.bytes(list) <= most {
                return;
            }
            if let Some(oldest) = self.oldest(list) {
                self.take(oldest);
            }
        }
    }

    /// Evicts the first key of a list without a mark, from the oldest on. Those before it become
    /// the newest, each with its mark less by one.
    pub(crate) fn evict_unmarked(&mut self, list: u8) {
        let rounds = usize::from(MOST_HITS) + 1;
        for _ in 0..self.len(list).saturating_mul(rounds) {
            let Some(key) = self.oldest(list) else {
                return;
            };
            let Some(mark) = self.mark(key).checked_sub(1) else {
                return self.take(key);
            };
            self.set_mark(key, mark);
            self.put(list, key);
        }
    }

    /// Evicts such keys of a list until it has at most `room` bytes.
    pub(crate) fn sweep(&mut self, list: u8, room: usize) {
        for _ in 0..self.len(list) {
            if self.bytes(list) <= room {
                return;
            }
            self.evict_unmarked(list);
        }
    }
}
