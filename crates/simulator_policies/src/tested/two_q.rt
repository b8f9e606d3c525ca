//! 2Q.

use crate::tested::lists::Lists;
use crate::tested::replayed::Replayed;
use std::alloc::{AllocError, Allocator};

/// Residents in the queue of new keys.
const IN: u8 = 0;

/// Keys evicted from it.
const OUT: u8 = 1;

/// Residents accessed again after that.
const MAIN: u8 = 2;

/// 2Q, of '2Q: A Low Overhead High Performance Buffer Management Replacement Algorithm' (1994), in
/// the full version with the shares that its authors advise: new keys wait in a queue for a quarter
/// of the room, which a hit doesn't change. Keys evicted from it are remembered, half as many as
/// there is room for, and go into an LRU list if they are accessed again.
#[derive(Drop)]
pub(crate) struct TwoQ<A: Allocator> {
    capacity: usize,
    /// How many keys the queue may keep when a key has to be evicted.
    most_in: usize,
    /// How many keys evicted from it are remembered.
    most_out: usize,
    lists: Lists<A>,
}

impl<A: Allocator + Copy> TwoQ<A> {
    pub(crate) fn new(alloc: A, capacity: usize, keys: u32) -> Result<TwoQ<A>, AllocError> {
        Ok(TwoQ {
            capacity,
            most_in: capacity / 4,
            most_out: capacity / 2,
            lists: Lists::new(alloc, keys)?,
        })
    }
}

impl<A: Allocator> TwoQ<A> {
    fn len(&self) -> usize {
        self.lists.len(IN).saturating_add(self.lists.len(MAIN))
    }

    /// Makes room for a key. A key evicted from the LRU list is forgotten.
    fn make_room(&mut self) {
        if self.len() < self.capacity {
            return;
        }
        if self.lists.len(IN) > self.most_in {
            self.remember_oldest();
        } else if let Some(oldest) = self.lists.oldest(MAIN) {
            self.lists.take(oldest);
        }
    }

    /// Evicts the oldest key of the queue, and remembers it.
    fn remember_oldest(&mut self) {
        if let Some(oldest) = self.lists.oldest(IN) {
            self.lists.put(OUT, oldest);
        }
        if self.lists.len(OUT) > self.most_out {
            if let Some(oldest) = self.lists.oldest(OUT) {
                self.lists.take(oldest);
            }
        }
    }
}

impl<A: Allocator> Replayed for TwoQ<A> {
    fn access(&mut self, key: u32) -> bool {
        if self.lists.has(MAIN, key) {
            self.lists.put(MAIN, key);
            return true;
        }
        if self.lists.has(IN, key) {
            return true;
        }
        // making room may forget this key, so look first whether it was remembered
        let list = if self.lists.has(OUT, key) { MAIN } else { IN };
        self.make_room();
        self.lists.put(list, key);
        false
    }
}
