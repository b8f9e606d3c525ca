//! LIRS.

use crate::tested::lists::Lists;
use crate::tested::replayed::Replayed;
use std::alloc::{AllocError, Allocator};

/// The list of the stack, and that of the queue.
const KEYS: u8 = 0;

/// The mark of a resident of low inter-reference recency.
const LOW: u8 = 1;

/// LIRS, of 'LIRS: An Efficient Low Inter-reference Recency Set Replacement Policy to Improve
/// Buffer Cache Performance' (2002): most of the room is for keys accessed again soon (low), and a
/// hundredth of it, at least one key, for the others (high), which wait in a queue and are evicted
/// first. A stack has the keys by their last use, down to the oldest low one. A high key that is
/// accessed again while it is in the stack becomes low, and the oldest low one high. The stack has
/// no bound of its own: it remembers each evicted key until the oldest low one was used after it.
#[derive(Drop)]
pub(crate) struct Lirs<A: Allocator> {
    capacity: usize,
    /// The largest number of low keys.
    most_low: usize,
    low: usize,
    /// The low keys are marked.
    stack: Lists<A>,
    /// The residents that are high.
    queue: Lists<A>,
}

impl<A: Allocator + Copy> Lirs<A> {
    pub(crate) fn new(alloc: A, capacity: usize, keys: u32) -> Result<Lirs<A>, AllocError> {
        let high = (capacity / 100).max(1);
        Ok(Lirs {
            capacity,
            most_low: capacity.saturating_sub(high),
            low: 0,
            stack: Lists::new(alloc, keys)?,
            queue: Lists::new(alloc, keys)?,
        })
    }
}

impl<A: Allocator> Lirs<A> {
    fn is_low(&self, key: u32) -> bool {
        self.stack.mark(key) == LOW
    }

    /// Removes keys that aren't low from the bottom of the stack.
    fn prune(&mut self) {
        for _ in 0..self.stack.len(KEYS) {
            match self.stack.oldest(KEYS) {
                Some(bottom) if !self.is_low(bottom) => self.stack.take(bottom),
                _ => return,
            }
        }
    }

    /// Makes a key low.
    fn raise(&mut self, key: u32) {
        self.queue.take(key);
        self.stack.set_mark(key, LOW);
        self.low = self.low.saturating_add(1);
        if self.low > self.most_low {
            self.lower_oldest();
        }
    }

    /// Makes the oldest low key high: the last of those to be evicted.
    fn lower_oldest(&mut self) {
        self.prune();
        if let Some(bottom) = self.stack.oldest(KEYS) {
            self.stack.set_mark(bottom, 0);
            self.low = self.low.saturating_sub(1);
            self.queue.put(KEYS, bottom);
            self.prune();
        }
    }

    /// Evicts the first key of the queue if there is no room. If it is in the stack, it stays
    /// there.
    fn make_room(&mut self) {
        if self.low.saturating_add(self.queue.len(KEYS)) < self.capacity {
            return;
        }
        if let Some(first) = self.queue.oldest(KEYS) {
            self.queue.take(first);
        }
    }
}

impl<A: Allocator> Replayed for Lirs<A> {
    fn access(&mut self, key: u32) -> bool {
        if self.is_low(key) {
            self.stack.put(KEYS, key);
            self.prune();
            return true;
        }
        let is_hit = self.queue.has(KEYS, key);
        let is_again = self.stack.has(KEYS, key);
        if !is_hit {
            self.make_room();
        }
        self.stack.put(KEYS, key);
        if is_again || self.low < self.most_low {
            self.raise(key);
        } else {
            self.queue.put(KEYS, key);
        }
        is_hit
    }
}
