//! S3-FIFO.

use crate::tested::queue::Queue;
use crate::tested::replayed::Replayed;
use crate::tested::states::{MOST_HITS, States};
use std::alloc::{AllocError, Allocator};

/// S3-FIFO, of 'FIFO Queues are All You Need for Cache Eviction' (2023): a tenth of the room is a
/// queue for new keys. A key that was hit more than once there moves on to the main queue; any
/// other is evicted but remembered, and enters the main queue if it is accessed again. A full main
/// queue evicts a key before the oldest key of the small queue moves into it, not after: the hits
/// can differ by some points.
#[derive(Drop)]
pub(crate) struct S3Fifo<A: Allocator> {
    /// The number of keys that there is still room for.
    free: usize,
    /// The number of keys that the small queue has room for.
    small_room: usize,
    /// The number of keys that the main queue has room for.
    main_room: usize,
    small: Queue<A>,
    main: Queue<A>,
    /// Of the keys evicted from the small queue at most as many are remembered as the main queue has
    /// room for.
    states: States<A>,
}

impl<A: Allocator + Copy> S3Fifo<A> {
    pub(crate) fn new(alloc: A, capacity: usize, keys: u32) -> Result<S3Fifo<A>, AllocError> {
        let small_room = (capacity / 10).max(1);
        let main_room = capacity.saturating_sub(small_room);
        let most = capacity.min(keys as usize);
        Ok(S3Fifo {
            free: capacity,
            small_room,
            main_room,
            small: Queue::new(alloc, most)?,
            main: Queue::new(alloc, most)?,
            states: States::new(alloc, main_room, keys)?,
        })
    }
}

impl<A: Allocator> S3Fifo<A> {
    fn evict(&mut self) {
        if self.small.len() >= self.small_room {
            self.evict_small();
        } else {
            self.evict_main();
        }
    }

    fn evict_small(&mut self) {
        for _ in 0..self.small.len() {
            let Some(key) = self.small.pop() else {
                return;
            };
            if self.states.hits_of(key) <= 1 {
                self.states.remember(key);
                self.free = self.free.wrapping_add(1);
                return;
            }
            if self.main.len() >= self.main_room {
                self.evict_main();
            }
            self.states.set_hits(key, 0);
            self.main.push(key);
        }
    }

    fn evict_main(&mut self) {
        let rounds = MOST_HITS as usize + 1;
        for _ in 0..self.main.len().saturating_mul(rounds) {
            let Some(key) = self.main.pop() else {
                return;
            };
            let Some(hits) = self.states.hits_of(key).checked_sub(1) else {
                self.states.forget(key);
                self.free = self.free.wrapping_add(1);
                return;
            };
            self.states.set_hits(key, hits);
            self.main.push(key);
        }
    }
}

impl<A: Allocator> Replayed for S3Fifo<A> {
    fn access(&mut self, key: u32) -> bool {
        if self.states.hit(key) {
            return true;
        }
        if self.free == 0 {
            self.evict();
        }
        // if all keys of the small queue moved on, none may have been evicted
        if self.free == 0 {
            self.evict();
        }
        self.free = self.free.saturating_sub(1);
        if self.states.admit(key) {
            self.main.push(key);
        } else {
            self.small.push(key);
        }
        false
    }
}
