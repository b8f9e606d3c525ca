//! S3-FIFO in a number of bytes.

use crate::tested::byte_replayed::ByteReplayed;
use crate::tested::sized_lists::{MOST_HITS, SizedLists};
use std::alloc::{AllocError, Allocator};

/// The small queue.
const SMALL: u8 = 0;

/// The main queue.
const MAIN: u8 = 1;

/// The keys that are remembered after they were evicted.
const LEFT: u8 = 2;

/// S3-FIFO, of 'FIFO Queues are All You Need for Cache Eviction' (2023), in a number of bytes, with
/// a tenth of them for the small queue. As in libCacheSim a key larger than that tenth isn't
/// admitted, and the keys that are remembered have as many bytes as the main queue has room for.
/// As in keys the main queue evicts before a key moves into it.
#[derive(Drop)]
pub(crate) struct ByteS3Fifo<A: Allocator> {
    capacity: usize,
    /// The number of bytes of the small queue's share.
    small_room: usize,
    /// The number of bytes of the main queue's share.
    main_room: usize,
    lists: SizedLists<A>,
}

impl<A: Allocator + Copy> ByteS3Fifo<A> {
    pub(crate) fn new(alloc: A, capacity: usize, keys: u32) -> Result<ByteS3Fifo<A>, AllocError> {
        let small_room = (capacity / 10).max(1);
        Ok(ByteS3Fifo {
            capacity,
            small_room,
            main_room: capacity.saturating_sub(small_room),
            lists: SizedLists::new(alloc, keys)?,
        })
    }
}

impl<A: Allocator> ByteS3Fifo<A> {
    /// Counts a hit of a key, up to the most, and returns true if it is resident.
    fn hit(&mut self, key: u32) -> bool {
        let is_hit = self.lists.has(SMALL, key) || self.lists.has(MAIN, key);
        if is_hit {
            let hits = self.lists.mark(key).saturating_add(1);
            self.lists.set_mark(key, hits.min(MOST_HITS));
        }
        is_hit
    }

    /// Evicts until the residents have at most `room` bytes.
    fn make_room(&mut self, room: usize) {
        let (small, main) = (self.lists.len(SMALL), self.lists.len(MAIN));
        // each key of the small queue may move to the main queue before it is evicted
        for _ in 0..small.saturating_mul(2).saturating_add(main) {
            let used = self.lists.bytes(SMALL);
            if used.saturating_add(self.lists.bytes(MAIN)) <= room {
                return;
            }
            self.evict();
        }
    }

    fn evict(&mut self) {
        if self.lists.bytes(SMALL) >= self.small_room {
            self.evict_small();
        } else {
            self.lists.evict_unmarked(MAIN);
        }
    }

    fn evict_small(&mut self) {
        for _ in 0..self.lists.len(SMALL) {
            let Some(key) = self.lists.oldest(SMALL) else {
                return;
            };
            if self.lists.mark(key) <= 1 {
                return self.lists.remember(LEFT, key, self.main_room);
            }
            let room = self.main_room.saturating_sub(self.lists.size(key));
            self.lists.sweep(MAIN, room);
            self.lists.set_mark(key, 0);
            self.lists.put(MAIN, key);
        }
    }
}

impl<A: Allocator> ByteReplayed for ByteS3Fifo<A> {
    fn access(&mut self, key: u32, size: usize) -> bool {
        if self.hit(key) {
            return true;
        }
        if size > self.small_room {
            return false;
        }
        self.make_room(self.capacity.saturating_sub(size));
        let is_remembered = self.lists.has(LEFT, key);
        let list = if is_remembered { MAIN } else { SMALL };
        self.lists.admit(list, key, size);
        false
    }
}
