//! SIEVE in a number of bytes.

use crate::tested::byte_replayed::ByteReplayed;
use crate::tested::sized_lists::SizedLists;
use std::alloc::{AllocError, Allocator};

/// The list of residents.
const RESIDENT: u8 = 0;

/// The mark of a key that was hit since the hand passed it or it was admitted.
const HIT: u8 = 1;

/// SIEVE, of 'SIEVE is Simpler than LRU: an Efficient Turn-Key Eviction Algorithm for Web Caches'
/// (2024), in a number of bytes: the hand evicts until a new key fits.
#[derive(Drop)]
pub(crate) struct ByteSieve<A: Allocator> {
    capacity: usize,
    residents: SizedLists<A>,
    /// The key at the hand, or none if it is at the oldest.
    hand: Option<u32>,
}

impl<A: Allocator + Copy> ByteSieve<A> {
    pub(crate) fn new(alloc: A, capacity: usize, keys: u32) -> Result<ByteSieve<A>, AllocError> {
        Ok(ByteSieve {
            capacity,
            residents: SizedLists::new(alloc, keys)?,
            hand: None,
        })
    }
}

impl<A: Allocator> ByteSieve<A> {
    /// Evicts until the residents have at most `room` bytes.
    fn make_room(&mut self, room: usize) {
        for _ in 0..self.residents.len(RESIDENT) {
            if self.residents.bytes(RESIDENT) <= room {
                return;
            }
            self.evict();
        }
    }

    fn evict(&mut self) {
        for _ in 0..=self.residents.len(RESIDENT) {
            let oldest = self.residents.oldest(RESIDENT);
            let Some(key) = self.hand.or(oldest) else {
                return;
            };
            self.hand = self.residents.newer(key);
            if self.residents.mark(key) != HIT {
                self.residents.take(key);
                return;
            }
            self.residents.set_mark(key, 0);
        }
    }
}

impl<A: Allocator> ByteReplayed for ByteSieve<A> {
    fn access(&mut self, key: u32, size: usize) -> bool {
        if self.residents.has(RESIDENT, key) {
            self.residents.set_mark(key, HIT);
            return true;
        }
        if let Some(room) = self.capacity.checked_sub(size) {
            self.make_room(room);
            self.residents.admit(RESIDENT, key, size);
        }
        false
    }
}
