//! CLOCK in a number of bytes.

use crate::tested::byte_replayed::ByteReplayed;
use crate::tested::sized_lists::SizedLists;
use std::alloc::{AllocError, Allocator};

/// The list of residents, from the hand on.
const RESIDENT: u8 = 0;

/// The mark of a key that was hit since the hand passed it or it was admitted.
const HIT: u8 = 1;

/// CLOCK, of 'A Paging Experiment with the Multics System' (1968), in a number of bytes: the hand
/// evicts until a new key fits, which is then the last that it comes to.
#[derive(Drop)]
pub(crate) struct ByteClock<A: Allocator> {
    capacity: usize,
    residents: SizedLists<A>,
}

impl<A: Allocator + Copy> ByteClock<A> {
    pub(crate) fn new(alloc: A, capacity: usize, keys: u32) -> Result<ByteClock<A>, AllocError> {
        Ok(ByteClock {
            capacity,
            residents: SizedLists::new(alloc, keys)?,
        })
    }
}

impl<A: Allocator> ByteReplayed for ByteClock<A> {
    fn access(&mut self, key: u32, size: usize) -> bool {
        if self.residents.has(RESIDENT, key) {
            self.residents.set_mark(key, HIT);
            return true;
        }
        if let Some(room) = self.capacity.checked_sub(size) {
            self.residents.sweep(RESIDENT, room);
            self.residents.admit(RESIDENT, key, size);
        }
        false
    }
}
