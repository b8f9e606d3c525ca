//! Queues of keys that are numbers.

use std::alloc::{AllocError, Allocator};

/// Keys in a ring of memory, which has room for a fixed number of them.
#[derive(Drop)]
pub(crate) struct Queue<A: Allocator> {
    keys: Vec<u32, A>,
    /// The index of the oldest key.
    first: usize,
    /// The index after that of the newest key.
    end: usize,
    len: usize,
}

impl<A: Allocator> Queue<A> {
    /// Returns an empty queue with room for `room` keys.
    pub(crate) fn new(alloc: A, room: usize) -> Result<Queue<A>, AllocError> {
        Ok(Queue {
            keys: vec![in alloc; 0; room]?,
            first: 0,
            end: 0,
            len: 0,
        })
    }

    /// Returns the number of keys.
    pub(crate) fn len(&self) -> usize {
        self.len
    }

    /// Adds a key as the newest. The queue must have room for it.
    pub(crate) fn push(&mut self, key: u32) {
        if let Some(place) = self.keys.get_mut(self.end) {
            *place = key;
        }
        self.end = self.after(self.end);
        self.len = self.len.wrapping_add(1);
    }

    /// Removes the oldest key, and returns it.
    pub(crate) fn pop(&mut self) -> Option<u32> {
        self.len = self.len.checked_sub(1)?;
        let key = self.keys.get(self.first).copied();
        self.first = self.after(self.first);
        key
    }

    /// Returns the index after another one.
    fn after(&self, index: usize) -> usize {
        let next = index.wrapping_add(1);
        if next < self.keys.len() { next } else { 0 }
    }
}
