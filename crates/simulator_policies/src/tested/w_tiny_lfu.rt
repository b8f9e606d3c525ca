//! W-TinyLFU.

use crate::tested::lists::Lists;
use crate::tested::replayed::Replayed;
use crate::tested::sketch::Sketch;
use std::alloc::{AllocError, Allocator};

/// Keys admitted last.
const WINDOW: u8 = 0;

/// Keys that weren't hit since they left the window, or since they were last protected.
const PROBATION: u8 = 1;

/// Keys that were hit there.
const PROTECTED: u8 = 2;

/// W-TinyLFU, of 'TinyLFU: A Highly Efficient Cache Admission Policy' (2017): new keys enter an LRU
/// window of a hundredth of the room, at least one key. A key that leaves it takes the place of the
/// oldest key on probation if it was accessed more often, as a sketch counts. The rest of the room
/// is segmented LRU, four fifths of it protected. No key is remembered outside the sketch, which
/// counts an access before the key is looked up.
#[derive(Drop)]
pub(crate) struct WTinyLfu<A: Allocator> {
    window: usize,
    main: usize,
    protected: usize,
    lists: Lists<A>,
    sketch: Sketch<A>,
}

impl<A: Allocator + Copy> WTinyLfu<A> {
    pub(crate) fn new(alloc: A, capacity: usize, keys: u32) -> Result<WTinyLfu<A>, AllocError> {
        let window = (capacity / 100).max(1);
        let main = capacity.saturating_sub(window);
        Ok(WTinyLfu {
            window,
            main,
            protected: main.saturating_mul(4) / 5,
            lists: Lists::new(alloc, keys)?,
            sketch: Sketch::new(alloc, capacity)?,
        })
    }
}

impl<A: Allocator> WTinyLfu<A> {
    fn in_main(&self) -> usize {
        let protected = self.lists.len(PROTECTED);
        self.lists.len(PROBATION).saturating_add(protected)
    }

    /// Protects a key. If there are too many, the oldest of them is on probation again.
    fn protect(&mut self, key: u32) {
        self.lists.put(PROTECTED, key);
        if self.lists.len(PROTECTED) > self.protected {
            if let Some(oldest) = self.lists.oldest(PROTECTED) {
                self.lists.put(PROBATION, oldest);
            }
        }
    }

    /// Returns the key of the main part that is evicted first.
    fn victim(&self) -> Option<u32> {
        self.lists
            .oldest(PROBATION)
            .or(self.lists.oldest(PROTECTED))
    }

    /// Admits a key from the window to the main part, or evicts it.
    fn admit(&mut self, candidate: u32) {
        if self.in_main() < self.main {
            self.lists.put(PROBATION, candidate);
            return;
        }
        match self.victim() {
            Some(victim) if self.sketch.count(candidate) > self.sketch.count(victim) => {
                self.lists.take(victim);
                self.lists.put(PROBATION, candidate);
            }
            _ => self.lists.take(candidate),
        }
    }
}

impl<A: Allocator> Replayed for WTinyLfu<A> {
    fn access(&mut self, key: u32) -> bool {
        self.sketch.add(key);
        if self.lists.has(WINDOW, key) {
            self.lists.put(WINDOW, key);
            return true;
        }
        if self.lists.has(PROBATION, key) || self.lists.has(PROTECTED, key) {
            self.protect(key);
            return true;
        }
        self.lists.put(WINDOW, key);
        if self.lists.len(WINDOW) > self.window {
            if let Some(oldest) = self.lists.oldest(WINDOW) {
                self.admit(oldest);
            }
        }
        false
    }
}
