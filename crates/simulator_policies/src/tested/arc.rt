//! ARC.

use crate::tested::lists::Lists;
use crate::tested::replayed::Replayed;
use std::alloc::{AllocError, Allocator};
use std::num::nearest_usize_to_f64;

/// Residents accessed once, and those accessed again.
const ONCE: u8 = 0;

const AGAIN: u8 = 1;

/// Keys evicted from each of them.
const LEFT_ONCE: u8 = 2;

const LEFT_AGAIN: u8 = 3;

/// ARC, of 'ARC: A Self-Tuning, Low Overhead Replacement Cache' (2003): keys accessed once and keys
/// accessed again have lists of their own, each with a list of the keys evicted from it. A key that
/// is accessed again after its eviction makes room for its list at the other's cost.
#[derive(Drop)]
pub(crate) struct Arc<A: Allocator> {
    capacity: usize,
    lists: Lists<A>,
    /// How many of the residents should have been accessed once.
    target: f64,
}

impl<A: Allocator + Copy> Arc<A> {
    pub(crate) fn new(alloc: A, capacity: usize, keys: u32) -> Result<Arc<A>, AllocError> {
        Ok(Arc {
            capacity,
            lists: Lists::new(alloc, keys)?,
            target: 0.0,
        })
    }
}

impl<A: Allocator> Arc<A> {
    fn size(&self, list: u8) -> f64 {
        nearest_usize_to_f64(self.lists.len(list))
    }

    /// Evicts the oldest key of one of the lists of residents to its list of evicted keys.
    fn replace(&mut self, key: u32) {
        let once = self.size(ONCE);
        let is_above = once > self.target
            || (once >= self.target && self.lists.has(LEFT_AGAIN, key));
        let (from, to) = if self.lists.len(ONCE) > 0 && is_above {
            (ONCE, LEFT_ONCE)
        } else {
            (AGAIN, LEFT_AGAIN)
        };
        if let Some(oldest) = self.lists.oldest(from) {
            self.lists.put(to, oldest);
        }
    }

    fn drop_oldest(&mut self, list: u8) {
        if let Some(oldest) = self.lists.oldest(list) {
            self.lists.take(oldest);
        }
    }

    /// Moves the target for a key that is accessed again after its eviction.
    fn adapt(&mut self, key: u32) {
        let (once, again) = (self.size(LEFT_ONCE), self.size(LEFT_AGAIN));
        if self.lists.has(LEFT_ONCE, key) {
            let step = if once >= again { 1.0 } else { again / once };
            self.target = (self.target + step).min(nearest_usize_to_f64(self.capacity));
        } else {
            let step = if again >= once { 1.0 } else { once / again };
            self.target = (self.target - step).max(0.0);
        }
    }

    /// Makes room for a key that is new to all four lists.
    fn make_room(&mut self, key: u32) {
        let once = self.lists.len(ONCE);
        let known_once = once.saturating_add(self.lists.len(LEFT_ONCE));
        let again = self.lists.len(AGAIN);
        let known = known_once
            .saturating_add(again)
            .saturating_add(self.lists.len(LEFT_AGAIN));
        if known_once >= self.capacity {
            if once >= self.capacity {
                self.drop_oldest(ONCE);
                return;
            }
            self.drop_oldest(LEFT_ONCE);
        } else {
            if known < self.capacity {
                return;
            }
            if known >= self.capacity.saturating_mul(2) {
                self.drop_oldest(LEFT_AGAIN);
            }
        }
        self.replace(key);
    }
}

impl<A: Allocator> Replayed for Arc<A> {
    fn access(&mut self, key: u32) -> bool {
        let is_hit = self.lists.has(ONCE, key) || self.lists.has(AGAIN, key);
        if is_hit {
            self.lists.put(AGAIN, key);
        } else if self.lists.has(LEFT_ONCE, key) || self.lists.has(LEFT_AGAIN, key) {
            self.adapt(key);
            self.replace(key);
            self.lists.put(AGAIN, key);
        } else {
            self.make_room(key);
            self.lists.put(ONCE, key);
        }
        is_hit
    }
}
