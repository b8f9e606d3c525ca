//! Approximate counts of keys in little memory.

use std::alloc::{AllocError, Allocator};

/// The multiplier of each row: odd, so that different keys have different products.
const ROWS: [u64; 4] = [
    0x9e37_79b9_7f4a_7c15,
    0xbf58_476d_1ce4_e5b9,
    0x94d0_49bb_1331_11eb,
    0xd6e8_feb8_6659_fd93,
];

/// The largest value of a counter.
const MOST: u64 = 15;

/// The bits of a word that are left when its counters are halved: all but the highest of each.
const LOWER: u64 = 0x7777_7777_7777_7777;

/// A count-min sketch: each key has a counter in each of four rows, and shares it with others. Its
/// count is the least of the four. As in Caffeine, there are sixteen counters for each key of the
/// cache's capacity, which is rounded up to a power of two. Each is halved once the number of
/// accesses is ten times the capacity, and again each time half as many follow.
#[derive(Drop)]
pub(crate) struct Sketch<A: Allocator> {
    /// In each word four counters of the first row, then four of each other one.
    words: Vec<u64, A>,
    /// The number of counted accesses, and the number at which the counters are halved.
    added: usize,
    most_added: usize,
}

impl<A: Allocator> Sketch<A> {
    /// Returns a sketch for a cache of some capacity, with no key counted.
    pub(crate) fn new(alloc: A, capacity: usize) -> Result<Sketch<A>, AllocError> {
        let words = capacity.checked_next_power_of_two().ok_or(AllocError)?;
        Ok(Sketch {
            words: vec![in alloc; 0; words]?,
            added: 0,
            most_added: capacity.saturating_mul(10),
        })
    }

    /// Counts an access.
    pub(crate) fn add(&mut self, key: u32) {
        for row in 0..4 {
            let (place, shift) = self.place(row, key);
            if let Some(word) = self.words.get_mut(place) {
                if word.wrapping_shr(shift) & MOST < MOST {
                    *word = word.wrapping_add(1u64.wrapping_shl(shift));
                }
            }
        }
        self.added = self.added.saturating_add(1);
        if self.added >= self.most_added {
            self.halve();
        }
    }

    /// Returns how often a key was accessed lately, or more.
    pub(crate) fn count(&self, key: u32) -> u64 {
        let mut least = MOST;
        for row in 0..4 {
            let (place, shift) = self.place(row, key);
            let word = self.words.get(place).copied().unwrap_or(0);
            least = (word.wrapping_shr(shift) & MOST).min(least);
        }
        least
    }

    fn halve(&mut self) {
        for word in self.words.iter_mut() {
            *word = word.wrapping_shr(1) & LOWER;
        }
        self.added /= 2;
    }

    /// Returns the word that has the counter of a key in a row, and the counter's lowest bit there.
    fn place(&self, row: u32, key: u32) -> (usize, u32) {
        let factor = ROWS.get(row as usize).copied().unwrap_or(1);
        let product = u64::from(key).wrapping_add(1).wrapping_mul(factor);
        let hash = (product >> 32) as usize;
        let words = self.words.len().max(1);
        let counter = (hash / words % 4) as u32;
        let lowest = row.wrapping_mul(16).wrapping_add(counter.wrapping_mul(4));
        (hash % words, lowest)
    }
}
