//! A set of indices of a trace.

use std::alloc::{AllocError, Allocator};

/// The number of bits of a word.
const BITS: usize = 64;

/// The number of levels of words: 64 to the eleventh power is more than any index.
const LEVELS: usize = 11;

/// Indices of a trace. Each bit of the lowest level is an index, and each bit of a level above is
/// set if a word of the level below has any.
#[derive(Drop)]
pub(crate) struct IndexSet<A: Allocator> {
    words: Vec<u64, A>,
    /// Where the words of each level begin.
    starts: [usize; LEVELS],
}

impl<A: Allocator> IndexSet<A> {
    /// Returns an empty set for indices below `indices`.
    pub(crate) fn new(alloc: A, indices: usize) -> Result<IndexSet<A>, AllocError> {
        let mut starts = [0; LEVELS];
        let mut count = indices;
        let mut words = 0usize;
        for start in starts.iter_mut() {
            *start = words;
            count = (count / BITS).saturating_add(1);
            words = words.saturating_add(count);
        }
        Ok(IndexSet {
            words: vec![in alloc; 0; words]?,
            starts,
        })
    }

    /// Adds an index.
    pub(crate) fn insert(&mut self, index: usize) {
        let mut bit = index;
        for level in 0..LEVELS {
            let word = self.word(level, bit / BITS);
            self.set(level, bit / BITS, word | mask(bit));
            if word != 0 {
                return;
            }
            bit /= BITS;
        }
    }

    /// Removes an index that is in the set.
    pub(crate) fn remove(&mut self, index: usize) {
        let mut bit = index;
        for level in 0..LEVELS {
            let word = self.word(level, bit / BITS) & !mask(bit);
            self.set(level, bit / BITS, word);
            if word != 0 {
                return;
            }
            bit /= BITS;
        }
    }

    /// Returns the first index.
    pub(crate) fn first(&self) -> Option<usize> {
        let mut index = 0usize;
        for level in (0..LEVELS).rev() {
            let word = self.word(level, index);
            if word == 0 {
                return None;
            }
            index = first_bit(index, word);
        }
        Some(index)
    }

    fn word(&self, level: usize, index: usize) -> u64 {
        let start = self.starts.get(level).copied().unwrap_or(0);
        self.words
            .get(start.saturating_add(index))
            .copied()
            .unwrap_or(0)
    }

    fn set(&mut self, level: usize, index: usize, word: u64) {
        let start = self.starts.get(level).copied().unwrap_or(0);
        if let Some(old) = self.words.get_mut(start.saturating_add(index)) {
            *old = word;
        }
    }
}

/// Returns the word with one bit.
fn mask(bit: usize) -> u64 {
    1 << (bit % BITS)
}

/// Returns the first bit that is set in a word, among the bits of its level.
fn first_bit(index: usize, word: u64) -> usize {
    let first = word.trailing_zeros();
    index.saturating_mul(BITS).saturating_add(first as usize)
}
