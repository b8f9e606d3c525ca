//! A set of indices, with a bit for each, and its last one.
ghost use Rattle.std.specs.Prelude.{◌≡◌, ℕ, ◌-◌, ◌*◌, ◌%◌, ◌^◌, ◌<◌, ◌≤◌, IfOk, false};
ghost use Rattle.simulator_policies.specs.Indices.{bound_of, contains, IsIndices};

use crate::index_set::IndexSet;
use std::alloc::{AllocError, Allocator};

/// The number of indices of a word.
pub(crate) const BITS: usize = 64;

/// A set of indices in two levels: a bit set, and the set of its words that aren't 0.
#[derive(Drop)]
pub(crate) struct Indices<S, A: Allocator> {
    /// A bit for each index. The lowest of a word is that of its last index.
    words: Vec<u64, A>,
    /// The words that aren't 0.
    some: S,
}

impl<S: IndexSet + Drop, A: Allocator> Indices<S, A> {
    /// Returns an empty set of a number of words over a set that is empty.
    pub(crate) fn over(alloc: A, some: S, words: usize) -> Result<Indices<S, A>, AllocError>
        requires few { words < 2 ^ 57 }
        requires whole { S.is_whole some }
        requires wide { words ≤ S.bound some }
        requires empty { (word : ℕ) → S.holds some word ≡ false }
        ensures set { IfOk result (λ set. IsIndices S.is_whole S.bound S.holds set) }
        ensures wide { IfOk result (λ set. bound_of set ≡ 64 * words) }
        ensures empty { IfOk result (λ set. (index : ℕ) → contains set index ≡ false) }
    {
        Ok(Indices {
            words: vec![in alloc; 0; words]?,
            some,
        })
    }
}

impl<S: IndexSet, A: Allocator> IndexSet for Indices<S, A> {
    ghost is_whole = { λ set. IsIndices S.is_whole S.bound S.holds set };

    ghost bound = { λ set. bound_of set };

    ghost holds = { λ set. contains set };

    fn contains(&self, index: usize) -> bool {
        (self.words[index / BITS] >> place_of(index)) & 1 == 1
    }

    fn insert(&mut self, index: usize) {
        let word = index / BITS;
        let bits = self.words[word];
        self.words[word] = bits | (1 << place_of(index));
        if bits == 0 {
            self.some.insert(word);
        }
    }

    fn remove(&mut self, index: usize) {
        let word = index / BITS;
        self.words[word] &= !(1 << place_of(index));
        if self.words[word] == 0 {
            self.some.remove(word);
        }
    }

    fn last(&self) -> Option<usize> {
        let word = self.some.last()?;
        let lowest = self.words[word].trailing_zeros() as usize;
        Some(word * BITS + (BITS - 1 - lowest))
    }
}

/// Returns the place of an index's bit in its word.
fn place_of(index: usize) -> usize
    ensures place { result ≡ 63 - index % 64 }
{
    BITS - 1 - index % BITS
}
