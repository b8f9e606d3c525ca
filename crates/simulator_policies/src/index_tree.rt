//! A set of indices, and its last one.
ghost use Rattle.std.specs.Prelude.{◌≡◌, ◌≢◌, ℕ, ◌+◌, ◌*◌, ◌<◌, ◌≤◌, ◌^◌, ◌||◌, IfOk, MatchOption, true, false, length};
ghost use Rattle.simulator_policies.specs.IndexTree.{has, is_marked, first_below, IsIndexTree};

use crate::index_set::IndexSet;
use std::alloc::{AllocError, Allocator};

/// A set of indices. Each leaf of the tree is an index, and is marked if the index is in the set;
/// each node above two others is marked if one of them is.
#[derive(Drop)]
pub(crate) struct IndexTree<A: Allocator> {
    /// The marks, each at half the index of the two below it, and then those of the leaves.
    marks: Vec<bool, A>,
    leaves: usize,
}

impl<A: Allocator> IndexTree<A> {
    /// Returns an empty set for indices below `indices`.
    pub(crate) fn new(alloc: A, indices: usize) -> Result<IndexTree<A>, AllocError>
        requires few { indices < 2 ^ 62 }
        ensures tree { IfOk result (λ tree. IsIndexTree tree) }
        ensures wide { IfOk result (λ tree. indices ≤ tree.leaves) }
        ensures empty { IfOk result (λ tree. (index : ℕ) → has tree index ≡ false) }
    {
        let leaves = leaves_for(indices);
        let mut marks = vec![in alloc; false; 2 * leaves]?;
        // so that every way up ends at a mark
        marks[0] = true;
        Ok(IndexTree { marks, leaves })
    }

    /// Returns true if one of the two below a node is marked.
    fn has_below(&self, node: usize) -> bool
        requires node { node < self.now.leaves }
        requires long { length self.now.marks.items ≡ 2 * self.now.leaves }
        ensures { result ≡ (is_marked self.now (2 * node) || is_marked self.now (2 * node + 1)) }
    {
        self.marks[2 * node] || self.marks[2 * node + 1]
    }
}

impl<A: Allocator> IndexSet for IndexTree<A> {
    ghost is_whole = { λ tree. IsIndexTree tree };

    ghost bound = { λ tree. tree.leaves };

    ghost holds = { λ tree. has tree };

    fn contains(&self, index: usize) -> bool {
        self.marks[self.leaves + index]
    }

    fn insert(&mut self, index: usize) {
        let mut node = self.leaves + index;
        while !self.marks[node] {
            self.marks[node] = true;
            node /= 2;
        }
    }

    fn remove(&mut self, index: usize) {
        let leaf = self.leaves + index;
        self.marks[leaf] = false;
        let mut node = leaf / 2;
        while !self.has_below(node) {
            self.marks[node] = false;
            node /= 2;
        }
    }

    fn last(&self) -> Option<usize> {
        if !self.marks[1] {
            return None;
        }
        let mut node = 1;
        while node < self.leaves {
            let second = 2 * node + 1;
            node = if self.marks[second] { second } else { 2 * node };
        }
        Some(node - self.leaves)
    }
}

/// Returns a power of two that isn't below a number.
fn leaves_for(indices: usize) -> usize
    requires few { indices < 2 ^ 62 }
    ensures some { 0 < result }
    ensures levels { (levels : ℕ) × (result ≡ first_below levels 1) }
    ensures wide { indices ≤ result }
    ensures few { result < 2 ^ 63 }
{
    let mut leaves = 1;
    while leaves < indices {
        leaves *= 2;
    }
    leaves
}
