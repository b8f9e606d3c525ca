//! A count for each block, with the sum of those from any block on.
ghost use Rattle.std.specs.Prelude.{◌≡◌, ◌≢◌, ℕ, ◌+◌, ◌-◌, ◌*◌, ◌<◌, ◌≤◌, ◌^◌, IfOk};
ghost use Rattle.simulator_policies.specs.CountTree.{sum_in, node_of, count_of, IsTree};

use std::alloc::{AllocError, Allocator};

/// A count for each block, and above them the sums of pairs of neighbours, up to the sum of all.
#[derive(Drop)]
pub(crate) struct CountTree<A: Allocator> {
    /// The sums, each at half the index of its two terms, and then the counts.
    nodes: Vec<usize, A>,
    blocks: usize,
}

impl<A: Allocator> CountTree<A> {
    /// Returns a tree with a count of 0 for each block.
    pub(crate) fn new(alloc: A, blocks: usize) -> Result<CountTree<A>, AllocError>
        requires some { 0 < blocks }
        requires fits { 2 * blocks < 2 ^ 64 }
        ensures tree { IfOk result (λ tree. IsTree tree) }
        ensures blocks { IfOk result (λ tree. tree.blocks ≡ blocks) }
        ensures none { IfOk result (λ tree. (node : ℕ) → node_of tree node ≡ 0) }
    {
        Ok(CountTree {
            nodes: vec![in alloc; 0; 2 * blocks]?,
            blocks,
        })
    }

    /// Adds one to the count of a block.
    pub(crate) fn add(&mut self, block: usize)
        requires tree { IsTree self.old }
        requires block { block < self.old.blocks }
        requires room { (node : ℕ) → node_of self.old node < usize.MAX }
        ensures tree { IsTree self.new }
        ensures blocks { self.new.blocks ≡ self.old.blocks }
        ensures counted { count_of self.new block ≡ count_of self.old block + 1 }
        ensures others { (other : ℕ) → other ≢ block →
            count_of self.new other ≡ count_of self.old other }
        ensures most { (node : ℕ) → node_of self.new node ≤ node_of self.old node + 1 }
    {
        let mut node = self.blocks + block;
        while node > 0 {
            self.nodes[node] += 1;
            node /= 2;
        }
    }

    /// Subtracts one from the count of a block.
    pub(crate) fn remove(&mut self, block: usize)
        requires tree { IsTree self.old }
        requires block { block < self.old.blocks }
        requires some { 0 < count_of self.old block }
        ensures tree { IsTree self.new }
        ensures blocks { self.new.blocks ≡ self.old.blocks }
        ensures counted { count_of self.old block ≡ count_of self.new block + 1 }
        ensures others { (other : ℕ) → other ≢ block →
            count_of self.new other ≡ count_of self.old other }
        ensures most { (node : ℕ) → node_of self.new node ≤ node_of self.old node }
    {
        let mut node = self.blocks + block;
        while node > 0 {
            self.nodes[node] -= 1;
            node /= 2;
        }
    }

    /// Returns the sum of the counts from a block on.
    pub(crate) fn sum_from(&self, block: usize) -> usize
        requires tree { IsTree self.now }
        requires block { block ≤ self.now.blocks }
        requires fits { sum_in (count_of self.now) block (self.now.blocks - block) < 2 ^ 64 }
        ensures { result ≡ sum_in (count_of self.now) block (self.now.blocks - block) }
    {
        let mut first = self.blocks + block;
        let mut end = self.nodes.len();
        let mut sum = 0;
        while first < end {
            if first % 2 == 1 {
                sum += self.nodes[first];
                first += 1;
            } else if end % 2 == 1 {
                end -= 1;
                sum += self.nodes[end];
            } else {
                first /= 2;
                end /= 2;
            }
        }
        sum
    }
}
