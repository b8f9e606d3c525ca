//! The last access of each key so far, and the number of keys accessed since then.
ghost use Rattle.std.specs.Prelude.{◌≡◌, ℕ, ◌+◌, ◌<◌, ◌≤◌, min, IfOk, get_or, length, slice_index};
ghost use Rattle.simulator_policies.specs.Policies.{AreBelow};
ghost use Rattle.simulator_policies.specs.Stamps.{held_at, AreStamped, AreStamps};
ghost use Rattle.simulator_policies.specs.StackDistances.{recent_after, stack_distance};
ghost use Rattle.simulator_policies.specs.LastAccesses.{recent_by, newest, other_newest, AreCounts, IsCounting};

use crate::count_tree::CountTree;
use std::alloc::{AllocError, Allocator};

/// The number of indices of the trace in a block.
const BLOCK: usize = 16;

/// A key's stamp is one more than the index in the trace of its last access, or 0 if it had none.
/// The count of a block of indices is the number of last accesses in it.
#[derive(Drop)]
pub(crate) struct LastAccesses<A: Allocator> {
    stamps: Vec<usize, A>,
    counts: CountTree<A>,
}

impl<A: Allocator + Copy> LastAccesses<A> {
    /// Returns the state before a trace, in which no key was accessed.
    pub(crate) fn new(alloc: A, trace: &[u32], keys: u32) -> Result<LastAccesses<A>, AllocError>
        requires below { AreBelow keys trace.now }
        ensures counting { IfOk result (IsCounting trace.now 0) }
    {
        Ok(LastAccesses {
            stamps: no_stamps(alloc, keys)?,
            counts: CountTree::new(alloc, trace.len() / BLOCK + 1)?,
        })
    }
}

impl<A: Allocator> LastAccesses<A> {
    /// Accesses the key at the next index of the trace, and returns its stack distance before that.
    pub(crate) fn access(&mut self, trace: &[u32], at: usize) -> Option<usize>
        requires at { at < length trace.now }
        requires counting { IsCounting trace.now at self.old }
        ensures distance { result ≡
            stack_distance (slice_index trace.now at) (recent_by trace.now at self.old) }
        ensures recent { recent_by trace.now (at + 1) self.new ≡
            recent_after (slice_index trace.now at) (recent_by trace.now at self.old) }
        ensures counting { IsCounting trace.now (at + 1) self.new }
    {
        let distance = self.leave(trace, at);
        self.enter(trace, at);
        distance
    }

    /// Removes the last access of the key at an index from the counts, and returns its distance.
    fn leave(&mut self, trace: &[u32], at: usize) -> Option<usize>
        requires at { at < length trace.now }
        requires counting { IsCounting trace.now at self.old }
        ensures distance { result ≡
            stack_distance (slice_index trace.now at) (recent_by trace.now at self.old) }
        ensures stamps { self.new.stamps ≡ self.old.stamps }
        ensures counts { AreCounts trace.now at
            (other_newest trace.now self.old.stamps.items
            (slice_index trace.now at)) self.new.counts }
    {
        let stamp = self.stamps[trace[at] as usize];
        if stamp == 0 {
            return None;
        }
        let distance = self.newer(trace, stamp, at);
        self.counts.remove((stamp - 1) / BLOCK);
        Some(distance)
    }

    /// Makes the access at an index the last one of its key, which has none in the counts.
    fn enter(&mut self, trace: &[u32], at: usize)
        requires at { at < length trace.now }
        requires known { AreStamped trace.now self.old.stamps.items }
        requires stamped { AreStamps trace.now self.old.stamps.items at }
        requires counts { AreCounts trace.now at
            (other_newest trace.now self.old.stamps.items
            (slice_index trace.now at)) self.old.counts }
        ensures recent { recent_by trace.now (at + 1) self.new ≡
            recent_after (slice_index trace.now at) (recent_by trace.now at self.old) }
        ensures counting { IsCounting trace.now (at + 1) self.new }
    {
        self.stamps[trace[at] as usize] = at + 1;
        self.counts.add(at / BLOCK);
    }

    /// Returns the number of keys whose last access is at `from` or later.
    fn newer(&self, trace: &[u32], from: usize, at: usize) -> usize
        requires from { from ≤ at }
        requires at { at ≤ length trace.now }
        requires counting { IsCounting trace.now at self.now }
        ensures { result ≡ length (held_at trace.now self.now.stamps.items from at) }
    {
        let block = from.div_ceil(BLOCK);
        let edge = lesser(block.saturating_mul(BLOCK), at);
        let mut count = self.counts.sum_from(block);
        for index in from..edge {
            count += self.newest(trace, index);
        }
        count
    }

    /// Returns 1 if the access at an index is the last one of its key, else 0.
    fn newest(&self, trace: &[u32], index: usize) -> usize
        requires index { index < length trace.now }
        requires known { AreStamped trace.now self.now.stamps.items }
        ensures newest { result ≡ newest trace.now self.now.stamps.items index }
        ensures one { result ≤ 1 }
    {
        if self.stamps[trace[index] as usize] == index + 1 {
            1
        } else {
            0
        }
    }
}

/// Returns a stamp of 0 for each key.
fn no_stamps<A: Allocator>(alloc: A, keys: u32) -> Result<Vec<usize, A>, AllocError>
    ensures none { IfOk result (λ stamps. (key : ℕ) → get_or stamps.items key 0 ≡ 0) }
    ensures long { IfOk result (λ stamps. length stamps.items ≡ keys) }
{
    vec![in alloc; 0; keys as usize]
}

/// Returns the lesser of two numbers.
pub(crate) fn lesser(a: usize, b: usize) -> usize
    ensures { result ≡ min a b }
{
    if a < b { a } else { b }
}
