//! Belady's optimum.
ghost use Rattle.std.specs.Prelude.{◌≡◌, ℕ, ◌+◌, ◌<◌, ◌≤◌, ◌^◌, IfOk, false, length, map, slice_index};
ghost use Rattle.std.specs.NonZero.{non_zero_usize_get};
ghost use Rattle.clock2q_machine.specs.Hits.{is_in, without};
ghost use Rattle.clock2q_machine.specs.Optimum.{optimal_hits, optimal_outcomes};
ghost use Rattle.simulator_policies.specs.Policies.{AreBelow};
ghost use Rattle.simulator_policies.specs.Indices.{AreLevels, bound_of, contains};
ghost use Rattle.simulator_policies.specs.Awaited.{optimal_at, AreNextUses, IsAwaiting};

use crate::index_set::IndexSet;
use crate::index_tree::IndexTree;
use crate::indices::{BITS, Indices};
use std::alloc::{AllocError, Allocator};
use std::num::NonZeroUsize;

/// Indices in three levels of words, over a tree.
type Levels<A> = Indices<Indices<Indices<IndexTree<A>, A>, A>, A>;

/// The next accesses of the keys that the optimum holds.
#[derive(Drop)]
struct Awaited<A: Allocator> {
    /// The indices of the next accesses of the held keys.
    waiting: Levels<A>,
    /// The number of held keys that are accessed again.
    count: usize,
}

impl<A: Allocator> Awaited<A> {
    /// Accesses the key at an index of the trace, and returns true if it was held. The next uses are
    /// those that [`next_uses`] returns.
    #[inline(always)]
    fn access(&mut self, capacity: NonZeroUsize, trace: &[u32], next: &[usize], at: usize) -> bool
        requires at { at < length trace.now }
        requires next { AreNextUses trace.now next.now }
        requires awaiting { IsAwaiting trace.now at
            (optimal_at (non_zero_usize_get capacity) trace.now at) self.old }
        ensures hit { result ≡
            is_in (slice_index trace.now at)
            (optimal_at (non_zero_usize_get capacity) trace.now at) }
        ensures awaiting { IsAwaiting trace.now (at + 1)
            (optimal_at (non_zero_usize_get capacity) trace.now (at + 1)) self.new }
    {
        let is_hit = self.leave(capacity, trace, at);
        let next_use = next[at];
        if next_use < trace.len() {
            self.waiting.insert(next_use);
            self.count += 1;
        }
        is_hit
    }

    /// If the key of the access at an index is held, no longer waits for that access. If it isn't,
    /// and all keys that are held are accessed again, evicts the one whose next access is last.
    /// Returns true if the key was held.
    #[inline(always)]
    fn leave(&mut self, capacity: NonZeroUsize, trace: &[u32], at: usize) -> bool
        requires at { at < length trace.now }
        requires awaiting { IsAwaiting trace.now at
            (optimal_at (non_zero_usize_get capacity) trace.now at) self.old }
        ensures hit { result ≡
            is_in (slice_index trace.now at)
            (optimal_at (non_zero_usize_get capacity) trace.now at) }
        ensures awaiting { IsAwaiting trace.now (at + 1)
            (without (slice_index trace.now at)
            (optimal_at (non_zero_usize_get capacity) trace.now (at + 1))) self.new }
        ensures room { self.new.count < usize.MAX }
    {
        if self.waiting.contains(at) {
            self.waiting.remove(at);
            self.count -= 1;
            return true;
        }
        if self.count < capacity.get() {
            return false;
        }
        let Some(last) = self.waiting.last() else {
            return false;
        };
        self.waiting.remove(last);
        self.count -= 1;
        false
    }
}

/// Returns an empty set for indices below `indices`.
fn no_indices<A: Allocator + Copy>(alloc: A, indices: usize) -> Result<Levels<A>, AllocError>
    requires few { indices < 2 ^ 62 }
    ensures set { IfOk result AreLevels }
    ensures wide { IfOk result (λ set. indices ≤ bound_of set) }
    ensures empty { IfOk result (λ set. (index : ℕ) → contains set index ≡ false) }
{
    let words = indices / BITS + 1;
    let second = words / BITS + 1;
    let third = second / BITS + 1;
    let tree = IndexTree::new(alloc, third)?;
    let some = Indices::over(alloc, Indices::over(alloc, tree, third)?, second)?;
    Indices::over(alloc, some, words)
}

/// Returns the index of the next access of each access's key, or the number of accesses if there is
/// none.
fn next_uses<A: Allocator + Copy>(
    alloc: A,
    trace: &[u32],
    keys: u32,
) -> Result<Vec<usize, A>, AllocError>
    requires below { AreBelow keys trace.now }
    ensures next { IfOk result (λ next. AreNextUses trace.now next.items) }
{
    let mut soonest = vec![in alloc; trace.len(); keys as usize]?;
    let mut next = vec![in alloc; 0; trace.len()]?;
    for at in (0..trace.len()).rev() {
        let key = trace[at] as usize;
        next[at] = soonest[key];
        soonest[key] = at;
    }
    Ok(next)
}

/// Returns the number of accesses of a trace that hit in a new cache if the key whose next access
/// is farthest away is evicted, of 'A Study of Replacement Algorithms for a Virtual-Storage
/// Computer' (1966). No policy that admits each key that it misses has more hits. The keys are
/// numbers below `keys`.
///
/// # Errors
///
/// `AllocError` if a request for memory is refused.
///
/// # Cost
///
/// Time in proportion to n log n for n accesses at most, and to `keys`, whatever the capacity.
/// Memory for a little over 8 bytes an access, and at first 8 bytes a key.
///
/// # Example
///
/// ```
/// let trace = [0, 1, 2, 0, 1]; // three different keys, in a cache for two: 2 replaces 1
/// assert_eq!(rt; optimal_hits(rt.alloc(), two, &trace, 3)?, 1);
/// ```
pub fn optimal_hits<A: Allocator + Copy>(
    alloc: A,
    capacity: NonZeroUsize,
    trace: &[u32],
    keys: u32,
) -> Result<usize, AllocError>
    requires below { AreBelow keys trace.now }
    ensures hits { IfOk result
        (λ hits. hits ≡ optimal_hits (non_zero_usize_get capacity) trace.now) }
{
    let next = next_uses(alloc, trace, keys)?;
    hits_by(alloc, capacity, trace, &next)
}

/// Returns the number of accesses of a trace that hit in a new cache of each capacity, in the order of
/// the capacities: what [`optimal_hits`] returns for each. The keys are numbers below `keys`.
///
/// # Errors
///
/// `AllocError` if a request for memory is refused.
///
/// # Cost
///
/// That of [`optimal_hits`] for each capacity, but it looks only once for the next accesses, which
/// is about a fifth of it.
///
/// # Example
///
/// ```
/// let trace = [0, 1, 2, 0, 1]; // three different keys
/// let hits = optimal_hits_at(rt.alloc(), &[one, two], &trace, 3)?;
/// assert_eq!(rt; hits.as_slice(), [0, 1].as_slice());
/// ```
pub fn optimal_hits_at<A: Allocator + Copy>(
    alloc: A,
    capacities: &[NonZeroUsize],
    trace: &[u32],
    keys: u32,
) -> Result<Vec<usize, A>, AllocError>
    requires below { AreBelow keys trace.now }
    ensures hits { IfOk result (λ hits. hits.items
        ≡ map (λ capacity. optimal_hits (non_zero_usize_get capacity) trace.now) capacities.now) }
{
    let next = next_uses(alloc, trace, keys)?;
    let mut hits = Vec::new(alloc);
    for capacity in capacities {
        hits.push(hits_by(alloc, *capacity, trace, &next)?)?;
    }
    Ok(hits)
}

/// Does what [`optimal_hits`] does, given the next uses.
fn hits_by<A: Allocator + Copy>(
    alloc: A,
    capacity: NonZeroUsize,
    trace: &[u32],
    next: &[usize],
) -> Result<usize, AllocError>
    requires next { AreNextUses trace.now next.now }
    ensures hits { IfOk result
        (λ hits. hits ≡ optimal_hits (non_zero_usize_get capacity) trace.now) }
{
    let mut awaited = Awaited {
        waiting: no_indices(alloc, trace.len())?,
        count: 0,
    };
    let mut hits = 0;
    for at in 0..trace.len() {
        if awaited.access(capacity, trace, next, at) {
            hits += 1;
        }
    }
    Ok(hits)
}

/// Returns whether each access of a trace hits in a new cache with Belady's optimum, in order, as
/// [`optimal_hits`] counts them. Of the first accesses as many hit as if the trace ended after
/// them. The keys are numbers below `keys`.
///
/// # Errors
///
/// `AllocError` if a request for memory is refused.
///
/// # Cost
///
/// That of [`optimal_hits`], and a byte an access.
///
/// # Example
///
/// ```
/// let trace = [0, 1, 0]; // two different keys, in a cache for two
/// let outcomes = optimal_outcomes(rt.alloc(), two, &trace, 2)?;
/// assert_eq!(rt; outcomes.as_slice(), [false, false, true].as_slice());
/// ```
pub fn optimal_outcomes<A: Allocator + Copy>(
    alloc: A,
    capacity: NonZeroUsize,
    trace: &[u32],
    keys: u32,
) -> Result<Vec<bool, A>, AllocError>
    requires below { AreBelow keys trace.now }
    ensures outcomes { IfOk result
        (λ outcomes. outcomes.items ≡ optimal_outcomes (non_zero_usize_get capacity) trace.now) }
{
    let next = next_uses(alloc, trace, keys)?;
    let mut awaited = Awaited {
        waiting: no_indices(alloc, trace.len())?,
        count: 0,
    };
    let mut outcomes = Vec::with_capacity(alloc, trace.len())?;
    for at in 0..trace.len() {
        outcomes.push_reserved(awaited.access(capacity, trace, &next, at));
    }
    Ok(outcomes)
}
