//! The hits of LRU at many capacities, from one pass over the trace.
ghost use Rattle.std.specs.Prelude.{◌≡◌, ℕ, ◌+◌, ◌<◌, ◌≤◌, ◌^◌, IfOk, get_or, length, map};
ghost use Rattle.std.specs.NonZero.{non_zero_usize_get};
ghost use Rattle.simulator_policies.specs.Policies.{plain_hits, AreBelow};
ghost use Rattle.simulator_policies.specs.CountTree.{sum_in};

use crate::last_accesses::{LastAccesses, lesser};
use crate::plain::PlainPolicy;
use std::alloc::{AllocError, Allocator};
use std::num::NonZeroUsize;

/// Returns the number of accesses of a trace that hit in a new LRU cache of each capacity, in the
/// order of the capacities: what [`plain_hits`](crate::plain_hits) returns for each. The keys are
/// numbers below `keys`.
///
/// # Errors
///
/// `AllocError` if a request for memory is refused.
///
/// # Cost
///
/// One pass over the trace for all capacities, by the stack distances of 'Evaluation Techniques for
/// Storage Hierarchies' (1970): an access hits if fewer other keys were accessed since the last
/// access of its key than the cache has room for. Time in proportion to n log n for n accesses, and
/// to the number of capacities times `keys` at most. Memory for a byte an access, and in proportion
/// to `keys` and to the number of capacities.
///
/// # Example
///
/// ```
/// let trace = [0, 1, 0, 2, 0]; // three different keys
/// let hits = lru_hits_at(rt.alloc(), &[one, two], &trace, 3)?;
/// assert_eq!(rt; hits.as_slice(), [0, 2].as_slice());
/// ```
pub fn lru_hits_at<A: Allocator + Copy>(
    alloc: A,
    capacities: &[NonZeroUsize],
    trace: &[u32],
    keys: u32,
) -> Result<Vec<usize, A>, AllocError>
    requires below { AreBelow keys trace.now }
    ensures hits { IfOk result (λ hits. hits.items
        ≡ map (λ capacity. plain_hits PlainPolicy.LeastRecentlyUsed (non_zero_usize_get capacity) trace.now) capacities.now) }
{
    let counts = distance_counts(alloc, trace, keys)?;
    let mut hits = Vec::new(alloc);
    for capacity in capacities {
        hits.push(sum_below(&counts, capacity.get()))?;
    }
    Ok(hits)
}

/// Returns for each stack distance the number of accesses of a trace that have it.
fn distance_counts<A: Allocator + Copy>(
    alloc: A,
    trace: &[u32],
    keys: u32,
) -> Result<Vec<usize, A>, AllocError>
    requires below { AreBelow keys trace.now }
    ensures hits { IfOk result (λ counts. (capacity : ℕ) → 0 < capacity →
        sum_in (λ n. get_or counts.items n 0) 0 capacity ≡ plain_hits PlainPolicy.LeastRecentlyUsed capacity trace.now) }
    ensures few { IfOk result
        (λ counts. (n : ℕ) → sum_in (λ n. get_or counts.items n 0) 0 n < 2 ^ 64) }
{
    let mut accesses = LastAccesses::new(alloc, trace, keys)?;
    let mut counts: Vec<usize, A> = Vec::new(alloc);
    for at in 0..trace.len() {
        match accesses.access(trace, at) {
            Some(distance) => counts[distance] += 1,
            None => counts.push(0)?,
        }
    }
    Ok(counts)
}

/// Returns the sum of the first `count` numbers, or of all if there are fewer.
fn sum_below(counts: &[usize], count: usize) -> usize
    requires fits { (n : ℕ) → sum_in (λ n. get_or counts.now n 0) 0 n < 2 ^ 64 }
    ensures { result ≡ sum_in (λ n. get_or counts.now n 0) 0 count }
{
    let mut sum = 0;
    for index in 0..lesser(count, counts.len()) {
        sum += counts[index];
    }
    sum
}
