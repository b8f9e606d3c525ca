//! Policies that go through a trace key by key.
ghost use Rattle.std.specs.Prelude.{◌≡◌, IfOk, length};

use crate::tested::arc::Arc;
use crate::tested::lirs::Lirs;
use crate::tested::s3_fifo::S3Fifo;
use crate::tested::sieve::Sieve;
use crate::tested::two_q::TwoQ;
use crate::tested::w_tiny_lfu::WTinyLfu;
use std::alloc::{AllocError, Allocator};
use std::num::NonZeroUsize;

/// A cache of keys that are numbers.
pub(crate) trait Replayed {
    /// Accesses a key, which becomes resident. Returns true on a hit.
    fn access(&mut self, key: u32) -> bool;
}

/// Returns whether each access of a trace hits in a cache.
fn outcomes_of<R: Replayed, A: Allocator>(
    alloc: A,
    mut cache: R,
    trace: &[u32],
) -> Result<Vec<bool, A>, AllocError>
where
    R: Drop,
    ensures long { IfOk result (λ outcomes. length outcomes.items ≡ length trace.now) }
{
    let mut outcomes = Vec::with_capacity(alloc, trace.len())?;
    for key in trace {
        outcomes.push_reserved(cache.access(*key));
    }
    Ok(outcomes)
}

/// Returns whether each access of a trace hits in a new SIEVE cache, of 'SIEVE is Simpler than LRU: an
/// Efficient Turn-Key Eviction Algorithm for Web Caches' (2024). The keys are numbers below `keys`.
///
/// # Errors
///
/// `AllocError` if a request for memory is refused.
///
/// # Cost
///
/// Time in proportion to the trace and to `keys`, whatever the capacity. Memory for a byte an
/// access, a byte a key, and 8 bytes for each key that the cache has room for, but for no more than
/// `keys`.
pub fn sieve_outcomes<A: Allocator + Copy>(
    alloc: A,
    capacity: NonZeroUsize,
    trace: &[u32],
    keys: u32,
) -> Result<Vec<bool, A>, AllocError>
    ensures long { IfOk result (λ outcomes. length outcomes.items ≡ length trace.now) }
{
    outcomes_of(alloc, Sieve::new(alloc, capacity.get(), keys)?, trace)
}

/// Returns whether each access of a trace hits in a new S3-FIFO cache, of 'FIFO Queues are All You
/// Need for Cache Eviction' (2023). A full main queue evicts a key before the oldest key of the
/// small queue moves into it. The keys are numbers below `keys`.
///
/// # Errors
///
/// `AllocError` if a request for memory is refused.
///
/// # Cost
///
/// Time in proportion to the trace and to `keys`, whatever the capacity. Memory for a byte an
/// access, 4 bytes a key, and at most 16 bytes for each key that the cache has room for, but for no
/// more than `keys`.
pub fn s3_fifo_outcomes<A: Allocator + Copy>(
    alloc: A,
    capacity: NonZeroUsize,
    trace: &[u32],
    keys: u32,
) -> Result<Vec<bool, A>, AllocError>
    ensures long { IfOk result (λ outcomes. length outcomes.items ≡ length trace.now) }
{
    outcomes_of(alloc, S3Fifo::new(alloc, capacity.get(), keys)?, trace)
}

/// Returns whether each access of a trace hits in a new ARC cache, of 'ARC: A Self-Tuning, Low
/// Overhead Replacement Cache' (2003). The keys are numbers below `keys`.
///
/// # Errors
///
/// `AllocError` if a request for memory is refused.
///
/// # Cost
///
/// Time in proportion to the trace and to `keys`, whatever the capacity. Memory for a byte an
/// access and 12 bytes a key.
pub fn arc_outcomes<A: Allocator + Copy>(
    alloc: A,
    capacity: NonZeroUsize,
    trace: &[u32],
    keys: u32,
) -> Result<Vec<bool, A>, AllocError>
    ensures long { IfOk result (λ outcomes. length outcomes.items ≡ length trace.now) }
{
    outcomes_of(alloc, Arc::new(alloc, capacity.get(), keys)?, trace)
}

/// Returns whether each access of a trace hits in a new 2Q cache, of '2Q: A Low Overhead High
/// Performance Buffer Management Replacement Algorithm' (1994), in the full version. The queue of
/// new keys has a quarter of the room, and half as many keys are remembered as there is room for.
/// The keys are numbers below `keys`.
///
/// # Errors
///
/// `AllocError` if a request for memory is refused.
///
/// # Cost
///
/// Time in proportion to the trace and to `keys`, whatever the capacity. Memory for a byte an
/// access and 12 bytes a key.
pub fn two_q_outcomes<A: Allocator + Copy>(
    alloc: A,
    capacity: NonZeroUsize,
    trace: &[u32],
    keys: u32,
) -> Result<Vec<bool, A>, AllocError>
    ensures long { IfOk result (λ outcomes. length outcomes.items ≡ length trace.now) }
{
    outcomes_of(alloc, TwoQ::new(alloc, capacity.get(), keys)?, trace)
}

/// Returns whether each access of a trace hits in a new LIRS cache, of 'LIRS: An Efficient Low
/// Inter-reference Recency Set Replacement Policy to Improve Buffer Cache Performance' (2002), with
/// a hundredth of the room for its queue and no bound on its stack. The keys are numbers below
/// `keys`.
///
/// # Errors
///
/// `AllocError` if a request for memory is refused.
///
/// # Cost
///
/// Time in proportion to the trace and to `keys`, whatever the capacity. Memory for a byte an
/// access and 24 bytes a key.
pub fn lirs_outcomes<A: Allocator + Copy>(
    alloc: A,
    capacity: NonZeroUsize,
    trace: &[u32],
    keys: u32,
) -> Result<Vec<bool, A>, AllocError>
    ensures long { IfOk result (λ outcomes. length outcomes.items ≡ length trace.now) }
{
    outcomes_of(alloc, Lirs::new(alloc, capacity.get(), keys)?, trace)
}

/// Returns whether each access of a trace hits in a new W-TinyLFU cache, of 'TinyLFU: A Highly
/// Efficient Cache Admission Policy' (2017), with a window of a hundredth of the room and segmented
/// LRU for the rest, four fifths of it protected. The keys are numbers below `keys`.
///
/// Keys that share all their counters with others are taken for each other, so other numbers for
/// the same keys can change the hits a little.
///
/// # Errors
///
/// `AllocError` if a request for memory is refused.
///
/// # Cost
///
/// Time in proportion to the trace and to `keys`. Memory for a byte an access, 12 bytes a key, and
/// 8 to 16 bytes a key of the capacity.
pub fn w_tiny_lfu_outcomes<A: Allocator + Copy>(
    alloc: A,
    capacity: NonZeroUsize,
    trace: &[u32],
    keys: u32,
) -> Result<Vec<bool, A>, AllocError>
    ensures long { IfOk result (λ outcomes. length outcomes.items ≡ length trace.now) }
{
    outcomes_of(alloc, WTinyLfu::new(alloc, capacity.get(), keys)?, trace)
}
