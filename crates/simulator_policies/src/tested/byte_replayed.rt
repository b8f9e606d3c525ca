//! Policies that go through a trace with sizes, in caches for a number of bytes.
ghost use Rattle.std.specs.Prelude.{◌≡◌, IfOk, length};

use crate::tested::byte_clock::ByteClock;
use crate::tested::byte_clock2q::{ByteClock2Q, ByteShares};
use crate::tested::byte_s3_fifo::ByteS3Fifo;
use crate::tested::byte_sieve::ByteSieve;
use std::alloc::{AllocError, Allocator};

/// A cache for a number of bytes, of keys that are numbers.
pub(crate) trait ByteReplayed {
    /// Accesses a key with a size. If it isn't resident it becomes so, unless it is too large, and
    /// keeps the size while it is resident. Returns true on a hit.
    fn access(&mut self, key: u32, size: usize) -> bool;
}

/// Returns whether each access of a trace with sizes hits in a cache.
fn byte_outcomes_of<R: ByteReplayed, A: Allocator>(
    alloc: A,
    mut cache: R,
    trace: &[u32],
    sizes: &[usize],
) -> Result<Vec<bool, A>, AllocError>
where
    R: Drop,
    requires sized { length sizes.now ≡ length trace.now }
    ensures long { IfOk result (λ outcomes. length outcomes.items ≡ length trace.now) }
{
    let mut outcomes = Vec::with_capacity(alloc, trace.len())?;
    for at in 0..trace.len() {
        outcomes.push_reserved(cache.access(trace[at], sizes[at]));
    }
    Ok(outcomes)
}

/// Returns whether each access of a trace hits in a new SIEVE cache, of 'SIEVE is Simpler than LRU: an
/// Efficient Turn-Key Eviction Algorithm for Web Caches' (2024), for `capacity` bytes. A key comes
/// with the size of its access, and keeps it while it is resident. A key larger than the cache isn't
/// admitted, and for another one the hand evicts until it fits. The keys are numbers below `keys`.
///
/// # Errors
///
/// `AllocError` if a request for memory is refused.
///
/// # Cost
///
/// Time in proportion to the trace and to `keys`, whatever the capacity. Memory for a byte an access
/// and 20 bytes a key.
///
/// # Example
///
/// ```
/// let (trace, sizes) = ([0, 1, 0, 2, 0], [40, 60, 40, 70, 40]); // 2 takes the room of 0 and 1
/// let outcomes = sieve_byte_outcomes(rt.alloc(), 100, &trace, &sizes, 3)?;
/// assert_eq!(rt; outcomes.as_slice(), [false, false, true, false, false].as_slice());
/// ```
pub fn sieve_byte_outcomes<A: Allocator + Copy>(
    alloc: A,
    capacity: usize,
    trace: &[u32],
    sizes: &[usize],
    keys: u32,
) -> Result<Vec<bool, A>, AllocError>
    requires sized { length sizes.now ≡ length trace.now }
    ensures long { IfOk result (λ outcomes. length outcomes.items ≡ length trace.now) }
{
    byte_outcomes_of(alloc, ByteSieve::new(alloc, capacity, keys)?, trace, sizes)
}

/// Returns whether each access of a trace hits in a new CLOCK cache, of 'A Paging Experiment with the
/// Multics System' (1968), for `capacity` bytes. Sizes are those of [`sieve_byte_outcomes`].
///
/// # Errors
///
/// `AllocError` if a request for memory is refused.
///
/// # Cost
///
/// That of [`sieve_byte_outcomes`].
///
/// # Example
///
/// ```
/// let (trace, sizes) = ([0, 1, 0, 2, 0], [40, 50, 40, 30, 40]); // the hand evicts 1 for 2
/// let outcomes = clock_byte_outcomes(rt.alloc(), 100, &trace, &sizes, 3)?;
/// assert_eq!(rt; outcomes.as_slice(), [false, false, true, false, true].as_slice());
/// ```
pub fn clock_byte_outcomes<A: Allocator + Copy>(
    alloc: A,
    capacity: usize,
    trace: &[u32],
    sizes: &[usize],
    keys: u32,
) -> Result<Vec<bool, A>, AllocError>
    requires sized { length sizes.now ≡ length trace.now }
    ensures long { IfOk result (λ outcomes. length outcomes.items ≡ length trace.now) }
{
    byte_outcomes_of(alloc, ByteClock::new(alloc, capacity, keys)?, trace, sizes)
}

/// Returns whether each access of a trace hits in a new S3-FIFO cache, of 'FIFO Queues are All You
/// Need for Cache Eviction' (2023), for `capacity` bytes, of which the small queue has a tenth. As in
/// libCacheSim a key larger than that tenth isn't admitted, and the keys that are remembered have at
/// most as many bytes as the main queue has room for. Sizes are otherwise those of
/// [`sieve_byte_outcomes`].
///
/// # Errors
///
/// `AllocError` if a request for memory is refused.
///
/// # Cost
///
/// That of [`sieve_byte_outcomes`].
///
/// # Example
///
/// ```
/// let (trace, sizes) = ([0, 1, 0, 1], [10, 11, 10, 11]); // 1 is larger than a tenth
/// let outcomes = s3_fifo_byte_outcomes(rt.alloc(), 100, &trace, &sizes, 2)?;
/// assert_eq!(rt; outcomes.as_slice(), [false, false, true, false].as_slice());
/// ```
pub fn s3_fifo_byte_outcomes<A: Allocator + Copy>(
    alloc: A,
    capacity: usize,
    trace: &[u32],
    sizes: &[usize],
    keys: u32,
) -> Result<Vec<bool, A>, AllocError>
    requires sized { length sizes.now ≡ length trace.now }
    ensures long { IfOk result (λ outcomes. length outcomes.items ≡ length trace.now) }
{
    byte_outcomes_of(alloc, ByteS3Fifo::new(alloc, capacity, keys)?, trace, sizes)
}

/// Returns whether each access of a trace hits in a new Clock2Q+ cache for `capacity` bytes, with
/// shares of them. Small's oldest keys leave until a new key fits in Small, and those that Main's
/// hand comes to until it fits in the cache. With sizes of 1 the outcomes are those of a cache for as
/// many keys with the same shares. Sizes are otherwise those of [`sieve_byte_outcomes`].
///
/// # Errors
///
/// `AllocError` if a request for memory is refused.
///
/// # Cost
///
/// That of [`sieve_byte_outcomes`], and 8 bytes a key.
///
/// # Example
///
/// ```
/// let (trace, sizes) = ([0, 1, 0, 2, 0], [40, 50, 40, 30, 40]);
/// let shares = ByteShares::usual(100); // 0 and 1 enter Main, and its hand evicts 1 for 2
/// let outcomes = clock2q_byte_outcomes(rt.alloc(), 100, shares, &trace, &sizes, 3)?;
/// assert_eq!(rt; outcomes.as_slice(), [false, false, true, false, true].as_slice());
/// ```
pub fn clock2q_byte_outcomes<A: Allocator + Copy>(
    alloc: A,
    capacity: usize,
    shares: ByteShares,
    trace: &[u32],
    sizes: &[usize],
    keys: u32,
) -> Result<Vec<bool, A>, AllocError>
    requires sized { length sizes.now ≡ length trace.now }
    ensures long { IfOk result (λ outcomes. length outcomes.items ≡ length trace.now) }
{
    let cache = ByteClock2Q::new(alloc, capacity, shares, keys)?;
    byte_outcomes_of(alloc, cache, trace, sizes)
}
