//! The status numbers that constructors and growth return.
ghost use Rattle.std.specs.Prelude.{◌≡◌, ◌≢◌, ◌↔◌};

use clock2q_cache::CacheError;

/// The cache was made, or has grown.
pub const DONE: u32 = 0;
/// A request for memory was refused, and what was taken is given back.
pub const NO_MEMORY: u32 = 1;
/// The capacity is 0 or above 16,777,215.
pub const BAD_CAPACITY: u32 = 2;
/// The shares leave Main no slot or don't fit together, or one is smaller than that of the cache that was to grow.
pub const BAD_POLICY: u32 = 3;

/// Returns the status of a refusal.
pub(crate) fn status_of(refusal: CacheError) -> u32
    ensures numbers { (DONE ≡ 0) × (NO_MEMORY ≡ 1) × (BAD_CAPACITY ≡ 2) × (BAD_POLICY ≡ 3) }
    ensures refused { result ≢ DONE }
    ensures memory { (result ≡ NO_MEMORY) ↔ (refusal ≡ CacheError.Memory) }
    ensures capacity { (result ≡ BAD_CAPACITY) ↔ (refusal ≡ CacheError.Capacity) }
    ensures policy { (result ≡ BAD_POLICY) ↔ (refusal ≡ CacheError.Policy) }
{
    match refusal {
        CacheError::Memory => NO_MEMORY,
        CacheError::Capacity => BAD_CAPACITY,
        CacheError::Policy => BAD_POLICY,
    }
}
