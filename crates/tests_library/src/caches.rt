//! The values of a cache in order, and its refusals.

use clock2q::{Cache, CacheError};
use std::num::NonZeroUsize;
use std::test::Fail;
use testing::same;

#[test]
fn refusals_show(rt: HostRuntime) -> Result<(), Fail> {
    for (refusal, text) in [
        (CacheError::Memory, "no memory"),
        (CacheError::Capacity, "capacity refused"),
    ] {
        let shown = refusal.to_string(rt.alloc())?;
        same(shown.as_str(), text)?;
    }
    Ok(())
}

/// Puts the keys 1 to 4 with ten times themselves, removes two, and puts one more.
fn put_and_removed(cache: &mut Cache<u64, u64>) {
    for key in 1..5 {
        cache.put(key, key * 10);
    }
    cache.remove(&2);
    cache.remove(&4);
    cache.put(5, 50);
}

/// A key takes the slot that was freed last, and a free slot yields nothing.
fn values_are_listed(cache: &mut Cache<u64, u64>) -> Result<(), Fail> {
    put_and_removed(cache);
    let mut digits = 0u64;
    for value in cache.values() {
        digits = digits.wrapping_mul(100).wrapping_add(*value);
    }
    same(digits, 103_050)
}

#[test]
fn values_by_slot(rt: HostRuntime) -> Result<(), Fail> {
    let capacity = NonZeroUsize::new(5).unwrap_or(NonZeroUsize::MIN);
    values_are_listed(&mut Cache::new(rt.alloc(), capacity)?)
}
