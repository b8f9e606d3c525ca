//! Caches of a thousand and of a million keys over seeded streams, and lists of a thousand.
//! docs/TESTING.md explains where the figures come from.
ghost use Rattle.std.specs.Prelude.{◌<◌, ◌≤◌};

use crate::accesses::{Hits, on_cache, on_lists};
use crate::model::{Model, Shares};
use clock2q_cache::{Cache, CacheError};
use std::alloc::Global;
use std::num::NonZeroUsize;
use std::test::Fail;
use testing::same;

/// The result of a million accesses with a thousand keys.
const THOUSAND: Hits = Hits {
    count: 730_920,
    sum: 71_444_070_323,
};

/// The result of ten million accesses with a million keys.
const MILLION: Hits = Hits {
    count: 7_902_826,
    sum: 2_927_035_905_532,
};

/// Returns the result of accesses on a new cache.
fn hits_of(alloc: Global, capacity: usize, accesses: u64, spread: u64) -> Result<Hits, CacheError>
    requires some { 0 < spread }
    requires few { spread ≤ 32 }
{
    let capacity = NonZeroUsize::new(capacity).unwrap_or(NonZeroUsize::MIN);
    let mut cache = Cache::new(alloc, capacity)?;
    Ok(on_cache(&mut cache, accesses, spread))
}

#[test]
fn lists_of_a_thousand_keys(rt: HostRuntime) -> Result<(), Fail> {
    let mut lists = Model::new(rt.alloc(), Shares::usual(1_000));
    same(on_lists(&mut lists, 1_000_000, 13)?, THOUSAND)
}

#[test]
fn cache_of_a_thousand_keys(rt: HostRuntime) -> Result<(), Fail> {
    same(hits_of(rt.alloc(), 1_000, 1_000_000, 13)?, THOUSAND)
}

#[test]
fn cache_of_a_million_keys(rt: HostRuntime) -> Result<(), Fail> {
    same(hits_of(rt.alloc(), 1_000_000, 10_000_000, 23)?, MILLION)
}
