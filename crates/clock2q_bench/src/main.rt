//! Measures the handle table and the cache on seeded work. Standard output has the results of the
//! work, and standard error the times. `bench/README.md` explains how instructions are counted.
#![tactic(auto)]

ghost use Rattle.std.specs.Prelude.{◌≡◌, ◌<◌, ◌≤◌, [], All, length};

mod caches;
mod error;
mod hashing;
mod mixing;
mod tables;

use caches::Measured;
use clock2q_handles::Table;
use error::BenchError;
use std::num::NonZeroUsize;
use std::time::{Duration, Instant};

/// The number of entries that are inserted into the table.
const ENTRIES: usize = 1_000_000;

/// The number of accesses to a cache; the largest cache gets five times as many.
const ACCESSES: usize = 2_000_000;

/// The total capacity of the caches of each size that are made and cleared in turn.
const ROOM: usize = 1_000_000;

fn main(rt: HostRuntime) -> Result<(), BenchError> {
    measure_table(&rt, ENTRIES)?;
    measure_cache(&rt, 1_000, ACCESSES, 13)?;
    measure_cache(&rt, 10_000, ACCESSES, 17)?;
    measure_cache(&rt, 100_000, ACCESSES, 20)?;
    measure_cache(&rt, 1_000_000, 5 * ACCESSES, 23)
}

/// Prints how many entries of a table are found and removed, and the times.
fn measure_table(rt: &HostRuntime, entries: usize) -> Result<(), BenchError> {
    let hashes = mixing::hashes(rt.alloc(), entries)?;
    let order = tables::order(rt.alloc(), hashes.len())?;
    let mut table = Table::new(rt.alloc());
    work_table(rt, &mut table, &hashes, &order)
}

/// Inserts each index of the hashes, looks all up, removes them, and prints the results.
fn work_table(
    rt: &HostRuntime,
    table: &mut Table<usize>,
    hashes: &[u64],
    order: &[usize],
) -> Result<(), BenchError>
    requires empty { table.old.homes ≡ [] }
    requires below { All (λ at. at < length hashes.now) order.now }
{
    let start = Instant::now(rt)?;
    tables::insert_all(table, hashes)?;
    let inserted = start.elapsed(rt)?;
    let start = Instant::now(rt)?;
    let sum = tables::find_all(table, hashes, order);
    let found = start.elapsed(rt)?;
    let start = Instant::now(rt)?;
    let removed = tables::remove_all(table, hashes, order);
    let taken = start.elapsed(rt)?;
    let _ = eprintln!(rt; "insertion {inserted:?}, lookup {found:?}, removal {taken:?}");
    println!(rt;
        "table of {}: sum of handles {sum}, removed {removed}, left {}",
        hashes.len(),
        table.len()
    )?;
    Ok(())
}

/// Measures a cache with a capacity on a trace of keys.
fn measure_cache(
    rt: &HostRuntime,
    capacity: usize,
    accesses: usize,
    spread: u64,
) -> Result<(), BenchError>
    requires some { 0 < spread }
    requires few { spread ≤ 32 }
{
    let Some(size) = NonZeroUsize::new(capacity) else {
        return Ok(());
    };
    let keys = caches::trace(rt.alloc(), accesses, spread)?;
    measure_trace(rt, size, &keys)
}

/// Measures a new cache on a trace.
fn measure_trace(rt: &HostRuntime, size: NonZeroUsize, keys: &[u64]) -> Result<(), BenchError> {
    let mut cache = caches::make(rt.alloc(), size)?;
    work_cache(rt, &mut cache, size, keys)
}

/// Prints the number of keys of a trace that were resident, the sum of their values, the sum of a
/// second pass by their slots, and the times; then those of making and clearing.
fn work_cache(
    rt: &HostRuntime,
    cache: &mut Measured,
    size: NonZeroUsize,
    keys: &[u64],
) -> Result<(), BenchError> {
    let start = Instant::now(rt)?;
    let hits = caches::access_all(cache, keys);
    let taken = start.elapsed(rt)?;
    let by_slot = measure_hints(rt, cache, keys)?;
    let _ = eprintln!(rt;
        "cache of {size}: {taken:?}, {} by slot: {:?}",
        by_slot.count, by_slot.taken
    );
    println!(rt;
        "cache of {size}: {} hits of {}, sum of values {}, by slot {}",
        hits.count,
        keys.len(),
        hits.sum,
        by_slot.sum
    )?;
    measure_clearing(rt, cache, keys, size)
}

/// The result of a pass by slots: the number of keys looked up, the sum of their values, modulo
/// 2^64, and the time taken.
#[derive(Clone, Copy)]
struct BySlot {
    count: usize,
    sum: u64,
    taken: Duration,
}

/// Looks the resident keys of a trace up by their slots.
fn measure_hints(
    rt: &HostRuntime,
    cache: &mut Measured,
    keys: &[u64],
) -> Result<BySlot, BenchError> {
    let hints = caches::hints_for(rt.alloc(), cache, keys)?;
    time_hints(rt, cache, &hints.slots, &hints.keys)
}

/// Looks each key up at its slot.
fn time_hints(
    rt: &HostRuntime,
    cache: &mut Measured,
    slots: &[usize],
    keys: &[u64],
) -> Result<BySlot, BenchError> {
    let start = Instant::now(rt)?;
    let sum = caches::hint_all(cache, slots, keys);
    let taken = start.elapsed(rt)?;
    Ok(BySlot {
        count: keys.len(),
        sum,
        taken,
    })
}

/// Prints how long it takes to make caches of a size, and to clear full ones.
fn measure_clearing(
    rt: &HostRuntime,
    cache: &mut Measured,
    keys: &[u64],
    size: NonZeroUsize,
) -> Result<(), BenchError> {
    let mut making = Duration::ZERO;
    let mut clearing = Duration::ZERO;
    for _ in 0..ROOM / size.get() {
        making = making.saturating_add(time_making(rt, size)?);
        caches::bring_first(cache, keys, size.get());
        clearing = clearing.saturating_add(time_clearing(rt, cache)?);
    }
    let _ = eprintln!(rt; "caches of {size}: made in {making:?}, cleared in {clearing:?}");
    Ok(())
}

/// Returns how long it takes to make a cache.
fn time_making(rt: &HostRuntime, size: NonZeroUsize) -> Result<Duration, BenchError> {
    let start = Instant::now(rt)?;
    let made = caches::make(rt.alloc(), size)?;
    let taken = start.elapsed(rt);
    drop(made);
    Ok(taken?)
}

/// Returns how long it takes to clear a cache.
fn time_clearing(rt: &HostRuntime, cache: &mut Measured) -> Result<Duration, BenchError> {
    let start = Instant::now(rt)?;
    caches::clear(cache);
    Ok(start.elapsed(rt)?)
}
