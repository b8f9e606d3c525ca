//! The cache's measured work.
ghost use Rattle.std.specs.Prelude.{◌<◌, ◌≤◌};

use crate::hashing::Multiplying;
use crate::mixing::mix;
use clock2q_cache::{Cache, CacheError};
use std::alloc::{AllocError, Global};
use std::hash::BuildHasherDefault;
use std::num::NonZeroUsize;

/// The builder of a measured cache's hashers.
pub(crate) type Hashers = BuildHasherDefault<Multiplying>;

/// A measured cache.
pub(crate) type Measured = Cache<u64, u64, Hashers>;

/// The result of a run over a trace: the number of keys that were resident, and the sum of their
/// values, modulo 2^64.
#[derive(Clone, Copy)]
pub(crate) struct Hits {
    pub(crate) count: u64,
    pub(crate) sum: u64,
}

/// Returns a skewed trace of keys: each of the first `spread` powers of two is equally likely to be
/// the size of the range that a key comes from.
pub(crate) fn trace(alloc: Global, length: usize, spread: u64) -> Result<Vec<u64>, AllocError>
    requires some { 0 < spread }
    requires few { spread ≤ 32 }
{
    let mut keys = Vec::with_capacity(alloc, length)?;
    draw(&mut keys, length, spread)?;
    Ok(keys)
}

/// Appends the keys of a trace.
fn draw(keys: &mut Vec<u64>, length: usize, spread: u64) -> Result<(), AllocError>
    requires some { 0 < spread }
    requires few { spread ≤ 32 }
{
    let mut seed: u64 = 1;
    for _ in 0..length {
        seed = seed.wrapping_add(0x9E37_79B9_7F4A_7C15);
        let drawn = mix(seed);
        let range = 1u64 << (drawn % spread);
        let offset = drawn >> 32 & range.wrapping_sub(1);
        keys.push(mix(range.wrapping_add(offset)))?;
    }
    Ok(())
}

/// Makes the accesses that are measured.
#[inline(never)]
pub(crate) fn access_all(cache: &mut Measured, keys: &[u64]) -> Hits {
    access(cache, keys)
}

/// Looks each key up, and puts those that aren't resident, each with its number in the trace. It is
/// the only caller of `get` and `put` here, so that both are inlined as in a program that calls
/// them once.
#[inline(never)]
fn access(cache: &mut Measured, keys: &[u64]) -> Hits {
    let mut hits = Hits { count: 0, sum: 0 };
    for number in 0..keys.len() {
        let key = keys[number];
        if let Some(value) = cache.get(&key) {
            hits.count = hits.count.wrapping_add(1);
            hits.sum = hits.sum.wrapping_add(*value);
        } else {
            cache.put(key, number as u64);
        }
    }
    hits
}

/// Resident keys and their slots.
#[derive(Drop)]
pub(crate) struct Hints {
    pub(crate) slots: Vec<usize>,
    pub(crate) keys: Vec<u64>,
}

/// Returns each access of a trace whose key is resident, with the key's slot.
pub(crate) fn hints_for(
    alloc: Global,
    cache: &mut Measured,
    keys: &[u64],
) -> Result<Hints, AllocError> {
    let mut hints = Hints {
        slots: Vec::new(alloc),
        keys: Vec::new(alloc),
    };
    append_hints(&mut hints, cache, keys)?;
    Ok(hints)
}

/// Appends each resident key with its slot.
fn append_hints(hints: &mut Hints, cache: &mut Measured, keys: &[u64]) -> Result<(), AllocError> {
    for key in keys {
        if let Some(slot) = cache.slot(key) {
            hints.slots.push(slot)?;
            hints.keys.push(*key)?;
        }
    }
    Ok(())
}

/// Looks each key up at its slot, and returns the sum of the values, modulo 2^64.
#[inline(never)]
pub(crate) fn hint_all(cache: &mut Measured, slots: &[usize], keys: &[u64]) -> u64 {
    let mut sum: u64 = 0;
    for number in 0..slots.len().min(keys.len()) {
        if let Some(value) = cache.get_at(slots[number], &keys[number]) {
            sum = sum.wrapping_add(*value);
        }
    }
    sum
}

/// Looks up the first `count` keys of a trace, and puts those that aren't resident.
pub(crate) fn bring_first(cache: &mut Measured, keys: &[u64], count: usize) {
    access(cache, &keys[..count.min(keys.len())]);
}

/// Clears a cache.
#[inline(never)]
pub(crate) fn clear(cache: &mut Measured) {
    cache.clear();
}

/// Makes a cache.
#[inline(never)]
pub(crate) fn make(alloc: Global, capacity: NonZeroUsize) -> Result<Measured, CacheError> {
    Cache::with_hasher(alloc, capacity, BuildHasherDefault::new())
}
