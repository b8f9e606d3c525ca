//! Large caches whose keys hash alike, in part or in full, compared with plain lists.

use crate::calls::Call;
use crate::tested::{Position, Tested};
use std::alloc::Global;
use std::test::Fail;
use testing::{LinearHashBuilder, SplitMix64};

type Crowded = Tested<LinearHashBuilder>;

/// Hashes of which only the two highest bits differ.
const FOUR_HASHES: LinearHashBuilder = LinearHashBuilder {
    times: 1 << 62,
    more: 5,
};

/// Puts a quarter more keys than the cache can hold.
fn fill(tested: &mut Crowded, capacity: u64, list: u64) -> Result<(), Fail> {
    for number in 0..capacity.saturating_add(capacity / 4) {
        tested.call(Call::Put(number, number), Position { list, number })?;
    }
    Ok(())
}

/// Makes drawn calls, except those that clear the cache.
fn drive(tested: &mut Crowded, calls: u64, list: u64) -> Result<(), Fail> {
    let mut draws = SplitMix64::new(list);
    for number in 0..calls {
        let position = Position { list, number };
        match Call::drawn(&mut draws, &tested.model, number) {
            Call::Clear => tested.residents_are_same(position)?,
            call => {
                tested.call(call, position)?;
            }
        }
    }
    Ok(())
}

/// An empty cache with this capacity agrees with its lists.
fn is_same(tested: &mut Crowded, capacity: u64, list: u64) -> Result<(), Fail> {
    fill(tested, capacity, list)?;
    drive(tested, 1_000, list)?;
    tested.slots_are_same(Position {
        list,
        number: capacity,
    })
}

/// The same, with a cache made for it, under a hasher.
fn agrees(alloc: Global, capacity: u64, spread: LinearHashBuilder) -> Result<(), Fail> {
    let mut tested = Tested::usual(alloc, capacity as usize, spread)?;
    is_same(&mut tested, capacity, spread.times)
}

/// Makes drawn calls, and looks all keys up by their slots after each.
fn drive_closely(tested: &mut Crowded, calls: u64, list: u64) -> Result<(), Fail> {
    let mut draws = SplitMix64::new(list);
    for number in 0..calls {
        let position = Position { list, number };
        let call = Call::drawn(&mut draws, &tested.model, number);
        tested.call(call, position)?;
        tested.keys_are_same(position)?;
    }
    Ok(())
}

/// A small cache, in which most keys hash alike, agrees with its lists, and lists its keys by hash.
fn lists_by_hash(alloc: Global, capacity: usize) -> Result<(), Fail> {
    let mut tested = Tested::usual(alloc, capacity, FOUR_HASHES)?;
    drive_closely(&mut tested, 500, capacity as u64)?;
    tested.hashes_are_same(FOUR_HASHES)
}

/// Slots are found, hit, removed and listed by hash.
#[test]
fn four_hashes(rt: HostRuntime) -> Result<(), Fail> {
    for capacity in [1, 2, 7, 30] {
        lists_by_hash(rt.alloc(), capacity)?;
    }
    Ok(())
}

#[test]
fn one_hash_for_all(rt: HostRuntime) -> Result<(), Fail> {
    agrees(rt.alloc(), 2_000, LinearHashBuilder { times: 0, more: 0 })
}

/// Hashes that differ only in their lowest bits, in the highest, or in bits between, which no table
/// of this size reads.
#[test]
fn hashes_that_differ_little(rt: HostRuntime) -> Result<(), Fail> {
    for bit in [0u32, 56, 12, 28] {
        let spread = LinearHashBuilder {
            times: 1 << bit,
            more: 0xAB00_0000_0000_000F,
        };
        agrees(rt.alloc(), 200, spread)?;
    }
    Ok(())
}
