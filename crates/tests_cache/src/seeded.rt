//! Lists of calls drawn from seeds: each answer, and the state after it, compared with plain lists.

use crate::calls::Call;
use crate::model::Shares;
use crate::tested::{Position, Tested};
use clock2q_cache::DefaultHashBuilder;
use std::alloc::Global;
use std::test::Fail;
use testing::SplitMix64;

/// The number of close looks at a list.
const LOOKS: u64 = 10;

/// The number of calls that are added before each look.
const CALLS: u64 = 100;

const CAPACITIES: u64 = 60;

/// What the lists of a test have in common.
#[derive(Clone, Copy)]
enum Kind {
    Usual,
    NoSmall,
    ShortestWindow,
    LongestWindow,
    SmallestMain,
}

/// The shares for such a list.
fn shares_of(draws: &mut SplitMix64, kind: Kind, capacity: usize) -> Shares {
    if capacity < 2 {
        return Shares::usual(capacity);
    }
    let most = capacity - 1;
    let drawn = draws.below(most as u64) as usize + 1;
    drawn_shares(kind, capacity, most, drawn)
}

/// The shares for a list of this kind, from the longest Small and a drawn one.
fn drawn_shares(kind: Kind, capacity: usize, most: usize, drawn: usize) -> Shares {
    match kind {
        Kind::Usual => Shares::usual(capacity),
        Kind::NoSmall => Shares::new(capacity, 0, 0),
        Kind::ShortestWindow => Shares::new(capacity, drawn, 1),
        Kind::LongestWindow => Shares::new(capacity, drawn, drawn),
        Kind::SmallestMain => Shares::new(capacity, most, drawn),
    }
}

type Usual = Tested<DefaultHashBuilder>;

fn made(alloc: Global, kind: Kind, shares: Shares) -> Result<Usual, Fail> {
    let hasher = DefaultHashBuilder::new();
    match kind {
        Kind::Usual => Tested::usual(alloc, shares.capacity, hasher),
        _ => Tested::new(alloc, shares, hasher),
    }
}

/// Makes the first calls of a list, and compares after each.
fn drive(tested: &mut Usual, end: Position, draws: &mut SplitMix64) -> Result<(), Fail> {
    let list = end.list;
    for number in 0..end.number {
        let call = Call::drawn(draws, &tested.model, number);
        let position = Position { list, number };
        tested.call(call, position)?;
        tested.sizes_are_same(position)?;
        tested.residents_are_same(position)?;
    }
    Ok(())
}

/// Checks what only mutating calls show: the slots, and which keys are remembered.
fn look_closely(tested: &mut Usual, end: Position) -> Result<(), Fail> {
    tested.slots_are_same(end)?;
    tested.take_apart(end)
}

/// Begins a list in an empty cache, and looks closely at the result.
fn drive_and_look(tested: &mut Usual, end: Position, draws: &mut SplitMix64) -> Result<(), Fail> {
    drive(tested, end, draws)?;
    look_closely(tested, end)
}

/// The same, with a cache made for it.
fn beginning_is_same(alloc: Global, kind: Kind, end: Position) -> Result<(), Fail> {
    let mut draws = SplitMix64::new(end.list);
    let shares = shares_of(&mut draws, kind, end.list as usize);
    let mut tested = made(alloc, kind, shares)?;
    drive_and_look(&mut tested, end, &mut draws)
}

/// A close look ends a run, so each has a run of its own.
fn list_is_same(alloc: Global, kind: Kind, list: u64) -> Result<(), Fail> {
    for look in 1..=LOOKS {
        let end = Position {
            list,
            number: look * CALLS,
        };
        beginning_is_same(alloc, kind, end)?;
    }
    Ok(())
}

/// A list for each capacity.
fn lists_are_same(alloc: Global, kind: Kind) -> Result<(), Fail> {
    for capacity in 1..=CAPACITIES {
        list_is_same(alloc, kind, capacity)?;
    }
    Ok(())
}

/// A list of calls between which the capacity is raised.
fn grown_is_same(alloc: Global, list: u64) -> Result<(), Fail> {
    let mut draws = SplitMix64::new(list);
    let mut tested = made(alloc, Kind::Usual, Shares::usual(list as usize))?;
    for times in 2..=4 {
        let end = Position {
            list,
            number: CALLS,
        };
        drive(&mut tested, end, &mut draws)?;
        tested.grow(list.saturating_mul(times) as usize)?;
    }
    drive_and_look(
        &mut tested,
        Position {
            list,
            number: CALLS,
        },
        &mut draws,
    )
}

#[test]
fn growing(rt: HostRuntime) -> Result<(), Fail> {
    for capacity in 1..=CAPACITIES {
        grown_is_same(rt.alloc(), capacity)?;
    }
    Ok(())
}

#[test]
fn usual_shares(rt: HostRuntime) -> Result<(), Fail> {
    lists_are_same(rt.alloc(), Kind::Usual)
}

#[test]
fn no_small(rt: HostRuntime) -> Result<(), Fail> {
    lists_are_same(rt.alloc(), Kind::NoSmall)
}

#[test]
fn shortest_window(rt: HostRuntime) -> Result<(), Fail> {
    lists_are_same(rt.alloc(), Kind::ShortestWindow)
}

#[test]
fn longest_window(rt: HostRuntime) -> Result<(), Fail> {
    lists_are_same(rt.alloc(), Kind::LongestWindow)
}

#[test]
fn smallest_main(rt: HostRuntime) -> Result<(), Fail> {
    lists_are_same(rt.alloc(), Kind::SmallestMain)
}
