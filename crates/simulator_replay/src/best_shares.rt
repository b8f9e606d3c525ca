//! The shares of Clock2Q+ that hit most of a trace, found by replaying some.
ghost use Rattle.std.specs.Prelude.{◌≡◌, ◌<◌, ◌≤◌, ◌^◌, IfErr, IfOk, Some};
ghost use Rattle.std.specs.NonZero.{non_zero_usize_get};
ghost use Rattle.simulator_interface.specs.SimulationError.{IsOfNoDevice};
ghost use Rattle.simulator_replay.specs.BestShares.{AreAllBest, AreBest, HasNoMore, clock2q_hits_after};

use crate::known_hits::KnownHits;
use crate::row::hits_with;
use clock2q_cache::MAX_CAPACITY;
use simulator_interface::{Amount, BestShares, ChosenShares, Policy, Row, SimulationError, Unit};
use simulator_traces::Trace;
use std::alloc::Allocator;
use std::num::NonZeroUsize;

/// The shares that are tried beside the usual ones: Small has from 1 to 50 percent of the capacity,
/// and the window is a quarter of Small, half of it, or all of it. If Small has 1 or 10 percent and
/// the window is half of it, then also with no history, and with one of a quarter or nine tenths of
/// the capacity in place of half.
///
/// # Example
///
/// ```
/// let first = ChosenShares::written("small=1%,window=25%");
/// assert_eq!(rt; TRIED_SHARES.first().copied(), first);
/// ```
pub const TRIED_SHARES: [ChosenShares; 24] = [
    ChosenShares {
        small: ONE,
        window: QUARTER,
        history: None,
    },
    ChosenShares {
        small: ONE,
        window: HALF,
        history: None,
    },
    ChosenShares {
        small: ONE,
        window: ALL,
        history: None,
    },
    ChosenShares {
        small: TWO,
        window: QUARTER,
        history: None,
    },
    ChosenShares {
        small: TWO,
        window: HALF,
        history: None,
    },
    ChosenShares {
        small: TWO,
        window: ALL,
        history: None,
    },
    ChosenShares {
        small: FIVE,
        window: QUARTER,
        history: None,
    },
    ChosenShares {
        small: FIVE,
        window: HALF,
        history: None,
    },
    ChosenShares {
        small: FIVE,
        window: ALL,
        history: None,
    },
    ChosenShares {
        small: TEN,
        window: QUARTER,
        history: None,
    },
    ChosenShares {
        small: TEN,
        window: HALF,
        history: None,
    },
    ChosenShares {
        small: TEN,
        window: ALL,
        history: None,
    },
    ChosenShares {
        small: TWENTY,
        window: QUARTER,
        history: None,
    },
    ChosenShares {
        small: TWENTY,
        window: HALF,
        history: None,
    },
    ChosenShares {
        small: TWENTY,
        window: ALL,
        history: None,
    },
    ChosenShares {
        small: HALF,
        window: QUARTER,
        history: None,
    },
    ChosenShares {
        small: HALF,
        window: HALF,
        history: None,
    },
    ChosenShares {
        small: HALF,
        window: ALL,
        history: None,
    },
    ChosenShares {
        small: ONE,
        window: HALF,
        history: Some(NO_KEYS),
    },
    ChosenShares {
        small: ONE,
        window: HALF,
        history: Some(QUARTER),
    },
    ChosenShares {
        small: ONE,
        window: HALF,
        history: Some(NINE_TENTHS),
    },
    ChosenShares {
        small: TEN,
        window: HALF,
        history: Some(NO_KEYS),
    },
    ChosenShares {
        small: TEN,
        window: HALF,
        history: Some(QUARTER),
    },
    ChosenShares {
        small: TEN,
        window: HALF,
        history: Some(NINE_TENTHS),
    },
];

/// No keys.
const NO_KEYS: Amount = Amount {
    number: 0,
    unit: Unit::Keys,
};

/// One percent.
const ONE: Amount = Amount {
    number: 10_000,
    unit: Unit::Millionths,
};

/// Two percent.
const TWO: Amount = Amount {
    number: 20_000,
    unit: Unit::Millionths,
};

/// Five percent.
const FIVE: Amount = Amount {
    number: 50_000,
    unit: Unit::Millionths,
};

/// Ten percent.
const TEN: Amount = Amount {
    number: 100_000,
    unit: Unit::Millionths,
};

/// Twenty percent.
const TWENTY: Amount = Amount {
    number: 200_000,
    unit: Unit::Millionths,
};

/// A quarter.
const QUARTER: Amount = Amount {
    number: 250_000,
    unit: Unit::Millionths,
};

/// A half.
const HALF: Amount = Amount {
    number: 500_000,
    unit: Unit::Millionths,
};

/// Nine tenths.
const NINE_TENTHS: Amount = Amount {
    number: 900_000,
    unit: Unit::Millionths,
};

/// All.
const ALL: Amount = Amount {
    number: 1_000_000,
    unit: Unit::Millionths,
};

/// Replays a trace in Clock2Q+ with the usual shares and with each of `tried` that fit together in
/// a cache of the capacity, and returns those that hit most of the accesses after the first
/// `skipped` ones. Of shares that hit equally often, it returns the earliest.
///
/// # Errors
///
/// `Capacity` if the capacity is above `MAX_CAPACITY`, `Memory` if a request for memory is refused.
///
/// # Cost
///
/// That of [`clock2q_outcomes`](crate::clock2q_outcomes) for each of the shares.
pub fn best_shares_of<A: Allocator + Copy>(
    alloc: A,
    capacity: NonZeroUsize,
    tried: &[ChosenShares],
    skipped: usize,
    trace: &Trace<A>,
) -> Result<BestShares, SimulationError>
    ensures best { IfOk result (AreBest skipped trace.now.numbers (non_zero_usize_get capacity) tried.now) }
    ensures devices { IfErr result IsOfNoDevice }
{
    if capacity.get() > MAX_CAPACITY {
        let number = capacity.get();
        return Err(SimulationError::Capacity(Amount {
            number,
            unit: Unit::Keys,
        }));
    }
    let usual = clock2q_hits(alloc, capacity, None, skipped, trace)?;
    let mut best = None;
    let mut most = usual;
    for shares in tried {
        let hits = hits_if_fit(alloc, capacity, *shares, skipped, trace)?;
        if most < hits {
            best = Some(*shares);
            most = hits;
        }
    }
    Ok(BestShares {
        capacity,
        usual,
        shares: best,
        hits: most,
    })
}

/// Counts the hits with shares after the skipped accesses, or returns 0 if the shares don't fit
/// together in a cache of the capacity.
fn hits_if_fit<A: Allocator + Copy>(
    alloc: A,
    capacity: NonZeroUsize,
    shares: ChosenShares,
    skipped: usize,
    trace: &Trace<A>,
) -> Result<usize, SimulationError>
    requires few { non_zero_usize_get capacity ≤ 2 ^ 32 }
    ensures most { IfOk result (λ hits. HasNoMore skipped trace.now.numbers (non_zero_usize_get capacity) hits shares) }
    ensures some { IfOk result (λ hits. 0 < hits → hits ≡ clock2q_hits_after skipped trace.now.numbers (non_zero_usize_get capacity) (Some shares)) }
    ensures devices { IfErr result IsOfNoDevice }
{
    if !shares.fit(capacity.get()) {
        return Ok(0);
    }
    clock2q_hits(alloc, capacity, Some(shares), skipped, trace)
}

/// Counts the hits with shares after the skipped accesses.
fn clock2q_hits<A: Allocator + Copy>(
    alloc: A,
    capacity: NonZeroUsize,
    shares: Option<ChosenShares>,
    skipped: usize,
    trace: &Trace<A>,
) -> Result<usize, SimulationError>
    ensures hits { IfOk result (λ hits. hits ≡ clock2q_hits_after skipped trace.now.numbers (non_zero_usize_get capacity) shares) }
    ensures devices { IfErr result IsOfNoDevice }
{
    let (policy, known) = (Policy::Clock2Q, KnownHits::NONE);
    let counted = hits_with(alloc, policy, capacity, shares, skipped, trace, known)?;
    Ok(counted.hits)
}

/// Returns the best shares at the capacity of each row, in order: those of [`best_shares_of`].
///
/// # Errors
///
/// Those of [`best_shares_of`], and `Memory` also if there is no memory for the list.
///
/// # Cost
///
/// That of [`best_shares_of`] for each row.
pub fn all_best_shares_of<A: Allocator + Copy>(
    alloc: A,
    rows: &[Row<A>],
    tried: &[ChosenShares],
    skipped: usize,
    trace: &Trace<A>,
) -> Result<Vec<BestShares, A>, SimulationError>
    ensures best { IfOk result (λ all. AreAllBest tried.now skipped trace.now.numbers rows.now all.items) }
    ensures devices { IfErr result IsOfNoDevice }
{
    let mut all = Vec::new(alloc);
    for row in rows {
        let best = best_shares_of(alloc, row.capacity, tried, skipped, trace)?;
        match all.push(best) {
            Ok(()) => {}
            Err(_) => return Err(SimulationError::Memory),
        }
    }
    Ok(all)
}
