//! Hits that were worked out by hand.

use crate::traces::non_zero;
use simulator_policies::{PlainPolicy, optimal_hits, optimal_outcomes, plain_hits, plain_outcomes};
use std::alloc::{AllocError, Global};
use std::test::Fail;
use testing::same;

/// Checks outcomes, and that their hits are those that are counted without them.
fn are_counted(
    outcomes: Result<Vec<bool>, AllocError>,
    hits: Result<usize, AllocError>,
    wanted: &[bool],
    count: usize,
) -> Result<(), Fail> {
    let outcomes = outcomes?;
    same((outcomes.as_slice(), hits?), (wanted, count))
}

/// A trace of three keys.
const TRACE: [u32; 6] = [0, 1, 0, 2, 0, 2];

/// Checks the outcomes and the hits of a plain policy at two keys.
fn plain_are(
    alloc: Global,
    policy: PlainPolicy,
    wanted: &[bool],
    count: usize,
) -> Result<(), Fail> {
    let outcomes = plain_outcomes(alloc, policy, non_zero(2), &TRACE, 3);
    let hits = plain_hits(alloc, policy, non_zero(2), &TRACE, 3);
    are_counted(outcomes, hits, wanted, count)
}

/// Worked out by hand: LRU keeps 0, FIFO evicts it for 2, and OPT evicts 1, which isn't accessed
/// again.
pub(crate) fn count_outcomes(alloc: Global) -> Result<(), Fail> {
    let recent = [false, false, true, false, true, true];
    plain_are(alloc, PlainPolicy::LeastRecentlyUsed, &recent, 3)?;
    let first = [false, false, true, false, false, true];
    plain_are(alloc, PlainPolicy::FirstInFirstOut, &first, 2)?;
    let outcomes = optimal_outcomes(alloc, non_zero(2), &TRACE, 3);
    let hits = optimal_hits(alloc, non_zero(2), &TRACE, 3);
    are_counted(outcomes, hits, &recent, 3)
}
