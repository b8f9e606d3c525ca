//! A trace replayed at one capacity.
ghost use Rattle.std.specs.Prelude.{◌≡◌, ◌+◌, ◌-◌, ◌≤◌, IfErr, IfOk, length, take};
ghost use Rattle.std.specs.NonZero.{non_zero_usize_get};
ghost use Rattle.clock2q_machine.specs.Hits.{hit_count};
ghost use Rattle.simulator_interface.specs.SimulationError.{IsOfNoDevice};
ghost use Rattle.simulator_traces.specs.Trace.{sizes_of};
ghost use Rattle.simulator_replay.specs.ExpectedRows.{IsExpected};
ghost use Rattle.simulator_replay.specs.KnownHits.{AreKnown};
ghost use Rattle.simulator_replay.specs.RowBytes.{AreBytes, HasBytes};
ghost use Rattle.simulator_replay.specs.Rows.{AreHitsAfter, IsReplay, IsRow};

use crate::known_hits::KnownHits;
use crate::policies::policy_outcomes;
use simulator_interface::{ChosenShares, Hits, Policy, Row, SimulationError};
use simulator_traces::{Trace, asked_bytes, hit_bytes};
use std::alloc::Allocator;
use std::num::NonZeroUsize;

/// Replays a trace in a new cache of each policy, in the order of the policies. Clock2Q+ has the
/// chosen shares, or the usual ones. The first `skipped` accesses warm the caches and aren't
/// counted. If the trace has sizes, their sums are counted too. Each access counts with its own
/// size, but each cache still has room for a number of keys.
///
/// # Errors
///
/// Those of [`policy_outcomes`], and `Memory` also if there is no memory for the row.
///
/// # Cost
///
/// That of [`policy_outcomes`] for each policy. The outcomes of one policy at a time are in memory.
pub fn replay<A: Allocator + Copy>(
    alloc: A,
    capacity: NonZeroUsize,
    policies: &[Policy],
    shares: Option<ChosenShares>,
    skipped: usize,
    trace: &Trace<A>,
) -> Result<Row<A>, SimulationError>
    ensures row { IfOk result (IsRow policies.now shares skipped trace.now.numbers (non_zero_usize_get capacity)) }
    ensures bytes { IfOk result (HasBytes shares trace.now.numbers (sizes_of trace.now) (non_zero_usize_get capacity) skipped (length trace.now.numbers)) }
    ensures expected { IfOk result (IsExpected trace.now) }
    ensures devices { IfErr result IsOfNoDevice }
{
    let known = KnownHits::NONE;
    replay_with_known(alloc, capacity, policies, shares, skipped, trace, known)
}

/// Does what [`replay`] does, without a replay for hits that are known.
pub(crate) fn replay_with_known<A: Allocator + Copy>(
    alloc: A,
    capacity: NonZeroUsize,
    policies: &[Policy],
    shares: Option<ChosenShares>,
    skipped: usize,
    trace: &Trace<A>,
    known: KnownHits,
) -> Result<Row<A>, SimulationError>
    requires known { AreKnown skipped trace.now.numbers (non_zero_usize_get capacity) known }
    ensures row { IfOk result (IsRow policies.now shares skipped trace.now.numbers (non_zero_usize_get capacity)) }
    ensures bytes { IfOk result (HasBytes shares trace.now.numbers (sizes_of trace.now) (non_zero_usize_get capacity) skipped (length trace.now.numbers)) }
    ensures expected { IfOk result (IsExpected trace.now) }
    ensures devices { IfErr result IsOfNoDevice }
{
    let mut hits = Vec::new(alloc);
    for policy in policies {
        let counted = hits_with(alloc, *policy, capacity, shares, skipped, trace, known)?;
        match hits.push(counted) {
            Ok(()) => {}
            Err(_) => return Err(SimulationError::Memory),
        }
    }
    let accesses = trace.numbers().len();
    let counted = accesses.saturating_sub(skipped);
    Ok(Row {
        capacity,
        accesses: counted,
        expected: trace.expected(counted),
        bytes: asked_bytes(trace.sizes(), skipped, accesses),
        hits,
    })
}

/// Counts the hits with one policy after the skipped accesses, unless they are known and there are no
/// sizes.
pub(crate) fn hits_with<A: Allocator + Copy>(
    alloc: A,
    policy: Policy,
    capacity: NonZeroUsize,
    shares: Option<ChosenShares>,
    skipped: usize,
    trace: &Trace<A>,
    known: KnownHits,
) -> Result<Hits, SimulationError>
    requires known { AreKnown skipped trace.now.numbers (non_zero_usize_get capacity) known }
    ensures policy { IfOk result (λ h. h.policy ≡ policy) }
    ensures hits { IfOk result (λ h. AreHitsAfter skipped shares trace.now.numbers (non_zero_usize_get capacity) h.policy h.hits) }
    ensures bytes { IfOk result (λ h. AreBytes shares trace.now.numbers (sizes_of trace.now) (non_zero_usize_get capacity) skipped (length trace.now.numbers) h.policy h.bytes) }
    ensures devices { IfErr result IsOfNoDevice }
{
    if let Some(hits) = known.of(policy) {
        if !trace.has_sizes() {
            let bytes = 0;
            return Ok(Hits {
                policy,
                hits,
                bytes,
            });
        }
    }
    let accesses = trace.numbers().len();
    let replay = replay_with(alloc, policy, capacity, shares, trace)?;
    let first = skipped.min(accesses);
    let hits = hits_between(&replay.outcomes, first, accesses);
    let bytes = hit_bytes(&replay.outcomes, trace.sizes(), skipped, accesses);
    let policy = replay.policy;
    Ok(Hits {
        policy,
        hits,
        bytes,
    })
}

/// Whether each access of a trace hits with a policy, in order.
#[derive(Drop)]
pub(crate) struct Replayed<A: Allocator> {
    pub(crate) policy: Policy,
    pub(crate) outcomes: Vec<bool, A>,
}

/// Replays a trace with one policy.
pub(crate) fn replay_with<A: Allocator + Copy>(
    alloc: A,
    policy: Policy,
    capacity: NonZeroUsize,
    shares: Option<ChosenShares>,
    trace: &Trace<A>,
) -> Result<Replayed<A>, SimulationError>
    ensures policy { IfOk result (λ replay. replay.policy ≡ policy) }
    ensures replay { IfOk result (λ replay. IsReplay shares trace.now.numbers (non_zero_usize_get capacity) replay.policy replay.outcomes.items) }
    ensures devices { IfErr result IsOfNoDevice }
{
    let numbers = trace.numbers();
    let outcomes = policy_outcomes(alloc, policy, capacity, shares, numbers, trace.key_count())?;
    Ok(Replayed { policy, outcomes })
}

/// Counts the hits among the accesses from one up to another.
pub(crate) fn hits_between(outcomes: &[bool], first: usize, last: usize) -> usize
    requires order { first ≤ last }
    requires within { last ≤ length outcomes.now }
    ensures hits { result ≡ hit_count (take last outcomes.now) - hit_count (take first outcomes.now) }
{
    let mut hits = 0;
    let mut index = first;
    while index < last {
        let end = index + (last - index).min(BLOCK);
        hits += hits_in_block(outcomes, index, end) as usize;
        index = end;
    }
    hits
}

/// The number of accesses whose hits are counted in one byte.
const BLOCK: usize = 128;

/// Counts the hits among a few accesses, from one up to another. The count is a byte, so that one
/// instruction adds many outcomes.
fn hits_in_block(outcomes: &[bool], first: usize, last: usize) -> u8
    requires order { first ≤ last }
    requires few { last ≤ first + 128 }
    requires within { last ≤ length outcomes.now }
    ensures hits { result + hit_count (take first outcomes.now) ≡ hit_count (take last outcomes.now) }
    ensures few { result ≤ last - first }
{
    let mut hits = 0;
    for index in first..last {
        if outcomes[index] {
            hits += 1;
        }
    }
    hits
}
