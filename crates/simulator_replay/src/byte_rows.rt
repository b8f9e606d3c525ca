//! The hits of a trace with sizes in caches for a number of bytes.
ghost use Rattle.std.specs.Prelude.{◌≡◌, IfErr, IfOk, IfSome, IsTrue, is_some, length};
ghost use Rattle.simulator_interface.specs.PolicyNames.{has_bytes};
ghost use Rattle.std.specs.NonZero.{non_zero_usize_get};
ghost use Rattle.simulator_policies.specs.Policies.{AreBelow};
ghost use Rattle.simulator_replay.specs.ByteRows.{AreByteHits, AreByteRows, IsByteReplay, IsByteRow};
ghost use Rattle.simulator_replay.specs.ExpectedRows.{AreExpected, IsExpected};
ghost use Rattle.simulator_interface.specs.SimulationError.{IsOfNoDevice};
ghost use Rattle.simulator_traces.specs.Trace.{sizes_of};

use crate::byte_shares::byte_shares_of;
use crate::row::hits_between;
use simulator_interface::{ChosenShares, Hits, Policy, Row, SimulationError};
use simulator_policies::PlainPolicy::{FirstInFirstOut, LeastRecentlyUsed};
use simulator_policies::byte_outcomes;
use simulator_policies::tested::{
    clock_byte_outcomes, clock2q_byte_outcomes, s3_fifo_byte_outcomes, sieve_byte_outcomes,
};
use simulator_traces::{Trace, asked_bytes, hit_bytes};
use std::alloc::Allocator;
use std::num::NonZeroUsize;

/// Returns a row for each capacity in bytes, in order, with those of the policies that are defined
/// over keys of unequal sizes. Clock2Q+ has the chosen shares of the bytes, or the usual ones. The
/// first `skipped` accesses aren't counted.
///
/// # Errors
///
/// `Memory` if a request for memory is refused or the trace has 2^32 different keys, and `Shares` if
/// the shares don't fit together in a cache of a capacity.
///
/// # Cost
///
/// That of [`byte_outcomes`] or of [`sieve_byte_outcomes`] for each capacity and policy.
pub fn byte_rows_of<A: Allocator + Copy>(
    alloc: A,
    trace: &Trace<A>,
    capacities: &[NonZeroUsize],
    policies: &[Policy],
    shares: Option<ChosenShares>,
    skipped: usize,
) -> Result<Vec<Row<A>, A>, SimulationError>
    requires sized { IsTrue trace.now.is_sized }
    ensures rows { IfOk result (λ rows. AreByteRows skipped trace.now.numbers (sizes_of trace.now)
        policies.now capacities.now rows.items) }
    ensures expected { IfOk result (λ rows. AreExpected trace.now rows.items) }
    ensures devices { IfErr result IsOfNoDevice }
{
    let mut rows = Vec::new(alloc);
    for capacity in capacities {
        let row = byte_row_of(alloc, trace, *capacity, policies, shares, skipped)?;
        match rows.push(row) {
            Ok(()) => {}
            Err(_) => return Err(SimulationError::Memory),
        }
    }
    Ok(rows)
}

/// Replays a trace in a new cache for some bytes with each policy that is defined.
fn byte_row_of<A: Allocator + Copy>(
    alloc: A,
    trace: &Trace<A>,
    capacity: NonZeroUsize,
    policies: &[Policy],
    shares: Option<ChosenShares>,
    skipped: usize,
) -> Result<Row<A>, SimulationError>
    requires sized { IsTrue trace.now.is_sized }
    ensures row { IfOk result (IsByteRow skipped trace.now.numbers (sizes_of trace.now)
        policies.now) }
    ensures capacity { IfOk result (λ row. row.capacity ≡ capacity) }
    ensures expected { IfOk result (IsExpected trace.now) }
    ensures devices { IfErr result IsOfNoDevice }
{
    let mut hits = Vec::new(alloc);
    for policy in policies {
        let Some(counted) = byte_hits_with(alloc, *policy, capacity, shares, skipped, trace)? else {
            continue;
        };
        match hits.push(counted) {
            Ok(()) => {}
            Err(_) => return Err(SimulationError::Memory),
        }
    }
    let accesses = trace.numbers().len();
    let counted = accesses.saturating_sub(skipped);
    Ok(Row {
        capacity,
        accesses: counted,
        expected: trace.expected(counted),
        bytes: asked_bytes(trace.sizes(), skipped, accesses),
        hits,
    })
}

/// Counts the hits with one policy after the skipped accesses, and their bytes, if the policy is
/// defined in a cache for a number of bytes.
fn byte_hits_with<A: Allocator + Copy>(
    alloc: A,
    policy: Policy,
    capacity: NonZeroUsize,
    shares: Option<ChosenShares>,
    skipped: usize,
    trace: &Trace<A>,
) -> Result<Option<Hits>, SimulationError>
    requires sized { IsTrue trace.now.is_sized }
    ensures defined { IfOk result (λ counted. is_some counted ≡ has_bytes policy) }
    ensures policy { IfOk result (λ counted. IfSome counted (λ h. h.policy ≡ policy)) }
    ensures hits { IfOk result (λ counted. IfSome counted (λ h. AreByteHits skipped trace.now.numbers
        (sizes_of trace.now) (non_zero_usize_get capacity) h.policy h.hits h.bytes)) }
    ensures devices { IfErr result IsOfNoDevice }
{
    let (numbers, sizes, keys) = (trace.numbers(), trace.sizes(), trace.key_count());
    let room = capacity.get();
    let Some(outcomes) = byte_replay(alloc, policy, room, shares, numbers, sizes, keys)? else {
        return Ok(None);
    };
    let accesses = numbers.len();
    Ok(Some(Hits {
        policy,
        hits: hits_between(&outcomes, skipped.min(accesses), accesses),
        bytes: hit_bytes(&outcomes, sizes, skipped, accesses),
    }))
}

/// Returns whether each access of a trace with sizes hits in a new cache for some bytes, if the
/// policy is defined there. The keys are numbers below `key_count`.
fn byte_replay<A: Allocator + Copy>(
    alloc: A,
    policy: Policy,
    room: usize,
    shares: Option<ChosenShares>,
    numbers: &[u32],
    sizes: &[usize],
    key_count: usize,
) -> Result<Option<Vec<bool, A>>, SimulationError>
    requires below { AreBelow key_count numbers.now }
    requires sized { length sizes.now ≡ length numbers.now }
    ensures defined { IfOk result (λ replay. is_some replay ≡ has_bytes policy) }
    ensures replay { IfOk result (λ replay. IfSome replay (λ outcomes. IsByteReplay numbers.now
        sizes.now room policy outcomes.items)) }
    ensures devices { IfErr result IsOfNoDevice }
{
    let Ok(keys) = u32::try_from(key_count) else {
        return Err(SimulationError::Memory);
    };
    let outcomes = match policy {
        Policy::LeastRecentlyUsed => {
            byte_outcomes(alloc, LeastRecentlyUsed, room, numbers, sizes, keys)?
        }
        Policy::FirstInFirstOut => {
            byte_outcomes(alloc, FirstInFirstOut, room, numbers, sizes, keys)?
        }
        Policy::Clock => clock_byte_outcomes(alloc, room, numbers, sizes, keys)?,
        Policy::Sieve => sieve_byte_outcomes(alloc, room, numbers, sizes, keys)?,
        Policy::S3Fifo => s3_fifo_byte_outcomes(alloc, room, numbers, sizes, keys)?,
        Policy::Clock2Q => {
            let shares = byte_shares_of(shares, room)?;
            clock2q_byte_outcomes(alloc, room, shares, numbers, sizes, keys)?
        }
        _ => return Ok(None),
    };
    Ok(Some(outcomes))
}
