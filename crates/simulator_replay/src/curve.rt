//! The hits of a policy at many capacities, counted together.
ghost use Rattle.std.specs.Prelude.{◌≡◌, ◌-◌, ◌<◌, ℕ, IfErr, IfOk, get_or, length, map};
ghost use Rattle.std.specs.NonZero.{non_zero_usize_get};
ghost use Rattle.simulator_policies.specs.Policies.{AreBelow};
ghost use Rattle.simulator_replay.specs.Curves.{AreHitsAt, curve_hits};
ghost use Rattle.simulator_interface.specs.SimulationError.{IsOfNoDevice};

use simulator_interface::{Policy, SimulationError};
use simulator_policies::{lru_hits_at, optimal_hits_at};
use simulator_traces::Trace;
use std::alloc::{AllocError, Allocator};
use std::num::NonZeroUsize;

/// A policy whose hits at many capacities cost less together than by a replay at each.
#[derive(Clone, Copy, Debug, PartialEq, Eq)]
pub(crate) enum Curve {
    /// LRU, in one pass over the trace.
    LeastRecentlyUsed,
    /// Belady's optimum, with one look for the next accesses.
    Optimal,
}

impl Curve {
    /// Returns the policy.
    fn policy(self) -> Policy {
        match self {
            Curve::LeastRecentlyUsed => Policy::LeastRecentlyUsed,
            Curve::Optimal => Policy::Optimal,
        }
    }

    /// Returns the least number of capacities at which the hits cost less together.
    fn least_capacities(self) -> usize {
        match self {
            Curve::LeastRecentlyUsed => 10,
            Curve::Optimal => 2,
        }
    }

    /// Returns the hits at each capacity after the skipped accesses. There are none if the policy
    /// isn't among these, if a replay at each capacity costs less, or if the trace has sizes, whose
    /// sums need the replays.
    ///
    /// # Errors
    ///
    /// `Memory` if a request for memory is refused or the trace has 2^32 different keys.
    ///
    /// # Cost
    ///
    /// That of [`lru_hits_at`] or of [`optimal_hits_at`], for the trace and for its skipped accesses.
    pub(crate) fn hits_after<A: Allocator + Copy>(
        self,
        alloc: A,
        policies: &[Policy],
        capacities: &[NonZeroUsize],
        skipped: usize,
        trace: &Trace<A>,
    ) -> Result<Vec<usize, A>, SimulationError>
        ensures hits { IfOk result (λ hits. AreHitsAt (curve_hits self) skipped trace.now.numbers capacities.now hits.items) }
        ensures devices { IfErr result IsOfNoDevice }
    {
        let is_asked = policies.contains(&self.policy());
        if capacities.len() < self.least_capacities() || !is_asked || trace.has_sizes() {
            return Ok(Vec::new(alloc));
        }
        let Ok(keys) = u32::try_from(trace.key_count()) else {
            return Err(SimulationError::Memory);
        };
        let numbers = trace.numbers();
        let first = &numbers[..skipped.min(numbers.len())];
        let all = self.hits_at(alloc, capacities, numbers, keys)?;
        let before = self.hits_at(alloc, capacities, first, keys)?;
        Ok(minus_each(alloc, &all, &before)?)
    }

    /// Returns the hits at each capacity.
    fn hits_at<A: Allocator + Copy>(
        self,
        alloc: A,
        capacities: &[NonZeroUsize],
        numbers: &[u32],
        keys: u32,
    ) -> Result<Vec<usize, A>, AllocError>
        requires below { AreBelow keys numbers.now }
        ensures hits { IfOk result (λ hits. hits.items ≡
            map (λ capacity. curve_hits self (non_zero_usize_get capacity) numbers.now) capacities.now) }
    {
        match self {
            Curve::LeastRecentlyUsed => lru_hits_at(alloc, capacities, numbers, keys),
            Curve::Optimal => optimal_hits_at(alloc, capacities, numbers, keys),
        }
    }
}

/// Returns each number minus the one at its index in another list, or 0 if that is larger.
fn minus_each<A: Allocator>(
    alloc: A,
    all: &[usize],
    before: &[usize],
) -> Result<Vec<usize, A>, AllocError>
    requires long { length before.now ≡ length all.now }
    ensures long { IfOk result (λ rest. length rest.items ≡ length all.now) }
    ensures each { IfOk result (λ rest. (place : ℕ) → place < length all.now → get_or rest.items place 0 ≡ get_or all.now place 0 - get_or before.now place 0) }
{
    let mut rest = Vec::new(alloc);
    for index in 0..all.len() {
        rest.push(all[index].saturating_sub(before[index]))?;
    }
    Ok(rest)
}
