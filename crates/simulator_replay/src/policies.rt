//! A trace replayed with a policy.
ghost use Rattle.std.specs.Prelude.{◌≡◌, ◌≤◌, ◌^◌, IfErr, IfOk};
ghost use Rattle.std.specs.NonZero.{non_zero_usize_get};
ghost use Rattle.simulator_policies.specs.Policies.{AreBelow};
ghost use Rattle.clock2q_machine.specs.SecondChance.{clock_outcomes};
ghost use Rattle.simulator_interface.specs.ChosenShares.{shares_for};
ghost use Rattle.simulator_interface.specs.SimulationError.{IsOfNoDevice};
ghost use Rattle.simulator_replay.specs.CacheRefusals.{of_cache};
ghost use Rattle.simulator_replay.specs.MachineHits.{machine_outcomes};
ghost use Rattle.simulator_replay.specs.Rows.{IsReplay};

use crate::clock::{clock_outcomes, clock2q_outcomes};
use clock2q_cache::CacheError;
use simulator_interface::{Amount, ChosenShares, Policy, SimulationError, Unit};
use simulator_policies::PlainPolicy::{FirstInFirstOut, LeastRecentlyUsed};
use simulator_policies::tested::{
    arc_outcomes, lirs_outcomes, lru_2_outcomes, s3_fifo_outcomes, sieve_outcomes, two_q_outcomes,
    w_tiny_lfu_outcomes,
};
use simulator_policies::{optimal_outcomes, plain_outcomes};
use std::alloc::Allocator;
use std::num::NonZeroUsize;

/// Returns whether each access of a trace hits in a new cache with a policy, in order. The keys are
/// numbers below `key_count`. Clock2Q+ has the chosen shares, or the usual ones.
///
/// # Errors
///
/// `Capacity` if the policy is Clock2Q+ or CLOCK and the capacity is above `MAX_CLOCK_CAPACITY`,
/// `Shares` if Clock2Q+'s shares don't fit together, and `Memory` if a request for memory is refused
/// or the trace has 2^32 different keys.
///
/// # Cost
///
/// That of the policy's function in `simulator_policies`, or of [`clock2q_outcomes`]. All memory but
/// the outcomes is freed before the call returns.
pub fn policy_outcomes<A: Allocator + Copy>(
    alloc: A,
    policy: Policy,
    capacity: NonZeroUsize,
    shares: Option<ChosenShares>,
    numbers: &[u32],
    key_count: usize,
) -> Result<Vec<bool, A>, SimulationError>
    requires below { AreBelow key_count numbers.now }
    ensures outcomes { IfOk result (λ outcomes. IsReplay shares numbers.now (non_zero_usize_get capacity) policy outcomes.items) }
    ensures devices { IfErr result IsOfNoDevice }
{
    let Ok(keys) = u32::try_from(key_count) else {
        return Err(SimulationError::Memory);
    };
    let outcomes = match policy {
        Policy::Clock2Q => clock2q_replay(alloc, capacity, shares, numbers)?,
        Policy::Sieve => sieve_outcomes(alloc, capacity, numbers, keys)?,
        Policy::S3Fifo => s3_fifo_outcomes(alloc, capacity, numbers, keys)?,
        Policy::LeastRecentlyUsed => {
            plain_outcomes(alloc, LeastRecentlyUsed, capacity, numbers, keys)?
        }
        Policy::Optimal => optimal_outcomes(alloc, capacity, numbers, keys)?,
        Policy::FirstInFirstOut => {
            plain_outcomes(alloc, FirstInFirstOut, capacity, numbers, keys)?
        }
        Policy::Clock => clock_replay(alloc, capacity, numbers)?,
        Policy::Arc => arc_outcomes(alloc, capacity, numbers, keys)?,
        Policy::TwoQ => two_q_outcomes(alloc, capacity, numbers, keys)?,
        Policy::Lirs => lirs_outcomes(alloc, capacity, numbers, keys)?,
        Policy::Lru2 => lru_2_outcomes(alloc, capacity, numbers, keys)?,
        Policy::WTinyLfu => w_tiny_lfu_outcomes(alloc, capacity, numbers, keys)?,
    };
    Ok(outcomes)
}

/// Does what [`clock2q_outcomes`] does, with the refusals of a simulation.
fn clock2q_replay<A: Allocator + Copy>(
    alloc: A,
    capacity: NonZeroUsize,
    shares: Option<ChosenShares>,
    numbers: &[u32],
) -> Result<Vec<bool, A>, SimulationError>
    ensures outcomes { IfOk result (λ outcomes. outcomes.items
        ≡ machine_outcomes (shares_for shares (non_zero_usize_get capacity)) numbers.now) }
    ensures devices { IfErr result IsOfNoDevice }
{
    match clock2q_outcomes(alloc, capacity, shares, numbers) {
        Ok(outcomes) => Ok(outcomes),
        Err(error) => Err(refusal_of(error, capacity.get())),
    }
}

/// Does what [`clock_outcomes`] does, with the refusals of a simulation.
fn clock_replay<A: Allocator + Copy>(
    alloc: A,
    capacity: NonZeroUsize,
    numbers: &[u32],
) -> Result<Vec<bool, A>, SimulationError>
    ensures outcomes { IfOk result (λ outcomes. outcomes.items
        ≡ clock_outcomes (non_zero_usize_get capacity) numbers.now) }
    ensures devices { IfErr result IsOfNoDevice }
{
    match clock_outcomes(alloc, capacity, numbers) {
        Ok(outcomes) => Ok(outcomes),
        Err(error) => Err(refusal_of(error, capacity.get())),
    }
}

/// Returns the refusal for the error of a cache of this capacity.
fn refusal_of(error: CacheError, capacity: usize) -> SimulationError
    ensures refusal { result ≡ of_cache error capacity }
{
    match error {
        CacheError::Capacity => SimulationError::Capacity(Amount {
            number: capacity,
            unit: Unit::Keys,
        }),
        CacheError::Memory => SimulationError::Memory,
        CacheError::Policy => SimulationError::Shares(capacity),
    }
}
