//! Clock2Q+ on a trace, and CLOCK, which is Clock2Q+ without Small.
ghost use Rattle.std.specs.Prelude.{◌≡◌, ◌≢◌, ◌<◌, ◌≤◌, ◌↔◌, Err, IfErr, IfOk, IsErrOf};
ghost use Rattle.std.specs.NonZero.{non_zero_usize_get};
ghost use Rattle.clock2q_machine.specs.Machine.{empty};
ghost use Rattle.clock2q_machine.specs.Policies.{IsPolicy};
ghost use Rattle.clock2q_machine.specs.Hits.{outcomes};
ghost use Rattle.clock2q_machine.specs.SecondChance.{clock_outcomes};
ghost use Rattle.simulator_interface.specs.ChosenShares.{shares_for};
ghost use Rattle.clock2q_machine.specs.MachineHits.{machine_after, machine_holds};
ghost use Rattle.simulator_replay.specs.MachineHits.{machine_outcomes};

use clock2q_cache::{Cache, CacheError, DefaultHashBuilder, MAX_CAPACITY};
use simulator_interface::ChosenShares;
use std::alloc::Allocator;
use std::num::NonZeroUsize;

/// Returns whether each access of a trace hits in a new cache with chosen shares, or with the usual
/// ones, in order.
///
/// # Errors
///
/// `Capacity` if the capacity is above `MAX_CAPACITY`, or else `Policy` if the shares don't fit
/// together, and `Memory` if a request for memory is refused.
///
/// # Cost
///
/// That of [`Cache::new`](clock2q_cache::Cache::new), and that of
/// [`Cache::put`](clock2q_cache::Cache::put) for each key. Memory for a byte an access.
pub fn clock2q_outcomes<A: Allocator + Copy>(
    alloc: A,
    capacity: NonZeroUsize,
    shares: Option<ChosenShares>,
    trace: &[u32],
) -> Result<Vec<bool, A>, CacheError>
    ensures outcomes { IfOk result (λ outcomes. outcomes.items ≡ machine_outcomes (shares_for shares (non_zero_usize_get capacity)) trace.now) }
    ensures capacity { IsErrOf result CacheError.Capacity ↔ (MAX_CAPACITY < non_zero_usize_get capacity) }
    ensures policy { IsErrOf result CacheError.Policy → ¬ IsPolicy (shares_for shares (non_zero_usize_get capacity)) }
{
    let mut cache = new_cache(alloc, capacity, shares)?;
    outcomes_in(alloc, &mut cache, trace)
}

/// Returns whether each access of a trace hits in a new CLOCK cache, of 'A Paging Experiment with
/// the Multics System' (1968), in order.
///
/// # Errors
///
/// `Capacity` if the capacity is above `MAX_CAPACITY`, and `Memory` if a request for memory is
/// refused.
///
/// # Cost
///
/// That of [`clock2q_outcomes`].
pub fn clock_outcomes<A: Allocator + Copy>(
    alloc: A,
    capacity: NonZeroUsize,
    trace: &[u32],
) -> Result<Vec<bool, A>, CacheError>
    ensures outcomes { IfOk result (λ outcomes. outcomes.items ≡ clock_outcomes (non_zero_usize_get capacity) trace.now) }
    ensures capacity { IsErrOf result CacheError.Capacity ↔ (MAX_CAPACITY < non_zero_usize_get capacity) }
    ensures policy { result ≢ Err CacheError.Policy }
{
    let hasher = DefaultHashBuilder::new();
    let mut cache = Cache::with_policy(alloc, capacity, 0, 0, hasher)?;
    outcomes_in(alloc, &mut cache, trace)
}

/// Puts each key of a trace, and returns for each whether it was already resident.
fn outcomes_in<A: Allocator + Copy>(
    alloc: A,
    cache: &mut Cache<u32, (), DefaultHashBuilder, A>,
    trace: &[u32],
) -> Result<Vec<bool, A>, CacheError>
    ensures outcomes { IfOk result (λ seen. seen.items ≡ outcomes machine_holds machine_after trace.now cache.old.machine) }
    ensures memory { IfErr result (λ refusal. refusal ≡ CacheError.Memory) }
{
    let Ok(mut outcomes) = Vec::with_capacity(alloc, trace.len()) else {
        return Err(CacheError::Memory);
    };
    for key in trace {
        outcomes.push_reserved(cache.put(*key, ()).is_some());
    }
    Ok(outcomes)
}

/// Returns an empty cache with chosen shares, or with the usual ones.
fn new_cache<A: Allocator + Copy>(
    alloc: A,
    capacity: NonZeroUsize,
    shares: Option<ChosenShares>,
) -> Result<Cache<u32, (), DefaultHashBuilder, A>, CacheError>
    ensures made { IfOk result (λ cache. cache.machine ≡ empty (shares_for shares (non_zero_usize_get capacity))) }
    ensures capacity { IsErrOf result CacheError.Capacity ↔ (MAX_CAPACITY < non_zero_usize_get capacity) }
    ensures policy { IsErrOf result CacheError.Policy → ¬ IsPolicy (shares_for shares (non_zero_usize_get capacity)) }
{
    let Some(shares) = shares else {
        return Cache::new(alloc, capacity);
    };
    if capacity.get() > MAX_CAPACITY {
        return Err(CacheError::Capacity);
    }
    let (small, window) = (shares.small(capacity.get()), shares.window(capacity.get()));
    let history = shares.history(capacity.get());
    let hasher = DefaultHashBuilder::new();
    Cache::with_history(alloc, capacity, small, window, history, hasher)
}
