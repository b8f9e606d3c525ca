//! The program's whole work: from a trace to a text.
ghost use Rattle.std.specs.Prelude.{◌≡◌, ◌≢◌, ◌<◌, ◌↔◌, IfOk, IfErr, IsErrOf, OnOk, map};
ghost use Rattle.std.specs.NonZero.{non_zero_usize_get};
ghost use Rattle.simulator_interface.specs.Amounts.{IsFor, keys_of};
ghost use Rattle.simulator_interface.specs.SimulationError.{IsOfNoDevice};
ghost use Rattle.simulator_traces.specs.Trace.{sizes_of};
ghost use Rattle.simulator_replay.specs.ExpectedRows.{AreExpected};
ghost use Rattle.simulator_replay.specs.RowBytes.{HaveBytes};
ghost use Rattle.simulator_replay.specs.Rows.{AreRows};
ghost use Rattle.simulator_replay.specs.Simulated.{IsSimulated};

use crate::curve::Curve;
use crate::known_hits::KnownHits;
use crate::outcome::replay_source;
use crate::row::replay_with_known;
use clock2q_ports::{Sink, Source};
use simulator_interface::{
    Amount, ChosenShares, MAX_CAPACITY, Options, Policy, Progress, Row, STANDARD_INPUT,
    SimulationError, show_row, write_outcomes,
};
use simulator_traces::Trace;
use std::alloc::Allocator;
use std::hash::BuildHasher;
use std::io::Write;
use std::num::NonZeroUsize;
use std::time::Clock;

/// Reads one trace, replays it in caches of each capacity, and writes the result: [`replay_source`]
/// for standard input and [`write_outcomes`].
///
/// # Errors
///
/// Those of [`replay_source`], then those of [`write_outcomes`]; `Memory` also between them.
/// Nothing is written before any error other than `Write`.
pub fn simulate<R: Source, W: Sink, P: Write, C: Clock, S: BuildHasher + Drop, A: Allocator + Copy>(
    alloc: A,
    options: &Options<A>,
    hasher: S,
    reader: &mut R,
    writer: &mut W,
    progress: &mut Progress<P, C>,
) -> Result<(), SimulationError>
    ensures ok { OnOk result (IsSimulated (R.given reader.old) (R.given reader.new) (R.remaining reader.old) (R.remaining reader.new) options.now.trace_format
        (W.taken writer.old) (W.taken writer.new) (W.contents writer.old) (W.contents writer.new)) }

    // A failed device is always reported, and no other refusal is reported this way.
    ensures read { ((R.given reader.old).failures < (R.given reader.new).failures) ↔ IsErrOf result SimulationError.Read }
    ensures write { ((W.taken writer.old).failures < (W.taken writer.new).failures) ↔ IsErrOf result SimulationError.Write }

    // Nothing is written before any other refusal.
    ensures unwritten { IfErr result (λ refusal. (refusal ≢ SimulationError.Write) → writer.new ≡ writer.old) }
{
    let outcome = replay_source(alloc, options, STANDARD_INPUT, hasher, reader, progress)?;
    let mut outcomes = Vec::new(alloc);
    match outcomes.push(outcome) {
        Ok(()) => {}
        Err(_) => return Err(SimulationError::Memory),
    }
    write_outcomes(alloc, options, &outcomes, writer)
}

/// Returns a row for each capacity, in order. The first `skipped` accesses aren't counted. `shown`
/// has the capacities that `progress` shows, in the same order, since those of a sample differ from
/// the ones that were asked for.
///
/// # Errors
///
/// Those of [`replay`](crate::replay), `Capacity` also if a percentage of the different keys is
/// more than `MAX_CAPACITY`, and `Memory` also if there is no memory for the rows.
///
/// # Cost
///
/// That of [`replay`](crate::replay) for each capacity. But LRU takes one pass for all capacities,
/// by [`lru_hits_at`](simulator_policies::lru_hits_at), if there are at least ten, and the optimum
/// takes a third less by [`optimal_hits_at`](simulator_policies::optimal_hits_at), if there are two
/// or more.
pub fn rows_of<P: Write, C: Clock, A: Allocator + Copy>(
    alloc: A,
    trace: &Trace<A>,
    capacities: &[Amount],
    policies: &[Policy],
    shares: Option<ChosenShares>,
    skipped: usize,
    shown: &[usize],
    progress: &mut Progress<P, C>,
) -> Result<Vec<Row<A>, A>, SimulationError>
    ensures rows { IfOk result (λ rows. AreRows policies.now shares skipped trace.now capacities.now rows.items) }
    ensures bytes { IfOk result (λ rows. HaveBytes shares trace.now.numbers (sizes_of trace.now) skipped rows.items) }
    ensures expected { IfOk result (λ rows. AreExpected trace.now rows.items) }
    ensures devices { IfErr result IsOfNoDevice }
{
    let rooms = rooms_of(alloc, trace, capacities)?;
    let lru = Curve::LeastRecentlyUsed.hits_after(alloc, policies, &rooms, skipped, trace)?;
    let optimal = Curve::Optimal.hits_after(alloc, policies, &rooms, skipped, trace)?;
    let mut rows = Vec::new(alloc);
    for index in 0..rooms.len() {
        let capacity = rooms[index];
        let asked = shown.get(index).copied().unwrap_or(capacity.get());
        progress.replay(trace.numbers().len(), asked, index, rooms.len());
        let known = KnownHits {
            lru: lru.get(index).copied(),
            optimal: optimal.get(index).copied(),
        };
        let row = replay_with_known(alloc, capacity, policies, shares, skipped, trace, known)?;
        let (accesses, is_sized) = (trace.numbers().len(), trace.has_sizes());
        show_row(alloc, accesses, is_sized, asked, &row, index, progress);
        match rows.push(row) {
            Ok(()) => {}
            Err(_) => return Err(SimulationError::Memory),
        }
    }
    Ok(rows)
}

/// Returns the number of keys that each capacity is for a trace.
fn rooms_of<A: Allocator + Copy>(
    alloc: A,
    trace: &Trace<A>,
    capacities: &[Amount],
) -> Result<Vec<NonZeroUsize, A>, SimulationError>
    ensures keys { IfOk result (λ rooms. map non_zero_usize_get rooms.items ≡ map (λ amount. keys_of amount trace.now.different) capacities.now) }
    ensures devices { IfErr result IsOfNoDevice }
{
    let mut rooms = Vec::new(alloc);
    for asked in capacities {
        let keys = keys_in(*asked, trace)?;
        match rooms.push(keys) {
            Ok(()) => {}
            Err(_) => return Err(SimulationError::Memory),
        }
    }
    Ok(rooms)
}

/// Returns the number of keys that a capacity is for a trace.
fn keys_in<A: Allocator + Copy>(
    capacity: Amount,
    trace: &Trace<A>,
) -> Result<NonZeroUsize, SimulationError>
    ensures keys { IfOk result (λ keys. non_zero_usize_get keys ≡ keys_of capacity trace.now.different) }
    ensures capacity { IsErrOf result (SimulationError.Capacity capacity) ↔ ¬ IsFor (keys_of capacity trace.now.different) }
    ensures devices { IfErr result IsOfNoDevice }
{
    match NonZeroUsize::new(capacity.of(trace.key_count())) {
        Some(keys) if keys.get() <= MAX_CAPACITY => Ok(keys),
        _ => Err(SimulationError::Capacity(capacity)),
    }
}
