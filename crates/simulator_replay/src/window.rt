//! The hits of a trace in windows of consecutive accesses.
ghost use Rattle.std.specs.Prelude.{◌≡◌, ◌-◌, ◌≤◌, IfErr, IfOk, length, map};
ghost use Rattle.std.specs.NonZero.{non_zero_usize_get};
ghost use Rattle.std.specs.List.{All};
ghost use Rattle.simulator_traces.specs.Bytes.{asked_between};
ghost use Rattle.simulator_interface.specs.SimulationError.{IsOfNoDevice};
ghost use Rattle.simulator_traces.specs.Trace.{sizes_of};
ghost use Rattle.simulator_replay.specs.ExpectedRows.{AllWindowsAreExpected, WindowsAreExpected};
ghost use Rattle.simulator_replay.specs.RowBytes.{AllHaveBytes, WindowsHaveBytes};
ghost use Rattle.simulator_replay.specs.Windows.{counted, AreAllWindows, AreReplays, AreWindows};

use crate::row::{Replayed, hits_between, replay_with};
use simulator_interface::{ChosenShares, Hits, Policy, Row, SimulationError, Window, Windows};
use simulator_traces::{Trace, asked_bytes, hit_bytes};
use std::alloc::Allocator;
use std::num::NonZeroUsize;

/// Returns the windows of a trace at the capacity of each row, in order: those of [`windows_of`].
///
/// # Errors
///
/// Those of [`windows_of`], and `Memory` also if there is no memory for the list.
///
/// # Cost
///
/// That of [`windows_of`] for each row.
pub fn all_windows_of<A: Allocator + Copy>(
    alloc: A,
    rows: &[Row<A>],
    policies: &[Policy],
    shares: Option<ChosenShares>,
    skipped: usize,
    size: NonZeroUsize,
    trace: &Trace<A>,
) -> Result<Vec<Windows<A>, A>, SimulationError>
    ensures windows { IfOk result (λ all. AreAllWindows policies.now shares trace.now.numbers skipped (non_zero_usize_get size) rows.now all.items) }
    ensures bytes { IfOk result (λ all. AllHaveBytes shares trace.now.numbers (sizes_of trace.now) all.items) }
    ensures expected { IfOk result (λ all. AllWindowsAreExpected trace.now all.items) }
    ensures devices { IfErr result IsOfNoDevice }
{
    let mut all = Vec::new(alloc);
    for row in rows {
        let capacity = row.capacity;
        let windows = windows_of(alloc, capacity, policies, shares, skipped, size, trace)?;
        match all.push(Windows { capacity, windows }) {
            Ok(()) => {}
            Err(_) => return Err(SimulationError::Memory),
        }
    }
    Ok(all)
}

/// Returns the hits of a trace in windows of `size` accesses, the last of which may have fewer. The
/// first window begins after the skipped accesses. The hits of a window are those of a new cache
/// that sees the trace up to the window's end, minus those of one that sees what is before it.
///
/// # Errors
///
/// Those of [`policy_outcomes`](crate::policy_outcomes), and `Memory` also if there is no memory
/// for the windows.
///
/// # Cost
///
/// That of [`policy_outcomes`](crate::policy_outcomes) for each policy. The outcomes of all policies are in memory until
/// the call returns.
pub fn windows_of<A: Allocator + Copy>(
    alloc: A,
    capacity: NonZeroUsize,
    policies: &[Policy],
    shares: Option<ChosenShares>,
    skipped: usize,
    size: NonZeroUsize,
    trace: &Trace<A>,
) -> Result<Vec<Window<A>, A>, SimulationError>
    ensures windows { IfOk result (λ windows. AreWindows policies.now shares trace.now.numbers skipped
        (non_zero_usize_get capacity) (non_zero_usize_get size) windows.items) }
    ensures bytes { IfOk result (λ windows. WindowsHaveBytes shares trace.now.numbers (sizes_of trace.now)
        (non_zero_usize_get capacity) windows.items) }
    ensures expected { IfOk result (λ windows. WindowsAreExpected trace.now windows.items) }
    ensures devices { IfErr result IsOfNoDevice }
{
    let replays = replays_of(alloc, capacity, policies, shares, trace)?;
    let accesses = trace.numbers().len();
    let mut windows = Vec::new(alloc);
    let mut first = skipped.min(accesses);
    while first < accesses {
        let count = size.get().min(accesses - first);
        let last = first + count;
        let sizes = trace.sizes();
        let expected = trace.expected(count);
        let row = row_between(alloc, capacity, &replays, sizes, first, last, expected)?;
        match windows.push(Window { first, row }) {
            Ok(()) => {}
            Err(_) => return Err(SimulationError::Memory),
        }
        first = last;
    }
    Ok(windows)
}

/// Replays a trace with each policy, in order.
fn replays_of<A: Allocator + Copy>(
    alloc: A,
    capacity: NonZeroUsize,
    policies: &[Policy],
    shares: Option<ChosenShares>,
    trace: &Trace<A>,
) -> Result<Vec<Replayed<A>, A>, SimulationError>
    ensures replays { IfOk result (λ replays. AreReplays policies.now shares trace.now.numbers (non_zero_usize_get capacity) replays.items) }
    ensures devices { IfErr result IsOfNoDevice }
{
    let mut replays = Vec::new(alloc);
    for policy in policies {
        let replay = replay_with(alloc, *policy, capacity, shares, trace)?;
        match replays.push(replay) {
            Ok(()) => {}
            Err(_) => return Err(SimulationError::Memory),
        }
    }
    Ok(replays)
}

/// Counts the hits of each replay from one access up to another.
fn row_between<A: Allocator + Copy>(
    alloc: A,
    capacity: NonZeroUsize,
    replays: &[Replayed<A>],
    sizes: &[usize],
    first: usize,
    last: usize,
    expected: usize,
) -> Result<Row<A>, SimulationError>
    requires order { first ≤ last }
    requires within { All (λ replay. last ≤ length replay.outcomes.items) replays.now }
    ensures hits { IfOk result (λ row. row.hits.items ≡ map (counted first last sizes.now) replays.now) }
    ensures bytes { IfOk result (λ row. row.bytes ≡ asked_between first last sizes.now) }
    ensures capacity { IfOk result (λ row. row.capacity ≡ capacity) }
    ensures accesses { IfOk result (λ row. row.accesses ≡ last - first) }
    ensures expected { IfOk result (λ row. row.expected ≡ expected) }
    ensures devices { IfErr result IsOfNoDevice }
{
    let mut hits = Vec::new(alloc);
    for replay in replays {
        let policy = replay.policy;
        let count = hits_between(&replay.outcomes, first, last);
        let bytes = hit_bytes(&replay.outcomes, sizes, first, last);
        match hits.push(Hits {
            policy,
            hits: count,
            bytes,
        }) {
            Ok(()) => {}
            Err(_) => return Err(SimulationError::Memory),
        }
    }
    Ok(Row {
        capacity,
        accesses: last - first,
        expected,
        bytes: asked_bytes(sizes, first, last),
        hits,
    })
}
