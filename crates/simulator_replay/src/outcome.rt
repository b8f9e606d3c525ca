//! One trace read and replayed.
ghost use Rattle.std.specs.Prelude.{◌≡◌, ◌<◌, ◌≤◌, ◌-◌, ◌^◌, ◌↔◌, ◌≢◌, IfErr, IfOk, IsErrOf, map};
ghost use Rattle.simulator_interface.specs.TraceFormats.{has_sizes};
ghost use Rattle.simulator_interface.specs.Sample.{scaled, scaled_shares, shown};
ghost use Rattle.simulator_interface.specs.SimulationError.{IsOfNoDevice};
ghost use Rattle.simulator_traces.specs.Trace.{sizes_of};
ghost use Rattle.simulator_replay.specs.BestShares.{AreAskedBest};
ghost use Rattle.simulator_replay.specs.ByteRows.{AreAskedByteRows};
ghost use Rattle.simulator_replay.specs.ExpectedRows.{AllWindowsAreExpected, AreExpected};
ghost use Rattle.simulator_replay.specs.RowBytes.{AllHaveBytes, HaveBytes};
ghost use Rattle.simulator_replay.specs.Rows.{AreRows};
ghost use Rattle.simulator_replay.specs.Simulated.{IsReplayed, filtered};
ghost use Rattle.simulator_replay.specs.Windows.{AreAskedWindows};

use crate::best_shares::{TRIED_SHARES, all_best_shares_of};
use crate::byte_rows::byte_rows_of;
use crate::simulation::rows_of;
use crate::window::all_windows_of;
use clock2q_ports::Source;
use simulator_interface::{
    BestShares, Options, Outcome, Progress, Row, SimulationError, Windows, all_scaled, all_shown,
    scaled, scaled_shares, show_name,
};
use simulator_traces::{Trace, read_sample, summary_of};
use std::alloc::Allocator;
use std::hash::BuildHasher;
use std::io::Write;
use std::time::Clock;

/// Reads a trace and replays it in caches of each capacity. The result doesn't depend on the
/// hasher.
///
/// # Errors
///
/// Those of [`read_sample`], then `LargeSizes` if the sum of the sizes of the trace's accesses has
/// more than 64 bits, then those of [`rows_of`], of [`all_windows_of`] and of
/// [`all_best_shares_of`]. If there is a sample, `SampledShares` comes in place of `Shares`.
///
/// # Cost
///
/// That of [`read_sample`], [`rows_of`], [`all_windows_of`] and [`all_best_shares_of`]. The trace
/// stays in memory until the call returns.
pub fn replay_source<'a, R: Source, P: Write, C: Clock, S: BuildHasher + Drop, A: Allocator + Copy>(
    alloc: A,
    options: &Options<A>,
    name: &'a str,
    hasher: S,
    reader: &mut R,
    progress: &mut Progress<P, C>,
) -> Result<Outcome<'a, A>, SimulationError>
    ensures ok { IfOk result (λ outcome. IsReplayed (R.given reader.old) (R.given reader.new) (R.remaining reader.old) (R.remaining reader.new)
        TRIED_SHARES options.now outcome) }
    ensures named { IfOk result (λ outcome. outcome.name.now ≡ name.now) }
    ensures sample { IfOk result (λ outcome. outcome.sample ≡ options.now.sample) }
    ensures sized { IfOk result (λ outcome. outcome.is_sized ≡ has_sizes options.now.trace_format) }
    ensures bounded { IfOk result (λ outcome. outcome.summary.bytes < 2 ^ 64 - 1) }

    // A failed source is always reported as `Read`, and nothing else is.
    ensures read { ((R.given reader.old).failures < (R.given reader.new).failures) ↔ IsErrOf result SimulationError.Read }
    ensures written { IfErr result (λ refusal. refusal ≢ SimulationError.Write) }
{
    let trace = read_sample(
        alloc,
        hasher,
        options.sample,
        name,
        options.trace_format,
        reader,
        progress,
    )?;
    let summary = summary_of(alloc, &trace)?;
    if summary.bytes == usize::MAX {
        return Err(SimulationError::LargeSizes);
    }
    progress.warn_of(name, &summary, options.skipped, options.sample.is_some());
    if options.traces.len() > 1 {
        show_name(name, trace.numbers().len(), progress);
    }
    let capacities = all_shown(
        alloc,
        options.sample,
        trace.key_count(),
        &options.capacities,
    )?;
    let rows = asked_rows(alloc, options, &trace, &capacities, progress)?;
    let byte_rows = asked_byte_rows(alloc, options, &trace)?;
    let windows = asked_windows(alloc, options, &rows, &trace)?;
    let best_shares = asked_best_shares(alloc, options, &rows, &trace)?;
    Ok(Outcome {
        name,
        summary,
        sample: options.sample,
        is_sized: trace.has_sizes(),
        capacities,
        rows,
        byte_rows,
        windows,
        best_shares,
    })
}

/// Returns a row for each capacity, with the shares that are asked for. Both are scaled down to the
/// sample.
fn asked_rows<P: Write, C: Clock, A: Allocator + Copy>(
    alloc: A,
    options: &Options<A>,
    trace: &Trace<A>,
    shown: &[usize],
    progress: &mut Progress<P, C>,
) -> Result<Vec<Row<A>, A>, SimulationError>
    ensures rows { IfOk result (λ rows. AreRows options.now.policies.items (scaled_shares options.now.sample options.now.shares) options.now.skipped (filtered trace.now)
        (map (scaled options.now.sample) options.now.capacities.items) rows.items) }
    ensures bytes { IfOk result (λ rows. HaveBytes (scaled_shares options.now.sample options.now.shares) trace.now.numbers
        (sizes_of trace.now) options.now.skipped rows.items) }
    ensures expected { IfOk result (λ rows. AreExpected trace.now rows.items) }
    ensures devices { IfErr result IsOfNoDevice }
{
    let capacities = all_scaled(alloc, options.sample, &options.capacities)?;
    let rows = rows_of(
        alloc,
        trace,
        &capacities,
        &options.policies,
        scaled_shares(options.sample, options.shares),
        options.skipped,
        shown,
        progress,
    );
    match rows {
        Ok(rows) => Ok(rows),
        Err(refusal) => Err(asked_refusal(options, trace.key_count(), refusal)),
    }
}

/// If a cache that was scaled down to the sample was refused, returns the refusal of the capacity
/// that was asked for.
fn asked_refusal<A: Allocator>(
    options: &Options<A>,
    keys: usize,
    refusal: SimulationError,
) -> SimulationError
    requires few { keys ≤ 2 ^ 32 }
    requires devices { IsOfNoDevice refusal }
    ensures devices { IsOfNoDevice result }
{
    let SimulationError::Shares(room) = refusal else {
        return refusal;
    };
    if options.sample.is_none() {
        return refusal;
    }
    for asked in options.capacities.iter() {
        if scaled(options.sample, *asked).of(keys) == room {
            return SimulationError::SampledShares(*asked);
        }
    }
    refusal
}

/// Returns a row for each capacity in bytes, if the trace has sizes.
fn asked_byte_rows<A: Allocator + Copy>(
    alloc: A,
    options: &Options<A>,
    trace: &Trace<A>,
) -> Result<Vec<Row<A>, A>, SimulationError>
    ensures rows { IfOk result (λ rows. AreAskedByteRows options.now.skipped (filtered trace.now)
        options.now.policies.items options.now.byte_capacities.items rows.items) }
    ensures expected { IfOk result (λ rows. AreExpected trace.now rows.items) }
    ensures devices { IfErr result IsOfNoDevice }
{
    if !trace.has_sizes() {
        return Ok(Vec::new(alloc));
    }
    byte_rows_of(
        alloc,
        trace,
        &options.byte_capacities,
        &options.policies,
        options.shares,
        options.skipped,
    )
}

/// Returns the windows at the capacity of each row, if they are asked for.
fn asked_windows<A: Allocator + Copy>(
    alloc: A,
    options: &Options<A>,
    rows: &[Row<A>],
    trace: &Trace<A>,
) -> Result<Vec<Windows<A>, A>, SimulationError>
    ensures windows { IfOk result (λ all. AreAskedWindows options.now.policies.items
        (scaled_shares options.now.sample options.now.shares) trace.now.numbers options.now.skipped options.now.window rows.now all.items) }
    ensures bytes { IfOk result (λ all. AllHaveBytes (scaled_shares options.now.sample options.now.shares) trace.now.numbers
        (sizes_of trace.now) all.items) }
    ensures expected { IfOk result (λ all. AllWindowsAreExpected trace.now all.items) }
    ensures devices { IfErr result IsOfNoDevice }
{
    let Some(size) = options.window else {
        return Ok(Vec::new(alloc));
    };
    let policies = &options.policies;
    let shares = scaled_shares(options.sample, options.shares);
    all_windows_of(alloc, rows, policies, shares, options.skipped, size, trace)
}

/// Returns the best shares at the capacity of each row, if they are asked for.
fn asked_best_shares<A: Allocator + Copy>(
    alloc: A,
    options: &Options<A>,
    rows: &[Row<A>],
    trace: &Trace<A>,
) -> Result<Vec<BestShares, A>, SimulationError>
    ensures best { IfOk result (λ all. AreAskedBest TRIED_SHARES options.now.skipped trace.now.numbers options.now.best_shares rows.now all.items) }
    ensures devices { IfErr result IsOfNoDevice }
{
    if !options.best_shares {
        return Ok(Vec::new(alloc));
    }
    all_best_shares_of(alloc, rows, &TRIED_SHARES, options.skipped, trace)
}
