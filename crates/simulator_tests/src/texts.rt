//! Texts, and those of two traces.

use crate::player::{simulated, words_of};
use clock2q_cache::DefaultHashBuilder;
use clock2q_ports::Device;
use simulator_interface::{
    Options, Outcome, Progress, SimulationError, parse_options, write_outcomes,
};
use simulator_replay::replay_source;
use std::alloc::Global;
use testing::{SpellingError, other_than};

/// Returns what a simulation with these arguments writes.
pub(crate) fn written(
    alloc: Global,
    words: &[String],
    input: &[u8],
) -> Result<Vec<u8>, SimulationError> {
    let options = parse_options(alloc, words)?;
    let mut progress = Progress::new(Vec::new(alloc), true);
    let hasher = DefaultHashBuilder::new();
    simulated(alloc, &options, hasher, input, &mut progress)
}

/// A trace that others are written for, too.
pub(crate) const TRACE: &[u8] = b"a\nb\na\nc\nb\nd\na\nb\n";

/// Two traces with their names, of which one has quotes, and one a control character.
const TRACES: [(&str, &[u8]); 2] = [("a \"b\"", TRACE), ("c\x1F", b"x")];

/// Returns what is written for two traces in place of what a line says, if it is something else.
pub(crate) fn other_text_of_two(
    alloc: Global,
    line: &str,
) -> Result<Option<Vec<u8>>, SpellingError> {
    let (words, wanted) = line.split_once('|').unwrap_or((line, "no bar"));
    other_than(alloc, wanted, text_of_two(alloc, words)?)
}

/// Returns what is written for two traces, or nothing if that is refused.
fn text_of_two(alloc: Global, line: &str) -> Result<Vec<u8>, SpellingError> {
    let words = words_of(alloc, line)?;
    Ok(of_two(alloc, &words).unwrap_or(Vec::new(alloc)))
}

/// Returns what is written for two traces.
fn of_two(alloc: Global, words: &[String]) -> Result<Vec<u8>, SimulationError> {
    let options = parse_options(alloc, words)?;
    let outcomes = outcomes_of_two(alloc, &options)?;
    let mut output = Device::new(Vec::new(alloc));
    write_outcomes(alloc, &options, &outcomes, &mut output)?;
    Ok(output.into_inner())
}

/// Returns the outcomes of two traces.
fn outcomes_of_two(
    alloc: Global,
    options: &Options<Global>,
) -> Result<Vec<Outcome<'static, Global>>, SimulationError> {
    let mut outcomes = Vec::new(alloc);
    for (name, trace) in TRACES {
        let outcome = outcome_of(alloc, options, name, trace)?;
        if outcomes.push(outcome).is_err() {
            return Err(SimulationError::Memory);
        }
    }
    Ok(outcomes)
}

/// Returns the outcome of a trace.
fn outcome_of(
    alloc: Global,
    options: &Options<Global>,
    name: &'static str,
    trace: &[u8],
) -> Result<Outcome<'static, Global>, SimulationError> {
    let mut progress = Progress::new(Vec::new(alloc), false);
    let mut reader = Device::new(trace);
    let hasher = DefaultHashBuilder::new();
    replay_source(alloc, options, name, hasher, &mut reader, &mut progress)
}
