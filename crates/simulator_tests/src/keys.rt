//! The numbers of a trace's keys and their sizes: cases of a file, a line each.

use crate::asked::list;
use crate::player::{Slow, words_of};
use clock2q_cache::DefaultHashBuilder;
use clock2q_ports::Device;
use simulator_interface::{Progress, SimulationError, parse_options};
use simulator_traces::{Trace, read_sample};
use std::alloc::{AllocError, Global};
use testing::{SpellingError, spelled};

/// How many bytes of a trace are given at a time.
const STEPS: [usize; 6] = [1, 2, 5, 23, 24, 1000];

/// Returns what a line gives in place of the numbers and sizes that it should, if it does.
pub(crate) fn other_keys(alloc: Global, line: &str) -> Result<Option<Vec<u8>>, SpellingError> {
    let (words, rest) = line.split_once('|').unwrap_or((line, ""));
    let (trace, wanted) = rest.split_once('|').unwrap_or((rest, "no bar"));
    let words = words_of(alloc, words)?;
    let trace = spelled(alloc, trace)?;
    Ok(other_keys_of(alloc, &words, &trace, wanted)?)
}

/// Returns what a trace gives in place of some numbers and sizes, if it does so in pieces of some length.
fn other_keys_of(
    alloc: Global,
    words: &[String],
    trace: &[u8],
    wanted: &str,
) -> Result<Option<Vec<u8>>, AllocError> {
    for step in STEPS {
        let keys = keys_read(alloc, words, trace, step)?;
        if keys.trim_start() != wanted {
            return Ok(Some(keys.into_bytes()));
        }
    }
    Ok(None)
}

/// Returns the numbers and sizes of a trace, or the refusal.
fn keys_read(
    alloc: Global,
    words: &[String],
    trace: &[u8],
    step: usize,
) -> Result<String, AllocError> {
    match read(alloc, words, trace, step) {
        Ok(trace) => keys_of(alloc, &trace),
        Err(refusal) => format!(in alloc; "{refusal}"),
    }
}

/// Returns how many keys a trace has, their numbers, and the sizes if it has some.
fn keys_of(alloc: Global, trace: &Trace<Global>) -> Result<String, AllocError> {
    let mut text = String::new(alloc);
    write_keys(&mut text, trace)?;
    Ok(text)
}

/// Writes how many keys a trace has, their numbers, and the sizes if it has some.
pub(crate) fn write_keys(text: &mut String, trace: &Trace<Global>) -> Result<(), AllocError> {
    list(text, &[trace.key_count()])?;
    text.push_str(":")?;
    list(text, trace.numbers())?;
    if !trace.has_sizes() {
        return Ok(());
    }
    text.push_str(" of")?;
    list(text, trace.sizes())
}

/// Reads a trace in the format and sample that arguments ask for, a few bytes at a time.
fn read(
    alloc: Global,
    words: &[String],
    bytes: &[u8],
    step: usize,
) -> Result<Trace<Global>, SimulationError> {
    let options = parse_options(alloc, words)?;
    let mut progress = Progress::new(Vec::new(alloc), false);
    let mut reader = Device::new(Slow { left: bytes, step });
    read_sample(
        alloc,
        DefaultHashBuilder::new(),
        options.sample,
        "-",
        options.trace_format,
        &mut reader,
        &mut progress,
    )
}
