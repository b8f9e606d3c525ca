//! Traces that grow key by key: cases of a file, a line each.

use crate::asked::{list, other_text};
use crate::keys::write_keys;
use clock2q_cache::DefaultHashBuilder;
use simulator_traces::{GrowingTrace, Trace};
use std::alloc::{AllocError, Global};
use testing::{SpellingError, number_of};

/// A trace that grows.
type Growing = GrowingTrace<DefaultHashBuilder, Global>;

/// Returns what a line gives in place of the lengths, numbers and sizes that it should, if it does.
pub(crate) fn other_growth(alloc: Global, line: &str) -> Result<Option<Vec<u8>>, SpellingError> {
    let (made, rest) = line.split_once('|').unwrap_or((line, ""));
    let (keys, wanted) = rest.split_once('|').unwrap_or((rest, "no bar"));
    let mut text = String::new(alloc);
    write_growth(&mut text, new_trace(alloc, made), keys)?;
    Ok(other_text(text, wanted))
}

/// Makes a trace with sizes or without.
fn new_trace(alloc: Global, made: &str) -> Growing {
    if made == "sizes" {
        GrowingTrace::with_sizes(alloc, DefaultHashBuilder::new(), None, true)
    } else {
        GrowingTrace::new(alloc)
    }
}

/// Writes how long a trace is before each of some keys is added, and then its keys.
fn write_growth(text: &mut String, growing: Growing, keys: &str) -> Result<(), AllocError> {
    match grown(text, growing, keys) {
        Ok(trace) => write_keys(text, &trace),
        Err(error) => Err(error),
    }
}

/// Returns a trace with some keys more.
fn grown(text: &mut String, mut growing: Growing, keys: &str) -> Result<Trace<Global>, AllocError> {
    match push_all(text, &mut growing, keys) {
        Ok(()) => Ok(growing.finish()),
        Err(refusal) => Err(refusal),
    }
}

/// Adds keys, and writes how long the trace is before each.
fn push_all(text: &mut String, growing: &mut Growing, keys: &str) -> Result<(), AllocError> {
    for key in keys.split_terminator(';') {
        list(text, &[growing.len()])?;
        push(growing, key)?;
    }
    Ok(())
}

/// Adds a key, which may have a size before it.
fn push(growing: &mut Growing, key: &str) -> Result<(), AllocError> {
    match key.split_once(' ') {
        Some((size, key)) => growing.push_sized(key.as_bytes(), number_of(size) as usize),
        None => growing.push(key.as_bytes()),
    }
}
