//! The numbers of a trace's keys.

use clock2q_cache::DefaultHashBuilder;
use clock2q_ports::Device;
use simulator_interface::{Progress, SimulationError, TraceFormat};
use simulator_traces::{Trace, read_trace};
use std::alloc::{AllocError, Global};
use std::test::Fail;
use testing::{same, same_at};

/// Reads a trace from bytes.
pub(crate) fn trace_of(alloc: Global, input: &[u8]) -> Result<Trace<Global>, SimulationError> {
    let mut progress = Progress::new(Vec::new(alloc), false);
    let hasher = DefaultHashBuilder::new();
    let mut reader = Device::new(input);
    let lines = TraceFormat::Lines;
    read_trace(alloc, hasher, "-", lines, &mut reader, &mut progress)
}

/// Returns long keys that differ in their last byte, as lines.
fn long_lines(alloc: Global) -> Result<Vec<u8>, AllocError> {
    let mut input = vec![in alloc; b'k'; 200_003]?;
    end_lines(&mut input, [100_000, 200_002]);
    Ok(input)
}

/// Puts line ends at some places.
fn end_lines(input: &mut [u8], ends: [usize; 2]) {
    for end in ends {
        if let Some(byte) = input.get_mut(end) {
            *byte = b'\n';
        }
    }
}

/// Numbers long keys.
pub(crate) fn number_long_keys(alloc: Global) -> Result<(), Fail> {
    let trace = trace_of(alloc, &long_lines(alloc)?)?;
    same(trace.numbers(), [0, 1].as_slice())
}

/// Adds a line with a number.
pub(crate) fn push_line(lines: &mut String, number: u32) -> Result<(), AllocError> {
    write!(lines, "{number}\n")
}

/// Returns 65,537 keys, more than 16 bits can number, each twice: first ascending, then descending.
fn many_lines(alloc: Global) -> Result<String, AllocError> {
    let mut lines = String::new(alloc);
    for key in (0..65_537u32).chain((0..65_537).rev()) {
        push_line(&mut lines, key)?;
    }
    Ok(lines)
}

/// Checks the numbers of the keys of such lines.
fn numbers_go_back(trace: &Trace<Global>) -> Result<(), Fail> {
    same(
        (trace.key_count(), trace.numbers().len()),
        (65_537, 131_074),
    )?;
    for (index, number) in trace.numbers().iter().enumerate() {
        let wanted = index.min(131_073usize.saturating_sub(index));
        same_at(*number as usize, wanted, index)?;
    }
    Ok(())
}

/// Numbers more keys than 16 bits can.
pub(crate) fn number_many_keys(alloc: Global) -> Result<(), Fail> {
    numbers_go_back(&trace_of(alloc, many_lines(alloc)?.as_bytes())?)
}
