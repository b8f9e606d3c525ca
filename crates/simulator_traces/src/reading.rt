//! A trace read from a source.
ghost use Rattle.std.specs.Prelude.{◌≡◌, IfOk, None};
ghost use Rattle.simulator_interface.specs.TraceFormats.{has_sizes};
ghost use Rattle.simulator_traces.specs.Reading.{ReadsTrace};

use crate::records::Records;
use crate::trace::Trace;
use clock2q_ports::Source;
use simulator_interface::{Progress, Sample, SimulationError, TraceFormat};
use std::alloc::Allocator;
use std::hash::BuildHasher;
use std::io::Write;
use std::time::Clock;

/// The number of bytes requested at a time.
const BLOCK: usize = 65536;

/// Reads a trace in a format to its end. A warning names it if it looks compressed. A failed read
/// isn't retried. The trace doesn't depend on the hasher: use a `RandomState` if strangers choose
/// the keys.
///
/// # Errors
///
/// `Read` if a read fails, `Line`, `Size` or `Record` for the first record that isn't in the format,
/// and `Memory` if a request for memory is refused. What was read is dropped then.
///
/// # Cost
///
/// That of [`GrowingTrace::push`](crate::GrowingTrace::push) for each record. Memory in proportion
/// to the number of records and to the bytes of the different keys; 8 bytes more a record if the
/// format has sizes.
pub fn read_trace<R: Source, W: Write, C: Clock, S: BuildHasher + Drop, A: Allocator + Copy>(
    alloc: A,
    hasher: S,
    name: &str,
    format: TraceFormat,
    reader: &mut R,
    progress: &mut Progress<W, C>,
) -> Result<Trace<A>, SimulationError>
    ensures read { ReadsTrace (R.given reader.old) (R.given reader.new) (R.remaining reader.old) (R.remaining reader.new) format (λ trace. trace.accesses) result }
    ensures whole { IfOk result (λ trace. trace.sample ≡ None) }
    ensures sized { IfOk result (λ trace. trace.is_sized ≡ has_sizes format) }
{
    read_sample(alloc, hasher, None, name, format, reader, progress)
}

/// Does what [`read_trace`] does, but keeps only the keys in a sample, if there is one. The others
/// take neither memory nor numbers.
///
/// # Errors
///
/// Those of [`read_trace`].
///
/// # Cost
///
/// That of [`read_trace`] for the keys in the sample, and a pass over the bytes of the others.
pub fn read_sample<R: Source, W: Write, C: Clock, S: BuildHasher + Drop, A: Allocator + Copy>(
    alloc: A,
    hasher: S,
    sample: Option<Sample>,
    name: &str,
    format: TraceFormat,
    reader: &mut R,
    progress: &mut Progress<W, C>,
) -> Result<Trace<A>, SimulationError>
    ensures read { ReadsTrace (R.given reader.old) (R.given reader.new) (R.remaining reader.old) (R.remaining reader.new) format (λ trace. trace.accesses) result }
    ensures sample { IfOk result (λ trace. trace.sample ≡ sample) }
    ensures sized { IfOk result (λ trace. trace.is_sized ≡ has_sizes format) }
{
    let mut records = Records::new(alloc, hasher, sample, format);
    let mut block = [0u8; BLOCK];
    for index in 0..u64::MAX {
        let Ok(count) = reader.read(&mut block) else {
            return Err(SimulationError::Read);
        };
        if count == 0 {
            return records.finish();
        }
        if index == 0 {
            progress.warn_if_compressed(name, &block[..count]);
        }
        records.take(&block[..count])?;
        progress.read(count, records.trace.len());
    }
    // the keys of that many bytes can't fit in memory
    Err(SimulationError::Memory)
}
