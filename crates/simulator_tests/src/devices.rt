//! Traces from readers and texts to writers that fail at one of their calls: cases of a file, a line each.

use crate::player::words_of;
use clock2q_cache::DefaultHashBuilder;
use clock2q_ports::Device;
use simulator_interface::{Progress, SimulationError, parse_options};
use simulator_replay::simulate;
use std::alloc::{AllocError, Global};
use std::io::{Error, ErrorKind, Read, Result as IoResult, Write};
use testing::{SpellingError, number_of, spelled};

const TRACE: &[u8] = b"a\nbb\na\n\nbb\n";

/// The errors with which calls fail.
const KINDS: [ErrorKind; 4] = [
    ErrorKind::BrokenPipe,
    ErrorKind::Interrupted,
    ErrorKind::WouldBlock,
    ErrorKind::OutOfMemory,
];

/// Returns the first plan of a line that a simulation doesn't end by as it should, if there is one.
pub(crate) fn other_ending(alloc: Global, line: &str) -> Result<Option<Vec<u8>>, SpellingError> {
    let (words, rest) = line.split_once('|').unwrap_or((line, ""));
    let (step, text) = rest.split_once('|').unwrap_or((rest, "no bar"));
    let words = words_of(alloc, words)?;
    let text = spelled(alloc, text)?;
    let case = Case {
        words: &words,
        text: &text,
        step: number_of(step) as usize,
    };
    Ok(shown(alloc, case.wrong_plan(alloc))?)
}

/// Returns what debugging shows of a plan, if there is one.
fn shown(alloc: Global, plan: Option<Plan>) -> Result<Option<Vec<u8>>, AllocError> {
    match plan {
        Some(plan) => Ok(Some(format!(in alloc; "{plan:?}")?.into_bytes())),
        None => Ok(None),
    }
}

/// The calls at which the devices fail, from 0 on, and how.
#[derive(Clone, Copy, Debug)]
struct Plan {
    reads: usize,
    writes: usize,
    kind: ErrorKind,
}

/// Arguments, the text that is written for the trace, and the number of bytes that a call moves.
#[derive(Clone, Copy)]
struct Case<'a> {
    words: &'a [String],
    text: &'a [u8],
    step: usize,
}

impl Case<'_> {
    /// Returns a plan that a simulation doesn't end by as it should.
    fn wrong_plan(&self, alloc: Global) -> Option<Plan> {
        for kind in KINDS {
            let wrong = self.wrong_plan_of(alloc, kind);
            if wrong.is_some() {
                return wrong;
            }
        }
        None
    }

    /// Returns such a plan with this error, or with none.
    fn wrong_plan_of(&self, alloc: Global, kind: ErrorKind) -> Option<Plan> {
        match self.wrong_read(alloc, kind) {
            None => self.wrong_write(alloc, kind),
            wrong => wrong,
        }
    }

    /// Lets each read fail in turn.
    fn wrong_read(&self, alloc: Global, kind: ErrorKind) -> Option<Plan> {
        for reads in 0..=self.calls_for(TRACE) {
            let plan = Plan {
                reads,
                writes: usize::MAX,
                kind,
            };
            let ended = self.ended(alloc, plan);
            if !ended.is_after_read(reads) {
                return Some(plan);
            }
        }
        None
    }

    /// Lets each write fail in turn, then the flush, and then nothing.
    fn wrong_write(&self, alloc: Global, kind: ErrorKind) -> Option<Plan> {
        let flush = self.calls_for(self.text);
        for writes in 0..=flush.saturating_add(1) {
            let plan = Plan {
                reads: usize::MAX,
                writes,
                kind,
            };
            let ended = self.ended(alloc, plan);
            if !self.is_after_write(&ended, writes, flush) {
                return Some(plan);
            }
        }
        None
    }

    /// Returns how a simulation with this plan ends.
    fn ended(&self, alloc: Global, plan: Plan) -> Ended {
        let mut reader = failing_at(alloc, TRACE, self.step, plan.reads, plan.kind);
        let mut writer = failing_at(alloc, b"", self.step, plan.writes, plan.kind);
        let result = simulated(alloc, self.words, &mut reader, &mut writer);
        let writer = writer.into_inner();
        Ended {
            result,
            reads: reader.into_inner().calls,
            writes: writer.calls,
            text: writer.taken,
        }
    }

    /// Returns true if a simulation ended as it should if a write fails, or the flush or nothing after all writes.
    fn is_after_write(&self, ended: &Ended, writes: usize, flush: usize) -> bool {
        let taken = self.text.len().min(writes.saturating_mul(self.step));
        if ended.text.as_slice() != &self.text[..taken] {
            return false;
        }
        match ended.result {
            Ok(()) => writes > flush,
            Err(SimulationError::Write) => ended.writes == writes.saturating_add(1),
            Err(_) => false,
        }
    }

    /// Returns the number of calls that move some bytes.
    fn calls_for(&self, bytes: &[u8]) -> usize {
        bytes.len().div_ceil(self.step.max(1))
    }
}

/// Reads the trace and writes the hits.
fn simulated(
    alloc: Global,
    words: &[String],
    reader: &mut Device<Failing<'_>>,
    writer: &mut Device<Failing<'_>>,
) -> Result<(), SimulationError> {
    let options = parse_options(alloc, words)?;
    let mut progress = Progress::new(Vec::new(alloc), false);
    let hasher = DefaultHashBuilder::new();
    simulate(alloc, &options, hasher, reader, writer, &mut progress)
}

/// How a simulation ended: its result, the calls of both devices, and the text written.
#[derive(Drop)]
struct Ended {
    result: Result<(), SimulationError>,
    reads: usize,
    writes: usize,
    text: Vec<u8>,
}

impl Ended {
    /// Returns true if it ended as it should if a read fails.
    fn is_after_read(&self, reads: usize) -> bool {
        match self.result {
            Err(SimulationError::Read) => {
                self.reads == reads.saturating_add(1) && self.writes == 0 && self.text.is_empty()
            }
            _ => false,
        }
    }
}

/// A reader or writer that moves a few bytes at a time and fails at a call, counted from 0.
#[derive(Drop)]
struct Failing<'a> {
    left: &'a [u8],
    taken: Vec<u8>,
    step: usize,
    fails_at: usize,
    kind: ErrorKind,
    calls: usize,
}

/// Returns a device that fails at a call.
fn failing_at<'a>(
    alloc: Global,
    left: &'a [u8],
    step: usize,
    fails_at: usize,
    kind: ErrorKind,
) -> Device<Failing<'a>> {
    Device::new(Failing {
        left,
        taken: Vec::new(alloc),
        step,
        fails_at,
        kind,
        calls: 0,
    })
}

impl Failing<'_> {
    fn call(&mut self) -> IoResult<()> {
        let call = self.calls;
        self.calls = call.saturating_add(1);
        if call == self.fails_at {
            return Err(Error::from(self.kind));
        }
        Ok(())
    }
}

impl Read for Failing<'_> {
    fn read(&mut self, buf: &mut [u8]) -> IoResult<usize> {
        self.call()?;
        let count = self.step.min(self.left.len()).min(buf.len());
        let (given, left) = self.left.split_at(count);
        buf[..count].copy_from_slice(given);
        self.left = left;
        Ok(count)
    }
}

impl Write for Failing<'_> {
    fn write(&mut self, buf: &[u8]) -> IoResult<usize> {
        self.call()?;
        let count = self.step.min(buf.len());
        self.taken.extend_from_slice(&buf[..count])?;
        Ok(count)
    }

    fn flush(&mut self) -> IoResult<()> {
        self.call()
    }
}
