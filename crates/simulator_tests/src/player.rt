//! Cases of simulations, a line each.

use clock2q_cache::DefaultHashBuilder;
use clock2q_ports::Device;
use simulator_interface::{ErrorReport, Options, Progress, SimulationError, parse_options};
use simulator_replay::simulate;
use std::alloc::{AllocError, Global};
use std::hash::{BuildHasher, RandomState};
use std::io::{Read, Result as IoResult, Write};
use std::time::Clock;
use testing::{LinearHashBuilder, SpellingError, spelled};

/// How many bytes of a short trace are given at a time.
const STEPS: [usize; 2] = [1, 23];

/// The length of the longest short trace, and the number of bytes of any trace that are given at a
/// time.
const SHORT: usize = 1000;

/// Hashers that spread keys badly: one hash for all, or a number's own value.
const SPREADS: [LinearHashBuilder; 5] = [
    LinearHashBuilder { times: 0, more: 7 },
    LinearHashBuilder { times: 0, more: 0 },
    LinearHashBuilder {
        times: 0,
        more: 0xAB00_0000_0000_000F,
    },
    LinearHashBuilder {
        times: 0,
        more: u64::MAX,
    },
    LinearHashBuilder { times: 1, more: 0 },
];

/// A reader that gives a few bytes at a time.
#[derive(Drop)]
pub(crate) struct Slow<'a> {
    pub(crate) left: &'a [u8],
    pub(crate) step: usize,
}

impl Read for Slow<'_> {
    fn read(&mut self, buf: &mut [u8]) -> IoResult<usize> {
        let count = self.step.min(self.left.len()).min(buf.len());
        let (given, left) = self.left.split_at(count);
        buf[..count].copy_from_slice(given);
        self.left = left;
        Ok(count)
    }
}

/// Returns what a line gives in place of what it should, if it does.
pub(crate) fn other_outcome(
    alloc: Global,
    random: RandomState,
    line: &str,
) -> Result<Option<Vec<u8>>, SpellingError> {
    let case = Case::from_line(alloc, line)?;
    Ok(case.other_outcome(alloc, random)?)
}

/// Does so with the usual hasher and the whole trace at once.
pub(crate) fn other_outcome_at_once(
    alloc: Global,
    line: &str,
) -> Result<Option<Vec<u8>>, SpellingError> {
    let case = Case::from_line(alloc, line)?;
    Ok(case.other_outcome_with(alloc, DefaultHashBuilder::new(), SHORT)?)
}

/// Arguments, a trace, and what is written, to standard output and then to standard error.
#[derive(Drop)]
struct Case {
    words: Vec<String>,
    trace: Vec<u8>,
    wanted: Vec<u8>,
}

impl Case {
    /// Reads a line, whose parts end at bars.
    fn from_line(alloc: Global, line: &str) -> Result<Case, SpellingError> {
        let (words, rest) = line.split_once('|').unwrap_or((line, ""));
        let (trace, wanted) = rest.split_once('|').unwrap_or((rest, "no bar"));
        Ok(Case {
            words: words_of(alloc, words)?,
            trace: spelled(alloc, trace)?,
            wanted: spelled(alloc, wanted)?,
        })
    }

    /// Returns what the case gives in place of what it should, if it does.
    fn other_outcome(
        &self,
        alloc: Global,
        random: RandomState,
    ) -> Result<Option<Vec<u8>>, AllocError> {
        match self.other_outcome_with(alloc, DefaultHashBuilder::new(), SHORT)? {
            None if self.trace.len() <= SHORT => self.other_outcome_of_short(alloc, random),
            other => Ok(other),
        }
    }

    /// Does so in pieces of several lengths, and with other hashers.
    fn other_outcome_of_short(
        &self,
        alloc: Global,
        random: RandomState,
    ) -> Result<Option<Vec<u8>>, AllocError> {
        for step in STEPS {
            let other = self.other_outcome_with(alloc, DefaultHashBuilder::new(), step)?;
            if other.is_some() {
                return Ok(other);
            }
        }
        self.other_outcome_spread(alloc, random)
    }

    /// Does so with hashers that spread the keys badly, and with random numbers.
    fn other_outcome_spread(
        &self,
        alloc: Global,
        random: RandomState,
    ) -> Result<Option<Vec<u8>>, AllocError> {
        for spread in SPREADS {
            let other = self.other_outcome_with(alloc, spread, SHORT)?;
            if other.is_some() {
                return Ok(other);
            }
        }
        self.other_outcome_with(alloc, random, SHORT)
    }

    /// Does so with a hasher, and in pieces of some length.
    fn other_outcome_with<S: BuildHasher + Drop>(
        &self,
        alloc: Global,
        hasher: S,
        step: usize,
    ) -> Result<Option<Vec<u8>>, AllocError> {
        let got = self.outcome(alloc, hasher, step)?;
        Ok(if got == self.wanted { None } else { Some(got) })
    }

    /// Returns what is written, or the refusal with its status.
    fn outcome<S: BuildHasher + Drop>(
        &self,
        alloc: Global,
        hasher: S,
        step: usize,
    ) -> Result<Vec<u8>, AllocError> {
        match self.written(alloc, hasher, step) {
            Ok(written) => Ok(written),
            Err(refusal) => {
                let report = ErrorReport {
                    refusal,
                    trace: None,
                    arguments: &self.words,
                };
                let shown = format!(in alloc; "!{report}, status {}", refusal.status())?;
                Vec::from_slice(alloc, shown.as_bytes())
            }
        }
    }

    /// Returns what is written to standard output, and then the warnings.
    fn written<S: BuildHasher + Drop>(
        &self,
        alloc: Global,
        hasher: S,
        step: usize,
    ) -> Result<Vec<u8>, SimulationError> {
        let options = parse_options(alloc, &self.words)?;
        let left = self.trace.as_slice();
        with_warnings(alloc, &options, hasher, Slow { left, step })
    }
}

/// Returns what a simulation writes to standard output, and then the warnings.
fn with_warnings<S: BuildHasher + Drop>(
    alloc: Global,
    options: &Options<Global>,
    hasher: S,
    trace: Slow<'_>,
) -> Result<Vec<u8>, SimulationError> {
    let mut warnings = Vec::new(alloc);
    let written = {
        let mut progress = Progress::new(&mut warnings, false);
        simulated(alloc, options, hasher, trace, &mut progress)
    };
    followed_by(written, &warnings)
}

/// Returns what was written, and then some more.
fn followed_by(
    written: Result<Vec<u8>, SimulationError>,
    more: &[u8],
) -> Result<Vec<u8>, SimulationError> {
    let mut all = written?;
    all.extend_from_slice(more)?;
    Ok(all)
}

/// Returns what a simulation writes to standard output.
pub(crate) fn simulated<S: BuildHasher + Drop, R: Read, P: Write, C: Clock>(
    alloc: Global,
    options: &Options<Global>,
    hasher: S,
    trace: R,
    progress: &mut Progress<P, C>,
) -> Result<Vec<u8>, SimulationError>
where
    R: Drop,
{
    let mut reader = Device::new(trace);
    let mut writer = Device::new(Vec::new(alloc));
    simulate(alloc, options, hasher, &mut reader, &mut writer, progress)?;
    Ok(writer.into_inner())
}

/// Returns the words of a line of arguments.
pub(crate) fn words_of(alloc: Global, line: &str) -> Result<Vec<String>, SpellingError> {
    let mut words = Vec::new(alloc);
    push_words(alloc, &mut words, line)?;
    Ok(words)
}

/// Adds the words of a line.
fn push_words(alloc: Global, words: &mut Vec<String>, line: &str) -> Result<(), SpellingError> {
    for word in line.split_whitespace() {
        push(words, String::from_str(alloc, word)?)?;
    }
    Ok(())
}

/// Adds a word.
fn push(words: &mut Vec<String>, word: String) -> Result<(), SpellingError> {
    match words.push(word) {
        Ok(()) => Ok(()),
        Err(_) => Err(SpellingError::Memory),
    }
}
