//! The progress of a simulation, in one line that is written over, and rows above it: cases of a file, a
//! line each.

use crate::player::{simulated, words_of};
use clock2q_cache::DefaultHashBuilder;
use simulator_interface::{Progress, SimulationError, parse_options};
use std::alloc::{AllocError, Global};
use std::cell::Cell;
use std::io;
use std::time::{Clock, Duration};
use testing::{SpellingError, named_in, number_of, other_than, two_words};

/// Returns what a line shows in place of what it should, if it does.
pub(crate) fn other_progress(alloc: Global, line: &str) -> Result<Option<Vec<u8>>, SpellingError> {
    let (words, rest) = line.split_once('|').unwrap_or((line, ""));
    let (run, wanted) = rest.split_once('|').unwrap_or((rest, "no bar"));
    other_than(alloc, wanted, shown(alloc, words, run)?)
}

/// How progress is shown.
#[derive(Clone, Copy)]
enum Way {
    Hidden,
    Shown,
    /// Shown, with a clock.
    Timed,
}

const WAYS: &[(&str, Way)] = &[
    ("hidden", Way::Hidden),
    ("shown", Way::Shown),
    ("timed", Way::Timed),
];

/// Returns what is shown while a trace is replayed, or nothing if that is refused.
fn shown(alloc: Global, words: &str, run: &str) -> Result<Vec<u8>, SpellingError> {
    let words = words_of(alloc, words)?;
    Ok(shown_with(alloc, &words, run).unwrap_or(Vec::new(alloc)))
}

/// Returns what is shown of a run: how it is shown, the bytes of the trace, and the length that is known.
fn shown_with(alloc: Global, words: &[String], run: &str) -> Result<Vec<u8>, SimulationError> {
    let (way, rest) = two_words(run);
    let (trace, length) = two_words(rest);
    let trace = trace_of(alloc, trace)?;
    shown_of(alloc, words, named_in(WAYS, way), &trace, length)
}

/// Returns what is shown while a trace is replayed.
fn shown_of(
    alloc: Global,
    words: &[String],
    way: Option<Way>,
    trace: &[u8],
    length: &str,
) -> Result<Vec<u8>, SimulationError> {
    let mut shown = Vec::new(alloc);
    let replayed = match way {
        Some(Way::Timed) => show_timed(alloc, words, trace, length, &mut shown),
        Some(Way::Shown) => show(alloc, words, trace, length, true, &mut shown),
        _ => show(alloc, words, trace, length, false, &mut shown),
    };
    match replayed {
        Ok(()) => Ok(shown),
        Err(refusal) => Err(refusal),
    }
}

/// Shows how much of a trace is read, and how much time is left.
fn show_timed(
    alloc: Global,
    words: &[String],
    trace: &[u8],
    length: &str,
    shown: &mut Vec<u8>,
) -> Result<(), SimulationError> {
    let clock = Ticking { tens: Cell::new(0) };
    let mut progress = Progress::with_clock(shown, true, clock);
    replay(alloc, words, trace, length, &mut progress)
}

/// Shows how much of a trace is read, and the rows.
fn show(
    alloc: Global,
    words: &[String],
    trace: &[u8],
    length: &str,
    is_shown: bool,
    shown: &mut Vec<u8>,
) -> Result<(), SimulationError> {
    let mut progress = Progress::new(shown, is_shown);
    let replayed = replay(alloc, words, trace, length, &mut progress);
    progress.end();
    replayed
}

/// Returns as many bytes as a word says: it begins with the byte.
fn trace_of(alloc: Global, word: &str) -> Result<Vec<u8>, AllocError> {
    let (byte, length) = match word.strip_prefix('a') {
        Some(length) => (b'a', length),
        None => (b'\n', word),
    };
    vec![in alloc; byte; number_of(length) as usize]
}

/// Replays a trace, whose length may be known, with some progress.
fn replay<C: Clock>(
    alloc: Global,
    words: &[String],
    trace: &[u8],
    length: &str,
    progress: &mut Progress<&mut Vec<u8>, C>,
) -> Result<(), SimulationError> {
    let options = parse_options(alloc, words)?;
    progress.begin(length.parse().ok());
    let hasher = DefaultHashBuilder::new();
    let _ = simulated(alloc, &options, hasher, trace, progress)?;
    Ok(())
}

/// A clock on which ten seconds pass before each reading.
#[derive(Drop)]
struct Ticking {
    tens: Cell<u64>,
}

impl Clock for Ticking {
    fn monotonic(&self) -> io::Result<Duration> {
        self.tens.set(self.tens.get().saturating_add(1));
        Ok(Duration::from_secs(self.tens.get().saturating_mul(10)))
    }

    fn since_1970(&self) -> io::Result<Duration> {
        self.monotonic()
    }
}
