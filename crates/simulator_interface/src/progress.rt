//! The progress of a long simulation, shown to a person.

use crate::summary::Summary;
use simulator_charts::plural_of;
use std::io;
use std::io::Write;
use std::time::{Clock, Duration, Instant};

/// The number of keys read between two reports if the length of a trace isn't known, and the
/// smallest number of accesses of a long trace.
const MILLION: usize = 1_000_000;

/// The number of bytes of a trace that are read before a percentage is reported.
const LONG: u64 = 1_000_000;

/// The first bytes of compressed files, and the command that shows each.
const COMPRESSED: [(&[u8], &str); 3] = [
    (b"\x1F\x8B", "zcat"),
    (b"\x28\xB5\x2F\xFD", "zstdcat"),
    (b"\xFD7zXZ\0", "xzcat"),
];

/// What goes back to the beginning of a terminal's line and erases it.
const ERASED: &str = "\r\x1b[K";

/// What makes a terminal leave out what is too long for a line, and what makes it wrap lines again.
const CUT: &str = "\x1b[?7l";

const WRAPPED: &str = "\x1b[?7h";

/// A clock that can't be read: no time left is shown.
#[derive(Clone, Copy, Debug)]
pub struct NoClock;

impl Clock for NoClock {
    fn monotonic(&self) -> io::Result<Duration> {
        Err(io::Error::from(io::ErrorKind::Unsupported))
    }

    fn since_1970(&self) -> io::Result<Duration> {
        Err(io::Error::from(io::ErrorKind::Unsupported))
    }
}

/// The progress of a long simulation, in one line of a terminal that is written over: how much of a
/// trace was read, in percent if its length is known and else in millions of keys; then the
/// capacity at which it is replayed. With a clock the line also has the seconds that are left, of
/// the reading or of the replays, if they go on as so far. Above it each row of a long trace is
/// shown as it comes, until the end. A failed write is ignored, and the simulation goes on.
///
/// # Example
///
/// ```
/// let is_shown = rt.stderr().is_terminal();
/// let mut progress = Progress::with_clock(rt.stderr(), is_shown, &rt);
/// progress.begin(Some(9_000_000)); // bytes
/// let trace = read_trace(alloc, hasher, "-", TraceFormat::Lines, reader, &mut progress)?;
/// progress.end();
/// ```
#[derive(Drop)]
pub struct Progress<W, C = NoClock> {
    writer: W,
    clock: C,
    is_shown: bool,
    // The number of bytes of the trace, if it is known.
    length: Option<u64>,
    // The number of bytes read so far.
    read: u64,
    // The percentage or the millions of keys that were reported last.
    reported: u64,
    // Whether something is in the line or above it.
    is_begun: bool,
    // The number of lines above it.
    lines: usize,
    // When the trace or its replays began, if there is a clock.
    start: Option<Instant>,
}

impl<W: Write> Progress<W, NoClock> {
    /// Returns progress that goes to `writer`, or is left out if `is_shown` is false.
    pub fn new(writer: W, is_shown: bool) -> Progress<W, NoClock> {
        Progress::with_clock(writer, is_shown, NoClock)
    }
}

impl<W: Write, C: Clock> Progress<W, C> {
    /// Does what [`Progress::new`] does, and shows the time that is left by a clock.
    pub fn with_clock(writer: W, is_shown: bool, clock: C) -> Progress<W, C> {
        Progress {
            writer,
            clock,
            is_shown,
            length: None,
            read: 0,
            reported: 0,
            is_begun: false,
            lines: 0,
            start: None,
        }
    }

    /// Begins a trace, whose number of bytes may be known.
    pub fn begin(&mut self, length: Option<u64>) {
        self.length = length;
        self.read = 0;
        self.reported = 0;
        self.start();
    }

    /// Erases the line and those above it, before anything else is written to the terminal.
    pub fn end(&mut self) {
        if self.is_begun {
            self.put(ERASED);
            if self.lines > 0 {
                let _ = write!(self.writer, "\x1b[{}A\x1b[J", self.lines);
            }
            let _ = self.writer.flush();
            self.is_begun = false;
            self.lines = 0;
        }
    }

    /// Reports how much of a trace was read, after some more bytes, and how many keys it has.
    pub fn read(&mut self, bytes: usize, keys: usize) {
        self.read = self.read.saturating_add(bytes as u64);
        let (figure, unit) = match self.length {
            Some(length) if self.read >= LONG => (percent_of(self.read, length), "%"),
            Some(_) => return,
            None => ((keys / MILLION) as u64, " million keys"),
        };
        if self.is_shown && figure != self.reported {
            self.reported = figure;
            self.is_begun = true;
            self.begin_line();
            self.put_number(figure);
            self.put(unit);
            self.put(" read");
            self.end_line(self.read, self.length);
        }
    }

    /// Returns true if the replays of a trace with this many accesses are shown.
    pub(crate) fn shows(&self, accesses: usize) -> bool {
        self.is_shown && accesses >= MILLION
    }

    /// Writes a line above the one of progress, where it is until the end.
    pub(crate) fn add_line(&mut self, line: &str) {
        for part in [ERASED, CUT, line, WRAPPED, "\n"] {
            self.put(part);
        }
        let _ = self.writer.flush();
        self.is_begun = true;
        self.lines = self.lines.saturating_add(1);
    }

    /// Reports the capacity at which a long trace is replayed next, and which one of all it is.
    pub fn replay(&mut self, accesses: usize, capacity: usize, index: usize, of: usize) {
        if self.shows(accesses) {
            self.is_begun = true;
            self.begin_line();
            self.put("capacity ");
            self.put_number(capacity as u64);
            self.put(", ");
            self.put_number((index as u64).saturating_add(1));
            self.put(" of ");
            self.put_number(of as u64);
            if index == 0 {
                self.start();
            }
            self.end_line(index as u64, Some(of as u64));
        }
    }

    /// Notes the time at which something begins.
    fn start(&mut self) {
        self.start = if self.is_shown {
            Instant::now(&self.clock).ok()
        } else {
            None
        };
    }

    /// Adds the time that is left after a part of a whole to the line, if there is a clock and they
    /// are known.
    fn end_line(&mut self, part: u64, whole: Option<u64>) {
        if let (Some(start), Some(whole)) = (self.start, whole) {
            if let Ok(elapsed) = start.elapsed(&self.clock) {
                if part > 0 {
                    let seconds = seconds_left(elapsed, part, whole);
                    let _ = write!(self.writer, ", {seconds} s left");
                }
            }
        }
        let _ = self.writer.flush();
    }

    /// Writes a warning if the first bytes of a trace are those of a compressed file, whether
    /// progress is shown or not.
    pub fn warn_if_compressed(&mut self, name: &str, bytes: &[u8]) {
        if let Some(command) = command_for(bytes) {
            self.warn(name);
            self.put("looks compressed: try ");
            self.put(command);
            self.put(" FILE | clock2q-simulate .. -\n");
        }
    }

    /// Erases what is shown, and begins a warning about a trace.
    fn warn(&mut self, name: &str) {
        self.end();
        self.put("clock2q-simulate: ");
        self.put(name);
        self.put(": warning: ");
    }

    /// Begins the line anew.
    fn begin_line(&mut self) {
        self.put(ERASED);
        self.put("clock2q-simulate: ");
    }

    /// Writes a text.
    fn put(&mut self, text: &str) {
        let _ = self.writer.write_all(text.as_bytes());
    }

    /// Writes a number.
    fn put_number(&mut self, number: u64) {
        let _ = write!(self.writer, "{number}");
    }

    /// Writes a warning that a trace has no access, or none to a key of its sample.
    fn warn_of_none(&mut self, name: &str, is_sampled: bool) {
        self.warn(name);
        self.put(if is_sampled {
            "no access to a key of the sample\n"
        } else {
            "an empty trace\n"
        });
    }

    /// Writes a warning if a trace is empty or suspicious, or if all its accesses are skipped, whether
    /// progress is shown or not.
    pub fn warn_of(&mut self, name: &str, summary: &Summary, skipped: usize, is_sampled: bool) {
        if summary.is_nearly_all_once() {
            self.warn(name);
            self.put("more than 99 of 100 keys are asked for once: is each line a key?\n");
        }
        if summary.accesses == 0 {
            self.warn_of_none(name, is_sampled);
        } else if summary.is_all_skipped(skipped) {
            self.warn(name);
            self.put("--skip=");
            self.put_number(skipped as u64);
            self.put(" leaves none of ");
            self.put_number(summary.accesses as u64);
            self.put(" access");
            self.put(plural_of(summary.accesses));
            self.put(" to count\n");
        }
    }
}

/// Returns the command that shows a compressed file, by its first bytes.
fn command_for(bytes: &[u8]) -> Option<&'static str> {
    for (first, command) in COMPRESSED {
        if bytes.starts_with(first) {
            return Some(command);
        }
    }
    let is_bzip2 = bytes.starts_with(b"BZh") && bytes.get(4..10) == Some(b"1AY&SY".as_slice());
    is_bzip2.then_some("bzcat")
}

/// Returns how many seconds the rest of a whole takes, if its part took some time.
fn seconds_left(elapsed: Duration, part: u64, whole: u64) -> u128 {
    let rest = whole.saturating_sub(part) as u128;
    elapsed.as_millis().saturating_mul(rest) / (part.max(1) as u128) / 1000
}

/// Returns the percentage that a number is of another.
fn percent_of(part: u64, whole: u64) -> u64 {
    part.saturating_mul(100) / whole.max(1)
}
