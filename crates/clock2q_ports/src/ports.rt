//! Ports: where bytes come from, and where they go.
ghost use Rattle.std.specs.Prelude.{◌≡◌, ℕ, ◌<◌, ◌≤◌, List, Option, length, IfOk};
ghost use Rattle.std.specs.Io.KnownBytes.{Appends, Keeps, ReadConsumes, WriteAppends};
ghost use Rattle.clock2q_ports.specs.Ports.{Traffic, no_traffic, after_read, after_write, after_flush};

use crate::event_log::{EventLog, IoEvent};
use std::io::{Read, Write};
use std::marker::Model;
use thiserror::Error;

/// The failure of a source or a sink. Bytes moved before it stay moved.
///
/// # Example
///
/// ```
/// if sink.flush() == Err(Failed) {
///     println!(rt; "not all was sent on")?;
/// }
/// ```
#[derive(Debug, Clone, Copy, PartialEq, Eq, Error)]
#[error("device failed")]
pub struct Failed;

/// A place that bytes come from, such as a file that is read. A [`Device`] is one.
///
/// # Example
///
/// ```
/// let mut source = Device::new(b"len\n".as_slice());
/// let mut into = [0; 16];
/// assert_eq!(rt; source.read(&mut into), Ok(4));
/// assert_eq!(rt; source.read(&mut into), Ok(0));
/// ```
pub trait Source {
    // The bytes that are still to come, if they are known.
    ghost remaining: { Self → Option (List ℕ) };

    // What it has given.
    ghost given: { Self → Traffic };

    /// Moves bytes to the front of `into`, which isn't empty, and returns how many: at most its
    /// length, and 0 if none is left.
    ///
    /// # Errors
    ///
    /// `Failed` if the bytes can't be read. No byte is moved then.
    fn read(&mut self, into: &mut [u8]) -> Result<usize, Failed>
        requires space { 0 < length into.old }
        ensures bound { IfOk result (λ n. n ≤ length into.new) }
        ensures bytes { ReadConsumes (remaining self.old) (remaining self.new) result into.new }
        ensures given { given self.new ≡ after_read (given self.old) result into.new };
}

/// A place that bytes go to, such as a file that is written. A [`Device`] is one.
///
/// # Example
///
/// ```
/// let mut sink = Device::new(Vec::new(rt.alloc()));
/// assert_eq!(rt; sink.write(b"ok\n"), Ok(3));
/// assert_eq!(rt; sink.flush(), Ok(()));
/// assert_eq!(rt; sink.into_inner().as_slice(), b"ok\n".as_slice());
/// ```
pub trait Sink {
    // The bytes that it holds, if they are known.
    ghost contents: { Self → Option (List ℕ) };

    // What it has taken.
    ghost taken: { Self → Traffic };

    /// Takes bytes from the front of `from`, and returns how many: at most its length. If `from`
    /// isn't empty, 0 counts as a failure.
    ///
    /// # Errors
    ///
    /// `Failed` if no byte can be taken.
    fn write(&mut self, from: &[u8]) -> Result<usize, Failed>
        ensures bound { IfOk result (λ n. n ≤ length from.now) }
        ensures bytes { WriteAppends (contents self.old) (contents self.new) result from.now }
        ensures taken { taken self.new ≡ after_write (taken self.old) result from.now };

    /// Flushes the bytes that were taken.
    ///
    /// # Errors
    ///
    /// `Failed` if not all of them could be flushed.
    fn flush(&mut self) -> Result<(), Failed>
        ensures bytes { Keeps (contents self.old) (contents self.new) }
        ensures taken { taken self.new ≡ after_flush (taken self.old) result };
}

/// A source over a reader, or a sink over a writer.
///
/// Each call makes one call of the reader or writer, and each of its errors is a failure: an
/// interrupted call is not retried. The counts of the device are seen by contracts alone, and take
/// no memory.
///
/// # Example
///
/// ```
/// let mut input = Device::new(b"new 2\nlen\n".as_slice());
/// let mut output = Device::new(Vec::new(rt.alloc()));
/// let text = read_all(rt.alloc(), &mut input)?;
/// send(&mut output, &text)?;
/// assert_eq!(rt; output.into_inner().as_slice(), b"new 2\nlen\n".as_slice());
/// ```
#[derive(Drop)]
pub struct Device<T> {
    inner: T,
    log: EventLog,
}

impl<T> Model for Device<T> {
    ghost use Rattle.clock2q_ports.specs.Ports.{Attached};

    ghost Value = { Attached T };

    ghost view = { λ d. record { inner = d.inner; traffic = d.log.traffic.value } };
}

impl<T> Device<T> {
    /// Returns a device over `inner`, through which nothing has gone yet.
    pub fn new(inner: T) -> Self
        ensures inner { result.inner ≡ inner }
        ensures traffic { result.traffic ≡ no_traffic }
    {
        Device {
            inner,
            log: EventLog::new(),
        }
    }

    /// Returns the reader or writer, as the calls left it.
    pub fn into_inner(self) -> T
        ensures inner { result ≡ self.inner }
    {
        let Device { inner, log: _ } = self;
        inner
    }
}

impl<T: Read> Source for Device<T> {
    ghost remaining = { λ d. T.remaining d.inner };

    ghost given = { λ d. d.traffic };

    fn read(&mut self, into: &mut [u8]) -> Result<usize, Failed> {
        match self.inner.read(into) {
            Ok(count) => {
                self.log.add(&IoEvent {
                    bytes: &into[..count],
                    stopped: count == 0,
                    failed: false,
                });
                Ok(count)
            }
            Err(_) => {
                self.log.add(&IoEvent::FAILED);
                Err(Failed)
            }
        }
    }
}

impl<T: Write> Sink for Device<T> {
    ghost contents = { λ d. T.contents d.inner };

    ghost taken = { λ d. d.traffic };

    fn write(&mut self, from: &[u8]) -> Result<usize, Failed> {
        match self.inner.write(from) {
            Ok(count) => {
                self.log.add(&IoEvent {
                    bytes: &from[..count],
                    stopped: false,
                    failed: count == 0 && !from.is_empty(),
                });
                Ok(count)
            }
            Err(_) => {
                self.log.add(&IoEvent::FAILED);
                Err(Failed)
            }
        }
    }

    fn flush(&mut self) -> Result<(), Failed> {
        match self.inner.flush() {
            Ok(()) => {
                self.log.add(&IoEvent::STOPPED);
                Ok(())
            }
            Err(_) => {
                self.log.add(&IoEvent::FAILED);
                Err(Failed)
            }
        }
    }
}
