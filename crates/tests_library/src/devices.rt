//! Devices that give and take a few bytes at a time, and fail at one of their calls.

use clock2q_command::{Device, Failed, ServeError, Sink, Source, serve};
use std::alloc::{AllocError, Global};
use std::io::{Error, ErrorKind, Read, Result as IoResult, Write};
use std::test::Fail;
use testing::{same, same_at};

/// How a device fails: by an error, by moving no byte though some are left, or at a flush.
#[derive(Clone, Copy, Debug)]
enum Fault {
    Error(ErrorKind),
    Nothing,
    NoFlush(ErrorKind),
}

/// What a device does at a call: it moves at most `step` bytes at a time, and fails at call
/// `fails_at`, counted from 0, or at a flush.
#[derive(Clone, Copy)]
struct Plan {
    step: usize,
    fails_at: usize,
    fault: Fault,
}

/// A device that moves all bytes at its first call, and never fails.
const SOUND: Plan = Plan {
    step: 100,
    fails_at: 100,
    fault: Fault::Nothing,
};

impl Plan {
    /// Returns the number of bytes moved at this call.
    fn moved(&self, call: usize, bytes: usize) -> IoResult<usize> {
        if call == self.fails_at {
            match self.fault {
                Fault::Error(kind) => return Err(Error::from(kind)),
                Fault::Nothing => return Ok(0),
                Fault::NoFlush(_) => {}
            }
        }
        Ok(self.step.min(bytes))
    }
}

#[derive(Drop)]
struct Reader<'a> {
    left: &'a [u8],
    plan: Plan,
    calls: usize,
}

impl Read for Reader<'_> {
    fn read(&mut self, buf: &mut [u8]) -> IoResult<usize> {
        let call = self.calls;
        self.calls = call.saturating_add(1);
        let count = self.plan.moved(call, self.left.len())?;
        let count = count.min(self.left.len()).min(buf.len());
        let (given, left) = self.left.split_at(count);
        buf[..count].copy_from_slice(given);
        self.left = left;
        Ok(count)
    }
}

#[derive(Drop)]
struct Writer {
    taken: Vec<u8>,
    plan: Plan,
    calls: usize,
    flushes: usize,
}

impl Write for Writer {
    fn write(&mut self, buf: &[u8]) -> IoResult<usize> {
        let call = self.calls;
        self.calls = call.saturating_add(1);
        let count = self.plan.moved(call, buf.len())?.min(buf.len());
        self.taken.extend_from_slice(&buf[..count])?;
        Ok(count)
    }

    fn flush(&mut self) -> IoResult<()> {
        self.flushes = self.flushes.saturating_add(1);
        match self.plan.fault {
            Fault::NoFlush(kind) => Err(Error::from(kind)),
            _ => Ok(()),
        }
    }
}

const TEXT: &[u8] = b"new 2\nput 1 10\nget 1\n";

const REPLIES: &[u8] = b"ok\nnone\nsome 10\n";

/// All kinds of errors.
const KINDS: [ErrorKind; 42] = [
    ErrorKind::NotFound,
    ErrorKind::PermissionDenied,
    ErrorKind::ConnectionRefused,
    ErrorKind::ConnectionReset,
    ErrorKind::HostUnreachable,
    ErrorKind::NetworkUnreachable,
    ErrorKind::ConnectionAborted,
    ErrorKind::NotConnected,
    ErrorKind::AddrInUse,
    ErrorKind::AddrNotAvailable,
    ErrorKind::NetworkDown,
    ErrorKind::BrokenPipe,
    ErrorKind::AlreadyExists,
    ErrorKind::WouldBlock,
    ErrorKind::NotADirectory,
    ErrorKind::IsADirectory,
    ErrorKind::DirectoryNotEmpty,
    ErrorKind::ReadOnlyFilesystem,
    ErrorKind::FilesystemLoop,
    ErrorKind::StaleNetworkFileHandle,
    ErrorKind::InvalidInput,
    ErrorKind::InvalidData,
    ErrorKind::TimedOut,
    ErrorKind::WriteZero,
    ErrorKind::StorageFull,
    ErrorKind::NotSeekable,
    ErrorKind::QuotaExceeded,
    ErrorKind::FileTooLarge,
    ErrorKind::ResourceBusy,
    ErrorKind::ExecutableFileBusy,
    ErrorKind::Deadlock,
    ErrorKind::CrossesDevices,
    ErrorKind::TooManyLinks,
    ErrorKind::InvalidFilename,
    ErrorKind::ArgumentListTooLong,
    ErrorKind::Interrupted,
    ErrorKind::Unsupported,
    ErrorKind::UnexpectedEof,
    ErrorKind::OutOfMemory,
    ErrorKind::InProgress,
    ErrorKind::Other,
    ErrorKind::Uncategorized,
];

/// What is seen of a run: the result of `serve`, the numbers of reads, writes and flushes, and the
/// number of bytes that were written, if they begin the replies of TEXT.
type Seen = (Result<(), ServeError>, (usize, usize, usize), Option<usize>);

/// Serves a text from such a reader to such a writer.
fn seen(alloc: Global, text: &[u8], reading: Plan, writing: Plan) -> Seen {
    let mut reader = Device::new(Reader {
        left: text,
        plan: reading,
        calls: 0,
    });
    let mut writer = Device::new(Writer {
        taken: Vec::new(alloc),
        plan: writing,
        calls: 0,
        flushes: 0,
    });
    let outcome = serve(alloc, &mut reader, &mut writer);
    let writer = writer.into_inner();
    let reads = reader.into_inner().calls;
    let taken = begun(&writer.taken);
    (outcome, (reads, writer.calls, writer.flushes), taken)
}

/// Returns the number of bytes that were written, if they begin the replies.
fn begun(taken: &[u8]) -> Option<usize> {
    REPLIES.starts_with(taken).then_some(taken.len())
}

/// A failing read is reported at once, with nothing written. The 21 bytes of a text are given in 21,
/// 6 or 1 calls, and one more call reports the end.
fn fails_reading(alloc: Global, text: &[u8], kind: ErrorKind) -> Result<(), Fail> {
    for (step, reads) in [(1, 22), (4, 7), (100, 2)] {
        for fails_at in 0..reads {
            let plan = Plan {
                step,
                fails_at,
                fault: Fault::Error(kind),
            };
            let wanted = (Err(ServeError::Read), (fails_at + 1, 0, 0), Some(0));
            let at = (kind, step, fails_at);
            same_at(seen(alloc, text, plan, SOUND), wanted, at)?;
        }
    }
    Ok(())
}

#[test]
fn failing_reads(rt: HostRuntime) -> Result<(), Fail> {
    for kind in KINDS {
        fails_reading(rt.alloc(), TEXT, kind)?;
        fails_reading(rt.alloc(), b"bogus\nnew 2\nput 1 10\n", kind)?;
    }
    Ok(())
}

/// A read of no byte ends the text: the bytes before it are the whole text, and nothing is read after
/// it.
#[test]
fn ending_reads(rt: HostRuntime) -> Result<(), Fail> {
    for fails_at in 0..22 {
        let plan = Plan {
            step: 1,
            fails_at,
            fault: Fault::Nothing,
        };
        let text = TEXT.get(..fails_at).unwrap_or(TEXT);
        let (outcome, (_, writes, flushes), taken) = seen(rt.alloc(), text, SOUND, SOUND);
        let calls = (fails_at + 1, writes, flushes);
        let wanted = (outcome, calls, Some(taken.unwrap_or(0)));
        same_at(seen(rt.alloc(), TEXT, plan, SOUND), wanted, fails_at)?;
    }
    Ok(())
}

/// The 16 bytes of the replies are taken in 16, 4 or 1 calls.
const WRITES: [(usize, usize); 3] = [(1, 16), (5, 4), (100, 1)];

/// A failing write is reported at once, after a prefix of the replies, and without a flush.
fn fails_writing(alloc: Global, fault: Fault) -> Result<(), Fail> {
    for (step, writes) in WRITES {
        for fails_at in 0..writes {
            let plan = Plan {
                step,
                fails_at,
                fault,
            };
            let calls = (2, fails_at + 1, 0);
            let taken = Some(fails_at.saturating_mul(step));
            let wanted = (Err(ServeError::Write), calls, taken);
            let at = (fault, step, fails_at);
            same_at(seen(alloc, TEXT, SOUND, plan), wanted, at)?;
        }
    }
    Ok(())
}

/// All replies are written, in this number of calls, and flushed once, with this result.
fn ends_whole(alloc: Global, fault: Fault, wanted: Result<(), ServeError>) -> Result<(), Fail> {
    for (step, writes) in WRITES {
        let plan = Plan {
            step,
            fails_at: writes,
            fault,
        };
        let wanted = (wanted, (2, writes, 1), Some(16));
        same_at(seen(alloc, TEXT, SOUND, plan), wanted, (fault, step))?;
    }
    Ok(())
}

#[test]
fn writes(rt: HostRuntime) -> Result<(), Fail> {
    for kind in KINDS {
        fails_writing(rt.alloc(), Fault::Error(kind))?;
        let refusal = Err(ServeError::Write);
        ends_whole(rt.alloc(), Fault::NoFlush(kind), refusal)?;
    }
    fails_writing(rt.alloc(), Fault::Nothing)?;
    ends_whole(rt.alloc(), Fault::Nothing, Ok(()))
}

/// A source returns what the reader that it wraps returns.
fn source_returns(source: &mut Device<&[u8]>) -> Result<(), Fail> {
    let mut block = [0u8; 4];
    same(source.read(&mut block), Ok(3))?;
    same(block, *b"abc\0")?;
    same(source.read(&mut block), Ok(0))
}

/// A sink passes what it takes to the writer that it wraps.
fn sink_takes(alloc: Global) -> Result<(), Fail> {
    let mut sink = Device::new(Vec::new(alloc));
    let sent = (sink.write(b"abc"), sink.flush());
    let taken = sink.into_inner();
    same(
        (sent, taken.as_slice()),
        ((Ok(3), Ok(())), b"abc".as_slice()),
    )
}

/// A device returns what the reader or writer returns, and any error as its own.
#[test]
fn devices(rt: HostRuntime) -> Result<(), Fail> {
    source_returns(&mut Device::new(b"abc".as_slice()))?;
    sink_takes(rt.alloc())?;
    let shown = Failed.to_string(rt.alloc())?;
    same(shown.as_str(), "device failed")
}

/// Returns the results of four reads, of which the second fails, and the number of the reader's
/// calls.
fn received(kind: ErrorKind) -> ([Result<usize, Failed>; 4], usize) {
    let mut source = Device::new(Reader {
        left: b"abc",
        plan: Plan {
            step: 2,
            fails_at: 1,
            fault: Fault::Error(kind),
        },
        calls: 0,
    });
    let mut block = [0u8; 8];
    let first = source.read(&mut block);
    let failed = source.read(&mut block);
    let rest = source.read(&mut block);
    let end = source.read(&mut block);
    ([first, failed, rest, end], source.into_inner().calls)
}

/// The results of two writes and a flush.
type Sent = (
    Result<usize, Failed>,
    Result<usize, Failed>,
    Result<(), Failed>,
);

/// Returns the results of two writes and a flush, of which the second write or the flush fails, and
/// the numbers of the writer's calls and flushes.
fn sent(alloc: Global, fault: Fault) -> (Sent, (usize, usize)) {
    let mut sink = Device::new(Writer {
        taken: Vec::new(alloc),
        plan: Plan {
            step: 2,
            fails_at: 1,
            fault,
        },
        calls: 0,
        flushes: 0,
    });
    let first = sink.write(b"abc");
    let second = sink.write(b"c");
    let flushed = sink.flush();
    let writer = sink.into_inner();
    ((first, second, flushed), (writer.calls, writer.flushes))
}

/// A device continues where it was after a failure, and each of its calls makes one call.
#[test]
fn failing_devices(rt: HostRuntime) -> Result<(), Fail> {
    for kind in KINDS {
        let reads = [Ok(2), Err(Failed), Ok(1), Ok(0)];
        same_at(received(kind), (reads, 4), kind)?;
        for (fault, second, flushed) in [
            (Fault::Error(kind), Err(Failed), Ok(())),
            (Fault::Nothing, Ok(0), Ok(())),
            (Fault::NoFlush(kind), Ok(1), Err(Failed)),
        ] {
            let wanted = ((Ok(2), second, flushed), (2, 1));
            same_at(sent(rt.alloc(), fault), wanted, fault)?;
        }
    }
    Ok(())
}
