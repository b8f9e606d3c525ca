//! Reading a whole source, and writing a whole text to a sink.
ghost use Rattle.std.specs.Prelude.{OnOk, IfOk};
ghost use Rattle.std.specs.Io.KnownBytes.{Consumes, IsAtEnd};
ghost use Rattle.clock2q_ports.specs.Transfer.{ReadsAll, WritesAll, Sends};

use crate::ports::{Failed, Sink, Source};
use crate::read_error::ReadError;
use std::alloc::Allocator;

/// The number of bytes requested at a time.
const BLOCK: usize = 65536;

/// Returns all that a source has left. A failed read isn't retried.
///
/// # Errors
///
/// `Failed` if a read fails, and `Memory` if a request for memory is refused. What was read is
/// dropped then.
///
/// # Cost
///
/// Time and memory in proportion to the bytes. At most 65,536 bytes are requested at a time.
///
/// # Example
///
/// ```
/// let mut source = Device::new(b"len\n".as_slice());
/// assert_eq!(rt; read_all(rt.alloc(), &mut source)?.as_slice(), b"len\n".as_slice());
/// ```
pub fn read_all<R: Source, A: Allocator>(alloc: A, reader: &mut R) -> Result<Vec<u8, A>, ReadError>
    ensures given { ReadsAll (λ v. v.items) (R.given reader.old) (R.given reader.new) result }
    ensures bytes { IfOk result
        (λ v. Consumes (R.remaining reader.old) (R.remaining reader.new) v.items) }
    ensures end { OnOk result (IsAtEnd (R.remaining reader.new)) }
{
    let mut input = Vec::new(alloc);
    let mut block = [0u8; BLOCK];
    loop {
        let count = reader.read(&mut block).map_err(|_| ReadError::Failed)?;
        if count == 0 {
            return Ok(input);
        }
        input
            .extend_from_slice(&block[..count])
            .map_err(|_| ReadError::Memory)?;
    }
}

/// Writes a whole text to a sink, which isn't flushed. A failed write isn't retried.
///
/// # Errors
///
/// `Failed` if a write fails. A prefix of the text may have been written then.
pub fn write_all<W: Sink>(writer: &mut W, text: &[u8]) -> Result<(), Failed>
    ensures { WritesAll (W.taken writer.old) (W.taken writer.new)
        (W.contents writer.old) (W.contents writer.new) text.now result }
{
    let mut rest = text;
    while !rest.is_empty() {
        let count = writer.write(rest)?;
        if count == 0 {
            return Err(Failed);
        }
        rest = &rest[count..];
    }
    Ok(())
}

/// Writes a whole text to a sink, and flushes it. A failed call isn't retried.
///
/// # Errors
///
/// `Failed` if a write or the flush fails. A prefix of the text, or all of it, may have been
/// written then.
///
/// # Example
///
/// ```
/// let mut sink = Device::new(Vec::new(rt.alloc()));
/// send(&mut sink, b"ok\n")?;
/// assert_eq!(rt; sink.into_inner().as_slice(), b"ok\n".as_slice());
/// ```
pub fn send<W: Sink>(writer: &mut W, text: &[u8]) -> Result<(), Failed>
    ensures { Sends (W.taken writer.old) (W.taken writer.new)
        (W.contents writer.old) (W.contents writer.new) text.now result }
{
    write_all(writer, text)?;
    writer.flush()
}
