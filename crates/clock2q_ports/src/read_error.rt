//! Why a source wasn't read to its end.
use thiserror::Error;

/// The reason why [`read_all`](crate::read_all) returns no bytes.
///
/// # Example
///
/// ```
/// if read_all(rt.alloc(), &mut source).err() == Some(ReadError::Failed) {
///     eprintln!(rt; "the source failed before its end")?;
/// }
/// ```
#[derive(Debug, Clone, Copy, PartialEq, Eq, Error)]
pub enum ReadError {
    /// The source failed before its end.
    #[error("read failed")]
    Failed,
    /// A request for memory was refused.
    #[error("no memory")]
    Memory,
}
