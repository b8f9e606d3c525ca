//! Why a table refuses a call.

use thiserror::Error;

/// The reason why a [Table](crate::Table) refused a call.
///
/// # Example
///
/// ```
/// match table.insert(hash, handle, rehash) {
///     Ok(()) => println!(rt; "inserted")?,
///     Err(TableError::Memory) => println!(rt; "out of memory")?,
///     Err(refusal) => println!(rt; "refused: {refusal}")?,
/// }
/// ```
#[derive(Debug, Clone, Copy, PartialEq, Eq, Error)]
pub enum TableError {
    /// There is no memory for the slots.
    #[error("no memory")]
    Memory,
    /// The entries, or the slots for them, are too many to count.
    #[error("size refused")]
    Size,
    /// An entry would be more than 2^24 - 2 slots past its home.
    #[error("run too long")]
    RunTooLong,
}
