//! Why a measurement ended early.

use clock2q_cache::CacheError;
use clock2q_handles::TableError;
use std::alloc::AllocError;
use std::io;
use thiserror::Error;

/// Why a measurement ended early.
#[derive(Debug, Drop, Error)]
pub enum BenchError {
    /// A table refused an entry.
    #[error("the table: {0}")]
    Table(#[from] TableError),
    /// A cache could not be made.
    #[error("the cache: {0}")]
    Cache(#[from] CacheError),
    /// A request for memory was refused.
    #[error("no memory")]
    Memory(#[from] AllocError),
    /// The clock or the output failed.
    #[error("{0}")]
    Io(#[from] io::Error),
}
