//! The errors of making a cache, or of running a list of commands.
ghost use Rattle.std.specs.Prelude.{◌≡◌};
ghost use Rattle.clock2q_cache.specs.declared.error.CacheError.TheVariants.{Memory};

use std::alloc::AllocError;
use thiserror::Error;

/// The reason why a cache wasn't made or its capacity wasn't raised, or a list of commands wasn't run.
///
/// Nothing was done then. Memory that was taken for a new cache is given back, a cache is as it was,
/// and no command has run.
///
/// # Example
///
/// ```
/// let too_large = NonZeroUsize::new(MAX_CAPACITY + 1).ok_or("not zero")?;
/// let refused = Cache::<u64, u64, _>::new(rt.alloc(), too_large);
/// assert_eq!(rt; refused.err(), Some(CacheError::Capacity));
/// ```
#[derive(Debug, Clone, Copy, PartialEq, Eq, Error)]
pub enum CacheError {
    /// A request for memory was refused.
    #[error("no memory")]
    Memory,
    /// The capacity is above [`MAX_CAPACITY`](crate::MAX_CAPACITY). Only constructors,
    /// [`grow`](crate::Cache::grow) and [`grow_with_history`](crate::Cache::grow_with_history) return it.
    #[error("capacity refused")]
    Capacity,
    /// The chosen shares don't fit together, or one of them is smaller than that of the cache that was
    /// to grow.
    #[error("policy refused")]
    Policy,
}

impl From<AllocError> for CacheError {
    ghost from_gives = { λ _ e. e ≡ Memory };

    fn from(_refused: AllocError) -> Self {
        CacheError::Memory
    }
}
