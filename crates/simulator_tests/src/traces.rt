//! Capacities.

use std::num::NonZeroUsize;

/// Returns a number that isn't 0 as such, and 1 for 0.
pub(crate) fn non_zero(number: usize) -> NonZeroUsize {
    NonZeroUsize::new(number).unwrap_or(NonZeroUsize::MIN)
}
