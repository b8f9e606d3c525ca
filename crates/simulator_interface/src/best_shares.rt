//! The shares of Clock2Q+ that hit most of a trace.

use crate::shares::ChosenShares;
use simulator_charts::Page;
use std::alloc::Allocator;
use std::num::NonZeroUsize;

/// The shares that hit most, and the hits with them and with the usual ones.
///
/// # Example
///
/// ```
/// let best = best_shares_of(rt.alloc(), two, &TRIED_SHARES, 0, &trace)?; // none gains anything
/// assert_eq!(rt; (best.shares, best.hits), (None, best.usual));
/// ```
#[derive(Clone, Copy, Debug, PartialEq, Eq)]
pub struct BestShares {
    /// The number of keys that each cache can hold.
    pub capacity: NonZeroUsize,
    /// The number of counted accesses that hit with the usual shares.
    pub usual: usize,
    /// The shares that hit most, if any hit more than the usual ones.
    pub shares: Option<ChosenShares>,
    /// The number of counted accesses that hit with them, or else with the usual ones.
    pub hits: usize,
}

impl BestShares {
    /// Writes the best shares as an argument gives them, or that they are the usual ones.
    pub(crate) fn write<A: Allocator>(&self, page: &mut Page<A>) {
        match self.shares {
            Some(shares) => page.add_shown(&shares),
            None => page.add("usual"),
        }
    }
}
