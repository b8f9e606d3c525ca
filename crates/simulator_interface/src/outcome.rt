//! The result of one trace.
ghost use Rattle.std.specs.Prelude.{◌≡◌, get_or};

use crate::best_shares::BestShares;
use crate::row::Row;
use crate::sample::Sample;
use crate::summary::Summary;
use crate::window::Windows;
use std::alloc::Allocator;

/// The name of the trace on standard input.
pub const STANDARD_INPUT: &str = "-";

/// The figures of one trace, and its hits at each capacity.
///
/// # Example
///
/// ```
/// let outcome = replay_source(rt.alloc(), &options, "a.trace", hasher, &mut file, &mut progress)?;
/// assert_eq!(rt; outcome.rows.len(), options.capacities.len());
/// ```
#[derive(Drop)]
pub struct Outcome<'a, A: Allocator> {
    /// The name of the trace: of its file, or a dash for standard input.
    pub name: &'a str,
    /// The numbers of its accesses and keys.
    pub summary: Summary,
    /// The sample of its keys that was replayed, unless it was all of them.
    pub sample: Option<Sample>,
    /// True if its accesses have sizes.
    pub is_sized: bool,
    /// The capacity of each row for all keys: the number of keys that was asked for, and of a percentage
    /// the keys of all that it is.
    pub capacities: Vec<usize, A>,
    /// The hits at each capacity, in the order of the capacities. With a sample they are those of
    /// caches as much smaller.
    pub rows: Vec<Row<A>, A>,
    /// The hits at each capacity in bytes, of the policies that are defined there.
    pub byte_rows: Vec<Row<A>, A>,
    /// The windows at each capacity, if they are asked for.
    pub windows: Vec<Windows<A>, A>,
    /// The best shares at each capacity, if they are asked for.
    pub best_shares: Vec<BestShares, A>,
}

impl<A: Allocator> Outcome<'_, A> {
    /// Returns the capacity of a row for all keys, or 0 if there is no such row.
    pub fn capacity_at(&self, index: usize) -> usize
        ensures capacity { result ≡ get_or self.now.capacities.items index 0 }
    {
        match self.capacities.get(index) {
            Some(capacity) => *capacity,
            None => 0,
        }
    }
}
