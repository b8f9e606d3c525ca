//! The hits of consecutive accesses.

use crate::row::Row;
use std::alloc::Allocator;
use std::num::NonZeroUsize;

/// The hits of consecutive accesses of a trace in a cache of each policy, which saw the accesses
/// before them too.
///
/// # Example
///
/// ```
/// let windows = windows_of(rt.alloc(), two, &policies, None, 0, three, &trace)?; // of 8 accesses
/// assert_eq!(rt; (windows[2].first, windows[2].row.accesses), (6, 2));
/// ```
#[derive(Drop)]
pub struct Window<A: Allocator> {
    /// The index of its first access, counted from 0.
    pub first: usize,
    /// Its number of accesses, and their hits with each policy.
    pub row: Row<A>,
}

/// The windows of a trace at one capacity.
///
/// # Example
///
/// ```
/// let outcome = replay_source(rt.alloc(), &options, "-", hasher, &mut reader, &mut progress)?;
/// for windows in outcome.windows.iter() {
///     println!(rt; "{} windows at {}", windows.windows.len(), windows.capacity)?;
/// }
/// ```
#[derive(Drop)]
pub struct Windows<A: Allocator> {
    /// The number of keys that each cache can hold.
    pub capacity: NonZeroUsize,
    /// The windows, in the order of the accesses.
    pub windows: Vec<Window<A>, A>,
}
