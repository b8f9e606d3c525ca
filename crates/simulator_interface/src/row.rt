//! The result at one capacity.
ghost use Rattle.std.specs.Prelude.{◌≡◌, ◌+◌, ◌≤◌};
ghost use Rattle.simulator_interface.specs.Expected.{adjusted};
ghost use Rattle.simulator_interface.specs.Ratios.{number_of, part_of, ratio_of, whole_of};

use crate::policy::Policy;
use std::alloc::Allocator;
use std::num::{NonZeroUsize, nearest_usize_to_f64};

/// The number of accesses that hit with a policy.
///
/// # Example
///
/// ```
/// let row = replay(rt.alloc(), two, &[Policy::FirstInFirstOut], None, 0, &trace)?;
/// assert_eq!(rt; row.hits[0].hits, 2);
/// ```
#[derive(Clone, Copy, Debug, PartialEq, Eq)]
pub struct Hits {
    /// The policy.
    pub policy: Policy,
    /// The number of counted accesses that hit.
    pub hits: usize,
    /// The sum of their sizes, or 0 if the trace has no sizes.
    pub bytes: usize,
}

/// What is counted of the accesses that hit.
#[derive(Clone, Copy)]
pub(crate) enum Counted {
    /// Their number.
    Hits,
    /// The sum of their sizes.
    Bytes,
}

impl Counted {
    /// Returns the number of what is counted.
    pub(crate) fn of(self, hits: &Hits) -> usize
        ensures number { result ≡ number_of self hits.now }
    {
        match self {
            Counted::Hits => hits.hits,
            Counted::Bytes => hits.bytes,
        }
    }
}

/// A number of hits, or of their bytes, as each text shows it.
#[derive(Clone, Copy)]
pub(crate) struct Figure {
    /// The number.
    pub(crate) number: usize,
    /// Its part of all.
    pub(crate) ratio: f64,
}

/// The hits of a trace in a cache of each policy.
///
/// # Example
///
/// ```
/// let input = b"a\nb\na\nc\nb\nd\na\nb\n".as_slice();
/// let mut reader = Device::new(input);
/// let trace = read_trace(alloc, hasher, "-", TraceFormat::Lines, &mut reader, &mut progress)?;
/// let row = replay(rt.alloc(), two, &[Policy::FirstInFirstOut], None, 0, &trace)?; // for two keys
/// assert_eq!(rt; row.ratio(row.hits[0].hits), 0.25);
/// ```
#[derive(Drop)]
pub struct Row<A: Allocator> {
    /// The number of keys that each cache can hold, or of bytes if the capacity was in bytes.
    pub capacity: NonZeroUsize,
    /// The number of counted accesses: those of the trace without the skipped ones.
    pub accesses: usize,
    /// The number of accesses that hit ratios are parts of: the counted ones, or of a sample those
    /// that are expected ([`expected_accesses`](crate::expected_accesses)).
    pub expected: usize,
    /// The sum of the sizes of the counted ones, or 0 if the trace has no sizes.
    pub bytes: usize,
    /// The hits with each policy.
    pub hits: Vec<Hits, A>,
}

impl<A: Allocator> Row<A> {
    /// Returns the hits with a policy, if they were counted.
    pub(crate) fn hits_with(&self, policy: Policy) -> Option<&Hits> {
        self.hits.iter().find(|hits| hits.policy == policy)
    }

    /// Returns what the texts show of the hits with a policy.
    pub(crate) fn figure(&self, hits: &Hits, counted: Counted) -> Figure
        ensures number { result.number ≡ number_of counted hits.now }
        ensures ratio { result.ratio ≡ ratio_of (part_of counted self.now (number_of counted hits.now)) (whole_of counted self.now) }
    {
        let number = counted.of(hits);
        let ratio = match counted {
            Counted::Hits => self.ratio(number),
            Counted::Bytes => self.byte_ratio(number),
        };
        Figure { number, ratio }
    }

    /// Returns the number of expected accesses that hit: `hits`, and those that the counted accesses
    /// lack of the expected ones, or fewer hits if they have too many. It is `hits` without a sample.
    pub fn adjusted(&self, hits: usize) -> usize
        ensures adjusted { result ≡ adjusted self.now.expected self.now.accesses hits }
        ensures credited { hits ≤ self.now.accesses → self.now.accesses ≤ hits + self.now.expected → result + self.now.accesses ≡ hits + self.now.expected }
        ensures within { result ≤ self.now.expected }
    {
        let misses = self.accesses.saturating_sub(hits);
        self.expected.saturating_sub(misses)
    }

    /// Returns the hit ratio: the expected accesses that hit divided by all expected ones, or 0 if
    /// there are none. Without a sample it is `hits` divided by the number of accesses.
    pub fn ratio(&self, hits: usize) -> f64
        ensures ratio { result ≡ ratio_of (adjusted self.now.expected self.now.accesses hits) self.now.expected }
    {
        self.part(self.adjusted(hits))
    }

    /// Returns what hits gain in the hit ratio over some others.
    pub(crate) fn gain(&self, hits: usize, others: usize) -> f64 {
        let others = self.adjusted(others);
        self.part(self.adjusted(hits).saturating_sub(others))
    }

    /// Returns a number divided by that of the expected accesses, or 0 if there are none.
    fn part(&self, number: usize) -> f64
        ensures part { result ≡ ratio_of number self.now.expected }
    {
        if self.expected == 0 {
            return 0.0;
        }
        nearest_usize_to_f64(number) / nearest_usize_to_f64(self.expected)
    }

    /// Returns the byte hit ratio: `bytes` divided by the sum of the sizes, or 0 if that is 0.
    pub fn byte_ratio(&self, bytes: usize) -> f64
        ensures ratio { result ≡ ratio_of bytes self.now.bytes }
    {
        if self.bytes == 0 {
            return 0.0;
        }
        nearest_usize_to_f64(bytes) / nearest_usize_to_f64(self.bytes)
    }
}
