//! A cache of counted keys.

use clock2q_cache::Cache;
use testing::{Counted, Counts, LinearHashBuilder};

/// A hash of its own for each key, and one hash for all keys.
pub(crate) const APART: LinearHashBuilder = LinearHashBuilder { times: 1, more: 0 };

pub(crate) const ALIKE: LinearHashBuilder = LinearHashBuilder { times: 0, more: 0 };

pub(crate) type Counting<'a> = Cache<Counted<'a>, u64, LinearHashBuilder>;

/// Puts three keys into an empty cache of two, and counts anew what is asked. 2 and 3 are resident
/// then, 3 in the slot that 1 had. 1 is remembered, and comes before 2 and 3, in this order, under
/// one hash.
pub(crate) fn put_three<'a>(cache: &mut Counting<'a>, counts: &'a Counts) {
    for id in 1..4 {
        let _ = cache.put(counts.key(id), id);
    }
    let _ = counts.asked();
}
