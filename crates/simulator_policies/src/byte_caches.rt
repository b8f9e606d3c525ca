//! LRU and FIFO over keys of unequal sizes, in caches for a number of bytes.
ghost use Rattle.std.specs.Prelude.{◌≡◌, ◌+◌, ◌-◌, ◌<◌, ◌≤◌, IfOk, false, true, length, slice_index};
ghost use Rattle.simulator_policies.specs.ByteCaches.{after_byte_hit, admitted, byte_after, byte_outcomes, fitting, holds};
ghost use Rattle.simulator_policies.specs.ByteResidents.{IsByteHolding, entries_by};
ghost use Rattle.simulator_policies.specs.Policies.{AreBelow};

use crate::plain::PlainPolicy;
use std::alloc::{AllocError, Allocator};

/// The keys that a cache of bytes holds, by stamps like those of a plain cache.
#[derive(Drop)]
struct ByteResidents<A: Allocator> {
    stamps: Vec<usize, A>,
    // The size of each key when it was admitted last.
    sizes: Vec<usize, A>,
    left: usize,
    used: usize,
}

impl<A: Allocator> ByteResidents<A> {
    /// Accesses the key at an index of the trace, and returns true if it was held.
    fn access(
        &mut self,
        policy: PlainPolicy,
        capacity: usize,
        trace: &[u32],
        size: usize,
        at: usize,
    ) -> bool
        requires at { at < length trace.now }
        requires holding { IsByteHolding trace.now at self.old }
        ensures hit { result ≡ holds (slice_index trace.now at) (entries_by trace.now at self.old) }
        ensures held { entries_by trace.now (at + 1) self.new ≡ byte_after policy capacity (slice_index trace.now at) size (entries_by trace.now at self.old) }
        ensures holding { IsByteHolding trace.now (at + 1) self.new }
    {
        let key = trace[at] as usize;
        let is_hit = self.left < self.stamps[key];
        if is_hit {
            self.hit(policy, trace, at);
        } else {
            self.bring(capacity, trace, size, at);
        }
        is_hit
    }

    /// Moves a held key to the front, if the policy does so.
    fn hit(&mut self, policy: PlainPolicy, trace: &[u32], at: usize)
        requires at { at < length trace.now }
        requires holding { IsByteHolding trace.now at self.old }
        requires held { holds (slice_index trace.now at) (entries_by trace.now at self.old) ≡ true }
        ensures held { entries_by trace.now (at + 1) self.new ≡ after_byte_hit policy (slice_index trace.now at) (entries_by trace.now at self.old) }
        ensures holding { IsByteHolding trace.now (at + 1) self.new }
    {
        match policy {
            PlainPolicy::LeastRecentlyUsed => self.stamps[trace[at] as usize] = at + 1,
            PlainPolicy::FirstInFirstOut => {}
        }
    }

    /// Admits a key that isn't held at the front, unless it is larger than the cache.
    fn bring(&mut self, capacity: usize, trace: &[u32], size: usize, at: usize)
        requires at { at < length trace.now }
        requires holding { IsByteHolding trace.now at self.old }
        requires absent { holds (slice_index trace.now at) (entries_by trace.now at self.old) ≡ false }
        ensures held { entries_by trace.now (at + 1) self.new ≡ admitted capacity (slice_index trace.now at) size (entries_by trace.now at self.old) }
        ensures holding { IsByteHolding trace.now (at + 1) self.new }
    {
        if capacity < size {
            return;
        }
        self.make_room(capacity - size, trace, at);
        let key = trace[at] as usize;
        self.stamps[key] = at + 1;
        self.sizes[key] = size;
        self.used += size;
    }

    /// Evicts the oldest keys until the others fit in a room.
    fn make_room(&mut self, room: usize, trace: &[u32], at: usize)
        requires at { at < length trace.now }
        requires holding { IsByteHolding trace.now at self.old }
        ensures held { entries_by trace.now at self.new ≡ fitting room (entries_by trace.now at self.old) }
        ensures holding { IsByteHolding trace.now at self.new }
        ensures stamps { self.new.stamps ≡ self.old.stamps }
        ensures sizes { self.new.sizes ≡ self.old.sizes }
        ensures order { self.old.left ≤ self.new.left }
        ensures room { self.new.used ≤ room }
    {
        while room < self.used && self.left < at {
            let key = trace[self.left] as usize;
            if self.stamps[key] == self.left + 1 {
                self.used -= self.sizes[key];
            }
            self.left += 1;
        }
    }
}

/// Returns whether each access of a trace hits in a new cache for `capacity` bytes with a plain
/// policy, in order. A key comes with the size of its access, and keeps it while it is held. A key
/// larger than the cache isn't admitted. For another one the oldest keys are evicted until it fits.
/// The keys are numbers below `keys`.
///
/// # Errors
///
/// `AllocError` if a request for memory is refused.
///
/// # Cost
///
/// Time in proportion to the trace and to `keys`, whatever the capacity. Memory in proportion to
/// `keys`, and a byte an access.
///
/// # Example
///
/// ```
/// let (trace, sizes) = ([0, 1, 0, 2, 1], [40, 60, 40, 70, 60]);
/// let policy = PlainPolicy::LeastRecentlyUsed; // 2 leaves no room for 0 and 1
/// let outcomes = byte_outcomes(rt.alloc(), policy, 100, &trace, &sizes, 3)?;
/// assert_eq!(rt; outcomes.as_slice(), [false, false, true, false, false].as_slice());
/// ```
pub fn byte_outcomes<A: Allocator + Copy>(
    alloc: A,
    policy: PlainPolicy,
    capacity: usize,
    trace: &[u32],
    sizes: &[usize],
    keys: u32,
) -> Result<Vec<bool, A>, AllocError>
    requires below { AreBelow keys trace.now }
    requires sized { length sizes.now ≡ length trace.now }
    ensures outcomes { IfOk result (λ outcomes. outcomes.items ≡ byte_outcomes policy capacity trace.now sizes.now) }
{
    let mut residents = ByteResidents {
        stamps: vec![in alloc; 0; keys as usize]?,
        sizes: vec![in alloc; 0; keys as usize]?,
        left: 0,
        used: 0,
    };
    let mut outcomes = Vec::with_capacity(alloc, trace.len())?;
    for at in 0..trace.len() {
        outcomes.push_reserved(residents.access(policy, capacity, trace, sizes[at], at));
    }
    Ok(outcomes)
}
