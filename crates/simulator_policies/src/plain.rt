//! The plain policies that Clock2Q+ is compared with.
ghost use Rattle.std.specs.Prelude.{◌≡◌, ◌+◌, ◌-◌, ◌<◌, ◌≤◌, IfOk, false, true, length, take, slice_index};
ghost use Rattle.std.specs.NonZero.{non_zero_usize_get};
ghost use Rattle.clock2q_machine.specs.Hits.{is_in};
ghost use Rattle.simulator_policies.specs.Policies.{after_hit, brought, plain_after, plain_hits, plain_outcomes, AreBelow};
ghost use Rattle.simulator_policies.specs.Stamps.{held_at, AreStamped};
ghost use Rattle.simulator_policies.specs.Residents.{held_by, IsHolding};

use std::alloc::{AllocError, Allocator};
use std::num::NonZeroUsize;

/// What a hit changes in a cache that evicts the last key of a list.
///
/// # Example
///
/// ```
/// let trace = [0, 1, 0, 2, 0]; // three different keys, in caches for two
/// let recent = plain_hits(rt.alloc(), PlainPolicy::LeastRecentlyUsed, two, &trace, 3)?;
/// let first = plain_hits(rt.alloc(), PlainPolicy::FirstInFirstOut, two, &trace, 3)?;
/// assert_eq!(rt; (recent, first), (2, 1));
/// ```
#[derive(Clone, Copy, Debug, PartialEq, Eq)]
pub enum PlainPolicy {
    /// A hit moves the key to the front of the list, as in 'Evaluation Techniques for Storage
    /// Hierarchies' (1970).
    LeastRecentlyUsed,
    /// A hit changes nothing, as in 'A Study of Replacement Algorithms for a Virtual-Storage
    /// Computer' (1966).
    FirstInFirstOut,
}

/// The keys that a plain cache holds. A key's stamp is one more than the index in the trace at
/// which it was last put at the front; it is held while its stamp is above `left`.
#[derive(Drop)]
struct Residents<A: Allocator> {
    stamps: Vec<usize, A>,
    left: usize,
    count: usize,
}

impl<A: Allocator> Residents<A> {
    /// Accesses the key at an index of the trace, and returns true if it was held.
    fn access(
        &mut self,
        policy: PlainPolicy,
        capacity: NonZeroUsize,
        trace: &[u32],
        at: usize,
    ) -> bool
        requires at { at < length trace.now }
        requires holding { IsHolding (non_zero_usize_get capacity) trace.now at self.old }
        ensures hit { result ≡ is_in (slice_index trace.now at) (held_by trace.now at self.old) }
        ensures held { held_by trace.now (at + 1) self.new ≡ plain_after policy
            (non_zero_usize_get capacity) (slice_index trace.now at) (held_by trace.now at self.old) }
        ensures holding { IsHolding (non_zero_usize_get capacity) trace.now (at + 1) self.new }
    {
        let key = trace[at] as usize;
        let is_hit = self.left < self.stamps[key];
        if is_hit {
            self.hit(policy, capacity, trace, at);
        } else {
            self.bring(capacity, trace, at);
        }
        is_hit
    }

    /// Moves a held key to the front, if the policy does so.
    fn hit(&mut self, policy: PlainPolicy, capacity: NonZeroUsize, trace: &[u32], at: usize)
        requires at { at < length trace.now }
        requires holding { IsHolding (non_zero_usize_get capacity) trace.now at self.old }
        requires held { is_in (slice_index trace.now at) (held_by trace.now at self.old) ≡ true }
        ensures held { held_by trace.now (at + 1) self.new
            ≡ after_hit policy (slice_index trace.now at) (held_by trace.now at self.old) }
        ensures holding { IsHolding (non_zero_usize_get capacity) trace.now (at + 1) self.new }
    {
        match policy {
            PlainPolicy::LeastRecentlyUsed => self.stamps[trace[at] as usize] = at + 1,
            PlainPolicy::FirstInFirstOut => {}
        }
    }

    /// Adds a key that isn't held at the front. If there is no room, evicts the oldest key.
    fn bring(&mut self, capacity: NonZeroUsize, trace: &[u32], at: usize)
        requires at { at < length trace.now }
        requires holding { IsHolding (non_zero_usize_get capacity) trace.now at self.old }
        requires absent { is_in (slice_index trace.now at) (held_by trace.now at self.old) ≡ false }
        ensures held { held_by trace.now (at + 1) self.new ≡ brought
            (non_zero_usize_get capacity) (slice_index trace.now at) (held_by trace.now at self.old) }
        ensures holding { IsHolding (non_zero_usize_get capacity) trace.now (at + 1) self.new }
    {
        if self.count == capacity.get() {
            self.left = after_oldest(trace, &self.stamps, self.left, at);
        } else {
            self.count += 1;
        }
        self.stamps[trace[at] as usize] = at + 1;
    }
}

/// Returns where the list begins after its oldest key is evicted.
fn after_oldest(trace: &[u32], stamps: &[usize], left: usize, at: usize) -> usize
    requires left { left ≤ at }
    requires at { at ≤ length trace.now }
    requires known { AreStamped trace.now stamps.now }
    ensures front { held_at trace.now stamps.now result at
        ≡ take (length (held_at trace.now stamps.now left at) - 1)
        (held_at trace.now stamps.now left at) }
    ensures within { result ≤ at }
{
    for index in left..at {
        if stamps[trace[index] as usize] == index + 1 {
            return index + 1;
        }
    }
    at
}

/// Returns the number of accesses of a trace that hit in a new cache with a plain policy. The keys
/// are numbers below `keys`.
///
/// # Errors
///
/// `AllocError` if the request for memory is refused.
///
/// # Cost
///
/// Time in proportion to the trace and to `keys`, whatever the capacity. One request for memory, in
/// proportion to `keys`.
pub fn plain_hits<A: Allocator>(
    alloc: A,
    policy: PlainPolicy,
    capacity: NonZeroUsize,
    trace: &[u32],
    keys: u32,
) -> Result<usize, AllocError>
    requires below { AreBelow keys trace.now }
    ensures hits { IfOk result
        (λ hits. hits ≡ plain_hits policy (non_zero_usize_get capacity) trace.now) }
{
    let mut residents = Residents {
        stamps: vec![in alloc; 0; keys as usize]?,
        left: 0,
        count: 0,
    };
    let mut hits = 0;
    for at in 0..trace.len() {
        if residents.access(policy, capacity, trace, at) {
            hits += 1;
        }
    }
    Ok(hits)
}

/// Returns whether each access of a trace hits in a new cache with a plain policy, in order. The
/// keys are numbers below `keys`.
///
/// # Errors
///
/// `AllocError` if a request for memory is refused.
///
/// # Cost
///
/// That of [`plain_hits`], and a byte an access.
///
/// # Example
///
/// ```
/// let trace = [0, 1, 0]; // two different keys, in a cache for two
/// let policy = PlainPolicy::FirstInFirstOut;
/// let outcomes = plain_outcomes(rt.alloc(), policy, two, &trace, 2)?;
/// assert_eq!(rt; outcomes.as_slice(), [false, false, true].as_slice());
/// ```
pub fn plain_outcomes<A: Allocator + Copy>(
    alloc: A,
    policy: PlainPolicy,
    capacity: NonZeroUsize,
    trace: &[u32],
    keys: u32,
) -> Result<Vec<bool, A>, AllocError>
    requires below { AreBelow keys trace.now }
    ensures outcomes { IfOk result
        (λ outcomes. outcomes.items ≡
        plain_outcomes policy (non_zero_usize_get capacity) trace.now) }
{
    let mut residents = Residents {
        stamps: vec![in alloc; 0; keys as usize]?,
        left: 0,
        count: 0,
    };
    let mut outcomes = Vec::with_capacity(alloc, trace.len())?;
    for at in 0..trace.len() {
        outcomes.push_reserved(residents.access(policy, capacity, trace, at));
    }
    Ok(outcomes)
}
