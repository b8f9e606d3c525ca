//! A cache whose values expire: none is returned past its deadline.
ghost use Rattle.clock2q_machine.specs.Machine.{resident_count, value_of};
ghost use Rattle.clock2q_machine.specs.Steps.{put};
ghost use Rattle.clock2q_uses.specs.Expiring.{AreInTime, after_get, after_request, after_requests, live, replies, reply_to, timed, unexpired};
ghost use Rattle.std.specs.Prelude.{◌≡◌, ◌<◌, ◌↔◌, [], eqb, IfOk, IsTrue, OnErr};

use clock2q::Cache;
use std::alloc::{AllocError, Global};
use std::hash::BuildHasher;

/// A value, and the time from which on it isn't returned, in the units of the caller's clock.
///
/// # Example
///
/// ```
/// let session = Timed { value: 7, deadline: 100 };
/// assert!(rt; session.is_live(99) && !session.is_live(100));
/// ```
#[derive(Clone, Copy)]
pub struct Timed<V> {
    /// The value.
    pub value: V,
    /// The first time at which it has expired.
    pub deadline: u64,
}

impl<V> Timed<V> {
    /// Returns true if the value hasn't expired at this time.
    pub fn is_live(&self, now: u64) -> bool
        ensures live { IsTrue result ↔ (now < self.now.deadline) }
    {
        now < self.deadline
    }
}

/// What a cache whose values expire is asked.
///
/// # Example
///
/// ```
/// let request = Request::Insert(1, 10, 60);
/// ```
#[derive(Clone, Copy)]
pub enum Request<V> {
    /// Inserts a key with a value and the time that this lives. The reply is the value that it
    /// replaces.
    Insert(u64, V, u64),
    /// Looks up the value of a key. The reply is that value.
    Get(u64),
    /// Removes each value that has expired. There is no reply.
    Expire,
}

/// Inserts a value that lives for `lifetime` from `now` on. Returns the value that it replaces if
/// that is live.
pub fn insert<V: Copy, S: BuildHasher>(
    cache: &mut Cache<u64, Timed<V>, S>,
    now: u64,
    key: u64,
    value: V,
    lifetime: u64,
) -> Option<V>
    ensures value { result ≡ live now (value_of (eqb key) cache.old.machine) }
    ensures machine { cache.new.machine ≡
        put (eqb key) key (timed value now lifetime) cache.old.machine }
{
    let deadline = now.saturating_add(lifetime);
    let replaced = cache.put(key, Timed { value, deadline })?;
    replaced.is_live(now).then_some(replaced.value)
}

/// Returns the value of a key if it is live, and records a hit. One that has expired is removed.
pub fn get<V: Copy, S: BuildHasher>(
    cache: &mut Cache<u64, Timed<V>, S>,
    now: u64,
    key: u64,
) -> Option<V>
    ensures value { result ≡ live now (value_of (eqb key) cache.old.machine) }
    ensures machine { cache.new.machine ≡ after_get now key cache.old.machine }
{
    let found = *cache.get(&key)?;
    if found.is_live(now) {
        return Some(found.value);
    }
    cache.remove(&key);
    None
}

/// Removes each value that has expired.
///
/// # Cost
///
/// One step for each slot up to the last resident's.
pub fn expire<V: Copy, S: BuildHasher>(cache: &mut Cache<u64, Timed<V>, S>, now: u64)
    ensures machine { cache.new.machine ≡ unexpired now cache.old.machine }
{
    cache.retain(|_, held| held.is_live(now));
}

/// Serves one request at a time of the clock.
fn serve_one<V: Copy, S: BuildHasher>(
    cache: &mut Cache<u64, Timed<V>, S>,
    now: u64,
    request: Request<V>,
) -> Option<V>
    ensures reply { result ≡ reply_to now request cache.old.machine }
    ensures machine { cache.new.machine ≡ after_request now request cache.old.machine }
{
    match request {
        Request::Insert(key, value, lifetime) => insert(cache, now, key, value, lifetime),
        Request::Get(key) => get(cache, now, key),
        Request::Expire => {
            expire(cache, now);
            None
        }
    }
}

/// Serves requests, each at the time beside it, and returns their replies. If the cache was empty,
/// each value that is returned was inserted for its key by an earlier request, less than its
/// lifetime before, whatever the clock does.
///
/// # Errors
///
/// If the list of replies can't be reserved. Nothing is served then.
pub fn serve<V: Copy, S: BuildHasher>(
    alloc: Global,
    cache: &mut Cache<u64, Timed<V>, S>,
    requests: &[(u64, Request<V>)],
) -> Result<Vec<Option<V>>, AllocError>
    ensures in_time { resident_count cache.old.machine ≡ 0 → IfOk result
        (λ served. AreInTime [] requests.now served.items) }
    ensures replies { IfOk result
        (λ served. served.items ≡ replies requests.now cache.old.machine) }
    ensures machine { IfOk result
        (λ served. cache.new.machine ≡ after_requests requests.now cache.old.machine) }
    ensures unserved { OnErr result (cache.new ≡ cache.old) }
{
    cache.facts();
    let mut served = Vec::with_capacity(alloc, requests.len())?;
    for (now, request) in requests {
        served.push_reserved(serve_one(cache, *now, *request));
    }
    Ok(served)
}
