//! Making a cache: with the default shares, or with the caller's.
use crate::cache::{Cache, DefaultHashBuilder, MAX_CAPACITY};
use crate::error::CacheError;
use crate::shares::Shares;
use clock2q_directory::directory::Directory;
use clock2q_queues::queues::Queues;
use std::alloc::Allocator;
use std::hash::{BuildHasher, BuildHasherDefault, Hash};
use std::num::NonZeroUsize;

impl<K: Hash + Eq + Drop, V: Drop, A: Allocator + Copy> Cache<K, V, DefaultHashBuilder, A> {
    ghost use Rattle.std.specs.Prelude.{◌≡◌, ◌≢◌, ◌-◌, ◌^◌, ◌<◌, ◌↔◌, Err, IfOk, IsErrOf};
    ghost use Rattle.std.specs.NonZero.{non_zero_usize_get};
    ghost use Rattle.clock2q_machine.specs.Shares.{usual_shares};
    ghost use Rattle.clock2q_cache.specs.CacheState.{uncounted};
    ghost use Rattle.clock2q_machine.specs.Machine.{empty};

    /// Makes an empty cache for `capacity` keys. It takes all the memory that the cache will use
    /// unless it [grows](Cache::grow), for `capacity` keys with their values and for half as many evicted
    /// keys.
    ///
    /// The hasher's seed is fixed ([`DefaultHashBuilder`]), so whoever chooses the keys can make
    /// calls slow. If strangers do, use [`with_hasher`](Cache::with_hasher).
    ///
    /// # Errors
    ///
    /// `Capacity` above [`MAX_CAPACITY`], before any memory is taken. `Memory` if a request for
    /// memory is refused. What was taken before is given back.
    ///
    /// # Cost
    ///
    /// Time and memory in proportion to `capacity`, in at most eleven requests for memory.
    pub fn new(alloc: A, capacity: NonZeroUsize) -> Result<Self, CacheError>
        ensures made { IfOk result
            (λ cache. cache.machine ≡ empty (usual_shares (non_zero_usize_get capacity))) }
        ensures counts { IfOk result (λ cache. cache.counts ≡ uncounted) }
        ensures capacity { IsErrOf result CacheError.Capacity ↔
            (MAX_CAPACITY < non_zero_usize_get capacity) }
        ensures most { MAX_CAPACITY ≡ 2 ^ 24 - 1 }
        ensures policy { result ≢ Err CacheError.Policy }
    {
        Cache::with_hasher(alloc, capacity, BuildHasherDefault::new())
    }
}

impl<K: Hash + Eq + Drop, V: Drop, S: BuildHasher + Drop, A: Allocator + Copy> Cache<K, V, S, A> {
    ghost use Rattle.std.specs.Prelude.{◌≡◌, ◌≢◌, ◌-◌, ◌^◌, ◌<◌, ◌≤◌, ◌↔◌, Err, IfOk, IsErrOf, IsOkUnless};
    ghost use Rattle.std.specs.NonZero.{non_zero_usize_get};
    ghost use Rattle.clock2q_machine.specs.Shares.{usual_shares};
    ghost use Rattle.clock2q_machine.specs.Policies.{IsPolicy, shares_of, shares_with};
    ghost use Rattle.clock2q_cache.specs.CacheState.{uncounted};
    ghost use Rattle.clock2q_machine.specs.Machine.{empty};

    /// Makes an empty cache as [`new`](Cache::new) does, with the caller's hasher, which should be
    /// a `RandomState` if strangers choose the keys.
    ///
    /// # Errors
    ///
    /// Those of [`new`](Cache::new).
    ///
    /// # Cost
    ///
    /// That of [`new`](Cache::new).
    pub fn with_hasher(alloc: A, capacity: NonZeroUsize, hasher: S) -> Result<Self, CacheError>
        ensures made { IfOk result
            (λ cache. cache.machine ≡ empty (usual_shares (non_zero_usize_get capacity))) }
        ensures hasher { IfOk result (λ cache. cache.hasher ≡ hasher) }
        ensures counts { IfOk result (λ cache. cache.counts ≡ uncounted) }
        ensures capacity { IsErrOf result CacheError.Capacity ↔
            (MAX_CAPACITY < non_zero_usize_get capacity) }
        ensures most { MAX_CAPACITY ≡ 2 ^ 24 - 1 }
        ensures policy { result ≢ Err CacheError.Policy }
    {
        if capacity.get() > MAX_CAPACITY {
            return Err(CacheError::Capacity);
        }
        Cache::with_shares(alloc, Shares::usual(capacity.get()), hasher)
    }

    /// Makes an empty cache in which Small has `small` slots and a key is young for `window`
    /// admissions.
    ///
    /// # Errors
    ///
    /// `Capacity` above [`MAX_CAPACITY`], or else `Policy` if Small leaves Main no slot, or one of
    /// `small` and `window` is 0 and the other isn't, or the window is longer than Small. Both are
    /// returned before any memory is taken. `Memory` if a request for memory is refused.
    ///
    /// # Cost
    ///
    /// That of [`new`](Cache::new).
    pub fn with_policy(
        alloc: A,
        capacity: NonZeroUsize,
        small: usize,
        window: usize,
        hasher: S,
    ) -> Result<Self, CacheError>
        ensures made { IfOk result
            (λ cache. cache.machine ≡
            empty (shares_of (non_zero_usize_get capacity) small window)) }
        ensures hasher { IfOk result (λ cache. cache.hasher ≡ hasher) }
        ensures counts { IfOk result (λ cache. cache.counts ≡ uncounted) }
        ensures capacity { IsErrOf result CacheError.Capacity ↔
            (MAX_CAPACITY < non_zero_usize_get capacity) }
        ensures most { MAX_CAPACITY ≡ 2 ^ 24 - 1 }
        ensures policy { IsErrOf result CacheError.Policy ↔
            ((non_zero_usize_get capacity ≤ MAX_CAPACITY) ×
            ¬ IsPolicy (shares_of (non_zero_usize_get capacity) small window)) }
    {
        let history = Shares::usual_history(capacity.get());
        Cache::with_history(alloc, capacity, small, window, history, hasher)
    }

    /// Makes an empty cache as [`with_policy`](Cache::with_policy) does, whose history remembers up
    /// to `history` evicted keys in place of half the capacity.
    ///
    /// A full cache admits a loop of new keys if Small and the history have room for it, so a
    /// history of `capacity - small` admits every loop that fits beside the keys that were hit. 0
    /// remembers nothing. Each key of the history takes memory as long as it is remembered.
    ///
    /// # Errors
    ///
    /// Those of [`with_policy`](Cache::with_policy), and `Policy` if `history` is more than
    /// `capacity`.
    ///
    /// # Cost
    ///
    /// That of [`new`](Cache::new), with room for `history` evicted keys.
    pub fn with_history(
        alloc: A,
        capacity: NonZeroUsize,
        small: usize,
        window: usize,
        history: usize,
        hasher: S,
    ) -> Result<Self, CacheError>
        ensures made { IfOk result
            (λ cache. cache.machine ≡
            empty (shares_with (non_zero_usize_get capacity) small window history)) }
        ensures hasher { IfOk result (λ cache. cache.hasher ≡ hasher) }
        ensures counts { IfOk result (λ cache. cache.counts ≡ uncounted) }
        ensures capacity { IsErrOf result CacheError.Capacity ↔
            (MAX_CAPACITY < non_zero_usize_get capacity) }
        ensures most { MAX_CAPACITY ≡ 2 ^ 24 - 1 }
        ensures policy { IsErrOf result CacheError.Policy ↔
            ((non_zero_usize_get capacity ≤ MAX_CAPACITY) ×
            ¬ IsPolicy (shares_with (non_zero_usize_get capacity) small window history)) }
    {
        if capacity.get() > MAX_CAPACITY {
            return Err(CacheError::Capacity);
        }
        let Some(shares) = Shares::new(capacity.get(), small, window, history) else {
            return Err(CacheError::Policy);
        };
        Cache::with_shares(alloc, shares, hasher)
    }

    /// Makes an empty cache with these shares.
    fn with_shares(alloc: A, shares: Shares, hasher: S) -> Result<Self, CacheError>
        requires { shares.capacity ≤ MAX_CAPACITY }
        ensures made { IfOk result (λ cache. cache.machine ≡ empty shares) }
        ensures hasher { IfOk result (λ cache. cache.hasher ≡ hasher) }
        ensures counts { IfOk result (λ cache. cache.counts ≡ uncounted) }
        ensures only { IsOkUnless result CacheError.Memory }
    {
        let slots = shares.capacity;
        let free = Vec::with_capacity(alloc, slots)?;
        let queues = Queues::new(alloc, slots as u32, shares.window as u32)?;
        let directory = Directory::new(alloc, slots, shares.history)?;
        Ok(Cache {
            shares,
            queues,
            directory,
            free,
            hasher,
        })
    }
}
