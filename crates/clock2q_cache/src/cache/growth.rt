//! Raising the capacity of a cache that is in use.
use crate::cache::{Cache, MAX_CAPACITY};
use crate::error::CacheError;
use crate::shares::Shares;
use std::alloc::Allocator;
use std::hash::{BuildHasher, Hash};
use std::num::NonZeroUsize;

impl<K: Hash + Eq + Drop, V: Drop, S: BuildHasher, A: Allocator + Copy> Cache<K, V, S, A> {
    ghost use Rattle.std.specs.Prelude.{◌≡◌, ◌≢◌, ◌<◌, ◌≤◌, ◌↔◌, IsErrOf, IsOkUnless, OnOk, OnErr};
    ghost use Rattle.std.specs.NonZero.{non_zero_usize_get};
    ghost use Rattle.clock2q_machine.specs.Shares.{usual_shares};
    ghost use Rattle.clock2q_machine.specs.Policies.{IsPolicy, shares_with};
    ghost use Rattle.clock2q_machine.specs.Growth.{IsAtLeast};
    ghost use Rattle.clock2q_cache.specs.Growth.{Grows};

    /// Raises the capacity to `capacity` keys, with the shares of a cache that [`new`](Cache::new)
    /// makes.
    ///
    /// No key leaves. Each resident keeps its slot, its value, its place in its queue and its hits,
    /// and each evicted key that is remembered stays remembered. Only the index is laid out anew.
    ///
    /// # Errors
    ///
    /// `Capacity` above [`MAX_CAPACITY`], or else `Policy` if Small, Main, the window or the history
    /// would be smaller than it is, as they would with a smaller capacity. Both are returned before any
    /// memory is taken. `Memory` if a request for memory is refused. The cache is as it was in each
    /// case.
    ///
    /// # Cost
    ///
    /// Time in proportion to the new capacity, with at most six accesses to links for each key of the
    /// old one. No key is hashed, compared or dropped. While the call runs, the memory of the queues and
    /// the index is taken twice.
    pub fn grow(&mut self, capacity: NonZeroUsize) -> Result<(), CacheError>
        ensures grown { OnOk result
            (Grows (usual_shares (non_zero_usize_get capacity)) self.old self.new) }
        ensures refused { OnErr result (self.new ≡ self.old) }
        ensures capacity { IsErrOf result CacheError.Capacity ↔
            (MAX_CAPACITY < non_zero_usize_get capacity) }
        ensures policy { IsErrOf result CacheError.Policy ↔
            ((non_zero_usize_get capacity ≤ MAX_CAPACITY) ×
            ¬ IsAtLeast self.old.machine.shares (usual_shares (non_zero_usize_get capacity))) }
    {
        if capacity.get() > MAX_CAPACITY {
            return Err(CacheError::Capacity);
        }
        self.grow_to(Shares::usual(capacity.get()))
    }

    /// Raises the capacity as [`grow`](Cache::grow) does, with the shares of a cache that
    /// [`with_history`](Cache::with_history) makes.
    ///
    /// # Errors
    ///
    /// Those of [`grow`](Cache::grow), and `Policy` if [`with_history`](Cache::with_history) returns it
    /// for these shares.
    ///
    /// # Cost
    ///
    /// That of [`grow`](Cache::grow).
    pub fn grow_with_history(
        &mut self,
        capacity: NonZeroUsize,
        small: usize,
        window: usize,
        history: usize,
    ) -> Result<(), CacheError>
        ensures grown { OnOk result
            (Grows (shares_with (non_zero_usize_get capacity) small window history) self.old self.new) }
        ensures refused { OnErr result (self.new ≡ self.old) }
        ensures capacity { IsErrOf result CacheError.Capacity ↔
            (MAX_CAPACITY < non_zero_usize_get capacity) }
        ensures policy { IsErrOf result CacheError.Policy ↔
            ((non_zero_usize_get capacity ≤ MAX_CAPACITY) ×
            ¬ (IsPolicy (shares_with (non_zero_usize_get capacity) small window history) ×
            IsAtLeast self.old.machine.shares
            (shares_with (non_zero_usize_get capacity) small window history))) }
    {
        if capacity.get() > MAX_CAPACITY {
            return Err(CacheError::Capacity);
        }
        let Some(shares) = Shares::new(capacity.get(), small, window, history) else {
            return Err(CacheError::Policy);
        };
        self.grow_to(shares)
    }

    /// Raises the capacity, unless one of these shares is smaller than it is now.
    fn grow_to(&mut self, shares: Shares) -> Result<(), CacheError>
        requires { shares.capacity ≤ MAX_CAPACITY }
        ensures grown { OnOk result (Grows shares self.old self.new) }
        ensures refused { OnErr result (self.new ≡ self.old) }
        ensures capacity { result ≢ Err CacheError.Capacity }
        ensures policy { IsErrOf result CacheError.Policy ↔
            ¬ IsAtLeast self.old.machine.shares shares }
    {
        if !shares.is_at_least(self.shares) {
            return Err(CacheError::Policy);
        }
        let alloc = *self.free.allocator();
        let slots = shares.capacity;
        self.free.reserve_exact(slots - self.free.len())?;
        let queues = self
            .queues
            .grown(alloc, slots as u32, shares.window as u32)?;
        self.directory.grow(alloc, slots, shares.history)?;
        self.queues = queues;
        self.shares = shares;
        Ok(())
    }
}
