//! How a cache is shown for debugging.
use crate::cache::Cache;
use std::alloc::Allocator;
use std::fmt::{self, Debug, Formatter};
use std::hash::{BuildHasher, Hash};

/// Shows the number of keys in the cache and in each of its lists, and the capacity.
impl<K: Hash + Eq, V, S: BuildHasher, A: Allocator> Debug for Cache<K, V, S, A> {
    fn fmt<W: fmt::Write>(&self, f: &mut Formatter<W>) -> fmt::Result {
        f.debug_struct("Cache")
            .field("len", &self.len())
            .field("capacity", &self.capacity())
            .field("small", &self.queues.small_len())
            .field("small_capacity", &self.shares.small)
            .field("main", &self.queues.main_len())
            .field("main_capacity", &self.shares.main())
            .field("ghost", &self.directory.remembered_len())
            .field("ghost_capacity", &self.shares.history)
            .finish()
    }
}
