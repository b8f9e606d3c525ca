//! Making slots before they are needed: their keys and values, and the list of free slots.
ghost use Rattle.std.specs.Prelude.{◌≡◌, ◌+◌, ◌-◌, ◌^◌, ◌≤◌, ◌++◌, reverse, length, vec_len, vec_capacity};
ghost use Rattle.std.specs.List.{range_with_len};
ghost use Rattle.clock2q_cache.specs.Closures.{FillsUp};
ghost use Rattle.clock2q_cache.specs.Hashes.{hash_of};
ghost use Rattle.clock2q_cache.specs.Makers.{TakesTimes};

use crate::cache::Cache;
use clock2q_directory::directory::Directory;
use std::alloc::Allocator;
use std::hash::{BuildHasher, Hash};

impl<K: Hash + Eq + Default, V, S: BuildHasher, A: Allocator> Cache<K, V, S, A> {
    ghost use Rattle.std.specs.Prelude.{◌≡◌, List};
    ghost use Rattle.clock2q_machine.specs.Calls.{Prefill};
    ghost use Rattle.clock2q_cache.specs.Closures.{Prefills};
    ghost use Rattle.clock2q_cache.specs.Costs.{Costs};
    ghost use Rattle.clock2q_cache.specs.Makers.{MayMake};

    /// Gives each slot that has no value yet one that `make` returns, in ascending order of slots.
    /// No key becomes resident: these slots are free, and new keys take the lowest first.
    ///
    /// It is useful with `get_or_insert_mut`, which lends the value that a slot already has.
    ///
    /// # Cost
    ///
    /// One call of `make`, one hash of the default key and at most one access to a link for each such
    /// slot.
    pub fn prefill<F: FnMut() -> V>(&mut self, make: F)
        requires callable { MayMake F.FnMut make self.old.machine }
        ensures made { Prefills F.FnMut make self.old.machine self.new.machine }
        ensures known { self.new.known ≡ self.old.known }
        ensures hasher { self.new.hasher ≡ self.old.hasher }
        ensures costs { (values : List V) →
            Costs K.Hash S.BuildHasher S.Hasher.Hasher (Prefill values) self.old self.new }
    {
        let made = self.directory.made();
        let shares = self.shares;
        fill(&mut self.directory, &self.hasher, shares.capacity, make);
        free_down(&mut self.free, made, shares.capacity);
        self.queues.make_below(shares.capacity as u32);
    }
}

/// Adds default keys, each with a value that `make` returns, until there are as many as `many`.
fn fill<K: Hash + Eq + Default, V, S: BuildHasher, A: Allocator, F: FnMut() -> V>(
    directory: &mut Directory<K, V, A>,
    hasher: &S,
    many: usize,
    mut make: F,
)
    requires callable { TakesTimes F.FnMut (many - length directory.old.residents.entries) make }
    requires within { length directory.old.residents.entries ≤ many }
    requires room { many ≤ directory.old.residents.room }
    ensures filled { (last : F) ×
        FillsUp F.FnMut make
        (λ k. hash_of S.BuildHasher S.Hasher.Hasher hasher.now
        (K.hash_input k)) many directory.old.residents.entries directory.new.residents.entries last }
    ensures kept_room { directory.new.residents.room ≡ directory.old.residents.room }
    ensures comparisons { directory.new.residents.comparisons ≡ directory.old.residents.comparisons }
    ensures history { directory.new.history ≡ directory.old.history }
{
    for _ in directory.made()..many {
        let key = K::default();
        let hash = hasher.hash_one(&key);
        directory.prepare(hash, key, make());
    }
}

/// Adds the slots from `from` up to `to` to the free ones, the lowest last, so that it is the next
/// to be used.
fn free_down<A: Allocator>(free: &mut Vec<u32, A>, from: usize, to: usize)
    requires order { from ≤ to }
    requires few { to ≤ 2 ^ 32 }
    requires room { vec_len free.old + (to - from) ≤ vec_capacity free.old }
    ensures items { free.new.items ≡ free.old.items ++ reverse (range_with_len from (to - from)) }
    ensures capacity { vec_capacity free.new ≡ vec_capacity free.old }
{
    let mut slot = to;
    while slot > from {
        slot -= 1;
        free.push_reserved(slot as u32);
    }
}
