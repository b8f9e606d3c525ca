//! Iteration over the residents of a cache, read-only.
use crate::cache::{Cache, DefaultHashBuilder};
use clock2q_count::Count;
use std::alloc::{Allocator, Global};
use std::hash::{BuildHasher, Hash};
use std::iter::FusedIterator;
use std::marker::Model;

/// An iterator over the residents of a cache, by ascending slot: the key, its slot and its value.
///
/// # Example
///
/// ```
/// for (key, slot, value) in cache.iter() {
///     println!(rt; "{key} has {value} in slot {slot}")?;
/// }
/// ```
#[derive(Drop)]
pub struct Iter<'a, K: Hash + Eq, V, S: BuildHasher = DefaultHashBuilder, A: Allocator = Global> {
    cache: &'a Cache<K, V, S, A>,
    slot: u32,
    left: usize,
    looks: Count,
}

impl<'a, K: Hash + Eq, V, S: BuildHasher, A: Allocator> Model for Iter<'a, K, V, S, A> {
    ghost use Rattle.std.specs.Prelude.{◌≡◌, ℕ, List, length};
    ghost use Rattle.clock2q_cache.specs.Iteration.{entries_from, HasLooked};

    ghost Value = { List (K × ℕ × V) };

    ghost view = { λ it. entries_from it.cache.now.machine it.slot };

    ghost invariant = { λ it. HasLooked it.cache.now.machine it.slot it.left it.looks.total };
}

/// An iterator over the keys of a cache, by ascending slot.
///
/// # Example
///
/// ```
/// for key in cache.keys() {
///     println!(rt; "{key}")?;
/// }
/// ```
#[derive(Drop)]
pub struct Keys<'a, K: Hash + Eq, V, S: BuildHasher = DefaultHashBuilder, A: Allocator = Global> {
    entries: Iter<'a, K, V, S, A>,
}

impl<'a, K: Hash + Eq, V, S: BuildHasher, A: Allocator> Model for Keys<'a, K, V, S, A> {
    ghost use Rattle.std.specs.Prelude.{List, map};
    ghost use Rattle.clock2q_cache.specs.Iteration.{key_of};

    ghost Value = { List K };

    ghost view = { λ it. map key_of it.entries };
}

/// An iterator over the values of a cache, by ascending slot.
///
/// # Example
///
/// ```
/// for value in cache.values() {
///     println!(rt; "{value}")?;
/// }
/// ```
#[derive(Drop)]
pub struct Values<'a, K: Hash + Eq, V, S: BuildHasher = DefaultHashBuilder, A: Allocator = Global> {
    entries: Iter<'a, K, V, S, A>,
}

impl<'a, K: Hash + Eq, V, S: BuildHasher, A: Allocator> Model for Values<'a, K, V, S, A> {
    ghost use Rattle.std.specs.Prelude.{List, map};
    ghost use Rattle.clock2q_cache.specs.Iteration.{value_in};

    ghost Value = { List V };

    ghost view = { λ it. map value_in it.entries };
}

impl<K: Hash + Eq, V, S: BuildHasher, A: Allocator> Cache<K, V, S, A> {
    ghost use Rattle.std.specs.Prelude.{◌≡◌, ◌+◌, ◌^◌, ◌<◌, [], length, map, IfSome, IfNone, IsSome};
    ghost use Rattle.clock2q_machine.specs.Machine.{by_slot, resident_at, resident_count};
    ghost use Rattle.clock2q_cache.specs.Iteration.{entries, entries_from, key_and_slot, keys, values};

    /// Returns an iterator over the residents, by ascending slot: the key, its slot and its value.
    /// It records no hit, and so changes no later eviction.
    ///
    /// # Cost
    ///
    /// One look at each slot up to the last resident's, which the iterator counts. No key is hashed or
    /// compared, and no link is accessed.
    pub fn iter(&self) -> Iter<'_, K, V, S, A>
        ensures by_slot { map key_and_slot result ≡ by_slot self.now.machine }
        ensures values { result ≡ entries self.now.machine }
        ensures len { length result ≡ resident_count self.now.machine }
    {
        self.facts();
        Iter {
            cache: self,
            slot: 0,
            left: self.len(),
            looks: Count::new(),
        }
    }

    /// Returns an iterator over the keys of the residents, by ascending slot. It records no hit.
    ///
    /// # Cost
    ///
    /// That of [`iter`](Cache::iter).
    pub fn keys(&self) -> Keys<'_, K, V, S, A>
        ensures keys { result ≡ keys self.now.machine }
        ensures len { length result ≡ resident_count self.now.machine }
    {
        Keys {
            entries: self.iter(),
        }
    }

    /// Returns an iterator over the values of the residents, by ascending slot. It records no hit.
    ///
    /// # Cost
    ///
    /// That of [`iter`](Cache::iter).
    pub fn values(&self) -> Values<'_, K, V, S, A>
        ensures values { result ≡ values self.now.machine }
        ensures len { length result ≡ resident_count self.now.machine }
    {
        Values {
            entries: self.iter(),
        }
    }

    /// Returns the lowest slot that has a resident, starting from a given one, and counts each slot
    /// that it looks at.
    fn next_resident(&self, from: u32, looks: &mut Count) -> Option<u32>
        ensures resident { IfSome result (λ slot. IsSome (resident_at self.now.machine slot)) }
        ensures made { IfSome result (λ slot. slot < length self.now.machine.values) }
        ensures first { IfSome result
            (λ slot. entries_from self.now.machine from ≡ entries_from self.now.machine slot) }
        ensures next { IfSome result (λ slot. slot + 1 < 2 ^ 32) }
        ensures none { IfNone result (entries_from self.now.machine from ≡ []) }
        ensures looks { IfSome result
            (λ slot. looks.new.total + from ≡ looks.old.total + slot + 1) }
    {
        for slot in from..self.made() {
            looks.tick();
            if self.is_resident(slot as usize) {
                return Some(slot);
            }
        }
        None
    }
}

impl<'a, K: Hash + Eq, V, S: BuildHasher, A: Allocator> Iterator for Iter<'a, K, V, S, A> {
    ghost use Rattle.std.specs.Prelude.{◌≡◌, length, Some, IfSome};
    ghost use Rattle.std.specs.Iterator.{YieldsFirstBy, UpTo, at_most, item_count};
    ghost use Rattle.std.specs.Iterator.SizeHint.{IsWithinCount};

    type Item = (&'a K, usize, &'a V);

    ghost next_gives = { YieldsFirstBy (λ item. (item.0.now, item.1, item.2.now)) (λ left. left) };

    ghost remaining = { item_count (λ left. left) };

    fn next(&mut self) -> Option<(&'a K, usize, &'a V)> {
        if self.left == 0 {
            return None;
        }
        let cache = self.cache;
        let slot = cache.next_resident(self.slot, &mut self.looks)?;
        self.slot = slot + 1;
        self.left -= 1;
        Some((cache.key(slot), slot as usize, cache.value(slot)))
    }

    fn size_hint(&self) -> (usize, Option<usize>)
        ensures lower { IsWithinCount result.0 (at_most (length self.now)) }
        ensures upper { IfSome result.1 (UpTo (at_most (length self.now))) }
        ensures exact { result ≡ (length self.now, Some (length self.now)) }
    {
        (self.left, Some(self.left))
    }
}

impl<'a, K: Hash + Eq, V, S: BuildHasher, A: Allocator> ExactSizeIterator for Iter<'a, K, V, S, A> {
    fn len(&self) -> usize {
        self.left
    }
}

impl<'a, K: Hash + Eq, V, S: BuildHasher, A: Allocator> FusedIterator for Iter<'a, K, V, S, A> {}

impl<'a, K: Hash + Eq, V, S: BuildHasher, A: Allocator> Iterator for Keys<'a, K, V, S, A> {
    ghost use Rattle.std.specs.Prelude.{◌≡◌, length, Some, IfSome};
    ghost use Rattle.std.specs.Iterator.{YieldsFirstBy, UpTo, at_most, item_count};
    ghost use Rattle.std.specs.Iterator.SizeHint.{IsWithinCount};

    type Item = &'a K;

    ghost next_gives = { YieldsFirstBy (λ key. key.now) (λ left. left) };

    ghost remaining = { item_count (λ left. left) };

    fn next(&mut self) -> Option<&'a K> {
        let (key, _, _) = self.entries.next()?;
        Some(key)
    }

    fn size_hint(&self) -> (usize, Option<usize>)
        ensures lower { IsWithinCount result.0 (at_most (length self.now)) }
        ensures upper { IfSome result.1 (UpTo (at_most (length self.now))) }
        ensures exact { result ≡ (length self.now, Some (length self.now)) }
    {
        self.entries.size_hint()
    }
}

impl<'a, K: Hash + Eq, V, S: BuildHasher, A: Allocator> ExactSizeIterator for Keys<'a, K, V, S, A> {
    fn len(&self) -> usize {
        self.entries.len()
    }
}

impl<'a, K: Hash + Eq, V, S: BuildHasher, A: Allocator> FusedIterator for Keys<'a, K, V, S, A> {}

impl<'a, K: Hash + Eq, V, S: BuildHasher, A: Allocator> Iterator for Values<'a, K, V, S, A> {
    ghost use Rattle.std.specs.Prelude.{◌≡◌, length, Some, IfSome};
    ghost use Rattle.std.specs.Iterator.{YieldsFirstBy, UpTo, at_most, item_count};
    ghost use Rattle.std.specs.Iterator.SizeHint.{IsWithinCount};

    type Item = &'a V;

    ghost next_gives = { YieldsFirstBy (λ value. value.now) (λ left. left) };

    ghost remaining = { item_count (λ left. left) };

    fn next(&mut self) -> Option<&'a V> {
        let (_, _, value) = self.entries.next()?;
        Some(value)
    }

    fn size_hint(&self) -> (usize, Option<usize>)
        ensures lower { IsWithinCount result.0 (at_most (length self.now)) }
        ensures upper { IfSome result.1 (UpTo (at_most (length self.now))) }
        ensures exact { result ≡ (length self.now, Some (length self.now)) }
    {
        self.entries.size_hint()
    }
}

impl<'a, K: Hash + Eq, V, S: BuildHasher, A: Allocator> ExactSizeIterator
    for Values<'a, K, V, S, A> {
    fn len(&self) -> usize {
        self.entries.len()
    }
}

impl<'a, K: Hash + Eq, V, S: BuildHasher, A: Allocator> FusedIterator for Values<'a, K, V, S, A> {}

impl<'a, K: Hash + Eq, V, S: BuildHasher, A: Allocator> IntoIterator for &'a Cache<K, V, S, A> {
    ghost use Rattle.std.specs.Prelude.{◌≡◌};
    ghost use Rattle.clock2q_cache.specs.Iteration.{entries};

    type Item = (&'a K, usize, &'a V);

    type IntoIter = Iter<'a, K, V, S, A>;

    ghost into_iter_gives = { λ cache it. it ≡ entries cache.now.machine };

    fn into_iter(self) -> Iter<'a, K, V, S, A> {
        self.iter()
    }
}
