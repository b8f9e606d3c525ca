//! The memo: construction, the two lookups, and a list of lookups.

mod fallible;

use crate::evaluator::Evaluator;
use clock2q_cache::{Cache, CacheError, DefaultHashBuilder, MAX_CAPACITY};
use std::alloc::{AllocError, Allocator, Global};
use std::hash::{BuildHasher, BuildHasherDefault, Hash};
use std::marker::Model;
use std::num::NonZeroUsize;

/// A function of keys with a bounded cache of its values.
///
/// It takes the place of its function: [`get`](Memo::get) returns what the function returns,
/// and calls it only if the key isn't resident. The function has to give equal keys equal
/// values, and the same at each call; for one that doesn't, the contracts leave open which values
/// are returned.
///
/// # Example
///
/// ```
/// let mut squares = Memo::new(rt.alloc(), capacity, |n: &u64| n.wrapping_mul(*n))?;
/// assert_eq!(rt; squares.get(12), 144);
/// assert_eq!(rt; squares.get(12), 144); // and this time nothing was multiplied
/// ```
#[derive(Drop)]
pub struct Memo<K: Hash + Eq, V, F, S: BuildHasher = DefaultHashBuilder, A: Allocator = Global> {
    cache: Cache<K, V, S, A>,
    evaluator: Evaluator<F>,
}

impl<K: Hash + Eq, V, F, S: BuildHasher, A: Allocator> Model for Memo<K, V, F, S, A> {
    ghost use Rattle.clock2q_machine.specs.Whole.{IsWhole};
    ghost use Rattle.clock2q_memo.specs.Memo.{MemoState, memo_state, memo_code};

    ghost Value = { MemoState K V F };

    ghost coded = { memo_code K.code V.code F.code };

    ghost view = { λ memo. memo_state memo.cache.machine memo.evaluator.function memo.evaluator.evaluations.total };

    ghost invariant = { λ memo. IsWhole K.eq memo.cache.machine };
}

impl<K, V, F, A> Memo<K, V, F, DefaultHashBuilder, A>
where
    K: Hash + Eq + Drop,
    V: Drop,
    F: Fn(&K) -> V + Drop,
    A: Allocator + Copy,
{
    ghost use Rattle.std.specs.Prelude.{◌≡◌, ◌≢◌, ◌<◌, ◌↔◌, Err, IfOk, IsErrOf};
    ghost use Rattle.std.specs.NonZero.{non_zero_usize_get};
    ghost use Rattle.clock2q_machine.specs.Shares.{usual_shares};
    ghost use Rattle.clock2q_machine.specs.Machine.{empty};
    ghost use Rattle.std.specs.Fn.{FnReturnsAt};
    ghost use Rattle.clock2q_memo.specs.Memo.{memo_state, HoldsValues};

    /// Makes a memo of `function` that remembers up to `capacity` values, as
    /// [`Cache::new`](clock2q_cache::Cache::new) makes a cache. Its hasher's seed is fixed too:
    /// if strangers choose the keys, use [`with_hasher`](Memo::with_hasher).
    ///
    /// # Errors
    ///
    /// `Capacity` above [`MAX_CAPACITY`](clock2q_cache::MAX_CAPACITY), before any memory is taken;
    /// `Memory` if a request for memory is refused. The function is dropped then.
    ///
    /// # Cost
    ///
    /// That of [`Cache::new`](clock2q_cache::Cache::new). The function isn't called.
    pub fn new(alloc: A, capacity: NonZeroUsize, function: F) -> Result<Self, CacheError>
        ensures remembers { IfOk result
            (λ memo. HoldsValues K.eq (FnReturnsAt F.Fn memo.function) memo.machine) }
        ensures made { IfOk result
            (λ memo. memo ≡
            memo_state (empty (usual_shares (non_zero_usize_get capacity))) function 0) }
        ensures capacity { IsErrOf result CacheError.Capacity ↔
            (MAX_CAPACITY < non_zero_usize_get capacity) }
        ensures policy { result ≢ Err CacheError.Policy }
    {
        Memo::with_hasher(alloc, capacity, BuildHasherDefault::new(), function)
    }
}

impl<K, V, F, S, A> Memo<K, V, F, S, A>
where
    K: Hash + Eq + Drop,
    V: Drop,
    F: Fn(&K) -> V + Drop,
    S: BuildHasher + Drop,
    A: Allocator + Copy,
{
    ghost use Rattle.std.specs.Prelude.{◌≡◌, ◌≢◌, ◌<◌, ◌↔◌, Err, IfOk, IsErrOf};
    ghost use Rattle.std.specs.NonZero.{non_zero_usize_get};
    ghost use Rattle.clock2q_machine.specs.Shares.{usual_shares};
    ghost use Rattle.clock2q_machine.specs.Machine.{empty};
    ghost use Rattle.std.specs.Fn.{FnReturnsAt};
    ghost use Rattle.clock2q_memo.specs.Memo.{memo_state, HoldsValues};

    /// Makes a memo as [`new`](Memo::new) does, whose cache has this hasher.
    ///
    /// # Errors
    ///
    /// Those of [`new`](Memo::new).
    ///
    /// # Cost
    ///
    /// That of [`new`](Memo::new).
    pub fn with_hasher(
        alloc: A,
        capacity: NonZeroUsize,
        hasher: S,
        function: F,
    ) -> Result<Self, CacheError>
        ensures remembers { IfOk result
            (λ memo. HoldsValues K.eq (FnReturnsAt F.Fn memo.function) memo.machine) }
        ensures made { IfOk result
            (λ memo. memo ≡
            memo_state (empty (usual_shares (non_zero_usize_get capacity))) function 0) }
        ensures capacity { IsErrOf result CacheError.Capacity ↔
            (MAX_CAPACITY < non_zero_usize_get capacity) }
        ensures policy { result ≢ Err CacheError.Policy }
    {
        let cache = Cache::with_hasher(alloc, capacity, hasher)?;
        Ok(Memo {
            cache,
            evaluator: Evaluator::new(function),
        })
    }
}

impl<K: Hash + Eq, V, F, S: BuildHasher, A: Allocator> Memo<K, V, F, S, A> {
    ghost use Rattle.std.specs.Prelude.{◌≡◌, IsTrue, ◌↔◌, IsSome};
    ghost use Rattle.clock2q_machine.specs.Machine.{resident_count, slot_of};

    /// Returns the number of values that the memo was made to remember.
    pub fn capacity(&self) -> usize
        ensures capacity { result ≡ self.now.machine.shares.capacity }
    {
        self.cache.capacity()
    }

    /// Returns the number of values that are remembered.
    pub fn len(&self) -> usize
        ensures count { result ≡ resident_count self.now.machine }
    {
        self.cache.len()
    }

    /// Returns true if no value is remembered.
    pub fn is_empty(&self) -> bool
        ensures empty { IsTrue result ↔ (resident_count self.now.machine ≡ 0) }
    {
        self.cache.is_empty()
    }

    /// Returns true if the key's value is remembered, so that [`get`](Memo::get) wouldn't call the
    /// function. It changes no later eviction.
    ///
    /// # Cost
    ///
    /// That of [`Cache::contains`](clock2q_cache::Cache::contains). The function isn't called.
    pub fn contains(&self, key: &K) -> bool
        ensures resident { IsTrue result ↔ IsSome (slot_of (K.eq key.now) self.now.machine) }
    {
        self.cache.contains(key)
    }
}

impl<K, V, F, S, A> Memo<K, V, F, S, A>
where
    K: Hash + Eq + Drop,
    V: Copy,
    F: Fn(&K) -> V,
    S: BuildHasher,
    A: Allocator,
{
    ghost use Rattle.std.specs.Prelude.{◌≡◌, ◌+◌, None, Some};
    ghost use Rattle.clock2q_machine.specs.Machine.{slot_of, value_of, inserted, cleared};
    ghost use Rattle.clock2q_machine.specs.Steps.{fetched};
    ghost use Rattle.std.specs.Fn.{FnReturnsAt};
    ghost use Rattle.clock2q_memo.specs.Memo.{IsCallableAt, HoldsValues, IsValueAt, evaluations_for, looked_up};

    /// Returns the function's value for the key. A remembered value is returned as
    /// [`Cache::peek`](clock2q_cache::Cache::peek) does, and nothing changes; otherwise the
    /// function is called once, and the value is remembered.
    ///
    /// # Cost
    ///
    /// That of [`Cache::peek`](clock2q_cache::Cache::peek) if the value is remembered. Otherwise
    /// also that of the function, and that of [`Cache::put`](clock2q_cache::Cache::put), which
    /// hashes the key again.
    pub fn get(&mut self, key: K) -> V
        requires callable { slot_of (K.eq key) self.old.machine ≡ None →
            IsCallableAt F.Fn self.old.function key }
        ensures value { IsValueAt K.eq
            (FnReturnsAt F.Fn self.old.function) self.old.machine key result }
        ensures remembers { HoldsValues K.eq (FnReturnsAt F.Fn self.old.function) self.old.machine →
            HoldsValues K.eq (FnReturnsAt F.Fn self.new.function) self.new.machine }
        ensures machine { self.new.machine ≡ looked_up K.eq key result self.old.machine }
        ensures resident { value_of (K.eq key) self.new.machine ≡ Some result }
        ensures evaluations { self.new.evaluations ≡
            self.old.evaluations + evaluations_for K.eq key self.old.machine }
        ensures function { self.new.function ≡ self.old.function }
    {
        match self.cache.peek(&key) {
            Some(value) => *value,
            None => self.remember(key),
        }
    }

    /// Returns the function's value for the key, as [`get`](Memo::get) does. A remembered value is
    /// hit, which may save it from a later eviction.
    ///
    /// # Cost
    ///
    /// That of [`get`](Memo::get). A hit sets one bit.
    pub fn get_recorded(&mut self, key: K) -> V
        requires callable { slot_of (K.eq key) self.old.machine ≡ None →
            IsCallableAt F.Fn self.old.function key }
        ensures value { IsValueAt K.eq
            (FnReturnsAt F.Fn self.old.function) self.old.machine key result }
        ensures remembers { HoldsValues K.eq (FnReturnsAt F.Fn self.old.function) self.old.machine →
            HoldsValues K.eq (FnReturnsAt F.Fn self.new.function) self.new.machine }
        ensures machine { self.new.machine ≡ fetched (K.eq key) key result self.old.machine }
        ensures resident { value_of (K.eq key) self.new.machine ≡ Some result }
        ensures evaluations { self.new.evaluations ≡
            self.old.evaluations + evaluations_for K.eq key self.old.machine }
        ensures function { self.new.function ≡ self.old.function }
    {
        match self.cache.get(&key) {
            Some(value) => *value,
            None => self.remember(key),
        }
    }

    /// Calls the function for a key that is not resident, and remembers the value.
    fn remember(&mut self, key: K) -> V
        requires callable { IsCallableAt F.Fn self.old.function key }
        requires absent { slot_of (K.eq key) self.old.machine ≡ None }
        ensures value { FnReturnsAt F.Fn self.old.function key result }
        ensures remembers { HoldsValues K.eq (FnReturnsAt F.Fn self.old.function) self.old.machine →
            HoldsValues K.eq (FnReturnsAt F.Fn self.new.function) self.new.machine }
        ensures machine { self.new.machine ≡ inserted (K.eq key) key result self.old.machine }
        ensures resident { value_of (K.eq key) self.new.machine ≡ Some result }
        ensures evaluations { self.new.evaluations ≡ self.old.evaluations + 1 }
        ensures function { self.new.function ≡ self.old.function }
    {
        let value = self.evaluator.evaluate(&key);
        self.cache.put(key, value);
        value
    }

    /// Forgets every value, and keeps the memory.
    ///
    /// # Cost
    ///
    /// That of [`Cache::clear`](clock2q_cache::Cache::clear). The function isn't called.
    pub fn clear(&mut self)
        ensures machine { self.new.machine ≡ cleared self.old.machine }
        ensures remembers { HoldsValues K.eq (FnReturnsAt F.Fn self.new.function) self.new.machine }
        ensures evaluations { self.new.evaluations ≡ self.old.evaluations }
        ensures function { self.new.function ≡ self.old.function }
    {
        self.cache.clear();
    }
}

impl<K, V, F, S, A> Memo<K, V, F, S, A>
where
    K: Hash + Eq + Drop,
    V: Drop,
    S: BuildHasher + Drop,
    A: Allocator,
{
    ghost use Rattle.std.specs.Prelude.{◌≡◌};

    /// Returns the function, and drops what was remembered.
    ///
    /// # Cost
    ///
    /// Time in proportion to the keys and values that are dropped. The function isn't called.
    pub fn into_function(self) -> F
        ensures function { result ≡ self.function }
    {
        self.evaluator.into_function()
    }
}

ghost use Rattle.std.specs.Prelude.{◌≡◌, ◌+◌, IfOk, OnErr, map};
ghost use Rattle.std.specs.Fn.{FnReturnsAt};
ghost use Rattle.clock2q_memo.specs.Memo.{IsCallableAtEach, Computes, HoldsValues, recalled, evaluations_of};

/// Returns the function's value for each of the keys, looked up by [`Memo::get_recorded`] in turn.
///
/// # Errors
///
/// `AllocError` if the list of values can't be reserved; no value was looked up then.
///
/// # Cost
///
/// One request for memory, for the list of values, and the cost of [`Memo::get_recorded`] for each
/// key.
pub fn recall<K, V, F, S, A>(
    alloc: A,
    memo: &mut Memo<K, V, F, S, A>,
    keys: Vec<K, A>,
) -> Result<Vec<V, A>, AllocError>
where
    K: Hash + Eq + Drop,
    V: Copy,
    F: Fn(&K) -> V,
    S: BuildHasher,
    A: Allocator,
    requires callable { IsCallableAtEach F.Fn memo.old.function keys.items }
    ensures values { HoldsValues K.eq (FnReturnsAt F.Fn memo.old.function) memo.old.machine →
        IfOk result (λ values. (value : K → V) →
        Computes K.eq (FnReturnsAt F.Fn memo.old.function) value →
        values.items ≡ map value keys.items) }
    ensures remembers { HoldsValues K.eq (FnReturnsAt F.Fn memo.old.function) memo.old.machine →
        HoldsValues K.eq (FnReturnsAt F.Fn memo.new.function) memo.new.machine }
    ensures machine { IfOk result
        (λ values. memo.new.machine ≡ recalled K.eq keys.items values.items memo.old.machine) }
    ensures evaluations { IfOk result
        (λ values. memo.new.evaluations ≡
        memo.old.evaluations + evaluations_of K.eq keys.items values.items memo.old.machine) }
    ensures function { memo.new.function ≡ memo.old.function }
    ensures unchanged { OnErr result (memo.new ≡ memo.old) }
{
    let mut values = Vec::with_capacity(alloc, keys.len())?;
    for key in keys {
        values.push_reserved(memo.get_recorded(key));
    }
    Ok(values)
}
