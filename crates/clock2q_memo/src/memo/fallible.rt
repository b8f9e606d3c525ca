//! Memos of functions that may fail.

use crate::evaluator::Evaluator;
use crate::memo::Memo;
use clock2q_cache::{Cache, CacheError, DefaultHashBuilder, MAX_CAPACITY};
use std::alloc::Allocator;
use std::hash::{BuildHasher, BuildHasherDefault, Hash};
use std::num::NonZeroUsize;

impl<K, V, F, A> Memo<K, V, F, DefaultHashBuilder, A>
where
    K: Hash + Eq + Drop,
    V: Drop,
    F: Drop,
    A: Allocator + Copy,
{
    ghost use Rattle.std.specs.Prelude.{◌≡◌, ◌≢◌, ◌<◌, ◌↔◌, Err, IfOk, IsErrOf};
    ghost use Rattle.std.specs.NonZero.{non_zero_usize_get};
    ghost use Rattle.clock2q_machine.specs.Shares.{usual_shares};
    ghost use Rattle.clock2q_machine.specs.Machine.{empty};
    ghost use Rattle.clock2q_memo.specs.Memo.{memo_state, GivesOk, HoldsValues};

    /// Makes a memo as [`new`](Memo::new) does, of a function that may fail. Its values are looked
    /// up by [`get_or_try`](Memo::get_or_try).
    ///
    /// # Errors
    ///
    /// Those of [`new`](Memo::new).
    ///
    /// # Cost
    ///
    /// That of [`new`](Memo::new).
    ///
    /// # Example
    ///
    /// ```
    /// let mut quotients = Memo::fallible(rt.alloc(), capacity, |n: &u64| 12u64.checked_div(*n).ok_or(ByZero))?;
    /// assert_eq!(rt; quotients.get_or_try(4), Ok(3));
    /// assert_eq!(rt; quotients.get_or_try(0), Err(ByZero)); // and nothing is remembered
    /// ```
    pub fn fallible<E>(alloc: A, capacity: NonZeroUsize, function: F) -> Result<Self, CacheError>
    where
        F: Fn(&K) -> Result<V, E>,
        ensures remembers { IfOk result
            (λ memo. HoldsValues K.eq (GivesOk F.Fn memo.function) memo.machine) }
        ensures made { IfOk result
            (λ memo. memo ≡
            memo_state (empty (usual_shares (non_zero_usize_get capacity))) function 0) }
        ensures capacity { IsErrOf result CacheError.Capacity ↔
            (MAX_CAPACITY < non_zero_usize_get capacity) }
        ensures policy { result ≢ Err CacheError.Policy }
    {
        Memo::fallible_with_hasher(alloc, capacity, BuildHasherDefault::new(), function)
    }
}

impl<K, V, F, S, A> Memo<K, V, F, S, A>
where
    K: Hash + Eq + Drop,
    V: Drop,
    F: Drop,
    S: BuildHasher + Drop,
    A: Allocator + Copy,
{
    ghost use Rattle.std.specs.Prelude.{◌≡◌, ◌≢◌, ◌<◌, ◌↔◌, Err, IfOk, IsErrOf};
    ghost use Rattle.std.specs.NonZero.{non_zero_usize_get};
    ghost use Rattle.clock2q_machine.specs.Shares.{usual_shares};
    ghost use Rattle.clock2q_machine.specs.Machine.{empty};
    ghost use Rattle.clock2q_memo.specs.Memo.{memo_state, GivesOk, HoldsValues};

    /// Makes a memo as [`fallible`](Memo::fallible) does, whose cache has this hasher.
    ///
    /// # Errors
    ///
    /// Those of [`new`](Memo::new).
    ///
    /// # Cost
    ///
    /// That of [`new`](Memo::new).
    pub fn fallible_with_hasher<E>(
        alloc: A,
        capacity: NonZeroUsize,
        hasher: S,
        function: F,
    ) -> Result<Self, CacheError>
    where
        F: Fn(&K) -> Result<V, E>,
        ensures remembers { IfOk result
            (λ memo. HoldsValues K.eq (GivesOk F.Fn memo.function) memo.machine) }
        ensures made { IfOk result
            (λ memo. memo ≡
            memo_state (empty (usual_shares (non_zero_usize_get capacity))) function 0) }
        ensures capacity { IsErrOf result CacheError.Capacity ↔
            (MAX_CAPACITY < non_zero_usize_get capacity) }
        ensures policy { result ≢ Err CacheError.Policy }
    {
        let cache = Cache::with_hasher(alloc, capacity, hasher)?;
        Ok(Memo {
            cache,
            evaluator: Evaluator::new(function),
        })
    }
}

impl<K, V, F, S, A> Memo<K, V, F, S, A>
where
    K: Hash + Eq + Drop,
    V: Copy,
    S: BuildHasher,
    A: Allocator,
{
    ghost use Rattle.std.specs.Prelude.{◌≡◌, ◌+◌, None, Some, Ok, Err, IfOk, IfErr, OnErr};
    ghost use Rattle.clock2q_machine.specs.Machine.{slot_of, value_of, inserted};
    ghost use Rattle.clock2q_machine.specs.Steps.{fetched};
    ghost use Rattle.std.specs.Fn.{FnReturnsAt};
    ghost use Rattle.clock2q_memo.specs.Memo.{IsCallableAt, GivesOk, HoldsValues, IsValueAt, evaluations_for};

    /// Returns the function's value for the key. A remembered value is hit, which may save it from
    /// a later eviction; otherwise the function is called once, and the value is remembered.
    ///
    /// # Errors
    ///
    /// The error of the function. Nothing is remembered or forgotten then, so a later call for the
    /// key calls the function again.
    ///
    /// # Cost
    ///
    /// That of [`get_recorded`](Memo::get_recorded). After an error no link was accessed.
    pub fn get_or_try<E>(&mut self, key: K) -> Result<V, E>
    where
        F: Fn(&K) -> Result<V, E>,
        requires callable { slot_of (K.eq key) self.old.machine ≡ None →
            IsCallableAt F.Fn self.old.function key }
        ensures value { IfOk result
            (IsValueAt K.eq (GivesOk F.Fn self.old.function) self.old.machine key) }
        ensures err { IfErr result (λ e. FnReturnsAt F.Fn self.old.function key (Err e)) }
        ensures absent { OnErr result (slot_of (K.eq key) self.old.machine ≡ None) }
        ensures remembers { HoldsValues K.eq (GivesOk F.Fn self.old.function) self.old.machine →
            HoldsValues K.eq (GivesOk F.Fn self.new.function) self.new.machine }
        ensures machine { IfOk result
            (λ v. self.new.machine ≡ fetched (K.eq key) key v self.old.machine) }
        ensures unchanged { OnErr result (self.new.machine ≡ self.old.machine) }
        ensures resident { IfOk result (λ v. value_of (K.eq key) self.new.machine ≡ Some v) }
        ensures evaluations { self.new.evaluations ≡
            self.old.evaluations + evaluations_for K.eq key self.old.machine }
        ensures function { self.new.function ≡ self.old.function }
    {
        match self.cache.get(&key) {
            Some(value) => Ok(*value),
            None => self.try_remember(key),
        }
    }

    /// Calls the function for a key that is not resident, and remembers the value, if there is one.
    fn try_remember<E>(&mut self, key: K) -> Result<V, E>
    where
        F: Fn(&K) -> Result<V, E>,
        requires callable { IsCallableAt F.Fn self.old.function key }
        requires absent { slot_of (K.eq key) self.old.machine ≡ None }
        ensures value { IfOk result (GivesOk F.Fn self.old.function key) }
        ensures err { IfErr result (λ e. FnReturnsAt F.Fn self.old.function key (Err e)) }
        ensures remembers { HoldsValues K.eq (GivesOk F.Fn self.old.function) self.old.machine →
            HoldsValues K.eq (GivesOk F.Fn self.new.function) self.new.machine }
        ensures machine { IfOk result
            (λ v. self.new.machine ≡ inserted (K.eq key) key v self.old.machine) }
        ensures unchanged { OnErr result (self.new.machine ≡ self.old.machine) }
        ensures resident { IfOk result (λ v. value_of (K.eq key) self.new.machine ≡ Some v) }
        ensures evaluations { self.new.evaluations ≡ self.old.evaluations + 1 }
        ensures function { self.new.function ≡ self.old.function }
    {
        let value = self.evaluator.evaluate(&key)?;
        self.cache.put(key, value);
        Ok(value)
    }
}
