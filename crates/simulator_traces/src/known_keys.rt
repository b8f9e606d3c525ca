//! Different keys, each with a number.
ghost use Rattle.std.specs.Prelude.{◌≡◌, ◌<◌, ◌≤◌, ◌+◌, ◌^◌, ℕ, List, [], Some, IfOk, OnErr, OnOk, length, slice_get, vec_capacity, vec_len};
ghost use Rattle.simulator_traces.specs.KnownKeys.{AreApart, AreKept, HasNumbers, IsNumbered, hash_of, keys_in};

use crate::key_bytes::{add_key, hash_at, hash_of, is_key_at};
use crate::key_record::KeyRecord;
use clock2q_handles::{Table, TableError};
use std::alloc::{AllocError, Allocator};
use std::hash::BuildHasher;
use std::marker::Model;

/// Different keys of any bytes. The number of a key is the number of keys before it.
///
/// A key takes 16 bytes and between 10 and 22 in the table of numbers, which holds no keys. One
/// longer than 15 bytes takes its length more.
#[derive(Drop)]
pub(crate) struct KnownKeys<S: BuildHasher, A: Allocator> {
    /// The bytes of the long keys, one key after another.
    others: Vec<u8, A>,
    /// Each key, or the place of a long one.
    records: Vec<KeyRecord, A>,
    /// The numbers, each under its key's hash.
    numbers: Table<u32, A>,
    /// Hashes the keys.
    hasher: S,
}

impl<S: BuildHasher, A: Allocator> Model for KnownKeys<S, A> {
    ghost use Rattle.std.specs.Prelude.{ℕ, List, length};
    ghost use Rattle.simulator_traces.specs.KnownKeys.{AreKept, HasNumbers, hash_of, keys_in};

    ghost Value = { List (List ℕ) };

    ghost view = { λ k. keys_in k.others.items k.records.items };

    ghost invariant = { λ k. AreKept (length k.others.items) k.records.items × HasNumbers (hash_of S.BuildHasher S.Hasher.Hasher k.hasher) (keys_in k.others.items k.records.items) k.numbers.homes };
}

impl<S: BuildHasher, A: Allocator + Copy> KnownKeys<S, A> {
    /// Returns an empty set of keys, without allocating memory.
    pub(crate) fn new(alloc: A, hasher: S) -> KnownKeys<S, A>
        ensures empty { result ≡ [] }
        ensures apart { AreApart result }
    {
        KnownKeys {
            others: Vec::new(alloc),
            records: Vec::new(alloc),
            numbers: Table::new(alloc),
            hasher,
        }
    }

    /// Returns the number of a key. A new key gets the next number.
    pub(crate) fn number_of(&mut self, key: &[u8]) -> Result<u32, AllocError>
        ensures number { IfOk result (λ number. slice_get self.new number ≡ Some key.now) }
        ensures kept { (number : ℕ) (other : List ℕ) → slice_get self.old number ≡ Some other → slice_get self.new number ≡ Some other }
        ensures only { IfOk result (λ number. (other : ℕ) → length self.old ≤ other → other < length self.new → other ≡ number) }
        ensures apart { AreApart self.new }
        ensures refused { OnErr result (self.new ≡ self.old) }
    {
        let next = room_for(&mut self.others, &mut self.records, key.len())?;
        let (others, records) = (self.others.as_slice(), self.records.as_slice());
        let (numbers, hasher) = (&mut self.numbers, &self.hasher);
        let Ok((number, is_new)) = find_or_number(numbers, others, records, key, next, hasher)
        else {
            return Err(AllocError);
        };
        if is_new {
            add_key(&mut self.others, &mut self.records, key);
        }
        Ok(number)
    }
}

impl<S: BuildHasher, A: Allocator> KnownKeys<S, A> {
    /// Returns the number of keys.
    pub(crate) fn len(&self) -> usize
        ensures len { result ≡ length self.now }
    {
        self.records.len()
    }
}

/// Reserves memory for one key more, of a number of bytes, and returns its number.
fn room_for<A: Allocator>(
    others: &mut Vec<u8, A>,
    records: &mut Vec<KeyRecord, A>,
    bytes: usize,
) -> Result<u32, AllocError>
    ensures next { IfOk result (λ next. next ≡ length records.new.items) }
    ensures room { OnOk result (vec_len records.new < vec_capacity records.new) }
    ensures bytes { OnOk result (vec_len others.new + bytes ≤ vec_capacity others.new) }
    ensures others { others.new.items ≡ others.old.items }
    ensures records { records.new.items ≡ records.old.items }
{
    let Ok(next) = u32::try_from(records.len()) else {
        return Err(AllocError);
    };
    records.reserve(1)?;
    others.reserve(bytes)?;
    Ok(next)
}

/// Returns the number of a key, and false. A new key gets the next number in the table, and true is
/// returned; its bytes are still to be added.
fn find_or_number<S: BuildHasher, A: Allocator + Copy>(
    numbers: &mut Table<u32, A>,
    others: &[u8],
    records: &[KeyRecord],
    key: &[u8],
    next: u32,
    hasher: &S,
) -> Result<(u32, bool), TableError>
    requires kept { AreKept (length others.now) records.now }
    requires indexed { HasNumbers (hash_of S.BuildHasher S.Hasher.Hasher hasher.now) (keys_in others.now records.now) numbers.old.homes }
    requires next { next ≡ length records.now }
    ensures numbered { IfOk result (λ found. IsNumbered (hash_of S.BuildHasher S.Hasher.Hasher hasher.now) (keys_in others.now records.now) key.now found.0 found.1 numbers.new.homes) }
    ensures refused { OnErr result (HasNumbers (hash_of S.BuildHasher S.Hasher.Hasher hasher.now) (keys_in others.now records.now) numbers.new.homes) }
{
    numbers.find_or_insert(
        hash_of(key, hasher),
        move |number| is_key_at(others, records, number as usize, key),
        next,
        move |number| hash_at(others, records, number as usize, hasher),
    )
}
