//! Keys of any bytes, each in a record or among other bytes.
ghost use Rattle.std.specs.Cmp.Lexicographic.{pointwise};
ghost use Rattle.std.specs.Prelude.{◌≡◌, ◌<◌, ◌≤◌, ◌+◌, [], ◌∷◌, ◌++◌, get_or, length, nat_eq, vec_capacity, vec_len};
ghost use Rattle.simulator_traces.specs.KnownKeys.{AreKept, hash_of, keys_in};

use crate::key_record::KeyRecord;
use std::alloc::Allocator;
use std::hash::{BuildHasher, Hasher};

/// Returns the hash of a key, whose bytes are written at once. [`BuildHasher::hash_one`] writes a
/// length and each byte by itself, which takes several times as long.
pub(crate) fn hash_of<S: BuildHasher>(key: &[u8], hasher: &S) -> u64
    ensures hash { result ≡ hash_of S.BuildHasher S.Hasher.Hasher hasher.now key.now }
{
    let mut state = hasher.build_hasher();
    state.write(key);
    state.finish()
}

/// Returns the key with a number.
fn key_at<'a>(others: &'a [u8], records: &'a [KeyRecord], number: usize) -> &'a [u8]
    requires within { number < length records.now }
    requires kept { AreKept (length others.now) records.now }
    ensures key { result.now ≡ get_or (keys_in others.now records.now) number [] }
{
    records[number].key(others)
}

/// Returns the hash of the key with a number.
pub(crate) fn hash_at<S: BuildHasher>(
    others: &[u8],
    records: &[KeyRecord],
    number: usize,
    hasher: &S,
) -> u64
    requires within { number < length records.now }
    requires kept { AreKept (length others.now) records.now }
    ensures hash { result ≡ hash_of S.BuildHasher S.Hasher.Hasher hasher.now (get_or (keys_in others.now records.now) number []) }
{
    hash_of(key_at(others, records, number), hasher)
}

/// Returns true if a number is that of a key.
pub(crate) fn is_key_at(others: &[u8], records: &[KeyRecord], number: usize, key: &[u8]) -> bool
    requires within { number < length records.now }
    requires kept { AreKept (length others.now) records.now }
    ensures same { result ≡ pointwise nat_eq (get_or (keys_in others.now records.now) number []) key.now }
{
    key_at(others, records, number) == key
}

/// Adds a key in reserved memory: its record, and its bytes to the others if it is long.
pub(crate) fn add_key<A: Allocator>(
    others: &mut Vec<u8, A>,
    records: &mut Vec<KeyRecord, A>,
    key: &[u8],
)
    requires kept { AreKept (length others.old.items) records.old.items }
    requires room { vec_len records.old < vec_capacity records.old }
    requires bytes { vec_len others.old + length key.now ≤ vec_capacity others.old }
    ensures kept { AreKept (length others.new.items) records.new.items }
    ensures added { keys_in others.new.items records.new.items ≡ keys_in others.old.items records.old.items ++ key.now ∷ [] }
{
    if key.len() < 16 {
        records.push_reserved(KeyRecord::short(key));
        return;
    }
    records.push_reserved(KeyRecord::long(others.len(), key.len()));
    match others.extend_from_slice(key) {
        Ok(()) | Err(_) => {}
    }
}
