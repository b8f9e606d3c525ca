//! Values that are read if a cache doesn't have them, when reading may fail.
ghost use Rattle.clock2q_machine.specs.Machine.{slot_of, value_of};
ghost use Rattle.clock2q_machine.specs.Steps.{fetched};
ghost use Rattle.clock2q_uses.specs.Records.{HoldsRecords};
ghost use Rattle.std.specs.Option.{UnwrapsOrElse};
ghost use Rattle.std.specs.Prelude.{◌≡◌, None, Some, Ok, Err, IfOk, IfErr, OnErr, MatchResult, slice_get};

use clock2q::Cache;
use std::alloc::Allocator;
use std::hash::{BuildHasher, Hash};

/// Returns a copy of the key's value. If the key isn't resident, `read` is called first, and the
/// key is inserted with what it returns.
///
/// # Errors
///
/// The error of `read`. The cache is then as it was.
pub fn read_through<K, V, S, A, F, E>(
    cache: &mut Cache<K, V, S, A>,
    key: K,
    read: F,
) -> Result<V, E>
where
    K: Hash + Eq + Drop,
    V: Copy,
    S: BuildHasher,
    A: Allocator,
    F: FnOnce() -> Result<V, E>,
    requires { slot_of (K.eq key) cache.old.machine ≡ None → F.pre read }
    ensures machine { IfOk result
        (λ value. cache.new.machine ≡ fetched (K.eq key) key value cache.old.machine) }
    ensures value { IfOk result
        (λ value. UnwrapsOrElse (value_of (K.eq key) cache.old.machine)
        (λ v. F.post read (Ok v)) value) }
    ensures err { IfErr result (λ e. F.post read (Err e)) }
    ensures absent { OnErr result (slot_of (K.eq key) cache.old.machine ≡ None) }
    ensures unchanged { OnErr result (cache.new.machine ≡ cache.old.machine) }
    ensures hasher { cache.new.hasher ≡ cache.old.hasher }
{
    let lent = cache.try_get_or_insert_with(key, read);
    copied(lent)
}

/// Returns a copy of the value that was lent, or the error that was returned instead.
fn copied<V: Copy, E>(lent: Result<&V, E>) -> Result<V, E>
    ensures { MatchResult lent.entry (λ value. result ≡ Ok value.now) (λ e. result ≡ Err e) }
{
    match lent {
        Ok(value) => Ok(*value),
        Err(error) => Err(error),
    }
}

/// Why a record can't be read: the file has none with that number.
#[derive(Clone, Copy, Debug, PartialEq)]
pub struct NoRecord;

/// Returns a record of a file through a cache of its records.
///
/// # Errors
///
/// `NoRecord` if the file has none with that number. The cache is then as it was.
pub fn record_of<T: Copy, S: BuildHasher>(
    records: &mut Cache<usize, T, S>,
    file: &[T],
    number: usize,
) -> Result<T, NoRecord>
    ensures found { HoldsRecords file.now records.old.machine →
        IfOk result (λ found. slice_get file.now number ≡ Some found) }
    ensures missing { OnErr result (slice_get file.now number ≡ None) }
    ensures keeps { HoldsRecords file.now records.old.machine →
        HoldsRecords file.now records.new.machine }
    ensures unchanged { OnErr result (records.new.machine ≡ records.old.machine) }
{
    records.facts();
    read_through(
        records,
        number,
        move ||
            ensures found { IfOk result (λ found. slice_get file.entry.now number ≡ Some found) }
            ensures missing { OnErr result (slice_get file.entry.now number ≡ None) }
        { file.get(number).copied().ok_or(NoRecord) },
    )
}
