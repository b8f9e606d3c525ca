//! A table whose handles were all inserted under one hash.
ghost use Rattle.std.specs.Prelude.{◌≡◌, ◌+◌, ◌^◌, ◌<◌, length};

use clock2q_handles::{Candidates, Table, TableError};
use std::alloc::Global;
use std::marker::Model;
use std::test::Fail;
use testing::{same, same_at};

/// The hash of all handles.
const HASH: u64 = 0xAB00_0000_0000_000F;

/// A table whose handles were all inserted under one hash. Contracts see the number of handles.
#[derive(Drop)]
struct Crowded {
    table: Table<u64>,
    hash: u64,
}

impl Model for Crowded {
    ghost use Rattle.clock2q_handles.specs.Homes.{total};
    ghost use Rattle.clock2q_handles.specs.TableStep.{IsHashOf};
    ghost use Rattle.std.specs.Prelude.{ℕ};

    ghost Value = { ℕ };

    ghost view = { λ c. total c.table.homes };

    ghost invariant = { λ c. IsHashOf (λ _. c.hash) c.table.homes };
}

impl Crowded {
    /// Makes an empty table for handles of a hash.
    fn new(alloc: Global, hash: u64) -> Crowded {
        Crowded {
            table: Table::new(alloc),
            hash,
        }
    }

    /// Returns how many handles fit before the table grows.
    fn capacity(&self) -> usize {
        self.table.capacity()
    }

    /// Inserts a handle.
    fn insert(&mut self, handle: u64) -> Result<(), TableError> {
        let hash = self.hash;
        self.table.insert(
            hash,
            handle,
            |_: u64| -> u64
                ensures { result ≡ hash }
            { hash },
        )
    }

    /// Removes a handle, and returns true if it was there.
    fn remove(&mut self, handle: u64) -> bool {
        self.table.remove(self.hash, handle)
    }

    /// Advances a lookup of the hash to its end, and returns the number of candidates. Each handle
    /// is one, and the lookup has read one slot more than there are handles.
    fn drained(&self) -> (usize, Candidates<'_, u64>)
        ensures all { result.0 ≡ self.now }
        ensures reads { 0 < self.now → result.1.reads ≡ self.now + 1 }
    {
        let _ = self.table.len(); // which bounds the number of handles
        self.table.facts();
        drain(self.table.get(self.hash))
    }
}

/// Advances a lookup to its end, and returns the number of candidates.
fn drain<'a>(mut walk: Candidates<'a, u64>) -> (usize, Candidates<'a, u64>)
    requires { length walk.left < 2 ^ 64 }
    ensures all { result.0 ≡ length walk.entry.left }
    ensures reads { result.1.reads ≡ walk.entry.reads + walk.entry.unread }
{
    let mut count = 0usize;
    while walk.next().is_some() {
        count += 1;
    }
    (count, walk)
}

/// Asserts that a lookup has read this number of slots, which is proved at each call.
fn has_read(walk: &Candidates<'_, u64>, slots: usize)
    requires { walk.now.reads ≡ slots }
{
    let _ = walk;
    let _ = slots;
}

/// Inserts the handles below 2,000.
fn insert_all(crowded: &mut Crowded) -> Result<(), TableError> {
    for handle in 0..2000 {
        crowded.insert(handle)?;
    }
    Ok(())
}

/// Removes those that are even.
fn remove_even(crowded: &mut Crowded) -> Result<(), Fail> {
    for half in 0..1000 {
        same_at(crowded.remove(half * 2), true, half)?;
    }
    Ok(())
}

/// A lookup yields this number of handles, and reads one slot more.
fn reads_each(crowded: &Crowded, count: usize) -> Result<(), Fail>
    requires some { 0 < count }
    requires few { count < 2 ^ 32 }
{
    let (candidates, walk) = crowded.drained();
    if candidates != count {
        return same(candidates, count);
    }
    has_read(&walk, count + 1);
    Ok(())
}

/// A lookup of one hash, under which 2,000 handles were inserted and half of them removed, reads one
/// slot more than there are handles.
fn fill_and_read(crowded: &mut Crowded) -> Result<(), Fail> {
    insert_all(crowded)?;
    reads_each(crowded, 2000)?;
    remove_even(crowded)?;
    reads_each(crowded, 1000)?;
    same(crowded.capacity(), 3072)
}

/// Crowds a table, and looks its hash up.
pub(crate) fn crowd(alloc: Global) -> Result<(), Fail> {
    fill_and_read(&mut Crowded::new(alloc, HASH))
}
