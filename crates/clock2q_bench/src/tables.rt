//! The handle table's measured work: each loop is a function of its own, so that its instructions
//! can be counted.
ghost use Rattle.clock2q_bench.specs.Indices.{HoldsIndices};
ghost use Rattle.std.specs.Prelude.{◌≡◌, ◌<◌, [], IfOk, length, All};

use clock2q_handles::{Table, TableError};
use std::alloc::{AllocError, Global};

/// Returns the handles below `count` in the order of lookups and removals.
pub(crate) fn order(alloc: Global, count: usize) -> Result<Vec<usize>, AllocError>
    ensures below { IfOk result (λ order. All (λ at. at < count) order.items) }
{
    let mut order = Vec::with_capacity(alloc, count)?;
    append_order(&mut order, count)?;
    Ok(order)
}

/// Appends the handles below `count` to an empty list.
fn append_order(order: &mut Vec<usize>, count: usize) -> Result<(), AllocError>
    requires none { order.old.items ≡ [] }
    ensures below { IfOk result (λ _. All (λ at. at < count) order.new.items) }
{
    for i in 0..count {
        order.push(i.wrapping_mul(7919) % count)?;
    }
    Ok(())
}

/// Inserts each index of `hashes` under the hash there, in ascending order.
#[inline(never)]
pub(crate) fn insert_all(table: &mut Table<usize>, hashes: &[u64]) -> Result<(), TableError>
    requires empty { table.old.homes ≡ [] }
    ensures held { IfOk result (λ _. HoldsIndices hashes.now table.new.homes) }
{
    for handle in 0..hashes.len() {
        table.insert(hashes[handle], handle, |at| hashes[at])?;
    }
    Ok(())
}

/// Returns the sum of the handles that are found, modulo 2^64.
#[inline(never)]
pub(crate) fn find_all(table: &Table<usize>, hashes: &[u64], order: &[usize]) -> usize
    requires held { HoldsIndices hashes.now table.now.homes }
    requires below { All (λ at. at < length hashes.now) order.now }
{
    let mut sum: usize = 0;
    for handle in order {
        if let Some(found) = find(table, hashes, hashes[*handle]) {
            sum = sum.wrapping_add(found);
        }
    }
    sum
}

/// Returns the first candidate whose full hash is `hash`.
#[inline(always)]
fn find(table: &Table<usize>, hashes: &[u64], hash: u64) -> Option<usize>
    requires held { HoldsIndices hashes.now table.now.homes }
{
    let mut candidates = table.get(hash);
    while let Some(handle) = candidates.next() {
        if hashes[handle] == hash {
            return Some(handle);
        }
    }
    None
}

/// Removes the handles, and returns how many the table had.
#[inline(never)]
pub(crate) fn remove_all(table: &mut Table<usize>, hashes: &[u64], order: &[usize]) -> usize
    requires below { All (λ at. at < length hashes.now) order.now }
{
    let mut removed: usize = 0;
    for handle in order {
        if table.remove(hashes[*handle], *handle) {
            removed = removed.wrapping_add(1);
        }
    }
    removed
}
