//! What a table offers to a closure whose answers change.

use clock2q::handles::{Table, TableError};
use std::alloc::Global;
use std::cell::Cell;
use std::process::Abort;
use std::test::Fail;
use testing::same_at;

/// Inserts this many handles under one hash.
fn insert(rt: &impl Abort, table: &mut Table<u64>, count: u64) -> Result<(), TableError> {
    for handle in 0..count {
        assert!(rt; table.len() < table.capacity());
        table.insert_within_capacity(5, handle)?;
    }
    Ok(())
}

/// Takes the candidate that is offered second, whichever it is, and returns with it how many were
/// offered.
fn take_second(rt: &impl Abort, table: &mut Table<u64>) -> Result<(u64, bool, u64), TableError> {
    assert!(rt; table.len() < table.capacity());
    let offered = Cell::new(0u64);
    let (handle, is_new) = table.find_or_insert(
        5,
        |_| {
            offered.set(offered.get().saturating_add(1));
            offered.get() == 2
        },
        9,
        |_| 0,
    )?;
    Ok((handle, is_new, offered.get()))
}

/// Inserts this many handles, and takes the second that is offered.
fn second_of(
    rt: &impl Abort,
    table: &mut Table<u64>,
    count: u64,
) -> Result<(u64, bool, u64), TableError> {
    insert(rt, table, count)?;
    take_second(rt, table)
}

/// A table with this many handles offers them as wanted.
fn offers(
    rt: &impl Abort,
    alloc: Global,
    count: u64,
    wanted: (u64, bool, u64),
) -> Result<(), Fail> {
    let mut table = Table::with_capacity(alloc, 12)?;
    same_at(second_of(rt, &mut table, count)?, wanted, count)
}

#[test]
fn offered(rt: HostRuntime) -> Result<(), Fail> {
    for (count, wanted) in [
        (0, (9, true, 0)),
        (1, (9, true, 1)),
        (2, (1, false, 2)),
        (5, (1, false, 2)),
    ] {
        offers(&rt, rt.alloc(), count, wanted)?;
    }
    Ok(())
}
