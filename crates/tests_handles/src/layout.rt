//! The contents of each slot of a table, as searches report them.

use crate::handle::Handle;
use clock2q_handles::Table;
use std::alloc::{Allocator, Global};

/// A slot: a handle and how far past its home it is, or nothing.
pub(crate) type Slot = Option<(Handle, usize)>;

/// Returns the candidate of the hash with this number, and its position.
fn candidate<A: Allocator>(
    table: &Table<Handle, A>,
    hash: u64,
    number: usize,
) -> Option<(Handle, usize)> {
    let mut passed = 0usize;
    let found = table.search(hash, |_| {
        let is_wanted = passed == number;
        passed = passed.saturating_add(1);
        is_wanted
    });
    found.ok()
}

/// Writes each candidate of the hash into its slot.
fn write_down<A: Allocator>(table: &Table<Handle, A>, hash: u64, slots: &mut [Slot]) {
    for number in 0..table.len() {
        let Some((handle, position)) = candidate(table, hash, number) else {
            return;
        };
        let home = (hash as usize).checked_rem(slots.len()).unwrap_or(0);
        let past = position.wrapping_sub(home).checked_rem(slots.len());
        if let Some(slot) = slots.get_mut(position) {
            *slot = Some((handle, past.unwrap_or(0)));
        }
    }
}

/// Writes the candidates of hashes with this home and one of the fingerprints into their slots.
fn write_home<A: Allocator>(
    table: &Table<Handle, A>,
    home: usize,
    fingerprints: [u64; 3],
    slots: &mut [Slot],
) {
    for fingerprint in fingerprints {
        write_down(table, fingerprint << 56 | home as u64, slots);
    }
}

/// Returns free slots, or fewer if there is no memory for them.
pub(crate) fn free_slots(alloc: Global, count: usize) -> Vec<Slot> {
    let mut slots = Vec::new(alloc);
    for _ in 0..count {
        let _ = slots.push(None);
    }
    slots
}

/// Returns the contents of each slot, of entries with one of the fingerprints.
pub(crate) fn slots_of<A: Allocator>(
    alloc: Global,
    table: &Table<Handle, A>,
    fingerprints: [u64; 3],
) -> Vec<Slot> {
    let count = (table.capacity() / 3).saturating_mul(4);
    let mut slots = free_slots(alloc, count);
    for home in 0..count {
        write_home(table, home, fingerprints, &mut slots);
    }
    slots
}
