//! A table as the list of the entries of each home, and where those lists put each entry.

use crate::handle::{Command, Handle, Reply};
use crate::layout::{Slot, free_slots};
use crate::seen::{Notes, Seen};
use clock2q_handles::TableError;
use clock2q_table_commands::TableReply;
use std::alloc::Global;

/// The entries of each home, in the order in which they were inserted. If there is no memory for an entry,
/// it is left out, and comparisons fail.
#[derive(Drop)]
pub(crate) struct Plain {
    alloc: Global,
    homes: Vec<Vec<Handle>>,
}

impl Plain {
    /// Makes empty lists for `entries` entries.
    pub(crate) fn with_capacity(alloc: Global, entries: usize) -> Plain {
        let count = if entries == 0 {
            0
        } else {
            slots_for(entries).unwrap_or(0)
        };
        Plain::with_slots(alloc, count)
    }

    /// Makes empty lists for a number of slots.
    fn with_slots(alloc: Global, count: usize) -> Plain {
        let mut homes = Vec::new(alloc);
        for _ in 0..count {
            let _ = homes.push(Vec::new(alloc));
        }
        Plain { alloc, homes }
    }

    /// Returns the number of entries.
    pub(crate) fn len(&self) -> usize {
        let mut sum = 0usize;
        for list in &self.homes {
            sum = sum.saturating_add(list.len());
        }
        sum
    }

    /// Returns how many entries fit before the lists grow.
    pub(crate) fn capacity(&self) -> usize {
        fitting(self.homes.len())
    }

    /// Returns the entry with this number, home by home.
    pub(crate) fn entry(&self, number: usize) -> Option<Handle> {
        let mut left = number;
        for list in &self.homes {
            if left < list.len() {
                return Some(list[left]);
            }
            left = left.saturating_sub(list.len());
        }
        None
    }

    /// Returns the home of a hash.
    fn home(&self, hash: u64) -> usize {
        (hash as usize).checked_rem(self.homes.len()).unwrap_or(0)
    }

    /// Returns the entries that a lookup of the hash should yield.
    pub(crate) fn candidates(&self, hash: u64) -> Vec<Handle> {
        let mut candidates = Vec::new(self.alloc);
        if let Some(list) = self.homes.get(self.home(hash)) {
            for held in list {
                if is_candidate(held, hash) {
                    let _ = candidates.push(*held);
                }
            }
        }
        candidates
    }

    /// Makes the call of a command, and notes what a table's closures should be called on.
    pub(crate) fn reply(&mut self, command: &Command<Global>, notes: &Notes) -> Reply<Global> {
        match command {
            Command::Insert(handle) => self.insert(*handle, &notes.asked),
            Command::Remove(hash, handle) => TableReply::Removed(self.remove(*hash, *handle)),
            Command::Find(handle, accepted) => self.find(*handle, accepted, notes),
            Command::Reserve(additional) => self.reserve(*additional, &notes.asked),
            Command::Get(hash) => TableReply::Handles(self.candidates(*hash)),
        }
    }

    /// Inserts a handle, last in its home.
    fn insert(&mut self, handle: Handle, asked: &Seen) -> Reply<Global> {
        self.make_room(asked);
        self.put(handle);
        TableReply::Done
    }

    /// Finds one of the accepted handles, or else inserts a handle.
    fn find(&mut self, handle: Handle, accepted: &[Handle], notes: &Notes) -> Reply<Global> {
        self.make_room(&notes.asked);
        match self.first_accepted(handle.hash, accepted, &notes.offered) {
            Some(held) => TableReply::Found(held, false),
            None => {
                self.put(handle);
                TableReply::Found(handle, true)
            }
        }
    }

    /// Returns the first candidate of a hash that is accepted, and notes those that are offered.
    fn first_accepted(&self, hash: u64, accepted: &[Handle], offered: &Seen) -> Option<Handle> {
        let list = self.homes.get(self.home(hash))?;
        for held in list {
            if is_candidate(held, hash) {
                offered.note(held.number);
                if accepted.contains(held) {
                    return Some(*held);
                }
            }
        }
        None
    }

    /// Removes a handle from the candidates of a hash.
    fn remove(&mut self, hash: u64, handle: Handle) -> bool {
        let home = self.home(hash);
        match self.homes.get_mut(home) {
            Some(list) => remove_from(list, hash, handle),
            None => false,
        }
    }

    /// Makes room for `additional` more entries.
    fn reserve(&mut self, additional: usize, asked: &Seen) -> Reply<Global> {
        let entries = self.len().saturating_add(additional);
        if entries <= self.capacity() {
            return TableReply::Done;
        }
        match slots_for(entries) {
            Some(count) => {
                self.rebuild(count, asked);
                TableReply::Done
            }
            None => TableReply::Refused(TableError::Size),
        }
    }

    /// Returns where each home's list puts its entries, slot by slot, and how far past their home.
    pub(crate) fn layout(&self) -> Vec<Slot> {
        let mut slots = free_slots(self.alloc, self.homes.len());
        let mut spill = self.wrapped();
        for (home, list) in self.homes.iter().enumerate() {
            put_into(&mut slots, home, spill, list);
            spill = handed_on(spill, list);
        }
        slots
    }

    /// Returns the number of entries past the end, which are in the first slots: what the last home
    /// hands on to the first.
    fn wrapped(&self) -> usize {
        self.handed_on_by_all(self.handed_on_by_all(0))
    }

    /// Returns the number of entries for which no home has a slot, if there were `spill` before.
    fn handed_on_by_all(&self, spill: usize) -> usize {
        let mut left = spill;
        for list in &self.homes {
            left = handed_on(left, list);
        }
        left
    }

    /// Doubles the slots if one more entry doesn't fit.
    fn make_room(&mut self, asked: &Seen) {
        if self.len() == self.capacity() {
            let count = self.homes.len().saturating_mul(2).max(16);
            self.rebuild(count, asked);
        }
    }

    /// Inserts the entries again, from the first slot on.
    fn rebuild(&mut self, count: usize, asked: &Seen) {
        let slots = self.layout();
        *self = Plain::with_slots(self.alloc, count);
        self.put_each(&slots, asked);
    }

    /// Inserts the entries of slots.
    fn put_each(&mut self, slots: &[Slot], asked: &Seen) {
        for slot in slots {
            if let Some((handle, _)) = slot {
                asked.note(handle.number);
                self.put(*handle);
            }
        }
    }

    /// Puts a handle last in its home.
    fn put(&mut self, handle: Handle) {
        let home = self.home(handle.hash);
        if let Some(list) = self.homes.get_mut(home) {
            let _ = list.push(handle);
        }
    }
}

/// Returns how many entries fit into a number of slots.
fn fitting(slots: usize) -> usize {
    (slots / 4).saturating_mul(3)
}

/// Returns the smallest slot count in which `entries` entries fit, if it can be counted.
fn slots_for(entries: usize) -> Option<usize> {
    let mut count = 16usize;
    for _ in 4..64 {
        if fitting(count) >= entries {
            return Some(count);
        }
        count = count.saturating_mul(2);
    }
    None
}

/// Removes the first candidate of the hash that equals the handle, if there is one.
fn remove_from(list: &mut Vec<Handle>, hash: u64, handle: Handle) -> bool {
    for i in 0..list.len() {
        if is_candidate(&list[i], hash) && list[i] == handle {
            list.remove(i);
            return true;
        }
    }
    false
}

/// Returns true if a lookup of the hash should yield an entry of its home.
fn is_candidate(held: &Handle, hash: u64) -> bool {
    held.hash >> 56 == hash >> 56
}

/// Returns the number of entries for which a home and those before it have no slot, if those before
/// it have none for `spill` entries.
fn handed_on(spill: usize, list: &[Handle]) -> usize {
    spill.saturating_add(list.len()).saturating_sub(1)
}

/// Puts a home's entries into the slots, one after another from `spill` slots past it on.
fn put_into(slots: &mut [Slot], home: usize, spill: usize, list: &[Handle]) {
    for (i, handle) in list.iter().enumerate() {
        let past = spill.saturating_add(i);
        let slot = home.saturating_add(past).checked_rem(slots.len());
        if let Some(stored) = slots.get_mut(slot.unwrap_or(0)) {
            *stored = Some((*handle, past));
        }
    }
}
