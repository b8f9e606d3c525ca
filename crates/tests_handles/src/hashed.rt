//! A table in which each handle was inserted under the hash that it contains.
ghost use Rattle.clock2q_handles.specs.Positions.{gap_of};
ghost use Rattle.clock2q_handles.specs.TableStep.{HasSpare};
ghost use Rattle.std.specs.Prelude.{◌≡◌, ◌<◌, true, IfSome, IsSome, length};

use crate::handle::{Command, Handle, Reply};
use crate::seen::Notes;
use clock2q_handles::{Entry, Gap, Table, TableError};
use clock2q_table_commands::TableReply;
use std::alloc::{Allocator, Global};
use std::marker::Model;

/// From this number of entries on, a run may become too long.
const FEWEST_OF_MANY: usize = (1 << 24) - 1;

/// A table in which each handle was inserted under its hash.
#[derive(Drop)]
pub(crate) struct Hashed<A: Allocator = Global> {
    pub(crate) table: Table<Handle, A>,
}

impl<A: Allocator> Model for Hashed<A> {
    ghost use Rattle.clock2q_handles.specs.Homes.{total};
    ghost use Rattle.clock2q_handles.specs.TableStep.{IsHashOf};
    ghost use Rattle.std.specs.Prelude.{ℕ};

    ghost Value = { ℕ };

    ghost view = { λ t. total t.table.homes };

    ghost invariant = { λ t. IsHashOf (λ handle. handle.hash) t.table.homes };
}

impl<A: Allocator + Copy> Hashed<A> {
    /// Makes a table without slots.
    pub(crate) fn new(alloc: A) -> Hashed<A> {
        Hashed {
            table: Table::new(alloc),
        }
    }

    /// Makes a table for `entries` entries.
    pub(crate) fn with_capacity(alloc: A, entries: usize) -> Result<Hashed<A>, TableError> {
        let table = Table::with_capacity(alloc, entries)?;
        Ok(Hashed { table })
    }

    /// Returns how many handles fit before the table grows.
    pub(crate) fn capacity(&self) -> usize {
        self.table.capacity()
    }

    /// Makes the call of a command, and notes what its closures are called on.
    pub(crate) fn reply(
        &mut self,
        lists: Global,
        command: &Command<Global>,
        notes: &Notes,
    ) -> Reply<Global> {
        match command {
            Command::Insert(handle) => reply_of(self.insert(*handle, notes)),
            Command::Remove(hash, handle) => TableReply::Removed(self.remove(*hash, *handle)),
            Command::Find(handle, accepted) => self.find(*handle, accepted, notes),
            Command::Reserve(additional) => reply_of(self.reserve(*additional, notes)),
            Command::Get(hash) => self.get(lists, *hash),
        }
    }

    /// Inserts a handle, and notes whose hashes are asked for.
    pub(crate) fn insert(&mut self, handle: Handle, notes: &Notes) -> Result<(), TableError> {
        self.table.insert(
            handle.hash,
            handle,
            |held: Handle| -> u64
                ensures { result ≡ held.hash }
            {
                notes.asked.note(held.number);
                held.hash
            },
        )
    }

    /// Makes room, and notes whose hashes are asked for.
    fn reserve(&mut self, additional: usize, notes: &Notes) -> Result<(), TableError> {
        self.table.facts();
        self.table.reserve(
            additional,
            |held: Handle| -> u64
                ensures { result ≡ held.hash }
            {
                notes.asked.note(held.number);
                held.hash
            },
        )
    }

    /// Finds one of the accepted handles, or else inserts a handle.
    fn find_or_insert(
        &mut self,
        handle: Handle,
        accepted: &[Handle],
        notes: &Notes,
    ) -> Result<(Handle, bool), TableError> {
        self.table.find_or_insert(
            handle.hash,
            |held: Handle| {
                notes.offered.note(held.number);
                accepted.contains(&held)
            },
            handle,
            |held: Handle| -> u64
                ensures { result ≡ held.hash }
            {
                notes.asked.note(held.number);
                held.hash
            },
        )
    }

    /// Returns the reply to a search.
    fn find(&mut self, handle: Handle, accepted: &[Handle], notes: &Notes) -> Reply<Global> {
        match self.find_or_insert(handle, accepted, notes) {
            Ok((found, is_new)) => TableReply::Found(found, is_new),
            Err(refusal) => TableReply::Refused(refusal),
        }
    }

    /// Removes a handle from the candidates of a hash.
    fn remove(&mut self, hash: u64, handle: Handle) -> bool {
        self.table.remove(hash, handle)
    }

    /// Lists the candidates of a hash.
    fn get(&self, lists: Global, hash: u64) -> Reply<Global> {
        match self.table.get(hash).collect(lists) {
            Ok(handles) => TableReply::Handles(handles),
            Err(_) => TableReply::Refused(TableError::Memory),
        }
    }
}

/// Returns the reply to a command that returns nothing else.
fn reply_of(outcome: Result<(), TableError>) -> Reply<Global> {
    match outcome {
        Ok(()) => TableReply::Done,
        Err(refusal) => TableReply::Refused(refusal),
    }
}

/// Returns true if one more entry fits, and the entries are few.
fn has_spare<A: Allocator>(table: &Table<Handle, A>) -> bool
    ensures spare { result ≡ true → HasSpare table.now.homes }
{
    table.len() < table.capacity() && table.len() < FEWEST_OF_MANY
}

/// Returns the gap for a hash, which is behind its candidates.
fn gap_behind<A: Allocator>(table: &Table<Handle, A>, hash: u64) -> Option<Gap>
    requires slots { 0 < length table.now.homes }
    ensures gap { IfSome result (λ gap. gap ≡ gap_of table.now.homes hash) }
{
    let mut walk = table.get_in_slots(hash);
    for _ in 0..=table.len() {
        match walk.peek_or_gap() {
            Ok(_) => walk.advance(),
            Err(gap) => return Some(gap),
        }
    }
    None
}

/// Returns the gap for a hash if it is wanted and one more entry fits.
fn gap_if<A: Allocator>(is_wanted: bool, table: &Table<Handle, A>, hash: u64) -> Option<Gap>
    ensures gap { IfSome result (λ gap. gap ≡ gap_of table.now.homes hash) }
    ensures spare { IsSome result → HasSpare table.now.homes }
{
    if is_wanted && has_spare(table) {
        gap_behind(table, hash)
    } else {
        None
    }
}

/// Calls that a table's state may not allow. They return `None` then.
impl<A: Allocator + Copy> Hashed<A> {
    /// Inserts a handle without growth, if there is room.
    pub(crate) fn put_within(&mut self, handle: Handle) -> Option<Result<(), TableError>> {
        if self.table.len() >= self.table.capacity() {
            return None;
        }
        Some(self.table.insert_within_capacity(handle.hash, handle))
    }

    /// Inserts a handle in a table of few entries that has room.
    pub(crate) fn put_few(&mut self, handle: Handle) -> Option<Result<(), TableError>> {
        if has_spare(&self.table) {
            self.table.insert_infallible(handle.hash, handle);
            return Some(Ok(()));
        }
        None
    }

    /// Inserts a handle at the gap for its hash.
    pub(crate) fn put_at_gap(&mut self, handle: Handle) -> Option<Result<(), TableError>> {
        let gap = gap_if(true, &self.table, handle.hash)?;
        self.table.insert_at_gap(Some(gap), handle.hash, handle);
        Some(Ok(()))
    }

    /// Exchanges the first candidate of a hash for another handle, at the gap for that one if it is
    /// wanted and there is room.
    pub(crate) fn replace(
        &mut self,
        old_hash: u64,
        handle: Handle,
        is_at_gap: bool,
    ) -> Option<Result<(), TableError>> {
        if self.table.len() >= FEWEST_OF_MANY {
            return None;
        }
        let gap = gap_if(is_at_gap, &self.table, handle.hash);
        let Ok((old, _)) = self.table.search(old_hash, |_| true) else {
            return None;
        };
        let entry = Entry {
            hash: handle.hash,
            handle,
        };
        let old = Entry {
            hash: old_hash,
            handle: old,
        };
        self.table.replace(gap, entry, old);
        Some(Ok(()))
    }

    /// Returns the position of a candidate of a hash, or else the gap for the hash if there are slots.
    pub(crate) fn position(&self, hash: u64, handle: Handle) -> Result<usize, Option<Gap>> {
        let (_, position) = self.table.search(hash, |held| held == handle)?;
        Ok(position)
    }
}
