//! The positions of Small's window, each with a slot or none. Only these accessors reach them.
ghost use Rattle.std.specs.Prelude.{◌≡◌, ◌+◌, ◌-◌, ◌*◌, ◌^◌, ◌<◌, ◌≤◌, IfOk, None, Some, length, replicate, slice_index_or};
ghost use Rattle.clock2q_queues.specs.Cells.{cells_state, accessed, written};
ghost use Rattle.clock2q_queues.specs.Growth.{with_gap};
ghost use Rattle.clock2q_queues.specs.Small.{next_cursor};

use clock2q_count::Count;
use std::alloc::{AllocError, Allocator, Global};
use std::marker::Model;

/// What a free position holds. No slot has this number, since slots are fewer.
const NO_SLOT: u32 = u32::MAX;

/// The number of the slot at each position, with the number of reads and writes. A position takes
/// four bytes, half of what an `Option` of such a number takes.
#[derive(Drop)]
pub(super) struct Window<A: Allocator = Global> {
    numbers: Vec<u32, A>,
    accesses: Count,
}

impl<A: Allocator> Model for Window<A> {
    ghost use Rattle.std.specs.Prelude.{ℕ, ◌^◌, ◌<◌, Option, length, map};
    ghost use Rattle.clock2q_queues.specs.Cells.{CellsState, cells_state};
    ghost use Rattle.clock2q_queues.specs.Positions.{slot_of};

    ghost Value = { CellsState (Option ℕ) };

    ghost view = { λ w. cells_state (map slot_of w.numbers.items) w.accesses.total };

    ghost invariant = { λ w. length w.numbers.items < 2 ^ 32 };
}

impl<A: Allocator> Window<A> {
    /// Returns a window of `len` free positions, with no read or write counted yet.
    pub(super) fn new(alloc: A, len: u32) -> Result<Self, AllocError>
        ensures { IfOk result (λ w. w ≡ cells_state (replicate len None) 0) }
    {
        let numbers = Vec::from_elem(alloc, NO_SLOT, len as usize)?;
        Ok(Window {
            numbers,
            accesses: Count::new(),
        })
    }

    /// Returns a window of `len` positions: those before position `at`, free ones, and those from that
    /// position on. The count goes on from that of this window: each of its positions is read and written.
    pub(super) fn with_gap(&self, alloc: A, at: u32, len: u32) -> Result<Self, AllocError>
        requires at { at ≤ length self.now.items }
        requires len { length self.now.items ≤ len }
        ensures { IfOk result (λ w. w ≡ cells_state
            (with_gap at (len - length self.now.items) None self.now.items)
            (self.now.accesses + 2 * length self.now.items)) }
    {
        let (before, after) = self.numbers.split_at(at as usize);
        let mut numbers = Vec::with_capacity(alloc, len as usize)?;
        numbers.extend_from_slice(before)?;
        numbers.resize(len as usize - after.len(), NO_SLOT)?;
        numbers.extend_from_slice(after)?;
        let mut accesses = Count::new();
        accesses.raise(self);
        Ok(Window { numbers, accesses })
    }

    /// Returns the number of positions.
    pub(super) fn len(&self) -> u32
        ensures { result ≡ length self.now.items }
    {
        self.numbers.len() as u32
    }

    /// Returns the position after another, or the first one after the last.
    pub(super) fn after(&self, position: u32) -> u32
        requires { position < length self.now.items }
        ensures { result ≡ next_cursor (length self.now.items) position }
    {
        if position as usize + 1 < self.numbers.len() {
            position + 1
        } else {
            0
        }
    }

    /// Puts a slot at a position, and returns the slot that was there, if there was one.
    pub(super) fn replace(&mut self, position: u32, slot: u32) -> Option<u32>
        requires countable { slot < 2 ^ 32 - 1 }
        requires position { position < length self.old.items }
        ensures was { result ≡ slice_index_or self.old.items position None }
        ensures taken { self.new ≡ written position (Some slot) (accessed self.old) }
    {
        self.accesses.tick();
        let was = self.numbers[position as usize];
        self.accesses.tick();
        self.numbers[position as usize] = slot;
        (was != NO_SLOT).then_some(was)
    }

    /// Frees a position.
    pub(super) fn free(&mut self, position: u32)
        requires { position < length self.old.items }
        ensures { self.new ≡ written position None self.old }
    {
        self.accesses.tick();
        self.numbers[position as usize] = NO_SLOT;
    }

    /// Frees every position.
    pub(super) fn clear(&mut self)
        ensures items { self.new.items ≡ replicate (length self.old.items) None }
        ensures accesses { self.new.accesses ≡ self.old.accesses + length self.old.items }
    {
        let numbers = self.numbers.as_mut_slice();
        let accesses = &mut self.accesses;
        for at in 0..numbers.len() {
            numbers[at] = NO_SLOT;
            accesses.tick();
        }
    }
}
