//! What is known of a slot without its record: whether it is in a queue, and its hit bit.
ghost use Rattle.std.specs.Prelude.{◌≡◌, ◌+◌, ◌-◌, ◌<◌, ◌≤◌, ◌++◌, true, IfOk, length, replicate, slice_index_or, slice_set};
ghost use Rattle.clock2q_queues.specs.Cells.{accessed};
ghost use Rattle.clock2q_queues.specs.Flags.{flag_state, is_set, says_linked};
ghost use Rattle.clock2q_queues.specs.Links.{made_below, record_at};
ghost use Rattle.clock2q_queues.specs.Ring.{ring_state};

use crate::entries::{Entry, Location};
use crate::ring::Ring;
use clock2q_count::Count;
use std::alloc::{AllocError, Allocator, Global};
use std::marker::Model;

/// Whether a slot is in a queue, as its record says too, and its hit bit. A slot in no queue has a
/// clear bit.
#[derive(Clone, Copy)]
pub(super) enum Flag {
    /// In neither queue.
    Free,
    /// In a queue, with a clear bit.
    Clear,
    /// In a queue, with a set bit.
    Hit,
}

/// The flag of each slot. Only the first ones are made: any other slot is free.
#[derive(Drop)]
pub(super) struct Flags<A: Allocator = Global> {
    flags: Vec<Flag, A>,
    slots: u32,
}

impl<A: Allocator> Model for Flags<A> {
    ghost use Rattle.std.specs.Prelude.{◌≤◌, length, vec_capacity};
    ghost use Rattle.clock2q_queues.specs.Flags.{FlagState, all_flags, flag_state};

    ghost Value = { FlagState };

    ghost view = { λ f. flag_state (all_flags f.flags.items f.slots) (length f.flags.items) };

    ghost invariant = { λ f. (length f.flags.items ≤ f.slots) × (f.slots ≤ vec_capacity f.flags) };
}

impl<A: Allocator> Flags<A> {
    /// Returns the flags of `slots` free slots. It takes all the memory that they will ever need.
    pub(super) fn new(alloc: A, slots: u32) -> Result<Self, AllocError>
        ensures { IfOk result (λ f. f ≡ flag_state (replicate slots Flag.Free) 0) }
    {
        Ok(Flags {
            flags: Vec::with_capacity(alloc, slots as usize)?,
            slots,
        })
    }

    /// Returns the flags of `slots` slots: those of these, and free slots. It takes all the memory that
    /// they will ever need.
    pub(super) fn grown(&self, alloc: A, slots: u32) -> Result<Self, AllocError>
        requires { length self.now.items ≤ slots }
        ensures { IfOk result (λ f. f ≡ flag_state
            (self.now.items ++ replicate (slots - length self.now.items) Flag.Free) self.now.made) }
    {
        let mut flags = Vec::with_capacity(alloc, slots as usize)?;
        flags.extend_from_slice(&self.flags)?;
        Ok(Flags { flags, slots })
    }

    /// Returns the entry of a slot that is in a queue, and true if its hit bit is set. The ring counts both
    /// as one access.
    pub(super) fn look(&self, slot: u32, ring: &mut Ring<Location, A>) -> (Entry<Location>, bool)
        requires linked { says_linked (slice_index_or self.now.items slot Flag.Free) ≡ true }
        requires made { slot < ring.old.made }
        ensures entry { result.0 ≡ record_at ring.old.cells.items slot }
        ensures bit { result.1 ≡ is_set (slice_index_or self.now.items slot Flag.Free) }
        ensures counted { ring.new ≡ ring_state (accessed ring.old.cells) ring.old.made }
    {
        let entry = ring.read(slot);
        (entry, matches!(self.flags[slot as usize], Flag::Hit))
    }

    /// Clears the bit of a slot that is in a queue, and returns true if it was set. The look is counted.
    pub(super) fn inspect(&mut self, slot: u32, looks: &mut Count) -> bool
        requires { says_linked (slice_index_or self.old.items slot Flag.Free) ≡ true }
        ensures value { result ≡ is_set (slice_index_or self.old.items slot Flag.Free) }
        ensures flags { self.new.items ≡ slice_set self.old.items slot Flag.Clear }
        ensures made { self.new.made ≡ self.old.made }
        ensures counted { looks.new.total ≡ looks.old.total + 1 }
    {
        looks.tick();
        let was = self.flags[slot as usize];
        self.flags[slot as usize] = Flag::Clear;
        matches!(was, Flag::Hit)
    }

    /// Returns true if a slot is in a queue. It doesn't say whether the slot's bit is set.
    pub(super) fn says_linked(&self, slot: usize) -> bool
        ensures { result ≡ says_linked (slice_index_or self.now.items slot Flag.Free) }
    {
        match self.flags.get(slot) {
            Some(flag) => !matches!(flag, Flag::Free),
            None => false,
        }
    }

    /// Writes the flag of a slot that is in a queue.
    pub(super) fn set(&mut self, slot: u32, flag: Flag)
        requires { says_linked (slice_index_or self.old.items slot Flag.Free) ≡ true }
        ensures flags { self.new.items ≡ slice_set self.old.items slot flag }
        ensures made { self.new.made ≡ self.old.made }
    {
        self.flags[slot as usize] = flag;
    }

    /// Writes the flag of a slot that was made, or makes that of the next slot.
    #[inline(always)]
    pub(super) fn write(&mut self, slot: u32, flag: Flag)
        requires slot_in { slot < length self.old.items }
        requires next { slot ≤ self.old.made }
        ensures flags { self.new.items ≡ slice_set self.old.items slot flag }
        ensures made { self.new.made ≡ made_below (slot + 1) self.old.made }
    {
        if (slot as usize) < self.flags.len() {
            self.flags[slot as usize] = flag;
        } else {
            self.flags.push_reserved(flag);
        }
    }

    /// Makes the flags of the slots below a bound that have none yet.
    pub(super) fn make_below(&mut self, bound: u32)
        requires { bound ≤ length self.old.items }
        ensures { self.new ≡ flag_state self.old.items (made_below bound self.old.made) }
    {
        while self.flags.len() < bound as usize {
            self.flags.push_reserved(Flag::Free);
        }
    }

    /// Makes every slot free.
    pub(super) fn clear(&mut self)
        ensures { self.new ≡ flag_state (replicate (length self.old.items) Flag.Free) 0 }
    {
        self.flags.clear();
    }
}
