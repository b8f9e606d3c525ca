//! The two vectors of a table's slots. Only this module reaches them. It counts each write of a slot,
//! and each read of its metadata.
ghost use Rattle.clock2q_handles.specs.Found.{TakesOutAt};
ghost use Rattle.clock2q_handles.specs.Layout.{IsTidy, slot_at, reach};
ghost use Rattle.clock2q_handles.specs.Shifts.{HasRoomAt, PutsAt};
ghost use Rattle.clock2q_handles.specs.Slots.{cell, meaning, IsSlotCount};
ghost use Rattle.std.specs.Prelude.{◌≡◌, ◌+◌, ◌%◌, ◌^◌, ◌<◌, ◌≤◌, [], None, IfOk, IfSome, length, replicate, set};

use crate::gap::Gap;
use crate::metadata::Metadata;
use clock2q_count::Count;
use std::alloc::{AllocError, Allocator};
use std::marker::Model;

/// The slots: a power of two of them, or none, the number of slots minus one, and the number of
/// writes to them.
#[derive(Drop)]
pub(crate) struct Slots<H, A: Allocator> {
    metadata: Vec<Metadata, A>,
    handles: Vec<H, A>,
    mask: usize,
    writes: Count,
}

impl<H, A: Allocator> Model for Slots<H, A> {
    ghost use Rattle.clock2q_handles.specs.Slots.{SlotsValue, slots_code, slots_value, cells, AreMasked};

    ghost Value = { SlotsValue H };

    ghost coded = { slots_code H.code };

    ghost view = { λ s. slots_value (cells s.metadata.items s.handles.items) s.writes.total };

    ghost invariant = { λ s. AreMasked s.metadata.items s.handles.items s.mask };
}

impl<H: Copy + Default, A: Allocator> Slots<H, A> {
    ghost use Rattle.clock2q_handles.specs.Slots.{slots_value, mark_of};

    /// Returns no slots, without allocating.
    pub(crate) fn new(alloc: A) -> Slots<H, A>
    where
        A: Copy,
        ensures { result ≡ slots_value [] 0 }
    {
        Slots {
            metadata: Vec::new(alloc),
            handles: Vec::new(alloc),
            mask: 0,
            writes: Count::new(),
        }
    }

    /// Returns `count` empty slots.
    #[tactic(auto, using(crate::proofs::shifts::Cells::filled_cells))]
    pub(crate) fn with_count(alloc: A, count: usize) -> Result<Slots<H, A>, AllocError>
    where
        A: Copy,
        requires { IsSlotCount count }
        ensures { IfOk result (λ s. s ≡ slots_value (replicate count None) 0) }
    {
        let mut metadata = Vec::with_capacity(alloc, count)?;
        let mut handles = Vec::with_capacity(alloc, count)?;
        metadata.resize(count, Metadata::EMPTY)?;
        handles.resize(count, H::default())?;
        Ok(Slots {
            metadata,
            handles,
            mask: count.wrapping_sub(1),
            writes: Count::new(),
        })
    }

    pub(crate) fn allocator(&self) -> A
    where
        A: Copy,
    {
        *self.metadata.allocator()
    }

    /// Adds the writes counted for the slots that these replace.
    pub(crate) fn take_over_writes(&mut self, replaced: &Slots<H, A>)
        ensures counted { self.new
            ≡ slots_value self.old.slots (self.old.writes + replaced.now.writes) }
    {
        self.writes.raise(&replaced.writes);
    }

    /// Returns both vectors to read.
    #[inline(always)]
    #[tactic(auto, using(crate::proofs::shifts::Cells::counted_cells, crate::proofs::shifts::Wrapping::cells_along))]
    pub(crate) fn view(&self) -> View<'_, H>
        ensures { result ≡ self.now.slots }
    {
        View {
            metadata: self.metadata.as_slice(),
            handles: self.handles.as_slice(),
            mask: self.mask,
        }
    }

    /// Returns the number of slots.
    #[tactic(auto, using(crate::proofs::shifts::Cells::counted_cells))]
    pub(crate) fn count(&self) -> usize
        ensures count { result ≡ length self.now.slots }
        ensures power { IsSlotCount (length self.now.slots) }
        ensures small { length self.now.slots < 2 ^ 63 }
    {
        self.metadata.len()
    }

    /// Writes the handle of a slot.
    #[inline(always)]
    #[tactic(auto, using(crate::proofs::shifts::Cells::counted_cells, crate::proofs::shifts::Cells::handle_replaced_cells))]
    pub(crate) fn replace_handle_at(&mut self, slot: usize, handle: H)
        requires { slot < length self.old.slots }
        ensures { self.new
            ≡ slots_value
            (set self.old.slots slot (cell (mark_of (slot_at self.old.slots slot)) handle))
            (self.old.writes + 1) }
    {
        self.handles[slot] = handle;
        self.writes.tick();
    }

    /// Inserts an entry at a gap. The rest of the run moves on by one slot, and each slot that is
    /// written is read.
    #[inline(always)]
    #[tactic(auto, using(crate::proofs::shifts::Cells::counted_cells, crate::proofs::shifts::Wrapping::cells_along, crate::proofs::shifts::Carrying::carry_begins, crate::proofs::shifts::Cells::mark_read_or, crate::proofs::shifts::Carrying::carry_slot, crate::proofs::shifts::Cells::kept_whole, crate::proofs::shifts::Cells::written_cells))]
    pub(crate) fn put_at(&mut self, gap: &Gap, handle: H, reads: &mut Count)
        requires tidy { IsTidy self.old.slots }
        requires within { gap.now.position < length self.old.slots }
        requires room { HasRoomAt self.old.slots gap.now.mark gap.now.position }
        ensures puts { PutsAt self.old.slots self.new.slots gap.now.mark gap.now.position handle
            self.old.writes self.new.writes }
        ensures counted { reads.old.total ≤ reads.new.total }
        ensures reads { reads.new.total + self.old.writes ≡ reads.old.total + self.new.writes }
        ensures small { length self.old.slots < 2 ^ 63 }
    {
        let metadata = self.metadata.as_mut_slice();
        let handles = self.handles.as_mut_slice();
        let writes = &mut self.writes;
        let mask = self.mask;
        let mut slot = gap.slot;
        let mut word = gap.wanted.metadata();
        let mut handle = handle;
        reads.tick();
        let mut there = metadata[slot];
        while !there.is_empty() {
            let held = handles[slot];
            metadata[slot] = word;
            handles[slot] = handle;
            writes.tick();
            word = there.one_further();
            handle = held;
            slot = after(slot, mask);
            reads.tick();
            there = metadata[slot];
        }
        metadata[slot] = word;
        handles[slot] = handle;
        writes.tick();
    }

    /// Removes the entry in a slot. The entries after it move back by one slot, up to an empty slot
    /// or an entry at its home. It reads as many slots as it writes. The handle of the slot that is
    /// left empty stays in memory, but no lookup reaches it.
    #[inline(always)]
    #[tactic(auto, using(crate::proofs::shifts::Cells::counted_cells, crate::proofs::shifts::Wrapping::cells_along, crate::proofs::shifts::Carrying::close_begins, crate::proofs::shifts::Carrying::close_slot, crate::proofs::shifts::Cells::kept_whole, crate::proofs::shifts::Cells::written_cells))]
    pub(crate) fn take_out(&mut self, slot: usize, reads: &mut Count)
        requires tidy { IsTidy self.old.slots }
        requires within { slot < length self.old.slots }
        requires occupied { 0 < reach (slot_at self.old.slots slot) }
        ensures taken { TakesOutAt self.old.slots self.new.slots slot self.old.writes
            self.new.writes }
        ensures reads { reads.new.total + self.old.writes ≡ reads.old.total + self.new.writes }
    {
        let metadata = self.metadata.as_mut_slice();
        let handles = self.handles.as_mut_slice();
        let writes = &mut self.writes;
        let mask = self.mask;
        let mut hole = slot;
        loop {
            let next = after(hole, mask);
            reads.tick();
            let word = metadata[next];
            if !word.can_move_back() {
                break;
            }
            let handle = handles[next];
            metadata[hole] = word.one_nearer();
            handles[hole] = handle;
            writes.tick();
            hole = next;
        }
        metadata[hole] = Metadata::EMPTY;
        writes.tick();
    }

    /// Empties every slot. The handles stay in memory, but no lookup reaches them.
    pub(crate) fn clear(&mut self)
        ensures { self.new ≡ slots_value (replicate (length self.old.slots) None)
            (self.old.writes + length self.old.slots) }
    {
        fill(
            self.metadata.as_mut_slice(),
            Metadata::EMPTY,
            &mut self.writes,
        );
    }
}

/// Both vectors of a table's slots, and the number of slots minus one. Walks only reach the vectors
/// through [read](View::read) and [handle](View::handle), which count each read.
#[derive(Drop)]
pub(crate) struct View<'a, H> {
    metadata: &'a [Metadata],
    handles: &'a [H],
    mask: usize,
}

impl<'a, H> Model for View<'a, H> {
    ghost use Rattle.clock2q_handles.specs.Slots.{cells, slot_list, slot_list_code, IsView};

    ghost Value = { slot_list H };

    ghost coded = { slot_list_code H.code };

    ghost view = { λ v. cells v.metadata.now v.handles.now };

    ghost invariant = { λ v. IsView v.metadata.now v.handles.now v.mask };
}

impl<'a, H: Copy + Default> View<'a, H> {
    ghost use Rattle.clock2q_handles.specs.Slots.{meaning, mark_of};

    /// Returns the home slot of a hash, if there are slots.
    #[tactic(auto, using(crate::proofs::shifts::Cells::masked, crate::proofs::shifts::Cells::masked_within))]
    pub(crate) fn home(&self, hash: u64) -> usize
        ensures home { 0 < length self.now → result ≡ hash % length self.now }
        ensures within { 0 < length self.now → result < length self.now }
    {
        hash as usize & self.mask
    }

    /// Returns the slot after `slot`: slot 0 after the last.
    #[tactic(auto, using(crate::proofs::shifts::Cells::masked, crate::proofs::shifts::Cells::masked_within, crate::proofs::shifts::Cells::counted_cells))]
    pub(crate) fn after(&self, slot: usize) -> usize
        requires { slot < length self.now }
        ensures after { result ≡ (slot + 1) % length self.now }
        ensures within { result < length self.now }
    {
        let mask = self.mask;
        (slot + 1) & mask
    }

    /// Reads the metadata of a slot, and counts the read.
    #[tactic(auto, using(crate::proofs::shifts::Cells::counted_cells, crate::proofs::shifts::Cells::mark_read_or))]
    pub(crate) fn read(&self, slot: usize, reads: &mut Count) -> Metadata
        requires { slot < length self.now }
        ensures meaning { meaning result ≡ mark_of (slot_at self.now slot) }
        ensures counted { reads.new.total ≡ reads.old.total + 1 }
    {
        reads.tick();
        let metadata = self.metadata;
        metadata[slot]
    }

    /// Reads the handle of an entry that was found, and counts the read.
    #[tactic(auto, using(crate::proofs::shifts::Cells::counted_cells, crate::proofs::shifts::Cells::handle_read_at))]
    pub(crate) fn handle(&self, slot: usize, reads: &mut Count) -> H
        requires { slot < length self.now }
        ensures handle { IfSome (slot_at self.now slot) (λ p. result ≡ p.entry.1) }
        ensures counted { reads.new.total ≡ reads.old.total + 1 }
    {
        reads.tick();
        let handles = self.handles;
        handles[slot]
    }
}

/// Returns the slot after `slot`, of `mask + 1` slots: slot 0 after the last.
#[tactic(auto, using(crate::proofs::shifts::Cells::slot_mask, std::proofs::lemmas::Nat::mod_below))]
fn after(slot: usize, mask: usize) -> usize
    requires count { IsSlotCount (mask + 1) }
    requires small { mask + 1 < 2 ^ 64 }
    requires within { slot < mask + 1 }
    ensures after { result ≡ (slot + 1) % (mask + 1) }
    ensures within { result < mask + 1 }
{
    (slot + 1) & mask
}

/// Writes the same word to each slot, and counts the slots as written.
fn fill(metadata: &mut [Metadata], word: Metadata, writes: &mut Count)
    ensures filled { metadata.new ≡ replicate (length metadata.old) word }
    ensures counted { writes.new.total ≡ writes.old.total + length metadata.old }
{
    for at in 0..metadata.len() {
        metadata[at] = word;
        writes.tick();
    }
}
