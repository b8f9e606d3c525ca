//! A table's slots: walks along them, and entries put into them.
ghost use Rattle.clock2q_handles.specs.Candidates.{EndsAt};
ghost use Rattle.clock2q_handles.specs.Found.{FindsAt};
ghost use Rattle.clock2q_handles.specs.Homes.{is_entry_of, listed};
ghost use Rattle.clock2q_handles.specs.Changes.{RisesAtMost};
ghost use Rattle.clock2q_handles.specs.Layout.{IsTidy, homes_of, reach, slot_at, walk, AreNear};
ghost use Rattle.clock2q_handles.specs.Moves.{MayMove, Moves};
ghost use Rattle.clock2q_handles.specs.Shifts.{HasRoomAt, LacksRoomAt};
ghost use Rattle.clock2q_handles.specs.Slots.{mark_reach};
ghost use Rattle.std.specs.Bool.{OnTrue, OnFalse};
ghost use Rattle.std.specs.List.{list_any};
ghost use Rattle.std.specs.Prelude.{true, false, ◌≡◌, ◌+◌, ◌%◌, ◌^◌, ◌<◌, ◌≤◌, IfSome, IfNone, length};

mod vectors;

use crate::gap::Gap;
use crate::metadata::Wanted;
use clock2q_count::Count;
use std::alloc::Allocator;
pub(super) use vectors::{Slots, View};

impl<H: Copy + Default, A: Allocator> Slots<H, A> {
    /// Returns where a walk for `hash` ends.
    #[inline(always)]
    #[tactic(auto, using(crate::proofs::shifts::Carrying::looks_room, crate::proofs::shifts::Carrying::walks_begin, crate::proofs::shifts::Moves::reach_of_meaning))]
    pub(super) fn gap(&self, hash: u64, reads: &mut Count) -> Gap
        requires tidy { IsTidy self.now.slots }
        requires near { AreNear self.now.slots }
        requires some { 0 < length self.now.slots }
        ensures ends { EndsAt self.now.slots hash result.mark result.position }
        ensures reads { reads.new.total ≡ reads.old.total + mark_reach result.mark }
    {
        let view = self.view();
        let mut slot = view.home(hash);
        let mut wanted = Wanted::new(hash);
        while !view.read(slot, reads).ends_walk_for(wanted) {
            slot = view.after(slot);
            wanted = wanted.next();
        }
        Gap { slot, wanted }
    }

    /// Returns true if an entry can be inserted at the gap: neither it nor an entry that has to
    /// move on for it ends up too far past its home.
    #[tactic(auto, using(crate::proofs::shifts::Moves::refused, crate::proofs::shifts::Carrying::pass_begins, crate::proofs::shifts::Carrying::pass_slot))]
    pub(super) fn has_room(&self, gap: &Gap, reads: &mut Count) -> bool
        requires tidy { IsTidy self.now.slots }
        requires within { gap.now.position < length self.now.slots }
        ensures room { OnTrue result (HasRoomAt self.now.slots gap.now.mark gap.now.position) }
        ensures far { OnFalse result (LacksRoomAt self.now.slots gap.now.mark gap.now.position) }
        ensures counted { reads.old.total ≤ reads.new.total }
    {
        if !gap.wanted.is_near() {
            return false;
        }
        let view = self.view();
        let mut slot = gap.slot;
        loop {
            let metadata = view.read(slot, reads);
            if metadata.is_empty() {
                return true;
            }
            if !metadata.can_move_on() {
                return false;
            }
            slot = view.after(slot);
        }
    }

    /// Returns the slot of the first candidate of `hash` that equals `handle`.
    #[inline(always)]
    #[tactic(auto, using(crate::proofs::shifts::Carrying::looks_room, crate::proofs::Attributes::absent))]
    pub(super) fn find(&self, hash: u64, handle: H, reads: &mut Count) -> Option<usize>
    where
        H: PartialEq,
        requires tidy { IsTidy self.now.slots }
        requires near { AreNear self.now.slots }
        ensures found { IfSome result
            (FindsAt (is_entry_of H.PartialEq.eq hash handle) self.now.slots
            (hash % length self.now.slots)) }
        ensures none { IfNone result
            (list_any (is_entry_of H.PartialEq.eq hash handle)
            (listed (homes_of self.now.slots) (hash % length self.now.slots)) ≡ false) }
        ensures reads { RisesAtMost (walk (homes_of self.now.slots) hash) reads.old.total
            reads.new.total }
    {
        if self.count() == 0 {
            return None;
        }
        let view = self.view();
        let mut slot = view.home(hash);
        let mut wanted = Wanted::new(hash);
        loop {
            let metadata = view.read(slot, reads);
            if metadata.is(wanted) && view.handle(slot, &mut Count::new()) == handle {
                return Some(slot);
            }
            if metadata.ends_walk_for(wanted) {
                return None;
            }
            slot = view.after(slot);
            wanted = wanted.next();
        }
    }

    /// Returns the slot of the first candidate of `hash` that equals `handle`, given that there is
    /// one.
    #[inline(always)]
    #[tactic(auto, using(crate::proofs::walks::Finding::held_somewhere, crate::proofs::walks::Finding::held_further))]
    pub(super) fn find_existing(&self, hash: u64, handle: H, reads: &mut Count) -> usize
    where
        H: PartialEq,
        requires tidy { IsTidy self.now.slots }
        requires near { AreNear self.now.slots }
        requires held { list_any (is_entry_of H.PartialEq.eq hash handle)
            (listed (homes_of self.now.slots) (hash % length self.now.slots)) ≡ true }
        ensures found { FindsAt (is_entry_of H.PartialEq.eq hash handle) self.now.slots
            (hash % length self.now.slots) result }
        ensures reads { RisesAtMost (walk (homes_of self.now.slots) hash) reads.old.total
            reads.new.total }
        ensures reached { reads.new.total ≡ reads.old.total + reach (slot_at self.now.slots result) }
    {
        let view = self.view();
        let mut slot = view.home(hash);
        let mut wanted = Wanted::new(hash);
        loop {
            let metadata = view.read(slot, reads);
            if metadata.is(wanted) && view.handle(slot, &mut Count::new()) == handle {
                return slot;
            }
            slot = view.after(slot);
            wanted = wanted.next();
        }
    }

    /// Inserts each entry of other slots, in the order of those slots, under the hash that `rehash`
    /// returns for its handle.
    #[tactic(auto, using(crate::proofs::shifts::Carrying::come_slot))]
    pub(super) fn put_all<F: FnMut(H) -> u64>(
        &mut self,
        old: &Slots<H, A>,
        rehash: &mut F,
        reads: &mut Count,
    )
        requires movable { MayMove F.FnMut rehash.old old.now.slots self.old.slots }
        ensures moved { Moves F.FnMut rehash.old rehash.new old.now.slots self.old.slots
            self.new.slots }
        ensures counted { reads.old.total ≤ reads.new.total }
    {
        let view = old.view();
        for slot in 0..old.count() {
            if view.read(slot, reads).is_empty() {
                continue;
            }
            let handle = view.handle(slot, &mut Count::new());
            let hash = rehash(handle);
            let gap = self.gap(hash, reads);
            self.put_at(&gap, handle, reads);
        }
    }
}
