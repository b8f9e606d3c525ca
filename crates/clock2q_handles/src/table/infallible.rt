//! Changes that can't fail, since the caller knows that there is room, or that the entry is there.
ghost use Rattle.clock2q_handles.specs.Changes.{ChangesAtMost, IsLaidOut, ReadsAtMost, ReadsWalk, Restores, RisesAtMost, WritesAtMost};
ghost use Rattle.clock2q_handles.specs.Homes.{is_entry_of, listed, without_handle, total, with_handle};
ghost use Rattle.clock2q_handles.specs.Layout.{run, walk};
ghost use Rattle.clock2q_handles.specs.Positions.{gap_of, handle_replaced, walk_to_gap};
ghost use Rattle.clock2q_handles.specs.TableStep.{HasSpare, IsBelowCapacity};
ghost use Rattle.std.specs.List.{list_any};
ghost use Rattle.std.specs.Prelude.{true, ◌≡◌, ℕ, ◌+◌, ◌^◌, ◌<◌, ◌≤◌, IfSome, IsSome};

use crate::entry::Entry;
use crate::gap::Gap;
use crate::table::Table;
use std::alloc::Allocator;

impl<H: Copy + Eq + Default, A: Allocator> Table<H, A> {
    /// Inserts `handle` under `hash` as [insert_within_capacity](Table::insert_within_capacity)
    /// does, in a table with so few entries that no run becomes too long. It is for callers whose
    /// contracts bound the number of entries, which it doesn't check.
    #[inline(always)]
    pub fn insert_infallible(&mut self, hash: u64, handle: H)
        requires room { IsBelowCapacity self.old.homes }
        requires few { total self.old.homes + 1 < 2 ^ 24 }
        ensures put { self.new.homes ≡ with_handle self.old.homes hash handle }
        ensures writes { WritesAtMost (run self.old.slots hash + 1) self.old self.new }
        ensures reads { ReadsWalk (walk self.old.homes hash) self.old self.new }
        ensures restores { Restores H.PartialEq.eq hash handle self.old self.new }
        ensures laid { IsLaidOut self.new }
    {
        self.insert_at_gap(None, hash, handle);
    }

    /// Inserts `handle` under `hash` as [`insert_infallible`](Table::insert_infallible) does, at the
    /// gap for it if a lookup found that.
    ///
    /// # Cost
    ///
    /// That of [`insert_infallible`](Table::insert_infallible), without the walk if there is a gap.
    #[inline(always)]
    #[tactic(auto, using(crate::proofs::layout::TidyLayout::homes_length))]
    pub fn insert_at_gap(&mut self, gap: Option<Gap>, hash: u64, handle: H)
        requires spare { HasSpare self.old.homes }
        requires gap { IfSome gap (λ gap. gap ≡ gap_of self.old.homes hash) }
        ensures put { self.new.homes ≡ with_handle self.old.homes hash handle }
        ensures writes { WritesAtMost (run self.old.slots hash + 1) self.old self.new }
        ensures reads { ReadsWalk (walk_to_gap gap self.old.homes hash) self.old self.new }
        ensures restores { Restores H.PartialEq.eq hash handle self.old self.new }
        ensures laid { IsLaidOut self.new }
    {
        let gap = match gap {
            Some(gap) => gap,
            None => self.slots.gap(hash, &mut self.reads),
        };
        self.slots.put_at(&gap, handle, &mut self.reads);
        self.len += 1;
    }

    /// Removes the first candidate of `hash` that equals `handle`, as [remove](Table::remove) does,
    /// given that there is one. Its walk doesn't test for an end.
    ///
    /// # Cost
    ///
    /// That of [remove](Table::remove).
    #[inline(never)]
    #[tactic(auto, using(crate::proofs::shifts::Steps::home_lists))]
    pub fn remove_existing(&mut self, hash: u64, handle: H)
        requires held { list_any (is_entry_of H.PartialEq.eq hash handle)
            (listed self.old.homes hash) ≡ true }
        ensures removed { self.new.homes ≡ without_handle H.PartialEq.eq self.old.homes hash handle }
        ensures writes { WritesAtMost (run self.old.slots hash) self.old self.new }
        ensures reads { ReadsAtMost (walk self.old.homes hash) self.old self.new }
        ensures laid { IsLaidOut self.new }
        ensures shorter { (x : ℕ) → walk self.new.homes x ≤ walk self.old.homes x }
    {
        // It is out of line, so that a caller that removes one entry to insert another spills fewer
        // registers.
        let held = self.slots.find_existing(hash, handle, &mut self.reads);
        self.slots.take_out(held, &mut self.reads);
        self.len -= 1;
    }

    /// Inserts `entry`, at the gap for its hash if a lookup found that, and removes the first candidate
    /// of the old entry's hash that equals its handle, given that there is one. At a gap it inserts
    /// first, and so it takes one only if the table has room for that time. Otherwise it removes
    /// first, and the table may be full.
    ///
    /// # Cost
    ///
    /// It writes the slots from the new entry's to the end of its run, and those from the removed
    /// entry's to that of the last entry that moves back. Without a gap it also takes the walk of the
    /// hash.
    #[inline(always)]
    #[tactic(auto, using(crate::proofs::Attributes::replacing))]
    pub fn replace(&mut self, gap: Option<Gap>, entry: Entry<H>, old: Entry<H>)
        requires few { total self.old.homes < 2 ^ 24 }
        requires gap { IfSome gap (λ gap. gap ≡ gap_of self.old.homes entry.hash) }
        requires spare { IsSome gap → HasSpare self.old.homes }
        requires held { list_any (is_entry_of H.PartialEq.eq old.hash old.handle)
            (listed self.old.homes old.hash) ≡ true }
        ensures replaced { self.new.homes
            ≡ with_handle (without_handle H.PartialEq.eq self.old.homes old.hash old.handle)
            entry.hash entry.handle }
        ensures accesses { ChangesAtMost gap entry.hash old.hash self.old self.new }
        ensures longer { (x : ℕ) → walk self.new.homes x ≤ walk self.old.homes x + 1 }
        ensures laid { IsLaidOut self.new }
    {
        let Some(gap) = gap else {
            self.facts();
            self.remove_existing(old.hash, old.handle);
            return self.insert_at_gap(None, entry.hash, entry.handle);
        };
        self.slots.put_at(&gap, entry.handle, &mut self.reads);
        let held = self
            .slots
            .find_existing(old.hash, old.handle, &mut self.reads);
        self.slots.take_out(held, &mut self.reads);
    }

    /// Replaces the handle of the first candidate of `hash` that equals `handle` by `new`, given
    /// that there is one. The entry's hash doesn't change, and every entry stays where it is.
    ///
    /// # Cost
    ///
    /// The walk to the entry, and one write of a slot.
    #[inline(always)]
    #[tactic(auto, using(crate::proofs::shifts::Steps::home_lists, std::proofs::lemmas::Nat::mod_below, crate::proofs::Attributes::laid_out))]
    pub fn replace_handle(&mut self, hash: u64, handle: H, new: H)
        requires held { list_any (is_entry_of H.PartialEq.eq hash handle)
            (listed self.old.homes hash) ≡ true }
        ensures handle_replaced { self.new.homes ≡ handle_replaced H.PartialEq.eq self.old.homes hash handle
            new }
        ensures gaps { (x : ℕ) → gap_of self.new.homes x ≡ gap_of self.old.homes x }
        ensures writes { self.new.writes ≡ self.old.writes + 1 }
        ensures reads { RisesAtMost (walk self.old.homes hash) self.old.reads self.new.reads }
        ensures laid { IsLaidOut self.new }
    {
        let slot = self.slots.find_existing(hash, handle, &mut self.reads);
        self.slots.replace_handle_at(slot, new);
    }
}
