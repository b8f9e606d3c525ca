//! Removal of entries from a table.
ghost use Rattle.clock2q_handles.specs.Changes.{WritesAtMost, ReadsAtMost, OnlyReads, IsLaidOut};
ghost use Rattle.clock2q_handles.specs.Homes.{listed, without_handle, is_entry_of};
ghost use Rattle.clock2q_handles.specs.Layout.{run, walk};
ghost use Rattle.std.specs.Bool.{OnFalse};
ghost use Rattle.std.specs.List.{list_any};
ghost use Rattle.std.specs.Prelude.{true, ◌≡◌, ◌≤◌, ◌+◌, ℕ};

use crate::table::Table;
use std::alloc::Allocator;

impl<H: Copy + Eq + Default, A: Allocator> Table<H, A> {
    /// Removes the first candidate of `hash` that equals `handle`, and returns true if there was
    /// one. The entries after it move back by one slot, up to an empty slot or an entry at its
    /// home. The table keeps its memory.
    ///
    /// # Cost
    ///
    /// It reads the walk to the entry. It writes the slots from the removed entry's to that of the
    /// last entry that moves back, and reads as many more.
    #[tactic(auto, using(crate::proofs::shifts::Taking::found_occupied, crate::proofs::shifts::Steps::home_lists, crate::proofs::Attributes::laid_out, crate::proofs::Attributes::absent))]
    pub fn remove(&mut self, hash: u64, handle: H) -> bool
        ensures removed { self.new.homes ≡ without_handle H.PartialEq.eq self.old.homes hash handle }
        ensures found { result ≡ list_any (is_entry_of H.PartialEq.eq hash handle)
            (listed self.old.homes hash) }
        ensures none { OnFalse result (OnlyReads (walk self.old.homes hash) self.old self.new) }
        ensures writes { WritesAtMost (run self.old.slots hash) self.old self.new }
        ensures reads { ReadsAtMost (walk self.old.homes hash) self.old self.new }
        ensures laid { IsLaidOut self.new }
        ensures shorter { (x : ℕ) → walk self.new.homes x ≤ walk self.old.homes x }
    {
        let Some(found) = self.slots.find(hash, handle, &mut self.reads) else {
            return false;
        };
        self.slots.take_out(found, &mut self.reads);
        self.len -= 1;
        true
    }
}
