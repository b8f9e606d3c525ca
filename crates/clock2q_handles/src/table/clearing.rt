//! Emptying a table.
ghost use Rattle.std.specs.Prelude.{◌≡◌, ◌+◌, length};
ghost use Rattle.clock2q_handles.specs.Changes.{IsLaidOut};
ghost use Rattle.clock2q_handles.specs.Homes.{no_entries};

use crate::table::Table;
use std::alloc::Allocator;

impl<H: Copy + Eq + Default, A: Allocator> Table<H, A> {
    /// Removes every entry. The table keeps its memory and its capacity.
    ///
    /// # Cost
    ///
    /// One counted write per slot. It writes the metadata alone, which the code shows and no clause
    /// states.
    #[tactic(auto, using(crate::proofs::layout::TidyLayout::homes_length, crate::proofs::layout::Tables::emptied))]
    pub fn clear(&mut self)
        ensures cleared { self.new.homes ≡ no_entries (length self.old.homes) }
        ensures writes { self.new.writes ≡ self.old.writes + length self.old.slots }
        ensures reads { self.new.reads ≡ self.old.reads }
        ensures laid { IsLaidOut self.new }
    {
        self.slots.clear();
        self.len = 0;
    }
}
