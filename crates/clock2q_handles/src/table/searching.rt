//! Searches for candidates and their positions.
ghost use Rattle.clock2q_handles.specs.Homes.{top, candidates, candidates_before};
ghost use Rattle.clock2q_handles.specs.Offers.{Offers, AcceptsNext, MayBeOffered, handle_in};
ghost use Rattle.clock2q_handles.specs.Positions.{IsEntryAt, gap_of};
ghost use Rattle.std.specs.Prelude.{◌≡◌, ◌==◌, if◌then◌else◌, ℕ, Some, None, IfOk, IfErr, length};

use crate::gap::Gap;
use crate::table::Table;
use clock2q_count::Count;
use std::alloc::Allocator;

impl<H: Copy + Eq + Default, A: Allocator> Table<H, A> {
    /// Returns the first candidate of `hash` that `matches` accepts, with its position, which is
    /// its slot: among equal handles, the slot of the one that was accepted. If it accepts none,
    /// returns the gap where an entry of `hash` would be inserted, unless the table has no slots.
    ///
    /// A position stays valid until an entry is inserted or removed, or the table grows.
    ///
    /// # Cost
    ///
    /// That of [get](Table::get).
    #[inline(always)]
    #[tactic(auto, using(crate::proofs::layout::TidyLayout::homes_length, crate::proofs::walks::Yields::left_at_start))]
    pub fn search<M: FnMut(H) -> bool>(
        &self,
        hash: u64,
        mut matches: M,
    ) -> Result<(H, usize), Option<Gap>>
        requires callable { MayBeOffered M.FnMut matches (candidates self.now.homes hash) }
        ensures offers { (last : M) × Offers M.FnMut matches (candidates self.now.homes hash)
            (handle_in result) last }
        ensures found { IfOk result
            (λ found. (i : ℕ) × IsEntryAt self.now.homes hash i (top hash, found.0) found.1
            × AcceptsNext M.FnMut matches (candidates_before self.now.homes hash i) found.0) }
        ensures gap { IfErr result
            (λ gap. gap ≡ (if length self.now.homes == 0 then None else Some (gap_of self.now.homes hash))) }
    {
        if self.slots.count() == 0 {
            return Err(None);
        }
        let mut reads = Count::new();
        match self.slots.view().offer(hash, &mut matches, &mut reads) {
            Ok(found) => Ok(found),
            Err(gap) => Err(Some(gap)),
        }
    }
}
