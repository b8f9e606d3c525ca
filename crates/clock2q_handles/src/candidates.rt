//! The handles that a lookup yields.
ghost use Rattle.clock2q_handles.specs.Candidates.{left_at, unread_at, IsLookup};
ghost use Rattle.clock2q_handles.specs.Layout.{slot_at};
ghost use Rattle.clock2q_handles.specs.Slots.{sought, mark_of};
ghost use Rattle.std.specs.Prelude.{◌≡◌, ◌+◌, ◌<◌, [], IsSome, length};

use crate::gap::Gap;
use crate::metadata::Wanted;
use crate::slots::View;
use clock2q_count::Count;
use std::marker::Model;

/// An iterator over the candidates of a hash, in the order of their slots. It reads one word of
/// metadata for each slot that it visits, and a handle only for each candidate.
///
/// # Example
///
/// ```
/// let mut candidates = table.get(hash_of(key));
/// while let Some(number) = candidates.next() {
///     if keys[number] == key {
///         return Some(number);
///     }
/// }
/// ```
#[derive(Drop)]
pub struct Candidates<'a, H: Copy + Eq + Default> {
    pub(super) view: View<'a, H>,
    pub(super) slot: usize,
    pub(super) wanted: Wanted,
    pub(super) reads: Count,
    pub(super) handle_reads: Count,
}

impl<'a, H: Copy + Eq + Default> Model for Candidates<'a, H> {
    ghost use Rattle.clock2q_handles.specs.Candidates.{CandidatesValue, candidates_code, candidates_value, left_at, unread_at, peeked_at, end_at, IsLookup};
    ghost use Rattle.clock2q_handles.specs.Slots.{sought};

    ghost Value = { CandidatesValue H };

    ghost coded = { candidates_code H.code };

    ghost view = { λ c. candidates_value (left_at c.view (sought c.wanted) c.slot) c.reads.total (unread_at c.view (sought c.wanted) c.slot) c.handle_reads.total (peeked_at c.view (sought c.wanted) c.slot) (end_at c.view (sought c.wanted) c.slot) };

    ghost invariant = { λ c. IsLookup c.view (sought c.wanted) c.slot };
}

impl<'a, H: Copy + Eq + Default> Candidates<'a, H> {
    ghost use Rattle.std.specs.Prelude.{ℕ, ◌≤◌, Some, true, drop, slice_get, IfSome, IfNone, IfOk, IfErr};

    /// Returns the next candidate and stays at it until [`advance`](Candidates::advance) or
    /// [`next`](Iterator::next) moves on. It is for callers that mostly accept the first candidate,
    /// since what comes after it is computed only if it is passed.
    #[inline(always)]
    pub fn peek(&mut self) -> Option<H>
        ensures candidate { result ≡ slice_get self.old.left 0 }
        ensures left { self.new.left ≡ self.old.left }
        ensures end { IfSome result (λ _. self.new.end ≡ self.old.end) }
        ensures peeked { IfSome result (λ _. self.new.peeked ≡ true) }
        ensures reads { self.old.reads ≤ self.new.reads }
        ensures within { self.new.reads ≤ self.old.reads + self.old.unread }
        ensures again { IfSome result
            (λ _. self.new.reads + self.new.unread ≡ self.old.reads + self.old.unread + 1) }
        ensures read_all { IfNone result
            ((self.new.reads ≡ self.old.reads + self.old.unread) × (self.new.unread ≡ 0)) }
        ensures handle { IfSome result (λ _. self.new.handles ≡ self.old.handles + 1) }
        ensures no_handle { IfNone result (self.new.handles ≡ self.old.handles) }
    {
        if self.wanted.is_nothing() {
            return None;
        }
        let Ok(handle) = self.peek_or_gap() else {
            self.wanted = Wanted::nothing();
            return None;
        };
        Some(handle)
    }

    /// Returns the next candidate and stays at it, as [`peek`](Candidates::peek) does, or else the
    /// gap where an entry of the hash would be inserted.
    #[inline(always)]
    pub fn peek_or_gap(&mut self) -> Result<H, Gap>
        requires walking { IsSome self.old.end }
        ensures candidate { IfOk result (λ h. slice_get self.old.left 0 ≡ Some h) }
        ensures none { IfErr result (λ _. self.old.left ≡ []) }
        ensures gap { IfErr result (λ gap. self.old.end ≡ Some gap) }
        ensures left { self.new.left ≡ self.old.left }
        ensures end { self.new.end ≡ self.old.end }
        ensures peeked { IfOk result (λ _. self.new.peeked ≡ true) }
        ensures reads { self.old.reads ≤ self.new.reads }
        ensures within { self.new.reads ≤ self.old.reads + self.old.unread }
        ensures again { IfOk result
            (λ _. self.new.reads + self.new.unread ≡ self.old.reads + self.old.unread + 1) }
        ensures read_all { IfErr result
            (λ _. (self.new.reads ≡ self.old.reads + self.old.unread)
            × (self.new.unread ≡ self.old.unread)) }
        ensures handle { IfOk result (λ _. self.new.handles ≡ self.old.handles + 1) }
        ensures no_handle { IfErr result (λ _. self.new.handles ≡ self.old.handles) }
    {
        let found = self.view.candidate(self.slot, self.wanted, &mut self.reads);
        match found {
            Err(gap) => Err(gap),
            Ok((slot, wanted)) => {
                self.slot = slot;
                self.wanted = wanted;
                Ok(self.view.handle(slot, &mut self.handle_reads))
            }
        }
    }

    /// Moves past the candidate that [`peek`](Candidates::peek) is at. It reads no slot.
    #[inline(always)]
    #[tactic(auto, using(crate::proofs::walks::Cursors::standing, crate::proofs::walks::Cursors::passed_on))]
    pub fn advance(&mut self)
        requires peeked { self.old.peeked ≡ true }
        ensures some { 0 < length self.old.left }
        ensures left { self.new.left ≡ drop 1 self.old.left }
        ensures end { self.new.end ≡ self.old.end }
        ensures reads { self.new.reads ≡ self.old.reads }
        ensures unread { self.new.unread + 1 ≡ self.old.unread }
        ensures handles { self.new.handles ≡ self.old.handles }
    {
        self.slot = self.view.after(self.slot);
        self.wanted = self.wanted.next();
    }
}

impl<'a, H: Copy + Default> View<'a, H> {
    ghost use Rattle.clock2q_handles.specs.Candidates.{IsWalkFor, EndsAt, IsAcceptedAt, left_from, unread_from};
    ghost use Rattle.clock2q_handles.specs.Layout.{reach, IsTidy, AreNear};
    ghost use Rattle.clock2q_handles.specs.Offers.{Offers, MayBeOffered, handle_in};
    ghost use Rattle.std.specs.Prelude.{ℕ, ◌≤◌, IfOk, IfErr};

    /// Advances a walk to its next candidate, and returns the candidate's slot with what the walk
    /// looks for there, or else the gap where the walk ends.
    #[inline(always)]
    #[tactic(auto, using(crate::proofs::shifts::Moves::reach_of_meaning, crate::proofs::walks::Cursors::goes_on))]
    fn candidate(
        &self,
        mut slot: usize,
        mut wanted: Wanted,
        reads: &mut Count,
    ) -> Result<(usize, Wanted), Gap>
        requires lookup { IsLookup self.now (sought wanted) slot }
        requires some { IsSome (sought wanted) }
        ensures lookup { IfOk result (λ next. IsLookup self.now (sought next.1) next.0) }
        ensures within { IfOk result (λ next. next.0 < length self.now) }
        ensures some { IfOk result (λ next. IsSome (sought next.1)) }
        ensures found { IfOk result
            (λ next. mark_of (slot_at self.now next.0) ≡ sought next.1) }
        ensures left { IfOk result
            (λ next. left_at self.now (sought wanted) slot
            ≡ left_at self.now (sought next.1) next.0) }
        ensures read { IfOk result
            (λ next. reads.new.total + unread_at self.now (sought next.1) next.0
            ≡ reads.old.total + unread_at self.now (sought wanted) slot + 1) }
        ensures reads { reads.old.total < reads.new.total }
        ensures none { IfErr result (λ _. left_at self.now (sought wanted) slot ≡ []) }
        ensures read_all { IfErr result
            (λ _. reads.new.total ≡ reads.old.total + unread_at self.now (sought wanted) slot) }
        ensures walks { (x : ℕ) → IsWalkFor self.now x (sought wanted) slot
            → IfOk result (λ next. IsWalkFor self.now x (sought next.1) next.0) }
        ensures ends { (x : ℕ) → IsWalkFor self.now x (sought wanted) slot
            → IfErr result (λ gap. EndsAt self.now x gap.mark gap.position) }
    {
        loop {
            let metadata = self.read(slot, reads);
            if metadata.is(wanted) {
                return Ok((slot, wanted));
            }
            if metadata.ends_walk_for(wanted) {
                return Err(Gap { slot, wanted });
            }
            slot = self.after(slot);
            wanted = wanted.next();
        }
    }

    /// Calls `matches` on the candidates of `hash`, up to the first that it accepts. Returns that
    /// candidate and its slot, or else where the walk ends.
    #[inline(always)]
    pub(super) fn offer<F: FnMut(H) -> bool>(
        &self,
        hash: u64,
        matches: &mut F,
        reads: &mut Count,
    ) -> Result<(H, usize), Gap>
        requires tidy { IsTidy self.now }
        requires near { AreNear self.now }
        requires some { 0 < length self.now }
        requires callable { MayBeOffered F.FnMut matches.old (left_from self.now hash 0) }
        ensures offers { Offers F.FnMut matches.old (left_from self.now hash 0)
            (handle_in result) matches.new }
        ensures at { IfOk result
            (λ found. IsAcceptedAt F.FnMut matches.old self.now hash found.0 found.1) }
        ensures ends { IfErr result (λ gap. EndsAt self.now hash gap.mark gap.position) }
        ensures reads { reads.old.total < reads.new.total }
        ensures read { reads.new.total ≤ reads.old.total + unread_from self.now hash 0 }
        ensures read_all { IfErr result
            (λ _. reads.new.total ≡ reads.old.total + unread_from self.now hash 0) }
    {
        let mut slot = self.home(hash);
        let mut wanted = Wanted::new(hash);
        loop {
            match self.candidate(slot, wanted, reads) {
                Err(gap) => return Err(gap),
                Ok((here, found)) => {
                    let handle = self.handle(here, &mut Count::new());
                    if matches(handle) {
                        return Ok((handle, here));
                    }
                    slot = self.after(here);
                    wanted = found.next();
                }
            }
        }
    }
}

impl<'a, H: Copy + Eq + Default> Iterator for Candidates<'a, H> {
    type Item = H;

    ghost use Rattle.clock2q_handles.specs.Candidates.{YieldsCandidate};
    ghost use Rattle.std.specs.Iterator.{item_count};

    ghost next_gives = { YieldsCandidate };

    ghost remaining = { item_count (λ c. c.left) };

    #[inline(always)]
    #[tactic(auto, using(crate::proofs::walks::Yields::none_is, crate::proofs::walks::Yields::first_is, crate::proofs::walks::Yields::yields_progress))]
    fn next(&mut self) -> Option<H> {
        let Some(handle) = self.peek() else {
            return None;
        };
        self.advance();
        Some(handle)
    }
}
