//! Insertion of entries into a table.
ghost use Rattle.clock2q_handles.specs.Changes.{PutIn, Inserts, WritesAtMost, ReadsWalk, ReadsAtMost, OnlyReads, Restores, IsLaidOut};
ghost use Rattle.clock2q_handles.specs.Candidates.{EndsAt};
ghost use Rattle.clock2q_handles.specs.Homes.{candidates, total, with_handle};
ghost use Rattle.clock2q_handles.specs.Layout.{run, walk};
ghost use Rattle.clock2q_handles.specs.Offers.{FindsOrPuts, MayBeOffered, Offers, handle_in};
ghost use Rattle.clock2q_handles.specs.TableStep.{IsBelowCapacity};
ghost use Rattle.std.specs.Prelude.{false, ◌≡◌, ◌≢◌, Err, ◌^◌, ◌<◌, ◌≤◌, ◌+◌, IsTrue, IsOk, OnOk, OnErr, IfOk, IfErr, length};

use crate::error::TableError;
use crate::gap::Gap;
use crate::metadata::MAX_DISPLACEMENT;
use crate::table::Table;
use std::alloc::Allocator;

impl<H: Copy + Eq + Default, A: Allocator + Copy> Table<H, A> {
    ghost use Rattle.clock2q_handles.specs.Rehash.{MayRehash, AsksHeld, AfterGrowth};
    ghost use Rattle.clock2q_handles.specs.TableStep.{IsFull};

    /// Inserts `handle` under `hash`, last among the entries of its home. Handles and hashes may
    /// repeat.
    ///
    /// A full table first grows to twice the slots. Then, and only then, it calls `rehash` once on
    /// each held handle, in the order of the slots, for the hash that the handle was inserted
    /// under. `rehash` only needs to be callable on those, in that order.
    ///
    /// # Errors
    ///
    /// - `Memory` if the table is full and there is no memory to grow. The table is unchanged.
    /// - `RunTooLong` if an entry would be more than 2^24 - 2 slots past its home, which takes 2^24
    ///   entries. Nothing is inserted, but a table that was full has grown.
    ///
    /// # Cost
    ///
    /// Below capacity it writes the slots from the new entry's to the end of its run. Growth is
    /// linear in the number of slots.
    #[inline(always)]
    pub fn insert<F: FnMut(H) -> u64>(
        &mut self,
        hash: u64,
        handle: H,
        mut rehash: F,
    ) -> Result<(), TableError>
        requires rehash { IsFull self.old.homes → MayRehash F.FnMut rehash self.old.homes }
        ensures put { result ≢ Err TableError.Memory
            → AfterGrowth F.FnMut rehash self.old.homes
            (λ homes. PutIn homes hash handle result self.new.homes) }
        ensures memory { result ≡ Err TableError.Memory
            → IsFull self.old.homes × (self.new ≡ self.old) }
        ensures few { total self.old.homes + 1 < 2 ^ 24 → result ≢ Err TableError.RunTooLong }
        ensures asks { result ≢ Err TableError.Memory → IsFull self.old.homes
            → (last : F) × AsksHeld F.FnMut rehash self.old.homes last }
        ensures writes { IsBelowCapacity self.old.homes
            → WritesAtMost (run self.old.slots hash + 1) self.old self.new }
        ensures reads { IsBelowCapacity self.old.homes → total self.old.homes + 1 < 2 ^ 24
            → ReadsWalk (walk self.old.homes hash) self.old self.new }
        ensures reads_counted { self.old.reads ≤ self.new.reads }
        ensures restores { IsBelowCapacity self.old.homes
            → OnOk result (Restores H.PartialEq.eq hash handle self.old self.new) }
        ensures laid { IsLaidOut self.new }
        ensures counted { self.old.writes ≤ self.new.writes }
    {
        self.make_room(&mut rehash)?;
        self.insert_within_capacity(hash, handle)
    }

    /// Returns the first candidate of `hash` that `matches` accepts, and false. If it accepts none,
    /// inserts `handle` under `hash` as [insert](Table::insert) does, and returns it and true.
    ///
    /// A full table grows first, whether or not a candidate is accepted. Then `matches` is called
    /// on the candidates in order, up to the first that it accepts.
    ///
    /// # Errors
    ///
    /// Those of [insert](Table::insert). `RunTooLong` is returned only if no candidate was
    /// accepted.
    ///
    /// # Cost
    ///
    /// That of [get](Table::get), and that of [insert](Table::insert) if no candidate is accepted
    /// or the table is full.
    pub fn find_or_insert<M: FnMut(H) -> bool, F: FnMut(H) -> u64>(
        &mut self,
        hash: u64,
        mut matches: M,
        handle: H,
        mut rehash: F,
    ) -> Result<(H, bool), TableError>
        requires rehash { IsFull self.old.homes → MayRehash F.FnMut rehash self.old.homes }
        requires callable { AfterGrowth F.FnMut rehash self.old.homes
            (λ homes. MayBeOffered M.FnMut matches (candidates homes hash)) }
        ensures settles { result ≢ Err TableError.Memory
            → (last : M) × AfterGrowth F.FnMut rehash self.old.homes
            (λ homes. FindsOrPuts M.FnMut matches homes hash handle result self.new.homes last) }
        ensures memory { result ≡ Err TableError.Memory
            → IsFull self.old.homes × (self.new ≡ self.old) }
        ensures few { total self.old.homes + 1 < 2 ^ 24 → result ≢ Err TableError.RunTooLong }
        ensures asks { result ≢ Err TableError.Memory → IsFull self.old.homes
            → (last : F) × AsksHeld F.FnMut rehash self.old.homes last }
        ensures writes { IsBelowCapacity self.old.homes
            → WritesAtMost (run self.old.slots hash + 1) self.old self.new }
        ensures reads { IsBelowCapacity self.old.homes → total self.old.homes + 1 < 2 ^ 24
            → ReadsAtMost (walk self.old.homes hash) self.old self.new }
        ensures reads_counted { self.old.reads ≤ self.new.reads }
        ensures laid { IsLaidOut self.new }
        ensures found { IsBelowCapacity self.old.homes
            → IfOk result
            (λ r. r.1 ≡ false → OnlyReads (walk self.old.homes hash) self.old self.new) }
        ensures counted { self.old.writes ≤ self.new.writes }
        ensures restores { IsBelowCapacity self.old.homes → IfOk result (λ r. IsTrue r.1 → Restores H.PartialEq.eq hash handle self.old self.new) }
    {
        self.make_room(&mut rehash)?;
        self.find_or_put(hash, &mut matches, handle)
    }
}

impl<H: Copy + Eq + Default, A: Allocator> Table<H, A> {
    /// Inserts `handle` under `hash`, last among the entries of its home, in a table that is below
    /// [capacity](Table::capacity). It takes no memory, and asks for no hash of a held handle. A
    /// table from [with_capacity](Table::with_capacity) takes all its entries this way.
    ///
    /// # Errors
    ///
    /// `RunTooLong` if an entry would be more than 2^24 - 2 slots past its home, which takes 2^24
    /// entries. The table is unchanged.
    ///
    /// # Cost
    ///
    /// It writes the slots from the new entry's to the end of its run.
    #[inline(always)]
    #[tactic(auto, using(crate::proofs::layout::TidyLayout::homes_length))]
    pub fn insert_within_capacity(&mut self, hash: u64, handle: H) -> Result<(), TableError>
        requires room { IsBelowCapacity self.old.homes }
        ensures put { PutIn self.old.homes hash handle result self.new.homes }
        ensures refused { OnErr result (self.new ≡ record self.old { reads = self.new.reads }) }
        ensures few { total self.old.homes + 1 < 2 ^ 24 → IsOk result }
        ensures writes { WritesAtMost (run self.old.slots hash + 1) self.old self.new }
        ensures reads { total self.old.homes + 1 < 2 ^ 24
            → ReadsWalk (walk self.old.homes hash) self.old self.new }
        ensures reads_counted { self.old.reads ≤ self.new.reads }
        ensures restores { OnOk result (Restores H.PartialEq.eq hash handle self.old self.new) }
        ensures laid { IsLaidOut self.new }
    {
        let gap = self.slots.gap(hash, &mut self.reads);
        self.insert_at(gap, hash, handle)
    }

    /// Returns the first candidate that is accepted, or inserts the handle if none is.
    fn find_or_put<M: FnMut(H) -> bool>(
        &mut self,
        hash: u64,
        matches: &mut M,
        handle: H,
    ) -> Result<(H, bool), TableError>
        requires room { IsBelowCapacity self.old.homes }
        requires callable { MayBeOffered M.FnMut matches.old (candidates self.old.homes hash) }
        ensures settles { FindsOrPuts M.FnMut matches.old self.old.homes hash handle result
            self.new.homes matches.new }
        ensures found { IfOk result
            (λ r. r.1 ≡ false → OnlyReads (walk self.old.homes hash) self.old self.new) }
        ensures only { result ≢ Err TableError.Memory }
        ensures few { total self.old.homes + 1 < 2 ^ 24 → IsOk result }
        ensures writes { WritesAtMost (run self.old.slots hash + 1) self.old self.new }
        ensures reads { total self.old.homes + 1 < 2 ^ 24
            → ReadsAtMost (walk self.old.homes hash) self.old self.new }
        ensures reads_counted { self.old.reads ≤ self.new.reads }
        ensures restores { IfOk result
            (λ r. IsTrue r.1 → Restores H.PartialEq.eq hash handle self.old self.new) }
        ensures laid { IsLaidOut self.new }
    {
        match self.offer(hash, matches) {
            Ok(found) => Ok((found.0, false)),
            Err(end) => match self.insert_at(end, hash, handle) {
                Ok(()) => Ok((handle, true)),
                Err(refusal) => Err(refusal),
            },
        }
    }

    /// Calls `matches` on the candidates of `hash`, up to the first that it accepts. Returns that
    /// candidate and its slot, or else the gap for the hash.
    #[inline(always)]
    #[tactic(auto, using(crate::proofs::layout::TidyLayout::homes_length, crate::proofs::walks::Yields::left_at_start))]
    fn offer<M: FnMut(H) -> bool>(&mut self, hash: u64, matches: &mut M) -> Result<(H, usize), Gap>
        requires slots { 0 < length self.old.homes }
        requires callable { MayBeOffered M.FnMut matches.old (candidates self.old.homes hash) }
        ensures offers { Offers M.FnMut matches.old (candidates self.old.homes hash)
            (handle_in result) matches.new }
        ensures gap { IfErr result (λ gap. EndsAt self.old.slots hash gap.mark gap.position) }
        ensures read { OnlyReads (walk self.old.homes hash) self.old self.new }
        ensures read_all { IfErr result
            (λ _. self.new.reads ≡ self.old.reads + walk self.old.homes hash) }
        ensures laid { IsLaidOut self.new }
    {
        self.slots.view().offer(hash, matches, &mut self.reads)
    }

    /// Inserts an entry at the gap for its hash, unless a run would be too long.
    #[inline(always)]
    #[tactic(auto, using(crate::proofs::layout::TidyLayout::homes_length, crate::proofs::shifts::Insertions::end_within, crate::proofs::shifts::Calls::end_of))]
    fn insert_at(&mut self, end: Gap, hash: u64, handle: H) -> Result<(), TableError>
        requires room { IsBelowCapacity self.old.homes }
        requires ends { EndsAt self.old.slots hash end.mark end.position }
        ensures { Inserts H.PartialEq.eq hash handle result self.old self.new }
    {
        if self.len > MAX_DISPLACEMENT {
            return self.insert_among_many(end, hash, handle);
        }
        self.slots.put_at(&end, handle, &mut self.reads);
        self.len += 1;
        Ok(())
    }

    /// Inserts an entry at the gap for its hash as [insert_at](Table::insert_at) does, in a table
    /// with so many entries that a run may become too long. It first reads the rest of the run.
    #[inline(never)]
    #[tactic(auto, using(crate::proofs::layout::TidyLayout::homes_length))]
    fn insert_among_many(&mut self, end: Gap, hash: u64, handle: H) -> Result<(), TableError>
        requires room { IsBelowCapacity self.old.homes }
        requires ends { EndsAt self.old.slots hash end.mark end.position }
        requires many { 2 ^ 24 ≤ total self.old.homes + 1 }
        ensures { Inserts H.PartialEq.eq hash handle result self.old self.new }
    {
        let _ = hash;
        if !self.slots.has_room(&end, &mut self.reads) {
            return Err(TableError::RunTooLong);
        }
        self.slots.put_at(&end, handle, &mut self.reads);
        self.len += 1;
        Ok(())
    }
}
