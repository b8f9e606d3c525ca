//! Growth of a table: its new number of slots, and the rebuild of its entries in them.
ghost use Rattle.clock2q_handles.specs.Changes.{IsLaidOut, IsNearer};
ghost use Rattle.clock2q_handles.specs.Homes.{capacity, total};
ghost use Rattle.clock2q_handles.specs.Rehash.{GivesHashes, MayRehash, AsksHeld, AfterGrowth};
ghost use Rattle.clock2q_handles.specs.Slots.{IsSlotCount};
ghost use Rattle.clock2q_handles.specs.TableStep.{fit, rebuilt, doubled, reserved, IsBelowCapacity, IsFull, IsShortOf, IsPastSize};
ghost use Rattle.std.specs.Prelude.{◌≡◌, ◌≢◌, Err, ◌*◌, ◌^◌, ◌<◌, ◌≤◌, ◌+◌, ◌↔◌, ℕ, IsOk, IsOkUnless, OnOk, OnErr, IfOk, IfSome, MatchOption, length};

use crate::error::TableError;
use crate::slots::Slots;
use crate::table::Table;
use clock2q_count::Count;
use std::alloc::Allocator;

/// The smallest number of slots of a table that has any.
const MIN_SLOTS: usize = 16;

/// Returns the smallest slot count in which `entries` entries fit, if it can be counted.
#[tactic(auto, using(crate::proofs::rebuild::Growth::fit_from_power, crate::proofs::rebuild::Growth::slot_count_from_power, crate::proofs::rebuild::Growth::fit_enough))]
pub(super) fn slots_for(entries: usize) -> Option<usize>
    ensures count { MatchOption result (2 ^ 64 ≤ fit entries) (λ count. count ≡ fit entries) }
    ensures power { IfSome result IsSlotCount }
    ensures enough { IfSome result (λ count. entries ≤ capacity count) }
{
    let quarter = entries.div_ceil(3).checked_next_power_of_two()?;
    let Some(count) = quarter.checked_mul(4) else {
        return None;
    };
    Some(count.max(MIN_SLOTS))
}

impl<H: Copy + Eq + Default, A: Allocator + Copy> Table<H, A> {
    /// Makes room for `additional` more entries, so that inserting them doesn't grow the table.
    ///
    /// If the table has to grow for that, it calls `rehash` once on each held handle, in the order
    /// of the slots, for the hash that the handle was inserted under. `rehash` only needs to be
    /// callable on those, in that order.
    ///
    /// # Errors
    ///
    /// `Size` if the entries or their slots are too many to count, and `Memory` if there is no
    /// memory for the slots. The table is unchanged.
    ///
    /// # Cost
    ///
    /// Constant if there is room already, and otherwise linear in the number of slots.
    pub fn reserve<F: FnMut(H) -> u64>(
        &mut self,
        additional: usize,
        mut rehash: F,
    ) -> Result<(), TableError>
        requires rehash { IsShortOf self.old.homes additional
            → MayRehash F.FnMut rehash self.old.homes }
        ensures reserved { OnOk result
            ((key : H → ℕ)
            → (IsShortOf self.old.homes additional → GivesHashes F.FnMut key self.old.homes rehash)
            → self.new.homes ≡ reserved key self.old.homes additional) }

        // If there is room already, nothing changes.
        ensures kept { total self.old.homes + additional ≤ capacity (length self.old.homes)
            → total self.old.homes + additional < 2 ^ 64 → IsOk result × (self.new ≡ self.old) }
        ensures asks { OnOk result
            (IsShortOf self.old.homes additional
            → (last : F) × AsksHeld F.FnMut rehash self.old.homes last) }
        ensures size { result ≡ Err TableError.Size ↔ IsPastSize self.old.homes additional }
        ensures memory { result ≡ Err TableError.Memory → IsShortOf self.old.homes additional }
        ensures only { result ≢ Err TableError.RunTooLong }
        ensures refused { OnErr result (self.new ≡ self.old) }
        ensures laid { IsLaidOut self.new }
        ensures counted { self.old.writes ≤ self.new.writes }
        ensures reads { self.old.reads ≤ self.new.reads }

        // No home's entries reach further past it than before.
        ensures nearer { IsNearer self.old.homes self.new.homes }
    {
        self.facts();
        let Some(entries) = self.len().checked_add(additional) else {
            return Err(TableError::Size);
        };
        if entries <= self.capacity() {
            return Ok(());
        }
        let Some(count) = slots_for(entries) else {
            return Err(TableError::Size);
        };
        *self = self.rebuilt(count, &mut rehash)?;
        Ok(())
    }

    /// Makes room for one more entry: a full table grows.
    #[inline(always)]
    pub(super) fn make_room<F: FnMut(H) -> u64>(&mut self, rehash: &mut F) -> Result<(), TableError>
        requires rehash { IsFull self.old.homes → MayRehash F.FnMut rehash.old self.old.homes }
        ensures grown { OnOk result
            (AfterGrowth F.FnMut rehash.old self.old.homes (λ homes. self.new.homes ≡ homes)) }
        ensures room { OnOk result (IsBelowCapacity self.new.homes) }
        ensures kept { IsBelowCapacity self.old.homes → IsOk result × (self.new ≡ self.old) }
        ensures asks { OnOk result
            (IsFull self.old.homes → AsksHeld F.FnMut rehash.old self.old.homes rehash.new) }
        ensures quiet { IsBelowCapacity self.old.homes → rehash.new ≡ rehash.old }
        ensures full { OnErr result (IsFull self.old.homes) }
        ensures refused { OnErr result (self.new ≡ self.old) }
        ensures unasked { OnErr result (rehash.new ≡ rehash.old) }
        ensures as_many { total self.new.homes ≡ total self.old.homes }
        ensures only { IsOkUnless result TableError.Memory }
        ensures laid { IsLaidOut self.new }
        ensures counted { self.old.writes ≤ self.new.writes }
        ensures reads { self.old.reads ≤ self.new.reads }
    {
        self.facts();
        if self.len() == self.capacity() {
            return self.grow(rehash);
        }
        Ok(())
    }

    /// Rebuilds a full table in twice its slots, or in `MIN_SLOTS` if that is more.
    #[inline(never)]
    fn grow<F: FnMut(H) -> u64>(&mut self, rehash: &mut F) -> Result<(), TableError>
        requires full { IsFull self.old.homes }
        requires asked { MayRehash F.FnMut rehash.old self.old.homes }
        ensures grown { OnOk result
            ((key : H → ℕ) → GivesHashes F.FnMut key self.old.homes rehash.old
            → self.new.homes ≡ rebuilt key (doubled (length self.old.homes)) self.old.homes) }
        ensures room { OnOk result (IsBelowCapacity self.new.homes) }
        ensures asks { OnOk result (AsksHeld F.FnMut rehash.old self.old.homes rehash.new) }
        ensures refused { OnErr result (self.new ≡ self.old) }
        ensures unasked { OnErr result (rehash.new ≡ rehash.old) }
        ensures as_many { total self.new.homes ≡ total self.old.homes }
        ensures only { IsOkUnless result TableError.Memory }
        ensures laid { IsLaidOut self.new }
        ensures counted { self.old.writes ≤ self.new.writes }
        ensures reads { self.old.reads ≤ self.new.reads }
    {
        let count = (self.slots.count() * 2).max(MIN_SLOTS);
        *self = self.rebuilt(count, rehash)?;
        Ok(())
    }

    /// Returns a table of the same entries in `count` slots, each under the hash that `rehash`
    /// returns for its handle.
    #[tactic(auto, using(crate::proofs::Attributes::rebuilding, crate::proofs::Attributes::laid_out))]
    fn rebuilt<F: FnMut(H) -> u64>(
        &self,
        count: usize,
        rehash: &mut F,
    ) -> Result<Table<H, A>, TableError>
        requires count { IsSlotCount count }
        requires fits { total self.now.homes ≤ capacity count }
        requires multiple { 0 < length self.now.homes
            → (k : ℕ) × (count ≡ k * length self.now.homes) }
        requires asked { MayRehash F.FnMut rehash.old self.now.homes }
        ensures made { IfOk result
            (λ t. (key : H → ℕ) → GivesHashes F.FnMut key self.now.homes rehash.old
            → t.homes ≡ rebuilt key count self.now.homes) }
        ensures asks { OnOk result (AsksHeld F.FnMut rehash.old self.now.homes rehash.new) }
        ensures unasked { OnErr result (rehash.new ≡ rehash.old) }
        ensures laid { IfOk result IsLaidOut }
        ensures counted { IfOk result (λ t. self.now.writes ≤ t.writes) }
        ensures reads { IfOk result (λ t. self.now.reads ≤ t.reads) }
        ensures only { IsOkUnless result TableError.Memory }
    {
        let Ok(mut slots) = Slots::with_count(self.slots.allocator(), count) else {
            return Err(TableError::Memory);
        };
        let mut reads = Count::new();
        reads.raise(&self.reads);
        slots.put_all(&self.slots, rehash, &mut reads);
        slots.take_over_writes(&self.slots);
        Ok(Table {
            slots,
            reads,
            len: self.len,
        })
    }
}
