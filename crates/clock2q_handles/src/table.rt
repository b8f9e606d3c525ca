//! A multimap from 64-bit hashes to handles that its caller owns.
ghost use Rattle.clock2q_handles.specs.Homes.{candidates, capacity, total};
ghost use Rattle.clock2q_handles.specs.TableStep.{fit};
ghost use Rattle.std.specs.Prelude.{◌≡◌, ◌≢◌, Some, Err, ◌^◌, ◌<◌, ◌≤◌, ◌↔◌, [], IsTrue, IsOk, IsErrOf, IfOk, length};

mod clearing;
mod growth;
mod infallible;
mod insertion;
mod removal;
mod searching;

use crate::candidates::Candidates;
use crate::error::TableError;
use crate::metadata::Wanted;
use crate::slots::Slots;
use crate::table::growth::slots_for;
use clock2q_count::Count;
use std::alloc::{Allocator, Global};
use std::fmt;
use std::marker::Model;

/// A multimap from 64-bit hashes to handles. The [crate](crate)'s page says what it stores of them,
/// and where.
///
/// # Example
///
/// ```
/// let mut table: Table<usize> = Table::with_capacity(rt.alloc(), 12)?;
/// table.insert(7, 70, |_| 7)?;
/// table.insert(7, 71, |_| 7)?;
/// let mut candidates = table.get(7);
/// assert_eq!(rt; candidates.next(), Some(70));
/// assert_eq!(rt; candidates.next(), Some(71));
/// assert_eq!(rt; candidates.next(), None);
/// assert!(rt; table.remove(7, 70));
/// assert_eq!(rt; table.len(), 1);
/// ```
#[derive(Drop)]
pub struct Table<H: Copy + Eq + Default, A: Allocator = Global> {
    slots: Slots<H, A>,
    reads: Count,
    len: usize,
}

impl<H: Copy + Eq + Default, A: Allocator> Model for Table<H, A> {
    ghost use Rattle.clock2q_handles.specs.Layout.{homes_of};
    ghost use Rattle.clock2q_handles.specs.Table.{IsTable};
    ghost use Rattle.clock2q_handles.specs.TableStep.{TableValue, table_code, table_value};

    ghost Value = { TableValue H };

    ghost coded = { table_code H.code };

    ghost view = { λ t. table_value (homes_of t.slots.slots) t.slots.slots t.slots.writes t.reads.total };

    ghost invariant = { λ t. IsTable t.slots.slots t.len };
}

impl<H: Copy + Eq + Default, A: Allocator + Copy> Table<H, A> {
    ghost use Rattle.clock2q_handles.specs.Layout.{layout};
    ghost use Rattle.clock2q_handles.specs.TableStep.{table_value, made_for};

    /// Returns an empty table with no slots, which takes no memory.
    pub fn new(alloc: A) -> Table<H, A>
        ensures made { result ≡ table_value [] [] 0 0 }
    {
        Table {
            slots: Slots::new(alloc),
            reads: Count::new(),
            len: 0,
        }
    }

    /// Returns an empty table that holds `entries` entries before it grows.
    ///
    /// # Errors
    ///
    /// `Size` if the slots are too many to count, and `Memory` if there is no memory for them.
    ///
    /// # Cost
    ///
    /// Linear in `entries`: every slot is initialized.
    #[tactic(auto, using(crate::proofs::layout::Tables::emptied))]
    pub fn with_capacity(alloc: A, entries: usize) -> Result<Table<H, A>, TableError>
        ensures made { IfOk result
            (λ t. t ≡ table_value (made_for entries) (layout (made_for entries)) 0 0) }
        ensures size { IsErrOf result TableError.Size ↔ ((0 < entries) × (2 ^ 64 ≤ fit entries)) }
        ensures only { result ≢ Err TableError.RunTooLong }
        ensures none { entries ≡ 0 → IsOk result }
    {
        if entries == 0 {
            return Ok(Table::new(alloc));
        }
        let Some(count) = slots_for(entries) else {
            return Err(TableError::Size);
        };
        let Ok(slots) = Slots::with_count(alloc, count) else {
            return Err(TableError::Memory);
        };
        let reads = Count::new();
        let len = 0;
        Ok(Table { slots, reads, len })
    }
}

impl<H: Copy + Eq + Default, A: Allocator> Table<H, A> {
    ghost use Rattle.clock2q_handles.specs.Layout.{walk};
    ghost use Rattle.clock2q_handles.specs.Positions.{gap_of};
    ghost use Rattle.clock2q_handles.specs.Table.{IsWholeTable};

    /// Returns the number of entries.
    #[tactic(auto, using(crate::proofs::layout::TidyLayout::homes_length))]
    pub fn len(&self) -> usize
        ensures len { result ≡ total self.now.homes }
    {
        self.len
    }

    /// States what holds of every table, for a caller's proof. It does nothing.
    #[inline(always)]
    pub fn facts(&self)
        ensures whole { IsWholeTable self.now }
    {
        let _len = self.len; // opens the table, and so brings its invariant into the proof
    }

    /// Returns true if the table has no entry.
    pub fn is_empty(&self) -> bool
        ensures empty { IsTrue result ↔ (total self.now.homes ≡ 0) }
    {
        self.len() == 0
    }

    /// Returns the number of entries that the table holds before it grows: three quarters of its
    /// slots.
    #[tactic(auto, using(crate::proofs::layout::Tables::capacity_quarters, crate::proofs::layout::TidyLayout::homes_length))]
    pub fn capacity(&self) -> usize
        ensures capacity { result ≡ capacity (length self.now.homes) }
    {
        self.slots.count() / 4 * 3
    }

    /// Returns an iterator over the handles whose home and fingerprint are those of `hash`, in the
    /// order of their slots. They are the handles that were inserted under `hash`, and those under
    /// other hashes that agree with it in both.
    ///
    /// # Cost
    ///
    /// The iterator reads slots as it is advanced. Once drained, it has read those from the home of
    /// `hash` to the first that is empty or whose entry is nearer to its own home.
    #[tactic(auto, using(crate::proofs::walks::Cursors::begins_empty, crate::proofs::walks::Yields::left_at_start, crate::proofs::layout::TidyLayout::homes_length))]
    pub fn get(&self, hash: u64) -> Candidates<'_, H>
        ensures candidates { result.left ≡ candidates self.now.homes hash }
        ensures reads { result.reads ≡ 0 }
        ensures unread { result.unread ≡ walk self.now.homes hash }
        ensures handles { result.handles ≡ 0 }
        ensures end { 0 < length self.now.homes → result.end ≡ Some (gap_of self.now.homes hash) }
    {
        if self.slots.count() == 0 {
            return Candidates {
                view: self.slots.view(),
                slot: 0,
                wanted: Wanted::nothing(),
                reads: Count::new(),
                handle_reads: Count::new(),
            };
        }
        self.get_in_slots(hash)
    }

    /// Returns what [`get`](Table::get) does, given that the table has slots. It doesn't test for that.
    #[inline(always)]
    #[tactic(auto, using(crate::proofs::walks::Cursors::lookup_begins, crate::proofs::walks::Yields::left_at_start, crate::proofs::layout::TidyLayout::homes_length))]
    pub fn get_in_slots(&self, hash: u64) -> Candidates<'_, H>
        requires slots { 0 < length self.now.homes }
        ensures candidates { result.left ≡ candidates self.now.homes hash }
        ensures reads { result.reads ≡ 0 }
        ensures unread { result.unread ≡ walk self.now.homes hash }
        ensures handles { result.handles ≡ 0 }
        ensures end { result.end ≡ Some (gap_of self.now.homes hash) }
    {
        let view = self.slots.view();
        Candidates {
            slot: view.home(hash),
            view,
            wanted: Wanted::new(hash),
            reads: Count::new(),
            handle_reads: Count::new(),
        }
    }

    /// Hints that `hash` will be looked up next. It changes nothing, and does nothing yet.
    pub fn prefetch(&self, hash: u64) {
        let _ = hash;
    }
}

impl<H: Copy + Eq + Default, A: Allocator> fmt::Debug for Table<H, A> {
    fn fmt<W: fmt::Write>(&self, f: &mut fmt::Formatter<W>) -> fmt::Result {
        f.debug_struct("Table")
            .field("len", &self.len)
            .field("slots", &self.slots.count())
            .finish()
    }
}
