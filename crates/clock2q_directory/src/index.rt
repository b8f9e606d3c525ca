//! The index of a cache: where each known key is, under the key's hash.
ghost use Rattle.std.specs.Prelude.{◌≡◌, ◌+◌, ◌^◌, ◌<◌, ℕ, true, false, [], Some, None, IfOk, IfSome, is_some, nat_eq};
ghost use Rattle.std.specs.List.{list_any};
ghost use Rattle.clock2q_handles.specs.Homes.{candidates};
ghost use Rattle.clock2q_handles.specs.Layout.{walk};
ghost use Rattle.clock2q_handles.specs.Positions.{gap_of};
ghost use Rattle.clock2q_directory.specs.Index.{emptied, index_for, index_room, is_shared, places, places_among, entered, entered_from, left, looked_up, remembered_at, HasSlotRoom, HasPlaceRoom, HasRoomBeside, IsGapFor, HasSlotUnder, IsWithinCapacity, MaySucceed, forgotten_if};

mod growth;

use crate::handle::Handle;
use crate::history::Retired;
use clock2q_count::Count;
use clock2q_handles::{Candidates, Entry, Gap, Table};
use std::alloc::{AllocError, Allocator, Global};
use std::marker::Model;

/// The most entries with which slots and places share a table. With one more, no run is too long
/// yet.
const MOST_ENTRIES: usize = (1 << 24) - 2;

/// The most entries for which a table gets three times the room.
const SMALL_TABLE: usize = 16_384;

/// The most entries for which a table gets twice the room.
const MIDDLE_TABLE: usize = 262_144;

/// Returns the number of entries to make room for in a table of at most `most`. A small table gets
/// three times the room, which keeps lookups short, and one of medium size twice the room. A large
/// one gets room for one more, since a key that takes another's slot may enter before the other
/// leaves. Such a table is never more than three quarters full.
pub fn index_room(most: usize) -> usize
    requires countable { most < 2 ^ 32 }
    ensures room { result ≡ index_room most }
{
    if most <= SMALL_TABLE {
        most * 3
    } else if most <= MIDDLE_TABLE {
        most * 2
    } else {
        most + 1
    }
}

/// The slot of each resident and the place of each remembered key, under the key's hash.
///
/// Both kinds are in one table, so that one lookup finds whether a key is resident, remembered or
/// neither. If one table would have so many entries that a run could become too long, the places
/// have a table of their own.
///
/// Each call is charged the most slots of both tables that it can read and write, and contracts see
/// the sum. A change is charged the walk of a hash and twice its run, each with the slot of one
/// more entry. All slots that the tables count are within that sum. A lookup borrows the index, so
/// its reads are counted in the [`Candidates`] that it returns. A caller that can change the index
/// charges it the most that these may read.
///
/// # Example
///
/// ```
/// let mut index = Index::new(rt.alloc(), 2, 1)?;
/// index.add_slot(None, 7, 0);
/// index.remember(7, 0, 0);
/// index.add_slot(None, 9, 0);
/// index.forget(Some(7), 0);
/// ```
#[derive(Drop)]
pub struct Index<A: Allocator = Global> {
    shared: Table<u32, A>,
    own: Table<u32, A>,
    charged: Count,
}

impl<A: Allocator> Model for Index<A> {
    ghost use Rattle.clock2q_directory.specs.Index.{IndexState, AreLaidOut, index_code, index_of};

    ghost Value = { IndexState };

    ghost coded = { index_code };

    ghost view = { λ i. index_of i.shared i.own i.charged.total };

    ghost invariant = { λ i. AreLaidOut i.shared i.own i.charged.total };
}

impl<A: Allocator + Copy> Index<A> {
    /// Returns an empty index for up to `slots` residents and `places` remembered keys. It takes
    /// all the memory that it will ever need.
    ///
    /// # Errors
    ///
    /// `AllocError` if a request for memory is refused. Memory taken so far is given back.
    pub fn new(alloc: A, slots: usize, places: usize) -> Result<Self, AllocError>
        requires some { 0 < slots }
        requires slots { slots < 2 ^ 24 }
        requires places { places < 2 ^ 24 }
        ensures made { IfOk result (λ i. i ≡ index_for slots places) }
    {
        let is_shared = slots + places <= MOST_ENTRIES;
        let most = if is_shared { slots + places } else { slots };
        let Ok(shared) = Table::with_capacity(alloc, index_room(most)) else {
            return Err(AllocError);
        };
        let beside = if is_shared { 0 } else { places.max(1) };
        let Ok(own) = Table::with_capacity(alloc, index_room(beside)) else {
            return Err(AllocError);
        };
        Ok(Index {
            shared,
            own,
            charged: Count::new(),
        })
    }
}

impl<A: Allocator> Index<A> {
    /// Returns true if slots and places are in one table.
    #[inline(always)]
    pub fn is_shared(&self) -> bool
        ensures shared { result ≡ is_shared self.now }
    {
        self.own.capacity() == 0
    }

    /// States what holds of every index, for a caller's proof. It does nothing.
    #[inline(always)]
    pub fn facts(&self)
        ensures within { IsWithinCapacity self.now }
    {
        self.shared.facts();
        self.own.facts();
    }

    /// Returns the numbers of the [handles](Handle) under a hash in the table of the slots, which has
    /// no places if they have a table of their own.
    #[inline(always)]
    pub fn handles(&self, hash: u64) -> Candidates<'_, u32>
        ensures handles { result.left ≡ candidates self.now.shared hash }
        ensures apart { is_shared self.now ≡ false → places_among result.left ≡ [] }
        ensures reads { result.reads + result.unread ≡ walk self.now.shared hash }
        ensures end { result.end ≡ Some (gap_of self.now.shared hash) }
    {
        self.shared.get_in_slots(hash)
    }

    /// Returns the places under a hash, given that they have a table of their own.
    pub fn own_places(&self, hash: u64) -> Candidates<'_, u32>
        requires apart { is_shared self.now ≡ false }
        ensures places { result.left ≡ candidates self.now.own hash }
        ensures reads { result.reads + result.unread ≡ walk self.now.own hash }
        ensures end { result.end ≡ Some (gap_of self.now.own hash) }
    {
        self.own.get_in_slots(hash)
    }

    /// Charges one lookup of a hash, which is the most slots of both tables that the handles under
    /// it read. A caller that looks a key up in an index that it may change calls this once.
    pub fn charge_lookup(&mut self, hash: u64)
        ensures looked { self.new ≡ looked_up hash self.old }
    {
        charge(&self.shared, &self.own, &mut self.charged, &hash); // a walk in each
    }

    /// Adds the slot of a key that becomes resident, at the gap for its hash if a lookup found that.
    #[inline(always)]
    pub fn add_slot(&mut self, gap: Option<Gap>, hash: u64, slot: u32)
        requires below { slot < 2 ^ 31 }
        requires room { HasSlotRoom self.old }
        requires gap { IsGapFor gap hash self.old }
        ensures entered { self.new ≡ entered (is_some gap) hash slot self.old }
    {
        let is_found = gap.is_some();
        charge(
            &self.shared,
            &self.own,
            &mut self.charged,
            &(hash, is_found),
        );
        self.shared.insert_at_gap(gap, hash, slot);
    }

    /// Adds the slot of a key that becomes resident in place of another, which leaves.
    #[inline(always)]
    pub fn replace(&mut self, gap: Option<Gap>, hash: u64, slot: u32, old_hash: u64)
        requires held { HasSlotUnder old_hash slot self.old }
        requires gap { IsGapFor gap hash self.old }
        requires room { HasRoomBeside self.old }
        ensures replaced { self.new ≡ entered_from self.old (is_some gap) hash slot (left old_hash slot self.old) }
    {
        let seen = (hash, old_hash, gap.is_some());
        // a table of the slots alone may have no room for one more before another leaves
        let usable = if self.is_shared() { gap } else { None };
        charge(&self.shared, &self.own, &mut self.charged, &seen);
        let entry = Entry { hash, handle: slot };
        let old = Entry {
            hash: old_hash,
            handle: slot,
        };
        self.shared.replace(usable, entry, old);
    }

    /// Adds the slot of a key that becomes resident in place of another, which is remembered at a
    /// place: that of the oldest key, if one is forgotten.
    #[inline(always)]
    pub fn replace_remembering(&mut self, gap: Option<Gap>, hash: u64, slot: u32, retired: Retired)
        requires may { MaySucceed slot retired.hash retired.place retired.oldest self.old }
        requires beside { HasRoomBeside self.old }
        requires room { HasPlaceRoom (forgotten_if retired.oldest retired.place self.old) }
        requires gap { IsGapFor gap hash self.old }
        ensures replaced { self.new ≡ entered_from self.old (is_some gap) hash slot
            (remembered_at retired.hash slot retired.place
            (forgotten_if retired.oldest retired.place self.old)) }
    {
        let entry = Entry { hash, handle: slot };
        if !self.is_shared() {
            self.forget(retired.oldest, retired.place);
            let seen = (hash, retired.hash);
            charge(&self.shared, &self.own, &mut self.charged, &seen);
            let old = Entry {
                hash: retired.hash,
                handle: slot,
            };
            self.shared.replace(None, entry, old);
            self.own.insert_at_gap(None, retired.hash, retired.place);
            return;
        }
        let seen = (hash, retired, gap.is_some());
        charge(&self.shared, &self.own, &mut self.charged, &seen);
        let handle = Handle::Remembered(retired.place).pack();
        match retired.oldest {
            Some(oldest) => {
                let old = Entry {
                    hash: oldest,
                    handle,
                };
                self.shared.replace(gap, entry, old);
                self.shared.replace_handle(retired.hash, slot, handle);
            }
            None => {
                self.shared.insert_at_gap(gap, hash, slot);
                self.shared.replace_handle(retired.hash, slot, handle);
            }
        }
    }

    /// Removes the slot of a resident that leaves.
    #[inline(always)]
    pub fn remove_slot(&mut self, hash: u64, slot: u32)
        requires held { HasSlotUnder hash slot self.old }
        ensures left { self.new ≡ left hash slot self.old }
    {
        charge(&self.shared, &self.own, &mut self.charged, &hash);
        self.shared.remove_existing(hash, slot);
    }

    /// Replaces the slot of a resident that leaves with the place at which it is remembered.
    #[inline(always)]
    pub fn remember(&mut self, hash: u64, slot: u32, place: u32)
        requires held { HasSlotUnder hash slot self.old }
        requires short { place < 2 ^ 31 }
        requires room { HasPlaceRoom self.old }
        ensures remembered { self.new ≡ remembered_at hash slot place self.old }
    {
        let is_shared = self.is_shared();
        charge(&self.shared, &self.own, &mut self.charged, &hash);
        if is_shared {
            let handle = Handle::Remembered(place).pack();
            self.shared.replace_handle(hash, slot, handle);
        } else {
            self.shared.remove_existing(hash, slot);
            self.own.insert_at_gap(None, hash, place);
        }
    }

    /// Removes the place of the key with this hash, which is forgotten. Without a hash nothing changes.
    #[inline(always)]
    pub fn forget(&mut self, hash: Option<u64>, place: u32)
        requires short { place < 2 ^ 31 }
        requires held { IfSome hash (λ hash. list_any (nat_eq place) (candidates (places self.old) hash) ≡ true) }
        ensures forgotten { self.new ≡ forgotten_if hash place self.old }
    {
        let Some(hash) = hash else {
            return;
        };
        let is_shared = self.is_shared();
        charge(&self.shared, &self.own, &mut self.charged, &hash);
        if is_shared {
            let handle = Handle::Remembered(place).pack();
            self.shared.remove_existing(hash, handle);
        } else {
            self.own.remove_existing(hash, place);
        }
    }

    /// Removes every slot and place.
    pub fn clear(&mut self)
        ensures cleared { self.new ≡ emptied self.old }
    {
        charge(&self.shared, &self.own, &mut self.charged, &());
        self.shared.clear();
        self.own.clear();
    }
}

/// Adds a cost chosen by the caller's proof, which may mention what the other arguments refer to.
fn charge<X, A: Allocator>(
    _shared: &Table<u32, A>,
    _own: &Table<u32, A>,
    charged: &mut Count,
    _seen: &X,
)
    ghost more: { ℕ }
    ensures charged { charged.new.total ≡ charged.old.total + more }
{
    charged.raise(&());
}
