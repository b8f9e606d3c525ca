//! A larger index, with the slots and places of another.
ghost use Rattle.std.specs.Prelude.{◌≡◌, ◌+◌, ◌^◌, ◌<◌, ◌≤◌, [], IfOk, length, nat_eq};
ghost use Rattle.std.specs.List.{list_any};
ghost use Rattle.clock2q_handles.specs.Homes.{candidates, capacity, total};
ghost use Rattle.clock2q_directory.specs.Index.{beside, places, slots};
ghost use Rattle.clock2q_directory.specs.Indexes.{IsIndex};
ghost use Rattle.clock2q_directory.specs.Growth.{place_entered, AddsPlaces, AddsSlots, HasRoomForPlace, Outgrows};

use crate::handle::Handle;
use crate::index::{Index, charge};
use crate::keys::Keys;
use clock2q_handles::Candidates;
use std::alloc::{AllocError, Allocator};

impl<A: Allocator + Copy> Index<A> {
    /// Returns an index for up to `slots` residents and `places` remembered keys, with every slot
    /// and place that this one has, under the hashes of `keys`: the residents' and the remembered
    /// ones. It takes all the memory that it will ever need, and is charged what this one was as
    /// well.
    ///
    /// # Errors
    ///
    /// `AllocError` if a request for memory is refused. Memory taken so far is given back.
    ///
    /// # Cost
    ///
    /// Linear in `slots` and `places` if hashes are well spread.
    pub(crate) fn grown<K, V>(
        &self,
        alloc: A,
        slots: usize,
        places: usize,
        keys: (&Keys<K, V, A>, &Keys<K, (), A>),
    ) -> Result<Self, AllocError>
        requires some { 0 < slots }
        requires slots { slots < 2 ^ 24 }
        requires places { places < 2 ^ 24 }
        requires residents { length keys.0.now.entries ≤ slots }
        requires remembered { length keys.1.now.entries ≤ places }
        ensures grown { IfOk result
            (Outgrows slots places keys.entry.0.now.entries keys.entry.1.now.entries self.now) }
    {
        let (residents, remembered) = keys;
        let mut index = Index::new(alloc, slots, places)?;
        index.charge_as(self);
        add_places(&mut index, self, remembered);
        add_slots(&mut index, self, residents);
        Ok(index)
    }
}

impl<A: Allocator> Index<A> {
    /// Adds the place of a key that is remembered.
    fn add_place(&mut self, hash: u64, place: u32)
        requires short { place < 2 ^ 31 }
        requires room { HasRoomForPlace self.old }
        ensures entered { self.new ≡ place_entered hash place self.old }
    {
        let is_shared = self.is_shared();
        charge(&self.shared, &self.own, &mut self.charged, &hash);
        if is_shared {
            let handle = Handle::Remembered(place).pack();
            self.shared.insert_at_gap(None, hash, handle);
        } else {
            self.own.insert_at_gap(None, hash, place);
        }
    }

    /// Returns true if this slot is under the hash. What it reads isn't charged.
    fn has_slot(&self, hash: u64, slot: u32) -> bool
        requires below { slot < 2 ^ 31 }
        ensures has { result ≡ list_any (nat_eq slot) (candidates (slots self.now) hash) }
    {
        is_among(self.handles(hash), slot)
    }

    /// Returns true if this place is under the hash. What it reads isn't charged.
    fn has_place(&self, hash: u64, place: u32) -> bool
        requires short { place < 2 ^ 31 }
        ensures has { result ≡ list_any (nat_eq place) (candidates (places self.now) hash) }
    {
        if self.is_shared() {
            let handle = Handle::Remembered(place).pack();
            return is_among(self.handles(hash), handle);
        }
        is_among(self.own_places(hash), place)
    }

    /// Charges what another index was charged.
    fn charge_as(&mut self, other: &Index<A>)
        ensures charged { self.new ≡
            record self.old { accesses = self.old.accesses + other.now.accesses } }
    {
        self.charged.raise(&other.charged);
    }
}

/// Returns true if a handle is among those that a lookup yields.
fn is_among(mut handles: Candidates<'_, u32>, handle: u32) -> bool
    ensures among { result ≡ list_any (nat_eq handle) handles.entry.left }
{
    while let Some(other) = handles.next() {
        if handle == other {
            return true;
        }
    }
    false
}

/// Adds the place of each key that another index has at its place.
fn add_places<K, V, A: Allocator>(index: &mut Index<A>, from: &Index<A>, keys: &Keys<K, V, A>)
    requires empty { IsIndex (places index.old) keys.now.entries [] }
    requires alone { total (slots index.old) ≡ 0 }
    requires room { length keys.now.entries ≤ capacity (length (places index.old)) }
    requires few { length keys.now.entries < 2 ^ 24 }
    ensures added { AddsPlaces keys.now.entries from.now index.old index.new }
{
    for place in 0..keys.len() as u32 {
        let hash = keys.hash(place);
        if from.has_place(hash, place) {
            index.add_place(hash, place);
        }
    }
}

/// Adds the slot of each key that another index has at its slot.
fn add_slots<K, V, A: Allocator>(index: &mut Index<A>, from: &Index<A>, keys: &Keys<K, V, A>)
    requires empty { IsIndex (slots index.old) keys.now.entries [] }
    requires room { length keys.now.entries + beside index.old ≤
        capacity (length (slots index.old)) }
    requires few { length keys.now.entries + beside index.old < 2 ^ 24 }
    ensures added { AddsSlots keys.now.entries from.now index.old index.new }
{
    for slot in 0..keys.len() as u32 {
        let hash = keys.hash(slot);
        if from.has_slot(hash, slot) {
            index.add_slot(None, hash, slot);
        }
    }
}
