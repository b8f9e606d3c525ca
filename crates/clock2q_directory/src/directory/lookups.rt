//! Where a key is: lookups of residents and of remembered keys.
ghost use Rattle.std.specs.Prelude.{◌≡◌, ◌+◌, ◌<◌, None, Some, length, map, slice_get, IfSome, IsSome};
ghost use Rattle.std.specs.List.{filter, find, AllByRecursion};
ghost use Rattle.clock2q_handles.specs.Homes.{candidates};
ghost use Rattle.clock2q_queues.specs.Cells.{Rises};
ghost use Rattle.clock2q_directory.specs.Keys.{is_key_at, comparisons_of};
ghost use Rattle.clock2q_directory.specs.Hashed.{has_hash};
ghost use Rattle.clock2q_directory.specs.Indexes.{HasHash};
ghost use Rattle.clock2q_directory.specs.Index.{slots, places, slots_among, places_among, IsGapFor};
ghost use Rattle.clock2q_directory.specs.History.{place_of, places_looked_up, found_slot, found_place, found_gap, first_known};

use crate::directory::Directory;
use crate::handle::{Found, Handle};
use crate::keys::Keys;
use clock2q_count::Count;
use clock2q_handles::Candidates;
use std::alloc::Allocator;

impl<K: Eq, V, A: Allocator> Directory<K, V, A> {
    /// Looks a key up among the residents and the remembered keys. The index is charged one lookup.
    #[inline(always)]
    pub fn lookup(&mut self, hash: u64, key: &K) -> Found
        requires hash { HasHash K.eq hash key.now self.old.history.entries }
        requires made { AllByRecursion (λ slot. slot < length self.old.residents.entries)
            (candidates (slots self.old.history.places.index) hash) }
        ensures slot { IfSome (found_slot result)
            (λ slot. find (is_key_at K.eq key.now self.old.residents.entries)
            (candidates (slots self.old.history.places.index) hash) ≡ Some slot) }
        ensures place { found_slot result ≡ None →
            found_place result ≡
            place_of (K.eq key.now)
            (map (λ e. e.1) self.old.history.entries) self.old.history.places.taken }
        ensures absent { found_slot result ≡ None → found_place result ≡ None →
            find (is_key_at K.eq key.now self.old.residents.entries)
            (candidates (slots self.old.history.places.index) hash) ≡ None }
        ensures gap { IsGapFor (found_gap result) hash self.old.history.places.index }
        ensures ended { found_slot result ≡ None → found_place result ≡ None →
            IsSome (found_gap result) }
        ensures residents { self.new.residents ≡
            record self.old.residents { comparisons = self.new.residents.comparisons } }
        ensures kept { self.new.history ≡
            record self.old.history {
              places = places_looked_up hash self.old.history.places;
              comparisons = self.new.history.comparisons;
            } }
        ensures compared { Rises 0
            (length (candidates
            (slots self.old.history.places.index) hash)) self.old.residents.comparisons self.new.residents.comparisons }
        ensures comparisons { Rises 0
            (length (candidates
            (places self.old.history.places.index) hash)) self.old.history.comparisons self.new.history.comparisons }
    {
        self.index.charge_lookup(hash); // once for both kinds
        let found = look_among(
            self.index.handles(hash),
            key,
            &mut self.residents,
            &mut self.history.keys,
        );
        match found {
            // checked late, since most keys are found in the table of the slots
            Found::Absent(gap) if !self.index.is_shared() => {
                match self.history.keys.find(self.index.own_places(hash), key) {
                    Some(place) => Found::Remembered(place),
                    None => Found::Absent(gap),
                }
            }
            found => found,
        }
    }

    /// Returns the slot of a resident key, and counts each comparison. Places are skipped. The index
    /// is charged one lookup.
    pub fn find_resident(&mut self, hash: u64, key: &K) -> Option<u32>
        requires made { AllByRecursion (λ slot. slot < length self.old.residents.entries)
            (candidates (slots self.old.history.places.index) hash) }
        ensures slot { result ≡
            find (is_key_at K.eq key.now self.old.residents.entries)
            (candidates (slots self.old.history.places.index) hash) }
        ensures counted { self.new.residents ≡
            record self.old.residents {
              comparisons = self.old.residents.comparisons +
                  comparisons_of (is_key_at K.eq key.now self.old.residents.entries)
                  (candidates (slots self.old.history.places.index) hash);
            } }
        ensures kept { self.new.history ≡
            record self.old.history { places = places_looked_up hash self.old.history.places } }
    {
        let found = self.residents.find(self.index.handles(hash), key);
        self.index.charge_lookup(hash);
        found
    }

    /// Returns the place of a remembered key, and counts each comparison. Slots are skipped. The
    /// index is charged one lookup.
    pub fn find_remembered(&mut self, hash: u64, key: &K) -> Option<u32>
        requires hash { HasHash K.eq hash key.now self.old.history.entries }
        ensures place { result ≡
            place_of (K.eq key.now)
            (map (λ e. e.1) self.old.history.entries) self.old.history.places.taken }
        ensures kept { self.new.history ≡
            record self.old.history {
              places = places_looked_up hash self.old.history.places;
              comparisons = self.new.history.comparisons;
            } }
        ensures residents { self.new.residents ≡ self.old.residents }
        ensures comparisons { Rises 0
            (length (candidates
            (places self.old.history.places.index) hash)) self.old.history.comparisons self.new.history.comparisons }
    {
        self.index.charge_lookup(hash);
        if self.index.is_shared() {
            let handles = self.index.handles(hash);
            return self.history.keys.find_remembered(handles, key);
        }
        self.history.keys.find(self.index.own_places(hash), key)
    }

    /// Returns the slot of a resident key. It counts no comparison, and charges the index nothing.
    pub fn slot_of(&self, hash: u64, key: &K) -> Option<u32>
        requires made { AllByRecursion (λ slot. slot < length self.now.residents.entries)
            (candidates (slots self.now.history.places.index) hash) }
        ensures slot { result ≡
            find (is_key_at K.eq key.now self.now.residents.entries)
            (candidates (slots self.now.history.places.index) hash) }
    {
        let mut compared = Count::new();
        self.residents
            .find_counting_in(self.index.handles(hash), key, &mut compared)
    }

    /// Returns the slot that comes after `nth` others among those of the residents whose keys have
    /// this hash. It compares no key.
    pub fn slot_with_hash(&self, hash: u64, nth: usize) -> Option<u32>
        requires made { AllByRecursion (λ slot. slot < length self.now.residents.entries)
            (candidates (slots self.now.history.places.index) hash) }
        ensures slot { result ≡
            slice_get (filter (has_hash self.now.residents.entries hash)
            (candidates (slots self.now.history.places.index) hash)) nth }
    {
        self.residents
            .with_hash(self.index.handles(hash), hash, nth)
    }
}

/// Returns the first of `handles` that has `key`, as a resident or as a remembered key, or else the
/// gap where they end.
#[inline(always)]
fn look_among<K: Eq, V, A: Allocator>(
    mut handles: Candidates<'_, u32>,
    key: &K,
    residents: &mut Keys<K, V, A>,
    remembered: &mut Keys<K, (), A>,
) -> Found
    requires walking { IsSome handles.end }
    requires slots { AllByRecursion (λ slot. slot < length residents.old.entries)
        (slots_among handles.left) }
    requires places { AllByRecursion (λ place. place < length remembered.old.entries)
        (places_among handles.left) }
    ensures found { result ≡
        first_known (is_key_at K.eq key.now residents.old.entries)
        (is_key_at K.eq key.now remembered.old.entries) handles.entry.end handles.entry.left }
    ensures residents { residents.new ≡
        record residents.old { comparisons = residents.new.comparisons } }
    ensures remembered { remembered.new ≡
        record remembered.old { comparisons = remembered.new.comparisons } }
    ensures compared { Rises 0
        (length (slots_among handles.entry.left)) residents.old.comparisons residents.new.comparisons }
    ensures comparisons { Rises 0
        (length (places_among handles.entry.left)) remembered.old.comparisons remembered.new.comparisons }
{
    loop {
        let handle = match handles.peek_or_gap() {
            Ok(handle) => handle,
            Err(gap) => return Found::Absent(Some(gap)),
        };
        match Handle::unpack(handle) {
            Handle::Resident(slot) => {
                if residents.key_equals(slot, key) {
                    return Found::Resident(slot);
                }
            }
            Handle::Remembered(place) => {
                if remembered.key_equals(place, key) {
                    return Found::Remembered(place);
                }
            }
        }
        handles.advance();
    }
}
