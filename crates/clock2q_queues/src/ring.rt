//! Entries that are linked by number, slots in their queues or places in their order.
ghost use Rattle.std.specs.Prelude.{◌≡◌, ℕ, ◌+◌, ◌-◌, ◌<◌, ◌≤◌, ◌^◌, IfOk, length, replicate};
ghost use Rattle.clock2q_queues.specs.Cells.{accessed, cells_state, written};
ghost use Rattle.clock2q_queues.specs.Growth.{GrowsRing, moved_record};
ghost use Rattle.clock2q_queues.specs.Links.{Attaches, Detaches, location_at, made_below, next_at, previous_at, record_at, record_of, vacant, with_location, with_next, with_previous};
ghost use Rattle.clock2q_queues.specs.Ring.{ring_state};

use crate::entries::{Entry, Held, Location};
use clock2q_count::Count;
use std::alloc::{AllocError, Allocator, Global};
use std::marker::Model;

/// The entry of each place, with the number of reads and writes. Only the first ones are made, which
/// takes one write each: any other place is vacant.
#[derive(Drop)]
pub(crate) struct Ring<T: Held, A: Allocator = Global> {
    entries: Vec<Entry<T>, A>,
    pub(crate) places: u32,
    accesses: Count,
}

impl<T: Held, A: Allocator> Model for Ring<T, A> {
    ghost use Rattle.std.specs.Prelude.{◌≤◌, length, map, vec_capacity};
    ghost use Rattle.clock2q_queues.specs.Links.{record_of};
    ghost use Rattle.clock2q_queues.specs.Ring.{RingState, ring_shown};

    ghost Value = { RingState };

    ghost view = { λ r. ring_shown (map (record_of T.location_of) r.entries.items) r.places r.accesses.total };

    ghost invariant = { λ r. (length r.entries.items ≤ r.places) × (r.places ≤ vec_capacity r.entries) };
}

impl<T: Held, A: Allocator> Ring<T, A> {
    /// Returns a ring of `places` vacant places, with no read or write counted yet. It takes all the
    /// memory that it will ever need.
    pub(crate) fn new(alloc: A, places: u32) -> Result<Self, AllocError>
        ensures { IfOk result (λ r. r ≡ ring_state (cells_state (replicate places vacant) 0) 0) }
    {
        Ok(Ring {
            entries: Vec::with_capacity(alloc, places as usize)?,
            places,
            accesses: Count::new(),
        })
    }

    /// Returns a ring of `places` places with the same entries. It takes all the memory that it will ever
    /// need. The count goes on from that of this ring: each entry that was made is read and written.
    pub(crate) fn grown(&self, alloc: A, places: u32) -> Result<Self, AllocError>
        requires { length self.now.cells.items ≤ places }
        ensures { IfOk result (GrowsRing (λ e. e) places self.now) }
    {
        let mut entries = Vec::with_capacity(alloc, places as usize)?;
        let mut accesses = Count::new();
        accesses.raise(&self.accesses);
        for entry in &self.entries {
            accesses.tick();
            accesses.tick();
            entries.push_reserved(*entry);
        }
        Ok(Ring {
            entries,
            places,
            accesses,
        })
    }

    /// Returns the entry of a place that was made.
    pub(crate) fn read(&mut self, place: u32) -> Entry<T>
        requires { place < self.old.made }
        ensures value { record_of T.location_of result ≡ record_at self.old.cells.items place }
        ensures counted { self.new ≡ ring_state (accessed self.old.cells) self.old.made }
        ensures within { self.old.made ≤ length self.old.cells.items }
    {
        self.accesses.tick();
        self.entries[place as usize]
    }

    /// Returns what is held of any place.
    pub(crate) fn held(&mut self, place: u32) -> T
        ensures value { T.location_of result ≡ location_at self.old.cells.items place }
        ensures counted { self.new ≡ ring_state (accessed self.old.cells) self.old.made }
    {
        self.accesses.tick();
        match self.entries.get(place as usize) {
            Some(entry) => entry.held,
            None => T::VACANT,
        }
    }

    /// Writes the entry of a place that was made, or makes that of the next place.
    #[inline(always)]
    pub(crate) fn write(&mut self, place: u32, entry: Entry<T>)
        requires place_in { place < length self.old.cells.items }
        requires next { place ≤ self.old.made }
        ensures written { self.new.cells ≡ written place (record_of T.location_of entry) self.old.cells }
        ensures made { self.new.made ≡ made_below (place + 1) self.old.made }
    {
        self.accesses.tick();
        if (place as usize) < self.entries.len() {
            self.entries[place as usize] = entry;
        } else {
            self.entries.push_reserved(entry);
        }
    }

    /// Makes the entries of the places below a bound that have none yet.
    pub(crate) fn make_below(&mut self, bound: u32)
        requires { bound ≤ length self.old.cells.items }
        ensures { self.new ≡ ring_state
            (cells_state self.old.cells.items (self.old.cells.accesses + (bound - self.old.made)))
            (made_below bound self.old.made) }
    {
        while self.entries.len() < bound as usize {
            self.accesses.tick();
            self.entries.push_reserved(Entry {
                previous: 0,
                next: 0,
                held: T::VACANT,
            });
        }
    }

    /// Writes the place after another. Changing one field counts as a read and a write of the entry.
    #[inline(always)]
    fn set_next(&mut self, place: u32, next: u32)
        requires { place < self.old.made }
        ensures { self.new ≡ ring_state (accessed (with_next place next self.old.cells)) self.old.made }
    {
        self.accesses.tick();
        self.accesses.tick();
        self.entries[place as usize].next = next;
    }

    /// Writes the place before another, which counts as a read and a write too.
    #[inline(always)]
    fn set_previous(&mut self, place: u32, previous: u32)
        requires { place < self.old.made }
        ensures { self.new ≡ ring_state (accessed (with_previous place previous self.old.cells)) self.old.made }
    {
        self.accesses.tick();
        self.accesses.tick();
        self.entries[place as usize].previous = previous;
    }

    /// Puts a place just before another.
    #[inline(always)]
    pub(crate) fn attach(&mut self, place: u32, before: u32, held: T)
        requires place_in { place < length self.old.cells.items }
        requires next { place ≤ self.old.made }
        requires before_in { before < self.old.made }
        requires previous_in { previous_at self.old.cells.items before < self.old.made }
        ensures attached { Attaches place before (T.location_of held) self.old.cells self.new.cells }
        ensures made { self.new.made ≡ made_below (place + 1) self.old.made }
    {
        let previous = self.read(before).previous;
        let between = Entry {
            previous,
            next: before,
            held,
        };
        self.write(place, between);
        self.set_next(previous, place);
        self.set_previous(before, place);
    }

    /// Removes a place from between its neighbours, and returns the entry that it had.
    pub(crate) fn detach(&mut self, place: u32) -> Entry<T>
        requires place_in { place < self.old.made }
        requires next_in { next_at self.old.cells.items place < self.old.made }
        requires previous_in { previous_at self.old.cells.items place < self.old.made }
        ensures detached { Detaches place self.old.cells self.new.cells }
        ensures made { self.new.made ≡ self.old.made }
        ensures value { record_of T.location_of result ≡ record_at self.old.cells.items place }
    {
        let was = self.read(place);
        self.set_next(was.previous, was.next);
        self.set_previous(was.next, was.previous);
        let vacant = Entry {
            previous: 0,
            next: 0,
            held: T::VACANT,
        };
        self.write(place, vacant);
        was
    }

    /// Raises the count of accesses by an amount that the proof of the call picks.
    pub(crate) fn charge(&mut self)
        ghost more: { ℕ }
        ensures { self.new ≡ ring_state
            (cells_state self.old.cells.items (self.old.cells.accesses + more)) self.old.made }
    {
        self.accesses.raise(&());
    }

    /// Makes every place vacant. None is read or written.
    pub(crate) fn clear(&mut self)
        ensures { self.new ≡ ring_state
            (cells_state (replicate (length self.old.cells.items) vacant) self.old.cells.accesses) 0 }
    {
        self.entries.clear();
    }
}

impl<A: Allocator> Ring<Location, A> {
    /// Returns a ring of `slots` slots with the same records, whose locations are
    /// [past a gap](Location::past_gap) at the cursor. Otherwise it is like [`grown`](Ring::grown).
    pub(crate) fn grown_past_gap(
        &self,
        alloc: A,
        slots: u32,
        cursor: u32,
        gap: u32,
    ) -> Result<Self, AllocError>
        requires slots { length self.now.cells.items ≤ slots }
        requires positions { (slot position : ℕ)
            → location_at self.now.cells.items slot ≡ Location.SmallYoung position
            → position + gap < 2 ^ 32 }
        ensures { IfOk result (GrowsRing (moved_record cursor gap) slots self.now) }
    {
        let mut entries = Vec::with_capacity(alloc, slots as usize)?;
        let mut accesses = Count::new();
        accesses.raise(&self.accesses);
        for entry in &self.entries {
            accesses.tick();
            accesses.tick();
            entries.push_reserved(Entry {
                held: entry.held.past_gap(cursor, gap),
                ..*entry
            });
        }
        Ok(Ring {
            entries,
            places: slots,
            accesses,
        })
    }

    /// Writes the location of a slot that was made, which counts as a read and a write.
    pub(crate) fn set_location(&mut self, slot: u32, location: Location)
        requires { slot < self.old.made }
        ensures { self.new ≡ ring_state
            (accessed (with_location slot location self.old.cells)) self.old.made }
    {
        self.accesses.tick();
        self.accesses.tick();
        self.entries[slot as usize].held = location;
    }
}
