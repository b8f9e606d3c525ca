//! What the queues are built on: the link records and the hit bits by slot number, and the
//! positions of Small's window.
ghost use Rattle.std.specs.Prelude.{◌≡◌, ℕ, ◌+◌, ◌-◌, ◌^◌, ◌<◌, ◌≤◌, length, slice_set, IfOk, IfSome, replicate, None, Some, true, false, if◌then◌else◌, ◌==◌};
ghost use Rattle.clock2q_queues.specs.Cells.{Rises, cells_state, accessed, written};
ghost use Rattle.clock2q_queues.specs.Ends.{position_freed};
ghost use Rattle.clock2q_queues.specs.Flags.{is_linked};
ghost use Rattle.clock2q_queues.specs.Growth.{GrowsLinks};
ghost use Rattle.clock2q_queues.specs.Links.{LinkState, accesses_of, vacant, Attaches, Detaches, SetsBit, fresh, made_below, record_at, next_at, previous_at, with_location, location_at, bit_at, young_at};
ghost use Rattle.clock2q_queues.specs.Small.{GrowsOld, next_cursor};

mod flags;
mod window;

use crate::entries::{Entry, Location};
use crate::ring::Ring;
use clock2q_count::Count;
use flags::{Flag, Flags};
use std::alloc::{AllocError, Allocator, Global};
use std::marker::Model;
use window::Window;

/// The records and the hit bits of the slots, which both queues share, and the window's positions.
#[derive(Drop)]
pub(crate) struct Links<A: Allocator = Global> {
    pub(crate) ring: Ring<Location, A>,
    flags: Flags<A>,
    window: Window<A>,
    inspections: Count,
}

impl<A: Allocator> Model for Links<A> {
    ghost use Rattle.clock2q_queues.specs.Flags.{AreLinks, links_shown};
    ghost use Rattle.clock2q_queues.specs.Links.{LinkState};

    ghost Value = { LinkState };

    ghost view = { λ a. links_shown a.ring a.flags.items a.window a.inspections.total };

    ghost invariant = { λ a. AreLinks a.ring a.flags };
}

impl<A: Allocator> Links<A> {
    /// Returns links for `slots` slots, and a window of `window` positions.
    pub(crate) fn new(alloc: A, slots: u32, window: u32) -> Result<Self, AllocError>
    where
        A: Clone,
        ensures { IfOk result (λ l. l ≡ fresh slots window) }
    {
        let ring = Ring::new(alloc.clone()?, slots)?;
        let flags = Flags::new(alloc.clone()?, slots)?;
        let positions = Window::new(alloc, window)?;
        Ok(Links {
            ring,
            flags,
            window: positions,
            inspections: Count::new(),
        })
    }

    /// Returns links for `slots` slots and a window of `window` positions, with what these links hold. The
    /// new positions are put in at the cursor, so they are taken next. All counts go on from those of these
    /// links.
    pub(crate) fn grown(
        &self,
        alloc: A,
        slots: u32,
        window: u32,
        cursor: u32,
    ) -> Result<Self, AllocError>
    where
        A: Clone,
        requires slots { length self.now.records.items ≤ slots }
        requires window { length self.now.window.items ≤ window }
        requires cursor { cursor ≤ length self.now.window.items }
        requires positions { (slot position : ℕ)
            → location_at self.now.records.items slot ≡ Location.SmallYoung position
            → position < length self.now.window.items }
        ensures { IfOk result (GrowsLinks cursor slots window self.now) }
    {
        let gap = window - self.window.len();
        let ring = self
            .ring
            .grown_past_gap(alloc.clone()?, slots, cursor, gap)?;
        let flags = self.flags.grown(alloc.clone()?, slots)?;
        let positions = self.window.with_gap(alloc, cursor, window)?;
        let mut inspections = Count::new();
        inspections.raise(&self.inspections);
        Ok(Links {
            ring,
            flags,
            window: positions,
            inspections,
        })
    }

    /// Returns the number of the window's positions.
    pub(crate) fn window_len(&self) -> u32
        ensures { result ≡ length self.now.window.items }
    {
        self.window.len()
    }

    /// Returns where a slot is.
    pub(crate) fn location(&mut self, slot: u32) -> Location
        ensures value { result ≡ location_at self.old.records.items slot }
        ensures counted { self.new ≡ record self.old { records = accessed self.old.records } }
    {
        self.ring.held(slot)
    }

    /// Puts a slot, with a clear bit, into an empty queue: it is its own neighbour on both sides.
    pub(crate) fn attach_alone(&mut self, slot: u32, location: Location)
        requires slot_in { slot < length self.old.records.items }
        requires next { slot ≤ self.old.made }
        requires linked { is_linked location ≡ true }
        ensures items { self.new.records.items ≡ slice_set self.old.records.items slot
            (record { previous = slot; next = slot; held = location }) }
        ensures accesses { self.new.records.accesses ≡ self.old.records.accesses + 1 }
        ensures made { self.new.made ≡ made_below (slot + 1) self.old.made }
        ensures cleared { SetsBit slot false self.old
            (record self.new { records = self.old.records; made = self.old.made }) }
    {
        let alone = Entry {
            previous: slot,
            next: slot,
            held: location,
        };
        self.flags.write(slot, Flag::Clear);
        self.ring.write(slot, alone);
    }

    /// Makes the records and the flags of the slots below a bound that have none yet.
    pub(crate) fn make_below(&mut self, bound: u32)
        requires { bound ≤ length self.old.records.items }
        ensures made { self.new ≡ record self.old {
          records = cells_state self.old.records.items
              (self.old.records.accesses + (bound - self.old.made));
          made = made_below bound self.old.made;
        } }
    {
        self.ring.make_below(bound);
        self.flags.make_below(bound);
    }

    /// Puts a slot, with a clear bit, just before another.
    pub(crate) fn attach(&mut self, slot: u32, before: u32, location: Location)
        requires slot_in { slot < length self.old.records.items }
        requires next { slot ≤ self.old.made }
        requires before_in { is_linked (location_at self.old.records.items before) ≡ true }
        requires previous_in { is_linked (location_at self.old.records.items
            (previous_at self.old.records.items before)) ≡ true }
        requires linked { is_linked location ≡ true }
        ensures attached { Attaches slot before location self.old.records self.new.records }
        ensures made { self.new.made ≡ made_below (slot + 1) self.old.made }
        ensures cleared { SetsBit slot false self.old
            (record self.new { records = self.old.records; made = self.old.made }) }
    {
        self.flags.write(slot, Flag::Clear);
        self.ring.attach(slot, before, location);
    }

    /// Removes a slot from between its neighbours, clears its bit, and returns the entry that it had.
    pub(crate) fn detach(&mut self, slot: u32) -> Entry<Location>
        requires slot_in { is_linked (location_at self.old.records.items slot) ≡ true }
        requires next_in { is_linked (location_at self.old.records.items
            (next_at self.old.records.items slot)) ≡ true }
        requires previous_in { is_linked (location_at self.old.records.items
            (previous_at self.old.records.items slot)) ≡ true }
        ensures detached { Detaches slot self.old.records self.new.records }
        ensures value { result ≡ record_at self.old.records.items slot }
        ensures cleared { SetsBit slot false self.old
            (record self.new { records = self.old.records }) }
    {
        self.flags.set(slot, Flag::Free);
        self.ring.detach(slot)
    }

    /// Gives a slot that is in a queue another location, and a clear bit.
    pub(crate) fn relocate(&mut self, slot: u32, location: Location)
        requires slot_in { is_linked (location_at self.old.records.items slot) ≡ true }
        requires linked { is_linked location ≡ true }
        ensures moved { self.new.records ≡ accessed (with_location slot location self.old.records) }
        ensures cleared { SetsBit slot false self.old
            (record self.new { records = self.old.records }) }
    {
        self.flags.set(slot, Flag::Clear);
        self.ring.set_location(slot, location);
    }

    /// Puts a slot at the cursor, and returns the position after it, or the first one after the last.
    /// The slot that was there, if there was one, becomes old with a clear bit.
    pub(crate) fn take_position(&mut self, cursor: u32, slot: u32) -> u32
        requires countable { slot < 2 ^ 32 - 1 }
        requires cursor { cursor < length self.old.window.items }
        requires there { IfSome (young_at self.old cursor)
            (λ slot. is_linked (location_at self.old.records.items slot) ≡ true) }
        ensures next { result ≡ next_cursor (length self.old.window.items) cursor }
        ensures taken { self.new.window ≡ written cursor (Some slot) (accessed self.old.window) }
        ensures older { GrowsOld cursor self.old
            (record self.new { window = accessed self.old.window }) }
        ensures made { self.new.made ≡ self.old.made }
        ensures accesses { Rises 2 4 (accesses_of self.old) (accesses_of self.new) }
    {
        if let Some(oldest) = self.window.replace(cursor, slot) {
            self.relocate(oldest, Location::SmallOld);
        }
        self.window.after(cursor)
    }

    /// Empties the position of a slot, if it was young.
    pub(crate) fn leave_position(&mut self, location: Location)
        requires { (position : ℕ) → location ≡ Location.SmallYoung position
            → position < length self.old.window.items }
        ensures { self.new ≡ position_freed location self.old }
    {
        if let Location::SmallYoung(position) = location {
            self.window.free(position);
        }
    }

    /// Returns true if a slot is in a queue. It reads the byte with the slot's bit, and no record.
    pub(crate) fn is_linked(&self, slot: usize) -> bool
        ensures { result ≡ is_linked (location_at self.now.records.items slot) }
    {
        self.flags.says_linked(slot)
    }

    /// Sets the hit bit of a slot that is in a queue.
    pub(crate) fn set_bit(&mut self, slot: u32)
        requires { is_linked (location_at self.old.records.items slot) ≡ true }
        ensures { SetsBit slot true self.old self.new }
    {
        self.flags.set(slot, Flag::Hit);
    }

    /// Returns true if the bit of a slot in a queue was set, and clears it: the hand's inspection of a
    /// slot.
    pub(crate) fn inspect(&mut self, slot: u32) -> bool
        requires { is_linked (location_at self.old.records.items slot) ≡ true }
        ensures value { result ≡ bit_at self.old slot }
        ensures bits { (t : ℕ) → bit_at self.new t
            ≡ (if t == slot then false else bit_at self.old t) }
        ensures rest { self.new ≡ record self.old { bits = self.new.bits } }
        ensures counted { self.new.bits.inspections ≡ self.old.bits.inspections + 1 }
    {
        self.flags.inspect(slot, &mut self.inspections)
    }

    /// Returns the entry of a slot that is in a queue, and true if its bit is set. Both are one access.
    pub(crate) fn look(&mut self, slot: u32) -> (Entry<Location>, bool)
        requires { is_linked (location_at self.old.records.items slot) ≡ true }
        ensures entry { result.0 ≡ record_at self.old.records.items slot }
        ensures bit { result.1 ≡ bit_at self.old slot }
        ensures counted { self.new ≡ record self.old { records = accessed self.old.records } }
    {
        self.flags.look(slot, &mut self.ring)
    }

    /// Resets every record, every position and every bit to its initial state.
    pub(crate) fn reset(&mut self)
        ensures records { self.new.records.items
            ≡ replicate (length self.old.records.items) vacant }
        ensures positions { self.new.window.items ≡ replicate (length self.old.window.items) None }
        ensures made { self.new.made ≡ 0 }
        ensures inspections { self.new.bits.inspections ≡ self.old.bits.inspections }
        ensures records_counted { self.new.records.accesses ≡ self.old.records.accesses }
        ensures positions_counted { self.new.window.accesses
            ≡ self.old.window.accesses + length self.old.window.items }
    {
        self.ring.clear();
        self.flags.clear();
        self.window.clear();
    }
}
