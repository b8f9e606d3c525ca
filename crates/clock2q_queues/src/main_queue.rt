//! Main: a ring of slots with a hand, which looks for the slot to evict.
ghost use Rattle.std.specs.Prelude.{◌≡◌, ℕ, ◌+◌, ◌-◌, ◌^◌, ◌<◌, ◌==◌, true, false, not, [], length, Some, slice_get, nat_eq};
ghost use Rattle.std.specs.List.{filter, list_any};
ghost use Rattle.std.specs.Option.{option_map};
ghost use Rattle.clock2q_queues.specs.Cells.{Rises, cells_state};
ghost use Rattle.clock2q_queues.specs.Links.{LinkState, IsSameBut, location_at};

use crate::entries::Location;
use crate::links::Links;
use std::alloc::Allocator;

/// A ring of slots. The hand is at the slot that it inspects next, and a new slot goes just before
/// the hand.
#[derive(Clone, Copy)]
pub(crate) struct Main {
    pub(crate) hand: Option<u32>,
    pub(crate) len: usize,
}

impl Main {
    ghost use Rattle.clock2q_queues.specs.Main.{IsMainQueue, main_slots, main_entries, inspections, from_victim};

    /// Returns an empty ring.
    pub(crate) fn new() -> Self
        ensures empty { (l : LinkState) → main_entries l result ≡ [] }
        ensures whole { (l : LinkState) → length l.records.items < 2 ^ 32 → IsMainQueue l result }
    {
        Main { hand: None, len: 0 }
    }

    /// Removes a slot. If the hand is at that slot, it moves on.
    pub(crate) fn unlink<A: Allocator>(&mut self, links: &mut Links<A>, slot: u32)
        requires whole { IsMainQueue links.old self.old }
        requires present { list_any (nat_eq slot) (main_slots links.old self.old) ≡ true }
        ensures whole { IsMainQueue links.new self.new }
        ensures entries { main_entries links.new self.new
            ≡ filter (λ e. not (e.0 == slot)) (main_entries links.old self.old) }
        ensures freed { location_at links.new.records.items slot ≡ Location.Free }
        ensures others { IsSameBut (main_slots links.old self.old) links.old links.new }
        ensures window { links.new.window ≡ links.old.window }
        ensures inspections { links.new.bits.inspections ≡ links.old.bits.inspections }
        ensures made { links.new.made ≡ links.old.made }
        ensures accesses { links.new.records.accesses ≡ links.old.records.accesses + 6 }
    {
        let was = links.detach(slot);
        self.len -= 1;
        if self.hand == Some(slot) {
            self.hand = (self.len > 0).then_some(was.next);
        }
    }

    /// Moves the hand on to the slot to evict, and returns that slot. The hand passes each slot
    /// whose bit is set, and clears the bit.
    pub(crate) fn select<A: Allocator>(&mut self, links: &mut Links<A>) -> u32
        requires whole { IsMainQueue links.old self.old }
        requires occupied { 0 < length (main_slots links.old self.old) }
        ensures whole { IsMainQueue links.new self.new }
        ensures entries { main_entries links.new self.new
            ≡ from_victim (main_entries links.old self.old) }
        ensures victim { slice_get (main_entries links.new self.new) 0 ≡ Some (result, false) }
        ensures others { IsSameBut (main_slots links.old self.old) links.old links.new }
        ensures window { links.new.window ≡ links.old.window }
        ensures made { links.new.made ≡ links.old.made }
        ensures inspections { links.new.bits.inspections
            ≡ links.old.bits.inspections + inspections (main_entries links.old self.old) }
        ensures accesses { links.new.records.accesses + 1
            ≡ links.old.records.accesses + inspections (main_entries links.old self.old) }
    {
        // a ring with an entry has a hand
        let mut hand = self.hand.unwrap();
        while links.inspect(hand) {
            hand = links.look(hand).0.next;
        }
        self.hand = Some(hand);
        hand
    }

    /// Returns the slot that [`select`](Main::select) would choose, or `None` if the ring is empty.
    /// The hand and the bits stay as they are. If every bit is set, the hand would come back to its slot.
    pub(crate) fn victim<A: Allocator>(&self, links: &mut Links<A>) -> Option<u32>
        requires { IsMainQueue links.old self.now }
        ensures victim { slice_get (from_victim (main_entries links.old self.now)) 0
            ≡ option_map (λ slot. (slot, false)) result }
        ensures links { links.new ≡ record links.old {
          records =
              cells_state links.old.records.items links.new.records.accesses;
        } }
        ensures accesses { Rises 0 (inspections (main_entries links.old self.now))
            links.old.records.accesses links.new.records.accesses }
    {
        let hand = self.hand?;
        let mut slot = hand;
        for _ in 0..self.len {
            let (entry, hit) = links.look(slot);
            if !hit {
                return Some(slot);
            }
            slot = entry.next;
        }
        Some(hand)
    }

    /// Empties the ring. `Links::reset` resets the records.
    pub(crate) fn clear(&mut self)
        ensures empty { (l : LinkState) → main_entries l self.new ≡ [] }
        ensures whole { (l : LinkState) → length l.records.items < 2 ^ 32 → IsMainQueue l self.new }
    {
        *self = Main::new();
    }
}
