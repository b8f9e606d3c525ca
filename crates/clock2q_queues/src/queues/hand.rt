//! What the hand chooses: the slot of Main that leaves, and the slot that leaves next.
ghost use Rattle.std.specs.Prelude.{◌≡◌, ◌+◌, false, true, [], ◌∷◌, ◌++◌, ◌<◌, length, drop, slice_get, None, Some};
ghost use Rattle.std.specs.List.{last_or};
ghost use Rattle.std.specs.Option.{option_map};
ghost use Rattle.clock2q_queues.specs.Cells.{Rises};
ghost use Rattle.clock2q_queues.specs.Main.{inspections, from_victim};
ghost use Rattle.clock2q_queues.specs.Queues.{slots_of, victim_leaves, looks_ahead};

use super::Queues;
use std::alloc::Allocator;

impl<A: Allocator> Queues<A> {
    /// Moves the hand on to the slot that it chooses, as in [`take_victim`](Queues::take_victim),
    /// and returns that slot, which stays in Main.
    ///
    /// # Cost
    ///
    /// Linear in the number of slots that the hand passes.
    pub fn select(&mut self) -> u32
        requires some { 0 < length self.old.main }
        ensures victim { slice_get (from_victim self.old.main) 0 ≡ Some (result, false) }
        ensures queues { self.new
            ≡ record self.old {
              main = from_victim self.old.main;
              accesses = self.new.accesses;
              inspections = self.new.inspections;
            } }
        ensures inspections { self.new.inspections
            ≡ self.old.inspections + inspections self.old.main }
        ensures accesses { self.new.accesses + 1 ≡ self.old.accesses + inspections self.old.main }
    {
        self.main.select(&mut self.links)
    }

    /// Returns the slot that leaves next: Small's oldest one, or the one that the hand would choose if
    /// that one goes on to Main or Small is empty. Returns `None` if there is no slot. The queues, the
    /// bits and the hand stay as they are.
    ///
    /// # Cost
    ///
    /// One access to a link for each slot that it looks at: Small's oldest one and, if a slot of Main
    /// leaves next, at most those that the hand would inspect.
    pub fn next_victim(&mut self) -> Option<u32>
        ensures tail { victim_leaves self.old ≡ false
            → result ≡ last_or None (slots_of self.old.small) }
        ensures victim { victim_leaves self.old ≡ true
            → slice_get (from_victim self.old.main) 0 ≡ option_map (λ slot. (slot, false)) result }
        ensures queues { self.new ≡ record self.old { accesses = self.new.accesses } }
        ensures accesses { Rises 0 (looks_ahead self.old) self.old.accesses self.new.accesses }
    {
        if self.victim_leaves() {
            self.main.victim(&mut self.links)
        } else {
            (self.small.len > 0).then_some(self.small.oldest)
        }
    }

    /// Returns true if a slot of Main leaves next, rather than Small's oldest one.
    pub fn victim_leaves(&mut self) -> bool
        ensures leaves { result ≡ victim_leaves self.old }
        ensures queues { self.new ≡ record self.old { accesses = self.new.accesses } }
        ensures accesses { Rises 0 1 self.old.accesses self.new.accesses }
    {
        if self.main.len == 0 {
            return false;
        }
        if self.small.len == 0 {
            return true;
        }
        self.tail_is_promoted()
    }

    /// Removes the slot that the hand chooses from Main, and returns it.
    ///
    /// The hand passes each slot whose bit is set, and clears the bit. It chooses the first slot
    /// whose bit is clear.
    ///
    /// # Cost
    ///
    /// Linear in the number of slots that the hand passes.
    pub fn take_victim(&mut self) -> u32
        requires some { 0 < length self.old.main }
        ensures victim { slice_get (from_victim self.old.main) 0 ≡ Some (result, false) }
        ensures queues { self.new
            ≡ record self.old {
              main = drop 1 (from_victim self.old.main);
              accesses = self.new.accesses;
              inspections = self.new.inspections;
            } }
        ensures inspections { self.new.inspections
            ≡ self.old.inspections + inspections self.old.main }
        ensures accesses { self.new.accesses ≡ self.old.accesses + inspections self.old.main + 5 }
    {
        let victim = self.main.select(&mut self.links);
        self.main.unlink(&mut self.links, victim);
        victim
    }

    /// Makes the slot that the hand chooses, as in [`take_victim`](Queues::take_victim), the last
    /// one of Main, and returns it: a new key takes the slot of Main's victim.
    ///
    /// # Cost
    ///
    /// Linear in the number of slots that the hand passes.
    pub fn replace_victim(&mut self) -> u32
        requires some { 0 < length self.old.main }
        ensures victim { slice_get (from_victim self.old.main) 0 ≡ Some (result, false) }
        ensures queues { self.new
            ≡ record self.old {
              main = drop 1 (from_victim self.old.main) ++ (result, false) ∷ [];
              accesses = self.new.accesses;
              inspections = self.new.inspections;
            } }
        ensures inspections { self.new.inspections
            ≡ self.old.inspections + inspections self.old.main }
        ensures accesses { self.new.accesses ≡ self.old.accesses + inspections self.old.main }
    {
        let victim = self.main.select(&mut self.links);
        // the hand moves on from it, whose bit is clear
        self.main.hand = Some(self.links.look(victim).0.next);
        victim
    }
}
