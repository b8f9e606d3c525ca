//! The two queues of a cache's residents, Small and Main, over the links that they share.
ghost use Rattle.std.specs.Prelude.{◌≡◌, ℕ, ◌+◌, ◌-◌, ◌<◌, ◌≤◌, ◌⊎◌, false, true, [], ◌∷◌, ◌++◌, length, take, None, Some, IfOk, nat_eq};
ghost use Rattle.std.specs.List.{last_or, list_any};
ghost use Rattle.clock2q_queues.specs.Cells.{Rises};
ghost use Rattle.clock2q_queues.specs.Links.{made_below};
ghost use Rattle.clock2q_queues.specs.Small.{admitted, small_hit_at};
ghost use Rattle.clock2q_queues.specs.Main.{main_hit_at};
ghost use Rattle.clock2q_queues.specs.Queues.{slots_of, without_slot, empty_queues, IsAt, IsWholeQueues, tail_promoted};

mod growth;
mod hand;

use crate::entries::Location;
use crate::links::Links;
use crate::main_queue::Main;
use crate::small::Small;
use std::alloc::{AllocError, Allocator, Global};
use std::marker::Model;

/// The two queues of a cache's residents. They hold slot numbers from 0, and a slot is in at most
/// one of them.
///
/// Small has the newest slots, in order of admission. The slots of the last admissions, as many as
/// the window is long, are young: a hit on a young slot doesn't count. Main is a ring with a hand,
/// and a new slot goes just before the hand.
///
/// # Example
///
/// ```
/// let mut queues = Queues::new(rt.alloc(), 4, 2)?;
/// queues.admit(0);
/// queues.admit(1);
/// queues.admit(2);
/// queues.hit(0);
/// assert!(rt; queues.tail_is_promoted());
/// assert_eq!(rt; queues.take_tail(), Some(0));
/// queues.append(0);
/// assert!(rt; queues.is_resident(0));
/// let mut more = queues.grown(rt.alloc(), 8, 4)?;
/// assert_eq!(rt; more.take_victim(), 0);
/// ```
#[derive(Drop)]
pub struct Queues<A: Allocator = Global> {
    links: Links<A>,
    main: Main,
    small: Small,
}

impl<A: Allocator> Model for Queues<A> {
    ghost use Rattle.clock2q_queues.specs.Queues.{QueueState, queues_shown, AreQueues};

    ghost Value = { QueueState };

    ghost view = { λ a. queues_shown a.links a.small a.main };

    ghost invariant = { λ a. AreQueues a.links a.small a.main };
}

impl<A: Allocator> Queues<A> {
    /// Returns empty queues for the slots below `slots`, with a window of `window` admissions.
    ///
    /// # Errors
    ///
    /// `AllocError` if a request for memory is refused. Memory taken so far is given back.
    ///
    /// # Cost
    ///
    /// Linear in `window`.
    pub fn new(alloc: A, slots: u32, window: u32) -> Result<Self, AllocError>
    where
        A: Clone,
        ensures made { IfOk result (λ q. q ≡ empty_queues slots window) }
    {
        Ok(Queues {
            links: Links::new(alloc, slots, window)?,
            small: Small::new(),
            main: Main::new(),
        })
    }

    /// Makes the link records of the slots below a bound that have none yet. Otherwise a slot's record
    /// is made when the slot is first in a queue.
    ///
    /// # Cost
    ///
    /// One access to a link for each record made.
    pub fn make_below(&mut self, bound: u32)
        requires bound_in { bound ≤ self.old.slots }
        ensures queues { self.new ≡ record self.old {
          made = made_below bound self.old.made;
          accesses = self.old.accesses + (bound - self.old.made);
        } }
    {
        self.links.make_below(bound);
    }

    /// Returns the number of slots in Small.
    pub fn small_len(&self) -> usize
        ensures len { result ≡ length self.now.small }
        ensures whole { IsWholeQueues self.now }
    {
        self.small.len
    }

    /// Returns the number of slots in Main.
    pub fn main_len(&self) -> usize
        ensures len { result ≡ length self.now.main }
    {
        self.main.len
    }

    /// Returns true if the oldest slot of Small goes on to Main instead of leaving: it is old, and
    /// its bit is set.
    pub fn tail_is_promoted(&mut self) -> bool
        requires some { 0 < length self.old.small }
        ensures value { result ≡ tail_promoted (last_or None self.old.small) }
        ensures queues { self.new ≡ record self.old { accesses = self.new.accesses } }
        ensures accesses { Rises 0 1 self.old.accesses self.new.accesses }
    {
        let (entry, hit) = self.links.look(self.small.oldest);
        matches!(entry.held, Location::SmallOld) && hit
    }

    /// Admits a slot to Small, as its newest. All young slots grow older, and one may become old.
    ///
    /// # Cost
    ///
    /// At most ten accesses to links.
    #[inline(always)]
    pub fn admit(&mut self, slot: u32)
        requires slot_in { slot < self.old.slots }
        requires not_in_small { list_any (nat_eq slot) (slots_of self.old.small) ≡ false }
        requires not_in_main { list_any (nat_eq slot) (slots_of self.old.main) ≡ false }
        requires window { 0 < self.old.window }
        requires made { slot ≤ self.old.made }
        ensures queues { self.new
            ≡ record self.old {
              small = admitted self.old.window slot self.old.small;
              made = made_below (slot + 1) self.old.made;
              accesses = self.new.accesses;
            } }
        ensures accesses { Rises 3 10 self.old.accesses self.new.accesses }
    {
        let cursor = self.small.cursor;
        self.small.cursor = self.links.take_position(cursor, slot);
        let location = Location::SmallYoung(cursor);
        if self.small.len == 0 {
            self.links.attach_alone(slot, location);
            self.small.oldest = slot;
        } else {
            self.links.attach(slot, self.small.newest, location);
        }
        self.small.newest = slot;
        self.small.len += 1;
    }

    /// Puts a slot at the end of Main, with a clear bit.
    ///
    /// # Cost
    ///
    /// At most six accesses to links.
    #[inline(always)]
    pub fn append(&mut self, slot: u32)
        requires slot_in { slot < self.old.slots }
        requires not_in_small { list_any (nat_eq slot) (slots_of self.old.small) ≡ false }
        requires not_in_main { list_any (nat_eq slot) (slots_of self.old.main) ≡ false }
        requires made { slot ≤ self.old.made }
        ensures queues { self.new
            ≡ record self.old {
              main = self.old.main ++ (slot, false) ∷ [];
              made = made_below (slot + 1) self.old.made;
              accesses = self.new.accesses;
            } }
        ensures accesses { Rises 1 6 self.old.accesses self.new.accesses }
    {
        // it goes just before the hand, and in an empty ring the hand goes to it
        match self.main.hand {
            None => {
                self.links.attach_alone(slot, Location::Main);
                self.main.hand = Some(slot);
            }
            Some(hand) => self.links.attach(slot, hand, Location::Main),
        }
        self.main.len += 1;
    }

    /// Returns where a slot is.
    fn location(&mut self, slot: u32) -> Location
        requires slot_in { slot < self.old.slots }
        ensures value { IsAt result slot self.old }
        ensures queues { self.new ≡ record self.old { accesses = self.old.accesses + 1 } }
    {
        self.links.location(slot)
    }

    /// Returns true if a slot is in a queue. Any number may be asked for: one that is no slot's is in
    /// none. It accesses no link.
    pub fn is_resident(&self, slot: usize) -> bool
        ensures resident { result ≡ list_any (nat_eq slot) (slots_of self.now.small ++ slots_of self.now.main) }
    {
        self.links.is_linked(slot)
    }

    /// Removes Small's oldest slot, and returns it. Returns `None` if Small is empty.
    #[inline(always)]
    pub fn take_tail(&mut self) -> Option<u32>
        ensures tail { result ≡ last_or None (slots_of self.old.small) }
        ensures queues { self.new
            ≡ record self.old {
              small = take (length self.old.small - 1) self.old.small;
              accesses = self.new.accesses;
            } }
        ensures accesses { Rises 0 7 self.old.accesses self.new.accesses }
    {
        let tail = (self.small.len > 0).then_some(self.small.oldest)?;
        self.small.unlink(&mut self.links, tail);
        Some(tail)
    }

    /// Makes Small's oldest slot its newest, and returns it: a new key takes the slot of the oldest
    /// one. All young slots grow older, and one may become old.
    #[inline(always)]
    pub fn replace_tail(&mut self) -> u32
        requires some { 0 < length self.old.small }
        requires window { 0 < self.old.window }
        ensures tail { last_or None (slots_of self.old.small) ≡ Some result }
        ensures queues { self.new
            ≡ record self.old {
              small = admitted self.old.window result
                  (take (length self.old.small - 1) self.old.small);
              accesses = self.new.accesses;
            } }
        ensures accesses { Rises 5 8 self.old.accesses self.new.accesses }
    {
        // the ring stays, since the newest slot follows the oldest in it
        let slot = self.small.oldest;
        let cursor = self.small.cursor;
        let was = self.links.look(slot).0;
        self.links.leave_position(was.held);
        self.small.oldest = was.previous;
        self.small.newest = slot;
        self.small.cursor = self.links.take_position(cursor, slot);
        self.links.relocate(slot, Location::SmallYoung(cursor));
        slot
    }

    /// Removes a slot from its queue. If it is in neither, nothing changes.
    pub fn leave(&mut self, slot: u32)
        requires slot_in { slot < self.old.slots }
        ensures queues { self.new
            ≡ record self.old {
              small = without_slot slot self.old.small;
              main = without_slot slot self.old.main;
              accesses = self.new.accesses;
            } }
        ensures accesses { Rises 1 8 self.old.accesses self.new.accesses }
    {
        match self.location(slot) {
            Location::Free => {}
            Location::SmallYoung(_) | Location::SmallOld => {
                self.small.unlink(&mut self.links, slot);
            }
            Location::Main => self.main.unlink(&mut self.links, slot),
        }
    }

    /// Records a hit on a slot. A hit on a young slot doesn't count.
    pub fn hit(&mut self, slot: u32)
        requires resident { (list_any (nat_eq slot) (slots_of self.old.small) ≡ true)
            ⊎ (list_any (nat_eq slot) (slots_of self.old.main) ≡ true) }
        ensures queues { self.new
            ≡ record self.old {
              small = small_hit_at slot self.old.small;
              main = main_hit_at slot self.old.main;
            } }
    {
        self.links.set_bit(slot);
    }

    /// Raises the count of link accesses by an amount that the proof of the call picks. A caller
    /// that has to state the count exactly raises it to its bound with this.
    pub fn charge(&mut self)
        ghost more: { ℕ }
        ensures charged { self.new ≡ record self.old { accesses = self.old.accesses + more } }
    {
        self.links.ring.charge();
    }

    /// Removes every slot from both queues.
    ///
    /// # Cost
    ///
    /// Linear in the length of the window.
    pub fn clear(&mut self)
        ensures queues { self.new
            ≡ record self.old {
              small = [];
              main = [];
              made = 0;
              accesses = self.old.accesses + self.old.window;
            } }
    {
        self.small.clear();
        self.main.clear();
        self.links.reset();
    }
}
