//! Small: the queue of the newest residents, of which the last admitted ones are young.
ghost use Rattle.std.specs.Prelude.{◌≡◌, ℕ, ◌-◌, ◌^◌, ◌<◌, ◌==◌, true, not, [], length, nat_eq};
ghost use Rattle.std.specs.List.{filter, list_any};
ghost use Rattle.clock2q_queues.specs.Cells.{Rises};
ghost use Rattle.clock2q_queues.specs.Links.{LinkState, IsBlank, IsSameBut, accesses_of, location_at};

use crate::entries::Location;
use crate::links::Links;
use std::alloc::Allocator;

/// A queue of slots, newest first. The window's positions hold the young slots, and the cursor is
/// the position of the next admission.
#[derive(Clone, Copy)]
pub(crate) struct Small {
    pub(crate) newest: u32,
    pub(crate) oldest: u32,
    pub(crate) len: usize,
    pub(crate) cursor: u32,
}

impl Small {
    ghost use Rattle.clock2q_queues.specs.Small.{IsSmallQueue, small_slots, small_entries};

    /// Returns an empty queue.
    pub(crate) fn new() -> Self
        ensures empty { (l : LinkState) → small_entries l result ≡ [] }
        ensures whole { (l : LinkState) → IsBlank l → IsSmallQueue l result }
    {
        Small {
            newest: 0,
            oldest: 0,
            len: 0,
            cursor: 0,
        }
    }

    /// Removes a slot. If it was young, its position becomes free.
    pub(crate) fn unlink<A: Allocator>(&mut self, links: &mut Links<A>, slot: u32)
        requires whole { IsSmallQueue links.old self.old }
        requires present { list_any (nat_eq slot) (small_slots links.old self.old) ≡ true }
        ensures whole { IsSmallQueue links.new self.new }
        ensures entries { small_entries links.new self.new
            ≡ filter (λ e. not (e.0 == slot)) (small_entries links.old self.old) }
        ensures freed { location_at links.new.records.items slot ≡ Location.Free }
        ensures others { IsSameBut (small_slots links.old self.old) links.old links.new }
        ensures window { length links.new.window.items ≡ length links.old.window.items }
        ensures inspections { links.new.bits.inspections ≡ links.old.bits.inspections }
        ensures made { links.new.made ≡ links.old.made }
        ensures accesses { Rises 6 7 (accesses_of links.old) (accesses_of links.new) }
    {
        let was = links.detach(slot);
        links.leave_position(was.held);
        self.len -= 1;
        if self.newest == slot {
            self.newest = was.next;
        }
        if self.oldest == slot {
            self.oldest = was.previous;
        }
    }

    /// Empties the queue. `Links::reset` resets the records and the window's positions.
    pub(crate) fn clear(&mut self)
        ensures empty { (l : LinkState) → small_entries l self.new ≡ [] }
        ensures whole { (l : LinkState) → IsBlank l → IsSmallQueue l self.new }
    {
        *self = Small::new();
    }
}
