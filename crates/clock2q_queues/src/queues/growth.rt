//! Queues with room for more slots.
ghost use Rattle.std.specs.Prelude.{◌≡◌, ◌+◌, ◌*◌, ◌≤◌, IfOk};

use super::Queues;
use std::alloc::{AllocError, Allocator};

impl<A: Allocator> Queues<A> {
    /// Returns queues for the slots below `slots`, with a window of `window` admissions, that hold the
    /// same slots in the same order, each with its bit. A young slot is as many admissions old as it was,
    /// so in a longer window it stays young for longer. An old slot stays old. These queues stay as they
    /// are.
    ///
    /// # Errors
    ///
    /// `AllocError` if a request for memory is refused. Memory taken so far is given back.
    ///
    /// # Cost
    ///
    /// Two accesses to links for each record that was made and each position of the old window.
    pub fn grown(&self, alloc: A, slots: u32, window: u32) -> Result<Self, AllocError>
    where
        A: Clone,
        requires slots { self.now.slots ≤ slots }
        requires window { self.now.window ≤ window }
        ensures grown { IfOk result (λ q. q ≡ record self.now {
          slots = slots;
          window = window;
          accesses = q.accesses;
        }) }
        ensures accesses { IfOk result (λ q. q.accesses
            ≡ self.now.accesses + 2 * self.now.made + 2 * self.now.window) }
        ensures within { IfOk result (λ q. q.made ≤ self.now.slots) }
    {
        let mut small = self.small;
        // a window with no position may have any cursor
        small.cursor = small.cursor.min(self.links.window_len());
        Ok(Queues {
            links: self.links.grown(alloc, slots, window, small.cursor)?,
            small,
            main: self.main,
        })
    }
}
