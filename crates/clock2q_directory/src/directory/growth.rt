//! Room for more residents and more remembered keys.
use crate::directory::Directory;
use std::alloc::{AllocError, Allocator};

impl<K: Eq + Drop, V: Drop, A: Allocator + Copy> Directory<K, V, A> {
    ghost use Rattle.std.specs.Prelude.{◌≡◌, ◌^◌, ◌<◌, ◌≤◌, length, OnOk, OnErr};
    ghost use Rattle.clock2q_directory.specs.Growth.{Grows};

    /// Makes room for up to `slots` residents and `limit` remembered keys. Every key keeps its slot
    /// or its place, and the index is made anew, as large as a new directory's. The counts go on
    /// from what they were.
    ///
    /// # Errors
    ///
    /// `AllocError` if a request for memory is refused. Every key, the limit and the index are then
    /// as they were.
    ///
    /// # Cost
    ///
    /// Linear in `slots` and `limit` if hashes are well spread, with two accesses to links for each
    /// place that was used.
    pub fn grow(&mut self, alloc: A, slots: usize, limit: usize) -> Result<(), AllocError>
        requires some { 0 < slots }
        requires few { slots < 2 ^ 24 }
        requires short { limit < 2 ^ 24 }
        requires longer { self.old.history.limit ≤ limit }
        requires made { length self.old.residents.entries ≤ slots }
        ensures residents { self.new.residents ≡
            record self.old.residents { room = self.new.residents.room } }
        ensures more { self.old.residents.room ≤ self.new.residents.room }
        ensures room { OnOk result (slots ≤ self.new.residents.room) }
        ensures refused { OnErr result (self.new.history ≡ self.old.history) }
        ensures grown { OnOk result (Grows slots limit self.old self.new.history) }
    {
        self.residents.reserve(slots)?;
        self.history.keys.reserve(limit)?;
        let order = self.history.order.grown(alloc, limit as u32)?;
        let keys = (&self.residents, &self.history.keys);
        let index = self.index.grown(alloc, slots, limit, keys)?;
        self.history.order = order;
        self.index = index;
        Ok(())
    }
}
