//! The keys of one hash, found without a comparison of keys.
ghost use Rattle.std.specs.Prelude.{◌≡◌, ◌<◌, length, slice_get};
ghost use Rattle.std.specs.List.{filter, AllByRecursion};
ghost use Rattle.clock2q_directory.specs.Index.{slots_among};

use crate::handle::Handle;
use crate::keys::Keys;
use clock2q_handles::Candidates;
use std::alloc::Allocator;

impl<K, V, A: Allocator> Keys<K, V, A> {
    ghost use Rattle.clock2q_directory.specs.Hashed.{has_hash};

    /// Returns the slot that comes after `nth` others among the slots of `handles` whose keys have
    /// this hash. It compares no key.
    pub fn with_hash(&self, mut handles: Candidates<'_, u32>, hash: u64, nth: usize) -> Option<u32>
        requires used { AllByRecursion (λ place. place < length self.now.entries)
            (slots_among handles.left) }
        ensures found { result ≡
            slice_get (filter (has_hash self.now.entries hash)
            (slots_among handles.entry.left)) nth }
    {
        let mut more = nth;
        while let Some(handle) = handles.peek() {
            if let Handle::Resident(slot) = Handle::unpack(handle) {
                if self.hash(slot) == hash {
                    if more == 0 {
                        return Some(slot);
                    }
                    more -= 1;
                }
            }
            handles.advance();
        }
        None
    }
}
