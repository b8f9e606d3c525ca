//! Calls that find a key by its slot or by its hash.

use crate::cached::Cached;
use crate::replies::Reply;
use crate::verb::AtSlot;
use std::hash::BuildHasher;

impl<'a, S: BuildHasher> Cached<'a, S> {
    /// Makes such a call.
    pub(super) fn reply_at(&mut self, call: AtSlot, first: u64, second: u64) -> Reply {
        match call {
            AtSlot::Peek => Reply::Value(self.peek_slot(first)),
            AtSlot::Listed => Reply::Value(self.slot_with_hash(first, second as usize)),
            AtSlot::Hit => Reply::Flag(self.hit_slot(first as usize)),
            AtSlot::Remove => Reply::Flag(self.remove_slot(first as usize)),
            AtSlot::Offer => self.offer(first, second),
        }
    }

    fn peek_slot(&self, id: u64) -> Option<u64> {
        let key = self.key(id);
        Some(self.cache.peek_slot(&key)? as u64)
    }

    fn slot_with_hash(&self, hash: u64, nth: usize) -> Option<u64> {
        Some(self.cache.slot_with_hash(hash, nth)? as u64)
    }

    fn hit_slot(&mut self, slot: usize) -> bool {
        self.cache.hit_slot(slot)
    }

    fn remove_slot(&mut self, slot: usize) -> bool {
        self.cache.remove_slot(slot)
    }

    /// Offers a key, and replies with the slot of the key with its hash, and whether it is new.
    fn offer(&mut self, id: u64, value: u64) -> Reply {
        let key = self.key(id);
        let (slot, is_new) = self.cache.slot_with_hash_or_insert(key, value);
        Reply::Offered(slot as u64, is_new)
    }
}
