//! The keys that Small evicted, which the literature calls Ghost.
ghost use Rattle.std.specs.Prelude.{◌≡◌, ◌+◌, ◌≤◌, true, [], length, IfSome, IfNone, nat_eq};
ghost use Rattle.std.specs.List.{list_any};
ghost use Rattle.clock2q_handles.specs.Homes.{candidates};
ghost use Rattle.clock2q_queues.specs.Order.{IsWholeOrder, used};
ghost use Rattle.clock2q_directory.specs.Keys.{entry, written};
ghost use Rattle.clock2q_directory.specs.Indexes.{IsIndex};
ghost use Rattle.clock2q_directory.specs.Index.{IndexState, places, forgotten_if};
ghost use Rattle.clock2q_directory.specs.History.{MakesPlace};

use crate::keys::{Entry, Keys};
use clock2q_queues::order::Order;
use std::alloc::{Allocator, Global};

/// The keys that are remembered, each at a place, and the order of the places, the newest key's
/// first. The index has each place under its key's hash, and its caller changes that.
#[derive(Drop)]
pub(crate) struct Ghost<K, A: Allocator = Global> {
    pub(crate) order: Order<A>,
    pub(crate) keys: Keys<K, (), A>,
}

/// A key that leaves its slot and is remembered.
#[derive(Clone, Copy)]
pub struct Retired {
    /// Its hash.
    pub hash: u64,
    /// The place at which it is remembered.
    pub place: u32,
    /// The hash of the oldest key, if that one had the place, and is forgotten.
    pub oldest: Option<u64>,
}

impl<K: Drop, A: Allocator> Ghost<K, A> {
    /// Writes a key to a place at the front: to a free one, or, if every place has a key, to the oldest
    /// key's, which the index still has. If there are no places, returns `None` and drops the key.
    pub(crate) fn push(&mut self, hash: u64, key: K) -> Option<Retired>
        requires as_many { length self.old.keys.entries ≡ used self.old.order }
        requires room { self.old.order.limit ≤ self.old.keys.room }
        ensures none { IfNone result (self.old.order.limit ≡ 0) }
        ensures same { IfNone result (self.new ≡ self.old) }
        ensures hash { IfSome result (λ retired. retired.hash ≡ hash) }
        ensures made { IfSome result (λ retired. (index : IndexState)
            → IsIndex (places index) self.old.keys.entries self.old.order.places
            → MakesPlace index (forgotten_if retired.oldest retired.place index)
            self.old.order self.new.order self.old.keys.entries retired.place) }
        ensures held { IfSome result (λ retired. IfSome retired.oldest (λ oldest. (index : IndexState)
            → IsIndex (places index) self.old.keys.entries self.old.order.places
            → list_any (nat_eq retired.place) (candidates (places index) oldest) ≡ true)) }
        ensures written { IfSome result (λ retired. self.new.keys ≡
            record self.old.keys {
              entries = written retired.place (entry hash key tt) self.old.keys.entries;
              writes = self.old.keys.writes + 1;
            }) }
        ensures whole { IfSome result (λ _. IsWholeOrder self.new.order) }
    {
        if self.order.limit() == 0 {
            return None;
        }
        let value = Some(());
        let entry = Entry { hash, key, value };
        if self.order.len() < self.order.limit() {
            let place = self.order.push();
            self.keys.put(place, entry);
            return Some(Retired {
                hash,
                place,
                oldest: None,
            });
        }
        let place = self.order.replace_oldest();
        let (oldest, _) = self.keys.replace(place, entry);
        Some(Retired {
            hash,
            place,
            oldest: Some(oldest),
        })
    }

    /// Forgets every key.
    pub(crate) fn clear(&mut self)
        ensures whole { IsWholeOrder self.new.order }
        ensures order { self.new.order ≡ record self.old.order { places = []; free = [] } }
        ensures keys { self.new.keys ≡ record self.old.keys { entries = [] } }
    {
        self.order.clear();
        self.keys.clear();
    }
}
