//! Clock2Q+ in a number of bytes.
ghost use Rattle.std.specs.Prelude.{◌≡◌};
ghost use Rattle.clock2q_machine.specs.Shares.{usual_history, usual_small, usual_window};

use crate::tested::byte_replayed::ByteReplayed;
use crate::tested::sized_lists::SizedLists;
use std::alloc::{AllocError, Allocator};

/// The queue of new keys.
const SMALL: u8 = 0;

/// The keys of Main, from the hand on.
const MAIN: u8 = 1;

/// The keys that are remembered after they were evicted from Small.
const HISTORY: u8 = 2;

/// The mark of a key that was hit in Main, or in Small when it was no longer young.
const HIT: u8 = 1;

/// The shares of Clock2Q+ in a cache for a number of bytes.
///
/// # Example
///
/// ```
/// let usual = ByteShares::usual(64_000);
/// assert_eq!(rt; (usual.small, usual.window, usual.history), (6_400, 3_200, 32_000));
/// ```
#[derive(Clone, Copy, Debug, PartialEq, Eq)]
pub struct ByteShares {
    /// The number of bytes for Small.
    pub small: usize,
    /// A key of Small is young until this many bytes were admitted to Small after it.
    pub window: usize,
    /// The number of bytes that the remembered keys had, at most.
    pub history: usize,
}

impl ByteShares {
    /// Returns the usual shares of a cache: a tenth for Small, half of that for the window, and half
    /// of the capacity for the history.
    pub fn usual(capacity: usize) -> ByteShares
        ensures small { result.small ≡ usual_small capacity }
        ensures window { result.window ≡ usual_window capacity }
        ensures history { result.history ≡ usual_history capacity }
    {
        let small = if capacity > 1 {
            (capacity / 10).max(1)
        } else {
            0
        };
        ByteShares {
            small,
            window: (small + 1) / 2,
            history: capacity / 2,
        }
    }
}

/// Clock2Q+ in a number of bytes, of which Small and the history have shares. A new key enters
/// Small, and a remembered one Main; before the first eviction a new key that Small has no room for
/// enters Main too. Then Small's oldest keys leave if the new key is more than Small has room for,
/// and else the keys that Main's hand comes to, until the new key fits in the cache.
#[derive(Drop)]
pub(crate) struct ByteClock2Q<A: Allocator> {
    capacity: usize,
    shares: ByteShares,
    lists: SizedLists<A>,
    /// The number of bytes that were admitted to Small, and how many they were after each key.
    admitted: usize,
    admitted_after: Vec<usize, A>,
    /// True until the first eviction.
    is_filling: bool,
}

impl<A: Allocator + Copy> ByteClock2Q<A> {
    pub(crate) fn new(
        alloc: A,
        capacity: usize,
        shares: ByteShares,
        keys: u32,
    ) -> Result<ByteClock2Q<A>, AllocError> {
        Ok(ByteClock2Q {
            capacity,
            shares,
            lists: SizedLists::new(alloc, keys)?,
            admitted: 0,
            admitted_after: vec![in alloc; 0usize; keys as usize]?,
            is_filling: true,
        })
    }
}

impl<A: Allocator> ByteClock2Q<A> {
    /// Marks a resident key if its hit counts, and returns true if the key is resident.
    fn hit(&mut self, key: u32) -> bool {
        let is_in_small = self.lists.has(SMALL, key);
        if is_in_small && self.is_young(key) {
            return true;
        }
        let is_hit = is_in_small || self.lists.has(MAIN, key);
        if is_hit {
            self.lists.set_mark(key, HIT);
        }
        is_hit
    }

    /// Returns true if fewer bytes were admitted to Small after a key than the window has.
    fn is_young(&self, key: u32) -> bool {
        let after = self.admitted_after.get(key as usize).copied().unwrap_or(0);
        self.admitted.saturating_sub(after) < self.shares.window
    }

    /// Returns the number of bytes of the residents.
    fn used(&self) -> usize {
        let small = self.lists.bytes(SMALL);
        small.saturating_add(self.lists.bytes(MAIN))
    }

    /// Returns true if a queue with a share has no room for this many bytes more.
    fn overflows(&self, list: u8, size: usize) -> bool {
        let room = if list == SMALL {
            self.shares.small
        } else {
            self.capacity.saturating_sub(self.shares.small)
        };
        self.lists.bytes(list).saturating_add(size) > room
    }

    /// Returns the queue that a key enters, in a cache that evicts until the others have at most
    /// `room` bytes.
    fn queue_for(&self, key: u32, size: usize, room: usize) -> u8 {
        let is_filling = self.is_filling && self.used() <= room;
        let is_remembered = self.lists.has(HISTORY, key);
        if is_remembered || self.shares.small == 0 || (is_filling && self.overflows(SMALL, size)) {
            MAIN
        } else {
            SMALL
        }
    }

    /// Evicts until the residents have at most `room` bytes, for a key that enters a queue.
    fn make_room(&mut self, list: u8, size: usize, room: usize) {
        let (small, main) = (self.lists.len(SMALL), self.lists.len(MAIN));
        // each key of Small may move to Main before it is evicted
        for _ in 0..small.saturating_mul(2).saturating_add(main) {
            if self.used() <= room {
                return;
            }
            self.is_filling = false;
            self.evict(list, size);
        }
    }

    /// Evicts a key of the queue that has no room for another one, or of Main if Small has, or moves
    /// a key from Small to Main.
    fn evict(&mut self, list: u8, size: usize) {
        let is_from_small = if list == SMALL {
            self.overflows(SMALL, size)
        } else {
            !self.overflows(MAIN, size)
        };
        let is_main_empty = self.lists.len(MAIN) == 0;
        if self.lists.len(SMALL) > 0 && (is_from_small || is_main_empty) {
            self.leave_small();
        } else {
            self.lists.evict_unmarked(MAIN);
        }
    }

    /// Moves the oldest key of Small to Main if it is marked, and else evicts and remembers it.
    fn leave_small(&mut self) {
        let Some(key) = self.lists.oldest(SMALL) else {
            return;
        };
        if self.lists.mark(key) != HIT {
            return self.lists.remember(HISTORY, key, self.shares.history);
        }
        let room = self.capacity.saturating_sub(self.shares.small);
        let rest = room.saturating_sub(self.lists.size(key));
        self.lists.sweep(MAIN, rest);
        self.lists.set_mark(key, 0);
        self.lists.put(MAIN, key);
    }

    /// Admits a key to a queue.
    fn admit(&mut self, list: u8, key: u32, size: usize) {
        self.lists.admit(list, key, size);
        if list == SMALL {
            self.admitted = self.admitted.saturating_add(size);
            if let Some(after) = self.admitted_after.get_mut(key as usize) {
                *after = self.admitted;
            }
        }
    }
}

impl<A: Allocator> ByteReplayed for ByteClock2Q<A> {
    fn access(&mut self, key: u32, size: usize) -> bool {
        if self.hit(key) {
            return true;
        }
        if let Some(room) = self.capacity.checked_sub(size) {
            let list = self.queue_for(key, size, room);
            self.lists.take(key);
            self.make_room(list, size, room);
            self.admit(list, key, size);
        }
        false
    }
}
