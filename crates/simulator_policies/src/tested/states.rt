//! Keys that are resident, or remembered after they were evicted.

use std::alloc::{AllocError, Allocator};

/// The most hits counted for a key.
pub(crate) const MOST_HITS: u32 = 3;

/// The state of a key that is neither resident nor remembered.
const UNKNOWN: u32 = 0;

/// The state of a resident key without hits. A hit adds one.
const RESIDENT: u32 = 1;

/// The state of a key that is remembered at the first place of the ring. The next place adds one.
const REMEMBERED: u32 = RESIDENT + MOST_HITS + 1;

/// The state of each key, in one word, and the remembered keys in the order in which they were added. A
/// key that is no longer remembered keeps its place in the ring for a while, but counts no more.
#[derive(Drop)]
pub(crate) struct States<A: Allocator> {
    states: Vec<u32, A>,
    /// The remembered keys, with room for twice as many as there are at most.
    ring: Vec<u32, A>,
    /// The place of the oldest, and the place after the newest, which are the same only if there is
    /// none.
    first: u32,
    end: u32,
    most: u32,
    len: u32,
}

impl<A: Allocator + Copy> States<A> {
    /// Returns the states of keys below `keys`, of which at most `most` are remembered.
    pub(crate) fn new(alloc: A, most: usize, keys: u32) -> Result<States<A>, AllocError> {
        let most = most.min(keys as usize) as u32;
        let room = most.saturating_add(1).saturating_mul(2);
        Ok(States {
            states: vec![in alloc; UNKNOWN; keys as usize]?,
            ring: vec![in alloc; 0; room.min(u32::MAX - REMEMBERED) as usize]?,
            first: 0,
            end: 0,
            most,
            len: 0,
        })
    }
}

impl<A: Allocator> States<A> {
    /// Counts a hit of a key, up to the most, and returns true if it is resident.
    pub(crate) fn hit(&mut self, key: u32) -> bool {
        let Some(state) = self.states.get_mut(key as usize) else {
            return false;
        };
        let hits = state.wrapping_sub(RESIDENT);
        if hits < MOST_HITS {
            *state = state.wrapping_add(1);
        }
        hits <= MOST_HITS
    }

    /// Returns the number of hits of a resident key.
    pub(crate) fn hits_of(&self, key: u32) -> u32 {
        self.state_of(key).saturating_sub(RESIDENT)
    }

    /// Makes a key resident, without hits, and returns true if it was remembered.
    pub(crate) fn admit(&mut self, key: u32) -> bool {
        let is_remembered = self.state_of(key) >= REMEMBERED;
        if is_remembered {
            self.len = self.len.wrapping_sub(1);
        }
        self.set(key, RESIDENT);
        is_remembered
    }

    /// Replaces the number of hits of a resident key.
    pub(crate) fn set_hits(&mut self, key: u32, hits: u32) {
        self.set(key, RESIDENT.wrapping_add(hits));
    }

    /// Forgets a resident key.
    pub(crate) fn forget(&mut self, key: u32) {
        self.set(key, UNKNOWN);
    }

    /// Remembers a key, which was resident, as the newest. If there are too many, forgets the oldest.
    pub(crate) fn remember(&mut self, key: u32) {
        self.append(key);
        if self.end == self.first {
            self.close_up();
        }
        if self.len < self.most {
            self.len = self.len.wrapping_add(1);
        } else {
            self.forget_oldest();
        }
    }

    fn forget_oldest(&mut self) {
        for _ in 0..self.ring.len() {
            let place = self.first;
            self.first = self.after(place);
            if let Some(key) = self.key_at(place) {
                self.set(key, UNKNOWN);
                return;
            }
        }
    }

    /// Returns the key at a place of the ring, if it is still remembered there.
    fn key_at(&self, place: u32) -> Option<u32> {
        let key = self.ring.get(place as usize).copied()?;
        let is_there = self.state_of(key) == REMEMBERED.wrapping_add(place);
        is_there.then_some(key)
    }

    /// Puts a key behind the others in the ring.
    fn append(&mut self, key: u32) {
        let place = self.end;
        if let Some(last) = self.ring.get_mut(place as usize) {
            *last = key;
        }
        self.set(key, REMEMBERED.wrapping_add(place));
        self.end = self.after(place);
    }

    /// Moves the remembered keys of a full ring together, over the places of those that no longer are.
    fn close_up(&mut self) {
        let mut place = self.first;
        for _ in 0..self.ring.len() {
            if let Some(key) = self.key_at(place) {
                self.append(key);
            }
            place = self.after(place);
        }
    }

    /// Returns the place after another one.
    fn after(&self, place: u32) -> u32 {
        let next = place.wrapping_add(1);
        if (next as usize) < self.ring.len() {
            next
        } else {
            0
        }
    }

    fn state_of(&self, key: u32) -> u32 {
        match self.states.get(key as usize) {
            Some(state) => *state,
            None => UNKNOWN,
        }
    }

    fn set(&mut self, key: u32, state: u32) {
        if let Some(place) = self.states.get_mut(key as usize) {
            *place = state;
        }
    }
}
