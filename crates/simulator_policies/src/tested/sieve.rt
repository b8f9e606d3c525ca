//! SIEVE.

use crate::tested::replayed::Replayed;
use std::alloc::{AllocError, Allocator};

/// Whether a key is resident, and whether it was hit since the hand passed it or it was admitted.
#[derive(Clone, Copy, PartialEq, Eq)]
enum State {
    Absent,
    Unmarked,
    Marked,
}

/// SIEVE, of 'SIEVE is Simpler than LRU: an Efficient Turn-Key Eviction Algorithm for Web Caches'
/// (2024): the hand goes from the oldest key towards the newest, clears the mark of each that was
/// hit, and evicts the first one without a mark. No key is moved.
#[derive(Drop)]
pub(crate) struct Sieve<A: Allocator> {
    /// The number of keys that there is still room for.
    free: usize,
    states: Vec<State, A>,
    /// The resident keys in a ring with room for twice as many: those that the hand has passed since it
    /// began at the oldest one, a gap, and those from the hand on, which are newer.
    ring: Vec<u32, A>,
    /// The index of the first key that the hand has passed, and the index after the last one.
    oldest: usize,
    passed: usize,
    /// The index of the hand, and the index after the newest key.
    hand: usize,
    end: usize,
}

impl<A: Allocator + Copy> Sieve<A> {
    pub(crate) fn new(alloc: A, capacity: usize, keys: u32) -> Result<Sieve<A>, AllocError> {
        let most = capacity.min(keys as usize);
        Ok(Sieve {
            free: capacity,
            states: vec![in alloc; State::Absent; keys as usize]?,
            ring: vec![in alloc; 0; most.saturating_mul(2).saturating_add(1)]?,
            oldest: 0,
            passed: 0,
            hand: 0,
            end: 0,
        })
    }
}

impl<A: Allocator> Sieve<A> {
    fn evict(&mut self) {
        for _ in 0..=self.states.len() {
            let Some(key) = self.ring.get(self.hand).copied() else {
                return;
            };
            let was = self.leave(key);
            if was == State::Marked {
                self.pass(key);
            }
            self.advance();
            if was != State::Marked {
                self.free = self.free.wrapping_add(1);
                return;
            }
        }
    }

    /// Puts a key behind those that the hand has passed.
    fn pass(&mut self, key: u32) {
        if let Some(place) = self.ring.get_mut(self.passed) {
            *place = key;
        }
        self.passed = self.after(self.passed);
    }

    /// Moves the hand to the next key, from the newest to the oldest.
    fn advance(&mut self) {
        self.hand = self.after(self.hand);
        if self.hand == self.end {
            self.hand = self.oldest;
            self.end = self.passed;
            self.passed = self.oldest;
        }
    }

    /// Puts a key behind the newest one.
    fn push(&mut self, key: u32) {
        if let Some(place) = self.ring.get_mut(self.end) {
            *place = key;
        }
        self.end = self.after(self.end);
        if self.end == self.oldest {
            self.close_up();
        }
    }

    /// Moves the keys that the hand has passed to those from the hand on: the gap between them has
    /// taken all the room.
    fn close_up(&mut self) {
        let (mut from, mut to) = (self.passed, self.hand);
        for _ in 0..self.ring.len() {
            if from == self.oldest {
                break;
            }
            (from, to) = (self.before(from), self.before(to));
            let key = self.ring.get(from).copied();
            if let (Some(key), Some(place)) = (key, self.ring.get_mut(to)) {
                *place = key;
            }
        }
        self.oldest = to;
        self.passed = self.hand;
    }

    /// Returns the index after another one.
    fn after(&self, index: usize) -> usize {
        let next = index.wrapping_add(1);
        if next < self.ring.len() { next } else { 0 }
    }

    /// Returns the index before another one.
    fn before(&self, index: usize) -> usize {
        match index.checked_sub(1) {
            Some(before) => before,
            None => self.ring.len().saturating_sub(1),
        }
    }

    /// Clears the mark of a key, or makes it absent if it has none, and returns what it was.
    fn leave(&mut self, key: u32) -> State {
        let Some(state) = self.states.get_mut(key as usize) else {
            return State::Absent;
        };
        let was = *state;
        *state = match was {
            State::Marked => State::Unmarked,
            _ => State::Absent,
        };
        was
    }
}

impl<A: Allocator> Replayed for Sieve<A> {
    fn access(&mut self, key: u32) -> bool {
        let Some(state) = self.states.get_mut(key as usize) else {
            return false;
        };
        if *state != State::Absent {
            *state = State::Marked;
            return true;
        }
        *state = State::Unmarked;
        if self.free == 0 {
            self.evict();
        }
        self.free = self.free.saturating_sub(1);
        self.push(key);
        false
    }
}
