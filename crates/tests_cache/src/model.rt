//! A cache as plain lists: which keys are in Small, in Main and remembered, which slots are free,
//! and the value of each slot. Every lookup reads the lists from their first entry on.

use crate::calls::{Answer, Call, is_kept, made_value};
use clock2q_cache::Occupant;
use std::alloc::{AllocError, Global};
use testing::LinearHashBuilder;

/// How a capacity is divided.
#[derive(Clone, Copy)]
pub(crate) struct Shares {
    pub(crate) capacity: usize,
    pub(crate) small: usize,
    pub(crate) window: usize,
}

impl Shares {
    pub(crate) fn new(capacity: usize, small: usize, window: usize) -> Shares {
        Shares {
            capacity,
            small,
            window,
        }
    }

    /// The shares of a cache that is made with only a capacity.
    pub(crate) fn usual(capacity: usize) -> Shares {
        let small = if capacity > 1 {
            (capacity / 10).max(1)
        } else {
            0
        };
        Shares {
            capacity,
            small,
            window: small.div_ceil(2),
        }
    }
}

/// A resident key, its slot and its value.
pub(crate) type Resident = (u64, usize, u64);

/// A resident key.
#[derive(Clone, Copy)]
struct Entry {
    key: u64,
    slot: usize,
    /// The number of keys admitted to Small since this one.
    age: usize,
    hit: bool,
}

/// The lists of a cache.
#[derive(Drop)]
pub(crate) struct Model {
    alloc: Global,
    shares: Shares,
    /// Newest first.
    small: Vec<Entry>,
    /// From the hand.
    main: Vec<Entry>,
    /// Newest first.
    history: Vec<u64>,
    /// The next one to be taken is last.
    free: Vec<usize>,
    /// A value for each slot that was made.
    values: Vec<u64>,
    /// The key that the last insertion evicted.
    evicted: Option<u64>,
}

impl Model {
    pub(crate) fn new(alloc: Global, shares: Shares) -> Model {
        Model {
            alloc,
            shares,
            small: Vec::new(alloc),
            main: Vec::new(alloc),
            history: Vec::new(alloc),
            free: Vec::new(alloc),
            values: Vec::new(alloc),
            evicted: None,
        }
    }

    /// Raises the capacity. A key of Small that is no longer young stays so, however long the window.
    pub(crate) fn grow(&mut self, shares: Shares) {
        let window = self.shares.window;
        for entry in &mut self.small {
            if entry.age >= window {
                entry.age = usize::MAX;
            }
        }
        self.shares = shares;
    }

    /// The end of the range of keys that a list of calls uses.
    pub(crate) fn keys(&self) -> u64 {
        (self.shares.capacity as u64)
            .saturating_mul(2)
            .saturating_add(2)
    }

    /// A slot to look for the key at: its own, if it has one, or sometimes another.
    pub(crate) fn hint(&self, key: u64, kind: u64) -> usize {
        let slot = self.slot(key).unwrap_or(0);
        match kind {
            0 => slot.saturating_add(1),
            1 => usize::MAX,
            _ => slot,
        }
    }

    /// The number of slots that were made.
    pub(crate) fn made(&self) -> usize {
        self.values.len()
    }

    /// The number of residents with a hash.
    pub(crate) fn hashed(&self, spread: LinearHashBuilder, hash: u64) -> usize {
        let mut count: usize = 0;
        for key in 0..self.keys() {
            if hash_of(spread, key) == hash && self.find(key).is_some() {
                count = count.wrapping_add(1);
            }
        }
        count
    }

    /// The key of the resident at a slot.
    pub(crate) fn key_at(&self, slot: usize) -> Option<u64> {
        let entry = self.at(slot)?;
        Some(entry.key)
    }

    /// Makes the call, and returns the answer that the cache should give.
    pub(crate) fn answer(&mut self, call: Call) -> Result<Answer, AllocError> {
        Ok(match call {
            Call::Put(key, value) => Answer::Value(self.put(key, value)?),
            Call::Evict(key, value) => Answer::Left(self.put_evicting(key, value)?),
            Call::PutSlot(key, value) => self.put_slot(key, value)?,
            Call::Get(key) => Answer::Value(self.get(key)),
            Call::Peek(key) => Answer::Value(self.peek(key)),
            Call::Contains(key) => Answer::Flag(self.find(key).is_some()),
            Call::GetAt(slot, key) => Answer::Value(self.get_at(slot, key)),
            Call::Set(key, value) => Answer::Value(self.replace(key, value)),
            Call::PeekSlot(key) => Answer::Found(self.slot(key)),
            Call::HitSlot(slot) => Answer::Flag(self.hit_slot(slot)),
            Call::RemoveSlot(slot) => Answer::Flag(self.remove_slot(slot)?),
            Call::With(key, value) => Answer::Value(self.try_fetch(key, Some(value))?),
            Call::Try(key, offered) => Answer::Value(self.try_fetch(key, offered)?),
            Call::Write(key, offered, value) => Answer::Value(self.write(key, offered, value)?),
            Call::Slot(key, value) => {
                let (slot, held) = self.take_slot(key, value)?;
                Answer::Slot(slot, held)
            }
            Call::Enter(key, value) => self.enter_slot(key, value)?,
            Call::Remove(key) => Answer::Flag(self.remove(key)?),
            Call::Retain(bits, count) => {
                self.retain(bits, count)?;
                Answer::Done
            }
            Call::Clear => {
                self.clear();
                Answer::Done
            }
            Call::MakeRoom => Answer::Left(self.evict()?),
            Call::Prefill(first, more) => {
                self.prefill(first, more)?;
                Answer::Done
            }
            Call::Len => Answer::Number(self.len()),
            Call::IsEmpty => Answer::Flag(self.len() == 0),
            Call::Capacity => Answer::Number(self.shares.capacity),
        })
    }

    /// The cache's `Debug` text.
    pub(crate) fn text(&self) -> Result<String, AllocError> {
        let Shares {
            capacity,
            small,
            ..
        } = self.shares;
        format!(in self.alloc;
            "Cache {{ len: {}, capacity: {capacity}, small: {}, small_capacity: {small}, main: {}, main_capacity: {}, ghost: {}, ghost_capacity: {} }}",
            self.len(),
            self.small.len(),
            self.main.len(),
            capacity.saturating_sub(small),
            self.history.len(),
            capacity / 2
        )
    }

    /// The residents, by ascending slot.
    pub(crate) fn residents(&self) -> Result<Vec<Resident>, AllocError> {
        let mut residents = Vec::with_capacity(self.alloc, self.len())?;
        for slot in 0..self.values.len() {
            if let Some(key) = self.key_at(slot) {
                residents.push((key, slot, self.value(slot)))?;
            }
        }
        Ok(residents)
    }

    fn len(&self) -> usize {
        self.small.len().saturating_add(self.main.len())
    }

    /// The entry of a resident key.
    fn find(&self, key: u64) -> Option<Entry> {
        entry_of(&self.small, key).or(entry_of(&self.main, key))
    }

    /// The entry of the resident at a slot.
    fn at(&self, slot: usize) -> Option<Entry> {
        entry_at(&self.small, slot).or(entry_at(&self.main, slot))
    }

    fn value(&self, slot: usize) -> u64 {
        self.values.get(slot).copied().unwrap_or(0)
    }

    fn store(&mut self, slot: usize, value: u64) {
        if let Some(stored) = self.values.get_mut(slot) {
            *stored = value;
        }
    }

    /// The slot of a resident key.
    pub(crate) fn slot(&self, key: u64) -> Option<usize> {
        let entry = self.find(key)?;
        Some(entry.slot)
    }

    fn peek(&self, key: u64) -> Option<u64> {
        let entry = self.find(key)?;
        Some(self.value(entry.slot))
    }

    fn get(&mut self, key: u64) -> Option<u64> {
        self.hit(key);
        self.peek(key)
    }

    fn get_at(&mut self, slot: usize, key: u64) -> Option<u64> {
        let entry = self.find(key)?;
        if entry.slot == slot {
            self.get(key)
        } else {
            None
        }
    }

    fn hit_slot(&mut self, slot: usize) -> bool {
        let Some(entry) = self.at(slot) else {
            return false;
        };
        self.hit(entry.key);
        true
    }

    fn remove_slot(&mut self, slot: usize) -> Result<bool, AllocError> {
        let is_resident = self.at(slot).is_some();
        if is_resident {
            self.vacate(slot)?;
        }
        Ok(is_resident)
    }

    fn replace(&mut self, key: u64, value: u64) -> Option<u64> {
        let entry = self.find(key)?;
        let before = self.get(key);
        self.store(entry.slot, value);
        before
    }

    fn put(&mut self, key: u64, value: u64) -> Result<Option<u64>, AllocError> {
        if self.find(key).is_some() {
            return Ok(self.replace(key, value));
        }
        self.insert(key, value)?;
        Ok(None)
    }

    /// Returns what the value replaces, or else the resident that is evicted.
    fn put_evicting(&mut self, key: u64, value: u64) -> Result<Option<(u64, u64)>, AllocError> {
        if self.find(key).is_some() {
            return Ok(Some(key).zip(self.replace(key, value)));
        }
        let slot = self.enter(key)?;
        let before = self.value(slot);
        self.store(slot, value);
        Ok(self.evicted.zip(Some(before)))
    }

    /// Returns the slot of the key, and who had it.
    fn put_slot(&mut self, key: u64, value: u64) -> Result<Answer, AllocError> {
        if let Some(entry) = self.find(key) {
            self.replace(key, value);
            return Ok(Answer::Placed(entry.slot, Occupant::Itself));
        }
        let slot = self.enter(key)?;
        self.store(slot, value);
        let occupant = match self.evicted {
            Some(evicted) => Occupant::Other(evicted),
            None => Occupant::Nobody,
        };
        Ok(Answer::Placed(slot, occupant))
    }

    /// Returns the slot of the key and its value, and whether it was hit or another was evicted.
    fn enter_slot(&mut self, key: u64, value: u64) -> Result<Answer, AllocError> {
        let is_hit = self.find(key).is_some();
        let (slot, held) = self.take_slot(key, value)?;
        let has_evicted = !is_hit && self.evicted.is_some();
        Ok(Answer::Entered(slot, held, is_hit, has_evicted))
    }

    fn try_fetch(&mut self, key: u64, offered: Option<u64>) -> Result<Option<u64>, AllocError> {
        if let Some(held) = self.get(key) {
            return Ok(Some(held));
        }
        let Some(value) = offered else {
            return Ok(None);
        };
        self.insert(key, value)?;
        Ok(Some(value))
    }

    fn write(
        &mut self,
        key: u64,
        offered: Option<u64>,
        value: u64,
    ) -> Result<Option<u64>, AllocError> {
        let before = self.try_fetch(key, offered)?;
        if before.is_some()
            && let Some(entry) = self.find(key)
        {
            self.store(entry.slot, value);
        }
        Ok(before)
    }

    /// A slot that was made before keeps its value.
    fn take_slot(&mut self, key: u64, value: u64) -> Result<(usize, u64), AllocError> {
        if let Some(entry) = self.find(key) {
            self.hit(key);
            return Ok((entry.slot, self.value(entry.slot)));
        }
        let made = self.made();
        let slot = self.enter(key)?;
        if slot >= made {
            self.store(slot, value);
        }
        Ok((slot, self.value(slot)))
    }

    fn remove(&mut self, key: u64) -> Result<bool, AllocError> {
        match self.find(key) {
            Some(entry) => {
                self.vacate(entry.slot)?;
                Ok(true)
            }
            None => {
                self.forget(key);
                Ok(false)
            }
        }
    }

    fn retain(&mut self, bits: u64, count: u32) -> Result<(), AllocError> {
        let mut asked = 0u32;
        for slot in 0..self.values.len() {
            if self.at(slot).is_some() {
                let stays = is_kept(bits, count, asked);
                asked = asked.saturating_add(1);
                if !stays {
                    self.vacate(slot)?;
                }
            }
        }
        Ok(())
    }

    /// Returns the key that leaves, and its slot.
    fn evict(&mut self) -> Result<Option<(u64, u64)>, AllocError> {
        if self.len() == 0 {
            return Ok(None);
        }
        self.evicted = None;
        let slot = if self.small.is_empty() {
            self.main_victim()?
        } else {
            self.small_leaves()?
        };
        self.free.push(slot)?;
        Ok(self.evicted.zip(Some(slot as u64)))
    }

    fn clear(&mut self) {
        self.small.clear();
        self.main.clear();
        self.history.clear();
        self.free.clear();
        self.values.clear();
    }

    fn prefill(&mut self, first: u64, more: u64) -> Result<(), AllocError> {
        let made = self.values.len();
        let capacity = self.shares.capacity;
        for slot in made..capacity {
            let before = slot.saturating_sub(made) as u64;
            self.values.push(made_value(first, more, before))?;
        }
        for slot in (made..capacity).rev() {
            self.free.push(slot)?;
        }
        Ok(())
    }

    /// A key counts as hit in Main, and in Small once it is no longer young.
    fn hit(&mut self, key: u64) {
        mark(&mut self.small, key, self.shares.window);
        mark(&mut self.main, key, 0);
    }

    /// Removes the resident of a slot. The slot is the next that a new key gets.
    fn vacate(&mut self, slot: usize) -> Result<(), AllocError> {
        leave(&mut self.small, slot);
        leave(&mut self.main, slot);
        self.free.push(slot)?;
        Ok(())
    }

    /// Forgets the key, and returns true if it was remembered.
    fn forget(&mut self, key: u64) -> bool {
        let count = self.history.len();
        self.history.retain(|remembered| *remembered != key);
        self.history.len() < count
    }

    /// Inserts a key that isn't resident, with its value.
    fn insert(&mut self, key: u64, value: u64) -> Result<(), AllocError> {
        let slot = self.enter(key)?;
        self.store(slot, value);
        Ok(())
    }

    /// Inserts a key that isn't resident, and returns its slot.
    fn enter(&mut self, key: u64) -> Result<usize, AllocError> {
        self.evicted = None;
        if self.enters_main(key) {
            self.enter_main(key)
        } else {
            self.enter_small(key)
        }
    }

    fn is_vacant(&self) -> bool {
        !self.free.is_empty() || self.values.len() < self.shares.capacity
    }

    fn enters_main(&mut self, key: u64) -> bool {
        let returns = self.forget(key);
        let small = self.shares.small;
        returns || small == 0 || self.is_vacant() && self.small.len() == small
    }

    fn enter_main(&mut self, key: u64) -> Result<usize, AllocError> {
        let share = self.shares.capacity.saturating_sub(self.shares.small);
        let slot = if self.main.len() < share {
            self.vacancy()?
        } else {
            self.main_victim()?
        };
        self.main.push(Entry::new(key, slot))?;
        Ok(slot)
    }

    fn enter_small(&mut self, key: u64) -> Result<usize, AllocError> {
        let slot = if self.is_vacant() {
            self.vacancy()?
        } else {
            self.small_leaves()?
        };
        for entry in &mut self.small {
            entry.age = entry.age.saturating_add(1);
        }
        self.small.insert(0, Entry::new(key, slot))?;
        Ok(slot)
    }

    fn vacancy(&mut self) -> Result<usize, AllocError> {
        if let Some(slot) = self.free.pop() {
            return Ok(slot);
        }
        self.values.push(0)?;
        Ok(self.values.len().saturating_sub(1))
    }

    /// The oldest key of Small leaves it, for Main if it was hit. Returns the slot that becomes
    /// free.
    fn small_leaves(&mut self) -> Result<usize, AllocError> {
        let Some(oldest) = self.small.pop() else {
            return Ok(0);
        };
        if oldest.hit && !self.main.is_empty() {
            let slot = self.main_victim()?;
            self.main.push(Entry::new(oldest.key, oldest.slot))?;
            return Ok(slot);
        }
        self.evicted = Some(oldest.key);
        self.history.insert(0, oldest.key)?;
        self.history.truncate(self.shares.capacity / 2);
        Ok(oldest.slot)
    }

    /// The hand clears the bits of the entries that it passes, and evicts the first one without a
    /// bit. Returns the slot that becomes free.
    fn main_victim(&mut self) -> Result<usize, AllocError> {
        for _ in 0..=self.main.len() {
            if self.main.is_empty() {
                break;
            }
            let first = self.main.remove(0);
            if !first.hit {
                self.evicted = Some(first.key);
                return Ok(first.slot);
            }
            self.main.push(Entry::new(first.key, first.slot))?;
        }
        Ok(0)
    }
}

/// The hash of a key.
pub(crate) fn hash_of(spread: LinearHashBuilder, key: u64) -> u64 {
    key.wrapping_mul(spread.times).wrapping_add(spread.more)
}

/// The entry of a key.
fn entry_of(entries: &[Entry], key: u64) -> Option<Entry> {
    for entry in entries {
        if entry.key == key {
            return Some(*entry);
        }
    }
    None
}

/// The entry with a slot.
fn entry_at(entries: &[Entry], slot: usize) -> Option<Entry> {
    for entry in entries {
        if entry.slot == slot {
            return Some(*entry);
        }
    }
    None
}

/// Removes the entry with a slot.
fn leave(entries: &mut Vec<Entry>, slot: usize) {
    entries.retain(|entry| entry.slot != slot);
}

/// Marks the entry of a key as hit if it has at least this age.
fn mark(entries: &mut [Entry], key: u64, age: usize) {
    for entry in entries {
        if entry.key == key && entry.age >= age {
            entry.hit = true;
        }
    }
}

impl Entry {
    fn new(key: u64, slot: usize) -> Entry {
        Entry {
            key,
            slot,
            age: 0,
            hit: false,
        }
    }
}
