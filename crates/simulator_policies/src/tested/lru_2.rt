//! LRU-2.
ghost use Rattle.std.specs.Prelude.{◌≡◌, IfOk, length};

use crate::tested::index_set::IndexSet;
use crate::tested::lists::Lists;
use std::alloc::{AllocError, Allocator};
use std::num::NonZeroUsize;

/// The list of residents accessed once.
const ONCE: u8 = 0;

/// The mark of a resident.
const RESIDENT: u8 = 1;

/// LRU-2, of 'The LRU-K Page Replacement Algorithm for Database Disk Buffering' (1993): evicts the
/// residents accessed once, the least recently used first, and then the one whose last access but
/// one is the oldest. Each key's last two accesses are remembered to the end of the trace, even
/// while it isn't resident, and two accesses count as two however close they are.
#[derive(Drop)]
struct Lru2<A: Allocator> {
    capacity: usize,
    /// The residents accessed once. All residents are marked.
    once: Lists<A>,
    /// The last access but one of each other resident.
    again: IndexSet<A>,
    count_again: usize,
    /// One more than the index of each key's last access, or 0 if there was none.
    last: Vec<usize, A>,
    /// The same of the access before it.
    before: Vec<usize, A>,
}

impl<A: Allocator + Copy> Lru2<A> {
    fn new(alloc: A, capacity: usize, trace: &[u32], keys: u32) -> Result<Lru2<A>, AllocError> {
        Ok(Lru2 {
            capacity,
            once: Lists::new(alloc, keys)?,
            again: IndexSet::new(alloc, trace.len())?,
            count_again: 0,
            last: vec![in alloc; 0usize; keys as usize]?,
            before: vec![in alloc; 0usize; keys as usize]?,
        })
    }
}

impl<A: Allocator> Lru2<A> {
    /// Accesses the key at an index of the trace, which becomes resident. Returns true on a hit.
    fn access(&mut self, trace: &[u32], at: usize) -> bool {
        let Some(key) = trace.get(at).copied() else {
            return false;
        };
        let is_hit = self.once.mark(key) == RESIDENT;
        if is_hit {
            self.take(key);
        } else {
            self.make_room(trace);
        }
        self.record(key, at);
        self.put(key);
        is_hit
    }

    fn record(&mut self, key: u32, at: usize) {
        let last = entry(&self.last, key);
        if let Some(before) = self.before.get_mut(key as usize) {
            *before = last;
        }
        if let Some(last) = self.last.get_mut(key as usize) {
            *last = at.saturating_add(1);
        }
    }

    fn put(&mut self, key: u32) {
        self.once.set_mark(key, RESIDENT);
        match entry(&self.before, key).checked_sub(1) {
            Some(index) => {
                self.again.insert(index);
                self.count_again = self.count_again.saturating_add(1);
            }
            None => self.once.put(ONCE, key),
        }
    }

    fn take(&mut self, key: u32) {
        self.once.set_mark(key, 0);
        match entry(&self.before, key).checked_sub(1) {
            Some(index) => {
                self.again.remove(index);
                self.count_again = self.count_again.saturating_sub(1);
            }
            None => self.once.take(key),
        }
    }

    fn make_room(&mut self, trace: &[u32]) {
        if self.once.len(ONCE).saturating_add(self.count_again) < self.capacity {
            return;
        }
        let first = self
            .again
            .first()
            .and_then(|index| trace.get(index).copied());
        if let Some(key) = self.once.oldest(ONCE).or(first) {
            self.take(key);
        }
    }
}

fn entry(accesses: &[usize], key: u32) -> usize {
    accesses.get(key as usize).copied().unwrap_or(0)
}

/// Returns whether each access of a trace hits in a new LRU-2 cache, of 'The LRU-K Page Replacement
/// Algorithm for Database Disk Buffering' (1993). The keys are numbers below `keys`.
///
/// # Errors
///
/// `AllocError` if a request for memory is refused.
///
/// # Cost
///
/// Time in proportion to the trace and to `keys`, whatever the capacity. Memory for 9 bits an
/// access and 28 bytes a key.
pub fn lru_2_outcomes<A: Allocator + Copy>(
    alloc: A,
    capacity: NonZeroUsize,
    trace: &[u32],
    keys: u32,
) -> Result<Vec<bool, A>, AllocError>
    ensures long { IfOk result (λ outcomes. length outcomes.items ≡ length trace.now) }
{
    let mut cache = Lru2::new(alloc, capacity.get(), trace, keys)?;
    let mut outcomes = Vec::with_capacity(alloc, trace.len())?;
    for at in 0..trace.len() {
        outcomes.push_reserved(cache.access(trace, at));
    }
    Ok(outcomes)
}
