//! A cache of counted keys, whose calls are given as small values.

mod at_slot;
mod shown;

use crate::replies::{Reply, Watch};
use crate::verb::Verb;
use clock2q_cache::{Cache, CacheError};
use std::alloc::{AllocError, Global};
use std::hash::BuildHasher;
use std::num::NonZeroUsize;
use testing::{Counted, CountedHashes, Refusing};

/// A cache whose keys, hashers and requests for memory are counted.
pub(crate) type Counting<'a, S> = Cache<
    Counted<'a>,
    u64,
    CountedHashes<'a, S>,
    &'a Refusing<Global>,
>;

/// An error of a closure.
type Refusal<'a> = Vec<u8, &'a Refusing<Global>>;

/// A cache, and what its run counts.
#[derive(Drop)]
pub(crate) struct Cached<'a, S: BuildHasher> {
    cache: Counting<'a, S>,
    watch: Watch<'a>,
}

impl<'a, S: BuildHasher + Drop> Cached<'a, S> {
    /// Makes a cache for this many keys, with the usual shares or with these of Small and the window.
    pub(crate) fn new(
        watch: Watch<'a>,
        hasher: S,
        capacity: u64,
        shares: Option<(u64, u64)>,
    ) -> Result<Cached<'a, S>, CacheError> {
        let most = NonZeroUsize::new(capacity as usize).unwrap_or(NonZeroUsize::MAX);
        let hasher = CountedHashes {
            hasher,
            counts: watch.counts,
        };
        let cache = match shares {
            None => Cache::with_hasher(watch.memory, most, hasher)?,
            Some((small, window)) => Cache::with_policy(
                watch.memory,
                most,
                small as usize,
                window as usize,
                hasher,
            )?,
        };
        Ok(Cached { cache, watch })
    }
}

impl<'a, S: BuildHasher> Cached<'a, S> {
    /// Makes a call, or answers a question about the run, and writes the reply, with a line end.
    pub(crate) fn write_reply(
        &mut self,
        verb: Verb,
        numbers: (u64, u64),
        replies: &mut String,
    ) -> Result<(), AllocError> {
        match verb {
            Verb::Show(shown) => self.write_shown(shown, replies),
            _ => self.reply(verb, numbers).write(replies),
        }
    }

    /// Makes a call, or answers a question about the run.
    fn reply(&mut self, verb: Verb, (first, second): (u64, u64)) -> Reply {
        match verb {
            Verb::Get => Reply::Value(self.get(first)),
            Verb::GetMut => Reply::Value(self.get_mut(first, second)),
            Verb::GetAt => Reply::Value(self.get_at(first as usize, second)),
            Verb::Slot => Reply::Value(self.slot(first)),
            Verb::Peek => Reply::Value(self.peek(first)),
            Verb::Contains => Reply::Flag(self.contains(first)),
            Verb::Len => Reply::Number(self.len()),
            Verb::Capacity => Reply::Number(self.capacity()),
            Verb::IsEmpty => Reply::Flag(self.is_empty()),
            Verb::At(call) => self.reply_at(call, first, second),
            Verb::Ask(question) => self.watch.reply(question),
            Verb::Show(_) => Reply::Unknown,
            _ => self.change(verb, first, second),
        }
    }

    /// Makes a call that lets keys in or out.
    fn change(&mut self, verb: Verb, first: u64, second: u64) -> Reply {
        match verb {
            Verb::Put => Reply::Value(self.put(first, second)),
            Verb::With => Reply::Pair(self.with(first, second)),
            Verb::Try => self.fetch(first, Ok(second)),
            Verb::TryFail => self.fail(first, b""),
            Verb::TryMut => Reply::Value(self.fetch_mut(first, Ok(second))),
            Verb::TryMutFail => Reply::Value(self.fetch_mut(first, Err(()))),
            Verb::Fail => self.fail(first, b"no"),
            Verb::SlotFor => self.slot_for(first, second),
            Verb::Enter => self.enter(first, second),
            Verb::Puts => Reply::Number(self.puts(first, second)),
            Verb::Stores => Reply::Number(self.stores(first, second)),
            Verb::Prefill => Reply::Number(self.prefill()),
            Verb::Remove => Reply::Flag(self.remove(first)),
            Verb::Retain => Reply::Number(self.retain(first)),
            Verb::Clear => self.clear(),
            _ => Reply::Unknown,
        }
    }
}

impl<'a, S: BuildHasher> Cached<'a, S> {
    /// Makes a key.
    fn key(&self, id: u64) -> Counted<'a> {
        self.watch.counts.key(id)
    }

    fn get(&mut self, id: u64) -> Option<u64> {
        let key = self.key(id);
        self.cache.get(&key).copied()
    }

    /// Writes a value where one is lent, and returns the one before.
    fn get_mut(&mut self, id: u64, value: u64) -> Option<u64> {
        let key = self.key(id);
        let held = self.cache.get_mut(&key)?;
        let before = *held;
        *held = value;
        Some(before)
    }

    fn slot(&mut self, id: u64) -> Option<u64> {
        let key = self.key(id);
        Some(self.cache.slot(&key)? as u64)
    }

    fn peek(&self, id: u64) -> Option<u64> {
        let key = self.key(id);
        self.cache.peek(&key).copied()
    }

    fn contains(&self, id: u64) -> bool {
        let key = self.key(id);
        self.cache.contains(&key)
    }

    fn get_at(&mut self, slot: usize, id: u64) -> Option<u64> {
        let key = self.key(id);
        self.cache.get_at(slot, &key).copied()
    }

    fn put(&mut self, id: u64, value: u64) -> Option<u64> {
        let key = self.key(id);
        self.cache.put(key, value)
    }

    /// Fetches a value, and returns it with the number of calls of the closure.
    fn with(&mut self, id: u64, value: u64) -> (u64, u64) {
        let key = self.key(id);
        let mut calls = 0u64;
        let value = *self.cache.get_or_insert_with(key, || {
            calls = calls.saturating_add(1);
            value
        });
        (value, calls)
    }

    /// Fetches a value, unless the closure fails, with an error that may own bytes.
    fn fetch(&mut self, id: u64, fetched: Result<u64, Refusal<'a>>) -> Reply {
        let key = self.key(id);
        match self.cache.try_get_or_insert_with(key, || fetched) {
            Ok(value) => Reply::Value(Some(*value)),
            Err(refusal) => Reply::Failed(refusal.len() as u64),
        }
    }

    /// Fetches a value with a closure that fails, with an error that owns these bytes.
    fn fail(&mut self, id: u64, bytes: &[u8]) -> Reply {
        let memory = self.watch.memory;
        let refusal = Vec::from_slice(memory, bytes).unwrap_or(Vec::new(memory));
        self.fetch(id, Err(refusal))
    }

    /// Fetches a value, unless the closure fails, and writes one more where it is lent.
    fn fetch_mut(&mut self, id: u64, fetched: Result<u64, ()>) -> Option<u64> {
        let key = self.key(id);
        match self.cache.try_get_or_insert_with_mut(key, || fetched) {
            Ok(held) => {
                let before = *held;
                *held = before.wrapping_add(1);
                Some(before)
            }
            Err(()) => None,
        }
    }

    fn slot_for(&mut self, id: u64, value: u64) -> Reply {
        let key = self.key(id);
        let mut calls = 0u64;
        let (slot, value) = self.cache.get_or_insert_mut(key, || {
            calls = calls.saturating_add(1);
            value
        });
        let value = *value;
        Reply::Slot(slot as u64, value, calls)
    }

    fn enter(&mut self, id: u64, value: u64) -> Reply {
        let key = self.key(id);
        let mut calls = 0u64;
        let (slot, value, entered) = self.cache.enter(key, || {
            calls = calls.saturating_add(1);
            value
        });
        let value = *value;
        Reply::Entered(slot as u64, value, calls, entered)
    }

    fn remove(&mut self, id: u64) -> bool {
        let key = self.key(id);
        self.cache.remove(&key)
    }
}

impl<'a, S: BuildHasher> Cached<'a, S> {
    /// Puts keys, each as its own value, and returns how many replaced no value.
    fn puts(&mut self, first: u64, end: u64) -> u64 {
        let mut new = 0u64;
        for id in first..end {
            new = new.saturating_add(self.put(id, id).is_none() as u64);
        }
        new
    }

    /// Does the same, looks each key up at once, and returns how many are found with their value.
    fn stores(&mut self, first: u64, end: u64) -> u64 {
        let mut found = 0u64;
        for id in first..end {
            let is_new = self.put(id, id).is_none();
            found = found.saturating_add((is_new && self.get(id) == Some(id)) as u64);
        }
        found
    }

    /// Makes the slots that were never made, with the values 1, 2 and so on, and returns their number.
    fn prefill(&mut self) -> u64 {
        let mut made = 0u64;
        self.cache.prefill(|| {
            made = made.wrapping_add(1);
            made
        });
        made
    }

    /// Keeps the residents whose bits are set, lowest first, and returns the keys and the values that the
    /// closure was called for, as digits of a number.
    fn retain(&mut self, bits: u64) -> u64 {
        let mut asked = 0u64;
        let mut left = bits;
        self.cache.retain(|key, value| {
            asked = asked.wrapping_mul(10).wrapping_add(key.id);
            asked = asked.wrapping_mul(10).wrapping_add(*value);
            let stays = left % 2 == 1;
            left /= 2;
            stays
        });
        asked
    }

    fn clear(&mut self) -> Reply {
        self.cache.clear();
        Reply::Done
    }

    fn len(&self) -> u64 {
        self.cache.len() as u64
    }

    fn capacity(&self) -> u64 {
        self.cache.capacity() as u64
    }

    fn is_empty(&self) -> bool {
        self.cache.is_empty()
    }
}
