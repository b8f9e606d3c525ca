//! A cache whose calls reply with the key that leaves.

use crate::replies::Reply;
use crate::verb::Verb;
use clock2q_cache::Cache;
use std::alloc::{AllocError, Global};
use std::hash::BuildHasher;
use std::num::NonZeroUsize;
use testing::{Refusing, number_of, two_numbers, two_words};

/// A cache of plain keys.
#[derive(Drop)]
struct Leaving<'a, S: BuildHasher> {
    cache: Cache<u64, u64, S, &'a Refusing<Global>>,
}

/// Makes a cache for some keys, makes calls of it, and writes their replies.
pub(crate) fn play_leaving<S: BuildHasher + Drop>(
    memory: &Refusing<Global>,
    hasher: S,
    made: &str,
    calls: &str,
    replies: &mut String,
) -> Result<(), AllocError> {
    let most = NonZeroUsize::new(number_of(made) as usize).unwrap_or(NonZeroUsize::MAX);
    match Cache::with_hasher(memory, most, hasher) {
        Ok(cache) => make_calls(&mut Leaving { cache }, calls, replies),
        Err(refusal) => Reply::Refused(refusal).write(replies),
    }
}

/// Makes calls, and writes their replies.
fn make_calls<S: BuildHasher>(
    leaving: &mut Leaving<'_, S>,
    calls: &str,
    replies: &mut String,
) -> Result<(), AllocError> {
    for call in calls.split_terminator(';') {
        reply_to(leaving, call).write(replies)?;
    }
    Ok(())
}

/// Makes the call that a text spells.
fn reply_to<S: BuildHasher>(leaving: &mut Leaving<'_, S>, call: &str) -> Reply {
    let (name, words) = two_words(call);
    match Verb::named(name) {
        Some(verb) => leaving.reply(verb, two_numbers(words)),
        None => Reply::Unknown,
    }
}

impl<S: BuildHasher> Leaving<'_, S> {
    /// Makes a call.
    fn reply(&mut self, verb: Verb, (first, second): (u64, u64)) -> Reply {
        match verb {
            Verb::Put => Reply::Value(self.put(first, second)),
            Verb::PutEvicting => Reply::Left(self.put_evicting(first, second)),
            Verb::PutSlot => self.put_slot(first, second),
            Verb::Evict => Reply::Left(self.evict()),
            Verb::Get => Reply::Value(self.get(first)),
            Verb::GetAt => Reply::Value(self.get_at(first as usize, second)),
            Verb::Remove => Reply::Flag(self.remove(first)),
            Verb::Len => Reply::Number(self.len()),
            _ => Reply::Unknown,
        }
    }

    fn put(&mut self, key: u64, value: u64) -> Option<u64> {
        self.cache.put(key, value)
    }

    /// Puts a value, and returns the key and the value that were replaced or evicted.
    fn put_evicting(&mut self, key: u64, value: u64) -> Option<(u64, u64)> {
        self.cache.put_evicting(key, value)
    }

    fn put_slot(&mut self, key: u64, value: u64) -> Reply {
        let (slot, occupant) = self.cache.put_slot(key, value);
        Reply::Placed(slot as u64, occupant)
    }

    /// Evicts a resident though no key comes, and returns its key and the slot that it had.
    fn evict(&mut self) -> Option<(u64, u64)> {
        match self.cache.evict() {
            Some((key, slot)) => Some((key, slot as u64)),
            None => None,
        }
    }

    fn get(&mut self, key: u64) -> Option<u64> {
        self.cache.get(&key).copied()
    }

    fn get_at(&mut self, slot: usize, key: u64) -> Option<u64> {
        self.cache.get_at(slot, &key).copied()
    }

    fn remove(&mut self, key: u64) -> bool {
        self.cache.remove(&key)
    }

    fn len(&self) -> u64 {
        self.cache.len() as u64
    }
}
