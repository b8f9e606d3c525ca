//! A cache whose values count how many of them were dropped.

use crate::verb::Verb;
use clock2q_cache::{Cache, DefaultHashBuilder};
use std::alloc::{AllocError, Global};
use std::cell::Cell;
use std::num::NonZeroUsize;
use testing::{Refusing, number_of, two_words};

/// A value that counts in a place that all values of a run share.
struct Dropped<'a> {
    drops: &'a Cell<u64>,
}

impl Drop for Dropped<'_> {
    fn drop(self) {
        let Dropped { drops } = self;
        drops.set(drops.get().saturating_add(1));
    }
}

type Dropping<'a> = Cache<u64, Dropped<'a>, DefaultHashBuilder, &'a Refusing<Global>>;

/// Makes a cache for this many keys, makes calls of it, and writes after each how many values were
/// dropped, at the end those that the cache drops too.
pub(crate) fn play_drops(
    memory: &Refusing<Global>,
    capacity: u64,
    calls: &str,
    replies: &mut String,
) -> Result<(), AllocError> {
    let drops = Cell::new(0u64);
    play_calls(memory, capacity, &drops, calls, replies)?;
    write!(replies, "{}\n", drops.get())
}

/// Makes the cache, makes calls of it, and drops it.
fn play_calls<'a>(
    memory: &'a Refusing<Global>,
    capacity: u64,
    drops: &'a Cell<u64>,
    calls: &str,
    replies: &mut String,
) -> Result<(), AllocError> {
    let most = NonZeroUsize::new(capacity as usize).unwrap_or(NonZeroUsize::MAX);
    match Cache::new(memory, most) {
        Ok(mut cache) => make_calls(&mut cache, drops, calls, replies),
        Err(_) => Ok(()),
    }
}

/// Makes calls, and writes after each how many values were dropped.
fn make_calls<'a>(
    cache: &mut Dropping<'a>,
    drops: &'a Cell<u64>,
    calls: &str,
    replies: &mut String,
) -> Result<(), AllocError> {
    for call in calls.split_terminator(';') {
        make_call(cache, drops, call);
        write!(replies, "{}\n", drops.get())?;
    }
    Ok(())
}

/// Puts a key, removes one, or clears the cache.
fn make_call<'a>(cache: &mut Dropping<'a>, drops: &'a Cell<u64>, call: &str) {
    let (name, key) = two_words(call);
    let key = number_of(key);
    match Verb::named(name) {
        Some(Verb::Put) => drop(cache.put(key, Dropped { drops })),
        Some(Verb::Remove) => drop(cache.remove(&key)),
        _ => cache.clear(),
    }
}
