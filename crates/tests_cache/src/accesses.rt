//! Runs over a stream: each key is looked up, and put if it isn't resident.
ghost use Rattle.std.specs.Prelude.{◌<◌, ◌≤◌};

use crate::calls::{Answer, Call};
use crate::model::Model;
use crate::stream::Stream;
use clock2q_cache::{Cache, DefaultHashBuilder};
use std::alloc::AllocError;

/// The result of a run: the number of keys that were resident, and the sum of their values, modulo
/// 2^64. A key's value is the number of the access that put it.
#[derive(Clone, Copy, Debug, PartialEq)]
pub(crate) struct Hits {
    pub(crate) count: u64,
    pub(crate) sum: u64,
}

impl Hits {
    fn none() -> Hits {
        Hits { count: 0, sum: 0 }
    }

    fn add(&mut self, value: u64) {
        self.count = self.count.wrapping_add(1);
        self.sum = self.sum.wrapping_add(value);
    }
}

/// Runs this many accesses of a stream on a cache.
pub(crate) fn on_cache(
    cache: &mut Cache<u64, u64, DefaultHashBuilder>,
    accesses: u64,
    spread: u64,
) -> Hits
    requires some { 0 < spread }
    requires few { spread ≤ 32 }
{
    let mut stream = Stream::new(spread);
    let mut hits = Hits::none();
    for access in 0..accesses {
        let key = stream.next();
        if let Some(value) = cache.get(&key) {
            hits.add(*value);
        } else {
            cache.put(key, access);
        }
    }
    hits
}

/// Runs them on plain lists.
pub(crate) fn on_lists(lists: &mut Model, accesses: u64, spread: u64) -> Result<Hits, AllocError>
    requires some { 0 < spread }
    requires few { spread ≤ 32 }
{
    let mut stream = Stream::new(spread);
    let mut hits = Hits::none();
    for access in 0..accesses {
        let key = stream.next();
        if let Answer::Value(Some(value)) = lists.answer(Call::Get(key))? {
            hits.add(value);
        } else {
            lists.answer(Call::Put(key, access))?;
        }
    }
    Ok(hits)
}
