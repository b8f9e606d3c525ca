//! Caches and memos that can't be made, or grow, because requests for memory are refused.

use clock2q_cache::{Cache, CacheError, DefaultHashBuilder};
use clock2q_memo::Memo;
use std::alloc::Global;
use std::num::NonZeroUsize;
use std::test::Fail;
use testing::{Refusing, Tried, same_at, try_in_turn};

/// A call that makes a cache or a memo.
#[derive(Clone, Copy, Debug)]
enum Maker {
    New,
    WithHasher,
    /// With a Small of this many keys, and a window of the same length.
    WithPolicy(usize),
    /// With half the capacity at first.
    Grown,
    MemoNew,
    MemoWithHasher,
}

/// What a constructor makes, with the number of keys that it has room for.
trait Made {
    fn room(&self) -> usize;
}

impl Made for Cache<u64, u64, DefaultHashBuilder, &Refusing<Global>> {
    fn room(&self) -> usize {
        self.capacity()
    }
}

impl<F: Fn(&u64) -> u64> Made for Memo<u64, u64, F, DefaultHashBuilder, &Refusing<Global>> {
    fn room(&self) -> usize {
        self.capacity()
    }
}

/// Returns the capacity of what was made.
fn capacity_of<T: Made + Drop>(made: Result<T, CacheError>) -> Result<usize, CacheError> {
    match made {
        Ok(made) => Ok(made.room()),
        Err(refusal) => Err(refusal),
    }
}

fn square(key: &u64) -> u64 {
    key.wrapping_mul(*key)
}

/// Makes a cache for half as many keys, raises its capacity, and returns that.
fn grown(alloc: &Refusing<Global>, capacity: NonZeroUsize) -> Result<usize, CacheError> {
    let half = NonZeroUsize::new(capacity.get() / 2).unwrap_or(NonZeroUsize::MIN);
    let mut cache: Cache<u64, u64, DefaultHashBuilder, &Refusing<Global>> = Cache::new(
        alloc, half,
    )?;
    cache.grow(capacity)?;
    Ok(cache.capacity())
}

/// Makes a cache or a memo, and returns its capacity.
fn make(
    maker: Maker,
    alloc: &Refusing<Global>,
    capacity: NonZeroUsize,
) -> Result<usize, CacheError> {
    let hasher = DefaultHashBuilder::new();
    match maker {
        Maker::New => capacity_of(Cache::new(alloc, capacity)),
        Maker::WithHasher => capacity_of(Cache::with_hasher(alloc, capacity, hasher)),
        Maker::WithPolicy(small) => capacity_of(Cache::with_policy(
            alloc, capacity, small, small, hasher,
        )),
        Maker::Grown => grown(alloc, capacity),
        Maker::MemoNew => capacity_of(Memo::new(alloc, capacity, square)),
        Maker::MemoWithHasher => capacity_of(Memo::with_hasher(alloc, capacity, hasher, square)),
    }
}

/// A cache requests memory for nine vectors: two of the index; the records, positions and bits of
/// Small and Main; the records and keys of the history; the residents' keys and values; the free
/// slots. One without a history needs neither of the history's two, and one without Small needs no
/// positions. One that grows requests all of them again.
const REQUESTS: [(Maker, usize, u64); 17] = [
    (Maker::New, 20, 9),
    (Maker::New, 2, 9),
    (Maker::New, 1, 6),
    (Maker::WithHasher, 20, 9),
    (Maker::WithHasher, 2, 9),
    (Maker::WithHasher, 1, 6),
    (Maker::WithPolicy(19), 20, 9),
    (Maker::WithPolicy(1), 20, 9),
    (Maker::WithPolicy(0), 20, 8),
    (Maker::Grown, 20, 18),
    (Maker::Grown, 2, 15),
    (Maker::MemoNew, 20, 9),
    (Maker::MemoNew, 2, 9),
    (Maker::MemoNew, 1, 6),
    (Maker::MemoWithHasher, 20, 9),
    (Maker::MemoWithHasher, 2, 9),
    (Maker::MemoWithHasher, 1, 6),
];

/// Each of a call's requests is refused in turn; there are this many.
fn is_refused_each(
    alloc: &Refusing<Global>,
    maker: Maker,
    capacity: usize,
    requests: u64,
) -> Result<(), Fail> {
    let wanted = NonZeroUsize::new(capacity).unwrap_or(NonZeroUsize::MAX);
    let tried = try_in_turn(
        alloc,
        capacity,
        CacheError::Memory,
        || make(maker, alloc, wanted),
    );
    let left = (tried, alloc.held());
    same_at(left, (Tried::Done(requests), 0), (maker, capacity))
}

#[test]
fn refused_in_turn(rt: HostRuntime) -> Result<(), Fail> {
    for (maker, capacity, requests) in REQUESTS {
        is_refused_each(&Refusing::new(rt.alloc()), maker, capacity, requests)?;
    }
    Ok(())
}

/// A call is refused for its arguments, and not for lack of memory.
fn is_refused_for(
    alloc: &Refusing<Global>,
    maker: Maker,
    capacity: usize,
    reason: CacheError,
) -> Result<(), Fail> {
    let capacity = NonZeroUsize::new(capacity).unwrap_or(NonZeroUsize::MAX);
    let made = make(maker, alloc, capacity);
    same_at((made, alloc.requests()), (Err(reason), 0), maker)
}

/// An impossible capacity, or shares that don't fit, are refused before any memory is requested.
#[test]
fn nothing_asked_before(rt: HostRuntime) -> Result<(), Fail> {
    let alloc = Refusing::new(rt.alloc());
    alloc.refuse_after(0);
    for (maker, capacity, reason) in [
        (Maker::New, 16_777_216, CacheError::Capacity),
        (Maker::MemoNew, 16_777_216, CacheError::Capacity),
        (Maker::WithPolicy(1), 16_777_216, CacheError::Capacity),
        (Maker::WithPolicy(1), 1, CacheError::Policy),
    ] {
        is_refused_for(&alloc, maker, capacity, reason)?;
    }
    Ok(())
}
