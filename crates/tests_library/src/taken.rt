//! How many bytes caches and memos take when they are made.

use clock2q_cache::{Cache, CacheError, DefaultHashBuilder};
use clock2q_memo::Memo;
use std::alloc::Global;
use std::num::NonZeroUsize;
use std::test::Fail;
use testing::{LinearHashBuilder, Refusing, same_at};

/// The bytes that a cache of 64-bit keys and values with the usual shares takes, by its capacity.
///
/// Each slot takes 45: a record of 16, a byte of flags, a hash, a key and a value of 8 each, and 4
/// for when it is free. Each place of the history, which has half as many, takes 24: two
/// neighbours, a hash and a key. Each position of the window takes 4: Small has a tenth of the slots, and the
/// window half of Small. Each slot of the index takes 8: their number is the least power of two
/// from 16 on such that three quarters of it are at least three times the number of slots and
/// places together, or twice that number above 16,384 of those, or that number above 262,144.
const BYTES: [(usize, u64); 6] = [
    // 45, and 16 slots of the index
    (1, 173),
    // 90, a place, a position, and 16 slots of the index
    (2, 246),
    // 450, 5 places, a position, and 64 slots of the index
    (10, 1_086),
    // 45,000, 500 places, 50 positions, and 8,192 slots of the index
    (1_000, 122_736),
    // 4,500,000, 50,000 places, 5,000 positions, and 524,288 slots of the index
    (100_000, 9_914_304),
    // 9,000,000, 100,000 places, 10,000 positions, and as many slots of the index
    (200_000, 15_634_304),
];

/// The same for a cache with chosen shares, by its capacity and the sizes of Small and the window.
const CHOSEN: [((usize, usize, usize), u64); 3] = [
    // 900, 10 places, no position, and 128 slots of the index
    ((20, 0, 0), 2_164),
    // and 19 positions
    ((20, 19, 19), 2_240),
    // 45,000, 500 places, 1 position, and 8,192 slots of the index
    ((1_000, 500, 1), 122_540),
];

/// What a constructor makes with an allocator takes this many bytes, until it is dropped.
fn holds<T: Drop>(
    alloc: &Refusing<Global>,
    made: Result<T, CacheError>,
    bytes: u64,
) -> Result<(), Fail> {
    let kept = made?;
    same_at(alloc.held(), bytes, bytes)?;
    drop(kept);
    same_at(alloc.held(), 0, bytes)
}

fn identity(key: &u64) -> u64 {
    *key
}

#[test]
fn caches(rt: HostRuntime) -> Result<(), Fail> {
    let alloc = Refusing::new(rt.alloc());
    for (capacity, bytes) in BYTES {
        let capacity = NonZeroUsize::new(capacity).unwrap_or(NonZeroUsize::MIN);
        let made = Cache::<u64, u64, DefaultHashBuilder, &Refusing<Global>>::new(&alloc, capacity);
        holds(&alloc, made, bytes)?;
        let hasher = LinearHashBuilder { times: 1, more: 0 };
        let made = Cache::<u64, u64, LinearHashBuilder, &Refusing<Global>>::with_hasher(
            &alloc, capacity, hasher,
        );
        holds(&alloc, made, bytes)?;
    }
    Ok(())
}

#[test]
fn chosen_shares(rt: HostRuntime) -> Result<(), Fail> {
    let alloc = Refusing::new(rt.alloc());
    for ((capacity, small, window), bytes) in CHOSEN {
        let capacity = NonZeroUsize::new(capacity).unwrap_or(NonZeroUsize::MIN);
        let hasher = DefaultHashBuilder::new();
        let made = Cache::<u64, u64, DefaultHashBuilder, &Refusing<Global>>::with_policy(
            &alloc, capacity, small, window, hasher,
        );
        holds(&alloc, made, bytes)?;
    }
    Ok(())
}

#[test]
fn memos(rt: HostRuntime) -> Result<(), Fail> {
    let alloc = Refusing::new(rt.alloc());
    for (capacity, bytes) in BYTES {
        let capacity = NonZeroUsize::new(capacity).unwrap_or(NonZeroUsize::MIN);
        let made: Result<Memo<u64, u64, _, DefaultHashBuilder, &Refusing<Global>>, CacheError> =
            Memo::new(&alloc, capacity, identity);
        holds(&alloc, made, bytes)?;
        let hasher = LinearHashBuilder { times: 1, more: 0 };
        let made: Result<Memo<u64, u64, _, LinearHashBuilder, &Refusing<Global>>, CacheError> =
            Memo::with_hasher(&alloc, capacity, hasher, identity);
        holds(&alloc, made, bytes)?;
    }
    Ok(())
}
