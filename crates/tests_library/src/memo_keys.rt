//! What a memo does with its keys.
ghost use Rattle.clock2q_memo.specs.Memo.{IsCallableAt};

use clock2q_memo::Memo;
use std::num::NonZeroUsize;
use std::test::Fail;
use testing::{Counted, Counts, same, same_at};

/// A value that a memo returns, and how often it hashed the key.
type Looked = (u64, u64);

/// Looks a key up, without and with recording a hit.
fn look_up_twice<'a, F: Fn(&Counted<'a>) -> u64>(
    memo: &mut Memo<Counted<'a>, u64, F>,
    counts: &'a Counts,
    id: u64,
) -> (Looked, Looked)
    requires { (function : F) (key : _) → IsCallableAt F.Fn function key }
{
    let value = memo.get(counts.key(id));
    let hashes = counts.asked().1;
    let recorded = memo.get_recorded(counts.key(id));
    ((value, hashes), (recorded, counts.asked().1))
}

/// Looks keys up, each twice.
fn misses_hash_twice<'a, F: Fn(&Counted<'a>) -> u64>(
    memo: &mut Memo<Counted<'a>, u64, F>,
    counts: &'a Counts,
) -> Result<(), Fail>
    requires { (function : F) (key : _) → IsCallableAt F.Fn function key }
{
    for (id, hashes) in [(1, 2), (1, 1), (2, 2), (3, 2), (2, 1)] {
        let looked = look_up_twice(memo, counts, id);
        same_at(looked, ((7, hashes), (7, 1)), id)?;
    }
    Ok(())
}

#[test]
fn a_miss_hashes_its_key_twice(rt: HostRuntime) -> Result<(), Fail> {
    let counts = Counts::new();
    let capacity = NonZeroUsize::new(2).unwrap_or(NonZeroUsize::MIN);
    let mut memo = Memo::new(rt.alloc(), capacity, |_: &Counted<'_>| 7u64)?;
    misses_hash_twice(&mut memo, &counts)
}

/// Looks six keys up, two of them for the second time, and returns the sum of their values.
fn look_up_six<'a, F: Fn(&Counted<'a>) -> u64>(
    memo: &mut Memo<Counted<'a>, u64, F>,
    counts: &'a Counts,
) -> u64
    requires { (function : F) (key : _) → IsCallableAt F.Fn function key }
{
    let mut sum = 0u64;
    for id in [1, 2, 3, 1, 4, 4] {
        sum = sum.wrapping_add(memo.get(counts.key(id)));
    }
    sum
}

/// Takes a memo apart, and returns how many keys were dropped, and how many are left.
fn dropped_with<'a, F: Fn(&Counted<'a>) -> u64 + Drop>(
    memo: Memo<Counted<'a>, u64, F>,
    counts: &'a Counts,
) -> (u64, u64) {
    drop(memo.into_function());
    counts.dropped()
}

#[test]
fn no_key_outlives_its_memo(rt: HostRuntime) -> Result<(), Fail> {
    let counts = Counts::new();
    let capacity = NonZeroUsize::new(2).unwrap_or(NonZeroUsize::MIN);
    let mut memo = Memo::new(rt.alloc(), capacity, |_: &Counted<'_>| 7u64)?;
    let sum = look_up_six(&mut memo, &counts);
    same((sum, dropped_with(memo, &counts)), (42, (6, 0)))
}
