//! Calls on memos that are made already: they request no memory.
ghost use Rattle.std.specs.Prelude.{ℕ};
ghost use Rattle.clock2q_memo.specs.Memo.{IsCallableAt};

use clock2q_cache::DefaultHashBuilder;
use clock2q_memo::Memo;
use std::alloc::{Allocator, Global};
use std::num::NonZeroUsize;
use std::test::Fail;
use testing::{Refusing, same};

/// Refuses every later request, and returns how many were made.
fn refuse_all(alloc: &Refusing<Global>) -> u64 {
    alloc.refuse_after(0);
    alloc.requests()
}

/// Both lookups, first without and then with recording a hit, return the squares of keys.
fn recalls_squares<A: Allocator, F: Fn(&u64) -> u64>(
    alloc: &Refusing<Global>,
    memo: &mut Memo<u64, u64, F, DefaultHashBuilder, A>,
) -> Result<(), Fail>
    requires { (function : F) (key : ℕ) → IsCallableAt F.Fn function key }
{
    let asked = refuse_all(alloc);
    for key in 0..30 {
        let square = key * key;
        same(memo.get(key), square)?;
        same(memo.get_recorded(key), square)?;
    }
    same(alloc.requests(), asked)
}

#[test]
fn memos(rt: HostRuntime) -> Result<(), Fail> {
    let alloc = Refusing::new(rt.alloc());
    let capacity = NonZeroUsize::new(8).unwrap_or(NonZeroUsize::MIN);
    let mut memo = Memo::new(&alloc, capacity, |key: &u64| key.wrapping_mul(*key))?;
    recalls_squares(&alloc, &mut memo)
}
