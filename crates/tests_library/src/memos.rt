//! Memos of squares, with values and residents worked out by hand.
ghost use Rattle.std.specs.Prelude.{ℕ};
ghost use Rattle.clock2q_memo.specs.Memo.{IsCallableAt};

use clock2q::memo::recall;
use clock2q::{CacheError, Memo};
use std::alloc::Global;
use std::cell::Cell;
use std::num::NonZeroUsize;
use std::test::Fail;
use testing::{same, same_at};

fn square(key: &u64) -> u64 {
    key.wrapping_mul(*key)
}

/// Looks a hundred keys up in turn, ten times each.
fn squares_are_returned<F: Fn(&u64) -> u64>(memo: &mut Memo<u64, u64, F>) -> Result<(), Fail>
    requires { (function : F) (key : ℕ) → IsCallableAt F.Fn function key }
{
    for round in 0..1000u64 {
        let key = round % 100;
        let value = square(&key);
        same((memo.get(key), memo.get_recorded(key)), (value, value))?;
    }
    Ok(())
}

/// Looks two keys up in turn.
fn squares_of_two<F: Fn(&u64) -> u64>(memo: &mut Memo<u64, u64, F>) -> Result<(), Fail>
    requires { (function : F) (key : ℕ) → IsCallableAt F.Fn function key }
{
    for _ in 0..5 {
        same((memo.get(3), memo.get_recorded(4)), (9, 16))?;
    }
    Ok(())
}

/// Looks the keys 1 to 20 up, which fit.
fn look_up_twenty<F: Fn(&u64) -> u64>(memo: &mut Memo<u64, u64, F>)
    requires { (function : F) (key : ℕ) → IsCallableAt F.Fn function key }
{
    for key in 1..21u64 {
        memo.get(key);
    }
}

/// Looks these keys up twice, the second time with recording a hit.
fn look_up_each_twice<F: Fn(&u64) -> u64>(memo: &mut Memo<u64, u64, F>)
    requires { (function : F) (key : ℕ) → IsCallableAt F.Fn function key }
{
    for key in 1..21u64 {
        memo.get(key);
        memo.get_recorded(key);
    }
}

#[test]
fn one_call_for_each_key(rt: HostRuntime) -> Result<(), Fail> {
    let calls = Cell::new(0u32);
    let counted = |key: &u64| {
        calls.set(calls.get().wrapping_add(1));
        square(key)
    };
    let capacity = NonZeroUsize::new(20).unwrap_or(NonZeroUsize::MIN);
    let mut memo = Memo::new(rt.alloc(), capacity, counted)?;
    look_up_each_twice(&mut memo);
    look_up_twenty(&mut memo);
    same(calls.get(), 20)
}

/// Hits a key and looks one more up: the key stays if the hit is recorded, and otherwise another does.
fn hit_one<F: Fn(&u64) -> u64>(memo: &mut Memo<u64, u64, F>, is_recorded: bool) -> Result<(), Fail>
    requires { (function : F) (key : ℕ) → IsCallableAt F.Fn function key }
{
    look_up_twenty(memo);
    if is_recorded {
        memo.get_recorded(1);
    } else {
        memo.get(1);
    }
    memo.get(21);
    let kept = (memo.contains(&1), memo.contains(&3));
    same(kept, (is_recorded, !is_recorded))
}

/// Looks five keys up, one of them twice.
fn recalled<F: Fn(&u64) -> u64>(alloc: Global, memo: &mut Memo<u64, u64, F>) -> Result<(), Fail>
    requires { (function : F) (key : ℕ) → IsCallableAt F.Fn function key }
{
    let values = recall(alloc, memo, vec![in alloc; 3, 1, 3, 2, 9]?)?;
    same(values.as_slice(), [9, 1, 9, 4, 81].as_slice())
}

/// What is looked up in a memo of squares.
#[derive(Clone, Copy)]
enum Run {
    Hundred,
    Two,
    /// One of twenty keys is hit, which may be recorded.
    HitOne(bool),
    List,
}

/// Looks up what the run says.
fn look_up<F: Fn(&u64) -> u64>(
    alloc: Global,
    memo: &mut Memo<u64, u64, F>,
    run: Run,
) -> Result<(), Fail>
    requires { (function : F) (key : ℕ) → IsCallableAt F.Fn function key }
{
    match run {
        Run::Hundred => squares_are_returned(memo),
        Run::Two => squares_of_two(memo),
        Run::HitOne(is_recorded) => hit_one(memo, is_recorded),
        Run::List => recalled(alloc, memo),
    }
}

/// The same, with a memo of this many squares made for it.
fn look_up_anew(alloc: Global, capacity: usize, run: Run) -> Result<(), Fail> {
    let capacity = NonZeroUsize::new(capacity).unwrap_or(NonZeroUsize::MIN);
    let mut memo = Memo::new(alloc, capacity, square)?;
    look_up(alloc, &mut memo, run)
}

#[test]
fn every_value_is_the_square(rt: HostRuntime) -> Result<(), Fail> {
    look_up_anew(rt.alloc(), 8, Run::Hundred)
}

#[test]
fn one_value_at_a_time(rt: HostRuntime) -> Result<(), Fail> {
    look_up_anew(rt.alloc(), 1, Run::Two)
}

#[test]
fn a_recorded_hit_saves_the_key(rt: HostRuntime) -> Result<(), Fail> {
    look_up_anew(rt.alloc(), 20, Run::HitOne(true))
}

#[test]
fn an_unrecorded_hit_saves_nothing(rt: HostRuntime) -> Result<(), Fail> {
    look_up_anew(rt.alloc(), 20, Run::HitOne(false))
}

#[test]
fn a_list_of_keys(rt: HostRuntime) -> Result<(), Fail> {
    look_up_anew(rt.alloc(), 2, Run::List)
}

/// Looks a key up, clears the memo, and returns true if it is empty.
fn is_cleared<F: Fn(&u64) -> u64>(memo: &mut Memo<u64, u64, F>) -> bool
    requires { (function : F) (key : ℕ) → IsCallableAt F.Fn function key }
{
    memo.get(7);
    memo.clear();
    memo.is_empty()
}

#[test]
fn cleared_and_taken_apart(rt: HostRuntime) -> Result<(), Fail> {
    let capacity = NonZeroUsize::new(2).unwrap_or(NonZeroUsize::MIN);
    let mut memo = Memo::new(rt.alloc(), capacity, square)?;
    let is_empty = is_cleared(&mut memo);
    let function = memo.into_function();
    same((is_empty, function(&5)), (true, 25))
}

#[test]
fn a_capacity_past_the_limit(rt: HostRuntime) -> Result<(), Fail> {
    let capacity = NonZeroUsize::new(16_777_216).unwrap_or(NonZeroUsize::MIN);
    let refused = Memo::<u64, u64, _>::new(rt.alloc(), capacity, square);
    same(refused.err(), Some(CacheError::Capacity))
}

/// There is no quotient.
#[derive(Clone, Copy, Debug, PartialEq)]
struct ByZero;

fn quotient(key: &u64) -> Result<u64, ByZero> {
    60u64.checked_div(*key).ok_or(ByZero)
}

/// Quotients are returned and remembered, and refusals are not remembered.
fn quotients_are_returned<F: Fn(&u64) -> Result<u64, ByZero>>(
    memo: &mut Memo<u64, u64, F>,
) -> Result<(), Fail>
    requires { (function : F) (key : ℕ) → IsCallableAt F.Fn function key }
{
    for (key, wanted) in [
        (4, Ok(15)),
        (0, Err(ByZero)),
        (4, Ok(15)),
        (0, Err(ByZero)),
        (7, Ok(8)),
    ] {
        same_at(memo.get_or_try(key), wanted, key)?;
    }
    same((memo.len(), memo.contains(&0)), (2, false))
}

#[test]
fn a_function_that_may_fail(rt: HostRuntime) -> Result<(), Fail> {
    let capacity = NonZeroUsize::new(2).unwrap_or(NonZeroUsize::MIN);
    let mut memo = Memo::fallible(rt.alloc(), capacity, quotient)?;
    quotients_are_returned(&mut memo)
}
