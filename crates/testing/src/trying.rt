//! A call that is repeated, with one more request for memory granted each time.

use crate::refusing::Refusing;
use std::alloc::Allocator;

/// More requests than any of the tested calls makes.
const MANY: u64 = 1000;

/// The outcome of a call whose requests for memory were refused in turn.
///
/// # Example
///
/// ```
/// let tried = try_in_turn(&alloc, 8, AllocError, || {
///     Ok(Vec::<u8, _>::with_capacity(&alloc, 8)?.capacity())
/// });
/// assert_eq!(rt; tried, Tried::Done(1));
/// ```
#[derive(Clone, Copy, Debug, PartialEq)]
pub enum Tried {
    /// It makes this many requests, and returned what it should whenever one was refused.
    Done(u64),
    /// It returned something else after this many granted requests.
    OtherAnswer(u64),
    /// It kept memory after this many granted requests.
    Kept(u64),
    /// It always made more requests than were granted.
    Never,
}

/// Makes a call with no request granted, then with one, and so on until none is refused: each time
/// once with only the next request refused, and once with all later ones refused too.
///
/// The call has to return `answer`, or `refusal` if a request was refused, and to give back what it
/// takes.
pub fn try_in_turn<A, T, E, F>(alloc: &Refusing<A>, answer: T, refusal: E, mut call: F) -> Tried
where
    A: Allocator,
    T: PartialEq + Drop,
    E: PartialEq + Drop,
    F: FnMut() -> Result<T, E>,
    requires { F.IsAlwaysCallable call }
{
    let held = alloc.held();
    for granted in 0..MANY {
        for further in [0, u64::MAX] {
            let before = alloc.refuse(granted, further);
            let outcome = call();
            let is_refused = alloc.requests() > before;
            let is_right = match outcome {
                Ok(value) => value == answer,
                Err(other) => is_refused && other == refusal,
            };
            alloc.grant();
            if !is_right {
                return Tried::OtherAnswer(granted);
            }
            if alloc.held() != held {
                return Tried::Kept(granted);
            }
            if !is_refused {
                return Tried::Done(granted);
            }
        }
    }
    Tried::Never
}
