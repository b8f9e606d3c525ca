//! A run of commands to a cache whose requests for memory are refused.

use clock2q_cache::{Cache, CacheError, DefaultHashBuilder};
use clock2q_command::{Command, Reply, run};
use std::alloc::{Allocator, Global};
use std::num::NonZeroUsize;
use std::test::Fail;
use testing::{Refusing, Tried, same, try_in_turn};

type Numbers<A> = Cache<u64, u64, DefaultHashBuilder, A>;

/// Puts four keys, and hits two.
fn fill<A: Allocator>(cache: &mut Numbers<A>) {
    for key in 1..5 {
        cache.put(key, key);
    }
    cache.get(&4);
    cache.get(&3);
}

/// The replies of a run on such a cache. An earlier run would leave other keys.
const REPLIES: [Reply<u64>; 9] = [
    Reply::Value(None),
    Reply::Value(None),
    Reply::Value(None),
    Reply::Value(None),
    Reply::Value(None),
    Reply::Value(None),
    Reply::Value(Some(3)),
    Reply::Value(Some(4)),
    Reply::Number(4),
];

/// Makes a list of commands and runs it. Returns true if the replies are those expected.
fn replies_as_wanted<'a>(
    alloc: &'a Refusing<Global>,
    cache: &mut Numbers<&'a Refusing<Global>>,
) -> Result<bool, CacheError> {
    let Ok(commands) = vec![in alloc;
        Command::Put(5, 5),
        Command::Put(1, 1),
        Command::Put(6, 6),
        Command::Put(5, 5),
        Command::Peek(1),
        Command::Peek(2),
        Command::Peek(3),
        Command::Peek(4),
        Command::Len,
    ] else {
        return Err(CacheError::Memory);
    };
    let replies = run(alloc, cache, commands)?;
    Ok(replies.as_slice() == REPLIES.as_slice())
}

/// The requests are for the list of commands and the list of replies.
#[test]
fn a_list_of_commands(rt: HostRuntime) -> Result<(), Fail> {
    let alloc = Refusing::new(rt.alloc());
    let capacity = NonZeroUsize::new(4).unwrap_or(NonZeroUsize::MIN);
    let mut cache = Cache::new(&alloc, capacity)?;
    fill(&mut cache);
    let tried = try_in_turn(&alloc, true, CacheError::Memory, || {
        replies_as_wanted(&alloc, &mut cache)
    });
    same(tried, Tried::Done(2))
}
