//! Replaying a trace: how many keys of a list hit in a new cache.
ghost use Rattle.clock2q_uses.specs.Replay.{is_hit, put_of, trace_hits};
ghost use Rattle.clock2q_machine.specs.Steps.{answers};
ghost use Rattle.clock2q_text.specs.Commands.{call_of, answer_of};
ghost use Rattle.std.specs.List.{count_by};
ghost use Rattle.std.specs.NonZero.{non_zero_usize_get};
ghost use Rattle.std.specs.Prelude.{◌≡◌, ◌≢◌, ◌<◌, ◌↔◌, Err, eqb, IfOk, IfErr, IsErrOf, map};

use clock2q::command::{Command, Reply, run};
use clock2q::{Cache, CacheError, MAX_CAPACITY};
use std::alloc::Global;
use std::num::NonZeroUsize;

/// Puts each key of the trace in a new cache, and returns the number of keys that were resident.
///
/// # Errors
///
/// `Capacity` above [`MAX_CAPACITY`], and `Memory` if a request for memory is refused: for the
/// cache, the commands or the replies.
pub fn replay(alloc: Global, capacity: NonZeroUsize, trace: &[u64]) -> Result<usize, CacheError>
    ensures hits { IfOk result (λ hits. hits ≡ trace_hits (non_zero_usize_get capacity) trace.now) }
    ensures capacity { IsErrOf result CacheError.Capacity ↔
        (MAX_CAPACITY < non_zero_usize_get capacity) }
    ensures policy { result ≢ Err CacheError.Policy }
{
    hits_in(alloc, &mut Cache::new(alloc, capacity)?, trace)
}

/// Puts each key of the trace in a cache, and returns the number of keys that were resident.
fn hits_in(alloc: Global, cache: &mut Cache<u64, u64>, trace: &[u64]) -> Result<usize, CacheError>
    ensures hits { IfOk result
        (λ hits. hits ≡ count_by is_hit (answers eqb (map put_of trace.now) cache.old.machine)) }
    ensures memory { IfErr result (λ e. e ≡ CacheError.Memory) }
{
    let replies = run(alloc, cache, puts_of(alloc, trace)?)?;
    Ok(hit_count(&replies))
}

/// Returns a `Put` for each key, with the key as its value.
///
/// # Errors
///
/// `Memory` if the list can't be reserved.
pub fn puts_of(alloc: Global, keys: &[u64]) -> Result<Vec<Command<u64, u64>>, CacheError>
    ensures puts { IfOk result (λ puts. map call_of puts.items ≡ map put_of keys.now) }
    ensures memory { IfErr result (λ e. e ≡ CacheError.Memory) }
{
    let mut puts = Vec::with_capacity(alloc, keys.len())?;
    for key in keys {
        puts.push_reserved(Command::Put(*key, *key));
    }
    Ok(puts)
}

/// Returns the number of replies that have a value.
pub fn hit_count(replies: &[Reply<u64>]) -> usize
    ensures hits { result ≡ count_by is_hit (map answer_of replies.now) }
{
    let mut hits = 0;
    for reply in replies {
        if is_hit(reply) {
            hits += 1;
        }
    }
    hits
}

/// Returns true for a reply with a value.
fn is_hit(reply: &Reply<u64>) -> bool
    ensures hit { result ≡ is_hit (answer_of reply.now) }
{
    matches!(reply, Reply::Value(Some(_)))
}
