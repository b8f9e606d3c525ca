//! The same commands under two hashers.
ghost use Rattle.clock2q_machine.specs.Steps.{answers, after_all};
ghost use Rattle.clock2q_text.specs.Commands.{call_of, answer_of, AreSupplied};
ghost use Rattle.std.specs.Prelude.{◌≡◌, IfOk, IfErr, OnOk, OnErr, map};

use clock2q::command::{Command, Reply, run};
use clock2q::{Cache, CacheError};
use std::alloc::Allocator;
use std::hash::{BuildHasher, Hash};

/// Runs the same commands on two caches that differ only in their hashers, and returns the replies
/// of both, which are the same.
///
/// # Errors
///
/// `Memory` if a list of replies can't be reserved. If it is the list for `other`, all commands
/// have run on `one` and none on `other`; otherwise both caches are unchanged.
pub fn run_on_both<K, V, S, T, A>(
    alloc: A,
    one: &mut Cache<K, V, S, A>,
    other: &mut Cache<K, V, T, A>,
    commands: Vec<Command<K, V, A>, A>,
    again: Vec<Command<K, V, A>, A>,
) -> Result<(Vec<Reply<V>, A>, Vec<Reply<V>, A>), CacheError>
where
    K: Hash + Eq + Default + Drop,
    V: Copy,
    S: BuildHasher,
    T: BuildHasher,
    A: Allocator + Copy,
    requires alike { other.old.machine ≡ one.old.machine }
    requires prefills { AreSupplied (map call_of commands.items) }
    requires same { map call_of again.items ≡ map call_of commands.items }
    ensures ran { IfOk result
        (λ both. map answer_of both.0.items ≡
        answers K.eq (map call_of commands.items) one.old.machine) }
    ensures left { OnOk result
        (one.new.machine ≡ after_all K.eq (map call_of commands.items) one.old.machine) }
    ensures replies { IfOk result
        (λ both. map answer_of both.1.items ≡ map answer_of both.0.items) }
    ensures machine { IfOk result (λ both. other.new.machine ≡ one.new.machine) }
    ensures memory { IfErr result (λ e. e ≡ CacheError.Memory) }
    ensures unrun { OnErr result (other.new ≡ other.old) }
{
    let replies = run(alloc, one, commands)?;
    Ok((replies, run(alloc, other, again)?))
}
