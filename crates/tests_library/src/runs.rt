//! How many keys the commands of a list compare and hash: as many as the calls that they make.
ghost use Rattle.std.specs.Prelude.{IfOk, map};
ghost use Rattle.clock2q_text.specs.Commands.{AreSupplied, call_of};

use crate::calls::{ALIKE, APART, Counting, put_three};
use clock2q_cache::Cache;
use clock2q_command::{Command, run};
use std::alloc::{AllocError, Global};
use std::num::NonZeroUsize;
use std::test::Fail;
use testing::{Counted, Counts, LinearHashBuilder, same_at};

type Commands<'a> = Vec<Command<Counted<'a>, u64>>;

/// A run asks keys, and hashes one, this often.
fn asks<'a>(
    alloc: Global,
    cache: &mut Counting<'a>,
    counts: &'a Counts,
    commands: Commands<'a>,
    case: (List, (u64, u64)),
) -> Result<(), Fail>
    requires { AreSupplied (map call_of commands.items) }
{
    let (list, wanted) = case;
    let _ = run(alloc, cache, commands)?;
    same_at(counts.asked(), wanted, list)
}

/// Commands that only look a key up.
fn lookups(alloc: Global, counts: &Counts, id: u64) -> Result<Commands<'_>, AllocError>
    ensures { IfOk result (λ commands. AreSupplied (map call_of commands.items)) }
{
    Ok(vec![in alloc;
        Command::Get(counts.key(id)),
        Command::Peek(counts.key(id)),
        Command::Contains(counts.key(id)),
        Command::Set(counts.key(id), 5),
        Command::Try(counts.key(id), None),
    ]?)
}

/// Commands that insert a key, find it and remove it.
fn insertions(alloc: Global, counts: &Counts, id: u64) -> Result<Commands<'_>, AllocError>
    ensures { IfOk result (λ commands. AreSupplied (map call_of commands.items)) }
{
    Ok(vec![in alloc;
        Command::Put(counts.key(id), 5),
        Command::With(counts.key(id), 6),
        Command::Try(counts.key(id), Some(7)),
        Command::Slot(counts.key(id), 8),
        Command::Remove(counts.key(id)),
    ]?)
}

/// The other commands: only one takes a key, which is looked up at its slot.
fn others(alloc: Global, counts: &Counts) -> Result<Commands<'_>, AllocError>
    ensures { IfOk result (λ commands. AreSupplied (map call_of commands.items)) }
{
    let kept = vec![in alloc; false]?;
    Ok(vec![in alloc;
        Command::GetAt(0, counts.key(3)),
        Command::Len,
        Command::IsEmpty,
        Command::Capacity,
        Command::Retain(kept),
        Command::Clear,
    ]?)
}

/// Which commands are run.
#[derive(Clone, Copy, Debug)]
enum List {
    /// [`lookups`] of this key.
    Lookups(u64),
    /// [`insertions`] of this key.
    Insertions(u64),
    /// [`others`].
    Others,
}

fn commands_of(alloc: Global, counts: &Counts, list: List) -> Result<Commands<'_>, AllocError>
    ensures { IfOk result (λ commands. AreSupplied (map call_of commands.items)) }
{
    match list {
        List::Lookups(id) => lookups(alloc, counts, id),
        List::Insertions(id) => insertions(alloc, counts, id),
        List::Others => others(alloc, counts),
    }
}

/// Commands on a cache in which [`put_three`] puts its keys ask keys, and hash one, this often.
fn list_asks<'a>(
    alloc: Global,
    cache: &mut Counting<'a>,
    counts: &'a Counts,
    list: List,
    wanted: (u64, u64),
) -> Result<(), Fail> {
    put_three(cache, counts);
    let commands = commands_of(alloc, counts, list)?;
    asks(alloc, cache, counts, commands, (list, wanted))
}

/// The same, with a cache made for it.
fn asks_anew(
    alloc: Global,
    spread: LinearHashBuilder,
    list: List,
    wanted: (u64, u64),
) -> Result<(), Fail> {
    let counts = Counts::new();
    let capacity = NonZeroUsize::new(2).unwrap_or(NonZeroUsize::MIN);
    let mut cache = Cache::with_hasher(alloc, capacity, spread)?;
    list_asks(alloc, &mut cache, &counts, list, wanted)
}

/// The failing fetch looks into the history too.
#[test]
fn lookups_ask_no_more(rt: HostRuntime) -> Result<(), Fail> {
    for (id, apart, alike) in [(3, 5, 11), (1, 1, 9), (4, 0, 11)] {
        asks_anew(rt.alloc(), APART, List::Lookups(id), (apart, 5))?;
        asks_anew(rt.alloc(), ALIKE, List::Lookups(id), (alike, 5))?;
    }
    Ok(())
}

/// With one hash for all keys, an inserted key is the last under it. Before it are a resident and,
/// unless the key itself was remembered, a remembered key. The fetch by slot finds the key without
/// asking a remembered one.
#[test]
fn insertions_ask_no_more(rt: HostRuntime) -> Result<(), Fail> {
    for (id, apart, alike) in [(3, 5, 14), (1, 5, 9), (4, 4, 14)] {
        asks_anew(rt.alloc(), APART, List::Insertions(id), (apart, 5))?;
        asks_anew(rt.alloc(), ALIKE, List::Insertions(id), (alike, 5))?;
    }
    Ok(())
}

#[test]
fn other_commands_hash_nothing(rt: HostRuntime) -> Result<(), Fail> {
    asks_anew(rt.alloc(), ALIKE, List::Others, (1, 0))
}
