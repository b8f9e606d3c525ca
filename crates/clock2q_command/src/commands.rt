//! The run of a list of commands.
ghost use Rattle.std.specs.List.{AllByRecursion};
ghost use Rattle.std.specs.Prelude.{◌≡◌, ◌+◌, ◌*◌, ◌<◌, ◌≤◌, IfOk, IfErr, OnOk, OnErr, true, false, drop, get_or, slice_get, length, map};
ghost use Rattle.clock2q_cache.specs.Costs.{Costs, most_accesses};
ghost use Rattle.clock2q_cache.specs.Indexed.{IsIndexed, IsSpacious};
ghost use Rattle.clock2q_cache.specs.Runs.{RunsAtCost, known_after};
ghost use Rattle.clock2q_cache.specs.Visits.{visits_all};
ghost use Rattle.clock2q_text.specs.Commands.{call_of, answer_of, IsSupplied, AreSupplied};
ghost use Rattle.clock2q_machine.specs.Bounds.{inspections_for, inspections_of, main_victims, settings, set_bits, summed};
ghost use Rattle.clock2q_machine.specs.Calls.{Prefill, Retain, Set, SlotFor, Try, With};
ghost use Rattle.clock2q_machine.specs.Machine.{slot_of, value_of};
ghost use Rattle.clock2q_machine.specs.Whole.{IsWhole};
ghost use Rattle.clock2q_machine.specs.Steps.{answer, after, answers, after_all, replaced, fetched, fetched_value, tried, tried_value, slotted, slotted_at, retained, prefilled_with};

use clock2q_cache::{Cache, CacheError};
use clock2q_text::{Command, Reply};
use std::alloc::Allocator;
use std::hash::{BuildHasher, Hash};

/// Runs the commands in order, and returns one reply to each, in the same order.
///
/// # Errors
///
/// `Memory` if the list of replies can't be reserved. It is reserved first, so no command has run,
/// and the cache is unchanged.
///
/// # Cost
///
/// One request for memory, and the cost of each call.
pub fn run<K, V, S, A>(
    alloc: A,
    cache: &mut Cache<K, V, S, A>,
    commands: Vec<Command<K, V, A>, A>,
) -> Result<Vec<Reply<V>, A>, CacheError>
where
    K: Hash + Eq + Default + Drop,
    V: Copy,
    S: BuildHasher,
    A: Allocator,
    requires prefills { AreSupplied (map call_of commands.items) }
    ensures replies { IfOk result
        (λ replies. map answer_of replies.items ≡
        answers K.eq (map call_of commands.items) cache.old.machine) }
    ensures machine { OnOk result
        (cache.new.machine ≡ after_all K.eq (map call_of commands.items) cache.old.machine) }
    ensures inspections { OnOk result
        (cache.new.counts.inspections ≡
        cache.old.counts.inspections +
        summed K.eq (inspections_of K.eq) (map call_of commands.items) cache.old.machine) }
    ensures accesses { OnOk result
        (cache.new.counts.accesses ≤
        cache.old.counts.accesses +
        summed K.eq (most_accesses K.eq) (map call_of commands.items) cache.old.machine) }
    ensures costs { OnOk result
        (RunsAtCost K.Hash S.BuildHasher S.Hasher.Hasher
        (map call_of commands.items) cache.old cache.new) }
    ensures hasher { cache.new.hasher ≡ cache.old.hasher }
    ensures clock { OnOk result
        (cache.new.counts.inspections + set_bits cache.new.machine ≤
        cache.old.counts.inspections +
        (summed K.eq (main_victims K.eq) (map call_of commands.items) cache.old.machine +
        summed K.eq (settings K.eq) (map call_of commands.items) cache.old.machine +
        set_bits cache.old.machine)) }
    ensures turns { IsWhole K.eq cache.old.machine → OnOk result
        (cache.new.counts.inspections + set_bits cache.new.machine ≤
        cache.old.counts.inspections + length commands.items + set_bits cache.old.machine) }
    ensures linear { IsWhole K.eq cache.old.machine →
        AllByRecursion (λ call. visits_all call ≡ false) (map call_of commands.items) →
        OnOk result
        (cache.new.counts.accesses + set_bits cache.new.machine ≤
        cache.old.counts.accesses + 30 * length commands.items + set_bits cache.old.machine) }
    ensures memory { IfErr result (λ e. e ≡ CacheError.Memory) }
    ensures unchanged { OnErr result (cache.new ≡ cache.old) }
{
    let mut replies = Vec::with_capacity(alloc, commands.len())?;
    for command in commands {
        replies.push_reserved(execute(cache, command));
    }
    Ok(replies)
}

/// Makes the call that a command describes.
fn execute<K, V, S, A>(cache: &mut Cache<K, V, S, A>, command: Command<K, V, A>) -> Reply<V>
where
    K: Hash + Eq + Default + Drop,
    V: Copy,
    S: BuildHasher,
    A: Allocator,
    requires prefill { IsSupplied (call_of command) }
    ensures reply { answer_of result ≡ answer K.eq (call_of command) cache.old.machine }
    ensures machine { cache.new.machine ≡ after K.eq (call_of command) cache.old.machine }
    ensures hasher { cache.new.hasher ≡ cache.old.hasher }
    ensures known { cache.new.known ≡
        known_after K.Hash S.BuildHasher S.Hasher.Hasher (call_of command) cache.old }
    ensures costs { Costs K.Hash S.BuildHasher S.Hasher.Hasher
        (call_of command) cache.old cache.new }
    ensures indexed { IsIndexed K.Hash S.BuildHasher S.Hasher.Hasher cache.old }
    ensures spacious { IsSpacious cache.old }
{
    cache.facts();
    match command {
        Command::Put(key, value) => Reply::Value(cache.put(key, value)),
        Command::Get(key) => Reply::Value(cache.get(&key).copied()),
        Command::Peek(key) => Reply::Value(cache.peek(&key).copied()),
        Command::Contains(key) => Reply::Flag(cache.contains(&key)),
        Command::GetAt(slot, key) => Reply::Value(cache.get_at(slot, &key).copied()),
        Command::Set(key, value) => Reply::Value(set(cache, &key, value)),
        Command::With(key, value) => Reply::Stored(fetch(cache, key, value)),
        Command::Try(key, offered) => Reply::Tried(try_fetch(cache, key, offered)),
        Command::Slot(key, value) => {
            let (slot, found) = take_slot(cache, key, value);
            Reply::Slot(slot, found)
        }
        Command::Remove(key) => Reply::Flag(cache.remove(&key)),
        Command::Retain(bits) => {
            retain(cache, &bits);
            Reply::Done
        }
        Command::Clear => {
            cache.clear();
            Reply::Done
        }
        Command::Prefill(values) => {
            prefill(cache, &values);
            Reply::Done
        }
        Command::Len => Reply::Number(cache.len()),
        Command::IsEmpty => Reply::Flag(cache.is_empty()),
        Command::Capacity => Reply::Number(cache.capacity()),
    }
}

/// Replaces the value of a resident key, and returns the previous value.
fn set<K, V, S, A>(cache: &mut Cache<K, V, S, A>, key: &K, value: V) -> Option<V>
where
    K: Hash + Eq,
    V: Copy,
    S: BuildHasher,
    A: Allocator,
    ensures value { result ≡ value_of (K.eq key.now) cache.old.machine }
    ensures machine { cache.new.machine ≡ replaced (K.eq key.now) value cache.old.machine }
    ensures hasher { cache.new.hasher ≡ cache.old.hasher }
    ensures known { cache.new.known ≡
        known_after K.Hash S.BuildHasher S.Hasher.Hasher (Set key.now value) cache.old }
    ensures costs { Costs K.Hash S.BuildHasher S.Hasher.Hasher
        (Set key.now value) cache.old cache.new }
{
    let held = cache.get_mut(key)?;
    let before = *held;
    *held = value;
    Some(before)
}

/// Returns the value of a key, which is inserted with this one if it isn't resident.
fn fetch<K, V, S, A>(cache: &mut Cache<K, V, S, A>, key: K, value: V) -> V
where
    K: Hash + Eq + Drop,
    V: Copy,
    S: BuildHasher,
    A: Allocator,
    ensures value { result ≡ fetched_value (value_of (K.eq key) cache.old.machine) value }
    ensures machine { cache.new.machine ≡ fetched (K.eq key) key value cache.old.machine }
    ensures hasher { cache.new.hasher ≡ cache.old.hasher }
    ensures known { cache.new.known ≡
        known_after K.Hash S.BuildHasher S.Hasher.Hasher (With key value) cache.old }
    ensures costs { Costs K.Hash S.BuildHasher S.Hasher.Hasher
        (With key value) cache.old cache.new }
{
    *cache.get_or_insert_with(key, || value)
}

/// Does the same with a value that may be missing. Without a value no key is inserted.
fn try_fetch<K, V, S, A>(cache: &mut Cache<K, V, S, A>, key: K, offered: Option<V>) -> Option<V>
where
    K: Hash + Eq + Drop,
    V: Copy,
    S: BuildHasher,
    A: Allocator,
    ensures value { result ≡ tried_value (value_of (K.eq key) cache.old.machine) offered }
    ensures machine { cache.new.machine ≡ tried (K.eq key) key offered cache.old.machine }
    ensures hasher { cache.new.hasher ≡ cache.old.hasher }
    ensures known { cache.new.known ≡
        known_after K.Hash S.BuildHasher S.Hasher.Hasher (Try key offered) cache.old }
    ensures costs { Costs K.Hash S.BuildHasher S.Hasher.Hasher
        (Try key offered) cache.old cache.new }
{
    match cache.try_get_or_insert_with_mut(key, || offered.ok_or(())) {
        Ok(value) => Some(*value),
        Err(()) => None,
    }
}

/// Returns the slot of a key and the value there, after inserting the key if it isn't resident. A
/// new slot gets this value.
fn take_slot<K, V, S, A>(cache: &mut Cache<K, V, S, A>, key: K, value: V) -> (usize, V)
where
    K: Hash + Eq + Drop,
    V: Copy,
    S: BuildHasher,
    A: Allocator,
    ensures slot { result.0 ≡
        slotted_at (slot_of (K.eq key) cache.old.machine) (K.eq key) key cache.old.machine }
    ensures value { result.1 ≡ fetched_value (slice_get cache.old.machine.values result.0) value }
    ensures machine { cache.new.machine ≡ slotted (K.eq key) key value cache.old.machine }
    ensures hasher { cache.new.hasher ≡ cache.old.hasher }
    ensures known { cache.new.known ≡
        known_after K.Hash S.BuildHasher S.Hasher.Hasher (SlotFor key value) cache.old }
    ensures costs { Costs K.Hash S.BuildHasher S.Hasher.Hasher
        (SlotFor key value) cache.old cache.new }
{
    cache.facts();
    let (slot, found) = cache.get_or_insert_mut(key, || value);
    (slot, *found)
}

/// Removes each resident whose bit is false, and keeps those past the end of the bits.
fn retain<K, V, S, A>(cache: &mut Cache<K, V, S, A>, bits: &[bool])
where
    K: Hash + Eq,
    S: BuildHasher,
    A: Allocator,
    ensures machine { cache.new.machine ≡ retained bits.now cache.old.machine }
    ensures hasher { cache.new.hasher ≡ cache.old.hasher }
    ensures known { cache.new.known ≡
        known_after K.Hash S.BuildHasher S.Hasher.Hasher (Retain bits.now) cache.old }
    ensures costs { Costs K.Hash S.BuildHasher S.Hasher.Hasher
        (Retain bits.now) cache.old cache.new }
{
    let mut rest = bits;
    cache.retain(
        move |_, _|
            ensures bit { result ≡ get_or rest.entry.now 0 true }
            ensures rest { rest.exit.now ≡ drop 1 rest.entry.now }
        {
            match rest.split_first() {
                Some((bit, others)) => {
                    rest = others;
                    *bit
                }
                None => true,
            }
        },
    );
}

/// Gives the slots that have no value yet these values, repeating the last one.
fn prefill<K, V, S, A>(cache: &mut Cache<K, V, S, A>, values: &[V])
where
    K: Hash + Eq + Default,
    V: Copy,
    S: BuildHasher,
    A: Allocator,
    requires some { 0 < length values.now }
    ensures machine { cache.new.machine ≡ prefilled_with values.now cache.old.machine }
    ensures hasher { cache.new.hasher ≡ cache.old.hasher }
    ensures known { cache.new.known ≡
        known_after K.Hash S.BuildHasher S.Hasher.Hasher (Prefill values.now) cache.old }
    ensures costs { Costs K.Hash S.BuildHasher S.Hasher.Hasher
        (Prefill values.now) cache.old cache.new }
{
    let mut rest = values;
    let mut last = values[0];
    cache.prefill(
        move ||
            ensures value { result ≡ get_or rest.entry.now 0 last.entry }
            ensures last { last.exit ≡ get_or rest.entry.now 0 last.entry }
            ensures rest { rest.exit.now ≡ drop 1 rest.entry.now }
        {
            if let Some((value, others)) = rest.split_first() {
                rest = others;
                last = *value;
            }
            last
        },
    );
}
