//! The calls of a cache as data, and their replies.

use std::alloc::{Allocator, Global};

/// A call of a `Cache` as a value, which `run` of `clock2q_command` makes. If the call takes a
/// closure, the command has the values that the closure returns.
///
/// # Example
///
/// ```
/// let mut commands = Vec::new(rt.alloc());
/// commands.push(Command::Put(1, 10))?;
/// commands.push(Command::Get(1))?;
/// ```
#[derive(Debug, Drop, PartialEq)]
pub enum Command<K, V, A: Allocator = Global> {
    /// Stores a value for a key. The reply is a `Value`: the value that it replaces.
    Put(K, V),
    /// Looks up the value of a key, and records a hit. The reply is a `Value`.
    Get(K),
    /// Looks up the value of a key, and changes nothing. The reply is a `Value`.
    Peek(K),
    /// Asks whether a key is resident. The reply is a `Flag`.
    Contains(K),
    /// Looks up the value of a key if it is resident at this slot, and records a hit. The reply
    /// is a `Value`.
    GetAt(usize, K),
    /// Replaces the value of a resident key, and records a hit. The reply is a `Value`: the value
    /// that it replaces. If the key isn't resident, nothing changes.
    Set(K, V),
    /// Looks up the value of a key, after inserting the key with this one if it isn't resident. The
    /// reply is `Stored`.
    With(K, V),
    /// Does the same with a value that may be missing, as after an error. Without a value no key is
    /// inserted. The reply is `Tried`.
    Try(K, Option<V>),
    /// Looks up the slot of a key and the value there, after inserting the key if it isn't
    /// resident. A new slot gets this value; any other keeps its own. The reply is a `Slot`.
    Slot(K, V),
    /// Removes a resident key, otherwise the key from the history. The reply is a `Flag`: whether
    /// it was resident.
    Remove(K),
    /// Removes each resident whose bit is false. The first bit is that of the resident with the
    /// lowest slot, and so on; residents past the end of the list are kept. The reply is `Done`.
    Retain(Vec<bool, A>),
    /// Removes every key with its value, and the history. The reply is `Done`.
    Clear,
    /// Gives each slot that has no value yet one of these, in order; the last one repeats. The
    /// reply is `Done`. `run` requires that the list isn't empty.
    Prefill(Vec<V, A>),
    /// Asks for the number of resident keys. The reply is a `Number`.
    Len,
    /// Asks whether no key is resident. The reply is a `Flag`.
    IsEmpty,
    /// Asks for the number of keys that the cache can hold. The reply is a `Number`.
    Capacity,
}

/// The reply to a [`Command`]. The command determines which of these it is.
///
/// # Example
///
/// ```
/// let replies = run(rt.alloc(), &mut cache, commands)?; // those of the example at `Command`
/// assert_eq!(rt; replies.as_slice(), [Reply::Value(None), Reply::Value(Some(10))].as_slice());
/// ```
#[derive(Clone, Copy, Debug, PartialEq)]
pub enum Reply<V> {
    /// The value asked for, or the one replaced; `None` if the key wasn't resident.
    Value(Option<V>),
    /// The value that the key has now.
    Stored(V),
    /// The value that the key has now, or `None` if it isn't resident and no value was offered.
    Tried(Option<V>),
    /// The slot that the key has now, and the value there.
    Slot(usize, V),
    /// The answer to a yes-or-no question.
    Flag(bool),
    /// A number of keys.
    Number(usize),
    /// The command was carried out.
    Done,
}
