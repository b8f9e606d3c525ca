//! Commands to a handle table as data, their replies, and the run of a list of commands.
ghost use Rattle.std.specs.Prelude.{◌≡◌, ℕ, ◌+◌, ◌≤◌, Bool, IfOk, IfErr, OnErr, length};
ghost use Rattle.clock2q_handles.specs.Changes.{IsLaidOut, WritesAtMost, ReadsAtMost};
ghost use Rattle.clock2q_handles.specs.Homes.{capacity, total};
ghost use Rattle.clock2q_handles.specs.Layout.{layout, run, walk};
ghost use Rattle.clock2q_handles.specs.TableStep.{HasSpare};
ghost use Rattle.clock2q_table_commands.specs.TableCommands.{IsHashing, reply_of, reply_of_found, RepliesToInsert, RepliesToFind, RepliesToReserve, RepliesToGet, IsReplied, AreReplied};
ghost use Rattle.clock2q_table_commands.specs.TableCosts.{HasRoomFor, HaveRoom, Spends, most_walked, most_written, summed};

use clock2q_handles::{Table, TableError};
use std::alloc::Allocator;

/// A call of a [`Table`](clock2q_handles::Table) as a value, which [`run_table`] makes. `L` is a
/// list of handles.
///
/// # Example
///
/// ```
/// let commands = [TableCommand::Insert(7), TableCommand::Remove(7, 8)];
/// let replies = run_table(rt.alloc(), &mut table, |handle| handle, &commands)?;
/// assert_eq!(rt; replies.as_slice(), [TableReply::Done, TableReply::Removed(false)].as_slice());
/// ```
#[derive(Debug, Drop, PartialEq)]
pub enum TableCommand<H, L = Vec<H>> {
    /// Inserts a handle under its hash. The reply is `Done`.
    Insert(H),
    /// Removes the first handle under this hash that equals this one. The reply is `Removed`.
    Remove(u64, H),
    /// Finds the first candidate of this handle's hash that is in the list, or else inserts this
    /// handle. The reply is `Found`.
    Find(H, L),
    /// Makes room for this number of further entries. The reply is `Done`.
    Reserve(usize),
    /// Looks up a hash. The reply is `Handles`.
    Get(u64),
}

/// The reply to a [`TableCommand`]; each command names its variant. `L` is a list of handles. The
/// example at [`TableCommand`] has two.
#[derive(Debug, Drop, PartialEq)]
pub enum TableReply<H, L = Vec<H>> {
    /// The handle was inserted, or the room was made.
    Done,
    /// Whether a handle was removed.
    Removed(bool),
    /// The handle that was found and false, or the handle that was inserted and true.
    Found(H, bool),
    /// The handles under the hash.
    Handles(L),
    /// The command was refused, for this reason.
    Refused(TableError),
}

/// Runs the commands in order, and returns one reply to each, in the same order.
///
/// `hash_of` returns the hash of a handle. A refused command has the reply `Refused`, and the run
/// goes on with the table as the refusal leaves it.
///
/// # Errors
///
/// `Memory` if the list of replies can't be reserved. That is done first: no command has run, and
/// the table is unchanged. If there is no memory for the list of a lookup, only that command is
/// refused.
///
/// # Cost
///
/// One request for memory, for the list of replies, and the cost of each call: if no call has to grow
/// the table, the slots written are at most those of the calls' runs, and as many are read beside the
/// calls' walks. A `Get` also makes the list of its handles, and a `Find` compares each candidate with
/// the handles of its list.
pub fn run_table<H, A, F>(
    alloc: A,
    table: &mut Table<H, A>,
    hash_of: F,
    commands: &[TableCommand<H, Vec<H, A>>],
) -> Result<Vec<TableReply<H, Vec<H, A>>, A>, TableError>
where
    H: Copy + Eq + Default,
    A: Allocator + Copy,
    F: Fn(H) -> u64,
    requires callable { F.IsAlwaysCallable hash_of }
    requires hashes { (key : H → ℕ) × IsHashing (F.post hash_of) key table.old.homes }
    ensures replies { IfOk result (λ replies. (key : H → ℕ) → IsHashing (F.post hash_of) key table.old.homes →
        AreReplied H.PartialEq.eq key commands.now table.old.homes replies.items table.new.homes) }

    // Each handle is under its hash again, and the slots are the layout of the entries.
    ensures hashes { (key : H → ℕ) → IsHashing (F.post hash_of) key table.old.homes →
        IsHashing (F.post hash_of) key table.new.homes }
    ensures laid { IsLaidOut table.new }

    // If the table has room for each command, the slots are counted by the sum of the calls' bounds.
    ensures writes { (key : H → ℕ) → IsHashing (F.post hash_of) key table.old.homes →
        HaveRoom H.PartialEq.eq key commands.now table.old.homes →
        WritesAtMost (summed H.PartialEq.eq key (most_written key) commands.now table.old.homes) table.old table.new }
    ensures reads { (key : H → ℕ) → IsHashing (F.post hash_of) key table.old.homes →
        HaveRoom H.PartialEq.eq key commands.now table.old.homes →
        ReadsAtMost (summed H.PartialEq.eq key (most_walked key) commands.now table.old.homes) table.old table.new }
    ensures memory { IfErr result (λ e. e ≡ TableError.Memory) }
    ensures unchanged { OnErr result (table.new ≡ table.old) }
{
    table.facts();
    let Ok(mut replies) = Vec::with_capacity(alloc, commands.len()) else {
        return Err(TableError::Memory);
    };
    for command in commands {
        replies.push_reserved(execute(alloc, table, &hash_of, command));
    }
    Ok(replies)
}

/// Makes the call of a command.
fn execute<H, A, F>(
    alloc: A,
    table: &mut Table<H, A>,
    hash_of: &F,
    command: &TableCommand<H, Vec<H, A>>,
) -> TableReply<H, Vec<H, A>>
where
    H: Copy + Eq + Default,
    A: Allocator + Copy,
    F: Fn(H) -> u64,
    requires callable { F.IsAlwaysCallable hash_of.now }
    requires hashes { (key : H → ℕ) × IsHashing (F.post hash_of.now) key table.old.homes }
    ensures reply { (key : H → ℕ) → IsHashing (F.post hash_of.now) key table.old.homes →
        IsReplied H.PartialEq.eq key command.now table.old.homes result table.new.homes }
    ensures laid { IsLaidOut table.old → IsLaidOut table.new }
    ensures spends { (key : H → ℕ) → IsHashing (F.post hash_of.now) key table.old.homes →
        IsLaidOut table.old → HasRoomFor command.now table.old.homes →
        Spends (most_written key command.now table.old.homes) (most_walked key command.now table.old.homes) table.old table.new }
{
    match command {
        TableCommand::Insert(handle) => insert(table, hash_of, *handle),
        TableCommand::Remove(hash, handle) => TableReply::Removed(table.remove(*hash, *handle)),
        TableCommand::Find(handle, accepted) => find(table, hash_of, *handle, accepted),
        TableCommand::Reserve(additional) => reserve(table, hash_of, *additional),
        TableCommand::Get(hash) => get(alloc, table, *hash),
    }
}

/// Returns the reply to a command that returns nothing else.
fn reply_of<H, L>(outcome: Result<(), TableError>) -> TableReply<H, L>
    ensures { result ≡ reply_of outcome }
{
    match outcome {
        Ok(()) => TableReply::Done,
        Err(refusal) => TableReply::Refused(refusal),
    }
}

/// Returns the reply to a command that finds or inserts.
fn reply_of_found<H: Copy, L>(outcome: Result<(H, bool), TableError>) -> TableReply<H, L>
    ensures { result ≡ reply_of_found outcome }
{
    match outcome {
        Ok((handle, is_new)) => TableReply::Found(handle, is_new),
        Err(refusal) => TableReply::Refused(refusal),
    }
}

/// Inserts a handle under its hash.
fn insert<H, A, F>(table: &mut Table<H, A>, hash_of: &F, handle: H) -> TableReply<H, Vec<H, A>>
where
    H: Copy + Eq + Default,
    A: Allocator + Copy,
    F: Fn(H) -> u64,
    requires callable { F.IsAlwaysCallable hash_of.now }
    requires hashes { (key : H → ℕ) × IsHashing (F.post hash_of.now) key table.old.homes }
    ensures reply { (key : H → ℕ) → IsHashing (F.post hash_of.now) key table.old.homes →
        RepliesToInsert H.PartialEq.eq key handle table.old.homes result table.new.homes }
    ensures laid { IsLaidOut table.new }
    ensures spends { (key : H → ℕ) → IsHashing (F.post hash_of.now) key table.old.homes →
        IsLaidOut table.old → HasSpare table.old.homes →
        Spends (run (layout table.old.homes) (key handle) + 1) (walk table.old.homes (key handle)) table.old table.new }
{
    reply_of(table.insert(hash_of(handle), handle, |held| hash_of(held)))
}

/// Finds the first candidate that is in the list, or inserts the handle.
fn find<H, A, F>(
    table: &mut Table<H, A>,
    hash_of: &F,
    handle: H,
    accepted: &[H],
) -> TableReply<H, Vec<H, A>>
where
    H: Copy + Eq + Default,
    A: Allocator + Copy,
    F: Fn(H) -> u64,
    requires callable { F.IsAlwaysCallable hash_of.now }
    requires hashes { (key : H → ℕ) × IsHashing (F.post hash_of.now) key table.old.homes }
    ensures reply { (key : H → ℕ) → IsHashing (F.post hash_of.now) key table.old.homes →
        RepliesToFind H.PartialEq.eq key handle accepted.now table.old.homes result table.new.homes }
    ensures laid { IsLaidOut table.new }
    ensures spends { (key : H → ℕ) → IsHashing (F.post hash_of.now) key table.old.homes →
        IsLaidOut table.old → HasSpare table.old.homes →
        Spends (run (layout table.old.homes) (key handle) + 1) (walk table.old.homes (key handle)) table.old table.new }
{
    reply_of_found(table.find_or_insert(
        hash_of(handle),
        |candidate| accepted.contains(&candidate),
        handle,
        |held| hash_of(held),
    ))
}

/// Makes room for `additional` more entries.
fn reserve<H, A, F>(
    table: &mut Table<H, A>,
    hash_of: &F,
    additional: usize,
) -> TableReply<H, Vec<H, A>>
where
    H: Copy + Eq + Default,
    A: Allocator + Copy,
    F: Fn(H) -> u64,
    requires callable { F.IsAlwaysCallable hash_of.now }
    requires hashes { (key : H → ℕ) × IsHashing (F.post hash_of.now) key table.old.homes }
    ensures reply { (key : H → ℕ) → IsHashing (F.post hash_of.now) key table.old.homes →
        RepliesToReserve H.PartialEq.eq key additional table.old.homes result table.new.homes }
    ensures laid { IsLaidOut table.new }
    ensures spends { total table.old.homes + additional ≤ capacity (length table.old.homes) →
        Spends 0 0 table.old table.new }
{
    reply_of(table.reserve(additional, |held| hash_of(held)))
}

/// Lists the candidates of a hash.
fn get<H, A>(alloc: A, table: &Table<H, A>, hash: u64) -> TableReply<H, Vec<H, A>>
where
    H: Copy + Eq + Default,
    A: Allocator + Copy,
    ensures { (eq : H → H → Bool) (key : H → ℕ) →
        RepliesToGet eq key hash table.now.homes result table.now.homes }
{
    match table.get(hash).collect(alloc) {
        Ok(handles) => TableReply::Handles(handles),
        Err(_) => TableReply::Refused(TableError::Memory),
    }
}
