//! Cases of lists of commands, which are run on a new table.
ghost use Rattle.std.specs.Prelude.{◌≡◌};

use crate::calls::{command_of, write_reply};
use crate::handle::{Command, Handle, Reply};
use crate::verb::{Grant, Verb};
use clock2q_handles::{Table, TableError};
use clock2q_table_commands::run_table;
use std::alloc::{AllocError, Allocator, Global};
use std::cell::Cell;
use testing::{Refusing, number_of, two_words};

/// Runs the commands of a case on a new table, and writes the replies, or why nothing was run, and the
/// number of hashes that were asked for.
///
/// Before the commands there is the number of entries that the table is made for, and which requests
/// for memory are refused, if any.
pub(crate) fn play_run(
    refusing: &Refusing<Global>,
    lists: Global,
    case: &str,
    replies: &mut String,
) -> Result<(), AllocError> {
    let (made, calls) = case.split_once(';').unwrap_or((case, ""));
    let commands = commands_of(refusing, lists, calls);
    run(refusing, made, &commands, replies)
}

/// Runs commands, and writes the replies and the number of hashes that were asked for.
fn run<'a>(
    refusing: &'a Refusing<Global>,
    made: &str,
    commands: &[Command<&'a Refusing<Global>>],
    replies: &mut String,
) -> Result<(), AllocError> {
    let (entries, refused) = two_words(made);
    refuse(refusing, refused);
    let asked = Cell::new(0u64);
    let given = run_counted(refusing, number_of(entries) as usize, commands, &asked);
    write_outcome(replies, &given, asked.get())
}

/// Writes the replies, or why nothing was run, and the number of hashes that were asked for.
fn write_outcome<A: Allocator>(
    replies: &mut String,
    given: &Result<Vec<Reply<A>, A>, TableError>,
    asked: u64,
) -> Result<(), AllocError> {
    match given {
        Ok(given) => write_replies(replies, given)?,
        Err(refusal) => write!(replies, "{refusal}\n")?,
    }
    write!(replies, "asked {asked}\n")
}

/// Returns the commands that a text spells, without those for which there is no memory.
fn commands_of<'a>(
    refusing: &'a Refusing<Global>,
    lists: Global,
    calls: &str,
) -> Vec<Command<&'a Refusing<Global>>> {
    let mut commands = Vec::new(lists);
    for call in calls.split_terminator(';') {
        let (name, words) = two_words(call);
        if let Some(Verb::Make(order)) = Verb::named(name) {
            let _ = commands.push(command_of(refusing, order, words));
        }
    }
    commands
}

/// Refuses all requests after a number of granted ones, or one of them, if that is spelled.
fn refuse(refusing: &Refusing<Global>, refused: &str) {
    let (name, granted) = two_words(refused);
    match Verb::named(name) {
        Some(Verb::Grant(Grant::Refuse)) => refusing.refuse_after(number_of(granted)),
        Some(Verb::Grant(Grant::RefuseOne)) => refusing.refuse_one_after(number_of(granted)),
        _ => {}
    }
}

/// Returns what a new table replies to commands, and counts the hashes that are asked for.
pub(crate) fn run_counted<A: Allocator + Copy>(
    alloc: A,
    entries: usize,
    commands: &[Command<A>],
    asked: &Cell<u64>,
) -> Result<Vec<Reply<A>, A>, TableError> {
    let mut table = Table::with_capacity(alloc, entries)?;
    let counted = |handle: Handle| -> u64
        ensures { result ≡ handle.hash }
    {
        asked.set(asked.get().saturating_add(1));
        handle.hash
    };
    run_table(alloc, &mut table, counted, commands)
}

/// Writes replies, each with a line end.
fn write_replies<A: Allocator>(replies: &mut String, given: &[Reply<A>]) -> Result<(), AllocError> {
    for reply in given {
        write_reply(replies, reply)?;
        replies.push_str("\n")?;
    }
    Ok(())
}
