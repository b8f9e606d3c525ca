//! The words that calls of a table are spelled by, and the words of replies.

use crate::handle::{Command, Handle, Reply};
use crate::verb::Order;
use clock2q_table_commands::TableReply;
use std::alloc::{AllocError, Allocator};
use testing::{number_of, two_words};

/// Returns the hash that a word spells in hexadecimal digits, or 0.
pub(crate) fn hash_of(word: &str) -> u64 {
    u64::from_str_radix(word, 16).unwrap_or(0)
}

/// Returns the handle that a word spells: its hash, a colon and its number.
pub(crate) fn handle_of(word: &str) -> Handle {
    let (hash, number) = word.split_once(':').unwrap_or((word, ""));
    Handle {
        hash: hash_of(hash),
        number: number_of(number),
    }
}

/// Returns the handles that a text spells, without those for which there is no memory.
fn handles_of<A: Allocator + Copy>(alloc: A, text: &str) -> Vec<Handle, A> {
    let mut handles = Vec::new(alloc);
    for word in text.split_whitespace() {
        let _ = handles.push(handle_of(word));
    }
    handles
}

/// Returns a command whose words a text spells.
pub(crate) fn command_of<A: Allocator + Copy>(alloc: A, order: Order, words: &str) -> Command<A> {
    let (first, others) = two_words(words);
    match order {
        Order::Put => Command::Insert(handle_of(first)),
        Order::Remove => Command::Remove(hash_of(first), handle_of(others)),
        Order::Find => Command::Find(handle_of(first), handles_of(alloc, others)),
        Order::Reserve => Command::Reserve(number_of(first) as usize),
        Order::Get => Command::Get(hash_of(first)),
    }
}

/// Writes a reply.
pub(crate) fn write_reply<A: Allocator>(
    replies: &mut String,
    reply: &Reply<A>,
) -> Result<(), AllocError> {
    match reply {
        TableReply::Done => replies.push_str("ok"),
        TableReply::Removed(is_removed) => write!(replies, "{is_removed}"),
        TableReply::Found(found, true) => write!(replies, "new {}", found.number),
        TableReply::Found(found, false) => write!(replies, "found {}", found.number),
        TableReply::Handles(handles) => write_handles(replies, handles),
        TableReply::Refused(refusal) => write!(replies, "{refusal}"),
    }
}

/// Writes the numbers of handles.
fn write_handles(replies: &mut String, handles: &[Handle]) -> Result<(), AllocError> {
    if handles.is_empty() {
        return replies.push_str("none");
    }
    for (index, handle) in handles.iter().enumerate() {
        let space = if index == 0 { "" } else { " " };
        write!(replies, "{space}{}", handle.number)?;
    }
    Ok(())
}
