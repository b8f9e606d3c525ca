//! Cases of calls to queues or to a history, a line each.

use crate::beside::{Beside, TestedHistory};
use crate::compared::Difference;
use crate::history::beside_list;
use crate::played::{Played, TestedQueues};
use crate::seeded::beside_lists;
use crate::verb::{Made, REFUSALS, Refusal, Reply, VERBS, Verb, flag};
use crate::worked::play_worked;
use std::alloc::{AllocError, Global};
use testing::{Refusing, SpellingError, named_in, number_of, other_than, two_numbers, two_words};

/// Returns what a line gives in place of what it should, if it does.
pub(crate) fn other_replies(alloc: Global, line: &str) -> Result<Option<Vec<u8>>, SpellingError> {
    let (calls, wanted) = line.split_once('|').unwrap_or((line, "no bar"));
    other_than(alloc, wanted, replies_to(alloc, calls)?.into_bytes())
}

/// Returns the replies to calls, each with a line end, and then the number of requests for memory. What
/// is kept after them is said too.
fn replies_to(alloc: Global, line: &str) -> Result<String, AllocError> {
    let memory = Refusing::new(alloc);
    let mut replies = String::new(alloc);
    play(&memory, alloc, line, &mut replies)?;
    write!(replies, "requests {}\n", memory.requests())?;
    if memory.held() != 0 {
        replies.push_str("memory kept\n")?;
    }
    Ok(replies)
}

/// Makes what the first words of a line say, and plays the calls that follow.
fn play(
    memory: &Refusing<Global>,
    lists: Global,
    line: &str,
    replies: &mut String,
) -> Result<(), AllocError> {
    let (made, calls) = line.split_once(';').unwrap_or((line, ""));
    match Made::named(made) {
        (Made::History, sizes) => play_history(memory, lists, sizes, calls, replies),
        (Made::Worked, run) => play_worked(memory, lists, run, replies),
        (Made::Queues, sizes) => play_queues(memory, lists, sizes, calls, replies),
    }
}

/// Returns the two words that a text begins with. All requests for memory that the further ones say are
/// refused from here on.
fn sizes_of<'a>(memory: &Refusing<Global>, text: &'a str) -> (&'a str, &'a str) {
    let (first, others) = two_words(text);
    let (second, refused) = two_words(others);
    let (name, granted) = two_words(refused);
    match named_in(REFUSALS, name) {
        Some(Refusal::One) => memory.refuse_one_after(number_of(granted)),
        Some(Refusal::All) => memory.refuse_after(number_of(granted)),
        None => {}
    }
    (first, second)
}

/// Makes queues for a number of slots and a window, and calls of them. All requests for memory are refused
/// then.
fn play_queues(
    memory: &Refusing<Global>,
    lists: Global,
    sizes: &str,
    calls: &str,
    replies: &mut String,
) -> Result<(), AllocError> {
    let (slots, window) = sizes_of(memory, sizes);
    match Played::new(memory, slot_of(slots), slot_of(window)) {
        Ok(mut queues) => call_queues(&mut queues, memory, lists, calls, replies),
        Err(_) => replies.push_str("no memory\n"),
    }
}

/// Makes calls of queues, and writes their replies.
fn call_queues(
    queues: &mut TestedQueues<'_>,
    memory: &Refusing<Global>,
    lists: Global,
    calls: &str,
    replies: &mut String,
) -> Result<(), AllocError> {
    memory.refuse_after(0);
    for call in calls.split_terminator(';') {
        make_queues_call(queues, memory, lists, two_words(call), replies)?;
    }
    Ok(())
}

/// Makes a call of queues, and writes its reply.
fn make_queues_call(
    queues: &mut TestedQueues<'_>,
    memory: &Refusing<Global>,
    lists: Global,
    (name, words): (&str, &str),
    replies: &mut String,
) -> Result<(), AllocError> {
    match named_in(VERBS, name) {
        Some(Verb::IsHeld) => write_reply(flag(memory.held() != 0), replies),
        Some(Verb::BesideLists) => {
            write_difference(beside_lists(queues, lists, two_numbers(words)), replies)
        }
        Some(verb) => write_reply(queues.reply(verb, slot_of(words)), replies),
        None => write_reply(None, replies),
    }
}

/// Makes a history for a number of keys, in which keys with the same remainder modulo another number have
/// the same hash, and calls of it. All requests for memory are refused then.
fn play_history(
    memory: &Refusing<Global>,
    lists: Global,
    sizes: &str,
    calls: &str,
    replies: &mut String,
) -> Result<(), AllocError> {
    let (limit, hashes) = sizes_of(memory, sizes);
    match Beside::new(memory, limit_of(limit), number_of(hashes)) {
        Ok(mut history) => call_history(&mut history, memory, lists, calls, replies),
        Err(_) => replies.push_str("no memory\n"),
    }
}

/// Makes calls of a history, and writes their replies.
fn call_history(
    history: &mut TestedHistory<'_>,
    memory: &Refusing<Global>,
    lists: Global,
    calls: &str,
    replies: &mut String,
) -> Result<(), AllocError> {
    memory.refuse_after(0);
    for call in calls.split_terminator(';') {
        make_history_call(history, memory, lists, two_words(call), replies)?;
    }
    Ok(())
}

/// Makes a call of a history, and writes its reply.
fn make_history_call(
    history: &mut TestedHistory<'_>,
    memory: &Refusing<Global>,
    lists: Global,
    (name, words): (&str, &str),
    replies: &mut String,
) -> Result<(), AllocError> {
    match named_in(VERBS, name) {
        Some(Verb::IsHeld) => write_reply(flag(memory.held() != 0), replies),
        Some(Verb::BesideLists) => {
            write_difference(beside_list(history, lists, two_numbers(words)), replies)
        }
        Some(verb) => write_reply(history.reply(verb, number_of(words)), replies),
        None => write_reply(None, replies),
    }
}

/// Returns the number of keys that a word spells, or 0.
fn limit_of(word: &str) -> u8 {
    word.parse().unwrap_or(0)
}

/// Returns the slot that a word spells, or 0.
pub(crate) fn slot_of(word: &str) -> u32 {
    word.parse().unwrap_or(0)
}

/// Writes a reply, or that there is none.
pub(crate) fn write_reply(reply: Reply, replies: &mut String) -> Result<(), AllocError> {
    match reply {
        Some(number) => write!(replies, "{number}\n"),
        None => replies.push_str("none\n"),
    }
}

/// Writes the first difference from lists, or that there is none.
fn write_difference(
    difference: Option<Difference>,
    replies: &mut String,
) -> Result<(), AllocError> {
    match difference {
        Some(difference) => write!(replies, "{difference:?}\n"),
        None => replies.push_str("alike\n"),
    }
}
