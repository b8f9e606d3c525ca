//! Cases of calls to a cache, a line each.

use crate::cached::Cached;
use crate::drops::play_drops;
use crate::leaving::play_leaving;
use crate::replies::{Reply, Watch};
use crate::verb::{Kind, Verb};
use clock2q_cache::DefaultHashBuilder;
use std::alloc::{AllocError, Global};
use std::hash::BuildHasher;
use testing::{
    Counts, LinearHashBuilder, Refusing, SpellingError, number_of, other_than, two_numbers,
    two_words,
};

/// A hash of its own for each key, and one hash for all keys.
const APART: LinearHashBuilder = LinearHashBuilder { times: 1, more: 0 };

const ALIKE: LinearHashBuilder = LinearHashBuilder { times: 0, more: 0 };

/// Hashes of which only the two highest bits differ.
const FOUR: LinearHashBuilder = LinearHashBuilder {
    times: 1 << 62,
    more: 5,
};

/// Hashers that return one number for all keys, and one that returns the key.
pub(crate) const SPREADS: [LinearHashBuilder; 4] = [
    ALIKE,
    LinearHashBuilder {
        times: 0,
        more: 0xAB00_0000_0000_000F,
    },
    LinearHashBuilder {
        times: 0,
        more: u64::MAX,
    },
    APART,
];

/// Returns what a line gives in place of what it should, if it does.
pub(crate) fn other_replies(alloc: Global, line: &str) -> Result<Option<Vec<u8>>, SpellingError> {
    let (calls, wanted) = line.split_once('|').unwrap_or((line, "no bar"));
    other_than(alloc, wanted, replies_to(alloc, calls)?.into_bytes())
}

/// Returns the replies to calls, each with a line end. What is kept after them is said too.
fn replies_to(alloc: Global, calls: &str) -> Result<String, AllocError> {
    let counts = Counts::new();
    let memory = Refusing::new(alloc);
    let mut replies = String::new(alloc);
    play(alloc, &counts, &memory, calls, &mut replies)?;
    if counts.dropped().1 != 0 {
        replies.push_str("keys kept\n")?;
    }
    if memory.held() != 0 {
        replies.push_str("memory kept\n")?;
    }
    Ok(replies)
}

/// Makes what the first words of a line say, and plays the calls that follow.
fn play(
    alloc: Global,
    counts: &Counts,
    memory: &Refusing<Global>,
    line: &str,
    replies: &mut String,
) -> Result<(), AllocError> {
    let (first, calls) = line.split_once(';').unwrap_or((line, ""));
    let (kind, made) = two_words(first);
    let watch = Watch::new(counts, memory);
    match Kind::named(kind) {
        Some(Kind::Usual) => play_cache(watch, DefaultHashBuilder::new(), made, calls, replies),
        Some(Kind::Apart) => play_cache(watch, APART, made, calls, replies),
        Some(Kind::Alike) => play_cache(watch, ALIKE, made, calls, replies),
        Some(Kind::Four) => play_cache(watch, FOUR, made, calls, replies),
        Some(Kind::Any) => play_any(alloc, (counts, memory), made, calls, replies),
        Some(Kind::Leaving) => play_any_leaving(alloc, memory, made, calls, replies),
        Some(Kind::Drops) => play_drops(memory, number_of(made), calls, replies),
        None => Reply::Unknown.write(replies),
    }
}

/// Plays calls under each of several hashers, and writes their replies. Replies that are others than
/// under the usual hasher are written too.
fn play_any(
    alloc: Global,
    (counts, memory): (&Counts, &Refusing<Global>),
    made: &str,
    calls: &str,
    replies: &mut String,
) -> Result<(), AllocError> {
    let usual = DefaultHashBuilder::new();
    play_cache(Watch::new(counts, memory), usual, made, calls, replies)?;
    for spread in SPREADS {
        let mut others = String::new(alloc);
        play_cache(Watch::new(counts, memory), spread, made, calls, &mut others)?;
        add_others(spread, &others, replies)?;
    }
    Ok(())
}

/// Does so with a cache of plain keys.
fn play_any_leaving(
    alloc: Global,
    memory: &Refusing<Global>,
    made: &str,
    calls: &str,
    replies: &mut String,
) -> Result<(), AllocError> {
    play_leaving(memory, DefaultHashBuilder::new(), made, calls, replies)?;
    for spread in SPREADS {
        let mut others = String::new(alloc);
        play_leaving(memory, spread, made, calls, &mut others)?;
        add_others(spread, &others, replies)?;
    }
    Ok(())
}

/// Adds the replies under a hasher if they are others than those there.
fn add_others(
    spread: LinearHashBuilder,
    others: &str,
    replies: &mut String,
) -> Result<(), AllocError> {
    if others == replies.as_str() {
        return Ok(());
    }
    write!(replies, "under {spread:?}:\n{others}")
}

/// Makes a cache, makes calls of it, and writes their replies.
fn play_cache<'a, S: BuildHasher + Drop>(
    watch: Watch<'a>,
    hasher: S,
    made: &str,
    calls: &str,
    replies: &mut String,
) -> Result<(), AllocError> {
    let (capacity, shares) = two_words(made);
    let shares = if shares.is_empty() {
        None
    } else {
        Some(two_numbers(shares))
    };
    match Cached::new(watch, hasher, number_of(capacity), shares) {
        Ok(mut cached) => make_calls(&mut cached, calls, replies),
        Err(refusal) => Reply::Refused(refusal).write(replies),
    }
}

/// Makes calls, and writes their replies.
fn make_calls<'a, S: BuildHasher>(
    cached: &mut Cached<'a, S>,
    calls: &str,
    replies: &mut String,
) -> Result<(), AllocError> {
    for call in calls.split_terminator(';') {
        make_call(cached, call, replies)?;
    }
    Ok(())
}

/// Makes the call that a text spells, and writes its reply.
fn make_call<'a, S: BuildHasher>(
    cached: &mut Cached<'a, S>,
    call: &str,
    replies: &mut String,
) -> Result<(), AllocError> {
    let (name, words) = two_words(call);
    match Verb::named(name) {
        Some(verb) => cached.write_reply(verb, two_numbers(words), replies),
        None => Reply::Unknown.write(replies),
    }
}
