//! Cases of calls to a table, a line each.

use crate::calls::{command_of, handle_of, hash_of, write_reply};
use crate::handle::Handle;
use crate::hashed::Hashed;
use crate::layout::slots_of;
use crate::runs::play_run;
use crate::seeded::play_list;
use crate::seen::{Notes, Seen};
use crate::verb::{Change, Grant, Look, Order, Question, Verb};
use clock2q_handles::{TableError, partition};
use std::alloc::{AllocError, Global};
use std::fmt::Debug;
use testing::{Refusing, SpellingError, number_of, other_than, two_numbers, two_words};

/// The fingerprints of the hashes in runs that are worked out by hand.
const FINGERPRINTS: [u64; 3] = [0, 0xAB, 0xCD];

/// Returns what a line gives in place of what it should, if it does.
pub(crate) fn other_replies(alloc: Global, line: &str) -> Result<Option<Vec<u8>>, SpellingError> {
    let (calls, wanted) = line.split_once('|').unwrap_or((line, "no bar"));
    other_than(alloc, wanted, replies_to(alloc, calls)?.into_bytes())
}

/// Returns the replies to calls, each with a line end.
fn replies_to(alloc: Global, calls: &str) -> Result<String, AllocError> {
    let mut replies = String::new(alloc);
    play_case(&Refusing::new(alloc), alloc, calls, &mut replies)?;
    Ok(replies)
}

/// Plays the calls of a case. What memory is kept after them is said too.
fn play_case(
    refusing: &Refusing<Global>,
    lists: Global,
    calls: &str,
    replies: &mut String,
) -> Result<(), AllocError> {
    match calls.strip_prefix("run ") {
        Some(run) => play_run(refusing, lists, run, replies)?,
        None => play(refusing, lists, calls, replies)?,
    }
    if refusing.held() != 0 {
        replies.push_str("memory kept\n")?;
    }
    Ok(())
}

/// Makes calls to a table without slots at first, and writes their replies.
fn play(
    refusing: &Refusing<Global>,
    lists: Global,
    calls: &str,
    replies: &mut String,
) -> Result<(), AllocError> {
    let mut played = Played {
        refusing,
        lists,
        tested: Hashed::new(refusing),
        notes: Notes::new(),
        marked: (0, 0),
    };
    played.call_each(calls, replies)
}

/// A table that calls are made to, and what its closures were called on.
#[derive(Drop)]
struct Played<'a> {
    refusing: &'a Refusing<Global>,
    lists: Global,
    tested: Hashed<&'a Refusing<Global>>,
    notes: Notes,
    /// The number of requests and of bytes that were held at the last `mark`.
    marked: (u64, u64),
}

impl<'a> Played<'a> {
    /// Makes calls, and writes their replies, each with a line end.
    fn call_each(&mut self, calls: &str, replies: &mut String) -> Result<(), AllocError> {
        for call in calls.split_terminator(';') {
            self.call(call, replies)?;
            replies.push_str("\n")?;
        }
        Ok(())
    }

    /// Makes a call, and writes its reply.
    fn call(&mut self, call: &str, replies: &mut String) -> Result<(), AllocError> {
        let (name, words) = two_words(call);
        match Verb::named(name) {
            Some(Verb::Make(order)) => self.make(order, words, replies),
            Some(Verb::Change(change)) => write_outcome(replies, self.change(change, words)),
            Some(Verb::Grant(grant)) => self.set(grant, number_of(words), replies),
            Some(Verb::Look(look)) => self.look(look, words, replies),
            Some(Verb::Ask(question)) => self.answer(question, replies),
            Some(Verb::Fill) => self.fill(number_of(words), replies),
            Some(Verb::List) => {
                let list = two_numbers(words);
                play_list(&mut self.tested, &self.notes, self.lists, list, replies)
            }
            None => replies.push_str("no call"),
        }
    }

    /// Makes the call of a command.
    fn make(&mut self, order: Order, words: &str, replies: &mut String) -> Result<(), AllocError> {
        let command = command_of(self.lists, order, words);
        let reply = self.tested.reply(self.lists, &command, &self.notes);
        write_reply(replies, &reply)
    }

    /// Makes a call that may change the table, if the table allows it.
    fn change(&mut self, change: Change, words: &str) -> Option<Result<(), TableError>> {
        let (first, second) = two_words(words);
        match change {
            Change::Of => Some(self.remake(number_of(first) as usize)),
            Change::PutWithin => self.tested.put_within(handle_of(first)),
            Change::PutFew => self.tested.put_few(handle_of(first)),
            Change::PutAtGap => self.tested.put_at_gap(handle_of(first)),
            Change::Replace => self
                .tested
                .replace(hash_of(first), handle_of(second), false),
            Change::ReplaceAtGap => self.tested.replace(hash_of(first), handle_of(second), true),
        }
    }

    /// Changes what is refused or compared with.
    fn set(&mut self, grant: Grant, number: u64, replies: &mut String) -> Result<(), AllocError> {
        match grant {
            Grant::Refuse => self.refusing.refuse_after(number),
            Grant::RefuseOne => self.refusing.refuse_one_after(number),
            Grant::Grant => self.refusing.grant(),
            Grant::Mark => self.marked = (self.refusing.requests(), self.refusing.held()),
        }
        replies.push_str("ok")
    }

    /// Makes a table in place of the one there.
    fn remake(&mut self, entries: usize) -> Result<(), TableError> {
        self.tested = Hashed::with_capacity(self.refusing, entries)?;
        Ok(())
    }

    /// Writes what a call that changes nothing returns.
    fn look(&self, look: Look, words: &str, replies: &mut String) -> Result<(), AllocError> {
        let table = &self.tested.table;
        match look {
            Look::Len => write_shown(replies, &table.len()),
            Look::Capacity => write_shown(replies, &table.capacity()),
            Look::IsEmpty => write_shown(replies, &table.is_empty()),
            Look::Show => write_shown(replies, table),
            Look::Peek => self.peek(hash_of(words), replies),
            Look::Position => self.position(words, replies),
            Look::Slots => self.write_slots(replies),
            Look::Prefetch => {
                table.prefetch(hash_of(words));
                replies.push_str("ok")
            }
        }
    }
}

impl<'a> Played<'a> {
    /// Writes what closures were called on, what is held, or texts that no table writes.
    fn answer(&mut self, question: Question, replies: &mut String) -> Result<(), AllocError> {
        match question {
            Question::Asked => write_noted(replies, &mut self.notes.asked),
            Question::Offered => write_noted(replies, &mut self.notes.offered),
            Question::Requests => {
                let made = self.refusing.requests().wrapping_sub(self.marked.0);
                write_shown(replies, &made)
            }
            Question::IsKept => {
                let is_kept = self.refusing.held() == self.marked.1;
                write_shown(replies, &is_kept)
            }
            Question::Partitions => write_shown(replies, &partitions()),
            Question::Refusals => write_refusals(replies),
        }
    }

    /// Writes what a lookup yields. It is peeked at twice before each step, which is the same.
    fn peek(&self, hash: u64, replies: &mut String) -> Result<(), AllocError> {
        replies.push_str("yields")?;
        let mut walk = self.tested.table.get(hash);
        for _ in 0..=self.tested.table.len() {
            let first = walk.peek();
            let second = walk.peek();
            write_yielded(replies, [first, second], walk.next())?;
        }
        Ok(())
    }

    /// Writes the position of a candidate of a hash, or which gap there is.
    fn position(&self, words: &str, replies: &mut String) -> Result<(), AllocError> {
        let (hash, handle) = two_words(words);
        match self.tested.position(hash_of(hash), handle_of(handle)) {
            Ok(position) => write!(replies, "at {position}"),
            Err(Some(_)) => replies.push_str("gap"),
            Err(None) => replies.push_str("no gap"),
        }
    }

    /// Writes the number of entries, and of each slot that is taken its position, its handle's number,
    /// and how far past its home it is.
    fn write_slots(&self, replies: &mut String) -> Result<(), AllocError> {
        write!(replies, "{}", self.tested.table.len())?;
        let slots = slots_of(self.lists, &self.tested.table, FINGERPRINTS);
        for (position, slot) in slots.iter().enumerate() {
            if let Some((handle, past)) = slot {
                write!(replies, " {position}:{}+{past}", handle.number)?;
            }
        }
        Ok(())
    }

    /// Inserts handles, each as its own hash, and writes how often the table grew and its capacity.
    fn fill(&mut self, handles: u64, replies: &mut String) -> Result<(), AllocError> {
        let mut growths = 0u32;
        let mut capacity = self.tested.capacity();
        for number in 0..handles {
            let handle = Handle {
                hash: number,
                number,
            };
            if let Err(refusal) = self.tested.insert(handle, &self.notes) {
                return write!(replies, "{refusal}");
            }
            if self.tested.capacity() != capacity {
                capacity = self.tested.capacity();
                growths = growths.saturating_add(1);
            }
        }
        write!(replies, "{growths} {capacity}")
    }
}

/// Writes the reply to a call that the table may not have allowed.
fn write_outcome(
    replies: &mut String,
    outcome: Option<Result<(), TableError>>,
) -> Result<(), AllocError> {
    match outcome {
        Some(Ok(())) => replies.push_str("ok"),
        Some(Err(refusal)) => write!(replies, "{refusal}"),
        None => replies.push_str("no call"),
    }
}

/// Writes a value.
fn write_shown<T: Debug>(replies: &mut String, value: &T) -> Result<(), AllocError> {
    write!(replies, "{value:?}")
}

/// Writes the texts of all refusals.
fn write_refusals(replies: &mut String) -> Result<(), AllocError> {
    write!(
        replies,
        "{}, {}, {}",
        TableError::Memory,
        TableError::Size,
        TableError::RunTooLong
    )
}

/// Writes a handle's number, or a dash if there is none, if it was peeked at twice before.
fn write_yielded(
    replies: &mut String,
    peeked: [Option<Handle>; 2],
    yielded: Option<Handle>,
) -> Result<(), AllocError> {
    for handle in peeked {
        if handle != yielded {
            return replies.push_str(" another");
        }
    }
    match yielded {
        Some(handle) => write!(replies, " {}", handle.number),
        None => replies.push_str(" -"),
    }
}

/// Writes on how many handles a closure was called since the last time, and the first eight.
fn write_noted(replies: &mut String, seen: &mut Seen) -> Result<(), AllocError> {
    let (count, first, _) = seen.noted();
    *seen = Seen::new();
    write!(replies, "{count}")?;
    for number in first.iter().take(count) {
        write!(replies, " {number}")?;
    }
    Ok(())
}

/// Returns the groups of three hashes.
fn partitions() -> [usize; 3] {
    [
        partition(0xAB << 48, 256),
        partition(u64::MAX, 1),
        partition(u64::MAX, 65536),
    ]
}
