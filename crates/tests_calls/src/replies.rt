//! The replies of calls, and what a run is asked beside its calls.

use crate::verb::Question;
use clock2q_cache::{CacheError, Entered, Occupant};
use std::alloc::{AllocError, Global};
use std::cell::Cell;
use testing::{Counts, Refusing};

/// The reply of a call.
#[derive(Clone, Copy)]
pub(crate) enum Reply {
    /// A value or a slot, if there is one.
    Value(Option<u64>),
    Flag(bool),
    Number(u64),
    Pair((u64, u64)),
    /// A slot, the value there, and how often the closure was called.
    Slot(u64, u64, u64),
    /// The same, and what became of the key.
    Entered(u64, u64, u64, Entered),
    /// A slot, and who had it.
    Placed(u64, Occupant<u64>),
    /// A slot, and whether the key there is new.
    Offered(u64, bool),
    /// A key that left, and its value or its slot, if one left.
    Left(Option<(u64, u64)>),
    /// The closure failed, and its error owns this many bytes.
    Failed(u64),
    Done,
    Refused(CacheError),
    /// There is no such call.
    Unknown,
}

impl Reply {
    /// Writes the reply, with a line end.
    pub(crate) fn write(self, replies: &mut String) -> Result<(), AllocError> {
        match self {
            Reply::Value(None) => replies.push_str("none\n"),
            Reply::Value(Some(value)) => write!(replies, "some {value}\n"),
            Reply::Flag(flag) => write!(replies, "{flag}\n"),
            Reply::Number(number) => write!(replies, "{number}\n"),
            Reply::Pair((first, second)) => write!(replies, "{first} {second}\n"),
            Reply::Slot(slot, value, calls) => write!(replies, "{slot} {value} {calls}\n"),
            Reply::Entered(slot, value, calls, entered) => {
                write!(replies, "{slot} {value} {calls} {}\n", word_of(entered))
            }
            Reply::Placed(slot, occupant) => write_placed(slot, occupant, replies),
            Reply::Offered(slot, is_new) => write!(replies, "{slot} {is_new}\n"),
            Reply::Left(None) => replies.push_str("none\n"),
            Reply::Left(Some((key, held))) => write!(replies, "some {key} {held}\n"),
            Reply::Failed(0) => replies.push_str("none\n"),
            Reply::Failed(bytes) => write!(replies, "failed {bytes}\n"),
            Reply::Done => replies.push_str("ok\n"),
            Reply::Refused(refusal) => write!(replies, "{refusal}\n"),
            Reply::Unknown => replies.push_str("no call\n"),
        }
    }
}

/// Writes a slot and who had it, with a line end.
fn write_placed(
    slot: u64,
    occupant: Occupant<u64>,
    replies: &mut String,
) -> Result<(), AllocError> {
    match occupant {
        Occupant::Itself => write!(replies, "{slot} itself\n"),
        Occupant::Nobody => write!(replies, "{slot} nobody\n"),
        Occupant::Other(key) => write!(replies, "{slot} other {key}\n"),
    }
}

/// Returns what became of a key that entered, as a word.
fn word_of(entered: Entered) -> &'static str {
    if entered.is_hit {
        "hit"
    } else if entered.has_evicted {
        "evicted"
    } else {
        "new"
    }
}

/// What a run counts, and the memory that it takes.
#[derive(Drop)]
pub(crate) struct Watch<'a> {
    pub(crate) counts: &'a Counts,
    pub(crate) memory: &'a Refusing<Global>,
    /// How often memory was requested before all requests were refused.
    granted: Cell<u64>,
}

impl<'a> Watch<'a> {
    /// Watches a run.
    pub(crate) fn new(counts: &'a Counts, memory: &'a Refusing<Global>) -> Watch<'a> {
        Watch {
            counts,
            memory,
            granted: Cell::new(0),
        }
    }

    /// Returns the reply to a question about the run.
    pub(crate) fn reply(&self, question: Question) -> Reply {
        match question {
            Question::Reset => self.reset(),
            Question::Asked => Reply::Pair(self.counts.asked()),
            Question::Hashed => Reply::Number(self.counts.asked().1),
            Question::Hashers => Reply::Number(self.counts.hashers()),
            Question::Dropped => Reply::Pair(self.counts.dropped()),
            Question::Refuse => self.refuse(),
            Question::Requests => self.requests(),
        }
    }

    /// Counts anew what is compared and hashed.
    fn reset(&self) -> Reply {
        let _ = (self.counts.asked(), self.counts.hashers());
        Reply::Done
    }

    /// Refuses every later request for memory.
    fn refuse(&self) -> Reply {
        self.memory.refuse_after(0);
        self.granted.set(self.memory.requests());
        Reply::Done
    }

    /// Replies with how often memory was requested since all requests are refused.
    fn requests(&self) -> Reply {
        Reply::Number(self.memory.requests().wrapping_sub(self.granted.get()))
    }
}
