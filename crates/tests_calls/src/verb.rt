//! The words that name calls and questions.

use testing::named_in;

/// A call of a cache, or a question about its run.
#[derive(Clone, Copy)]
pub(crate) enum Verb {
    Get,
    GetMut,
    GetAt,
    Slot,
    Peek,
    Contains,
    Len,
    Capacity,
    IsEmpty,
    Put,
    PutEvicting,
    PutSlot,
    With,
    Try,
    TryFail,
    TryMut,
    TryMutFail,
    Fail,
    SlotFor,
    Enter,
    Puts,
    Stores,
    Prefill,
    Remove,
    Evict,
    Retain,
    Clear,
    At(AtSlot),
    Show(Shown),
    Ask(Question),
}

/// A call that finds a key by its slot or by its hash.
#[derive(Clone, Copy)]
pub(crate) enum AtSlot {
    Peek,
    Listed,
    Hit,
    Remove,
    Offer,
}

/// What is written of all residents.
#[derive(Clone, Copy)]
pub(crate) enum Shown {
    /// Their keys, slots and values.
    Residents,
    /// Their keys, each with the number of keys that were made with it.
    Keys,
    /// How many are where.
    Debug,
}

/// A question about a run, or what changes what is counted or granted in it.
#[derive(Clone, Copy)]
pub(crate) enum Question {
    /// Counts anew what is compared and hashed.
    Reset,
    Asked,
    Hashed,
    Hashers,
    Dropped,
    /// Refuses every later request for memory.
    Refuse,
    Requests,
}

const VERBS: &[(&str, Verb)] = &[
    ("get", Verb::Get),
    ("get_mut", Verb::GetMut),
    ("get_at", Verb::GetAt),
    ("slot", Verb::Slot),
    ("peek", Verb::Peek),
    ("contains", Verb::Contains),
    ("len", Verb::Len),
    ("capacity", Verb::Capacity),
    ("is_empty", Verb::IsEmpty),
    ("put", Verb::Put),
    ("put_evicting", Verb::PutEvicting),
    ("put_slot", Verb::PutSlot),
    ("with", Verb::With),
    ("try", Verb::Try),
    ("try_fail", Verb::TryFail),
    ("try_mut", Verb::TryMut),
    ("try_mut_fail", Verb::TryMutFail),
    ("fail", Verb::Fail),
    ("slot_for", Verb::SlotFor),
    ("enter", Verb::Enter),
    ("puts", Verb::Puts),
    ("stores", Verb::Stores),
    ("prefill", Verb::Prefill),
    ("remove", Verb::Remove),
    ("evict", Verb::Evict),
    ("retain", Verb::Retain),
    ("clear", Verb::Clear),
    ("peek_slot", Verb::At(AtSlot::Peek)),
    ("slot_with_hash", Verb::At(AtSlot::Listed)),
    ("hit_slot", Verb::At(AtSlot::Hit)),
    ("remove_slot", Verb::At(AtSlot::Remove)),
    ("offer", Verb::At(AtSlot::Offer)),
    ("residents", Verb::Show(Shown::Residents)),
    ("keys", Verb::Show(Shown::Keys)),
    ("debug", Verb::Show(Shown::Debug)),
    ("reset", Verb::Ask(Question::Reset)),
    ("asked", Verb::Ask(Question::Asked)),
    ("hashed", Verb::Ask(Question::Hashed)),
    ("hashers", Verb::Ask(Question::Hashers)),
    ("dropped", Verb::Ask(Question::Dropped)),
    ("refuse", Verb::Ask(Question::Refuse)),
    ("requests", Verb::Ask(Question::Requests)),
];

impl Verb {
    /// Returns the call or the question with this name.
    pub(crate) fn named(name: &str) -> Option<Verb> {
        named_in(VERBS, name)
    }
}

/// What a line makes.
#[derive(Clone, Copy)]
pub(crate) enum Kind {
    /// A cache under the usual hasher.
    Usual,
    /// A cache under a hasher that gives each key a hash of its own.
    Apart,
    /// A cache under a hasher that gives all keys one hash.
    Alike,
    /// A cache under a hasher with four hashes.
    Four,
    /// A cache under each of several hashers, whose replies are the same.
    Any,
    /// The same, of plain keys, whose calls reply with the key that leaves.
    Leaving,
    /// A cache whose values count how many of them were dropped.
    Drops,
}

const KINDS: &[(&str, Kind)] = &[
    ("usual", Kind::Usual),
    ("apart", Kind::Apart),
    ("alike", Kind::Alike),
    ("four", Kind::Four),
    ("any", Kind::Any),
    ("leaving", Kind::Leaving),
    ("drops", Kind::Drops),
];

impl Kind {
    /// Returns what has this name.
    pub(crate) fn named(name: &str) -> Option<Kind> {
        named_in(KINDS, name)
    }
}
