//! Calls of queues and of histories, the words that name them, and what they reply.

use testing::two_words;

/// A call of queues or of a history. Some have a slot or a key.
#[derive(Clone, Copy)]
pub(crate) enum Verb {
    /// Makes the link records of the slots below one.
    MakeBelow,
    Admit,
    Append,
    Hit,
    Leave,
    TakeTail,
    ReplaceTail,
    TakeVictim,
    ReplaceVictim,
    IsResident,
    SmallLen,
    MainLen,
    IsTailPromoted,
    Renew,
    Pass,
    Forget,
    Replace,
    Len,
    Clear,
    /// Whether memory is held.
    IsHeld,
    /// Makes a list of drawn calls, and compares the replies with those of plain lists.
    BesideLists,
}

/// The reply to a call: a number, a slot, a hash, or 1 or 0 for true and false. A call that returns nothing
/// replies 1, and one that can't be made `None`.
pub(crate) type Reply = Option<u64>;

/// The calls by name.
pub(crate) const VERBS: &[(&str, Verb)] = &[
    ("make_below", Verb::MakeBelow),
    ("admit", Verb::Admit),
    ("append", Verb::Append),
    ("hit", Verb::Hit),
    ("leave", Verb::Leave),
    ("take_tail", Verb::TakeTail),
    ("replace_tail", Verb::ReplaceTail),
    ("take_victim", Verb::TakeVictim),
    ("replace_victim", Verb::ReplaceVictim),
    ("is_resident", Verb::IsResident),
    ("small_len", Verb::SmallLen),
    ("main_len", Verb::MainLen),
    ("is_tail_promoted", Verb::IsTailPromoted),
    ("renew", Verb::Renew),
    ("pass", Verb::Pass),
    ("forget", Verb::Forget),
    ("replace", Verb::Replace),
    ("len", Verb::Len),
    ("clear", Verb::Clear),
    ("is_held", Verb::IsHeld),
    ("beside_lists", Verb::BesideLists),
];

/// Returns the reply that is true or false.
pub(crate) fn flag(is_so: bool) -> Reply {
    Some(u64::from(is_so))
}

/// Returns the reply to a call that returns a slot, if there is one.
pub(crate) fn slot_if_any(slot: Option<u32>) -> Reply {
    Some(u64::from(slot?))
}

/// Which requests for memory are refused as something is made.
#[derive(Clone, Copy)]
pub(crate) enum Refusal {
    /// The one after a number of granted ones.
    One,
    /// All after them.
    All,
}

/// The refusals by name.
pub(crate) const REFUSALS: &[(&str, Refusal)] = &[
    ("refuse_one", Refusal::One),
    ("refuse", Refusal::All),
];

/// What is made for a line.
#[derive(Clone, Copy)]
pub(crate) enum Made {
    Queues,
    History,
    /// What a run in the code makes for itself.
    Worked,
}

impl Made {
    /// Returns what the first words of a line make, and the words that say more.
    pub(crate) fn named(words: &str) -> (Made, &str) {
        let (name, rest) = two_words(words);
        match name {
            "history" => (Made::History, rest),
            "worked" => (Made::Worked, rest),
            _ => (Made::Queues, words),
        }
    }
}

/// A run in the code.
#[derive(Clone, Copy)]
pub(crate) enum Run {
    Counts,
    Growth,
    Slot,
    SlotMore,
    TwoKeys,
    /// Not a run, but how much room an index has that is made for some entries.
    IndexRoom,
}

/// The runs by name.
pub(crate) const RUNS: &[(&str, Run)] = &[
    ("counts", Run::Counts),
    ("growth", Run::Growth),
    ("slot", Run::Slot),
    ("slot_more", Run::SlotMore),
    ("two_keys", Run::TwoKeys),
    ("index_room", Run::IndexRoom),
];
