//! The words that name calls and questions.

use testing::named_in;

/// A call of a table, or a question about it.
#[derive(Clone, Copy)]
pub(crate) enum Verb {
    Make(Order),
    Change(Change),
    Grant(Grant),
    Look(Look),
    Ask(Question),
    /// Inserts handles, and asks how the table grew.
    Fill,
    /// Makes a seeded list of commands, and compares the table with plain lists.
    List,
}

/// A command, which lists of commands have too.
#[derive(Clone, Copy)]
pub(crate) enum Order {
    Put,
    Remove,
    Find,
    Reserve,
    Get,
}

/// A call that no list of commands has, and that a table's state may not allow.
#[derive(Clone, Copy)]
pub(crate) enum Change {
    /// Makes a table in place of the one there.
    Of,
    PutWithin,
    PutFew,
    PutAtGap,
    Replace,
    ReplaceAtGap,
}

/// What changes which requests for memory are refused, or what they are compared with later.
#[derive(Clone, Copy)]
pub(crate) enum Grant {
    Refuse,
    RefuseOne,
    Grant,
    Mark,
}

/// A call that changes nothing.
#[derive(Clone, Copy)]
pub(crate) enum Look {
    Len,
    Capacity,
    IsEmpty,
    Show,
    Peek,
    Position,
    Slots,
    Prefetch,
}

/// A question about a run, or about what no table has a part in.
#[derive(Clone, Copy)]
pub(crate) enum Question {
    Asked,
    Offered,
    Requests,
    IsKept,
    Partitions,
    Refusals,
}

const VERBS: &[(&str, Verb)] = &[
    ("put", Verb::Make(Order::Put)),
    ("remove", Verb::Make(Order::Remove)),
    ("find", Verb::Make(Order::Find)),
    ("reserve", Verb::Make(Order::Reserve)),
    ("get", Verb::Make(Order::Get)),
    ("of", Verb::Change(Change::Of)),
    ("put_within", Verb::Change(Change::PutWithin)),
    ("put_few", Verb::Change(Change::PutFew)),
    ("put_at_gap", Verb::Change(Change::PutAtGap)),
    ("replace", Verb::Change(Change::Replace)),
    ("replace_at_gap", Verb::Change(Change::ReplaceAtGap)),
    ("refuse", Verb::Grant(Grant::Refuse)),
    ("refuse_one", Verb::Grant(Grant::RefuseOne)),
    ("grant", Verb::Grant(Grant::Grant)),
    ("mark", Verb::Grant(Grant::Mark)),
    ("len", Verb::Look(Look::Len)),
    ("capacity", Verb::Look(Look::Capacity)),
    ("is_empty", Verb::Look(Look::IsEmpty)),
    ("show", Verb::Look(Look::Show)),
    ("peek", Verb::Look(Look::Peek)),
    ("position", Verb::Look(Look::Position)),
    ("slots", Verb::Look(Look::Slots)),
    ("prefetch", Verb::Look(Look::Prefetch)),
    ("asked", Verb::Ask(Question::Asked)),
    ("offered", Verb::Ask(Question::Offered)),
    ("requests", Verb::Ask(Question::Requests)),
    ("is_kept", Verb::Ask(Question::IsKept)),
    ("partitions", Verb::Ask(Question::Partitions)),
    ("refusals", Verb::Ask(Question::Refusals)),
    ("fill", Verb::Fill),
    ("beside_lists", Verb::List),
];

impl Verb {
    /// Returns the call or the question with this name.
    pub(crate) fn named(name: &str) -> Option<Verb> {
        named_in(VERBS, name)
    }
}
