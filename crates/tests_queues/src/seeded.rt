//! The two queues beside plain lists.

use crate::compared::Difference;
use crate::lists::Lists;
use crate::played::TestedQueues;
use crate::verb::Verb;
use std::alloc::Global;
use testing::SplitMix64;

/// The number of slots of queues that are compared.
const SLOTS: u32 = 12;

/// Makes a call of both.
fn make(queues: &mut TestedQueues<'_>, lists: &mut Lists, verb: Verb, slot: u32) {
    let got = queues.reply(verb, slot);
    lists.check(verb, slot, got);
}

/// Asks both which slots are in a queue, and how long the queues are.
fn compare(queues: &mut TestedQueues<'_>, lists: &mut Lists) {
    for slot in 0..SLOTS {
        make(queues, lists, Verb::IsResident, slot);
    }
    make(queues, lists, Verb::SmallLen, 0);
    make(queues, lists, Verb::MainLen, 0);
    make(queues, lists, Verb::IsTailPromoted, 0);
}

/// Returns a drawn call: an admission, a slot put into Main, a slot that leaves, a hit, an eviction
/// from Main, or Small's tail or Main's victim reused.
fn drawn_call(lists: &Lists, draws: &mut SplitMix64) -> (Verb, u32) {
    let slot = draws.below(12) as u32;
    let verb = match draws.below(9) {
        0..4 if !lists.is_resident(slot) => Verb::Admit,
        4 if !lists.is_resident(slot) => Verb::Append,
        5 => Verb::Leave,
        6 if !lists.main.is_empty() => Verb::TakeVictim,
        7 => Verb::ReplaceTail,
        8 => Verb::ReplaceVictim,
        _ => Verb::Hit,
    };
    (verb, slot)
}

/// Makes a drawn call. Small's tail leaves before an admission if Small is full.
fn step(queues: &mut TestedQueues<'_>, lists: &mut Lists, small: u64, draws: &mut SplitMix64) {
    let (verb, slot) = drawn_call(lists, draws);
    if matches!(verb, Verb::Admit) && lists.small.len() as u64 >= small {
        make(queues, lists, Verb::TakeTail, 0);
    }
    make(queues, lists, verb, slot);
    compare(queues, lists);
}

/// Empties both: each slot leaves the queue that the lists have it in, in their order.
fn drain(queues: &mut TestedQueues<'_>, lists: &mut Lists) {
    for _ in 0..SLOTS {
        make(queues, lists, Verb::TakeTail, 0);
        make(queues, lists, Verb::TakeVictim, 0);
    }
    compare(queues, lists);
}

/// Makes 2,000 steps with a comparison after each, and empties both.
fn go_along(queues: &mut TestedQueues<'_>, lists: &mut Lists, small: u64, draws: &mut SplitMix64) {
    for _ in 0..2000 {
        step(queues, lists, small, draws);
    }
    drain(queues, lists);
}

/// Plays a seeded run of queues of twelve slots with this much room in Small, and returns the first difference
/// from plain lists.
pub(crate) fn beside_lists(
    queues: &mut TestedQueues<'_>,
    alloc: Global,
    (small, seed): (u64, u64),
) -> Option<Difference> {
    let mut lists = Lists::new(alloc, queues.window());
    go_along(queues, &mut lists, small, &mut SplitMix64::new(seed));
    lists.compared.first
}
