//! Shares that a replay refuses.

use crate::numbers::trace_of;
use crate::traces::non_zero;
use simulator_interface::{ChosenShares, Policy, SimulationError};
use simulator_replay::replay;
use simulator_traces::Trace;
use std::alloc::Global;
use std::test::Fail;
use testing::same_at;

/// Shares that don't fit together at some capacity.
const UNFIT: [(&str, usize); 7] = [
    ("small=4,window=1", 4),
    ("small=2,window=3", 4),
    ("small=0,window=1", 4),
    ("small=1,window=0", 4),
    ("small=100%,window=1%", 4),
    ("small=10%,window=50%", 1),
    ("history=5,small=1,window=1", 4),
];

/// Replays with shares that don't fit together.
pub(crate) fn refuse_shares(alloc: Global) -> Result<(), Fail> {
    let trace = trace_of(alloc, b"a\n")?;
    for (word, capacity) in UNFIT {
        are_refused(alloc, word, capacity, &trace)?;
    }
    Ok(())
}

/// Checks that a replay refuses shares at a capacity.
fn are_refused(
    alloc: Global,
    word: &str,
    capacity: usize,
    trace: &Trace<Global>,
) -> Result<(), Fail> {
    let shares = ChosenShares::written(word);
    let room = non_zero(capacity);
    let refusal = replay(alloc, room, &[Policy::Clock2Q], shares, 0, trace).err();
    let wanted = Some(SimulationError::Shares(capacity));
    same_at((shares.is_some(), refusal), (true, wanted), word)
}
