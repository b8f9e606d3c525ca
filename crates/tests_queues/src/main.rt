//! Tests of `clock2q_queues` and `clock2q_directory` over their public calls.
//!
//! The program plays the cases of the file `cases`, and prints those whose replies are others: runs that
//! are worked out by hand, some with memory refused, and seeded ones that are compared with plain lists.
//! Some runs are written in the code, with contracts that count what no call returns.
#![tactic(auto)]

mod beside;
mod compared;
mod counts;
mod directory;
mod history;
mod keys;
mod lists;
mod played;
mod player;
mod seeded;
mod verb;
mod worked;

use player::other_replies;
use std::test::Fail;
use testing::play_cases;

fn main(rt: HostRuntime) -> Result<(), Fail> {
    play_cases(&rt, "cases", |line| other_replies(rt.alloc(), line))?;
    keys::look_up_one_hash(rt.alloc())
}
