//! Tests of `clock2q_handles` through its public calls, and of tables through lists of commands.
//!
//! The program plays the cases of the file `cases`, and prints those whose replies are others: runs that
//! are worked out by hand, and seeded lists of commands, whose replies and slots are compared with plain
//! lists. Then it looks up a hash that many handles have.
#![tactic(auto)]

mod calls;
mod crowded;
mod handle;
mod hashed;
mod layout;
mod plain;
mod player;
mod runs;
mod seeded;
mod seen;
mod verb;

use crowded::crowd;
use player::other_replies;
use std::test::Fail;
use testing::play_cases;

fn main(rt: HostRuntime) -> Result<(), Fail> {
    play_cases(&rt, "cases", |line| other_replies(rt.alloc(), line))?;
    crowd(rt.alloc())?;
    println!(rt; "one hash: looked up")?;
    Ok(())
}
