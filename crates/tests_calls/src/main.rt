//! Lines of calls and of texts, with what they should reply.
//!
//! The program plays the lines of the file `calls`: runs of calls of a cache that are worked out by hand,
//! what calls compare, hash, drop and request, and how often they call closures. Then it plays the file
//! `texts`: texts of commands that are served under six hashers. It prints the lines whose outcome is
//! another. At last it serves a directory, which can't be read, and standard input as `clock2q` does,
//! where a bad line is refused. The status of that refusal is the program's.
#![tactic(auto)]

mod cached;
mod drops;
mod leaving;
mod player;
mod replies;
mod texts;
mod verb;

use clock2q_command::{Device, serve, serve_standard};
use player::other_replies;
use std::fs::File;
use std::hash::RandomState;
use std::io;
use std::process::ExitCode;
use testing::play_cases;
use texts::other_outcome;

fn main(rt: HostRuntime) -> ExitCode {
    if play(&rt).is_err() || serve_file(&rt, ".").is_err() {
        return ExitCode::FAILURE;
    }
    serve_standard(rt)
}

/// Plays all lines, the texts under one hasher by random numbers too.
fn play(rt: &HostRuntime) -> io::Result<()> {
    play_cases(rt, "calls", |line| other_replies(rt.alloc(), line))?;
    let random = RandomState::new(rt)?;
    play_cases(rt, "texts", |line| other_outcome(rt.alloc(), line, random))
}

/// Serves a file, and prints its refusal and the status.
fn serve_file(rt: &HostRuntime, name: &str) -> io::Result<()> {
    let mut reader = Device::new(File::open(rt, name)?);
    let mut writer = Device::new(Vec::new(rt.alloc()));
    match serve(rt.alloc(), &mut reader, &mut writer) {
        Ok(()) => println!(rt; "{name}: served"),
        Err(refusal) => println!(rt; "{name}: {refusal}, status {}", refusal.status()),
    }
}
