//! Tests of the simulation over its public calls: arguments, numbers of keys, hits and texts worked
//! out by hand, devices that fail, and memory that is refused.
//!
//! The program plays the cases of its files, and prints those whose outcome is another. The hits of
//! those in `modelled` are worked out by `models.py`. Then it checks what no file has cases of. Given
//! the names of files, it plays those alone.
#![tactic(auto)]

mod arguments;
mod asked;
mod devices;
mod growth;
mod hits;
mod keys;
mod numbers;
mod pictures;
mod player;
mod policies;
mod progress;
mod refused;
mod samples;
mod sizes;
mod texts;
mod traces;

use std::alloc::Global;
use std::hash::RandomState;
use std::test::Fail;
use std::{env, io};
use testing::{SpellingError, play_cases};

/// What the cases of a file are.
#[derive(Clone, Copy)]
enum Cases {
    Answers,
    Keys,
    Outcomes,
    OutcomesAtOnce,
    Growth,
    Progress,
    TextsOfTwo,
    Pictures,
    Devices,
    Refusals,
}

/// The files of cases.
const FILES: [(&str, Cases); 11] = [
    ("asked", Cases::Answers),
    ("keys", Cases::Keys),
    ("growth", Cases::Growth),
    ("cases", Cases::Outcomes),
    ("modelled", Cases::Outcomes),
    ("at_once", Cases::OutcomesAtOnce),
    ("pairs", Cases::TextsOfTwo),
    ("progress", Cases::Progress),
    ("pictures", Cases::Pictures),
    ("devices", Cases::Devices),
    ("refused", Cases::Refusals),
];

fn main(rt: HostRuntime) -> Result<(), Fail> {
    let names: Vec<String> = env::args(&rt)?.skip(1).collect(rt.alloc())?;
    run(&rt, &names)
}

/// Plays the cases of files, or of all if there are no names, and then checks the rest.
fn run(rt: &HostRuntime, names: &[String]) -> Result<(), Fail> {
    play_files(rt, names)?;
    if names.is_empty() {
        refused::refuse_arguments(rt)?;
        check(rt.alloc())?;
        println!(rt; "the rest: checked")?;
    }
    Ok(())
}

/// Plays the cases of files, or of all if there are no names.
fn play_files(rt: &HostRuntime, names: &[String]) -> io::Result<()> {
    for (name, cases) in FILES {
        if names.is_empty() || has_name(names, name) {
            play(rt, name, cases)?;
        }
    }
    Ok(())
}

/// Returns true if a name is among others.
fn has_name(names: &[String], name: &str) -> bool {
    for other in names {
        if other.as_str() == name {
            return true;
        }
    }
    false
}

/// Plays the cases of a file.
fn play(rt: &HostRuntime, name: &str, cases: Cases) -> io::Result<()> {
    let alloc = rt.alloc();
    let random = RandomState::new(rt)?;
    play_cases(rt, name, |line| other_outcome(alloc, random, cases, line))
}

/// Returns what a case gives in place of what it should, if it does.
fn other_outcome(
    alloc: Global,
    random: RandomState,
    cases: Cases,
    line: &str,
) -> Result<Option<Vec<u8>>, SpellingError> {
    match cases {
        Cases::Answers => asked::other_answer(alloc, line),
        Cases::Keys => keys::other_keys(alloc, line),
        Cases::Growth => growth::other_growth(alloc, line),
        Cases::Outcomes => player::other_outcome(alloc, random, line),
        Cases::OutcomesAtOnce => player::other_outcome_at_once(alloc, line),
        Cases::TextsOfTwo => texts::other_text_of_two(alloc, line),
        Cases::Progress => progress::other_progress(alloc, line),
        Cases::Pictures => pictures::other_picture(alloc, line),
        Cases::Devices => devices::other_ending(alloc, line),
        Cases::Refusals => refused::wrong_refusal(alloc, line),
    }
}

/// Checks what no file has cases of.
fn check(alloc: Global) -> Result<(), Fail> {
    arguments::report_refusals(alloc)?;
    arguments::show_help()?;
    numbers::number_long_keys(alloc)?;
    numbers::number_many_keys(alloc)?;
    sizes::add_sizes()?;
    sizes::add_large_sizes()?;
    samples::keep_their_part(alloc)?;
    policies::count_outcomes(alloc)?;
    hits::refuse_shares(alloc)
}
