//! Replays traces in caches of the capacities that the arguments ask for.
#![tactic(auto)]

use clock2q_ports::{Device, Source, send};
use simulator_interface::{
    ErrorReport, Options, Outcome, Progress, STANDARD_INPUT, SimulationError, help_for,
    parse_options, write_outcomes,
};
use simulator_replay::replay_source;
use simulator_traces::KeyedHashBuilder;
use std::alloc::Global;
use std::env;
use std::fs::File;
use std::hash::{BuildHasherDefault, FoldHasher, RandomState};
use std::io::{IsTerminal, Stderr};
use std::process::ExitCode;

/// A refusal is reported by a line on standard error and by the exit status.
fn main(rt: HostRuntime) -> ExitCode {
    let (arguments, ended) = match arguments_of(&rt) {
        Ok(arguments) => {
            let ended = run(&rt, &arguments);
            (arguments, ended)
        }
        Err(refusal) => (Vec::new(rt.alloc()), Err(Ended::at_none(refusal))),
    };
    let Err(Ended { refusal, trace }) = ended else {
        return ExitCode::SUCCESS;
    };
    let report = ErrorReport {
        refusal,
        trace,
        arguments: &arguments,
    };
    let _ = eprintln!(rt; "{report}");
    ExitCode::from(refusal.status())
}

/// A refusal, and the index of the argument that names the trace it occurred at.
#[derive(Clone, Copy)]
struct Ended {
    refusal: SimulationError,
    trace: Option<usize>,
}

impl Ended {
    /// Returns a refusal that didn't occur at a trace.
    fn at_none(refusal: SimulationError) -> Ended {
        Ended {
            refusal,
            trace: None,
        }
    }
}

/// Returns the arguments without the program's name.
fn arguments_of(rt: &HostRuntime) -> Result<Vec<String>, SimulationError> {
    let arguments = env::args(rt).map_err(|error| SimulationError::of_arguments(&error))?;
    Ok(arguments.skip(1).collect(rt.alloc())?)
}

fn run(rt: &HostRuntime, arguments: &[String]) -> Result<(), Ended> {
    let mut writer = Device::new(rt.stdout());
    if let Some(text) = help_for(arguments) {
        return send(&mut writer, text.as_bytes()).map_err(|_| Ended::at_none(
            SimulationError::Write,
        ));
    }
    let options = parse_options(rt.alloc(), arguments).map_err(Ended::at_none)?;
    let mut progress = Progress::with_clock(rt.stderr(), rt.stderr().is_terminal(), rt);
    let replayed = replay_all(rt, &options, arguments, &mut progress);
    progress.end();
    let outcomes = replayed?;
    write_outcomes(rt.alloc(), &options, &outcomes, &mut writer).map_err(Ended::at_none)
}

/// Replays each trace that the arguments name, or the one on standard input.
fn replay_all<'a>(
    rt: &HostRuntime,
    options: &Options<Global>,
    arguments: &'a [String],
    progress: &mut Progress<Stderr, &HostRuntime>,
) -> Result<Vec<Outcome<'a, Global>>, Ended> {
    let mut outcomes = Vec::new(rt.alloc());
    if options.traces.is_empty() {
        let outcome = replay_named(rt, options, STANDARD_INPUT, progress);
        push(&mut outcomes, outcome.map_err(Ended::at_none)?)?;
    }
    for index in options.traces.iter().copied() {
        let name = name_at(arguments, index);
        match replay_named(rt, options, name, progress) {
            Ok(outcome) => push(&mut outcomes, outcome)?,
            Err(refusal) => {
                return Err(Ended {
                    refusal,
                    trace: Some(index),
                });
            }
        }
    }
    Ok(outcomes)
}

/// Returns the argument at an index.
fn name_at(arguments: &[String], index: usize) -> &str {
    match arguments.get(index) {
        Some(word) => word.as_str(),
        None => STANDARD_INPUT,
    }
}

fn push<'a>(
    outcomes: &mut Vec<Outcome<'a, Global>>,
    outcome: Outcome<'a, Global>,
) -> Result<(), Ended> {
    match outcomes.push(outcome) {
        Ok(()) => Ok(()),
        Err(_) => Err(Ended::at_none(SimulationError::Memory)),
    }
}

/// Replays the trace with a name.
fn replay_named<'a>(
    rt: &HostRuntime,
    options: &Options<Global>,
    name: &'a str,
    progress: &mut Progress<Stderr, &HostRuntime>,
) -> Result<Outcome<'a, Global>, SimulationError> {
    if name == STANDARD_INPUT {
        progress.begin(None);
        return replay(rt, options, name, &mut Device::new(rt.stdin()), progress);
    }
    match File::open(rt, name) {
        Ok(file) => {
            progress.begin(length_of(&file));
            replay(rt, options, name, &mut Device::new(file), progress)
        }
        Err(_) => Err(SimulationError::Open),
    }
}

/// Returns the number of bytes of a file, unless it is a pipe or the like.
fn length_of(file: &File) -> Option<u64> {
    match file.metadata() {
        Ok(metadata) if metadata.is_file() => Some(metadata.len()),
        _ => None,
    }
}

/// Replays a trace with a random hasher, or with a fixed one if the system has no random numbers.
fn replay<'a, R: Source>(
    rt: &HostRuntime,
    options: &Options<Global>,
    name: &'a str,
    reader: &mut R,
    progress: &mut Progress<Stderr, &HostRuntime>,
) -> Result<Outcome<'a, Global>, SimulationError> {
    match RandomState::new(rt) {
        Ok(random) => {
            let hasher = KeyedHashBuilder::new(&random);
            replay_source(rt.alloc(), options, name, hasher, reader, progress)
        }
        Err(_) => {
            let hasher = BuildHasherDefault::<FoldHasher>::new();
            replay_source(rt.alloc(), options, name, hasher, reader, progress)
        }
    }
}
