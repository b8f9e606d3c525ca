//! Requests for memory refused in turn, while the arguments are fetched and from them to the text: cases
//! of a file, a line each.

use crate::player::words_of;
use clock2q_cache::DefaultHashBuilder;
use clock2q_ports::Device;
use simulator_interface::{Progress, SimulationError, parse_options};
use simulator_replay::simulate;
use std::alloc::{Allocator, Global};
use std::env;
use std::test::Fail;
use testing::{Refusing, SpellingError, Tried, same_at, try_in_turn};

const TRACE: &[u8] = b"a\nb\na\nc\nb\nd\na\nb\n";

/// Returns the number of bytes written, or the refusal if it came before any byte.
fn written<A: Allocator + Copy>(
    alloc: A,
    out: Global,
    words: &[String],
) -> Result<usize, SimulationError> {
    let options = parse_options(alloc, words)?;
    let mut writer = Device::new(Vec::new(out));
    let mut progress = Progress::new(Vec::new(out), false);
    let outcome = simulate(
        alloc,
        &options,
        DefaultHashBuilder::new(),
        &mut Device::new(TRACE),
        &mut writer,
        &mut progress,
    );
    let bytes = writer.into_inner().len();
    match outcome {
        Err(refusal) if bytes == 0 => Err(refusal),
        _ => Ok(bytes),
    }
}

/// Returns true if this program has arguments, including its name.
fn has_arguments<A: Allocator>(rt: &HostRuntime, alloc: &A) -> Result<bool, SimulationError> {
    match env::args(&(rt, alloc)) {
        Ok(arguments) => Ok(arguments.len() > 0),
        Err(error) => Err(SimulationError::of_arguments(&error)),
    }
}

/// Refuses in turn each request made to fetch the arguments, as `main` fetches them.
pub(crate) fn refuse_arguments(rt: &HostRuntime) -> Result<(), Fail> {
    let alloc = Refusing::new(rt.alloc());
    let tried = try_in_turn(&alloc, true, SimulationError::Memory, || {
        has_arguments(rt, &alloc)
    });
    same_at(matches!(tried, Tried::Done(_)), true, tried)
}

/// Refuses in turn each request made for the arguments of a line and for what is written, and returns
/// what came of it if it is wrong.
pub(crate) fn wrong_refusal(alloc: Global, line: &str) -> Result<Option<Vec<u8>>, SpellingError> {
    let words = words_of(alloc, line)?;
    let refusing = Refusing::new(alloc);
    let tried = try_in_turn(&refusing, true, SimulationError::Memory, || {
        Ok(written(&refusing, alloc, &words)? > 0)
    });
    Ok(match tried {
        Tried::Done(_) => None,
        _ => Some(format!(in alloc; "{tried:?}")?.into_bytes()),
    })
}
