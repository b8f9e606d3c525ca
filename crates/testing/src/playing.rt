//! Programs that play the cases of a file.

use crate::spelling::{SpellingError, spelling_of};
use std::alloc::Global;
use std::{fs, io};

/// Plays the cases of a file, a line each, but for lines that begin with `#`. It prints each line
/// that `play` returns another outcome of, and at the end how many cases there are.
///
/// # Errors
///
/// An error if the file can't be read or standard output not be written.
///
/// # Example
///
/// ```
/// play_cases(&rt, "cases", |line| Case::from_line(rt.alloc(), line)?.other_outcome(rt.alloc()))?;
/// ```
pub fn play_cases<F>(rt: &HostRuntime, name: &str, play: F) -> io::Result<()>
where
    F: Fn(&str) -> Result<Option<Vec<u8>>, SpellingError> + Drop,
    requires callable { F.IsAlwaysCallable play }
{
    let text = fs::read_to_string(rt, name)?;
    let mut cases = 0u64;
    for line in text.lines() {
        if !line.starts_with('#') {
            cases = cases.saturating_add(1);
            report(rt, line, play(line))?;
        }
    }
    println!(rt; "{name}: {cases} played")
}

/// Prints a line if its outcome is another.
fn report(
    rt: &HostRuntime,
    line: &str,
    other: Result<Option<Vec<u8>>, SpellingError>,
) -> io::Result<()> {
    match other.and_then(|other| spelled_again(rt.alloc(), other)) {
        Ok(None) => Ok(()),
        Ok(Some(got)) => println!(rt; "{line}\n  gave {got}"),
        Err(error) => println!(rt; "{line}\n  {error}"),
    }
}

/// Returns the spelling of an outcome, if there is one.
fn spelled_again(alloc: Global, outcome: Option<Vec<u8>>) -> Result<Option<String>, SpellingError> {
    match outcome {
        Some(bytes) => Ok(Some(spelling_of(alloc, &bytes)?)),
        None => Ok(None),
    }
}
