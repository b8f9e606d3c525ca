//! Cases of texts, a line each, served under hashers that spread keys well, badly and at random.

use crate::player::SPREADS;
use clock2q_command::{Device, ServeError, serve, serve_with};
use std::alloc::{AllocError, Global};
use std::hash::{BuildHasher, RandomState};
use testing::{SpellingError, spelled};

/// Returns what was written, or after it the refusal and its status.
fn shown(
    alloc: Global,
    outcome: Result<(), ServeError>,
    written: Vec<u8>,
) -> Result<Vec<u8>, AllocError> {
    let mut shown = written;
    if let Err(refusal) = outcome {
        let report = format!(in alloc; "!{refusal}, status {}", refusal.status())?;
        shown.extend_from_slice(report.as_bytes())?;
    }
    Ok(shown)
}

/// Serves a text under std's hasher.
fn served(alloc: Global, text: &[u8]) -> Result<Vec<u8>, AllocError> {
    let mut reader = Device::new(text);
    let mut writer = Device::new(Vec::new(alloc));
    let outcome = serve(alloc, &mut reader, &mut writer);
    shown(alloc, outcome, writer.into_inner())
}

/// Serves a text under a hasher.
fn served_under<S: BuildHasher + Drop>(
    alloc: Global,
    text: &[u8],
    hasher: S,
) -> Result<Vec<u8>, AllocError> {
    let mut reader = Device::new(text);
    let mut writer = Device::new(Vec::new(alloc));
    let outcome = serve_with(alloc, &mut reader, &mut writer, hasher);
    shown(alloc, outcome, writer.into_inner())
}

/// Returns what a line gives in place of what it should, if it does.
pub(crate) fn other_outcome(
    alloc: Global,
    line: &str,
    random: RandomState,
) -> Result<Option<Vec<u8>>, SpellingError> {
    let case = Case::from_line(alloc, line)?;
    Ok(case.other_outcome(alloc, random)?)
}

/// A text, and what serving it gives.
#[derive(Drop)]
struct Case {
    text: Vec<u8>,
    wanted: Vec<u8>,
}

impl Case {
    /// Reads a line, in which the text ends at the bar.
    fn from_line(alloc: Global, line: &str) -> Result<Case, SpellingError> {
        let (text, wanted) = line.split_once('|').unwrap_or((line, "no bar"));
        Ok(Case {
            text: spelled(alloc, text)?,
            wanted: spelled(alloc, wanted)?,
        })
    }

    /// Returns what the case gives in place of what it should, if it does.
    fn other_outcome(
        &self,
        alloc: Global,
        random: RandomState,
    ) -> Result<Option<Vec<u8>>, AllocError> {
        let got = served(alloc, &self.text)?;
        if got != self.wanted {
            return Ok(Some(got));
        }
        let got = served_under(alloc, &self.text, random)?;
        if got != self.wanted {
            return Ok(Some(got));
        }
        other_spread(alloc, self)
    }
}

/// The same under hashers that spread keys badly.
fn other_spread(alloc: Global, case: &Case) -> Result<Option<Vec<u8>>, AllocError> {
    for spread in SPREADS {
        let got = served_under(alloc, &case.text, spread)?;
        if got != case.wanted {
            return Ok(Some(got));
        }
    }
    Ok(None)
}
