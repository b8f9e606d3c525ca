//! Messages of refusals, and what the help texts contain.

use crate::player::words_of;
use simulator_interface::{
    Amount, ErrorReport, HELP, POLICIES_HELP, Policy, SimulationError, Unit,
};
use std::alloc::Global;
use std::test::Fail;
use testing::{same, same_at, two_words};

/// All keys of a trace.
const ALL: Amount = Amount {
    number: 1_000_000,
    unit: Unit::Millionths,
};

/// Refusals, some of them of the second argument, with their messages and statuses.
const REFUSALS: [(SimulationError, Option<usize>, &str, u8); 4] = [
    (
        SimulationError::Read,
        Some(1),
        "clock2q-simulate: a: read failed",
        4,
    ),
    (
        SimulationError::Open,
        Some(1),
        "clock2q-simulate: a: can't be opened as a trace (a capacity begins with a digit)",
        4,
    ),
    (
        SimulationError::Memory,
        Some(1),
        "clock2q-simulate: no memory",
        3,
    ),
    (
        SimulationError::Capacity(ALL),
        None,
        "clock2q-simulate: 100%: a capacity above 16777215, which clock2q and clock can't have (choose others by --policies)",
        3,
    ),
];

/// Checks the messages of refusals.
pub(crate) fn report_refusals(alloc: Global) -> Result<(), Fail> {
    let arguments = words_of(alloc, "5 a")?;
    for (refusal, trace, wanted, status) in REFUSALS {
        has_message(alloc, &arguments, (refusal, trace), (wanted, status))?;
    }
    let statuses = [
        SimulationError::Shares(1).status(),
        SimulationError::Write.status(),
    ];
    same(statuses, [2, 4])
}

/// Checks the message and the status of a refusal, which may be of one of the traces.
fn has_message(
    alloc: Global,
    arguments: &[String],
    (refusal, trace): (SimulationError, Option<usize>),
    wanted: (&str, u8),
) -> Result<(), Fail> {
    let report = ErrorReport {
        refusal,
        trace,
        arguments,
    };
    let text = format!(in alloc; "{report}")?;
    same((text.as_str(), refusal.status()), wanted)
}

/// Checks that the first help text fits a screen, and that another names each policy.
pub(crate) fn show_help() -> Result<(), Fail> {
    same(HELP.lines().count() <= 28, true)?;
    for policy in Policy::ALL {
        same_at(has_line_of(POLICIES_HELP, policy.name()), true, policy)?;
    }
    Ok(())
}

/// Returns true if a text has a line that begins with a word, after two blanks.
fn has_line_of(text: &str, word: &str) -> bool {
    for line in text.lines() {
        if begins_with(line, word) {
            return true;
        }
    }
    false
}

/// Returns true if a line begins with a word, after two blanks.
fn begins_with(line: &str, word: &str) -> bool {
    match line.strip_prefix("  ") {
        Some(words) => two_words(words).0 == word,
        None => false,
    }
}
