//! What words and arguments ask for: cases of a file, a line each.

use crate::player::words_of;
use simulator_interface::{
    Amount, ChosenShares, FORMATS_HELP, HELP, Options, POLICIES_HELP, Policy, Sample, bytes_of,
    help_for, parse_options,
};
use std::alloc::{AllocError, Global};
use std::fmt::Display;
use testing::{SpellingError, named_in};

/// What is asked of a word or of arguments.
#[derive(Clone, Copy)]
enum Question {
    OfWord(Property),
    Help,
    Phrase,
    OfArguments(Choice),
}

/// A property of a word.
#[derive(Clone, Copy)]
enum Property {
    Bytes,
    Sample,
    Part,
    Amount,
}

/// A choice that arguments make.
#[derive(Clone, Copy)]
enum Choice {
    Keys,
    Bytes,
    Traces,
    Policies,
    Form,
    Shares,
    Skipped,
    Format,
}

const QUESTIONS: &[(&str, Question)] = &[
    ("bytes", Question::OfWord(Property::Bytes)),
    ("sample", Question::OfWord(Property::Sample)),
    ("part", Question::OfWord(Property::Part)),
    ("amount", Question::OfWord(Property::Amount)),
    ("help", Question::Help),
    ("phrase", Question::Phrase),
    ("keys", Question::OfArguments(Choice::Keys)),
    ("byte_capacities", Question::OfArguments(Choice::Bytes)),
    ("traces", Question::OfArguments(Choice::Traces)),
    ("policies", Question::OfArguments(Choice::Policies)),
    ("form", Question::OfArguments(Choice::Form)),
    ("shares", Question::OfArguments(Choice::Shares)),
    ("skipped", Question::OfArguments(Choice::Skipped)),
    ("format", Question::OfArguments(Choice::Format)),
];

/// Returns what a line gives in place of the answer that it should, if it does.
pub(crate) fn other_answer(alloc: Global, line: &str) -> Result<Option<Vec<u8>>, SpellingError> {
    let (name, rest) = line.split_once('|').unwrap_or((line, ""));
    let (asked, wanted) = rest.split_once('|').unwrap_or((rest, "no bar"));
    let mut answer = String::new(alloc);
    write_answer(alloc, &mut answer, named_in(QUESTIONS, name), asked)?;
    Ok(other_text(answer, wanted))
}

/// Returns a text but for the blank that it may begin with, unless it is this one.
pub(crate) fn other_text(text: String, wanted: &str) -> Option<Vec<u8>> {
    if text.trim_start() == wanted {
        None
    } else {
        Some(text.into_bytes())
    }
}

/// Writes the answer to a question about a word or arguments.
fn write_answer(
    alloc: Global,
    text: &mut String,
    question: Option<Question>,
    asked: &str,
) -> Result<(), SpellingError> {
    match question {
        Some(Question::OfWord(property)) => Ok(write_property(text, property, asked)?),
        Some(Question::Help) => Ok(text.push_str(help_on(alloc, asked)?)?),
        Some(Question::Phrase) => Ok(text.push_str(help_with(asked))?),
        Some(Question::OfArguments(choice)) => write_choice_of(alloc, text, choice, asked),
        None => Ok(text.push_str("no question")?),
    }
}

/// Writes a property of a word.
fn write_property(text: &mut String, property: Property, word: &str) -> Result<(), AllocError> {
    match property {
        Property::Bytes => write_if_any(text, bytes_of(word)),
        Property::Sample => write_if_any(text, millionths_of(word)),
        Property::Part => write_if_any(text, part_of(word)),
        Property::Amount => write_if_any(text, Amount::written(word)),
    }
}

/// Writes a value, if there is one.
fn write_if_any<T: Display + Drop>(text: &mut String, value: Option<T>) -> Result<(), AllocError> {
    match value {
        Some(value) => write!(text, "{value}"),
        None => text.push_str("none"),
    }
}

/// Returns the millionths of the keys that a sample has.
fn millionths_of(word: &str) -> Option<usize> {
    Some(Sample::written(word)?.millionths)
}

/// Returns the number of keys in an amount of some number of keys.
fn part_of(words: &str) -> Option<usize> {
    let (amount, keys) = words.split_once(" of ")?;
    let keys: u32 = keys.parse().ok()?;
    Some(Amount::written(amount)?.of(keys as usize))
}

/// Returns the name of the help text that arguments ask for.
fn help_on(alloc: Global, line: &str) -> Result<&'static str, SpellingError> {
    let words = words_of(alloc, line)?;
    match help_for(&words) {
        Some(text) => Ok(name_of_help(text)),
        None => Ok("none"),
    }
}

/// The help texts and their names.
const HELPS: [(&str, &str); 3] = [
    ("help", HELP),
    ("formats", FORMATS_HELP),
    ("policies", POLICIES_HELP),
];

/// Returns the name of the first help text with a phrase.
fn help_with(phrase: &str) -> &'static str {
    for (name, help) in HELPS {
        if help.contains(phrase) {
            return name;
        }
    }
    "none"
}

/// Returns the name of a help text.
fn name_of_help(text: &str) -> &'static str {
    for (name, help) in HELPS {
        if help == text {
            return name;
        }
    }
    "another text"
}

/// Writes a choice that arguments make.
fn write_choice_of(
    alloc: Global,
    text: &mut String,
    choice: Choice,
    line: &str,
) -> Result<(), SpellingError> {
    let words = words_of(alloc, line)?;
    Ok(write_choice_by(alloc, text, choice, &words)?)
}

/// Writes a choice that arguments make, or the refusal.
fn write_choice_by(
    alloc: Global,
    text: &mut String,
    choice: Choice,
    words: &[String],
) -> Result<(), AllocError> {
    match parse_options(alloc, words) {
        Ok(options) => write_choice(text, choice, &options),
        Err(refusal) => write!(text, "{refusal}"),
    }
}

/// Writes a choice in options.
fn write_choice(
    text: &mut String,
    choice: Choice,
    options: &Options<Global>,
) -> Result<(), AllocError> {
    match choice {
        Choice::Keys => list(text, &options.capacities),
        Choice::Bytes => list(text, &options.byte_capacities),
        Choice::Traces => list(text, &options.traces),
        Choice::Policies => list_policies(text, &options.policies),
        Choice::Form => write!(text, "{:?}", options.format),
        Choice::Shares => write_shares(text, options.shares),
        Choice::Skipped => list(text, &[options.skipped]),
        Choice::Format => write!(text, "{:?}", options.trace_format),
    }
}

/// Writes items with a blank before each.
pub(crate) fn list<T: Display>(text: &mut String, items: &[T]) -> Result<(), AllocError> {
    for item in items {
        write!(text, " {item}")?;
    }
    Ok(())
}

/// Writes the names of policies.
fn list_policies(text: &mut String, policies: &[Policy]) -> Result<(), AllocError> {
    for policy in policies {
        list(text, &[policy.name()])?;
    }
    Ok(())
}

/// Writes the shares of Small, of the window and of the history in a cache for 400 keys.
fn write_shares(text: &mut String, shares: Option<ChosenShares>) -> Result<(), AllocError> {
    match shares {
        Some(shares) => {
            let (small, window) = (shares.small(400), shares.window(400));
            list(text, &[small, window, shares.history(400)])
        }
        None => text.push_str("none"),
    }
}
