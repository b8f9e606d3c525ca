//! The parser of the command text: from bytes to commands.
ghost use Rattle.std.specs.Prelude.{◌≡◌, ◌+◌, ◌^◌, ◌<◌, length, map, IfSome};
ghost use Rattle.std.specs.Option.{option_map};
ghost use Rattle.clock2q_text.specs.Commands.{call_of};
ghost use Rattle.clock2q_ports.specs.Lines.{lines_of};
ghost use Rattle.clock2q_text.specs.Text.{words_of, shares_in, calls_from, script_of};
ghost use Rattle.clock2q_text.specs.Parsing.{Parses, Chooses, shares_value, script_value};
ghost use Rattle.clock2q_text.specs.Cut.{first_and_others};

mod lists;
mod names;
mod words;

use crate::commands::Command;
use crate::serve_error::ServeError;
use names::command_of;
use std::alloc::Allocator;
use std::num::NonZeroUsize;
use words::{cut, number, one_number};

/// The shares that a first line chooses, if it has more than the capacity: Small's, the window, and
/// the history's if the line has that too.
#[derive(Clone, Copy)]
pub struct ChosenShares {
    pub small: usize,
    pub window: usize,
    pub history: Option<usize>,
}

/// A parsed text: the capacity of a cache, its shares, and its commands.
#[derive(Drop)]
pub struct Script<A: Allocator> {
    pub capacity: NonZeroUsize,
    pub chosen: Option<ChosenShares>,
    pub commands: Vec<Command<u64, u64, A>, A>,
}

/// Returns the script that a text spells, or its first bad line. It takes time in proportion to the
/// text.
pub fn parse<A: Allocator + Copy>(alloc: A, text: &[u8]) -> Result<Script<A>, ServeError>
    ensures { Parses (λ s. script_value (shares_value s.capacity s.chosen) s.commands.items) result
        (script_of text.now) }
{
    let (first, others) = cut_line(text).ok_or(ServeError::BadLine(1))?;
    let (capacity, chosen) = shares_of(first).ok_or(ServeError::BadLine(1))?;
    let commands = commands_of(alloc, others)?;
    Ok(Script {
        capacity,
        chosen,
        commands,
    })
}

/// Returns the first line, and the text after its end.
fn cut_line(text: &[u8]) -> Option<(&[u8], &[u8])>
    ensures lines { lines_of text.now ≡ first_and_others result }
    ensures shorter { IfSome result (λ found. length found.1.now < length text.now) }
{
    if text.is_empty() {
        return None;
    }
    let (line, rest) = cut(text, b'\n');
    Some((line, rest.unwrap_or(&[])))
}

/// Returns the capacity in the first line, and the shares if the line has them.
fn shares_of(line: &[u8]) -> Option<(NonZeroUsize, Option<ChosenShares>)>
    ensures { option_map (λ shares. shares_value shares.0 shares.1) result ≡
        shares_in (words_of line.now) }
{
    let (name, arguments) = cut(line, b' ');
    if name != b"new".as_slice() {
        return None;
    }
    let (capacity, others) = number(arguments?)?;
    let capacity = NonZeroUsize::new(capacity as usize)?;
    let Some(words) = others else {
        return Some((capacity, None));
    };
    let chosen = chosen_in(words)?;
    Some((capacity, Some(chosen)))
}

/// Returns the shares that the words after a capacity choose.
fn chosen_in(words: &[u8]) -> Option<ChosenShares>
    ensures { Chooses result (words_of words.now) }
{
    let (small, others) = number(words)?;
    let (window, others) = number(others?)?;
    let history = match others {
        None => None,
        Some(word) => Some(one_number(word)? as usize),
    };
    Some(ChosenShares {
        small: small as usize,
        window: window as usize,
        history,
    })
}

/// Returns the commands of the lines from line 2 on.
fn commands_of<A: Allocator + Copy>(
    alloc: A,
    text: &[u8],
) -> Result<Vec<Command<u64, u64, A>, A>, ServeError>
    requires { length text.now + 1 < 2 ^ 64 }
    ensures { Parses (λ v. map call_of v.items) result (calls_from 2 (lines_of text.now)) }
{
    let mut commands = Vec::new(alloc);
    let mut rest = text;
    let mut number = 1;
    while let Some((line, others)) = cut_line(rest) {
        number += 1;
        let command = command_of(alloc, line).ok_or(ServeError::BadLine(number))??;
        commands.push(command).map_err(|_| ServeError::Memory)?;
        rest = others;
    }
    Ok(commands)
}
