//! The command of a line, by its name.
ghost use Rattle.std.specs.Prelude.{◌≡◌, []};
ghost use Rattle.std.specs.Option.{option_map};
ghost use Rattle.clock2q_text.specs.Commands.{call_of};
ghost use Rattle.clock2q_text.specs.Text.{words_of, numbers_call, list_call, lone_call, call_in};
ghost use Rattle.clock2q_text.specs.Parsing.{Spells};

use crate::commands::Command;
use crate::text::lists::{bits, numbers};
use crate::text::words::{cut, number_or_fail, one_number, two_numbers};
use std::alloc::{AllocError, Allocator};

/// Returns the command of a line, or an error if there is no memory for its list.
pub(super) fn command_of<A: Allocator>(
    alloc: A,
    line: &[u8],
) -> Option<Result<Command<u64, u64, A>, AllocError>>
    ensures { Spells call_of result (call_in (words_of line.now)) }
{
    let (name, arguments) = cut(line, b' ');
    let Some(words) = arguments else {
        return Some(Ok(named_alone(name)?));
    };
    match named_with_numbers(name, words) {
        Some(command) => Some(Ok(command)),
        None => named_with_list(alloc, name, words),
    }
}

/// Returns the command of a name without arguments.
fn named_alone<A: Allocator>(name: &[u8]) -> Option<Command<u64, u64, A>>
    ensures { option_map call_of result ≡ lone_call name.now [] }
{
    if name == b"len".as_slice() {
        Some(Command::Len)
    } else if name == b"is_empty".as_slice() {
        Some(Command::IsEmpty)
    } else if name == b"capacity".as_slice() {
        Some(Command::Capacity)
    } else if name == b"clear".as_slice() {
        Some(Command::Clear)
    } else {
        None
    }
}

/// Returns the command of a name with one number or two.
fn named_with_numbers<A: Allocator>(name: &[u8], words: &[u8]) -> Option<Command<u64, u64, A>>
    ensures { option_map call_of result ≡ numbers_call name.now (words_of words.now) }
{
    if name == b"put".as_slice() {
        two_numbers(words).map(|(key, value)| Command::Put(key, value))
    } else if name == b"get".as_slice() {
        one_number(words).map(|key| Command::Get(key))
    } else if name == b"peek".as_slice() {
        one_number(words).map(|key| Command::Peek(key))
    } else if name == b"contains".as_slice() {
        one_number(words).map(|key| Command::Contains(key))
    } else if name == b"get_at".as_slice() {
        two_numbers(words).map(|(slot, key)| Command::GetAt(slot as usize, key))
    } else if name == b"set".as_slice() {
        two_numbers(words).map(|(key, value)| Command::Set(key, value))
    } else if name == b"with".as_slice() {
        two_numbers(words).map(|(key, value)| Command::With(key, value))
    } else if name == b"try".as_slice() {
        number_or_fail(words).map(|(key, value)| Command::Try(key, value))
    } else if name == b"slot".as_slice() {
        two_numbers(words).map(|(key, value)| Command::Slot(key, value))
    } else if name == b"remove".as_slice() {
        one_number(words).map(|key| Command::Remove(key))
    } else {
        None
    }
}

/// Returns the command of a name with a list.
fn named_with_list<A: Allocator>(
    alloc: A,
    name: &[u8],
    words: &[u8],
) -> Option<Result<Command<u64, u64, A>, AllocError>>
    ensures { Spells call_of result (list_call name.now (words_of words.now)) }
{
    if name == b"retain".as_slice() {
        let bits = bits(alloc, words)?;
        Some(bits.map(|bits| Command::Retain(bits)))
    } else if name == b"prefill".as_slice() {
        let values = numbers(alloc, words)?;
        Some(values.map(|values| Command::Prefill(values)))
    } else {
        None
    }
}
