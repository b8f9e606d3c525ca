//! The text of replies.
ghost use Rattle.std.specs.Prelude.{◌≡◌, ◌++◌, ◌∷◌, [], map, OnOk, IfOk, decimal};
ghost use Rattle.clock2q_text.specs.Commands.{answer_of};
ghost use Rattle.clock2q_text.specs.Text.{answer_line, output_of};

use crate::commands::Reply;
use std::alloc::{AllocError, Allocator};

/// Adds a number in decimal, and the byte that follows it.
fn push_number<A: Allocator>(text: &mut Vec<u8, A>, number: u64, end: u8) -> Result<(), AllocError>
    ensures { OnOk result (text.new.items ≡ text.old.items ++ decimal number ++ end ∷ []) }
{
    let mut bytes = [end; 21];
    let mut start = 19;
    let mut rest = number;
    while rest >= 10 {
        bytes[start] = b'0' + (rest % 10) as u8;
        rest /= 10;
        start -= 1;
    }
    bytes[start] = b'0' + rest as u8;
    text.extend_from_slice(&bytes[start..])
}

/// Adds a reply and its line end.
fn push_reply<A: Allocator>(text: &mut Vec<u8, A>, reply: Reply<u64>) -> Result<(), AllocError>
    ensures { OnOk result (text.new.items ≡ text.old.items ++ answer_line (answer_of reply)) }
{
    match reply {
        Reply::Value(None) => text.extend_from_slice(b"none\n"),
        Reply::Value(Some(value)) => {
            text.extend_from_slice(b"some ")?;
            push_number(text, value, b'\n')
        }
        Reply::Stored(value) => push_number(text, value, b'\n'),
        Reply::Tried(None) => text.extend_from_slice(b"failed\n"),
        Reply::Tried(Some(value)) => {
            text.extend_from_slice(b"ok ")?;
            push_number(text, value, b'\n')
        }
        Reply::Slot(slot, value) => {
            push_number(text, slot as u64, b' ')?;
            push_number(text, value, b'\n')
        }
        Reply::Flag(true) => text.extend_from_slice(b"true\n"),
        Reply::Flag(false) => text.extend_from_slice(b"false\n"),
        Reply::Number(number) => push_number(text, number as u64, b'\n'),
        Reply::Done => text.extend_from_slice(b"ok\n"),
    }
}

/// Returns the text of replies: `ok` for the cache that was made, and a line for each reply. It
/// takes time in proportion to the text.
pub fn reply_text<A: Allocator>(alloc: A, replies: &[Reply<u64>]) -> Result<Vec<u8, A>, AllocError>
    ensures { IfOk result (λ text. text.items ≡ output_of (map answer_of replies.now)) }
{
    let mut text = Vec::new(alloc);
    text.extend_from_slice(b"ok\n")?;
    for reply in replies {
        push_reply(&mut text, *reply)?;
    }
    Ok(text)
}
