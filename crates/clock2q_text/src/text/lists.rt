//! The lists in a line. If there is no memory for a list, the line is still read to its end, so
//! that a bad word in it is found.
ghost use Rattle.std.specs.Prelude.{◌≡◌};
ghost use Rattle.clock2q_text.specs.Text.{words_of, number_of, bit_of, some_read, with_one};
ghost use Rattle.clock2q_text.specs.Parsing.{Spells};

use crate::text::words::number;
use std::alloc::{AllocError, Allocator};

/// Returns the bit that a byte spells.
fn bit_of(byte: u8) -> Option<bool>
    ensures { result ≡ bit_of byte }
{
    match byte {
        b'0' => Some(false),
        b'1' => Some(true),
        _ => None,
    }
}

/// Returns the bits of the only word.
pub(super) fn bits<A: Allocator>(alloc: A, words: &[u8]) -> Option<Result<Vec<bool, A>, AllocError>>
    ensures { Spells (λ v. v.items) result
        (with_one (some_read bit_of) (λ bits. bits) (words_of words.now)) }
{
    let mut bits = Vec::new(alloc);
    let mut refused = false;
    for byte in words {
        let bit = bit_of(*byte)?;
        refused = refused || bits.push(bit).is_err();
    }
    if words.is_empty() {
        return None;
    }
    if refused {
        return Some(Err(AllocError));
    }
    Some(Ok(bits))
}

/// Returns the numbers that the words spell.
pub(super) fn numbers<A: Allocator>(
    alloc: A,
    words: &[u8],
) -> Option<Result<Vec<u64, A>, AllocError>>
    ensures { Spells (λ v. v.items) result (some_read number_of (words_of words.now)) }
{
    let mut values = Vec::new(alloc);
    let mut refused = false;
    let mut rest = Some(words);
    while let Some(others) = rest {
        let (value, after) = number(others)?;
        refused = refused || values.push(value).is_err();
        rest = after;
    }
    if refused {
        return Some(Err(AllocError));
    }
    Some(Ok(values))
}
