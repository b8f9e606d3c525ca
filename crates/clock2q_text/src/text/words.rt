//! The words of a line, and the numbers that they spell.
ghost use Rattle.std.specs.Prelude.{◌≡◌, ◌∷◌, ◌==◌, ◌<◌, length, IfSome};
ghost use Rattle.std.specs.List.{position, slice_split};
ghost use Rattle.std.specs.Option.{option_map};
ghost use Rattle.clock2q_text.specs.Text.{words_of, number_of, tried_of, with_one, with_two};
ghost use Rattle.clock2q_text.specs.Cut.{parts_after, words_after, number_first};

/// Returns the index of the first separator.
fn index_of(bytes: &[u8], separator: u8) -> Option<usize>
    ensures { result ≡ position (λ b. b == separator) bytes.now }
{
    bytes.iter().position(|byte| *byte == separator)
}

/// Returns the bytes before the first separator, and those after it if there is one.
pub(super) fn cut(bytes: &[u8], separator: u8) -> (&[u8], Option<&[u8]>)
    ensures parts { slice_split (λ b. b == separator) bytes.now
        ≡ result.0.now ∷ parts_after separator result.1 }
    ensures shorter { IfSome result.1 (λ rest. length rest.now < length bytes.now) }
{
    match index_of(bytes, separator) {
        Some(at) => {
            let (front, back) = bytes.split_at(at);
            (front, Some(&back[1..]))
        }
        None => (bytes, None),
    }
}

/// Returns the number that the first word spells, and the text after the space that ends it, if
/// there is one. A number has no sign.
pub(super) fn number(words: &[u8]) -> Option<(u64, Option<&[u8]>)>
    ensures first { option_map (λ read. (read.0, words_after read.1)) result ≡
        number_first (words_of words.now) }
    ensures shorter { IfSome result
        (λ read. IfSome read.1 (λ rest. length rest.now < length words.now)) }
{
    let mut value = 0u64;
    for (at, byte) in words.iter().enumerate() {
        if *byte == b' ' {
            return (at > 0).then_some((value, Some(&words[at + 1..])));
        }
        if !byte.is_ascii_digit() {
            return None;
        }
        value = value.checked_mul(10)?.checked_add(u64::from(*byte - b'0'))?;
    }
    (!words.is_empty()).then_some((value, None))
}

/// Returns the number that the only word spells.
pub(super) fn one_number(words: &[u8]) -> Option<u64>
    ensures { result ≡ with_one number_of (λ n. n) (words_of words.now) }
{
    match number(words)? {
        (value, None) => Some(value),
        (_, Some(_)) => None,
    }
}

/// Returns the numbers that the two words spell.
pub(super) fn two_numbers(words: &[u8]) -> Option<(u64, u64)>
    ensures { result ≡ with_two number_of (λ n m. (n, m)) (words_of words.now) }
{
    let (first, others) = number(words)?;
    let second = one_number(others?)?;
    Some((first, second))
}

/// Returns the number that the first of two words spells, and that of the second, or `None` in its
/// place if the second word is `fail`.
pub(super) fn number_or_fail(words: &[u8]) -> Option<(u64, Option<u64>)>
    ensures { result ≡ with_two tried_of (λ n v. (n, v)) (words_of words.now) }
{
    let (first, others) = number(words)?;
    let word = others?;
    if word == b"fail".as_slice() {
        return Some((first, None));
    }
    let second = one_number(word)?;
    Some((first, Some(second)))
}
