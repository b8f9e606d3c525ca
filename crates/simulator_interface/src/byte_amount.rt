//! Numbers of bytes.
ghost use Rattle.std.specs.Prelude.{◌≡◌, IfSome, Some};
ghost use Rattle.std.specs.NonZero.{non_zero_usize_get};
ghost use Rattle.simulator_interface.specs.Amounts.{ends_in, front};
ghost use Rattle.simulator_interface.specs.ByteAmounts.{binary_in, bytes_in, decimal_in, unit_in};

use crate::amount::number_of;
use simulator_charts::Page;
use std::alloc::Allocator;
use std::num::NonZeroUsize;

/// Returns the number of bytes that a word spells, as `512B`, `64kB` or `1GiB`: kB, MB, GB and TB
/// are powers of 1,000, KiB, MiB, GiB and TiB of 1,024. A number of more than 64 bits is taken as
/// the largest of 64 bits.
///
/// # Example
///
/// ```
/// assert_eq!(rt; bytes_of("64KiB"), Some(65_536));
/// ```
pub fn bytes_of(word: &str) -> Option<usize>
    ensures bytes { result ≡ bytes_in word.now }
{
    let word = word.as_bytes();
    if ends_in(word, b'B') {
        return unit_of(front(word));
    }
    None
}

/// Returns the number of bytes that a word spells, if it is at least 1.
pub(crate) fn capacity_in_bytes(word: &str) -> Option<NonZeroUsize>
    ensures capacity { IfSome result (λ capacity. bytes_in word.now ≡ Some (non_zero_usize_get capacity)) }
{
    NonZeroUsize::new(bytes_of(word)?)
}

/// Returns the number of bytes that a word spells without its `B`.
fn unit_of(word: &[u8]) -> Option<usize>
    ensures bytes { result ≡ unit_in word.now }
{
    if ends_in(word, b'i') {
        return binary_of(front(word));
    }
    decimal_of(word)
}

/// Returns the number that a word spells with the letter of a power of 1,000, or without one.
fn decimal_of(word: &[u8]) -> Option<usize>
    ensures bytes { result ≡ decimal_in word.now }
{
    if ends_in(word, b'k') || ends_in(word, b'K') {
        return Some(number_of(front(word))?.saturating_mul(1_000));
    }
    if ends_in(word, b'M') {
        return Some(number_of(front(word))?.saturating_mul(1_000_000));
    }
    if ends_in(word, b'G') {
        return Some(number_of(front(word))?.saturating_mul(1_000_000_000));
    }
    if ends_in(word, b'T') {
        return Some(number_of(front(word))?.saturating_mul(1_000_000_000_000));
    }
    number_of(word)
}

/// Returns the number that a word spells with the letter of a power of 1,024.
fn binary_of(word: &[u8]) -> Option<usize>
    ensures bytes { result ≡ binary_in word.now }
{
    if ends_in(word, b'K') || ends_in(word, b'k') {
        return Some(number_of(front(word))?.saturating_mul(1_024));
    }
    if ends_in(word, b'M') {
        return Some(number_of(front(word))?.saturating_mul(1_048_576));
    }
    if ends_in(word, b'G') {
        return Some(number_of(front(word))?.saturating_mul(1_073_741_824));
    }
    if ends_in(word, b'T') {
        return Some(number_of(front(word))?.saturating_mul(1_099_511_627_776));
    }
    None
}

/// Returns true if a word ends with a byte.
pub(crate) fn ends_in(word: &[u8], byte: u8) -> bool
    ensures ends { result ≡ ends_in byte word.now }
{
    let end = word.len();
    0 < end && word[end - 1] == byte
}

/// Returns a word without its last byte.
fn front(word: &[u8]) -> &[u8]
    ensures front { result.now ≡ front word.now }
{
    &word[..word.len().saturating_sub(1)]
}

/// The units of bytes, the larger ones first.
const UNITS: [(&str, usize); 8] = [
    ("TiB", 1_099_511_627_776),
    ("TB", 1_000_000_000_000),
    ("GiB", 1_073_741_824),
    ("GB", 1_000_000_000),
    ("MiB", 1_048_576),
    ("MB", 1_000_000),
    ("KiB", 1_024),
    ("kB", 1_000),
];

/// Writes a number of bytes in a column of eight, in the largest unit of which it is a multiple.
pub(crate) fn write_bytes<A: Allocator>(page: &mut Page<A>, bytes: usize) {
    let (number, unit) = in_largest_unit(bytes);
    page.add_right(number, 8usize.saturating_sub(unit.len()));
    page.add(unit);
}

/// Returns a number of bytes in the largest unit of which it is a multiple, and the unit.
fn in_largest_unit(bytes: usize) -> (usize, &'static str) {
    for (unit, worth) in UNITS {
        if bytes >= worth && bytes % worth == 0 {
            return (bytes / worth, unit);
        }
    }
    (bytes, "B")
}
