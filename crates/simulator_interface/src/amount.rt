//! A number of keys, or a part of a number of keys.
ghost use Rattle.std.specs.Prelude.{◌≡◌, ◌≤◌, ◌^◌};
ghost use Rattle.std.specs.NonZero.{non_zero_usize_get};
ghost use Rattle.std.specs.Option.{option_map};
ghost use Rattle.simulator_interface.specs.AskedOptions as asked;
ghost use Rattle.simulator_interface.specs.Amounts.{amount_in, count_in, decimals_in, keys_of, millionths_in, number_in};

use simulator_charts::Percentage;
use std::fmt;
use std::num::NonZeroUsize;

/// What the number of an [`Amount`] counts.
///
/// # Example
///
/// ```
/// let tenth = Amount { number: 100_000, unit: Unit::Millionths };
/// assert_eq!(rt; Amount::written("10%"), Some(tenth));
/// ```
#[derive(Clone, Copy, Debug, PartialEq, Eq)]
pub enum Unit {
    /// Keys.
    Keys,
    /// Millionths of some number of keys: 10,000 of them are a percent.
    Millionths,
}

/// A number of keys, or a part of a number of keys that is known later.
///
/// # Example
///
/// ```
/// let tenth = Amount { number: 100_000, unit: Unit::Millionths };
/// assert_eq!(rt; tenth.of(250), 25);
/// ```
#[derive(Clone, Copy, Debug, PartialEq, Eq)]
pub struct Amount {
    /// The number.
    pub number: usize,
    /// What it counts.
    pub unit: Unit,
}

impl Amount {
    /// Returns the amount that a word spells: a number of keys, as `250`, `1k` or `1M`, or a
    /// percentage with at most four decimals, as `10%` or `0.25%`. A number of more than 64 bits is
    /// taken as the largest of 64 bits.
    pub fn written(word: &str) -> Option<Amount>
        ensures amount { result ≡ amount_in word.now }
    {
        match word.strip_suffix('%') {
            Some(percentage) => Some(Amount {
                number: millionths_of(percentage)?,
                unit: Unit::Millionths,
            }),
            None => Some(Amount {
                number: count_of(word)?,
                unit: Unit::Keys,
            }),
        }
    }

    /// Returns the number, unless it is a percentage.
    pub(crate) fn count(self) -> Option<usize>
        ensures count { result ≡ asked.count_of self }
    {
        match self.unit {
            Unit::Keys => Some(self.number),
            Unit::Millionths => None,
        }
    }

    /// Returns the number of keys in the amount, out of `keys`. A percentage is rounded down, but
    /// is at least one key; one above a hundred counts as a hundred.
    pub fn of(self, keys: usize) -> usize
        requires few { keys ≤ 2 ^ 32 }
        ensures keys { result ≡ keys_of self keys }
    {
        match self.unit {
            Unit::Keys => self.number,
            Unit::Millionths => (keys * self.number.min(1_000_000) / 1_000_000).max(1),
        }
    }
}

impl fmt::Display for Amount {
    fn fmt<W: fmt::Write>(&self, f: &mut fmt::Formatter<W>) -> fmt::Result {
        match self.unit {
            Unit::Keys => write!(f, "{}", self.number),
            Unit::Millionths => {
                let millionths = self.number;
                write!(f, "{}", Percentage { millionths })
            }
        }
    }
}

/// Returns the number that a word spells, unless it is a percentage.
pub(crate) fn plain_of(word: &str) -> Option<usize>
    ensures plain { result ≡ asked.plain_in word.now }
{
    Amount::written(word)?.count()
}

/// Returns the number that a word spells, unless it is 0 or a percentage.
pub(crate) fn positive_of(word: &str) -> Option<NonZeroUsize>
    ensures positive { option_map non_zero_usize_get result ≡ asked.positive_in word.now }
{
    NonZeroUsize::new(plain_of(word)?)
}

/// Returns the number that a word spells: digits, then perhaps a `k` for thousands or an `M` for
/// millions.
fn count_of(word: &str) -> Option<usize>
    ensures count { result ≡ count_in word.now }
{
    if let Some(thousands) = word.strip_suffix('k') {
        return Some(number_of(thousands.as_bytes())?.saturating_mul(1_000));
    }
    if let Some(millions) = word.strip_suffix('M') {
        return Some(number_of(millions.as_bytes())?.saturating_mul(1_000_000));
    }
    number_of(word.as_bytes())
}

/// Returns the percentage that a word spells without its percent sign, in millionths.
pub(crate) fn millionths_of(word: &str) -> Option<usize>
    ensures millionths { result ≡ millionths_in word.now }
{
    let Some((whole, decimals)) = word.split_once('.') else {
        return Some(number_of(word.as_bytes())?.saturating_mul(10_000));
    };
    let whole = number_of(whole.as_bytes())?.saturating_mul(10_000);
    Some(whole.saturating_add(decimals_of(decimals.as_bytes())?))
}

/// Returns the decimals of a percentage in millionths, if there are one to four.
fn decimals_of(digits: &[u8]) -> Option<usize>
    ensures decimals { result ≡ decimals_in digits.now }
{
    let worth = match digits.len() {
        1 => 1_000,
        2 => 100,
        3 => 10,
        4 => 1,
        _ => return None,
    };
    Some(number_of(digits)?.saturating_mul(worth))
}

/// Returns the number that digits spell, or the largest of 64 bits if it has more.
pub fn number_of(digits: &[u8]) -> Option<usize>
    ensures number { result ≡ number_in digits.now }
{
    let mut number = 0usize;
    for byte in digits {
        if !byte.is_ascii_digit() {
            return None;
        }
        number = number
            .saturating_mul(10)
            .saturating_add(usize::from(*byte - b'0'));
    }
    (!digits.is_empty()).then_some(number)
}
