//! What a chart's horizontal axis counts.

use crate::page::Page;
use crate::percentage::Percentage;
use std::alloc::Allocator;

/// What the numbers of a chart's horizontal axis count.
///
/// # Example
///
/// ```
/// let scale = Scale::Millionths(trace.key_count());
/// ```
#[derive(Clone, Copy)]
pub enum Scale {
    /// The keys of a capacity.
    Keys,
    /// The millionths of this number of keys.
    Millionths(usize),
    /// Accesses.
    Accesses,
}

impl Scale {
    /// Writes what the axis counts.
    pub(crate) fn write<A: Allocator>(self, page: &mut Page<A>) {
        match self {
            Scale::Keys => page.add("capacity"),
            Scale::Millionths(keys) => {
                page.add_number("capacity in percent of ", keys);
                page.add(" keys");
            }
            Scale::Accesses => page.add("accesses"),
        }
    }

    /// Writes a number on the axis, as a percentage if it is one of millionths.
    pub(crate) fn write_place<A: Allocator>(self, page: &mut Page<A>, number: usize) {
        match self {
            Scale::Millionths(_) => page.add_shown(&Percentage { millionths: number }),
            Scale::Keys | Scale::Accesses => write_short(page, number),
        }
    }
}

/// Writes a number, in thousands or millions if it is a multiple of them.
fn write_short<A: Allocator>(page: &mut Page<A>, number: usize) {
    let (count, thousands) = short(number);
    page.add_number("", count);
    page.add(thousands);
}

/// Returns a number in thousands or millions, if it is a multiple of them, and their letter.
fn short(number: usize) -> (usize, &'static str) {
    if number >= 1_000_000 && number % 1_000_000 == 0 {
        (number / 1_000_000, "M")
    } else if number >= 1_000 && number % 1_000 == 0 {
        (number / 1_000, "k")
    } else {
        (number, "")
    }
}
