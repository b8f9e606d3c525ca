//! What is above a chart.

use crate::page::Page;
use std::alloc::Allocator;

/// What is above a chart.
///
/// # Example
///
/// ```
/// let title = Title::OfWindows(1_000, 200);
/// ```
#[derive(Clone, Copy)]
pub enum Title {
    /// The number of accesses whose hits it shows over capacities, and whether they are a sample.
    OfCapacities(usize, bool),
    /// The number of accesses of each window, and the capacity.
    OfWindows(usize, usize),
}

impl Title {
    /// Writes it.
    pub(crate) fn write<A: Allocator>(self, page: &mut Page<A>) {
        match self {
            Title::OfCapacities(accesses, is_sample) => {
                page.add_number("Hit ratio by capacity (", accesses);
                page.add(" access");
                page.add(plural_of(accesses));
                page.add(if is_sample { " of a sample)" } else { ")" });
            }
            Title::OfWindows(size, capacity) => {
                page.add_number("Hit ratio of each ", size);
                page.add(" access");
                page.add(plural_of(size));
                page.add_number(" at capacity ", capacity);
            }
        }
    }
}

/// Returns the letters that make more than one of a number of accesses.
///
/// # Example
///
/// ```
/// page.add_number("", accesses);
/// page.add(" access");
/// page.add(plural_of(accesses));
/// ```
pub fn plural_of(accesses: usize) -> &'static str {
    if accesses == 1 { "" } else { "es" }
}
