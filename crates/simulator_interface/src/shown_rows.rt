//! The rows of a long trace, shown to a person as they come.

use crate::progress::Progress;
use crate::row::Row;
use crate::table_text::{headings_text, row_text};
use std::alloc::Allocator;
use std::io::Write;
use std::time::Clock;

/// Shows the name of a long trace, above its rows.
pub fn show_name<P: Write, C: Clock>(name: &str, accesses: usize, progress: &mut Progress<P, C>) {
    if progress.shows(accesses) {
        progress.add_line(name);
    }
}

/// Shows a row of a trace with this many accesses as it comes, if the trace is long, the first below
/// the headings, with the capacity for all keys. Without memory for its text it isn't shown.
pub fn show_row<P: Write, C: Clock, A: Allocator + Copy>(
    alloc: A,
    accesses: usize,
    is_sized: bool,
    capacity: usize,
    row: &Row<A>,
    index: usize,
    progress: &mut Progress<P, C>,
) {
    if !progress.shows(accesses) {
        return;
    }
    if index == 0 {
        if let Ok(headings) = headings_text(alloc, row, is_sized) {
            progress.add_line(&headings);
        }
    }
    if let Ok(text) = row_text(alloc, capacity, row, is_sized) {
        progress.add_line(text.trim_end());
    }
}
