//! The results of traces as JSON.
ghost use Rattle.std.specs.Prelude.{◌≡◌, ◌==◌, ◌||◌};

use crate::best_shares::BestShares;
use crate::options::Options;
use crate::outcome::Outcome;
use crate::row::{Counted, Figure, Hits, Row};
use crate::window::{Window, Windows};
use simulator_charts::Page;
use std::alloc::{AllocError, Allocator};

/// Returns an object with the traces in order, each with its name, its figures and its rows. A row
/// has the hits and the hit ratio of each policy, and the windows if they are asked for.
pub(crate) fn json_text<A: Allocator + Copy>(
    alloc: A,
    options: &Options<A>,
    outcomes: &[Outcome<'_, A>],
) -> Result<String<A>, AllocError> {
    let mut page = Page::new(alloc);
    page.add("{\"traces\": [");
    for (index, outcome) in outcomes.iter().enumerate() {
        page.add(if index > 0 { ",\n" } else { "\n" });
        write_outcome(&mut page, outcome, options.skipped);
    }
    page.add("\n]}\n");
    page.finish()
}

fn write_outcome<A: Allocator>(page: &mut Page<A>, outcome: &Outcome<'_, A>, skipped: usize) {
    page.add("  {\"trace\": ");
    write_string(page, outcome.name);
    write_figures(page, outcome, skipped);
    page.add(", \"rows\": [");
    write_rows(page, outcome);
    write_byte_rows(page, outcome);
    page.add("\n  ]}");
}

fn write_rows<A: Allocator>(page: &mut Page<A>, outcome: &Outcome<'_, A>) {
    for (index, row) in outcome.rows.iter().enumerate() {
        page.add(if index > 0 { ",\n" } else { "\n" });
        page.add_number("    {\"capacity\": ", outcome.capacity_at(index));
        page.add(", ");
        write_policies(page, row, outcome.is_sized);
        if let Some(best) = outcome.best_shares.get(index) {
            write_best_shares(page, row, best);
        }
        if let Some(windows) = outcome.windows.get(index) {
            write_windows(page, windows, outcome.is_sized);
        }
        page.add("}");
    }
}

/// Writes the rows of capacities in bytes, after the others.
fn write_byte_rows<A: Allocator>(page: &mut Page<A>, outcome: &Outcome<'_, A>) {
    let mut is_first = outcome.rows.is_empty();
    for row in outcome.byte_rows.iter() {
        page.add(if is_first { "\n" } else { ",\n" });
        is_first = false;
        page.add_number("    {\"capacity_bytes\": ", row.capacity.get());
        page.add(", ");
        write_policies(page, row, true);
        page.add("}");
    }
}

/// Writes the figures of a trace, or of the sample that was replayed.
fn write_figures<A: Allocator>(page: &mut Page<A>, outcome: &Outcome<'_, A>, skipped: usize) {
    let summary = outcome.summary;
    if let Some(sample) = outcome.sample {
        page.add(", \"sample\": \"");
        page.add_shown(&sample.part());
        page.add_number("\", \"all_accesses\": ", summary.all_accesses);
    }
    page.add_number(", \"accesses\": ", summary.accesses);
    if outcome.is_sized {
        page.add_number(", \"bytes\": ", summary.bytes);
    }
    page.add_number(", \"keys\": ", summary.keys);
    page.add_number(", \"keys_once\": ", summary.keys_once);
    page.add_number(", \"skipped\": ", skipped.min(summary.accesses));
}

/// Writes the hits and the hit ratio of each policy, and those of bytes if there are sizes.
fn write_policies<A: Allocator>(page: &mut Page<A>, row: &Row<A>, is_sized: bool) {
    if is_sized {
        page.add_number("\"bytes\": ", row.bytes);
        page.add(", ");
    }
    page.add("\"policies\": {");
    for (index, hits) in row.hits.iter().enumerate() {
        page.add(if index > 0 { ", " } else { "" });
        write_hits(page, row, hits, is_sized);
    }
    page.add("}");
}

/// Writes the best shares of a row, with their hits and hit ratio.
fn write_best_shares<A: Allocator>(page: &mut Page<A>, row: &Row<A>, best: &BestShares) {
    page.add(", \"best_shares\": {\"shares\": \"");
    best.write(page);
    page.add_number("\", \"hits\": ", best.hits);
    page.add_decimals(", \"ratio\": ", row.ratio(best.hits), 4);
    page.add("}");
}

/// Writes the windows of a row.
fn write_windows<A: Allocator>(page: &mut Page<A>, windows: &Windows<A>, is_sized: bool) {
    page.add(", \"windows\": [");
    for (index, window) in windows.windows.iter().enumerate() {
        page.add(if index > 0 { ",\n" } else { "\n" });
        write_window(page, window, is_sized);
    }
    page.add("\n    ]");
}

fn write_window<A: Allocator>(page: &mut Page<A>, window: &Window<A>, is_sized: bool) {
    page.add_number("      {\"first\": ", window.first);
    page.add_number(", \"accesses\": ", window.row.accesses);
    page.add(", ");
    write_policies(page, &window.row, is_sized);
    page.add("}");
}

fn write_hits<A: Allocator>(page: &mut Page<A>, row: &Row<A>, hits: &Hits, is_sized: bool) {
    page.add("\"");
    page.add(hits.policy.name());
    page.add("\": {\"");
    write_figure(page, "hits", "ratio", row.figure(hits, Counted::Hits));
    if is_sized {
        page.add(", \"");
        write_figure(
            page,
            "hit_bytes",
            "byte_ratio",
            row.figure(hits, Counted::Bytes),
        );
    }
    page.add("}");
}

/// Writes a number and its part of all, each after its name, of which the first has its quote already.
fn write_figure<A: Allocator>(page: &mut Page<A>, number: &str, ratio: &str, figure: Figure) {
    page.add(number);
    page.add_number("\": ", figure.number);
    page.add(", \"");
    page.add(ratio);
    page.add_decimals("\": ", figure.ratio, 4);
}

/// Writes a string between quotes.
fn write_string<A: Allocator>(page: &mut Page<A>, string: &str) {
    page.add("\"");
    for letter in string.chars() {
        write_letter(page, letter);
    }
    page.add("\"");
}

/// Returns true if a character of a string has a backslash before it: a quote, or a backslash.
fn has_backslash(letter: char) -> bool
    ensures backslash { result ≡ (letter == 34 || letter == 92) }
{
    letter == '"' || letter == '\\'
}

/// Writes a character of a string, as an escape if it needs one.
fn write_letter<A: Allocator>(page: &mut Page<A>, letter: char) {
    if has_backslash(letter) {
        page.add("\\");
    }
    if letter < ' ' {
        page.add_escape(u32::from(letter));
    } else {
        page.add_char(letter);
    }
}
