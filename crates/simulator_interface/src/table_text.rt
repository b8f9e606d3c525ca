//! The results of traces as a table.

use crate::best_shares::BestShares;
use crate::byte_amount::write_bytes;
use crate::options::Options;
use crate::outcome::Outcome;
use crate::policy::Policy;
use crate::row::{Counted, Hits, Row};
use crate::summary::Summary;
use crate::window::Windows;
use simulator_charts::{Page, plural_of};
use std::alloc::{AllocError, Allocator};

/// Returns the hit ratios in columns, in percent, below a line of headings and the figures of each
/// trace: a row for each capacity, or for each window. If there are several traces, each row ends
/// with the name of its trace.
pub(crate) fn table_text<A: Allocator + Copy>(
    alloc: A,
    options: &Options<A>,
    outcomes: &[Outcome<'_, A>],
) -> Result<String<A>, AllocError> {
    let mut page = Page::new(alloc);
    write_title(&mut page, outcomes);
    write_headings(&mut page, options, outcomes.len() > 1);
    for outcome in outcomes {
        write_rows(&mut page, &options.policies, outcome, outcomes.len() > 1);
    }
    write_undefined(&mut page, options);
    page.finish()
}

/// Writes the figures of the traces, and what the rows show.
fn write_title<A: Allocator>(page: &mut Page<A>, outcomes: &[Outcome<'_, A>]) {
    match outcomes {
        [outcome] => {
            write_figures(page, outcome);
            page.add(", ");
        }
        _ => write_all_figures(page, outcomes),
    }
    let is_sized = outcomes.iter().any(|outcome| outcome.is_sized);
    page.add(if is_sized {
        "hits and their bytes"
    } else {
        "hits"
    });
    page.add(" in percent, the best of a row with *\n");
}

/// Returns the headings of a row.
pub(crate) fn headings_text<A: Allocator + Copy>(
    alloc: A,
    row: &Row<A>,
    is_sized: bool,
) -> Result<String<A>, AllocError> {
    let mut page = Page::new(alloc);
    page.add("capacity");
    for hits in row.hits.iter() {
        write_heading(&mut page, hits.policy, is_sized);
    }
    page.finish()
}

/// Returns a row as it is in the table.
pub(crate) fn row_text<A: Allocator + Copy>(
    alloc: A,
    capacity: usize,
    row: &Row<A>,
    is_sized: bool,
) -> Result<String<A>, AllocError> {
    let mut page = Page::new(alloc);
    page.add_right(capacity, 8);
    write_all_percents(&mut page, row, is_sized);
    page.add("\n");
    page.finish()
}

/// Writes what a dash is, if there is one.
fn write_undefined<A: Allocator>(page: &mut Page<A>, options: &Options<A>) {
    let is_undefined = |policy: &Policy| !policy.has_bytes();
    if !options.byte_capacities.is_empty() && options.policies.iter().any(is_undefined) {
        page.add("-: not defined over keys of unequal sizes (--help formats)\n");
    }
}

/// Writes the figures of each trace after its name.
fn write_all_figures<A: Allocator>(page: &mut Page<A>, outcomes: &[Outcome<'_, A>]) {
    for outcome in outcomes {
        page.add(outcome.name);
        page.add(": ");
        write_figures(page, outcome);
        page.add("\n");
    }
}

/// Writes the figures of a trace, or of the sample that was replayed.
fn write_figures<A: Allocator>(page: &mut Page<A>, outcome: &Outcome<'_, A>) {
    let Summary {
        accesses,
        all_accesses,
        keys,
        keys_once,
        bytes,
    } = outcome.summary;
    if let Some(sample) = outcome.sample {
        page.add("a sample of ");
        page.add_shown(&sample.part());
        page.add_number(" of the keys in ", all_accesses);
        page.add(" access");
        page.add(plural_of(all_accesses));
        page.add(": ");
    }
    page.add_number("", accesses);
    page.add(" access");
    page.add(plural_of(accesses));
    if outcome.is_sized {
        page.add_number(" of ", bytes);
        page.add(" bytes");
    }
    page.add_number(", ", keys);
    page.add(if keys == 1 { " key" } else { " keys" });
    page.add_number(", ", keys_once);
    page.add(" asked for once");
}

fn write_headings<A: Allocator>(page: &mut Page<A>, options: &Options<A>, has_names: bool) {
    page.add("capacity");
    if options.window.is_some() {
        page.add("      first");
    }
    for policy in options.policies.iter() {
        write_heading(page, *policy, options.trace_format.has_sizes());
    }
    if options.best_shares {
        page.add("     best     gain  shares");
    }
    if options.best_shares && has_names {
        page.add("                          ");
    }
    if has_names {
        page.add("  trace");
    }
    page.add("\n");
}

/// Writes the heading of a policy, and that of its bytes if there are sizes.
fn write_heading<A: Allocator>(page: &mut Page<A>, policy: Policy, is_sized: bool) {
    page.add_heading(policy.heading());
    if is_sized {
        page.add("    bytes");
    }
}

/// Writes the rows of a trace, or its windows, with or without its name at the end of each.
fn write_rows<A: Allocator>(
    page: &mut Page<A>,
    policies: &[Policy],
    outcome: &Outcome<'_, A>,
    has_names: bool,
) {
    let name = has_names.then_some(outcome.name);
    if !outcome.windows.is_empty() {
        return write_all_windows(page, outcome, name);
    }
    write_plain_rows(page, outcome, name);
    for row in outcome.byte_rows.iter() {
        write_byte_row(page, policies, row, name);
    }
}

/// Writes the rows of capacities in keys.
fn write_plain_rows<A: Allocator>(
    page: &mut Page<A>,
    outcome: &Outcome<'_, A>,
    name: Option<&str>,
) {
    let width = if name.is_some() { 32 } else { 0 };
    for (index, row) in outcome.rows.iter().enumerate() {
        page.add_right(outcome.capacity_at(index), 8);
        write_all_percents(page, row, outcome.is_sized);
        if let Some(best) = outcome.best_shares.get(index) {
            write_best_shares(page, row, best, width);
        }
        end_row(page, name);
    }
}

/// Writes a row of a capacity in bytes, with a dash for each policy that isn't defined there.
fn write_byte_row<A: Allocator>(
    page: &mut Page<A>,
    policies: &[Policy],
    row: &Row<A>,
    name: Option<&str>,
) {
    write_bytes(page, row.capacity.get());
    for policy in policies {
        match row.hits_with(*policy) {
            Some(hits) => write_percents(page, row, hits, true),
            None => page.add("        -        -"),
        }
    }
    end_row(page, name);
}

fn write_all_windows<A: Allocator>(
    page: &mut Page<A>,
    outcome: &Outcome<'_, A>,
    name: Option<&str>,
) {
    for (index, windows) in outcome.windows.iter().enumerate() {
        let capacity = outcome.capacity_at(index);
        write_windows(page, capacity, windows, outcome.is_sized, name);
    }
}

/// Writes a row for each window, with its first access after the capacity.
fn write_windows<A: Allocator>(
    page: &mut Page<A>,
    capacity: usize,
    windows: &Windows<A>,
    is_sized: bool,
    name: Option<&str>,
) {
    for window in windows.windows.iter() {
        page.add_right(capacity, 8);
        page.add_right(window.first, 11);
        write_all_percents(page, &window.row, is_sized);
        end_row(page, name);
    }
}

/// Ends a row, with the name of its trace if it is given.
fn end_row<A: Allocator>(page: &mut Page<A>, name: Option<&str>) {
    if let Some(name) = name {
        page.add("  ");
        page.add(name);
    }
    page.add("\n");
}

/// Writes the hit ratios of each policy.
fn write_all_percents<A: Allocator>(page: &mut Page<A>, row: &Row<A>, is_sized: bool) {
    for hits in row.hits.iter() {
        write_percents(page, row, hits, is_sized);
    }
}

/// Writes the hit ratio of a policy, and its byte hit ratio if there are sizes.
fn write_percents<A: Allocator>(page: &mut Page<A>, row: &Row<A>, hits: &Hits, is_sized: bool) {
    write_figure(page, row, hits, Counted::Hits);
    if is_sized {
        write_figure(page, row, hits, Counted::Bytes);
    }
}

fn write_figure<A: Allocator>(page: &mut Page<A>, row: &Row<A>, hits: &Hits, counted: Counted) {
    let figure = row.figure(hits, counted);
    let is_best = is_real(hits) && best_of(row, counted) == Some(figure.number);
    write_percent(page, figure.ratio * 100.0, is_best);
}

/// Writes a percentage in a column of nine, with a mark before it if it is the best.
fn write_percent<A: Allocator>(page: &mut Page<A>, percent: f64, is_best: bool) {
    if !is_best {
        return page.add_cell(percent);
    }
    let mark = if percent >= 99.995 {
        "  *"
    } else if percent >= 9.995 {
        "   *"
    } else {
        "    *"
    };
    page.add_decimals(mark, percent, 2);
}

/// Writes the most hits of Clock2Q+, what they gain, and their shares in a column of some width.
fn write_best_shares<A: Allocator>(
    page: &mut Page<A>,
    row: &Row<A>,
    best: &BestShares,
    width: usize,
) {
    page.add_cell(row.ratio(best.hits) * 100.0);
    page.add_cell(row.gain(best.hits, best.usual) * 100.0);
    page.add("  ");
    let start = page.len();
    best.write(page);
    for _ in page.len().saturating_sub(start)..width {
        page.add(" ");
    }
}

/// Returns the most hits, or bytes, of the policies other than the optimum, if there are several of
/// them and not all have equally many.
fn best_of<A: Allocator>(row: &Row<A>, counted: Counted) -> Option<usize> {
    let others = row.hits.iter().filter(|hits| is_real(hits));
    let most = others.map(|hits| counted.of(hits)).max()?;
    let least = row.hits.iter().filter(|hits| is_real(hits));
    (least.map(|hits| counted.of(hits)).min()? < most).then_some(most)
}

fn is_real(hits: &Hits) -> bool {
    hits.policy != Policy::Optimal
}
