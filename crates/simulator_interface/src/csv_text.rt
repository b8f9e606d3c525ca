//! The results of traces as CSV.

use crate::best_shares::BestShares;
use crate::options::Options;
use crate::outcome::Outcome;
use crate::policy::Policy;
use crate::row::{Counted, Figure, Hits, Row};
use crate::window::Windows;
use simulator_charts::Page;
use std::alloc::{AllocError, Allocator};

/// Returns the rows as CSV, below a header line: a row for each capacity, or for each window. If
/// there are several traces, each row ends with the name of its trace, in quotes.
pub(crate) fn csv_text<A: Allocator>(
    alloc: A,
    options: &Options<A>,
    outcomes: &[Outcome<'_, A>],
) -> Result<String<A>, AllocError> {
    let mut page = Page::new(alloc);
    let has_names = outcomes.len() > 1;
    write_names(&mut page, options, has_names);
    for outcome in outcomes {
        write_rows(&mut page, &options.policies, outcome, has_names);
    }
    page.finish()
}

fn write_names<A: Allocator>(page: &mut Page<A>, options: &Options<A>, has_names: bool) {
    page.add("capacity");
    if options.window.is_some() {
        page.add(",first");
    }
    let is_sized = options.trace_format.has_sizes();
    page.add(if is_sized {
        ",accesses,bytes"
    } else {
        ",accesses"
    });
    for policy in options.policies.iter() {
        write_policy(page, policy.name(), is_sized);
    }
    if options.best_shares {
        page.add(",best_hits,best_ratio,best_shares");
    }
    if has_names {
        page.add(",trace");
    }
    page.add("\n");
}

/// Writes the names of the columns of a policy, and of its bytes if there are sizes.
fn write_policy<A: Allocator>(page: &mut Page<A>, name: &str, is_sized: bool) {
    write_column(page, name, "_hits");
    write_column(page, name, "_ratio");
    if is_sized {
        write_column(page, name, "_hit_bytes");
        write_column(page, name, "_byte_ratio");
    }
}

fn write_column<A: Allocator>(page: &mut Page<A>, name: &str, figure: &str) {
    page.add(",");
    page.add(name);
    page.add(figure);
}

/// Writes the rows of a trace, or its windows, with or without its name at the end of each.
fn write_rows<A: Allocator>(
    page: &mut Page<A>,
    policies: &[Policy],
    outcome: &Outcome<'_, A>,
    has_names: bool,
) {
    let name = has_names.then_some(outcome.name);
    if !outcome.windows.is_empty() {
        return write_all_windows(page, outcome, name);
    }
    write_plain_rows(page, outcome, name);
    for row in outcome.byte_rows.iter() {
        write_byte_row(page, policies, row, name);
    }
}

/// Writes the rows of capacities in keys.
fn write_plain_rows<A: Allocator>(
    page: &mut Page<A>,
    outcome: &Outcome<'_, A>,
    name: Option<&str>,
) {
    for (index, row) in outcome.rows.iter().enumerate() {
        page.add_number("", outcome.capacity_at(index));
        write_ratios(page, row, outcome.is_sized);
        if let Some(best) = outcome.best_shares.get(index) {
            write_best_shares(page, row, best);
        }
        end_row(page, name);
    }
}

/// Writes the best shares of a row, with their hits and hit ratio.
fn write_best_shares<A: Allocator>(page: &mut Page<A>, row: &Row<A>, best: &BestShares) {
    page.add_number(",", best.hits);
    page.add_decimals(",", row.ratio(best.hits), 4);
    page.add(",\"");
    best.write(page);
    page.add("\"");
}

/// Writes a row of a capacity in bytes, with nothing for each policy that isn't defined there.
fn write_byte_row<A: Allocator>(
    page: &mut Page<A>,
    policies: &[Policy],
    row: &Row<A>,
    name: Option<&str>,
) {
    page.add_number("", row.capacity.get());
    page.add_number("B,", row.accesses);
    page.add_number(",", row.bytes);
    for policy in policies {
        match row.hits_with(*policy) {
            Some(hits) => write_hits(page, row, hits, true),
            None => page.add(",,,,"),
        }
    }
    end_row(page, name);
}

fn write_all_windows<A: Allocator>(
    page: &mut Page<A>,
    outcome: &Outcome<'_, A>,
    name: Option<&str>,
) {
    for (index, windows) in outcome.windows.iter().enumerate() {
        let capacity = outcome.capacity_at(index);
        write_windows(page, capacity, windows, outcome.is_sized, name);
    }
}

/// Writes a row for each window, with its first access after the capacity.
fn write_windows<A: Allocator>(
    page: &mut Page<A>,
    capacity: usize,
    windows: &Windows<A>,
    is_sized: bool,
    name: Option<&str>,
) {
    for window in windows.windows.iter() {
        page.add_number("", capacity);
        page.add_number(",", window.first);
        write_ratios(page, &window.row, is_sized);
        end_row(page, name);
    }
}

/// Ends a row, with the name of its trace if it is given.
fn end_row<A: Allocator>(page: &mut Page<A>, name: Option<&str>) {
    if let Some(name) = name {
        write_quoted(page, name);
    }
    page.add("\n");
}

fn write_ratios<A: Allocator>(page: &mut Page<A>, row: &Row<A>, is_sized: bool) {
    page.add_number(",", row.accesses);
    if is_sized {
        page.add_number(",", row.bytes);
    }
    for hits in row.hits.iter() {
        write_hits(page, row, hits, is_sized);
    }
}

/// Writes the hits and the hit ratio of a policy, and those of bytes if there are sizes.
fn write_hits<A: Allocator>(page: &mut Page<A>, row: &Row<A>, hits: &Hits, is_sized: bool) {
    write_figure(page, row.figure(hits, Counted::Hits));
    if is_sized {
        write_figure(page, row.figure(hits, Counted::Bytes));
    }
}

fn write_figure<A: Allocator>(page: &mut Page<A>, figure: Figure) {
    page.add_number(",", figure.number);
    page.add_decimals(",", figure.ratio, 4);
}

/// Writes a comma and a name in quotes, with each quote in it doubled.
fn write_quoted<A: Allocator>(page: &mut Page<A>, name: &str) {
    page.add(",\"");
    for letter in name.chars() {
        if letter == '"' {
            page.add("\"");
        }
        page.add_char(letter);
    }
    page.add("\"");
}
