//! A picture of hit ratios over capacities, or over windows of accesses.

use crate::amount::{Amount, Unit};
use crate::options::Options;
use crate::outcome::Outcome;
use crate::pen::pen_of;
use crate::policy::Policy;
use crate::row::{Hits, Row};
use crate::window::Windows;
use simulator_charts::{Axis, Chart, Curve, HEIGHT, Page, Point, Scale, Title, WIDTH};
use std::alloc::{AllocError, Allocator};

/// Returns the hit ratio of each policy over the capacities, or over the windows at each capacity
/// if they are asked for, as an SVG text.
pub(crate) fn picture<A: Allocator + Copy>(
    alloc: A,
    options: &Options<A>,
    outcome: &Outcome<'_, A>,
) -> Result<String<A>, AllocError> {
    let charts = charts_of(alloc, options, outcome)?;
    let mut page = Page::new(alloc);
    write_charts(alloc, &charts, &mut page)?;
    page.finish()
}

/// Returns the chart of the capacities, or one for each capacity if windows are asked for.
fn charts_of<A: Allocator + Copy>(
    alloc: A,
    options: &Options<A>,
    outcome: &Outcome<'_, A>,
) -> Result<Vec<Chart<A>, A>, AllocError> {
    let mut charts = Vec::new(alloc);
    for (index, windows) in outcome.windows.iter().enumerate() {
        let capacity = outcome.capacity_at(index);
        charts.push(chart_of_windows(alloc, capacity, windows, options)?)?;
    }
    if charts.is_empty() {
        charts.push(chart_of_capacities(alloc, options, outcome)?)?;
    }
    Ok(charts)
}

/// Writes charts, one below another.
fn write_charts<A: Allocator + Copy>(
    alloc: A,
    charts: &[Chart<A>],
    page: &mut Page<A>,
) -> Result<(), AllocError> {
    write_head(page, charts.len());
    for (index, chart) in charts.iter().enumerate() {
        page.add_number("<g transform=\"translate(0 ", index.saturating_mul(HEIGHT));
        page.add(")\">\n");
        chart.write(alloc, page)?;
        page.add("</g>\n");
    }
    page.add("</svg>\n");
    Ok(())
}

/// Writes the beginning of a picture of some charts, one below another.
fn write_head<A: Allocator>(page: &mut Page<A>, charts: usize) {
    let height = charts.saturating_mul(HEIGHT);
    page.add("<svg xmlns=\"http://www.w3.org/2000/svg\"");
    write_size(page, height);
    page.add_number(" viewBox=\"0 0 ", WIDTH);
    page.add_number(" ", height);
    page.add("\" font-family=\"sans-serif\" font-size=\"13\">\n<rect");
    write_size(page, height);
    page.add(" fill=\"white\"/>\n");
}

/// Writes the width and the height of a picture.
fn write_size<A: Allocator>(page: &mut Page<A>, height: usize) {
    page.add_number(" width=\"", WIDTH);
    page.add_number("\" height=\"", height);
    page.add("\"");
}

/// A row, and its place on the horizontal axis.
#[derive(Drop)]
struct Placed<'a, A: Allocator> {
    place: usize,
    row: &'a Row<A>,
}

/// Returns the hit ratios over the capacities. The axis is of percentages if all capacities are.
fn chart_of_capacities<A: Allocator + Copy>(
    alloc: A,
    options: &Options<A>,
    outcome: &Outcome<'_, A>,
) -> Result<Chart<A>, AllocError> {
    let is_percent = options
        .capacities
        .iter()
        .all(|capacity| is_percentage(capacity));
    let accesses = outcome.rows.first().map_or(0, |row| row.accesses);
    let title = Title::OfCapacities(accesses, outcome.sample.is_some());
    let scale = if is_percent {
        Scale::Millionths(outcome.summary.keys)
    } else {
        Scale::Keys
    };
    let placed = placed_rows(alloc, &options.capacities, outcome, is_percent)?;
    let axis = axis_of(alloc, &placed)?;
    chart_of(alloc, title, scale, axis, &placed)
}

/// Returns the rows with their places, the lowest first.
fn placed_rows<'a, A: Allocator + Copy>(
    alloc: A,
    capacities: &[Amount],
    outcome: &'a Outcome<'_, A>,
    is_percent: bool,
) -> Result<Vec<Placed<'a, A>, A>, AllocError> {
    let mut placed = Vec::new(alloc);
    for (index, row) in outcome.rows.iter().enumerate() {
        let place = match capacities.get(index) {
            Some(capacity) if is_percent => capacity.number,
            _ => outcome.capacity_at(index),
        };
        placed.push(Placed { place, row })?;
    }
    placed.sort_by_key(|placed| placed.place)?;
    Ok(placed)
}

/// Returns a chart of rows by their places.
fn chart_of<A: Allocator + Copy>(
    alloc: A,
    title: Title,
    scale: Scale,
    axis: Axis,
    placed: &[Placed<'_, A>],
) -> Result<Chart<A>, AllocError> {
    let curves = curves_of(alloc, placed)?;
    Ok(Chart {
        title,
        scale,
        axis,
        curves,
    })
}

fn is_percentage(capacity: &Amount) -> bool {
    capacity.unit == Unit::Millionths
}

/// Returns an axis for the places of rows.
fn axis_of<A: Allocator + Copy>(alloc: A, placed: &[Placed<'_, A>]) -> Result<Axis, AllocError> {
    let mut places = Vec::new(alloc);
    for placed in placed {
        places.push(placed.place)?;
    }
    Ok(Axis::of(&places))
}

/// Returns the hit ratios over the windows at a capacity, each at its middle.
fn chart_of_windows<A: Allocator + Copy>(
    alloc: A,
    capacity: usize,
    windows: &Windows<A>,
    options: &Options<A>,
) -> Result<Chart<A>, AllocError> {
    let first = windows.windows.first().map_or(0, |window| window.first);
    let end = windows.windows.last().map_or(0, |window| {
        window.first.saturating_add(window.row.accesses)
    });
    let size = options.window.map_or(0, |size| size.get());
    let title = Title::OfWindows(size, capacity);
    let placed = placed_windows(alloc, windows)?;
    chart_of(
        alloc,
        title,
        Scale::Accesses,
        Axis::linear(first, end),
        &placed,
    )
}

/// Returns the rows of windows, each at its middle.
fn placed_windows<A: Allocator>(
    alloc: A,
    windows: &Windows<A>,
) -> Result<Vec<Placed<'_, A>, A>, AllocError> {
    let mut placed = Vec::new(alloc);
    for window in windows.windows.iter() {
        placed.push(Placed {
            place: window.first.saturating_add(window.row.accesses / 2),
            row: &window.row,
        })?;
    }
    Ok(placed)
}

/// Returns the curve of each policy, in their order at the right end, the highest first.
fn curves_of<A: Allocator + Copy>(
    alloc: A,
    placed: &[Placed<'_, A>],
) -> Result<Vec<Curve<A>, A>, AllocError> {
    let mut curves = Vec::new(alloc);
    let Some(last) = placed.last() else {
        return Ok(curves);
    };
    let mut order: Vec<Hits, A> = Vec::from_slice(alloc, &last.row.hits)?;
    order.sort_by_key(|hits| usize::MAX - hits.hits)?;
    for hits in order.iter() {
        curves.push(Curve {
            name: hits.policy.heading(),
            pen: pen_of(hits.policy),
            points: points_of(alloc, placed, hits.policy)?,
        })?;
    }
    Ok(curves)
}

/// Returns the hit ratios of a policy.
fn points_of<A: Allocator + Copy>(
    alloc: A,
    placed: &[Placed<'_, A>],
    policy: Policy,
) -> Result<Vec<Point, A>, AllocError> {
    let mut points = Vec::new(alloc);
    for placed in placed {
        points.push(Point {
            place: placed.place,
            percent: percent_of(placed.row, policy),
        })?;
    }
    Ok(points)
}

/// Returns the hit ratio of a policy in percent.
fn percent_of<A: Allocator>(row: &Row<A>, policy: Policy) -> f64 {
    match row.hits_with(policy) {
        Some(hits) => row.ratio(hits.hits) * 100.0,
        None => 0.0,
    }
}
