//! Curves of hit ratios in a frame.
ghost use Rattle.std.specs.Prelude.{◌<◌};

use crate::axis::Axis;
use crate::page::Page;
use crate::pen::Pen;
use crate::scale::Scale;
use crate::title::Title;
use std::alloc::{AllocError, Allocator};
use std::num::nearest_usize_to_f64;

/// The width of a chart, in the units of the picture.
pub const WIDTH: usize = 780;

/// The height of a chart.
pub const HEIGHT: usize = 470;

/// The frame of the curves. On its right are their names.
const LEFT: f64 = 80.0;

const RIGHT: f64 = 620.0;

const TOP: f64 = 60.0;

const BOTTOM: f64 = 400.0;

/// The largest number of points of a curve that are marked.
const MARKED: usize = 30;

/// A hit ratio in percent, and its place on the horizontal axis.
///
/// # Example
///
/// ```
/// let half_at_100 = Point { place: 100, percent: 50.0 };
/// ```
#[derive(Clone, Copy)]
pub struct Point {
    /// The place.
    pub place: usize,
    /// The ratio.
    pub percent: f64,
}

/// The hit ratios of a policy, by their places.
///
/// # Example
///
/// ```
/// let curve = Curve { name: "LRU", pen, points };
/// ```
#[derive(Drop)]
pub struct Curve<A: Allocator> {
    /// The policy's name.
    pub name: &'static str,
    /// How it is drawn.
    pub pen: Pen,
    /// The ratios, the lowest place first.
    pub points: Vec<Point, A>,
}

/// Curves, with what is written around them.
///
/// # Example
///
/// ```
/// let chart = Chart { title, scale: Scale::Keys, axis: Axis::of(&capacities), curves };
/// chart.write(alloc, &mut page)?;
/// ```
#[derive(Drop)]
pub struct Chart<A: Allocator> {
    /// What is above them.
    pub title: Title,
    /// What the horizontal axis counts.
    pub scale: Scale,
    /// The horizontal axis.
    pub axis: Axis,
    /// The curves, in the order of their names.
    pub curves: Vec<Curve<A>, A>,
}

impl<A: Allocator + Copy> Chart<A> {
    /// Writes the chart.
    ///
    /// # Errors
    ///
    /// `AllocError` if there is no memory for the numbers to label.
    pub fn write(&self, alloc: A, page: &mut Page<A>) -> Result<(), AllocError> {
        let ticks = self.axis.ticks(alloc)?;
        self.write_with(&ticks, page);
        Ok(())
    }
}

impl<A: Allocator> Chart<A> {
    /// Writes the chart with the numbers to label.
    fn write_with(&self, ticks: &[usize], page: &mut Page<A>) {
        let top = top_of(&self.curves);
        let frame = Frame {
            axis: self.axis,
            floor: floor_of(&self.curves, top),
            top,
        };
        page.add("<text x=\"80\" y=\"32\" font-size=\"17\">");
        self.title.write(page);
        page.add("</text>\n");
        write_ratios(page, &frame);
        self.write_places(ticks, page, &frame);
        for (index, curve) in self.curves.iter().enumerate() {
            curve.write(page, &frame);
            curve.write_name(page, index);
        }
    }

    /// Writes the horizontal axis, with a mark at each labelled number.
    fn write_places(&self, ticks: &[usize], page: &mut Page<A>, frame: &Frame) {
        page.add_decimals("<path d=\"M ", LEFT, 0);
        page.add_decimals(" ", TOP, 0);
        page.add_decimals(" V ", BOTTOM, 0);
        page.add_decimals(" H ", RIGHT, 0);
        page.add("\" fill=\"none\" stroke=\"black\"/>\n");
        for tick in ticks {
            write_place(page, frame.x(*tick), self.scale, *tick);
        }
        page.add("<text x=\"350\" y=\"452\" text-anchor=\"middle\">");
        self.scale.write(page);
        page.add(if frame.axis.is_logarithmic {
            " (logarithmic)</text>\n"
        } else {
            "</text>\n"
        });
    }
}

impl<A: Allocator> Curve<A> {
    /// Returns the highest hit ratio in percent.
    fn highest(&self) -> f64 {
        let mut most = 0.0;
        for point in self.points.iter() {
            most = point.percent.max(most);
        }
        most
    }

    /// Returns the lowest hit ratio in percent.
    fn lowest(&self) -> f64 {
        let mut least = 100.0;
        for point in self.points.iter() {
            least = point.percent.min(least);
        }
        least
    }

    /// Returns true if there are enough points for a line through them.
    fn has_line(&self) -> bool {
        self.points.len() >= 3
    }

    /// Returns true if the points are marked.
    fn has_marks(&self) -> bool {
        self.points.len() <= MARKED
    }

    /// Writes the line and the points.
    fn write(&self, page: &mut Page<A>, frame: &Frame) {
        if self.has_line() {
            self.write_line(page, frame);
        }
        if self.has_marks() {
            self.write_points(page, frame);
        }
    }

    /// Writes a line through the points.
    fn write_line(&self, page: &mut Page<A>, frame: &Frame) {
        page.add("<polyline ");
        self.pen.write_line(page);
        page.add(" points=\"");
        for point in self.points.iter() {
            page.add_decimals(" ", frame.x(point.place), 1);
            page.add_decimals(",", frame.y(point.percent), 1);
        }
        page.add("\"/>\n");
    }

    /// Writes the points.
    fn write_points(&self, page: &mut Page<A>, frame: &Frame) {
        for point in self.points.iter() {
            self.pen
                .write_point(page, frame.x(point.place), frame.y(point.percent));
        }
    }

    /// Writes the policy's name on the right, beside a piece of its line with a point.
    fn write_name(&self, page: &mut Page<A>, index: usize) {
        let middle = TOP + 8.0 + nearest_usize_to_f64(index) * 26.0;
        if self.has_line() {
            page.add_decimals("<path d=\"M 640 ", middle, 0);
            page.add(" h 44\" ");
            self.pen.write_line(page);
            page.add("/>\n");
        }
        if self.has_marks() {
            self.pen.write_point(page, 662.0, middle);
        }
        page.add_decimals("<text x=\"694\" y=\"", middle + 4.5, 1);
        page.add("\">");
        page.add(self.name);
        page.add("</text>\n");
    }
}

/// The positions of places and ratios. The vertical axis goes from `floor` to `top` percent.
#[derive(Drop)]
struct Frame {
    axis: Axis,
    floor: u8,
    top: u8,
}

impl Frame {
    fn x(&self, place: usize) -> f64 {
        LEFT + self.axis.position(place) * (RIGHT - LEFT)
    }

    fn y(&self, percent: f64) -> f64 {
        let floor = f64::from(self.floor);
        BOTTOM - (percent - floor) / (f64::from(self.top) - floor) * (BOTTOM - TOP)
    }
}

/// Returns the distance between two lines across the picture, in percent.
fn step_between(floor: u8, top: u8) -> u8
    ensures positive { 0 < result }
{
    match top.saturating_sub(floor) {
        0..=20 => 2,
        21..=50 => 5,
        _ => 10,
    }
}

/// Returns the highest ratio of the curves in percent, rounded up to a multiple of ten.
fn top_of<A: Allocator>(curves: &[Curve<A>]) -> u8 {
    let mut most = 0.0;
    for curve in curves {
        most = curve.highest().max(most);
    }
    [10u8, 20, 30, 40, 50, 60, 70, 80, 90]
        .iter()
        .copied()
        .find(|top| most <= f64::from(*top))
        .unwrap_or(100)
}

/// Returns the lowest ratio of the curves in percent, rounded down to a multiple of the step from
/// there to the top, if all ratios are above a half, and otherwise 0.
fn floor_of<A: Allocator>(curves: &[Curve<A>], top: u8) -> u8 {
    let mut least = 100.0;
    for curve in curves {
        least = curve.lowest().min(least);
    }
    match (50..100u8)
        .rev()
        .find(|percent| least > f64::from(*percent))
    {
        Some(percent) => percent - percent % step_between(percent, top),
        None => 0,
    }
}

/// Writes the vertical axis, with lines across the picture.
fn write_ratios<A: Allocator>(page: &mut Page<A>, frame: &Frame) {
    let step = step_between(frame.floor, frame.top);
    for percent in (frame.floor..=frame.top).step_by(usize::from(step)) {
        write_ratio(page, frame.y(f64::from(percent)), percent);
    }
    page.add("<text transform=\"translate(24 230) rotate(-90)\" text-anchor=\"middle\">hit ratio");
    page.add(if frame.floor > 0 {
        " (the axis doesn't begin at 0%)</text>\n"
    } else {
        "</text>\n"
    });
}

/// Writes a label of the vertical axis, and its line.
fn write_ratio<A: Allocator>(page: &mut Page<A>, y: f64, percent: u8) {
    page.add_decimals("<path d=\"M ", LEFT, 0);
    page.add_decimals(" ", y, 1);
    page.add_decimals(" H ", RIGHT, 0);
    page.add_decimals("\" stroke=\"#d0d0d0\"/>\n<text x=\"72\" y=\"", y + 4.5, 1);
    page.add_number("\" text-anchor=\"end\">", usize::from(percent));
    page.add("%</text>\n");
}

/// Writes a number below the horizontal axis.
fn write_place<A: Allocator>(page: &mut Page<A>, x: f64, scale: Scale, number: usize) {
    page.add_decimals("<path d=\"M ", x, 1);
    page.add_decimals(" ", BOTTOM, 0);
    page.add_decimals(" v 6\" stroke=\"black\"/>\n<text x=\"", x, 1);
    page.add("\" y=\"422\" text-anchor=\"middle\">");
    scale.write_place(page, number);
    page.add("</text>\n");
}
