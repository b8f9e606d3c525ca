//! How a curve is drawn.

use crate::page::Page;
use std::alloc::Allocator;

/// The line and the points of a curve.
///
/// # Example
///
/// ```
/// let pen = Pen { colour: "#0072b2", dashes: "none", shape: "m -5 -5 h 10 v 10 h -10 z", is_filled: true };
/// ```
#[derive(Clone, Copy)]
pub struct Pen {
    /// The colour of both.
    pub colour: &'static str,
    /// The lengths of the line's dashes and of the gaps between them, or `none`.
    pub dashes: &'static str,
    /// The outline of a point, from its middle.
    pub shape: &'static str,
    /// Whether points are filled.
    pub is_filled: bool,
}

impl Pen {
    /// Writes how a line is drawn.
    pub(crate) fn write_line<A: Allocator>(&self, page: &mut Page<A>) {
        page.add("fill=\"none\" stroke=\"");
        page.add(self.colour);
        page.add("\" stroke-width=\"1.6\" stroke-dasharray=\"");
        page.add(self.dashes);
        page.add("\"");
    }

    /// Writes a point.
    pub(crate) fn write_point<A: Allocator>(&self, page: &mut Page<A>, x: f64, y: f64) {
        page.add_decimals("<path d=\"M ", x, 1);
        page.add_decimals(" ", y, 1);
        page.add(" ");
        page.add(self.shape);
        page.add("\" fill=\"");
        page.add(if self.is_filled { self.colour } else { "none" });
        page.add("\" stroke=\"");
        page.add(self.colour);
        page.add("\" stroke-width=\"1.6\"/>\n");
    }
}
