//! Texts that are written piece by piece, and charts in them as parts of an SVG picture.
#![tactic(auto)]

mod axis;
mod chart;
mod page;
mod pen;
mod percentage;
mod scale;
mod title;

pub use axis::Axis;
pub use chart::{Chart, Curve, HEIGHT, Point, WIDTH};
pub use page::Page;
pub use pen::Pen;
pub use percentage::Percentage;
pub use scale::Scale;
pub use title::{Title, plural_of};
