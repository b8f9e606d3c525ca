//! Parts of a whole, displayed as percentages.

use std::fmt;

/// A number of millionths, which is displayed as a percentage with the decimals that it needs.
///
/// # Example
///
/// ```
/// let part = Percentage { millionths: 2_500 };
/// assert_eq!(rt; format!(in rt.alloc(); "{part}")?, "0.25%");
/// ```
#[derive(Clone, Copy)]
pub struct Percentage {
    /// The number: 10,000 of them are a percent.
    pub millionths: usize,
}

impl fmt::Display for Percentage {
    fn fmt<W: fmt::Write>(&self, f: &mut fmt::Formatter<W>) -> fmt::Result {
        write!(f, "{}", self.millionths / 10_000)?;
        let (decimals, digits) = trimmed(self.millionths % 10_000);
        if digits > 0 {
            write!(f, ".{decimals:0digits$}")?;
        }
        f.write_str("%")
    }
}

/// Returns four decimals without the zeros at their end, and how many are left.
fn trimmed(decimals: usize) -> (usize, usize) {
    if decimals == 0 {
        (0, 0)
    } else if decimals % 1_000 == 0 {
        (decimals / 1_000, 1)
    } else if decimals % 100 == 0 {
        (decimals / 100, 2)
    } else if decimals % 10 == 0 {
        (decimals / 10, 3)
    } else {
        (decimals, 4)
    }
}
