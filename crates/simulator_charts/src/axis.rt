//! The horizontal axis of a picture: where each number is, and which ones are labelled.
ghost use Rattle.std.specs.Prelude.{◌<◌};

use std::alloc::{AllocError, Allocator};
use std::num::nearest_usize_to_f64;

/// The round numbers up to the largest step.
const ROUND: [usize; 28] = [
    1,
    2,
    5,
    10,
    20,
    50,
    100,
    200,
    500,
    1_000,
    2_000,
    5_000,
    10_000,
    20_000,
    50_000,
    100_000,
    200_000,
    500_000,
    1_000_000,
    2_000_000,
    5_000_000,
    10_000_000,
    20_000_000,
    50_000_000,
    100_000_000,
    200_000_000,
    500_000_000,
    1_000_000_000,
];

/// The largest number of labels between the ends.
const NAMED: usize = 10;

/// How far a label is from those of the ends, as a part of the axis.
const CLEAR: f64 = 0.08;

/// The numbers from `low` to `high`, on a linear or logarithmic scale.
///
/// # Example
///
/// ```
/// let axis = Axis::of(&[10, 100, 1_000]);
/// ```
#[derive(Clone, Copy)]
pub struct Axis {
    low: usize,
    high: usize,
    pub(crate) is_logarithmic: bool,
}

impl Axis {
    /// Returns an axis for these numbers, logarithmic if the highest is at least eight times the
    /// lowest.
    pub fn of(numbers: &[usize]) -> Axis {
        let low = numbers.iter().copied().min().unwrap_or(1);
        let high = numbers.iter().copied().max().unwrap_or(1);
        Axis {
            low,
            high,
            is_logarithmic: high / 8 >= low,
        }
    }

    /// Returns a linear axis from one number to another.
    pub fn linear(low: usize, high: usize) -> Axis {
        Axis {
            low,
            high,
            is_logarithmic: false,
        }
    }

    /// Returns the position of a number: 0 at the low end, 1 at the high end. An axis of one number
    /// has it in the middle.
    pub(crate) fn position(&self, number: usize) -> f64 {
        if self.low >= self.high {
            return 0.5;
        }
        let low = self.measure(self.low);
        (self.measure(number) - low) / (self.measure(self.high) - low)
    }

    /// Returns the distance of a number from 0, or from 1 on a logarithmic scale.
    fn measure(&self, number: usize) -> f64 {
        if self.is_logarithmic {
            logarithm(number)
        } else {
            nearest_usize_to_f64(number)
        }
    }

    /// Returns the numbers to label: both ends, and round ones between them.
    ///
    /// # Errors
    ///
    /// `AllocError` if there is no memory for them.
    pub(crate) fn ticks<A: Allocator + Copy>(&self, alloc: A) -> Result<Vec<usize, A>, AllocError> {
        let mut ticks = vec![in alloc; self.low]?;
        if self.low >= self.high {
            return Ok(ticks);
        }
        for tick in self.between(alloc)? {
            let position = self.position(tick);
            if CLEAR < position && position < 1.0 - CLEAR {
                ticks.push(tick)?;
            }
        }
        ticks.push(self.high)?;
        Ok(ticks)
    }

    /// Returns few enough round numbers on the axis.
    fn between<A: Allocator + Copy>(&self, alloc: A) -> Result<Vec<usize, A>, AllocError> {
        if !self.is_logarithmic {
            return self.multiples(alloc, self.step());
        }
        let ticks = self.round(alloc, 1)?;
        if ticks.len() <= NAMED {
            return Ok(ticks);
        }
        self.round(alloc, 3)
    }

    /// Returns every n-th round number on the axis.
    fn round<A: Allocator + Copy>(
        &self,
        alloc: A,
        every: usize,
    ) -> Result<Vec<usize, A>, AllocError>
        requires every { 0 < every }
    {
        let mut ticks = Vec::new(alloc);
        for (i, tick) in ROUND.iter().enumerate() {
            if i % every == 0 && self.low <= *tick && *tick <= self.high {
                ticks.push(*tick)?;
            }
        }
        Ok(ticks)
    }

    /// Returns the smallest round number that divides the axis into few enough parts.
    fn step(&self) -> usize
        ensures positive { 0 < result }
    {
        let span = self.high.saturating_sub(self.low);
        ROUND
            .iter()
            .copied()
            .find(|step| span <= step.saturating_mul(NAMED - 2))
            .unwrap_or(span)
            .max(1)
    }

    /// Returns the multiples of a step on the axis.
    fn multiples<A: Allocator + Copy>(
        &self,
        alloc: A,
        step: usize,
    ) -> Result<Vec<usize, A>, AllocError>
        requires step { 0 < step }
    {
        let mut ticks = Vec::new(alloc);
        let mut tick = self.low.div_ceil(step).saturating_mul(step);
        for _ in 0..NAMED {
            if tick > self.high {
                break;
            }
            ticks.push(tick)?;
            tick = tick.saturating_add(step);
        }
        Ok(ticks)
    }
}

/// Returns the base-2 logarithm of a number of at least 1, to about four decimal places.
fn logarithm(value: usize) -> f64 {
    let whole = value.max(1).ilog2();
    let mut rest = nearest_usize_to_f64(value.max(1)) / nearest_usize_to_f64(1 << whole);
    let mut logarithm = f64::from(whole);
    let mut part = 1.0;
    for _ in 0..16 {
        part /= 2.0;
        rest *= rest;
        if rest >= 2.0 {
            rest /= 2.0;
            logarithm += part;
        }
    }
    logarithm
}
