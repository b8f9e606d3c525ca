//! The accesses that a sample of a trace's keys is expected to have.
ghost use Rattle.std.specs.Prelude.{◌≡◌};
ghost use Rattle.simulator_interface.specs.Expected.{expected_among, expected_in, expected_part};

use crate::sample::Sample;

/// Returns the number of accesses that the hit ratios of a trace's `counted` accesses are parts of.
/// Without a sample these are the counted ones. Of a sample, which has `sampled` of `all` accesses,
/// they are those expected: all times the part of the keys that is sampled, rounded down. If only
/// some of the sample's accesses are counted, they are as large a part of those.
///
/// # Example
///
/// ```
/// let sample = Sample::written("25%");
/// assert_eq!(rt; expected_accesses(sample, 2_000, 507, 507), 500);
/// ```
pub fn expected_accesses(
    sample: Option<Sample>,
    all: usize,
    sampled: usize,
    counted: usize,
) -> usize
    ensures expected { result ≡ expected_among sample all sampled counted }
{
    match sample {
        Some(sample) => expected_part(expected_in(sample, all), sampled, counted),
        None => counted,
    }
}

/// Returns how many of all accesses are expected to be to keys in a sample.
fn expected_in(sample: Sample, all: usize) -> usize
    ensures expected { result ≡ expected_in sample all }
{
    let millionths = sample.millionths.min(1_000_000);
    (all as u128 * millionths as u128 / 1_000_000) as usize
}

/// Returns how many accesses are expected for the counted ones of a sample.
fn expected_part(expected: usize, sampled: usize, counted: usize) -> usize
    ensures part { result ≡ expected_part expected sampled counted }
{
    let part = counted as u128 * expected as u128 / (sampled.max(1) as u128);
    part.min(usize::MAX as u128) as usize
}
