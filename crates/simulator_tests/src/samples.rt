//! How many keys are in a sample.

use simulator_interface::Sample;
use std::alloc::Global;
use std::test::Fail;
use testing::same_at;

/// Counts the keys in a sample among 100,000 that are numbers.
fn count_in(alloc: Global, sample: Sample) -> Result<usize, Fail> {
    let mut count = 0usize;
    for number in 0..100_000 {
        let key = format!(in alloc; "{number}")?;
        if sample.has(key.as_bytes()) {
            count = count.saturating_add(1);
        }
    }
    Ok(count)
}

/// About as many keys as asked for are in a sample, although they follow one another.
pub(crate) fn keep_their_part(alloc: Global) -> Result<(), Fail> {
    for (millionths, least, most) in [
        (1_000, 60, 140),
        (10_000, 870, 1_130),
        (100_000, 9_600, 10_400),
        (1_000_000, 100_000, 100_000),
    ] {
        let count = count_in(alloc, Sample { millionths })?;
        same_at(least <= count && count <= most, true, count)?;
    }
    Ok(())
}
