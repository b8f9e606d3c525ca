//! Sums of sizes.

use simulator_traces::{asked_bytes, hit_bytes};
use std::test::Fail;
use testing::{same, same_at};

/// Sums of parts, and of lists that end before others.
pub(crate) fn add_sizes() -> Result<(), Fail> {
    let outcomes = [true, false, true, true];
    let sizes = [1usize, 20, 300, 4000];
    for (first, last, hit, asked) in [
        (0, 4, 4301, 4321),
        (1, 3, 300, 320),
        (0, 100, 4301, 4321),
        (3, 2, 0, 0),
        (9, 9, 0, 0),
        (1, 2, 0, 20),
    ] {
        let given = (
            hit_bytes(&outcomes, &sizes, first, last),
            asked_bytes(&sizes, first, last),
        );
        same_at(given, (hit, asked), (first, last))?;
    }
    same(hit_bytes(&outcomes, &sizes[..1], 0, 4), 1)?;
    same(hit_bytes(&outcomes[..3], &sizes, 0, 4), 301)
}

/// Sums of more than 64 bits.
pub(crate) fn add_large_sizes() -> Result<(), Fail> {
    let outcomes = [true, false, true, true];
    let large = [usize::MAX, 1, usize::MAX, 5];
    let given = (
        hit_bytes(&outcomes, &large, 0, 4),
        hit_bytes(&outcomes, &large, 1, 2),
        asked_bytes(&large, 1, 3),
    );
    same(given, (usize::MAX, 0, usize::MAX))
}
