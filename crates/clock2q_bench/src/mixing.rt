//! Numbers that look random, from a seed.

use std::alloc::{AllocError, Global};

/// Spreads a number over 64 bits: the last step of splitmix64.
pub(crate) fn mix(number: u64) -> u64 {
    let once = (number ^ number >> 30).wrapping_mul(0xBF58_476D_1CE4_E5B9);
    let twice = (once ^ once >> 27).wrapping_mul(0x94D0_49BB_1331_11EB);
    twice ^ twice >> 31
}

/// Returns a hash for each handle below `count`.
pub(crate) fn hashes(alloc: Global, count: usize) -> Result<Vec<u64>, AllocError> {
    let mut hashes = Vec::with_capacity(alloc, count)?;
    append_hashes(&mut hashes, count)?;
    Ok(hashes)
}

/// Appends a hash for each handle below `count`.
fn append_hashes(hashes: &mut Vec<u64>, count: usize) -> Result<(), AllocError> {
    for handle in 0..count {
        hashes.push(mix((handle as u64).wrapping_add(1)))?;
    }
    Ok(())
}
