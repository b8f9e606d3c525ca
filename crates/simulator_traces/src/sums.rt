//! The bytes that accesses ask for, and the bytes of those that hit.
ghost use Rattle.std.specs.Prelude.{◌≡◌};
ghost use Rattle.simulator_traces.specs.Bytes.{asked_between, hit_between};

/// Returns the sum of the sizes of the accesses from `first` up to `last` that hit, or the largest
/// number of 64 bits if it is more. An access without an outcome or a size isn't counted.
///
/// # Example
///
/// ```
/// let (outcomes, sizes) = ([false, true, true], [100, 200, 300]);
/// assert_eq!(rt; hit_bytes(&outcomes, &sizes, 0, 3), 500);
/// ```
pub fn hit_bytes(outcomes: &[bool], sizes: &[usize], first: usize, last: usize) -> usize
    ensures bytes { result ≡ hit_between first last outcomes.now sizes.now }
{
    let end = last.min(outcomes.len()).min(sizes.len());
    let mut bytes = 0usize;
    for index in first..end {
        if outcomes[index] {
            bytes = bytes.saturating_add(sizes[index]);
        }
    }
    bytes
}

/// Returns the sum of the sizes from `first` up to `last`, or the largest number of 64 bits if it is
/// more.
pub fn asked_bytes(sizes: &[usize], first: usize, last: usize) -> usize
    ensures bytes { result ≡ asked_between first last sizes.now }
{
    let end = last.min(sizes.len());
    let mut bytes = 0usize;
    for index in first..end {
        bytes = bytes.saturating_add(sizes[index]);
    }
    bytes
}
