//! Comparisons for tests, as calls: the code that `assert_eq!` expands to is proved at each use,
//! and takes longer than the rest of most tests.

use std::fmt::Debug;
use std::test::Fail;

/// Returns the failure of a test unless both values are equal.
///
/// # Errors
///
/// A failure that shows both.
///
/// # Example
///
/// ```
/// same(cache.len(), 2)?;
/// ```
pub fn same<T: PartialEq + Debug + Copy>(got: T, wanted: T) -> Result<(), Fail> {
    if got == wanted {
        Ok(())
    } else {
        Err(Fail::new(format_args!("{got:?} in place of {wanted:?}")))
    }
}

/// Does what [`same`] does in one of several cases.
///
/// # Errors
///
/// A failure that shows both values and the case.
///
/// # Example
///
/// ```
/// for (key, slot) in [(1, 0), (2, 1)] {
///     same_at(cache.slot(&key), Some(slot), key)?;
/// }
/// ```
pub fn same_at<T: PartialEq + Debug + Copy, P: Debug + Copy>(
    got: T,
    wanted: T,
    at: P,
) -> Result<(), Fail> {
    if got == wanted {
        Ok(())
    } else {
        Err(Fail::new(format_args!("{at:?}: {got:?} in place of {wanted:?}")))
    }
}
