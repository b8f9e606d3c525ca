//! The numbers of accesses and keys of a trace.
ghost use Rattle.std.specs.Prelude.{◌≡◌, ◌&&◌, ◌*◌, leb, ltb};

/// The figures of a trace.
///
/// # Example
///
/// ```
/// let summary = summary_of(rt.alloc(), &trace)?; // of the keys a, b, a
/// assert_eq!(rt; (summary.accesses, summary.keys, summary.keys_once), (3, 2, 1));
/// ```
#[derive(Clone, Copy, Debug, PartialEq, Eq)]
pub struct Summary {
    /// The number of accesses: of a sample, to its keys alone.
    pub accesses: usize,
    /// The number of accesses to keys in the sample and to others.
    pub all_accesses: usize,
    /// The number of different keys accessed.
    pub keys: usize,
    /// The number of these keys that are accessed once.
    pub keys_once: usize,
    /// The sum of the sizes of the accesses, or 0 if the trace has no sizes.
    pub bytes: usize,
}

impl Summary {
    /// Returns true if more than 99 of 100 keys are accessed once, and there are at least 100.
    pub fn is_nearly_all_once(&self) -> bool
        ensures once { result ≡
            (leb 100 self.now.keys && ltb (99 * self.now.keys) (100 * self.now.keys_once)) }
    {
        let (keys, once) = (self.keys as u128, self.keys_once as u128);
        keys >= 100 && 99 * keys < 100 * once
    }

    /// Returns true if accesses are skipped, and none is left.
    pub fn is_all_skipped(&self, skipped: usize) -> bool
        ensures skipped { result ≡ (ltb 0 skipped && leb self.now.accesses skipped) }
    {
        skipped > 0 && self.accesses <= skipped
    }
}
