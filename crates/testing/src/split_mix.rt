//! Numbers determined by a seed.
ghost use Rattle.std.specs.Prelude.{◌<◌};

/// SplitMix64, a stream of numbers determined by its seed, so that a list of drawn calls can be
/// repeated.
///
/// # Example
///
/// ```
/// let mut draws = SplitMix64::new(1);
/// let die = draws.below(6) + 1;
/// ```
#[derive(Drop)]
pub struct SplitMix64 {
    /// A sum that grows by an odd step; its bits, mixed, are the numbers.
    sum: u64,
}

impl SplitMix64 {
    /// Creates a seed's stream.
    pub fn new(seed: u64) -> SplitMix64 {
        SplitMix64 { sum: seed }
    }

    /// Returns the next number.
    pub fn next(&mut self) -> u64 {
        self.sum = self.sum.wrapping_add(0x9E37_79B9_7F4A_7C15);
        let mixed = (self.sum ^ (self.sum >> 30)).wrapping_mul(0xBF58_476D_1CE4_E5B9);
        let mixed = (mixed ^ (mixed >> 27)).wrapping_mul(0x94D0_49BB_1331_11EB);
        mixed ^ (mixed >> 31)
    }

    /// Returns the remainder of the next number, which is below the bound, or 0 if the bound is 0.
    pub fn below(&mut self, bound: u64) -> u64
        ensures below { 0 < bound → result < bound }
    {
        self.next().checked_rem(bound).unwrap_or(0)
    }
}
