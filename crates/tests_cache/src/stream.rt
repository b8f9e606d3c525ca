//! A stream of keys that look random, from a seed.
ghost use Rattle.std.specs.Prelude.{◌<◌, ◌≤◌};

/// A skewed stream of keys, the same each time.
#[derive(Drop)]
pub(crate) struct Stream {
    seed: u64,
    spread: u64,
    ghost some: { 0 < spread },
    ghost few: { spread ≤ 32 },
}

impl Stream {
    /// Starts a stream in which each of the first `spread` powers of two is equally likely to be
    /// the size of the range that a key comes from.
    pub(crate) fn new(spread: u64) -> Stream
        requires some { 0 < spread }
        requires few { spread ≤ 32 }
    {
        Stream { seed: 1, spread }
    }

    /// Returns the next key.
    pub(crate) fn next(&mut self) -> u64 {
        self.seed = self.seed.wrapping_add(0x9E37_79B9_7F4A_7C15);
        let drawn = mix(self.seed);
        let range = 1u64 << (drawn % self.spread);
        let offset = drawn >> 32 & range.wrapping_sub(1);
        mix(range.wrapping_add(offset))
    }
}

/// Spreads a number over 64 bits: the last step of splitmix64.
fn mix(number: u64) -> u64 {
    let once = (number ^ number >> 30).wrapping_mul(0xBF58_476D_1CE4_E5B9);
    let twice = (once ^ once >> 27).wrapping_mul(0x94D0_49BB_1331_11EB);
    twice ^ twice >> 31
}
