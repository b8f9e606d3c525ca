//! A hasher that computes nothing.
ghost use Rattle.std.specs.Prelude.{◌≡◌};

use std::hash::Hasher;

/// A hasher that returns the number of 64 bits that was written last, for keys that have a hash
/// already. Other bytes change nothing.
///
/// # Example
///
/// ```
/// let mut hasher = GivenHash::default();
/// hasher.write_u64(7);
/// assert_eq!(rt; hasher.finish(), 7);
/// ```
#[derive(Clone, Copy, Debug)]
pub struct GivenHash {
    hash: u64,
}

impl Default for GivenHash {
    /// Returns a hasher to which nothing was written, whose hash is 0.
    fn default() -> GivenHash {
        GivenHash { hash: 0 }
    }
}

impl Hasher for GivenHash {
    ghost use Rattle.clock2q_c.specs.Given.{written};

    ghost write = { λ s bytes. record { hash = written s.hash bytes } };

    ghost finish = { λ s. s.hash };

    fn finish(&self) -> u64 {
        self.hash
    }

    fn write(&mut self, bytes: &[u8]) {
        if bytes.len() == 8 {
            self.hash = u64::from_le_bytes([
                bytes[0], bytes[1], bytes[2], bytes[3], bytes[4], bytes[5], bytes[6], bytes[7],
            ]);
        }
    }
}
