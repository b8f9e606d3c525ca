//! Hashers that spread keys badly.
ghost use Rattle.std.specs.Prelude.{◌+◌, ◌*◌, ◌%◌, ◌^◌, ◌==◌, length, cond};
ghost use Rattle.std.specs.Int.{w64, from_le_bytes};

use std::hash::{BuildHasher, Hasher};

/// Hashes a number to `times` the number plus `more`, modulo 2^64. If `times` is 0, all numbers
/// have the same hash.
///
/// # Example
///
/// ```
/// let one_hash_for_all = LinearHashBuilder { times: 0, more: 7 };
/// ```
#[derive(Clone, Copy, Debug)]
pub struct LinearHashBuilder {
    pub times: u64,
    pub more: u64,
}

/// The hasher that [`LinearHashBuilder`] makes. It hashes the number that was written last.
#[derive(Clone, Copy)]
pub struct LinearHasher {
    builder: LinearHashBuilder,
    number: u64,
}

impl BuildHasher for LinearHashBuilder {
    type Hasher = LinearHasher;

    ghost build_hasher = { λ builder. record { builder = builder; number = 0 } };

    fn build_hasher(&self) -> LinearHasher {
        LinearHasher {
            builder: *self,
            number: 0,
        }
    }
}

impl Hasher for LinearHasher {
    ghost write = { λ s bytes. record s { number = cond (length bytes == 8) (from_le_bytes w64 bytes) s.number } };

    ghost finish = { λ s. (s.number * s.builder.times % 2 ^ 64 + s.builder.more) % 2 ^ 64 };

    fn finish(&self) -> u64 {
        self.number
            .wrapping_mul(self.builder.times)
            .wrapping_add(self.builder.more)
    }

    fn write(&mut self, bytes: &[u8]) {
        if bytes.len() == 8 {
            self.number = u64::from_le_bytes([
                bytes[0], bytes[1], bytes[2], bytes[3], bytes[4], bytes[5], bytes[6], bytes[7],
            ]);
        }
    }
}
