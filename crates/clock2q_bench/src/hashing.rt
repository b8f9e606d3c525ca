//! A hasher of one multiplication, for 64-bit numbers as keys.
ghost use Rattle.clock2q_bench.specs.Hashing.{folded};
ghost use Rattle.std.specs.Prelude.{◌≡◌};

use std::hash::Hasher;

/// The hash of the number that was written last: the XOR of both halves of its product with an odd
/// number. Other bytes change nothing.
#[derive(Clone, Copy)]
pub struct Multiplying {
    hash: u64,
}

impl Default for Multiplying {
    fn default() -> Multiplying {
        Multiplying { hash: 0 }
    }
}

impl Hasher for Multiplying {
    ghost use Rattle.clock2q_bench.specs.Hashing.{written};

    ghost write = { λ s bytes. record { hash = written s.hash bytes } };

    ghost finish = { λ s. s.hash };

    fn finish(&self) -> u64 {
        self.hash
    }

    fn write(&mut self, bytes: &[u8]) {
        if bytes.len() == 8 {
            let number = u64::from_le_bytes([
                bytes[0], bytes[1], bytes[2], bytes[3], bytes[4], bytes[5], bytes[6], bytes[7],
            ]);
            self.hash = fold(number);
        }
    }
}

/// Returns the XOR of both halves of a number's product.
fn fold(number: u64) -> u64
    ensures folded { result ≡ folded number }
{
    let product = number as u128 * 0x9E37_79B9_7F4A_7C15;
    (product & 0xFFFF_FFFF_FFFF_FFFF) as u64 ^ (product >> 64) as u64
}
