//! A hasher with random keys.
ghost use Rattle.std.specs.Prelude.{◌≡◌, ◌+◌, ◌≤◌, length};
ghost use Rattle.std.specs.Hash.FoldHasher as folding;
ghost use Rattle.simulator_traces.specs.KeyedHasher as keyed;

use std::hash::{BuildHasher, Hasher, RandomState};

/// Makes hashers for keys that strangers choose: each multiplies by a number that they can't know.
/// It takes fewer instructions than a `RandomState`, which is made to keep such numbers secret even
/// from those who see many hashes: use it only where no hash is shown.
///
/// # Example
///
/// ```
/// let hasher = KeyedHashBuilder::new(&RandomState::new(rt)?);
/// let trace = read_trace(alloc, hasher, "-", TraceFormat::Lines, &mut reader, &mut progress)?;
/// ```
#[derive(Clone, Copy)]
pub struct KeyedHashBuilder {
    keyed: KeyedHasher,
}

impl KeyedHashBuilder {
    /// Takes two keys from a random state.
    pub fn new(random: &RandomState) -> KeyedHashBuilder
        ensures keyed { result.keyed ≡ keyed.keyed random.now }
    {
        KeyedHashBuilder {
            keyed: KeyedHasher {
                state: random.hash_one(&0u8),
                factor: random.hash_one(&1u8) | 1,
            },
        }
    }
}

impl BuildHasher for KeyedHashBuilder {
    type Hasher = KeyedHasher;

    ghost build_hasher = { λ builder. builder.keyed };

    fn build_hasher(&self) -> KeyedHasher {
        self.keyed
    }
}

/// A hash so far. Eight bytes at a time are joined to it by exclusive or, and multiplied to 128 bits,
/// whose halves are joined.
#[derive(Clone, Copy)]
pub struct KeyedHasher {
    state: u64,
    factor: u64,
}

impl Hasher for KeyedHasher {
    ghost write = { keyed.write };

    ghost finish = { keyed.finish };

    fn finish(&self) -> u64 {
        self.state
    }

    fn write(&mut self, bytes: &[u8]) {
        let len = bytes.len();
        let factor = self.factor;
        let mut state = self.state.wrapping_add(len as u64);
        if len <= 8 {
            self.state = folded_multiply(state ^ read_short(bytes), factor);
            return;
        }
        let mut at = 0;
        while len - at > 8 {
            state = folded_multiply(state ^ read_u64(bytes, at), factor);
            at += 8;
        }
        self.state = folded_multiply(state ^ read_u64(bytes, len - 8), factor);
    }
}

/// Returns the two halves of a product of 128 bits, joined by exclusive or.
fn folded_multiply(a: u64, b: u64) -> u64
    ensures { result ≡ folding.folded_multiply a b }
{
    let product = a as u128 * b as u128;
    (product & 0xFFFF_FFFF_FFFF_FFFF) as u64 ^ (product >> 64) as u64
}

/// Returns the number whose four bytes begin at an index, the lowest first.
fn read_u32(bytes: &[u8], at: usize) -> u64
    requires { at + 4 ≤ length bytes.now }
    ensures { result ≡ folding.read_u32 bytes.now at }
{
    u32::from_le_bytes([bytes[at], bytes[at + 1], bytes[at + 2], bytes[at + 3]]) as u64
}

/// Returns the number whose eight bytes begin at an index, the lowest first.
fn read_u64(bytes: &[u8], at: usize) -> u64
    requires { at + 8 ≤ length bytes.now }
    ensures { result ≡ folding.read_u64 bytes.now at }
{
    read_u32(bytes, at) | read_u32(bytes, at + 4) << 32
}

/// Returns a number that different bytes have different ones of, if they are as many and at most 8.
fn read_short(bytes: &[u8]) -> u64
    ensures { result ≡ folding.read_short bytes.now }
{
    let len = bytes.len();
    if len >= 4 {
        read_u32(bytes, 0) | read_u32(bytes, len - 4) << 32
    } else if len > 0 {
        bytes[0] as u64 | (bytes[len / 2] as u64) << 8 | (bytes[len - 1] as u64) << 16
    } else {
        0
    }
}
