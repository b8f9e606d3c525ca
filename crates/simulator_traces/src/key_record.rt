//! What is kept of a key: a short one, or the place of a long one.
ghost use Rattle.std.specs.Int.{w64, from_le_bytes};
ghost use Rattle.std.specs.Prelude.{◌≡◌, ◌<◌, ◌≤◌, ◌+◌, ◌^◌, drop, get_or, length, take};
ghost use Rattle.simulator_traces.specs.KnownKeys.{IsKept, key_in, size_of, start_of};

/// The number of bytes of a record. The last one is the length of a short key, or part of a place.
const RECORD: usize = 16;

/// What the last byte of a place is at least: its highest bit is set.
const LONG: u8 = 1 << 7;

/// The same bit in the word that it is the highest bit of.
const LONG_WORD: u64 = 1 << 63;

/// A key of at most 15 bytes, and its length; or where a longer one starts among other bytes and
/// its length, as two words with the lowest byte first. It takes 16 bytes.
#[derive(Clone, Copy)]
pub(crate) struct KeyRecord {
    bytes: [u8; RECORD],
}

impl KeyRecord {
    /// Returns the record of a short key.
    pub(crate) fn short(key: &[u8]) -> KeyRecord
        requires short { length key.now < 16 }
        ensures len { get_or result.bytes 15 0 ≡ length key.now }
        ensures front { take (length key.now) result.bytes ≡ key.now }
    {
        let mut bytes = [0; RECORD];
        bytes[..key.len()].copy_from_slice(key);
        bytes[RECORD - 1] = key.len() as u8;
        KeyRecord { bytes }
    }

    /// Returns the record of a long key, by its place.
    pub(crate) fn long(start: usize, size: usize) -> KeyRecord
        requires fits { size < 2 ^ 63 }
        ensures long { 128 ≤ get_or result.bytes 15 0 }
        ensures start { start_of result.bytes ≡ start }
        ensures size { size_of result.bytes ≡ size }
    {
        let a = (start as u64).to_le_bytes();
        let b = (size as u64 + LONG_WORD).to_le_bytes();
        KeyRecord {
            bytes: [
                a[0], a[1], a[2], a[3], a[4], a[5], a[6], a[7], b[0], b[1], b[2], b[3], b[4], b[5],
                b[6], b[7],
            ],
        }
    }

    /// Returns the key, which is among the other bytes if it is long.
    pub(crate) fn key<'a>(&'a self, others: &'a [u8]) -> &'a [u8]
        requires kept { IsKept (length others.now) self.now.bytes }
        ensures key { result.now ≡ key_in others.now self.now }
    {
        let last = self.bytes[RECORD - 1];
        if last < LONG {
            return &self.bytes[..last as usize];
        }
        let start = self.word(0) as usize;
        let size = (self.word(8) % LONG_WORD) as usize;
        &others[start..start + size]
    }

    /// Returns the word that starts at an index.
    fn word(&self, at: usize) -> u64
        requires within { at + 8 ≤ length self.now.bytes }
        ensures word { result ≡ from_le_bytes w64 (drop at self.now.bytes) }
    {
        u64::from_le_bytes([
            self.bytes[at],
            self.bytes[at + 1],
            self.bytes[at + 2],
            self.bytes[at + 3],
            self.bytes[at + 4],
            self.bytes[at + 5],
            self.bytes[at + 6],
            self.bytes[at + 7],
        ])
    }
}
