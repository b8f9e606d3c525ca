//! A key that is about to become a resident.
use clock2q_handles::Gap;

/// A key that is about to become a resident.
#[derive(Drop)]
pub struct Newcomer<K, V> {
    /// The gap for its hash, if a lookup found that.
    pub gap: Option<Gap>,
    /// Its hash.
    pub hash: u64,
    /// The key itself.
    pub key: K,
    /// Its value. Without one, it gets the value that its slot has.
    pub value: Option<V>,
}
