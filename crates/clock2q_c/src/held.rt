//! What a handle points to.
use clock2q_cache::{Cache, DefaultHashBuilder};
use std::alloc::Allocator;

/// A cache of keys, without values: what a key means is the caller's. For C, its memory comes from
/// `malloc`; tests pass an allocator that counts.
#[derive(Drop)]
pub(crate) struct Held<A: Allocator> {
    pub(crate) cache: Cache<usize, (), DefaultHashBuilder, A>,
}
