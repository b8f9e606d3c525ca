//! Traces of keys: their formats read, their keys numbered, and sums of their sizes.
#![tactic(auto)]

mod csv;
mod key_bytes;
mod key_record;
mod keyed_hasher;
mod known_keys;
mod reading;
mod records;
mod summary;
mod sums;
mod trace;

pub use keyed_hasher::{KeyedHashBuilder, KeyedHasher};
pub use reading::{read_sample, read_trace};
pub use summary::summary_of;
pub use sums::{asked_bytes, hit_bytes};
pub use trace::{DefaultHashBuilder, GrowingTrace, Trace};
