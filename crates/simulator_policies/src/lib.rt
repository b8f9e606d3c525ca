//! Policies of caches, replayed over keys that are numbers: which accesses of a trace hit, and how
//! many. The hits of LRU and FIFO are proved to be those of a list, in caches for a number of keys
//! and for a number of bytes, and for LRU also at many capacities at once. Those of Belady's
//! optimum are proved too, and those of the policies in [`tested`] are tested.
#![tactic(auto)]

mod byte_caches;
mod count_tree;
mod index_set;
mod index_tree;
mod indices;
mod last_accesses;
mod lru_curve;
mod optimal;
mod plain;
pub mod tested;

pub use byte_caches::byte_outcomes;
pub use lru_curve::lru_hits_at;
pub use optimal::{optimal_hits, optimal_hits_at, optimal_outcomes};
pub use plain::{PlainPolicy, plain_hits, plain_outcomes};
