//! Policies whose hits are tested, against lists, and not proved. Each call is proved to be safe, to
//! return, and to have an outcome for each access.

mod arc;
mod byte_clock;
mod byte_clock2q;
mod byte_replayed;
mod byte_s3_fifo;
mod byte_sieve;
mod index_set;
mod lirs;
mod lists;
mod lru_2;
mod queue;
mod replayed;
mod s3_fifo;
mod sieve;
mod sized_lists;
mod sketch;
mod states;
mod two_q;
mod w_tiny_lfu;

pub use byte_clock2q::ByteShares;
pub use byte_replayed::{
    clock_byte_outcomes, clock2q_byte_outcomes, s3_fifo_byte_outcomes, sieve_byte_outcomes,
};
pub use lru_2::lru_2_outcomes;
pub use replayed::{
    arc_outcomes, lirs_outcomes, s3_fifo_outcomes, sieve_outcomes, two_q_outcomes,
    w_tiny_lfu_outcomes,
};
