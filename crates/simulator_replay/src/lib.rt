//! Traces of keys replayed in caches of several policies, and their hits.
#![tactic(auto)]

mod best_shares;
mod byte_rows;
mod byte_shares;
mod clock;
mod curve;
mod known_hits;
mod outcome;
mod policies;
mod row;
mod simulation;
mod window;

pub use best_shares::{TRIED_SHARES, all_best_shares_of, best_shares_of};
pub use byte_rows::byte_rows_of;
pub use clock::{clock_outcomes, clock2q_outcomes};
pub use outcome::replay_source;
pub use policies::policy_outcomes;
pub use row::replay;
pub use simulation::{rows_of, simulate};
pub use window::{all_windows_of, windows_of};
