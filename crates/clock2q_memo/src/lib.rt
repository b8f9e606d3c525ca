//! A function whose values are remembered in a bounded cache.
#![tactic(auto)]

mod evaluator;
mod memo;

pub use memo::{Memo, recall};
