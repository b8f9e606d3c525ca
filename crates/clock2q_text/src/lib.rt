//! The calls of a cache as data and as text.
//!
//! - A [`Command`] is a call, a [`Reply`] is what it returned.
//! - [`parse`] reads a text of commands, a line each, and [`reply_text`] writes the text of replies.
//!
//! It doesn't depend on the cache: its definitions use only the calls of the machine.
#![tactic(auto)]

mod commands;
mod replies;
mod serve_error;
mod text;

pub use commands::{Command, Reply};
pub use replies::reply_text;
pub use serve_error::ServeError;
pub use text::{ChosenShares, Script, parse};
