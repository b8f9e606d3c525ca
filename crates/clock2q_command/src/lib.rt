//! The calls of a cache and of a handle table as data, and as text.
//!
//! - [`run`] makes the calls of a cache that a list of [`Command`]s describes.
//! - [`serve`] makes those that a text spells, which it reads from a [`Source`], and writes the
//!   text of the replies to a [`Sink`]. A [`Device`] over a reader or a writer is one.
//!   [`serve_with`] does so with the caller's hasher.
//! - [`run_table`] makes the calls of a table that a list of [`TableCommand`]s describes.
#![tactic(auto)]

mod commands;
mod serving;
mod standard;

pub use clock2q_ports::{Device, Failed, Sink, Source};
pub use clock2q_table_commands::{TableCommand, TableReply, run_table};
pub use clock2q_text::{Command, Reply, ServeError};
pub use commands::run;
pub use serving::{serve, serve_with};
pub use standard::serve_standard;
