//! Ports: where bytes come from and where they go, as contracts see them.
//!
//! - A [`Source`] gives bytes and a [`Sink`] takes them.
//! - A [`Device`] over a reader or a writer is one.
//! - [`read_all`] reads a source to its end, [`write_all`] writes a whole text, and [`send`] also
//!   flushes the sink.
#![tactic(auto)]

mod event_log;
mod ports;
mod read_error;
mod transfer;

pub use ports::{Device, Failed, Sink, Source};
pub use read_error::ReadError;
pub use transfer::{read_all, send, write_all};
