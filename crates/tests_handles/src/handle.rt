//! Handles, each with the hash that it is inserted under.

use clock2q_table_commands::{TableCommand, TableReply};

/// A handle that contains the hash that it is inserted under.
#[derive(Debug, Clone, Copy, PartialEq, Eq, Default)]
pub(crate) struct Handle {
    pub(crate) hash: u64,
    pub(crate) number: u64,
}

/// A call of a table as a value.
pub(crate) type Command<A> = TableCommand<Handle, Vec<Handle, A>>;

/// The reply to it.
pub(crate) type Reply<A> = TableReply<Handle, Vec<Handle, A>>;
