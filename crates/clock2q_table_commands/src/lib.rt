//! The calls of a handle table as data: [`run_table`] makes the calls of a list of
//! [`TableCommand`]s.
#![tactic(auto)]

mod table_commands;

pub use table_commands::{TableCommand, TableReply, run_table};
