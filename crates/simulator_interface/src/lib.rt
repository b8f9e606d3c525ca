//! What a person types and sees: the simulator's arguments, its refusals and progress, and the hits as
//! a table, as CSV, as JSON or as a picture.
#![tactic(auto)]

mod amount;
mod best_shares;
mod byte_amount;
mod capacities;
mod chosen;
mod csv_text;
mod error;
mod expected;
mod format;
mod help;
mod json_text;
mod options;
mod outcome;
mod pen;
mod picture;
mod policy;
mod progress;
mod results;
mod row;
mod sample;
mod shares;
mod shown_rows;
mod summary;
mod table_text;
mod window;

pub use amount::{Amount, Unit, number_of};
pub use best_shares::BestShares;
pub use byte_amount::bytes_of;
pub use capacities::{MAX_CAPACITY, MAX_CLOCK_CAPACITY};
pub use error::{ArgumentError, ErrorReport, SimulationError};
pub use expected::expected_accesses;
pub use format::{Columns, TraceFormat};
pub use help::{FORMATS_HELP, HELP, POLICIES_HELP, help_for};
pub use options::{Format, Options, parse_options};
pub use outcome::{Outcome, STANDARD_INPUT};
pub use policy::Policy;
pub use progress::{NoClock, Progress};
pub use results::write_outcomes;
pub use row::{Hits, Row};
pub use sample::{Sample, all_scaled, all_shown, scaled, scaled_shares};
pub use shares::ChosenShares;
pub use shown_rows::{show_name, show_row};
pub use summary::Summary;
pub use window::{Window, Windows};
