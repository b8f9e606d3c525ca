//! The results of traces, written.
ghost use Rattle.std.specs.Prelude.{◌≡◌, ◌≢◌, ◌<◌, ◌↔◌, IfErr, IsErrOf, OnOk};
ghost use Rattle.simulator_interface.specs.SimulationError.{IsOfNoDevice};
ghost use Rattle.simulator_interface.specs.Written.{IsWritten};

use crate::csv_text::csv_text;
use crate::error::SimulationError;
use crate::json_text::json_text;
use crate::options::{Format, Options};
use crate::outcome::Outcome;
use crate::picture::picture;
use crate::table_text::table_text;
use clock2q_ports::{Sink, send};
use std::alloc::Allocator;

/// Writes the results of traces, in the form that is asked for.
///
/// # Errors
///
/// `Memory` if there is no memory for the text, which is complete before any of it is written;
/// `Write` if it can't be written or flushed: a prefix of it, or all, may have been written.
pub fn write_outcomes<W: Sink, A: Allocator + Copy>(
    alloc: A,
    options: &Options<A>,
    outcomes: &[Outcome<'_, A>],
    writer: &mut W,
) -> Result<(), SimulationError>
    ensures ok { OnOk result (IsWritten (W.taken writer.old) (W.taken writer.new) (W.contents writer.old) (W.contents writer.new)) }
    ensures write { ((W.taken writer.old).failures < (W.taken writer.new).failures) ↔ IsErrOf result SimulationError.Write }
    ensures read { IfErr result (λ refusal. refusal ≢ SimulationError.Read) }
    ensures unwritten { IfErr result (λ refusal. (refusal ≢ SimulationError.Write) → writer.new ≡ writer.old) }
{
    let text = text_of(alloc, options, outcomes)?;
    match send(writer, text.as_bytes()) {
        Ok(()) => Ok(()),
        Err(_) => Err(SimulationError::Write),
    }
}

/// Returns the results of traces as a text, in the form that is asked for.
fn text_of<A: Allocator + Copy>(
    alloc: A,
    options: &Options<A>,
    outcomes: &[Outcome<'_, A>],
) -> Result<String<A>, SimulationError>
    ensures devices { IfErr result IsOfNoDevice }
{
    let text = match options.format {
        Format::Table => table_text(alloc, options, outcomes),
        Format::Csv => csv_text(alloc, options, outcomes),
        Format::Json => json_text(alloc, options, outcomes),
        Format::Svg => match outcomes.first() {
            Some(outcome) => picture(alloc, options, outcome),
            None => Ok(String::new(alloc)),
        },
    };
    Ok(text?)
}
