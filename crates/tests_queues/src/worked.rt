//! Runs that are written in the code, since their contracts say what no call returns.

use crate::counts::{count, grow};
use crate::directory::{a_slot, a_slot_more};
use crate::keys::two_keys;
use crate::player::{slot_of, write_reply};
use crate::verb::{RUNS, Run};
use clock2q_directory::index::index_room;
use std::alloc::{AllocError, Global};
use testing::{Refusing, named_in, two_words};

/// Plays a run, and writes the numbers that it returns.
pub(crate) fn play_worked(
    memory: &Refusing<Global>,
    alloc: Global,
    run: &str,
    replies: &mut String,
) -> Result<(), AllocError> {
    let (name, number) = two_words(run);
    match named_in(RUNS, name) {
        Some(Run::Counts) => write_numbers(&count(memory)?, replies),
        Some(Run::Growth) => write_numbers(&[grow(memory)? as u64], replies),
        Some(Run::Slot) => write_numbers(&a_slot(alloc)?, replies),
        Some(Run::SlotMore) => write_numbers(&a_slot_more(alloc)?, replies),
        Some(Run::TwoKeys) => write_rows(&two_keys(alloc)?, replies),
        Some(Run::IndexRoom) => {
            write_numbers(&[index_room(slot_of(number) as usize) as u64], replies)
        }
        None => write_reply(None, replies),
    }
}

/// Writes numbers, each with a line end.
fn write_numbers(numbers: &[u64], replies: &mut String) -> Result<(), AllocError> {
    for number in numbers {
        write_reply(Some(*number), replies)?;
    }
    Ok(())
}

/// Writes rows of numbers.
fn write_rows(rows: &[[u64; 6]], replies: &mut String) -> Result<(), AllocError> {
    for row in rows {
        write_numbers(row, replies)?;
    }
    Ok(())
}
