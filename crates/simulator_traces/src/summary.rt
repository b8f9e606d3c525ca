//! The numbers of accesses and keys of a trace.
ghost use Rattle.std.specs.Prelude.{◌≡◌, IfOk, length};
ghost use Rattle.simulator_traces.specs.Bytes.{asked_between};
ghost use Rattle.simulator_traces.specs.Uses.{keys_once, ones};
ghost use Rattle.simulator_traces.specs.Trace.{all_accesses, sizes_of};

use crate::sums::asked_bytes;
use crate::trace::Trace;
use simulator_interface::Summary;
use std::alloc::{AllocError, Allocator};

/// Returns the figures of a trace. Uses a byte for each key while it runs.
///
/// # Errors
///
/// `AllocError` if a request for memory is refused.
pub fn summary_of<A: Allocator + Copy>(alloc: A, trace: &Trace<A>) -> Result<Summary, AllocError>
    ensures accesses { IfOk result (λ summary. summary.accesses ≡ length trace.now.numbers) }
    ensures all { IfOk result (λ summary. summary.all_accesses ≡ all_accesses trace.now) }
    ensures keys { IfOk result (λ summary. summary.keys ≡ trace.now.different) }
    ensures once { IfOk result (λ summary. summary.keys_once ≡ keys_once trace.now.different trace.now.numbers) }
    ensures bytes { IfOk result (λ summary. summary.bytes ≡ asked_between 0 (length trace.now.numbers) (sizes_of trace.now)) }
{
    let mut uses = vec![in alloc; 0u8; trace.key_count()]?;
    let numbers = trace.numbers();
    for index in 0..numbers.len() {
        let number = numbers[index] as usize;
        uses[number] = uses[number].saturating_add(1);
    }
    Ok(Summary {
        accesses: trace.numbers().len(),
        all_accesses: trace.all_accesses(),
        keys: trace.key_count(),
        keys_once: ones_in(&uses),
        bytes: asked_bytes(trace.sizes(), 0, trace.numbers().len()),
    })
}

/// Counts the ones.
fn ones_in(uses: &[u8]) -> usize
    ensures ones { result ≡ ones uses.now }
{
    let mut count = 0;
    for index in 0..uses.len() {
        if uses[index] == 1 {
            count += 1;
        }
    }
    count
}
