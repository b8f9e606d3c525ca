//! The capacities that an argument asks for.
ghost use Rattle.std.specs.List.{All};
ghost use Rattle.std.specs.Prelude.{◌≡◌, ◌≤◌, ◌↔◌, [], ◌∷◌, ◌++◌, Some, IfOk, IsTrue, OnOk, map};
ghost use Rattle.simulator_interface.specs.Sample.{IsForSampledClock};
ghost use Rattle.simulator_interface.specs.Amounts.{IsCapacity, IsForClock, amount, amount_in, asked_by, between, range, rest_of};

use crate::amount::{Amount, Unit};
use crate::chosen::Chosen;
use crate::error::{ArgumentError, SimulationError};
use crate::sample::{Sample, scaled};
use std::alloc::{AllocError, Allocator};

/// The largest number of keys that a capacity can be. A trace has at most one more.
pub const MAX_CAPACITY: usize = 4_294_967_295;

/// The largest number of keys for Clock2Q+ and CLOCK: that of a cache of `clock2q_cache`.
pub const MAX_CLOCK_CAPACITY: usize = 16_777_215;

/// The numbers 1, 2 and 5 times a power of ten that are capacities.
const ROUND_NUMBERS: [usize; 29] = [
    1,
    2,
    5,
    10,
    20,
    50,
    100,
    200,
    500,
    1_000,
    2_000,
    5_000,
    10_000,
    20_000,
    50_000,
    100_000,
    200_000,
    500_000,
    1_000_000,
    2_000_000,
    5_000_000,
    10_000_000,
    20_000_000,
    50_000_000,
    100_000_000,
    200_000_000,
    500_000_000,
    1_000_000_000,
    2_000_000_000,
];

/// Returns the capacities that an argument asks for: a single amount, or those of a range, such as
/// `10..1M` or `0.1%..50%`. `index` is the index of the argument.
///
/// # Errors
///
/// `Argument` if it is neither, or a number of keys in it is above `MAX_CAPACITY`; `Memory` if a
/// request for memory is refused.
pub(crate) fn capacities_of<A: Allocator>(
    alloc: A,
    argument: &str,
    index: usize,
) -> Result<Vec<Amount, A>, SimulationError>
    ensures asked { IfOk result (λ capacities. asked_by argument.now ≡ Some capacities.items) }
    ensures within { IfOk result (λ capacities. All IsCapacity capacities.items) }
{
    let Some((first, last)) = argument.split_once("..") else {
        let capacity = capacity_of(argument, ArgumentError::NotCapacity, index)?;
        return Ok(Vec::from_slice(alloc, &[capacity])?);
    };
    let first = capacity_of(first, ArgumentError::NotCapacity, index)?;
    let last = capacity_of(last, ArgumentError::NotRange, index)?;
    if last.unit != first.unit {
        return Err(SimulationError::Argument(ArgumentError::NotRange, index));
    }
    if last.number < first.number {
        return Err(SimulationError::Argument(ArgumentError::ReversedRange, index));
    }
    Ok(range_of(alloc, first, last.number, &ROUND_NUMBERS)?)
}

/// Returns the ends of a range and the round numbers between them, ascending.
fn range_of<A: Allocator>(
    alloc: A,
    first: Amount,
    last: usize,
    round_numbers: &[usize],
) -> Result<Vec<Amount, A>, AllocError>
    requires first { IsCapacity first }
    requires last { IsCapacity (amount first.unit last) }
    ensures range { IfOk result (λ capacities. capacities.items ≡ range round_numbers.now first last) }
    ensures within { IfOk result (λ capacities. All IsCapacity capacities.items) }
{
    let mut capacities = Vec::from_slice(alloc, &[first])?;
    match add_rest(&mut capacities, first, last, round_numbers) {
        Ok(()) => Ok(capacities),
        Err(refused) => Err(refused),
    }
}

/// Adds what comes after the first end of a range.
fn add_rest<A: Allocator>(
    capacities: &mut Vec<Amount, A>,
    first: Amount,
    last: usize,
    round_numbers: &[usize],
) -> Result<(), AllocError>
    requires first { IsCapacity first }
    requires last { IsCapacity (amount first.unit last) }
    requires within { All IsCapacity capacities.old.items }
    ensures range { OnOk result (capacities.new.items ≡ capacities.old.items ++ map (amount first.unit) (rest_of round_numbers.now first.number last)) }
    ensures within { OnOk result (All IsCapacity capacities.new.items) }
{
    add_between(capacities, first, last, round_numbers)?;
    if first.number < last {
        let unit = first.unit;
        capacities.push(Amount { number: last, unit })?;
    }
    Ok(())
}

/// Adds the round numbers between the ends of a range.
fn add_between<A: Allocator>(
    capacities: &mut Vec<Amount, A>,
    first: Amount,
    last: usize,
    round_numbers: &[usize],
) -> Result<(), AllocError>
    requires first { IsCapacity first }
    requires last { IsCapacity (amount first.unit last) }
    requires within { All IsCapacity capacities.old.items }
    ensures between { OnOk result (capacities.new.items ≡ capacities.old.items ++ map (amount first.unit) (between round_numbers.now first.number last)) }
    ensures within { OnOk result (All IsCapacity capacities.new.items) }
{
    for number in round_numbers {
        add_if_between(capacities, first, *number, last)?;
    }
    Ok(())
}

/// Adds a number if it is between the ends of a range.
fn add_if_between<A: Allocator>(
    capacities: &mut Vec<Amount, A>,
    first: Amount,
    number: usize,
    last: usize,
) -> Result<(), AllocError>
    requires first { IsCapacity first }
    requires last { IsCapacity (amount first.unit last) }
    requires within { All IsCapacity capacities.old.items }
    ensures between { OnOk result (capacities.new.items ≡ capacities.old.items ++ map (amount first.unit) (between (number ∷ []) first.number last)) }
    ensures within { OnOk result (All IsCapacity capacities.new.items) }
{
    if first.number < number && number < last {
        let unit = first.unit;
        capacities.push(Amount { number, unit })?;
    }
    Ok(())
}

/// Returns the capacity that a word spells. `fault` is what is wrong if it spells none.
fn capacity_of(word: &str, fault: ArgumentError, index: usize) -> Result<Amount, SimulationError>
    ensures asked { IfOk result (λ capacity. amount_in word.now ≡ Some capacity) }
    ensures within { IfOk result IsCapacity }
{
    let Some(capacity) = Amount::written(word) else {
        return Err(SimulationError::Argument(fault, index));
    };
    match capacity.unit {
        Unit::Keys if capacity.number > MAX_CAPACITY => {
            Err(SimulationError::Argument(ArgumentError::LargeCapacity, index))
        }
        Unit::Millionths if capacity.number > 1_000_000 => {
            Err(SimulationError::Argument(fault, index))
        }
        _ if capacity.number == 0 => Err(SimulationError::Argument(fault, index)),
        _ => Ok(capacity),
    }
}

/// Refuses a number of keys that a cache of Clock2Q+ or of CLOCK can't hold, if one of them is among
/// the policies. With a sample it is that of a cache as much smaller.
pub(crate) fn check_for_clock<A: Allocator + Copy>(
    chosen: &Chosen<A>,
    capacities: &[Amount],
) -> Result<(), SimulationError> {
    if !chosen.compares_clock() {
        return Ok(());
    }
    check_sampled(chosen.sample, capacities)
}

/// Refuses a number of keys that a cache of Clock2Q+ or of CLOCK can't hold.
fn check_sampled(sample: Option<Sample>, capacities: &[Amount]) -> Result<(), SimulationError>
    ensures held { OnOk result (All (IsForSampledClock sample) capacities.now) }
{
    for capacity in capacities {
        if !may_be_for_clock(scaled(sample, *capacity)) {
            return Err(SimulationError::Capacity(*capacity));
        }
    }
    Ok(())
}

/// Returns true if a cache of Clock2Q+ or of CLOCK can hold an amount. A percentage is assumed to be
/// such an amount, since its number of keys isn't known yet.
fn may_be_for_clock(capacity: Amount) -> bool
    ensures held { IsTrue result ↔ IsForClock capacity }
{
    match capacity.unit {
        Unit::Keys => capacity.number <= MAX_CLOCK_CAPACITY,
        Unit::Millionths => true,
    }
}
