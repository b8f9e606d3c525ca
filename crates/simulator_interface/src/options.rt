//! The arguments of the program.
ghost use Rattle.std.specs.List.{All, fold};
ghost use Rattle.std.specs.Option.{option_to_list};
ghost use Rattle.std.specs.NonZero.{non_zero_usize_get};
ghost use Rattle.std.specs.Prelude.{◌≡◌, ◌<◌, ◌+◌, [], ◌∷◌, ◌++◌, ℕ, false, if◌then◌else◌, is_some, None, Some, MatchOption, IfOk, OnOk, List, length, map, string_bytes};
ghost use Rattle.simulator_interface.specs.ChosenShares.{Fits};
ghost use Rattle.simulator_interface.specs.Amounts.{IsCapacity, asked_from, is_capacity, is_in_bytes, is_option, joined, takes_value};
ghost use Rattle.simulator_interface.specs.AskedOptions.{AreChosen, IsFormat, Value, awaited_after, choices_so_far, chosen_by, format_so_far, is_name, names_from, nothing, option_named, option_setting, set, setting_in};
ghost use Rattle.simulator_interface.specs.ByteAmounts.{bytes_from, bytes_in, joined_bytes};

use crate::amount::Amount;
use crate::byte_amount::{capacity_in_bytes, ends_in};
use crate::capacities::{capacities_of, check_for_clock};
use crate::chosen::{Chosen, Valued};
use crate::error::{ArgumentError, SimulationError};
use crate::format::TraceFormat;
use crate::policy::Policy;
use crate::sample::Sample;
use crate::shares::ChosenShares;
use std::alloc::Allocator;
use std::num::NonZeroUsize;

/// The form of the result.
///
/// # Example
///
/// ```
/// let options = parse_options(rt.alloc(), &arguments)?; // of `clock2q-simulate 100`
/// assert_eq!(rt; options.format, Format::Table);
/// ```
#[derive(Clone, Copy, Debug, PartialEq, Eq)]
pub enum Format {
    /// Columns, for people.
    Table,
    /// A line of comma-separated values for each capacity.
    Csv,
    /// A picture of the hit ratios over the capacities.
    Svg,
    /// JSON, for programs.
    Json,
}

/// What the arguments ask for.
///
/// # Example
///
/// ```
/// let options = parse_options(rt.alloc(), &arguments)?; // of `clock2q-simulate --csv 10 100`
/// assert_eq!(rt; options.format, Format::Csv);
/// assert_eq!(rt; options.capacities.len(), 2);
/// ```
#[derive(Drop)]
pub struct Options<A: Allocator> {
    /// The form of the result.
    pub format: Format,
    /// The capacities to simulate, in order. A percentage is of the trace's different keys.
    pub capacities: Vec<Amount, A>,
    /// The capacities in bytes, in order. If there are some, the traces have sizes.
    pub byte_capacities: Vec<NonZeroUsize, A>,
    /// The indices of the arguments that name traces, in order. A dash names standard input, which
    /// is the trace if there is no name.
    pub traces: Vec<usize, A>,
    /// The policies to compare, in order.
    pub policies: Vec<Policy, A>,
    /// The shares of Clock2Q+, if they aren't the usual ones.
    pub shares: Option<ChosenShares>,
    /// The number of accesses at the beginning of a trace that only warm the caches.
    pub skipped: usize,
    /// The number of accesses of a window, if windows are asked for.
    pub window: Option<NonZeroUsize>,
    /// How the traces are written.
    pub trace_format: TraceFormat,
    /// The sample of the keys to replay, unless it is all of them.
    pub sample: Option<Sample>,
    /// True if the shares that hit most are asked for.
    pub best_shares: bool,
}

/// Parses arguments: capacities and ranges of them, names of traces, at most one option that asks
/// for a form, and the other options at most once each, with a value after them or after `=`.
///
/// # Errors
///
/// `Argument` if an argument is none of these, is repeated, contradicts an earlier one, or asks for
/// more than `MAX_CAPACITY` keys: what is wrong, and its index. `NoCapacity` without a capacity;
/// `Capacity` if Clock2Q+ or CLOCK can't hold one; `UnusedShares` if there are shares, but Clock2Q+
/// isn't among the policies; `Shares` if they don't fit together in a cache of a number of keys;
/// `Memory` if a request for memory is refused. The error is that of the first bad argument.
///
/// # Cost
///
/// Time in proportion to the bytes of the arguments.
pub fn parse_options<A: Allocator + Copy>(
    alloc: A,
    arguments: &[String],
) -> Result<Options<A>, SimulationError>
    ensures some { IfOk result (λ options. 0 < length options.capacities.items
        + length options.byte_capacities.items) }
    ensures within { IfOk result (λ options. All IsCapacity options.capacities.items) }
    ensures fit { IfOk result (λ options. MatchOption options.shares (Unit {0}) (λ shares. All (Fits (Some shares)) options.capacities.items)) }
    ensures asked { IfOk result (λ options. asked_from false (map string_bytes arguments.now) ≡ Some options.capacities.items) }
    ensures bytes { IfOk result (λ options. bytes_from false (map string_bytes arguments.now)
        ≡ Some (map non_zero_usize_get options.byte_capacities.items)) }
    ensures chosen { IfOk result (AreChosen (chosen_by (map string_bytes arguments.now))) }
    ensures names { IfOk result (λ options. options.traces.items ≡ names_from 0 None (map string_bytes arguments.now)) }
{
    let mut asked = Asked::new(alloc);
    for (index, argument) in arguments.iter().enumerate() {
        asked.take(alloc, argument.as_str(), index)?;
    }
    if asked.awaited.is_some() {
        let last = arguments.len().saturating_sub(1);
        return Err(SimulationError::Argument(ArgumentError::NoValue, last));
    }
    asked.finish(alloc)
}

/// Returns true if an argument is an option: a dash followed by another byte.
fn is_option(argument: &str) -> bool
    ensures option { result ≡ is_option argument.now }
{
    let bytes = argument.as_bytes();
    1 < bytes.len() && bytes[0] == b'-'
}

/// Returns true if an argument is a capacity or a range: it begins with a digit.
fn is_capacity(argument: &str) -> bool
    ensures capacity { result ≡ is_capacity argument.now }
{
    let bytes = argument.as_bytes();
    0 < bytes.len() && bytes[0].is_ascii_digit()
}

/// Returns true if an argument is a capacity in bytes: it begins with a digit and ends with a `B`.
fn is_in_bytes(argument: &str) -> bool
    ensures bytes { result ≡ is_in_bytes argument.now }
{
    is_capacity(argument) && ends_in(argument.as_bytes(), b'B')
}

/// What the arguments so far ask for.
#[derive(Drop)]
struct Asked<A: Allocator> {
    capacities: Vec<Amount, A>,
    byte_capacities: Vec<NonZeroUsize, A>,
    // The index of the argument that asks for the last one of these.
    last_in_bytes: Option<usize>,
    traces: Vec<usize, A>,
    chosen: Chosen<A>,
    // The option whose value comes next.
    awaited: Option<Valued>,
}

impl<A: Allocator + Copy> Asked<A> {
    fn new(alloc: A) -> Asked<A>
        ensures capacities { result.capacities.items ≡ [] }
        ensures bytes { result.byte_capacities.items ≡ [] }
        ensures awaited { result.awaited ≡ None }
        ensures traces { result.traces.items ≡ [] }
        ensures nothing { choices_so_far result.chosen ≡ nothing }
    {
        Asked {
            capacities: Vec::new(alloc),
            byte_capacities: Vec::new(alloc),
            last_in_bytes: None,
            traces: Vec::new(alloc),
            chosen: Chosen::none(),
            awaited: None,
        }
    }

    /// Takes the next argument.
    fn take(&mut self, alloc: A, argument: &str, index: usize) -> Result<(), SimulationError>
        requires within { All IsCapacity self.old.capacities.items }
        ensures within { OnOk result (All IsCapacity self.new.capacities.items) }
        ensures asked { OnOk result ((rest : List (List ℕ))
            → joined (Some self.new.capacities.items) (asked_from (is_some self.new.awaited) rest)
            ≡ joined (Some self.old.capacities.items)
            (asked_from (is_some self.old.awaited) (argument.now ∷ rest))) }
        ensures bytes { OnOk result ((rest : List (List ℕ)) → joined_bytes
            (map non_zero_usize_get self.new.byte_capacities.items) (bytes_from (is_some self.new.awaited) rest)
            ≡ joined_bytes (map non_zero_usize_get self.old.byte_capacities.items)
            (bytes_from (is_some self.old.awaited) (argument.now ∷ rest))) }
        ensures awaited { OnOk result (self.new.awaited ≡ awaited_after self.old.awaited argument.now) }
        ensures names { OnOk result (self.new.traces.items ≡ self.old.traces.items ++ (if is_name self.old.awaited argument.now then index ∷ [] else [])) }
        ensures chosen { OnOk result (choices_so_far self.new.chosen ≡ fold set (choices_so_far self.old.chosen) (option_to_list (setting_in self.old.awaited argument.now))) }
    {
        if let Some(option) = self.awaited {
            return self.take_value(alloc, option, argument, index);
        }
        if is_option(argument) {
            return self.take_option(alloc, argument, index);
        }
        if is_in_bytes(argument) {
            return self.take_bytes(argument, index);
        }
        if !is_capacity(argument) {
            return self.take_name(index);
        }
        let more = capacities_of(alloc, argument, index)?;
        self.capacities.extend_from_slice(&more)?;
        Ok(())
    }

    /// Takes a capacity in bytes.
    fn take_bytes(&mut self, argument: &str, index: usize) -> Result<(), SimulationError>
        ensures capacities { self.new.capacities ≡ self.old.capacities }
        ensures traces { self.new.traces ≡ self.old.traces }
        ensures chosen { self.new.chosen ≡ self.old.chosen }
        ensures awaited { self.new.awaited ≡ self.old.awaited }
        ensures bytes { OnOk result ((bytes : ℕ) × (bytes_in argument.now ≡ Some bytes)
            × (map non_zero_usize_get self.new.byte_capacities.items
            ≡ map non_zero_usize_get self.old.byte_capacities.items ++ bytes ∷ [])) }
    {
        let Some(capacity) = capacity_in_bytes(argument) else {
            return Err(SimulationError::Argument(ArgumentError::NotBytes, index));
        };
        self.last_in_bytes = Some(index);
        match self.byte_capacities.push(capacity) {
            Ok(()) => Ok(()),
            Err(_) => Err(SimulationError::Memory),
        }
    }

    /// Takes the argument that names a trace.
    fn take_name(&mut self, index: usize) -> Result<(), SimulationError>
        ensures traces { OnOk result (self.new.traces.items ≡ self.old.traces.items ++ index ∷ []) }
        ensures chosen { self.new.chosen ≡ self.old.chosen }
        ensures capacities { self.new.capacities ≡ self.old.capacities }
        ensures bytes { self.new.byte_capacities ≡ self.old.byte_capacities }
        ensures awaited { self.new.awaited ≡ self.old.awaited }
    {
        match self.traces.push(index) {
            Ok(()) => Ok(()),
            Err(_) => Err(SimulationError::Memory),
        }
    }

    /// Takes the value of an option.
    fn take_value(
        &mut self,
        alloc: A,
        option: Valued,
        value: &str,
        index: usize,
    ) -> Result<(), SimulationError>
        ensures capacities { self.new.capacities ≡ self.old.capacities }
        ensures bytes { self.new.byte_capacities ≡ self.old.byte_capacities }
        ensures traces { self.new.traces ≡ self.old.traces }
        ensures awaited { self.new.awaited ≡ None }
        ensures taken { OnOk result (choices_so_far self.new.chosen ≡ set (choices_so_far self.old.chosen) (Value option value.now)) }
    {
        self.awaited = None;
        self.chosen.take_value(alloc, option, value, index)
    }

    /// Takes an option, without the value that may be the next argument.
    fn take_option(&mut self, alloc: A, option: &str, index: usize) -> Result<(), SimulationError>
        ensures capacities { self.new.capacities ≡ self.old.capacities }
        ensures bytes { self.new.byte_capacities ≡ self.old.byte_capacities }
        ensures traces { self.new.traces ≡ self.old.traces }
        ensures awaited { OnOk result (is_some self.new.awaited ≡ takes_value option.now) }
        ensures option { OnOk result (self.new.awaited ≡ option_named option.now) }
        ensures taken { OnOk result (choices_so_far self.new.chosen ≡ fold set (choices_so_far self.old.chosen) (option_to_list (option_setting option.now))) }
    {
        self.awaited = Valued::named(option);
        if let Some(valued) = self.awaited {
            return self.chosen.refuse_second(valued, index);
        }
        let Some((name, value)) = option.split_once('=') else {
            return self.chosen.take_flag(option, index);
        };
        let Some(valued) = Valued::named(name) else {
            return Err(SimulationError::Argument(ArgumentError::UnknownOption, index));
        };
        self.chosen.refuse_second(valued, index)?;
        self.chosen.take_value(alloc, valued, value, index)
    }

    /// Returns what all arguments ask for.
    fn finish(self, alloc: A) -> Result<Options<A>, SimulationError>
        requires within { All IsCapacity self.capacities.items }
        ensures some { IfOk result (λ options. 0 < length options.capacities.items
            + length options.byte_capacities.items) }
        ensures within { IfOk result (λ options. All IsCapacity options.capacities.items) }
        ensures fit { IfOk result (λ options. MatchOption options.shares (Unit {0}) (λ shares. All (Fits (Some shares)) options.capacities.items)) }
        ensures asked { IfOk result (λ options. options.capacities ≡ self.capacities) }
        ensures bytes { IfOk result (λ options. options.byte_capacities ≡ self.byte_capacities) }
        ensures traces { IfOk result (λ options. options.traces ≡ self.traces) }
        ensures chosen { IfOk result (AreChosen (choices_so_far self.chosen)) }
    {
        match self.checked() {
            Ok(trace_format) => self.with_format(alloc, trace_format),
            Err(refusal) => Err(refusal),
        }
    }

    /// Refuses what doesn't go together, and returns the format of the traces.
    fn checked(&self) -> Result<TraceFormat, SimulationError>
        requires within { All IsCapacity self.now.capacities.items }
        ensures some { OnOk result (0 < length self.now.capacities.items + length self.now.byte_capacities.items) }
        ensures fit { OnOk result (MatchOption self.now.chosen.shares (Unit {0}) (λ shares. All (Fits (Some shares)) self.now.capacities.items)) }
        ensures format { IfOk result (IsFormat (format_so_far self.now.chosen.trace_format).name (format_so_far self.now.chosen.trace_format)) }
    {
        self.chosen.check_best_shares()?;
        self.chosen.check_traces(&self.traces)?;
        let trace_format = self.chosen.trace_format.finish()?;
        self.chosen.check_bytes(self.last_in_bytes, trace_format)?;
        if self.capacities.is_empty() && self.byte_capacities.is_empty() {
            return Err(SimulationError::NoCapacity);
        }
        check_for_clock(&self.chosen, &self.capacities)?;
        if let Some(shares) = self.chosen.shares {
            if !self.chosen.compares_clock2q() {
                return Err(SimulationError::UnusedShares);
            }
            shares.check(&self.capacities)?;
        }
        Ok(trace_format)
    }

    /// Returns what all arguments ask for, with the format of the traces.
    fn with_format(self, alloc: A, trace_format: TraceFormat) -> Result<Options<A>, SimulationError>
        requires format { IsFormat (format_so_far self.chosen.trace_format).name (format_so_far self.chosen.trace_format) trace_format }
        ensures capacities { IfOk result (λ options. options.capacities ≡ self.capacities) }
        ensures bytes { IfOk result (λ options. options.byte_capacities ≡ self.byte_capacities) }
        ensures traces { IfOk result (λ options. options.traces ≡ self.traces) }
        ensures shares { IfOk result (λ options. options.shares ≡ self.chosen.shares) }
        ensures chosen { IfOk result (AreChosen (choices_so_far self.chosen)) }
    {
        let mut chosen = self.chosen;
        let policies = match chosen.policies.take() {
            Some(policies) => policies,
            None => Vec::from_slice(alloc, &Policy::SHOWN)?,
        };
        Ok(Options {
            format: chosen.format.unwrap_or(Format::Table),
            capacities: self.capacities,
            byte_capacities: self.byte_capacities,
            traces: self.traces,
            policies,
            shares: chosen.shares,
            skipped: chosen.skipped.unwrap_or(0),
            window: chosen.window,
            trace_format,
            sample: chosen.sample,
            best_shares: chosen.best_shares.is_some(),
        })
    }
}
