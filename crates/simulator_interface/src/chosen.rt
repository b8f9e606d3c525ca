//! What the options among the arguments choose.
ghost use Rattle.std.specs.NonZero.{non_zero_usize_get};
ghost use Rattle.std.specs.Prelude.{◌≡◌, ◌++◌, IfOk, OnOk, Some, is_some, map, option_map, true};
ghost use Rattle.simulator_interface.specs.Amounts.{takes_value};
ghost use Rattle.simulator_interface.specs.AskedOptions.{Flag, Value, choices_so_far, form_named, nothing, option_named, plain_in, policies_in, policies_named, positive_in, replay_named, set, shares_in, traces_named};
ghost use Rattle.simulator_interface.specs.Sample.{sample_in};

use crate::amount::{plain_of, positive_of};
use crate::capacities::MAX_CLOCK_CAPACITY;
use crate::error::{ArgumentError, SimulationError};
use crate::format::{AskedFormat, TraceFormat};
use crate::options::Format;
use crate::policy::Policy;
use crate::sample::Sample;
use crate::shares::ChosenShares;
use std::alloc::Allocator;
use std::num::NonZeroUsize;

/// An option that takes a value.
#[derive(Clone, Copy)]
pub(crate) enum Valued {
    Policies,
    Shares,
    Skip,
    Window,
    Format,
    Column,
    SizeColumn,
    Separator,
    Sample,
}

impl Valued {
    /// Returns the option with a name. The shares also have their former name.
    pub(crate) fn named(name: &str) -> Option<Valued>
        ensures named { is_some result ≡ takes_value name.now }
        ensures option { result ≡ option_named name.now }
    {
        replay_named(name).or(traces_named(name))
    }
}

/// Returns the option with a name, if it says what is replayed.
fn replay_named(name: &str) -> Option<Valued>
    ensures option { result ≡ replay_named name.now }
{
    match name {
        "--policies" => Some(Valued::Policies),
        "--shares" => Some(Valued::Shares),
        "--policy" => Some(Valued::Shares),
        "--skip" => Some(Valued::Skip),
        "--window" => Some(Valued::Window),
        _ => None,
    }
}

/// Returns the option with a name, if it says how the traces are read.
fn traces_named(name: &str) -> Option<Valued>
    ensures option { result ≡ traces_named name.now }
{
    match name {
        "--format" => Some(Valued::Format),
        "--column" => Some(Valued::Column),
        "--size-column" => Some(Valued::SizeColumn),
        "--separator" => Some(Valued::Separator),
        "--sample" => Some(Valued::Sample),
        _ => None,
    }
}

/// What the options so far choose.
#[derive(Drop)]
pub(crate) struct Chosen<A: Allocator> {
    pub(crate) format: Option<Format>,
    pub(crate) policies: Option<Vec<Policy, A>>,
    pub(crate) shares: Option<ChosenShares>,
    pub(crate) skipped: Option<usize>,
    pub(crate) window: Option<NonZeroUsize>,
    pub(crate) trace_format: AskedFormat,
    pub(crate) sample: Option<Sample>,
    /// The index of the argument that asks for the best shares.
    pub(crate) best_shares: Option<usize>,
}

impl<A: Allocator> Chosen<A> {
    /// Nothing is chosen.
    pub(crate) fn none() -> Chosen<A>
        ensures nothing { choices_so_far result ≡ nothing }
    {
        Chosen {
            format: None,
            policies: None,
            shares: None,
            skipped: None,
            window: None,
            trace_format: AskedFormat::NONE,
            sample: None,
            best_shares: None,
        }
    }

    /// Refuses an option that was given before.
    pub(crate) fn refuse_second(
        &self,
        option: Valued,
        index: usize,
    ) -> Result<(), SimulationError> {
        let is_repeated = match option {
            Valued::Policies => self.policies.is_some(),
            Valued::Shares => self.shares.is_some(),
            Valued::Skip => self.skipped.is_some(),
            Valued::Window => self.window.is_some(),
            Valued::Format => self.trace_format.has_name(),
            Valued::Column => self.trace_format.has_column(),
            Valued::SizeColumn => self.trace_format.has_size_column(),
            Valued::Separator => self.trace_format.has_separator(),
            Valued::Sample => self.sample.is_some(),
        };
        if is_repeated {
            return Err(SimulationError::Argument(ArgumentError::RepeatedOption, index));
        }
        Ok(())
    }
}

impl<A: Allocator + Copy> Chosen<A> {
    /// Takes the value of an option.
    pub(crate) fn take_value(
        &mut self,
        alloc: A,
        option: Valued,
        value: &str,
        index: usize,
    ) -> Result<(), SimulationError>
        ensures taken { OnOk result (choices_so_far self.new ≡ set (choices_so_far self.old) (Value option value.now)) }
    {
        match option {
            Valued::Policies => self.policies = Some(policies_of(alloc, value, index)?),
            Valued::Shares => self.shares = Some(shares_of(value, index)?),
            Valued::Skip => self.skipped = Some(count_of(value, index)?),
            Valued::Window => self.window = Some(length_of(value, index)?),
            Valued::Format => self.trace_format.take_name(value, index)?,
            Valued::Column => self.trace_format.take_column(value, index)?,
            Valued::SizeColumn => self.trace_format.take_size_column(value, index)?,
            Valued::Separator => self.trace_format.take_separator(value, index)?,
            Valued::Sample => self.sample = Some(sample_of(value, index)?),
        }
        Ok(())
    }

    /// Takes an option that has no value.
    pub(crate) fn take_flag(&mut self, option: &str, index: usize) -> Result<(), SimulationError>
        ensures taken { OnOk result (choices_so_far self.new ≡ set (choices_so_far self.old) (Flag option.now)) }
    {
        if option == "--best-shares" {
            return self.take_best_shares(index);
        }
        if option == "--no-header" {
            return self.trace_format.take_no_header(index);
        }
        let Some(format) = format_of(option) else {
            return Err(SimulationError::Argument(ArgumentError::UnknownOption, index));
        };
        match self.format.replace(format) {
            None => Ok(()),
            Some(earlier) if earlier == format => {
                Err(SimulationError::Argument(ArgumentError::RepeatedOption, index))
            }
            Some(_) => Err(SimulationError::Argument(ArgumentError::SecondForm, index)),
        }
    }

    /// Takes the option that asks for the best shares.
    fn take_best_shares(&mut self, index: usize) -> Result<(), SimulationError>
        ensures taken { choices_so_far self.new ≡ record (choices_so_far self.old) { best_shares = true } }
    {
        match self.best_shares.replace(index) {
            None => Ok(()),
            Some(_) => Err(SimulationError::Argument(ArgumentError::RepeatedOption, index)),
        }
    }

    /// Returns true if Clock2Q+ is among the policies, as it is if none are chosen.
    pub(crate) fn compares_clock2q(&self) -> bool {
        match &self.policies {
            Some(policies) => policies.contains(&Policy::Clock2Q),
            None => true,
        }
    }

    /// Returns true if Clock2Q+ or CLOCK is among the policies.
    pub(crate) fn compares_clock(&self) -> bool {
        let has_clock = match &self.policies {
            Some(policies) => policies.contains(&Policy::Clock),
            None => false,
        };
        has_clock || self.compares_clock2q()
    }

    /// Refuses the best shares beside an option that leaves them no room.
    pub(crate) fn check_best_shares(&self) -> Result<(), SimulationError> {
        let Some(index) = self.best_shares else {
            return Ok(());
        };
        let is_svg = self.format == Some(Format::Svg);
        if is_svg || self.shares.is_some() || self.window.is_some() {
            return Err(SimulationError::Argument(ArgumentError::CrowdedShares, index));
        }
        if !self.compares_clock2q() {
            return Err(SimulationError::Argument(ArgumentError::BestOfNone, index));
        }
        Ok(())
    }
}

impl<A: Allocator> Chosen<A> {
    /// Refuses a second trace beside a picture, by the indices of the arguments that name traces.
    pub(crate) fn check_traces(&self, traces: &[usize]) -> Result<(), SimulationError> {
        match (self.format, traces) {
            (Some(Format::Svg), [_, second, ..]) => {
                Err(SimulationError::Argument(ArgumentError::SecondTrace, *second))
            }
            _ => Ok(()),
        }
    }

    /// Refuses a capacity in bytes, if an argument at an index asks for one, of traces without
    /// sizes, and beside what has no such capacities.
    pub(crate) fn check_bytes(
        &self,
        index: Option<usize>,
        trace_format: TraceFormat,
    ) -> Result<(), SimulationError> {
        let Some(index) = index else {
            return Ok(());
        };
        let is_svg = self.format == Some(Format::Svg);
        let is_best = self.best_shares.is_some();
        if is_svg || is_best || self.window.is_some() || self.sample.is_some() {
            return Err(SimulationError::Argument(ArgumentError::CrowdedBytes, index));
        }
        if !trace_format.has_sizes() {
            return Err(SimulationError::Argument(ArgumentError::UnsizedBytes, index));
        }
        if self.shares.is_some_and(|shares| shares.are_counted()) {
            return Err(SimulationError::Argument(ArgumentError::CountedShares, index));
        }
        match &self.policies {
            Some(policies) if !policies.iter().any(|policy| policy.has_bytes()) => {
                Err(SimulationError::Argument(ArgumentError::UndefinedBytes, index))
            }
            _ => Ok(()),
        }
    }
}

/// Returns the number of accesses that a value spells.
fn count_of(value: &str, index: usize) -> Result<usize, SimulationError>
    ensures count { IfOk result (λ count. plain_in value.now ≡ Some count) }
{
    match plain_of(value) {
        Some(count) => Ok(count),
        None => Err(SimulationError::Argument(ArgumentError::NotCount, index)),
    }
}

/// Returns the number of accesses, at least one, that a value spells.
fn length_of(value: &str, index: usize) -> Result<NonZeroUsize, SimulationError>
    ensures length { IfOk result (λ length. positive_in value.now ≡ Some (non_zero_usize_get length)) }
{
    match positive_of(value) {
        Some(length) => Ok(length),
        None => Err(SimulationError::Argument(ArgumentError::NotLength, index)),
    }
}

/// Returns the sample that a value spells.
fn sample_of(value: &str, index: usize) -> Result<Sample, SimulationError>
    ensures sample { IfOk result (λ sample. sample_in value.now ≡ Some sample) }
{
    match Sample::written(value) {
        Some(sample) => Ok(sample),
        None => Err(SimulationError::Argument(ArgumentError::NotSample, index)),
    }
}

/// Returns the shares that a value spells.
fn shares_of(value: &str, index: usize) -> Result<ChosenShares, SimulationError>
    ensures shares { IfOk result (λ shares. shares_in value.now ≡ Some shares) }
{
    let Some(shares) = ChosenShares::written(value) else {
        return Err(SimulationError::Argument(ArgumentError::NotShares, index));
    };
    if !shares.fit(MAX_CLOCK_CAPACITY) {
        return Err(SimulationError::Argument(ArgumentError::UnfitShares, index));
    }
    Ok(shares)
}

/// Returns the policies that a comma-separated list names.
fn policies_of<A: Allocator + Copy>(
    alloc: A,
    names: &str,
    index: usize,
) -> Result<Vec<Policy, A>, SimulationError>
    ensures policies { IfOk result (λ policies. policies_in names.now ≡ Some policies.items) }
{
    let parts: Vec<&str, A> = names.split(',').collect(alloc)?;
    let mut policies = Vec::new(alloc);
    match add_policies(&mut policies, &parts, index) {
        Ok(()) => Ok(policies),
        Err(refusal) => Err(refusal),
    }
}

/// Adds the policies of names.
fn add_policies<A: Allocator>(
    policies: &mut Vec<Policy, A>,
    names: &[&str],
    index: usize,
) -> Result<(), SimulationError>
    ensures policies { OnOk result (option_map (λ more. policies.old.items ++ more) (policies_named (map (λ name. name.now) names.now)) ≡ Some policies.new.items) }
{
    for name in names {
        let Some(policy) = Policy::named(name) else {
            return Err(SimulationError::Argument(ArgumentError::UnknownPolicy, index));
        };
        if policies.contains(&policy) {
            return Err(SimulationError::Argument(ArgumentError::RepeatedPolicy, index));
        }
        match policies.push(policy) {
            Ok(()) => {}
            Err(_) => return Err(SimulationError::Memory),
        }
    }
    Ok(())
}

/// Returns the form that an option asks for.
fn format_of(option: &str) -> Option<Format>
    ensures form { result ≡ form_named option.now }
{
    match option {
        "--csv" => Some(Format::Csv),
        "--svg" => Some(Format::Svg),
        "--json" => Some(Format::Json),
        _ => None,
    }
}
