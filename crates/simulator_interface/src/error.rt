//! What a simulation refuses.
ghost use Rattle.std.specs.Prelude.{◌≡◌};

use crate::amount::{Amount, Unit};
use crate::outcome::STANDARD_INPUT;
use std::alloc::AllocError;
use std::{fmt, io};
use thiserror::Error;

/// What is wrong with an argument.
///
/// # Example
///
/// ```
/// let text = format!(in rt.alloc(); "{}", ArgumentError::UnknownOption)?;
/// assert_eq!(rt; text.as_str(), "unknown option");
/// ```
#[derive(Debug, Clone, Copy, PartialEq, Eq, Error)]
pub enum ArgumentError {
    /// It begins with a dash, and no option has this name.
    #[error("unknown option")]
    UnknownOption,
    /// It isn't an amount of at least 1, and has no two dots either.
    #[error("not a capacity (1 to 4294967295, 1k, 1M, 0.0001% to 100%, or 10..1M); before a trace's name put ./")]
    NotCapacity,
    /// It is more than [`MAX_CAPACITY`](crate::MAX_CAPACITY) keys, or an end of it is.
    #[error("a capacity above 4294967295")]
    LargeCapacity,
    /// An end of the range isn't an amount of at least 1, or only one end is a percentage.
    #[error("not a range (of keys from 1 to 4294967295, as 10..1M, or of percents, as 0.1%..50%)")]
    NotRange,
    /// The range ends below its beginning.
    #[error("range whose ends are the wrong way round")]
    ReversedRange,
    /// A name in it isn't that of a policy.
    #[error("unknown policy (--help policies names them)")]
    UnknownPolicy,
    /// It contains a name twice.
    #[error("policy named twice")]
    RepeatedPolicy,
    /// It isn't two shares, or three with the history's.
    #[error("not shares (small and window, and perhaps history, as small=20%,window=50%,history=90% or small=30,window=10)")]
    NotShares,
    /// Small's share is all of it, the window is longer than Small, one of them alone is 0, or the
    /// history remembers more keys than it.
    #[error("shares that fit no capacity")]
    UnfitShares,
    /// The option is given twice.
    #[error("option given twice")]
    RepeatedOption,
    /// An earlier argument asks for another form.
    #[error("a second form beside another one")]
    SecondForm,
    /// It isn't a number of accesses.
    #[error("not a number of accesses (as 100000, 100k or 1M)")]
    NotCount,
    /// It isn't a number of at least one access.
    #[error("not a number of accesses from 1 up (as 100000)")]
    NotLength,
    /// It names a second trace for a picture.
    #[error("a second trace, and a picture shows one")]
    SecondTrace,
    /// It isn't the name of a format.
    #[error("unknown format (lines, csv or oracleGeneral)")]
    UnknownFormat,
    /// It isn't the number of a column.
    #[error("not a column (1 for the first)")]
    NotColumn,
    /// It asks for the format csv, and no argument for a column.
    #[error("csv without a column of keys (--column=1 for the first)")]
    NoColumn,
    /// It asks for a column, and no argument for the format csv.
    #[error("a column of keys, which only --format=csv has")]
    UnusedColumn,
    /// It asks for a column of sizes, and no argument for the format csv.
    #[error("a column of sizes, which only --format=csv has")]
    UnusedSizes,
    /// It isn't what can be between two values.
    #[error("not a separator (one character of ASCII other than a quote, or tab)")]
    NotSeparator,
    /// It asks for a separator, and no argument for the format csv.
    #[error("a separator, which only --format=csv has")]
    UnusedSeparator,
    /// It says that there is no header, and no argument asks for the format csv.
    #[error("a header, which only --format=csv has")]
    UnusedHeader,
    /// It ends with a B, and isn't a number of bytes of at least 1.
    #[error("not a capacity in bytes (as 500B, 64kB or 1GiB)")]
    NotBytes,
    /// It is a capacity in bytes, and the traces have no sizes.
    #[error("a capacity in bytes, and the traces have no sizes (--help formats)")]
    UnsizedBytes,
    /// It is a capacity in bytes, and no policy is defined there.
    #[error("a capacity in bytes, for which no policy here is defined (--help formats)")]
    UndefinedBytes,
    /// It is a capacity in bytes, and the shares of Clock2Q+ are numbers of keys.
    #[error("a capacity in bytes, with --shares that aren't in percent")]
    CountedShares,
    /// It is a capacity in bytes, and another argument asks for what has none.
    #[error("a capacity in bytes, not with --window, --svg, --sample or --best-shares")]
    CrowdedBytes,
    /// It isn't a part of all keys.
    #[error("not a part of the keys (0.000001 to 0.999999, or 0.0001% to 100%)")]
    NotSample,
    /// It asks for the best shares, and another argument for shares, windows or a picture.
    #[error("not with --shares, --window or --svg")]
    CrowdedShares,
    /// It asks for the best shares of Clock2Q+, which isn't among the policies.
    #[error("shares of clock2q, which --policies leaves out")]
    BestOfNone,
    /// It needs an argument after it.
    #[error("nothing after it")]
    NoValue,
}

/// Why a simulation gave no result, or not all of it.
///
/// # Example
///
/// ```
/// let refused = parse_options(rt.alloc(), &[]); // without a capacity
/// assert_eq!(rt; refused.err(), Some(SimulationError::NoCapacity));
/// ```
#[derive(Debug, Clone, Copy, PartialEq, Eq, Error)]
pub enum SimulationError {
    /// An argument is wrong: why, and its index, counted from 0.
    #[error("argument {1}: {0}")]
    Argument(ArgumentError, usize),
    /// An argument is not in UTF-8.
    #[error("clock2q-simulate: an argument is not in UTF-8")]
    NotText,
    /// No argument is a capacity.
    #[error("clock2q-simulate: no capacity (see --help)")]
    NoCapacity,
    /// Shares are chosen for Clock2Q+, but it isn't among the policies.
    #[error("clock2q-simulate: --shares: shares of clock2q, which --policies leaves out")]
    UnusedShares,
    /// The chosen shares don't fit together in a cache of this capacity.
    #[error("clock2q-simulate: --shares: shares that don't fit a capacity of {0}")]
    Shares(usize),
    /// The chosen shares don't fit together in the cache that is as much smaller as the sample, at this
    /// capacity.
    #[error("clock2q-simulate: --shares: shares that don't fit the sample's part of a capacity of {0}")]
    SampledShares(Amount),
    /// This capacity is more than [`MAX_CLOCK_CAPACITY`](crate::MAX_CLOCK_CAPACITY), and Clock2Q+ or
    /// CLOCK is among the policies; or it is no key, or more than
    /// [`MAX_CAPACITY`](crate::MAX_CAPACITY).
    #[error("clock2q-simulate: {0}: a capacity above 16777215, which clock2q and clock can't have (choose others by --policies)")]
    Capacity(Amount),
    /// A request for memory was refused, at any step.
    #[error("clock2q-simulate: no memory")]
    Memory,
    /// A trace could not be opened.
    #[error("clock2q-simulate: a trace can't be opened")]
    Open,
    /// The trace could not be read to its end.
    #[error("clock2q-simulate: read failed")]
    Read,
    /// A line of a trace isn't values with separators, or has too few: its number and the column of
    /// the keys or of the sizes, both counted from 1.
    #[error("line {0}: not separated values with a column {1}")]
    Line(usize, usize),
    /// A line of a trace has something else than a size in the column of the sizes: its number and
    /// the column, both counted from 1.
    #[error("line {0}: not a size in bytes, as 4096, in column {1}")]
    Size(usize, usize),
    /// A trace ends inside a record, which begins after this many bytes.
    #[error("offset {0}: less than the 24 bytes of a record")]
    Record(usize),
    /// The sizes of a trace's accesses have a sum of more than 64 bits, or one of them has.
    #[error("sizes of more than 64 bits in all")]
    LargeSizes,
    /// The write failed. A prefix of the result, or all of it, may have been written.
    #[error("clock2q-simulate: write failed")]
    Write,
}

impl SimulationError {
    ghost use Rattle.simulator_interface.specs.SimulationError.{status_of};

    /// Returns the program's exit status: 2 for its arguments or a bad record, 3 if a capacity is
    /// too large or memory is refused, 4 if reading or writing failed.
    pub fn status(&self) -> u8
        ensures status { result ≡ status_of self.now }
    {
        match self {
            SimulationError::Argument(ArgumentError::LargeCapacity, _) => 3,
            SimulationError::Argument(..)
            | SimulationError::NotText
            | SimulationError::NoCapacity
            | SimulationError::UnusedShares
            | SimulationError::Shares(_)
            | SimulationError::SampledShares(_)
            | SimulationError::Line(_, _)
            | SimulationError::Size(_, _)
            | SimulationError::Record(_)
            | SimulationError::LargeSizes => 2,
            SimulationError::Memory | SimulationError::Capacity(_) => 3,
            SimulationError::Open | SimulationError::Read | SimulationError::Write => 4,
        }
    }

    /// Returns the refusal if the arguments can't be fetched: `Memory`, or `NotText`.
    pub fn of_arguments(error: &io::Error) -> SimulationError {
        match error.kind() {
            io::ErrorKind::OutOfMemory => SimulationError::Memory,
            _ => SimulationError::NotText,
        }
    }
}

impl From<AllocError> for SimulationError {
    ghost use Rattle.simulator_interface.specs.declared.error.SimulationError.TheVariants.{Memory};

    ghost from_gives = { λ _ refusal. refusal ≡ Memory };

    fn from(_error: AllocError) -> SimulationError {
        SimulationError::Memory
    }
}

/// A refusal with the arguments of the program, displayed as the line that reports it.
///
/// # Example
///
/// ```
/// if let Err(refusal) = parse_options(rt.alloc(), &arguments) {
///     eprintln!(rt; "{}", ErrorReport { refusal, trace: None, arguments: &arguments })?;
/// }
/// ```
#[derive(Drop)]
pub struct ErrorReport<'a> {
    /// The refusal.
    pub refusal: SimulationError,
    /// The index of the argument that names the trace it occurred at, if any.
    pub trace: Option<usize>,
    /// The arguments, one of which the line may contain.
    pub arguments: &'a [String],
}

/// Returns the argument at an index, or an empty string if there is none.
fn argument_at(arguments: &[String], index: usize) -> &str {
    match arguments.get(index) {
        Some(word) => word.as_str(),
        None => "",
    }
}

impl fmt::Display for ErrorReport<'_> {
    fn fmt<W: fmt::Write>(&self, f: &mut fmt::Formatter<W>) -> fmt::Result {
        match (self.refusal, self.trace) {
            (SimulationError::Argument(fault, index), _) => {
                let argument = argument_at(self.arguments, index);
                write!(f, "clock2q-simulate: {argument}: {fault}")
            }
            (SimulationError::Open, Some(index)) => {
                let name = argument_at(self.arguments, index);
                write!(
                    f,
                    "clock2q-simulate: {name}: can't be opened as a trace (a capacity begins with a digit)"
                )
            }
            (SimulationError::Read, Some(index)) => {
                let name = argument_at(self.arguments, index);
                write!(f, "clock2q-simulate: {name}: read failed")
            }
            (
                refusal @ (SimulationError::Line(_, _)
                | SimulationError::Size(_, _)
                | SimulationError::Record(_)
                | SimulationError::LargeSizes),
                trace,
            ) => {
                let name = trace.map_or(STANDARD_INPUT, |index| argument_at(self.arguments, index));
                write!(f, "clock2q-simulate: {name}: {refusal}")
            }
            (refusal, _) => write!(f, "{refusal}"),
        }
    }
}
