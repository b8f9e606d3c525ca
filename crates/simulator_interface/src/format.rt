//! The formats of traces, and the arguments that ask for one.
ghost use Rattle.std.specs.NonZero.{non_zero_usize_get};
ghost use Rattle.std.specs.Prelude.{◌≡◌, IfOk, OnOk, Some, false};
ghost use Rattle.simulator_interface.specs.AskedOptions.{AreColumns, IsFormat, format_named, format_so_far, positive_in, separator_in};
ghost use Rattle.simulator_interface.specs.TraceFormats.{has_sizes, headers};

use crate::amount::positive_of;
use crate::error::{ArgumentError, SimulationError};
use std::num::NonZeroUsize;

/// How a trace is written.
///
/// # Example
///
/// ```
/// let options = parse_options(rt.alloc(), &arguments)?; // of `--format=oracleGeneral 100`
/// assert_eq!(rt; options.trace_format, TraceFormat::OracleGeneral);
/// ```
#[derive(Clone, Copy, Debug, PartialEq, Eq)]
pub enum TraceFormat {
    /// A key a line. A line ends with the byte 10, which the last one may lack.
    Lines,
    /// Lines of values with a separator between them, in columns. A value may be between quotes, with
    /// each quote in it doubled, but has no line end. A carriage return at a line's end isn't part of
    /// it. A blank line is left out.
    Csv(Columns),
    /// Records of 24 bytes, little endian: the time in 4 bytes, the key in 8, the size in 4, the
    /// next access in 8. This is libCacheSim's format of that name.
    OracleGeneral,
}

impl TraceFormat {
    /// Returns true if the records of the format have sizes.
    pub fn has_sizes(self) -> bool
        ensures sizes { result ≡ has_sizes self }
    {
        match self {
            TraceFormat::Lines => false,
            TraceFormat::Csv(columns) => columns.size.is_some(),
            TraceFormat::OracleGeneral => true,
        }
    }
}

/// The columns of lines of values, and what is between them.
///
/// # Example
///
/// ```
/// let options = parse_options(rt.alloc(), &arguments)?; // of `--format=csv --column=2 100`
/// let TraceFormat::Csv(columns) = options.trace_format else { return Err(..) };
/// assert_eq!(rt; (columns.separator, columns.has_header), (b',', true));
/// ```
#[derive(Clone, Copy, Debug, PartialEq, Eq)]
pub struct Columns {
    /// The column of the keys, counted from 1.
    pub key: NonZeroUsize,
    /// The column of the sizes in bytes, as decimal numbers, if there is one.
    pub size: Option<NonZeroUsize>,
    /// The byte between two values.
    pub separator: u8,
    /// True if the first line is a header, which is no access.
    pub has_header: bool,
}

impl Columns {
    /// Returns how many of the first lines are headers.
    pub fn headers(self) -> usize
        ensures headers { result ≡ headers self }
    {
        if self.has_header { 1 } else { 0 }
    }
}

/// The name of a format.
#[derive(Clone, Copy)]
enum FormatName {
    Lines,
    Csv,
    OracleGeneral,
}

/// A value, and the index of its argument.
#[derive(Clone, Copy)]
struct Placed<T> {
    value: T,
    index: usize,
}

/// What the arguments so far ask for about the format of the traces.
#[derive(Clone, Copy)]
pub(crate) struct AskedFormat {
    name: Option<Placed<FormatName>>,
    column: Option<Placed<NonZeroUsize>>,
    size_column: Option<Placed<NonZeroUsize>>,
    separator: Option<Placed<u8>>,
    // The index of the argument that says that there is no header.
    no_header: Option<usize>,
}

impl AskedFormat {
    /// Nothing is asked for.
    pub(crate) const NONE: AskedFormat = AskedFormat {
        name: None,
        column: None,
        size_column: None,
        separator: None,
        no_header: None,
    };

    /// Returns true if a format was named.
    pub(crate) fn has_name(self) -> bool {
        self.name.is_some()
    }

    /// Returns true if a column was asked for.
    pub(crate) fn has_column(self) -> bool {
        self.column.is_some()
    }

    /// Returns true if a column of sizes was asked for.
    pub(crate) fn has_size_column(self) -> bool {
        self.size_column.is_some()
    }

    /// Returns true if a separator was asked for.
    pub(crate) fn has_separator(self) -> bool {
        self.separator.is_some()
    }

    /// Takes the name of a format.
    pub(crate) fn take_name(&mut self, name: &str, index: usize) -> Result<(), SimulationError>
        ensures taken { OnOk result (format_so_far self.new ≡ record (format_so_far self.old) { name = format_named name.now }) }
    {
        let value = match name {
            "lines" => FormatName::Lines,
            "csv" => FormatName::Csv,
            "oracleGeneral" => FormatName::OracleGeneral,
            _ => {
                return Err(SimulationError::Argument(ArgumentError::UnknownFormat, index));
            }
        };
        self.name = Some(Placed { value, index });
        Ok(())
    }

    /// Takes the number of the key's column.
    pub(crate) fn take_column(&mut self, word: &str, index: usize) -> Result<(), SimulationError>
        ensures taken { OnOk result (format_so_far self.new ≡ record (format_so_far self.old) { column = positive_in word.now }) }
    {
        self.column = Some(column_of(word, index)?);
        Ok(())
    }

    /// Takes the number of the size's column.
    pub(crate) fn take_size_column(
        &mut self,
        word: &str,
        index: usize,
    ) -> Result<(), SimulationError>
        ensures taken { OnOk result (format_so_far self.new ≡ record (format_so_far self.old) { size_column = positive_in word.now }) }
    {
        self.size_column = Some(column_of(word, index)?);
        Ok(())
    }

    /// Takes the byte between two values.
    pub(crate) fn take_separator(&mut self, word: &str, index: usize) -> Result<(), SimulationError>
        ensures taken { OnOk result (format_so_far self.new ≡ record (format_so_far self.old) { separator = separator_in word.now }) }
    {
        let Some(value) = separator_of(word) else {
            return Err(SimulationError::Argument(ArgumentError::NotSeparator, index));
        };
        self.separator = Some(Placed { value, index });
        Ok(())
    }

    /// Takes the option that says that there is no header.
    pub(crate) fn take_no_header(&mut self, index: usize) -> Result<(), SimulationError>
        ensures taken { format_so_far self.new ≡ record (format_so_far self.old) { has_header = false } }
    {
        match self.no_header.replace(index) {
            None => Ok(()),
            Some(_) => Err(SimulationError::Argument(ArgumentError::RepeatedOption, index)),
        }
    }

    /// Returns the format that all arguments ask for.
    pub(crate) fn finish(self) -> Result<TraceFormat, SimulationError>
        ensures format { IfOk result (IsFormat (format_so_far self).name (format_so_far self)) }
    {
        let Some(name) = self.name else {
            self.refuse_columns()?;
            return Ok(TraceFormat::Lines);
        };
        match name.value {
            FormatName::Csv => Ok(TraceFormat::Csv(self.columns(name.index)?)),
            FormatName::Lines => {
                self.refuse_columns()?;
                Ok(TraceFormat::Lines)
            }
            FormatName::OracleGeneral => {
                self.refuse_columns()?;
                Ok(TraceFormat::OracleGeneral)
            }
        }
    }

    /// Returns the columns that are asked for, of a format that the argument at an index names.
    fn columns(self, index: usize) -> Result<Columns, SimulationError>
        ensures columns { IfOk result (AreColumns (format_so_far self)) }
    {
        let Some(column) = self.column else {
            return Err(SimulationError::Argument(ArgumentError::NoColumn, index));
        };
        Ok(Columns {
            key: column.value,
            size: self.size_column.map(|column| column.value),
            separator: self.separator.map_or(b',', |separator| separator.value),
            has_header: self.no_header.is_none(),
        })
    }

    /// Refuses columns and what is said of their lines.
    fn refuse_columns(self) -> Result<(), SimulationError> {
        if let Some(column) = self.column {
            return Err(SimulationError::Argument(ArgumentError::UnusedColumn, column.index));
        }
        if let Some(column) = self.size_column {
            return Err(SimulationError::Argument(ArgumentError::UnusedSizes, column.index));
        }
        if let Some(separator) = self.separator {
            return Err(SimulationError::Argument(ArgumentError::UnusedSeparator, separator.index));
        }
        if let Some(index) = self.no_header {
            return Err(SimulationError::Argument(ArgumentError::UnusedHeader, index));
        }
        Ok(())
    }
}

/// Returns the byte that a word spells: its only one, or that of a tab.
fn separator_of(word: &str) -> Option<u8>
    ensures separator { result ≡ separator_in word.now }
{
    if word == "tab" {
        return Some(b'\t');
    }
    match word.as_bytes() {
        [byte] if byte.is_ascii() && *byte != b'"' && *byte != b'\n' && *byte != b'\r' => {
            Some(*byte)
        }
        _ => None,
    }
}

/// Returns the column that a word spells.
fn column_of(word: &str, index: usize) -> Result<Placed<NonZeroUsize>, SimulationError>
    ensures column { IfOk result (λ column. positive_in word.now ≡ Some (non_zero_usize_get column.value)) }
{
    match positive_of(word) {
        Some(value) => Ok(Placed { value, index }),
        None => Err(SimulationError::Argument(ArgumentError::NotColumn, index)),
    }
}
