//! A line of values with a separator between them.
ghost use Rattle.std.specs.Prelude.{◌≡◌, ◌∷◌, ℕ, List, [], Err, IfErr, IfOk, Ok, OnOk, MatchBool, Some, None};
ghost use Rattle.std.specs.NonZero.{non_zero_usize_get};
ghost use Rattle.std.specs.Option.{option_map};
ghost use Rattle.simulator_traces.specs.Formats.{field, fields_from, is_blank, size_in, without_return};
ghost use Rattle.simulator_traces.specs.Fields.{IsEarly, after_step, found_in};
ghost use Rattle.simulator_traces.specs.Reading.{IsBad, IsOfLine};

use simulator_interface::{SimulationError, number_of};
use std::alloc::{AllocError, Allocator};
use std::num::NonZeroUsize;

/// Where in a field the next byte is.
#[derive(Clone, Copy)]
pub(crate) enum Place {
    /// At its beginning.
    Start,
    /// Inside it, and it isn't between quotes.
    Plain,
    /// Between its quotes.
    Quoted,
    /// After its last quote, or after the first of two.
    Closed,
}

/// What a byte of a line is.
#[derive(Clone, Copy)]
pub(crate) enum Step {
    /// A byte of the field.
    Add(Place),
    /// A quote around the field, or the first of two.
    Skip(Place),
    /// The separator after the field.
    End,
}

impl Place {
    /// Returns what the next byte is, or `None` if it can't be there.
    fn step(self, byte: u8, separator: u8) -> Option<Step>
        ensures step { (rest : List ℕ) → fields_from separator self (byte ∷ rest) ≡ after_step separator result byte rest }
    {
        match self {
            Place::Start => match byte {
                b'"' => Some(Step::Skip(Place::Quoted)),
                _ if byte == separator => Some(Step::End),
                _ => Some(Step::Add(Place::Plain)),
            },
            Place::Plain => match byte {
                b'"' => None,
                _ if byte == separator => Some(Step::End),
                _ => Some(Step::Add(Place::Plain)),
            },
            Place::Quoted => match byte {
                b'"' => Some(Step::Skip(Place::Closed)),
                _ => Some(Step::Add(Place::Quoted)),
            },
            Place::Closed => match byte {
                b'"' => Some(Step::Add(Place::Quoted)),
                _ if byte == separator => Some(Step::End),
                _ => None,
            },
        }
    }

    /// Returns true if a line may end there.
    fn may_end(self) -> bool
        ensures end { (separator : ℕ) → MatchBool result (fields_from separator self [] ≡ Some ([] ∷ [])) (fields_from separator self [] ≡ None) }
    {
        match self {
            Place::Quoted => false,
            Place::Start | Place::Plain | Place::Closed => true,
        }
    }
}

/// Returns a line without the carriage return at its end.
fn trimmed(line: &[u8]) -> &[u8]
    ensures trimmed { result.now ≡ without_return line.now }
{
    let end = line.len();
    if 0 < end && line[end - 1] == b'\r' {
        return &line[..end - 1];
    }
    line
}

/// Returns true if a line has no byte but a carriage return at its end.
pub(crate) fn is_blank(line: &[u8]) -> bool
    ensures blank { result ≡ is_blank line.now }
{
    trimmed(line).is_empty()
}

/// The reader of one column: the key that it read last, or what it has read of one.
#[derive(Drop)]
pub(crate) struct ColumnReader<A: Allocator> {
    /// The key.
    pub(crate) key: Vec<u8, A>,
    // Where in a field the next byte is.
    place: Place,
    // The number of this field's column if columns are counted down to 1 at the key's; later 0.
    left: usize,
}

impl<A: Allocator> ColumnReader<A> {
    /// Returns a reader that has read no key.
    pub(crate) fn new(alloc: A) -> ColumnReader<A> {
        ColumnReader {
            key: Vec::new(alloc),
            place: Place::Start,
            left: 0,
        }
    }

    /// Reads the field in a column of a line as the key. Returns false if the line isn't fields, or
    /// has fewer.
    pub(crate) fn read(
        &mut self,
        line: &[u8],
        separator: u8,
        column: NonZeroUsize,
    ) -> Result<bool, AllocError>
        ensures field { IfOk result (λ is_there. MatchBool is_there (field separator (non_zero_usize_get column) line.now ≡ Some self.new.key.items) (field separator (non_zero_usize_get column) line.now ≡ None)) }
    {
        self.key.clear();
        self.place = Place::Start;
        self.left = column.get();
        let text = trimmed(line);
        for byte in text {
            if !self.take(*byte, separator)? {
                return Ok(false);
            }
        }
        Ok(self.left <= 1 && self.place.may_end())
    }

    /// Reads the size in a column of a line, or returns 1 without a column. `number` is the line's
    /// number.
    pub(crate) fn read_size(
        &mut self,
        line: &[u8],
        separator: u8,
        column: Option<NonZeroUsize>,
        number: usize,
    ) -> Result<usize, SimulationError>
        ensures size { IfOk result (λ size. size_in separator (option_map non_zero_usize_get column) number line.now ≡ Ok size) }
        ensures named { IfErr result (IsOfLine separator number line.now) }
        ensures bad { IfErr result (λ refusal. IsBad refusal (size_in separator (option_map non_zero_usize_get column) number line.now ≡ Err refusal)) }
    {
        let Some(column) = column else {
            return Ok(1);
        };
        if !self.read(line, separator, column)? {
            return Err(SimulationError::Line(number, column.get()));
        }
        match number_of(&self.key) {
            Some(size) => Ok(size),
            None => Err(SimulationError::Size(number, column.get())),
        }
    }

    /// Takes the next byte of the line. Returns false if it can't be there.
    fn take(&mut self, byte: u8, separator: u8) -> Result<bool, AllocError>
        requires early { IsEarly self.old.left self.old.key.items }
        ensures early { OnOk result (IsEarly self.new.left self.new.key.items) }
        ensures taken { IfOk result (λ is_taken. MatchBool is_taken ((rest : List ℕ)
            → found_in self.old.left self.old.key.items (fields_from separator self.old.place (byte ∷ rest))
            ≡ found_in self.new.left self.new.key.items (fields_from separator self.new.place rest))
            ((rest : List ℕ) → fields_from separator self.old.place (byte ∷ rest) ≡ None)) }
    {
        let Some(step) = self.place.step(byte, separator) else {
            return Ok(false);
        };
        match step {
            Step::Skip(next) => {
                self.place = next;
                Ok(true)
            }
            Step::End => {
                self.place = Place::Start;
                self.left = self.left.saturating_sub(1);
                Ok(true)
            }
            Step::Add(next) if self.left == 1 => {
                self.place = next;
                self.key.reserve(1)?;
                self.key.push_reserved(byte);
                Ok(true)
            }
            Step::Add(next) => {
                self.place = next;
                Ok(true)
            }
        }
    }
}
