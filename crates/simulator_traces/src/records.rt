//! The records of a trace, put together from blocks of bytes.
ghost use Rattle.std.specs.Prelude.{◌≡◌, ◌<◌, ◌∷◌, ◌++◌, ℕ, List, [], Err, IfErr, IfOk, Ok, OnOk, length};
ghost use Rattle.simulator_traces.specs.Formats.{Access, access_by, accesses_after, next_number, record_of};
ghost use Rattle.simulator_interface.specs.TraceFormats.{has_sizes};
ghost use Rattle.simulator_traces.specs.Reading.{HasNoEnd, IsBad, IsBegun, IsOfLines, IsOfLine, IsWholeRecord, TakesBytes, between, joined};

use crate::csv::{ColumnReader, is_blank};
use crate::trace::{GrowingTrace, Trace};
use simulator_interface::{Columns, Sample, SimulationError, TraceFormat};
use std::alloc::Allocator;
use std::hash::BuildHasher;

/// The number of bytes of a record of `OracleGeneral`.
const RECORD: usize = 24;

/// The accesses so far, and the beginning of a record that has not ended yet.
#[derive(Drop)]
pub(crate) struct Records<S: BuildHasher, A: Allocator> {
    pub(crate) format: TraceFormat,
    pub(crate) trace: GrowingTrace<S, A>,
    /// The bytes so far of the record that has not ended.
    pub(crate) begun: Vec<u8, A>,
    /// The number of records that have ended.
    pub(crate) count: usize,
    // Read the keys and the sizes of lines of fields.
    keys: ColumnReader<A>,
    sizes: ColumnReader<A>,
}

impl<S: BuildHasher, A: Allocator + Copy> Records<S, A> {
    /// Returns a trace before its first byte.
    pub(crate) fn new(
        alloc: A,
        hasher: S,
        sample: Option<Sample>,
        format: TraceFormat,
    ) -> Records<S, A>
        ensures format { result.format ≡ format }
        ensures accesses { result.trace.accesses ≡ [] }
        ensures sample { result.trace.sample ≡ sample }
        ensures sized { result.trace.is_sized ≡ has_sizes format }
        ensures begun { result.begun.items ≡ [] }
        ensures count { result.count ≡ 0 }
    {
        Records {
            format,
            trace: GrowingTrace::with_sizes(alloc, hasher, sample, format.has_sizes()),
            begun: Vec::new(alloc),
            count: 0,
            keys: ColumnReader::new(alloc),
            sizes: ColumnReader::new(alloc),
        }
    }
}

impl<S: BuildHasher + Drop, A: Allocator + Copy> Records<S, A> {
    /// Takes the next bytes.
    pub(crate) fn take(&mut self, bytes: &[u8]) -> Result<(), SimulationError>
        requires begun { IsBegun self.old.format self.old.begun.items }
        ensures format { self.new.format ≡ self.old.format }
        ensures sample { self.new.trace.sample ≡ self.old.trace.sample }
        ensures sized { self.new.trace.is_sized ≡ self.old.trace.is_sized }
        ensures taken { OnOk result (TakesBytes self.old.format self.old.trace.accesses self.old.count self.old.begun.items bytes.now self.new.trace.accesses self.new.count self.new.begun.items) }
        ensures bad { IfErr result (λ refusal. IsBad refusal ((next : List ℕ) → accesses_after self.old.format self.old.count (self.old.begun.items ++ (bytes.now ++ next)) ≡ Err refusal)) }
    {
        match self.format {
            TraceFormat::Lines | TraceFormat::Csv(..) => self.take_lines(bytes),
            TraceFormat::OracleGeneral => self.take_pieces(bytes),
        }
    }

    /// Takes the next bytes of lines.
    fn take_lines(&mut self, bytes: &[u8]) -> Result<(), SimulationError>
        requires lines { IsOfLines self.old.format }
        requires begun { IsBegun self.old.format self.old.begun.items }
        ensures format { self.new.format ≡ self.old.format }
        ensures sample { self.new.trace.sample ≡ self.old.trace.sample }
        ensures sized { self.new.trace.is_sized ≡ self.old.trace.is_sized }
        ensures taken { OnOk result (TakesBytes self.old.format self.old.trace.accesses self.old.count self.old.begun.items bytes.now self.new.trace.accesses self.new.count self.new.begun.items) }
        ensures bad { IfErr result (λ refusal. IsBad refusal ((next : List ℕ) → accesses_after self.old.format self.old.count (self.old.begun.items ++ (bytes.now ++ next)) ≡ Err refusal)) }
    {
        let mut start = 0;
        for index in 0..bytes.len() {
            if bytes[index] == b'\n' {
                self.end_line(&bytes[start..index])?;
                start = index + 1;
            }
        }
        self.extend(&bytes[start..])
    }

    /// Ends a line with its last bytes. A line that lies in one block is read there, not copied.
    fn end_line(&mut self, last: &[u8]) -> Result<(), SimulationError>
        requires lines { IsOfLines self.old.format }
        requires line { HasNoEnd (self.old.begun.items ++ last.now) }
        ensures format { self.new.format ≡ self.old.format }
        ensures sample { self.new.trace.sample ≡ self.old.trace.sample }
        ensures sized { self.new.trace.is_sized ≡ self.old.trace.is_sized }
        ensures begun { OnOk result (self.new.begun.items ≡ []) }
        ensures ended { OnOk result ((next : List ℕ)
            → joined self.old.trace.accesses
            (accesses_after self.old.format self.old.count
            ((self.old.begun.items ++ last.now) ++ (between self.old.format ++ next)))
            ≡ joined self.new.trace.accesses (accesses_after self.old.format self.new.count next)) }
        ensures bad { IfErr result (λ refusal. IsBad refusal ((next : List ℕ) → accesses_after self.old.format self.old.count ((self.old.begun.items ++ last.now) ++ (between self.old.format ++ next)) ≡ Err refusal)) }
    {
        match self.format {
            TraceFormat::Lines if self.begun.is_empty() => {
                self.trace.push(last)?;
                self.count = self.count.saturating_add(1);
                Ok(())
            }
            _ => {
                self.extend(last)?;
                self.end_record()
            }
        }
    }

    /// Takes the next bytes of records of one length.
    fn take_pieces(&mut self, bytes: &[u8]) -> Result<(), SimulationError>
        requires pieces { self.old.format ≡ TraceFormat.OracleGeneral }
        requires begun { IsBegun self.old.format self.old.begun.items }
        ensures format { self.new.format ≡ self.old.format }
        ensures sample { self.new.trace.sample ≡ self.old.trace.sample }
        ensures sized { self.new.trace.is_sized ≡ self.old.trace.is_sized }
        ensures taken { OnOk result (TakesBytes self.old.format self.old.trace.accesses self.old.count self.old.begun.items bytes.now self.new.trace.accesses self.new.count self.new.begun.items) }
        ensures bad { IfErr result (λ refusal. IsBad refusal ((next : List ℕ) → accesses_after self.old.format self.old.count (self.old.begun.items ++ (bytes.now ++ next)) ≡ Err refusal)) }
    {
        for byte in bytes {
            self.push(*byte)?;
            if self.begun.len() == RECORD {
                self.end_record()?;
            }
        }
        Ok(())
    }

    /// Adds a byte to the record.
    fn push(&mut self, byte: u8) -> Result<(), SimulationError>
        ensures begun { OnOk result (self.new.begun.items ≡ self.old.begun.items ++ byte ∷ []) }
        ensures trace { self.new.trace ≡ self.old.trace }
        ensures count { self.new.count ≡ self.old.count }
        ensures format { self.new.format ≡ self.old.format }
        ensures memory { IfErr result (λ refusal. refusal ≡ SimulationError.Memory) }
    {
        match self.begun.push(byte) {
            Ok(()) => Ok(()),
            Err(_) => Err(SimulationError::Memory),
        }
    }

    /// Adds bytes to the record.
    fn extend(&mut self, bytes: &[u8]) -> Result<(), SimulationError>
        ensures begun { OnOk result (self.new.begun.items ≡ self.old.begun.items ++ bytes.now) }
        ensures trace { self.new.trace ≡ self.old.trace }
        ensures count { self.new.count ≡ self.old.count }
        ensures format { self.new.format ≡ self.old.format }
        ensures memory { IfErr result (λ refusal. refusal ≡ SimulationError.Memory) }
    {
        match self.begun.extend_from_slice(bytes) {
            Ok(()) => Ok(()),
            Err(_) => Err(SimulationError::Memory),
        }
    }

    /// Ends the record: adds its access, unless it is a header.
    fn end_record(&mut self) -> Result<(), SimulationError>
        requires whole { IsWholeRecord self.old.format self.old.begun.items }
        ensures format { self.new.format ≡ self.old.format }
        ensures sample { self.new.trace.sample ≡ self.old.trace.sample }
        ensures sized { self.new.trace.is_sized ≡ self.old.trace.is_sized }
        ensures begun { OnOk result (self.new.begun.items ≡ []) }
        ensures counted { OnOk result (self.new.count ≡ next_number self.old.count) }
        ensures ended { OnOk result ((next : List ℕ)
            → joined self.old.trace.accesses
            (accesses_after self.old.format self.old.count
            (self.old.begun.items ++ (between self.old.format ++ next)))
            ≡ joined self.new.trace.accesses (accesses_after self.old.format self.new.count next)) }
        ensures bad { IfErr result (λ refusal. IsBad refusal ((next : List ℕ) → accesses_after self.old.format self.old.count (self.old.begun.items ++ (between self.old.format ++ next)) ≡ Err refusal)) }
    {
        self.add_access()?;
        self.count = self.count.saturating_add(1);
        self.begun.clear();
        Ok(())
    }

    /// Adds the access of the record, unless it is a header or a blank line.
    fn add_access(&mut self) -> Result<(), SimulationError>
        requires whole { IsWholeRecord self.old.format self.old.begun.items }
        ensures format { self.new.format ≡ self.old.format }
        ensures sample { self.new.trace.sample ≡ self.old.trace.sample }
        ensures sized { self.new.trace.is_sized ≡ self.old.trace.is_sized }
        ensures count { self.new.count ≡ self.old.count }
        ensures ended { OnOk result ((next : List ℕ)
            → joined self.old.trace.accesses
            (accesses_after self.old.format self.old.count
            (self.old.begun.items ++ (between self.old.format ++ next)))
            ≡ joined self.new.trace.accesses (accesses_after self.old.format (next_number self.old.count) next)) }
        ensures bad { IfErr result (λ refusal. IsBad refusal ((next : List ℕ) → accesses_after self.old.format self.old.count (self.old.begun.items ++ (between self.old.format ++ next)) ≡ Err refusal)) }
    {
        match self.format {
            TraceFormat::Csv(columns) => self.add_line(columns),
            TraceFormat::Lines => Ok(self.trace.push(&self.begun)?),
            TraceFormat::OracleGeneral => self.add_piece(),
        }
    }

    /// Adds the access of a line of fields, unless it is a header or blank.
    fn add_line(&mut self, columns: Columns) -> Result<(), SimulationError>
        requires line { HasNoEnd self.old.begun.items }
        ensures format { self.new.format ≡ self.old.format }
        ensures sample { self.new.trace.sample ≡ self.old.trace.sample }
        ensures sized { self.new.trace.is_sized ≡ self.old.trace.is_sized }
        ensures count { self.new.count ≡ self.old.count }
        ensures ended { OnOk result ((next : List ℕ)
            → joined self.old.trace.accesses
            (accesses_after (TraceFormat.Csv columns) self.old.count (self.old.begun.items ++ 10 ∷ next))
            ≡ joined self.new.trace.accesses (accesses_after (TraceFormat.Csv columns) (next_number self.old.count) next)) }
        ensures bad { IfErr result (λ refusal. IsBad refusal ((next : List ℕ)
            → accesses_after (TraceFormat.Csv columns) self.old.count (self.old.begun.items ++ 10 ∷ next) ≡ Err refusal)) }
    {
        if self.count < columns.headers() {
            return Ok(());
        }
        if is_blank(&self.begun) {
            return Ok(());
        }
        self.add_fields(columns)
    }

    /// Adds the access of a record of one length.
    fn add_piece(&mut self) -> Result<(), SimulationError>
        requires whole { length self.old.begun.items ≡ 24 }
        ensures added { OnOk result (self.new.trace.accesses ≡ self.old.trace.accesses ++ record_of self.old.begun.items ∷ []) }
        ensures count { self.new.count ≡ self.old.count }
        ensures format { self.new.format ≡ self.old.format }
        ensures sample { self.new.trace.sample ≡ self.old.trace.sample }
        ensures sized { self.new.trace.is_sized ≡ self.old.trace.is_sized }
        ensures memory { IfErr result (λ refusal. refusal ≡ SimulationError.Memory) }
    {
        let part = self.begun.as_slice();
        let size = u32::from_le_bytes([part[12], part[13], part[14], part[15]]);
        match self.trace.push_sized(&part[4..12], size as usize) {
            Ok(()) => Ok(()),
            Err(_) => Err(SimulationError::Memory),
        }
    }

    /// Adds the access of a line of fields.
    fn add_fields(&mut self, columns: Columns) -> Result<(), SimulationError>
        ensures access { OnOk result ((access : Access) × (access_by columns (next_number self.old.count) self.old.begun.items ≡ Ok access)
            × (self.new.trace.accesses ≡ self.old.trace.accesses ++ access ∷ [])) }
        ensures count { self.new.count ≡ self.old.count }
        ensures format { self.new.format ≡ self.old.format }
        ensures sample { self.new.trace.sample ≡ self.old.trace.sample }
        ensures sized { self.new.trace.is_sized ≡ self.old.trace.is_sized }
        ensures named { IfErr result (IsOfLine columns.separator (next_number self.old.count) self.old.begun.items) }
        ensures bad { IfErr result (λ refusal. IsBad refusal (access_by columns (next_number self.old.count) self.old.begun.items ≡ Err refusal)) }
    {
        let line = self.count.saturating_add(1);
        let separator = columns.separator;
        if !self.keys.read(&self.begun, separator, columns.key)? {
            return Err(SimulationError::Line(line, columns.key.get()));
        }
        let size = self
            .sizes
            .read_size(&self.begun, separator, columns.size, line)?;
        Ok(self.trace.push_sized(&self.keys.key, size)?)
    }

    /// Ends the last record: a line, even without its line end, or nothing of a record of bytes.
    pub(crate) fn finish(self) -> Result<Trace<A>, SimulationError>
        requires begun { IsBegun self.format self.begun.items }
        ensures sample { IfOk result (λ trace. trace.sample ≡ self.trace.sample) }
        ensures sized { IfOk result (λ trace. trace.is_sized ≡ self.trace.is_sized) }
        ensures accesses { IfOk result (λ trace. joined self.trace.accesses (accesses_after self.format self.count self.begun.items) ≡ Ok trace.accesses) }
        ensures bad { IfErr result (λ refusal. IsBad refusal (accesses_after self.format self.count self.begun.items ≡ Err refusal)) }
    {
        let mut records = self;
        if !records.begun.is_empty() {
            records.end_last()?;
        }
        Ok(records.trace.finish())
    }

    /// Ends the last record, of which there are some bytes.
    fn end_last(&mut self) -> Result<(), SimulationError>
        requires begun { IsBegun self.old.format self.old.begun.items }
        requires some { 0 < length self.old.begun.items }
        ensures sample { self.new.trace.sample ≡ self.old.trace.sample }
        ensures sized { self.new.trace.is_sized ≡ self.old.trace.is_sized }
        ensures accesses { OnOk result (joined self.old.trace.accesses (accesses_after self.old.format self.old.count self.old.begun.items) ≡ Ok self.new.trace.accesses) }
        ensures bad { IfErr result (λ refusal. IsBad refusal (accesses_after self.old.format self.old.count self.old.begun.items ≡ Err refusal)) }
    {
        match self.format {
            TraceFormat::Lines | TraceFormat::Csv(..) => self.end_record(),
            TraceFormat::OracleGeneral => {
                let offset = self.count.saturating_mul(RECORD);
                Err(SimulationError::Record(offset))
            }
        }
    }
}
