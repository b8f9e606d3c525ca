//! A trace: keys of any bytes, identified by numbers.
ghost use Rattle.std.specs.Prelude.{◌≡◌, ◌≤◌, ◌^◌, [], ◌∷◌, ◌++◌, ◌<◌, false, true, if◌then◌else◌, IsTrue, None, OnOk, OnErr, length, vec_len, vec_capacity};
ghost use Rattle.simulator_traces.specs.Formats.{access, unsized};
ghost use Rattle.simulator_traces.specs.Sampled.{is_sampled};
ghost use Rattle.simulator_traces.specs.Trace.{AreNumbers, AreNumbersBelow, AreUsed, all_accesses, expected_of, sampled_keys, sizes_of};

use crate::known_keys::KnownKeys;
use clock2q_count::GhostValue;
use simulator_interface::{Sample, expected_accesses};
use std::alloc::{AllocError, Allocator, Global};
use std::hash::{BuildHasher, BuildHasherDefault, FoldHasher};
use std::marker::Model;

/// The hasher of a trace for which none is given, whose seed is fixed.
pub type DefaultHashBuilder = BuildHasherDefault<FoldHasher>;

/// The accesses of a trace, as a type for contracts alone: no value of it is ever made.
#[derive(Drop)]
struct Accesses;

impl Model for Accesses {
    ghost use Rattle.std.specs.Prelude.{List, []};
    ghost use Rattle.simulator_traces.specs.Formats.{Access};

    ghost Value = { List Access };

    ghost view = { λ _. [] };
}

/// The keys of a trace in order, or those in a sample, each identified by a number: equal keys by
/// the same one, and different keys by different ones. It has their sizes too, if they are kept.
///
/// # Example
///
/// ```
/// let mut growing = GrowingTrace::new(rt.alloc());
/// for key in [b"a", b"b", b"a"] {
///     growing.push(key)?;
/// }
/// let trace = growing.finish();
/// assert_eq!(rt; trace.numbers(), [0, 1, 0].as_slice());
/// assert_eq!(rt; trace.key_count(), 2);
/// ```
#[derive(Drop)]
pub struct Trace<A: Allocator> {
    numbers: Vec<u32, A>,
    // The size of each access, or none.
    sizes: Vec<usize, A>,
    is_sized: bool,
    different: usize,
    sample: Option<Sample>,
    // The number of accesses to keys in the sample and to others.
    all_accesses: usize,
    accesses: GhostValue<Accesses>,
}

impl<A: Allocator> Model for Trace<A> {
    ghost use Rattle.simulator_traces.specs.Sampled.{sampled};
    ghost use Rattle.simulator_traces.specs.Trace.{Numbered, IsTraceOf};

    ghost Value = { Numbered };

    ghost view = { λ t. record { accesses = t.accesses.value; sample = t.sample; is_sized = t.is_sized; numbers = t.numbers.items; different = t.different } };

    ghost invariant = { λ t. IsTraceOf (sampled t.sample t.accesses.value) t.is_sized t.numbers.items t.sizes.items t.different t.accesses.value t.all_accesses };
}

impl<A: Allocator> Trace<A> {
    /// Returns the numbers of the keys, in order.
    pub fn numbers(&self) -> &[u32]
        ensures alike { AreNumbers (sampled_keys self.now) result.now }
        ensures numbers { result.now ≡ self.now.numbers }
        ensures below { AreNumbersBelow self.now.different result.now }
    {
        &self.numbers
    }

    /// Returns the sizes of the accesses in bytes, in order, or nothing if they aren't kept.
    pub fn sizes(&self) -> &[usize]
        ensures sizes { result.now ≡ sizes_of self.now }
        ensures long { IsTrue self.now.is_sized → length result.now ≡ length self.now.numbers }
    {
        &self.sizes
    }

    /// Returns true if the sizes of the accesses are kept.
    pub fn has_sizes(&self) -> bool
        ensures sized { result ≡ self.now.is_sized }
    {
        self.is_sized
    }

    /// Returns the number of different keys.
    pub fn key_count(&self) -> usize
        ensures keys { result ≡ self.now.different }
        ensures used { AreUsed self.now.numbers result }
        ensures few { result ≤ 2 ^ 32 }
    {
        self.different
    }

    /// Returns the number of accesses to keys in the sample and to others.
    pub fn all_accesses(&self) -> usize
        ensures all { result ≡ all_accesses self.now }
    {
        self.all_accesses
    }

    /// Returns the number of accesses that hit ratios of `counted` ones are parts of: those of
    /// [`expected_accesses`].
    pub fn expected(&self, counted: usize) -> usize
        ensures expected { result ≡ expected_of self.now counted }
    {
        expected_accesses(self.sample, self.all_accesses, self.numbers.len(), counted)
    }
}

/// A trace that keys are still added to. It holds the bytes of the different ones, which the
/// [`Trace`] that it becomes no longer needs.
///
/// # Example
///
/// ```
/// let mut growing = GrowingTrace::new(rt.alloc());
/// growing.push(b"a")?;
/// growing.push(b"a")?;
/// assert_eq!(rt; growing.len(), 2);
/// assert_eq!(rt; growing.finish().key_count(), 1);
/// ```
#[derive(Drop)]
pub struct GrowingTrace<S: BuildHasher = DefaultHashBuilder, A: Allocator = Global> {
    numbers: Vec<u32, A>,
    sizes: Vec<usize, A>,
    is_sized: bool,
    known: KnownKeys<S, A>,
    sample: Option<Sample>,
    // The number of accesses so far to keys in the sample and to others.
    all: usize,
    accesses: GhostValue<Accesses>,
}

impl<S: BuildHasher, A: Allocator> Model for GrowingTrace<S, A> {
    ghost use Rattle.std.specs.Prelude.{length};
    ghost use Rattle.simulator_traces.specs.Sampled.{sampled};
    ghost use Rattle.simulator_traces.specs.Trace.{Numbered, IsGrowing};

    ghost Value = { Numbered };

    ghost view = { λ t. record { accesses = t.accesses.value; sample = t.sample; is_sized = t.is_sized; numbers = t.numbers.items; different = length t.known } };

    ghost invariant = { λ t. IsGrowing (sampled t.sample t.accesses.value) t.is_sized t.known t.numbers.items t.sizes.items t.accesses.value t.all };
}

impl<A: Allocator + Copy> GrowingTrace<DefaultHashBuilder, A> {
    /// Returns a trace without keys, whose hasher has a fixed seed ([`DefaultHashBuilder`]).
    pub fn new(alloc: A) -> GrowingTrace<DefaultHashBuilder, A>
        ensures empty { result.accesses ≡ [] }
        ensures whole { result.sample ≡ None }
    {
        GrowingTrace::with_hasher(alloc, DefaultHashBuilder::new())
    }
}

impl<S: BuildHasher, A: Allocator + Copy> GrowingTrace<S, A> {
    /// Returns a trace without keys, with the caller's hasher: use a `RandomState` if strangers
    /// choose the keys. The numbers don't depend on it.
    pub fn with_hasher(alloc: A, hasher: S) -> GrowingTrace<S, A>
        ensures empty { result.accesses ≡ [] }
        ensures whole { result.sample ≡ None }
    {
        GrowingTrace::with_sample(alloc, hasher, None)
    }

    /// Returns a trace without keys, which of those added to it keeps those in a sample.
    pub fn with_sample(alloc: A, hasher: S, sample: Option<Sample>) -> GrowingTrace<S, A>
        ensures empty { result.accesses ≡ [] }
        ensures sample { result.sample ≡ sample }
    {
        GrowingTrace::with_sizes(alloc, hasher, sample, false)
    }

    /// Does what [`GrowingTrace::with_sample`] does. The trace keeps the sizes of its accesses if
    /// `is_sized` is true: 8 bytes for each.
    pub fn with_sizes(
        alloc: A,
        hasher: S,
        sample: Option<Sample>,
        is_sized: bool,
    ) -> GrowingTrace<S, A>
        ensures empty { result.accesses ≡ [] }
        ensures sample { result.sample ≡ sample }
        ensures sized { result.is_sized ≡ is_sized }
    {
        GrowingTrace {
            numbers: Vec::new(alloc),
            sizes: Vec::new(alloc),
            is_sized,
            known: KnownKeys::new(alloc, hasher),
            sample,
            all: 0,
            accesses: GhostValue::new(&()),
        }
    }

    /// Adds a key at the end, of size 1, unless it isn't in the sample.
    ///
    /// # Errors
    ///
    /// `AllocError` if a request for memory is refused, if there are 2^32 different keys, or if
    /// their table refuses a new one, since its number would be more than 2^24 - 2 slots past its
    /// home. Nothing changes then.
    ///
    /// # Cost
    ///
    /// One lookup of the key among the different ones before it, and one insertion if it is new.
    pub fn push(&mut self, key: &[u8]) -> Result<(), AllocError>
        ensures added { OnOk result (self.new.accesses ≡ self.old.accesses ++ unsized key.now ∷ []) }
        ensures sample { self.new.sample ≡ self.old.sample }
        ensures sized { self.new.is_sized ≡ self.old.is_sized }
        ensures refused { OnErr result (self.new ≡ self.old) }
    {
        self.push_sized(key, 1)
    }

    /// Does what [`GrowingTrace::push`] does, with a size in bytes.
    ///
    /// # Errors
    ///
    /// Those of [`GrowingTrace::push`].
    ///
    /// # Cost
    ///
    /// That of [`GrowingTrace::push`].
    pub fn push_sized(&mut self, key: &[u8], size: usize) -> Result<(), AllocError>
        ensures added { OnOk result (self.new.accesses ≡ self.old.accesses ++ access key.now size ∷ []) }
        ensures sample { self.new.sample ≡ self.old.sample }
        ensures sized { self.new.is_sized ≡ self.old.is_sized }
        ensures refused { OnErr result (self.new ≡ self.old) }
    {
        if !is_sampled(self.sample, key) {
            self.accesses.set(&(key, size));
            self.all = self.all.saturating_add(1);
            return Ok(());
        }
        self.numbers.reserve(1)?;
        self.sizes.reserve(usize::from(self.is_sized))?;
        let number = self.known.number_of(key)?;
        self.numbers.push_reserved(number);
        keep_size(&mut self.sizes, self.is_sized, size);
        self.accesses.set(&(key, size));
        self.all = self.all.saturating_add(1);
        Ok(())
    }
}

/// Returns true if a key is in a sample, or if there is none.
fn is_sampled(sample: Option<Sample>, key: &[u8]) -> bool
    ensures sampled { result ≡ is_sampled sample key.now }
{
    match sample {
        Some(sample) => sample.has(key),
        None => true,
    }
}

/// Adds a size in reserved memory, if sizes are kept.
fn keep_size<A: Allocator>(sizes: &mut Vec<usize, A>, is_kept: bool, size: usize)
    requires room { is_kept ≡ true → vec_len sizes.old < vec_capacity sizes.old }
    ensures kept { sizes.new.items ≡ (if is_kept then sizes.old.items ++ size ∷ [] else sizes.old.items) }
{
    if is_kept {
        sizes.push_reserved(size);
    }
}

impl<S: BuildHasher + Drop, A: Allocator> GrowingTrace<S, A> {
    /// Returns the number of keys in the sample, counting equal ones separately.
    pub fn len(&self) -> usize
        ensures len { result ≡ length (sampled_keys self.now) }
    {
        self.numbers.len()
    }

    /// Returns the trace, and frees the memory that holds the bytes of the keys.
    pub fn finish(self) -> Trace<A>
        ensures same { result ≡ self }
    {
        let GrowingTrace {
            numbers,
            sizes,
            is_sized,
            known,
            sample,
            all,
            accesses,
        } = self;
        Trace {
            numbers,
            sizes,
            is_sized,
            different: known.len(),
            sample,
            all_accesses: all,
            accesses,
        }
    }
}
