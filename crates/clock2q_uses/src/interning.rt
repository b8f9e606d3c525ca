//! Key interning: each key gets a small number, and equal keys get the same one.
ghost use Rattle.clock2q_uses.specs.Interning.{spread};
ghost use Rattle.std.specs.Prelude.{◌≡◌, ◌≢◌, ◌⊎◌, ℕ, [], Some, IfOk, OnErr, IfSome, IfNone, slice_get};

use clock2q::handles::{Table, TableError};
use std::alloc::Global;
use std::marker::Model;

/// Keys, each once, in the order in which they arrived.
///
/// # Example
///
/// ```
/// let mut interner = Interner::new(rt.alloc());
/// assert_eq!(rt; interner.intern(70)?, 0);
/// assert_eq!(rt; interner.intern(80)?, 1);
/// assert_eq!(rt; interner.intern(70)?, 0);
/// assert_eq!(rt; interner.number_of(90), None);
/// ```
#[derive(Drop)]
pub struct Interner {
    numbers: Table<usize>,
    keys: Vec<u64>,
}

impl Model for Interner {
    ghost use Rattle.clock2q_uses.specs.Interning.{IsInterned};
    ghost use Rattle.std.specs.Prelude.{ℕ, List};

    ghost Value = { List ℕ };

    ghost view = { λ n. n.keys.items };

    ghost invariant = { λ n. IsInterned n.keys.items n.numbers.homes };
}

impl Interner {
    /// Returns an interner without keys.
    pub fn new(alloc: Global) -> Interner
        ensures empty { result ≡ [] }
    {
        Interner {
            numbers: Table::new(alloc),
            keys: Vec::new(alloc),
        }
    }

    /// Returns the key's number, if it has one.
    pub fn number_of(&self, key: u64) -> Option<usize>
        ensures found { IfSome result (λ number. slice_get self.now number ≡ Some key) }
        ensures none { IfNone result ((number : ℕ) → slice_get self.now number ≢ Some key) }
    {
        let keys = &self.keys;
        let found = self.numbers.search(hash_of(key), |at| keys[at] == key);
        let (number, _) = found.ok()?;
        Some(number)
    }

    /// Returns the key's number. A key that has none gets the next one.
    ///
    /// # Errors
    ///
    /// `Memory` if the list of keys or the table can't grow, and `RunTooLong` as
    /// [`Table::insert`](clock2q::handles::Table::insert) returns it. All keys keep their numbers,
    /// and none is added.
    pub fn intern(&mut self, key: u64) -> Result<usize, TableError>
        ensures number { IfOk result (λ number. slice_get self.new number ≡ Some key) }
        ensures same { IfOk result
            (λ number. (other : ℕ) → slice_get self.old other ≡ Some key → number ≡ other) }
        ensures only { (number held : ℕ) → slice_get self.new number ≡ Some held →
            (slice_get self.old number ≡ Some held) ⊎ (held ≡ key) }
        ensures kept { (number held : ℕ) → slice_get self.old number ≡ Some held →
            slice_get self.new number ≡ Some held }
        ensures refused { OnErr result (self.new ≡ self.old) }
    {
        if self.keys.reserve(1).is_err() {
            return Err(TableError::Memory);
        }
        let keys = &self.keys;
        let next = keys.len();
        let (number, is_new) = self.numbers.find_or_insert(
            hash_of(key),
            |at| keys[at] == key,
            next,
            |at| hash_of(keys[at]),
        )?;
        if is_new {
            self.keys.push_reserved(key);
        }
        Ok(number)
    }
}

/// Returns the key's hash.
#[tactic(auto, unfolding(crate::specs::Interning::spread))]
pub(crate) fn hash_of(key: u64) -> u64
    ensures hash { result ≡ spread key }
{
    key.wrapping_mul(0x9E37_79B9_7F4A_7C15)
}
